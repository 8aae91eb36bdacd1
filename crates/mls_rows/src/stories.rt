//! Rows of a follower: what it returns for messages, one after the other (RFC 9420, 12.4.2 and 12.4.3).

use crate::call_result::{CallResult, are_same, name_of};
use crate::fault::RowFault;
use crate::row::{Row, have};
use crate::state::{add_added, add_keys, add_state, state_of};
use crate::text_writer::TextWriter;
use mls_check::{SignatureCheck, Trusting, validate_members, validate_tree};
use mls_follow::{Follower, Refusal, StartRefused, Taken};
use mls_hash::Suite;
use mls_msgs::{GroupInfo, Message, Profile, decode_message};
use mls_nodes::requirements;
use mls_tree::PublicTree;
use std::alloc::Global;

// ---- results

/// Whether the hash of a follower's tree is cached. That of its root is.
fn is_cached<C: SignatureCheck>(follower: &Follower<C>) -> bool {
    let tree = follower.tree();
    tree.kept_hash(tree.leaf_count().saturating_sub(1))
        .is_some()
}

/// Whether the validator of members accepts a follower's tree, by this checker.
fn has_valid_members<C: SignatureCheck>(
    alloc: Global,
    follower: &Follower<C>,
    checker: &C,
) -> Result<bool, RowFault> {
    let context = follower.context();
    let required = have(requirements(alloc, context))?;
    let found = validate_members(
        alloc,
        context.cipher_suite,
        &context.group_id,
        &required,
        follower.tree(),
        checker,
    );
    drop(required);
    Ok(found.is_ok())
}

/// An accepted message: a proposal by its reference, a commit by the epoch that it began.
pub(crate) fn taken_text(alloc: Global, taken: Taken) -> Result<String, RowFault> {
    let mut text = TextWriter::new(alloc);
    match taken {
        Taken::Proposal(reference) => {
            text.add("proposal ");
            text.add_digits(reference.as_slice());
        }
        Taken::Commit(epoch) => {
            text.add("commit ");
            text.add_number(epoch);
        }
    }
    text.finish()
}

/// A refused message, by its number and its name.
fn refusal_text(alloc: Global, refusal: Refusal) -> Result<String, RowFault> {
    name_of(alloc, format!(in alloc; "{} {refusal:?}", refusal.number()))
}

/// The results for the messages until now.
#[derive(Drop)]
struct Results {
    /// All, with ` / ` between two.
    all: TextWriter,
    /// The last one.
    last: TextWriter,
    /// Whether each message before the last one was accepted.
    has_last: bool,
    /// Whether each message was accepted.
    is_accepted: bool,
}

impl Results {
    /// None yet.
    fn new(alloc: Global) -> Results {
        Results {
            all: TextWriter::new(alloc),
            last: TextWriter::new(alloc),
            has_last: false,
            is_accepted: true,
        }
    }

    /// Adds a result.
    fn add(&mut self, one: &str, is_accepted: bool) {
        self.all.separate(" / ");
        self.all.add(one);
        self.last = TextWriter::new(self.all.alloc);
        self.last.add(one);
        self.has_last = self.is_accepted;
        self.is_accepted = self.is_accepted && is_accepted;
    }

    /// Adds what follows all results.
    fn add_end(&mut self, end: &str) {
        self.all.add(end);
        self.last.add(end);
    }

    /// All results, and the last one if each message before it was accepted.
    fn finish(self) -> Result<CallResult, RowFault> {
        let Results {
            all,
            last,
            has_last,
            ..
        } = self;
        if has_last {
            CallResult::of_both(all.finish(), last.finish())
        } else {
            CallResult::of(all.finish())
        }
    }
}

/// Checks that both validators accept a follower's tree, by this checker, and that the hash of the tree is cached.
fn check_tree<C: SignatureCheck>(
    alloc: Global,
    follower: &Follower<C>,
    checker: &C,
    number: usize,
) -> Result<(), RowFault> {
    let Ok(suite) = Suite::from_u16(follower.context().cipher_suite) else {
        return Err(RowFault::NotValid(number));
    };
    if validate_tree(alloc, suite, follower.context(), follower.tree()).is_err() {
        return Err(RowFault::NotValid(number));
    }
    match has_valid_members(alloc, follower, checker) {
        Ok(true) if is_cached(follower) => Ok(()),
        Ok(true) => Err(RowFault::NotCached),
        Ok(false) => Err(RowFault::NotValid(number)),
        Err(fault) => Err(fault),
    }
}

/// Checks that a follower has this state.
fn check_state<C: SignatureCheck>(
    alloc: Global,
    follower: &Follower<C>,
    before: &[u8],
    number: usize,
) -> Result<(), RowFault> {
    match state_of(alloc, follower) {
        Ok(state) if state.as_slice() == before => Ok(()),
        Ok(_) => Err(RowFault::Changed(number)),
        Err(fault) => Err(fault),
    }
}

/// Adds a result that was made, if it was.
fn add_result(row: &Row, results: &mut Results, made: Result<String, RowFault>, is_accepted: bool) {
    match made {
        Ok(one) => results.add(one.as_str(), is_accepted),
        Err(fault) => row.record(fault),
    }
}

/// Hands a follower a message, at the time that the row has for it, if it has one. A refused message has to leave its state unchanged;
/// after an accepted one both validators have to accept its tree, by this checker, and the hash of the tree has to be cached.
fn hand_over<C: SignatureCheck>(
    row: &Row,
    at: usize,
    follower: &mut Follower<C>,
    checker: &C,
    results: &mut Results,
) {
    let number = at.saturating_sub(2);
    let before = row.made(state_of(row.alloc, follower));
    let (time, message) = row.timed_bytes(at);
    match follower.take_at(time, message.as_slice()) {
        Ok(taken) => {
            row.some(check_tree(row.alloc, follower, checker, number));
            add_result(row, results, taken_text(row.alloc, taken), true);
        }
        Err(refusal) => {
            row.some(check_state(row.alloc, follower, before.as_slice(), number));
            add_result(row, results, refusal_text(row.alloc, refusal), false);
        }
    }
}

/// What follows the results of a story: nothing, the state, the tree, or the KeyPackageRefs of those that the last commit added.
fn end_text<C: SignatureCheck>(row: &Row, follower: &Follower<C>) -> Result<String, RowFault> {
    let mut end = TextWriter::new(row.alloc);
    match row.word(0) {
        "story_state" | "full_story_state" => {
            end.add(" / state");
            add_state(follower, &mut end);
        }
        "story_tree" | "full_story_tree" => {
            end.add(" / tree");
            add_keys(follower, &mut end);
        }
        "story_added" | "full_story_added" => {
            end.add(" / added");
            add_added(follower, &mut end);
        }
        _ => {}
    }
    end.finish()
}

/// What a follower returns for the messages of a row.
fn follow<C: SignatureCheck>(
    row: &Row,
    follower: &mut Follower<C>,
    checker: &C,
) -> Result<CallResult, RowFault> {
    let mut results = Results::new(row.alloc);
    for at in 3..row.fields.len() {
        hand_over(row, at, follower, checker, &mut results);
    }
    row.some(state_of(row.alloc, follower));
    match end_text(row, follower) {
        Ok(end) => {
            results.add_end(end.as_str());
            results.finish()
        }
        Err(fault) => Err(fault),
    }
}

/// A field that is the message of a GroupInfo.
fn info_at(row: &Row, at: usize) -> Result<GroupInfo, RowFault> {
    match decode_message(row.alloc, row.bytes(at).as_slice()) {
        Ok(Message::GroupInfo(info)) => Ok(info),
        Ok(message) => {
            drop(message);
            Err(RowFault::Field(at, "a GroupInfo"))
        }
        Err(_) => Err(RowFault::Field(at, "a GroupInfo")),
    }
}

/// The profile of a story.
fn profile_of(row: &Row) -> Profile {
    match row.word(0) {
        "full_story" | "full_story_state" | "full_story_tree" | "full_story_added" => Profile::Full,
        _ => Profile::Members,
    }
}

/// A follower that starts from the GroupInfo of the first field, in the row's profile.
pub(crate) fn started<C: SignatureCheck>(row: &Row, checker: C) -> Result<Follower<C>, RowFault> {
    let info = info_at(row, 1)?;
    match Follower::start_in(row.alloc, profile_of(row), info, None, checker) {
        Ok(follower) => Ok(follower),
        Err(refused) => {
            drop(refused);
            Err(RowFault::Field(1, "a GroupInfo of a valid group"))
        }
    }
}

/// What a follower returns that starts with a checker, validated by another one like it.
fn story_by<C: SignatureCheck>(row: &Row, own: C, checker: &C) -> Result<CallResult, RowFault> {
    let mut follower = started(row, own)?;
    let results = follow(row, &mut follower, checker);
    drop(follower);
    results
}

/// `story | INFO | CHECKER | MESSAGE | ..`: what a follower returns for messages that starts from a GroupInfo. A message is taken at a
/// time if `at` and a number are before it. `story_state`, `story_tree` and `story_added` have the state, the tree, or the KeyPackageRefs
/// of those that the last commit added as well, after the last message. `full_story`, `full_story_state`, `full_story_tree` and
/// `full_story_added` are the same in the full profile.
pub(crate) fn story(row: &Row) -> Result<CallResult, RowFault> {
    row.has_at_least(3);
    if row.is_trusting(2) {
        story_by(row, Trusting, &Trusting)
    } else {
        story_by(row, row.receipts(2), &row.receipts(2))
    }
}

// ---- starts

/// The first state.
fn state_text<C: SignatureCheck>(
    alloc: Global,
    follower: &Follower<C>,
) -> Result<String, RowFault> {
    let mut text = TextWriter::new(alloc);
    text.add("state");
    add_state(follower, &mut text);
    text.finish()
}

/// The number and the name of the fault of a start.
fn start_fault_text<C: SignatureCheck>(
    alloc: Global,
    refused: &StartRefused<C>,
) -> Result<String, RowFault> {
    name_of(
        alloc,
        format!(in alloc; "{} {:?}", refused.fault.number(), refused.fault),
    )
}

/// The first state, or the number and the name of the fault.
fn start_text<C: SignatureCheck>(
    alloc: Global,
    started: Result<Follower<C>, StartRefused<C>>,
) -> Result<String, RowFault> {
    match started {
        Ok(follower) => {
            let text = state_text(alloc, &follower);
            drop(follower);
            text
        }
        Err(refused) => {
            let text = start_fault_text(alloc, &refused);
            drop(refused);
            text
        }
    }
}

/// The number and the name of the fault of a start. Another start with what this one returned has to give the same.
fn refused_text<C: SignatureCheck>(
    row: &Row,
    refused: StartRefused<C>,
) -> Result<String, RowFault> {
    let alloc = row.alloc;
    let name = start_fault_text(alloc, &refused);
    let StartRefused {
        info,
        tree,
        checker,
        ..
    } = refused;
    let again = start_text(alloc, Follower::start(alloc, info, tree, checker));
    if !are_same(&name, &again) {
        row.record(RowFault::TwoResults);
    }
    again
}

/// The result of a start, and of another one with what a refused one returns.
fn start_with<C: SignatureCheck>(
    row: &Row,
    info: GroupInfo,
    tree: Option<PublicTree>,
    checker: C,
) -> Result<CallResult, RowFault> {
    match Follower::start(row.alloc, info, tree, checker) {
        Ok(follower) => CallResult::of(start_text(row.alloc, Ok(follower))),
        Err(refused) => CallResult::of(refused_text(row, refused)),
    }
}

/// A field that is a tree, or `none`.
fn some_tree(row: &Row, at: usize) -> Option<PublicTree> {
    if row.word(at) == "none" {
        return None;
    }
    row.some(row.tree(at))
}

/// The result of a start by a checker.
fn start_by<C: SignatureCheck>(row: &Row, checker: C) -> Result<CallResult, RowFault> {
    match info_at(row, 1) {
        Ok(info) => start_with(row, info, some_tree(row, 2), checker),
        Err(fault) => Err(fault),
    }
}

/// `start | INFO | TREE or none | CHECKER`: the first state of a follower, or why it doesn't start; what is returned then has to give the
/// same result.
pub(crate) fn start(row: &Row) -> Result<CallResult, RowFault> {
    row.has(3);
    if row.is_trusting(3) {
        start_by(row, Trusting)
    } else {
        start_by(row, row.receipts(3))
    }
}
