//! Inputs changed at random, and what the libraries do with them. The number of an input determines its changes, so a
//! run can be repeated.

use crate::followers::{Taking, bytes_of_all, follow};
use crate::group::{
    ADD_COMMIT, COMMIT, EXTENSIONS_COMMIT, FULL_COMMIT, GROUP_INFO, OPERATIONS, PATH_COMMIT,
    PROPOSAL, PSK_PROPOSAL, REINIT_PROPOSAL, TRANSCRIPT, TREE, TREE_CONTEXT, VALIDATION, VECTORS,
};
use crate::output::{Stop, have};
use mls_check::{TreeFault, validate_tree};
use mls_hash::{Suite, tree_hash};
use mls_msgs::{Message, Profile, Rules, decode_message_in, encode_message};
use mls_nodes::{GroupContext, NodeFault, decode_context};
use mls_show::Verdict;
use mls_tree::{PublicTree, root};
use mls_vectors::{CheckKind, run_check};
use mls_wire::{CodecFault, MemorySink, MemorySource, Opaque};
use std::alloc::Global;

// ---- changes

/// Pseudorandom numbers (the generator `splitmix64`).
#[derive(Drop)]
struct Chance {
    state: u64,
}

impl Chance {
    /// Returns the next number below `bound`, or 0.
    fn below(&mut self, bound: usize) -> usize {
        self.state = self.state.wrapping_add(0x9e37_79b9_7f4a_7c15);
        let mut mixed = self.state;
        mixed = (mixed ^ (mixed >> 30)).wrapping_mul(0xbf58_476d_1ce4_e5b9);
        mixed = (mixed ^ (mixed >> 27)).wrapping_mul(0x94d0_49bb_1331_11eb);
        mixed ^= mixed >> 31;
        (mixed % (bound as u64).max(1)) as usize
    }
}

/// Returns the bytes with one change: another byte, a cut, a repeated part, or a greater byte, as in a length.
fn change(alloc: Global, chance: &mut Chance, bytes: &[u8]) -> Result<Vec<u8>, Stop> {
    let at = chance.below(bytes.len()).min(bytes.len());
    let (front, rest) = bytes.split_at(at);
    let mut changed = have(Vec::from_slice(alloc, front))?;
    match (chance.below(4), rest.first()) {
        (0, _) | (_, None) => {}
        (1, _) => {
            let size = chance
                .below(rest.len().min(64))
                .saturating_add(1)
                .min(rest.len());
            have(changed.extend_from_slice(&rest[..size]))?;
            have(changed.extend_from_slice(rest))?;
        }
        (kind, Some(byte)) => {
            have(changed.extend_from_slice(rest))?;
            let more = chance.below(255).min(255) as u8;
            if let Some(target) = changed.get_mut(at) {
                *target = if kind == 2 {
                    byte.wrapping_add(more).wrapping_add(1)
                } else {
                    byte | (0x40 << (more % 2))
                };
            }
        }
    }
    Ok(changed)
}

/// Returns the bytes with one to three changes.
fn change_often(alloc: Global, chance: &mut Chance, bytes: &[u8]) -> Result<Vec<u8>, Stop> {
    let mut changed = have(Vec::from_slice(alloc, bytes))?;
    for _ in 0..chance.below(3).saturating_add(1) {
        changed = change(alloc, chance, changed.as_slice())?;
    }
    Ok(changed)
}

// ---- calls

/// Returns whether a message is decodable in a profile. If so, it must encode to the same bytes.
fn is_read(alloc: Global, profile: Profile, input: &[u8]) -> Result<bool, Stop> {
    match decode_message_in(alloc, profile, input) {
        Ok(message) => {
            let bytes = encode_message(alloc, &message);
            drop(message);
            if have(bytes)?.as_slice() != input {
                return Err(Stop::OtherBytes);
            }
            Ok(true)
        }
        Err(CodecFault::OutOfMemory) => Err(Stop::Memory),
        Err(_) => Ok(false),
    }
}

/// Returns whether a message is decodable in the full profile. If not, it must not be in the members' profile either.
fn is_read_in_full(alloc: Global, input: &[u8]) -> Result<bool, Stop> {
    let is_full = is_read(alloc, Profile::Full, input)?;
    if is_read(alloc, Profile::Members, input)? && !is_full {
        return Err(Stop::OtherProfile);
    }
    Ok(is_full)
}

/// Returns the last word of a text.
fn last_word(text: &str) -> &str {
    match text.rsplit_once(' ') {
        Some((_, last)) => last,
        None => text,
    }
}

/// Returns whether the last word of a text is a hash of 32 bytes.
fn ends_in_hash(text: &str) -> bool {
    last_word(text).len() == 64
}

/// Returns a time by chance, or none.
fn time_by_chance(chance: &mut Chance) -> Option<u64> {
    match chance.below(4) {
        0 => None,
        1 => Some(0),
        2 => Some(u64::MAX),
        _ => Some(chance.below(1_000_000_000) as u64),
    }
}

/// Returns the answers of a follower that has just started to messages, at a time if there is one. The text of an answer
/// ends in a hash if the message was accepted, otherwise it is a number.
fn answers_at(alloc: Global, time: Option<u64>, messages: &[Vec<u8>]) -> Result<String, Stop> {
    let taking = Taking {
        rules: Rules::plain(),
        profile: Profile::Members,
        time,
    };
    let followed = follow(alloc, taking, messages)?;
    if followed.was_refused {
        return Err(Stop::Memory);
    }
    Ok(followed.answers)
}

/// Returns whether answers at a time may come if these come without one: they are the same, or the last message is
/// accepted without a time and is outside of a lifetime at this one.
fn are_timed(timed: &str, untimed: &str) -> bool {
    timed == untimed || (ends_in_hash(untimed) && last_word(timed) == "53")
}

/// Returns whether a follower that has just started accepts a message after others. If it refuses the message, its
/// state must be unchanged. At a time it must answer as without one, or refuse the message by its lifetime.
fn is_taken(
    alloc: Global,
    before: &[&str],
    message: Vec<u8>,
    time: Option<u64>,
) -> Result<bool, Stop> {
    let mut messages = bytes_of_all(alloc, before)?;
    have(messages.push(message))?;
    let answers = answers_at(alloc, None, messages.as_slice())?;
    if time.is_some() {
        let timed = answers_at(alloc, time, messages.as_slice())?;
        if !are_timed(timed.as_str(), answers.as_str()) {
            return Err(Stop::OtherAtTime);
        }
    }
    Ok(ends_in_hash(answers.as_str()))
}

/// Returns whether a tree is valid in a GroupContext with its hash.
fn is_valid(alloc: Global, mut context: GroupContext, tree: &PublicTree) -> Result<bool, Stop> {
    let Ok(suite) = Suite::from_u16(1) else {
        return Err(Stop::OtherSuite);
    };
    let top = root(tree.leaf_count()).unwrap_or(0);
    let hash = have(tree_hash(suite, tree, top))?;
    context.tree_hash = have(Opaque::copy(alloc, hash.as_slice()))?;
    context.cipher_suite = suite.number();
    let answer = validate_tree(alloc, suite, &context, tree);
    drop(context);
    match answer {
        Ok(()) => Ok(true),
        Err(TreeFault::OutOfMemory) => Err(Stop::Memory),
        Err(_) => Ok(false),
    }
}

/// Returns whether bytes decode as a tree that is valid in a GroupContext with its hash.
fn is_valid_tree(alloc: Global, input: &[u8]) -> Result<bool, Stop> {
    let context = have(hex::decode(alloc, TREE_CONTEXT))?;
    match PublicTree::decode(alloc, input) {
        Ok(tree) => is_valid(
            alloc,
            have(decode_context(alloc, context.as_slice()))?,
            &tree,
        ),
        Err(NodeFault::OutOfMemory) => Err(Stop::Memory),
        Err(_) => Ok(false),
    }
}

/// Returns whether all test vectors pass.
fn is_passed(alloc: Global, kind: CheckKind, input: &[u8]) -> Result<bool, Stop> {
    let Ok(mut out) = MemorySink::new(alloc, 10_000, 40, None) else {
        return Err(Stop::Memory);
    };
    let mut source = MemorySource::new(input, 40, None);
    match have(run_check(alloc, kind, &mut source, &mut out))? {
        Verdict::Yes => Ok(true),
        Verdict::No => Ok(false),
    }
}

/// What is done with an input.
#[derive(Clone, Copy)]
enum Use {
    Read(&'static str),
    ReadInFull(&'static str),
    Take(&'static [&'static str], &'static str),
    Validate(&'static str),
    Check(CheckKind, &'static str),
}

/// What is done in turn, each with a changed input.
const USES: [Use; 24] = [
    Use::Read(GROUP_INFO),
    Use::Take(&[], PROPOSAL),
    Use::Validate(TREE),
    Use::Check(CheckKind::TreeMath, VECTORS),
    Use::Read(PROPOSAL),
    Use::Take(&[PROPOSAL], COMMIT),
    Use::Validate(TREE),
    Use::Check(CheckKind::TreeValidation, VALIDATION),
    Use::Read(COMMIT),
    Use::Take(&[PROPOSAL, COMMIT], PATH_COMMIT),
    Use::Validate(TREE),
    Use::Check(CheckKind::TreeOperations, OPERATIONS),
    Use::Read(ADD_COMMIT),
    Use::Take(&[PROPOSAL, COMMIT], ADD_COMMIT),
    Use::Validate(TREE),
    Use::Check(CheckKind::Transcript, TRANSCRIPT),
    Use::Read(EXTENSIONS_COMMIT),
    Use::Take(&[PROPOSAL, COMMIT], EXTENSIONS_COMMIT),
    Use::Validate(TREE),
    Use::Check(CheckKind::TreeMath, VECTORS),
    Use::ReadInFull(PSK_PROPOSAL),
    Use::ReadInFull(REINIT_PROPOSAL),
    Use::ReadInFull(FULL_COMMIT),
    Use::Take(&[PROPOSAL, COMMIT], PSK_PROPOSAL),
];

/// Returns whether the input with this number is decodable, accepted, valid or passed.
pub(crate) fn try_input(alloc: Global, number: u64) -> Result<bool, Stop> {
    let mut chance = Chance { state: number };
    let first = USES[(number % 24) as usize];
    let input = match first {
        Use::Read(text) | Use::ReadInFull(text) | Use::Take(_, text) | Use::Validate(text) => {
            have(hex::decode(alloc, text))?
        }
        Use::Check(_, text) => have(Vec::from_slice(alloc, text.as_bytes()))?,
    };
    let input = change_often(alloc, &mut chance, input.as_slice())?;
    match first {
        Use::Read(_) => is_read(alloc, Profile::Members, input.as_slice()),
        Use::ReadInFull(_) => is_read_in_full(alloc, input.as_slice()),
        Use::Take(before, _) => is_taken(alloc, before, input, time_by_chance(&mut chance)),
        Use::Validate(_) => is_valid_tree(alloc, input.as_slice()),
        Use::Check(kind, _) => is_passed(alloc, kind, input.as_slice()),
    }
}
