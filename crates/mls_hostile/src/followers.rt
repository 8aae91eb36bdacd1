//! A follower: its start, and the messages it processes.

use crate::group::GROUP_INFO;
use crate::output::{Output, Stop, have};
use crate::signatures::{add_receipts, first_info};
use mls_apply::KnownProposal;
use mls_check::Trusting;
use mls_follow::{
    Follower, Refusal, SignatureListFault, StartFault, StartRefused, StrictRefused, Taken,
};
use mls_hash::{Suite, tree_hash};
use mls_msgs::{Profile, Rules, Sender, encode_proposal};
use mls_nodes::{GroupContext, encode_context, encode_ratchet_tree};
use mls_report::fault_text::strict_refused_text;
use mls_tree::{HashValue, PublicTree};
use mls_wire::{Opaque, bytes_of};
use std::alloc::Global;

/// A follower that accepts every signature.
pub(crate) type TrustingFollower = Follower<Trusting>;

// ---- states

/// Appends the tree hash at each node index to a state.
fn add_hashes(suite: u16, tree: &PublicTree, state: &mut Vec<u8>) -> Result<(), Stop> {
    let Ok(suite) = Suite::from_u16(suite) else {
        return Err(Stop::OtherSuite);
    };
    for node_index in 0..tree.leaf_count().saturating_mul(2).saturating_sub(1) {
        let hash = have(tree_hash(suite, tree, node_index))?;
        have(state.extend_from_slice(hash.as_slice()))?;
    }
    Ok(())
}

/// Appends the sender of a pending proposal to a state.
fn add_sender(sender: Sender, state: &mut Vec<u8>) -> Result<(), Stop> {
    let (kind, index) = match sender {
        Sender::Member(index) => (1, index),
        Sender::External(index) => (2, index),
        Sender::NewMemberProposal => (3, 0),
        Sender::NewMemberCommit => (4, 0),
    };
    have(state.push(kind))?;
    have(state.extend_from_slice(&index.to_be_bytes()))
}

/// Appends bytes, and before them how many they are, to a state.
fn add_opaque(bytes: &Opaque, state: &mut Vec<u8>) -> Result<(), Stop> {
    let bytes = bytes.as_slice();
    have(state.extend_from_slice(&(bytes.len() as u64).to_be_bytes()))?;
    have(state.extend_from_slice(bytes))
}

/// Appends the pending proposals to a state.
fn add_known(alloc: Global, known: &[KnownProposal], state: &mut Vec<u8>) -> Result<(), Stop> {
    for proposal in known {
        have(state.extend_from_slice(proposal.reference.as_slice()))?;
        add_sender(proposal.sender, state)?;
        let bytes = have(encode_proposal(alloc, &proposal.proposal))?;
        have(state.extend_from_slice(bytes.as_slice()))?;
        add_opaque(&proposal.authenticated_data, state)?;
        add_opaque(&proposal.signature, state)?;
    }
    Ok(())
}

/// Appends the KeyPackageRefs of those that the last commit added to a state.
fn add_added(added: Option<&[HashValue]>, state: &mut Vec<u8>) -> Result<(), Stop> {
    let Some(references) = added else {
        return have(state.push(0));
    };
    have(state.push(1))?;
    for reference in references {
        have(state.extend_from_slice(reference.as_slice()))?;
    }
    Ok(())
}

/// Returns a follower's state, with `tree` instead of its own: the context, every node, every tree hash, the interim
/// transcript hash, the pending proposals and those that the last commit added.
fn state_with(
    alloc: Global,
    follower: &TrustingFollower,
    tree: &PublicTree,
) -> Result<Vec<u8>, Stop> {
    let context = follower.context();
    let mut state = have(encode_context(alloc, context))?;
    let nodes = have(encode_ratchet_tree(alloc, tree.nodes()))?;
    have(state.extend_from_slice(nodes.as_slice()))?;
    add_hashes(context.cipher_suite, tree, &mut state)?;
    have(state.extend_from_slice(follower.interim().as_slice()))?;
    add_known(alloc, follower.known(), &mut state)?;
    add_added(follower.added(), &mut state)?;
    Ok(state)
}

/// The same with a tree made of the nodes of its own, which has no cached hashes.
pub(crate) fn state_anew(alloc: Global, follower: &TrustingFollower) -> Result<Vec<u8>, Stop> {
    let nodes = have(encode_ratchet_tree(alloc, follower.tree().nodes()))?;
    match PublicTree::decode(alloc, nodes.as_slice()) {
        Ok(tree) => state_with(alloc, follower, &tree),
        Err(_) => Err(Stop::Memory),
    }
}

// ---- messages

/// Returns the text of an accepted message: the reference of a proposal; for a commit the epoch after it, with the tree
/// hash and the confirmed transcript hash.
fn taken_text(alloc: Global, context: &GroupContext, taken: Taken) -> Result<String, Stop> {
    match taken {
        Taken::Proposal(reference) => {
            let reference = have(hex::encode(alloc, reference.as_slice()))?;
            have(format!(in alloc; "proposal {reference}"))
        }
        Taken::Commit(epoch) => {
            let hash = have(hex::encode(alloc, context.tree_hash.as_slice()))?;
            let confirmed = have(hex::encode(alloc, context.confirmed.as_slice()))?;
            have(format!(in alloc; "commit {epoch} {hash} {confirmed}"))
        }
    }
}

/// Returns the text of an answer. `context` is the follower's context after the message.
fn answer_text(
    alloc: Global,
    context: &GroupContext,
    answer: Result<Taken, Refusal>,
) -> Result<String, Stop> {
    match answer {
        Ok(taken) => taken_text(alloc, context, taken),
        Err(refusal) => have(format!(in alloc; "{}", refusal.number())),
    }
}

/// Appends an answer to those before. `context` is the follower's context after the message.
fn add_answer(
    alloc: Global,
    context: &GroupContext,
    answer: Result<Taken, Refusal>,
    text: &mut String,
) -> Result<(), Stop> {
    let answer = answer_text(alloc, context, answer)?;
    if !text.is_empty() {
        have(text.push_str("; "))?;
    }
    have(text.push_str(answer.as_str()))
}

/// Returns whether a follower's state is `before`.
pub(crate) fn is_unchanged(
    alloc: Global,
    follower: &TrustingFollower,
    before: &[u8],
) -> Result<bool, Stop> {
    let after = state_with(alloc, follower, follower.tree())?;
    Ok(before == after.as_slice())
}

// ---- followers

/// Returns whether a start ran out of memory and returned what was passed: the GroupInfo of this message, and no tree.
fn is_handed_back(
    alloc: Global,
    refused: &StartRefused<Trusting>,
    input: &[u8],
) -> Result<bool, Stop> {
    let bytes = have(bytes_of(alloc, &refused.info))?;
    let is_memory = refused.fault == StartFault::OutOfMemory;
    Ok(is_memory && refused.tree.is_none() && input.get(4..) == Some(bytes.as_slice()))
}

/// Starts a follower with these strict rules and this profile on the group of member 0 alone. Returns also whether it ran
/// out of memory. If so, the start must return what was passed, and is repeated with that.
pub(crate) fn start(
    alloc: Global,
    rules: Rules,
    profile: Profile,
) -> Result<(TrustingFollower, bool), Stop> {
    let input = have(hex::decode(alloc, GROUP_INFO))?;
    let info = first_info(alloc, input.as_slice())?;
    match Follower::start_by(alloc, rules, profile, info, None, Trusting) {
        Ok(follower) => Ok((follower, false)),
        Err(refused) => {
            if !is_handed_back(alloc, &refused, input.as_slice())? {
                return Err(Stop::NotStarted);
            }
            let StartRefused {
                info,
                tree,
                checker,
                ..
            } = refused;
            match Follower::start_by(alloc, rules, profile, info, tree, checker) {
                Ok(follower) => Ok((follower, true)),
                Err(_) => Err(Stop::NotStarted),
            }
        }
    }
}

/// Gets the signatures of a message from a follower, appends their receipts, and returns whether `signatures_to_verify`
/// ran out of memory. The state must be `before`, whatever is returned. If it ran out of memory, it is called again.
fn push_signatures(
    alloc: Global,
    follower: &mut TrustingFollower,
    message: &[u8],
    before: &[u8],
    receipts: &mut String,
) -> Result<bool, Stop> {
    let mut answer = follower.signatures_to_verify(message);
    if !is_unchanged(alloc, follower, before)? {
        return Err(Stop::Changed);
    }
    let was_refused = matches!(answer, Err(SignatureListFault::OutOfMemory));
    if was_refused {
        answer = follower.signatures_to_verify(message);
        if !is_unchanged(alloc, follower, before)? {
            return Err(Stop::Changed);
        }
    }
    match answer {
        Ok(signatures) => add_receipts(alloc, &signatures, receipts)?,
        Err(SignatureListFault::Malformed) => {}
        Err(SignatureListFault::OutOfMemory) => return Err(Stop::OtherSignatures),
    }
    Ok(was_refused)
}

/// A message, and the time at which a follower takes it, if there is one.
#[derive(Clone, Copy)]
struct TimedMessage<'a> {
    time: Option<u64>,
    bytes: &'a [u8],
}

/// Passes a message to a follower, appends its answer, and returns whether it ran out of memory. A refused message must
/// leave the state unchanged. If it ran out of memory, the message is passed again.
fn hand_over(
    alloc: Global,
    follower: &mut TrustingFollower,
    message: TimedMessage<'_>,
    before: &[u8],
    text: &mut String,
) -> Result<bool, Stop> {
    let mut answer = follower.take_at(message.time, message.bytes);
    if answer.is_err() && !is_unchanged(alloc, follower, before)? {
        return Err(Stop::Changed);
    }
    let was_refused = answer == Err(Refusal::OutOfMemory);
    if was_refused {
        answer = follower.take_at(message.time, message.bytes);
    }
    add_answer(alloc, follower.context(), answer, text)?;
    Ok(was_refused)
}

/// How messages are taken: by a follower that starts with these strict rules and this profile, and at a time, if there is one.
#[derive(Clone, Copy)]
pub(crate) struct Taking {
    pub(crate) rules: Rules,
    pub(crate) profile: Profile,
    pub(crate) time: Option<u64>,
}

impl Taking {
    /// Without a time.
    pub(crate) fn untimed(rules: Rules, profile: Profile) -> Taking {
        Taking {
            rules,
            profile,
            time: None,
        }
    }
}

/// What a follower returns for messages.
#[derive(Drop)]
pub(crate) struct Followed {
    /// Whether a call first ran out of memory, left everything unchanged, and was repeated.
    pub(crate) was_refused: bool,
    /// The answers to the messages.
    pub(crate) answers: String,
    /// The receipts of the signatures of the messages.
    pub(crate) receipts: String,
}

/// Passes messages to a follower, at a time if there is one. Before each message its signatures are requested.
pub(crate) fn pass(
    alloc: Global,
    follower: &mut TrustingFollower,
    time: Option<u64>,
    messages: &[Vec<u8>],
) -> Result<Followed, Stop> {
    let mut was_refused = false;
    let mut answers = String::new(alloc);
    let mut receipts = String::new(alloc);
    for message in messages {
        let bytes = message.as_slice();
        let before = state_anew(alloc, follower)?;
        let before = before.as_slice();
        was_refused |= push_signatures(alloc, follower, bytes, before, &mut receipts)?;
        let message = TimedMessage { time, bytes };
        was_refused |= hand_over(alloc, follower, message, before, &mut answers)?;
    }
    Ok(Followed {
        was_refused,
        answers,
        receipts,
    })
}

/// Passes messages to a follower that starts on the group of member 0 alone and accepts every signature.
pub(crate) fn follow(
    alloc: Global,
    taking: Taking,
    messages: &[Vec<u8>],
) -> Result<Followed, Stop> {
    let (mut follower, was_refused) = start(alloc, taking.rules, taking.profile)?;
    let followed = pass(alloc, &mut follower, taking.time, messages);
    drop(follower);
    let mut followed = followed?;
    followed.was_refused |= was_refused;
    Ok(followed)
}

/// Returns the answers to messages, whose signatures must have these receipts.
pub(crate) fn write_answers(
    alloc: Global,
    taking: Taking,
    messages: &[&str],
    receipts: &str,
) -> Result<Output, Stop> {
    let messages = bytes_of_all(alloc, messages)?;
    let followed = follow(alloc, taking, messages.as_slice())?;
    if followed.receipts.as_str() != receipts {
        return Err(Stop::OtherSignatures);
    }
    Ok(Output {
        was_refused: followed.was_refused,
        text: followed.answers,
    })
}

// ---- strict rules

/// Returns the strict rules that the groups of the examples meet: all but 40, 44 and 45, since tags, keys and ciphertexts
/// have one byte.
pub(crate) fn met_rules() -> Result<Rules, Stop> {
    match Rules::from_bits(0x1fce) {
        Some(rules) => Ok(rules),
        None => Err(Stop::NotStarted),
    }
}

/// Returns whether a follower has no strict rules, and its state is `before`.
fn is_plain_still(alloc: Global, follower: &TrustingFollower, before: &[u8]) -> Result<bool, Stop> {
    Ok(follower.rules().is_plain() && is_unchanged(alloc, follower, before)?)
}

/// Returns the text of an answer of `make_strict`.
fn added_text(alloc: Global, answer: Result<(), StrictRefused>) -> Result<String, Stop> {
    match answer {
        Ok(()) => have(String::from_str(alloc, "added")),
        Err(refused) => have(strict_refused_text(alloc, refused)),
    }
}

/// Adds strict rules to a follower that has none. Returns the answer, and whether `make_strict` ran out of memory. If it
/// adds none, the state must be unchanged. If it ran out of memory, it is called again.
fn add_rules(
    alloc: Global,
    follower: &mut TrustingFollower,
    rules: Rules,
) -> Result<(Result<(), StrictRefused>, bool), Stop> {
    let before = state_anew(alloc, follower)?;
    let mut answer = follower.make_strict(rules);
    if answer.is_err() && !is_plain_still(alloc, follower, before.as_slice())? {
        return Err(Stop::Changed);
    }
    let was_refused = answer == Err(StrictRefused::OutOfMemory);
    if was_refused {
        answer = follower.make_strict(rules);
    }
    Ok((answer, was_refused))
}

/// Adds strict rules to a follower after these messages, and returns the answer.
fn add_after(
    alloc: Global,
    follower: &mut TrustingFollower,
    messages: &[Vec<u8>],
    rules: Rules,
) -> Result<Output, Stop> {
    let followed = pass(alloc, follower, None, messages)?;
    let (answer, was_refused) = add_rules(alloc, follower, rules)?;
    Ok(Output {
        was_refused: was_refused | followed.was_refused,
        text: added_text(alloc, answer)?,
    })
}

/// Returns the answer of a follower without strict rules, after these messages, to these strict rules.
pub(crate) fn write_added(alloc: Global, messages: &[&str], rules: Rules) -> Result<Output, Stop> {
    let messages = bytes_of_all(alloc, messages)?;
    let (mut follower, was_refused) = start(alloc, Rules::plain(), Profile::Members)?;
    let output = add_after(alloc, &mut follower, messages.as_slice(), rules);
    drop(follower);
    let mut output = output?;
    output.was_refused |= was_refused;
    Ok(output)
}

/// Returns the bytes of messages.
pub(crate) fn bytes_of_all(alloc: Global, messages: &[&str]) -> Result<Vec<Vec<u8>>, Stop> {
    let mut all = Vec::new(alloc);
    for message in messages {
        have(all.push(have(hex::decode(alloc, message))?))?;
    }
    Ok(all)
}
