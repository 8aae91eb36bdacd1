//! The pending proposals of a file, each judged as the message that it was (RFC 9420, 6.1, 12.1 and 12.4).

ghost use Rattle.std.specs.Prelude.{◌≡◌, ◌≢◌, IfOk, IfErr, IsTrue, MatchOption, OnOk};
ghost use Rattle.std.specs.Bool.{OnTrue, OnFalse};
ghost use Rattle.mls_msgs.specs.Authenticated.{is_authenticated};
ghost use Rattle.mls_msgs.specs.declared.framed_content.Content.TheVariants as contents;
ghost use Rattle.mls_follow.specs.FollowerInvariant.{HasUniqueKeysAndValidLeaves};
ghost use Rattle.mls_follow.specs.GroupModel.{group_state};
ghost use Rattle.mls_follow.specs.Resumption.{AcceptsMessage, HoldEntries, Holds, entry_message, tag_of_entry};
ghost use Rattle.mls_follow.specs.ResumptionParts.{HasProposal, IsKnownFault};
ghost use Rattle.mls_follow.specs.State.{State};

use crate::group::Group;
use crate::received_frame::ReceivedMessage;
use crate::resume_fault::ResumeFault;
use mls_apply::Refusal;
use mls_check::SignatureCheck;
use mls_msgs::{
    Authenticated, AuthenticatedParts, Content, FramedContent, Message, Proposal, PublicMessage,
    PublicParts, Sender, encode_message,
};
use mls_wire::{CodecFault, MAX_INPUT, Opaque, copy_of};
use std::alloc::{AllocError, Global};

/// Returns the membership tag that the PublicMessage of an entry has: an empty one, if the sender is a member.
fn tag_of_entry(alloc: Global, sender: Sender) -> Result<Option<Opaque>, AllocError>
    ensures { IfOk result (λ tag. tag ≡ tag_of_entry sender) }
{
    match sender {
        Sender::Member(_) => match Opaque::copy(alloc, &[]) {
            Ok(tag) => Ok(Some(tag)),
            Err(_) => Err(AllocError),
        },
        Sender::External(_) | Sender::NewMemberProposal | Sender::NewMemberCommit => Ok(None),
    }
}

/// Returns a copy of an entry, whose content is this proposal.
fn copy_of_entry(
    alloc: Global,
    entry: &Authenticated,
    proposal: &Proposal,
) -> Result<AuthenticatedParts, AllocError>
    requires { entry.now.content.content ≡ contents.Proposal proposal.now }
    ensures same { IfOk result (λ parts. parts ≡ entry.now) }
    ensures fits { IfOk result (λ parts. IsTrue (is_authenticated parts)) }
{
    let content = entry.content();
    let group_id = copy_of(alloc, &content.group_id)?;
    let authenticated = copy_of(alloc, &content.authenticated)?;
    let proposal = copy_of(alloc, proposal)?;
    let signature = copy_of(alloc, entry.signature())?;
    let confirmation_tag = match entry.confirmation_tag() {
        Some(tag) => Some(copy_of(alloc, tag)?),
        None => None,
    };
    Ok(AuthenticatedParts {
        wire_format: entry.wire_format(),
        content: FramedContent {
            group_id,
            epoch: content.epoch,
            sender: content.sender,
            authenticated,
            content: Content::Proposal(proposal),
        },
        signature,
        confirmation_tag,
    })
}

/// Returns the PublicMessage of an entry, whose content is this proposal: a copy. `None` if the entry is not one of a
/// PublicMessage.
fn entry_message(
    alloc: Global,
    entry: &Authenticated,
    proposal: &Proposal,
) -> Result<Option<Message>, AllocError>
    requires { entry.now.content.content ≡ contents.Proposal proposal.now }
    ensures { IfOk result (λ found. MatchOption found (entry.now.wire_format ≢ 1)
        (λ m. (m ≡ entry_message entry.now) × (entry.now.wire_format ≡ 1))) }
{
    let membership_tag = tag_of_entry(alloc, entry.content().sender)?;
    let parts = copy_of_entry(alloc, entry, proposal)?;
    let Ok(auth) = Authenticated::new(parts) else {
        unreachable!();
    };
    match PublicMessage::new(PublicParts {
        auth,
        membership_tag,
    }) {
        Ok(public) => Ok(Some(Message::Public(public))),
        Err(_) => Ok(None),
    }
}

/// Adds the proposal that a message has to the pending ones, and returns true, if the message is acceptable. The group is
/// otherwise unchanged.
fn hold_message<C: SignatureCheck>(
    alloc: Global,
    group: &mut Group,
    checker: &C,
    message: &Message,
) -> Result<bool, AllocError>
    requires proposal { HasProposal message.now }
    requires checked { HasUniqueKeysAndValidLeaves (C.meaning checker.now) (group_state group.old) }
    ensures held { IfOk result (λ held. OnTrue held (AcceptsMessage (C.meaning checker.now) (group_state group.old) message.now (group_state group.new))) }
    ensures refused { IfOk result (λ held. OnFalse held ((new : State)
        → AcceptsMessage (C.meaning checker.now) (group_state group.old) message.now new → ⊥)) }
{
    let bytes = match encode_message(alloc, message) {
        Ok(bytes) => bytes,
        Err(CodecFault::OutOfMemory) => return Err(AllocError),
        Err(CodecFault::Wire(_)) => return Ok(false),
    };
    if bytes.len() > MAX_INPUT || !group.profile.has_message(message) {
        return Ok(false);
    }
    let received = ReceivedMessage {
        message,
        bytes: bytes.as_slice(),
        time: None,
    };
    match group.take(alloc, checker, &received) {
        Ok(_) => Ok(true),
        Err(Refusal::OutOfMemory) => Err(AllocError),
        Err(_) => Ok(false),
    }
}

/// Adds the proposal of an entry to the pending ones, and returns true, if a follower in this state would accept it. The group
/// is otherwise unchanged.
fn hold_entry<C: SignatureCheck>(
    alloc: Global,
    group: &mut Group,
    checker: &C,
    entry: &Authenticated,
) -> Result<bool, AllocError>
    requires checked { HasUniqueKeysAndValidLeaves (C.meaning checker.now) (group_state group.old) }
    ensures held { IfOk result (λ held. OnTrue held (Holds (C.meaning checker.now) (group_state group.old) entry.now (group_state group.new))) }
    ensures refused { IfOk result (λ held. OnFalse held ((new : State)
        → Holds (C.meaning checker.now) (group_state group.old) entry.now new → ⊥)) }
{
    let Content::Proposal(proposal) = &entry.content().content else {
        return Ok(false);
    };
    match entry_message(alloc, entry, proposal)? {
        Some(message) => hold_message(alloc, group, checker, &message),
        None => Ok(false),
    }
}

/// Adds the proposals of the entries to the pending ones, in their order.
///
/// # Errors
///
/// `KnownInvalid` with the number of the first one that a follower in the state with those before it would not accept, or
/// `OutOfMemory`. Those before it may have been added.
pub(crate) fn hold_entries<C: SignatureCheck>(
    alloc: Global,
    group: &mut Group,
    checker: &C,
    entries: &[Authenticated],
) -> Result<(), ResumeFault>
    requires checked { HasUniqueKeysAndValidLeaves (C.meaning checker.now) (group_state group.old) }
    ensures held { OnOk result (HoldEntries (C.meaning checker.now) (group_state group.old) entries.now (group_state group.new)) }
    ensures refused { IfErr result (IsKnownFault (C.meaning checker.now) (group_state group.old) entries.now) }
{
    let mut rest = entries;
    let mut count = 0;
    while let Some((entry, tail)) = rest.split_first() {
        if !hold_entry(alloc, group, checker, entry)? {
            return Err(ResumeFault::KnownInvalid(count));
        }
        rest = tail;
        count += 1;
    }
    Ok(())
}
