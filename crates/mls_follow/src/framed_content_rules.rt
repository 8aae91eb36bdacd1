//! The rules for every message of a group (RFC 9420, 6.1).

ghost use Rattle.std.specs.Prelude.{◌≡◌, ◌≢◌, ◌⊎◌, ◌<◌, length, Some, None, Err, IsSome, IsTrue, IfOk, IfErr, OnOk, option_map};
ghost use Rattle.mls_wire.specs.Limits.{input_limit};
ghost use Rattle.mls_tree.specs.Tree.{leaf_at};
ghost use Rattle.mls_nodes.specs.declared.required_capabilities.RequiredCapabilities.{RequiredCapabilities};
ghost use Rattle.mls_check.specs.Signatures.{VerifyFn};
ghost use Rattle.mls_msgs.specs.declared.framed_content.Content.TheVariants as contents;
ghost use Rattle.mls_msgs.specs.declared.framed_content.Sender.TheVariants.{Member};
ghost use Rattle.mls_apply.specs.RuleLists.{first_failing};
ghost use Rattle.mls_apply.specs.Senders.{is_present};
ghost use Rattle.mls_follow.specs.State.{EncodesMessage};
ghost use Rattle.mls_follow.specs.GroupModel.{group_state};
ghost use Rattle.mls_follow.specs.GroupModelInternal.{IsFramedIn};
ghost use Rattle.mls_follow.specs.MessageRules.{is_frame_signed, outside_content_rules};
ghost use Rattle.mls_follow.specs.MessageRulesInternal.{external_commit_refusal, frame_refusal, handshake_refusal, is_handshake, joiner_refusal, lacks_key, outside_refusal, proposal_refusal, sender_refusal};
ghost use Rattle.mls_follow.specs.Acceptance.{EncodesNoMessage};
ghost use Rattle.mls_follow.specs.AcceptanceInternal.{FailsWithRule};
ghost use Rattle.mls_follow.specs.MessageHeader.{HasNoHeader, IsUnreadMessage};

use crate::context_pieces::ContextPieces;
use crate::group::Group;
use crate::message_header::{is_unread, wire_format_of};
use crate::received_frame::ReceivedFrame;
use mls_apply::Refusal;
use mls_check::{OutOfMemory, SignatureCheck, signed, signed_in_pieces};
use mls_msgs::{
    CONTENT_LABEL, Commit, Content, Message, Profile, Proposal, Sender, decode_message_in,
};
use mls_nodes::GroupContext;
use mls_signatures::{may_propose, outside_key_among, signed_context};
use mls_wire::{CodecFault, MAX_INPUT};
use std::alloc::Global;

/// Decodes the message of a profile whose encoding the bytes are. `Malformed` if there is none.
fn decode(alloc: Global, profile: Profile, bytes: &[u8]) -> Result<Message, Refusal>
    ensures read { IfOk result (λ m. EncodesMessage profile m bytes.now) }
    ensures refused { IfErr result (λ e. e ≢ Refusal.OutOfMemory → (e ≡ Refusal.Malformed)
        × EncodesNoMessage profile bytes.now) }
{
    match decode_message_in(alloc, profile, bytes) {
        Ok(message) => Ok(message),
        Err(CodecFault::OutOfMemory) => Err(Refusal::OutOfMemory),
        Err(CodecFault::Wire(_)) => Err(Refusal::Malformed),
    }
}

/// Returns the message of a profile whose encoding the bytes are, unless its body is stored unread (RFC 9420, 6).
///
/// # Errors
///
/// - `Malformed` if there is none. More than 268,435,456 bytes, and the lack of a header, are refused even without
///   memory.
/// - `NotPublic` if it is a PrivateMessage or a Welcome, without an allocation.
/// - `OutOfMemory`.
pub(crate) fn read_message(
    alloc: Global,
    profile: Profile,
    bytes: &[u8],
) -> Result<Message, Refusal>
    ensures read { IfOk result (λ m. EncodesMessage profile m bytes.now) }
    ensures refused { IfErr result (λ e. e ≢ Refusal.OutOfMemory
        → ((e ≡ Refusal.Malformed) × EncodesNoMessage profile bytes.now)
        ⊎ ((e ≡ Refusal.NotPublic) × IsUnreadMessage bytes.now)) }
    ensures too_long { input_limit < length bytes.now → result ≡ Err Refusal.Malformed }
    ensures no_header { HasNoHeader bytes.now → result ≡ Err Refusal.Malformed }
    ensures unread { IsUnreadMessage bytes.now → result ≡ Err Refusal.NotPublic }
{
    if bytes.len() > MAX_INPUT {
        return Err(Refusal::Malformed);
    }
    let Some(wire_format) = wire_format_of(bytes) else {
        return Err(Refusal::Malformed);
    };
    if is_unread(wire_format) {
        return Err(Refusal::NotPublic);
    }
    decode(alloc, profile, bytes)
}

/// Returns whether the signature of a FramedContent is good under this key. The group's context is signed too, as the sender
/// demands. The checker gets what is signed in pieces, each from where it is stored.
fn is_frame_signed<C: SignatureCheck>(
    alloc: Global,
    context: &GroupContext,
    key: &[u8],
    frame: &ReceivedFrame<'_>,
    checker: &C,
) -> Result<bool, OutOfMemory>
    ensures { IfOk result (λ good. good ≡ is_frame_signed
        (C.meaning checker.now) context.now key.now frame.now) }
{
    let auth = frame.auth();
    let suite = context.cipher_suite;
    let signature = auth.signature().as_slice();
    let label = CONTENT_LABEL;
    let tbs = frame.tbs();
    match signed_context(context, auth.content().sender) {
        Some(context) => {
            let context = ContextPieces::of(context);
            let mut pieces = Vec::from_slice(alloc, &[tbs])?;
            context.add_to(&mut pieces)?;
            signed_in_pieces(
                alloc,
                checker,
                suite,
                key,
                label,
                pieces.as_slice(),
                signature,
            )
        }
        None => Ok(signed(checker, suite, key, label, tbs, signature)),
    }
}

/// Checks that an AuthenticatedContent is for the group and its epoch, and that the group goes on. What is left are the
/// rules for its sender.
#[tactic(auto, unfolding(crate::specs::MessageRulesInternal::frame_refusal, crate::specs::MessageRulesInternal::sender_refusal))]
pub(crate) fn check_header(group: &Group, frame: &ReceivedFrame<'_>) -> Result<(), Refusal>
    ensures rules_hold { OnOk result ((G : VerifyFn) (required : RequiredCapabilities)
        → frame_refusal G (group_state group.now) required frame.now
        ≡ sender_refusal G (group_state group.now) required frame.now frame.now.content.sender) }
    ensures framed { OnOk result (IsFramedIn group.now.context frame.now) }
    ensures refused { IfErr result (λ e. (G : VerifyFn) (required : RequiredCapabilities)
        → frame_refusal G (group_state group.now) required frame.now ≡ Some e) }
{
    let content = frame.auth().content();
    if content.group_id.as_slice() != group.context.group_id.as_slice() {
        return Err(Refusal::WrongGroup);
    }
    if content.epoch != group.context.epoch {
        return Err(Refusal::WrongEpoch);
    }
    if group.ended {
        return Err(Refusal::GroupOver);
    }
    Ok(())
}

/// Checks the rules for each message of a member: its leaf is non-blank, and the message is a proposal or a commit, and
/// signed.
#[tactic(auto, unfolding(crate::specs::MessageRulesInternal::sender_refusal, crate::specs::MessageRulesInternal::handshake_refusal))]
pub(crate) fn check_member_frame<C: SignatureCheck>(
    alloc: Global,
    group: &Group,
    checker: &C,
    frame: &ReceivedFrame<'_>,
    sender: u32,
) -> Result<(), Refusal>
    ensures member { OnOk result (IsSome (leaf_at 0 group.now.tree.tree sender)) }
    ensures handshake { OnOk result (IsTrue (is_handshake frame.now.content.content)) }
    ensures rules_hold { OnOk result
        (sender_refusal (C.meaning checker.now) (group_state group.now) group.now.required frame.now (Member sender)
        ≡ handshake_refusal (C.meaning checker.now) (group_state group.now) group.now.required frame.now sender
        frame.now.content.content) }
    ensures refused { IfErr result (FailsWithRule (sender_refusal (C.meaning checker.now) (group_state group.now)
        group.now.required frame.now (Member sender))) }
{
    let Some(leaf) = group.tree.tree().leaf(sender) else {
        return Err(Refusal::SenderNotMember);
    };
    if let Content::Application(_) = frame.auth().content().content {
        return Err(Refusal::NotHandshake);
    }
    if !is_frame_signed(alloc, &group.context, leaf.signature_key(), frame, checker)? {
        return Err(Refusal::BadSignature);
    }
    Ok(())
}

/// Returns the proposal of a content of a sender outside the group, if the sender may send it and has signed it under this
/// key.
#[tactic(auto, unfolding(crate::specs::MessageRulesInternal::proposal_refusal))]
fn check_outside_content<'a, C: SignatureCheck>(
    alloc: Global,
    group: &Group,
    checker: &C,
    frame: &ReceivedFrame<'a>,
    key: Option<&[u8]>,
) -> Result<&'a Proposal, Refusal>
    ensures proposal { IfOk result (λ p. frame.now.content.content ≡ contents.Proposal p.now) }
    ensures rules_hold { let signature_key = option_map (λ k. k.now) key.entry in
        IfOk result (λ p. first_failing (outside_content_rules (C.meaning checker.now)
        (group_state group.now) frame.now frame.now.content.sender signature_key frame.now.content.content)
        ≡ proposal_refusal (C.meaning checker.now) (group_state group.now) frame.now
        frame.now.content.sender p.now) }
    ensures refused { let signature_key = option_map (λ k. k.now) key.entry in
        IfErr result (FailsWithRule (first_failing (outside_content_rules (C.meaning checker.now)
        (group_state group.now) frame.now frame.now.content.sender signature_key frame.now.content.content))) }
{
    let content = frame.auth().content();
    let proposal = match &content.content {
        Content::Application(_) => return Err(Refusal::NotHandshake),
        Content::Proposal(proposal) => proposal,
        Content::Commit(_) => return Err(Refusal::SenderContent),
    };
    if !may_propose(content.sender, proposal) {
        return Err(Refusal::SenderContent);
    }
    let Some(key) = key else {
        return Err(Refusal::SenderContent);
    };
    if !is_frame_signed(alloc, &group.context, key, frame, checker)? {
        return Err(Refusal::BadSignature);
    }
    Ok(proposal)
}

/// Returns whether a key is missing that an external sender must have.
fn is_unknown_external(sender: Sender, key: Option<&[u8]>) -> bool
    ensures { result ≡ lacks_key sender (option_map (λ k. k.now) key.entry) }
{
    match sender {
        Sender::External(_) => key.is_none(),
        Sender::Member(_) => false,
        Sender::NewMemberProposal => false,
        Sender::NewMemberCommit => false,
    }
}

/// Returns the proposal of a message of a sender outside the group, if it satisfies the rules for each such message: an
/// external sender is in the GroupContext, the sender may send the proposal, and has signed it (RFC 9420, 12.1.8).
#[tactic(auto, unfolding(crate::specs::MessageRulesInternal::outside_refusal))]
pub(crate) fn check_outside_frame<'a, C: SignatureCheck>(
    alloc: Global,
    group: &Group,
    checker: &C,
    frame: &ReceivedFrame<'a>,
) -> Result<&'a Proposal, Refusal>
    ensures proposal { IfOk result (λ p. frame.now.content.content ≡ contents.Proposal p.now) }
    ensures rules_hold { IfOk result (λ p. outside_refusal (C.meaning checker.now) (group_state group.now) frame.now
        frame.now.content.sender
        ≡ proposal_refusal (C.meaning checker.now) (group_state group.now) frame.now frame.now.content.sender p.now) }
    ensures refused { IfErr result (FailsWithRule (outside_refusal (C.meaning checker.now) (group_state group.now)
        frame.now frame.now.content.sender)) }
{
    let content = frame.auth().content();
    let key = outside_key_among(&group.senders, content.sender, &content.content);
    if is_unknown_external(content.sender, key) {
        return Err(Refusal::UnknownExternal);
    }
    check_outside_content(alloc, group, checker, frame, key)
}

/// Returns the commit of a message of a client that joins with it, if it has a path, and is signed under the key of the path's
/// leaf node (RFC 9420, 6.1 and 12.4.3.2).
#[tactic(auto, unfolding(crate::specs::MessageRulesInternal::joiner_refusal, crate::specs::MessageRulesInternal::external_commit_refusal))]
pub(crate) fn check_joiner_frame<'a, C: SignatureCheck>(
    alloc: Global,
    group: &Group,
    checker: &C,
    frame: &ReceivedFrame<'a>,
) -> Result<&'a Commit, Refusal>
    ensures commit { IfOk result (λ c. frame.now.content.content ≡ contents.Commit c.now) }
    ensures path { IfOk result (λ c. IsSome c.now.path) }
    ensures rules_hold { IfOk result (λ c. joiner_refusal (C.meaning checker.now) (group_state group.now)
        group.now.required frame.now frame.now.content.content
        ≡ external_commit_refusal (C.meaning checker.now) (group_state group.now) group.now.required c.now) }
    ensures refused { IfErr result (FailsWithRule (joiner_refusal (C.meaning checker.now) (group_state group.now)
        group.now.required frame.now frame.now.content.content)) }
{
    let commit = match &frame.auth().content().content {
        Content::Application(_) => return Err(Refusal::NotHandshake),
        Content::Proposal(_) => return Err(Refusal::SenderContent),
        Content::Commit(commit) => commit,
    };
    let Some(path) = &commit.path else {
        return Err(Refusal::PathMissing);
    };
    let key = path.leaf_node.signature_key();
    if !is_frame_signed(alloc, &group.context, key, frame, checker)? {
        return Err(Refusal::BadSignature);
    }
    Ok(commit)
}
