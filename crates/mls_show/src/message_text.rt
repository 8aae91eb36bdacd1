//! The line of `show message`.

ghost use Rattle.std.specs.Prelude.{◌≡◌, IfOk, length, string_bytes};
ghost use Rattle.mls_show.specs.MessageText as lines;

use crate::info_text::types_text;
use crate::value_text::hex_of;
use mls_msgs::{
    Commit, Content, FramedContent, GroupInfo, KeyPackage, Message, Proposal, PskKind, PskUsage,
    ReInit, Sender,
};
use std::alloc::{AllocError, Global};

/// Returns the sender of a message.
pub(crate) fn sender_text(alloc: Global, sender: Sender) -> Result<String, AllocError>
    ensures { IfOk result (λ text. string_bytes text ≡ lines.sender_text sender) }
{
    match sender {
        Sender::Member(index) => format!(in alloc; "member {index}"),
        Sender::External(index) => format!(in alloc; "external {index}"),
        Sender::NewMemberProposal => String::from_str(alloc, "new_member_proposal"),
        Sender::NewMemberCommit => String::from_str(alloc, "new_member_commit"),
    }
}

/// Returns the word for a use of a resumption PSK.
fn usage_text(alloc: Global, usage: PskUsage) -> Result<String, AllocError>
    ensures { IfOk result (λ text. string_bytes text ≡ lines.usage_text usage) }
{
    match usage {
        PskUsage::Application => String::from_str(alloc, "application"),
        PskUsage::ReInit => String::from_str(alloc, "reinit"),
        PskUsage::Branch => String::from_str(alloc, "branch"),
    }
}

/// Returns the origin of a pre-shared key.
fn psk_text(alloc: Global, kind: &PskKind) -> Result<String, AllocError>
    ensures { IfOk result (λ text. string_bytes text ≡ lines.psk_text kind.now) }
{
    match kind {
        PskKind::External(id) => {
            let id = hex_of(alloc, id.as_slice())?;
            format!(in alloc; "external {id}")
        }
        PskKind::Resumption {
            usage,
            group_id,
            epoch,
        } => {
            let usage = usage_text(alloc, *usage)?;
            let group_id = hex_of(alloc, group_id.as_slice())?;
            format!(in alloc; "resumption {usage} {group_id} {epoch}")
        }
    }
}

/// Returns the text of a ReInit proposal: the group id and the cipher suite of the new group.
fn reinit_text(alloc: Global, reinit: &ReInit) -> Result<String, AllocError>
    ensures { IfOk result (λ text. string_bytes text ≡ lines.proposal_text (Proposal.ReInit reinit.now)) }
{
    let group_id = hex_of(alloc, reinit.group_id.as_slice())?;
    let cipher_suite = reinit.cipher_suite;
    format!(in alloc; "proposal reinit {group_id} {cipher_suite}")
}

/// Returns what is proposed.
fn proposal_text(alloc: Global, proposal: &Proposal) -> Result<String, AllocError>
    ensures { IfOk result (λ text. string_bytes text ≡ lines.proposal_text proposal.now) }
{
    match proposal {
        Proposal::Add(_) => String::from_str(alloc, "proposal add"),
        Proposal::Update(_) => String::from_str(alloc, "proposal update"),
        Proposal::Remove(removed) => format!(in alloc; "proposal remove {removed}"),
        Proposal::PreSharedKey(id) => {
            let kind = psk_text(alloc, &id.kind)?;
            format!(in alloc; "proposal psk {kind}")
        }
        Proposal::ReInit(reinit) => reinit_text(alloc, reinit),
        Proposal::ExternalInit(kem_output) => {
            let length = kem_output.as_slice().len();
            format!(in alloc; "proposal external_init {length}")
        }
        Proposal::ContextExtensions(extensions) => {
            let types = types_text(alloc, extensions)?;
            format!(in alloc; "proposal extensions {types}")
        }
    }
}

/// Returns the number of proposals of a commit, and whether it has a path.
fn commit_text(alloc: Global, commit: &Commit) -> Result<String, AllocError>
    ensures { IfOk result (λ text. string_bytes text ≡ lines.commit_text commit.now) }
{
    let count = commit.proposals.as_slice().len();
    match &commit.path {
        Some(_) => format!(in alloc; "commit {count} path"),
        None => format!(in alloc; "commit {count} nopath"),
    }
}

/// Returns the content of a message.
pub(crate) fn content_text(alloc: Global, content: &Content) -> Result<String, AllocError>
    ensures { IfOk result (λ text. string_bytes text ≡ lines.content_text content.now) }
{
    match content {
        Content::Application(bytes) => {
            let length = bytes.as_slice().len();
            format!(in alloc; "application {length}")
        }
        Content::Proposal(proposal) => proposal_text(alloc, proposal),
        Content::Commit(commit) => commit_text(alloc, commit),
    }
}

/// Returns the line of a FramedContent.
fn framed_line(alloc: Global, framed: &FramedContent) -> Result<String, AllocError>
    ensures { IfOk result (λ text. string_bytes text ≡ lines.framed_line framed.now) }
{
    let sender = sender_text(alloc, framed.sender)?;
    let epoch = framed.epoch;
    let content = content_text(alloc, &framed.content)?;
    format!(in alloc; "public {sender} epoch {epoch} {content}\n")
}

/// Returns the line of a message that is not decoded: the length of its body.
fn unread_line(alloc: Global, wire_format: u16, body: &[u8]) -> Result<String, AllocError>
    ensures { IfOk result
        (λ text. string_bytes text ≡ lines.unread_line wire_format (length body.now)) }
{
    let length = body.len();
    if wire_format == 2 {
        format!(in alloc; "private {length}\n")
    } else {
        format!(in alloc; "welcome {length}\n")
    }
}

/// Returns the line of a GroupInfo.
fn info_line(alloc: Global, info: &GroupInfo) -> Result<String, AllocError>
    ensures { IfOk result (λ text. string_bytes text ≡ lines.info_line info.now) }
{
    let epoch = info.context.epoch;
    format!(in alloc; "group_info epoch {epoch}\n")
}

/// Returns the line of a KeyPackage.
fn package_line(alloc: Global, key_package: &KeyPackage) -> Result<String, AllocError>
    ensures { IfOk result (λ text. string_bytes text ≡ lines.package_line key_package.now) }
{
    let encryption_key = hex_of(alloc, key_package.leaf_node.encryption_key())?;
    format!(in alloc; "key_package {encryption_key}\n")
}

/// Returns the report of a message.
pub(crate) fn message_line(alloc: Global, message: &Message) -> Result<String, AllocError>
    ensures { IfOk result (λ text. string_bytes text ≡ lines.message_line message.now) }
{
    match message {
        Message::Public(public) => framed_line(alloc, public.auth().content()),
        Message::Unread { wire_format, body } => unread_line(alloc, *wire_format, body.as_slice()),
        Message::GroupInfo(info) => info_line(alloc, info),
        Message::KeyPackage(key_package) => package_line(alloc, key_package),
    }
}
