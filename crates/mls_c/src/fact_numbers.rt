//! The facts of a message, as numbers.

ghost use Rattle.std.specs.Prelude.{◌≡◌, Option, option_map};
ghost use Rattle.mls_msgs.specs.declared.framed_content.Sender.{Sender};
ghost use Rattle.mls_c.specs.MessageFacts.{number_or_zero, sender_type, sender_index, numbers_of};

use mls_facts::MessageFacts;
use mls_msgs::Sender;

/// The facts of a message that do not depend on a group (RFC 9420, 6, 6.1, 12.1 and 12.4), but for the bytes among them. A
/// number that the message does not have is 0.
#[repr(C)]
#[derive(Clone, Copy)]
pub struct FactNumbers {
    /// 1 for a PublicMessage, 2 for a PrivateMessage, 3 for a Welcome, 4 for a GroupInfo, 5 for a KeyPackage.
    pub wire_format: u32,
    /// 1 for application data, 2 for a proposal, 3 for a commit.
    pub content_type: u32,
    /// 1 for a member, 2 for an external sender, 3 for a new_member_proposal, 4 for a new_member_commit.
    pub sender_type: u32,
    /// The leaf index of a member, or the index of an external sender.
    pub sender_index: u32,
    /// 1 if the message has a group ID and an epoch.
    pub has_group: u32,
    /// 1 if the message has a signature key.
    pub has_signature_key: u32,
    /// The epoch.
    pub epoch: u64,
    /// How many Adds it has.
    pub adds: u64,
    /// How many Updates it has.
    pub updates: u64,
    /// How many Removes it has.
    pub removes: u64,
    /// How many PreSharedKeys it has.
    pub psks: u64,
    /// How many ReInits it has.
    pub reinits: u64,
    /// How many ExternalInits it has.
    pub external_inits: u64,
    /// How many GroupContextExtensions it has.
    pub group_context_extensions: u64,
    /// How many references to proposals it has.
    pub references: u64,
}

/// Returns the content type, 0 for none.
fn content_type(found: Option<u8>) -> u32
    ensures { result ≡ number_or_zero found }
{
    match found {
        Some(number) => u32::from(number),
        None => 0,
    }
}

/// Returns the number of the type of a sender, 0 for none.
fn sender_type(sender: Option<Sender>) -> u32
    ensures { result ≡ sender_type sender }
{
    match sender {
        Some(Sender::Member(_)) => 1,
        Some(Sender::External(_)) => 2,
        Some(Sender::NewMemberProposal) => 3,
        Some(Sender::NewMemberCommit) => 4,
        None => 0,
    }
}

/// Returns the index of a sender that has one, otherwise 0.
fn sender_index(sender: Option<Sender>) -> u32
    ensures { result ≡ sender_index sender }
{
    match sender {
        Some(Sender::Member(index)) => index,
        Some(Sender::External(index)) => index,
        Some(Sender::NewMemberProposal) => 0,
        Some(Sender::NewMemberCommit) => 0,
        None => 0,
    }
}

/// Returns the numbers of the facts of a message.
pub(crate) fn numbers_of(found: &MessageFacts<'_>) -> FactNumbers
    ensures { result ≡ numbers_of found.now.wire_format found.now.content_type found.now.sender
        (option_map (λ id. id.now) found.now.group_id) found.now.epoch
        (option_map (λ key. key.now) found.now.signature_key) found.now.proposals }
{
    let counts = found.proposals;
    FactNumbers {
        wire_format: u32::from(found.wire_format),
        content_type: content_type(found.content_type),
        sender_type: sender_type(found.sender),
        sender_index: sender_index(found.sender),
        has_group: u32::from(found.group_id.is_some()),
        has_signature_key: u32::from(found.signature_key.is_some()),
        epoch: found.epoch.unwrap_or(0),
        adds: counts.adds as u64,
        updates: counts.updates as u64,
        removes: counts.removes as u64,
        psks: counts.psks as u64,
        reinits: counts.reinits as u64,
        external_inits: counts.external_inits as u64,
        group_context_extensions: counts.group_context_extensions as u64,
        references: counts.references as u64,
    }
}
