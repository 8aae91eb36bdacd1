//! The facts of a message that do not depend on a group.

ghost use Rattle.std.specs.Prelude.{◌≡◌, option_map};
ghost use Rattle.mls_facts.specs.Facts.{wire_format_of, public_content, sender_of, proposal_counts_of, sender_leaf, signature_key_of, NamesGroup};

use crate::named_group::named_group;
use crate::proposal_counts::{ProposalCounts, content_counts, no_counts};
use crate::sender_leaf::sender_leaf;
use mls_msgs::{FramedContent, Message, Sender};

/// The facts of a message that do not depend on a group (RFC 9420, 6, 6.1, 12.1 and 12.4), borrowed from the message. A fact
/// is `None` if the message does not have it.
#[derive(Clone, Copy, Debug)]
pub struct MessageFacts<'a> {
    /// The wire format (RFC 9420, 6): 1 PublicMessage, 2 PrivateMessage, 3 Welcome, 4 GroupInfo, 5 KeyPackage.
    pub wire_format: u16,
    /// The group ID of a PublicMessage, a PrivateMessage or a GroupInfo.
    pub group_id: Option<&'a [u8]>,
    /// The epoch of a PublicMessage, a PrivateMessage or a GroupInfo.
    pub epoch: Option<u64>,
    /// The content type of a PublicMessage or a PrivateMessage (RFC 9420, 6): 1 application, 2 proposal, 3 commit.
    pub content_type: Option<u8>,
    /// The sender of a PublicMessage (RFC 9420, 6).
    pub sender: Option<Sender>,
    /// How many proposals of each type a PublicMessage has. All counts are 0 for other messages.
    pub proposals: ProposalCounts,
    /// The signature key of a KeyPackage (RFC 9420, 10), or of a client that joins with a PublicMessage: of the Add of a
    /// new_member_proposal, or of the path of a new_member_commit (6.1).
    pub signature_key: Option<&'a [u8]>,
}

/// Returns the wire format of a message.
fn wire_format_of(message: &Message) -> u16
    ensures { result ≡ wire_format_of message.now }
{
    match message {
        Message::Public(_) => 1,
        Message::Unread { wire_format, .. } => *wire_format,
        Message::GroupInfo(_) => 4,
        Message::KeyPackage(_) => 5,
    }
}

/// Returns the FramedContent of a PublicMessage.
fn public_content(message: &Message) -> Option<&FramedContent>
    ensures { option_map (λ f. f.now) result ≡ public_content message.now }
{
    match message {
        Message::Public(public) => Some(public.auth().content()),
        Message::Unread { .. } => None,
        Message::GroupInfo(_) => None,
        Message::KeyPackage(_) => None,
    }
}

/// Returns the sender of a PublicMessage.
fn sender_of(message: &Message) -> Option<Sender>
    ensures { result ≡ sender_of message.now }
{
    match public_content(message) {
        Some(framed) => Some(framed.sender),
        None => None,
    }
}

/// Returns how many proposals of each type a PublicMessage has.
fn proposal_counts_of(message: &Message) -> ProposalCounts
    ensures { result ≡ proposal_counts_of message.now }
{
    match public_content(message) {
        Some(framed) => content_counts(&framed.content),
        None => no_counts(),
    }
}

/// Returns the signature key of the sender of a FramedContent, if the sender joins.
fn sender_key(framed: &FramedContent) -> Option<&[u8]>
    ensures { option_map (λ key. key.now) result
        ≡ option_map (λ l. l.signature_key) (sender_leaf framed.now.sender framed.now.content) }
{
    match sender_leaf(framed.sender, &framed.content) {
        Some(leaf) => Some(leaf.signature_key()),
        None => None,
    }
}

/// Returns the signature key of a KeyPackage, or of a sender of a PublicMessage that joins.
fn signature_key_of(message: &Message) -> Option<&[u8]>
    ensures { option_map (λ key. key.now) result ≡ signature_key_of message.now }
{
    match message {
        Message::Public(public) => sender_key(public.auth().content()),
        Message::Unread { .. } => None,
        Message::GroupInfo(_) => None,
        Message::KeyPackage(key_package) => Some(key_package.leaf_node.signature_key()),
    }
}

/// Returns the facts of a message that do not depend on a group. Nothing is allocated, checked or decrypted.
///
/// The body of a PrivateMessage (wire format 2) is read here, since decoding a message stores it unread. If the body is not
/// the encoding of a PrivateMessage (RFC 9420, 6.3), then `group_id`, `epoch` and `content_type` are `None`. The body of a
/// Welcome (3) is not read.
///
/// The result depends on the message alone: a list of bytes encodes at most one PrivateMessage (`mls_msgs::laws::unambiguous`).
pub fn message_facts(message: &Message) -> MessageFacts<'_>
    ensures wire_format { result.wire_format ≡ wire_format_of message.now }
    ensures group { NamesGroup message.now
        (option_map (λ id. id.now) result.group_id) result.epoch result.content_type }
    ensures sender { result.sender ≡ sender_of message.now }
    ensures proposals { result.proposals ≡ proposal_counts_of message.now }
    ensures signature_key { option_map (λ key. key.now) result.signature_key ≡ signature_key_of message.now }
{
    let group = named_group(message);
    MessageFacts {
        wire_format: wire_format_of(message),
        group_id: group.group_id,
        epoch: group.epoch,
        content_type: group.content_type,
        sender: sender_of(message),
        proposals: proposal_counts_of(message),
        signature_key: signature_key_of(message),
    }
}
