//! The group, the epoch and the content type that a message names (RFC 9420, 6, 6.3 and 12.4.3).

ghost use Rattle.std.specs.Prelude.{◌≡◌, Some, None, option_map};
ghost use Rattle.mls_facts.specs.Facts.{type_of_content, type_of_private, UnreadNames, NamesGroup};

use mls_msgs::{Content, FramedContent, GroupInfo, Message, PrivateContent, read_private};

/// The wire format of a PrivateMessage (RFC 9420, 6).
const PRIVATE_MESSAGE: u16 = 2;

/// The group ID, the epoch and the content type of a message, each if the message has one.
#[derive(Clone, Copy)]
pub(crate) struct NamedGroup<'a> {
    pub(crate) group_id: Option<&'a [u8]>,
    pub(crate) epoch: Option<u64>,
    pub(crate) content_type: Option<u8>,
}

/// Returns the type of a content.
fn type_of_content(content: &Content) -> u8
    ensures { result ≡ type_of_content content.now }
{
    match content {
        Content::Application(_) => 1,
        Content::Proposal(_) => 2,
        Content::Commit(_) => 3,
    }
}

/// Returns the type of a content that is encrypted.
fn type_of_private(content: PrivateContent) -> u8
    ensures { result ≡ type_of_private content }
{
    match content {
        PrivateContent::Application => 1,
        PrivateContent::Proposal => 2,
        PrivateContent::Commit => 3,
    }
}

/// Returns the group of a message that names none.
fn no_group<'a>() -> NamedGroup<'a>
    ensures group_id { result.group_id ≡ None }
    ensures epoch { result.epoch ≡ None }
    ensures content_type { result.content_type ≡ None }
{
    NamedGroup {
        group_id: None,
        epoch: None,
        content_type: None,
    }
}

/// Returns the group that a message names whose body is stored unread.
#[tactic(auto, using(crate::proofs::NamedGroups::of_other, crate::proofs::NamedGroups::of_nothing))]
fn unread_group(wire_format: u16, body: &[u8]) -> NamedGroup<'_>
    ensures { UnreadNames wire_format body.now
        (option_map (λ id. id.now) result.group_id) result.epoch result.content_type }
{
    if wire_format != PRIVATE_MESSAGE {
        return no_group();
    }
    match read_private(body) {
        Ok(front) => NamedGroup {
            group_id: Some(front.group_id),
            epoch: Some(front.epoch),
            content_type: Some(type_of_private(front.content)),
        },
        Err(_) => no_group(),
    }
}

/// Returns the group that a FramedContent names.
fn framed_group(framed: &FramedContent) -> NamedGroup<'_>
    ensures group_id { option_map (λ id. id.now) result.group_id ≡ Some framed.now.group_id }
    ensures epoch { result.epoch ≡ Some framed.now.epoch }
    ensures content_type { result.content_type ≡ Some (type_of_content framed.now.content) }
{
    NamedGroup {
        group_id: Some(framed.group_id.as_slice()),
        epoch: Some(framed.epoch),
        content_type: Some(type_of_content(&framed.content)),
    }
}

/// Returns the group that a GroupInfo names.
fn info_group(info: &GroupInfo) -> NamedGroup<'_>
    ensures group_id { option_map (λ id. id.now) result.group_id ≡ Some info.now.context.group_id }
    ensures epoch { result.epoch ≡ Some info.now.context.epoch }
    ensures content_type { result.content_type ≡ None }
{
    NamedGroup {
        group_id: Some(info.context.group_id.as_slice()),
        epoch: Some(info.context.epoch),
        content_type: None,
    }
}

/// Returns the group ID, the epoch and the content type of a message.
#[tactic(auto, using(crate::proofs::NamedGroups::of_public, crate::proofs::NamedGroups::of_info, crate::proofs::NamedGroups::of_package))]
pub(crate) fn named_group(message: &Message) -> NamedGroup<'_>
    ensures { NamesGroup message.now
        (option_map (λ id. id.now) result.group_id) result.epoch result.content_type }
{
    match message {
        Message::Public(public) => framed_group(public.auth().content()),
        Message::Unread { wire_format, body } => unread_group(*wire_format, body.as_slice()),
        Message::GroupInfo(info) => info_group(info),
        Message::KeyPackage(_) => no_group(),
    }
}
