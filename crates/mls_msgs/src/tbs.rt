//! The content that is signed or hashed.

ghost use Rattle.std.specs.Prelude.{◌≡◌, ℕ, List, Option, option_map};
ghost use Rattle.mls_wire.specs.SaturatingSizes.{size};
ghost use Rattle.mls_wire.specs.ReadContracts.{seen};
ghost use Rattle.mls_wire.specs.WriteContracts.{MakesPiece, Puts};
ghost use Rattle.mls_msgs.specs.Tbs.{given_context, content_tbs, package_tbs, info_tbs, confirmed_input};

use crate::authenticated::Authenticated;
use crate::group_info::GroupInfo;
use crate::key_package::KeyPackage;
use crate::reserved_draft::draft_with_capacity;
use mls_nodes::GroupContext;
use mls_wire::{CodecFault, Draft, Encode, add_sizes};
use std::alloc::Global;

/// The label of a FramedContentTBS (RFC 9420, 5.1.2 and 6.1).
pub const CONTENT_LABEL: &str = "MLS 1.0 FramedContentTBS";

/// The label of a KeyPackageTBS (RFC 9420, 5.1.2 and 10).
pub const KEY_PACKAGE_LABEL: &str = "MLS 1.0 KeyPackageTBS";

/// The label of a GroupInfoTBS (RFC 9420, 5.1.2 and 12.4.3).
pub const GROUP_INFO_LABEL: &str = "MLS 1.0 GroupInfoTBS";

/// The label of a ProposalRef (RFC 9420, 5.2).
pub const PROPOSAL_REFERENCE_LABEL: &str = "MLS 1.0 Proposal Reference";

/// Returns the encoded length of a GroupContext, if there is one.
#[tactic(auto, using(crate::proofs::Rooms::size_of_nothing), unfolding(crate::specs::Tbs::given_context))]
fn size_of_context(context: Option<&GroupContext>) -> Option<usize>
    ensures { result ≡ size (given_context (option_map (λ c. c.now) context.entry)) }
{
    match context {
        Some(context) => context.size(),
        None => Some(0),
    }
}

/// Writes a GroupContext, if there is one.
#[tactic(auto, unfolding(crate::specs::Tbs::given_context))]
fn put_context(
    alloc: Global,
    context: Option<&GroupContext>,
    draft: &mut Draft,
) -> Result<(), CodecFault>
    ensures { Puts
        (given_context (option_map (λ c. c.now) context.entry))
        draft.old draft.new result }
{
    match context {
        Some(context) => context.put(alloc, draft),
        None => draft.put_bytes(&[]),
    }
}

/// Returns the encoded length of a FramedContentTBS.
#[tactic(auto, using(mls_nodes::specs::TagSizes::tag_sizes), unfolding(crate::specs::Tbs::content_tbs))]
fn size_of_content_tbs(auth: &Authenticated, context: Option<&GroupContext>) -> Option<usize>
    ensures { result ≡ size (content_tbs auth.now (option_map (λ c. c.now) context.entry)) }
{
    let framed = add_sizes(auth.content().size(), size_of_context(context));
    add_sizes(Some(2), add_sizes(auth.wire_format().size(), framed))
}

/// Writes a FramedContentTBS.
#[tactic(auto, using(mls_wire::specs::WriteSequences::written), unfolding(crate::specs::Tbs::content_tbs))]
fn put_content_tbs(
    alloc: Global,
    auth: &Authenticated,
    context: Option<&GroupContext>,
    draft: &mut Draft,
) -> Result<(), CodecFault>
    ensures { Puts
        (content_tbs auth.now (option_map (λ c. c.now) context.entry))
        draft.old draft.new result }
{
    draft.put_u16(1)?;
    draft.put_u16(auth.wire_format())?;
    auth.content().put(alloc, draft)?;
    put_context(alloc, context, draft)
}

/// Returns the encoded length of a ConfirmedTranscriptHashInput.
#[tactic(auto, using(mls_nodes::specs::TagSizes::tag_sizes), unfolding(crate::specs::Tbs::confirmed_input))]
fn size_of_confirmed_input(auth: &Authenticated) -> Option<usize>
    ensures { result ≡ size (confirmed_input auth.now) }
{
    let signed = add_sizes(auth.content().size(), auth.signature().size());
    add_sizes(auth.wire_format().size(), signed)
}

/// Writes a ConfirmedTranscriptHashInput.
#[tactic(auto, using(mls_wire::specs::WriteSequences::written), unfolding(crate::specs::Tbs::confirmed_input))]
fn put_confirmed_input(
    alloc: Global,
    auth: &Authenticated,
    draft: &mut Draft,
) -> Result<(), CodecFault>
    ensures { Puts (confirmed_input auth.now) draft.old draft.new result }
{
    draft.put_u16(auth.wire_format())?;
    auth.content().put(alloc, draft)?;
    auth.signature().put(alloc, draft)
}

/// Encodes a FramedContentTBS (RFC 9420, 6.1): the version, the wire format and the FramedContent, and then the
/// GroupContext exactly if one is given. The standard has it for the senders `member` and `new_member_commit`.
/// `TooLong` at offset 0 exactly if there is no such encoding; this is checked before anything is allocated.
#[tactic(auto, using(crate::proofs::Rooms::made))]
pub fn content_tbs(
    alloc: Global,
    auth: &Authenticated,
    context: Option<&GroupContext>,
) -> Result<Vec<u8>, CodecFault>
    ensures made { MakesPiece
        (content_tbs auth.now (option_map (λ c. c.now) context.entry))
        (seen (λ bytes. bytes.items) result) }
{
    let mut draft = draft_with_capacity(alloc, size_of_content_tbs(auth, context))?;
    put_content_tbs(alloc, auth, context, &mut draft)?;
    Ok(draft.finish())
}

/// Encodes a KeyPackageTBS (RFC 9420, 10): all fields before the signature. `TooLong` at offset 0 exactly if they have
/// no encoding; this is checked before anything is allocated.
#[tactic(auto, using(crate::proofs::Rooms::made))]
pub fn package_tbs(alloc: Global, key_package: &KeyPackage) -> Result<Vec<u8>, CodecFault>
    ensures made { MakesPiece (package_tbs key_package.now) (seen (λ bytes. bytes.items) result) }
{
    let mut draft = draft_with_capacity(alloc, key_package.size_unsigned())?;
    key_package.put_unsigned(alloc, &mut draft)?;
    Ok(draft.finish())
}

/// Encodes a GroupInfoTBS (RFC 9420, 12.4.3): all fields before the signature. `TooLong` at offset 0 exactly if they
/// have no encoding; this is checked before anything is allocated.
#[tactic(auto, using(crate::proofs::Rooms::made))]
pub fn info_tbs(alloc: Global, info: &GroupInfo) -> Result<Vec<u8>, CodecFault>
    ensures made { MakesPiece (info_tbs info.now) (seen (λ bytes. bytes.items) result) }
{
    let mut draft = draft_with_capacity(alloc, info.size_unsigned())?;
    info.put_unsigned(alloc, &mut draft)?;
    Ok(draft.finish())
}

/// Encodes a ConfirmedTranscriptHashInput (RFC 9420, 8.2): the wire format, the FramedContent and its signature.
/// `TooLong` at offset 0 exactly if they have no encoding; this is checked before anything is allocated.
#[tactic(auto, using(crate::proofs::Rooms::made))]
pub fn confirmed_input(alloc: Global, auth: &Authenticated) -> Result<Vec<u8>, CodecFault>
    ensures made { MakesPiece (confirmed_input auth.now) (seen (λ bytes. bytes.items) result) }
{
    let mut draft = draft_with_capacity(alloc, size_of_confirmed_input(auth))?;
    put_confirmed_input(alloc, auth, &mut draft)?;
    Ok(draft.finish())
}
