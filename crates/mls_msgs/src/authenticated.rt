//! AuthenticatedContent: a FramedContent with its authentication.

ghost use Rattle.std.specs.Prelude.{◌≡◌, ℕ, List, Option, option_map, true, OnOk, IfOk, IsTrue, IsOk, is_some, IsSome, ◌↔◌, MatchResult};
ghost use Rattle.mls_wire.specs.SaturatingSizes.{size};
ghost use Rattle.mls_wire.specs.ReadContracts.{DecodesAll, seen};
ghost use Rattle.mls_wire.specs.Parsing.{GivesOrFull};
ghost use Rattle.mls_wire.specs.WriteContracts.{MakesPiece, Puts};
ghost use Rattle.mls_msgs.specs.Layout.{is_commit};
ghost use Rattle.mls_msgs.specs.Authenticated.{is_frame_format, tag_fits, is_authenticated, tag_if, frame_auth, signed_frame, authenticated_content};
ghost use Rattle.mls_wire.specs.Input.{at};
ghost use Rattle.mls_msgs.specs.MembersReading.{passes};
ghost use Rattle.mls_msgs.specs.Profile.{is_members_authenticated, authenticated_in};
ghost use Rattle.mls_msgs.specs.declared.profile.Profile.TheVariants.{Members};
ghost use Rattle.mls_msgs.specs.FrameParsing.{tag_if_at, frame_auth_at, frame_format_at, signed_frame_at, authenticated_content_at};

use crate::bad_tag::bad_tag;
use crate::framed_content::FramedContent;
use crate::profile::{Profile, check_frame, fault_found};
use mls_wire::{
    CodecFault, Decode, Draft, Encode, Opaque, Reader, add_sizes, bytes_of, read_all_of,
};
use std::alloc::Global;
use std::marker::Model;

/// The fields of an [`Authenticated`], which may be inconsistent.
#[derive(Debug, Drop)]
pub struct AuthenticatedParts {
    /// 1 for a PublicMessage, 2 for a PrivateMessage.
    pub wire_format: u16,
    /// The content.
    pub content: FramedContent,
    /// The signature over the FramedContentTBS.
    pub signature: Opaque,
    /// The confirmation tag of a commit.
    pub confirmation_tag: Option<Opaque>,
}

/// An AuthenticatedContent (RFC 9420, 6). The wire format is 1 (PublicMessage) or 2 (PrivateMessage). There is a
/// confirmation tag exactly for a commit.
#[derive(Debug)]
pub struct Authenticated {
    parts: AuthenticatedParts,
}

// Implemented by hand, so that proofs of callers see a drop as one call.
impl Drop for Authenticated {
    fn drop(self) {
        let Authenticated { parts: _ } = self;
    }
}

impl Model for Authenticated {
    ghost use Rattle.std.specs.Prelude.{IsTrue};
    ghost use Rattle.mls_msgs.specs.declared.authenticated.AuthenticatedParts.{AuthenticatedParts};
    ghost use Rattle.mls_msgs.specs.Authenticated.{is_authenticated};

    ghost Value = { AuthenticatedParts };

    ghost view = { λ a. a.parts };

    ghost invariant = { λ a. IsTrue (is_authenticated a.parts) };
}

impl Authenticated {
    /// Creates an AuthenticatedContent. Returns the parts if they are inconsistent: a wire format other than 1 and 2, a
    /// commit without a confirmation tag, or a tag with other content.
    pub fn new(parts: AuthenticatedParts) -> Result<Authenticated, AuthenticatedParts>
        ensures held { MatchResult result (λ made. made ≡ parts) (λ back. back ≡ parts) }
        ensures fits { IsOk result ↔ IsTrue (is_authenticated parts) }
    {
        let is_framed = parts.wire_format == 1 || parts.wire_format == 2;
        if is_framed && parts.confirmation_tag.is_some() == parts.content.content.is_commit() {
            Ok(Authenticated { parts })
        } else {
            Err(parts)
        }
    }

    /// Returns the wire format: 1 for a PublicMessage, 2 for a PrivateMessage.
    pub fn wire_format(&self) -> u16
        ensures value { result ≡ self.now.wire_format }
        ensures limit { IsTrue (is_frame_format result) }
    {
        self.parts.wire_format
    }

    /// Returns the content.
    pub fn content(&self) -> &FramedContent
        ensures { result.now ≡ self.now.content }
    {
        &self.parts.content
    }

    /// Returns the signature over the FramedContentTBS.
    pub fn signature(&self) -> &Opaque
        ensures { result.now ≡ self.now.signature }
    {
        &self.parts.signature
    }

    /// Returns the confirmation tag of a commit.
    pub fn confirmation_tag(&self) -> Option<&Opaque>
        ensures value { option_map (λ t. t.now) result ≡ self.now.confirmation_tag }
        ensures commit { IsSome result ↔ IsTrue (is_commit self.now.content.content) }
    {
        self.parts.confirmation_tag.as_ref()
    }
}

/// Reads a tag, if there is to be one.
#[tactic(auto, unfolding(crate::specs::FrameParsing::tag_if_at))]
pub(crate) fn read_tag(
    alloc: Global,
    reader: &mut Reader<'_>,
    needed: bool,
) -> Result<Option<Opaque>, CodecFault>
    ensures read { GivesOrFull (tag_if_at needed) reader.old reader.new result }
    ensures fits { IfOk result (λ t. IsTrue (tag_fits needed t)) }
{
    if needed {
        Ok(Some(Opaque::read(alloc, reader)?))
    } else {
        Ok(None)
    }
}

/// Writes a tag, if there is one.
#[tactic(auto, unfolding(crate::specs::Authenticated::tag_if))]
pub(crate) fn put_tag(
    alloc: Global,
    tag: &Option<Opaque>,
    draft: &mut Draft,
) -> Result<(), CodecFault>
    ensures { Puts (tag_if (is_some tag.now) tag.now) draft.old draft.new result }
{
    match tag {
        Some(tag) => tag.put(alloc, draft),
        None => Ok(()),
    }
}

/// Returns the encoded length of a tag, if there is one.
#[tactic(auto, using(crate::proofs::Rooms::size_of_nothing), unfolding(crate::specs::Authenticated::tag_if))]
pub(crate) fn size_of_tag(tag: &Option<Opaque>) -> Option<usize>
    ensures { result ≡ size (tag_if (is_some tag.now) tag.now) }
{
    match tag {
        Some(tag) => tag.size(),
        None => Some(0),
    }
}

/// The authentication of a FramedContent (RFC 9420, 6.1).
#[derive(Drop)]
struct FrameAuth {
    signature: Opaque,
    confirmation_tag: Option<Opaque>,
}

/// Reads the authentication of content that is a commit or not.
#[tactic(auto, unfolding(crate::specs::FrameParsing::frame_auth_at))]
fn read_frame_auth(
    alloc: Global,
    reader: &mut Reader<'_>,
    is_commit: bool,
) -> Result<FrameAuth, CodecFault>
    ensures read { GivesOrFull (frame_auth_at is_commit) reader.old reader.new
        (seen (λ a. (a.signature, a.confirmation_tag)) result) }
    ensures fits { IfOk result (λ a. IsTrue (tag_fits is_commit a.confirmation_tag)) }
{
    let mut ahead = reader.fork();
    let signature = Opaque::read(alloc, &mut ahead)?;
    let confirmation_tag = read_tag(alloc, &mut ahead, is_commit)?;
    *reader = ahead;
    Ok(FrameAuth {
        signature,
        confirmation_tag,
    })
}

/// Reads a FramedContent and its authentication, for this wire format.
#[tactic(auto, unfolding(crate::specs::FrameParsing::signed_frame_at))]
pub(crate) fn read_signed_frame(
    alloc: Global,
    reader: &mut Reader<'_>,
    wire_format: u16,
) -> Result<Authenticated, CodecFault>
    requires { IsTrue (is_frame_format wire_format) }
    ensures read { GivesOrFull (signed_frame_at wire_format) reader.old reader.new result }
    ensures format { IfOk result (λ a. a.wire_format ≡ wire_format) }
{
    let mut ahead = reader.fork();
    let content = FramedContent::read(alloc, &mut ahead)?;
    let auth = read_frame_auth(alloc, &mut ahead, content.content.is_commit())?;
    *reader = ahead;
    Ok(Authenticated {
        parts: AuthenticatedParts {
            wire_format,
            content,
            signature: auth.signature,
            confirmation_tag: auth.confirmation_tag,
        },
    })
}

/// Reads the wire format. `BadTag` if it is not 1 or 2.
#[tactic(auto, unfolding(crate::specs::FrameParsing::frame_format_at))]
fn read_frame_format(alloc: Global, reader: &mut Reader<'_>) -> Result<u16, CodecFault>
    ensures read { GivesOrFull frame_format_at reader.old reader.new result }
    ensures limit { IfOk result (λ n. IsTrue (is_frame_format n)) }
{
    let mut ahead = reader.fork();
    let wire_format = u16::read(alloc, &mut ahead)?;
    if wire_format != 1 && wire_format != 2 {
        return Err(bad_tag(wire_format, reader.position()));
    }
    *reader = ahead;
    Ok(wire_format)
}

impl Decode for Authenticated {
    ghost use Rattle.mls_msgs.specs.Authenticated.{authenticated_content};
    ghost use Rattle.mls_msgs.specs.FrameParsing.{authenticated_content_at};
    ghost use Rattle.mls_msgs.specs.AuthenticatedExact.{authenticated_content_exact, authenticated_content_long};

    ghost encoding = { authenticated_content };

    ghost reading = { authenticated_content_at };

    #[tactic(auto, unfolding(crate::specs::FrameParsing::authenticated_content_at))]
    fn read(alloc: Global, reader: &mut Reader<'_>) -> Result<Authenticated, CodecFault> {
        let mut ahead = reader.fork();
        let wire_format = read_frame_format(alloc, &mut ahead)?;
        let authenticated = read_signed_frame(alloc, &mut ahead, wire_format)?;
        *reader = ahead;
        Ok(authenticated)
    }

    ghost exact = { authenticated_content_exact };

    ghost long = { authenticated_content_long };
}

impl Authenticated {
    /// Returns the encoded length of the authentication of the content: its signature, and the confirmation tag of a commit.
    #[tactic(auto, using(mls_nodes::specs::TagSizes::tag_sizes), unfolding(crate::specs::Authenticated::frame_auth))]
    pub(crate) fn size_of_auth(&self) -> Option<usize>
        ensures { result ≡ size (frame_auth (is_commit self.now.content.content)
            (self.now.signature, self.now.confirmation_tag)) }
    {
        let tag = size_of_tag(&self.parts.confirmation_tag);
        add_sizes(self.parts.signature.size(), tag)
    }

    /// Returns the encoded length of a FramedContent and its authentication.
    #[tactic(auto, using(mls_nodes::specs::TagSizes::tag_sizes), unfolding(crate::specs::Authenticated::signed_frame))]
    pub(crate) fn size_of_signed_frame(&self) -> Option<usize>
        ensures { result ≡ size (signed_frame self.now) }
    {
        add_sizes(self.parts.content.size(), self.size_of_auth())
    }

    /// Writes a FramedContent and its authentication.
    #[tactic(auto, using(mls_wire::specs::WriteSequences::written), unfolding(crate::specs::Authenticated::signed_frame, crate::specs::Authenticated::frame_auth))]
    pub(crate) fn put_signed_frame(
        &self,
        alloc: Global,
        draft: &mut Draft,
    ) -> Result<(), CodecFault>
        ensures { Puts (signed_frame self.now) draft.old draft.new result }
    {
        self.parts.content.put(alloc, draft)?;
        self.parts.signature.put(alloc, draft)?;
        put_tag(alloc, &self.parts.confirmation_tag, draft)
    }
}

impl Encode for Authenticated {
    #[tactic(auto, using(mls_nodes::specs::TagSizes::tag_sizes, crate::proofs::PartLemmas::frame_format_fits), unfolding(crate::specs::Authenticated::authenticated_content))]
    fn size(&self) -> Option<usize> {
        add_sizes(self.wire_format().size(), self.size_of_signed_frame())
    }

    #[tactic(auto, using(mls_wire::specs::WriteSequences::written, crate::proofs::PartLemmas::frame_format_fits), unfolding(crate::specs::Authenticated::authenticated_content))]
    fn put(&self, alloc: Global, draft: &mut Draft) -> Result<(), CodecFault> {
        draft.put_u16(self.wire_format())?;
        self.put_signed_frame(alloc, draft)
    }
}

/// Refuses an AuthenticatedContent that has a proposal type outside the members' profile, as [`check_frame`] does.
fn check_authenticated(alloc: Global, bytes: &[u8]) -> Result<(), CodecFault>
    ensures { OnOk result
        (passes is_members_authenticated (authenticated_content_at (at 0 bytes.now)) ≡ true) }
{
    let mut reader = Reader::new(bytes);
    let _wire_format = read_frame_format(alloc, &mut reader)?;
    check_frame(alloc, reader)
}

/// Decodes the AuthenticatedContent (RFC 9420, 6) that the bytes encode. Each of its proposals must be in `profile`.
///
/// # Errors
///
/// - `BadTag` of the wire format at 0, if it is neither 1 nor 2.
/// - `BadTag` of the type at its offset, for the first proposal type that the profile does not have. Nothing after the
///   type is checked first.
/// - Otherwise the first fault of the bytes from the left.
/// - `OutOfMemory`.
#[tactic(auto, using(crate::proofs::Profiles::authenticated_contents_in))]
pub fn decode_authenticated_in(
    alloc: Global,
    profile: Profile,
    bytes: &[u8],
) -> Result<Authenticated, CodecFault>
    ensures decoded { DecodesAll (authenticated_in profile) bytes.now result }
{
    match read_all_of::<Authenticated>(alloc, bytes) {
        Ok(auth) => {
            if profile.has_authenticated(&auth) {
                return Ok(auth);
            }
            Err(fault_found(check_authenticated(alloc, bytes)))
        }
        Err(CodecFault::OutOfMemory) => Err(CodecFault::OutOfMemory),
        Err(CodecFault::Wire(fault)) => {
            Err(profile.fault_of(check_authenticated(alloc, bytes), fault))
        }
    }
}

/// Decodes the AuthenticatedContent of the members' profile that the bytes encode, as [`decode_authenticated_in`] does.
pub fn decode_authenticated(alloc: Global, bytes: &[u8]) -> Result<Authenticated, CodecFault>
    ensures decoded { DecodesAll (authenticated_in Members) bytes.now result }
{
    decode_authenticated_in(alloc, Profile::Members, bytes)
}

/// Encodes an AuthenticatedContent. `TooLong` at offset 0 exactly if a vector in it is over the limit; this is checked
/// before anything is allocated.
pub fn encode_authenticated(alloc: Global, value: &Authenticated) -> Result<Vec<u8>, CodecFault>
    ensures encoded { MakesPiece
        (authenticated_content value.now)
        (seen (λ bytes. bytes.items) result) }
{
    bytes_of(alloc, value)
}
