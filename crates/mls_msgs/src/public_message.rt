//! PublicMessage.

ghost use Rattle.std.specs.Prelude.{◌≡◌, Option, Some, None, option_map, IsTrue, IsOk, IsSome, ◌↔◌, MatchResult};
ghost use Rattle.mls_wire.specs.SaturatingSizes.{size};
ghost use Rattle.mls_msgs.specs.Layout.{is_member};
ghost use Rattle.mls_msgs.specs.Message.{message};
ghost use Rattle.mls_msgs.specs.PublicMessage.{is_public, after_content};
ghost use Rattle.mls_msgs.specs.Tbs.{content_tbs};
ghost use Rattle.mls_msgs.specs.declared.message.Message.TheVariants.{Public};

use crate::authenticated::{Authenticated, put_tag, read_signed_frame, read_tag, size_of_tag};
use mls_wire::{CodecFault, Decode, Draft, Encode, Opaque, Reader, add_sizes};
use std::alloc::Global;
use std::marker::Model;

/// The fields of a [`PublicMessage`], which may be inconsistent.
#[derive(Debug, Drop)]
pub struct PublicParts {
    /// The AuthenticatedContent.
    pub auth: Authenticated,
    /// The membership tag of a member's message.
    pub membership_tag: Option<Opaque>,
}

/// A PublicMessage (RFC 9420, 6.2). The wire format is 1. There is a membership tag exactly if the sender is a member.
#[derive(Debug, Drop)]
pub struct PublicMessage {
    parts: PublicParts,
}

impl Model for PublicMessage {
    ghost use Rattle.std.specs.Prelude.{IsTrue};
    ghost use Rattle.mls_msgs.specs.declared.public_message.PublicParts.{PublicParts};
    ghost use Rattle.mls_msgs.specs.PublicMessage.{is_public};

    ghost Value = { PublicParts };

    ghost view = { λ m. m.parts };

    ghost invariant = { λ m. IsTrue (is_public m.parts) };
}

impl PublicMessage {
    /// Creates a PublicMessage. Returns the parts if they are inconsistent: a wire format other than 1, a member's
    /// message without a membership tag, or a tag with another sender.
    pub fn new(parts: PublicParts) -> Result<PublicMessage, PublicParts>
        ensures held { MatchResult result (λ made. made ≡ parts) (λ back. back ≡ parts) }
        ensures fits { IsOk result ↔ IsTrue (is_public parts) }
    {
        let sender = parts.auth.content().sender;
        if parts.auth.wire_format() == 1 && parts.membership_tag.is_some() == sender.is_member() {
            Ok(PublicMessage { parts })
        } else {
            Err(parts)
        }
    }

    /// Returns the AuthenticatedContent.
    pub fn auth(&self) -> &Authenticated
        ensures value { result.now ≡ self.now.auth }
        ensures format { result.now.wire_format ≡ 1 }
    {
        &self.parts.auth
    }

    /// Returns the membership tag of a member's message.
    pub fn membership_tag(&self) -> Option<&Opaque>
        ensures value { option_map (λ t. t.now) result ≡ self.now.membership_tag }
        ensures member { IsSome result ↔ IsTrue (is_member self.now.auth.content.sender) }
    {
        self.parts.membership_tag.as_ref()
    }

    /// Returns the encoded length of what follows the FramedContent: its authentication, and a member's membership tag.
    #[tactic(auto, using(mls_nodes::specs::TagSizes::tag_sizes), unfolding(crate::specs::PublicMessage::after_content))]
    fn size_after_content(&self) -> Option<usize>
        ensures { result ≡ size (after_content self.now) }
    {
        let tag = size_of_tag(&self.parts.membership_tag);
        add_sizes(self.parts.auth.size_of_auth(), tag)
    }

    /// Returns the FramedContentTBS without a GroupContext (RFC 9420, 6.1), which is the front of `bytes`: the version, the
    /// wire format and the FramedContent. Nothing is encoded or copied.
    ///
    /// `bytes` must be the encoding of this PublicMessage as an MLSMessage (RFC 9420, 6).
    pub fn content_tbs_in<'a>(&self, bytes: &'a [u8]) -> &'a [u8]
        requires encoding { message (Public self.now) ≡ Some bytes.now }
        ensures { content_tbs self.now.auth None ≡ Some result.now }
    {
        let Some(after) = self.size_after_content() else {
            unreachable!();
        };
        &bytes[..bytes.len() - after]
    }
}

impl Decode for PublicMessage {
    ghost use Rattle.mls_msgs.specs.PublicMessage.{public_message};
    ghost use Rattle.mls_msgs.specs.FrameParsing.{public_message_at};
    ghost use Rattle.mls_msgs.specs.AuthenticatedExact.{public_message_exact, public_message_long};

    ghost encoding = { public_message };

    ghost reading = { public_message_at };

    #[tactic(auto, unfolding(crate::specs::FrameParsing::public_message_at))]
    fn read(alloc: Global, reader: &mut Reader<'_>) -> Result<PublicMessage, CodecFault> {
        let mut ahead = reader.fork();
        let auth = read_signed_frame(alloc, &mut ahead, 1)?;
        let is_member = auth.content().sender.is_member();
        let membership_tag = read_tag(alloc, &mut ahead, is_member)?;
        *reader = ahead;
        Ok(PublicMessage {
            parts: PublicParts {
                auth,
                membership_tag,
            },
        })
    }

    ghost exact = { public_message_exact };

    ghost long = { public_message_long };
}

impl Encode for PublicMessage {
    #[tactic(auto, using(mls_nodes::specs::TagSizes::tag_sizes), unfolding(crate::specs::PublicMessage::public_message, crate::specs::PublicMessage::public_frame))]
    fn size(&self) -> Option<usize> {
        let tag = size_of_tag(&self.parts.membership_tag);
        add_sizes(self.parts.auth.size_of_signed_frame(), tag)
    }

    #[tactic(auto, using(mls_wire::specs::WriteSequences::written), unfolding(crate::specs::PublicMessage::public_message, crate::specs::PublicMessage::public_frame))]
    fn put(&self, alloc: Global, draft: &mut Draft) -> Result<(), CodecFault> {
        self.parts.auth.put_signed_frame(alloc, draft)?;
        put_tag(alloc, &self.parts.membership_tag, draft)
    }
}
