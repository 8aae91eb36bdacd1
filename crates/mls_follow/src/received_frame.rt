//! A PublicMessage that was received, what its sender has signed of it, and its refusal by the rules after those of the
//! profile.

ghost use Rattle.std.specs.Prelude.{◌≡◌, Some, None};
ghost use Rattle.mls_msgs.specs.Message.{message};
ghost use Rattle.mls_msgs.specs.Tbs.{content_tbs};
ghost use Rattle.mls_msgs.specs.declared.message.Message.TheVariants.{Public};

use mls_apply::Refusal;
use mls_msgs::{Authenticated, Message, PublicMessage};
use std::marker::Model;

/// The AuthenticatedContent of a PublicMessage, and its FramedContentTBS without a GroupContext (RFC 9420, 6.1): a part of
/// the bytes that were received. The model is the AuthenticatedContent.
#[derive(Drop)]
pub(crate) struct ReceivedFrame<'a> {
    auth: &'a Authenticated,
    tbs: &'a [u8],
}

impl<'a> Model for ReceivedFrame<'a> {
    ghost use Rattle.std.specs.Prelude.{◌≡◌, Some, None};
    ghost use Rattle.mls_msgs.specs.Tbs.{content_tbs};
    ghost use Rattle.mls_msgs.specs.declared.authenticated.AuthenticatedParts.{AuthenticatedParts};

    ghost Value = { AuthenticatedParts };

    ghost view = { λ f. f.auth.now };

    ghost invariant = { λ f. (content_tbs f.auth.now None ≡ Some f.tbs.now) × (f.auth.now.wire_format ≡ 1) };
}

impl<'a> ReceivedFrame<'a> {
    /// Returns the frame of a PublicMessage, of whose MLSMessage (RFC 9420, 6) `bytes` must be the encoding.
    pub(crate) fn new(public: &'a PublicMessage, bytes: &'a [u8]) -> ReceivedFrame<'a>
        requires encoding { message (Public public.now) ≡ Some bytes.now }
        ensures { result ≡ public.now.auth }
    {
        ReceivedFrame {
            auth: public.auth(),
            tbs: public.content_tbs_in(bytes),
        }
    }

    /// Returns the AuthenticatedContent.
    pub(crate) fn auth(&self) -> &'a Authenticated
        ensures value { result.now ≡ self.now }
        ensures format { result.now.wire_format ≡ 1 }
    {
        self.auth
    }

    /// Returns the FramedContentTBS without a GroupContext.
    pub(crate) fn tbs(&self) -> &'a [u8]
        ensures { content_tbs self.now None ≡ Some result.now }
    {
        self.tbs
    }
}

/// A PublicMessage that was received, and its refusal by the first of the rules after those of the profile that it does not
/// meet by itself: a strict one of the group's set, but for 51, or that for lifetimes.
#[derive(Drop)]
pub(crate) struct JudgedFrame<'a> {
    pub(crate) frame: ReceivedFrame<'a>,
    pub(crate) late: Option<Refusal>,
}

/// A message that was received, its bytes, and the time at which it is judged, in seconds since 1970, if one is passed.
#[derive(Clone, Copy)]
pub(crate) struct ReceivedMessage<'a> {
    pub(crate) message: &'a Message,
    pub(crate) bytes: &'a [u8],
    pub(crate) time: Option<u64>,
}
