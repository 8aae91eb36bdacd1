//! What messages are judged by.

use mls_check::SignatureCheck;

/// What the messages to a follower are judged by, in addition to the rules of its group: a check of their signatures, and a
/// time, if one is passed.
#[derive(Drop)]
pub struct Judge<C: SignatureCheck> {
    /// The check of signatures.
    pub checker: C,
    /// The time at which lifetimes are judged, in seconds since 1970 ([`mls_follow::Follower::take_at`]). `None` if they are
    /// not judged.
    pub time: Option<u64>,
}
