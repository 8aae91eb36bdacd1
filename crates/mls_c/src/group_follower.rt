//! What a handle has.

use mls_check::Receipts;
use mls_follow::Follower;

/// A follower of a group that verifies signatures by the receipts that it has learnt.
#[derive(Drop)]
pub struct GroupFollower {
    pub(crate) follower: Follower<Receipts>,
}
