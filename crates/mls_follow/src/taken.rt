//! The results of accepted messages.

use mls_tree::HashValue;

/// What an accepted message was.
#[derive(Clone, Copy, Debug, PartialEq, Eq)]
pub enum Taken {
    /// A proposal, which is now pending under this reference (RFC 9420, 5.2).
    Proposal(HashValue),
    /// A commit, which began this epoch (RFC 9420, 12.4).
    Commit(u64),
}
