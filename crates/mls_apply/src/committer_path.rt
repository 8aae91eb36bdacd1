//! The update path of a commit (RFC 9420, 7.6).

use crate::list_application::Leaves;
use mls_msgs::UpdatePath;

/// The update path of a commit, and what its rules and its merge need of the tree after the proposal list.
#[derive(Drop)]
pub struct CommitterPath<'a> {
    /// The leaf index that the path is for: the committer's.
    pub leaf: u32,
    /// The leaf indices of the members that the list added: a path has no ciphertext for them.
    pub added: &'a Leaves,
    /// The update path.
    pub path: &'a UpdatePath,
}
