//! Errors of calls on a tree.

use std::alloc::{AllocError, AllocFailed};
use thiserror::Error;

/// Why a call on a tree failed. The tree is unchanged. (For why a tree is not valid, see `TreeFault` of `mls_check`.)
#[derive(Clone, Copy, Debug, PartialEq, Eq, Error)]
pub enum TreeError {
    /// The tree has no such leaf or node, or the node index of a leaf was given for a parent.
    #[error("the tree has no such node")]
    NoSuchNode,
    /// The tree would have more than 1,048,576 leaves, or a parent's list of unmerged leaves more than 1,048,576
    /// entries.
    #[error("a tree has at most 1,048,576 leaves")]
    TooManyLeaves,
    /// A number of leaves is no power of two, a number of nodes is not `2 * n - 1` for a power of two `n`, or a node is
    /// of the wrong kind for its node index.
    #[error("the nodes form no tree")]
    BadShape,
    /// An allocation failed.
    #[error("out of memory")]
    OutOfMemory,
}

impl From<AllocError> for TreeError {
    ghost use Rattle.std.specs.Prelude.{◌≡◌};
    ghost use Rattle.mls_tree.specs.declared.error.TreeError.TheVariants.{OutOfMemory};

    ghost from_gives = { λ _ e. e ≡ OutOfMemory };

    fn from(_error: AllocError) -> TreeError {
        TreeError::OutOfMemory
    }
}

impl<T: Drop> From<AllocFailed<T>> for TreeError {
    ghost use Rattle.std.specs.Prelude.{◌≡◌};
    ghost use Rattle.mls_tree.specs.declared.error.TreeError.TheVariants.{OutOfMemory};

    ghost from_gives = { λ _ e. e ≡ OutOfMemory };

    fn from(_error: AllocFailed<T>) -> TreeError {
        TreeError::OutOfMemory
    }
}
