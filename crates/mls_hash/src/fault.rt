//! Errors of hashing.

ghost use Rattle.std.specs.Prelude.{◌≡◌};
ghost use Rattle.mls_hash.specs.declared.fault.HashFault.TheVariants.{OutOfMemory};

use std::alloc::{AllocError, AllocFailed};
use thiserror::Error;

/// Why there is no hash.
#[derive(Clone, Copy, Debug, PartialEq, Eq, Error)]
pub enum HashFault {
    /// The number is that of no supported cipher suite.
    #[error("the cipher suite is not supported")]
    UnsupportedSuite,
    /// There is no node at the node index, or, for a parent hash, no non-blank parent.
    #[error("the tree has no such node")]
    NoSuchNode,
    /// A part is over the limit of a vector.
    #[error("a part is too long for a vector")]
    TooLong,
    /// An allocation failed.
    #[error("out of memory")]
    OutOfMemory,
}

impl From<AllocError> for HashFault {
    ghost from_gives = { λ _ e. e ≡ OutOfMemory };

    fn from(_e: AllocError) -> HashFault {
        HashFault::OutOfMemory
    }
}

impl<T: Drop> From<AllocFailed<T>> for HashFault {
    ghost from_gives = { λ _ e. e ≡ OutOfMemory };

    fn from(_e: AllocFailed<T>) -> HashFault {
        HashFault::OutOfMemory
    }
}
