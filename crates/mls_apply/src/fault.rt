//! Why a proposal list cannot be applied.

use std::alloc::{AllocError, AllocFailed};
use thiserror::Error;

/// Why a proposal list cannot be applied to a tree (RFC 9420, 12.3).
#[derive(Clone, Copy, Debug, PartialEq, Eq, Error)]
pub enum ApplyFault {
    /// A leaf is blank that is to be replaced or removed. Or an Update is from no member.
    #[error("a leaf is not set")]
    NoSuchLeaf,
    /// The group would have more than 1,048,576 members, or an unmerged list more than 1,048,576 entries (own limits).
    #[error("a tree has at most 1,048,576 leaves")]
    TooManyLeaves,
    /// An allocation failed.
    #[error("out of memory")]
    OutOfMemory,
}

impl From<AllocError> for ApplyFault {
    ghost use Rattle.std.specs.Prelude.{◌≡◌};
    ghost use Rattle.mls_apply.specs.declared.fault.ApplyFault.TheVariants as faults;

    ghost from_gives = { λ _ e. e ≡ faults.OutOfMemory };

    fn from(_error: AllocError) -> ApplyFault {
        ApplyFault::OutOfMemory
    }
}

impl<T: Drop> From<AllocFailed<T>> for ApplyFault {
    ghost use Rattle.std.specs.Prelude.{◌≡◌};
    ghost use Rattle.mls_apply.specs.declared.fault.ApplyFault.TheVariants as faults;

    ghost from_gives = { λ _ e. e ≡ faults.OutOfMemory };

    fn from(_failed: AllocFailed<T>) -> ApplyFault {
        ApplyFault::OutOfMemory
    }
}
