//! Which strict rule a GroupContext and a tree break, and where.

use mls_check::OutOfMemory;
use mls_msgs::StrictRule;
use thiserror::Error;

/// A strict rule that a GroupContext or a ratchet tree does not meet.
#[derive(Clone, Copy, Debug, PartialEq, Eq, Error)]
#[error("{rule}")]
pub struct StrictFault {
    /// The rule.
    pub rule: StrictRule,
    /// The node index of the node that does not meet it; `None` if the GroupContext's extensions do not.
    pub place: Option<u32>,
}

/// The error of [`validate_strict`](crate::validate_strict).
#[derive(Clone, Copy, Debug, PartialEq, Eq, Error)]
pub enum StrictTreeFault {
    /// A strict rule is not met.
    #[error(transparent)]
    Strict(StrictFault),
    /// An allocation failed.
    #[error("out of memory")]
    OutOfMemory,
}

impl From<OutOfMemory> for StrictTreeFault {
    ghost use Rattle.std.specs.Prelude.{◌≡◌};
    ghost use Rattle.mls_strict.specs.declared.strict_fault.StrictTreeFault.TheVariants as faults;

    ghost from_gives = { λ _ e. e ≡ faults.OutOfMemory };

    fn from(_memory: OutOfMemory) -> StrictTreeFault {
        StrictTreeFault::OutOfMemory
    }
}
