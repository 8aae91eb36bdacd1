//! Why a state file is refused.

ghost use Rattle.std.specs.Prelude.{◌≡◌};
ghost use Rattle.mls_state.specs.StateFileInternal.{state_file_fault};

use mls_wire::{CodecFault, WireFault};
use thiserror::Error;

/// Why a state file is refused.
#[derive(Clone, Copy, Debug, PartialEq, Eq, Error)]
pub enum StateFileFault {
    /// The bytes are no encoding of a state file.
    #[error("unreadable: {0}")]
    Unreadable(WireFault),
    /// The checksum is not that of the state after it.
    #[error("the checksum differs")]
    ChecksumDiffers,
    /// An allocation failed.
    #[error("out of memory")]
    OutOfMemory,
}

impl From<CodecFault> for StateFileFault {
    ghost from_gives = { λ f e. e ≡ state_file_fault f };

    fn from(fault: CodecFault) -> StateFileFault {
        match fault {
            CodecFault::Wire(fault) => StateFileFault::Unreadable(fault),
            CodecFault::OutOfMemory => StateFileFault::OutOfMemory,
        }
    }
}
