//! Why bytes cannot be read or a value cannot be written, the failure of a device, and why a call on devices did not
//! complete.

ghost use Rattle.std.specs.Prelude.{◌≡◌};
ghost use Rattle.mls_wire.specs.declared.fault.CodecFault.TheVariants.{OutOfMemory, Wire};

use std::alloc::{AllocError, AllocFailed};
use thiserror::Error;

/// What is wrong with bytes, or with a value to be written.
///
/// A vector is checked in this order: first byte missing (`Truncated`), `BadPrefix`, bytes of the length missing
/// (`Truncated`), `NotShortest`, body missing (`Truncated`), `OddLength`.
#[derive(Clone, Copy, Debug, PartialEq, Eq, Error)]
pub enum WireFaultKind {
    /// The bytes end within an item.
    #[error("Truncated")]
    Truncated,
    /// A length is not in its shortest form (RFC 9420, 2.1.2).
    #[error("NotShortest")]
    NotShortest,
    /// The first byte of a length is `c0` or more (RFC 9420, 2.1.2).
    #[error("BadPrefix")]
    BadPrefix,
    /// The byte before an optional value is neither 0 nor 1 (RFC 9420, 2.1.1).
    #[error("BadOptional")]
    BadOptional,
    /// A tag names no variant that is read here.
    #[error("BadTag {0}")]
    BadTag(u16),
    /// The body of a list of `uint16` or `uint32` is not a whole number of items.
    #[error("OddLength")]
    OddLength,
    /// Bytes are left after the value.
    #[error("Trailing")]
    Trailing,
    /// A body, a list or an input is over its limit.
    #[error("TooLong")]
    TooLong,
}

/// What is wrong, and where.
#[derive(Clone, Copy, Debug, PartialEq, Eq, Error)]
#[error("{kind} at {at}")]
pub struct WireFault {
    /// What is wrong.
    pub kind: WireFaultKind,
    /// The offset of the first byte of the smallest item that cannot be read, counted from the start of the outermost
    /// input. A vector begins at its length. `Trailing` is at the first byte after the value, and the `TooLong` of a
    /// writer at the number of bytes written so far.
    pub at: usize,
}

/// The error of a call that may allocate.
#[derive(Clone, Copy, Debug, PartialEq, Eq, Error)]
pub enum CodecFault {
    /// The bytes cannot be read, or the value cannot be written.
    #[error(transparent)]
    Wire(WireFault),
    /// An allocation failed.
    #[error("out of memory")]
    OutOfMemory,
}

/// A source or a sink failed.
#[derive(Clone, Copy, Debug, PartialEq, Eq, Error)]
#[error("the device failed")]
pub struct DeviceFault;

/// Why a call that reads from sources and writes to sinks did not do all of it.
#[derive(Clone, Copy, Debug, PartialEq, Eq, Error)]
pub enum RunFault {
    /// A source failed, or a file can't be opened.
    #[error("read")]
    Read,
    /// A sink failed.
    #[error("write")]
    Write,
    /// An allocation failed.
    #[error("memory")]
    Memory,
}

impl From<AllocError> for RunFault {
    ghost use Rattle.mls_wire.specs.declared.fault.RunFault.TheVariants.{Memory};

    ghost from_gives = { λ _ e. e ≡ Memory };

    fn from(_e: AllocError) -> RunFault {
        RunFault::Memory
    }
}

impl From<WireFault> for CodecFault {
    ghost from_gives = { λ f e. e ≡ Wire f };

    fn from(fault: WireFault) -> CodecFault {
        CodecFault::Wire(fault)
    }
}

impl From<AllocError> for CodecFault {
    ghost from_gives = { λ _ e. e ≡ OutOfMemory };

    fn from(_e: AllocError) -> CodecFault {
        CodecFault::OutOfMemory
    }
}

impl<T: Drop> From<AllocFailed<T>> for CodecFault {
    ghost from_gives = { λ _ e. e ≡ OutOfMemory };

    fn from(_e: AllocFailed<T>) -> CodecFault {
        CodecFault::OutOfMemory
    }
}
