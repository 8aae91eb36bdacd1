//! The bytes that encode a leaf node: its own, or a part of an input that leaf nodes share.

ghost use Rattle.std.specs.Prelude.{◌≡◌, ◌≤◌, IfOk, IfErr, length, slice_range};
ghost use Rattle.mls_wire.specs.declared.fault.CodecFault.TheVariants as codec;

use mls_wire::{CodecFault, Shared, TryClone};
use std::alloc::Global;
use std::fmt;
use std::marker::Model;

/// The first `end` bytes of an input, the last of which a reader has still to read.
#[derive(Clone, Copy)]
pub(crate) struct InputPart<'a> {
    pub(crate) input: &'a Shared<Vec<u8>>,
    pub(crate) end: usize,
}

/// Where the bytes are.
enum Stored {
    /// On the heap, for one leaf node.
    Own(Vec<u8>),
    /// In an input on the heap, from one index to before another.
    Part {
        input: Shared<Vec<u8>>,
        start: usize,
        end: usize,
    },
}

// Written out, so that a drop is one call in the proofs of its owners.
impl Drop for Stored {
    fn drop(self) {
        match self {
            Stored::Own(_) => {}
            Stored::Part {
                input: _,
                start: _,
                end: _,
            } => {}
        }
    }
}

/// The bytes that encode a leaf node. The model is the list of them.
pub(crate) struct LeafBytes {
    stored: Stored,
}

// Written out, so that a drop is one call in the proofs of its owners.
impl Drop for LeafBytes {
    fn drop(self) {
        let LeafBytes { stored: _ } = self;
    }
}

impl Model for LeafBytes {
    ghost use Rattle.std.specs.Prelude.{ℕ, List};
    ghost use Rattle.mls_nodes.specs.LeafBytesInternal.{bytes_in, AreWithin};

    ghost Value = { List ℕ };

    ghost view = { λ b. bytes_in b.stored };

    ghost invariant = { λ b. AreWithin b.stored };
}

impl LeafBytes {
    /// Returns these bytes.
    pub(crate) fn own(bytes: Vec<u8>) -> LeafBytes
        ensures { result ≡ bytes.items }
    {
        LeafBytes {
            stored: Stored::Own(bytes),
        }
    }

    /// Returns the bytes of an input from `start` to before `end`. They are not copied.
    pub(crate) fn part(input: Shared<Vec<u8>>, start: usize, end: usize) -> LeafBytes
        requires order { start ≤ end }
        requires inside { end ≤ length input.items }
        ensures { result ≡ slice_range input.items start end }
    {
        LeafBytes {
            stored: Stored::Part { input, start, end },
        }
    }

    /// Returns the bytes.
    pub(crate) fn as_slice(&self) -> &[u8]
        ensures { result.now ≡ self.now }
    {
        match &self.stored {
            Stored::Own(bytes) => bytes.as_slice(),
            Stored::Part { input, start, end } => &input.as_slice()[*start..*end],
        }
    }

    /// Returns equal bytes. A part of an input is shared, and other bytes are copied.
    pub(crate) fn try_clone(&self, alloc: Global) -> Result<LeafBytes, CodecFault>
        ensures bytes { IfOk result (λ copy. copy ≡ self.now) }
        ensures memory { IfErr result (λ e. e ≡ codec.OutOfMemory) }
    {
        match &self.stored {
            Stored::Own(bytes) => Ok(LeafBytes::own(Vec::from_slice(alloc, bytes.as_slice())?)),
            Stored::Part { input, start, end } => {
                Ok(LeafBytes::part(input.try_clone(alloc)?, *start, *end))
            }
        }
    }
}

impl fmt::Debug for LeafBytes {
    fn fmt<W: fmt::Write>(&self, f: &mut fmt::Formatter<W>) -> fmt::Result {
        self.as_slice().fmt(f)
    }
}
