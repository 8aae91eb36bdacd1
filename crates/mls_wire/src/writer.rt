//! Bytes that are written one piece after the other, each of them whole or not at all.

ghost use Rattle.std.specs.Prelude.{◌≡◌, ◌++◌, ℕ, List, [], Option, Some, length, take};
ghost use Rattle.std.specs.Int.{w8, w16, w32, w64};
ghost use Rattle.mls_wire.specs.Faults.{too_long_at};
ghost use Rattle.mls_wire.specs.Encoding.{number, length_form, vector, flag};
ghost use Rattle.mls_wire.specs.WriteContracts.{WritesPiece};

use crate::draft::Draft;
use crate::encode::Encode;
use crate::fault::{CodecFault, WireFault, WireFaultKind};
use std::alloc::{AllocError, Global};
use std::marker::Model;
use std::mem::replace;

/// The bytes that were written so far. A failed write leaves them unchanged.
///
/// Each call of `write_..` fails as [`WireFaultKind::TooLong`], at the number of bytes written so far, if and only if
/// the piece has no encoding within its limit.
#[derive(Drop)]
pub struct Writer {
    bytes: Vec<u8>,
}

impl Model for Writer {
    ghost use Rattle.std.specs.Prelude.{ℕ, List};

    ghost Value = { List ℕ };

    ghost view = { λ w. w.bytes.items };
}

impl Writer {
    /// Returns a writer with no bytes, which will allocate from `alloc`.
    pub fn new(alloc: Global) -> Writer
        ensures { result ≡ [] }
    {
        Writer {
            bytes: Vec::new(alloc),
        }
    }

    /// Returns a writer that continues after these bytes.
    pub(crate) fn from_bytes(bytes: Vec<u8>) -> Writer
        ensures { result ≡ bytes.items }
    {
        Writer { bytes }
    }

    /// Returns the bytes written so far.
    pub fn bytes(&self) -> &[u8]
        ensures { result.now ≡ self.now }
    {
        self.bytes.as_slice()
    }

    /// Returns the bytes. Does not allocate.
    pub fn into_bytes(self) -> Vec<u8>
        ensures { result.items ≡ self }
    {
        self.bytes
    }

    /// Removes all bytes and preserves the capacity, for a caller that uses one writer again and again.
    pub fn clear(&mut self)
        ensures { self.new ≡ [] }
    {
        self.bytes.clear();
    }

    /// Reserves capacity for `more` bytes at once. The bytes are unchanged. Capacity is no part of the model.
    pub fn reserve(&mut self, more: usize) -> Result<(), AllocError>
        ensures { self.new ≡ self.old }
    {
        self.bytes.reserve(more)
    }

    /// Removes all but the first `count` bytes.
    pub(crate) fn truncate(&mut self, count: usize)
        ensures { self.new ≡ take count self.old }
    {
        self.bytes.truncate(count);
    }

    /// Returns the fault of a piece that is too long, at the number of bytes written so far.
    pub(crate) fn too_long(&self) -> WireFault
        ensures { result ≡ too_long_at (length self.now) }
    {
        WireFault {
            kind: WireFaultKind::TooLong,
            at: self.bytes.len(),
        }
    }

    /// Writes the bytes as they are.
    pub(crate) fn write_bytes(&mut self, bytes: &[u8]) -> Result<(), CodecFault>
        ensures { WritesPiece (Some bytes.now) self.old self.new result }
    {
        Ok(self.bytes.extend_from_slice(bytes)?)
    }

    /// Writes a `uint8`.
    pub fn write_u8(&mut self, n: u8) -> Result<(), CodecFault>
        ensures { WritesPiece (number w8 n) self.old self.new result }
    {
        self.write_bytes(&[n])
    }

    /// Writes a `uint16`, the high byte first.
    pub fn write_u16(&mut self, n: u16) -> Result<(), CodecFault>
        ensures { WritesPiece (number w16 n) self.old self.new result }
    {
        self.write_bytes(&n.to_be_bytes())
    }

    /// Writes a `uint32`, the highest byte first.
    pub fn write_u32(&mut self, n: u32) -> Result<(), CodecFault>
        ensures { WritesPiece (number w32 n) self.old self.new result }
    {
        self.write_bytes(&n.to_be_bytes())
    }

    /// Writes a `uint64`, the highest byte first.
    pub fn write_u64(&mut self, n: u64) -> Result<(), CodecFault>
        ensures { WritesPiece (number w64 n) self.old self.new result }
    {
        self.write_bytes(&n.to_be_bytes())
    }

    /// Writes a length in the shortest of its three forms (RFC 9420, 2.1.2): one byte up to 63, two up to 16,383, four
    /// up to 1,073,741,823. A greater length is `TooLong`.
    pub fn write_len(&mut self, n: usize) -> Result<(), CodecFault>
        ensures { WritesPiece (length_form n) self.old self.new result }
    {
        if n < 64 {
            self.write_u8(n as u8)
        } else if n < 16384 {
            self.write_u16(n as u16 + 16384)
        } else if n < 1073741824 {
            self.write_u32(n as u32 + 2147483648)
        } else {
            Err(CodecFault::Wire(self.too_long()))
        }
    }

    /// Writes a vector, `opaque x<V>`: the length of its body, and the body (RFC 9420, 2.1.2). A body of more
    /// than 1,073,741,823 bytes is `TooLong`.
    pub fn write_vec(&mut self, body: &[u8]) -> Result<(), CodecFault>
        ensures { WritesPiece (vector body.now) self.old self.new result }
    {
        let start = self.bytes().len();
        self.write_len(body.len())?;
        match self.write_bytes(body) {
            Ok(()) => Ok(()),
            Err(fault) => {
                self.truncate(start);
                Err(fault)
            }
        }
    }

    /// Writes the byte before an optional value (RFC 9420, 2.1.1): 1 if the value follows, 0 if there is none.
    #[tactic(auto, unfolding(crate::specs::Encoding::flag))]
    pub fn write_optional(&mut self, is_present: bool) -> Result<(), CodecFault>
        ensures { WritesPiece (flag is_present) self.old self.new result }
    {
        if is_present {
            self.write_bytes(&[1])
        } else {
            self.write_bytes(&[0])
        }
    }

    /// Writes a value. `TooLong` if and only if it has no encoding, which is checked before anything is allocated.
    pub fn write<T: Encode>(&mut self, alloc: Global, value: &T) -> Result<(), CodecFault>
        ensures { WritesPiece (T.encoding value.now) self.old self.new result }
    {
        let Some(size) = value.size() else {
            return Err(CodecFault::Wire(self.too_long()));
        };
        self.bytes.reserve(size)?;
        let mut draft = Draft::after(replace(&mut self.bytes, Vec::new(alloc)));
        match value.put(alloc, &mut draft) {
            Ok(()) => {
                self.bytes = draft.finish();
                Ok(())
            }
            Err(fault) => {
                self.bytes = draft.undo();
                Err(fault)
            }
        }
    }
}
