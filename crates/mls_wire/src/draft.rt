//! A write that can be undone.

ghost use Rattle.std.specs.Prelude.{◌≡◌, ◌+◌, ◌++◌, ℕ, List, [], Option, Some, length};
ghost use Rattle.std.specs.Int.{w8, w16, w32, w64};
ghost use Rattle.mls_wire.specs.Faults.{too_long_at};
ghost use Rattle.mls_wire.specs.Encoding.{number, length_form, vector, flag};
ghost use Rattle.mls_wire.specs.WriteContracts.{Added, PutsPiece};

use crate::fault::{CodecFault, WireFault};
use crate::writer::Writer;
use std::alloc::Global;
use std::marker::Model;

/// Existing bytes, and what a write has added to them. The `put_..` calls are for implementors of
/// [`Encode`](crate::Encode), which add the fields of a value one after the other. Other callers use a [`Writer`].
///
/// After a failed `put_..` the existing bytes are unchanged, and a part may have been added. Whoever made the draft
/// removes it with [`undo`](Draft::undo).
#[derive(Drop)]
pub struct Draft {
    written: Writer,
    kept: usize,
}

impl Model for Draft {
    ghost use Rattle.std.specs.Prelude.{◌≤◌, length};
    ghost use Rattle.mls_wire.specs.WriteContracts.{Added};
    ghost use Rattle.mls_wire.specs.WriteContractsInternal.{added};

    ghost Value = { Added };

    ghost view = { λ d. added d.kept d.written };

    ghost invariant = { λ d. d.kept ≤ length d.written };
}

impl Draft {
    /// Returns a draft with no existing bytes.
    pub fn new(alloc: Global) -> Draft
        ensures kept { result.kept ≡ [] }
        ensures more { result.more ≡ [] }
    {
        Draft {
            written: Writer::new(alloc),
            kept: 0,
        }
    }

    /// Returns a draft whose existing bytes are these.
    pub fn after(bytes: Vec<u8>) -> Draft
        ensures kept { result.kept ≡ bytes.items }
        ensures more { result.more ≡ [] }
    {
        let kept = bytes.len();
        Draft {
            written: Writer::from_bytes(bytes),
            kept,
        }
    }

    /// Returns the existing bytes followed by what was added.
    pub fn finish(self) -> Vec<u8>
        ensures { result.items ≡ self.kept ++ self.more }
    {
        self.written.into_bytes()
    }

    /// Returns the existing bytes without what was added.
    pub fn undo(mut self) -> Vec<u8>
        ensures { result.items ≡ self.kept }
    {
        self.written.truncate(self.kept);
        self.written.into_bytes()
    }

    /// Returns the fault of a piece that is too long, at the number of bytes written so far.
    pub(crate) fn too_long(&self) -> WireFault
        ensures { result ≡ too_long_at (length self.now.kept + length self.now.more) }
    {
        self.written.too_long()
    }

    /// Adds the bytes as they are.
    pub fn put_bytes(&mut self, bytes: &[u8]) -> Result<(), CodecFault>
        ensures { PutsPiece (Some bytes.now) self.old self.new result }
    {
        self.written.write_bytes(bytes)
    }

    /// Adds a `uint8`.
    pub fn put_u8(&mut self, n: u8) -> Result<(), CodecFault>
        ensures { PutsPiece (number w8 n) self.old self.new result }
    {
        self.written.write_u8(n)
    }

    /// Adds a `uint16`.
    pub fn put_u16(&mut self, n: u16) -> Result<(), CodecFault>
        ensures { PutsPiece (number w16 n) self.old self.new result }
    {
        self.written.write_u16(n)
    }

    /// Adds a `uint32`.
    pub fn put_u32(&mut self, n: u32) -> Result<(), CodecFault>
        ensures { PutsPiece (number w32 n) self.old self.new result }
    {
        self.written.write_u32(n)
    }

    /// Adds a `uint64`.
    pub fn put_u64(&mut self, n: u64) -> Result<(), CodecFault>
        ensures { PutsPiece (number w64 n) self.old self.new result }
    {
        self.written.write_u64(n)
    }

    /// Adds a length in its shortest form (RFC 9420, 2.1.2).
    pub fn put_len(&mut self, n: usize) -> Result<(), CodecFault>
        ensures { PutsPiece (length_form n) self.old self.new result }
    {
        self.written.write_len(n)
    }

    /// Adds a vector: the length of the body, and the body (RFC 9420, 2.1.2).
    pub fn put_vec(&mut self, body: &[u8]) -> Result<(), CodecFault>
        ensures { PutsPiece (vector body.now) self.old self.new result }
    {
        self.written.write_vec(body)
    }

    /// Adds the byte before an optional value (RFC 9420, 2.1.1).
    pub fn put_optional(&mut self, is_present: bool) -> Result<(), CodecFault>
        ensures { PutsPiece (flag is_present) self.old self.new result }
    {
        self.written.write_optional(is_present)
    }
}
