//! The body of a vector.

ghost use Rattle.std.specs.Prelude.{◌≡◌, ◌↔◌, ℕ, ◌≤◌, ◌<◌, List, Option, Some, Err, IsNone, IfOk, IfSome, length, MatchResult};
ghost use Rattle.mls_wire.specs.Faults.{too_long_at};
ghost use Rattle.mls_wire.specs.Input.{Input};
ghost use Rattle.mls_wire.specs.Limits.{short_limit, vector_limit};
ghost use Rattle.mls_wire.specs.OpaqueBytes.{bytes_in, IsInPlaceIfShort};
ghost use Rattle.mls_wire.specs.Encoding.{vector};
ghost use Rattle.mls_wire.specs.Parsing.{GivesOrFull, vector_at};
ghost use Rattle.mls_wire.specs.VectorsExact.{vector_exact, vector_long};

use crate::decode::Decode;
use crate::draft::Draft;
use crate::encode::Encode;
use crate::fault::{CodecFault, WireFault, WireFaultKind};
use crate::reader::Reader;
use crate::short_vector::{MAX_SHORT, ShortVector};
use crate::size::size_of_vector;
use std::alloc::{AllocError, Global};
use std::marker::Model;

/// The most bytes of the body of a vector (RFC 9420, 2.1.2).
pub const MAX_BODY: usize = 1073741823;

/// Where the bytes of a body are.
#[derive(Debug)]
enum Stored {
    /// In place.
    InPlace(ShortVector),
    /// On the heap.
    OnHeap(Vec<u8>),
}

// Written out, so that a drop is one call in the proofs of its owners.
impl Drop for Stored {
    fn drop(self) {
        match self {
            Stored::InPlace(_) => {}
            Stored::OnHeap(_) => {}
        }
    }
}

impl Stored {
    /// Stores these bytes. Does not allocate.
    fn of(bytes: Vec<u8>) -> Stored
        ensures bytes { bytes_in result ≡ bytes.items }
        ensures place { IsInPlaceIfShort result }
    {
        if bytes.len() <= MAX_SHORT {
            Stored::InPlace(ShortVector::of(bytes.as_slice()))
        } else {
            Stored::OnHeap(bytes)
        }
    }

    /// Stores a copy of these bytes. Allocates only if there are more than [`MAX_SHORT`].
    fn copy(alloc: Global, bytes: &[u8]) -> Result<Stored, AllocError>
        ensures bytes { IfOk result (λ stored. bytes_in stored ≡ bytes.now) }
        ensures place { IfOk result (λ stored. IsInPlaceIfShort stored) }
    {
        if bytes.len() <= MAX_SHORT {
            Ok(Stored::InPlace(ShortVector::of(bytes)))
        } else {
            Ok(Stored::OnHeap(Vec::from_slice(alloc, bytes)?))
        }
    }

    /// Returns the bytes.
    fn as_slice(&self) -> &[u8]
        ensures { result.now ≡ bytes_in self.now }
    {
        match self {
            Stored::InPlace(vector) => vector.body(),
            Stored::OnHeap(bytes) => bytes.as_slice(),
        }
    }

    /// Returns the encoding as a vector, if the bytes are stored in place.
    fn short_encoding(&self) -> Option<&[u8]>
        requires { IsInPlaceIfShort self.now }
        ensures value { IfSome result (λ encoded. vector (bytes_in self.now) ≡ Some encoded.now) }
        ensures long { IsNone result ↔ (short_limit < length (bytes_in self.now)) }
    {
        match self {
            Stored::InPlace(vector) => Some(vector.encoding()),
            Stored::OnHeap(_) => None,
        }
    }
}

/// The body of a vector, `opaque x<V>` (RFC 9420, 2.1.2): bytes, at most [`MAX_BODY`] of them. At most 38 bytes are
/// stored in place.
#[derive(Debug)]
pub struct Opaque {
    stored: Stored,
}

// Written out, so that a drop is one call in the proofs of its owners.
impl Drop for Opaque {
    fn drop(self) {
        let Opaque { stored: _ } = self;
    }
}

impl Model for Opaque {
    ghost use Rattle.std.specs.Prelude.{ℕ, ◌≤◌, List, length};
    ghost use Rattle.mls_wire.specs.Limits.{vector_limit};
    ghost use Rattle.mls_wire.specs.OpaqueBytes.{bytes_in, IsInPlaceIfShort};

    ghost Value = { List ℕ };

    ghost view = { λ a. bytes_in a.stored };

    ghost invariant = { λ a. (length (bytes_in a.stored) ≤ vector_limit) × IsInPlaceIfShort a.stored };
}

impl Opaque {
    /// Returns the body of these bytes. Does not allocate. More bytes than the limit are returned as the error.
    pub fn new(bytes: Vec<u8>) -> Result<Opaque, Vec<u8>>
        ensures { MatchResult result
            (λ made. made ≡ bytes.items)
            (λ back. (back ≡ bytes) × (vector_limit < length bytes.items)) }
    {
        if bytes.len() > MAX_BODY {
            return Err(bytes);
        }
        Ok(Opaque {
            stored: Stored::of(bytes),
        })
    }

    /// Returns a copy of the bytes.
    ///
    /// # Errors
    ///
    /// `TooLong` at 0 for more bytes than the body of a vector may have, or `OutOfMemory`.
    pub fn copy(alloc: Global, bytes: &[u8]) -> Result<Opaque, CodecFault>
        ensures long { vector_limit < length bytes.now
            → result ≡ Err (CodecFault.Wire (too_long_at 0)) }
        ensures short { length bytes.now ≤ vector_limit
            → MatchResult result (λ made. made ≡ bytes.now) (λ e. e ≡ CodecFault.OutOfMemory) }
    {
        if bytes.len() > MAX_BODY {
            return Err(CodecFault::Wire(WireFault {
                kind: WireFaultKind::TooLong,
                at: 0,
            }));
        }
        let stored = Stored::copy(alloc, bytes)?;
        Ok(Opaque { stored })
    }

    /// Returns the bytes.
    pub fn as_slice(&self) -> &[u8]
        ensures bytes { result.now ≡ self.now }
        ensures limit { length self.now ≤ vector_limit }
    {
        self.stored.as_slice()
    }

    /// Returns the encoding of the bytes as a vector (RFC 9420, 2.1.2), if there are at most 38: it is stored then.
    pub fn short_encoding(&self) -> Option<&[u8]>
        ensures value { IfSome result (λ encoded. vector self.now ≡ Some encoded.now) }
        ensures long { IsNone result ↔ (short_limit < length self.now) }
    {
        self.stored.short_encoding()
    }
}

impl Decode for Opaque {
    ghost encoding = { vector };

    ghost reading = { vector_at };

    fn read(alloc: Global, reader: &mut Reader<'_>) -> Result<Opaque, CodecFault> {
        let mut ahead = reader.fork();
        let bytes = ahead.next_vec()?;
        let stored = Stored::copy(alloc, bytes)?;
        *reader = ahead;
        Ok(Opaque { stored })
    }

    ghost exact = { vector_exact };

    ghost long = { vector_long };
}

impl Encode for Opaque {
    fn size(&self) -> Option<usize> {
        size_of_vector(self.stored.as_slice().len())
    }

    fn put(&self, _alloc: Global, draft: &mut Draft) -> Result<(), CodecFault> {
        draft.put_vec(self.stored.as_slice())
    }
}
