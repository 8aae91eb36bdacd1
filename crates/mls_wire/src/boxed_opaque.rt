//! The body of a vector, as a value of 16 bytes.

ghost use Rattle.std.specs.Prelude.{◌≡◌, ◌<◌, ◌≤◌, [], Err, IfOk, MatchResult, length};
ghost use Rattle.mls_wire.specs.Encoding.{vector};
ghost use Rattle.mls_wire.specs.Faults.{too_long_at};
ghost use Rattle.mls_wire.specs.Limits.{vector_limit};
ghost use Rattle.mls_wire.specs.Parsing.{vector_at};
ghost use Rattle.mls_wire.specs.VectorsExact.{vector_exact, vector_long};

use crate::decode::Decode;
use crate::draft::Draft;
use crate::encode::Encode;
use crate::fault::CodecFault;
use crate::opaque::Opaque;
use crate::reader::Reader;
use crate::short_bytes::ShortBytes;
use crate::size::size_of_vector;
use std::alloc::{AllocError, Global};
use std::marker::Model;

/// The most bytes of a body that is stored in place.
const MAX_SHORT: usize = 14;

/// Where the bytes of a body are.
#[derive(Debug)]
enum Body {
    /// In place.
    InPlace(ShortBytes<MAX_SHORT>),
    /// On the heap.
    OnHeap(Box<Opaque>),
}

// Written out, so that a drop is one call in the proofs of its owners.
impl Drop for Body {
    fn drop(self) {
        match self {
            Body::InPlace(_) => {}
            Body::OnHeap(_) => {}
        }
    }
}

/// The body of a vector as [`Opaque`] has it (RFC 9420, 2.1.2), in a value of 16 bytes. At most 14 bytes are stored in
/// place. It is smaller than an `Opaque`, so that a list of many short bodies takes little memory.
#[derive(Debug)]
pub struct BoxedOpaque {
    body: Body,
}

// Written out, so that a drop is one call in the proofs of its owners.
impl Drop for BoxedOpaque {
    fn drop(self) {
        let BoxedOpaque { body: _ } = self;
    }
}

impl Model for BoxedOpaque {
    ghost use Rattle.std.specs.Prelude.{ℕ, ◌≤◌, List, length};
    ghost use Rattle.mls_wire.specs.BoxedBytes.{boxed_bytes};
    ghost use Rattle.mls_wire.specs.Limits.{vector_limit};

    ghost Value = { List ℕ };

    ghost view = { λ a. boxed_bytes a.body };

    ghost invariant = { λ a. length (boxed_bytes a.body) ≤ vector_limit };
}

impl BoxedOpaque {
    /// Returns the empty body. Does not allocate.
    pub fn empty() -> BoxedOpaque
        ensures { result ≡ [] }
    {
        BoxedOpaque {
            body: Body::InPlace(ShortBytes::of(&[])),
        }
    }

    /// Returns this body. Allocates only if it has more than 14 bytes.
    pub fn new(alloc: Global, body: Opaque) -> Result<BoxedOpaque, AllocError>
        ensures { IfOk result (λ made. made ≡ body) }
    {
        if body.as_slice().len() <= MAX_SHORT {
            return Ok(BoxedOpaque {
                body: Body::InPlace(ShortBytes::of(body.as_slice())),
            });
        }
        Ok(BoxedOpaque {
            body: Body::OnHeap(Box::new(alloc, body)?),
        })
    }

    /// Returns a copy of the bytes.
    ///
    /// # Errors
    ///
    /// `TooLong` at 0 for more bytes than the body of a vector may have, or `OutOfMemory`.
    pub fn copy(alloc: Global, bytes: &[u8]) -> Result<BoxedOpaque, CodecFault>
        ensures long { vector_limit < length bytes.now
            → result ≡ Err (CodecFault.Wire (too_long_at 0)) }
        ensures short { length bytes.now ≤ vector_limit
            → MatchResult result (λ made. made ≡ bytes.now) (λ e. e ≡ CodecFault.OutOfMemory) }
    {
        let body = Opaque::copy(alloc, bytes)?;
        Ok(BoxedOpaque::new(alloc, body)?)
    }

    /// Returns a copy as an [`Opaque`]. The only error is a failed allocation.
    pub fn to_opaque(&self, alloc: Global) -> Result<Opaque, AllocError>
        ensures { IfOk result (λ body. body ≡ self.now) }
    {
        match Opaque::copy(alloc, self.as_slice()) {
            Ok(body) => Ok(body),
            Err(CodecFault::OutOfMemory) => Err(AllocError),
            Err(CodecFault::Wire(_)) => unreachable!(),
        }
    }

    /// Returns the bytes.
    pub fn as_slice(&self) -> &[u8]
        ensures bytes { result.now ≡ self.now }
        ensures limit { length self.now ≤ vector_limit }
    {
        match &self.body {
            Body::InPlace(bytes) => bytes.as_slice(),
            Body::OnHeap(body) => body.as_slice(),
        }
    }
}

impl Decode for BoxedOpaque {
    ghost encoding = { vector };

    ghost reading = { vector_at };

    fn read(alloc: Global, reader: &mut Reader<'_>) -> Result<BoxedOpaque, CodecFault> {
        let mut ahead = reader.fork();
        let body = Opaque::read(alloc, &mut ahead)?;
        let body = BoxedOpaque::new(alloc, body)?;
        *reader = ahead;
        Ok(body)
    }

    ghost exact = { vector_exact };

    ghost long = { vector_long };
}

impl Encode for BoxedOpaque {
    fn size(&self) -> Option<usize> {
        size_of_vector(self.as_slice().len())
    }

    fn put(&self, _alloc: Global, draft: &mut Draft) -> Result<(), CodecFault> {
        draft.put_vec(self.as_slice())
    }
}
