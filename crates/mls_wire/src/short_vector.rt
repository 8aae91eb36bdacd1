//! Short vectors, stored in place as they are encoded.

ghost use Rattle.std.specs.Prelude.{◌≡◌, ◌≤◌, ◌++◌, Some, drop, length};
ghost use Rattle.mls_wire.specs.Encoding.{vector};
ghost use Rattle.mls_wire.specs.Limits.{short_limit};

use std::marker::Model;

/// The most bytes of the body of a short vector.
pub(crate) const MAX_SHORT: usize = 38;

/// A vector with a body of at most [`MAX_SHORT`] bytes, stored in place as it is encoded (RFC 9420, 2.1.2): its length in
/// one byte, and the body. The model is the body.
#[derive(Debug)]
pub(crate) struct ShortVector {
    /// The encoding, and zeros.
    array: [u8; 39],
}

// Written out, so that a drop is one call in the proofs of its owners.
impl Drop for ShortVector {
    fn drop(self) {
        let ShortVector { array: _ } = self;
    }
}

impl Model for ShortVector {
    ghost use Rattle.std.specs.Prelude.{ℕ, List};
    ghost use Rattle.mls_wire.specs.ShortVectors.{body_in, IsShortVector};

    ghost Value = { List ℕ };

    ghost view = { λ v. body_in v.array };

    ghost invariant = { λ v. IsShortVector v.array };
}

/// Copies bytes to the front of a slice.
fn copy_to_front(slice: &mut [u8], bytes: &[u8])
    requires { length bytes.now ≤ length slice.old }
    ensures { slice.new ≡ bytes.now ++ drop (length bytes.now) slice.old }
{
    slice[..bytes.len()].copy_from_slice(bytes);
}

impl ShortVector {
    /// Returns the vector with this body.
    pub(crate) fn of(body: &[u8]) -> ShortVector
        requires { length body.now ≤ short_limit }
        ensures { result ≡ body.now }
    {
        let mut array = [0; 39];
        array[0] = body.len() as u8;
        copy_to_front(&mut array[1..], body);
        ShortVector { array }
    }

    /// Returns the body.
    pub(crate) fn body(&self) -> &[u8]
        ensures { result.now ≡ self.now }
    {
        &self.array[1..1 + usize::from(self.array[0])]
    }

    /// Returns the encoding.
    pub(crate) fn encoding(&self) -> &[u8]
        ensures { vector self.now ≡ Some result.now }
    {
        &self.array[..1 + usize::from(self.array[0])]
    }
}
