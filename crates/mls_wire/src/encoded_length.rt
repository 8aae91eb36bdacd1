//! Lengths of vectors, as they are encoded.

ghost use Rattle.std.specs.Prelude.{◌≡◌, ◌≤◌, Some};
ghost use Rattle.mls_wire.specs.Encoding.{length_form};
ghost use Rattle.mls_wire.specs.Limits.{vector_limit};

use crate::short_bytes::ShortBytes;
use std::marker::Model;

/// The encoding of the length of a vector: the shortest of its three forms (RFC 9420, 2.1.2), stored in place. For whoever
/// passes on a vector in pieces. The model is the bytes.
#[derive(Debug, Drop)]
pub struct EncodedLength {
    bytes: ShortBytes<4>,
}

impl Model for EncodedLength {
    ghost use Rattle.std.specs.Prelude.{ℕ, List};

    ghost Value = { List ℕ };

    ghost view = { λ l. l.bytes };
}

impl EncodedLength {
    /// Encodes the length of a vector, at most 1,073,741,823.
    pub fn of(length: usize) -> EncodedLength
        requires { length ≤ vector_limit }
        ensures { length_form length ≡ Some result }
    {
        let bytes = if length < 64 {
            ShortBytes::of(&[length as u8])
        } else if length < 16384 {
            ShortBytes::of(&(length as u16 + 16384).to_be_bytes())
        } else {
            ShortBytes::of(&(length as u32 + 2147483648).to_be_bytes())
        };
        EncodedLength { bytes }
    }

    /// Returns the bytes.
    pub fn as_slice(&self) -> &[u8]
        ensures { result.now ≡ self.now }
    {
        self.bytes.as_slice()
    }
}
