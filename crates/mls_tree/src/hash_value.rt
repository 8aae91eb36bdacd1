//! Hashes.
ghost use Rattle.std.specs.Prelude.{◌≡◌, ◌↔◌, ◌≤◌, ◌<◌, ◌++◌, length, drop, Some, IsNone, IfOk, IfSome};
ghost use Rattle.mls_wire.specs.Encoding.{vector};

use mls_wire::{CodecFault, Opaque};
use std::alloc::{AllocError, Global};
use std::marker::Model;

/// The greatest length of a hash in bytes.
const MAX_BYTES: usize = 64;

/// A hash of at most 64 bytes, stored inline after its length. (The longest hash of a cipher suite has 64 bytes: RFC 9420,
/// 17.1.) Contracts see the bytes.
#[derive(Clone, Copy, Debug, PartialEq, Eq)]
pub struct HashValue {
    /// The length, the bytes, and zeros.
    array: [u8; 65],
}

impl Model for HashValue {
    ghost use Rattle.std.specs.Prelude.{ℕ, List};
    ghost use Rattle.mls_tree.specs.HashValue.{bytes_in, padded, IsPadded};

    ghost Value = { List ℕ };

    ghost view = { λ h. bytes_in h.array };

    ghost invariant = { λ h. IsPadded h.array };

    ghost inverse = { λ bytes. record { array = padded bytes } };

    ghost inverse_ok = { λ h p i. record { array = p.whole i } };
}

/// Copies bytes to the front of a slice.
#[inline(always)]
fn copy_to_front(slice: &mut [u8], bytes: &[u8])
    requires { length bytes.now ≤ length slice.old }
    ensures { slice.new ≡ bytes.now ++ drop (length bytes.now) slice.old }
{
    slice[..bytes.len()].copy_from_slice(bytes);
}

impl HashValue {
    /// Creates a hash. `None` if there are more than 64 bytes. Does not allocate.
    #[inline(always)]
    pub fn new(bytes: &[u8]) -> Option<HashValue>
        ensures value { IfSome result (λ h. h ≡ bytes.now) }
        ensures too_long { IsNone result ↔ (64 < length bytes.now) }
    {
        let len = bytes.len();
        if len > MAX_BYTES {
            return None;
        }
        let mut array = [0; 65];
        array[0] = len as u8;
        copy_to_front(&mut array[1..], bytes);
        Some(HashValue { array })
    }

    /// Returns the bytes, at most 64.
    pub fn as_slice(&self) -> &[u8]
        ensures bytes { result.now ≡ self.now }
        ensures limit { length self.now ≤ 64 }
    {
        &self.array[1..1 + self.array[0] as usize]
    }

    /// Returns the encoding of the bytes as a vector, if it begins with one byte (RFC 9420, 2.1.2): if there are fewer than
    /// 64 bytes.
    pub fn short_encoding(&self) -> Option<&[u8]>
        ensures value { IfSome result (λ encoded. vector self.now ≡ Some encoded.now) }
        ensures long { IsNone result ↔ (length self.now ≡ 64) }
    {
        let len = self.array[0] as usize;
        if len < MAX_BYTES {
            Some(&self.array[..1 + len])
        } else {
            None
        }
    }

    /// Returns the bytes as an `Opaque`, the type that nodes and messages store a hash in.
    pub fn to_opaque(&self, alloc: Global) -> Result<Opaque, AllocError>
        ensures { IfOk result (λ body. body ≡ self.now) }
    {
        match Opaque::copy(alloc, self.as_slice()) {
            Ok(body) => Ok(body),
            Err(CodecFault::OutOfMemory) => Err(AllocError),
            Err(CodecFault::Wire(_)) => unreachable!(),
        }
    }
}
