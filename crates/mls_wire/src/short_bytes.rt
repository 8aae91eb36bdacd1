//! Short byte strings, stored in place.

ghost use Rattle.std.specs.Prelude.{◌≡◌, ◌<◌, ◌≤◌, length};

use std::marker::Model;

/// At most `MAX` bytes, stored in place.
#[derive(Debug)]
pub(crate) struct ShortBytes<const MAX: usize> {
    len: u8,
    bytes: [u8; MAX],
}

// Written out, so that a drop is one call in the proofs of its owners.
impl<const MAX: usize> Drop for ShortBytes<MAX> {
    fn drop(self) {
        let ShortBytes { len: _, bytes: _ } = self;
    }
}

impl<const MAX: usize> Model for ShortBytes<MAX> {
    ghost use Rattle.std.specs.Prelude.{ℕ, ◌≡◌, ◌≤◌, List, length, take};

    ghost Value = { List ℕ };

    ghost view = { λ b. take b.len b.bytes };

    ghost invariant = { λ b. (b.len ≤ MAX) × (length b.bytes ≡ MAX) };
}

impl<const MAX: usize> ShortBytes<MAX> {
    /// Returns a copy of these bytes.
    pub(crate) fn of(bytes: &[u8]) -> ShortBytes<MAX>
        requires max { MAX < 256 }
        requires length { length bytes.now ≤ MAX }
        ensures { result ≡ bytes.now }
    {
        let len = bytes.len();
        let mut padded = [0; MAX];
        padded[..len].copy_from_slice(bytes);
        ShortBytes {
            len: len as u8,
            bytes: padded,
        }
    }

    /// Returns the bytes.
    pub(crate) fn as_slice(&self) -> &[u8]
        ensures { result.now ≡ self.now }
    {
        &self.bytes[..usize::from(self.len)]
    }
}
