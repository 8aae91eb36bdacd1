//! Short lists of `uint16`, stored in place.

ghost use Rattle.std.specs.Prelude.{◌≡◌, ◌<◌, ◌≤◌, ◌++◌, [], ◌∷◌, length};
ghost use Rattle.std.specs.Int.{w16};
ghost use Rattle.mls_wire.specs.Parsing.{items_at, number_at};
ghost use Rattle.mls_wire.specs.ParsingInternal.{Finds};

use crate::decode::Decode;
use crate::fault::CodecFault;
use crate::reader::Reader;
use std::alloc::Global;
use std::marker::Model;

/// The most codes of a short list.
pub(crate) const MAX_SHORT: usize = 6;

/// A list of at most [`MAX_SHORT`] codes, stored in place.
#[derive(Debug)]
pub(crate) struct ShortCodes {
    len: u8,
    codes: [u16; MAX_SHORT],
}

// Written out, so that a drop is one call in the proofs of its owners.
impl Drop for ShortCodes {
    fn drop(self) {
        let ShortCodes { len: _, codes: _ } = self;
    }
}

impl Model for ShortCodes {
    ghost use Rattle.std.specs.Prelude.{ℕ, ◌≤◌, List, take};

    ghost Value = { List ℕ };

    ghost view = { λ c. take c.len c.codes };

    ghost invariant = { λ c. c.len ≤ 6 };
}

impl ShortCodes {
    /// Returns the empty list.
    pub(crate) fn new() -> ShortCodes
        ensures { result ≡ [] }
    {
        ShortCodes {
            len: 0,
            codes: [0; MAX_SHORT],
        }
    }

    /// Returns the list of these codes.
    pub(crate) fn of(codes: &[u16]) -> ShortCodes
        requires { length codes.now ≤ 6 }
        ensures { result ≡ codes.now }
    {
        let mut short = ShortCodes::new();
        for code in codes {
            short.push(*code);
        }
        short
    }

    /// Returns a copy.
    pub(crate) fn copied(&self) -> ShortCodes
        ensures { result ≡ self.now }
    {
        ShortCodes {
            len: self.len,
            codes: self.codes,
        }
    }

    /// Returns the codes.
    pub(crate) fn as_slice(&self) -> &[u16]
        ensures { result.now ≡ self.now }
    {
        &self.codes[..usize::from(self.len)]
    }

    /// Appends a code.
    fn push(&mut self, code: u16)
        requires { length self.old < 6 }
        ensures { self.new ≡ self.old ++ code ∷ [] }
    {
        self.codes[usize::from(self.len)] = code;
        self.len += 1;
    }
}

/// Returns the codes whose encodings are all of the body, one after the other.
pub(crate) fn short_codes_of(alloc: Global, mut body: Reader<'_>) -> Result<ShortCodes, CodecFault>
    requires { length body.left ≤ 12 }
    ensures { Finds (items_at (number_at w16) (length body.entry.left) body.entry) result }
{
    let mut codes = ShortCodes::new();
    while !body.at_end() {
        let code = u16::read(alloc, &mut body)?;
        codes.push(code);
    }
    Ok(codes)
}
