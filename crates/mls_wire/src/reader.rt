//! Reading from left to right.

ghost use Rattle.std.specs.Prelude.{◌≡◌, ◌+◌, ◌*◌, ◌≤◌, ◌<◌, ◌^◌, ◌↔◌, ℕ, List, [], length, IfSome, IsTrue, ◌≢◌, MatchOption, MatchResult, Some, None, take, drop};
ghost use Rattle.std.specs.Int.{Width, w8, w16, w32, w64, byte_len, from_be_bytes};
ghost use Rattle.mls_wire.specs.Faults.{trailing_at};
ghost use Rattle.mls_wire.specs.Input.{Input, at, skip};
ghost use Rattle.mls_wire.specs.Encoding.{number, length_form, vector, flag};
ghost use Rattle.mls_wire.specs.IntegersExact.{IsBytes};
ghost use Rattle.mls_wire.specs.ReadContracts.{Reads, ReadsBody, seen};
ghost use Rattle.mls_wire.specs.Parsing.{number_at, length_at, body_at, vector_at};
ghost use Rattle.mls_wire.specs.ParsingInternal.{Gives, flag_at};

use crate::fault::{WireFault, WireFaultKind};
use std::marker::Model;

/// What is left of an input, and its offset in the outermost input.
///
/// Each `read_..` call returns the value that is encoded at the front, and moves after it. It fails if and only if no
/// value is encoded there, and then does not move. The offset of the fault is that of the first byte of the smallest
/// item that cannot be read.
#[derive(Drop)]
pub struct Reader<'a> {
    offset: usize,
    left: &'a [u8],
}

impl<'a> Model for Reader<'a> {
    ghost use Rattle.std.specs.Prelude.{◌<◌, ◌+◌, ◌^◌, length};
    ghost use Rattle.mls_wire.specs.Input.{Input};

    ghost Value = { Input };

    ghost view = { λ r. record { offset = r.offset; left = r.left.now } };

    ghost invariant = { λ r. r.offset + length r.left.now < 2 ^ 64 };
}

/// Returns the first `count` bytes, and the others.
fn cut(bytes: &[u8], count: usize) -> Option<(&[u8], &[u8])>
    ensures { MatchOption result
        (length bytes.now < count)
        (λ parts. (count ≤ length bytes.now)
        × (parts.0.now ≡ take count bytes.now)
        × (parts.1.now ≡ drop count bytes.now)
        × IsBytes parts.0.now) }
{
    if bytes.len() < count {
        return None;
    }
    Some(bytes.split_at(count))
}

/// Returns how many pairs the bytes are, if no byte is left over.
fn pairs(bytes: &[u8]) -> Option<usize>
    ensures { IfSome result (λ count. (length bytes.now ≡ 2 * count) × IsBytes bytes.now) }
{
    if bytes.len() % 2 != 0 {
        return None;
    }
    Some(bytes.len() / 2)
}

impl<'a> Reader<'a> {
    /// Returns a reader of an outermost input, at offset 0.
    pub fn new(bytes: &'a [u8]) -> Reader<'a>
        ensures { result ≡ at 0 bytes.now }
    {
        Reader {
            offset: 0,
            left: bytes,
        }
    }

    /// Returns a reader of bytes that begin at an offset in an outermost input, which continues there.
    pub fn resumed(offset: usize, bytes: &'a [u8]) -> Reader<'a>
        requires { offset + length bytes.now < 2 ^ 64 }
        ensures { result ≡ at offset bytes.now }
    {
        Reader {
            offset,
            left: bytes,
        }
    }

    /// Returns the offset: how many bytes of the outermost input are before what is left.
    pub fn position(&self) -> usize
        ensures { result ≡ self.now.offset }
    {
        self.offset
    }

    /// Returns whether nothing is left.
    pub fn at_end(&self) -> bool
        ensures { IsTrue result ↔ (self.now.left ≡ []) }
    {
        self.left.is_empty()
    }

    /// Returns the bytes that are left.
    pub fn left(&self) -> &'a [u8]
        ensures { result.now ≡ self.now.left }
    {
        self.left
    }

    /// Returns how many bytes are left.
    pub(crate) fn len(&self) -> usize
        ensures { result ≡ length self.now.left }
    {
        self.left.len()
    }

    /// Returns how many pairs of bytes are left, if no byte is left over.
    pub(crate) fn pairs(&self) -> Option<usize>
        ensures { IfSome result (λ count. (length self.now.left ≡ 2 * count) × IsBytes self.now.left) }
    {
        pairs(self.left)
    }

    /// Returns a second reader of the same bytes, at the same offset.
    pub fn fork(&self) -> Reader<'a>
        ensures { result ≡ self.now }
    {
        Reader {
            offset: self.offset,
            left: self.left,
        }
    }

    /// Returns a fault of this kind, at the current offset.
    fn fault(&self, kind: WireFaultKind) -> WireFault
        ensures kind { result.kind ≡ kind }
        ensures offset { result.at ≡ self.now.offset }
    {
        WireFault {
            kind,
            at: self.offset,
        }
    }

    /// Returns the next `count` bytes, if there are as many.
    fn front(&mut self, count: usize) -> Option<&'a [u8]>
        ensures { MatchOption result
            ((self.new ≡ self.old)
            × ((w : Width) → byte_len w ≡ count → number_at w self.old ≡ None))
            (λ front. (length front.now ≡ count)
            × ((w : Width) → byte_len w ≡ count
            → number_at w self.old ≡ Some (from_be_bytes w front.now, self.new))) }
    {
        let (front, rest) = cut(self.left, count)?;
        self.left = rest;
        self.offset += count;
        Some(front)
    }

    /// Reads as [`read_u8`](Reader::read_u8). Proofs of this crate know what it computes.
    pub(crate) fn next_u8(&mut self) -> Result<u8, WireFault>
        ensures { Gives (number_at w8) self.old self.new result }
    {
        let Some(bytes) = self.front(1) else {
            return Err(self.fault(WireFaultKind::Truncated));
        };
        Ok(bytes[0])
    }

    /// Reads as [`read_u16`](Reader::read_u16).
    pub(crate) fn next_u16(&mut self) -> Result<u16, WireFault>
        ensures { Gives (number_at w16) self.old self.new result }
    {
        let Some(bytes) = self.front(2) else {
            return Err(self.fault(WireFaultKind::Truncated));
        };
        Ok(u16::from_be_bytes([bytes[0], bytes[1]]))
    }

    /// Reads as [`read_u32`](Reader::read_u32).
    pub(crate) fn next_u32(&mut self) -> Result<u32, WireFault>
        ensures { Gives (number_at w32) self.old self.new result }
    {
        let Some(bytes) = self.front(4) else {
            return Err(self.fault(WireFaultKind::Truncated));
        };
        Ok(u32::from_be_bytes([bytes[0], bytes[1], bytes[2], bytes[3]]))
    }

    /// Reads as [`read_u64`](Reader::read_u64).
    pub(crate) fn next_u64(&mut self) -> Result<u64, WireFault>
        ensures { Gives (number_at w64) self.old self.new result }
    {
        let Some(bytes) = self.front(8) else {
            return Err(self.fault(WireFaultKind::Truncated));
        };
        Ok(u64::from_be_bytes([
            bytes[0], bytes[1], bytes[2], bytes[3], bytes[4], bytes[5], bytes[6], bytes[7],
        ]))
    }

    /// Reads as [`read_len`](Reader::read_len).
    #[tactic(auto, unfolding(crate::specs::Parsing::length_at))]
    pub(crate) fn next_len(&mut self) -> Result<usize, WireFault>
        ensures { Gives length_at self.old self.new result }
    {
        let mut short = self.fork();
        let first = short.next_u8()?;
        if first < 64 {
            *self = short;
            return Ok(usize::from(first));
        }
        let mut ahead = self.fork();
        if first < 128 {
            let form = ahead.next_u16()?;
            if form < 16448 {
                return Err(self.fault(WireFaultKind::NotShortest));
            }
            *self = ahead;
            return Ok(usize::from(form) - 16384);
        }
        if first < 192 {
            let form = ahead.next_u32()?;
            if form < 2147500032 {
                return Err(self.fault(WireFaultKind::NotShortest));
            }
            *self = ahead;
            return Ok(form as usize - 2147483648);
        }
        Err(self.fault(WireFaultKind::BadPrefix))
    }

    /// Returns a reader of the next `count` bytes.
    fn split(&mut self, count: usize) -> Option<Reader<'a>>
        ensures { MatchOption result
            ((self.new ≡ self.old) × (length self.old.left < count))
            (λ body. (count ≤ length self.old.left)
            × (body ≡ at self.old.offset (take count self.old.left))
            × (self.new ≡ skip count self.old)) }
    {
        if self.left.len() < count {
            return None;
        }
        let (front, rest) = self.left.split_at(count);
        let body = Reader {
            offset: self.offset,
            left: front,
        };
        self.left = rest;
        self.offset += count;
        Some(body)
    }

    /// Reads as [`read_sub`](Reader::read_sub).
    #[tactic(auto, unfolding(crate::specs::Parsing::body_at))]
    pub(crate) fn next_sub(&mut self) -> Result<Reader<'a>, WireFault>
        ensures { Gives body_at self.old self.new result }
    {
        let mut ahead = self.fork();
        let len = ahead.next_len()?;
        let Some(body) = ahead.split(len) else {
            return Err(self.fault(WireFaultKind::Truncated));
        };
        *self = ahead;
        Ok(body)
    }

    /// Reads as [`read_vec`](Reader::read_vec).
    #[tactic(auto, unfolding(crate::specs::Parsing::vector_at))]
    pub(crate) fn next_vec(&mut self) -> Result<&'a [u8], WireFault>
        ensures { Gives vector_at self.old self.new (seen (λ x. x.now) result) }
    {
        let body = self.next_sub()?;
        Ok(body.left)
    }

    /// Reads as [`read_optional`](Reader::read_optional).
    #[tactic(auto, unfolding(crate::specs::ParsingInternal::flag_at))]
    pub(crate) fn next_optional(&mut self) -> Result<bool, WireFault>
        ensures { Gives flag_at self.old self.new result }
    {
        let mut ahead = self.fork();
        let flag = match ahead.next_u8()? {
            0 => false,
            1 => true,
            _ => return Err(self.fault(WireFaultKind::BadOptional)),
        };
        *self = ahead;
        Ok(flag)
    }

    /// Fails if bytes are left: `Trailing`, at the first of them.
    pub fn finish(&self) -> Result<(), WireFault>
        ensures { MatchResult result
            (λ _. self.now.left ≡ [])
            (λ e. (self.now.left ≢ []) × (e ≡ trailing_at self.now.offset)) }
    {
        if self.at_end() {
            Ok(())
        } else {
            Err(self.fault(WireFaultKind::Trailing))
        }
    }

    /// Reads a `uint8`. `Truncated` if no byte is left.
    pub fn read_u8(&mut self) -> Result<u8, WireFault>
        ensures { Reads (number w8) self.old self.new result }
    {
        self.next_u8()
    }

    /// Reads a `uint16`, the high byte first. `Truncated` if fewer than two bytes are left.
    pub fn read_u16(&mut self) -> Result<u16, WireFault>
        ensures { Reads (number w16) self.old self.new result }
    {
        self.next_u16()
    }

    /// Reads a `uint32`, the highest byte first. `Truncated` if fewer than four bytes are left.
    pub fn read_u32(&mut self) -> Result<u32, WireFault>
        ensures { Reads (number w32) self.old self.new result }
    {
        self.next_u32()
    }

    /// Reads a `uint64`, the highest byte first. `Truncated` if fewer than eight bytes are left.
    pub fn read_u64(&mut self) -> Result<u64, WireFault>
        ensures { Reads (number w64) self.old self.new result }
    {
        self.next_u64()
    }

    /// Reads a length, without its body (RFC 9420, 2.1.2).
    ///
    /// # Errors
    ///
    /// In this order: no first byte (`Truncated`), a first byte of `c0` or more (`BadPrefix`), a missing byte of a
    /// longer form (`Truncated`), a form that is not the shortest (`NotShortest`).
    pub fn read_len(&mut self) -> Result<usize, WireFault>
        ensures { Reads length_form self.old self.new result }
    {
        self.next_len()
    }

    /// Reads a vector, `opaque x<V>`, and returns its body (RFC 9420, 2.1.2).
    ///
    /// # Errors
    ///
    /// Those of its length, then `Truncated` if the body is longer than what is left; each at the offset of the length.
    pub fn read_vec(&mut self) -> Result<&'a [u8], WireFault>
        ensures { Reads vector self.old self.new (seen (λ x. x.now) result) }
    {
        self.next_vec()
    }

    /// Reads the byte before an optional value, and returns whether one follows (RFC 9420, 2.1.1). `BadOptional` if it
    /// is neither 0 nor 1.
    pub fn read_optional(&mut self) -> Result<bool, WireFault>
        ensures { Reads flag self.old self.new result }
    {
        self.next_optional()
    }

    /// Reads a vector as [`read_vec`](Reader::read_vec) does, and returns a reader of its body. Its offsets are counted
    /// from the start of the outermost input.
    pub fn read_sub(&mut self) -> Result<Reader<'a>, WireFault>
        ensures { ReadsBody self.old self.new result }
    {
        self.next_sub()
    }
}
