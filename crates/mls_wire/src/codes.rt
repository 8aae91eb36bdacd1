//! Lists of `uint16` that fit into one vector.

ghost use Rattle.std.specs.Prelude.{◌≡◌, [], Err, IfErr, IfOk, IsSome, MatchResult, length};
ghost use Rattle.std.specs.Int.{w16};
ghost use Rattle.mls_wire.specs.Codes.{codes_in};
ghost use Rattle.mls_wire.specs.Encoding.{list, number};
ghost use Rattle.mls_wire.specs.Faults.{too_long_at};
ghost use Rattle.mls_wire.specs.Parsing.{GivesOrFull, items_at, list_at, number_at};
ghost use Rattle.mls_wire.specs.ParsingInternal.{Finds};
ghost use Rattle.mls_wire.specs.ReadContracts.{seen};

use crate::decode::{Decode, items_of};
use crate::draft::Draft;
use crate::encode::{Encode, put_list};
use crate::fault::{CodecFault, WireFault, WireFaultKind};
use crate::items::fits;
use crate::reader::Reader;
use crate::short_codes::{MAX_SHORT, ShortCodes, short_codes_of};
use crate::size::size_of_list;
use std::alloc::{AllocError, Global};
use std::marker::Model;

/// Where the codes of a list are.
#[derive(Debug)]
enum Stored {
    /// In place.
    InPlace(ShortCodes),
    /// On the heap.
    OnHeap(Box<Vec<u16>>),
}

// Written out, so that a drop is one call in the proofs of its owners.
impl Drop for Stored {
    fn drop(self) {
        match self {
            Stored::InPlace(_) => {}
            Stored::OnHeap(_) => {}
        }
    }
}

impl Stored {
    /// Returns a list of these codes. Allocates only if there are more than [`MAX_SHORT`].
    fn copy(alloc: Global, codes: &[u16]) -> Result<Stored, AllocError>
        ensures { IfOk result (λ stored. codes_in stored ≡ codes.now) }
    {
        if codes.len() <= MAX_SHORT {
            Ok(Stored::InPlace(ShortCodes::of(codes)))
        } else {
            Ok(Stored::OnHeap(Box::new(alloc, Vec::from_slice(alloc, codes)?)?))
        }
    }

    /// Returns the codes.
    fn as_slice(&self) -> &[u16]
        ensures { result.now ≡ codes_in self.now }
    {
        match self {
            Stored::InPlace(codes) => codes.as_slice(),
            Stored::OnHeap(codes) => codes.as_slice(),
        }
    }
}

/// A list of `uint16` that fits into one vector, so it has an encoding: its length in bytes, and its items (RFC 9420,
/// 2.1.2). A list of at most 6 codes is stored in place.
#[derive(Debug)]
pub struct Codes {
    stored: Stored,
}

// Written out, so that a drop is one call in the proofs of its owners.
impl Drop for Codes {
    fn drop(self) {
        let Codes { stored: _ } = self;
    }
}

impl Model for Codes {
    ghost use Rattle.std.specs.Prelude.{ℕ, List, IsSome};
    ghost use Rattle.std.specs.Int.{w16};
    ghost use Rattle.mls_wire.specs.Codes.{codes_in};
    ghost use Rattle.mls_wire.specs.Encoding.{list, number};

    ghost Value = { List ℕ };

    ghost view = { λ c. codes_in c.stored };

    ghost invariant = { λ c. IsSome (list (number w16) (codes_in c.stored)) };
}

impl Codes {
    /// Returns the empty list. Does not allocate.
    pub fn empty() -> Codes
        ensures { result ≡ [] }
    {
        Codes {
            stored: Stored::InPlace(ShortCodes::new()),
        }
    }

    /// Returns a list of these codes.
    ///
    /// # Errors
    ///
    /// `TooLong` at 0 for more codes than fit into a vector, or `OutOfMemory`.
    pub fn copy(alloc: Global, codes: &[u16]) -> Result<Codes, CodecFault>
        ensures long { (IsSome (list (number w16) codes.now) → ⊥)
            → result ≡ Err (CodecFault.Wire (too_long_at 0)) }
        ensures short { IsSome (list (number w16) codes.now)
            → MatchResult result (λ made. made ≡ codes.now) (λ e. e ≡ CodecFault.OutOfMemory) }
    {
        if !fits(codes) {
            return Err(CodecFault::Wire(WireFault {
                kind: WireFaultKind::TooLong,
                at: 0,
            }));
        }
        let stored = Stored::copy(alloc, codes)?;
        Ok(Codes { stored })
    }

    /// Returns a copy, if the allocation succeeds. The only error is `OutOfMemory`.
    pub(crate) fn copied(&self, alloc: Global) -> Result<Codes, CodecFault>
        ensures same { IfOk result (λ x. x ≡ self.now) }
        ensures memory { IfErr result (λ e. e ≡ CodecFault.OutOfMemory) }
    {
        let stored = match &self.stored {
            Stored::InPlace(codes) => Stored::InPlace(codes.copied()),
            Stored::OnHeap(codes) => Stored::copy(alloc, codes.as_slice())?,
        };
        Ok(Codes { stored })
    }

    /// Returns the codes.
    pub fn as_slice(&self) -> &[u16]
        ensures items { result.now ≡ self.now }
        ensures limit { IsSome (list (number w16) self.now) }
    {
        self.stored.as_slice()
    }
}

/// Returns the codes whose encodings are all of the body, one after the other.
fn codes_of(alloc: Global, body: Reader<'_>) -> Result<Stored, CodecFault>
    ensures { Finds
        (items_at (number_at w16) (length body.entry.left) body.entry)
        (seen codes_in result) }
{
    if body.len() <= 2 * MAX_SHORT {
        Ok(Stored::InPlace(short_codes_of(alloc, body)?))
    } else {
        Ok(Stored::OnHeap(Box::new(alloc, items_of(alloc, body)?)?))
    }
}

/// Returns the list at the front, as a function of the input.
#[tactic(auto, unfolding(crate::specs::Parsing::list_at))]
fn list_of(alloc: Global, reader: &mut Reader<'_>) -> Result<Stored, CodecFault>
    ensures { GivesOrFull (list_at (number_at w16)) reader.old reader.new (seen codes_in result) }
{
    let mut ahead = reader.fork();
    let body = ahead.next_sub()?;
    if u16::is_uneven(body.len()) {
        return Err(CodecFault::Wire(WireFault {
            kind: WireFaultKind::OddLength,
            at: reader.position(),
        }));
    }
    let codes = codes_of(alloc, body)?;
    *reader = ahead;
    Ok(codes)
}

/// Reads a list: its length in bytes, and its items (RFC 9420, 2.1.2).
fn read_codes(alloc: Global, reader: &mut Reader<'_>) -> Result<Stored, CodecFault>
    ensures fits { IfOk result (λ codes. IsSome (list (number w16) (codes_in codes))) }
    ensures exact { GivesOrFull (list_at (number_at w16)) reader.old reader.new
        (seen codes_in result) }
{
    list_of(alloc, reader)
}

impl Decode for Codes {
    ghost use Rattle.mls_wire.specs.IntegersExact.{number_exact, number_long, wide16};
    ghost use Rattle.mls_wire.specs.ListsExact.{list_exact, list_long};

    ghost encoding = { list (number w16) };

    ghost reading = { list_at (number_at w16) };

    fn read(alloc: Global, reader: &mut Reader<'_>) -> Result<Codes, CodecFault> {
        let mut ahead = reader.fork();
        let stored = read_codes(alloc, &mut ahead)?;
        *reader = ahead;
        Ok(Codes { stored })
    }

    ghost exact = { list_exact (number w16) (number_at w16) (number_exact w16 wide16) (number_long w16 wide16) };

    ghost long = { list_long (number w16) };
}

impl Encode for Codes {
    fn size(&self) -> Option<usize> {
        size_of_list(self.stored.as_slice())
    }

    fn put(&self, alloc: Global, draft: &mut Draft) -> Result<(), CodecFault> {
        put_list(alloc, self.stored.as_slice(), draft)
    }
}
