//! Vectors that are borrowed from the bytes that encode them, for types that borrow their fields. Contracts here name the
//! reading function. On error the reader of a call may have moved.

ghost use Rattle.std.specs.Prelude.{◌≡◌, ◌↔◌, [], Some, IsSome, IsTrue, length};
ghost use Rattle.std.specs.Int.{w8, w16, w64};
ghost use Rattle.mls_wire.specs.EncodedItems.{items_of, stored_items, Parses};
ghost use Rattle.mls_wire.specs.Parsing.{items_at, list_at, number_at, vector_at};

use crate::encoded_items::{EncodedItems, Skip, count_items};
use crate::fault::{WireFault, WireFaultKind};
use crate::reader::Reader;
use std::marker::{Model, PhantomData};

/// The body of a vector (RFC 9420, 2.1.2), borrowed. The model is the bytes.
#[derive(Debug, Drop)]
pub struct OpaqueRef<'a> {
    bytes: &'a [u8],
}

impl<'a> Model for OpaqueRef<'a> {
    ghost use Rattle.std.specs.Prelude.{ℕ, List};

    ghost Value = { List ℕ };

    ghost view = { λ s. s.bytes.now };
}

/// Reads a `uint8`. Fails only if there is none.
pub fn parse_u8(reader: &mut Reader<'_>) -> Result<u8, WireFault>
    ensures { Parses (number_at w8) reader.old reader.new result }
{
    reader.next_u8()
}

/// Reads a `uint16`. Fails only if there is none.
pub fn parse_u16(reader: &mut Reader<'_>) -> Result<u16, WireFault>
    ensures { Parses (number_at w16) reader.old reader.new result }
{
    reader.next_u16()
}

/// Reads a `uint64`. Fails only if there is none.
pub fn parse_u64(reader: &mut Reader<'_>) -> Result<u64, WireFault>
    ensures { Parses (number_at w64) reader.old reader.new result }
{
    reader.next_u64()
}

impl<'a> OpaqueRef<'a> {
    /// Reads a vector. Fails only if there is none.
    pub fn parse(reader: &mut Reader<'a>) -> Result<OpaqueRef<'a>, WireFault>
        ensures { Parses vector_at reader.old reader.new result }
    {
        Ok(OpaqueRef::new(reader.next_vec()?))
    }

    /// Returns these bytes as a body.
    pub fn new(bytes: &'a [u8]) -> OpaqueRef<'a>
        ensures { result ≡ bytes.now }
    {
        OpaqueRef { bytes }
    }

    /// Returns the bytes.
    pub fn as_slice(&self) -> &'a [u8]
        ensures { result.now ≡ self.now }
    {
        self.bytes
    }
}

/// A list, borrowed from the bytes that encode its items, one after the other, as [`EncodedItems`] stores them. The
/// model is the list.
pub struct ItemsRef<'a, T: Skip> {
    bytes: &'a [u8],
    of: PhantomData<T>,
}

// Written out, so that a drop is one call in the proofs of its owners.
impl<'a, T: Skip> Drop for ItemsRef<'a, T> {
    fn drop(self) {
        let ItemsRef { bytes: _, of: _ } = self;
    }
}

impl<'a, T: Skip> Model for ItemsRef<'a, T> {
    ghost use Rattle.std.specs.Prelude.{List, IsSome};
    ghost use Rattle.std.specs.Int.{w8, w16, w64};
    ghost use Rattle.mls_wire.specs.EncodedItems.{items_of, stored_items, Parses};

    ghost Value = { List T };

    ghost view = { λ s. stored_items T.reading s.bytes.now };

    ghost invariant = { λ s. IsSome (items_of T.reading s.bytes.now) };
}

impl<'a, T: Skip> ItemsRef<'a, T> {
    /// Returns the list whose items these bytes encode.
    pub fn new(bytes: &'a [u8]) -> ItemsRef<'a, T>
        requires { IsSome (items_of T.reading bytes.now) }
        ensures { result ≡ stored_items T.reading bytes.now }
    {
        ItemsRef {
            bytes,
            of: PhantomData,
        }
    }

    /// Reads a list, and each item of it. Fails only if there is none.
    pub fn parse(reader: &mut Reader<'a>) -> Result<ItemsRef<'a, T>, WireFault>
        ensures { Parses (list_at T.reading) reader.old reader.new result }
    {
        let at = reader.position();
        let body = reader.next_sub()?;
        if T::is_uneven(body.len()) {
            return Err(WireFault {
                kind: WireFaultKind::OddLength,
                at,
            });
        }
        count_items::<T>(body.fork())?;
        Ok(ItemsRef::new(body.left()))
    }

    /// Returns a list that is stored as its encoding, borrowed.
    pub fn of(items: &'a EncodedItems<T>) -> ItemsRef<'a, T>
        ensures { result ≡ items.now }
    {
        ItemsRef::new(items.reader().left())
    }

    /// Returns whether there is no item.
    pub fn is_empty(&self) -> bool
        ensures { IsTrue result ↔ (self.now ≡ []) }
    {
        self.bytes.is_empty()
    }

    /// Returns the bytes that encode the items, one after the other.
    pub fn encoded(&self) -> &'a [u8]
        ensures { items_of T.reading result.now ≡ Some self.now }
    {
        self.bytes
    }

    /// Returns a reader of the items, at offset 0, for whoever reads them without making them.
    pub fn reader(&self) -> Reader<'a>
        ensures start { result.offset ≡ 0 }
        ensures items { items_at T.reading (length result.left) result ≡ Some self.now }
    {
        Reader::new(self.bytes)
    }

    /// Returns whether the items are equal to those of another list, in their order.
    pub fn is_same(&self, other: &ItemsRef<'_, T>) -> bool
        ensures { IsTrue result ↔ (self.now ≡ other.now) }
    {
        self.bytes == other.bytes
    }
}
