//! Lists that fit into one vector.

ghost use Rattle.std.specs.Prelude.{◌≡◌, ◌↔◌, ◌<◌, ◌≤◌, IsSome, IsTrue, IfErr, MatchResult, OnErr, OnOk, insert, length, remove, slice_index_or};
ghost use Rattle.mls_wire.specs.Encoding.{list};

use crate::decode::{Decode, read_list};
use crate::draft::Draft;
use crate::encode::{Encode, put_list};
use crate::fault::CodecFault;
use crate::reader::Reader;
use crate::size::size_of_list;
use std::alloc::{AllocFailed, Global};
use std::marker::Model;

/// Returns whether the encodings of the values have together no more bytes than the body of a vector may have
/// (RFC 9420, 2.1.2). It visits each value once.
pub fn fits<T: Encode>(values: &[T]) -> bool
    ensures { IsTrue result ↔ IsSome (list T.encoding values.now) }
{
    size_of_list(values).is_some()
}

/// A list that fits into one vector, so it has an encoding: its length in bytes, and its items (RFC 9420, 2.1.2).
#[derive(Debug)]
pub struct Items<T: Encode> {
    items: Vec<T>,
}

// Written out, so that a drop is one call in the proofs of its owners.
impl<T: Encode> Drop for Items<T> {
    fn drop(self) {
        let Items { items: _ } = self;
    }
}

impl<T: Encode> Model for Items<T> {
    ghost use Rattle.std.specs.Prelude.{List, IsSome};
    ghost use Rattle.mls_wire.specs.Encoding.{list};

    ghost Value = { List T };

    ghost view = { λ a. a.items.items };

    ghost invariant = { λ a. IsSome (list T.encoding a.items.items) };
}

impl<T: Encode> Items<T> {
    /// Returns the list of these items, which fit into one vector.
    pub(crate) fn of_fitting(items: Vec<T>) -> Items<T>
        requires { IsSome (list T.encoding items.items) }
        ensures { result ≡ items.items }
    {
        Items { items }
    }

    /// Returns the list of these items. Does not allocate. A list over the limit is returned as the error.
    pub fn new(items: Vec<T>) -> Result<Items<T>, Vec<T>>
        ensures { MatchResult result
            (λ made. made ≡ items.items)
            (λ back. (back ≡ items) × (IsSome (list T.encoding items.items) → ⊥)) }
    {
        if fits(items.as_slice()) {
            Ok(Items { items })
        } else {
            Err(items)
        }
    }

    /// The items.
    pub fn as_slice(&self) -> &[T]
        ensures items { result.now ≡ self.now }
        ensures limit { IsSome (list T.encoding self.now) }
    {
        self.items.as_slice()
    }

    /// Inserts an item at an index. The list with it must fit into one vector.
    ///
    /// # Errors
    ///
    /// The item, if an allocation fails. The list is then unchanged.
    pub fn insert(&mut self, index: usize, item: T) -> Result<(), AllocFailed<T>>
        requires inside { index ≤ length self.old }
        requires fits { IsSome (list T.encoding self.old)
            → IsSome (list T.encoding (insert self.old index item)) }
        ensures changed { OnOk result (self.new ≡ insert self.old index item) }
        ensures unchanged_on_error { OnErr result (self.new ≡ self.old) }
        ensures returned_arguments { IfErr result (λ failed. failed.value ≡ item) }
    {
        self.items.insert(index, item)
    }

    /// Removes the item at an index and returns it. Does not allocate.
    pub fn remove(&mut self, index: usize) -> T
        requires { index < length self.old }
        ensures value { result ≡ slice_index_or self.old index result }
        ensures items { self.new ≡ remove self.old index }
    {
        self.items.remove(index)
    }
}

impl<T: Encode> Decode for Items<T> {
    ghost use Rattle.mls_wire.specs.Encoding.{list};
    ghost use Rattle.mls_wire.specs.Parsing.{list_at};
    ghost use Rattle.mls_wire.specs.ListsExact.{list_exact, list_long};

    ghost encoding = { list T.encoding };

    ghost reading = { list_at T.reading };

    fn read(alloc: Global, reader: &mut Reader<'_>) -> Result<Items<T>, CodecFault> {
        let mut ahead = reader.fork();
        let items = read_list(alloc, &mut ahead)?;
        *reader = ahead;
        Ok(Items { items })
    }

    ghost exact = { list_exact T.encoding T.reading T.exact T.long };

    ghost long = { list_long T.encoding };
}

impl<T: Encode> Encode for Items<T> {
    fn size(&self) -> Option<usize> {
        size_of_list(self.items.as_slice())
    }

    fn put(&self, alloc: Global, draft: &mut Draft) -> Result<(), CodecFault> {
        put_list(alloc, self.items.as_slice(), draft)
    }
}
