//! Lists that are stored as the bytes that encode them.

ghost use Rattle.std.specs.Prelude.{◌≡◌, ◌↔◌, ◌≤◌, [], None, Some, IfErr, IfOk, IfSome, IsTrue, MatchResult, length, option_map};
ghost use Rattle.mls_wire.specs.EncodedItems.{Skips};
ghost use Rattle.mls_wire.specs.Encoding.{list, vector};
ghost use Rattle.mls_wire.specs.Limits.{vector_limit};
ghost use Rattle.mls_wire.specs.Parsing.{items_at};

use crate::boxed_opaque::BoxedOpaque;
use crate::decode::Decode;
use crate::draft::Draft;
use crate::encode::Encode;
use crate::fault::{CodecFault, WireFault};
use crate::opaque::Opaque;
use crate::reader::Reader;
use std::alloc::{AllocError, Global};
use std::marker::{Model, PhantomData};

/// A type whose values can be passed over, without making one.
pub trait Skip: Decode {
    /// Moves the reader after the value at the front.
    ///
    /// # Errors
    ///
    /// If and only if no value is encoded there. The reader may then have moved.
    fn skip(reader: &mut Reader<'_>) -> Result<(), WireFault>
        ensures { Skips Self.reading reader.old reader.new result };

    /// Returns how many values are encoded, one after the other, up to the end, if the number of bytes alone determines it.
    fn count_by_len(_body: &Reader<'_>) -> Option<usize>
        ensures { IfSome result (λ count.
            option_map length (items_at Self.reading (length _body.now.left) _body.now) ≡ Some count) }
    {
        None
    }
}

/// A list that fits into one vector, as [`Items`](crate::Items) is (RFC 9420, 2.1.2). It is stored as the bytes that
/// encode its items, one after the other: at most 14 bytes in place, others on the heap. So a list of many small items
/// takes little more memory than its encoding. The model is the list.
#[derive(Debug)]
pub struct EncodedItems<T: Skip> {
    body: BoxedOpaque,
    of: PhantomData<T>,
}

// Written out, so that a drop is one call in the proofs of its owners.
impl<T: Skip> Drop for EncodedItems<T> {
    fn drop(self) {
        let EncodedItems { body: _, of: _ } = self;
    }
}

impl<T: Skip> Model for EncodedItems<T> {
    ghost use Rattle.std.specs.Prelude.{List, IsSome};
    ghost use Rattle.mls_wire.specs.EncodedItems.{items_of, stored_items};

    ghost Value = { List T };

    ghost view = { λ s. stored_items T.reading s.body };

    ghost invariant = { λ s. IsSome (items_of T.reading s.body) };
}

/// Returns how many values are encoded, one after the other, up to the end.
pub(crate) fn count_items<T: Skip>(mut body: Reader<'_>) -> Result<usize, WireFault>
    ensures { MatchResult result
        (λ count. option_map length (items_at T.reading (length body.entry.left) body.entry) ≡ Some count)
        (λ _. items_at T.reading (length body.entry.left) body.entry ≡ None) }
{
    if let Some(count) = T::count_by_len(&body) {
        return Ok(count);
    }
    let mut count = 0;
    while !body.at_end() {
        T::skip(&mut body)?;
        count += 1;
    }
    Ok(count)
}

impl<T: Skip> EncodedItems<T> {
    /// Returns the empty list. Does not allocate.
    pub fn empty() -> EncodedItems<T>
        ensures { result ≡ [] }
    {
        EncodedItems {
            body: BoxedOpaque::empty(),
            of: PhantomData,
        }
    }

    /// Returns whether there is no item.
    pub fn is_empty(&self) -> bool
        ensures { IsTrue result ↔ (self.now ≡ []) }
    {
        self.body.as_slice().is_empty()
    }

    /// Returns the number of items. Time is proportional to it.
    pub fn len(&self) -> usize
        ensures { result ≡ length self.now }
    {
        match count_items::<T>(Reader::new(self.body.as_slice())) {
            Ok(count) => count,
            Err(_) => unreachable!(),
        }
    }

    /// Returns the encodings of the items, one after the other.
    pub fn encoded(&self) -> &[u8]
        ensures encoded { list T.encoding self.now ≡ vector result.now }
        ensures limit { length result.now ≤ vector_limit }
    {
        self.body.as_slice()
    }

    /// Returns a reader of the items, at offset 0, for whoever reads them without making them.
    pub fn reader(&self) -> Reader<'_>
        ensures start { result.offset ≡ 0 }
        ensures items { items_at T.reading (length result.left) result ≡ Some self.now }
    {
        Reader::new(self.body.as_slice())
    }

    /// Returns whether the items are equal to those of another list, in their order.
    pub fn is_same(&self, other: &EncodedItems<T>) -> bool
        ensures { IsTrue result ↔ (self.now ≡ other.now) }
    {
        self.body.as_slice() == other.body.as_slice()
    }

    /// Returns the items, one by one.
    pub fn to_vec(&self, alloc: Global) -> Result<Vec<T>, AllocError>
        ensures { IfOk result (λ items. items.items ≡ self.now) }
    {
        let mut left = Reader::new(self.body.as_slice());
        let mut items = Vec::new(alloc);
        while !left.at_end() {
            match T::read(alloc, &mut left) {
                Ok(item) => items.push(item)?,
                Err(CodecFault::OutOfMemory) => return Err(AllocError),
                Err(CodecFault::Wire(_)) => unreachable!(),
            }
        }
        Ok(items)
    }

    /// Returns an equal list. The only error is `OutOfMemory`.
    pub(crate) fn copied(&self, alloc: Global) -> Result<EncodedItems<T>, CodecFault>
        ensures same { IfOk result (λ copy. copy ≡ self.now) }
        ensures memory { IfErr result (λ e. e ≡ CodecFault.OutOfMemory) }
    {
        Ok(EncodedItems {
            body: BoxedOpaque::copy(alloc, self.body.as_slice())?,
            of: PhantomData,
        })
    }
}

impl<T: Skip> Decode for EncodedItems<T> {
    ghost use Rattle.mls_wire.specs.Encoding.{list};
    ghost use Rattle.mls_wire.specs.Parsing.{list_at};
    ghost use Rattle.mls_wire.specs.ListsExact.{list_exact, list_long};

    ghost encoding = { list T.encoding };

    ghost reading = { list_at T.reading };

    fn read(alloc: Global, reader: &mut Reader<'_>) -> Result<EncodedItems<T>, CodecFault> {
        let mut ahead = reader.fork();
        let body = ahead.read_sub()?;
        count_items::<T>(body.fork())?;
        let body = BoxedOpaque::copy(alloc, body.left())?;
        *reader = ahead;
        Ok(EncodedItems {
            body,
            of: PhantomData,
        })
    }

    ghost exact = { list_exact T.encoding T.reading T.exact T.long };

    ghost long = { list_long T.encoding };
}

impl<T: Skip> Encode for EncodedItems<T> {
    fn size(&self) -> Option<usize> {
        self.body.size()
    }

    fn put(&self, alloc: Global, draft: &mut Draft) -> Result<(), CodecFault> {
        self.body.put(alloc, draft)
    }
}

impl<T: Skip> Skip for EncodedItems<T> {
    fn skip(reader: &mut Reader<'_>) -> Result<(), WireFault> {
        let body = reader.next_sub()?;
        count_items::<T>(body)?;
        Ok(())
    }
}

impl Skip for u16 {
    fn skip(reader: &mut Reader<'_>) -> Result<(), WireFault> {
        reader.next_u16()?;
        Ok(())
    }

    fn count_by_len(body: &Reader<'_>) -> Option<usize> {
        body.pairs()
    }
}

impl Skip for Opaque {
    fn skip(reader: &mut Reader<'_>) -> Result<(), WireFault> {
        reader.next_vec()?;
        Ok(())
    }
}

impl Skip for BoxedOpaque {
    fn skip(reader: &mut Reader<'_>) -> Result<(), WireFault> {
        reader.next_vec()?;
        Ok(())
    }
}
