//! Types that are decoded from bytes, and lists of them.

ghost use Rattle.std.specs.Prelude.{◌≡◌, ◌<◌, ℕ, List, Option, Some, Err, length, IfOk, IsSome, IsTrue};
ghost use Rattle.mls_wire.specs.Faults.{too_long_at};
ghost use Rattle.mls_wire.specs.Input.{Input};
ghost use Rattle.mls_wire.specs.Limits.{input_limit};
ghost use Rattle.mls_wire.specs.Encoding.{items, list};
ghost use Rattle.mls_wire.specs.Parsing.{GivesOrFull, whole_at, items_at, list_at};
ghost use Rattle.mls_wire.specs.ParsingInternal.{Finds};
ghost use Rattle.mls_wire.specs.ReadContracts.{Decodes, DecodesAll, DecodesInput, NoListHasSize, seen};
ghost use Rattle.mls_wire.specs.ExactParsers.{IsExact, IsLong};

use crate::fault::{CodecFault, WireFault, WireFaultKind};
use crate::reader::Reader;
use std::alloc::{AllocError, Global};

/// The most bytes of one input.
pub const MAX_INPUT: usize = 268435456;

/// A type whose values have an encoding, which determines the value.
///
/// Contracts of [`read_value`] and [`read_input`] name the encoding only. `reading` is the same as a function of the
/// input. Implementors need it for their proofs: they read the fields of a value one after the other on a
/// [`fork`](Reader::fork) of the reader.
pub trait Decode: Drop {
    /// The encoding of a value, if the value is within its limits.
    ghost encoding: { Self → Option (List ℕ) };

    /// The value at the front of an input.
    ghost reading: { Input → Option (Self × Input) };

    /// Reads the value at the front and moves the reader after it. On error the reader is unchanged.
    fn read(alloc: Global, reader: &mut Reader<'_>) -> Result<Self, CodecFault>
        ensures { GivesOrFull reading reader.old reader.new result };

    /// Returns true only if no list of values has an encoding of this many bytes. A list is then refused as
    /// `OddLength`.
    fn is_uneven(_len: usize) -> bool
        ensures { IsTrue result → NoListHasSize encoding _len }
    {
        false
    }

    /// The encoding and the reading function agree.
    ghost exact: { IsExact encoding reading };

    /// An encoding has at least one byte.
    ghost long: { IsLong encoding };
}

/// Reserves memory for a list whose first item was read last: for as many items as its body of `len` bytes has, `left` of
/// which are left, if the others are as long. So a list of many small items does not grow by doubling.
fn reserve_alike<T>(items: &mut Vec<T>, len: usize, left: usize) -> Result<(), AllocError>
    ensures { items.new.items ≡ items.old.items }
{
    if items.is_empty() && left < len {
        items.try_reserve_exact(len / (len - left))?;
    }
    Ok(())
}

/// Returns the values whose encodings are all of the body, one after the other. They take no more memory than they need.
pub(crate) fn items_of<T: Decode>(alloc: Global, mut body: Reader<'_>) -> Result<Vec<T>, CodecFault>
    ensures { Finds
        (items_at T.reading (length body.entry.left) body.entry)
        (seen (λ v. v.items) result) }
{
    let len = body.len();
    let mut items = Vec::new(alloc);
    while !body.at_end() {
        let item = T::read(alloc, &mut body)?;
        reserve_alike(&mut items, len, body.len())?;
        items.push(item)?;
    }
    items.shrink_to_fit();
    Ok(items)
}

/// Returns the list at the front, as a function of the input.
#[tactic(auto, unfolding(crate::specs::Parsing::list_at))]
fn list_of<T: Decode>(alloc: Global, reader: &mut Reader<'_>) -> Result<Vec<T>, CodecFault>
    ensures { GivesOrFull (list_at T.reading) reader.old reader.new (seen (λ v. v.items) result) }
{
    let mut ahead = reader.fork();
    let body = ahead.next_sub()?;
    if T::is_uneven(body.len()) {
        return Err(CodecFault::Wire(WireFault {
            kind: WireFaultKind::OddLength,
            at: reader.position(),
        }));
    }
    let items = items_of(alloc, body)?;
    *reader = ahead;
    Ok(items)
}

/// Reads a list: its length in bytes, and its items (RFC 9420, 2.1.2).
pub(crate) fn read_list<T: Decode>(
    alloc: Global,
    reader: &mut Reader<'_>,
) -> Result<Vec<T>, CodecFault>
    ensures fits { IfOk result (λ v. IsSome (list T.encoding v.items)) }
    ensures exact { GivesOrFull (list_at T.reading) reader.old reader.new
        (seen (λ v. v.items) result) }
{
    list_of(alloc, reader)
}

/// Reads the value at the front and moves the reader after it.
///
/// # Errors
///
/// A wire fault if and only if no value is encoded there, or `OutOfMemory`. The reader is then unchanged.
pub fn read_value<T: Decode>(alloc: Global, reader: &mut Reader<'_>) -> Result<T, CodecFault>
    ensures { Decodes T.encoding reader.old reader.new result }
{
    T::read(alloc, reader)
}

/// Returns the value whose encoding is all of the bytes, as a function of the bytes.
fn whole<T: Decode>(alloc: Global, bytes: &[u8]) -> Result<T, CodecFault>
    ensures { Finds (whole_at T.reading bytes.now) result }
{
    let mut reader = Reader::new(bytes);
    let value = T::read(alloc, &mut reader)?;
    reader.finish()?;
    Ok(value)
}

/// Returns the value whose encoding is all of the bytes.
///
/// # Errors
///
/// The faults of the value, then `Trailing` if bytes are left, or `OutOfMemory`.
pub fn read_all_of<T: Decode>(alloc: Global, bytes: &[u8]) -> Result<T, CodecFault>
    ensures { DecodesAll T.encoding bytes.now result }
{
    whole(alloc, bytes)
}

/// Returns the value whose encoding is all of an input.
///
/// # Errors
///
/// `TooLong` at 0 for an input of more than [`MAX_INPUT`] bytes, before anything is read or allocated. Then the faults
/// of the value, `Trailing` if bytes are left, or `OutOfMemory`.
pub fn read_input<T: Decode>(alloc: Global, bytes: &[u8]) -> Result<T, CodecFault>
    ensures encoded { DecodesInput T.encoding bytes.now result }
    ensures long { input_limit < length bytes.now → result ≡ Err (CodecFault.Wire (too_long_at 0)) }
{
    if bytes.len() > MAX_INPUT {
        return Err(CodecFault::Wire(WireFault {
            kind: WireFaultKind::TooLong,
            at: 0,
        }));
    }
    read_all_of(alloc, bytes)
}
