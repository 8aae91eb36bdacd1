//! Types that are encoded as bytes, and lists of them.

ghost use Rattle.std.specs.Prelude.{◌≡◌};
ghost use Rattle.mls_wire.specs.SaturatingSizes.{size};
ghost use Rattle.mls_wire.specs.Encoding.{items, list};
ghost use Rattle.mls_wire.specs.ReadContracts.{seen};
ghost use Rattle.mls_wire.specs.WriteContracts.{MakesPiece, Puts, PutsPiece};

use crate::decode::Decode;
use crate::draft::Draft;
use crate::fault::CodecFault;
use crate::size::size_of_items;
use crate::writer::Writer;
use std::alloc::Global;

/// A type whose values can be encoded.
pub trait Encode: Decode {
    /// Returns the length of the encoding in bytes, or [`usize::MAX`] if it is larger. `None` if and only if the value
    /// has no encoding, being over a limit. Does not allocate.
    fn size(&self) -> Option<usize>
        ensures { result ≡ size (Self.encoding self.now) };

    /// Adds the encoding to a draft.
    ///
    /// # Errors
    ///
    /// `TooLong`, only if the value has no encoding, or `OutOfMemory`. A part may have been added, which whoever made
    /// the draft removes.
    fn put(&self, alloc: Global, draft: &mut Draft) -> Result<(), CodecFault>
        ensures { Puts (Self.encoding self.now) draft.old draft.new result };
}

/// Adds the encodings of the values, one after the other.
fn put_items<T: Encode>(alloc: Global, values: &[T], draft: &mut Draft) -> Result<(), CodecFault>
    ensures { Puts (items T.encoding values.now) draft.old draft.new result }
{
    for value in values {
        value.put(alloc, draft)?;
    }
    Ok(())
}

/// Adds a list: its length in bytes, and its items (RFC 9420, 2.1.2).
///
/// # Errors
///
/// `TooLong`, at the number of bytes written so far, if and only if an item has no encoding, or the items have more
/// bytes than the body of a vector may have. This is checked before anything is allocated. Or `OutOfMemory`.
pub fn put_list<T: Encode>(alloc: Global, values: &[T], draft: &mut Draft) -> Result<(), CodecFault>
    ensures { PutsPiece (list T.encoding values.now) draft.old draft.new result }
{
    let Some(body) = size_of_items(values) else {
        return Err(CodecFault::Wire(draft.too_long()));
    };
    draft.put_len(body)?;
    put_items(alloc, values, draft)
}

/// Returns the encoding of a value.
///
/// # Errors
///
/// `TooLong` at 0 if and only if the value has no encoding, being over a limit, or `OutOfMemory`.
pub fn bytes_of<T: Encode>(alloc: Global, value: &T) -> Result<Vec<u8>, CodecFault>
    ensures { MakesPiece (T.encoding value.now) (seen (λ v. v.items) result) }
{
    let mut writer = Writer::new(alloc);
    writer.write(alloc, value)?;
    Ok(writer.into_bytes())
}
