//! Lists that may be too long for a vector.

ghost use Rattle.std.specs.Prelude.{◌≡◌};

use crate::decode::{Decode, read_list};
use crate::draft::Draft;
use crate::encode::{Encode, put_list};
use crate::fault::CodecFault;
use crate::reader::Reader;
use crate::size::size_of_list;
use std::alloc::Global;
use std::marker::Model;

/// A list of any number of items. Its encoding is its length in bytes, and its items (RFC 9420, 2.1.2). A list whose
/// items have more bytes than the body of a vector may have has no encoding, and writing it fails.
#[derive(Debug)]
pub struct Sequence<T: Decode> {
    items: Vec<T>,
}

// Written out, so that a drop is one call in the proofs of its owners.
impl<T: Decode> Drop for Sequence<T> {
    fn drop(self) {
        let Sequence { items: _ } = self;
    }
}

impl<T: Decode> Model for Sequence<T> {
    ghost use Rattle.std.specs.Prelude.{List};

    ghost Value = { List T };

    ghost view = { λ a. a.items.items };
}

impl<T: Decode> Sequence<T> {
    /// Returns the list of these items. Does not allocate.
    pub fn new(items: Vec<T>) -> Sequence<T>
        ensures { result ≡ items.items }
    {
        Sequence { items }
    }

    /// Returns the items.
    pub fn as_slice(&self) -> &[T]
        ensures { result.now ≡ self.now }
    {
        self.items.as_slice()
    }
}

impl<T: Decode> Decode for Sequence<T> {
    ghost use Rattle.mls_wire.specs.Encoding.{list};
    ghost use Rattle.mls_wire.specs.Parsing.{list_at};
    ghost use Rattle.mls_wire.specs.ListsExact.{list_exact, list_long};

    ghost encoding = { list T.encoding };

    ghost reading = { list_at T.reading };

    fn read(alloc: Global, reader: &mut Reader<'_>) -> Result<Sequence<T>, CodecFault> {
        let mut ahead = reader.fork();
        let items = read_list(alloc, &mut ahead)?;
        *reader = ahead;
        Ok(Sequence { items })
    }

    ghost exact = { list_exact T.encoding T.reading T.exact T.long };

    ghost long = { list_long T.encoding };
}

impl<T: Encode> Encode for Sequence<T> {
    fn size(&self) -> Option<usize> {
        size_of_list(self.items.as_slice())
    }

    fn put(&self, alloc: Global, draft: &mut Draft) -> Result<(), CodecFault> {
        put_list(alloc, self.items.as_slice(), draft)
    }
}
