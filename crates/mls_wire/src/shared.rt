//! Values on the heap with several owners.

ghost use Rattle.std.specs.Prelude.{◌≡◌, IfOk};

use crate::decode::Decode;
use crate::draft::Draft;
use crate::encode::Encode;
use crate::fault::CodecFault;
use crate::reader::Reader;
use crate::try_clone::TryClone;
use std::alloc::{AllocError, Global};
use std::marker::Model;
use std::ops::Deref;
use std::sync::Arc;

/// A value on the heap with several owners. Contracts model it by the value alone.
#[derive(Debug)]
pub struct Shared<T> {
    value: Arc<T>,
}

// By hand, so that a drop is one call in the proofs of those who hold one.
impl<T: Drop> Drop for Shared<T> {
    fn drop(self) {
        let Shared { value: _ } = self;
    }
}

impl<T> Model for Shared<T> {
    ghost use Rattle.std.specs.Arc.{arc_value};

    ghost Value = { T };

    ghost view = { λ b. arc_value b.value };
}

impl<T: Drop> Shared<T> {
    /// Returns the value, stored on the heap with one owner. The only error is a failed allocation.
    pub fn new(alloc: Global, value: T) -> Result<Shared<T>, AllocError>
        ensures { IfOk result (λ made. made ≡ value) }
    {
        Ok(Shared {
            value: Arc::new(alloc, value)?,
        })
    }
}

impl<T> Deref for Shared<T> {
    type Target = T;

    ghost deref_gives = { λ b x. x ≡ b };

    fn deref(&self) -> &T
        ensures { result.now ≡ self.now }
    {
        self.value.deref()
    }
}

impl<T: Decode> Decode for Shared<T> {
    ghost encoding = { T.encoding };

    ghost reading = { T.reading };

    fn read(alloc: Global, reader: &mut Reader<'_>) -> Result<Shared<T>, CodecFault> {
        let mut ahead = reader.fork();
        let value = Shared::new(alloc, T::read(alloc, &mut ahead)?)?;
        *reader = ahead;
        Ok(value)
    }

    ghost exact = { T.exact };

    ghost long = { T.long };
}

impl<T: Encode> Encode for Shared<T> {
    fn size(&self) -> Option<usize> {
        self.value.deref().size()
    }

    fn put(&self, alloc: Global, draft: &mut Draft) -> Result<(), CodecFault> {
        self.value.deref().put(alloc, draft)
    }
}

impl<T: Drop> TryClone for Shared<T> {
    /// Returns the value with one owner more, which allocates nothing. The only error is `OutOfMemory`, if no owner can
    /// be added to the count.
    fn try_clone(&self, _alloc: Global) -> Result<Shared<T>, CodecFault> {
        Ok(Shared {
            value: Arc::try_clone(&self.value)?,
        })
    }
}
