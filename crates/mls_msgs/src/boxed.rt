//! Values that are stored on the heap.

ghost use Rattle.std.specs.Prelude.{◌≡◌, IfOk};

use mls_wire::{CodecFault, Decode, Draft, Encode, Reader, TryClone};
use std::alloc::{AllocError, Global};
use std::marker::Model;
use std::ops::Deref;

/// A value that is stored on the heap, so that an enum with a large variant is small. Contracts model it by the value
/// alone, and not that it is boxed.
#[derive(Debug)]
pub struct Boxed<T> {
    value: Box<T>,
}

// By hand, so that a drop is one call in the proofs of those who hold one.
impl<T: Drop> Drop for Boxed<T> {
    fn drop(self) {
        let Boxed { value: _ } = self;
    }
}

impl<T> Model for Boxed<T> {
    ghost Value = { T };

    ghost view = { λ b. b.value.value };
}

impl<T: Drop> Boxed<T> {
    /// Returns the value, stored on the heap. The only error is a failed allocation.
    pub fn new(alloc: Global, value: T) -> Result<Boxed<T>, AllocError>
        ensures { IfOk result (λ made. made ≡ value) }
    {
        Ok(Boxed {
            value: Box::new(alloc, value)?,
        })
    }
}

impl<T> Deref for Boxed<T> {
    type Target = T;

    ghost deref_gives = { λ b x. x ≡ b };

    fn deref(&self) -> &T
        ensures { result.now ≡ self.now }
    {
        self.value.as_ref()
    }
}

impl<T: Decode> Decode for Boxed<T> {
    ghost encoding = { T.encoding };

    ghost reading = { T.reading };

    fn read(alloc: Global, reader: &mut Reader<'_>) -> Result<Boxed<T>, CodecFault> {
        let mut ahead = reader.fork();
        let value = Boxed::new(alloc, T::read(alloc, &mut ahead)?)?;
        *reader = ahead;
        Ok(value)
    }

    ghost exact = { T.exact };

    ghost long = { T.long };
}

impl<T: Encode> Encode for Boxed<T> {
    fn size(&self) -> Option<usize> {
        self.value.as_ref().size()
    }

    fn put(&self, alloc: Global, draft: &mut Draft) -> Result<(), CodecFault> {
        self.value.as_ref().put(alloc, draft)
    }
}

impl<T: TryClone> TryClone for Boxed<T> {
    fn try_clone(&self, alloc: Global) -> Result<Boxed<T>, CodecFault> {
        Ok(Boxed::new(alloc, self.value.as_ref().try_clone(alloc)?)?)
    }
}
