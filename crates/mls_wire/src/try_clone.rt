//! Copies of values, most of which allocate.

ghost use Rattle.std.specs.Prelude.{◌≡◌, IfOk, IfErr};

use crate::boxed_opaque::BoxedOpaque;
use crate::codes::Codes;
use crate::decode::Decode;
use crate::encode::Encode;
use crate::encoded_items::{EncodedItems, Skip};
use crate::fault::CodecFault;
use crate::items::Items;
use crate::opaque::Opaque;
use crate::sequence::Sequence;
use std::alloc::{AllocError, Global};

/// A type whose values can be copied, if the allocations succeed.
pub trait TryClone: Drop {
    /// Returns an equal value. The only error is `OutOfMemory`.
    fn try_clone(&self, alloc: Global) -> Result<Self, CodecFault>
        ensures same { IfOk result (λ x. x ≡ self.now) }
        ensures memory { IfErr result (λ e. e ≡ CodecFault.OutOfMemory) };
}

impl TryClone for u16 {
    fn try_clone(&self, _alloc: Global) -> Result<u16, CodecFault> {
        Ok(*self)
    }
}

impl TryClone for u32 {
    fn try_clone(&self, _alloc: Global) -> Result<u32, CodecFault> {
        Ok(*self)
    }
}

impl TryClone for Opaque {
    fn try_clone(&self, alloc: Global) -> Result<Opaque, CodecFault> {
        Opaque::copy(alloc, self.as_slice())
    }
}

impl TryClone for BoxedOpaque {
    fn try_clone(&self, alloc: Global) -> Result<BoxedOpaque, CodecFault> {
        BoxedOpaque::copy(alloc, self.as_slice())
    }
}

impl TryClone for Codes {
    fn try_clone(&self, alloc: Global) -> Result<Codes, CodecFault> {
        self.copied(alloc)
    }
}

impl<T: TryClone> TryClone for Option<T> {
    fn try_clone(&self, alloc: Global) -> Result<Option<T>, CodecFault> {
        match self {
            None => Ok(None),
            Some(value) => Ok(Some(value.try_clone(alloc)?)),
        }
    }
}

/// Returns an equal value. The only error is a failed allocation.
pub fn copy_of<T: TryClone>(alloc: Global, value: &T) -> Result<T, AllocError>
    ensures { IfOk result (λ copy. copy ≡ value.now) }
{
    match value.try_clone(alloc) {
        Ok(copy) => Ok(copy),
        Err(CodecFault::OutOfMemory) => Err(AllocError),
        Err(CodecFault::Wire(_)) => unreachable!(),
    }
}

/// Returns copies of the values, in their order.
fn copies_of<T: TryClone>(alloc: Global, values: &[T]) -> Result<Vec<T>, CodecFault>
    ensures same { IfOk result (λ v. v.items ≡ values.now) }
    ensures memory { IfErr result (λ e. e ≡ CodecFault.OutOfMemory) }
{
    let mut copies = Vec::with_capacity(alloc, values.len())?;
    for value in values {
        copies.push(value.try_clone(alloc)?)?;
    }
    Ok(copies)
}

impl<T: Encode + TryClone> TryClone for Items<T> {
    fn try_clone(&self, alloc: Global) -> Result<Items<T>, CodecFault> {
        Ok(Items::of_fitting(copies_of(alloc, self.as_slice())?))
    }
}

impl<T: Skip> TryClone for EncodedItems<T> {
    fn try_clone(&self, alloc: Global) -> Result<EncodedItems<T>, CodecFault> {
        self.copied(alloc)
    }
}

impl<T: Decode + TryClone> TryClone for Sequence<T> {
    fn try_clone(&self, alloc: Global) -> Result<Sequence<T>, CodecFault> {
        Ok(Sequence::new(copies_of(alloc, self.as_slice())?))
    }
}
