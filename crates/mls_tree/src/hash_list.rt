//! Many hashes of one length, stored as their bytes one after the other.

ghost use Rattle.std.specs.Prelude.{◌≡◌, ◌+◌, ◌≤◌, ◌<◌, ◌^◌, ◌++◌, ◌∷◌, [], IfOk, OnOk, OnErr, Some, length, take, drop, replicate, slice_get, slice_range, slice_set};
ghost use Rattle.std.specs.Vec.{vec_len, vec_capacity};

use crate::hash_value::HashValue;
use std::alloc::{AllocError, Global};
use std::marker::Model;

/// Hashes of one length.
///
/// Contracts see the length of a hash, `width`, and the list of hashes.
#[derive(Debug, Drop)]
pub struct HashList {
    width: usize,
    count: usize,
    bytes: Vec<u8>,
}

impl Model for HashList {
    ghost use Rattle.mls_tree.specs.HashLists.{EqualHashes};
    ghost use Rattle.mls_tree.specs.HashListsInternal.{FillsBytes, hashes_in};

    ghost Value = { EqualHashes };

    ghost view = { λ s. record { width = s.width; hashes = hashes_in s.width s.count s.bytes.items } };

    ghost invariant = { λ s. FillsBytes s.width s.count s.bytes.items };
}

/// Returns the bytes from `start` up to `end`.
fn part(bytes: &[u8], start: usize, end: usize) -> &[u8]
    requires order { start ≤ end }
    requires inside { end ≤ length bytes.now }
    ensures { result.now ≡ slice_range bytes.now start end }
{
    &bytes[start..end]
}

/// Overwrites the bytes from `start` on with those of `part`.
fn put_part(bytes: &mut [u8], start: usize, part: &[u8])
    requires { start + length part.now ≤ length bytes.old }
    ensures { let rest = drop (length part.now) (drop start bytes.old) in
        bytes.new ≡ take start bytes.old ++ (part.now ++ rest) }
{
    bytes[start..start + part.len()].copy_from_slice(part);
}

/// Creates the hash that has these bytes.
fn value_of(bytes: &[u8]) -> HashValue
    requires { length bytes.now ≤ 64 }
    ensures { result ≡ bytes.now }
{
    HashValue::new(bytes).unwrap()
}

// Appends `count` zero bytes, for which there is capacity.
fn push_zeros(bytes: &mut Vec<u8>, count: usize)
    requires { vec_len bytes.old + count ≤ vec_capacity bytes.old }
    ensures { bytes.new.items ≡ bytes.old.items ++ replicate count 0 }
{
    let Ok(()) = bytes.resize(bytes.len() + count, 0) else {
        unreachable!()
    };
}

/// Returns a copy of bytes.
fn copy_of(alloc: Global, bytes: &[u8]) -> Result<Vec<u8>, AllocError>
    ensures { IfOk result (λ copy. copy.items ≡ bytes.now) }
{
    let mut copy = Vec::new(alloc);
    copy.extend_from_slice(bytes)?;
    Ok(copy)
}

impl HashList {
    /// Creates `count` hashes of `width` bytes. Their values are unspecified.
    pub fn blank(alloc: Global, count: usize, width: usize) -> Result<HashList, AllocError>
        requires count { count < 2 ^ 32 }
        requires width { width ≤ 64 }
        ensures width { IfOk result (λ l. l.width ≡ width) }
        ensures count { IfOk result (λ l. length l.hashes ≡ count) }
    {
        let bytes = vec![in alloc; 0; count * width]?;
        Ok(HashList {
            width,
            count,
            bytes,
        })
    }

    /// Returns the length of a hash in bytes.
    pub fn width(&self) -> usize
        ensures width { result ≡ self.now.width }
        ensures limit { result ≤ 64 }
    {
        self.width
    }

    /// Returns the hash at an index, which must be in bounds.
    pub fn at(&self, slot: u32) -> HashValue
        requires { slot < length self.now.hashes }
        ensures { slice_get self.now.hashes slot ≡ Some result }
    {
        let start = slot as usize * self.width;
        value_of(part(self.bytes.as_slice(), start, start + self.width))
    }

    /// Returns the hash at an index. `None` if the index is out of bounds.
    pub fn get(&self, slot: u32) -> Option<HashValue>
        ensures { result ≡ slice_get self.now.hashes slot }
    {
        if (slot as usize) < self.count {
            Some(self.at(slot))
        } else {
            None
        }
    }

    /// Reserves capacity for `more` hashes. The hashes are unchanged.
    pub fn reserve(&mut self, more: usize) -> Result<(), AllocError>
        ensures { self.new ≡ self.old }
    {
        self.bytes
            .try_reserve_exact(more.saturating_mul(self.width))
    }

    /// Appends a hash. If the call fails, the list is unchanged.
    pub fn push(&mut self, hash: &HashValue) -> Result<(), AllocError>
        requires width { length hash.now ≡ self.old.width }
        requires count { length self.old.hashes + 1 < 2 ^ 64 }
        ensures pushed { OnOk result (self.new
            ≡ record self.old { hashes = self.old.hashes ++ hash.now ∷ [] }) }
        ensures unchanged_on_error { OnErr result (self.new ≡ self.old) }
    {
        self.bytes.extend_from_slice(hash.as_slice())?;
        self.count += 1;
        Ok(())
    }

    /// Replaces the hash at an index, which must be in bounds.
    pub fn put(&mut self, slot: u32, hash: &HashValue)
        requires slot { slot < length self.old.hashes }
        requires width { length hash.now ≡ self.old.width }
        ensures { self.new
            ≡ record self.old { hashes = slice_set self.old.hashes slot hash.now } }
    {
        let start = slot as usize * self.width;
        put_part(self.bytes.as_mut_slice(), start, hash.as_slice());
    }

    /// Returns a copy of the first `count` hashes.
    pub(crate) fn front(&self, alloc: Global, count: usize) -> Result<HashList, AllocError>
        requires { count ≤ length self.now.hashes }
        ensures { IfOk result (λ l. l
            ≡ record self.now { hashes = take count self.now.hashes }) }
    {
        let bytes = copy_of(alloc, part(self.bytes.as_slice(), 0, count * self.width))?;
        Ok(HashList {
            width: self.width,
            count,
            bytes,
        })
    }

    /// Replaces the first `count` hashes by those of `front`.
    pub(crate) fn put_front(&mut self, front: &HashList, count: usize)
        requires there { count ≤ length front.now.hashes }
        requires slot { count ≤ length self.old.hashes }
        requires width { front.now.width ≡ self.old.width }
        ensures { self.new ≡ record self.old {
          hashes = take count front.now.hashes ++ drop count self.old.hashes;
        } }
    {
        let front = part(front.bytes.as_slice(), 0, count * self.width);
        put_part(self.bytes.as_mut_slice(), 0, front);
    }

    /// How many hashes there are.
    pub(crate) fn len(&self) -> usize
        ensures { result ≡ length self.now.hashes }
    {
        self.count
    }

    /// Appends `more` hashes. Their values are unspecified.
    pub(crate) fn lengthen(&mut self, more: usize) -> Result<(), AllocError>
        requires more { more ≤ length self.old.hashes + 1 }
        requires count { length self.old.hashes + more < 2 ^ 64 }
        ensures width { self.new.width ≡ self.old.width }
        ensures count { OnOk result
            (length self.new.hashes ≡ length self.old.hashes + more) }
        ensures preserved { OnOk result
            (take (length self.old.hashes) self.new.hashes ≡ self.old.hashes) }
        ensures unchanged_on_error { OnErr result (self.new ≡ self.old) }
    {
        let added = more * self.width;
        self.bytes.try_reserve(added)?;
        push_zeros(&mut self.bytes, added);
        self.count += more;
        Ok(())
    }

    /// Returns a copy.
    pub fn try_clone(&self, alloc: Global) -> Result<HashList, AllocError>
        ensures { IfOk result (λ l. l ≡ self.now) }
    {
        Ok(HashList {
            width: self.width,
            count: self.count,
            bytes: copy_of(alloc, self.bytes.as_slice())?,
        })
    }
}
