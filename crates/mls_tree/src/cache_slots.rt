//! Cache slots for hashes of one length.
ghost use Rattle.std.specs.Prelude.{◌≡◌, ◌+◌, ◌++◌, ◌<◌, ◌≤◌, ◌^◌, IfOk, OnOk, None, Some, false, option_map, is_some, replicate, take, drop, length, slice_get, slice_set};
ghost use Rattle.std.specs.Vec.{vec_len, vec_capacity};
ghost use Rattle.mls_tree.specs.HashCache.{empty_count, hash_in};
ghost use Rattle.mls_tree.specs.HashListsInternal.{CanExtend, false_count};

use crate::hash_list::HashList;
use crate::hash_value::HashValue;
use std::alloc::{AllocError, Global};
use std::marker::Model;
use std::mem;

// Appends `count` times `false`, for which there is capacity.
fn push_false(filled: &mut Vec<bool>, count: usize)
    requires { vec_len filled.old + count ≤ vec_capacity filled.old }
    ensures { filled.new.items ≡ filled.old.items ++ replicate count false }
{
    for _ in 0..count {
        filled.push_reserved(false);
    }
}

// Returns the number of entries that are `false`.
fn count_false(filled: &[bool]) -> usize
    ensures { result ≡ false_count filled.now }
{
    let mut count = 0;
    for is_filled in filled {
        if !*is_filled {
            count += 1;
        }
    }
    count
}

// Puts marks over the first ones.
fn put_marks(filled: &mut [bool], front: &[bool])
    requires { length front.now ≤ length filled.old }
    ensures { filled.new ≡ front.now ++ drop (length front.now) filled.old }
{
    filled[..front.len()].copy_from_slice(front);
}

/// Cache slots for hashes of one length. Each is empty or has a hash.
///
/// A slot takes one byte more than a hash. Contracts see the length of a hash, the list of slots, and the number of
/// slots that there is capacity for.
#[derive(Debug, Drop)]
pub(crate) struct HashSlots {
    filled: Vec<bool>,
    hashes: HashList,
}

impl Model for HashSlots {
    ghost use Rattle.std.specs.Prelude.{◌≤◌, length};
    ghost use Rattle.std.specs.Vec.{vec_capacity};
    ghost use Rattle.mls_tree.specs.HashListsInternal.{EqualSlots, known_hashes};

    ghost Value = { EqualSlots };

    ghost view = { λ s. record { width = s.hashes.width; items = known_hashes s.filled.items s.hashes.hashes; marks_room = vec_capacity s.filled; hashes_room = length s.hashes.hashes } };

    ghost invariant = { λ s. length s.filled.items ≤ length s.hashes.hashes };
}

impl HashSlots {
    /// Creates `count` empty slots for hashes of `width` bytes.
    pub(crate) fn blank(alloc: Global, count: usize, width: usize) -> Result<HashSlots, AllocError>
        requires count { count < 2 ^ 32 }
        requires width { width ≤ 64 }
        ensures items { IfOk result (λ c. c.items ≡ replicate count None) }
        ensures width { IfOk result (λ c. c.width ≡ width) }
    {
        Ok(HashSlots {
            filled: vec![in alloc; false; count]?,
            hashes: HashList::blank(alloc, count, width)?,
        })
    }

    /// Returns a copy.
    pub(crate) fn try_clone(&self, alloc: Global) -> Result<HashSlots, AllocError>
        ensures items { IfOk result (λ c. c.items ≡ self.now.items) }
        ensures width { IfOk result (λ c. c.width ≡ self.now.width) }
    {
        Ok(HashSlots {
            filled: self.filled.as_slice().to_vec(alloc)?,
            hashes: self.hashes.try_clone(alloc)?,
        })
    }

    /// Returns the number of slots.
    pub(crate) fn len(&self) -> usize
        ensures count { result ≡ length self.now.items }
        ensures limit { result < 2 ^ 63 }
    {
        self.filled.len()
    }

    /// Returns the number of empty slots.
    pub(crate) fn count_empty(&self) -> usize
        ensures { result ≡ empty_count self.now.items }
    {
        count_false(self.filled.as_slice())
    }

    /// Returns the hash in a slot. `None` if the slot is empty or there is no such slot.
    pub(crate) fn get(&self, slot: u32) -> Option<HashValue>
        ensures { result ≡ hash_in (slice_get self.now.items slot) }
    {
        match self.filled.get(slot as usize) {
            Some(true) => self.hashes.get(slot),
            Some(false) => None,
            None => None,
        }
    }

    /// Empties a slot. Returns whether it was filled.
    pub(crate) fn clear(&mut self, slot: u32) -> bool
        requires { slot < length self.old.items }
        ensures items { self.new.items ≡ slice_set self.old.items slot None }
        ensures width { self.new.width ≡ self.old.width }
        ensures was_filled { Some result ≡ option_map is_some (slice_get self.old.items slot) }
        ensures limit { length self.old.items < 2 ^ 63 }
    {
        mem::replace(&mut self.filled[slot as usize], false)
    }

    /// Fills a slot. Returns whether it was filled before.
    pub(crate) fn put(&mut self, slot: u32, hash: &HashValue) -> bool
        requires slot { slot < length self.old.items }
        requires width { length hash.now ≡ self.old.width }
        ensures items { self.new.items ≡ slice_set self.old.items slot (Some hash.now) }
        ensures width { self.new.width ≡ self.old.width }
        ensures was_filled { Some result ≡ option_map is_some (slice_get self.old.items slot) }
    {
        self.hashes.put(slot, hash);
        mem::replace(&mut self.filled[slot as usize], true)
    }

    /// Reserves capacity for as many slots again and one more.
    pub(crate) fn reserve_double(&mut self) -> Result<(), AllocError>
        ensures capacity { OnOk result (CanExtend self.new) }
        ensures items { self.new.items ≡ self.old.items }
        ensures width { self.new.width ≡ self.old.width }
    {
        let more = self.filled.len() + 1;
        let needed = self.filled.len() + more;
        let had = self.hashes.len();
        self.filled.try_reserve(more)?;
        if had < needed {
            self.hashes.lengthen(needed - had)?;
        }
        Ok(())
    }

    /// Adds `n + 1` empty slots to the `n` that there are. Does not allocate.
    pub(crate) fn double(&mut self)
        requires { CanExtend self.old }
        ensures items { self.new.items ≡ self.old.items
            ++ replicate (length self.old.items + 1) None }
        ensures width { self.new.width ≡ self.old.width }
    {
        let more = self.filled.len() + 1;
        push_false(&mut self.filled, more);
    }

    /// Returns a copy of the first `count` slots.
    pub(crate) fn front(&self, alloc: Global, count: usize) -> Result<HashSlots, AllocError>
        requires { count ≤ length self.now.items }
        ensures items { IfOk result (λ c. c.items ≡ take count self.now.items) }
        ensures width { IfOk result (λ c. c.width ≡ self.now.width) }
    {
        Ok(HashSlots {
            filled: self.filled.as_slice()[..count].to_vec(alloc)?,
            hashes: self.hashes.front(alloc, count)?,
        })
    }

    /// Replaces the first slots by those of `front`.
    pub(crate) fn put_front(&mut self, front: &HashSlots)
        requires slot { length front.now.items ≤ length self.old.items }
        requires width { front.now.width ≡ self.old.width }
        ensures items { self.new.items
            ≡ front.now.items ++ drop (length front.now.items) self.old.items }
        ensures width { self.new.width ≡ self.old.width }
    {
        let count = front.filled.len();
        put_marks(self.filled.as_mut_slice(), front.filled.as_slice());
        self.hashes.put_front(&front.hashes, count);
    }

    /// Drops all slots except the first `count`.
    pub(crate) fn truncate(&mut self, count: usize)
        ensures items { self.new.items ≡ take count self.old.items }
        ensures width { self.new.width ≡ self.old.width }
    {
        self.filled.truncate(count);
    }
}
