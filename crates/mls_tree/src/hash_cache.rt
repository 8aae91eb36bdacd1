//! Cache slots for the tree hashes of subtrees, one per node.
ghost use Rattle.std.specs.Prelude.{◌≡◌, ℕ, ◌+◌, ◌*◌, ◌++◌, ◌<◌, ◌≤◌, ◌^◌, None, Some, IfOk, replicate, take, length, slice_set};
ghost use Rattle.mls_nodes.specs.Limits.{leaf_limit};
ghost use Rattle.mls_tree.specs.Tree.{Tree, height, IsPerfect};
ghost use Rattle.mls_tree.specs.TreeInternal.{leaves_at};
ghost use Rattle.mls_tree.specs.Paths.{direct_path};
ghost use Rattle.mls_tree.specs.HashCache.{empty_count, emptied, parents_from};
ghost use Rattle.mls_tree.specs.HashCacheInternal.{hash_len, joined_slots};
ghost use Rattle.mls_tree.specs.HashListsInternal.{CanExtend};
ghost use Rattle.std.specs.List.{range_with_len};

use crate::cache_slots::HashSlots;
use crate::hash_kind::HashKind;
use crate::hash_value::HashValue;
use crate::tree_size::leaves_of;
use std::alloc::{AllocError, Global};

/// Cache slots of one kind of hash, and the number of empty slots.
#[derive(Debug, Drop)]
pub(crate) struct Slots {
    pub(crate) kind: HashKind,
    pub(crate) hashes: HashSlots,
    pub(crate) empty: usize,
    ghost subtree_count: { empty ≡ empty_count hashes.items },
    ghost wide: { hashes.width ≡ hash_len kind },
}

impl Slots {
    /// Creates `count` empty slots.
    pub(crate) fn blank(alloc: Global, kind: HashKind, count: usize) -> Result<Slots, AllocError>
        requires { count < 2 ^ 32 }
        ensures slots { IfOk result (λ c. c.hashes.items ≡ replicate count None) }
        ensures kind { IfOk result (λ c. c.kind ≡ kind) }
    {
        let hashes = HashSlots::blank(alloc, count, kind.hash_len())?;
        let slots = Slots {
            kind,
            hashes,
            empty: count,
        };
        Ok(slots)
    }

    /// Returns a copy.
    pub(crate) fn try_clone(&self, alloc: Global) -> Result<Slots, AllocError>
        ensures { IfOk result (λ c. (c.kind ≡ self.now.kind)
            × (c.hashes.items ≡ self.now.hashes.items)) }
    {
        let hashes = self.hashes.try_clone(alloc)?;
        let slots = Slots {
            kind: self.kind,
            hashes,
            empty: self.empty,
        };
        Ok(slots)
    }

    /// Empties the slot at node index `node_index`.
    pub(crate) fn clear(&mut self, node_index: u32)
        requires { node_index < length self.old.hashes.items }
        ensures slots { self.new.hashes.items ≡ slice_set self.old.hashes.items node_index None }
        ensures kind { self.new.kind ≡ self.old.kind }
    {
        if self.hashes.clear(node_index) {
            self.empty += 1;
        }
    }

    /// Fills the slot at node index `node_index`.
    pub(crate) fn put(&mut self, node_index: u32, hash: HashValue)
        requires node_index { node_index < length self.old.hashes.items }
        requires width { length hash ≡ hash_len self.old.kind }
        ensures slots { self.new.hashes.items ≡ slice_set self.old.hashes.items node_index (Some hash) }
        ensures kind { self.new.kind ≡ self.old.kind }
    {
        if !self.hashes.put(node_index, &hash) {
            self.empty -= 1;
        }
    }

    /// Empties the slots of the parents above a leaf, in a subtree of height `level` whose first leaf has the index
    /// `first`.
    pub(crate) fn blank_path(&mut self, level: u32, first: u32, leaf: u32)
        requires low { level ≤ 20 }
        requires inside { first + leaves_at level ≤ leaf_limit }
        requires long { 2 * (first + leaves_at level) ≤ length self.old.hashes.items + 1 }
        ensures slots { (t : Tree) → IsPerfect t → height t ≡ level
            → self.new.hashes.items ≡ emptied self.old.hashes.items (direct_path first t leaf) }
        ensures count { length self.new.hashes.items ≡ length self.old.hashes.items }
        ensures kind { self.new.kind ≡ self.old.kind }
    {
        if level == 0 {
            return;
        }
        let middle = first + leaves_of(level - 1);
        if leaf < middle {
            self.blank_path(level - 1, first, leaf);
        } else {
            self.blank_path(level - 1, middle, leaf);
        }
        self.clear(2 * middle - 1);
    }

    /// Empties the slots of the parent at node index `node_index` and of the parents above it, in a subtree as for
    /// `blank_path`.
    pub(crate) fn clear_from(&mut self, level: u32, first: u32, node_index: u32)
        requires low { level ≤ 20 }
        requires inside { first + leaves_at level ≤ leaf_limit }
        requires long { 2 * (first + leaves_at level) ≤ length self.old.hashes.items + 1 }
        ensures slots { (t : Tree) → IsPerfect t → height t ≡ level
            → self.new.hashes.items ≡ emptied self.old.hashes.items (parents_from first t node_index) }
        ensures count { length self.new.hashes.items ≡ length self.old.hashes.items }
        ensures kind { self.new.kind ≡ self.old.kind }
    {
        if level == 0 {
            return;
        }
        let middle = first + leaves_of(level - 1);
        let root = 2 * middle - 1;
        if node_index < root {
            self.clear_from(level - 1, first, node_index);
        } else if node_index > root {
            self.clear_from(level - 1, middle, node_index);
        }
        self.clear(root);
    }

    /// Appends as many empty slots as there are, and one more.
    pub(crate) fn double(&mut self)
        requires { CanExtend self.old.hashes }
        ensures slots { self.new.hashes.items ≡ self.old.hashes.items
            ++ replicate (length self.old.hashes.items + 1) None }
        ensures kind { self.new.kind ≡ self.old.kind }
    {
        let more = self.hashes.len() + 1;
        self.hashes.double();
        self.empty += more;
    }

    /// Returns a copy of the first `count` slots.
    pub(crate) fn front(&self, alloc: Global, count: usize) -> Result<Slots, AllocError>
        requires { count ≤ length self.now.hashes.items }
        ensures slots { IfOk result
            (λ c. c.hashes.items ≡ take count self.now.hashes.items) }
        ensures kind { IfOk result (λ c. c.kind ≡ self.now.kind) }
    {
        let hashes = self.hashes.front(alloc, count)?;
        let empty = hashes.count_empty();
        let slots = Slots {
            kind: self.kind,
            hashes,
            empty,
        };
        Ok(slots)
    }

    /// Empties the first `count` slots.
    pub(crate) fn clear_front(&mut self, count: u32)
        requires { count ≤ length self.old.hashes.items }
        ensures slots { self.new.hashes.items
            ≡ emptied self.old.hashes.items (range_with_len 0 count) }
        ensures kind { self.new.kind ≡ self.old.kind }
    {
        for node_index in 0..count {
            self.clear(node_index);
        }
    }

    /// Replaces the first slots by those of `front`, which is of the same kind. Empties the other slots of parents above
    /// leaf 0, in a tree of height `level`.
    pub(crate) fn put_front(&mut self, front: &Slots, level: u32)
        requires fewer { length front.now.hashes.items ≤ length self.old.hashes.items }
        requires low { level ≤ 20 }
        requires long { length self.old.hashes.items + 1 ≡ 2 * leaves_at level }
        requires kind { front.now.kind ≡ self.old.kind }
        ensures slots { (t : Tree) → IsPerfect t → height t ≡ level → self.new.hashes.items
            ≡ joined_slots front.now.hashes.items t self.old.hashes.items }
        ensures kind { self.new.kind ≡ self.old.kind }
    {
        self.blank_path(level, 0, 0);
        self.hashes.put_front(&front.hashes);
        self.empty = self.hashes.count_empty();
    }

    /// Drops all slots except the first `count`.
    pub(crate) fn truncate(&mut self, count: usize)
        ensures slots { self.new.hashes.items ≡ take count self.old.hashes.items }
        ensures kind { self.new.kind ≡ self.old.kind }
    {
        if count < self.hashes.len() {
            self.hashes.truncate(count);
            self.empty = self.hashes.count_empty();
        }
    }
}
