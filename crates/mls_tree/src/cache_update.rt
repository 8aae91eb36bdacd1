//! The optional cache of a tree's hashes, changed as the tree is changed.
ghost use Rattle.std.specs.Prelude.{◌≡◌, ◌*◌, ◌∷◌, ◌++◌, ◌<◌, ◌≤◌, Some, OnOk, IfOk, IfSome, take};
ghost use Rattle.std.specs.List.{range_with_len};
ghost use Rattle.mls_tree.specs.Tree.{Tree, height, IsPerfect};
ghost use Rattle.mls_tree.specs.TreeInternal.{leaves_at};
ghost use Rattle.mls_tree.specs.Paths.{direct_path};
ghost use Rattle.mls_tree.specs.HashCache.{emptied, parents_from, extended};
ghost use Rattle.mls_tree.specs.HashCacheInternal.{joined_slots};
ghost use Rattle.mls_tree.specs.CacheModel.{kind_in, slots_in, IsOfHeight, HasCapacity, HasMoreThan, AreFewer};

use crate::hash_cache::Slots;
use std::alloc::{AllocError, Global};

/// Returns a copy of the slots, if there are any.
pub(crate) fn clone_slots(alloc: Global, slots: &Option<Slots>) -> Result<Option<Slots>, AllocError>
    ensures { IfOk result (λ c. (kind_in c ≡ kind_in slots.now) × (slots_in c ≡ slots_in slots.now)) }
{
    match slots {
        Some(slots) => Ok(Some(slots.try_clone(alloc)?)),
        None => Ok(None),
    }
}

/// Empties the slots of a leaf and of the parents above it. `level` is the tree's height.
pub(crate) fn empty_leaf(slots: &mut Option<Slots>, level: u32, index: u32)
    requires low { level ≤ 20 }
    requires inside { index < leaves_at level }
    requires long { IsOfHeight level slots.old }
    ensures slots { (t : Tree) → IsPerfect t → height t ≡ level
        → slots_in slots.new ≡ emptied (slots_in slots.old) (2 * index ∷ direct_path 0 t index) }
    ensures kind { kind_in slots.new ≡ kind_in slots.old }
{
    let Some(slots) = slots else {
        return;
    };
    slots.clear(2 * index);
    slots.blank_path(level, 0, index);
}

/// Empties the slots of the parents above a leaf. `level` is the tree's height.
pub(crate) fn empty_path(slots: &mut Option<Slots>, level: u32, index: u32)
    requires low { level ≤ 20 }
    requires long { IsOfHeight level slots.old }
    ensures slots { (t : Tree) → IsPerfect t → height t ≡ level
        → slots_in slots.new ≡ emptied (slots_in slots.old) (direct_path 0 t index) }
    ensures kind { kind_in slots.new ≡ kind_in slots.old }
{
    let Some(slots) = slots else {
        return;
    };
    slots.blank_path(level, 0, index);
}

/// Empties the slots of the parent at node index `node_index` and of the parents above it. `level` is the tree's
/// height.
pub(crate) fn empty_parents(slots: &mut Option<Slots>, level: u32, node_index: u32)
    requires low { level ≤ 20 }
    requires long { IsOfHeight level slots.old }
    ensures slots { (t : Tree) → IsPerfect t → height t ≡ level
        → slots_in slots.new ≡ emptied (slots_in slots.old) (parents_from 0 t node_index) }
    ensures kind { kind_in slots.new ≡ kind_in slots.old }
{
    let Some(slots) = slots else {
        return;
    };
    slots.clear_from(level, 0, node_index);
}

/// Reserves capacity for the slots of a tree twice as large.
pub(crate) fn reserve_double(slots: &mut Option<Slots>) -> Result<(), AllocError>
    ensures capacity { OnOk result (HasCapacity slots.new) }
    ensures slots { slots_in slots.new ≡ slots_in slots.old }
    ensures kind { kind_in slots.new ≡ kind_in slots.old }
{
    let Some(slots) = slots else {
        return Ok(());
    };
    slots.hashes.reserve_double()
}

/// Appends empty slots for the new nodes of a tree twice as large.
pub(crate) fn double(slots: &mut Option<Slots>)
    requires { HasCapacity slots.old }
    ensures slots { slots_in slots.new ≡ extended (kind_in slots.old) (slots_in slots.old) }
    ensures kind { kind_in slots.new ≡ kind_in slots.old }
{
    let Some(slots) = slots else {
        return;
    };
    slots.double();
}

/// Returns a copy of the first `count` slots, if there is a cache.
pub(crate) fn clone_front(
    alloc: Global,
    slots: &Option<Slots>,
    count: usize,
) -> Result<Option<Slots>, AllocError>
    requires { HasMoreThan count slots.now }
    ensures { IfOk result (λ c. (kind_in c ≡ kind_in slots.now)
        × (slots_in c ≡ take count (slots_in slots.now))) }
{
    match slots {
        Some(slots) => Ok(Some(slots.front(alloc, count)?)),
        None => Ok(None),
    }
}

/// Empties the first `count` slots and those of the parents above leaf 0. `level` is the tree's height.
pub(crate) fn empty_front(slots: &mut Option<Slots>, count: u32, level: u32)
    requires few { HasMoreThan count slots.old }
    requires low { level ≤ 20 }
    requires long { IsOfHeight level slots.old }
    ensures slots { (t : Tree) → IsPerfect t → height t ≡ level → slots_in slots.new
        ≡ emptied (slots_in slots.old) (range_with_len 0 count ++ direct_path 0 t 0) }
    ensures kind { kind_in slots.new ≡ kind_in slots.old }
{
    let Some(slots) = slots else {
        return;
    };
    slots.clear_front(count);
    slots.blank_path(level, 0, 0);
}

/// Returns the cache of a tree that becomes the leftmost subtree of another one, whose other subtrees have their slots
/// still. `level` is the other tree's height. `None` if the two caches are not of one kind. Does not allocate.
pub(crate) fn join_slots(slots: Option<Slots>, whole: Option<Slots>, level: u32) -> Option<Slots>
    requires fewer { AreFewer slots whole }
    requires low { level ≤ 20 }
    requires long { IsOfHeight level whole }
    ensures joined_slots { IfSome result (λ c. (kind_in slots ≡ Some c.kind) × (kind_in whole ≡ Some c.kind)
        × ((t : Tree) → IsPerfect t → height t ≡ level
        → c.hashes.items ≡ joined_slots (slots_in slots) t (slots_in whole))) }
{
    let Some(slots) = slots else {
        return None;
    };
    let Some(mut whole) = whole else {
        return None;
    };
    if slots.kind != whole.kind {
        return None;
    }
    whole.put_front(&slots, level);
    Some(whole)
}

/// Retains the first `count` slots.
pub(crate) fn truncate(slots: &mut Option<Slots>, count: usize)
    ensures slots { slots_in slots.new ≡ take count (slots_in slots.old) }
    ensures kind { kind_in slots.new ≡ kind_in slots.old }
{
    let Some(slots) = slots else {
        return;
    };
    slots.truncate(count);
}
