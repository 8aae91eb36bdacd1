//! The tree after the proposals of a commit (RFC 9420, 12.3).

ghost use Rattle.std.specs.Prelude.{◌≡◌, Err, Some, None, IfOk, IsSome};
ghost use Rattle.mls_tree.specs.Journals.{before};
ghost use Rattle.mls_tree.specs.LoggedHashes.{HasRightHashes};
ghost use Rattle.mls_apply.specs.AppliedList.{outcome, without_adds, applied_tree, ExceedsCapacity};

use crate::adds::apply_adds;
use crate::capacity::exceeds_capacity;
use crate::fault::ApplyFault;
use crate::list_item::ListItem;
use crate::removes::apply_removes;
use crate::updates::apply_updates;
use mls_tree::{Journal, PublicTree};
use mls_wire::Sequence;
use std::alloc::Global;

/// Leaf indices.
pub type Leaves = Sequence<u32>;

/// A tree after the proposals of a commit.
#[derive(Debug, Drop)]
pub struct Applied {
    /// The tree.
    pub tree: PublicTree,
    /// The leaves of the list's Adds, in its order.
    pub added: Leaves,
}

/// Applies the items of a list, for whose Adds the tree has capacity.
fn apply_items(
    alloc: Global,
    tree: &mut PublicTree,
    journal: &mut Journal,
    items: &[ListItem<'_>],
) -> Result<Leaves, ApplyFault>
    requires { ExceedsCapacity items.now tree.old.tree → ⊥ }
    ensures applied { IfOk result (λ added.
        outcome items.now tree.old.tree ≡ Some (applied_tree tree.new.tree added)) }
    ensures no_such_leaf { result ≡ Err ApplyFault.NoSuchLeaf
        → without_adds items.now tree.old.tree ≡ None }
    ensures too_many_leaves { result ≡ Err ApplyFault.TooManyLeaves
        → IsSome (without_adds items.now tree.old.tree) × (outcome items.now tree.old.tree ≡ None) }
    ensures before { before journal.new tree.new.tree ≡ before journal.old tree.old.tree }
    ensures hashes { HasRightHashes journal.old tree.old.tree → HasRightHashes journal.new tree.new.tree }
{
    apply_updates(alloc, tree, journal, items)?;
    apply_removes(alloc, tree, journal, items)?;
    apply_adds(alloc, tree, journal, items)
}

/// Applies a proposal list to a tree in place, as [`apply_list`] does to a copy, and returns the added leaves. The
/// journal logs what is changed. On any error a part of the list may have been applied.
pub fn apply_list_in_place(
    alloc: Global,
    tree: &mut PublicTree,
    journal: &mut Journal,
    items: &[ListItem<'_>],
) -> Result<Leaves, ApplyFault>
    ensures applied { IfOk result (λ added.
        outcome items.now tree.old.tree ≡ Some (applied_tree tree.new.tree added)) }
    ensures no_such_leaf { result ≡ Err ApplyFault.NoSuchLeaf
        → without_adds items.now tree.old.tree ≡ None }
    ensures too_many_leaves { result ≡ Err ApplyFault.TooManyLeaves
        → IsSome (without_adds items.now tree.old.tree) × (outcome items.now tree.old.tree ≡ None) }
    ensures no_room { ExceedsCapacity items.now tree.old.tree → result ≡ Err ApplyFault.TooManyLeaves }
    ensures before { before journal.new tree.new.tree ≡ before journal.old tree.old.tree }
    ensures hashes { HasRightHashes journal.old tree.old.tree → HasRightHashes journal.new tree.new.tree }
{
    if exceeds_capacity(tree, items) {
        return Err(ApplyFault::TooManyLeaves);
    }
    apply_items(alloc, tree, journal, items)
}

/// Returns the tree after a proposal list (RFC 9420, 12.3): its Updates, then its Removes, then its Adds, each kind in
/// the order of the list. Other proposals change no tree. The tree that is passed is unchanged.
///
/// # Errors
///
/// `NoSuchLeaf` if the leaf of an Update or a Remove is blank when it is applied, or an Update is from no member. Else
/// `TooManyLeaves` if there would be more than 1,048,576 members, or too many entries in an unmerged list; or
/// `OutOfMemory`. Whether there would be too many members is checked before anything is allocated.
pub fn apply_list(
    alloc: Global,
    tree: &PublicTree,
    items: &[ListItem<'_>],
) -> Result<Applied, ApplyFault>
    ensures applied { IfOk result (λ a.
        outcome items.now tree.now.tree ≡ Some (applied_tree a.tree.tree a.added)) }
    ensures no_such_leaf { result ≡ Err ApplyFault.NoSuchLeaf
        → without_adds items.now tree.now.tree ≡ None }
    ensures too_many_leaves { result ≡ Err ApplyFault.TooManyLeaves
        → IsSome (without_adds items.now tree.now.tree) × (outcome items.now tree.now.tree ≡ None) }
    ensures no_room { ExceedsCapacity items.now tree.now.tree → result ≡ Err ApplyFault.TooManyLeaves }
{
    if exceeds_capacity(tree, items) {
        return Err(ApplyFault::TooManyLeaves);
    }
    let mut after = tree.try_clone(alloc)?;
    let mut journal = Journal::new(alloc);
    match apply_items(alloc, &mut after, &mut journal, items) {
        Ok(added) => Ok(Applied { tree: after, added }),
        Err(fault) => Err(fault),
    }
}
