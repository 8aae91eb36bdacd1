//! Whether and where a proposal list can be applied to a tree (RFC 9420, 12.3).

ghost use Rattle.std.specs.Prelude.{◌≡◌, Err, None, IfOk, IsSome, OnOk};
ghost use Rattle.mls_tree.specs.Journals.{before};
ghost use Rattle.mls_tree.specs.LoggedHashes.{HasRightHashes};
ghost use Rattle.mls_apply.specs.AppliedList.{outcome, without_adds, ExceedsCapacity};
ghost use Rattle.mls_apply.specs.Outline.{IsOutline};

use crate::adds::fit_adds;
use crate::capacity::exceeds_capacity;
use crate::fault::ApplyFault;
use crate::list_application::Leaves;
use crate::list_item::ListItem;
use crate::removes::apply_removes;
use crate::updates::apply_updates;
use mls_tree::{Journal, PublicTree};
use std::alloc::Global;

/// Applies the Updates and Removes of a list, for whose Adds the tree has capacity. Returns the leaves that the Adds would add.
fn fit_items(
    alloc: Global,
    tree: &mut PublicTree,
    journal: &mut Journal,
    items: &[ListItem<'_>],
) -> Result<Leaves, ApplyFault>
    requires { ExceedsCapacity items.now tree.old.tree → ⊥ }
    ensures fit { OnOk result (IsSome (outcome items.now tree.old.tree)) }
    ensures outline { IfOk result (λ added.
        IsOutline (outcome items.now tree.old.tree) added tree.new.tree) }
    ensures no_such_leaf { result ≡ Err ApplyFault.NoSuchLeaf
        → without_adds items.now tree.old.tree ≡ None }
    ensures too_many_leaves { result ≡ Err ApplyFault.TooManyLeaves
        → IsSome (without_adds items.now tree.old.tree) × (outcome items.now tree.old.tree ≡ None) }
    ensures before { before journal.new tree.new.tree ≡ before journal.old tree.old.tree }
    ensures hashes { HasRightHashes journal.old tree.old.tree → HasRightHashes journal.new tree.new.tree }
{
    apply_updates(alloc, tree, journal, items)?;
    apply_removes(alloc, tree, journal, items)?;
    fit_adds(alloc, tree, items)
}

/// Checks whether a proposal list can be applied, and returns the leaves that its Adds would add. The Updates and Removes are
/// applied to the tree in place, the Adds are not. The journal logs what is changed. Whatever is returned, the tree is not the
/// one after the list, and its changes have to be undone.
pub(crate) fn check_list_fits(
    alloc: Global,
    tree: &mut PublicTree,
    journal: &mut Journal,
    items: &[ListItem<'_>],
) -> Result<Leaves, ApplyFault>
    ensures fit { OnOk result (IsSome (outcome items.now tree.old.tree)) }
    ensures outline { IfOk result (λ added.
        IsOutline (outcome items.now tree.old.tree) added tree.new.tree) }
    ensures no_such_leaf { result ≡ Err ApplyFault.NoSuchLeaf
        → without_adds items.now tree.old.tree ≡ None }
    ensures too_many_leaves { result ≡ Err ApplyFault.TooManyLeaves
        → IsSome (without_adds items.now tree.old.tree) × (outcome items.now tree.old.tree ≡ None) }
    ensures before { before journal.new tree.new.tree ≡ before journal.old tree.old.tree }
    ensures hashes { HasRightHashes journal.old tree.old.tree → HasRightHashes journal.new tree.new.tree }
{
    if exceeds_capacity(tree, items) {
        return Err(ApplyFault::TooManyLeaves);
    }
    fit_items(alloc, tree, journal, items)
}
