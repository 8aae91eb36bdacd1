//! The Removes of a proposal list (RFC 9420, 12.1.3).

ghost use Rattle.std.specs.Prelude.{◌≡◌, ◌⊎◌, Some, None, Err, IsSome, OnOk, IfErr};
ghost use Rattle.mls_tree.specs.Tree.{leaf_at};
ghost use Rattle.mls_apply.specs.AppliedList.{after_removes};
ghost use Rattle.mls_tree.specs.TreeOperations.{put_leaf, blank_path};
ghost use Rattle.mls_tree.specs.Journals.{before};
ghost use Rattle.mls_tree.specs.LoggedHashes.{HasRightHashes};

use crate::fault::ApplyFault;
use crate::list_item::ListItem;
use mls_msgs::Proposal;
use mls_tree::{Journal, PublicTree};
use std::alloc::Global;

/// Makes a leaf and the parents above it blank. `NoSuchLeaf` if the leaf is blank.
#[tactic(auto, using(crate::proofs::Leaves::leaf_inside))]
fn clear_leaf(
    alloc: Global,
    tree: &mut PublicTree,
    journal: &mut Journal,
    index: u32,
) -> Result<(), ApplyFault>
    ensures set { OnOk result (IsSome (leaf_at 0 tree.old.tree index)) }
    ensures cleared { OnOk result
        (tree.new.tree ≡ blank_path (put_leaf 0 tree.old.tree index None) index) }
    ensures no_such_leaf { result ≡ Err ApplyFault.NoSuchLeaf
        → leaf_at 0 tree.old.tree index ≡ None }
    ensures possible_errors { IfErr result (λ e.
        (e ≡ ApplyFault.NoSuchLeaf) ⊎ (e ≡ ApplyFault.OutOfMemory)) }
    ensures before { before journal.new tree.new.tree ≡ before journal.old tree.old.tree }
    ensures hashes { HasRightHashes journal.old tree.old.tree → HasRightHashes journal.new tree.new.tree }
{
    if tree.leaf(index).is_none() {
        return Err(ApplyFault::NoSuchLeaf);
    }
    journal.set_leaf(tree, index, None)?;
    journal.blank_path(alloc, tree, index)?;
    Ok(())
}

/// Applies the Removes of a list, in its order. The tree is truncated once, after the last of them.
pub(crate) fn apply_removes(
    alloc: Global,
    tree: &mut PublicTree,
    journal: &mut Journal,
    items: &[ListItem<'_>],
) -> Result<(), ApplyFault>
    ensures removed { OnOk result (after_removes items.now tree.old.tree ≡ Some tree.new.tree) }
    ensures no_such_leaf { result ≡ Err ApplyFault.NoSuchLeaf
        → after_removes items.now tree.old.tree ≡ None }
    ensures possible_errors { IfErr result (λ e.
        (e ≡ ApplyFault.NoSuchLeaf) ⊎ (e ≡ ApplyFault.OutOfMemory)) }
    ensures before { before journal.new tree.new.tree ≡ before journal.old tree.old.tree }
    ensures hashes { HasRightHashes journal.old tree.old.tree → HasRightHashes journal.new tree.new.tree }
{
    let mut has_removed = false;
    for item in items {
        if let Proposal::Remove(index) = item.proposal {
            clear_leaf(alloc, tree, journal, *index)?;
            has_removed = true;
        }
    }
    if has_removed {
        journal.truncate(alloc, tree)?;
    }
    Ok(())
}
