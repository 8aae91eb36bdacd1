//! The Updates of a proposal list (RFC 9420, 12.1.2).

ghost use Rattle.std.specs.Prelude.{◌≡◌, ◌⊎◌, ◌∷◌, List, Some, None, Err, IfErr, IsSome, OnOk};
ghost use Rattle.mls_tree.specs.Tree.{Tree, leaf_at};
ghost use Rattle.mls_tree.specs.TreeOperations.{update};
ghost use Rattle.mls_tree.specs.Journals.{before};
ghost use Rattle.mls_tree.specs.LoggedHashes.{HasRightHashes};
ghost use Rattle.mls_apply.specs.AppliedList.{after_updates};
ghost use Rattle.mls_apply.specs.LastUpdates.{AreApplied};
ghost use Rattle.mls_apply.specs.declared.list_item.ListItem.{ListItem as Item};

use crate::fault::ApplyFault;
use crate::leaf_changes::put_shared;
use crate::list_item::ListItem;
use crate::senders::member_index;
use mls_msgs::Proposal;
use mls_nodes::EncodedLeaf;
use mls_tree::{Journal, PublicTree};
use mls_wire::Shared;
use std::alloc::{AllocError, Global};
use std::collections::BTreeSet;

/// Replaces a non-blank leaf by a leaf node, which is shared, and makes the parents above it blank.
fn replace_leaf(
    alloc: Global,
    tree: &mut PublicTree,
    journal: &mut Journal,
    index: u32,
    leaf: &Shared<EncodedLeaf>,
) -> Result<(), AllocError>
    requires { IsSome (leaf_at 0 tree.old.tree index) }
    ensures updated { OnOk result (tree.new.tree ≡ update tree.old.tree index leaf.now) }
    ensures before { before journal.new tree.new.tree ≡ before journal.old tree.old.tree }
    ensures hashes { HasRightHashes journal.old tree.old.tree → HasRightHashes journal.new tree.new.tree }
{
    put_shared(alloc, tree, journal, index, leaf)?;
    journal.blank_path(alloc, tree, index)?;
    Ok(())
}

/// Applies an item if it is an Update: its sender's leaf is replaced, and the parents above it become blank. The Updates that
/// follow it in the list must be applied. If one of them is of the same member, its leaf node stays. `replaced` has the leaf
/// indices of their senders. `NoSuchLeaf` if the sender is no member, or its leaf is blank.
fn apply_update(
    alloc: Global,
    tree: &mut PublicTree,
    journal: &mut Journal,
    replaced: &mut BTreeSet<u32>,
    item: &ListItem<'_>,
) -> Result<(), ApplyFault>
    ensures applied { (rest : List Item) (t : Tree)
        → AreApplied rest t replaced.old tree.old.tree
        → OnOk result (AreApplied (item.now ∷ rest) t replaced.new tree.new.tree) }
    ensures no_such_leaf { result ≡ Err ApplyFault.NoSuchLeaf
        → (rest : List Item) (t : Tree) → AreApplied rest t replaced.old tree.old.tree
        → after_updates (item.now ∷ rest) t ≡ None }
    ensures possible_errors { IfErr result (λ e.
        (e ≡ ApplyFault.NoSuchLeaf) ⊎ (e ≡ ApplyFault.OutOfMemory)) }
    ensures before { before journal.new tree.new.tree ≡ before journal.old tree.old.tree }
    ensures hashes { HasRightHashes journal.old tree.old.tree → HasRightHashes journal.new tree.new.tree }
{
    let Proposal::Update(leaf) = item.proposal else {
        return Ok(());
    };
    let Some(sender) = member_index(item.sender) else {
        return Err(ApplyFault::NoSuchLeaf);
    };
    if tree.leaf(sender).is_none() {
        return Err(ApplyFault::NoSuchLeaf);
    }
    if replaced.insert(sender)? {
        replace_leaf(alloc, tree, journal, sender, leaf)?;
    }
    Ok(())
}

/// Applies the Updates of a list. Of a leaf that several Updates replace, only the last one's leaf node is put in place: the
/// list is walked from its end.
pub(crate) fn apply_updates(
    alloc: Global,
    tree: &mut PublicTree,
    journal: &mut Journal,
    items: &[ListItem<'_>],
) -> Result<(), ApplyFault>
    ensures updated { OnOk result (after_updates items.now tree.old.tree ≡ Some tree.new.tree) }
    ensures no_such_leaf { result ≡ Err ApplyFault.NoSuchLeaf
        → after_updates items.now tree.old.tree ≡ None }
    ensures possible_errors { IfErr result (λ e.
        (e ≡ ApplyFault.NoSuchLeaf) ⊎ (e ≡ ApplyFault.OutOfMemory)) }
    ensures before { before journal.new tree.new.tree ≡ before journal.old tree.old.tree }
    ensures hashes { HasRightHashes journal.old tree.old.tree → HasRightHashes journal.new tree.new.tree }
{
    let mut replaced = BTreeSet::new(alloc);
    for index in (0..items.len()).rev() {
        apply_update(alloc, tree, journal, &mut replaced, &items[index])?;
    }
    Ok(())
}
