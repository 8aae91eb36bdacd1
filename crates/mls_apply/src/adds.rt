//! The Adds of a proposal list (RFC 9420, 12.1.1).

ghost use Rattle.std.specs.Prelude.{◌≡◌, ◌+◌, ◌<◌, ◌≤◌, ◌⊎◌, true, false, All, None, Some, IsSome, Err, IfOk, IfErr, OnOk, length, max};
ghost use Rattle.std.specs.List.Sorted.{IsStrictlyIncreasing};
ghost use Rattle.mls_nodes.specs.Limits.{leaf_limit};
ghost use Rattle.mls_tree.specs.Tree.{leaf_count, member_count};
ghost use Rattle.mls_tree.specs.BlankLeaves.{first_blank_leaf, next_blank_leaf, AreNonBlankBelow};
ghost use Rattle.mls_tree.specs.TreeOperations.{added_leaf, extended_if_full, add_all_unmerged, overfills, number_or};
ghost use Rattle.mls_tree.specs.Journals.{before};
ghost use Rattle.mls_tree.specs.LoggedHashes.{HasRightHashes};
ghost use Rattle.mls_apply.specs.AppliedList.{after_adds, applied_tree, new_members};
ghost use Rattle.mls_apply.specs.AddSteps.{PutsMember};
ghost use Rattle.mls_apply.specs.Outline.{IsOutline};

use crate::fault::ApplyFault;
use crate::leaf_changes::put_shared;
use crate::list_application::Leaves;
use crate::list_item::ListItem;
use mls_msgs::Proposal;
use mls_nodes::EncodedLeaf;
use mls_tree::{Journal, PublicTree, TreeError, split_leaves};
use mls_wire::Shared;
use std::alloc::{AllocError, Global};

/// Returns the leaf of a new member: the leftmost blank one, otherwise the first one by which the tree is extended. The
/// leaves before `start` must be non-blank.
pub(crate) fn leaf_for_member(
    tree: &mut PublicTree,
    journal: &mut Journal,
    start: u32,
) -> Result<u32, AllocError>
    requires set { AreNonBlankBelow tree.old.tree start }
    requires capacity { member_count tree.old.tree < leaf_limit }
    ensures index { IfOk result (λ j. j ≡ added_leaf tree.old.tree) }
    ensures inside { IfOk result (λ j. j < leaf_count tree.new.tree) }
    ensures tree { OnOk result
        (tree.new.tree ≡ extended_if_full (first_blank_leaf 0 tree.old.tree) tree.old.tree) }
    ensures before { before journal.new tree.new.tree ≡ before journal.old tree.old.tree }
    ensures hashes { HasRightHashes journal.old tree.old.tree → HasRightHashes journal.new tree.new.tree }
{
    if let Some(index) = tree.next_blank_leaf(start) {
        return Ok(index);
    }
    let index = tree.leaf_count();
    match journal.extend(tree) {
        Ok(()) => Ok(index),
        Err(TreeError::OutOfMemory) => Err(AllocError),
        Err(_) => unreachable!(),
    }
}

/// Puts this leaf node at the leaf of a new member, and returns the leaf index. The unmerged lists are unchanged. The leaves
/// before `start` must be non-blank.
fn put_member(
    alloc: Global,
    tree: &mut PublicTree,
    journal: &mut Journal,
    start: u32,
    leaf: &Shared<EncodedLeaf>,
) -> Result<u32, AllocError>
    requires set { AreNonBlankBelow tree.old.tree start }
    requires capacity { member_count tree.old.tree < leaf_limit }
    ensures put { IfOk result (λ j. PutsMember tree.old.tree leaf.now j tree.new.tree) }
    ensures before { before journal.new tree.new.tree ≡ before journal.old tree.old.tree }
    ensures hashes { HasRightHashes journal.old tree.old.tree → HasRightHashes journal.new tree.new.tree }
{
    let index = leaf_for_member(tree, journal, start)?;
    put_shared(alloc, tree, journal, index, leaf)?;
    Ok(index)
}

/// Adds these leaf indices to the unmerged lists above them. `TooManyLeaves` if one of them would be too long.
fn add_unmerged(
    alloc: Global,
    tree: &mut PublicTree,
    journal: &mut Journal,
    added: &[u32],
) -> Result<(), ApplyFault>
    requires increasing { IsStrictlyIncreasing added.now }
    requires inside { All (λ i. i < leaf_count tree.old.tree) added.now }
    ensures in_lists { OnOk result (tree.new.tree ≡ add_all_unmerged added.now tree.old.tree) }
    ensures fits { OnOk result (overfills added.now tree.old.tree ≡ false) }
    ensures too_many_leaves { result ≡ Err ApplyFault.TooManyLeaves
        → overfills added.now tree.old.tree ≡ true }
    ensures possible_errors { IfErr result (λ e.
        (e ≡ ApplyFault.TooManyLeaves) ⊎ (e ≡ ApplyFault.OutOfMemory)) }
    ensures before { before journal.new tree.new.tree ≡ before journal.old tree.old.tree }
    ensures hashes { HasRightHashes journal.old tree.old.tree → HasRightHashes journal.new tree.new.tree }
{
    match journal.add_all_unmerged(alloc, tree, added) {
        Ok(()) => Ok(()),
        Err(TreeError::TooManyLeaves) => Err(ApplyFault::TooManyLeaves),
        Err(TreeError::OutOfMemory) => Err(ApplyFault::OutOfMemory),
        Err(_) => unreachable!(),
    }
}

/// Applies the Adds of a list, in its order, and returns their leaves. Each search for a blank leaf continues after the
/// leaf that was added last. The leaf nodes are put in place first, then the leaf indices are added to the unmerged lists at
/// once. Which leaves are blank does not depend on these lists.
pub(crate) fn apply_adds(
    alloc: Global,
    tree: &mut PublicTree,
    journal: &mut Journal,
    items: &[ListItem<'_>],
) -> Result<Leaves, ApplyFault>
    requires { member_count tree.old.tree + length (new_members items.now) ≤ leaf_limit }
    ensures added { IfOk result (λ added.
        after_adds (new_members items.now) tree.old.tree ≡ Some (applied_tree tree.new.tree added)) }
    ensures too_many_leaves { result ≡ Err ApplyFault.TooManyLeaves
        → after_adds (new_members items.now) tree.old.tree ≡ None }
    ensures possible_errors { IfErr result (λ e.
        (e ≡ ApplyFault.TooManyLeaves) ⊎ (e ≡ ApplyFault.OutOfMemory)) }
    ensures before { before journal.new tree.new.tree ≡ before journal.old tree.old.tree }
    ensures hashes { HasRightHashes journal.old tree.old.tree → HasRightHashes journal.new tree.new.tree }
{
    let mut added = Vec::new(alloc);
    let mut start = 0;
    for item in items {
        if let Proposal::Add(key_package) = item.proposal {
            let index = put_member(alloc, tree, journal, start, &key_package.leaf_node)?;
            added.push(index)?;
            start = index + 1;
        }
    }
    add_unmerged(alloc, tree, journal, added.as_slice())?;
    Ok(Leaves::new(added))
}

/// Returns the leftmost blank leaf of a tree from `start` on. If there is none, the first leaf index from `start` on that the
/// tree lacks.
fn leaf_from(tree: &PublicTree, start: u32) -> u32
    ensures { result ≡ number_or (max start (leaf_count tree.now.tree)) (next_blank_leaf start 0 tree.now.tree) }
{
    match tree.next_blank_leaf(start) {
        Some(index) => index,
        None => start.max(tree.leaf_count()),
    }
}

/// Checks that these leaf indices can be added to the unmerged lists above them. They must be strictly increasing.
/// `TooManyLeaves` if one of the lists would be too long.
fn check_lists(alloc: Global, tree: &PublicTree, added: &[u32]) -> Result<(), ApplyFault>
    requires { IsStrictlyIncreasing added.now }
    ensures fits { OnOk result (overfills added.now tree.now.tree ≡ false) }
    ensures too_many_leaves { result ≡ Err ApplyFault.TooManyLeaves
        → overfills added.now tree.now.tree ≡ true }
    ensures possible_errors { IfErr result (λ e.
        (e ≡ ApplyFault.TooManyLeaves) ⊎ (e ≡ ApplyFault.OutOfMemory)) }
{
    match tree.check_unmerged_fit(alloc, added) {
        Ok(()) => Ok(()),
        Err(TreeError::TooManyLeaves) => Err(ApplyFault::TooManyLeaves),
        Err(TreeError::OutOfMemory) => Err(ApplyFault::OutOfMemory),
        Err(_) => unreachable!(),
    }
}

/// Returns the leaves that [`apply_adds`] would add. The call fails if and only if `apply_adds` does, except for memory.
///
/// The tree is not extended: the leaves that it lacks are blank, and no unmerged list contains them.
pub(crate) fn fit_adds(
    alloc: Global,
    tree: &PublicTree,
    items: &[ListItem<'_>],
) -> Result<Leaves, ApplyFault>
    requires { member_count tree.now.tree + length (new_members items.now) ≤ leaf_limit }
    ensures fit { OnOk result (IsSome (after_adds (new_members items.now) tree.now.tree)) }
    ensures outline { IfOk result (λ added.
        IsOutline (after_adds (new_members items.now) tree.now.tree) added tree.now.tree) }
    ensures too_many_leaves { result ≡ Err ApplyFault.TooManyLeaves
        → after_adds (new_members items.now) tree.now.tree ≡ None }
    ensures possible_errors { IfErr result (λ e.
        (e ≡ ApplyFault.TooManyLeaves) ⊎ (e ≡ ApplyFault.OutOfMemory)) }
{
    let mut added = Vec::new(alloc);
    let mut start = 0;
    for item in items {
        if let Proposal::Add(_) = item.proposal {
            let index = leaf_from(tree, start);
            added.push(index)?;
            start = index + 1;
        }
    }
    let (inside, _) = split_leaves(added.as_slice(), tree.leaf_count());
    check_lists(alloc, tree, inside)?;
    Ok(Leaves::new(added))
}
