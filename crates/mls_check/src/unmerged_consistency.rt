//! Whether unmerged leaves are consistent: each is a non-blank leaf below the parent, and every non-blank parent in
//! between lists it (RFC 9420, 12.4.3.1).
//!
//! A list is carried down if each of its leaves is listed by the next non-blank parent on the way down to it, or is
//! non-blank if there is none. If all lists are carried down, all are consistent: the next parent's list has the leaf, and
//! is carried down itself. So at first each list is compared with the next lists below it only. It is split at the middle
//! of each blank parent in between, and not passed to a subtree without entries.
//!
//! If one is not carried down, the first inconsistent one is looked for. A list is then compared with the list of each
//! non-blank parent on the way down to each of its leaves.

ghost use Rattle.std.specs.Prelude.{◌≡◌, ◌↔◌, IsTrue, IfSome};
ghost use Rattle.std.specs.Option.{option_copied};
ghost use Rattle.std.specs.List.{list_all};
ghost use Rattle.std.specs.List.Sorted.{IsStrictlyIncreasing};
ghost use Rattle.mls_tree.specs.Tree.{subtree_at};
ghost use Rattle.mls_check.specs.FirstFailureInternal.{IsFirstFailureIn};
ghost use Rattle.mls_check.specs.UnmergedLists.{HasStrictlyIncreasingLists, HasConsistentUnmergedAt, is_blank_or_lists, is_unmerged_in_all};
ghost use Rattle.mls_check.specs.UnmergedListsInternal.{HasSortedEntries};
ghost use Rattle.mls_check.specs.UnmergedInAll.{is_unmerged_in_all_at, is_listed_by_next_at, IsCarriedDownAt, AreCarriedDown};

use crate::node_count::node_index_count;
use crate::sorted_leaf_lists::{are_among, is_only};
use mls_nodes::ParentNode;
use mls_tree::{Part, PublicTree, split_leaves};

/// Returns whether each of the leaves is in the subtree at a node index, and is listed by the next non-blank parent on the
/// way down to it, or is non-blank if there is none.
fn are_listed_by_next(tree: &PublicTree, leaves: &[u32], node_index: u32) -> bool
    requires sorted { HasStrictlyIncreasingLists tree.now.tree }
    requires increasing { IsStrictlyIncreasing leaves.now }
    ensures { result ≡ list_all
        (λ i. is_listed_by_next_at (subtree_at 0 tree.now.tree node_index) i) leaves.now }
{
    if leaves.is_empty() {
        return true;
    }
    match tree.part(node_index) {
        None => false,
        Some(Part::Leaf { index, node }) => is_only(leaves, index) && node.is_some(),
        Some(
            Part::Parent {
                node: Some(parent),
                ..
            },
        ) => are_among(leaves, parent.unmerged.as_slice()),
        Some(
            Part::Parent {
                node: None,
                left,
                right,
                middle,
            },
        ) => {
            let (before, after) = split_leaves(leaves, middle);
            are_listed_by_next(tree, before, left) && are_listed_by_next(tree, after, right)
        }
    }
}

/// Returns whether the unmerged list of the parent at a node index is carried down, or there is none.
fn is_carried_down(tree: &PublicTree, node_index: u32) -> bool
    requires { HasStrictlyIncreasingLists tree.now.tree }
    ensures { IsTrue result ↔ IsCarriedDownAt tree.now.tree node_index }
{
    let Some(
        Part::Parent {
            node: Some(parent),
            left,
            right,
            middle,
        },
    ) = tree.part(node_index)
    else {
        return true;
    };
    let (before, after) = split_leaves(parent.unmerged.as_slice(), middle);
    are_listed_by_next(tree, before, left) && are_listed_by_next(tree, after, right)
}

/// Returns whether each unmerged list is carried down.
fn are_carried_down(tree: &PublicTree) -> bool
    requires { HasStrictlyIncreasingLists tree.now.tree }
    ensures { IsTrue result ↔ AreCarriedDown tree.now.tree }
{
    for node_index in 0..node_index_count(tree) {
        if !is_carried_down(tree, node_index) {
            return false;
        }
    }
    true
}

/// Returns whether a parent has each of the leaves in its unmerged list, or is blank.
fn lists_all(parent: Option<&ParentNode>, leaves: &[u32]) -> bool
    requires sorted { HasSortedEntries (option_copied parent) }
    requires increasing { IsStrictlyIncreasing leaves.now }
    ensures { result ≡ list_all (λ i. is_blank_or_lists (option_copied parent.entry) i) leaves.now }
{
    match parent {
        Some(parent) => are_among(leaves, parent.unmerged.as_slice()),
        None => true,
    }
}

/// Returns whether each of the leaves is non-blank, in the subtree at a node index, and listed by each non-blank parent
/// from there down to it.
fn are_unmerged_in_all(tree: &PublicTree, leaves: &[u32], node_index: u32) -> bool
    requires sorted { HasStrictlyIncreasingLists tree.now.tree }
    requires increasing { IsStrictlyIncreasing leaves.now }
    ensures { result ≡ list_all
        (λ i. is_unmerged_in_all_at (subtree_at 0 tree.now.tree node_index) i) leaves.now }
{
    if leaves.is_empty() {
        return true;
    }
    match tree.part(node_index) {
        None => false,
        Some(Part::Leaf { index, node }) => is_only(leaves, index) && node.is_some(),
        Some(
            Part::Parent {
                node,
                left,
                right,
                middle,
            },
        ) => {
            if !lists_all(node, leaves) {
                return false;
            }
            let (before, after) = split_leaves(leaves, middle);
            are_unmerged_in_all(tree, before, left) && are_unmerged_in_all(tree, after, right)
        }
    }
}

/// Returns whether the unmerged leaves of the parent at a node index are consistent.
fn has_consistent_unmerged_at(tree: &PublicTree, node_index: u32) -> bool
    requires { HasStrictlyIncreasingLists tree.now.tree }
    ensures { IsTrue result ↔ HasConsistentUnmergedAt tree.now.tree node_index }
{
    let Some(
        Part::Parent {
            node: Some(parent),
            ..
        },
    ) = tree.part(node_index)
    else {
        return true;
    };
    are_unmerged_in_all(tree, parent.unmerged.as_slice(), node_index)
}

/// Returns the first node index of a parent whose unmerged leaves are not consistent.
pub(crate) fn first_inconsistent_unmerged(tree: &PublicTree) -> Option<u32>
    requires { HasStrictlyIncreasingLists tree.now.tree }
    ensures { IsFirstFailureIn (HasConsistentUnmergedAt tree.now.tree) result }
{
    if are_carried_down(tree) {
        return None;
    }
    for node_index in 0..node_index_count(tree) {
        if !has_consistent_unmerged_at(tree, node_index) {
            return Some(node_index);
        }
    }
    None
}
