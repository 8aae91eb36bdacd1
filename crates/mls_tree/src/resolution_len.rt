//! A walk that counts the nodes of the resolution of a subtree (RFC 9420, 4.1.1) up to a given number.
//!
//! The walk is over a subtree, given by its height `level` and the index of its first leaf `first`. The depth of
//! recursion is at most 20. Each step gets the number of nodes still to be found, `left`, and returns what then
//! remains, or `None` as soon as it finds one node more.
ghost use Rattle.std.specs.Prelude.{◌≡◌, ℕ, ◌≤◌, ◌+◌, ◌*◌, ◌∷◌, [], length, IsTrue, option_copied};
ghost use Rattle.mls_nodes.specs.Limits.{leaf_limit};
ghost use Rattle.mls_tree.specs.TreeInternal.{leaves_at};
ghost use Rattle.mls_tree.specs.NodeArray.{tree_in};
ghost use Rattle.mls_tree.specs.Paths.{resolution, unmerged_node_indices, count_not_in};
ghost use Rattle.mls_tree.specs.Subtraction.{taken_off};
ghost use Rattle.mls_tree.specs.CountsModel.{AreCountsIfAny};

use crate::entries::{as_leaf, as_parent};
use crate::subtree_counts::{Count, count_of};
use crate::tree_size::leaves_of;
use mls_nodes::Node;
use std::collections::BTreeSet;

// Subtracts one for the node at `node_index`, unless it is in `without`.
fn take_one(without: &BTreeSet<u64>, node_index: u32, left: usize) -> Option<usize>
    ensures { result ≡ taken_off left (count_not_in without.now (node_index ∷ [])) }
{
    if without.contains(&u64::from(node_index)) {
        return Some(left);
    }
    left.checked_sub(1)
}

// Subtracts one for each unmerged leaf that the tree has, unless it is in `without`.
fn take_unmerged(
    without: &BTreeSet<u64>,
    leaves: u32,
    unmerged: &[u32],
    mut left: usize,
) -> Option<usize>
    requires { leaves ≤ leaf_limit }
    ensures { result
        ≡ taken_off left (count_not_in without.now (unmerged_node_indices leaves unmerged.now)) }
{
    for leaf in unmerged {
        if *leaf < leaves {
            left = take_one(without, 2 * *leaf, left)?;
        }
    }
    Some(left)
}

// Returns whether there are counts of the subtree's parents and they say that all its nodes are blank.
fn is_counted_empty(
    nodes: &[Option<Node>],
    counts: Option<&[Count]>,
    level: u32,
    first: u32,
) -> bool
    requires low { level ≤ 20 }
    requires inside { first + leaves_at level ≤ leaf_limit }
    requires long { 2 * (first + leaves_at level) ≤ length nodes.now + 1 }
    requires counts { AreCountsIfAny (option_copied counts) first (tree_in nodes.now level first) }
    ensures { IsTrue result → (leaves : ℕ)
        → resolution leaves first (tree_in nodes.now level first) ≡ [] }
{
    match counts {
        Some(counts) => count_of(nodes, counts, level, first).nodes == 0,
        None => false,
    }
}

/// Subtracts one for each node of the subtree's resolution, unless it is in `without`. `leaves` is the number of leaves
/// of the whole tree. Passes by subtrees of blank nodes, if there are counts.
pub(crate) fn take_resolution(
    nodes: &[Option<Node>],
    counts: Option<&[Count]>,
    without: &BTreeSet<u64>,
    leaves: u32,
    level: u32,
    first: u32,
    left: usize,
) -> Option<usize>
    requires low { level ≤ 20 }
    requires inside { first + leaves_at level ≤ leaf_limit }
    requires long { 2 * (first + leaves_at level) ≤ length nodes.now + 1 }
    requires leaves_low { leaves ≤ leaf_limit }
    requires counts { AreCountsIfAny (option_copied counts) first (tree_in nodes.now level first) }
    ensures { let node_indices = resolution leaves first (tree_in nodes.now level first) in
        result ≡ taken_off left (count_not_in without.now node_indices) }
{
    if level == 0 {
        return match as_leaf(&nodes[2 * first as usize]) {
            Some(_) => take_one(without, 2 * first, left),
            None => Some(left),
        };
    }
    if is_counted_empty(nodes, counts, level, first) {
        return Some(left);
    }
    let middle = first + leaves_of(level - 1);
    match as_parent(&nodes[2 * middle as usize - 1]) {
        Some(parent) => {
            let left = take_one(without, 2 * middle - 1, left)?;
            take_unmerged(without, leaves, parent.unmerged.as_slice(), left)
        }
        None => {
            let left = take_resolution(nodes, counts, without, leaves, level - 1, first, left)?;
            take_resolution(nodes, counts, without, leaves, level - 1, middle, left)
        }
    }
}
