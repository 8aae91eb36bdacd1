//! Walks that collect the resolution of a subtree (RFC 9420, 4.1.1).
//!
//! Each walk is over a subtree, given by its height `level` and the index of its first leaf `first`. The depth of
//! recursion is at most 20.
ghost use Rattle.std.specs.Prelude.{◌≡◌, ◌≢◌, ℕ, ◌≤◌, ◌+◌, ◌*◌, [], ◌++◌, length, OnOk, IsTrue, ◌↔◌, option_copied};
ghost use Rattle.mls_nodes.specs.Limits.{leaf_limit};
ghost use Rattle.mls_tree.specs.TreeInternal.{leaves_at};
ghost use Rattle.mls_tree.specs.NodeArray.{tree_in};
ghost use Rattle.mls_tree.specs.Paths.{resolution, unmerged_node_indices};
ghost use Rattle.mls_tree.specs.CountsModel.{AreCountsIfAny};

use crate::entries::{as_leaf, as_parent};
use crate::subtree_counts::{Count, count_of};
use crate::tree_size::leaves_of;
use mls_nodes::Node;
use std::alloc::AllocError;

// Appends the node indices of unmerged leaves, without those that the tree doesn't have.
fn push_unmerged(out: &mut Vec<u32>, leaves: u32, unmerged: &[u32]) -> Result<(), AllocError>
    requires { leaves ≤ leaf_limit }
    ensures { OnOk result (out.new.items ≡ out.old.items ++ unmerged_node_indices leaves unmerged.now) }
{
    for leaf in unmerged {
        if *leaf < leaves {
            out.push(2 * *leaf)?;
        }
    }
    Ok(())
}

/// Appends the resolution of the subtree. `leaves` is the number of leaves of the whole tree.
pub(crate) fn push_resolution(
    out: &mut Vec<u32>,
    nodes: &[Option<Node>],
    leaves: u32,
    level: u32,
    first: u32,
) -> Result<(), AllocError>
    requires low { level ≤ 20 }
    requires inside { first + leaves_at level ≤ leaf_limit }
    requires long { 2 * (first + leaves_at level) ≤ length nodes.now + 1 }
    requires leaves_low { leaves ≤ leaf_limit }
    ensures { OnOk result
        (out.new.items ≡ out.old.items ++ resolution leaves first (tree_in nodes.now level first)) }
{
    if level == 0 {
        if as_leaf(&nodes[2 * first as usize]).is_some() {
            out.push(2 * first)?;
        }
        return Ok(());
    }
    let middle = first + leaves_of(level - 1);
    match as_parent(&nodes[2 * middle as usize - 1]) {
        Some(parent) => {
            out.push(2 * middle - 1)?;
            push_unmerged(out, leaves, parent.unmerged.as_slice())?;
        }
        None => {
            push_resolution(out, nodes, leaves, level - 1, first)?;
            push_resolution(out, nodes, leaves, level - 1, middle)?;
        }
    }
    Ok(())
}

/// Returns whether the resolution of the subtree is not empty.
pub(crate) fn has_resolution(nodes: &[Option<Node>], level: u32, first: u32) -> bool
    requires low { level ≤ 20 }
    requires inside { first + leaves_at level ≤ leaf_limit }
    requires long { 2 * (first + leaves_at level) ≤ length nodes.now + 1 }
    ensures { (leaves : ℕ) → IsTrue result
        ↔ (resolution leaves first (tree_in nodes.now level first) ≢ []) }
{
    if level == 0 {
        return as_leaf(&nodes[2 * first as usize]).is_some();
    }
    let middle = first + leaves_of(level - 1);
    if as_parent(&nodes[2 * middle as usize - 1]).is_some() {
        return true;
    }
    if has_resolution(nodes, level - 1, first) {
        return true;
    }
    has_resolution(nodes, level - 1, middle)
}

/// As `has_resolution`. Uses the counts of the subtree's parents, if there are any.
pub(crate) fn counts_resolution(
    nodes: &[Option<Node>],
    counts: Option<&[Count]>,
    level: u32,
    first: u32,
) -> bool
    requires low { level ≤ 20 }
    requires inside { first + leaves_at level ≤ leaf_limit }
    requires long { 2 * (first + leaves_at level) ≤ length nodes.now + 1 }
    requires counts { AreCountsIfAny (option_copied counts) first (tree_in nodes.now level first) }
    ensures { (leaves : ℕ) → IsTrue result
        ↔ (resolution leaves first (tree_in nodes.now level first) ≢ []) }
{
    match counts {
        Some(counts) => count_of(nodes, counts, level, first).nodes > 0,
        None => has_resolution(nodes, level, first),
    }
}
