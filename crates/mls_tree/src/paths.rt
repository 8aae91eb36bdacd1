//! Walks that collect the node indices of a path from a leaf to the root (RFC 9420, 4.1.2), lowest node first.
//!
//! Each walk is over a subtree, given by its height `level` and the index of its first leaf `first`. The depth of
//! recursion is at most 20.
ghost use Rattle.std.specs.Prelude.{◌≡◌, ℕ, ◌≤◌, ◌+◌, ◌*◌, ◌-◌, ◌++◌, length, OnOk, option_copied};
ghost use Rattle.mls_nodes.specs.Limits.{leaf_limit};
ghost use Rattle.mls_tree.specs.Tree.{Tree, height, IsPerfect};
ghost use Rattle.mls_tree.specs.TreeInternal.{leaves_at};
ghost use Rattle.mls_tree.specs.NodeArray.{tree_in};
ghost use Rattle.mls_tree.specs.Paths.{direct_path, copath, filtered_direct_path};
ghost use Rattle.mls_tree.specs.CountsModel.{AreCountsIfAny};

use crate::resolution::counts_resolution;
use crate::subtree_counts::Count;
use crate::tree_size::leaves_of;
use mls_nodes::Node;
use std::alloc::AllocError;

/// Appends the direct path of a leaf in the subtree.
pub(crate) fn push_direct_path(
    out: &mut Vec<u32>,
    level: u32,
    first: u32,
    leaf: u32,
) -> Result<(), AllocError>
    requires low { level ≤ 20 }
    requires inside { first + leaves_at level ≤ leaf_limit }
    ensures { OnOk result
        ((t : Tree) → IsPerfect t → height t ≡ level
        → out.new.items ≡ out.old.items ++ direct_path first t leaf) }
{
    if level == 0 {
        return Ok(());
    }
    let middle = first + leaves_of(level - 1);
    if leaf < middle {
        push_direct_path(out, level - 1, first, leaf)?;
    } else {
        push_direct_path(out, level - 1, middle, leaf)?;
    }
    out.push(2 * middle - 1)?;
    Ok(())
}

// Returns the node index of the subtree's root.
fn root_of(level: u32, first: u32) -> u32
    requires low { level ≤ 20 }
    requires inside { first + leaves_at level ≤ leaf_limit }
    ensures { result + 1 ≡ 2 * first + leaves_at level }
{
    2 * first + leaves_of(level) - 1
}

/// Appends the copath of a leaf in the subtree.
pub(crate) fn push_copath(
    out: &mut Vec<u32>,
    level: u32,
    first: u32,
    leaf: u32,
) -> Result<(), AllocError>
    requires low { level ≤ 20 }
    requires inside { first + leaves_at level ≤ leaf_limit }
    ensures { OnOk result
        ((t : Tree) → IsPerfect t → height t ≡ level
        → out.new.items ≡ out.old.items ++ copath first t leaf) }
{
    if level == 0 {
        return Ok(());
    }
    let middle = first + leaves_of(level - 1);
    if leaf < middle {
        push_copath(out, level - 1, first, leaf)?;
        out.push(root_of(level - 1, middle))?;
    } else {
        push_copath(out, level - 1, middle, leaf)?;
        out.push(root_of(level - 1, first))?;
    }
    Ok(())
}

/// Appends the filtered direct path of a leaf in the subtree. Uses the counts of the subtree's parents, if there are
/// any.
pub(crate) fn push_filtered_direct_path(
    out: &mut Vec<u32>,
    nodes: &[Option<Node>],
    counts: Option<&[Count]>,
    level: u32,
    first: u32,
    leaf: u32,
) -> Result<(), AllocError>
    requires low { level ≤ 20 }
    requires inside { first + leaves_at level ≤ leaf_limit }
    requires long { 2 * (first + leaves_at level) ≤ length nodes.now + 1 }
    requires counts { AreCountsIfAny (option_copied counts) first (tree_in nodes.now level first) }
    ensures { OnOk result
        ((leaves : ℕ) → out.new.items
        ≡ out.old.items ++ filtered_direct_path leaves first (tree_in nodes.now level first) leaf) }
{
    if level == 0 {
        return Ok(());
    }
    let middle = first + leaves_of(level - 1);
    if leaf < middle {
        push_filtered_direct_path(out, nodes, counts, level - 1, first, leaf)?;
        if counts_resolution(nodes, counts, level - 1, middle) {
            out.push(2 * middle - 1)?;
        }
    } else {
        push_filtered_direct_path(out, nodes, counts, level - 1, middle, leaf)?;
        if counts_resolution(nodes, counts, level - 1, first) {
            out.push(2 * middle - 1)?;
        }
    }
    Ok(())
}
