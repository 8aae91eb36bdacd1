//! Blank nodes: the nodes a tree is extended by, the path of a leaf made blank, and the search for a non-blank leaf.
//!
//! Each walk is over a subtree, given by its height `level` and the index of its first leaf `first`. The depth of
//! recursion is at most 20.
ghost use Rattle.std.specs.Prelude.{◌≡◌, ℕ, ◌≤◌, ◌+◌, ◌*◌, ◌-◌, ◌++◌, None, length, replicate, OnOk, OnErr, option_copied};
ghost use Rattle.std.specs.Vec.{VecUnchanged};
ghost use Rattle.mls_nodes.specs.Limits.{leaf_limit};
ghost use Rattle.mls_tree.specs.TreeInternal.{leaves_at};
ghost use Rattle.mls_tree.specs.NodeArray.{tree_in, ChangesWithin};
ghost use Rattle.mls_tree.specs.Tree.{height};
ghost use Rattle.mls_tree.specs.TreeOperations.{change_above, has_non_blank_leaf, truncate};
ghost use Rattle.mls_tree.specs.BlankLeaves.{next_blank_leaf};
ghost use Rattle.mls_tree.specs.SubtreeCounts.{AreCounts};
ghost use Rattle.mls_tree.specs.CountsModel.{AreCountsIfAny};

use crate::entries::as_leaf;
use crate::subtree_counts::{Count, count_of};
use crate::tree_size::leaves_of;
use mls_nodes::Node;
use std::alloc::AllocError;

/// Makes blank the parents above a leaf of the subtree.
pub(crate) fn blank_above(nodes: &mut [Option<Node>], level: u32, first: u32, leaf: u32)
    requires low { level ≤ 20 }
    requires inside { first + leaves_at level ≤ leaf_limit }
    requires long { 2 * (first + leaves_at level) ≤ length nodes.old + 1 }
    ensures tree { tree_in nodes.new level first
        ≡ change_above (λ _. None) first (tree_in nodes.old level first) leaf }
    ensures changes { ChangesWithin nodes.old nodes.new (2 * first)
        (2 * (first + leaves_at level) - 1) }
{
    if level == 0 {
        return;
    }
    let middle = first + leaves_of(level - 1);
    nodes[2 * middle as usize - 1] = None;
    if leaf < middle {
        blank_above(nodes, level - 1, first, leaf);
    } else {
        blank_above(nodes, level - 1, middle, leaf);
    }
}

/// Returns whether a leaf of the subtree is non-blank.
pub(crate) fn has_non_blank_leaf(nodes: &[Option<Node>], level: u32, first: u32) -> bool
    requires low { level ≤ 20 }
    requires inside { first + leaves_at level ≤ leaf_limit }
    requires long { 2 * (first + leaves_at level) ≤ length nodes.now + 1 }
    ensures { result ≡ has_non_blank_leaf (tree_in nodes.now level first) }
{
    if level == 0 {
        return as_leaf(&nodes[2 * first as usize]).is_some();
    }
    let middle = first + leaves_of(level - 1);
    if has_non_blank_leaf(nodes, level - 1, first) {
        return true;
    }
    has_non_blank_leaf(nodes, level - 1, middle)
}

/// As `has_non_blank_leaf`. Uses the counts of the subtree's parents, if there are any.
pub(crate) fn counts_non_blank_leaf(
    nodes: &[Option<Node>],
    counts: Option<&[Count]>,
    level: u32,
    first: u32,
) -> bool
    requires low { level ≤ 20 }
    requires inside { first + leaves_at level ≤ leaf_limit }
    requires long { 2 * (first + leaves_at level) ≤ length nodes.now + 1 }
    requires counts { AreCountsIfAny (option_copied counts) first (tree_in nodes.now level first) }
    ensures { result ≡ has_non_blank_leaf (tree_in nodes.now level first) }
{
    match counts {
        Some(counts) => count_of(nodes, counts, level, first).members > 0,
        None => has_non_blank_leaf(nodes, level, first),
    }
}

/// Returns the height of the tree truncated (RFC 9420, 7.7): of its leftmost subtree whose right subtree has a
/// non-blank leaf, or else of its first leaf. `level` is the tree's height. Uses the counts of the tree's parents, if
/// there are any.
pub(crate) fn truncated_height(nodes: &[Option<Node>], counts: Option<&[Count]>, level: u32) -> u32
    requires low { level ≤ 20 }
    requires long { 2 * leaves_at level ≤ length nodes.now + 1 }
    requires counts { AreCountsIfAny (option_copied counts) 0 (tree_in nodes.now level 0) }
    ensures { result ≡ height (truncate (tree_in nodes.now level 0)) }
{
    if level == 0 {
        return 0;
    }
    let below = level - 1;
    if counts_non_blank_leaf(nodes, counts, below, leaves_of(below)) {
        return level;
    }
    truncated_height(nodes, counts, below)
}

/// Returns the index of the leftmost blank leaf of the subtree from `start` on, by the counts of the subtree's parents.
/// Descends at most two paths: a subtree without a blank leaf is passed by.
pub(crate) fn counted_blank_leaf(
    nodes: &[Option<Node>],
    counts: &[Count],
    level: u32,
    first: u32,
    start: u32,
) -> Option<u32>
    requires low { level ≤ 20 }
    requires inside { first + leaves_at level ≤ leaf_limit }
    requires long { 2 * (first + leaves_at level) ≤ length nodes.now + 1 }
    requires capacity { first + leaves_at level ≤ length counts.now + 1 }
    requires counts { AreCounts first (tree_in nodes.now level first) counts.now }
    ensures { result ≡ next_blank_leaf start first (tree_in nodes.now level first) }
{
    if count_of(nodes, counts, level, first).members == leaves_of(level) {
        return None;
    }
    if level == 0 {
        return if first < start { None } else { Some(first) };
    }
    let middle = first + leaves_of(level - 1);
    if start < middle {
        let found = counted_blank_leaf(nodes, counts, level - 1, first, start);
        if found.is_some() {
            return found;
        }
    }
    counted_blank_leaf(nodes, counts, level - 1, middle, start)
}

/// Appends `count` blank entries.
pub(crate) fn push_blanks(nodes: &mut Vec<Option<Node>>, count: u32) -> Result<(), AllocError>
    ensures changed { OnOk result (nodes.new.items ≡ nodes.old.items ++ replicate count None) }
    ensures unchanged_on_error { OnErr result (VecUnchanged nodes.old nodes.new) }
{
    nodes.try_reserve(count as usize)?;
    for _ in 0..count {
        nodes.push_reserved(None);
    }
    Ok(())
}
