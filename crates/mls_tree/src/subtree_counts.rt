//! The number of non-blank leaves and nodes under each parent of a tree.
//!
//! Each walk is over a subtree, given by its height `level` and the index of its first leaf `first`. The depth of
//! recursion is at most 20. The count of the parent whose right subtree begins with leaf `k` is at index `k - 1`.
ghost use Rattle.std.specs.Prelude.{◌≡◌, ◌≢◌, ◌≤◌, ◌+◌, ◌*◌, ◌-◌, Some, length};
ghost use Rattle.mls_nodes.specs.Limits.{leaf_limit};
ghost use Rattle.mls_tree.specs.TreeInternal.{leaves_at};
ghost use Rattle.mls_tree.specs.NodeArray.{parent_part, tree_in};
ghost use Rattle.mls_tree.specs.SubtreeCounts.{parent_weight, subtree_count, AreCounts, AreOutside, IsKeptOutside};

use crate::entries::{as_leaf, as_parent};
use crate::tree_size::leaves_of;
use mls_nodes::Node;

/// The number of non-blank leaves and nodes of a subtree.
#[derive(Clone, Copy, Debug)]
pub(crate) struct Count {
    pub(crate) members: u32,
    pub(crate) nodes: u32,
}

// Returns 1 if the entry is a parent, else 0.
fn weight(entry: &Option<Node>) -> u32
    ensures { result ≡ parent_weight (parent_part (Some entry.now)) }
{
    match as_parent(entry) {
        Some(_) => 1,
        None => 0,
    }
}

/// Returns the count of the subtree.
pub(crate) fn count_of(nodes: &[Option<Node>], counts: &[Count], level: u32, first: u32) -> Count
    requires low { level ≤ 20 }
    requires inside { first + leaves_at level ≤ leaf_limit }
    requires long { 2 * (first + leaves_at level) ≤ length nodes.now + 1 }
    requires capacity { first + leaves_at level ≤ length counts.now + 1 }
    requires counts { AreCounts first (tree_in nodes.now level first) counts.now }
    ensures { result ≡ subtree_count (tree_in nodes.now level first) }
{
    if level == 0 {
        return match as_leaf(&nodes[2 * first as usize]) {
            Some(_) => Count {
                members: 1,
                nodes: 1,
            },
            None => Count {
                members: 0,
                nodes: 0,
            },
        };
    }
    let middle = first + leaves_of(level - 1);
    counts[middle as usize - 1]
}

// Sets the count of the subtree's root. Those of the parents below it must be right.
fn add_up(nodes: &[Option<Node>], counts: &mut [Count], level: u32, first: u32)
    requires low { level ≤ 20 }
    requires deep { level ≢ 0 }
    requires inside { first + leaves_at level ≤ leaf_limit }
    requires long { 2 * (first + leaves_at level) ≤ length nodes.now + 1 }
    requires capacity { first + leaves_at level ≤ length counts.old + 1 }
    requires left { AreCounts first (tree_in nodes.now (level - 1) first) counts.old }
    requires right { AreCounts (first + leaves_at (level - 1))
        (tree_in nodes.now (level - 1) (first + leaves_at (level - 1))) counts.old }
    ensures counts { AreCounts first (tree_in nodes.now level first) counts.new }
    ensures preserved { IsKeptOutside counts.old counts.new first (first + leaves_at level - 1) }
{
    let middle = first + leaves_of(level - 1);
    let left = count_of(nodes, counts, level - 1, first);
    let right = count_of(nodes, counts, level - 1, middle);
    let own = weight(&nodes[2 * middle as usize - 1]);
    counts[middle as usize - 1] = Count {
        members: left.members + right.members,
        nodes: left.nodes + right.nodes + own,
    };
}

/// Sets the counts of the parents above a leaf of the subtree. The other counts must be right.
pub(crate) fn recount(
    nodes: &[Option<Node>],
    counts: &mut [Count],
    level: u32,
    first: u32,
    leaf: u32,
)
    requires low { level ≤ 20 }
    requires inside { first + leaves_at level ≤ leaf_limit }
    requires long { 2 * (first + leaves_at level) ≤ length nodes.now + 1 }
    requires capacity { first + leaves_at level ≤ length counts.old + 1 }
    requires beside { AreOutside first (tree_in nodes.now level first) leaf counts.old }
    ensures counts { AreCounts first (tree_in nodes.now level first) counts.new }
    ensures preserved { IsKeptOutside counts.old counts.new first (first + leaves_at level - 1) }
{
    if level == 0 {
        return;
    }
    let middle = first + leaves_of(level - 1);
    if leaf < middle {
        recount(nodes, counts, level - 1, first, leaf);
        add_up(nodes, counts, level, first);
    } else {
        recount(nodes, counts, level - 1, middle, leaf);
        add_up(nodes, counts, level, first);
    }
}

/// Sets the counts of all parents of the subtree.
pub(crate) fn count_all(nodes: &[Option<Node>], counts: &mut [Count], level: u32, first: u32)
    requires low { level ≤ 20 }
    requires inside { first + leaves_at level ≤ leaf_limit }
    requires long { 2 * (first + leaves_at level) ≤ length nodes.now + 1 }
    requires capacity { first + leaves_at level ≤ length counts.old + 1 }
    ensures counts { AreCounts first (tree_in nodes.now level first) counts.new }
    ensures preserved { IsKeptOutside counts.old counts.new first (first + leaves_at level - 1) }
{
    if level == 0 {
        return;
    }
    let middle = first + leaves_of(level - 1);
    count_all(nodes, counts, level - 1, first);
    count_all(nodes, counts, level - 1, middle);
    add_up(nodes, counts, level, first);
}
