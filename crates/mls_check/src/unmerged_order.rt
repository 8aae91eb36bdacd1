//! Whether every unmerged list is strictly increasing.

ghost use Rattle.std.specs.Prelude.{◌≡◌, ◌↔◌, IsTrue};
ghost use Rattle.std.specs.List.Sorted.{IsStrictlyIncreasing};
ghost use Rattle.mls_check.specs.FirstFailureInternal.{IsFirstFailureIn};
ghost use Rattle.mls_check.specs.UnmergedLists.{IsSortedAt};

use crate::node_count::node_index_count;
use mls_tree::PublicTree;

/// Returns whether each number is below the next.
fn is_strictly_increasing(indices: &[u32]) -> bool
    ensures { IsTrue result ↔ IsStrictlyIncreasing indices.now }
{
    indices.is_sorted_by(|lower, upper| *lower < *upper)
}

/// Returns whether the unmerged list of the parent at a node index, if it has one, is strictly increasing.
fn is_sorted_at(tree: &PublicTree, node_index: u32) -> bool
    ensures { IsTrue result ↔ IsSortedAt tree.now.tree node_index }
{
    match tree.parent(node_index) {
        Some(parent) => is_strictly_increasing(parent.unmerged.as_slice()),
        None => true,
    }
}

/// Returns the first node index of a parent whose unmerged list is not strictly increasing.
pub(crate) fn first_unsorted(tree: &PublicTree) -> Option<u32>
    ensures { IsFirstFailureIn (IsSortedAt tree.now.tree) result }
{
    for node_index in 0..node_index_count(tree) {
        if !is_sorted_at(tree, node_index) {
            return Some(node_index);
        }
    }
    None
}
