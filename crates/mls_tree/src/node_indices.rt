//! The arithmetic of node indices (RFC 9420, Appendix C), given a node index and the number of leaves of its tree. Leaf
//! `i` has the node index `2 * i`, the root the number of leaves minus one. The level of a node is the number of
//! trailing one bits of its node index.
ghost use Rattle.std.specs.Prelude.{◌≡◌, ◌≢◌, ℕ, MatchOption, Some, None};
ghost use Rattle.mls_tree.specs.RatchetTree.{RatchetTree};
ghost use Rattle.mls_tree.specs.Tree.{leaf_count, root_node_index};
ghost use Rattle.mls_tree.specs.NodeIndices.{level_at, left_at, right_at, IsParentOf, AreSiblings};
ghost use Rattle.mls_tree.specs.NodeIndicesInternal.{HasLevel, IsOutside};

use crate::tree_size::{height_of, leaves_of};

/// Returns the node index of the root. `None` if `leaves` is no power of two from 1 to 1,048,576.
pub fn root(leaves: u32) -> Option<u32>
    ensures found { (t : RatchetTree) → leaf_count t.tree ≡ leaves
        → result ≡ Some (root_node_index 0 t.tree) }
    ensures no_tree { ((t : RatchetTree) → leaf_count t.tree ≢ leaves) → result ≡ None }
{
    match height_of(leaves as usize) {
        Ok(_) => Some(leaves - 1),
        Err(_) => None,
    }
}

/// Returns the level of a node index that a tree of `leaves` leaves has.
pub(crate) fn level_inside(node_index: u32, leaves: u32) -> Option<u32>
    ensures { MatchOption result (IsOutside node_index leaves) (λ level. HasLevel node_index leaves level) }
{
    match height_of(leaves as usize) {
        Ok(_) => {
            if node_index < 2 * leaves - 1 {
                Some(node_index.trailing_ones())
            } else {
                None
            }
        }
        Err(_) => None,
    }
}

/// Returns the level of a node: 0 for a leaf, and one more than its children's for a parent. `None` if `leaves` is no
/// power of two from 1 to 1,048,576, or a tree of `leaves` leaves has no such node index.
pub fn level(node_index: u32, leaves: u32) -> Option<u32>
    ensures found { (t : RatchetTree) → leaf_count t.tree ≡ leaves
        → result ≡ level_at t.tree node_index }
    ensures no_tree { ((t : RatchetTree) → leaf_count t.tree ≢ leaves) → result ≡ None }
{
    match level_inside(node_index, leaves) {
        Some(level) => Some(level),
        None => None,
    }
}

/// Returns the node index of a parent's left child. `None` for a leaf, and if [`level`] is `None`.
pub fn left(node_index: u32, leaves: u32) -> Option<u32>
    ensures found { (t : RatchetTree) → leaf_count t.tree ≡ leaves → result ≡ left_at t.tree node_index }
    ensures no_tree { ((t : RatchetTree) → leaf_count t.tree ≢ leaves) → result ≡ None }
{
    let level = level_inside(node_index, leaves)?;
    if level == 0 {
        return None;
    }
    Some(node_index - leaves_of(level - 1))
}

/// Returns the node index of a parent's right child. `None` for a leaf, and if [`level`] is `None`.
pub fn right(node_index: u32, leaves: u32) -> Option<u32>
    ensures found { (t : RatchetTree) → leaf_count t.tree ≡ leaves
        → result ≡ right_at t.tree node_index }
    ensures no_tree { ((t : RatchetTree) → leaf_count t.tree ≢ leaves) → result ≡ None }
{
    let level = level_inside(node_index, leaves)?;
    if level == 0 {
        return None;
    }
    Some(node_index + leaves_of(level - 1))
}

/// Returns the node index of a node's parent. `None` for the root, and if [`level`] is `None`.
pub fn parent(node_index: u32, leaves: u32) -> Option<u32>
    ensures found { (t : RatchetTree) → leaf_count t.tree ≡ leaves
        → MatchOption result ((q : ℕ) → ¬ IsParentOf t.tree q node_index)
        (λ q. IsParentOf t.tree q node_index) }
    ensures no_tree { ((t : RatchetTree) → leaf_count t.tree ≢ leaves) → result ≡ None }
{
    let level = level_inside(node_index, leaves)?;
    if node_index == leaves - 1 {
        return None;
    }
    if (node_index >> (level + 1)) & 1 == 0 {
        Some(node_index + leaves_of(level))
    } else {
        Some(node_index - leaves_of(level))
    }
}

/// Returns the node index of a node's sibling. `None` for the root, and if [`level`] is `None`.
pub fn sibling(node_index: u32, leaves: u32) -> Option<u32>
    ensures found { (t : RatchetTree) → leaf_count t.tree ≡ leaves
        → MatchOption result ((u : ℕ) → ¬ AreSiblings t.tree node_index u)
        (λ u. AreSiblings t.tree node_index u) }
    ensures no_tree { ((t : RatchetTree) → leaf_count t.tree ≢ leaves) → result ≡ None }
{
    let parent = parent(node_index, leaves)?;
    if node_index < parent {
        right(parent, leaves)
    } else {
        left(parent, leaves)
    }
}
