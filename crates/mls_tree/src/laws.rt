//! Properties of trees.
ghost use Rattle.std.specs.Prelude.{◌≡◌, ℕ, ◌+◌, ◌*◌, ◌%◌, ◌<◌, ◌↔◌, None, Option, IsSome, length, slice_get, slice_set, unwrap_or};
ghost use Rattle.mls_nodes.specs.declared.leaf.LeafNode.{LeafNode};
ghost use Rattle.mls_nodes.specs.declared.parent.ParentNode.{ParentNode};
ghost use Rattle.mls_tree.specs.RatchetTree.{RatchetTree};
ghost use Rattle.mls_tree.specs.Tree.{Tree, leaf_count, listing, leaf_entry, parent_entry, subtree_at, node_at, leaf_at, IsParentNodeIndex, member_count, leaves_among};
ghost use Rattle.mls_tree.specs.BlankLeaves.{first_blank_leaf, next_blank_leaf, AreNonBlankBelow};
ghost use Rattle.mls_tree.specs.TreeOperations.{put_leaf, put_parent, add, added_leaf};

/// A list of nodes is the listing of at most one tree.
pub fn one_tree()
    ensures one { (s t : RatchetTree) → listing s.tree ≡ listing t.tree → s ≡ t }
{}

/// A node index is a position in the listing (RFC 9420, Appendix C). Leaf `i` is the entry at `2 * i`; the parents are
/// the entries at the odd positions. A tree has a node index for each entry, and no other.
pub fn node_indices_are_positions()
    ensures nodes { (t : Tree) (p : ℕ) → node_at t p ≡ unwrap_or (slice_get (listing t) p) None }
    ensures leaves { (t : Tree) (i : ℕ) → leaf_entry (leaf_at 0 t i)
        ≡ unwrap_or (slice_get (listing t) (2 * i)) None }
    ensures parents { (t : Tree) (p : ℕ) → IsParentNodeIndex t p
        ↔ ((p < length (listing t)) × (p % 2 ≡ 1)) }
    ensures node_indices { (t : Tree) (p : ℕ) → IsSome (subtree_at 0 t p) ↔ (p < length (listing t)) }
    ensures count { (t : Tree) → length (listing t) + 1 ≡ 2 * leaf_count t }
{}

/// Replacing a node replaces one entry of the listing: that at `2 * i` for leaf `i`, that at its own node index for a
/// parent.
pub fn one_entry_is_replaced()
    ensures leaf { (t : Tree) (i : ℕ) (x : Option LeafNode) → i < leaf_count t
        → listing (put_leaf 0 t i x) ≡ slice_set (listing t) (2 * i) (leaf_entry x) }
    ensures parent { (t : Tree) (p : ℕ) (x : Option ParentNode) → IsParentNodeIndex t p
        → listing (put_parent 0 t p x) ≡ slice_set (listing t) p (parent_entry x) }
{}

/// A tree has as many members as its listing has leaf nodes.
pub fn members_are_listed()
    ensures { (t : Tree) → member_count t ≡ leaves_among (listing t) }
{}

/// If every leaf below `start` is non-blank, the search from `start` on finds the first blank leaf.
pub fn next_blank_is_first()
    ensures { (t : Tree) (start : ℕ) → AreNonBlankBelow t start
        → next_blank_leaf start 0 t ≡ first_blank_leaf 0 t }
{}

/// After a member was added, every leaf up to the added one is non-blank. So the search for the next blank leaf may
/// begin after it.
pub fn added_leaf_is_first()
    ensures { (t : Tree) (x : LeafNode) → AreNonBlankBelow (add t x) (added_leaf t + 1) }
{}
