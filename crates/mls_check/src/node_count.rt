//! The node indices of a tree.

ghost use Rattle.std.specs.Prelude.{◌≡◌, ◌+◌, ◌*◌, ◌<◌};
ghost use Rattle.mls_tree.specs.Tree.{leaf_count};

use mls_tree::PublicTree;

/// Returns the number of nodes of the tree.
pub(crate) fn node_index_count(tree: &PublicTree) -> u32
    ensures count { result + 1 ≡ 2 * leaf_count tree.now.tree }
    ensures low { result < 2097152 }
{
    2 * tree.leaf_count() - 1
}
