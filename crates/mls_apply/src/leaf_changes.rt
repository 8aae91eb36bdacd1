//! Changes of single leaves, for the three kinds of proposals.

ghost use Rattle.std.specs.Prelude.{◌≡◌, ◌<◌, Some, None, IfOk, OnOk};
ghost use Rattle.mls_tree.specs.Tree.{leaf_count};
ghost use Rattle.mls_tree.specs.TreeOperations.{put_leaf, blank_path};
ghost use Rattle.mls_tree.specs.Journals.{before};
ghost use Rattle.mls_tree.specs.LoggedHashes.{HasRightHashes};

use mls_nodes::EncodedLeaf;
use mls_tree::{Journal, PublicTree};
use mls_wire::{Shared, copy_of};
use std::alloc::{AllocError, Global};

/// Returns the leaf node with one owner more. Does not allocate.
pub(crate) fn leaf_of(
    alloc: Global,
    leaf: &Shared<EncodedLeaf>,
) -> Result<Shared<EncodedLeaf>, AllocError>
    ensures { IfOk result (λ shared. shared ≡ leaf.now) }
{
    copy_of(alloc, leaf)
}

/// Replaces a leaf of the tree by this one, which is shared.
pub(crate) fn put_shared(
    alloc: Global,
    tree: &mut PublicTree,
    journal: &mut Journal,
    index: u32,
    leaf: &Shared<EncodedLeaf>,
) -> Result<(), AllocError>
    requires { index < leaf_count tree.old.tree }
    ensures put { OnOk result (tree.new.tree ≡ put_leaf 0 tree.old.tree index (Some leaf.now)) }
    ensures before { before journal.new tree.new.tree ≡ before journal.old tree.old.tree }
    ensures hashes { HasRightHashes journal.old tree.old.tree → HasRightHashes journal.new tree.new.tree }
{
    let leaf = leaf_of(alloc, leaf)?;
    journal.set_leaf(tree, index, Some(leaf))?;
    Ok(())
}

/// Makes the parents above a leaf blank: its direct path (RFC 9420, 4.1.2).
pub(crate) fn blank_direct_path(tree: &mut PublicTree, index: u32)
    requires { index < leaf_count tree.old.tree }
    ensures { tree.new.tree ≡ blank_path tree.old.tree index }
{
    let Ok(()) = tree.blank_path(index) else {
        unreachable!();
    };
}
