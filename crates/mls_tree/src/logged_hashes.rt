//! Cached tree hashes that a journal logs before a change empties their slots (RFC 9420, 7.8).
//!
//! Only the hashes of long nodes are logged: of leaf nodes with many bytes, and of parents with a long key or many
//! unmerged leaves. The hash of a short node is computed again at little cost.
ghost use Rattle.std.specs.Prelude.{◌≡◌, ◌+◌, ◌≤◌, Some};
ghost use Rattle.mls_nodes.specs.Limits.{leaf_limit};
ghost use Rattle.mls_tree.specs.HashCache.{IsRightHash};
ghost use Rattle.mls_tree.specs.TreeInternal.{leaves_at};
ghost use Rattle.mls_tree.specs.LoggedHashesInternal.{Logs};

use crate::hash_kind::HashKind;
use crate::hash_value::HashValue;
use crate::journal::UndoEntry;
use crate::public_tree::PublicTree;
use crate::tree_size::leaves_of;
use mls_nodes::Node;
use std::alloc::AllocError;

/// A node that takes more bytes is long.
const SHORT_BYTES: usize = 256;

/// A parent with more unmerged leaves is long.
const SHORT_UNMERGED: usize = 64;

/// The tree hash of the subtree at a node index, which was cached.
#[derive(Drop)]
pub(crate) struct LoggedHash {
    pub(crate) node_index: u32,
    pub(crate) kind: HashKind,
    pub(crate) hash: HashValue,
}

impl LoggedHash {
    /// Fills the cache slot of the subtree, if the cache is of this kind.
    pub(crate) fn put(&self, tree: &mut PublicTree)
        requires { IsRightHash (Some self.now.kind) tree.old.tree self.now.node_index self.now.hash }
        ensures { tree.new.tree ≡ tree.old.tree }
    {
        if tree.hash_kind() == Some(self.kind) {
            tree.keep_hash(self.node_index, self.hash);
        }
    }
}

/// Returns whether a node is long. A blank one is not.
fn is_long(node: Option<&Node>) -> bool {
    match node {
        Some(Node::Leaf(leaf)) => leaf.encoding().len() > SHORT_BYTES,
        Some(Node::Parent(parent)) => {
            parent.encryption_key.as_slice().len() > SHORT_BYTES
                || parent.unmerged.as_slice().len() > SHORT_UNMERGED
        }
        None => false,
    }
}

/// Logs the cached hash of the subtree at a node index, if there is one and its node is long.
fn log_hash(
    formers: &mut Vec<UndoEntry>,
    tree: &PublicTree,
    node_index: u32,
) -> Result<(), AllocError>
    ensures { Logs formers.old.items tree.now.tree formers.new.items tree.now.tree }
{
    if !is_long(tree.node(node_index)) {
        return Ok(());
    }
    let Some(kind) = tree.hash_kind() else {
        return Ok(());
    };
    let Some(hash) = tree.kept_hash(node_index) else {
        return Ok(());
    };
    let alloc = *formers.allocator();
    let logged = LoggedHash {
        node_index,
        kind,
        hash,
    };
    let logged = Box::new(alloc, logged)?;
    formers.push(UndoEntry::Hash(logged))?;
    Ok(())
}

/// Logs as `log_hashes` does, in a subtree of height `level` whose first leaf has the index `first`.
fn log_from(
    formers: &mut Vec<UndoEntry>,
    tree: &PublicTree,
    level: u32,
    first: u32,
    node_index: u32,
) -> Result<(), AllocError>
    requires low { level ≤ 20 }
    requires inside { first + leaves_at level ≤ leaf_limit }
    ensures { Logs formers.old.items tree.now.tree formers.new.items tree.now.tree }
{
    if level == 0 {
        return log_hash(formers, tree, node_index);
    }
    let middle = first + leaves_of(level - 1);
    let root = 2 * middle - 1;
    log_hash(formers, tree, root)?;
    if node_index < root {
        return log_from(formers, tree, level - 1, first, node_index);
    }
    if node_index > root {
        return log_from(formers, tree, level - 1, middle, node_index);
    }
    Ok(())
}

/// Logs the cached hashes of long nodes that a change of the node at a node index clears: that of the subtree there and
/// those of the subtrees that contain it. The tree does not change.
pub(crate) fn log_hashes(
    formers: &mut Vec<UndoEntry>,
    tree: &PublicTree,
    node_index: u32,
) -> Result<(), AllocError>
    ensures { Logs formers.old.items tree.now.tree formers.new.items tree.now.tree }
{
    log_from(formers, tree, tree.height(), 0, node_index)
}

/// Logs the cached hashes of long nodes that changes of the nodes on a direct path clear. These are its node indices, the
/// lowest node first.
pub(crate) fn log_path_hashes(
    formers: &mut Vec<UndoEntry>,
    tree: &PublicTree,
    node_indices: &[u32],
) -> Result<(), AllocError>
    ensures { Logs formers.old.items tree.now.tree formers.new.items tree.now.tree }
{
    match node_indices.first() {
        Some(lowest) => log_hashes(formers, tree, *lowest),
        None => Ok(()),
    }
}
