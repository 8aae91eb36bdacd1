//! Tree hashes of blank subtrees (RFC 9420, 7.8).
//!
//! The tree hash of a subtree whose nodes are all blank depends only on where it is. Before the parent hashes of a
//! commit that extends the tree (RFC 9420, 7.7) are checked, the new half is hashed. If the commit is refused, the next
//! one that extends the tree finds most of these hashes here.

ghost use Rattle.std.specs.Prelude.{◌≡◌, [], Some};
ghost use Rattle.std.specs.Bool.{OnTrue};
ghost use Rattle.mls_tree.specs.Paths.{resolution_at};
ghost use Rattle.mls_apply.specs.BlankHashes.{IsBlankHash, IsBlankHash-prop};

use crate::new_parents::fill_subtree;
use mls_hash::Suite;
use mls_tree::{HashKind, HashValue, PublicTree, TreeError};
use std::alloc::{AllocError, Global};
use std::collections::BTreeSet;

/// Returns whether the tree has a node at a node index, and all nodes of the subtree there are blank.
fn is_blank(alloc: Global, tree: &PublicTree, node_index: u32) -> bool
    ensures { OnTrue result (resolution_at tree.now.tree node_index ≡ Some []) }
{
    let none = BTreeSet::new(alloc);
    match tree.has_resolution_len(node_index, &none, 0) {
        Ok(is_empty) => is_empty,
        Err(_) => false,
    }
}

/// Returns the copath of the first leaf of the right half of a tree, the lowest node first. It is empty if there is one
/// leaf.
fn middle_copath(alloc: Global, tree: &PublicTree) -> Result<Vec<u32>, AllocError> {
    match tree.copath(alloc, tree.leaf_count() / 2) {
        Ok(node_indices) => Ok(node_indices),
        Err(TreeError::OutOfMemory) => Err(AllocError),
        Err(_) => unreachable!(),
    }
}

/// The tree hash of the subtree at a node index, in each tree in which its nodes are all blank.
#[derive(Drop)]
struct BlankHash {
    kind: Option<HashKind>,
    node_index: u32,
    hash: HashValue,
    ghost right: { IsBlankHash kind node_index hash } by { IsBlankHash-prop kind node_index hash },
}

impl BlankHash {
    /// Fills the cache slot of the subtree, if it is empty, the cache is of this kind, and all nodes of the subtree are
    /// blank.
    fn put(&self, alloc: Global, tree: &mut PublicTree)
        ensures { tree.new.tree ≡ tree.old.tree }
    {
        let node_index = self.node_index;
        if tree.kept_hash(node_index).is_some() || tree.hash_kind() != self.kind {
            return;
        }
        if is_blank(alloc, tree, node_index) {
            tree.keep_hash(node_index, self.hash);
        }
    }
}

/// Tree hashes of blank subtrees that were computed once.
#[derive(Drop)]
pub(crate) struct BlankHashes {
    hashes: Vec<BlankHash>,
}

impl BlankHashes {
    /// Has no hash yet. Does not allocate.
    pub(crate) fn new(alloc: Global) -> BlankHashes {
        BlankHashes {
            hashes: Vec::new(alloc),
        }
    }

    /// Fills the cache slots of subtrees whose hash is stored.
    fn put(&self, alloc: Global, tree: &mut PublicTree)
        ensures { tree.new.tree ≡ tree.old.tree }
    {
        for hash in &self.hashes {
            hash.put(alloc, tree);
        }
    }

    /// Fills the cache slot at a node index and those below it, and stores the hash, if the slot is empty and all nodes
    /// of the subtree there are blank.
    fn fill_at(
        &mut self,
        alloc: Global,
        suite: Suite,
        tree: &mut PublicTree,
        node_index: u32,
    ) -> Result<(), AllocError>
        ensures { tree.new.tree ≡ tree.old.tree }
    {
        if tree.kept_hash(node_index).is_some() || !is_blank(alloc, tree, node_index) {
            return Ok(());
        }
        fill_subtree(alloc, suite, tree, node_index)?;
        if let Some(hash) = tree.kept_hash(node_index) {
            let kind = tree.hash_kind();
            self.hashes.push(BlankHash {
                kind,
                node_index,
                hash,
            })?;
        }
        Ok(())
    }

    /// Fills the cache slots of the blank subtrees on the copath of the first leaf of the tree's right half. A hash is
    /// computed only if it is not stored. If the tree was extended for k leaves, its new nodes that are in none of these
    /// subtrees are fewer than 4k and one for each level of the tree.
    pub(crate) fn fill(
        &mut self,
        alloc: Global,
        suite: Suite,
        tree: &mut PublicTree,
    ) -> Result<(), AllocError>
        ensures { tree.new.tree ≡ tree.old.tree }
    {
        self.put(alloc, tree);
        let node_indices = middle_copath(alloc, tree)?;
        for node_index in &node_indices {
            self.fill_at(alloc, suite, tree, *node_index)?;
        }
        Ok(())
    }
}
