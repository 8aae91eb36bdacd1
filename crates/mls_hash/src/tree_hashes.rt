//! Tree hashes of subtrees, and those without some of their leaves (RFC 9420, 7.8 and 7.9).

ghost use Rattle.std.specs.Prelude.{◌≡◌, ◌↔◌, ◌⊎◌, None, Some, Err, IfOk, IfErr, IfSome, option_copied};
ghost use Rattle.mls_tree.specs.Tree.{subtree_at};
ghost use Rattle.mls_hash.specs.SuiteHash.{hash_of};
ghost use Rattle.mls_hash.specs.WalkResults.{HashesSubtree};
ghost use Rattle.mls_hash.specs.WithoutLeaves.{original_tree_hash_at, stripped_leaf, tree_hash_at};

use crate::cached_hashes::kept_hash;
use crate::fault::HashFault;
use crate::hash_input::{hash_leaf, hash_parent};
use crate::leaf_set::{LeafSet, sorted};
use crate::suite::Suite;
use mls_nodes::EncodedLeaf;
use mls_tree::{HashValue, Part, PublicTree};
use std::alloc::Global;

/// Returns the node of a leaf. `None` if it is blank or in the set.
pub(crate) fn kept_leaf<'a>(
    index: u32,
    node: Option<&'a EncodedLeaf>,
    left_out: &LeafSet<'_>,
) -> Option<&'a EncodedLeaf>
    ensures { option_copied result ≡ stripped_leaf left_out.now index (option_copied node.entry) }
{
    if left_out.contains(index) { None } else { node }
}

/// Returns the cached tree hash of the subtree at a node index, if no leaf is left out and the cache is of the suite's
/// hash function.
#[tactic(auto, using(crate::proofs::KeptHashing::nothing_left_out))]
fn kept_whole(
    suite: Suite,
    tree: &PublicTree,
    left_out: &LeafSet<'_>,
    node_index: u32,
) -> Option<HashValue>
    ensures { IfSome result (λ h.
        original_tree_hash_at (hash_of suite) left_out.now tree.now.tree node_index ≡ Some h) }
{
    if left_out.is_empty() {
        kept_hash(suite, tree, node_index)
    } else {
        None
    }
}

/// Returns the tree hash of the subtree at a node index without the leaves of the set. That is one hash for each of its
/// nodes, except those in subtrees whose hash is cached.
pub(crate) fn hash_subtree(
    suite: Suite,
    tree: &PublicTree,
    left_out: &LeafSet<'_>,
    node_index: u32,
) -> Result<HashValue, HashFault>
    ensures { HashesSubtree (subtree_at 0 tree.now.tree node_index)
        (original_tree_hash_at (hash_of suite) left_out.now tree.now.tree node_index) result }
{
    if let Some(hash) = kept_whole(suite, tree, left_out, node_index) {
        return Ok(hash);
    }
    match tree.part(node_index) {
        None => Err(HashFault::NoSuchNode),
        Some(Part::Leaf { index, node }) => {
            let node = kept_leaf(index, node, left_out);
            Ok(hash_leaf(suite, index, node))
        }
        Some(
            Part::Parent {
                node,
                left,
                right,
                ..
            },
        ) => {
            let left = hash_subtree(suite, tree, left_out, left)?;
            let right = hash_subtree(suite, tree, left_out, right)?;
            Ok(hash_parent(suite, node, left_out, &left, &right))
        }
    }
}

/// Returns the tree hash of the subtree at a node index (RFC 9420, 7.8). Cached tree hashes are read and not computed
/// again.
///
/// # Errors
///
/// `NoSuchNode`, if and only if the tree has no such node.
pub fn tree_hash(suite: Suite, tree: &PublicTree, node_index: u32) -> Result<HashValue, HashFault>
    ensures hash { IfOk result (λ h. tree_hash_at (hash_of suite) tree.now.tree node_index ≡ Some h) }
    ensures no_such_node { (result ≡ Err HashFault.NoSuchNode)
        ↔ (subtree_at 0 tree.now.tree node_index ≡ None) }
    ensures possible_errors { IfErr result (λ e. e ≡ HashFault.NoSuchNode) }
{
    hash_subtree(suite, tree, &LeafSet::empty(), node_index)
}

/// Returns the original tree hash of the subtree at a node index (RFC 9420, 7.9): its tree hash with each of these
/// leaves blank, and without them in each unmerged list. The tree is not copied.
///
/// # Errors
///
/// `NoSuchNode` if and only if the tree has no such node, or `OutOfMemory`.
pub fn original_tree_hash(
    alloc: Global,
    suite: Suite,
    tree: &PublicTree,
    node_index: u32,
    leaves: &[u32],
) -> Result<HashValue, HashFault>
    ensures hash { IfOk result
        (λ h. original_tree_hash_at (hash_of suite) leaves.now tree.now.tree node_index ≡ Some h) }
    ensures no_such_node { (result ≡ Err HashFault.NoSuchNode)
        ↔ (subtree_at 0 tree.now.tree node_index ≡ None) }
    ensures possible_errors { IfErr result
        (λ e. (e ≡ HashFault.NoSuchNode) ⊎ (e ≡ HashFault.OutOfMemory)) }
{
    if tree.part(node_index).is_none() {
        return Err(HashFault::NoSuchNode);
    }
    let leaves = sorted(alloc, leaves)?;
    let left_out = LeafSet::new(&leaves);
    hash_subtree(suite, tree, &left_out, node_index)
}
