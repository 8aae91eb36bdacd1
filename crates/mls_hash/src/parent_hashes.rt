//! Parent hashes (RFC 9420, 7.9).

ghost use Rattle.std.specs.Prelude.{◌≡◌, ◌↔◌, ◌⊎◌, None, Some, Err, IfOk, IfErr, MatchOption, option_map};
ghost use Rattle.mls_hash.specs.SuiteHash.{hash_of};
ghost use Rattle.mls_hash.specs.ParentHash.{parent_at, parent_hash_at, parent_hash_input};
ghost use Rattle.mls_hash.specs.ChildOnSide.{HasChildOn};

use crate::digest::{feed_hash, feed_opaque};
use crate::fault::HashFault;
use crate::hasher::Hasher;
use crate::leaf_set::{LeafSet, sorted};
use crate::side::Side;
use crate::suite::Suite;
use crate::tree_hashes::hash_subtree;
use mls_nodes::ParentNode;
use mls_tree::{HashValue, Part, PublicTree};
use std::alloc::Global;

/// Returns the non-blank parent at a node index, and the node index of its child on a side. `None` if there is no
/// non-blank parent.
fn parent_and_child(tree: &PublicTree, node_index: u32, side: Side) -> Option<(&ParentNode, u32)>
    ensures { MatchOption result (parent_at tree.now.tree node_index ≡ None)
        (λ r. HasChildOn tree.now.tree node_index side r.1 r.0.now) }
{
    let Some(
        Part::Parent {
            node: Some(parent),
            left,
            right,
            ..
        },
    ) = tree.part(node_index)
    else {
        return None;
    };
    match side {
        Side::Left => Some((parent, left)),
        Side::Right => Some((parent, right)),
    }
}

/// Returns the parent hash of a parent node (RFC 9420, 7.9) from the original tree hash of its child on the copath: the
/// hash of its key, its own parent hash and that tree hash. The parent need not be in a tree.
pub fn parent_hash_of(suite: Suite, parent: &ParentNode, original: &HashValue) -> HashValue
    ensures { option_map (hash_of suite) (parent_hash_input parent.now original.now) ≡ Some result }
{
    let mut hasher = Hasher::new(suite);
    feed_opaque(&mut hasher, &parent.encryption_key);
    feed_opaque(&mut hasher, &parent.parent_hash);
    feed_hash(&mut hasher, original);
    hasher.finish()
}

/// Returns the parent hash of the non-blank parent at a node index, whose child on the copath is the one on `side`
/// (RFC 9420, 7.9). It is the hash of the parent's key, its own parent hash and the original tree hash of that child,
/// without the parent's unmerged leaves.
///
/// # Errors
///
/// `NoSuchNode` if and only if there is no non-blank parent, or `OutOfMemory`.
pub fn parent_hash(
    alloc: Global,
    suite: Suite,
    tree: &PublicTree,
    node_index: u32,
    side: Side,
) -> Result<HashValue, HashFault>
    ensures hash { IfOk result
        (λ h. parent_hash_at (hash_of suite) tree.now.tree node_index side ≡ Some h) }
    ensures no_such_node { (result ≡ Err HashFault.NoSuchNode)
        ↔ (parent_at tree.now.tree node_index ≡ None) }
    ensures possible_errors { IfErr result
        (λ e. (e ≡ HashFault.NoSuchNode) ⊎ (e ≡ HashFault.OutOfMemory)) }
{
    let Some((parent, child)) = parent_and_child(tree, node_index, side) else {
        return Err(HashFault::NoSuchNode);
    };
    let leaves = sorted(alloc, parent.unmerged.as_slice())?;
    let left_out = LeafSet::new(&leaves);
    let original = hash_subtree(suite, tree, &left_out, child)?;
    Ok(parent_hash_of(suite, parent, &original))
}
