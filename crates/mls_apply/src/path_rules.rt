//! The rules for the keys and the ciphertexts of an update path (RFC 9420, 7.6 and 12.4.2).

ghost use Rattle.std.specs.Prelude.{◌≡◌, ℕ, ◌*◌, ◌==◌, All, IfOk, filter, length, map, not};
ghost use Rattle.std.specs.BTreeSet.{contains};
ghost use Rattle.std.specs.List.{list_any};
ghost use Rattle.std.specs.Ordering.{nat_cmp};
ghost use Rattle.mls_tree.specs.Tree.{IsParentNodeIndex};
ghost use Rattle.mls_check.specs.DistinctKeys.{are_distinct, has_key, tree_keys};
ghost use Rattle.mls_index.specs.TreeIndex.{ContainsKeysOf};
ghost use Rattle.mls_apply.specs.PathRules.{has_new_keys, have_counts, path_keys};
ghost use Rattle.mls_apply.specs.PathParents.{away_resolution};

use crate::new_parents::{PathNodeIndices, copath_child};
use mls_index::{KeyKind, TreeIndex};
use mls_msgs::{PathNode, UpdatePath};
use mls_tree::PublicTree;
use std::alloc::{AllocError, Global};
use std::collections::BTreeSet;

/// Returns whether no key is twice in a path, its leaf's included.
fn has_distinct_keys(alloc: Global, path: &UpdatePath) -> Result<bool, AllocError>
    ensures { IfOk result (λ distinct. distinct ≡ are_distinct (path_keys path.now)) }
{
    let nodes = path.nodes.as_slice();
    let mut keys: BTreeSet<&[u8]> = BTreeSet::new(alloc);
    for index in (0..nodes.len()).rev() {
        if !keys.insert(nodes[index].encryption_key.as_slice())? {
            return Ok(false);
        }
    }
    Ok(keys.insert(path.leaf_node.encryption_key())?)
}

/// Returns whether a node of a tree whose keys the index contains has this key.
fn uses_key(tree: &PublicTree, index: &TreeIndex, key: &[u8]) -> bool
    requires { ContainsKeysOf tree.now.tree index.now }
    ensures { result ≡ has_key (tree_keys tree.now.tree) key.now }
{
    index.has_key(tree, KeyKind::Encryption, key)
}

/// Returns whether a node of the tree has one of the keys of a path.
fn uses_keys(tree: &PublicTree, index: &TreeIndex, path: &UpdatePath) -> bool
    requires { ContainsKeysOf tree.now.tree index.now }
    ensures { result ≡ list_any (has_key (tree_keys tree.now.tree)) (path_keys path.now) }
{
    let nodes = path.nodes.as_slice();
    if uses_key(tree, index, path.leaf_node.encryption_key()) {
        return true;
    }
    for node in nodes {
        if uses_key(tree, index, node.encryption_key.as_slice()) {
            return true;
        }
    }
    false
}

/// Returns whether no key of a path is in the tree, whose keys the index contains, or twice in the path (RFC 9420,
/// 12.4.2).
pub(crate) fn has_new_keys(
    alloc: Global,
    path: &UpdatePath,
    tree: &PublicTree,
    index: &TreeIndex,
) -> Result<bool, AllocError>
    requires { ContainsKeysOf tree.now.tree index.now }
    ensures { IfOk result (λ new. new ≡ has_new_keys path.now tree.now.tree) }
{
    if !has_distinct_keys(alloc, path)? {
        return Ok(false);
    }
    Ok(!uses_keys(tree, index, path))
}

/// Returns the node indices of added leaves.
fn node_indices_of(alloc: Global, added: &[u32]) -> Result<BTreeSet<u64>, AllocError>
    ensures { IfOk result (λ node_indices. (p : ℕ)
        → contains nat_cmp node_indices p ≡ list_any (λ j. p == 2 * j) added.now) }
{
    let mut node_indices = BTreeSet::new(alloc);
    for leaf in added {
        node_indices.insert(2 * u64::from(*leaf))?;
    }
    Ok(node_indices)
}

/// Returns whether the path node at a node index must have this many ciphertexts: one for each node of the resolution
/// of its child on the copath, without the added leaves.
fn has_recipients(
    tree: &PublicTree,
    leaf: u32,
    node_index: u32,
    added: &BTreeSet<u64>,
    count: usize,
) -> bool
    requires { IsParentNodeIndex tree.now.tree node_index }
    ensures { let resolution = away_resolution tree.now.tree leaf node_index in
        result ≡ (length (filter (λ p. not (contains nat_cmp added.now p)) resolution) == count) }
{
    let away = copath_child(tree, leaf, node_index);
    match tree.has_resolution_len(away, added, count) {
        Ok(right) => right,
        Err(_) => unreachable!(),
    }
}

/// Returns whether each node of a path has the right number of ciphertexts, if these leaves were added (RFC 9420, 7.6).
/// The nodes are at these node indices.
pub(crate) fn have_counts(
    alloc: Global,
    tree: &PublicTree,
    above: &PathNodeIndices<'_>,
    added: &[u32],
    nodes: &[PathNode],
) -> Result<bool, AllocError>
    requires parents { All (IsParentNodeIndex tree.now.tree) above.now.node_indices.now }
    requires paired { length nodes.now ≡ length above.now.node_indices.now }
    ensures { IfOk result (λ good.
        let resolutions = map (away_resolution tree.now.tree above.now.leaf) above.now.node_indices.now in
        good ≡ have_counts added.now resolutions nodes.now) }
{
    let added = node_indices_of(alloc, added)?;
    for (index, node) in nodes.iter().enumerate() {
        let count = node.ciphertexts.len();
        if !has_recipients(tree, above.leaf, above.node_indices[index], &added, count) {
            return Ok(false);
        }
    }
    Ok(true)
}
