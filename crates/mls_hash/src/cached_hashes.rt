//! The hash cache of a tree: reading it, and filling its empty slots (RFC 9420, 7.8).

ghost use Rattle.std.specs.Prelude.{◌≡◌, ◌≢◌, ◌↔◌, ◌⊎◌, ◌+◌, ◌*◌, None, Some, Err, IsSome, OnOk, IfOk, IfErr, IfSome, slice_get};
ghost use Rattle.mls_tree.specs.HashCache.{empty_count, hash_in, AreAllFilled};
ghost use Rattle.mls_tree.specs.Tree.{leaf_count, subtree_at};
ghost use Rattle.mls_hash.specs.SuiteHash.{hash_of, kind_of};
ghost use Rattle.mls_hash.specs.WalkResults.{HashesSubtree};
ghost use Rattle.mls_hash.specs.FilledCache.{HasCachedHash, FilledStay};
ghost use Rattle.mls_hash.specs.WithoutLeaves.{tree_hash_at};

use crate::fault::HashFault;
use crate::hash_input::{hash_leaf, hash_parent};
use crate::leaf_set::LeafSet;
use crate::suite::Suite;
use mls_tree::{HashValue, Part, PublicTree};
use std::alloc::Global;

/// Returns the cached tree hash of the subtree at a node index, if the cache is of the suite's hash function.
pub(crate) fn kept_hash(suite: Suite, tree: &PublicTree, node_index: u32) -> Option<HashValue>
    ensures cached { IfSome result (λ h. hash_in (slice_get tree.now.slots node_index) ≡ Some h) }
    ensures right { IfSome result (λ h. tree_hash_at (hash_of suite) tree.now.tree node_index ≡ Some h) }
{
    if tree.hash_kind() != Some(suite.kind()) {
        return None;
    }
    tree.kept_hash(node_index)
}

/// Returns the tree hash of the subtree at a node index: the cached one, if its slot is filled. Otherwise its children
/// are hashed first, in the same way, and its slot is filled. That is one hash for each empty slot visited, and none
/// below a filled one.
fn fill(suite: Suite, tree: &mut PublicTree, node_index: u32) -> Result<HashValue, HashFault>
    requires { tree.old.kind ≡ Some (kind_of suite) }
    ensures hash { HashesSubtree (subtree_at 0 tree.old.tree node_index)
        (tree_hash_at (hash_of suite) tree.old.tree node_index) result }
    ensures tree { tree.new.tree ≡ tree.old.tree }
    ensures kind { tree.new.kind ≡ tree.old.kind }
    ensures stays { FilledStay tree.old.slots tree.new.slots }
    ensures filled { OnOk result (HasCachedHash tree.new.slots node_index) }
{
    if let Some(hash) = tree.kept_hash(node_index) {
        return Ok(hash);
    }
    match tree.part(node_index) {
        None => Err(HashFault::NoSuchNode),
        Some(Part::Leaf { index, node }) => {
            let hash = hash_leaf(suite, index, node);
            tree.keep_hash(node_index, hash);
            Ok(hash)
        }
        Some(Part::Parent { left, right, .. }) => {
            let left = fill(suite, tree, left)?;
            let right = fill(suite, tree, right)?;
            let node = tree.parent(node_index);
            let hash = hash_parent(suite, node, &LeafSet::empty(), &left, &right);
            tree.keep_hash(node_index, hash);
            Ok(hash)
        }
    }
}

/// Fills the empty slots, from the root down to filled ones.
fn fill_from_root(suite: Suite, tree: &mut PublicTree)
    requires { tree.old.kind ≡ Some (kind_of suite) }
    ensures tree { tree.new.tree ≡ tree.old.tree }
    ensures kind { tree.new.kind ≡ tree.old.kind }
{
    let root = tree.leaf_count() - 1;
    let Ok(_) = fill(suite, tree, root) else {
        unreachable!()
    };
}

/// Visits each node index, and fills its slot if it is empty.
fn fill_each(suite: Suite, tree: &mut PublicTree)
    requires { tree.old.kind ≡ Some (kind_of suite) }
    ensures tree { tree.new.tree ≡ tree.old.tree }
    ensures kind { tree.new.kind ≡ tree.old.kind }
    ensures filled { AreAllFilled tree.new.tree tree.new.slots }
{
    for node_index in 0..2 * tree.leaf_count() - 1 {
        let Ok(_) = fill(suite, tree, node_index) else {
            unreachable!()
        };
    }
}

/// Fills all empty slots. Each node index is visited only if slots below filled ones are empty.
fn fill_all(suite: Suite, tree: &mut PublicTree)
    requires { tree.old.kind ≡ Some (kind_of suite) }
    ensures tree { tree.new.tree ≡ tree.old.tree }
    ensures kind { tree.new.kind ≡ tree.old.kind }
    ensures filled { AreAllFilled tree.new.tree tree.new.slots }
{
    fill_from_root(suite, tree);
    if tree.empty_slots() > 0 {
        fill_each(suite, tree);
    }
}

/// Fills the hash cache of a tree with the suite's hash function, and returns how many slots were empty. These are all
/// slots, if the tree had no cache, or one of another hash function, which is dropped. The nodes are unchanged.
///
/// It descends from the root into empty slots only. Each node index is visited only if slots below filled ones are
/// empty, as a caller's own [`PublicTree::keep_hash`] may leave them.
///
/// # Errors
///
/// `OutOfMemory`, before any slot is filled.
pub fn fill_hashes(alloc: Global, suite: Suite, tree: &mut PublicTree) -> Result<u32, HashFault>
    ensures tree { tree.new.tree ≡ tree.old.tree }
    ensures kind { OnOk result (tree.new.kind ≡ Some (kind_of suite)) }
    ensures filled { OnOk result (AreAllFilled tree.new.tree tree.new.slots) }
    ensures count { tree.old.kind ≡ Some (kind_of suite)
        → IfOk result (λ n. n ≡ empty_count tree.old.slots) }
    ensures all { tree.old.kind ≢ Some (kind_of suite)
        → IfOk result (λ n. n + 1 ≡ 2 * leaf_count tree.old.tree) }
    ensures memory { IfErr result (λ e. e ≡ HashFault.OutOfMemory) }
{
    tree.reserve_hashes(alloc, suite.kind())?;
    let empty = tree.empty_slots();
    fill_all(suite, tree);
    Ok(empty)
}

/// Returns the tree hash of the subtree at a node index (RFC 9420, 7.8), and fills the empty slots of the tree's hash cache
/// that it takes: that of the subtree, and those below it down to filled ones. The cache is then one of the suite's hash
/// function; one of another hash function is dropped. The nodes are unchanged.
///
/// # Errors
///
/// `NoSuchNode` if and only if the tree has no such node, which is checked first, or `OutOfMemory`. No slot is filled then.
pub fn filled_hash(
    alloc: Global,
    suite: Suite,
    tree: &mut PublicTree,
    node_index: u32,
) -> Result<HashValue, HashFault>
    ensures hash { IfOk result
        (λ h. tree_hash_at (hash_of suite) tree.old.tree node_index ≡ Some h) }
    ensures tree { tree.new.tree ≡ tree.old.tree }
    ensures kind { OnOk result (tree.new.kind ≡ Some (kind_of suite)) }
    ensures filled { OnOk result (IsSome (hash_in (slice_get tree.new.slots node_index))) }
    ensures no_such_node { (result ≡ Err HashFault.NoSuchNode)
        ↔ (subtree_at 0 tree.old.tree node_index ≡ None) }
    ensures possible_errors { IfErr result
        (λ e. (e ≡ HashFault.NoSuchNode) ⊎ (e ≡ HashFault.OutOfMemory)) }
{
    if tree.part(node_index).is_none() {
        return Err(HashFault::NoSuchNode);
    }
    tree.reserve_hashes(alloc, suite.kind())?;
    fill(suite, tree, node_index)
}
