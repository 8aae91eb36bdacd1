//! Update paths: the expected parent hashes, and the tree with a path merged (RFC 9420, 7.5, 7.6 and 7.9).

ghost use Rattle.std.specs.Prelude.{◌≡◌, ◌≢◌, ◌<◌, ◌≤◌, ◌⊎◌, ◌↔◌, ◌∷◌, ℕ, List, Err, Some, None, IfOk, IfErr, OnOk, length, map, true};
ghost use Rattle.mls_hash.specs.SuiteHash.{hash_of};
ghost use Rattle.mls_tree.specs.Tree.{leaf_count};
ghost use Rattle.mls_tree.specs.Paths.{filtered_direct_path};
ghost use Rattle.mls_index.specs.TreeIndex.{ContainsKeysOf};
ghost use Rattle.mls_apply.specs.MergePath.{expected_hashes, merged};
ghost use Rattle.mls_apply.specs.AppliedList.{applied_tree};
ghost use Rattle.mls_apply.specs.PathRules.{has_first_parent_hash, keys_refusal, node_keys, path_refusal};
ghost use Rattle.mls_apply.specs.ProposalRules.{is_from_commit};
ghost use Rattle.mls_apply.specs.PathParents.{carried};
ghost use Rattle.mls_apply.specs.PathModel.{hash_refusal, path_parents_model};
ghost use Rattle.mls_apply.specs.CommitterPath.{committer_path_refusal};
ghost use Rattle.mls_apply.specs.CommitterPathInternal.{AreNewNodes};

use crate::committer_path::CommitterPath;
use crate::leaf_changes::leaf_of;
use crate::list_application::Applied;
use crate::new_parents::{
    NewNodes, NewParents, PathNodeIndices, fill_copath, new_parents, put_path,
};
use crate::path_rules::{has_new_keys, have_counts};
use crate::refusal::Refusal;
use mls_hash::Suite;
use mls_index::TreeIndex;
use mls_msgs::{PathNode, UpdatePath};
use mls_nodes::{LeafSource, ParentNode};
use mls_tree::{HashValue, PublicTree, TreeError};
use mls_wire::{Opaque, copy_of};
use std::alloc::{AllocError, Global};

/// Returns the node indices of the filtered direct path of a leaf, the lowest node first (RFC 9420, 4.1.2).
///
/// # Errors
///
/// `SenderNotMember` if and only if the leaf is outside the tree, or `OutOfMemory`.
fn path_node_indices(alloc: Global, tree: &PublicTree, leaf: u32) -> Result<Vec<u32>, Refusal>
    ensures node_indices { IfOk result (λ node_indices. let t = tree.now.tree in
        node_indices.items ≡ filtered_direct_path (leaf_count t) 0 t leaf) }
    ensures inside { OnOk result (leaf < leaf_count tree.now.tree) }
    ensures outside { (result ≡ Err Refusal.SenderNotMember)
        ↔ (leaf_count tree.now.tree ≤ leaf) }
    ensures possible_errors { IfErr result (λ e.
        (e ≡ Refusal.SenderNotMember) ⊎ (e ≡ Refusal.OutOfMemory)) }
{
    if leaf >= tree.leaf_count() {
        return Err(Refusal::SenderNotMember);
    }
    match tree.filtered_direct_path(alloc, leaf) {
        Ok(node_indices) => Ok(node_indices),
        Err(TreeError::OutOfMemory) => Err(Refusal::OutOfMemory),
        Err(_) => unreachable!(),
    }
}

/// Returns copies of keys.
fn copies_of(alloc: Global, keys: &[Opaque]) -> Result<Vec<Opaque>, AllocError>
    ensures { IfOk result (λ copies. copies.items ≡ keys.now) }
{
    let mut copies = Vec::new(alloc);
    for key in keys {
        copies.push(copy_of(alloc, key)?)?;
    }
    Ok(copies)
}

/// Returns copies of the keys of a path's nodes.
fn node_keys(alloc: Global, nodes: &[PathNode]) -> Result<Vec<Opaque>, AllocError>
    ensures { IfOk result (λ keys. keys.items ≡ map (λ n. n.encryption_key) nodes.now) }
{
    let mut keys = Vec::new(alloc);
    for node in nodes {
        keys.push(node.encryption_key.to_opaque(alloc)?)?;
    }
    Ok(keys)
}

/// Returns the parent hashes for a leaf and for each new parent above it, the leaf's first.
fn carried(alloc: Global, new: NewParents) -> Result<Vec<Opaque>, AllocError>
    ensures { IfOk result (λ hashes. hashes.items ≡ carried (path_parents_model new)) }
{
    let NewParents { mut parents, hash } = new;
    let mut hashes = Vec::new(alloc);
    hashes.push(hash.to_opaque(alloc)?)?;
    while let Some(parent) = parents.pop() {
        let ParentNode { parent_hash, .. } = Box::into_inner(parent.node);
        hashes.push(parent_hash)?;
    }
    Ok(hashes)
}

/// Returns the parent hashes that an update path of the committer with these keys, the lowest node's first, must have
/// (RFC 9420, 7.9): first the leaf's, then one for each node. The last one is empty.
///
/// This is for callers of the library that make a path.
///
/// # Errors
///
/// `SenderNotMember` if the tree has no leaf of this index, which is checked before anything is allocated; else `PathLength` if
/// the number of keys is not that of the filtered direct path; or `OutOfMemory`.
pub fn expected_parent_hashes(
    alloc: Global,
    suite: Suite,
    tree: &PublicTree,
    committer: u32,
    keys: &[Opaque],
) -> Result<Vec<Opaque>, Refusal>
    ensures hashes { IfOk result (λ hashes.
        expected_hashes (hash_of suite) tree.now.tree committer keys.now ≡ Some hashes.items) }
    ensures rules_hold { OnOk result (keys_refusal tree.now.tree committer keys.now ≡ None) }
    ensures refused { IfErr result (λ e. e ≢ Refusal.OutOfMemory
        → keys_refusal tree.now.tree committer keys.now ≡ Some e) }
    ensures sender_not_member { (result ≡ Err Refusal.SenderNotMember)
        ↔ (keys_refusal tree.now.tree committer keys.now ≡ Some Refusal.SenderNotMember) }
{
    let node_indices = path_node_indices(alloc, tree, committer)?;
    if keys.len() != node_indices.len() {
        return Err(Refusal::PathLength);
    }
    let keys = copies_of(alloc, keys)?;
    let above = PathNodeIndices {
        leaf: committer,
        node_indices: &node_indices,
    };
    let new = new_parents(alloc, suite, tree, &above, keys)?;
    Ok(carried(alloc, new)?)
}

/// Returns whether the source of a leaf node is commit (RFC 9420, 7.2).
fn is_from_commit(source: &LeafSource<'_>) -> bool
    ensures { result ≡ is_from_commit source.now }
{
    matches!(source, LeafSource::Commit { .. })
}

/// Returns whether the source of a leaf node is commit, with this parent hash.
fn carries(source: &LeafSource<'_>, hash: &HashValue) -> bool
    ensures { (hashes : List (List ℕ))
        → result ≡ has_first_parent_hash source.now (Some (hash.now ∷ hashes)) }
{
    match source {
        LeafSource::Commit { parent_hash } => parent_hash.as_slice() == hash.as_slice(),
        _ => false,
    }
}

/// Returns the node indices of the nodes of a path, if it has one node for each node of the committer's filtered direct
/// path, and its leaf node is from a commit. These rules for paths come first, and need no index of the tree's keys.
///
/// # Errors
///
/// `SenderNotMember` if the tree has no such leaf, before any allocation; else `PathLength` or `PathSource`, the first that
/// applies; or `OutOfMemory`.
pub(crate) fn fitting_node_indices(
    alloc: Global,
    tree: &PublicTree,
    path: &CommitterPath<'_>,
) -> Result<Vec<u32>, Refusal>
    ensures node_indices { IfOk result (λ node_indices. let t = tree.now.tree in
        node_indices.items ≡ filtered_direct_path (leaf_count t) 0 t path.now.leaf) }
    ensures paired { IfOk result (λ node_indices. length path.now.path.now.nodes ≡ length node_indices.items) }
    ensures inside { OnOk result (path.now.leaf < leaf_count tree.now.tree) }
    ensures commit { OnOk result (is_from_commit path.now.path.now.leaf_node.source ≡ true) }
    ensures refused { IfErr result (λ e. e ≢ Refusal.OutOfMemory → (H : List ℕ → List ℕ)
        → committer_path_refusal H tree.now.tree path.now ≡ Some e) }
    ensures outside { (result ≡ Err Refusal.SenderNotMember)
        ↔ (leaf_count tree.now.tree ≤ path.now.leaf) }
{
    let nodes = path.path.nodes.as_slice();
    let node_indices = path_node_indices(alloc, tree, path.leaf)?;
    if nodes.len() != node_indices.len() {
        return Err(Refusal::PathLength);
    }
    if !is_from_commit(&path.path.leaf_node.source()) {
        return Err(Refusal::PathSource);
    }
    Ok(node_indices)
}

/// Checks the keys and the ciphertexts of a path that satisfies the rules of [`fitting_node_indices`], which returned
/// `node_indices`. The index must contain the tree's keys. No tree hash is computed.
///
/// # Errors
///
/// The first of `PathKeyUsed` and `CiphertextCount` that applies, or `OutOfMemory`.
pub(crate) fn check_keys_and_counts(
    alloc: Global,
    tree: &PublicTree,
    index: &TreeIndex,
    node_indices: &[u32],
    path: &CommitterPath<'_>,
) -> Result<(), Refusal>
    requires index_contains_keys { ContainsKeysOf tree.now.tree index.now }
    requires node_indices { let t = tree.now.tree in
        node_indices.now ≡ filtered_direct_path (leaf_count t) 0 t path.now.leaf }
    requires paired { length path.now.path.now.nodes ≡ length node_indices.now }
    requires inside { path.now.leaf < leaf_count tree.now.tree }
    requires commit { is_from_commit path.now.path.now.leaf_node.source ≡ true }
    ensures rules_hold { OnOk result ((H : List ℕ → List ℕ)
        → committer_path_refusal H tree.now.tree path.now
        ≡ hash_refusal H path.now.path.now tree.now.tree path.now.leaf) }
    ensures refused { IfErr result (λ e. e ≢ Refusal.OutOfMemory → (H : List ℕ → List ℕ)
        → committer_path_refusal H tree.now.tree path.now ≡ Some e) }
{
    let nodes = path.path.nodes.as_slice();
    if !has_new_keys(alloc, path.path, tree, index)? {
        return Err(Refusal::PathKeyUsed);
    }
    let added = path.added.as_slice();
    let above = PathNodeIndices {
        leaf: path.leaf,
        node_indices,
    };
    if !have_counts(alloc, tree, &above, added, nodes)? {
        return Err(Refusal::CiphertextCount);
    }
    Ok(())
}

/// Returns the new nodes of a path that satisfies the other rules for paths, if its leaf has the parent hash that the
/// path makes. The path's nodes are those at `node_indices`.
fn new_nodes(
    alloc: Global,
    suite: Suite,
    tree: &PublicTree,
    node_indices: &[u32],
    path: &CommitterPath<'_>,
) -> Result<NewNodes, Refusal>
    requires node_indices { let t = tree.now.tree in
        node_indices.now ≡ filtered_direct_path (leaf_count t) 0 t path.now.leaf }
    requires paired { length path.now.path.now.nodes ≡ length node_indices.now }
    requires inside { path.now.leaf < leaf_count tree.now.tree }
    ensures made { IfOk result (AreNewNodes (hash_of suite) tree.now.tree path.now) }
    ensures rules_hold { OnOk result
        (hash_refusal (hash_of suite) path.now.path.now tree.now.tree path.now.leaf ≡ None) }
    ensures refused { IfErr result (λ e. e ≢ Refusal.OutOfMemory
        → hash_refusal (hash_of suite) path.now.path.now tree.now.tree path.now.leaf ≡ Some e) }
    ensures possible_errors { IfErr result (λ e.
        (e ≡ Refusal.PathParentHash) ⊎ (e ≡ Refusal.OutOfMemory)) }
{
    let keys = node_keys(alloc, path.path.nodes.as_slice())?;
    let above = PathNodeIndices {
        leaf: path.leaf,
        node_indices,
    };
    let new = new_parents(alloc, suite, tree, &above, keys)?;
    if !carries(&path.path.leaf_node.source(), &new.hash) {
        return Err(Refusal::PathParentHash);
    }
    let leaf = leaf_of(alloc, &path.path.leaf_node)?;
    Ok(NewNodes {
        leaf,
        parents: new.parents,
    })
}

/// Returns the new nodes of a path that satisfies the rules of [`fitting_node_indices`] and [`check_keys_and_counts`], if
/// it satisfies the last rule for paths. The path's nodes are those at `node_indices`. The hashes that the tree caches of
/// the subtrees on the copath are filled before this rule is checked, and only then: parent hashes take them.
///
/// # Errors
///
/// `PathParentHash` or `OutOfMemory`. The tree is unchanged, except for hashes that are filled.
pub(crate) fn filled_nodes(
    alloc: Global,
    suite: Suite,
    tree: &mut PublicTree,
    node_indices: &[u32],
    path: &CommitterPath<'_>,
) -> Result<NewNodes, Refusal>
    requires node_indices { let t = tree.old.tree in
        node_indices.now ≡ filtered_direct_path (leaf_count t) 0 t path.now.leaf }
    requires paired { length path.now.path.now.nodes ≡ length node_indices.now }
    requires inside { path.now.leaf < leaf_count tree.old.tree }
    requires other_rules_hold { let H = hash_of suite in committer_path_refusal H tree.old.tree path.now
        ≡ hash_refusal H path.now.path.now tree.old.tree path.now.leaf }
    ensures tree { tree.new.tree ≡ tree.old.tree }
    ensures made { IfOk result (AreNewNodes (hash_of suite) tree.old.tree path.now) }
    ensures rules_hold { OnOk result (committer_path_refusal (hash_of suite) tree.old.tree path.now ≡ None) }
    ensures refused { IfErr result (λ e. e ≢ Refusal.OutOfMemory
        → committer_path_refusal (hash_of suite) tree.old.tree path.now ≡ Some e) }
{
    let above = PathNodeIndices {
        leaf: path.leaf,
        node_indices,
    };
    fill_copath(alloc, suite, tree, &above)?;
    new_nodes(alloc, suite, tree, node_indices, path)
}

/// Returns the new nodes of a path, if it satisfies the rules for paths. The tree's keys are indexed only if it satisfies
/// those of [`fitting_node_indices`].
///
/// # Errors
///
/// `SenderNotMember` if the tree has no such leaf, before any allocation; else the first of `PathLength`, `PathSource`,
/// `PathKeyUsed`, `CiphertextCount` and `PathParentHash` that applies; or `OutOfMemory`. The tree is unchanged, except
/// for hashes that are filled.
fn checked_nodes(
    alloc: Global,
    suite: Suite,
    tree: &mut PublicTree,
    path: &CommitterPath<'_>,
) -> Result<NewNodes, Refusal>
    ensures tree { tree.new.tree ≡ tree.old.tree }
    ensures made { IfOk result (AreNewNodes (hash_of suite) tree.old.tree path.now) }
    ensures rules_hold { OnOk result (committer_path_refusal (hash_of suite) tree.old.tree path.now ≡ None) }
    ensures refused { IfErr result (λ e. e ≢ Refusal.OutOfMemory
        → committer_path_refusal (hash_of suite) tree.old.tree path.now ≡ Some e) }
{
    let node_indices = fitting_node_indices(alloc, tree, path)?;
    let index = TreeIndex::of(alloc, tree)?;
    check_keys_and_counts(alloc, tree, &index, node_indices.as_slice(), path)?;
    drop(index);
    filled_nodes(alloc, suite, tree, node_indices.as_slice(), path)
}

/// Returns the tree with an update path of the committer merged (RFC 9420, 7.5). Its leaf is that of the path, the
/// parents of its filtered direct path have the path's keys and no unmerged leaves, and the other parents above it are
/// blank.
///
/// This is for callers of the library: a [`StagedTree`](crate::StagedTree) merges a path in place.
///
/// # Errors
///
/// `SenderNotMember` if the tree has no leaf of this index, which is checked before anything is allocated; else the first of
/// `PathLength`, `PathSource`, `PathKeyUsed`, `CiphertextCount` and `PathParentHash` that applies; or `OutOfMemory`.
/// The arguments are returned as they were, except that slots of the tree's hash cache may have been filled.
pub fn merge_path(
    alloc: Global,
    suite: Suite,
    applied: Applied,
    committer: u32,
    path: &UpdatePath,
) -> Result<PublicTree, (Refusal, Applied)>
    ensures merged { IfOk result (λ tree. let keys = node_keys path.now in
        merged (hash_of suite) applied.tree.tree committer path.now.leaf_node keys
        ≡ Some tree.tree) }
    ensures rules_hold { let g = applied_tree applied.tree.tree applied.added in
        OnOk result (path_refusal (hash_of suite) g committer path.now ≡ None) }
    ensures refused { let g = applied_tree applied.tree.tree applied.added in
        IfErr result (λ e. e.0 ≢ Refusal.OutOfMemory
        → path_refusal (hash_of suite) g committer path.now ≡ Some e.0) }
    ensures sender_not_member { let g = applied_tree applied.tree.tree applied.added in
        (result ≡ Err (Refusal.SenderNotMember, applied))
        ↔ (path_refusal (hash_of suite) g committer path.now ≡ Some Refusal.SenderNotMember) }
    ensures returned_arguments { IfErr result (λ e.
        (e.1.tree.tree ≡ applied.tree.tree) × (e.1.added ≡ applied.added)) }
{
    if committer >= applied.tree.leaf_count() {
        return Err((Refusal::SenderNotMember, applied));
    }
    let Applied { mut tree, added } = applied;
    let of_committer = CommitterPath {
        leaf: committer,
        added: &added,
        path,
    };
    let new = checked_nodes(alloc, suite, &mut tree, &of_committer);
    match new {
        Ok(new) => {
            put_path(&mut tree, committer, new);
            Ok(tree)
        }
        Err(refusal) => Err((refusal, Applied { tree, added })),
    }
}
