//! The parents that an update path makes, from the root down to a leaf, each from the parent hash of the one above it
//! (RFC 9420, 7.5 and 7.9). A parent hash needs the tree hash of the child on the copath, which is read from the cache
//! if it is there.

ghost use Rattle.std.specs.Prelude.{◌≡◌, ◌<◌, Some, All, IfOk, IsSome, OnOk, [], length, map, reverse};
ghost use Rattle.mls_tree.specs.TreeOperations.{blank_path, put_leaf};
ghost use Rattle.mls_tree.specs.Journals.{before};
ghost use Rattle.mls_tree.specs.LoggedHashes.{HasRightHashes};
ghost use Rattle.mls_tree.specs.Tree.{leaf_count, subtree_at, IsParentNodeIndex};
ghost use Rattle.mls_hash.specs.SuiteHash.{hash_of};
ghost use Rattle.mls_hash.specs.WithoutLeaves.{tree_hash_at};
ghost use Rattle.mls_apply.specs.MergePath.{path_parent};
ghost use Rattle.mls_apply.specs.PathParents.{away_at, changed, path_hash_at, path_parents};
ghost use Rattle.mls_apply.specs.PathModel.{change_of, path_parents_model};

use crate::leaf_changes::blank_direct_path;
use mls_hash::{HashFault, Suite, filled_hash, parent_hash_of, tree_hash};
use mls_nodes::{EncodedLeaf, ParentNode, Unmerged};
use mls_tree::{HashValue, Journal, Part, PublicTree};
use mls_wire::{Opaque, Shared};
use std::alloc::{AllocError, Global};

/// A leaf, and the node indices of parents above it, the lowest first.
#[derive(Drop)]
pub(crate) struct PathNodeIndices<'a> {
    pub(crate) leaf: u32,
    pub(crate) node_indices: &'a [u32],
}

/// A new parent, with its node index.
#[derive(Drop)]
pub(crate) struct NewParent {
    pub(crate) node_index: u32,
    pub(crate) node: Box<ParentNode>,
}

/// The new parents above a leaf, the root's first, and the parent hash for the leaf.
#[derive(Drop)]
pub(crate) struct NewParents {
    pub(crate) parents: Vec<NewParent>,
    pub(crate) hash: HashValue,
}

/// The new nodes of a path: the leaf's, and the new parents above it.
#[derive(Drop)]
pub(crate) struct NewNodes {
    pub(crate) leaf: Shared<EncodedLeaf>,
    pub(crate) parents: Vec<NewParent>,
}

/// Returns the node index of the child on the copath of a leaf, of the parent at a node index.
pub(crate) fn copath_child(tree: &PublicTree, leaf: u32, node_index: u32) -> u32
    requires { IsParentNodeIndex tree.now.tree node_index }
    ensures child { subtree_at 0 tree.now.tree result ≡ away_at tree.now.tree leaf node_index }
    ensures there { IsSome (subtree_at 0 tree.now.tree result) }
{
    let Some(
        Part::Parent {
            left,
            right,
            middle,
            ..
        },
    ) = tree.part(node_index)
    else {
        unreachable!()
    };
    if leaf < middle { right } else { left }
}

/// Fills the hash cache of a tree at a node index, and below it.
pub(crate) fn fill_subtree(
    alloc: Global,
    suite: Suite,
    tree: &mut PublicTree,
    node_index: u32,
) -> Result<(), AllocError>
    requires there { IsSome (subtree_at 0 tree.old.tree node_index) }
    ensures tree { tree.new.tree ≡ tree.old.tree }
{
    match filled_hash(alloc, suite, tree, node_index) {
        Ok(_) => Ok(()),
        Err(HashFault::OutOfMemory) => Err(AllocError),
        Err(_) => unreachable!(),
    }
}

/// Fills the hash cache of a tree at the children on the copath of a leaf, of the parents at these node indices above it, and
/// below these children. The leaf and the parents above it, which a path replaces, are not hashed.
pub(crate) fn fill_copath(
    alloc: Global,
    suite: Suite,
    tree: &mut PublicTree,
    above: &PathNodeIndices<'_>,
) -> Result<(), AllocError>
    requires parents { All (IsParentNodeIndex tree.old.tree) above.now.node_indices.now }
    ensures tree { tree.new.tree ≡ tree.old.tree }
{
    for node_index in above.node_indices {
        let away = copath_child(tree, above.leaf, *node_index);
        fill_subtree(alloc, suite, tree, away)?;
    }
    Ok(())
}

/// Returns the tree hash of the subtree at a node index.
fn subtree_hash(suite: Suite, tree: &PublicTree, node_index: u32) -> HashValue
    requires there { IsSome (subtree_at 0 tree.now.tree node_index) }
    ensures { tree_hash_at (hash_of suite) tree.now.tree node_index ≡ Some result }
{
    match tree_hash(suite, tree, node_index) {
        Ok(hash) => hash,
        Err(_) => unreachable!(),
    }
}

/// Returns the parent hash of a parent that a path makes above a leaf (RFC 9420, 7.9). It has no unmerged leaves, so
/// the whole child on the copath is hashed.
fn path_hash(suite: Suite, tree: &PublicTree, leaf: u32, parent: &NewParent) -> HashValue
    requires parent { IsParentNodeIndex tree.now.tree parent.now.node_index }
    ensures { path_hash_at (hash_of suite) tree.now.tree leaf parent.now.node_index
        parent.now.node.value ≡ Some result }
{
    let away = copath_child(tree, leaf, parent.node_index);
    let original = subtree_hash(suite, tree, away);
    parent_hash_of(suite, &parent.node, &original)
}

/// Returns a parent that a path makes (RFC 9420, 7.5): with this key, the parent hash from the parent above, and no
/// unmerged leaves.
fn path_parent(alloc: Global, key: Opaque, hash: &HashValue) -> Result<Box<ParentNode>, AllocError>
    ensures { IfOk result (λ node. node.value ≡ path_parent key hash.now) }
{
    let parent_hash = hash.to_opaque(alloc)?;
    let Ok(unmerged) = Unmerged::new(Vec::new(alloc)) else {
        unreachable!()
    };
    Ok(Box::new(
        alloc,
        ParentNode {
            encryption_key: key,
            parent_hash,
            unmerged,
        },
    )?)
}

/// Returns the new parents of a path of a leaf through these node indices above it, with these keys, the lowest first.
pub(crate) fn new_parents(
    alloc: Global,
    suite: Suite,
    tree: &PublicTree,
    above: &PathNodeIndices<'_>,
    mut keys: Vec<Opaque>,
) -> Result<NewParents, AllocError>
    requires parents { All (IsParentNodeIndex tree.now.tree) above.now.node_indices.now }
    requires paired { length keys.items ≡ length above.now.node_indices.now }
    ensures { IfOk result (λ new.
        path_parents (hash_of suite) tree.now.tree above.now.leaf
        (reverse above.now.node_indices.now) (reverse keys.items) []
        ≡ Some (path_parents_model new)) }
{
    let mut hash = HashValue::new(&[]).unwrap();
    let mut parents = Vec::new(alloc);
    while let Some(key) = keys.pop() {
        let node_index = above.node_indices[keys.len()];
        let node = path_parent(alloc, key, &hash)?;
        let parent = NewParent { node_index, node };
        hash = path_hash(suite, tree, above.leaf, &parent);
        parents.push(parent)?;
    }
    Ok(NewParents { parents, hash })
}

/// Puts new parents in place, the last one first.
fn put_parents(tree: &mut PublicTree, mut parents: Vec<NewParent>)
    requires { All (λ p. IsParentNodeIndex tree.old.tree p.node_index) parents.items }
    ensures { tree.new.tree ≡ changed 0 tree.old.tree (map change_of parents.items) }
{
    while let Some(parent) = parents.pop() {
        let Ok(()) = tree.put_parent(parent.node_index, Some(parent.node)) else {
            unreachable!();
        };
    }
}

/// Merges new nodes into a tree: the parents above the leaf become blank, new ones are put in place, and then the
/// leaf. Does not allocate.
pub(crate) fn put_path(tree: &mut PublicTree, leaf: u32, new: NewNodes)
    requires inside { leaf < leaf_count tree.old.tree }
    requires parents { All (λ p. IsParentNodeIndex tree.old.tree p.node_index) new.parents.items }
    ensures { tree.new.tree ≡
        put_leaf 0 (changed 0 (blank_path tree.old.tree leaf) (map change_of new.parents.items))
        leaf (Some new.leaf) }
{
    let NewNodes {
        leaf: node,
        parents,
    } = new;
    blank_direct_path(tree, leaf);
    put_parents(tree, parents);
    let Ok(()) = tree.set_leaf(leaf, Some(node)) else {
        unreachable!();
    };
}

/// Puts new parents in place, the last one first, through a journal.
fn put_parents_in_place(
    tree: &mut PublicTree,
    journal: &mut Journal,
    mut parents: Vec<NewParent>,
) -> Result<(), AllocError>
    requires { All (λ p. IsParentNodeIndex tree.old.tree p.node_index) parents.items }
    ensures put { OnOk result
        (tree.new.tree ≡ changed 0 tree.old.tree (map change_of parents.items)) }
    ensures before { before journal.new tree.new.tree ≡ before journal.old tree.old.tree }
    ensures hashes { HasRightHashes journal.old tree.old.tree → HasRightHashes journal.new tree.new.tree }
{
    while let Some(parent) = parents.pop() {
        journal.put_parent(tree, parent.node_index, Some(parent.node))?;
    }
    Ok(())
}

/// Merges new nodes into a tree as [`put_path`] does, through a journal.
pub(crate) fn put_path_in_place(
    alloc: Global,
    tree: &mut PublicTree,
    journal: &mut Journal,
    leaf: u32,
    new: NewNodes,
) -> Result<(), AllocError>
    requires inside { leaf < leaf_count tree.old.tree }
    requires parents { All (λ p. IsParentNodeIndex tree.old.tree p.node_index) new.parents.items }
    ensures put { OnOk result (tree.new.tree ≡
        put_leaf 0 (changed 0 (blank_path tree.old.tree leaf) (map change_of new.parents.items))
        leaf (Some new.leaf)) }
    ensures before { before journal.new tree.new.tree ≡ before journal.old tree.old.tree }
    ensures hashes { HasRightHashes journal.old tree.old.tree → HasRightHashes journal.new tree.new.tree }
{
    let NewNodes {
        leaf: node,
        parents,
    } = new;
    journal.blank_path(alloc, tree, leaf)?;
    put_parents_in_place(tree, journal, parents)?;
    journal.set_leaf(tree, leaf, Some(node))?;
    Ok(())
}
