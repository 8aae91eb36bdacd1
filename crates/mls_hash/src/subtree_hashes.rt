//! The tree hashes of all subtrees of a tree, each computed once (RFC 9420, 7.8).

ghost use Rattle.std.specs.Prelude.{◌≡◌, ◌+◌, ◌*◌, ◌≤◌, IfOk, OnOk, slice_get};
ghost use Rattle.std.specs.Bool.{OnTrue};
ghost use Rattle.mls_tree.specs.Tree.{leaf_count, subtree_at};
ghost use Rattle.mls_hash.specs.SuiteHash.{hash_of};
ghost use Rattle.mls_hash.specs.WalkResults.{HashesSubtree};
ghost use Rattle.mls_hash.specs.WithoutLeaves.{tree_hash_at};
ghost use Rattle.mls_hash.specs.SubtreeHashes.{AreAllHashes};
ghost use Rattle.mls_hash.specs.SubtreeHashesInternal.{AreHashesKept, AreHashesUnder, HasEntryForEachSubtree, AreCachedHashes, AreFilledIn, hashes_in};

use crate::cached_hashes::kept_hash;
use crate::fault::HashFault;
use crate::hash_input::{hash_leaf, hash_parent};
use crate::leaf_set::LeafSet;
use crate::suite::Suite;
use mls_tree::{HashList, HashValue, Part, PublicTree};
use std::alloc::{AllocError, Global};
use std::marker::Model;

/// Where the hashes are.
#[derive(Drop)]
enum Stored<'a> {
    /// In the first `count` slots of a tree's cache, which are all filled.
    InTree { tree: &'a PublicTree, count: u32 },
    /// In a list.
    InList(HashList),
}

impl<'a> Stored<'a> {
    /// Returns the hash at a node index.
    fn get(&self, node_index: u32) -> Option<HashValue>
        requires { AreFilledIn self.now }
        ensures { result ≡ slice_get (hashes_in self.now) node_index }
    {
        match self {
            Stored::InTree { tree, count } => {
                if node_index < *count {
                    tree.kept_hash(node_index)
                } else {
                    None
                }
            }
            Stored::InList(hashes) => hashes.get(node_index),
        }
    }
}

/// The tree hash of the subtree at each node index of a tree (RFC 9420, 7.8), each computed once.
///
/// If the tree caches all of them, they are read there. Otherwise each takes as many bytes as a hash of the suite. The
/// model is the list of the hashes, by node index.
#[derive(Drop)]
pub struct SubtreeHashes<'a> {
    stored: Stored<'a>,
    width: usize,
}

impl<'a> Model for SubtreeHashes<'a> {
    ghost use Rattle.std.specs.Prelude.{ℕ, ◌≤◌, List};
    ghost use Rattle.mls_hash.specs.SubtreeHashesInternal.{AreFilledIn, hashes_in};

    ghost Value = { List (List ℕ) };

    ghost view = { λ s. hashes_in s.stored };

    ghost invariant = { λ s. AreFilledIn s.stored × (s.width ≤ 64) };
}

/// Hashes the subtree at a node index, children first, and stores the hash of each of its subtrees.
fn put_hashes(
    suite: Suite,
    tree: &PublicTree,
    node_index: u32,
    hashes: &mut HashList,
) -> Result<HashValue, HashFault>
    requires { HasEntryForEachSubtree suite tree.now.tree hashes.old }
    ensures capacity { HasEntryForEachSubtree suite tree.now.tree hashes.new }
    ensures hash { HashesSubtree (subtree_at 0 tree.now.tree node_index)
        (tree_hash_at (hash_of suite) tree.now.tree node_index) result }
    ensures kept { let H = hash_of suite in
        OnOk result (AreHashesKept H tree.now.tree hashes.old.hashes hashes.new.hashes) }
    ensures put { let H = hash_of suite in
        OnOk result (AreHashesUnder H tree.now.tree hashes.new.hashes node_index) }
{
    match tree.part(node_index) {
        None => Err(HashFault::NoSuchNode),
        Some(Part::Leaf { index, node }) => {
            let hash = hash_leaf(suite, index, node);
            hashes.put(node_index, &hash);
            Ok(hash)
        }
        Some(
            Part::Parent {
                node,
                left,
                right,
                ..
            },
        ) => {
            let left = put_hashes(suite, tree, left, hashes)?;
            let right = put_hashes(suite, tree, right, hashes)?;
            let hash = hash_parent(suite, node, &LeafSet::empty(), &left, &right);
            hashes.put(node_index, &hash);
            Ok(hash)
        }
    }
}

/// Returns whether a tree caches the tree hashes of all its subtrees, by the suite's hash function. Stops at the first
/// empty slot.
fn are_all_cached(suite: Suite, tree: &PublicTree, count: u32) -> bool
    requires { count + 1 ≡ 2 * leaf_count tree.now.tree }
    ensures { OnTrue result (AreCachedHashes (hash_of suite) tree.now.tree count tree.now.slots) }
{
    for node_index in 0..count {
        if kept_hash(suite, tree, node_index).is_none() {
            return false;
        }
    }
    true
}

/// Hashes each subtree of a tree, children first, into a list.
fn hash_all(alloc: Global, suite: Suite, tree: &PublicTree) -> Result<HashList, AllocError>
    ensures { IfOk result (λ list. AreAllHashes (hash_of suite) tree.now.tree list.hashes) }
{
    let mut hashes = HashList::blank(alloc, tree.nodes().len(), suite.hash_len())?;
    let root = tree.leaf_count() - 1;
    match put_hashes(suite, tree, root, &mut hashes) {
        Ok(_) => Ok(hashes),
        Err(_) => unreachable!(),
    }
}

/// Returns the tree hashes of all subtrees: those that the tree caches, if it caches all of them.
fn stored_hashes<'a>(
    alloc: Global,
    suite: Suite,
    tree: &'a PublicTree,
) -> Result<Stored<'a>, AllocError>
    ensures hashes { IfOk result
        (λ stored. AreAllHashes (hash_of suite) tree.now.tree (hashes_in stored)) }
    ensures filled { IfOk result (λ stored. AreFilledIn stored) }
{
    let count = 2 * tree.leaf_count() - 1;
    if are_all_cached(suite, tree, count) {
        return Ok(Stored::InTree { tree, count });
    }
    Ok(Stored::InList(hash_all(alloc, suite, tree)?))
}

impl<'a> SubtreeHashes<'a> {
    /// Hashes each subtree of a tree, children first: one hash for each node. If the tree caches all of them, they are
    /// not computed or copied.
    pub fn new(
        alloc: Global,
        suite: Suite,
        tree: &'a PublicTree,
    ) -> Result<SubtreeHashes<'a>, AllocError>
        ensures { IfOk result (AreAllHashes (hash_of suite) tree.now.tree) }
    {
        Ok(SubtreeHashes {
            stored: stored_hashes(alloc, suite, tree)?,
            width: suite.hash_len(),
        })
    }

    /// Returns the tree hash of the subtree at a node index. `None` if there is none.
    pub fn get(&self, node_index: u32) -> Option<HashValue>
        ensures { result ≡ slice_get self.now node_index }
    {
        self.stored.get(node_index)
    }

    /// Returns the length of each hash.
    pub(crate) fn width(&self) -> usize
        ensures { result ≤ 64 }
    {
        self.width
    }
}
