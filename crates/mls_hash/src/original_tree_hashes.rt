//! The original tree hashes from which parent hashes are computed (RFC 9420, 7.9), for a walk that visits the children
//! of a parent before it.

ghost use Rattle.std.specs.Prelude.{◌≡◌, ◌↔◌, ◌/◌, ℕ, List, [], None, Some, Err, IfOk, IfErr, IfSome, option_copied, slice_get};
ghost use Rattle.mls_tree.specs.Tree.{subtree_at};
ghost use Rattle.mls_hash.specs.SuiteHash.{hash_of};
ghost use Rattle.mls_hash.specs.WalkResults.{HashesSubtree};
ghost use Rattle.mls_hash.specs.OriginalTreeHashes.{AreChildHashes, AreKnownHashes, HasNonDecreasingLists};
ghost use Rattle.mls_hash.specs.OriginalTreeHashesInternal.{KeepsOwn, ListsJust};
ghost use Rattle.mls_hash.specs.ParentHash.{parent_at, parent_hash_at};
ghost use Rattle.mls_hash.specs.WithoutLeaves.{original_tree_hash_at};
ghost use Rattle.mls_hash.specs.SubtreeHashes.{AreSubtreeHashes, HoldsOwnLeaves};
ghost use Rattle.mls_hash.specs.SubtreeHashesInternal.{AreLeavesUnder};

use crate::fault::HashFault;
use crate::hash_input::{hash_leaf, hash_parent};
use crate::leaf_set::LeafSet;
use crate::parent_hashes::parent_hash_of;
use crate::parent_original_hashes::OwnHashes;
use crate::side::Side;
use crate::subtree_hashes::SubtreeHashes;
use crate::suite::Suite;
use crate::tree_hashes::kept_leaf;
use mls_nodes::ParentNode;
use mls_tree::{HashValue, Part, PublicTree};
use std::alloc::{AllocError, Global};
use std::marker::Model;

/// The original tree hashes of the two children of a non-blank parent, without the parent's unmerged leaves (RFC 9420,
/// 7.9).
#[derive(Clone, Copy, Debug)]
pub struct ChildHashes {
    /// That of the left child.
    pub left: HashValue,
    /// That of the right child.
    pub right: HashValue,
}

/// Known hashes of a tree: the tree hashes of its subtrees, and own hashes of non-blank parents. The own hash of a
/// parent is the tree hash of its subtree without its own unmerged leaves.
///
/// A parent above leaves out the same leaves there, unless it became non-blank after some of them joined. So if
/// children are visited before their parent, and their lists agree, no subtree is hashed twice without them.
#[derive(Drop)]
pub struct OriginalHashes<'a> {
    subtrees: &'a SubtreeHashes<'a>,
    own: OwnHashes,
}

impl<'a> Model for OriginalHashes<'a> {
    ghost use Rattle.mls_hash.specs.OriginalTreeHashes.{KnownHashes};

    ghost Value = { KnownHashes };

    ghost view = { λ o. record { subtrees = o.subtrees.now; own = o.own } };
}

impl<'a> OriginalHashes<'a> {
    /// Returns the known hashes of a tree, from the tree hashes of its subtrees. No own hash is known yet.
    pub fn new(
        alloc: Global,
        tree: &PublicTree,
        subtrees: &'a SubtreeHashes<'a>,
    ) -> Result<OriginalHashes<'a>, AllocError>
        ensures { (H : List ℕ → List ℕ) → AreSubtreeHashes H tree.now.tree subtrees.now
            → IfOk result (λ o. AreKnownHashes H tree.now.tree o) }
    {
        Ok(OriginalHashes {
            subtrees,
            own: OwnHashes::blank(alloc, tree.nodes().len() / 2, subtrees.width())?,
        })
    }

    /// Returns the tree hash of the subtree at a node index, if no leaf is left out.
    fn unchanged(&self, left_out: &LeafSet<'_>, node_index: u32) -> Option<HashValue>
        ensures { IfSome result
            (λ h. (left_out.now ≡ []) × (slice_get self.now.subtrees node_index ≡ Some h)) }
    {
        if left_out.is_empty() {
            self.subtrees.get(node_index)
        } else {
            None
        }
    }

    /// Returns the own hash of the non-blank parent at a node index, if it is known and the leaves that are left out
    /// are its unmerged leaves.
    fn own_hash(
        &self,
        node: Option<&ParentNode>,
        left_out: &LeafSet<'_>,
        node_index: u32,
    ) -> Option<HashValue>
        ensures { IfSome result (λ h. ListsJust left_out.now (option_copied node.entry)
            × (slice_get self.now.own (node_index / 2) ≡ Some (Some h))) }
    {
        if !left_out.holds_just(node?.unmerged.as_slice()) {
            return None;
        }
        self.own.get(node_index / 2)
    }

    /// Returns the original tree hash of the subtree at a node index, without the leaves of the set, all of which are
    /// below it. A part whose hash is known is not hashed again.
    fn original_hash(
        &self,
        suite: Suite,
        tree: &PublicTree,
        left_out: &LeafSet<'_>,
        node_index: u32,
    ) -> Result<HashValue, HashFault>
        requires known { AreKnownHashes (hash_of suite) tree.now.tree self.now }
        requires own_leaves { HoldsOwnLeaves tree.now.tree }
        requires under { AreLeavesUnder tree.now.tree node_index left_out.now }
        ensures { HashesSubtree (subtree_at 0 tree.now.tree node_index)
            (original_tree_hash_at (hash_of suite) left_out.now tree.now.tree node_index) result }
    {
        if let Some(hash) = self.unchanged(left_out, node_index) {
            return Ok(hash);
        }
        match tree.part(node_index) {
            None => Err(HashFault::NoSuchNode),
            Some(Part::Leaf { index, node }) => {
                let node = kept_leaf(index, node, left_out);
                Ok(hash_leaf(suite, index, node))
            }
            Some(
                Part::Parent {
                    node,
                    left,
                    right,
                    middle,
                },
            ) => {
                if let Some(hash) = self.own_hash(node, left_out, node_index) {
                    return Ok(hash);
                }
                let (before, after) = left_out.split(middle);
                let left = self.original_hash(suite, tree, &before, left)?;
                let right = self.original_hash(suite, tree, &after, right)?;
                Ok(hash_parent(suite, node, left_out, &left, &right))
            }
        }
    }

    /// Stores the own hash of the parent at a node index, if there is memory and its length is that of the others.
    fn store(&mut self, node_index: u32, hash: &HashValue)
        ensures { KeepsOwn node_index hash.now self.old self.new }
    {
        self.own.store(node_index / 2, hash);
    }

    /// Returns the original tree hashes of the children of the non-blank parent at a node index. Stores the parent's
    /// own hash, if it has unmerged leaves.
    ///
    /// Call it once for each parent, after its children. Another order only takes more time.
    ///
    /// # Errors
    ///
    /// `NoSuchNode`, if and only if there is no non-blank parent.
    pub fn child_hashes(
        &mut self,
        suite: Suite,
        tree: &PublicTree,
        node_index: u32,
    ) -> Result<ChildHashes, HashFault>
        requires known { AreKnownHashes (hash_of suite) tree.now.tree self.old }
        requires own_leaves { HoldsOwnLeaves tree.now.tree }
        requires sorted { HasNonDecreasingLists tree.now.tree }
        ensures hashes { IfOk result (AreChildHashes (hash_of suite) tree.now.tree node_index) }
        ensures no_such_node { (result ≡ Err HashFault.NoSuchNode)
            ↔ (parent_at tree.now.tree node_index ≡ None) }
        ensures possible_errors { IfErr result (λ e. e ≡ HashFault.NoSuchNode) }
        ensures known { AreKnownHashes (hash_of suite) tree.now.tree self.new }
    {
        let Some(
            Part::Parent {
                node: Some(parent),
                left,
                right,
                middle,
            },
        ) = tree.part(node_index)
        else {
            return Err(HashFault::NoSuchNode);
        };
        let left_out = LeafSet::new(parent.unmerged.as_slice());
        let (before, after) = left_out.split(middle);
        let left = self.original_hash(suite, tree, &before, left)?;
        let right = self.original_hash(suite, tree, &after, right)?;
        if !left_out.is_empty() {
            let own = hash_parent(suite, Some(parent), &left_out, &left, &right);
            self.store(node_index, &own);
        }
        Ok(ChildHashes { left, right })
    }

    /// Returns the parent hash of the non-blank parent at a node index, whose child on the copath is the one on `side`
    /// (RFC 9420, 7.9), from the original tree hashes of its children.
    pub fn parent_hash(
        &self,
        suite: Suite,
        tree: &PublicTree,
        node_index: u32,
        side: Side,
        children: &ChildHashes,
    ) -> HashValue
        requires { AreChildHashes (hash_of suite) tree.now.tree node_index children.now }
        ensures { parent_hash_at (hash_of suite) tree.now.tree node_index side ≡ Some result }
    {
        let Some(parent) = tree.parent(node_index) else {
            unreachable!()
        };
        match side {
            Side::Left => parent_hash_of(suite, parent, &children.left),
            Side::Right => parent_hash_of(suite, parent, &children.right),
        }
    }
}
