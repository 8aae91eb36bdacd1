//! The public tree of a group: its nodes, and a cache of the tree hashes of its subtrees.
ghost use Rattle.std.specs.Prelude.{◌≡◌, ◌≢◌, ◌≤◌, ◌<◌, ◌-◌, ◌*◌, ◌∷◌, ◌==◌, [], length, take, replicate, IfOk, IfErr, IfSome, Err, MatchOption, OnOk, OnErr, IsOk, IsErr, ◌↔◌, ◌⊎◌, None, Some, true, false, map, option_map, option_copied, slice_get, slice_set, IsSome};
ghost use Rattle.std.specs.Bool.{OnTrue, OnFalse};
ghost use Rattle.std.specs.List.Sorted.{IsStrictlyIncreasing};
ghost use Rattle.mls_nodes.specs.Limits.{leaf_limit};
ghost use Rattle.mls_nodes.specs.NodeValues.{entry_value, node_value};
ghost use Rattle.mls_tree.specs.Tree.{leaf_count, member_count, height, listing, node_at, leaf_at, IsParentNodeIndex};
ghost use Rattle.mls_tree.specs.Paths.{direct_path, copath, filtered_direct_path, resolution_at, count_not_in};
ghost use Rattle.mls_tree.specs.BlankLeaves.{first_blank_leaf, next_blank_leaf, IsFirstBlank, AllLeavesNonBlank};
ghost use Rattle.mls_tree.specs.TreeOperations.{put_leaf, put_parent, blank_path, change_parent, with_unmerged, without_unmerged, add_unmerged, overfills, is_overfilled, is_overfilled_above, IsOverfull, truncate, blank_tree, extend, left_subtree, front_subtree, rejoined, seat};
ghost use Rattle.mls_tree.specs.NodeView.{parent_of};
ghost use Rattle.mls_tree.specs.MergedLists.{new_parents, overfills_below, replacement};
ghost use Rattle.mls_tree.specs.TreeSizes.{IsPowerOfTwo, IsTooLong, IsListing};
ghost use Rattle.mls_tree.specs.HashCache.{emptied, empty_count, extended, parents_from, hash_in, IsRightHash, AreAllFilled};

use crate::cache_update::{
    clone_front, clone_slots, double, empty_front, empty_leaf, empty_parents, empty_path,
    join_slots, reserve_double, truncate,
};
use crate::cached_counts::{
    Counts, blank_counts, clone_counts, count_anew, counts_in, double_counts, exchange_front,
    recount, reserve_counts, truncate_counts,
};
use crate::error::TreeError;
use crate::hash_cache::Slots;
use crate::hash_kind::HashKind;
use crate::hash_value::HashValue;
use crate::merged_parents::NewParent;
use crate::node_array::NodeArray;
use crate::tree_size::leaves_of;
use mls_nodes::{EncodedLeaf, Node, ParentNode};
use mls_wire::Shared;
use std::alloc::{AllocError, Global};
use std::collections::BTreeSet;
use std::marker::Model;
use std::mem;

/// The public tree of a group (RFC 9420, 4.1.1): a perfect binary tree of 1 to 1,048,576 leaves, a power of two, whose
/// leaves and parents may be blank. If a call fails, the tree is unchanged.
///
/// The tree may have a cache: a slot per node for the tree hash of the subtree there (RFC 9420, 7.8). A slot is empty
/// or its hash is right. Each call that changes the tree empties the slots of the subtrees that it changes, and no
/// others.
///
/// A tree with a cache also counts the non-blank leaves and nodes under each parent. With these counts it finds the
/// number of members, the blank leaves, a filtered direct path, and whether its right subtree is empty, without a walk
/// over its nodes.
#[derive(Debug, Drop)]
pub struct PublicTree {
    tree: NodeArray,
    slots: Option<Slots>,
    counts: Option<Counts>,
}

impl Model for PublicTree {
    ghost use Rattle.mls_tree.specs.PublicTreeModel.{KeptTree};
    ghost use Rattle.mls_tree.specs.PublicTreeModelInternal.{kept_tree_coded};
    ghost use Rattle.mls_tree.specs.HashCacheInternal.{AreSlotsOf};
    ghost use Rattle.mls_tree.specs.CacheModel.{kind_in, slots_in};
    ghost use Rattle.mls_tree.specs.CountsModel.{AreCountsIn};

    ghost Value = { KeptTree };

    ghost coded = { kept_tree_coded };

    ghost view = { λ s. record { tree = s.tree.tree; shape = s.tree.shape; kind = kind_in s.slots; slots = slots_in s.slots } };

    ghost invariant = { λ s. AreSlotsOf (kind_in s.slots) s.tree.tree (slots_in s.slots)
        × AreCountsIn s.counts s.tree.tree };
}

impl PublicTree {
    /// Creates the tree of these nodes, in order of node index (RFC 9420, Appendix C). Does not allocate. The tree has no
    /// cache.
    ///
    /// # Errors
    ///
    /// The vector is returned with the first that applies: `BadShape` if its length is not `2 * n - 1` for a power of
    /// two `n`; `TooManyLeaves` if `n` is above 1,048,576; `BadShape` if a parent is at an even index or a leaf at an
    /// odd one.
    pub fn from_nodes(
        nodes: Vec<Option<Node>>,
    ) -> Result<PublicTree, (TreeError, Vec<Option<Node>>)>
        ensures tree { IfOk result (λ t. listing t.tree ≡ map entry_value nodes.items) }
        ensures is_listing { IsOk result ↔ IsListing (map entry_value nodes.items) }

        ensures too_many_leaves { (result ≡ Err (TreeError.TooManyLeaves, nodes))
            ↔ IsTooLong (length nodes.items) }
        ensures bad_shape { (result ≡ Err (TreeError.BadShape, nodes))
            ↔ ((¬ IsListing (map entry_value nodes.items)) × ¬ IsTooLong (length nodes.items)) }
        ensures returned_arguments { IfErr result (λ e. e.1 ≡ nodes) }
        ensures kind { IfOk result (λ t. t.kind ≡ None) }
        ensures slots { IfOk result (λ t. t.slots ≡ []) }
    {
        let tree = NodeArray::from_nodes(nodes)?;
        Ok(PublicTree {
            tree,
            slots: None,
            counts: None,
        })
    }

    /// Creates a tree of `leaves` leaves, all of whose nodes are blank. The tree has no cache.
    ///
    /// # Errors
    ///
    /// `BadShape` if `leaves` is no power of two, else `TooManyLeaves` if it is above 1,048,576.
    pub fn blank(alloc: Global, leaves: u32) -> Result<PublicTree, TreeError>
        ensures leaves { IfOk result (λ t. leaf_count t.tree ≡ leaves) }
        ensures blank { IfOk result (λ t. t.tree ≡ blank_tree (height t.tree)) }

        ensures bad_shape { (result ≡ Err TreeError.BadShape) ↔ (¬ IsPowerOfTwo leaves) }
        ensures too_many_leaves { (result ≡ Err TreeError.TooManyLeaves)
            ↔ (IsPowerOfTwo leaves × (leaf_limit < leaves)) }
        ensures possible_errors { IfErr result
            (λ e. (e ≡ TreeError.BadShape) ⊎ (e ≡ TreeError.TooManyLeaves)
            ⊎ (e ≡ TreeError.OutOfMemory)) }
        ensures kind { IfOk result (λ t. t.kind ≡ None) }
        ensures slots { IfOk result (λ t. t.slots ≡ []) }
    {
        let tree = NodeArray::blank(alloc, leaves)?;
        Ok(PublicTree {
            tree,
            slots: None,
            counts: None,
        })
    }

    /// Returns the number of leaves, blank ones included.
    pub fn leaf_count(&self) -> u32
        ensures { result ≡ leaf_count self.now.tree }
    {
        self.tree.leaf_count()
    }

    /// Returns the height of the tree.
    pub(crate) fn height(&self) -> u32
        ensures value { result ≡ height self.now.tree }
        ensures low { result ≤ 20 }
    {
        self.tree.height()
    }

    /// Returns the number of non-blank leaves: the members of the group.
    pub fn member_count(&self) -> u32
        ensures { result ≡ member_count self.now.tree }
    {
        match &self.counts {
            Some(counts) => self.tree.total(counts.list.as_slice()).members,
            None => self.tree.member_count(),
        }
    }

    /// Returns all nodes, in order of node index.
    pub fn nodes(&self) -> &[Option<Node>]
        ensures { map entry_value result.now ≡ listing self.now.tree }
    {
        self.tree.nodes()
    }

    /// Returns the node at node index `node_index`. `None` if it is blank or there is none.
    pub fn node(&self, node_index: u32) -> Option<&Node>
        ensures { option_map (λ n. node_value n.now) result ≡ node_at self.now.tree node_index }
    {
        self.tree.node(node_index)
    }

    /// Returns a leaf by its leaf index. `None` if it is blank or there is none.
    pub fn leaf(&self, index: u32) -> Option<&EncodedLeaf>
        ensures { option_copied result ≡ leaf_at 0 self.now.tree index }
    {
        self.tree.leaf(index)
    }

    /// Returns the leaf index of the leftmost blank leaf. `None` if every leaf is non-blank.
    pub fn first_blank_leaf(&self) -> Option<u32>
        ensures first { result ≡ first_blank_leaf 0 self.now.tree }
        ensures leftmost { MatchOption result (AllLeavesNonBlank self.now.tree)
            (λ j. IsFirstBlank self.now.tree j) }
    {
        self.tree.first_blank_leaf(counts_in(&self.counts))
    }

    /// Returns the leaf index of the leftmost blank leaf from `start` on. `None` if there is none.
    pub fn next_blank_leaf(&self, start: u32) -> Option<u32>
        ensures { result ≡ next_blank_leaf start 0 self.now.tree }
    {
        self.tree.next_blank_leaf(counts_in(&self.counts), start)
    }

    /// Returns the direct path of a leaf, lowest node first (RFC 9420, 4.1.2). `NoSuchNode` if the tree has no such
    /// leaf.
    pub fn direct_path(&self, alloc: Global, leaf: u32) -> Result<Vec<u32>, TreeError>
        ensures node_indices { IfOk result (λ v. v.items ≡ direct_path 0 self.now.tree leaf) }
        ensures no_such_node { (result ≡ Err TreeError.NoSuchNode)
            ↔ (leaf_count self.now.tree ≤ leaf) }
        ensures possible_errors { IfErr result
            (λ e. (e ≡ TreeError.NoSuchNode) ⊎ (e ≡ TreeError.OutOfMemory)) }
    {
        self.tree.direct_path(alloc, leaf)
    }

    /// Returns the copath of a leaf, lowest node first (RFC 9420, 4.1.2). `NoSuchNode` if the tree has no such leaf.
    pub fn copath(&self, alloc: Global, leaf: u32) -> Result<Vec<u32>, TreeError>
        ensures node_indices { IfOk result (λ v. v.items ≡ copath 0 self.now.tree leaf) }
        ensures no_such_node { (result ≡ Err TreeError.NoSuchNode)
            ↔ (leaf_count self.now.tree ≤ leaf) }
        ensures possible_errors { IfErr result
            (λ e. (e ≡ TreeError.NoSuchNode) ⊎ (e ≡ TreeError.OutOfMemory)) }
    {
        self.tree.copath(alloc, leaf)
    }

    /// Returns the filtered direct path of a leaf, lowest node first (RFC 9420, 4.1.2). `NoSuchNode` if the tree has no
    /// such leaf.
    pub fn filtered_direct_path(&self, alloc: Global, leaf: u32) -> Result<Vec<u32>, TreeError>
        ensures node_indices { IfOk result
            (λ v. v.items ≡ filtered_direct_path (leaf_count self.now.tree) 0 self.now.tree leaf) }
        ensures no_such_node { (result ≡ Err TreeError.NoSuchNode)
            ↔ (leaf_count self.now.tree ≤ leaf) }
        ensures possible_errors { IfErr result
            (λ e. (e ≡ TreeError.NoSuchNode) ⊎ (e ≡ TreeError.OutOfMemory)) }
    {
        self.tree
            .filtered_direct_path(alloc, counts_in(&self.counts), leaf)
    }

    /// Returns the resolution of the node at node index `node_index` (RFC 9420, 4.1.1). Unmerged leaves that the tree
    /// doesn't have are left out. `NoSuchNode` if the tree has no such node.
    pub fn resolution(&self, alloc: Global, node_index: u32) -> Result<Vec<u32>, TreeError>
        ensures node_indices { IfOk result (λ v. resolution_at self.now.tree node_index ≡ Some v.items) }
        ensures no_such_node { (result ≡ Err TreeError.NoSuchNode)
            ↔ (resolution_at self.now.tree node_index ≡ None) }
        ensures possible_errors { IfErr result
            (λ e. (e ≡ TreeError.NoSuchNode) ⊎ (e ≡ TreeError.OutOfMemory)) }
    {
        self.tree.resolution(alloc, node_index)
    }

    /// Returns whether the resolution of the node at node index `node_index` (RFC 9420, 4.1.1) has exactly `len` nodes
    /// besides those in `without`. `NoSuchNode` if the tree has no such node.
    ///
    /// Does not allocate, and stops as soon as it finds one node more. With a cache, subtrees of blank nodes are passed
    /// by.
    pub fn has_resolution_len(
        &self,
        node_index: u32,
        without: &BTreeSet<u64>,
        len: usize,
    ) -> Result<bool, TreeError>
        ensures answer { IfOk result (λ b. IfSome (resolution_at self.now.tree node_index)
            (λ ps. b ≡ (count_not_in without.now ps == len))) }
        ensures no_such_node { (result ≡ Err TreeError.NoSuchNode)
            ↔ (resolution_at self.now.tree node_index ≡ None) }
        ensures else_no_such { IfErr result (λ e. e ≡ TreeError.NoSuchNode) }
    {
        self.tree
            .has_resolution_len(counts_in(&self.counts), node_index, without, len)
    }

    /// Returns the hash function of the cache. `None` if the tree has no cache.
    pub fn hash_kind(&self) -> Option<HashKind>
        ensures { result ≡ self.now.kind }
    {
        match &self.slots {
            Some(slots) => Some(slots.kind),
            None => None,
        }
    }

    /// Returns the number of empty cache slots: 0 without a cache.
    pub fn empty_slots(&self) -> u32
        ensures count { result ≡ empty_count self.now.slots }
        ensures most { result < 2 * leaf_count self.now.tree }
        ensures none { AreAllFilled self.now.tree self.now.slots → result ≡ 0 }
        ensures full { result ≡ 0 → IsSome self.now.kind
            → AreAllFilled self.now.tree self.now.slots }
    {
        match &self.slots {
            Some(slots) => slots.empty as u32,
            None => 0,
        }
    }

    /// Returns the cached hash of the subtree at node index `node_index`. `None` if its slot is empty or there is none.
    pub fn kept_hash(&self, node_index: u32) -> Option<HashValue>
        ensures kept { result ≡ hash_in (slice_get self.now.slots node_index) }
        ensures right { IfSome result (IsRightHash self.now.kind self.now.tree node_index) }
    {
        match &self.slots {
            Some(slots) => slots.hashes.get(node_index),
            None => None,
        }
    }

    /// Creates a cache of empty slots for hashes of this kind, and counts the non-blank leaves and nodes. Does nothing
    /// if the tree has a cache of this kind.
    pub fn reserve_hashes(&mut self, alloc: Global, kind: HashKind) -> Result<(), AllocError>
        ensures tree { self.new.tree ≡ self.old.tree }
        ensures kind { OnOk result (self.new.kind ≡ Some kind) }
        ensures stays { self.old.kind ≡ Some kind → self.new ≡ self.old }
        ensures fresh { OnOk result (self.old.kind ≢ Some kind
            → self.new.slots ≡ replicate (2 * leaf_count self.old.tree - 1) None) }
        ensures unchanged_on_error { OnErr result (self.new ≡ self.old) }
    {
        if self.hash_kind() == Some(kind) {
            return Ok(());
        }
        let count = self.tree.nodes().len();
        let counts = count_anew(alloc, &self.tree)?;
        let slots = Slots::blank(alloc, kind, count)?;
        self.slots = Some(slots);
        self.counts = Some(counts);
        Ok(())
    }

    /// Fills the cache slot at node index `node_index` with the hash of the subtree there. Does not allocate.
    pub fn keep_hash(&mut self, node_index: u32, hash: HashValue)
        requires { IsRightHash self.old.kind self.old.tree node_index hash }
        ensures tree { self.new.tree ≡ self.old.tree }
        ensures kind { self.new.kind ≡ self.old.kind }
        ensures slots { self.new.slots ≡ slice_set self.old.slots node_index (Some hash) }
        ensures filled { hash_in (slice_get self.new.slots node_index) ≡ Some hash }
    {
        let Some(slots) = &mut self.slots else {
            unreachable!();
        };
        slots.put(node_index, hash);
    }

    /// Returns a tree with the same nodes and cache.
    pub fn try_clone(&self, alloc: Global) -> Result<PublicTree, AllocError>
        ensures { IfOk result (λ t. t ≡ self.now) }
    {
        let tree = self.tree.try_clone(alloc)?;
        let slots = clone_slots(alloc, &self.slots)?;
        let counts = clone_counts(alloc, &self.counts)?;
        Ok(PublicTree {
            tree,
            slots,
            counts,
        })
    }

    /// Replaces a leaf; `None` makes it blank. Called `put_leaf` in the definitions. Empties the cache slots of the
    /// leaf and of the parents above it.
    ///
    /// # Errors
    ///
    /// `NoSuchNode`, with the given leaf, if the tree has no such leaf.
    pub fn set_leaf(
        &mut self,
        index: u32,
        leaf: Option<Shared<EncodedLeaf>>,
    ) -> Result<(), (TreeError, Option<Shared<EncodedLeaf>>)>
        ensures changed { OnOk result
            (self.new.tree ≡ put_leaf 0 self.old.tree index leaf) }
        ensures unchanged_on_error { OnErr result (self.new ≡ self.old) }
        ensures no_such_node { IsErr result ↔ (leaf_count self.old.tree ≤ index) }
        ensures returned_arguments { IfErr result (λ e. e ≡ (TreeError.NoSuchNode, leaf)) }
        ensures kind { self.new.kind ≡ self.old.kind }
        ensures slots { OnOk result (self.new.slots
            ≡ emptied self.old.slots (2 * index ∷ direct_path 0 self.old.tree index)) }
    {
        let level = self.tree.height();
        self.tree.set_leaf(index, leaf)?;
        empty_leaf(&mut self.slots, level, index);
        recount(&mut self.counts, &self.tree, index);
        Ok(())
    }

    /// Replaces the parent at node index `node_index`; `None` makes it blank. Empties its cache slot and those of the
    /// parents above it.
    ///
    /// # Errors
    ///
    /// `NoSuchNode`, with the given parent, if the tree has no such node or it is a leaf.
    pub fn put_parent(
        &mut self,
        node_index: u32,
        parent: Option<Box<ParentNode>>,
    ) -> Result<(), (TreeError, Option<Box<ParentNode>>)>
        ensures changed { OnOk result
            (self.new.tree ≡ put_parent 0 self.old.tree node_index (option_map (λ b. b.value) parent)) }
        ensures unchanged_on_error { OnErr result (self.new ≡ self.old) }
        ensures no_such_node { IsErr result ↔ (¬ IsParentNodeIndex self.old.tree node_index) }
        ensures returned_arguments { IfErr result (λ e. e ≡ (TreeError.NoSuchNode, parent)) }
        ensures kind { self.new.kind ≡ self.old.kind }
        ensures slots { OnOk result (self.new.slots
            ≡ emptied self.old.slots (parents_from 0 self.old.tree node_index)) }
    {
        let level = self.tree.height();
        self.tree.put_parent(node_index, parent)?;
        empty_parents(&mut self.slots, level, node_index);
        recount(&mut self.counts, &self.tree, node_index / 2);
        Ok(())
    }

    /// Replaces a leaf, and returns the previous one; `None` makes it blank. Does not allocate.
    pub(crate) fn replace_leaf(
        &mut self,
        index: u32,
        leaf: Option<Shared<EncodedLeaf>>,
    ) -> Option<Shared<EncodedLeaf>>
        requires { index < leaf_count self.old.tree }
        ensures put { self.new.tree
            ≡ put_leaf 0 self.old.tree index leaf }
        ensures former { result ≡ leaf_at 0 self.old.tree index }
    {
        let level = self.tree.height();
        let former = self.tree.replace_leaf(index, leaf);
        empty_leaf(&mut self.slots, level, index);
        recount(&mut self.counts, &self.tree, index);
        former
    }

    /// Replaces a parent, and returns the previous one; `None` makes it blank. Does not allocate.
    pub(crate) fn replace_parent(
        &mut self,
        node_index: u32,
        parent: Option<Box<ParentNode>>,
    ) -> Option<Box<ParentNode>>
        requires { IsParentNodeIndex self.old.tree node_index }
        ensures put { self.new.tree
            ≡ put_parent 0 self.old.tree node_index (option_map (λ b. b.value) parent) }
        ensures former { option_map (λ b. b.value) result ≡ parent_of (node_at self.old.tree node_index) }
    {
        let level = self.tree.height();
        let former = self.tree.replace_parent(node_index, parent);
        empty_parents(&mut self.slots, level, node_index);
        recount(&mut self.counts, &self.tree, node_index / 2);
        former
    }

    /// Makes blank the parents above a leaf (RFC 9420, 12.1.2 and 12.1.3), but not the leaf. Empties the cache slots of
    /// these parents. `NoSuchNode` if the tree has no such leaf.
    pub fn blank_path(&mut self, index: u32) -> Result<(), TreeError>
        ensures changed { OnOk result (self.new.tree ≡ blank_path self.old.tree index) }
        ensures unchanged_on_error { OnErr result (self.new ≡ self.old) }
        ensures no_such_node { (result ≡ Err TreeError.NoSuchNode)
            ↔ (leaf_count self.old.tree ≤ index) }
        ensures no_other { IfErr result (λ e. e ≡ TreeError.NoSuchNode) }
        ensures kind { self.new.kind ≡ self.old.kind }
        ensures slots { OnOk result (self.new.slots
            ≡ emptied self.old.slots (direct_path 0 self.old.tree index)) }
    {
        let level = self.tree.height();
        self.tree.blank_path(index)?;
        empty_path(&mut self.slots, level, index);
        recount(&mut self.counts, &self.tree, index);
        Ok(())
    }

    /// Adds a leaf index to the unmerged leaves of each non-blank parent above the leaf (RFC 9420, 12.1.1), before the
    /// first entry that is not less. A list that has the leaf index is unchanged. All new lists are made before one is
    /// put in place. Empties the cache slots of all parents above the leaf.
    ///
    /// # Errors
    ///
    /// `NoSuchNode` if the tree has no such leaf, else `TooManyLeaves` if a list without the leaf index has 1,048,576
    /// entries. Both are checked before anything is allocated.
    pub fn add_unmerged(&mut self, alloc: Global, index: u32) -> Result<(), TreeError>
        ensures changed { OnOk result (self.new.tree ≡ add_unmerged self.old.tree index) }
        ensures unchanged_on_error { OnErr result (self.new ≡ self.old) }

        ensures no_such_node { (result ≡ Err TreeError.NoSuchNode)
            ↔ (leaf_count self.old.tree ≤ index) }
        ensures too_many_leaves { (result ≡ Err TreeError.TooManyLeaves)
            ↔ ((index < leaf_count self.old.tree) × IsOverfull self.old.tree index) }
        ensures possible_errors { IfErr result
            (λ e. (e ≡ TreeError.NoSuchNode) ⊎ (e ≡ TreeError.TooManyLeaves)
            ⊎ (e ≡ TreeError.OutOfMemory)) }
        ensures kind { self.new.kind ≡ self.old.kind }
        ensures slots { OnOk result (self.new.slots
            ≡ emptied self.old.slots (direct_path 0 self.old.tree index)) }
    {
        let level = self.tree.height();
        self.tree.add_unmerged(alloc, index)?;
        empty_path(&mut self.slots, level, index);
        recount(&mut self.counts, &self.tree, index);
        Ok(())
    }

    /// Returns whether a non-blank parent above a leaf has a full list of unmerged leaves without this leaf index.
    pub(crate) fn is_overfull(&self, index: u32) -> bool
        ensures { result ≡ is_overfilled_above 0 self.now.tree index }
    {
        self.tree.is_overfull(index)
    }

    /// Makes the parents that replace the non-blank ones above the leaves `indices`, which are the same with these leaf
    /// indices in their lists, the topmost last. `TooManyLeaves` if a list would have more than 1,048,576 entries.
    pub(crate) fn new_parents(
        &self,
        alloc: Global,
        indices: &[u32],
    ) -> Result<Vec<NewParent>, TreeError>
        requires { IsStrictlyIncreasing indices.now }
        ensures parents { IfOk result
            (λ v. map replacement v.items ≡ new_parents 0 self.now.tree indices.now) }
        ensures fits { OnOk result (overfills_below 0 self.now.tree indices.now ≡ false) }
        ensures too_many_leaves { result ≡ Err TreeError.TooManyLeaves
            → overfills_below 0 self.now.tree indices.now ≡ true }
        ensures possible_errors { IfErr result
            (λ e. (e ≡ TreeError.TooManyLeaves) ⊎ (e ≡ TreeError.OutOfMemory)) }
    {
        self.tree.new_parents(alloc, indices)
    }

    /// Checks that these leaf indices can be added to the unmerged lists above them (RFC 9420, 12.1.1), as
    /// [`Journal::add_all_unmerged`](crate::Journal::add_all_unmerged) adds them. They must be strictly increasing.
    ///
    /// # Errors
    ///
    /// `TooManyLeaves` if a list would have more than 1,048,576 entries. Or `OutOfMemory`.
    pub fn check_unmerged_fit(&self, alloc: Global, indices: &[u32]) -> Result<(), TreeError>
        requires { IsStrictlyIncreasing indices.now }
        ensures fits { OnOk result (overfills indices.now self.now.tree ≡ false) }
        ensures too_many_leaves { result ≡ Err TreeError.TooManyLeaves
            → overfills indices.now self.now.tree ≡ true }
        ensures possible_errors { IfErr result
            (λ e. (e ≡ TreeError.TooManyLeaves) ⊎ (e ≡ TreeError.OutOfMemory)) }
    {
        drop(self.new_parents(alloc, indices)?);
        Ok(())
    }

    /// Adds a leaf index to the unmerged leaves of the parent at node index `node_index`, in place, unless the parent
    /// is blank or has that leaf index. Returns whether the list has changed. Empties the cache slots of the parent and
    /// of those above it.
    pub(crate) fn insert_unmerged_at(
        &mut self,
        node_index: u32,
        index: u32,
    ) -> Result<bool, AllocError>
        requires there { IsParentNodeIndex self.old.tree node_index }
        requires capacity { is_overfilled index (parent_of (node_at self.old.tree node_index)) ≡ false }
        ensures in_lists { OnOk result
            (self.new.tree ≡ change_parent (with_unmerged index) 0 self.old.tree node_index) }
        ensures back { IfOk result (λ changed. OnTrue changed
            (change_parent (without_unmerged index) 0 self.new.tree node_index ≡ self.old.tree)) }
        ensures same { IfOk result (λ changed. OnFalse changed (self.new.tree ≡ self.old.tree)) }
        ensures unchanged_on_error { OnErr result (self.new.tree ≡ self.old.tree) }
    {
        let level = self.tree.height();
        let changed = self.tree.insert_unmerged_at(node_index, index);
        empty_parents(&mut self.slots, level, node_index);
        recount(&mut self.counts, &self.tree, node_index / 2);
        changed
    }

    /// Restores the parent at a node index, if the tree has that index. Does not allocate.
    pub(crate) fn restore_parent(&mut self, node_index: u32, parent: Option<Box<ParentNode>>)
        ensures put { self.new.tree
            ≡ put_parent 0 self.old.tree node_index (option_map (λ b. b.value) parent) }
    {
        let level = self.tree.height();
        drop(self.tree.put_parent(node_index, parent));
        empty_parents(&mut self.slots, level, node_index);
        recount(&mut self.counts, &self.tree, node_index / 2);
    }

    /// Removes a leaf index from the unmerged leaves of the parent at a node index, if the list has it. Does not allocate.
    pub(crate) fn leave_at(&mut self, node_index: u32, index: u32)
        ensures left { self.new.tree
            ≡ change_parent (without_unmerged index) 0 self.old.tree node_index }
    {
        let level = self.tree.height();
        self.tree.leave_at(node_index, index);
        empty_parents(&mut self.slots, level, node_index);
        recount(&mut self.counts, &self.tree, node_index / 2);
    }

    /// Replaces the tree by its left subtree, if it has one. Does not allocate.
    pub(crate) fn cut(&mut self)
        ensures tree { self.new.tree ≡ left_subtree self.old.tree }
    {
        self.tree.cut();
        let count = self.tree.nodes().len();
        truncate(&mut self.slots, count);
        truncate_counts(&mut self.counts, self.tree.leaf_count());
    }

    /// Returns the height of the tree truncated (RFC 9420, 7.7). `None` if truncating leaves the tree unchanged.
    pub(crate) fn truncated_height(&self) -> Option<u32>
        ensures lower { IfSome result (λ level. level < height self.now.tree) }
        ensures front { IfSome result
            (λ level. front_subtree level self.now.tree ≡ truncate self.now.tree) }
        ensures unchanged { result ≡ None → truncate self.now.tree ≡ self.now.tree }
    {
        let level = self.tree.truncated_height(counts_in(&self.counts));
        if level == self.tree.height() {
            return None;
        }
        Some(level)
    }

    /// Truncates the tree (RFC 9420, 7.7): replaces it by its left subtree as long as its right subtree has no
    /// non-blank leaf. Does not allocate. The cache slots of the remaining nodes are unchanged.
    pub fn truncate(&mut self)
        ensures tree { self.new.tree ≡ truncate self.old.tree }
        ensures kind { self.new.kind ≡ self.old.kind }
        ensures slots { self.new.slots ≡ take (2 * leaf_count self.new.tree - 1) self.old.slots }
    {
        self.tree.truncate(counts_in(&self.counts));
        let count = self.tree.nodes().len();
        truncate(&mut self.slots, count);
        truncate_counts(&mut self.counts, self.tree.leaf_count());
    }

    /// Takes out and returns the leftmost subtree of height `level`, with its cache slots. The tree has blank nodes and
    /// empty slots in its place, and the slots of the parents above leaf 0 are empty.
    pub(crate) fn take_front(&mut self, alloc: Global, level: u32) -> Result<PublicTree, AllocError>
        requires { level < height self.old.tree }
        ensures front { IfOk result (λ f. f.tree ≡ front_subtree level self.old.tree) }
        ensures rest { IfOk result (λ f. rejoined f.tree self.new.tree ≡ self.old.tree) }
        ensures unchanged_on_error { OnErr result (self.new ≡ self.old) }
    {
        let height = self.tree.height();
        let leaves = leaves_of(level);
        let count = 2 * leaves - 1;
        let slots = clone_front(alloc, &self.slots, count as usize)?;
        let blank = blank_counts(alloc, &self.counts, leaves)?;
        let front = self.tree.take_front(alloc, level)?;
        empty_front(&mut self.slots, count, height);
        let former = mem::replace(&mut self.counts, None);
        let (rest, counts) = exchange_front(former, blank);
        self.counts = rest;
        recount(&mut self.counts, &self.tree, 0);
        Ok(PublicTree {
            tree: front,
            slots,
            counts,
        })
    }

    /// Makes the tree the leftmost subtree of `whole` that is as high, and replaces the tree by the result. If `whole`
    /// is not higher, the tree is unchanged. If both caches are of one kind, only the slots of the parents above that
    /// subtree become empty. Does not allocate.
    pub(crate) fn rejoin(&mut self, whole: PublicTree)
        ensures tree { self.new.tree ≡ rejoined self.old.tree whole.tree }
    {
        let level = whole.tree.height();
        if self.tree.height() >= level {
            return;
        }
        let slots = mem::replace(&mut self.slots, None);
        let counts = mem::replace(&mut self.counts, None);
        self.tree.rejoin(whole.tree);
        self.slots = join_slots(slots, whole.slots, level);
        let (joined, _) = exchange_front(whole.counts, counts);
        self.counts = joined;
        recount(&mut self.counts, &self.tree, 0);
    }

    /// Extends the tree (RFC 9420, 7.7): it becomes the left subtree of one twice as large, whose other nodes are
    /// blank. The cache slots are unchanged, those of new nodes empty. `TooManyLeaves` if the tree has 1,048,576
    /// leaves.
    pub fn extend(&mut self) -> Result<(), TreeError>
        ensures changed { OnOk result (self.new.tree ≡ extend self.old.tree) }
        ensures unchanged_on_error { OnErr result (self.new ≡ self.old) }
        ensures too_many_leaves { (result ≡ Err TreeError.TooManyLeaves)
            ↔ (leaf_count self.old.tree ≡ leaf_limit) }
        ensures possible_errors { IfErr result
            (λ e. (e ≡ TreeError.TooManyLeaves) ⊎ (e ≡ TreeError.OutOfMemory)) }
        ensures kind { self.new.kind ≡ self.old.kind }
        ensures slots { OnOk result (self.new.slots ≡ extended self.old.kind self.old.slots) }
        ensures front { OnOk result
            (take (2 * leaf_count self.old.tree - 1) self.new.slots ≡ self.old.slots) }
    {
        if self.tree.leaf_count() == 1_048_576 {
            return Err(TreeError::TooManyLeaves);
        }
        reserve_double(&mut self.slots)?;
        reserve_counts(&mut self.counts)?;
        self.tree.extend()?;
        double(&mut self.slots);
        double_counts(&mut self.counts);
        recount(&mut self.counts, &self.tree, 0);
        Ok(())
    }

    /// Returns the leaf index of a new member: that of the leftmost blank leaf (RFC 9420, 7.7, 12.1.1 and 12.4.3.2). If no
    /// leaf is blank, the tree is extended first. The leaf is still blank. The cache slots of the nodes before are unchanged.
    ///
    /// # Errors
    ///
    /// `TooManyLeaves` if no leaf is blank and the tree has 1,048,576 leaves, or `OutOfMemory`.
    pub fn seat(&mut self) -> Result<u32, TreeError>
        ensures leaf { IfOk result (λ j. j ≡ (seat self.old.tree).leaf) }
        ensures tree { OnOk result (self.new.tree ≡ (seat self.old.tree).tree) }
        ensures unchanged_on_error { OnErr result (self.new ≡ self.old) }
        ensures too_many_leaves { (result ≡ Err TreeError.TooManyLeaves)
            ↔ ((first_blank_leaf 0 self.old.tree ≡ None) × (leaf_count self.old.tree ≡ leaf_limit)) }
        ensures possible_errors { IfErr result
            (λ e. (e ≡ TreeError.TooManyLeaves) ⊎ (e ≡ TreeError.OutOfMemory)) }
        ensures kind { self.new.kind ≡ self.old.kind }
        ensures front { OnOk result
            (take (2 * leaf_count self.old.tree - 1) self.new.slots ≡ self.old.slots) }
    {
        let count = self.tree.leaf_count();
        if let Some(index) = self.first_blank_leaf() {
            return Ok(index);
        }
        self.extend()?;
        Ok(count)
    }
}
