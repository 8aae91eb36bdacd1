//! The nodes of a tree as one array.
ghost use Rattle.std.specs.Prelude.{◌≡◌, ◌+◌, ◌≤◌, ◌<◌, ◌==◌, length, IfOk, IfErr, IfSome, Err, MatchOption, OnOk, OnErr, IsOk, IsErr, ◌↔◌, ◌⊎◌, None, Some, true, false, map, option_map, option_copied};
ghost use Rattle.std.specs.Bool.{OnTrue, OnFalse};
ghost use Rattle.std.specs.List.Sorted.{IsStrictlyIncreasing};
ghost use Rattle.mls_nodes.specs.Limits.{leaf_limit};
ghost use Rattle.mls_nodes.specs.NodeValues.{entry_value, node_value};
ghost use Rattle.mls_tree.specs.Tree.{leaf_count, member_count, height, listing, node_at, leaf_at, IsParentNodeIndex};
ghost use Rattle.mls_tree.specs.Paths.{direct_path, copath, filtered_direct_path, resolution_at, count_not_in};
ghost use Rattle.mls_tree.specs.BlankLeaves.{first_blank_leaf, next_blank_leaf, IsFirstBlank, AllLeavesNonBlank};
ghost use Rattle.mls_tree.specs.TreeOperations.{put_leaf, put_parent, blank_path, change_parent, with_unmerged, without_unmerged, add_unmerged, is_overfilled, is_overfilled_above, IsOverfull, truncate, blank_tree, extend, left_subtree, front_subtree, rejoined};
ghost use Rattle.mls_tree.specs.NodeView.{parent_of};
ghost use Rattle.mls_tree.specs.TreeSizes.{IsPowerOfTwo, IsTooLong, IsListing};
ghost use Rattle.mls_tree.specs.SubtreeCounts.{subtree_count, AreCounts, AreOutside};
ghost use Rattle.mls_tree.specs.CountsModel.{AreCountsIfAny};
ghost use Rattle.mls_tree.specs.MergedLists.{new_parents, overfills_below, replacement};

use crate::blanks::{blank_above, counted_blank_leaf, push_blanks, truncated_height};
use crate::entries::{
    all_fit, as_leaf, clone_entries, count_leaves, into_leaf, into_parent, leaf_entry, parent_entry,
};
use crate::error::TreeError;
use crate::merged_parents::{NewParent, push_new_parents};
use crate::node_indices::level_inside;
use crate::paths::{push_copath, push_direct_path, push_filtered_direct_path};
use crate::resolution::push_resolution;
use crate::resolution_len::take_resolution;
use crate::subtree_counts::{Count, count_all, count_of, recount};
use crate::swap_prefix::swap_prefix;
use crate::tree_size::{height_of, height_of_length, leaves_of};
use crate::unmerged_leaves::{insert_index, is_overfilled_above, leave, push_new_lists, put_lists};
use mls_nodes::{EncodedLeaf, Node, ParentNode};
use mls_wire::Shared;
use std::alloc::{AllocError, Global};
use std::collections::BTreeSet;
use std::marker::Model;
use std::mem;

/// The nodes of a tree of 1 to 1,048,576 leaves, a power of two, in order of node index (RFC 9420, Appendix C). Contracts
/// see a ratchet tree. If a call fails, the nodes are unchanged.
#[derive(Debug, Drop)]
pub(crate) struct NodeArray {
    nodes: Vec<Option<Node>>,
    height: u32,
    ghost low: { height ≤ 20 },
}

impl Model for NodeArray {
    ghost use Rattle.mls_tree.specs.RatchetTree.{RatchetTree};
    ghost use Rattle.mls_tree.specs.RatchetTreeInternal.{ratchet_tree_coded};
    ghost use Rattle.mls_tree.specs.NodeArray.{ratchet_tree_in, IsArrayOf};

    ghost Value = { RatchetTree };

    ghost coded = { ratchet_tree_coded };

    ghost view = { λ s. ratchet_tree_in s.nodes.items s.height s.low };

    ghost invariant = { λ s. IsArrayOf s.nodes.items s.height };
}

impl NodeArray {
    /// Creates the tree of these nodes, in order of node index (RFC 9420, Appendix C). Does not allocate.
    ///
    /// # Errors
    ///
    /// The vector is returned with the first that applies: `BadShape` if its length is not `2 * n - 1` for a power of
    /// two `n`; `TooManyLeaves` if `n` is above 1,048,576; `BadShape` if a parent is at an even index or a leaf at an
    /// odd one.
    pub(crate) fn from_nodes(
        nodes: Vec<Option<Node>>,
    ) -> Result<NodeArray, (TreeError, Vec<Option<Node>>)>
        ensures tree { IfOk result (λ t. listing t.tree ≡ map entry_value nodes.items) }
        ensures is_listing { IsOk result ↔ IsListing (map entry_value nodes.items) }

        ensures too_many_leaves { (result ≡ Err (TreeError.TooManyLeaves, nodes))
            ↔ IsTooLong (length nodes.items) }
        ensures bad_shape { (result ≡ Err (TreeError.BadShape, nodes))
            ↔ ((¬ IsListing (map entry_value nodes.items)) × ¬ IsTooLong (length nodes.items)) }
        ensures returned_arguments { IfErr result (λ e. e.1 ≡ nodes) }
    {
        let height = match height_of_length(nodes.len()) {
            Ok(height) => height,
            Err(error) => return Err((error, nodes)),
        };
        if !all_fit(nodes.as_slice()) {
            return Err((TreeError::BadShape, nodes));
        }
        Ok(NodeArray { nodes, height })
    }

    /// Creates a tree of `leaves` leaves, all of whose nodes are blank.
    ///
    /// # Errors
    ///
    /// `BadShape` if `leaves` is no power of two, else `TooManyLeaves` if it is above 1,048,576.
    pub(crate) fn blank(alloc: Global, leaves: u32) -> Result<NodeArray, TreeError>
        ensures leaves { IfOk result (λ t. leaf_count t.tree ≡ leaves) }
        ensures blank { IfOk result (λ t. t.tree ≡ blank_tree (height t.tree)) }

        ensures bad_shape { (result ≡ Err TreeError.BadShape) ↔ (¬ IsPowerOfTwo leaves) }
        ensures too_many_leaves { (result ≡ Err TreeError.TooManyLeaves)
            ↔ (IsPowerOfTwo leaves × (leaf_limit < leaves)) }
        ensures possible_errors { IfErr result
            (λ e. (e ≡ TreeError.BadShape) ⊎ (e ≡ TreeError.TooManyLeaves)
            ⊎ (e ≡ TreeError.OutOfMemory)) }
    {
        let height = height_of(leaves as usize)?;
        let mut nodes = Vec::new(alloc);
        push_blanks(&mut nodes, 2 * leaves - 1)?;
        Ok(NodeArray { nodes, height })
    }

    /// Returns the height of the tree.
    pub(crate) fn height(&self) -> u32
        ensures value { result ≡ height self.now.tree }
        ensures low { result ≤ 20 }
    {
        self.height
    }

    /// Returns the number of leaves, blank ones included.
    pub(crate) fn leaf_count(&self) -> u32
        ensures { result ≡ leaf_count self.now.tree }
    {
        leaves_of(self.height)
    }

    /// Returns the number of non-blank leaves: the members of the group.
    pub(crate) fn member_count(&self) -> u32
        ensures { result ≡ member_count self.now.tree }
    {
        count_leaves(self.nodes.as_slice()) as u32
    }

    /// Returns the count of the whole tree, by the counts of its parents.
    pub(crate) fn total(&self, counts: &[Count]) -> Count
        requires count { length counts.now + 1 ≡ leaf_count self.now.tree }
        requires counts { AreCounts 0 self.now.tree counts.now }
        ensures { result ≡ subtree_count self.now.tree }
    {
        count_of(self.nodes.as_slice(), counts, self.height, 0)
    }

    /// Sets the counts of the parents above a leaf. The other counts must be right.
    pub(crate) fn recount(&self, counts: &mut [Count], leaf: u32)
        requires count { length counts.old + 1 ≡ leaf_count self.now.tree }
        requires beside { AreOutside 0 self.now.tree leaf counts.old }
        ensures count { length counts.new ≡ length counts.old }
        ensures counts { AreCounts 0 self.now.tree counts.new }
    {
        recount(self.nodes.as_slice(), counts, self.height, 0, leaf);
    }

    /// Sets the counts of all parents.
    pub(crate) fn count_all(&self, counts: &mut [Count])
        requires { length counts.old + 1 ≡ leaf_count self.now.tree }
        ensures count { length counts.new ≡ length counts.old }
        ensures counts { AreCounts 0 self.now.tree counts.new }
    {
        count_all(self.nodes.as_slice(), counts, self.height, 0);
    }

    /// Returns all nodes, in order of node index.
    pub(crate) fn nodes(&self) -> &[Option<Node>]
        ensures { map entry_value result.now ≡ listing self.now.tree }
    {
        self.nodes.as_slice()
    }

    /// Returns the node at node index `node_index`. `None` if it is blank or there is none.
    pub(crate) fn node(&self, node_index: u32) -> Option<&Node>
        ensures { option_map (λ n. node_value n.now) result ≡ node_at self.now.tree node_index }
    {
        match self.nodes.get(node_index as usize) {
            Some(entry) => entry.as_ref(),
            None => None,
        }
    }

    /// Returns a leaf by its leaf index. `None` if it is blank or there is none.
    pub(crate) fn leaf(&self, index: u32) -> Option<&EncodedLeaf>
        ensures { option_copied result ≡ leaf_at 0 self.now.tree index }
    {
        match self.nodes.get(2 * index as usize) {
            Some(entry) => as_leaf(entry),
            None => None,
        }
    }

    /// Returns the leaf index of the leftmost blank leaf. `None` if every leaf is non-blank. Uses the counts of the
    /// tree's parents, if there are any.
    pub(crate) fn first_blank_leaf(&self, counts: Option<&[Count]>) -> Option<u32>
        requires { AreCountsIfAny (option_copied counts) 0 self.now.tree }
        ensures first { result ≡ first_blank_leaf 0 self.now.tree }
        ensures leftmost { MatchOption result (AllLeavesNonBlank self.now.tree)
            (λ j. IsFirstBlank self.now.tree j) }
    {
        self.next_blank_leaf(counts, 0)
    }

    /// Returns the leaf index of the leftmost blank leaf from `start` on. `None` if there is none. Uses the counts of
    /// the tree's parents, if there are any.
    pub(crate) fn next_blank_leaf(&self, counts: Option<&[Count]>, start: u32) -> Option<u32>
        requires { AreCountsIfAny (option_copied counts) 0 self.now.tree }
        ensures { result ≡ next_blank_leaf start 0 self.now.tree }
    {
        match counts {
            Some(counts) => {
                counted_blank_leaf(self.nodes.as_slice(), counts, self.height, 0, start)
            }
            None => self.search_blank_leaf(start),
        }
    }

    // As `next_blank_leaf`, leaf by leaf.
    fn search_blank_leaf(&self, start: u32) -> Option<u32>
        ensures { result ≡ next_blank_leaf start 0 self.now.tree }
    {
        for index in start..self.leaf_count() {
            if self.leaf(index).is_none() {
                return Some(index);
            }
        }
        None
    }

    /// Returns the direct path of a leaf, lowest node first (RFC 9420, 4.1.2). `NoSuchNode` if the tree has no such
    /// leaf.
    pub(crate) fn direct_path(&self, alloc: Global, leaf: u32) -> Result<Vec<u32>, TreeError>
        ensures node_indices { IfOk result (λ v. v.items ≡ direct_path 0 self.now.tree leaf) }
        ensures no_such_node { (result ≡ Err TreeError.NoSuchNode)
            ↔ (leaf_count self.now.tree ≤ leaf) }
        ensures possible_errors { IfErr result
            (λ e. (e ≡ TreeError.NoSuchNode) ⊎ (e ≡ TreeError.OutOfMemory)) }
    {
        if leaf >= self.leaf_count() {
            return Err(TreeError::NoSuchNode);
        }
        let mut out = Vec::new(alloc);
        push_direct_path(&mut out, self.height, 0, leaf)?;
        Ok(out)
    }

    /// Returns the copath of a leaf, lowest node first (RFC 9420, 4.1.2). `NoSuchNode` if the tree has no such leaf.
    pub(crate) fn copath(&self, alloc: Global, leaf: u32) -> Result<Vec<u32>, TreeError>
        ensures node_indices { IfOk result (λ v. v.items ≡ copath 0 self.now.tree leaf) }
        ensures no_such_node { (result ≡ Err TreeError.NoSuchNode)
            ↔ (leaf_count self.now.tree ≤ leaf) }
        ensures possible_errors { IfErr result
            (λ e. (e ≡ TreeError.NoSuchNode) ⊎ (e ≡ TreeError.OutOfMemory)) }
    {
        if leaf >= self.leaf_count() {
            return Err(TreeError::NoSuchNode);
        }
        let mut out = Vec::new(alloc);
        push_copath(&mut out, self.height, 0, leaf)?;
        Ok(out)
    }

    /// Returns the filtered direct path of a leaf, lowest node first (RFC 9420, 4.1.2). `NoSuchNode` if the tree has no
    /// such leaf. Uses the counts of the tree's parents, if there are any.
    pub(crate) fn filtered_direct_path(
        &self,
        alloc: Global,
        counts: Option<&[Count]>,
        leaf: u32,
    ) -> Result<Vec<u32>, TreeError>
        requires { AreCountsIfAny (option_copied counts) 0 self.now.tree }
        ensures node_indices { IfOk result
            (λ v. v.items ≡ filtered_direct_path (leaf_count self.now.tree) 0 self.now.tree leaf) }
        ensures no_such_node { (result ≡ Err TreeError.NoSuchNode)
            ↔ (leaf_count self.now.tree ≤ leaf) }
        ensures possible_errors { IfErr result
            (λ e. (e ≡ TreeError.NoSuchNode) ⊎ (e ≡ TreeError.OutOfMemory)) }
    {
        if leaf >= self.leaf_count() {
            return Err(TreeError::NoSuchNode);
        }
        let mut out = Vec::new(alloc);
        let nodes = self.nodes.as_slice();
        push_filtered_direct_path(&mut out, nodes, counts, self.height, 0, leaf)?;
        Ok(out)
    }

    /// Returns the resolution of the node at node index `node_index` (RFC 9420, 4.1.1). Unmerged leaves that the tree
    /// doesn't have are left out. `NoSuchNode` if the tree has no such node.
    pub(crate) fn resolution(&self, alloc: Global, node_index: u32) -> Result<Vec<u32>, TreeError>
        ensures node_indices { IfOk result (λ v. resolution_at self.now.tree node_index ≡ Some v.items) }
        ensures no_such_node { (result ≡ Err TreeError.NoSuchNode)
            ↔ (resolution_at self.now.tree node_index ≡ None) }
        ensures possible_errors { IfErr result
            (λ e. (e ≡ TreeError.NoSuchNode) ⊎ (e ≡ TreeError.OutOfMemory)) }
    {
        let leaves = self.leaf_count();
        let Some(level) = level_inside(node_index, leaves) else {
            return Err(TreeError::NoSuchNode);
        };
        let first = (node_index + 1 - leaves_of(level)) / 2;
        let mut out = Vec::new(alloc);
        push_resolution(&mut out, self.nodes.as_slice(), leaves, level, first)?;
        Ok(out)
    }

    /// Returns whether the resolution of the node at node index `node_index` (RFC 9420, 4.1.1) has exactly `len` nodes
    /// besides those in `without`. `NoSuchNode` if the tree has no such node.
    ///
    /// Does not allocate, and stops as soon as it finds one node more. If there are counts of the tree's parents,
    /// subtrees of blank nodes are passed by.
    pub(crate) fn has_resolution_len(
        &self,
        counts: Option<&[Count]>,
        node_index: u32,
        without: &BTreeSet<u64>,
        len: usize,
    ) -> Result<bool, TreeError>
        requires { AreCountsIfAny (option_copied counts) 0 self.now.tree }
        ensures answer { IfOk result (λ b. IfSome (resolution_at self.now.tree node_index)
            (λ ps. b ≡ (count_not_in without.now ps == len))) }
        ensures no_such_node { (result ≡ Err TreeError.NoSuchNode)
            ↔ (resolution_at self.now.tree node_index ≡ None) }
        ensures else_no_such { IfErr result (λ e. e ≡ TreeError.NoSuchNode) }
    {
        let leaves = self.leaf_count();
        let Some(level) = level_inside(node_index, leaves) else {
            return Err(TreeError::NoSuchNode);
        };
        let first = (node_index + 1 - leaves_of(level)) / 2;
        let nodes = self.nodes.as_slice();
        match take_resolution(nodes, counts, without, leaves, level, first, len) {
            Some(left) => Ok(left == 0),
            None => Ok(false),
        }
    }

    /// Returns a copy.
    pub(crate) fn try_clone(&self, alloc: Global) -> Result<NodeArray, AllocError>
        ensures { IfOk result (λ t. t ≡ self.now) }
    {
        let Ok(nodes) = clone_entries(alloc, self.nodes.as_slice()) else {
            return Err(AllocError);
        };
        Ok(NodeArray {
            nodes,
            height: self.height,
        })
    }

    /// Replaces a leaf; `None` makes it blank. If the tree has no such leaf, returns `NoSuchNode` and the given leaf.
    pub(crate) fn set_leaf(
        &mut self,
        index: u32,
        leaf: Option<Shared<EncodedLeaf>>,
    ) -> Result<(), (TreeError, Option<Shared<EncodedLeaf>>)>
        ensures changed { OnOk result
            (self.new.tree ≡ put_leaf 0 self.old.tree index leaf) }
        ensures unchanged_on_error { OnErr result (self.new ≡ self.old) }
        ensures no_such_node { IsErr result ↔ (leaf_count self.old.tree ≤ index) }
        ensures returned_arguments { IfErr result (λ e. e ≡ (TreeError.NoSuchNode, leaf)) }
    {
        if index >= leaves_of(self.height) {
            return Err((TreeError::NoSuchNode, leaf));
        }
        self.nodes[2 * index as usize] = leaf_entry(leaf);
        Ok(())
    }

    /// Replaces the parent at node index `node_index`; `None` makes it blank. If the tree has no such parent, returns
    /// `NoSuchNode` and the given parent.
    pub(crate) fn put_parent(
        &mut self,
        node_index: u32,
        parent: Option<Box<ParentNode>>,
    ) -> Result<(), (TreeError, Option<Box<ParentNode>>)>
        ensures changed { OnOk result
            (self.new.tree ≡ put_parent 0 self.old.tree node_index (option_map (λ b. b.value) parent)) }
        ensures unchanged_on_error { OnErr result (self.new ≡ self.old) }
        ensures no_such_node { IsErr result ↔ (¬ IsParentNodeIndex self.old.tree node_index) }
        ensures returned_arguments { IfErr result (λ e. e ≡ (TreeError.NoSuchNode, parent)) }
    {
        if node_index % 2 == 0 || node_index as usize >= self.nodes.len() {
            return Err((TreeError::NoSuchNode, parent));
        }
        self.nodes[node_index as usize] = parent_entry(parent);
        Ok(())
    }

    /// Replaces a leaf, and returns the previous one; `None` makes it blank. Does not allocate.
    pub(crate) fn replace_leaf(
        &mut self,
        index: u32,
        leaf: Option<Shared<EncodedLeaf>>,
    ) -> Option<Shared<EncodedLeaf>>
        requires { index < leaf_count self.old.tree }
        ensures put { self.new.tree
            ≡ put_leaf 0 self.old.tree index leaf }
        ensures former { result ≡ leaf_at 0 self.old.tree index }
    {
        let former = mem::replace(&mut self.nodes[2 * index as usize], leaf_entry(leaf));
        into_leaf(former)
    }

    /// Replaces a parent, and returns the previous one; `None` makes it blank. Does not allocate.
    pub(crate) fn replace_parent(
        &mut self,
        node_index: u32,
        parent: Option<Box<ParentNode>>,
    ) -> Option<Box<ParentNode>>
        requires { IsParentNodeIndex self.old.tree node_index }
        ensures put { self.new.tree
            ≡ put_parent 0 self.old.tree node_index (option_map (λ b. b.value) parent) }
        ensures former { option_map (λ b. b.value) result ≡ parent_of (node_at self.old.tree node_index) }
    {
        let former = mem::replace(&mut self.nodes[node_index as usize], parent_entry(parent));
        into_parent(former)
    }

    /// Makes blank the parents above a leaf (RFC 9420, 12.1.2 and 12.1.3), but not the leaf. `NoSuchNode` if the tree
    /// has no such leaf.
    pub(crate) fn blank_path(&mut self, index: u32) -> Result<(), TreeError>
        ensures changed { OnOk result (self.new.tree ≡ blank_path self.old.tree index) }
        ensures unchanged_on_error { OnErr result (self.new ≡ self.old) }
        ensures no_such_node { (result ≡ Err TreeError.NoSuchNode)
            ↔ (leaf_count self.old.tree ≤ index) }
        ensures no_other { IfErr result (λ e. e ≡ TreeError.NoSuchNode) }
    {
        if index >= leaves_of(self.height) {
            return Err(TreeError::NoSuchNode);
        }
        let height = self.height;
        blank_above(self.nodes.as_mut_slice(), height, 0, index);
        Ok(())
    }

    /// Adds a leaf index to the unmerged leaves of each non-blank parent above the leaf (RFC 9420, 12.1.1), before the
    /// first entry that is not less. A list that has the leaf index is unchanged. All new lists are made before one is
    /// put in place.
    ///
    /// # Errors
    ///
    /// `NoSuchNode` if the tree has no such leaf, else `TooManyLeaves` if a list without the leaf index has 1,048,576
    /// entries. Both are checked before anything is allocated.
    pub(crate) fn add_unmerged(&mut self, alloc: Global, index: u32) -> Result<(), TreeError>
        ensures changed { OnOk result (self.new.tree ≡ add_unmerged self.old.tree index) }
        ensures unchanged_on_error { OnErr result (self.new ≡ self.old) }

        ensures no_such_node { (result ≡ Err TreeError.NoSuchNode)
            ↔ (leaf_count self.old.tree ≤ index) }
        ensures too_many_leaves { (result ≡ Err TreeError.TooManyLeaves)
            ↔ ((index < leaf_count self.old.tree) × IsOverfull self.old.tree index) }
        ensures possible_errors { IfErr result
            (λ e. (e ≡ TreeError.NoSuchNode) ⊎ (e ≡ TreeError.TooManyLeaves)
            ⊎ (e ≡ TreeError.OutOfMemory)) }
    {
        if index >= leaves_of(self.height) {
            return Err(TreeError::NoSuchNode);
        }
        let height = self.height;
        if is_overfilled_above(self.nodes.as_slice(), height, 0, index) {
            return Err(TreeError::TooManyLeaves);
        }
        let mut lists = Vec::new(alloc);
        push_new_lists(&mut lists, alloc, self.nodes.as_slice(), height, 0, index)?;
        put_lists(self.nodes.as_mut_slice(), &mut lists, height, 0, index);
        Ok(())
    }

    /// Returns whether a non-blank parent above a leaf has a full list of unmerged leaves without this leaf index.
    pub(crate) fn is_overfull(&self, index: u32) -> bool
        ensures { result ≡ is_overfilled_above 0 self.now.tree index }
    {
        is_overfilled_above(self.nodes.as_slice(), self.height, 0, index)
    }

    /// Makes the parents that replace the non-blank ones above the leaves `indices`, which are the same with these leaf
    /// indices in their lists, the topmost last. `TooManyLeaves` if a list would have more than 1,048,576 entries.
    pub(crate) fn new_parents(
        &self,
        alloc: Global,
        indices: &[u32],
    ) -> Result<Vec<NewParent>, TreeError>
        requires { IsStrictlyIncreasing indices.now }
        ensures parents { IfOk result
            (λ v. map replacement v.items ≡ new_parents 0 self.now.tree indices.now) }
        ensures fits { OnOk result (overfills_below 0 self.now.tree indices.now ≡ false) }
        ensures too_many_leaves { result ≡ Err TreeError.TooManyLeaves
            → overfills_below 0 self.now.tree indices.now ≡ true }
        ensures possible_errors { IfErr result
            (λ e. (e ≡ TreeError.TooManyLeaves) ⊎ (e ≡ TreeError.OutOfMemory)) }
    {
        let mut out = Vec::new(alloc);
        push_new_parents(
            &mut out,
            alloc,
            self.nodes.as_slice(),
            self.height,
            0,
            indices,
        )?;
        Ok(out)
    }

    /// Adds a leaf index to the unmerged leaves of the parent at node index `node_index`, in place, unless the parent
    /// is blank or has that leaf index. Returns whether the list has changed.
    pub(crate) fn insert_unmerged_at(
        &mut self,
        node_index: u32,
        index: u32,
    ) -> Result<bool, AllocError>
        requires there { IsParentNodeIndex self.old.tree node_index }
        requires capacity { is_overfilled index (parent_of (node_at self.old.tree node_index)) ≡ false }
        ensures in_lists { OnOk result
            (self.new.tree ≡ change_parent (with_unmerged index) 0 self.old.tree node_index) }
        ensures back { IfOk result (λ changed. OnTrue changed
            (change_parent (without_unmerged index) 0 self.new.tree node_index ≡ self.old.tree)) }
        ensures same { IfOk result (λ changed. OnFalse changed (self.new.tree ≡ self.old.tree)) }
        ensures unchanged_on_error { OnErr result (self.new.tree ≡ self.old.tree) }
    {
        let Some(mut parent) = self.replace_parent(node_index, None) else {
            return Ok(false);
        };
        let changed = insert_index(&mut parent.unmerged, index);
        self.replace_parent(node_index, Some(parent));
        changed
    }

    /// Removes a leaf index from the unmerged leaves of the parent at node index `node_index`, if it is there. Does not
    /// allocate.
    pub(crate) fn leave_at(&mut self, node_index: u32, index: u32)
        ensures { self.new.tree ≡ change_parent (without_unmerged index) 0 self.old.tree node_index }
    {
        if node_index as usize >= self.nodes.len() || node_index % 2 == 0 {
            return;
        }
        let Some(mut parent) = self.replace_parent(node_index, None) else {
            return;
        };
        leave(&mut parent.unmerged, index);
        self.replace_parent(node_index, Some(parent));
    }

    /// Replaces the tree by its left subtree, if it has one. Does not allocate.
    pub(crate) fn cut(&mut self)
        ensures { self.new.tree ≡ left_subtree self.old.tree }
    {
        if self.height == 0 {
            return;
        }
        let below = self.height - 1;
        self.shorten(below);
    }

    // Replaces the tree by its leftmost subtree of height `level`.
    fn shorten(&mut self, level: u32)
        requires { level ≤ height self.old.tree }
        ensures { self.new.tree ≡ front_subtree level self.old.tree }
    {
        self.nodes.truncate(2 * leaves_of(level) as usize - 1);
        self.height = level;
    }

    /// Returns the height of the tree truncated (RFC 9420, 7.7). Uses the counts of the tree's parents, if there are
    /// any.
    pub(crate) fn truncated_height(&self, counts: Option<&[Count]>) -> u32
        requires { AreCountsIfAny (option_copied counts) 0 self.now.tree }
        ensures value { result ≡ height (truncate self.now.tree) }
        ensures front { front_subtree result self.now.tree ≡ truncate self.now.tree }
        ensures low { result ≤ height self.now.tree }
    {
        truncated_height(self.nodes.as_slice(), counts, self.height)
    }

    /// Truncates the tree (RFC 9420, 7.7): replaces it by its left subtree as long as its right subtree has no
    /// non-blank leaf. Does not allocate. Uses the counts of the tree's parents, if there are any.
    pub(crate) fn truncate(&mut self, counts: Option<&[Count]>)
        requires { AreCountsIfAny (option_copied counts) 0 self.old.tree }
        ensures { self.new.tree ≡ truncate self.old.tree }
    {
        let level = self.truncated_height(counts);
        self.shorten(level);
    }

    /// Takes out and returns the leftmost subtree of height `level`. The tree has blank nodes in its place.
    pub(crate) fn take_front(&mut self, alloc: Global, level: u32) -> Result<NodeArray, AllocError>
        requires { level ≤ height self.old.tree }
        ensures front { IfOk result (λ f. f.tree ≡ front_subtree level self.old.tree) }
        ensures level { IfOk result (λ f. height f.tree ≡ level) }
        ensures rest { IfOk result (λ f. rejoined f.tree self.new.tree ≡ self.old.tree) }
        ensures blank { OnOk result (self.new.tree ≡ rejoined (blank_tree level) self.old.tree) }
        ensures rest_height { height self.new.tree ≡ height self.old.tree }
        ensures unchanged_on_error { OnErr result (self.new ≡ self.old) }
    {
        let mut nodes = Vec::new(alloc);
        push_blanks(&mut nodes, 2 * leaves_of(level) - 1)?;
        swap_prefix(&mut self.nodes, &mut nodes);
        let front = NodeArray {
            nodes,
            height: level,
        };
        Ok(front)
    }

    /// Replaces the leftmost subtree of `whole` that is as high as this tree by this tree, and this tree by the result.
    /// If `whole` is not higher, this tree is unchanged. Does not allocate.
    pub(crate) fn rejoin(&mut self, mut whole: NodeArray)
        ensures { self.new.tree ≡ rejoined self.old.tree whole.tree }
    {
        if self.height >= whole.height {
            return;
        }
        swap_prefix(&mut whole.nodes, &mut self.nodes);
        *self = whole;
    }

    /// Extends the tree (RFC 9420, 7.7): it becomes the left subtree of one twice as large, whose other nodes are
    /// blank. `TooManyLeaves` if the tree has 1,048,576 leaves.
    pub(crate) fn extend(&mut self) -> Result<(), TreeError>
        ensures changed { OnOk result (self.new.tree ≡ extend self.old.tree) }
        ensures unchanged_on_error { OnErr result (self.new ≡ self.old) }
        ensures too_many_leaves { (result ≡ Err TreeError.TooManyLeaves)
            ↔ (leaf_count self.old.tree ≡ leaf_limit) }
        ensures possible_errors { IfErr result
            (λ e. (e ≡ TreeError.TooManyLeaves) ⊎ (e ≡ TreeError.OutOfMemory)) }
    {
        if self.height == 20 {
            return Err(TreeError::TooManyLeaves);
        }
        let more = 2 * leaves_of(self.height);
        push_blanks(&mut self.nodes, more)?;
        self.height += 1;
        Ok(())
    }
}
