//! Changes of a tree that can be undone (RFC 9420, 7.7 and 12.1).
//!
//! A large tree is changed in place, not on a copy, and is validated after that. Each call here changes the tree and
//! stores what it replaced. The changes are then either final, or undone in reverse order. Undoing does not allocate
//! and cannot fail.
ghost use Rattle.std.specs.Prelude.{◌≡◌, ◌<◌, ◌↔◌, ◌⊎◌, true, false, All, Err, IfOk, IfErr, OnOk, OnErr, option_map};
ghost use Rattle.std.specs.List.Sorted.{IsStrictlyIncreasing};
ghost use Rattle.mls_nodes.specs.Limits.{leaf_limit};
ghost use Rattle.mls_tree.specs.Tree.{Tree, leaf_count, node_at, IsParentNodeIndex};
ghost use Rattle.mls_tree.specs.TreeOperations.{put_leaf, put_parent, change_parent, blank_path, with_unmerged, add_unmerged, add_all_unmerged, overfills, is_overfilled, IsOverfull, extend, truncate};
ghost use Rattle.mls_tree.specs.NodeView.{parent_of};
ghost use Rattle.mls_tree.specs.Journals.{undone, before, IsEmptyJournal};
ghost use Rattle.mls_tree.specs.LoggedHashes.{HasRightHashes, IsRightEntry};
ghost use Rattle.mls_tree.specs.ChangedNodes.{AgreeExceptAt};

use crate::changed_nodes::push_changed;
use crate::error::TreeError;
use crate::logged_hashes::{LoggedHash, log_hashes, log_path_hashes};
use crate::public_tree::PublicTree;
use crate::tree_size::leaves_of;
use mls_nodes::{EncodedLeaf, ParentNode};
use mls_wire::Shared;
use std::alloc::{AllocError, Global};
use std::mem;

/// What a change of a tree replaced.
#[derive(Drop)]
pub(crate) enum UndoEntry {
    /// A leaf.
    Leaf {
        index: u32,
        node: Option<Shared<EncodedLeaf>>,
    },
    /// A parent.
    Parent {
        node_index: u32,
        node: Option<Box<ParentNode>>,
    },
    /// The unmerged leaves of a parent, which did not contain this leaf index.
    AddedUnmerged {
        node_index: u32,
        index: u32,
    },
    /// The tree, which has been extended.
    Extended,
    /// A larger tree, without the leftmost subtree that the tree now is.
    Truncated(Box<PublicTree>),
    /// Nothing: before the changes that follow, a subtree had this cached hash.
    Hash(Box<LoggedHash>),
}

/// What the changes of a tree have replaced, in the order of the changes. From the first change on, the tree is changed
/// only by the calls here, with this journal, until the changes are final or undone.
///
/// Contracts model a journal by the tree before these changes, `before`. Only `rollback` and `discard` change it. A
/// call that returns `OutOfMemory` may have made a part of its changes, if its documentation says so; the journal has
/// stored that part.
///
/// The contracts promise trees. Of a tree's cache they promise what holds of every `PublicTree`: a filled slot is
/// right. Each call empties the slots of the subtrees that it changes, and undoing empties these again. Other slots are
/// unchanged. Undoing gives back the slots that truncating removed, if the tree's cache is still of the same kind.
/// Otherwise it drops the cache. That undoing gives the cached hashes back is tested, not proved.
///
/// The journal has an entry for each node that a change replaces, except if a blank node is replaced by a blank one.
/// Before a change it also logs the cached hashes that the change clears, if their nodes are long: of leaf nodes and
/// parents with more than 256 bytes, or of parents with more than 64 unmerged leaves. `rollback_with_hashes` puts these
/// hashes back. Their nodes are not hashed again, however many changes are made and undone.
///
/// Contracts say of a tree and a journal, `HasRightHashes`, that each logged hash is right for the tree that it is put
/// back into. Each call preserves this, also on error.
#[derive(Drop)]
pub struct Journal {
    formers: Vec<UndoEntry>,
}

/// Undoes the change with the undo entry `former`.
fn rollback(tree: &mut PublicTree, former: UndoEntry)
    ensures tree { tree.new.tree ≡ undone former tree.old.tree }
{
    match former {
        UndoEntry::Leaf { index, node } => drop(tree.set_leaf(index, node)),
        UndoEntry::Parent { node_index, node } => tree.restore_parent(node_index, node),
        UndoEntry::AddedUnmerged { node_index, index } => tree.leave_at(node_index, index),
        UndoEntry::Extended => tree.cut(),
        UndoEntry::Truncated(whole) => tree.rejoin(Box::into_inner(whole)),
        UndoEntry::Hash(_) => {}
    }
}

/// Undoes the change with the undo entry `former`. If the entry is a hash, puts it back.
fn rollback_with_hash(tree: &mut PublicTree, former: UndoEntry)
    requires { IsRightEntry former tree.old.tree }
    ensures tree { tree.new.tree ≡ undone former tree.old.tree }
{
    match former {
        UndoEntry::Hash(hash) => hash.put(tree),
        other => rollback(tree, other),
    }
}

// A box for a tree, with a small one in it.
fn new_box(alloc: Global) -> Result<Box<PublicTree>, AllocError> {
    let Ok(tree) = PublicTree::blank(alloc, 1) else {
        return Err(AllocError);
    };
    Ok(Box::new(alloc, tree)?)
}

// Puts another tree into a box.
fn put_in(slot: Box<PublicTree>, tree: PublicTree) -> Box<PublicTree>
    ensures { result.value ≡ tree }
{
    let mut slot = slot;
    *slot = tree;
    slot
}

impl Journal {
    /// Creates an empty journal. Does not allocate.
    pub fn new(alloc: Global) -> Journal
        ensures nothing { IsEmptyJournal result }
        ensures hashes { (t : Tree) → HasRightHashes result t }
    {
        Journal {
            formers: Vec::new(alloc),
        }
    }

    /// Replaces a leaf of the tree; `None` makes it blank. Called `put_leaf` in the definitions. If memory runs out,
    /// the tree is unchanged.
    pub fn set_leaf(
        &mut self,
        tree: &mut PublicTree,
        index: u32,
        leaf: Option<Shared<EncodedLeaf>>,
    ) -> Result<(), AllocError>
        requires { index < leaf_count tree.old.tree }
        ensures put { OnOk result
            (tree.new.tree ≡ put_leaf 0 tree.old.tree index leaf) }
        ensures unchanged_on_error { OnErr result (tree.new ≡ tree.old) }
        ensures before { before self.new tree.new.tree ≡ before self.old tree.old.tree }
        ensures hashes { HasRightHashes self.old tree.old.tree → HasRightHashes self.new tree.new.tree }
    {
        log_hashes(&mut self.formers, tree, 2 * index)?;
        self.formers.try_reserve(1)?;
        let node = tree.replace_leaf(index, leaf);
        self.formers.push_reserved(UndoEntry::Leaf { index, node });
        Ok(())
    }

    // As `put_parent`, but logs no hash.
    fn replace_parent(
        &mut self,
        tree: &mut PublicTree,
        node_index: u32,
        parent: Option<Box<ParentNode>>,
    ) -> Result<(), AllocError>
        requires { IsParentNodeIndex tree.old.tree node_index }
        ensures put { OnOk result
            (tree.new.tree ≡ put_parent 0 tree.old.tree node_index (option_map (λ b. b.value) parent)) }
        ensures unchanged_on_error { OnErr result (tree.new ≡ tree.old) }
        ensures before { before self.new tree.new.tree ≡ before self.old tree.old.tree }
        ensures hashes { HasRightHashes self.old tree.old.tree → HasRightHashes self.new tree.new.tree }
    {
        self.formers.try_reserve(1)?;
        let stays_blank = parent.is_none();
        let node = tree.replace_parent(node_index, parent);
        if stays_blank && node.is_none() {
            return Ok(());
        }
        self.formers
            .push_reserved(UndoEntry::Parent { node_index, node });
        Ok(())
    }

    /// Replaces the parent at node index `node_index`; `None` makes it blank. If memory runs out, the tree is
    /// unchanged.
    pub fn put_parent(
        &mut self,
        tree: &mut PublicTree,
        node_index: u32,
        parent: Option<Box<ParentNode>>,
    ) -> Result<(), AllocError>
        requires { IsParentNodeIndex tree.old.tree node_index }
        ensures put { OnOk result
            (tree.new.tree ≡ put_parent 0 tree.old.tree node_index (option_map (λ b. b.value) parent)) }
        ensures unchanged_on_error { OnErr result (tree.new ≡ tree.old) }
        ensures before { before self.new tree.new.tree ≡ before self.old tree.old.tree }
        ensures hashes { HasRightHashes self.old tree.old.tree → HasRightHashes self.new tree.new.tree }
    {
        log_hashes(&mut self.formers, tree, node_index)?;
        self.replace_parent(tree, node_index, parent)
    }

    /// Makes blank the parents above a leaf (RFC 9420, 12.1.2 and 12.1.3), but not the leaf. If memory runs out, some
    /// of the parents may be blank.
    pub fn blank_path(
        &mut self,
        alloc: Global,
        tree: &mut PublicTree,
        index: u32,
    ) -> Result<(), AllocError>
        requires { index < leaf_count tree.old.tree }
        ensures cleared { OnOk result (tree.new.tree ≡ blank_path tree.old.tree index) }
        ensures before { before self.new tree.new.tree ≡ before self.old tree.old.tree }
        ensures hashes { HasRightHashes self.old tree.old.tree → HasRightHashes self.new tree.new.tree }
    {
        let mut node_indices = match tree.direct_path(alloc, index) {
            Ok(node_indices) => node_indices,
            Err(TreeError::OutOfMemory) => return Err(AllocError),
            Err(_) => unreachable!(),
        };
        log_path_hashes(&mut self.formers, tree, node_indices.as_slice())?;
        while let Some(node_index) = node_indices.pop() {
            self.replace_parent(tree, node_index, None)?;
        }
        Ok(())
    }

    // Adds a leaf index to the unmerged leaves of the parent at node index `node_index`, unless the parent is blank or
    // has that leaf index. Logs no hash.
    fn insert_unmerged(
        &mut self,
        tree: &mut PublicTree,
        node_index: u32,
        index: u32,
    ) -> Result<(), AllocError>
        requires there { IsParentNodeIndex tree.old.tree node_index }
        requires capacity { is_overfilled index (parent_of (node_at tree.old.tree node_index)) ≡ false }
        ensures in_lists { OnOk result
            (tree.new.tree ≡ change_parent (with_unmerged index) 0 tree.old.tree node_index) }
        ensures before { before self.new tree.new.tree ≡ before self.old tree.old.tree }
        ensures hashes { HasRightHashes self.old tree.old.tree → HasRightHashes self.new tree.new.tree }
    {
        self.formers.try_reserve(1)?;
        if tree.insert_unmerged_at(node_index, index)? {
            self.formers
                .push_reserved(UndoEntry::AddedUnmerged { node_index, index });
        }
        Ok(())
    }

    /// Adds a leaf index to the unmerged leaves of each non-blank parent above the leaf (RFC 9420, 12.1.1), in place,
    /// before the first entry that is not less. A list that has the leaf index is unchanged.
    ///
    /// # Errors
    ///
    /// `TooManyLeaves` if a list without the leaf index has 1,048,576 entries; this is checked before anything is
    /// allocated. If memory runs out, some of the lists may have the leaf index.
    pub fn add_unmerged(
        &mut self,
        alloc: Global,
        tree: &mut PublicTree,
        index: u32,
    ) -> Result<(), TreeError>
        requires { index < leaf_count tree.old.tree }
        ensures in_lists { OnOk result (tree.new.tree ≡ add_unmerged tree.old.tree index) }
        ensures before { before self.new tree.new.tree ≡ before self.old tree.old.tree }
        ensures hashes { HasRightHashes self.old tree.old.tree → HasRightHashes self.new tree.new.tree }
        ensures too_many_leaves { (result ≡ Err TreeError.TooManyLeaves)
            ↔ IsOverfull tree.old.tree index }
        ensures possible_errors { IfErr result
            (λ e. (e ≡ TreeError.TooManyLeaves) ⊎ (e ≡ TreeError.OutOfMemory)) }
    {
        if tree.is_overfull(index) {
            return Err(TreeError::TooManyLeaves);
        }
        let mut node_indices = tree.direct_path(alloc, index)?;
        log_path_hashes(&mut self.formers, tree, node_indices.as_slice())?;
        while let Some(node_index) = node_indices.pop() {
            self.insert_unmerged(tree, node_index, index)?;
        }
        Ok(())
    }

    // As `add_all_unmerged`. Each non-blank parent above some of the leaves is replaced once, by one with the same keys.
    fn replace_lists(
        &mut self,
        alloc: Global,
        tree: &mut PublicTree,
        indices: &[u32],
    ) -> Result<(), TreeError>
        requires { IsStrictlyIncreasing indices.now }
        ensures in_lists { OnOk result (tree.new.tree ≡ add_all_unmerged indices.now tree.old.tree) }
        ensures before { before self.new tree.new.tree ≡ before self.old tree.old.tree }
        ensures hashes { HasRightHashes self.old tree.old.tree → HasRightHashes self.new tree.new.tree }
        ensures fits { OnOk result (overfills indices.now tree.old.tree ≡ false) }
        ensures too_many_leaves { (result ≡ Err TreeError.TooManyLeaves)
            → overfills indices.now tree.old.tree ≡ true }
        ensures possible_errors { IfErr result
            (λ e. (e ≡ TreeError.TooManyLeaves) ⊎ (e ≡ TreeError.OutOfMemory)) }
    {
        let mut parents = tree.new_parents(alloc, indices)?;
        while let Some(new) = parents.pop() {
            self.put_parent(tree, new.node_index, Some(new.parent))?;
        }
        Ok(())
    }

    /// Adds leaf indices, one after the other, to the unmerged leaves of the non-blank parents above them (RFC 9420,
    /// 12.1.1). Each list is as `add_unmerged` makes it. The leaf indices must be in increasing order.
    ///
    /// A single leaf index is added in place. Of several, each list is copied once: for k leaf indices in a tree of n
    /// leaves, the time is proportional to k log n and to the length of the lists that change, if these are sorted.
    ///
    /// # Errors
    ///
    /// `TooManyLeaves` if a list would have more than 1,048,576 entries. If memory runs out, some of the lists may have
    /// changed.
    pub fn add_all_unmerged(
        &mut self,
        alloc: Global,
        tree: &mut PublicTree,
        indices: &[u32],
    ) -> Result<(), TreeError>
        requires increasing { IsStrictlyIncreasing indices.now }
        requires inside { All (λ i. i < leaf_count tree.old.tree) indices.now }
        ensures in_lists { OnOk result (tree.new.tree ≡ add_all_unmerged indices.now tree.old.tree) }
        ensures before { before self.new tree.new.tree ≡ before self.old tree.old.tree }
        ensures hashes { HasRightHashes self.old tree.old.tree → HasRightHashes self.new tree.new.tree }
        ensures fits { OnOk result (overfills indices.now tree.old.tree ≡ false) }
        ensures too_many_leaves { (result ≡ Err TreeError.TooManyLeaves)
            → overfills indices.now tree.old.tree ≡ true }
        ensures possible_errors { IfErr result
            (λ e. (e ≡ TreeError.TooManyLeaves) ⊎ (e ≡ TreeError.OutOfMemory)) }
    {
        if let [index] = indices {
            return self.add_unmerged(alloc, tree, *index);
        }
        self.replace_lists(alloc, tree, indices)
    }

    /// Extends the tree (RFC 9420, 7.7): the tree becomes the left subtree of one twice as large, whose other nodes are
    /// blank.
    ///
    /// # Errors
    ///
    /// `TooManyLeaves` if the tree has 1,048,576 leaves; this is checked before anything is allocated. If the call
    /// fails, the tree is unchanged.
    pub fn extend(&mut self, tree: &mut PublicTree) -> Result<(), TreeError>
        ensures changed { OnOk result (tree.new.tree ≡ extend tree.old.tree) }
        ensures unchanged_on_error { OnErr result (tree.new ≡ tree.old) }
        ensures before { before self.new tree.new.tree ≡ before self.old tree.old.tree }
        ensures hashes { HasRightHashes self.old tree.old.tree → HasRightHashes self.new tree.new.tree }
        ensures too_many_leaves { (result ≡ Err TreeError.TooManyLeaves)
            ↔ (leaf_count tree.old.tree ≡ leaf_limit) }
        ensures possible_errors { IfErr result
            (λ e. (e ≡ TreeError.TooManyLeaves) ⊎ (e ≡ TreeError.OutOfMemory)) }
    {
        if tree.leaf_count() == 1_048_576 {
            return Err(TreeError::TooManyLeaves);
        }
        self.formers.try_reserve(1)?;
        tree.extend()?;
        self.formers.push_reserved(UndoEntry::Extended);
        Ok(())
    }

    /// Truncates the tree (RFC 9420, 7.7): replaces it by its left subtree as long as its right subtree has no
    /// non-blank leaf. The journal stores the larger tree, and what remains is copied once. If memory runs out,
    /// the tree is unchanged.
    pub fn truncate(&mut self, alloc: Global, tree: &mut PublicTree) -> Result<(), AllocError>
        ensures shrunk { OnOk result (tree.new.tree ≡ truncate tree.old.tree) }
        ensures unchanged_on_error { OnErr result (tree.new ≡ tree.old) }
        ensures before { before self.new tree.new.tree ≡ before self.old tree.old.tree }
        ensures hashes { HasRightHashes self.old tree.old.tree → HasRightHashes self.new tree.new.tree }
    {
        let Some(level) = tree.truncated_height() else {
            return Ok(());
        };
        log_hashes(&mut self.formers, tree, leaves_of(level) - 1)?;
        self.formers.try_reserve(1)?;
        let slot = new_box(alloc)?;
        let front = tree.take_front(alloc, level)?;
        let whole = mem::replace(tree, front);
        let whole = put_in(slot, whole);
        self.formers.push_reserved(UndoEntry::Truncated(whole));
        Ok(())
    }

    /// Returns the node indices at which the changes replaced a node, and those of the non-blank nodes that truncating removed
    /// or that are in what extending added (RFC 9420, 7.7 and Appendix C). At every other node index the tree has the node
    /// that it had before the changes, or had none and has none.
    ///
    /// `tree` is the tree that was changed with this journal. (The contract holds for every tree.) The node indices are
    /// in increasing order, and each is there once. Let n be their number. The time is proportional to n log n, plus the
    /// number of nodes that truncating removed or extending added. The memory is proportional to n.
    pub fn changed_node_indices(
        &self,
        alloc: Global,
        tree: &PublicTree,
    ) -> Result<Vec<u32>, AllocError>
        ensures agree { IfOk result (λ node_indices.
            AgreeExceptAt node_indices.items (before self.now tree.now.tree) tree.now.tree) }
        ensures increasing { IfOk result (λ node_indices.
            IsStrictlyIncreasing node_indices.items) }
    {
        let mut node_indices = Vec::new(alloc);
        let mut leaves = tree.leaf_count();
        let formers = self.formers.as_slice();
        for index in (0..formers.len()).rev() {
            let former_leaves = push_changed(&mut node_indices, tree, &formers[index], leaves)?;
            leaves = former_leaves;
        }
        node_indices.sort_unstable();
        node_indices.dedup();
        Ok(node_indices)
    }

    /// Undoes all changes in reverse order. The tree is then the one before the changes, and the journal is empty.
    /// Does not allocate.
    pub fn rollback(&mut self, tree: &mut PublicTree)
        ensures tree { tree.new.tree ≡ before self.old tree.old.tree }
        ensures nothing { IsEmptyJournal self.new }
    {
        while let Some(former) = self.formers.pop() {
            rollback(tree, former);
        }
    }

    /// Undoes all changes in reverse order, as `rollback` does, and puts the logged hashes into their cache slots. A hash is
    /// not put back if the tree's cache is not of its kind any more. Does not allocate.
    pub fn rollback_with_hashes(&mut self, tree: &mut PublicTree)
        requires { HasRightHashes self.old tree.old.tree }
        ensures tree { tree.new.tree ≡ before self.old tree.old.tree }
        ensures nothing { IsEmptyJournal self.new }
        ensures hashes { (t : Tree) → HasRightHashes self.new t }
    {
        while let Some(entry) = self.formers.pop() {
            rollback_with_hash(tree, entry);
        }
    }

    /// Makes all changes final: they cannot be undone after this. Does not allocate.
    pub fn discard(&mut self)
        ensures nothing { IsEmptyJournal self.new }
        ensures hashes { (t : Tree) → HasRightHashes self.new t }
    {
        self.formers.clear();
    }
}
