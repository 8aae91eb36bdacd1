//! Whether every non-blank parent is parent-hash valid (RFC 9420, 7.9.2): a chain of parent hashes leads to it from a
//! leaf.
//!
//! Children are visited before their parent, and each parent-hash valid parent is marked. If unmerged leaves are
//! consistent, at most one node of a child can link to the parent: the one of the child's resolution that the parent
//! does not list.

ghost use Rattle.std.specs.Prelude.{ℕ, ◌≡◌, ◌↔◌, ◌+◌, ◌*◌, IsTrue, IsSome, IfSome, IfOk, OnOk, MatchOption, Some, length};
ghost use Rattle.std.specs.Option.{option_copied};
ghost use Rattle.std.specs.List.Sorted.{IsStrictlyIncreasing};
ghost use Rattle.mls_tree.specs.Tree.{leaf_count, subtree_at, node_at};
ghost use Rattle.mls_hash.specs.SuiteHash.{hash_of};
ghost use Rattle.mls_hash.specs.OriginalTreeHashes.{AreChildHashes, AreKnownHashes};
ghost use Rattle.mls_hash.specs.ParentHash.{parent_at};
ghost use Rattle.mls_hash.specs.SubtreeHashes.{AreSubtreeHashes};
ghost use Rattle.mls_check.specs.FirstFailureInternal.{IsFirstFailureIn};
ghost use Rattle.mls_check.specs.UnmergedLists.{HasStrictlyIncreasingLists, HasConsistentUnmerged};
ghost use Rattle.mls_check.specs.ParentHashValid.{linked_hash, IsParentHashValidAt, IsParentHashValidHere};
ghost use Rattle.mls_check.specs.ParentHashMarks.{RisesInLeaves, IsOnlyUnlisted, IsChainEnd, IsChainPredecessorIn, HasParentHash, MarksAreValid, AreKept, AreAllMarkedAt, AreAllMarkedUnder, IsMarkedAt};

use crate::node_count::node_index_count;
use crate::sorted_leaf_lists::starts_with;
use mls_hash::{ChildHashes, OriginalHashes, Side, SubtreeHashes, Suite};
use mls_nodes::{LeafSource, Node};
use mls_tree::{Part, PublicTree, TreeError, split_leaves};
use std::alloc::{AllocError, Global};

/// Returns the one of the node indices that is not that of a leaf of the list. The list is sorted, and so are the node
/// indices of leaves: both are walked together.
fn only_unlisted_node(node_indices: &[u32], list: &[u32]) -> Option<u32>
    requires list { IsStrictlyIncreasing list.now }
    requires node_indices { RisesInLeaves node_indices.now }
    ensures { MatchOption result ((p : ℕ) → ¬ IsOnlyUnlisted list.now node_indices.now p)
        (λ p. IsOnlyUnlisted list.now node_indices.now p) }
{
    let mut lone = None;
    let mut rest = list;
    for &node_index in node_indices {
        if node_index % 2 == 0 {
            rest = split_leaves(rest, node_index / 2).1;
            if starts_with(rest, node_index / 2) {
                continue;
            }
        }
        if lone == Some(node_index) {
            continue;
        }
        if lone.is_some() {
            return None;
        }
        lone = Some(node_index);
    }
    lone
}

/// Returns whether a chain from a leaf leads to the node at a node index: it is a leaf, or marked.
fn ends_chain(marks: &[bool], node_index: u32) -> bool
    ensures { IsTrue result ↔ IsChainEnd marks.now node_index }
{
    if node_index % 2 == 0 {
        return true;
    }
    match marks.get(node_index as usize) {
        Some(marked) => *marked,
        None => false,
    }
}

/// Returns the node index of the one node of a child's resolution that a parent with this list does not list, if a
/// chain leads to it.
fn chain_predecessor(
    alloc: Global,
    tree: &PublicTree,
    list: &[u32],
    child: u32,
    marks: &[bool],
) -> Result<Option<u32>, AllocError>
    requires inside { IsSome (subtree_at 0 tree.now.tree child) }
    requires list { IsStrictlyIncreasing list.now }
    requires sorted { HasStrictlyIncreasingLists tree.now.tree }
    requires consistent { HasConsistentUnmerged tree.now.tree }
    ensures { IfOk result (λ o. IsChainPredecessorIn tree.now.tree list.now child marks.now o) }
{
    let node_indices = match tree.resolution(alloc, child) {
        Ok(node_indices) => node_indices,
        Err(TreeError::OutOfMemory) => return Err(AllocError),
        Err(_) => unreachable!(),
    };
    let Some(node_index) = only_unlisted_node(node_indices.as_slice(), list) else {
        return Ok(None);
    };
    if !ends_chain(marks, node_index) {
        return Ok(None);
    }
    Ok(Some(node_index))
}

/// Returns the `parent_hash` of the non-blank node at a node index.
fn linked_hash(tree: &PublicTree, node_index: u32) -> Option<&[u8]>
    ensures { option_copied result ≡ linked_hash (node_at tree.now.tree node_index) }
{
    match tree.node(node_index) {
        Some(Node::Leaf(leaf)) => match &leaf.source() {
            LeafSource::Commit { parent_hash } => Some(parent_hash.as_slice()),
            LeafSource::KeyPackage(_) => None,
            LeafSource::Update => None,
        },
        Some(Node::Parent(parent)) => Some(parent.parent_hash.as_slice()),
        None => None,
    }
}

/// Returns whether the node at `below`, if there is one, has the parent hash of the parent at `node_index` whose child
/// on the copath is on the given side.
fn is_linked(
    suite: Suite,
    tree: &PublicTree,
    known: &OriginalHashes<'_>,
    children: &ChildHashes,
    node_index: u32,
    side: Side,
    below: Option<u32>,
) -> bool
    requires { AreChildHashes (hash_of suite) tree.now.tree node_index children.now }
    ensures { IsTrue result ↔ HasParentHash (hash_of suite) tree.now.tree node_index side below }
{
    let Some(below) = below else {
        return false;
    };
    let Some(linked) = linked_hash(tree, below) else {
        return false;
    };
    let expected = known.parent_hash(suite, tree, node_index, side, children);
    expected.as_slice() == linked
}

/// Returns the original tree hashes of the children of the non-blank parent at a node index.
fn child_tree_hashes(
    suite: Suite,
    tree: &PublicTree,
    known: &mut OriginalHashes<'_>,
    node_index: u32,
) -> ChildHashes
    requires set { IsSome (parent_at tree.now.tree node_index) }
    requires known { AreKnownHashes (hash_of suite) tree.now.tree known.old }
    requires sorted { HasStrictlyIncreasingLists tree.now.tree }
    requires consistent { HasConsistentUnmerged tree.now.tree }
    ensures hashes { AreChildHashes (hash_of suite) tree.now.tree node_index result }
    ensures known { AreKnownHashes (hash_of suite) tree.now.tree known.new }
{
    match known.child_hashes(suite, tree, node_index) {
        Ok(children) => children,
        Err(_) => unreachable!(),
    }
}

/// Returns whether the non-blank parent at a node index is parent-hash valid. The parents below it that are must be
/// marked.
fn is_parent_hash_valid(
    alloc: Global,
    suite: Suite,
    tree: &PublicTree,
    known: &mut OriginalHashes<'_>,
    node_index: u32,
    marks: &[bool],
) -> Result<bool, AllocError>
    requires known { AreKnownHashes (hash_of suite) tree.now.tree known.old }
    requires sorted { HasStrictlyIncreasingLists tree.now.tree }
    requires consistent { HasConsistentUnmerged tree.now.tree }
    requires marks_valid { MarksAreValid (hash_of suite) tree.now.tree marks.now }
    requires marked { AreAllMarkedUnder (hash_of suite) tree.now.tree marks.now node_index }
    ensures marks { IfOk result
        (λ b. IsTrue b ↔ IsParentHashValidHere (hash_of suite) tree.now.tree node_index) }
    ensures known { AreKnownHashes (hash_of suite) tree.now.tree known.new }
{
    let Some(
        Part::Parent {
            node: Some(parent),
            left,
            right,
            ..
        },
    ) = tree.part(node_index)
    else {
        return Ok(false);
    };
    let list = parent.unmerged.as_slice();
    let from_left = chain_predecessor(alloc, tree, list, left, marks)?;
    let from_right = chain_predecessor(alloc, tree, list, right, marks)?;
    if from_left.is_none() && from_right.is_none() {
        return Ok(false);
    }
    let children = child_tree_hashes(suite, tree, known, node_index);
    if is_linked(
        suite,
        tree,
        known,
        &children,
        node_index,
        Side::Right,
        from_left,
    ) {
        return Ok(true);
    }
    Ok(is_linked(
        suite,
        tree,
        known,
        &children,
        node_index,
        Side::Left,
        from_right,
    ))
}

/// Marks the parents of a subtree that are parent-hash valid, children first.
fn mark_reached(
    alloc: Global,
    suite: Suite,
    tree: &PublicTree,
    known: &mut OriginalHashes<'_>,
    node_index: u32,
    marks: &mut [bool],
) -> Result<(), AllocError>
    requires known { AreKnownHashes (hash_of suite) tree.now.tree known.old }
    requires sorted { HasStrictlyIncreasingLists tree.now.tree }
    requires consistent { HasConsistentUnmerged tree.now.tree }
    requires capacity { length marks.old + 1 ≡ 2 * leaf_count tree.now.tree }
    requires marks_valid { MarksAreValid (hash_of suite) tree.now.tree marks.old }
    ensures known { AreKnownHashes (hash_of suite) tree.now.tree known.new }
    ensures marks_valid { OnOk result (MarksAreValid (hash_of suite) tree.now.tree marks.new) }
    ensures preserved { OnOk result (AreKept marks.old marks.new) }
    ensures marked { OnOk result (AreAllMarkedAt (hash_of suite) tree.now.tree marks.new node_index) }
{
    let Some(Part::Parent { left, right, .. }) = tree.part(node_index) else {
        return Ok(());
    };
    mark_reached(alloc, suite, tree, known, left, marks)?;
    mark_reached(alloc, suite, tree, known, right, marks)?;
    marks[node_index as usize] = is_parent_hash_valid(
        alloc, suite, tree, known, node_index, marks,
    )?;
    Ok(())
}

/// Returns the first node index of a non-blank parent that is not marked.
fn first_unmarked(tree: &PublicTree, marks: &[bool]) -> Option<u32>
    requires { length marks.now + 1 ≡ 2 * leaf_count tree.now.tree }
    ensures { IsFirstFailureIn (IsMarkedAt tree.now.tree marks.now) result }
{
    for node_index in 0..node_index_count(tree) {
        if tree.parent(node_index).is_none() {
            continue;
        }
        if !marks[node_index as usize] {
            return Some(node_index);
        }
    }
    None
}

/// Returns the first node index of a non-blank parent that is not parent-hash valid.
pub(crate) fn first_parent_hash_invalid(
    alloc: Global,
    suite: Suite,
    tree: &PublicTree,
    hashes: &SubtreeHashes<'_>,
) -> Result<Option<u32>, AllocError>
    requires hashes { AreSubtreeHashes (hash_of suite) tree.now.tree hashes.now }
    requires sorted { HasStrictlyIncreasingLists tree.now.tree }
    requires consistent { HasConsistentUnmerged tree.now.tree }
    ensures { IfOk result (λ o. IsFirstFailureIn (IsParentHashValidAt (hash_of suite) tree.now.tree) o) }
{
    let mut marks = vec![in alloc; false; node_index_count(tree) as usize]?;
    let mut known = OriginalHashes::new(alloc, tree, hashes)?;
    let root = tree.leaf_count() - 1;
    mark_reached(alloc, suite, tree, &mut known, root, marks.as_mut_slice())?;
    Ok(first_unmarked(tree, marks.as_slice()))
}
