//! The optional counts of a tree, updated as the tree is changed.
ghost use Rattle.std.specs.Prelude.{◌≡◌, ℕ, ◌+◌, ◌++◌, ◌<◌, ◌≤◌, Some, IfOk, OnOk, length, replicate, option_copied};
ghost use Rattle.std.specs.Vec.{vec_len, vec_capacity};
ghost use Rattle.mls_tree.specs.Tree.{Tree, height, leaf_count, IsPerfect};
ghost use Rattle.mls_tree.specs.TreeOperations.{blank_tree, extend, rejoined};
ghost use Rattle.mls_tree.specs.SubtreeCounts.{zero_count};
ghost use Rattle.mls_tree.specs.CountsModel.{AreCountsIn, AreBesideIn, AreFrontOf, AreCountsIfAny, AreNoMore, CanDouble};

use crate::node_array::NodeArray;
use crate::subtree_counts::Count;
use crate::swap_prefix::swap_prefix;
use std::alloc::{AllocError, Global};

/// The counts of a tree's parents, in increasing order of node index.
#[derive(Debug, Drop)]
pub(crate) struct Counts {
    pub(crate) list: Vec<Count>,
}

// Appends `count` zero counts, for which there is capacity.
fn push_zeros(list: &mut Vec<Count>, count: usize)
    requires { vec_len list.old + count ≤ vec_capacity list.old }
    ensures { list.new.items ≡ list.old.items ++ replicate count zero_count }
{
    for _ in 0..count {
        list.push_reserved(Count {
            members: 0,
            nodes: 0,
        });
    }
}

// Creates `count` zero counts.
fn zeros(alloc: Global, count: usize) -> Result<Vec<Count>, AllocError>
    ensures { IfOk result (λ list. list.items ≡ replicate count zero_count) }
{
    let mut list = Vec::new(alloc);
    list.try_reserve(count)?;
    push_zeros(&mut list, count);
    Ok(list)
}

// Sets the counts of the parents above a leaf. The other counts must be right.
fn set_above(counts: &mut Counts, tree: &NodeArray, leaf: u32)
    requires { AreBesideIn (Some counts.old) tree.now.tree leaf }
    ensures { AreCountsIn (Some counts.new) tree.now.tree }
{
    tree.recount(counts.list.as_mut_slice(), leaf);
}

// Sets the counts of all parents.
fn set_all(counts: &mut Counts, tree: &NodeArray)
    requires { length counts.old.list.items + 1 ≡ leaf_count tree.now.tree }
    ensures { AreCountsIn (Some counts.new) tree.now.tree }
{
    tree.count_all(counts.list.as_mut_slice());
}

// Appends zero counts for the new parents of a tree twice as large.
fn lengthen(counts: &mut Counts)
    requires { CanDouble (Some counts.old) }
    ensures { (t : Tree) → IsPerfect t → AreCountsIn (Some counts.old) t
        → AreBesideIn (Some counts.new) (extend t) 0 }
{
    let more = counts.list.len() + 1;
    push_zeros(&mut counts.list, more);
}

// Retains the counts of the left subtree that has `leaves` leaves.
fn shorten(counts: &mut Counts, leaves: u32)
    requires { 0 < leaves }
    ensures { (t : Tree) → leaf_count t ≡ leaves → AreFrontOf (Some counts.old) t
        → AreCountsIn (Some counts.new) t }
{
    counts.list.truncate(leaves as usize - 1);
}

/// Counts a tree.
pub(crate) fn count_anew(alloc: Global, tree: &NodeArray) -> Result<Counts, AllocError>
    ensures { IfOk result (λ c. AreCountsIn (Some c) tree.now.tree) }
{
    let parents = tree.leaf_count() as usize - 1;
    let list = zeros(alloc, parents)?;
    let mut counts = Counts { list };
    set_all(&mut counts, tree);
    Ok(counts)
}

/// Returns a copy of the counts, if there are any.
pub(crate) fn clone_counts(
    alloc: Global,
    counts: &Option<Counts>,
) -> Result<Option<Counts>, AllocError>
    ensures { IfOk result (λ c. (t : Tree) → AreCountsIn counts.now t → AreCountsIn c t) }
{
    let Some(counts) = counts else {
        return Ok(None);
    };
    let mut list = Vec::new(alloc);
    list.extend_from_slice(counts.list.as_slice())?;
    Ok(Some(Counts { list }))
}

/// Returns the counts as a slice, if there are any.
pub(crate) fn counts_in(counts: &Option<Counts>) -> Option<&[Count]>
    ensures { (t : Tree) → AreCountsIn counts.now t → AreCountsIfAny (option_copied result) 0 t }
{
    match counts {
        Some(counts) => Some(counts.list.as_slice()),
        None => None,
    }
}

/// Sets the counts of the parents above a leaf. The other counts must be right.
pub(crate) fn recount(counts: &mut Option<Counts>, tree: &NodeArray, leaf: u32)
    requires { AreBesideIn counts.old tree.now.tree leaf }
    ensures { AreCountsIn counts.new tree.now.tree }
{
    let Some(counts) = counts else {
        return;
    };
    set_above(counts, tree, leaf);
}

/// Reserves capacity for the counts of a tree twice as large.
pub(crate) fn reserve_counts(counts: &mut Option<Counts>) -> Result<(), AllocError>
    ensures capacity { OnOk result (CanDouble counts.new) }
    ensures counts { (t : Tree) → AreCountsIn counts.old t → AreCountsIn counts.new t }
{
    let Some(counts) = counts else {
        return Ok(());
    };
    let more = counts.list.len() + 1;
    counts.list.try_reserve(more)?;
    Ok(())
}

/// Appends zero counts for the new parents of a tree twice as large. All counts are then right, except those of the
/// parents above leaf 0. Does not allocate.
pub(crate) fn double_counts(counts: &mut Option<Counts>)
    requires { CanDouble counts.old }
    ensures { (t : Tree) → IsPerfect t → AreCountsIn counts.old t
        → AreBesideIn counts.new (extend t) 0 }
{
    let Some(counts) = counts else {
        return;
    };
    lengthen(counts);
}

/// Creates the counts of a tree of `leaves` leaves, all of whose nodes are blank. `None` if `counts` is `None`.
pub(crate) fn blank_counts(
    alloc: Global,
    counts: &Option<Counts>,
    leaves: u32,
) -> Result<Option<Counts>, AllocError>
    requires { 0 < leaves }
    ensures { IfOk result (λ c. (h : ℕ) → leaf_count (blank_tree h) ≡ leaves
        → AreCountsIn c (blank_tree h)) }
{
    if counts.is_none() {
        return Ok(None);
    }
    let list = zeros(alloc, leaves as usize - 1)?;
    Ok(Some(Counts { list }))
}

/// Exchanges the counts of `front` with the first counts of `whole`, and returns `whole` and `front`. Both are `None`
/// if one of them is. Does not allocate.
///
/// The counts of `whole` are then right for its tree with the tree of `front` as the leftmost subtree, except those of
/// the parents above leaf 0. The counts of `front` are then right for the leftmost subtree of the tree of `whole`.
pub(crate) fn exchange_front(
    whole: Option<Counts>,
    front: Option<Counts>,
) -> (Option<Counts>, Option<Counts>)
    requires { AreNoMore front whole }
    ensures whole { (t w : Tree) → IsPerfect t → IsPerfect w → height t ≤ height w
        → AreCountsIn front t → AreCountsIn whole w → AreBesideIn result.0 (rejoined t w) 0 }
    ensures front { (t u : Tree) → leaf_count u ≡ leaf_count t → AreCountsIn front t
        → AreFrontOf whole u → AreCountsIn result.1 u }
{
    let Some(mut whole) = whole else {
        return (None, None);
    };
    let Some(mut front) = front else {
        return (None, None);
    };
    swap_prefix(&mut whole.list, &mut front.list);
    (Some(whole), Some(front))
}

/// Retains the counts of the left subtree that has `leaves` leaves.
pub(crate) fn truncate_counts(counts: &mut Option<Counts>, leaves: u32)
    requires { 0 < leaves }
    ensures { (t : Tree) → leaf_count t ≡ leaves → AreFrontOf counts.old t
        → AreCountsIn counts.new t }
{
    let Some(counts) = counts else {
        return;
    };
    shorten(counts, leaves);
}
