//! The parents above several leaves, with the indices of these leaves in their lists of unmerged leaves (RFC 9420,
//! 12.1.1). All of them are made before one is put in place, and each list is copied once.
//!
//! The walk is over a subtree, given by its height `level` and the index of its first leaf `first`. The depth of
//! recursion is at most 20.
ghost use Rattle.std.specs.Prelude.{◌≡◌, ◌≤◌, ◌+◌, ◌*◌, ◌++◌, ◌⊎◌, Some, Err, true, false, length, map, OnOk, IfOk, IfErr};
ghost use Rattle.std.specs.List.Sorted.{IsStrictlyIncreasing};
ghost use Rattle.mls_nodes.specs.Limits.{leaf_limit};
ghost use Rattle.mls_tree.specs.TreeInternal.{leaves_at};
ghost use Rattle.mls_tree.specs.NodeArray.{tree_in};
ghost use Rattle.mls_tree.specs.MergedLists.{insert_numbers, overfills_parent, overfills_below, new_parents, replacement};

use crate::entries::as_parent;
use crate::error::TreeError;
use crate::leaf_split::split_leaves;
use crate::tree_size::leaves_of;
use mls_nodes::{MAX_UNMERGED, Node, ParentNode, Unmerged};
use mls_wire::{CodecFault, TryClone};
use std::alloc::{AllocError, Global};

/// A parent that replaces the one at a node index.
#[derive(Drop)]
pub(crate) struct NewParent {
    pub(crate) node_index: u32,
    pub(crate) parent: Box<ParentNode>,
}

// Returns the list with these leaf indices, each added before the first entry that is not less, unless the list has it.
// The time is proportional to the length of the list, if it is sorted, and to k log n for k indices and a list of n.
fn merged_list(alloc: Global, list: &Unmerged, indices: &[u32]) -> Result<Vec<u32>, AllocError>
    requires { IsStrictlyIncreasing indices.now }
    ensures merged { IfOk result (λ v. v.items ≡ insert_numbers indices.now list.now) }
    ensures limit { length list.now ≤ leaf_limit }
{
    let mut rest = list.as_slice();
    let mut merged = Vec::with_capacity(alloc, rest.len() + indices.len())?;
    for index in indices {
        if list.position(*index).is_none() {
            let (less, others) = split_leaves(rest, *index);
            merged.extend_from_slice(less)?;
            merged.push(*index)?;
            rest = others;
        }
    }
    merged.extend_from_slice(rest)?;
    Ok(merged)
}

// Returns a parent with the keys of `parent` and this list.
fn with_list(
    alloc: Global,
    parent: &ParentNode,
    unmerged: Unmerged,
) -> Result<ParentNode, CodecFault>
    ensures { IfOk result (λ new. new ≡ record parent.now { unmerged = unmerged }) }
{
    Ok(ParentNode {
        encryption_key: parent.encryption_key.try_clone(alloc)?,
        parent_hash: parent.parent_hash.try_clone(alloc)?,
        unmerged,
    })
}

// Returns the parent with these leaf indices in its list. `TooManyLeaves` if the list would be too long.
fn merged_parent(
    alloc: Global,
    parent: &ParentNode,
    indices: &[u32],
) -> Result<Box<ParentNode>, TreeError>
    requires { IsStrictlyIncreasing indices.now }
    ensures merged { IfOk result (λ new. new.value
        ≡ record parent.now { unmerged = insert_numbers indices.now parent.now.unmerged }) }
    ensures fits { OnOk result (overfills_parent indices.now (Some parent.now) ≡ false) }
    ensures too_many_leaves { result ≡ Err TreeError.TooManyLeaves
        → overfills_parent indices.now (Some parent.now) ≡ true }
    ensures possible_errors { IfErr result
        (λ e. (e ≡ TreeError.TooManyLeaves) ⊎ (e ≡ TreeError.OutOfMemory)) }
{
    let merged = merged_list(alloc, &parent.unmerged, indices)?;
    if merged.len() > MAX_UNMERGED {
        return Err(TreeError::TooManyLeaves);
    }
    let Ok(unmerged) = Unmerged::new(merged) else {
        unreachable!();
    };
    let Ok(new) = with_list(alloc, parent, unmerged) else {
        return Err(TreeError::OutOfMemory);
    };
    Ok(Box::new(alloc, new)?)
}

/// Makes the parents that replace the non-blank ones above the leaves `indices`, the topmost last.
///
/// # Errors
///
/// `TooManyLeaves` if a list would have more than 1,048,576 entries.
pub(crate) fn push_new_parents(
    out: &mut Vec<NewParent>,
    alloc: Global,
    nodes: &[Option<Node>],
    level: u32,
    first: u32,
    indices: &[u32],
) -> Result<(), TreeError>
    requires low { level ≤ 20 }
    requires inside { first + leaves_at level ≤ leaf_limit }
    requires long { 2 * (first + leaves_at level) ≤ length nodes.now + 1 }
    requires increasing { IsStrictlyIncreasing indices.now }
    ensures parents { OnOk result (map replacement out.new.items
        ≡ map replacement out.old.items ++ new_parents first (tree_in nodes.now level first) indices.now) }
    ensures fits { OnOk result
        (overfills_below first (tree_in nodes.now level first) indices.now ≡ false) }
    ensures too_many_leaves { result ≡ Err TreeError.TooManyLeaves
        → overfills_below first (tree_in nodes.now level first) indices.now ≡ true }
    ensures possible_errors { IfErr result
        (λ e. (e ≡ TreeError.TooManyLeaves) ⊎ (e ≡ TreeError.OutOfMemory)) }
{
    if level == 0 || indices.is_empty() {
        return Ok(());
    }
    let middle = first + leaves_of(level - 1);
    let (left, right) = split_leaves(indices, middle);
    push_new_parents(out, alloc, nodes, level - 1, first, left)?;
    push_new_parents(out, alloc, nodes, level - 1, middle, right)?;
    if let Some(parent) = as_parent(&nodes[2 * middle as usize - 1]) {
        let parent = merged_parent(alloc, parent, indices)?;
        out.push(NewParent {
            node_index: 2 * middle - 1,
            parent,
        })?;
    }
    Ok(())
}
