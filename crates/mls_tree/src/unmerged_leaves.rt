//! A leaf index added to the lists of unmerged leaves above the leaf (RFC 9420, 12.1.1). First it is checked whether a
//! list is full. Then all new lists are made, which may allocate. Only then are they put in place.
//!
//! Each walk is over a subtree, given by its height `level` and the index of its first leaf `first`. The depth of
//! recursion is at most 20.
ghost use Rattle.std.specs.Prelude.{◌≡◌, ℕ, ◌≤◌, ◌<◌, ◌+◌, ◌*◌, ◌-◌, ◌++◌, Some, false, length, take, drop, insert, remove, All, slice_get, option_copied, OnOk, OnErr, IfOk, IfSome, MatchOption};
ghost use Rattle.std.specs.Bool.{OnTrue, OnFalse};
ghost use Rattle.mls_nodes.specs.Limits.{leaf_limit};
ghost use Rattle.mls_tree.specs.TreeInternal.{leaves_at};
ghost use Rattle.mls_tree.specs.NodeArray.{tree_in, ChangesWithin, parent_part, IsNoLeaf};
ghost use Rattle.mls_tree.specs.TreeOperations.{change_above, insert_before, insert_number, without_number, with_unmerged, is_overfilled, is_overfilled_above};
ghost use Rattle.mls_tree.specs.NewUnmergedLists.{changed_list, new_lists, with_new_list};

use crate::entries::as_parent;
use crate::tree_size::leaves_of;
use mls_nodes::{MAX_UNMERGED, Node, ParentNode, Unmerged};
use std::alloc::{AllocError, Global};
use std::mem;

// Returns whether a non-blank parent has a full list of unmerged leaves without this leaf index.
fn is_overfilled(parent: Option<&ParentNode>, leaf: u32) -> bool
    ensures { result ≡ is_overfilled leaf (option_copied parent.entry) }
{
    let Some(parent) = parent else {
        return false;
    };
    let list = parent.unmerged.as_slice();
    list.len() == MAX_UNMERGED && !list.contains(&leaf)
}

/// Returns whether a non-blank parent above a leaf has a full list of unmerged leaves without this leaf index.
pub(crate) fn is_overfilled_above(nodes: &[Option<Node>], level: u32, first: u32, leaf: u32) -> bool
    requires low { level ≤ 20 }
    requires inside { first + leaves_at level ≤ leaf_limit }
    requires long { 2 * (first + leaves_at level) ≤ length nodes.now + 1 }
    ensures { result ≡ is_overfilled_above first (tree_in nodes.now level first) leaf }
{
    if level == 0 {
        return false;
    }
    let middle = first + leaves_of(level - 1);
    if is_overfilled(as_parent(&nodes[2 * middle as usize - 1]), leaf) {
        return true;
    }
    if leaf < middle {
        is_overfilled_above(nodes, level - 1, first, leaf)
    } else {
        is_overfilled_above(nodes, level - 1, middle, leaf)
    }
}

// Returns the list with `number` added. `None` if the list has it.
fn with_number(alloc: Global, list: &Unmerged, number: u32) -> Result<Option<Unmerged>, AllocError>
    requires { length (insert_number number list.now) ≤ leaf_limit }
    ensures { IfOk result (λ new. new ≡ changed_list number list.now) }
{
    if list.position(number).is_some() {
        return Ok(None);
    }
    let leaves = list.as_slice();
    let (less, others) = leaves.split_at(list.insertion_point(number));
    let mut items = Vec::with_capacity(alloc, leaves.len() + 1)?;
    items.extend_from_slice(less)?;
    items.push(number)?;
    items.extend_from_slice(others)?;
    let Ok(new) = Unmerged::new(items) else {
        unreachable!();
    };
    Ok(Some(new))
}

/// Makes the new lists of the parents above a leaf, lowest parent first. `None` for a blank parent and for a list that
/// is unchanged.
pub(crate) fn push_new_lists(
    out: &mut Vec<Option<Unmerged>>,
    alloc: Global,
    nodes: &[Option<Node>],
    level: u32,
    first: u32,
    leaf: u32,
) -> Result<(), AllocError>
    requires low { level ≤ 20 }
    requires inside { first + leaves_at level ≤ leaf_limit }
    requires long { 2 * (first + leaves_at level) ≤ length nodes.now + 1 }
    requires fits { is_overfilled_above first (tree_in nodes.now level first) leaf ≡ false }
    ensures { OnOk result
        (out.new.items ≡ out.old.items ++ new_lists first (tree_in nodes.now level first) leaf) }
{
    if level == 0 {
        return Ok(());
    }
    let middle = first + leaves_of(level - 1);
    if leaf < middle {
        push_new_lists(out, alloc, nodes, level - 1, first, leaf)?;
    } else {
        push_new_lists(out, alloc, nodes, level - 1, middle, leaf)?;
    }
    match as_parent(&nodes[2 * middle as usize - 1]) {
        Some(parent) => {
            let list = with_number(alloc, &parent.unmerged, leaf)?;
            out.push(list)?;
        }
        None => out.push(None)?,
    }
    Ok(())
}

// Replaces a parent's list of unmerged leaves, if there is a new one.
fn set_list(entry: &mut Option<Node>, list: Option<Unmerged>)
    ensures part { parent_part (Some entry.new)
        ≡ with_new_list (parent_part (Some entry.old)) list }
    ensures no_leaf { IsNoLeaf (Some entry.new) }
{
    *entry = match mem::replace(entry, None) {
        Some(Node::Parent(mut parent)) => {
            if let Some(list) = list {
                parent.unmerged = list;
            }
            Some(Node::Parent(parent))
        }
        Some(Node::Leaf(_leaf)) => None,
        None => None,
    };
}

/// Puts the new lists of the parents above a leaf in place. They are taken from the end of `lists`: topmost parent
/// first.
pub(crate) fn put_lists(
    nodes: &mut [Option<Node>],
    lists: &mut Vec<Option<Unmerged>>,
    level: u32,
    first: u32,
    leaf: u32,
)
    requires low { level ≤ 20 }
    requires inside { first + leaves_at level ≤ leaf_limit }
    requires long { 2 * (first + leaves_at level) ≤ length nodes.old + 1 }
    requires lists { lists.old.items ≡ new_lists first (tree_in nodes.old level first) leaf }
    ensures tree { tree_in nodes.new level first
        ≡ change_above (with_unmerged leaf) first (tree_in nodes.old level first) leaf }
    ensures changes { ChangesWithin nodes.old nodes.new (2 * first)
        (2 * (first + leaves_at level) - 1) }
{
    if level == 0 {
        return;
    }
    let middle = first + leaves_of(level - 1);
    let list = lists.pop().unwrap();
    set_list(&mut nodes[2 * middle as usize - 1], list);
    if leaf < middle {
        put_lists(nodes, lists, level - 1, first, leaf);
    } else {
        put_lists(nodes, lists, level - 1, middle, leaf);
    }
}

/// Adds `number` to the list in place, before the first entry that is not less, unless the list has it. Returns whether
/// the list has changed.
pub(crate) fn insert_index(list: &mut Unmerged, number: u32) -> Result<bool, AllocError>
    requires { length (insert_number number list.old) ≤ leaf_limit }
    ensures in_lists { OnOk result (list.new ≡ insert_number number list.old) }
    ensures back { IfOk result (λ changed.
        OnTrue changed (without_number number list.new ≡ list.old)) }
    ensures same { IfOk result (λ changed. OnFalse changed (list.new ≡ list.old)) }
    ensures unchanged_on_error { OnErr result (list.new ≡ list.old) }
{
    if list.position(number).is_some() {
        return Ok(false);
    }
    let at = list.insertion_point(number);
    list.insert(at, number)?;
    Ok(true)
}

/// Removes the first entry that is `number` from the list. Does not allocate.
pub(crate) fn leave(list: &mut Unmerged, number: u32)
    ensures { list.new ≡ without_number number list.old }
{
    if let Some(at) = list.position(number) {
        list.remove(at);
    }
}
