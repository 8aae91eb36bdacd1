//! The signatures of the leaves that a commit's list adds or replaces (RFC 9420, 7.3 and 12.4.2), appended to a list.
//!
//! A list may name one large Add many times. Then its leaf node is at many leaves, with one signature. So the leaf nodes are
//! borrowed from the proposals, and the signature of such a leaf node is appended once.

ghost use Rattle.std.specs.Prelude.{◌≡◌, ◌<◌, ◌⊎◌, OnOk, length, true};
ghost use Rattle.std.specs.Option.{option_copied};
ghost use Rattle.mls_tree.specs.Tree.{Tree, leaf_at};
ghost use Rattle.mls_signatures.specs.AddedLeaves.{AreNamedAlike, AreOfValues, AppendsSignatures, HaveOneName, IsByValue, IsListed, IsMapOf, IsRepeat, added_signatures};
ghost use Rattle.mls_signatures.specs.SignaturesToVerify.{non_blank_leaf_signatures, signatures_at};

use crate::added_leaves::AddedLeaf;
use crate::push_signatures::push_leaf_signature;
use crate::signature_list::SignatureList;
use mls_apply::is_from_key_package;
use mls_check::OutOfMemory;
use mls_nodes::{EncodedLeaf, GroupContext};
use mls_tree::PublicTree;
use std::alloc::Global;
use std::collections::{BTreeMap, BTreeSet};

/// The tree after a list: a tree that lacks the leaf nodes of its Adds, and these by their leaf indices.
#[derive(Clone, Copy)]
pub(crate) struct TreeAfter<'m, 'a> {
    pub(crate) tree: &'a PublicTree,
    pub(crate) added: &'m BTreeMap<u32, &'a EncodedLeaf>,
}

/// Returns the leaf of the tree after a list, if it is non-blank.
fn leaf_after<'a>(after: &TreeAfter<'_, 'a>, index: u32) -> Option<&'a EncodedLeaf>
    ensures { (t : Tree) → IsMapOf t after.now.tree.now.tree after.now.added.now
        → option_copied result ≡ leaf_at 0 t index }
{
    match after.added.get(&index) {
        Some(leaf) => Some(*leaf),
        None => after.tree.leaf(index),
    }
}

/// Appends the signature of a leaf of the tree after a list, if the leaf is non-blank.
fn push_signature_after(
    alloc: Global,
    context: &GroupContext,
    after: &TreeAfter<'_, '_>,
    index: u32,
    list: &mut SignatureList,
) -> Result<(), OutOfMemory>
    ensures { let suite = context.now.cipher_suite in
        (t : Tree) → IsMapOf t after.now.tree.now.tree after.now.added.now
        → OnOk result (AppendsSignatures list.old (non_blank_leaf_signatures suite context.now.group_id index (leaf_at 0 t index)) list.new) }
{
    match leaf_after(after, index) {
        Some(leaf) => push_leaf_signature(alloc, context, index, leaf, list),
        None => Ok(()),
    }
}

/// Appends the signatures of the leaves of the tree after a list at these leaf indices, in their order. That of a leaf index
/// that comes again is not appended again.
pub(crate) fn push_replaced_leaf_signatures(
    alloc: Global,
    context: &GroupContext,
    after: &TreeAfter<'_, '_>,
    replaced: &[u32],
    list: &mut SignatureList,
) -> Result<(), OutOfMemory>
    ensures { let suite = context.now.cipher_suite in
        (t : Tree) → IsMapOf t after.now.tree.now.tree after.now.added.now
        → OnOk result (AppendsSignatures list.old (signatures_at suite context.now.group_id t replaced.now) list.new) }
{
    let mut seen: BTreeSet<u32> = BTreeSet::new(alloc);
    for index in replaced {
        let is_new = seen.insert(*index)?;
        if is_new {
            push_signature_after(alloc, context, after, *index, list)?;
        }
    }
    Ok(())
}

/// Notes the position of a leaf whose Add the list names by a reference. Returns the position that was noted before for that
/// reference, if there is one.
fn note_reference<'a>(
    named: &mut BTreeMap<&'a [u8], usize>,
    leaf: &AddedLeaf<'a>,
    position: usize,
) -> Result<Option<usize>, OutOfMemory> {
    let Some(reference) = leaf.reference else {
        return Ok(None);
    };
    match named.insert(reference, position) {
        Ok(earlier) => Ok(earlier),
        Err(_) => Err(OutOfMemory),
    }
}

/// Returns whether two leaves have one reference.
fn have_one_reference(a: &AddedLeaf<'_>, b: &AddedLeaf<'_>) -> bool
    ensures { result ≡ true → HaveOneName a.now b.now }
{
    let (Some(first), Some(second)) = (a.reference, b.reference) else {
        return false;
    };
    first == second
}

/// Returns whether an earlier one of the leaves has the reference of the leaf at `position`, and the signature of the leaf
/// node depends on no leaf index. `earlier` may be the position of such a leaf.
fn is_repeat(leaves: &[AddedLeaf<'_>], position: usize, earlier: Option<usize>) -> bool
    requires { position < length leaves.now }
    ensures { result ≡ true → IsRepeat leaves.now position }
{
    let Some(earlier) = earlier else {
        return false;
    };
    if earlier >= position {
        return false;
    }
    let first = &leaves[earlier];
    let again = &leaves[position];
    have_one_reference(first, again) && is_from_key_package(&again.leaf.source())
}

/// Returns whether the leaf at `position` is of an Add by value, and the signature of the leaf node depends on no leaf index.
fn is_by_value(leaves: &[AddedLeaf<'_>], position: usize) -> bool
    requires { position < length leaves.now }
    ensures { result ≡ true → IsByValue leaves.now position }
{
    let leaf = &leaves[position];
    match leaf.reference {
        Some(_) => false,
        None => is_from_key_package(&leaf.leaf.source()),
    }
}

/// Returns whether the signature of the leaf at `position` was appended before: with its proposal by value, or as that of an
/// earlier one of the leaves. `earlier` may be the position of a leaf with the same reference.
fn is_listed(leaves: &[AddedLeaf<'_>], position: usize, earlier: Option<usize>) -> bool
    requires { position < length leaves.now }
    ensures { result ≡ true → IsByValue leaves.now position ⊎ IsRepeat leaves.now position }
{
    is_by_value(leaves, position) || is_repeat(leaves, position, earlier)
}

/// Appends the signatures of added leaves, in their order, to a list that has those of the proposals by value. That of an Add
/// from a KeyPackage by value is not appended again, nor that of one which the list names again.
pub(crate) fn push_added_leaf_signatures(
    alloc: Global,
    context: &GroupContext,
    leaves: &[AddedLeaf<'_>],
    list: &mut SignatureList,
) -> Result<(), OutOfMemory>
    requires { AreNamedAlike leaves.now }
    ensures { let suite = context.now.cipher_suite in
        AreOfValues (IsListed context.now list.old) leaves.now
        → OnOk result (AppendsSignatures list.old (added_signatures suite context.now.group_id leaves.now) list.new) }
{
    let mut named: BTreeMap<&[u8], usize> = BTreeMap::new(alloc);
    let mut position = 0;
    for leaf in leaves {
        let earlier = note_reference(&mut named, leaf, position)?;
        if !is_listed(leaves, position, earlier) {
            push_leaf_signature(alloc, context, leaf.index, leaf.leaf, list)?;
        }
        position += 1;
    }
    Ok(())
}
