//! The signatures of those leaves that a commit's list adds whose leaf node is not from a KeyPackage (RFC 9420, 7.2 and 10.1).
//! The others have the signature of a proposal of the list.

ghost use Rattle.std.specs.Prelude.{◌≡◌, ◌==◌, ◌++◌, ℕ, All, IfOk, OnOk, filter};
ghost use Rattle.std.specs.BTreeSet.{contains};
ghost use Rattle.std.specs.List.{list_any};
ghost use Rattle.std.specs.Ordering.{nat_cmp};
ghost use Rattle.mls_signatures.specs.AddedLeaves.{AppendsSignatures, IsPackageIfNamed, added_signatures, indices, is_other, other_leaves};

use crate::added_leaves::AddedLeaf;
use crate::push_signatures::push_leaf_signature;
use crate::signature_list::SignatureList;
use mls_apply::is_from_key_package;
use mls_check::OutOfMemory;
use mls_nodes::GroupContext;
use std::alloc::Global;
use std::collections::BTreeSet;

/// Returns whether a leaf node is not from a KeyPackage. That of a pending Add is, and is not read.
fn is_other(leaf: &AddedLeaf<'_>) -> bool
    requires { IsPackageIfNamed leaf.now }
    ensures { result ≡ is_other leaf.now }
{
    match leaf.reference {
        Some(_) => false,
        None => !is_from_key_package(&leaf.leaf.source()),
    }
}

/// Returns the leaf indices of those leaves whose leaf node is not from a KeyPackage.
pub(crate) fn other_indices(
    alloc: Global,
    leaves: &[AddedLeaf<'_>],
) -> Result<BTreeSet<u32>, OutOfMemory>
    requires { All IsPackageIfNamed leaves.now }
    ensures { IfOk result (λ others. (j : ℕ)
        → contains nat_cmp others j ≡ list_any (λ k. k == j) (indices (other_leaves leaves.now))) }
{
    let mut others = BTreeSet::new(alloc);
    for leaf in leaves {
        if is_other(leaf) {
            others.insert(leaf.index)?;
        }
    }
    Ok(others)
}

/// Appends those of some leaf indices that a set has.
pub(crate) fn push_contained(
    others: &BTreeSet<u32>,
    places: &[u32],
    kept: &mut Vec<u32>,
) -> Result<(), OutOfMemory>
    ensures { OnOk result (kept.new.items ≡ kept.old.items ++ filter (contains nat_cmp others.now) places.now) }
{
    for index in places {
        if others.contains(index) {
            kept.push(*index)?;
        }
    }
    Ok(())
}

/// Appends the signatures of those leaves whose leaf node is not from a KeyPackage, in their order.
pub(crate) fn push_other_leaf_signatures(
    alloc: Global,
    context: &GroupContext,
    leaves: &[AddedLeaf<'_>],
    list: &mut SignatureList,
) -> Result<(), OutOfMemory>
    requires { All IsPackageIfNamed leaves.now }
    ensures { let suite = context.now.cipher_suite in
        OnOk result (AppendsSignatures list.old
        (added_signatures suite context.now.group_id (other_leaves leaves.now)) list.new) }
{
    for leaf in leaves {
        if is_other(leaf) {
            push_leaf_signature(alloc, context, leaf.index, leaf.leaf, list)?;
        }
    }
    Ok(())
}
