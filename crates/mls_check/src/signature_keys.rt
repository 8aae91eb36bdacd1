//! The members' signature keys (RFC 9420, 7.3).

ghost use Rattle.std.specs.Prelude.{◌≡◌, true, IfOk};
ghost use Rattle.std.specs.Bool.{OnTrue};
ghost use Rattle.mls_check.specs.LeafValidation.{FindsFailing, all_leaves, has_unique_signature_key};

use crate::key_prefixes::all_differ;
use crate::signatures::OutOfMemory;
use mls_nodes::key_prefix;
use mls_tree::PublicTree;
use std::alloc::Global;
use std::collections::BTreeSet;

/// Returns whether the 8-byte prefixes of the leaves' signature keys are distinct. Then so are the keys.
fn has_distinct_prefixes(alloc: Global, tree: &PublicTree) -> Result<bool, OutOfMemory>
    ensures { IfOk result (λ distinct. OnTrue distinct
        (all_leaves (has_unique_signature_key tree.now.tree) 0 tree.now.tree ≡ true)) }
{
    let leaves = tree.leaf_count();
    let mut prefixes = Vec::with_capacity(alloc, leaves as usize)?;
    for index in 0..leaves {
        if let Some(leaf) = tree.leaf(index) {
            prefixes.push(key_prefix(leaf.signature_key()))?;
        }
    }
    Ok(all_differ(prefixes))
}

/// Returns the smallest leaf index of a leaf whose signature key another leaf has. It is the last one found in a walk
/// from the last leaf down, whose key a later leaf has.
fn first_repeated_by_set(alloc: Global, tree: &PublicTree) -> Result<Option<u32>, OutOfMemory>
    ensures { IfOk result (FindsFailing (has_unique_signature_key tree.now.tree) tree.now.tree) }
{
    let mut later: BTreeSet<&[u8]> = BTreeSet::new(alloc);
    let mut repeated = None;
    for index in (0..tree.leaf_count()).rev() {
        if let Some(leaf) = tree.leaf(index) {
            if !later.insert(leaf.signature_key())? {
                repeated = Some(index);
            }
        }
    }
    Ok(repeated)
}

/// Returns the smallest leaf index of a leaf whose signature key another leaf has (RFC 9420, 7.3). Nearly always there
/// is none, and the prefixes of the keys show it.
pub fn first_repeated_signature_key(
    alloc: Global,
    tree: &PublicTree,
) -> Result<Option<u32>, OutOfMemory>
    ensures { IfOk result (FindsFailing (has_unique_signature_key tree.now.tree) tree.now.tree) }
{
    if has_distinct_prefixes(alloc, tree)? {
        return Ok(None);
    }
    first_repeated_by_set(alloc, tree)
}
