//! Whether the encryption keys of a tree are distinct.

ghost use Rattle.std.specs.Prelude.{◌≡◌, IfOk};
ghost use Rattle.std.specs.Bool.{OnTrue};
ghost use Rattle.std.specs.Option.{option_copied};
ghost use Rattle.mls_check.specs.FirstFailureInternal.{IsFirstFailureIn};
ghost use Rattle.mls_check.specs.DistinctKeys.{encryption_key_at, HasUniqueKeyAt, IsDistinct, has_distinct_keys};

use crate::key_prefixes::all_differ;
use crate::node_count::node_index_count;
use crate::signatures::OutOfMemory;
use mls_nodes::{Node, key_prefix};
use mls_tree::PublicTree;
use std::alloc::{AllocError, Global};
use std::collections::BTreeSet;

/// Returns the encryption key of the non-blank node at a node index.
fn encryption_key_at(tree: &PublicTree, node_index: u32) -> Option<&[u8]>
    ensures { option_copied result ≡ encryption_key_at tree.now.tree node_index }
{
    match tree.node(node_index) {
        Some(Node::Leaf(leaf)) => Some(leaf.encryption_key()),
        Some(Node::Parent(parent)) => Some(parent.encryption_key.as_slice()),
        None => None,
    }
}

/// Returns whether the 8-byte prefixes of the encryption keys are distinct. Then so are the keys.
fn has_distinct_prefixes(alloc: Global, tree: &PublicTree) -> Result<bool, AllocError>
    ensures { IfOk result (λ distinct. OnTrue distinct (IsDistinct tree.now.tree)) }
{
    let node_indices = node_index_count(tree);
    let mut prefixes = Vec::with_capacity(alloc, node_indices as usize)?;
    for node_index in 0..node_indices {
        if let Some(key) = encryption_key_at(tree, node_index) {
            prefixes.push(key_prefix(key))?;
        }
    }
    Ok(all_differ(prefixes))
}

/// Returns the first node index whose encryption key another node has. It is the last one found in a walk from the last
/// node down, whose key a later node has.
fn first_repeated_by_set(alloc: Global, tree: &PublicTree) -> Result<Option<u32>, AllocError>
    ensures { IfOk result (λ o. IsFirstFailureIn (HasUniqueKeyAt tree.now.tree) o) }
{
    let mut later = BTreeSet::new(alloc);
    let mut first = None;
    let mut node_index = node_index_count(tree);
    while node_index > 0 {
        node_index -= 1;
        let Some(key) = encryption_key_at(tree, node_index) else {
            continue;
        };
        if !later.insert(key)? {
            first = Some(node_index);
        }
    }
    Ok(first)
}

/// Returns the first node index whose encryption key another node has. Nearly always there is none, and the prefixes of
/// the keys show it.
pub(crate) fn first_repeated(alloc: Global, tree: &PublicTree) -> Result<Option<u32>, AllocError>
    ensures { IfOk result (λ o. IsFirstFailureIn (HasUniqueKeyAt tree.now.tree) o) }
{
    if has_distinct_prefixes(alloc, tree)? {
        return Ok(None);
    }
    first_repeated_by_set(alloc, tree)
}

/// Returns whether the encryption keys of all non-blank nodes, leaves and parents, are distinct (RFC 9420, 7.3 and
/// 12.4.3.1).
pub fn has_distinct_keys(alloc: Global, tree: &PublicTree) -> Result<bool, OutOfMemory>
    ensures { IfOk result (λ distinct. distinct ≡ has_distinct_keys tree.now.tree) }
{
    Ok(first_repeated(alloc, tree)?.is_none())
}
