//! Validation of a ratchet tree, as a joiner does it (RFC 9420, 12.4.3.1), without the members' credentials and
//! signatures.

ghost use Rattle.std.specs.Prelude.{◌≡◌, ◌↔◌, ℕ, List, IsTrue, IfErr, OnOk, Some};
ghost use Rattle.mls_tree.specs.TreeHash.{tree_hash};
ghost use Rattle.mls_hash.specs.SuiteHash.{hash_of};
ghost use Rattle.mls_hash.specs.SubtreeHashes.{AreSubtreeHashes};
ghost use Rattle.mls_check.specs.ValidTree.{Valid, IsFirstTreeFault};

use crate::distinct_keys::first_repeated;
use crate::parent_hash_validity::first_parent_hash_invalid;
use crate::unmerged_consistency::first_inconsistent_unmerged;
use crate::unmerged_order::first_unsorted;
use mls_hash::{SubtreeHashes, Suite};
use mls_nodes::GroupContext;
use mls_tree::PublicTree;
use std::alloc::{AllocError, Global};
use thiserror::Error;

/// Why a tree is not valid for its group: the first check that fails, with the smallest node index at which it does.
/// (`TreeError` of `mls_tree` says why a call on a tree fails, for any group.)
#[derive(Clone, Copy, Debug, PartialEq, Eq, Error)]
pub enum TreeFault {
    /// The tree hash is not that of the context (RFC 9420, 7.8).
    #[error("the tree hash is not the context's")]
    HashDiffers,
    /// The unmerged list of the parent at the node index is not strictly increasing (RFC 9420, 7.1).
    #[error("the unmerged leaves of the parent at node index {0} are not strictly increasing")]
    UnmergedUnsorted(u32),
    /// An unmerged leaf of the parent at the node index is no non-blank leaf below it, or a non-blank parent between
    /// the two does not list it (RFC 9420, 7.1 and 12.4.3.1).
    #[error("an unmerged leaf of the parent at node index {0} is no non-blank leaf below it, or a parent between does not list it")]
    UnmergedUnsound(u32),
    /// Another node has the encryption key of the node at the node index (RFC 9420, 12.4.3.1).
    #[error("another node has the encryption key of the node at node index {0}")]
    KeyRepeated(u32),
    /// The parent at the node index is not parent-hash valid (RFC 9420, 7.9.2).
    #[error("the parent at node index {0} is not parent-hash valid")]
    ParentHashInvalid(u32),
    /// An allocation failed.
    #[error("out of memory")]
    OutOfMemory,
}

impl From<AllocError> for TreeFault {
    ghost use Rattle.std.specs.Prelude.{◌≡◌};
    ghost use Rattle.mls_check.specs.declared.tree_validation.TreeFault.TheVariants.{OutOfMemory};

    ghost from_gives = { λ _ e. e ≡ OutOfMemory };

    fn from(_error: AllocError) -> TreeFault {
        TreeFault::OutOfMemory
    }
}

/// Returns whether the tree, whose subtrees have these hashes, has this tree hash.
fn has_hash(tree: &PublicTree, hashes: &SubtreeHashes<'_>, hash: &[u8]) -> bool
    ensures { (H : List ℕ → List ℕ) → AreSubtreeHashes H tree.now.tree hashes.now
        → (IsTrue result ↔ (tree_hash H 0 tree.now.tree ≡ Some hash.now)) }
{
    let root = tree.leaf_count() - 1;
    match hashes.get(root) {
        Some(own) => own.as_slice() == hash,
        None => false,
    }
}

/// Checks that the tree is valid for the context: its tree hash is the context's, every unmerged list is strictly
/// increasing and consistent, encryption keys are distinct, and every non-blank parent is parent-hash valid (RFC 9420,
/// 12.4.3.1). The suite must be that of the context.
///
/// # Errors
///
/// The first check that fails, with the smallest node index at which it does, or `OutOfMemory`. Each check is made of
/// the whole tree before the next one.
pub fn validate_tree(
    alloc: Global,
    suite: Suite,
    context: &GroupContext,
    tree: &PublicTree,
) -> Result<(), TreeFault>
    requires suite_of_context { suite ≡ context.now.cipher_suite }
    ensures valid { OnOk result (Valid (hash_of suite) context.now.tree_hash tree.now.tree) }
    ensures first_fault { IfErr result
        (λ e. IsFirstTreeFault (hash_of suite) context.now.tree_hash tree.now.tree e) }
{
    let hashes = SubtreeHashes::new(alloc, suite, tree)?;
    validate_tree_by(alloc, suite, context, tree, &hashes)
}

/// [`validate_tree`], from the tree hashes of the subtrees.
fn validate_tree_by(
    alloc: Global,
    suite: Suite,
    context: &GroupContext,
    tree: &PublicTree,
    hashes: &SubtreeHashes<'_>,
) -> Result<(), TreeFault>
    requires suite_of_context { suite ≡ context.now.cipher_suite }
    requires hashes { AreSubtreeHashes (hash_of suite) tree.now.tree hashes.now }
    ensures valid { OnOk result (Valid (hash_of suite) context.now.tree_hash tree.now.tree) }
    ensures first_fault { IfErr result
        (λ e. IsFirstTreeFault (hash_of suite) context.now.tree_hash tree.now.tree e) }
{
    if !has_hash(tree, hashes, context.tree_hash.as_slice()) {
        return Err(TreeFault::HashDiffers);
    }
    if let Some(node_index) = first_unsorted(tree) {
        return Err(TreeFault::UnmergedUnsorted(node_index));
    }
    if let Some(node_index) = first_inconsistent_unmerged(tree) {
        return Err(TreeFault::UnmergedUnsound(node_index));
    }
    if let Some(node_index) = first_repeated(alloc, tree)? {
        return Err(TreeFault::KeyRepeated(node_index));
    }
    if let Some(node_index) = first_parent_hash_invalid(alloc, suite, tree, hashes)? {
        return Err(TreeFault::ParentHashInvalid(node_index));
    }
    Ok(())
}
