//! Leaf nodes that are plain, as most are: two rules hold of them (RFC 9420, 7.3).

ghost use Rattle.std.specs.Prelude.{◌≡◌, IfOk, true};
ghost use Rattle.mls_check.specs.LeafValidation.{FindsFailing, supports_own_extensions, supports_used_credentials};
ghost use Rattle.mls_check.specs.PlainLeaves.{ArePlain};

use crate::capability_support::supports_own_extensions;
use crate::credential_types::first_unsupported_credential;
use crate::signatures::OutOfMemory;
use mls_tree::PublicTree;
use std::alloc::Global;

/// Returns whether all leaves of a tree are plain. None is read again.
pub(crate) fn are_plain(tree: &PublicTree) -> bool
    ensures { result ≡ true → ArePlain tree.now.tree }
{
    for index in 0..tree.leaf_count() {
        if let Some(leaf) = tree.leaf(index) {
            if !leaf.is_plain() {
                return false;
            }
        }
    }
    true
}

/// Returns the smallest leaf index of a leaf with an extension that its capabilities do not list. None is searched for if
/// the leaves are known to be plain.
pub(crate) fn first_unlisted_extension(
    alloc: Global,
    tree: &PublicTree,
    are_plain: bool,
) -> Result<Option<u32>, OutOfMemory>
    requires { are_plain ≡ true → ArePlain tree.now.tree }
    ensures { IfOk result (FindsFailing (λ _ x. supports_own_extensions x) tree.now.tree) }
{
    if are_plain {
        return Ok(None);
    }
    for index in 0..tree.leaf_count() {
        if let Some(leaf) = tree.leaf(index) {
            if !supports_own_extensions(alloc, leaf)? {
                return Ok(Some(index));
            }
        }
    }
    Ok(None)
}

/// Returns the smallest leaf index of a leaf that does not support the credential type of some leaf. None is searched for if
/// the leaves are known to be plain.
pub(crate) fn first_unsupported(tree: &PublicTree, are_plain: bool) -> Option<u32>
    requires { are_plain ≡ true → ArePlain tree.now.tree }
    ensures { FindsFailing (λ _ x. supports_used_credentials tree.now.tree x) tree.now.tree result }
{
    if are_plain {
        return None;
    }
    first_unsupported_credential(tree)
}
