//! The checks of a GroupContext and its ratchet tree from which a follower starts or resumes (RFC 9420, 12.4.3.1).

ghost use Rattle.std.specs.Prelude.{◌≡◌, ◌≢◌, ◌↔◌, Err, IfOk, IfErr, OnOk};
ghost use Rattle.mls_tree.specs.PublicTreeModel.{plain};
ghost use Rattle.mls_check.specs.GroupTree.{IsSupportedContext, HasMembers, FailsSuite, IsGroupTreeFault};

use mls_check::{GroupTreeFault, SignatureCheck, validate_group_tree};
use mls_hash::{HashFault, Suite, fill_hashes};
use mls_nodes::{GroupContext, RequiredCapabilities};
use mls_tree::PublicTree;
use std::alloc::{AllocError, Global};

/// What of a GroupContext is not supported.
#[derive(Clone, Copy)]
pub(crate) enum UnsupportedContext {
    /// The version is not 1 (RFC 9420, 6).
    Version,
    /// The cipher suite is not one from 1 to 7 (RFC 9420, 17.1).
    Suite,
}

/// Returns the cipher suite of a GroupContext whose version and suite are supported.
pub(crate) fn suite_of(context: &GroupContext) -> Result<Suite, UnsupportedContext>
    ensures supported { OnOk result (IsSupportedContext context.now) }
    ensures suite { IfOk result (λ suite. suite ≡ context.now.cipher_suite) }
    ensures version { (result ≡ Err UnsupportedContext.Version) ↔ (context.now.version ≢ 1) }
    ensures unsupported { (result ≡ Err UnsupportedContext.Suite) ↔ FailsSuite context.now }
{
    if context.version != 1 {
        return Err(UnsupportedContext::Version);
    }
    match Suite::from_u16(context.cipher_suite) {
        Ok(suite) => Ok(suite),
        Err(_) => Err(UnsupportedContext::Suite),
    }
}

/// Fills the hash cache of a tree, so that each subtree is hashed once.
fn fill(alloc: Global, suite: Suite, tree: &mut PublicTree) -> Result<(), AllocError>
    ensures tree { tree.new.tree ≡ tree.old.tree }
    ensures plain { plain tree.new ≡ plain tree.old }
{
    match fill_hashes(alloc, suite, tree) {
        Ok(_) => Ok(()),
        Err(HashFault::OutOfMemory) => Err(AllocError),
        Err(_) => unreachable!(),
    }
}

/// Returns what the group of a supported GroupContext requires, if the tree is valid for the context and its leaf nodes
/// are valid. Fills the hash cache of the tree first.
pub(crate) fn group_requirements<C: SignatureCheck>(
    alloc: Global,
    suite: Suite,
    context: &GroupContext,
    tree: &mut PublicTree,
    checker: &C,
) -> Result<RequiredCapabilities, GroupTreeFault>
    requires supported { IsSupportedContext context.now }
    requires suite_of_context { suite ≡ context.now.cipher_suite }
    ensures tree { plain tree.new ≡ plain tree.old }
    ensures members { IfOk result (HasMembers (C.meaning checker.now) context.now
        (λ t. t ≡ plain tree.new) (plain tree.new)) }
    ensures refused { IfErr result (IsGroupTreeFault (C.meaning checker.now) context.now
        (λ t. t ≡ plain tree.new)) }
{
    if fill(alloc, suite, tree).is_err() {
        return Err(GroupTreeFault::OutOfMemory);
    }
    validate_group_tree(alloc, suite, context, tree, checker)
}
