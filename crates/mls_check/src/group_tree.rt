//! Validation of a GroupContext with its ratchet tree (RFC 9420, 12.4.3.1).

ghost use Rattle.std.specs.Prelude.{◌≡◌, IfOk, IfErr, OnOk};
ghost use Rattle.mls_nodes.specs.Requirements.{Requires};
ghost use Rattle.mls_tree.specs.PublicTreeModel.{plain};
ghost use Rattle.mls_check.specs.GroupTree.{IsSupportedContext, HasMembers, IsGroupTreeFault};

use crate::members::{MemberFault, validate_members};
use crate::signatures::SignatureCheck;
use crate::tree_validation::{TreeFault, validate_tree};
use mls_hash::Suite;
use mls_nodes::{GroupContext, RequiredCapabilities, requirements};
use mls_tree::PublicTree;
use mls_wire::CodecFault;
use std::alloc::Global;
use thiserror::Error;

/// Why a tree is not valid for a GroupContext: the first check that fails, in this order.
#[derive(Clone, Copy, Debug, PartialEq, Eq, Error)]
pub enum GroupTreeFault {
    /// The required capabilities of the group cannot be read (RFC 9420, 11.1).
    #[error("the required capabilities can't be read")]
    RequirementsUnreadable,
    /// The tree is not valid, for this fault (RFC 9420, 7.9.2 and 12.4.3.1).
    #[error("{0}")]
    Tree(TreeFault),
    /// A leaf node is not valid, for this fault (RFC 9420, 7.3).
    #[error("{0}")]
    Member(MemberFault),
    /// An allocation failed. It says nothing of the tree.
    #[error("out of memory")]
    OutOfMemory,
}

impl From<TreeFault> for GroupTreeFault {
    ghost use Rattle.std.specs.Prelude.{◌≡◌};
    ghost use Rattle.mls_check.specs.GroupTreeInternal.{tree_fault_of};

    ghost from_gives = { λ fault e. e ≡ tree_fault_of fault };

    fn from(fault: TreeFault) -> GroupTreeFault {
        match fault {
            TreeFault::OutOfMemory => GroupTreeFault::OutOfMemory,
            _ => GroupTreeFault::Tree(fault),
        }
    }
}

impl From<MemberFault> for GroupTreeFault {
    ghost use Rattle.std.specs.Prelude.{◌≡◌};
    ghost use Rattle.mls_check.specs.GroupTreeInternal.{member_fault_of};

    ghost from_gives = { λ fault e. e ≡ member_fault_of fault };

    fn from(fault: MemberFault) -> GroupTreeFault {
        match fault {
            MemberFault::OutOfMemory => GroupTreeFault::OutOfMemory,
            _ => GroupTreeFault::Member(fault),
        }
    }
}

/// Checks the tree and its leaf nodes, under required capabilities that were read.
fn validate_tree_and_leaves<C: SignatureCheck>(
    alloc: Global,
    suite: Suite,
    context: &GroupContext,
    required: &RequiredCapabilities,
    tree: &PublicTree,
    checker: &C,
) -> Result<(), GroupTreeFault>
    requires supported { IsSupportedContext context.now }
    requires suite_of_context { suite ≡ context.now.cipher_suite }
    requires required { Requires context.now required.now }
    ensures members { OnOk result (HasMembers (C.meaning checker.now) context.now
        (λ t. t ≡ plain tree.now) (plain tree.now) required.now) }
    ensures refused { IfErr result (IsGroupTreeFault (C.meaning checker.now) context.now
        (λ t. t ≡ plain tree.now)) }
{
    validate_tree(alloc, suite, context, tree)?;
    let suite = context.cipher_suite;
    validate_members(alloc, suite, &context.group_id, required, tree, checker)?;
    Ok(())
}

/// Checks that a tree is valid for a GroupContext, and that its leaf nodes are valid. Returns what the group requires.
/// The context's version must be 1, and its suite `suite`.
///
/// # Errors
///
/// The first check that fails, or `OutOfMemory`:
///
/// 1. The required capabilities can be read.
/// 2. The tree is valid ([`validate_tree`]).
/// 3. Its leaf nodes are valid ([`validate_members`]).
pub fn validate_group_tree<C: SignatureCheck>(
    alloc: Global,
    suite: Suite,
    context: &GroupContext,
    tree: &PublicTree,
    checker: &C,
) -> Result<RequiredCapabilities, GroupTreeFault>
    requires supported { IsSupportedContext context.now }
    requires suite_of_context { suite ≡ context.now.cipher_suite }
    ensures members { IfOk result (HasMembers (C.meaning checker.now) context.now
        (λ t. t ≡ plain tree.now) (plain tree.now)) }
    ensures refused { IfErr result (IsGroupTreeFault (C.meaning checker.now) context.now
        (λ t. t ≡ plain tree.now)) }
{
    match requirements(alloc, context) {
        Ok(required) => match validate_tree_and_leaves(
            alloc, suite, context, &required, tree, checker,
        ) {
            Ok(()) => Ok(required),
            Err(fault) => {
                drop(required);
                Err(fault)
            }
        },
        Err(CodecFault::OutOfMemory) => Err(GroupTreeFault::OutOfMemory),
        Err(CodecFault::Wire(_)) => Err(GroupTreeFault::RequirementsUnreadable),
    }
}
