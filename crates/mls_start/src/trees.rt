//! What is found of the bytes of a GroupContext and of its ratchet tree (RFC 9420, 12.4.3.1).

ghost use Rattle.std.specs.Prelude.{◌≡◌, ◌≤◌, List, ℕ, length, IfOk};
ghost use Rattle.mls_tree.specs.PublicTreeModel.{plain};
ghost use Rattle.mls_tree.specs.TreeDecoding.{IsTreeOf, ReadsTree};
ghost use Rattle.mls_check.specs.GroupTree.{IsSupportedContext};
ghost use Rattle.mls_start.specs.StartSteps.{SaysIfStrict};
ghost use Rattle.mls_start.specs.TreeFinding.{IsContext, IsTreeFinding};

use crate::finding::{Finding, tree_hash_of};
use mls_check::{GroupTreeFault, OutOfMemory, SignatureCheck, validate_group_tree};
use mls_hash::{Suite, decode_with_leaf_hashes, fill_hashes};
use mls_msgs::Rules;
use mls_nodes::{GroupContext, NodeFault, decode_context};
use mls_strict::{StrictTreeFault, validate_strict};
use mls_tree::PublicTree;
use mls_wire::CodecFault;
use std::alloc::Global;

/// By what a tree is checked: the strict rules that are asked, and the cipher suite of the GroupContext.
#[derive(Clone, Copy)]
struct TreeRules {
    asked: Rules,
    suite: Suite,
}

/// Returns the finding for a GroupContext and a tree that is valid for it, with valid leaf nodes.
fn check_strict_tree(
    alloc: Global,
    rules: TreeRules,
    context: &GroupContext,
    tree: &PublicTree,
) -> Result<Finding, OutOfMemory>
    requires suite_of_context { rules.suite ≡ context.now.cipher_suite }
    requires hash { length context.now.tree_hash ≤ 64 }
    ensures { IfOk result (SaysIfStrict rules.asked context.now tree.now.tree) }
{
    match validate_strict(alloc, rules.asked, rules.suite, context, tree) {
        Ok(()) => Ok(Finding::TreeValid(tree_hash_of(context))),
        Err(StrictTreeFault::Strict(fault)) => Ok(Finding::TreeNotStrict(fault)),
        Err(StrictTreeFault::OutOfMemory) => Err(OutOfMemory),
    }
}

/// Returns the finding for a supported GroupContext and a decoded tree.
fn check_parsed_tree<C: SignatureCheck>(
    alloc: Global,
    rules: TreeRules,
    context: &GroupContext,
    tree: &PublicTree,
    checker: &C,
) -> Result<Finding, OutOfMemory>
    requires supported { IsSupportedContext context.now }
    requires suite_of_context { rules.suite ≡ context.now.cipher_suite }
    ensures { (context_bytes tree_bytes : List ℕ) → IsContext context_bytes context.now
        → IsTreeOf tree_bytes (plain tree.now)
        → IfOk result (IsTreeFinding rules.asked (C.meaning checker.now) context_bytes tree_bytes) }
{
    match validate_group_tree(alloc, rules.suite, context, tree, checker) {
        Ok(required) => {
            drop(required);
            check_strict_tree(alloc, rules, context, tree)
        }
        Err(GroupTreeFault::RequirementsUnreadable) => Ok(Finding::RequirementsUnreadable),
        Err(GroupTreeFault::Tree(fault)) => Ok(Finding::TreeRefused(fault)),
        Err(GroupTreeFault::Member(fault)) => Ok(Finding::MembersRefused(fault)),
        Err(GroupTreeFault::OutOfMemory) => Err(OutOfMemory),
    }
}

/// Decodes a tree, and stores the tree hashes of all its subtrees in its cache. The leaf nodes share the bytes.
fn decode_hashed(alloc: Global, suite: Suite, bytes: Vec<u8>) -> Result<PublicTree, NodeFault>
    ensures { ReadsTree bytes.items result }
{
    let mut tree = decode_with_leaf_hashes(alloc, suite, bytes)?;
    match fill_hashes(alloc, suite, &mut tree) {
        Ok(_) => Ok(tree),
        Err(_) => Err(NodeFault::OutOfMemory),
    }
}

/// Returns the finding for a supported GroupContext and the bytes of a tree.
fn check_tree_bytes<C: SignatureCheck>(
    alloc: Global,
    rules: TreeRules,
    context: &GroupContext,
    tree_bytes: Vec<u8>,
    checker: &C,
) -> Result<Finding, OutOfMemory>
    requires supported { IsSupportedContext context.now }
    requires suite_of_context { rules.suite ≡ context.now.cipher_suite }
    ensures { (context_bytes : List ℕ) → IsContext context_bytes context.now
        → IfOk result (IsTreeFinding rules.asked (C.meaning checker.now) context_bytes tree_bytes.items) }
{
    match decode_hashed(alloc, rules.suite, tree_bytes) {
        Ok(tree) => check_parsed_tree(alloc, rules, context, &tree, checker),
        Err(NodeFault::OutOfMemory) => Err(OutOfMemory),
        Err(fault) => Ok(Finding::TreeUnreadable(fault)),
    }
}

/// Returns the finding for a GroupContext and the bytes of a tree.
fn check_context<C: SignatureCheck>(
    alloc: Global,
    asked: Rules,
    context: &GroupContext,
    tree_bytes: Vec<u8>,
    checker: &C,
) -> Result<Finding, OutOfMemory>
    ensures { (context_bytes : List ℕ) → IsContext context_bytes context.now
        → IfOk result (IsTreeFinding asked (C.meaning checker.now) context_bytes tree_bytes.items) }
{
    if context.version != 1 {
        return Ok(Finding::UnsupportedVersion);
    }
    match Suite::from_u16(context.cipher_suite) {
        Ok(suite) => check_tree_bytes(
            alloc,
            TreeRules { asked, suite },
            context,
            tree_bytes,
            checker,
        ),
        Err(_) => Ok(Finding::UnsupportedSuite),
    }
}

/// Returns the finding for the bytes of a GroupContext and of a tree, the first that applies:
///
/// 1. The GroupContext is not decodable, its version is not `mls10`, or its cipher suite is not supported.
/// 2. The tree is not decodable.
/// 3. The `required_capabilities` extension is not decodable.
/// 4. The tree is not valid: the first check that fails, and its node index.
/// 5. The members are not valid: the first rule that fails, and its leaf index.
/// 6. A strict rule that is asked is not met: the first one, and its place ([`mls_strict::validate_strict`]).
/// 7. All is valid: the tree hash.
///
/// # Errors
///
/// [`OutOfMemory`].
pub fn tree_finding<C: SignatureCheck>(
    alloc: Global,
    asked: Rules,
    context_bytes: &[u8],
    tree_bytes: Vec<u8>,
    checker: &C,
) -> Result<Finding, OutOfMemory>
    ensures { IfOk result
        (IsTreeFinding asked (C.meaning checker.now) context_bytes.now tree_bytes.items) }
{
    match decode_context(alloc, context_bytes) {
        Ok(context) => check_context(alloc, asked, &context, tree_bytes, checker),
        Err(CodecFault::OutOfMemory) => Err(OutOfMemory),
        Err(CodecFault::Wire(fault)) => Ok(Finding::ContextUnreadable(fault)),
    }
}
