//! The two validators, whose tree is unchanged.

ghost use Rattle.std.specs.Prelude.{◌≡◌};

use crate::group::{TREE, TREE_CONTEXT};
use crate::output::{Output, Stop, have};
use mls_check::{MemberFault, TreeFault, Trusting, validate_members, validate_tree};
use mls_hash::Suite;
use mls_nodes::{GroupContext, decode_context, encode_ratchet_tree, requirements};
use mls_tree::PublicTree;
use std::alloc::Global;

/// A validator.
#[derive(Clone, Copy)]
pub(crate) enum Validator {
    /// Of the tree.
    Tree,
    /// Of its leaf nodes, as members of the group.
    Members,
}

/// Returns the result of a validator: yes, no, or `None` if it ran out of memory.
fn judge(
    alloc: Global,
    validator: Validator,
    suite: Suite,
    context: &GroupContext,
    tree: &PublicTree,
) -> Result<Option<bool>, Stop>
    requires { suite ≡ context.now.cipher_suite }
{
    match validator {
        Validator::Tree => match validate_tree(alloc, suite, context, tree) {
            Ok(()) => Ok(Some(true)),
            Err(TreeFault::OutOfMemory) => Ok(None),
            Err(_) => Ok(Some(false)),
        },
        Validator::Members => {
            let Ok(required) = requirements(alloc, context) else {
                return Err(Stop::Memory);
            };
            let (number, id) = (context.cipher_suite, &context.group_id);
            let answer = validate_members(alloc, number, id, &required, tree, &Trusting);
            drop(required);
            match answer {
                Ok(()) => Ok(Some(true)),
                Err(MemberFault::OutOfMemory) => Ok(None),
                Err(_) => Ok(Some(false)),
            }
        }
    }
}

/// Calls a validator, and once more if it ran out of memory. Then the tree must have the same nodes.
fn judge_again(
    alloc: Global,
    validator: Validator,
    context: &GroupContext,
    tree: &PublicTree,
) -> Result<(bool, Option<bool>), Stop> {
    let Ok(suite) = Suite::from_u16(context.cipher_suite) else {
        return Err(Stop::OtherSuite);
    };
    if suite.number() != context.cipher_suite {
        return Err(Stop::OtherSuite);
    }
    let before = have(encode_ratchet_tree(alloc, tree.nodes()))?;
    let answer = judge(alloc, validator, suite, context, tree)?;
    if answer.is_some() {
        return Ok((false, answer));
    }
    let after = have(encode_ratchet_tree(alloc, tree.nodes()))?;
    if before.as_slice() != after.as_slice() {
        return Err(Stop::Changed);
    }
    Ok((true, judge(alloc, validator, suite, context, tree)?))
}

/// Calls a validator with the tree of four members.
pub(crate) fn validate(alloc: Global, validator: Validator) -> Result<Output, Stop> {
    let context = have(hex::decode(alloc, TREE_CONTEXT))?;
    let tree = have(hex::decode(alloc, TREE))?;
    let Ok(context) = decode_context(alloc, context.as_slice()) else {
        return Err(Stop::Memory);
    };
    let answer = match PublicTree::decode(alloc, tree.as_slice()) {
        Ok(tree) => judge_again(alloc, validator, &context, &tree),
        Err(_) => Err(Stop::Memory),
    };
    drop(context);
    let (was_refused, is_valid) = answer?;
    let text = match is_valid {
        Some(true) => "yes",
        Some(false) => "no",
        None => "out of memory",
    };
    let text = have(String::from_str(alloc, text))?;
    Ok(Output { was_refused, text })
}
