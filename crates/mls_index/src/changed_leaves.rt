//! The first changed leaf that fails a rule that needs no other leaf (RFC 9420, 7.3).

ghost use Rattle.std.specs.Prelude.{◌≡◌, ◌∷◌, [], IfOk};
ghost use Rattle.mls_index.specs.FirstChanged.{FindsFailingAt, leaf_rule, smaller};

use mls_check::{
    GroupRequirements, OutOfMemory, SignatureCheck, is_leaf_signed, supports_own_extensions,
};
use mls_nodes::{EncodedLeaf, GroupContext};
use mls_tree::PublicTree;
use std::alloc::Global;

/// A rule of leaf node validation that needs no other leaf (RFC 9420, 7.3).
#[derive(Clone, Copy, Debug, PartialEq, Eq)]
pub enum LeafRule {
    /// The leaf's capabilities list the types of its extensions.
    Extensions,
    /// They list the types that the group requires.
    Requirements,
    /// The checker accepts the leaf's signature.
    Signature,
}

/// What these rules need besides the leaf: the GroupContext, what the group requires, and a checker.
#[derive(Drop)]
pub struct LeafRules<'a, C> {
    /// The GroupContext.
    pub context: &'a GroupContext,
    /// What the group requires of its members (RFC 9420, 11.1).
    pub required: &'a GroupRequirements,
    /// What verifies signatures.
    pub checker: &'a C,
}

/// Returns whether a leaf satisfies a rule.
#[tactic(auto, unfolding(crate::specs::FirstChanged::leaf_rule))]
fn satisfies<C: SignatureCheck>(
    alloc: Global,
    rules: &LeafRules<'_, C>,
    rule: LeafRule,
    index: u32,
    leaf: &EncodedLeaf,
) -> Result<bool, OutOfMemory>
    ensures { IfOk result (λ kept. kept ≡ leaf_rule (C.meaning rules.now.checker.now)
        rules.now.context.now rules.now.required.now rule index leaf.now) }
{
    match rule {
        LeafRule::Extensions => supports_own_extensions(alloc, leaf),
        LeafRule::Requirements => rules.required.are_supported_by(alloc, leaf),
        LeafRule::Signature => {
            let context = rules.context;
            let suite = context.cipher_suite;
            let group_id = &context.group_id;
            Ok(is_leaf_signed(suite, group_id, index, leaf, rules.checker))
        }
    }
}

/// Returns the leaf index of the leaf at a node index, if it is a non-blank leaf that fails a rule.
fn failing_at<C: SignatureCheck>(
    alloc: Global,
    rules: &LeafRules<'_, C>,
    rule: LeafRule,
    tree: &PublicTree,
    node_index: u32,
) -> Result<Option<u32>, OutOfMemory>
    ensures { IfOk result (FindsFailingAt (leaf_rule (C.meaning rules.now.checker.now)
        rules.now.context.now rules.now.required.now rule) (node_index ∷ []) tree.now.tree) }
{
    if node_index % 2 == 1 {
        return Ok(None);
    }
    let index = node_index / 2;
    let Some(leaf) = tree.leaf(index) else {
        return Ok(None);
    };
    if satisfies(alloc, rules, rule, index, leaf)? {
        Ok(None)
    } else {
        Ok(Some(index))
    }
}

/// Returns the smaller one of two leaf indices, if there are any.
pub(crate) fn smaller(one: Option<u32>, other: Option<u32>) -> Option<u32>
    ensures { result ≡ smaller one other }
{
    match (one, other) {
        (None, other) => other,
        (Some(one), Some(other)) if other < one => Some(other),
        (Some(one), _) => Some(one),
    }
}

/// Returns the smallest leaf index of a non-blank leaf at one of these node indices that fails a rule. A node index may
/// be that of a parent or a blank leaf, of which nothing is checked.
///
/// # Errors
///
/// `OutOfMemory`.
pub fn first_changed_failing<C: SignatureCheck>(
    alloc: Global,
    rules: &LeafRules<'_, C>,
    rule: LeafRule,
    tree: &PublicTree,
    node_indices: &[u32],
) -> Result<Option<u32>, OutOfMemory>
    ensures { IfOk result (FindsFailingAt (leaf_rule (C.meaning rules.now.checker.now)
        rules.now.context.now rules.now.required.now rule) node_indices.now tree.now.tree) }
{
    let mut found = None;
    let mut rest = node_indices;
    while let Some((node_index, tail)) = rest.split_first() {
        found = smaller(found, failing_at(alloc, rules, rule, tree, *node_index)?);
        rest = tail;
    }
    Ok(found)
}
