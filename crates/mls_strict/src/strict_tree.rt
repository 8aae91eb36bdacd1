//! What the strict rules demand of a GroupContext and a ratchet tree (RFC 9420, 7.2 and 8.1).

ghost use Rattle.std.specs.Prelude.{◌≡◌, ◌≢◌, ◌+◌, ◌*◌, IfErr, IfOk, OnOk, map};
ghost use Rattle.mls_nodes.specs.NodeValues.{node_value};
ghost use Rattle.mls_tree.specs.Tree.{leaf_count};
ghost use Rattle.mls_msgs.specs.declared.strict_rule.StrictRule.TheVariants as rules;
ghost use Rattle.mls_strict.specs.StrictTrees.{IsStrict, IsStrictTreeFault, Meets, tree_node_meets};
ghost use Rattle.mls_strict.specs.StrictTreesInternal.{FindsFailingNode, IsFaultOf, node_supports};
ghost use Rattle.mls_strict.specs.LeafForms.{requires_types};

use crate::content_forms::extensions_meet;
use crate::key_forms::{is_hpke_key, is_suite_point};
use crate::leaf_forms::leaf_meets;
use crate::strict_fault::{StrictFault, StrictTreeFault};
use mls_check::{GroupRequirements, OutOfMemory};
use mls_hash::Suite;
use mls_msgs::{Rules, StrictRule};
use mls_nodes::{Codes, Extensions, ExtensionsLeft, GroupContext, Node, RequiredCapabilities};
use mls_tree::PublicTree;
use std::alloc::{AllocError, Global};

/// The strict rules, in order of their numbers. Of a GroupContext and a tree 40, 45 and 50 demand nothing.
const STRICT_RULES: [StrictRule; 13] = [
    StrictRule::TagLength,
    StrictRule::ExtensionRepeated,
    StrictRule::ExtensionMisplaced,
    StrictRule::ExtensionUnreadable,
    StrictRule::KeyForm,
    StrictRule::CiphertextForm,
    StrictRule::GroupUnlisted,
    StrictRule::DefaultListed,
    StrictRule::LifetimeEmpty,
    StrictRule::CertificateKey,
    StrictRule::PskAhead,
    StrictRule::GroupExtensionUnsupported,
    StrictRule::PointOffCurve,
];

/// Returns the number of nodes of the tree.
fn node_index_count(tree: &PublicTree) -> u32
    ensures { result + 1 ≡ 2 * leaf_count tree.now.tree }
{
    2 * tree.leaf_count() - 1
}

/// Returns whether a non-blank node meets a strict rule that concerns one node by itself.
fn node_meets(suite: Suite, context: &GroupContext, rule: StrictRule, node: &Node) -> bool
    requires suite { suite ≡ context.now.cipher_suite }
    requires one_node { rule ≢ rules.GroupExtensionUnsupported }
    ensures { result ≡ tree_node_meets context.now rule (node_value node.now) }
{
    match (node, rule) {
        (Node::Leaf(leaf), _) => leaf_meets(suite, context.version, rule, leaf),
        (Node::Parent(parent), StrictRule::KeyForm) => {
            is_hpke_key(suite, parent.encryption_key.as_slice())
        }
        (Node::Parent(parent), StrictRule::PointOffCurve) => {
            is_suite_point(suite, parent.encryption_key.as_slice())
        }
        (Node::Parent(_), _) => true,
    }
}

/// Returns the smallest node index of a node that does not meet a strict rule that concerns one node by itself.
fn first_failing_node(
    suite: Suite,
    context: &GroupContext,
    rule: StrictRule,
    tree: &PublicTree,
) -> Option<u32>
    requires suite { suite ≡ context.now.cipher_suite }
    requires one_node { rule ≢ rules.GroupExtensionUnsupported }
    ensures { FindsFailingNode (tree_node_meets context.now rule) tree.now.tree result }
{
    for node_index in 0..node_index_count(tree) {
        if let Some(node) = tree.node(node_index) {
            if !node_meets(suite, context, rule, node) {
                return Some(node_index);
            }
        }
    }
    None
}

/// Returns the types of a list of extensions.
fn extension_types(alloc: Global, extensions: &Extensions) -> Result<Vec<u16>, AllocError>
    ensures { IfOk result (λ types. types.items ≡ map (λ e. e.kind) extensions.now) }
{
    let mut left = ExtensionsLeft::of(extensions);
    let mut types = Vec::new(alloc);
    while let Some(extension) = left.next() {
        types.push(extension.kind)?;
    }
    Ok(types)
}

/// Returns the requirements that a leaf node satisfies if and only if it supports the types of these extensions (RFC 9420,
/// 13.4).
///
/// # Errors
///
/// `OutOfMemory`. The types take fewer bytes than the extensions, so they fit into a vector too.
pub fn required_types(
    alloc: Global,
    extensions: &Extensions,
) -> Result<GroupRequirements, OutOfMemory>
    ensures { IfOk result (λ required. required ≡ requires_types extensions.now) }
{
    let types = extension_types(alloc, extensions)?;
    let Ok(types) = Codes::copy(alloc, types.as_slice()) else {
        return Err(OutOfMemory);
    };
    let required = RequiredCapabilities {
        extensions: types,
        proposals: Codes::empty(),
        credentials: Codes::empty(),
    };
    GroupRequirements::new(alloc, required)
}

/// Returns whether a non-blank node satisfies requirements, as each parent node does.
///
/// # Errors
///
/// `OutOfMemory`.
fn node_supports(
    alloc: Global,
    required: &GroupRequirements,
    node: &Node,
) -> Result<bool, OutOfMemory>
    ensures { IfOk result (λ supports. supports ≡ node_supports required.now (node_value node.now)) }
{
    match node {
        Node::Leaf(leaf) => required.are_supported_by(alloc, leaf),
        Node::Parent(_) => Ok(true),
    }
}

/// Returns the smallest node index of a leaf node that does not support the types of the GroupContext's extensions (RFC
/// 9420, 13.4).
///
/// # Errors
///
/// `OutOfMemory`.
fn first_unsupporting_leaf(
    alloc: Global,
    context: &GroupContext,
    tree: &PublicTree,
) -> Result<Option<u32>, OutOfMemory>
    ensures { IfOk result (FindsFailingNode
        (tree_node_meets context.now rules.GroupExtensionUnsupported) tree.now.tree) }
{
    let required = required_types(alloc, &context.extensions)?;
    for node_index in 0..node_index_count(tree) {
        if let Some(node) = tree.node(node_index) {
            if !node_supports(alloc, &required, node)? {
                return Ok(Some(node_index));
            }
        }
    }
    Ok(None)
}

/// Checks that the extensions of a GroupContext and each node of a tree meet a strict rule.
fn check_rule(
    alloc: Global,
    suite: Suite,
    context: &GroupContext,
    tree: &PublicTree,
    rule: StrictRule,
) -> Result<(), StrictTreeFault>
    requires { suite ≡ context.now.cipher_suite }
    ensures meets { OnOk result (Meets context.now tree.now.tree rule) }
    ensures fault { IfErr result (IsFaultOf context.now tree.now.tree rule) }
{
    if !extensions_meet(rule, &context.extensions) {
        return Err(StrictTreeFault::Strict(StrictFault { rule, place: None }));
    }
    let failing = match rule {
        StrictRule::GroupExtensionUnsupported => first_unsupporting_leaf(alloc, context, tree)?,
        _ => first_failing_node(suite, context, rule, tree),
    };
    match failing {
        Some(_) => Err(StrictTreeFault::Strict(StrictFault {
            rule,
            place: failing,
        })),
        None => Ok(()),
    }
}

/// Validates a GroupContext and a ratchet tree by the strict rules of a set: the extensions of the context by 41 and 43, each
/// leaf node by 41 to 44, 46 to 49, 51 and 52, and each parent node by 44 and 52. Of both 40, 45 and 50 demand nothing.
///
/// # Errors
///
/// - [`StrictTreeFault::Strict`]: the first strict rule of the set, by number, that is not met. The place is `None` if the
///   context does not meet it, else the smallest node index at which the rule is not met.
/// - [`StrictTreeFault::OutOfMemory`].
pub fn validate_strict(
    alloc: Global,
    asked: Rules,
    suite: Suite,
    context: &GroupContext,
    tree: &PublicTree,
) -> Result<(), StrictTreeFault>
    requires { suite ≡ context.now.cipher_suite }
    ensures strict { OnOk result (IsStrict asked context.now tree.now.tree) }
    ensures fault { IfErr result (λ e. IsStrictTreeFault asked context.now tree.now.tree e) }
{
    for rule in &STRICT_RULES {
        if asked.has(rule.number()) {
            check_rule(alloc, suite, context, tree, *rule)?;
        }
    }
    Ok(())
}
