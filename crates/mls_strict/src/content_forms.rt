//! What the strict rules demand of a proposal or a commit (RFC 9420, 12.1 and 12.4).

ghost use Rattle.std.specs.Prelude.{◌≡◌};
ghost use Rattle.std.specs.List.{list_all};
ghost use Rattle.mls_strict.specs.ContentForms.{ciphertext_meets, content_meets, content_refusal, package_refusal, proposal_refusal, entry_meets, extensions_meet, first_unmet, is_ciphertext, is_held, node_meets, package_meets, path_meets, proposal_meets};

use crate::extension_lists::{has_each_once, has_readable_senders};
use crate::key_forms::{is_hpke_key, is_suite_point};
use crate::leaf_forms::leaf_meets;
use mls_hash::Suite;
use mls_msgs::{
    Ciphertexts, Content, KeyPackage, PathNode, Proposal, ProposalOrRef, PskKind, PskUsage, Rules,
    StrictRule, UpdatePath,
};
use mls_nodes::{Extensions, GroupContext};
use mls_wire::OpaqueRef;

/// The length in bytes of the tag with which each AEAD of MLS ends a ciphertext (RFC 9180, 7.3).
const TAG_LENGTH: usize = 16;

/// The strict rules for a content, in the order of their numbers.
const CONTENT_RULES: [StrictRule; 11] = [
    StrictRule::ExtensionRepeated,
    StrictRule::ExtensionMisplaced,
    StrictRule::ExtensionUnreadable,
    StrictRule::KeyForm,
    StrictRule::CiphertextForm,
    StrictRule::GroupUnlisted,
    StrictRule::DefaultListed,
    StrictRule::LifetimeEmpty,
    StrictRule::CertificateKey,
    StrictRule::PskAhead,
    StrictRule::PointOffCurve,
];

/// Returns whether a KeyPackage meets a strict rule (RFC 9420, 10).
fn package_meets(suite: Suite, version: u16, rule: StrictRule, key_package: &KeyPackage) -> bool
    ensures { result ≡ package_meets version suite rule key_package.now }
{
    let meets = match rule {
        StrictRule::ExtensionRepeated => has_each_once(&key_package.extensions),
        StrictRule::KeyForm => is_hpke_key(suite, key_package.init_key.as_slice()),
        StrictRule::PointOffCurve => is_suite_point(suite, key_package.init_key.as_slice()),
        _ => true,
    };
    meets && leaf_meets(suite, version, rule, &key_package.leaf_node)
}

/// Returns whether a PSK is not a resumption PSK of usage application of this group in a later epoch than the current one
/// (RFC 9420, 8.6 and 12.4.2).
fn is_held(context: &GroupContext, kind: &PskKind) -> bool
    ensures { result ≡ is_held context.now kind.now }
{
    match kind {
        PskKind::Resumption {
            usage: PskUsage::Application,
            group_id,
            epoch,
        } => group_id.as_slice() != context.group_id.as_slice() || *epoch <= context.epoch,
        _ => true,
    }
}

/// Returns whether the extensions of a GroupContextExtensions meet a strict rule (RFC 9420, 12.1.7).
pub(crate) fn extensions_meet(rule: StrictRule, extensions: &Extensions) -> bool
    ensures { result ≡ extensions_meet rule extensions.now }
{
    match rule {
        StrictRule::ExtensionRepeated => has_each_once(extensions),
        StrictRule::ExtensionUnreadable => has_readable_senders(extensions),
        _ => true,
    }
}

/// Returns whether a proposal meets a strict rule (RFC 9420, 12.1).
fn proposal_meets(
    suite: Suite,
    context: &GroupContext,
    rule: StrictRule,
    proposal: &Proposal,
) -> bool
    requires { suite ≡ context.now.cipher_suite }
    ensures { result ≡ proposal_meets context.now rule proposal.now }
{
    match (proposal, rule) {
        (Proposal::Add(key_package), _) => {
            package_meets(suite, context.version, rule, key_package)
        }
        (Proposal::Update(leaf), _) => leaf_meets(suite, context.version, rule, leaf),
        (Proposal::ContextExtensions(extensions), _) => extensions_meet(rule, extensions),
        (Proposal::PreSharedKey(id), StrictRule::PskAhead) => is_held(context, &id.kind),
        (Proposal::ReInit(reinit), StrictRule::ExtensionRepeated) => {
            has_each_once(&reinit.extensions)
        }
        (Proposal::ExternalInit(kem_output), StrictRule::CiphertextForm) => {
            is_hpke_key(suite, kem_output.as_slice())
        }
        (Proposal::ExternalInit(kem_output), StrictRule::PointOffCurve) => {
            is_suite_point(suite, kem_output.as_slice())
        }
        _ => true,
    }
}

/// Returns whether a `kem_output` has the form of the suite's KEM, and a ciphertext the length of an encrypted path secret
/// (RFC 9420, 7.6; RFC 9180, 7.1 and 7.3).
#[tactic(auto, unfolding(crate::specs::ContentForms::is_ciphertext))]
fn is_ciphertext(suite: Suite, kem_output: &[u8], ciphertext: &[u8]) -> bool
    ensures { result ≡ is_ciphertext suite (record { kem_output = kem_output.now; ciphertext = ciphertext.now }) }
{
    is_hpke_key(suite, kem_output)
        && ciphertext.len() == usize::from(suite.hash_length()) + TAG_LENGTH
}

/// Returns whether a ciphertext meets a strict rule (RFC 9420, 7.6).
fn ciphertext_meets(suite: Suite, rule: StrictRule, kem_output: &[u8], ciphertext: &[u8]) -> bool
    ensures { result ≡ ciphertext_meets suite rule
        (record { kem_output = kem_output.now; ciphertext = ciphertext.now }) }
{
    match rule {
        StrictRule::CiphertextForm => is_ciphertext(suite, kem_output, ciphertext),
        StrictRule::PointOffCurve => is_suite_point(suite, kem_output),
        _ => true,
    }
}

/// Returns whether each ciphertext of a path node meets a strict rule. Nothing is copied.
fn are_ciphertexts(suite: Suite, rule: StrictRule, ciphertexts: &Ciphertexts) -> bool
    ensures { result ≡ list_all (ciphertext_meets suite rule) ciphertexts.now }
{
    let mut left = ciphertexts.reader();
    while !left.at_end() {
        let Ok(kem_output) = OpaqueRef::parse(&mut left) else {
            unreachable!();
        };
        let Ok(ciphertext) = OpaqueRef::parse(&mut left) else {
            unreachable!();
        };
        if !ciphertext_meets(suite, rule, kem_output.as_slice(), ciphertext.as_slice()) {
            return false;
        }
    }
    true
}

/// Returns whether a path node meets a strict rule (RFC 9420, 7.6).
fn node_meets(suite: Suite, rule: StrictRule, node: &PathNode) -> bool
    ensures { result ≡ node_meets suite rule node.now }
{
    match rule {
        StrictRule::KeyForm => is_hpke_key(suite, node.encryption_key.as_slice()),
        StrictRule::CiphertextForm => are_ciphertexts(suite, rule, &node.ciphertexts),
        StrictRule::PointOffCurve => {
            is_suite_point(suite, node.encryption_key.as_slice())
                && are_ciphertexts(suite, rule, &node.ciphertexts)
        }
        _ => true,
    }
}

/// Returns whether each path node meets a strict rule.
fn nodes_meet(suite: Suite, rule: StrictRule, nodes: &[PathNode]) -> bool
    ensures { result ≡ list_all (node_meets suite rule) nodes.now }
{
    for node in nodes {
        if !node_meets(suite, rule, node) {
            return false;
        }
    }
    true
}

/// Returns whether a path, if there is one, meets a strict rule.
fn path_meets(
    suite: Suite,
    context: &GroupContext,
    rule: StrictRule,
    path: &Option<UpdatePath>,
) -> bool
    requires { suite ≡ context.now.cipher_suite }
    ensures { result ≡ path_meets context.now rule path.now }
{
    match path {
        Some(path) => {
            leaf_meets(suite, context.version, rule, &path.leaf_node)
                && nodes_meet(suite, rule, path.nodes.as_slice())
        }
        None => true,
    }
}

/// Returns whether an entry of a proposal list meets a strict rule, as far as it is a proposal by value.
fn entry_meets(
    suite: Suite,
    context: &GroupContext,
    rule: StrictRule,
    entry: &ProposalOrRef,
) -> bool
    requires { suite ≡ context.now.cipher_suite }
    ensures { result ≡ entry_meets context.now rule entry.now }
{
    match entry {
        ProposalOrRef::Proposal(proposal) => proposal_meets(suite, context, rule, proposal),
        ProposalOrRef::Reference(_) => true,
    }
}

/// Returns whether each entry of a proposal list meets a strict rule.
fn entries_meet(
    suite: Suite,
    context: &GroupContext,
    rule: StrictRule,
    entries: &[ProposalOrRef],
) -> bool
    requires { suite ≡ context.now.cipher_suite }
    ensures { result ≡ list_all (entry_meets context.now rule) entries.now }
{
    for entry in entries {
        if !entry_meets(suite, context, rule, entry) {
            return false;
        }
    }
    true
}

/// Returns whether a content meets a strict rule.
fn content_meets(suite: Suite, context: &GroupContext, rule: StrictRule, content: &Content) -> bool
    requires { suite ≡ context.now.cipher_suite }
    ensures { result ≡ content_meets context.now rule content.now }
{
    match content {
        Content::Application(_) => true,
        Content::Proposal(proposal) => proposal_meets(suite, context, rule, proposal),
        Content::Commit(commit) => {
            entries_meet(suite, context, rule, commit.proposals.as_slice())
                && path_meets(suite, context, rule, &commit.path)
        }
    }
}

/// Returns the first of these strict rules that the set has and that a content does not meet.
fn first_unmet(
    asked: Rules,
    suite: Suite,
    context: &GroupContext,
    content: &Content,
    rules: &[StrictRule],
) -> Option<StrictRule>
    requires { suite ≡ context.now.cipher_suite }
    ensures { result ≡ first_unmet asked (λ r. content_meets context.now r content.now) rules.now }
{
    for rule in rules {
        if asked.has(rule.number()) && !content_meets(suite, context, *rule, content) {
            return Some(*rule);
        }
    }
    None
}

/// Returns the first strict rule of the set, by number, that a content does not meet in a group with this GroupContext:
/// one of 41 to 50 and 52. Of a proposal its own parts are checked, of a commit its inline proposals and its path. What a
/// commit names by reference is not checked again. 40 looks at tags and 51 at a tree, so they are not checked here. No rule
/// takes longer than the content's size. Allocates nothing.
#[tactic(auto, unfolding(crate::specs::ContentForms::content_refusal))]
pub fn content_refusal(
    asked: Rules,
    suite: Suite,
    context: &GroupContext,
    content: &Content,
) -> Option<StrictRule>
    requires { suite ≡ context.now.cipher_suite }
    ensures { result ≡ content_refusal asked context.now content.now }
{
    first_unmet(asked, suite, context, content, &CONTENT_RULES)
}

/// Returns the first of these strict rules that the set has and that a proposal does not meet.
fn first_unmet_by_proposal(
    asked: Rules,
    suite: Suite,
    context: &GroupContext,
    proposal: &Proposal,
    rules: &[StrictRule],
) -> Option<StrictRule>
    requires { suite ≡ context.now.cipher_suite }
    ensures { result ≡ first_unmet asked (λ r. proposal_meets context.now r proposal.now) rules.now }
{
    for rule in rules {
        if asked.has(rule.number()) && !proposal_meets(suite, context, *rule, proposal) {
            return Some(*rule);
        }
    }
    None
}

/// Returns the first strict rule of the set, by number, that a proposal does not meet in a group with this GroupContext, as
/// [`content_refusal`] does for a content that is this proposal.
#[tactic(auto, unfolding(crate::specs::ContentForms::proposal_refusal))]
pub fn proposal_refusal(
    asked: Rules,
    suite: Suite,
    context: &GroupContext,
    proposal: &Proposal,
) -> Option<StrictRule>
    requires { suite ≡ context.now.cipher_suite }
    ensures { result ≡ proposal_refusal asked context.now proposal.now }
{
    first_unmet_by_proposal(asked, suite, context, proposal, &CONTENT_RULES)
}

/// Returns the first of these strict rules that the set has and that a KeyPackage does not meet.
fn first_unmet_by_package(
    asked: Rules,
    suite: Suite,
    version: u16,
    key_package: &KeyPackage,
    rules: &[StrictRule],
) -> Option<StrictRule>
    ensures { result ≡ first_unmet asked (λ r. package_meets version suite r key_package.now) rules.now }
{
    for rule in rules {
        if asked.has(rule.number()) && !package_meets(suite, version, *rule, key_package) {
            return Some(*rule);
        }
    }
    None
}

/// Returns the first strict rule of the set, by number, that a KeyPackage does not meet by itself, in a group of this version
/// and cipher suite (RFC 9420, 10), as [`proposal_refusal`] does for a proposal that adds it.
#[tactic(auto, unfolding(crate::specs::ContentForms::package_refusal))]
pub fn package_refusal(
    asked: Rules,
    suite: Suite,
    version: u16,
    key_package: &KeyPackage,
) -> Option<StrictRule>
    ensures { result ≡ package_refusal asked suite version key_package.now }
{
    first_unmet_by_package(asked, suite, version, key_package, &CONTENT_RULES)
}
