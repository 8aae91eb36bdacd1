//! What the strict rules demand of a leaf node by itself (RFC 9420, 7.2).

ghost use Rattle.std.specs.Prelude.{◌≡◌, ◌&&◌, nat_le, nat_lt};
ghost use Rattle.std.specs.List.{list_any};
ghost use Rattle.mls_strict.specs.LeafForms.{has_key_forms, has_lifetime, leaf_meets, lists_group, lists_no_default};

use crate::certificates::certifies;
use crate::extension_lists::{has_each_type_once, has_no_group_type, has_readable_id};
use crate::key_forms::{is_hpke_key, is_signature_key, is_suite_point};
use mls_hash::Suite;
use mls_msgs::StrictRule;
use mls_nodes::{EncodedLeaf, LeafSource, lists_code, next_code};
use mls_wire::ItemsRef;

/// The greatest default type of an extension (RFC 9420, 17.3).
const LAST_DEFAULT_EXTENSION: u16 = 5;

/// The greatest default type of a proposal (RFC 9420, 17.4).
const LAST_DEFAULT_PROPOSAL: u16 = 7;

/// Returns whether the two keys of a leaf node have the forms of the suite (RFC 9420, 5.1.1).
#[tactic(auto, unfolding(crate::specs::LeafForms::has_key_forms))]
fn has_key_forms(suite: Suite, leaf: &EncodedLeaf) -> bool
    ensures { result ≡ has_key_forms suite leaf.now }
{
    is_hpke_key(suite, leaf.encryption_key()) && is_signature_key(suite, leaf.signature_key())
}

/// Returns whether the capabilities of a leaf node list the version and the suite (RFC 9420, 7.2 and 11.1).
#[tactic(auto, unfolding(crate::specs::LeafForms::lists_group))]
fn lists_group(suite: Suite, version: u16, leaf: &EncodedLeaf) -> bool
    ensures { result ≡ lists_group version suite leaf.now }
{
    let capabilities = leaf.capabilities();
    lists_code(&capabilities.versions, version)
        && lists_code(&capabilities.cipher_suites, suite.number())
}

/// Returns whether a list contains a code from 1 to the last one.
fn lists_up_to(codes: &ItemsRef<'_, u16>, last: u16) -> bool
    ensures { result ≡ list_any (λ code. nat_lt 0 code && nat_le code last) codes.now }
{
    let mut left = ItemsRef::new(codes.encoded());
    while let Some(code) = next_code(&mut left) {
        if 0 < code && code <= last {
            return true;
        }
    }
    false
}

/// Returns whether the capabilities of a leaf node list no default type (RFC 9420, 7.2).
#[tactic(auto, unfolding(crate::specs::LeafForms::lists_no_default))]
fn lists_no_default(leaf: &EncodedLeaf) -> bool
    ensures { result ≡ lists_no_default leaf.now }
{
    let capabilities = leaf.capabilities();
    !lists_up_to(&capabilities.extensions, LAST_DEFAULT_EXTENSION)
        && !lists_up_to(&capabilities.proposals, LAST_DEFAULT_PROPOSAL)
}

/// Returns whether the lifetime of a leaf node, if it has one, does not end before it begins (RFC 9420, 7.2).
fn has_lifetime(leaf: &EncodedLeaf) -> bool
    ensures { result ≡ has_lifetime leaf.now.source }
{
    match &leaf.source() {
        LeafSource::KeyPackage(lifetime) => lifetime.not_before <= lifetime.not_after,
        LeafSource::Update | LeafSource::Commit { .. } => true,
    }
}

/// Returns whether a leaf node meets a strict rule, as far as the rule concerns one leaf node by itself, in a group with this
/// protocol version and cipher suite.
pub(crate) fn leaf_meets(suite: Suite, version: u16, rule: StrictRule, leaf: &EncodedLeaf) -> bool
    ensures { result ≡ leaf_meets version suite rule leaf.now }
{
    match rule {
        StrictRule::ExtensionRepeated => has_each_type_once(&leaf.fields().extensions),
        StrictRule::ExtensionMisplaced => has_no_group_type(&leaf.fields().extensions),
        StrictRule::ExtensionUnreadable => has_readable_id(&leaf.fields().extensions),
        StrictRule::KeyForm => has_key_forms(suite, leaf),
        StrictRule::GroupUnlisted => lists_group(suite, version, leaf),
        StrictRule::DefaultListed => lists_no_default(leaf),
        StrictRule::LifetimeEmpty => has_lifetime(leaf),
        StrictRule::CertificateKey => certifies(leaf.signature_key(), &leaf.credential()),
        StrictRule::PointOffCurve => is_suite_point(suite, leaf.encryption_key()),
        StrictRule::TagLength
        | StrictRule::CiphertextForm
        | StrictRule::PskAhead
        | StrictRule::GroupExtensionUnsupported => true,
    }
}
