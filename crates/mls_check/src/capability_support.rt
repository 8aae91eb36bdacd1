//! What a leaf node's capabilities support (RFC 9420, 7.2).

ghost use Rattle.std.specs.Prelude.{◌≡◌, ◌&&◌, IfOk, map, nat_le, nat_lt};
ghost use Rattle.std.specs.List.{list_all};
ghost use Rattle.mls_check.specs.LeafValidation.{supports_credential, supports_own_extensions, supports_required};
ghost use Rattle.mls_check.specs.SortedRequirements.{requirements_of};
ghost use Rattle.mls_check.specs.CodeSets.{are_in_set, are_supported};

use crate::code_set::CodeSet;
use crate::credential_types::{BASIC, X509};
use crate::signatures::OutOfMemory;
use crate::sorted_requirements::SortedRequirements;
use mls_nodes::{EncodedLeaf, Extension, ExtensionsLeft, lists_code};
use mls_wire::ItemsRef;
use std::alloc::{AllocError, Global};

/// The last of the extension types that need not be listed.
const LAST_DEFAULT_EXTENSION: u16 = 5;

/// The last of the proposal types that need not be listed.
const LAST_DEFAULT_PROPOSAL: u16 = 7;

/// No credential type need not be listed.
const NO_DEFAULT: u16 = 0;

/// For at most this many types a leaf's list is read again for each, however long it is.
const FEW: usize = 3;

/// For more types a leaf's list is read again for each, if that reads at most this many bytes.
const MOST_READ: usize = 1024;

/// Returns whether a type is one of those from 1 to `last_default`, which need not be listed.
fn is_default(last_default: u16, kind: u16) -> bool
    ensures { result ≡ (nat_lt 0 kind && nat_le kind last_default) }
{
    0 < kind && kind <= last_default
}

/// Returns whether a leaf supports a credential type.
pub(crate) fn supports_credential(leaf: &EncodedLeaf, kind: u16) -> bool
    ensures { result ≡ supports_credential leaf.now kind }
{
    lists_code(&leaf.capabilities().credentials, kind)
}

/// Which types of credentials a leaf supports (RFC 9420, 5.3 and 7.2).
#[derive(Clone, Copy, Debug)]
pub struct SupportedCredentials {
    /// Basic credentials.
    pub basic: bool,
    /// Certificates.
    pub x509: bool,
}

/// Returns which types of credentials a leaf supports. The leaf node is read once.
pub fn supported_credentials(leaf: &EncodedLeaf) -> SupportedCredentials
    ensures basic { result.basic ≡ supports_credential leaf.now 1 }
    ensures x509 { result.x509 ≡ supports_credential leaf.now 2 }
{
    let capabilities = leaf.capabilities();
    SupportedCredentials {
        basic: lists_code(&capabilities.credentials, BASIC),
        x509: lists_code(&capabilities.credentials, X509),
    }
}

/// Returns whether a leaf's list contains each of these types that is not a default one. The list is read again for each.
fn are_listed(last_default: u16, listed: &ItemsRef<'_, u16>, kinds: &[u16]) -> bool
    ensures { result ≡ are_supported last_default listed.now kinds.now }
{
    kinds.iter().all(|&kind| is_default(last_default, kind) || lists_code(listed, kind))
}

/// Returns whether a set contains each of these types that is not a default one.
fn are_in_set(last_default: u16, set: &CodeSet, kinds: &[u16]) -> bool
    ensures { result ≡ are_in_set last_default set.now.words.items kinds.now }
{
    kinds.iter().all(|&kind| is_default(last_default, kind) || set.contains(kind))
}

/// Returns whether a leaf's list contains each of these types that is not a default one. A long list is read once, into
/// the set, if there are several types. What the set contained before does not matter.
fn are_supported(
    set: &mut CodeSet,
    last_default: u16,
    listed: &ItemsRef<'_, u16>,
    kinds: &[u16],
) -> Result<bool, AllocError>
    ensures { IfOk result (λ all. all ≡ are_supported last_default listed.now kinds.now) }
{
    let read = listed.encoded().len().saturating_mul(kinds.len());
    if kinds.len() <= FEW || read <= MOST_READ {
        return Ok(are_listed(last_default, listed, kinds));
    }
    set.fill(listed)?;
    Ok(are_in_set(last_default, set, kinds))
}

/// Returns the types of a list of extensions.
fn extension_types(
    alloc: Global,
    extensions: &ItemsRef<'_, Extension>,
) -> Result<Vec<u16>, AllocError>
    ensures { IfOk result (λ types. types.items ≡ map (λ e. e.kind) extensions.now) }
{
    let mut left = ExtensionsLeft::of_borrowed(extensions);
    let mut types = Vec::new(alloc);
    while let Some(extension) = left.next() {
        types.push(extension.kind)?;
    }
    Ok(types)
}

/// Returns whether a leaf supports the types of its own extensions (RFC 9420, 7.2 and 7.3): its capabilities list each
/// of them, or it is one of the types 1 to 5. Allocates only for a leaf with extensions. Time is linear.
///
/// # Errors
///
/// `OutOfMemory`.
#[tactic(auto, unfolding(crate::specs::LeafValidation::supports_own_extensions))]
pub fn supports_own_extensions(alloc: Global, leaf: &EncodedLeaf) -> Result<bool, OutOfMemory>
    ensures { IfOk result (λ all. all ≡ supports_own_extensions leaf.now) }
{
    let fields = leaf.fields();
    if fields.extensions.is_empty() {
        return Ok(true);
    }
    let types = extension_types(alloc, &fields.extensions)?;
    let mut set = CodeSet::new(alloc);
    let listed = &fields.capabilities.extensions;
    Ok(are_supported(&mut set, LAST_DEFAULT_EXTENSION, listed, types.as_slice())?)
}

/// Returns whether a leaf supports what the group requires, as [`supports_required`]. The set is for the lists of the
/// leaf, and can serve one leaf after the other. What it contained before does not matter.
#[tactic(auto, unfolding(crate::specs::LeafValidation::supports_required))]
pub(crate) fn supports_required_by(
    set: &mut CodeSet,
    leaf: &EncodedLeaf,
    requirements: &SortedRequirements,
) -> Result<bool, OutOfMemory>
    ensures { IfOk result
        (λ all. all ≡ supports_required (requirements_of requirements.now) leaf.now) }
{
    if requirements.is_empty() {
        return Ok(true);
    }
    let listed = leaf.capabilities();
    let extensions = requirements.extensions.as_slice();
    if !are_supported(set, LAST_DEFAULT_EXTENSION, &listed.extensions, extensions)? {
        return Ok(false);
    }
    let proposals = requirements.proposals.as_slice();
    if !are_supported(set, LAST_DEFAULT_PROPOSAL, &listed.proposals, proposals)? {
        return Ok(false);
    }
    let credentials = requirements.credentials.as_slice();
    Ok(are_supported(set, NO_DEFAULT, &listed.credentials, credentials)?)
}

/// Returns whether a leaf supports what the group requires (RFC 9420, 11.1): its capabilities list each type of
/// extension, proposal and credential, except the extension types 1 to 5 and the proposal types 1 to 7. Time is linear in
/// the size of the leaf node, however much is required. Allocates only if much is required of a leaf with long lists.
///
/// # Errors
///
/// `OutOfMemory`.
pub fn supports_required(
    alloc: Global,
    leaf: &EncodedLeaf,
    requirements: &SortedRequirements,
) -> Result<bool, OutOfMemory>
    ensures { IfOk result
        (λ all. all ≡ supports_required (requirements_of requirements.now) leaf.now) }
{
    let mut set = CodeSet::new(alloc);
    supports_required_by(&mut set, leaf, requirements)
}
