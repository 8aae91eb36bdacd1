//! KeyPackages by themselves (RFC 9420, 7.3 and 10.1).

ghost use Rattle.std.specs.Prelude.{◌≡◌, ◌≢◌, Some, None, IfOk, IfErr, OnOk};
ghost use Rattle.mls_check.specs.LeafValidation.{credential_type, supports_credential};
ghost use Rattle.mls_apply.specs.RuleLists.{first_failing};
ghost use Rattle.mls_examine.specs.Packages.{IsFactsOf, IsGoodPackage, IsUnfitPackage, lifetime_of};
ghost use Rattle.mls_examine.specs.PackagesInternal.{leaf_node_rules};

use crate::unaccepted_signatures::UnacceptedSignatures;
use crate::unfit::Unfit;
use mls_apply::package_ref;
use mls_check::{MemberFault, SignatureCheck, supported_credentials, supports_own_extensions};
use mls_hash::Suite;
use mls_msgs::{KeyPackage, Rules};
use mls_nodes::{CredentialBody, EncodedLeaf, LeafSource, Lifetime};
use mls_strict::package_refusal;
use mls_tree::HashValue;
use std::alloc::Global;

/// The version of the protocol that is supported (RFC 9420, 6).
const MLS10: u16 = 1;

/// What a KeyPackage is known by, and how long it can be used.
#[derive(Clone, Copy, Debug)]
pub struct PackageFacts {
    /// The KeyPackageRef (RFC 9420, 5.2).
    pub reference: HashValue,
    /// The cipher suite.
    pub cipher_suite: u16,
    /// The lifetime of its leaf node (RFC 9420, 7.2). It is not judged.
    pub lifetime: Lifetime,
}

/// Returns whether a leaf's capabilities list the type of its own credential (RFC 9420, 7.3).
fn supports_own_credential(leaf: &EncodedLeaf) -> bool
    ensures { result ≡ supports_credential leaf.now (credential_type leaf.now.credential) }
{
    let supported = supported_credentials(leaf);
    match leaf.credential().body() {
        CredentialBody::Basic(_) => supported.basic,
        CredentialBody::X509(_) => supported.x509,
    }
}

/// Checks what the leaf node of a KeyPackage must satisfy besides its signature (RFC 9420, 7.3 and 10.1), and returns its
/// lifetime.
fn check_leaf_node(alloc: Global, key_package: &KeyPackage) -> Result<Lifetime, Unfit>
    ensures rules_hold { OnOk result (first_failing (leaf_node_rules key_package.now) ≡ None) }
    ensures lifetime { IfOk result (λ lifetime.
        lifetime_of key_package.now.leaf_node.source ≡ Some lifetime) }
    ensures broken_rule { IfErr result (λ e. e ≢ Unfit.OutOfMemory
        → first_failing (leaf_node_rules key_package.now) ≡ Some e) }
{
    let leaf = &key_package.leaf_node;
    let lifetime = match &leaf.source() {
        LeafSource::KeyPackage(lifetime) => *lifetime,
        _ => return Err(Unfit::LeafSource),
    };
    if key_package.init_key.as_slice() == leaf.encryption_key() {
        return Err(Unfit::InitKeyReused);
    }
    if !supports_own_extensions(alloc, leaf)? {
        return Err(Unfit::Member(MemberFault::ExtensionUnlisted(0)));
    }
    if !supports_own_credential(leaf) {
        return Err(Unfit::Member(MemberFault::CredentialUnsupported(0)));
    }
    Ok(lifetime)
}

/// Says whether a KeyPackage is good by itself, and meets these strict rules: whether a client can be added by it to some group
/// of its cipher suite that requires nothing (RFC 9420, 7.3 and 10.1). Its lifetime is returned and not judged, nor is it asked
/// whom its credential stands for.
///
/// # Errors
///
/// The first of these, in this order:
///
/// 1. `WrongVersion`: the version is not 1.
/// 2. `WrongSuite`: the cipher suite is none of 1 to 7.
/// 3. `LeafSource`: the source of the leaf node is not key_package.
/// 4. `InitKeyReused`: the init key is the leaf's encryption key.
/// 5. `Member`: the leaf's capabilities do not list the type of one of its extensions (`ExtensionUnlisted`), or the type of its
///    own credential (`CredentialUnsupported`). The leaf index is 0.
/// 6. `Strict`: it does not meet a strict rule of the set by itself. 45 and 50 ask nothing of a KeyPackage, and 51 nothing of
///    one by itself.
/// 7. `Malformed`: it has no encoding, as a part is too long for a vector. None that was decoded is so.
/// 8. `Unsigned`: the signature of the leaf node or that of the package is not good. Those that the checker does not accept are
///    listed. Nothing else is wrong with the package.
///
/// Or `OutOfMemory`, at any time.
pub fn check_package<C: SignatureCheck>(
    alloc: Global,
    key_package: &KeyPackage,
    asked: Rules,
    checker: &C,
) -> Result<PackageFacts, Unfit>
    ensures good { OnOk result (IsGoodPackage (C.meaning checker.now) asked key_package.now) }
    ensures facts { IfOk result (IsFactsOf key_package.now) }
    ensures unfit { IfErr result (λ e. e ≢ Unfit.OutOfMemory
        → IsUnfitPackage (C.meaning checker.now) asked key_package.now e) }
{
    if key_package.version != MLS10 {
        return Err(Unfit::WrongVersion);
    }
    let Ok(suite) = Suite::from_u16(key_package.cipher_suite) else {
        return Err(Unfit::WrongSuite);
    };
    let lifetime = check_leaf_node(alloc, key_package)?;
    if let Some(rule) = package_refusal(asked, suite, key_package.version, key_package) {
        return Err(Unfit::Strict(rule));
    }
    let reference = package_ref(alloc, key_package)?;
    let unaccepted = UnacceptedSignatures::of_package(alloc, key_package, checker)?;
    if !unaccepted.is_empty() {
        return Err(Unfit::Unsigned(unaccepted));
    }
    Ok(PackageFacts {
        reference,
        cipher_suite: key_package.cipher_suite,
        lifetime,
    })
}
