//! KeyPackageRefs (RFC 9420, 5.2), and those of the Adds of a proposal list.

ghost use Rattle.std.specs.Prelude.{◌≡◌, ◌↔◌, ◌++◌, false, Some, None, Ok, Err, IfOk, OnOk};
ghost use Rattle.mls_hash.specs.SuiteHash.{hash_of};
ghost use Rattle.mls_hash.specs.Suites.{is_supported};
ghost use Rattle.mls_apply.specs.PackageRefs.{package_ref, item_references, added_references};

use crate::list_item::ListItem;
use mls_hash::{Suite, ref_hash};
use mls_msgs::{KeyPackage, Proposal};
use mls_tree::HashValue;
use mls_wire::{CodecFault, bytes_of};
use std::alloc::{AllocError, Global};
use thiserror::Error;

/// The label of a KeyPackageRef (RFC 9420, 5.2).
const PACKAGE_REFERENCE_LABEL: &str = "MLS 1.0 KeyPackage Reference";

/// Why a KeyPackage has no KeyPackageRef.
#[derive(Clone, Copy, Debug, PartialEq, Eq, Error)]
pub enum PackageRefFault {
    /// Its cipher suite is none of 1 to 7.
    #[error("the cipher suite is not supported")]
    UnsupportedSuite,
    /// A part of its encoding, or the whole encoding, is too long for a vector.
    #[error("a part is too long for a vector")]
    TooLong,
    /// An allocation failed.
    #[error("out of memory")]
    OutOfMemory,
}

/// Returns a supported suite with the hash function of this suite. 0 counts as 3, and greater numbers than 7 count as 7.
#[tactic(auto, unfolding(mls_hash::specs::SuiteHash::hash_of))]
fn hashing_suite(number: u16) -> Suite
    ensures { hash_of result ≡ hash_of number }
{
    let supported = match number {
        0..=3 => 1,
        4..=6 => 4,
        _ => 7,
    };
    match Suite::from_u16(supported) {
        Ok(suite) => suite,
        Err(_) => unreachable!(),
    }
}

/// Returns the KeyPackageRef of a KeyPackage, or `None` if it has none. The hash function of `suite` must be that of its
/// own suite.
fn reference_by(
    alloc: Global,
    suite: Suite,
    key_package: &KeyPackage,
) -> Result<Option<HashValue>, AllocError>
    requires { hash_of suite ≡ hash_of key_package.now.cipher_suite }
    ensures { IfOk result (λ reference. reference ≡ package_ref key_package.now) }
{
    match bytes_of(alloc, key_package) {
        Ok(value) => Ok(ref_hash(suite, PACKAGE_REFERENCE_LABEL, value.as_slice()).ok()),
        Err(CodecFault::Wire(_)) => Ok(None),
        Err(CodecFault::OutOfMemory) => Err(AllocError),
    }
}

/// Returns the KeyPackageRef of a KeyPackage (RFC 9420, 5.2), by the hash function of its cipher suite.
///
/// # Errors
///
/// - [`PackageRefFault::UnsupportedSuite`] if and only if the cipher suite is none of 1 to 7.
/// - [`PackageRefFault::TooLong`] only if the KeyPackage has no encoding, or one of more than 1,073,741,823 bytes.
/// - [`PackageRefFault::OutOfMemory`].
pub fn package_ref(alloc: Global, key_package: &KeyPackage) -> Result<HashValue, PackageRefFault>
    ensures value { IfOk result (λ reference. package_ref key_package.now ≡ Some reference) }
    ensures unsupported { (result ≡ Err PackageRefFault.UnsupportedSuite)
        ↔ (is_supported key_package.now.cipher_suite ≡ false) }
    ensures too_long { result ≡ Err PackageRefFault.TooLong → package_ref key_package.now ≡ None }
{
    let Ok(suite) = Suite::from_u16(key_package.cipher_suite) else {
        return Err(PackageRefFault::UnsupportedSuite);
    };
    match reference_by(alloc, suite, key_package) {
        Ok(Some(reference)) => Ok(reference),
        Ok(None) => Err(PackageRefFault::TooLong),
        Err(AllocError) => Err(PackageRefFault::OutOfMemory),
    }
}

/// Adds the KeyPackageRef of an item after the others, if the item is an Add and its KeyPackage has one.
fn push_reference(
    alloc: Global,
    references: &mut Vec<HashValue>,
    item: &ListItem<'_>,
) -> Result<(), AllocError>
    ensures { OnOk result
        (references.new.items ≡ references.old.items ++ item_references item.now.proposal) }
{
    let Proposal::Add(key_package) = item.proposal else {
        return Ok(());
    };
    let suite = hashing_suite(key_package.cipher_suite);
    if let Some(reference) = reference_by(alloc, suite, key_package)? {
        references.push(reference)?;
    }
    Ok(())
}

/// Returns the KeyPackageRefs of the Adds of a proposal list, in the order of the list (RFC 9420, 5.2 and 12.4.3.1). An Add
/// has none if its KeyPackage has no encoding.
///
/// The hash function is that of the KeyPackage's own cipher suite. If this is none of 1 to 7, 0 counts as 3, and a greater
/// number as 7. Encodes and hashes each KeyPackage once. Fails only if an allocation fails.
pub fn added_references(alloc: Global, items: &[ListItem<'_>]) -> Result<Vec<HashValue>, AllocError>
    ensures { IfOk result (λ references. references.items ≡ added_references items.now) }
{
    let mut references = Vec::new(alloc);
    for item in items {
        push_reference(alloc, &mut references, item)?;
    }
    Ok(references)
}
