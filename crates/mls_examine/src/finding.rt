//! What is found of the bytes of a KeyPackage by itself.

ghost use Rattle.std.specs.Prelude.{◌≡◌, List, ℕ, IfOk};
ghost use Rattle.mls_examine.specs.PackageFindings.{IsPackage, IsPackageFinding, is_good};

use crate::package_check::{PackageFacts, check_package};
use crate::unfit::Unfit;
use mls_check::{OutOfMemory, SignatureCheck};
use mls_msgs::{KeyPackage, Message, Rules, decode_message};
use mls_wire::{CodecFault, WireFault};
use std::alloc::Global;

/// The finding about the bytes of a KeyPackage: the first that applies.
#[derive(Debug, Drop)]
pub enum PackageFinding {
    /// The bytes are no message.
    Unreadable(WireFault),
    /// The message is not a KeyPackage.
    NotKeyPackage,
    /// The KeyPackage is not good by itself. The reason is never `OutOfMemory`.
    Unfit(Unfit),
    /// The KeyPackage is good by itself.
    Good(PackageFacts),
}

impl PackageFinding {
    /// Returns whether the KeyPackage is good by itself.
    pub fn is_good(&self) -> bool
        ensures { result ≡ is_good self.now }
    {
        matches!(self, PackageFinding::Good(_))
    }
}

/// Returns the finding for a decoded KeyPackage.
fn finding_of<C: SignatureCheck>(
    alloc: Global,
    rules: Rules,
    key_package: &KeyPackage,
    checker: &C,
) -> Result<PackageFinding, OutOfMemory>
    ensures { (bytes : List ℕ) → IsPackage bytes key_package.now
        → IfOk result (IsPackageFinding rules (C.meaning checker.now) bytes) }
{
    match check_package(alloc, key_package, rules, checker) {
        Ok(facts) => Ok(PackageFinding::Good(facts)),
        Err(Unfit::OutOfMemory) => Err(OutOfMemory),
        Err(reason) => Ok(PackageFinding::Unfit(reason)),
    }
}

/// Returns the finding for the bytes of a message with a KeyPackage (RFC 9420, 6 and 10), the first that applies:
///
/// 1. The bytes are not decodable. They are decoded in the members' profile, since a KeyPackage has no proposals.
/// 2. The message is not a KeyPackage.
/// 3. The KeyPackage is not good by itself, or does not meet one of these strict rules: the first reason
///    ([`check_package`]).
/// 4. The KeyPackage is good by itself.
///
/// # Errors
///
/// [`OutOfMemory`].
pub fn package_finding<C: SignatureCheck>(
    alloc: Global,
    rules: Rules,
    bytes: &[u8],
    checker: &C,
) -> Result<PackageFinding, OutOfMemory>
    ensures { IfOk result (IsPackageFinding rules (C.meaning checker.now) bytes.now) }
{
    match decode_message(alloc, bytes) {
        Ok(Message::KeyPackage(key_package)) => {
            let finding = finding_of(alloc, rules, &key_package, checker);
            drop(key_package);
            finding
        }
        Ok(other) => {
            drop(other);
            Ok(PackageFinding::NotKeyPackage)
        }
        Err(CodecFault::OutOfMemory) => Err(OutOfMemory),
        Err(CodecFault::Wire(fault)) => Ok(PackageFinding::Unreadable(fault)),
    }
}
