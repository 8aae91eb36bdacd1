//! The lines of what is found of KeyPackages, for the reports `validate-key-package` and `signatures --key-package`.

ghost use Rattle.std.specs.Prelude.{◌≡◌, ◌≢◌, [], false, Err, IfOk, IfErr, OnErr, OnOk, string_bytes};
ghost use Rattle.std.specs.Io.KnownBytes.{Appends};
ghost use Rattle.mls_wire.specs.Devices.{AppendsPrefix, IsWorking, WriteFails};
ghost use Rattle.mls_examine.specs.PackageFindings.{is_good};
ghost use Rattle.mls_report.specs.PackagesReport as packages;
ghost use Rattle.mls_report.specs.SignaturesReport as lines;

use crate::fault_text::{member_fault_text, start_fault_text};
use crate::finding::with_detail;
use crate::signature_text::signature_line;
use mls_examine::{PackageFacts, PackageFinding, Unfit};
use mls_show::{Verdict, hex_of, wire_fault_text, write_text};
use mls_signatures::SignatureToVerify;
use mls_wire::{RunFault, Sink};
use std::alloc::{AllocError, Global};

/// Returns the words for a good KeyPackage: its KeyPackageRef, its cipher suite, and its lifetime.
fn facts_text(alloc: Global, facts: &PackageFacts) -> Result<String, AllocError>
    ensures { IfOk result (λ text. string_bytes text ≡ packages.facts_text facts.now) }
{
    let reference = hex_of(alloc, facts.reference.as_slice())?;
    let suite = facts.cipher_suite;
    let (first, last) = (facts.lifetime.not_before, facts.lifetime.not_after);
    format!(in alloc; "{reference} {suite} {first} {last}")
}

/// Returns what follows the name of a reason: the fault of a start or of a leaf node, the number of signatures, or the strict rule.
fn detail_text(alloc: Global, reason: &Unfit) -> Result<String, AllocError>
    ensures { IfOk result (λ text. string_bytes text ≡ packages.detail_text reason.now) }
{
    match reason {
        Unfit::StartRefused(fault) => {
            let fault = start_fault_text(alloc, *fault)?;
            format!(in alloc; " {fault}")
        }
        Unfit::Member(fault) => {
            let fault = member_fault_text(alloc, *fault)?;
            format!(in alloc; " {fault}")
        }
        Unfit::Unsigned(signatures) => {
            let count = signatures.as_slice().len();
            format!(in alloc; " {count}")
        }
        Unfit::Strict(rule) => {
            let (number, name) = (rule.number(), rule.name());
            format!(in alloc; " {number} {name}")
        }
        _ => Ok(String::new(alloc)),
    }
}

/// Returns why a KeyPackage is not good: number and name, and then the fault of its leaf node, the number of signatures that
/// are not accepted, or the strict rule that it does not meet, as `82 Member 1 ExtensionUnlisted 0`.
pub fn unfit_text(alloc: Global, reason: &Unfit) -> Result<String, AllocError>
    ensures { IfOk result (λ text. string_bytes text ≡ packages.unfit_text reason.now) }
{
    let (number, name) = (reason.number(), reason.name());
    let detail = detail_text(alloc, reason)?;
    format!(in alloc; "{number} {name}{detail}")
}

/// Returns the words for what is found of a KeyPackage.
pub fn package_text(alloc: Global, finding: &PackageFinding) -> Result<String, AllocError>
    ensures { IfOk result (λ text. string_bytes text ≡ packages.package_text finding.now) }
{
    match finding {
        PackageFinding::Unreadable(fault) => {
            with_detail(alloc, "unreadable", wire_fault_text(alloc, *fault)?)
        }
        PackageFinding::NotKeyPackage => String::from_str(alloc, "unreadable NotKeyPackage"),
        PackageFinding::Unfit(reason) => with_detail(alloc, "unfit", unfit_text(alloc, reason)?),
        PackageFinding::Good(facts) => with_detail(alloc, "good", facts_text(alloc, facts)?),
    }
}

/// Returns the line for what is found of the KeyPackage with this number.
fn package_line(alloc: Global, number: u32, finding: &PackageFinding) -> Result<String, AllocError>
    ensures { IfOk result (λ text. string_bytes text ≡ packages.package_line number finding.now) }
{
    let text = package_text(alloc, finding)?;
    format!(in alloc; "{number} {text}\n")
}

/// Writes the line for what is found of the KeyPackage with this number. Returns whether the KeyPackage is good.
///
/// # Errors
///
/// - `Memory` before anything is written.
/// - `Write` if the output fails; then a prefix of the line may be written.
pub fn report_package<K: Sink>(
    alloc: Global,
    number: u32,
    finding: &PackageFinding,
    out: &mut K,
) -> Result<bool, RunFault>
    requires { IsWorking (K.device out.old) }
    ensures printed { IfOk result
        (λ good. Appends (K.device out.old).bytes (K.device out.new).bytes
        (packages.package_line number finding.now) × (good ≡ is_good finding.now)) }
    ensures effect_on_error { OnErr result
        (AppendsPrefix (K.device out.old).bytes (K.device out.new).bytes
        (packages.package_line number finding.now)) }
    ensures memory { result ≡ Err RunFault.Memory
        → Appends (K.device out.old).bytes (K.device out.new).bytes [] }
    ensures write { WriteFails result (K.device out.new) }
    ensures fault { IfErr result (λ e. e ≢ RunFault.Read) }
{
    let line = package_line(alloc, number, finding)?;
    write_text(out, line.as_str())?;
    Ok(finding.is_good())
}

/// Writes the line of a signature.
fn write_signature<K: Sink>(
    alloc: Global,
    signature: &SignatureToVerify,
    out: &mut K,
) -> Result<(), RunFault>
    requires { IsWorking (K.device out.old) }
    ensures all { OnOk result (Appends (K.device out.old).bytes (K.device out.new).bytes
        (lines.signature_line signature.now)) }
    ensures effect_on_error { OnErr result
        (AppendsPrefix (K.device out.old).bytes (K.device out.new).bytes
        (lines.signature_line signature.now)) }
    ensures write { WriteFails result (K.device out.new) }
    ensures fault { IfErr result (λ e. e ≢ RunFault.Read) }
{
    let line = signature_line(alloc, signature)?;
    write_text(out, line.as_str())
}

/// Writes the lines of signatures, one after the other.
fn write_signatures<K: Sink>(
    alloc: Global,
    signatures: &[SignatureToVerify],
    out: &mut K,
) -> Result<(), RunFault>
    requires { IsWorking (K.device out.old) }
    ensures all { OnOk result (Appends (K.device out.old).bytes (K.device out.new).bytes
        (packages.listed_lines signatures.now)) }
    ensures effect_on_error { OnErr result
        (AppendsPrefix (K.device out.old).bytes (K.device out.new).bytes
        (packages.listed_lines signatures.now)) }
    ensures write { WriteFails result (K.device out.new) }
    ensures fault { IfErr result (λ e. e ≢ RunFault.Read) }
{
    for signature in signatures {
        write_signature(alloc, signature, out)?;
    }
    Ok(())
}

/// Writes the lines of the signatures that are not accepted, if nothing else keeps a KeyPackage from being good.
fn write_unsigned<K: Sink>(alloc: Global, reason: &Unfit, out: &mut K) -> Result<(), RunFault>
    requires { IsWorking (K.device out.old) }
    ensures all { OnOk result (Appends (K.device out.old).bytes (K.device out.new).bytes
        (packages.unsigned_lines reason.now)) }
    ensures effect_on_error { OnErr result
        (AppendsPrefix (K.device out.old).bytes (K.device out.new).bytes
        (packages.unsigned_lines reason.now)) }
    ensures write { WriteFails result (K.device out.new) }
    ensures fault { IfErr result (λ e. e ≢ RunFault.Read) }
{
    match reason {
        Unfit::Unsigned(signatures) => write_signatures(alloc, signatures.as_slice(), out),
        _ => Ok(()),
    }
}

/// Writes the line of a KeyPackage that cannot be read.
fn write_unreadable<K: Sink>(
    alloc: Global,
    number: u32,
    finding: &PackageFinding,
    out: &mut K,
) -> Result<bool, RunFault>
    requires { IsWorking (K.device out.old) }
    ensures printed { IfOk result
        (λ readable. Appends (K.device out.old).bytes (K.device out.new).bytes
        (packages.package_line number finding.now) × (readable ≡ false)) }
    ensures effect_on_error { OnErr result
        (AppendsPrefix (K.device out.old).bytes (K.device out.new).bytes
        (packages.package_line number finding.now)) }
    ensures write { WriteFails result (K.device out.new) }
    ensures fault { IfErr result (λ e. e ≢ RunFault.Read) }
{
    match report_package(alloc, number, finding, out) {
        Ok(_) => Ok(false),
        Err(fault) => Err(fault),
    }
}

/// Writes the signatures to verify of the KeyPackage with this number, if nothing else keeps it from being good: the lines that
/// [`signatures`](crate::signatures) has for them. The signatures are those that the checker of the finding does not accept. If
/// the KeyPackage cannot be read, the line of [`report_package`] is written. Returns whether it can be read.
///
/// # Errors
///
/// - `Memory`: a prefix of the lines may be written.
/// - `Write` if the output fails; then a prefix of the lines may be written.
pub fn report_package_signatures<K: Sink>(
    alloc: Global,
    number: u32,
    finding: &PackageFinding,
    out: &mut K,
) -> Result<bool, RunFault>
    requires { IsWorking (K.device out.old) }
    ensures printed { IfOk result
        (λ readable. Appends (K.device out.old).bytes (K.device out.new).bytes
        (packages.package_signature_lines number finding.now)
        × (readable ≡ packages.is_readable finding.now)) }
    ensures effect_on_error { OnErr result
        (AppendsPrefix (K.device out.old).bytes (K.device out.new).bytes
        (packages.package_signature_lines number finding.now)) }
    ensures write { WriteFails result (K.device out.new) }
    ensures fault { IfErr result (λ e. e ≢ RunFault.Read) }
{
    match finding {
        PackageFinding::Unreadable(_) => write_unreadable(alloc, number, finding, out),
        PackageFinding::NotKeyPackage => write_unreadable(alloc, number, finding, out),
        PackageFinding::Unfit(reason) => match write_unsigned(alloc, reason, out) {
            Ok(()) => Ok(true),
            Err(fault) => Err(fault),
        },
        PackageFinding::Good(_) => Ok(true),
    }
}

/// Returns the line for how many of the KeyPackages are good.
fn count_line(alloc: Global, good: u32, all: u32) -> Result<String, AllocError>
    ensures { IfOk result (λ text. string_bytes text ≡ packages.count_line good all) }
{
    format!(in alloc; "good {good} of {all}\n")
}

/// Writes the line for how many of the KeyPackages are good. The verdict is `Yes` if all are.
///
/// # Errors
///
/// - `Memory` before anything is written.
/// - `Write` if the output fails; then a prefix of the line may be written.
pub fn report_package_count<K: Sink>(
    alloc: Global,
    good: u32,
    all: u32,
    out: &mut K,
) -> Result<Verdict, RunFault>
    requires { IsWorking (K.device out.old) }
    ensures printed { IfOk result
        (λ verdict. Appends (K.device out.old).bytes (K.device out.new).bytes
        (packages.count_line good all) × (verdict ≡ packages.count_verdict good all)) }
    ensures effect_on_error { OnErr result
        (AppendsPrefix (K.device out.old).bytes (K.device out.new).bytes
        (packages.count_line good all)) }
    ensures memory { result ≡ Err RunFault.Memory
        → Appends (K.device out.old).bytes (K.device out.new).bytes [] }
    ensures write { WriteFails result (K.device out.new) }
    ensures fault { IfErr result (λ e. e ≢ RunFault.Read) }
{
    let line = count_line(alloc, good, all)?;
    write_text(out, line.as_str())?;
    if good == all {
        Ok(Verdict::Yes)
    } else {
        Ok(Verdict::No)
    }
}
