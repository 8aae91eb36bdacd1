//! The reports `show message`, `show info` and `show key-package`.

ghost use Rattle.std.specs.Prelude.{◌≡◌, ◌≢◌, IfOk, IfErr};
ghost use Rattle.mls_msgs.specs.declared.profile.Profile.TheVariants.{Members};
ghost use Rattle.mls_show.specs.InputReports.{IsUnreadableReport, ShowsMessage};
ghost use Rattle.mls_show.specs.declared.show.ShowKind.TheVariants as kinds;
ghost use Rattle.mls_show.specs.Show.{InfoReport, KeyPackageReport, IsShowReport};

use crate::fault_text::wire_fault_text;
use crate::info_text::info_text;
use crate::key_package_text::key_package_text;
use crate::message_text::message_line;
use crate::report::{Report, unreadable_report};
use crate::verdict::Verdict;
use mls_msgs::{Message, Profile, decode_message, decode_message_in};
use mls_wire::{CodecFault, RunFault};
use std::alloc::{AllocError, Global};

/// Returns the report of bytes that do not decode as a message.
#[tactic(auto, using(crate::proofs::Lines::wire_fault_is_one_line))]
pub(crate) fn no_message_report(alloc: Global, fault: CodecFault) -> Result<Report, RunFault>
    ensures report { IfOk result
        (λ r. (fault ≢ CodecFault.OutOfMemory) × IsUnreadableReport r.bytes.items r.verdict) }
    ensures memory { IfErr result (λ e. e ≡ RunFault.Memory) }
{
    match fault {
        CodecFault::OutOfMemory => Err(RunFault::Memory),
        CodecFault::Wire(fault) => {
            let fault = wire_fault_text(alloc, fault)?;
            Ok(unreadable_report(alloc, fault.as_str())?)
        }
    }
}

/// Returns the report of a message that should be a GroupInfo.
fn read_info_report(alloc: Global, message: &Message) -> Result<Report, AllocError>
    ensures { IfOk result (λ r. InfoReport message.now r.bytes.items r.verdict) }
{
    match message {
        Message::GroupInfo(info) => Ok(Report::of_text(info_text(alloc, info)?, Verdict::Yes)),
        _ => Ok(Report {
            bytes: Vec::from_slice(alloc, b"unreadable NotGroupInfo\n")?,
            verdict: Verdict::No,
        }),
    }
}

/// Returns the report of a GroupInfo's bytes.
pub(crate) fn info_report(alloc: Global, bytes: &[u8]) -> Result<Report, RunFault>
    ensures report { IfOk result
        (λ r. IsShowReport Members kinds.Info bytes.now r.bytes.items r.verdict) }
    ensures memory { IfErr result (λ e. e ≡ RunFault.Memory) }
{
    match decode_message(alloc, bytes) {
        Ok(message) => {
            let report = read_info_report(alloc, &message);
            drop(message);
            Ok(report?)
        }
        Err(fault) => no_message_report(alloc, fault),
    }
}

/// Returns the report of a message's bytes, which are decoded in `profile`.
pub(crate) fn message_report(
    alloc: Global,
    profile: Profile,
    bytes: &[u8],
) -> Result<Report, RunFault>
    ensures report { IfOk result
        (λ r. ShowsMessage profile bytes.now r.bytes.items r.verdict) }
    ensures memory { IfErr result (λ e. e ≡ RunFault.Memory) }
{
    match decode_message_in(alloc, profile, bytes) {
        Ok(message) => {
            let line = message_line(alloc, &message);
            drop(message);
            Ok(Report::of_text(line?, Verdict::Yes))
        }
        Err(fault) => no_message_report(alloc, fault),
    }
}

/// Returns the report of a message that should be a KeyPackage.
fn read_key_package_report(alloc: Global, message: &Message) -> Result<Report, AllocError>
    ensures { IfOk result (λ r. KeyPackageReport message.now r.bytes.items r.verdict) }
{
    match message {
        Message::KeyPackage(key_package) => Ok(Report {
            bytes: key_package_text(alloc, key_package)?,
            verdict: Verdict::Yes,
        }),
        _ => Ok(Report {
            bytes: Vec::from_slice(alloc, b"unreadable NotKeyPackage\n")?,
            verdict: Verdict::No,
        }),
    }
}

/// Returns the report of a KeyPackage's bytes.
pub(crate) fn key_package_report(alloc: Global, bytes: &[u8]) -> Result<Report, RunFault>
    ensures report { IfOk result
        (λ r. IsShowReport Members kinds.KeyPackage bytes.now r.bytes.items r.verdict) }
    ensures memory { IfErr result (λ e. e ≡ RunFault.Memory) }
{
    match decode_message(alloc, bytes) {
        Ok(message) => {
            let report = read_key_package_report(alloc, &message);
            drop(message);
            Ok(report?)
        }
        Err(fault) => no_message_report(alloc, fault),
    }
}
