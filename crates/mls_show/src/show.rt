//! The report `show`: the content of an input as text.

ghost use Rattle.std.specs.Prelude.{◌≡◌, ◌≢◌, IfOk, IfErr};
ghost use Rattle.mls_wire.specs.Devices.{IsWorking, ReadFails, WriteFails};
ghost use Rattle.mls_msgs.specs.declared.profile.Profile.TheVariants.{Members};
ghost use Rattle.mls_show.specs.Show.{IsShowReport, Shows, ShowsPart, StopsShowing};
ghost use Rattle.mls_show.specs.OneInputReport.{WritesReport};

use crate::log_report::show_log;
use crate::members_report::members_report;
use crate::message_report::{info_report, key_package_report, message_report};
use crate::read_to_end::read_all;
use crate::report::Report;
use crate::state_report::state_report;
use crate::tree_report::tree_report;
use crate::verdict::Verdict;
use crate::write::write_bytes;
use mls_msgs::Profile;
use mls_wire::{RunFault, Sink, Source};
use std::alloc::Global;

/// What an input is shown as.
#[derive(Clone, Copy, Debug, PartialEq, Eq)]
pub enum ShowKind {
    /// A ratchet tree (RFC 9420, 12.4.3.3).
    Tree,
    /// A GroupInfo (RFC 9420, 12.4.3) as an MLSMessage.
    Info,
    /// An MLSMessage (RFC 9420, 6).
    Message,
    /// A KeyPackage (RFC 9420, 10) as an MLSMessage.
    KeyPackage,
    /// The members of a ratchet tree, of the ratchet tree in a GroupInfo, or of a stored state.
    Members,
    /// The file of a stored state.
    State,
    /// A log of MLSMessages, each a record.
    Log,
}

/// Returns the report of the bytes of an input that is read whole. A message is decoded in `profile`.
fn show_report(
    alloc: Global,
    profile: Profile,
    kind: ShowKind,
    bytes: Vec<u8>,
) -> Result<Report, RunFault>
    requires { kind ≢ ShowKind.Log }
    ensures report { IfOk result
        (λ r. IsShowReport profile kind bytes.items r.bytes.items r.verdict) }
    ensures memory { IfErr result (λ e. e ≡ RunFault.Memory) }
{
    match kind {
        ShowKind::Tree => tree_report(alloc, bytes),
        ShowKind::Info => info_report(alloc, bytes.as_slice()),
        ShowKind::Message => message_report(alloc, profile, bytes.as_slice()),
        ShowKind::KeyPackage => key_package_report(alloc, bytes.as_slice()),
        ShowKind::Members => members_report(alloc, bytes),
        ShowKind::State => state_report(alloc, bytes),
        ShowKind::Log => unreachable!(),
    }
}

/// Reads an input whole and writes its report. A message is decoded in `profile`.
fn show_whole<S: Source, K: Sink>(
    alloc: Global,
    profile: Profile,
    kind: ShowKind,
    input: &mut S,
    out: &mut K,
) -> Result<Verdict, RunFault>
    requires kind { kind ≢ ShowKind.Log }
    requires input { IsWorking (S.device input.old) }
    requires out { IsWorking (K.device out.old) }
    ensures shown { IfOk result
        (WritesReport (IsShowReport profile kind) (S.device input.old).bytes (S.device input.new).bytes
        (K.device out.old).bytes (K.device out.new).bytes) }
    ensures effect_on_error { IfErr result
        (StopsShowing profile kind (S.device input.old).bytes (S.device input.new).bytes
        (K.device out.old).bytes (K.device out.new).bytes) }
    ensures read { ReadFails result (S.device input.new) }
    ensures write { WriteFails result (K.device out.new) }
{
    let bytes = read_all(alloc, input)?;
    let report = show_report(alloc, profile, kind, bytes)?;
    write_bytes(out, report.bytes.as_slice())?;
    Ok(report.verdict)
}

/// Reads the input and writes its content. The verdict is `Yes`.
///
/// A tree has a line for each node of the full tree, and one with the numbers of leaves and members. A GroupInfo has
/// nine lines, a message one, a KeyPackage ten. Members have a line each, and one with the numbers of leaves and members.
/// They are those of what the input begins as: a GroupInfo with a ratchet tree, the file of a state, or else a ratchet tree.
/// A state has a line for each field, pending proposal and KeyPackageRef. If the input is not decodable as this kind, or
/// longer than [`mls_wire::MAX_INPUT`], the report is one line that begins with `unreadable`, and the verdict is `No`.
///
/// A log has a line for each record, with the report on its message, and a last one. It is read record by record, and the
/// line of each is written before the next is read. The verdict is `No` if a message is not decodable or the log is broken.
///
/// A message is decoded in `profile`, also that of a log; a GroupInfo and a KeyPackage in the members' profile.
///
/// # Errors
///
/// - `Read` if the input fails. Nothing is written, or of a log the lines of the records that were read whole.
/// - `Write` if the output fails; a prefix of the report may be written.
/// - `Memory`. Nothing is written, or of a log the lines of the records before.
pub fn run_show_in<S: Source, K: Sink>(
    alloc: Global,
    profile: Profile,
    kind: ShowKind,
    input: &mut S,
    out: &mut K,
) -> Result<Verdict, RunFault>
    requires input { IsWorking (S.device input.old) }
    requires out { IsWorking (K.device out.old) }
    ensures shown { IfOk result
        (Shows profile kind (S.device input.old).bytes (S.device input.new).bytes
        (K.device out.old).bytes (K.device out.new).bytes) }
    ensures effect_on_error { IfErr result
        (ShowsPart profile kind (S.device input.old).bytes (S.device input.new).bytes
        (K.device out.old).bytes (K.device out.new).bytes) }
    ensures read { ReadFails result (S.device input.new) }
    ensures write { WriteFails result (K.device out.new) }
{
    match kind {
        ShowKind::Log => show_log(alloc, profile, input, out),
        _ => show_whole(alloc, profile, kind, input, out),
    }
}

/// Writes the report of [`run_show_in`] for the members' profile.
pub fn run_show<S: Source, K: Sink>(
    alloc: Global,
    kind: ShowKind,
    input: &mut S,
    out: &mut K,
) -> Result<Verdict, RunFault>
    requires input { IsWorking (S.device input.old) }
    requires out { IsWorking (K.device out.old) }
    ensures shown { IfOk result
        (Shows Members kind (S.device input.old).bytes (S.device input.new).bytes
        (K.device out.old).bytes (K.device out.new).bytes) }
    ensures effect_on_error { IfErr result
        (ShowsPart Members kind (S.device input.old).bytes (S.device input.new).bytes
        (K.device out.old).bytes (K.device out.new).bytes) }
    ensures read { ReadFails result (S.device input.new) }
    ensures write { WriteFails result (K.device out.new) }
{
    run_show_in(alloc, Profile::Members, kind, input, out)
}
