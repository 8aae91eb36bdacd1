//! The report `validate`: whether a follower starts or resumes, and its state.

ghost use Rattle.std.specs.Prelude.{◌≡◌, ◌≢◌, [], Err, IfOk, OnErr, IfErr};
ghost use Rattle.std.specs.Io.KnownBytes.{Appends};
ghost use Rattle.mls_wire.specs.Devices.{IsWorking, WriteFails};
ghost use Rattle.mls_start.specs.Inputs.{inputs_of};
ghost use Rattle.mls_start.specs.StartFindings.{IsFindingOf};
ghost use Rattle.mls_report.specs.Finding.{ReportsFinding, ReportsFindingPart};

use crate::finding::report_finding;
use mls_check::{OutOfMemory, SignatureCheck};
use mls_show::Verdict;
use mls_start::StartBytes;
use mls_wire::{RunFault, Sink};
use std::alloc::Global;

/// Writes one line. If a follower starts or resumes: the epoch, the number of members and the tree hash, with the verdict
/// `Yes`. Otherwise the first cause, with the verdict `No`:
///
/// - From a GroupInfo: it, or after it the tree, is not decodable, or the message is not a GroupInfo; then the first
///   condition of [`Follower::start_by`](mls_follow::Follower::start_by) that fails.
/// - From the file of a state: the first condition of [`Follower::resume`](mls_follow::Follower::resume) that fails; then
///   why [`Follower::make_strict`](mls_follow::Follower::make_strict) cannot add the strict rules.
///
/// # Errors
///
/// `Write` if the output fails; a prefix of the line may be written. `Memory` comes before anything is written.
pub fn validate<C: SignatureCheck, K: Sink>(
    alloc: Global,
    start: StartBytes,
    checker: C,
    out: &mut K,
) -> Result<Verdict, RunFault>
    requires { IsWorking (K.device out.old) }
    ensures printed { IfOk result (ReportsFinding (IsFindingOf (C.meaning checker) (inputs_of start))
        (K.device out.old).bytes (K.device out.new).bytes) }
    ensures effect_on_error { OnErr result
        (ReportsFindingPart (IsFindingOf (C.meaning checker) (inputs_of start))
        (K.device out.old).bytes (K.device out.new).bytes) }
    ensures memory { result ≡ Err RunFault.Memory
        → Appends (K.device out.old).bytes (K.device out.new).bytes [] }
    ensures write { WriteFails result (K.device out.new) }
    ensures fault { IfErr result (λ e. e ≢ RunFault.Read) }
{
    match start.finding(alloc, checker) {
        Ok(finding) => report_finding(alloc, &finding, out),
        Err(OutOfMemory) => Err(RunFault::Memory),
    }
}
