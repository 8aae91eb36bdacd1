//! The report `signatures`: the signatures that the rules may check, for whoever verifies them.

ghost use Rattle.std.specs.Prelude.{◌≡◌, ◌↔◌, false, true, Err, IfOk, IfErr, option_map};
ghost use Rattle.mls_wire.specs.Devices.{IsWorking, WriteFails};
ghost use Rattle.mls_follow.specs.FollowerModel.{state_of};
ghost use Rattle.mls_start.specs.Inputs.{Inputs, inputs_of};
ghost use Rattle.mls_start.specs.StartSignatures.{StartsWith};
ghost use Rattle.mls_start.specs.SignaturesLeft.{signatures_left};
ghost use Rattle.mls_report.specs.SignaturesReport.{device_bytes, has_failed, LogPartIf, ReportsLogIf, Signatures, SignaturesPart};

use crate::finding::report_finding;
use crate::signature_lines::write_signature_lines;
use crate::signature_log::write_signature_log;
use mls_check::{SignatureCheck, Trusting};
use mls_follow::Follower;
use mls_show::Verdict;
use mls_start::{StartBytes, StartFailure, TrustingStart};
use mls_wire::{RunFault, Sink, Source};
use std::alloc::Global;

/// Writes the lines of a log, if there is one.
fn report_log<L: Source, R: SignatureCheck, K: Sink>(
    alloc: Global,
    follower: &mut Follower<Trusting>,
    log: &mut Option<L>,
    receipts: &R,
    out: &mut K,
) -> Result<Verdict, RunFault>
    requires log { has_failed (option_map (λ l. (L.device l).has_failed) log.old) ≡ false }
    requires out { IsWorking (K.device out.old) }
    ensures printed { IfOk result (ReportsLogIf (R.meaning receipts.now) (state_of follower.old)
        (device_bytes L.device log.old) (device_bytes L.device log.new)
        (K.device out.old).bytes (K.device out.new).bytes) }
    ensures effect_on_error { IfErr result (LogPartIf (R.meaning receipts.now) (state_of follower.old)
        (device_bytes L.device log.old) (device_bytes L.device log.new)
        (K.device out.old).bytes (K.device out.new).bytes) }
    ensures read { (result ≡ Err RunFault.Read)
        ↔ (has_failed (option_map (λ l. (L.device l).has_failed) log.new) ≡ true) }
    ensures write { WriteFails result (K.device out.new) }
{
    match log {
        Some(log) => write_signature_log(alloc, follower, log, receipts, out),
        None => Ok(Verdict::Yes),
    }
}

/// Writes the lines of a start or a resumption, and then those of the log, if there is one.
fn report_started<L: Source, R: SignatureCheck, K: Sink>(
    alloc: Global,
    start: TrustingStart,
    log: &mut Option<L>,
    receipts: &R,
    out: &mut K,
) -> Result<Verdict, RunFault>
    requires log { has_failed (option_map (λ l. (L.device l).has_failed) log.old) ≡ false }
    requires out { IsWorking (K.device out.old) }
    ensures printed { (i : Inputs)
        → StartsWith i (state_of start.follower) (signatures_left (state_of start.follower) start.signatures)
        → IfOk result (Signatures (R.meaning receipts.now) i
        (device_bytes L.device log.old) (device_bytes L.device log.new)
        (K.device out.old).bytes (K.device out.new).bytes) }
    ensures effect_on_error { (i : Inputs)
        → StartsWith i (state_of start.follower) (signatures_left (state_of start.follower) start.signatures)
        → IfErr result (SignaturesPart (R.meaning receipts.now) i
        (device_bytes L.device log.old) (device_bytes L.device log.new)
        (K.device out.old).bytes (K.device out.new).bytes) }
    ensures read { (result ≡ Err RunFault.Read)
        ↔ (has_failed (option_map (λ l. (L.device l).has_failed) log.new) ≡ true) }
    ensures write { WriteFails result (K.device out.new) }
{
    let mut follower = start.follower;
    let mut left = start.signatures;
    let written = write_signature_lines(alloc, &mut left, &follower, receipts, out);
    drop(left);
    if let Err(fault) = written {
        drop(follower);
        return Err(fault);
    }
    let verdict = report_log(alloc, &mut follower, log, receipts, out);
    drop(follower);
    verdict
}

/// Writes the signatures to verify that `receipts` don't cover, each in a line: its receipt, which is its line in a
/// file of receipts if it is good, the suite, the key, the SignContent (RFC 9420, 5.1.2) and the signature. If no
/// follower starts or resumes with the strict rules although every signature is accepted, it writes the line of
/// [`validate`](crate::validate) instead; the verdict is `No` and the log is not read.
///
/// First come the signatures of the start ([`mls_signatures::start_signatures`]) or of the resumption
/// ([`mls_signatures::resumption_signatures`]). Strict rules require no signature. A signature is made only after the line
/// of the one before is written.
///
/// Then it reads the log, if there is one: at most 1,000,000 records, each a message as a variable-length vector
/// (2.1.2). It reads a record, processes the message accepting every signature, writes the lines of the signatures that
/// the message needed ([`Follower::signatures_to_verify`]), each before it makes the next signature, and only then
/// reads on. A message that is not decodable needs no signature; it has the line of [`replay`](crate::replay), and so
/// has a broken log. The verdict is `Yes` if each message is decodable and the log is not broken.
///
/// # Errors
///
/// - `Read` if the log fails: exactly the messages that were read whole have their lines.
/// - `Write` if the output fails: nothing was read after the message in whose lines it failed.
/// - `Memory`: the lines of the signatures before are written whole: those of the start, or of the messages and of the
///   last message.
pub fn signatures<L: Source, R: SignatureCheck, K: Sink>(
    alloc: Global,
    start: StartBytes,
    log: &mut Option<L>,
    receipts: &R,
    out: &mut K,
) -> Result<Verdict, RunFault>
    requires log { has_failed (option_map (λ l. (L.device l).has_failed) log.old) ≡ false }
    requires out { IsWorking (K.device out.old) }
    ensures printed { IfOk result (Signatures (R.meaning receipts.now) (inputs_of start)
        (device_bytes L.device log.old) (device_bytes L.device log.new)
        (K.device out.old).bytes (K.device out.new).bytes) }
    ensures effect_on_error { IfErr result (SignaturesPart (R.meaning receipts.now) (inputs_of start)
        (device_bytes L.device log.old) (device_bytes L.device log.new)
        (K.device out.old).bytes (K.device out.new).bytes) }
    ensures read { (result ≡ Err RunFault.Read)
        ↔ (has_failed (option_map (λ l. (L.device l).has_failed) log.new) ≡ true) }
    ensures write { WriteFails result (K.device out.new) }
{
    match start.trusting(alloc) {
        Ok(start) => report_started(alloc, start, log, receipts, out),
        Err(StartFailure::Found(finding)) => report_finding(alloc, &finding, out),
        Err(StartFailure::OutOfMemory) => Err(RunFault::Memory),
    }
}
