//! The report of the gate.

ghost use Rattle.std.specs.Prelude.{IfOk, IfErr};
ghost use Rattle.mls_wire.specs.Devices.{IsWorking, ReadFails, WriteFails};
ghost use Rattle.mls_follow.specs.CoveredLogs.{all_good};
ghost use Rattle.mls_follow.specs.State.{State};
ghost use Rattle.mls_start.specs.Inputs.{inputs_of};
ghost use Rattle.mls_start.specs.StartFindings.{IsFirstState};
ghost use Rattle.mls_gate.specs.GateReport.{Gates, GatesPart, ReportsRecords, RecordsPart};
ghost use Rattle.mls_gate.specs.GateSteps.{phase_of, CanOpen, FromOpening, IsReady, Answered, AnswersIn, StopsAnswering};
ghost use Rattle.mls_gate.specs.Phases.{Opening};

use crate::phase::{BROKEN, GatePhase};
use crate::signature_lines::write_query;
use mls_check::LearningCheck;
use mls_report::{RecordStep, next_record, report_finding};
use mls_show::{Verdict, write_text};
use mls_start::{Judge, StartBytes, StartFailure, TrustingStart};
use mls_wire::{Records, RunFault, Sink, Source};
use std::alloc::Global;

/// Answers a record, and writes its lines. Returns whether they end the gate.
fn answer_record<C: LearningCheck, K: Sink>(
    alloc: Global,
    phase: &mut GatePhase<C>,
    body: &[u8],
    out: &mut K,
) -> Result<bool, RunFault>
    requires ready { IsReady (phase_of C.meaning phase.old) }
    requires out { IsWorking (K.device out.old) }
    ensures printed { IfOk result (Answered (AnswersIn (phase_of C.meaning phase.old) body.now)
        (phase_of C.meaning phase.new) (K.device out.old).bytes (K.device out.new).bytes) }
    ensures effect_on_error { IfErr result (StopsAnswering (AnswersIn (phase_of C.meaning phase.old) body.now)
        (phase_of C.meaning phase.new) (K.device out.old).bytes (K.device out.new).bytes) }
    ensures write { WriteFails result (K.device out.new) }
{
    let answer = phase.answer(alloc, body, out)?;
    write_text(out, answer.text())?;
    Ok(answer.is_last())
}

/// Answers the records, and writes the lines of each before the next is read. No follower has started.
fn answer_records<R: Source, C: LearningCheck, K: Sink>(
    alloc: Global,
    phase: &mut GatePhase<C>,
    records: &mut R,
    out: &mut K,
) -> Result<Verdict, RunFault>
    requires opening { CanOpen (phase_of C.meaning phase.old) }
    requires records { IsWorking (R.device records.old) }
    requires out { IsWorking (K.device out.old) }
    ensures printed { IfOk result (λ verdict. FromOpening (phase_of C.meaning phase.old) (λ p. ReportsRecords p
        (R.device records.old).bytes (R.device records.new).bytes (K.device out.old).bytes (K.device out.new).bytes verdict)) }
    ensures effect_on_error { IfErr result (λ fault. FromOpening (phase_of C.meaning phase.old) (λ p. RecordsPart p
        (R.device records.old).bytes (R.device records.new).bytes (K.device out.old).bytes (K.device out.new).bytes fault)) }
    ensures read { ReadFails result (R.device records.new) }
    ensures write { WriteFails result (K.device out.new) }
{
    let mut reader = Records::new(alloc, u32::MAX);
    'records: loop {
        match next_record(&mut reader, records)? {
            RecordStep::Record => {
                if answer_record(alloc, phase, reader.body(), out)? {
                    return Ok(Verdict::No);
                }
            }
            RecordStep::End { is_broken: false } => return Ok(phase.end_verdict()),
            RecordStep::End { is_broken: true } => {
                write_text(out, BROKEN)?;
                return Ok(Verdict::No);
            }
        }
    }
}

/// Answers the records of a gate whose follower has not started, and writes the lines of each before the next is read.
fn serve<R: Source, C: LearningCheck, K: Sink>(
    alloc: Global,
    start: StartBytes,
    records: &mut R,
    judge: Judge<C>,
    out: &mut K,
) -> Result<Verdict, RunFault>
    requires ready { (s : State) × IsFirstState all_good (inputs_of start) s }
    requires records { IsWorking (R.device records.old) }
    requires out { IsWorking (K.device out.old) }
    ensures printed { IfOk result (ReportsRecords (Opening (inputs_of start) judge.time (C.meaning judge.checker))
        (R.device records.old).bytes (R.device records.new).bytes (K.device out.old).bytes (K.device out.new).bytes) }
    ensures effect_on_error { IfErr result (RecordsPart (Opening (inputs_of start) judge.time (C.meaning judge.checker))
        (R.device records.old).bytes (R.device records.new).bytes (K.device out.old).bytes (K.device out.new).bytes) }
    ensures read { ReadFails result (R.device records.new) }
    ensures write { WriteFails result (K.device out.new) }
{
    let mut phase = GatePhase::Opening { start, judge };
    answer_records(alloc, &mut phase, records, out)
}

/// Follows one group over records. If no follower starts or resumes from `start` with the strict rules though each signature
/// is good, it writes the line of the finding ([`mls_report::report_finding`]); the verdict is `No` and no record is read.
///
/// Else it writes a line for each signature of the start or of the resumption ([`StartBytes::trusting`]) that the checker
/// does not accept, and one with their number. It makes a signature only after the line of the one before is written.
///
/// Then it reads records, at most 4,294,967,295, each a variable-length vector (RFC 9420, 2.1.2) of a letter and what
/// belongs to it, and answers each before it reads on:
///
/// - `r` and receipts of 32 bytes each: these signatures are good. No line.
/// - `b`: the follower starts, or resumes and adds the strict rules ([`StartBytes::follower`]), by the signatures that it
///   has learnt to be good by then. The line has the epoch, the number of members and the tree hash; or it is that of the
///   finding, and the gate ends with `No`.
/// - `q` and a message: a line for each signature of the message that is not known to be good
///   ([`mls_follow::Follower::signatures_to_verify`]), and one with their number. Each line is written before the next
///   signature is made. The signatures of the pending proposals, which are known to be good, are not made
///   ([`mls_follow::Follower::fresh_signatures`]).
/// - `m` and a message: the message is processed ([`mls_follow::Follower::take_at`]). The line says that it was accepted
///   and what it led to, with `ended` if the group is over (11.2); or the number and the name of the refusal.
/// - `t` and a time, eight bytes, the first the highest: from now on messages are judged at this time, in seconds since 1970,
///   until then at that of `judge`. No line.
/// - `s`: the line has the file of the follower's state ([`mls_follow::Follower::encode_state`]), or is `state TooLong` if
///   the state has no file. The state is unchanged.
///
/// Before `b` only `r`, `t` and `b` have an answer, and after it all but `b`. Every other record, and bytes that are no
/// record, have the line `broken`, and the gate ends with `No`. If the input ends between two records, the verdict is
/// `Yes` after `b` and `No` before it.
///
/// # Errors
///
/// - `Read` if the input of the records fails: exactly the records that were read whole are answered.
/// - `Write` if the output fails: nothing was read after the record in whose answer it failed.
/// - `Memory`: the lines of the signatures of the start before are written whole; or each record that was read is
///   answered, except the one at which memory ran out. If that is a query, the lines of the signatures before are written
///   whole.
pub fn gate<R: Source, C: LearningCheck, K: Sink>(
    alloc: Global,
    start: StartBytes,
    records: &mut R,
    judge: Judge<C>,
    out: &mut K,
) -> Result<Verdict, RunFault>
    requires records { IsWorking (R.device records.old) }
    requires out { IsWorking (K.device out.old) }
    ensures printed { IfOk result (Gates judge.time (C.meaning judge.checker) (inputs_of start)
        (R.device records.old).bytes (R.device records.new).bytes (K.device out.old).bytes (K.device out.new).bytes) }
    ensures effect_on_error { IfErr result (GatesPart judge.time (C.meaning judge.checker) (inputs_of start)
        (R.device records.old).bytes (R.device records.new).bytes (K.device out.old).bytes (K.device out.new).bytes) }
    ensures read { ReadFails result (R.device records.new) }
    ensures write { WriteFails result (K.device out.new) }
{
    match start.try_clone(alloc)?.trusting(alloc) {
        Ok(
            TrustingStart {
                follower,
                signatures,
            },
        ) => {
            let written = write_query(alloc, signatures, &follower, &judge.checker, out);
            drop(follower);
            written?;
            serve(alloc, start, records, judge, out)
        }
        Err(StartFailure::Found(finding)) => report_finding(alloc, &finding, out),
        Err(StartFailure::OutOfMemory) => Err(RunFault::Memory),
    }
}
