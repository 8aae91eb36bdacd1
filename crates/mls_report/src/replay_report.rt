//! The report `replay`: what a follower answers to each message of a log.

ghost use Rattle.std.specs.Prelude.{◌≡◌, ◌+◌, ◌≤◌, IfOk, IfErr, IfSome, option_map};
ghost use Rattle.mls_wire.specs.Devices.{IsWorking, ReadFails, WriteFails};
ghost use Rattle.mls_follow.specs.FollowerModel.{checker_of, state_of};
ghost use Rattle.mls_start.specs.Inputs.{inputs_of};
ghost use Rattle.mls_report.specs.Replay.{message_limit, one_if, IsVerdict, ReportsPart, Replays, ReplaysPart};
ghost use Rattle.mls_report.specs.ReplaySteps.{ReportsMessage, StopsAtMessage, FollowsLog, ReplaysLog};

use crate::answering::answer_to;
use crate::finding::report_finding;
use crate::log_records::{RecordStep, next_record};
use crate::replay_text::{last_lines, processed_line};
use mls_check::SignatureCheck;
use mls_follow::Follower;
use mls_show::{Verdict, write_text};
use mls_start::{Judge, StartBytes, StartFailure};
use mls_wire::{Records, RunFault, Sink, Source};
use std::alloc::Global;

/// The most messages that a log may have.
pub(crate) const MESSAGE_LIMIT: u32 = 1_000_000;

/// A message of a log: its number, the time at which it is judged, if one is passed, and its bytes.
#[derive(Clone, Copy)]
struct NumberedMessage<'a> {
    number: u32,
    time: Option<u64>,
    body: &'a [u8],
}

/// How far a replay is: the numbers of accepted and of refused messages. It has the time at which messages are judged.
#[derive(Clone, Copy)]
struct Progress {
    time: Option<u64>,
    accepted: u32,
    refused: u32,
}

impl Progress {
    /// Counts a message.
    fn count(&mut self, is_accepted: bool)
        requires { self.old.accepted + self.old.refused ≤ message_limit }
        ensures time { self.new.time ≡ self.old.time }
        ensures accepted { self.new.accepted ≡ self.old.accepted + one_if is_accepted }
        ensures all { self.new.accepted + self.new.refused
            ≡ self.old.accepted + self.old.refused + 1 }
    {
        if is_accepted {
            self.accepted += 1;
        } else {
            self.refused += 1;
        }
    }
}

/// Processes a message and writes its line. Returns whether the message was accepted.
fn write_message_line<K: Sink, C: SignatureCheck>(
    alloc: Global,
    message: &NumberedMessage<'_>,
    follower: &mut Follower<C>,
    out: &mut K,
) -> Result<bool, RunFault>
    requires { IsWorking (K.device out.old) }
    ensures printed { IfOk result
        (ReportsMessage message.now.time (C.meaning (checker_of follower.old)) (state_of follower.old)
        message.now.number message.now.body.now
        (state_of follower.new) (K.device out.old).bytes (K.device out.new).bytes) }
    ensures effect_on_error { IfErr result
        (StopsAtMessage message.now.time (C.meaning (checker_of follower.old)) (state_of follower.old)
        message.now.number message.now.body.now
        (K.device out.old).bytes (K.device out.new).bytes) }
    ensures write { WriteFails result (K.device out.new) }
    ensures checker { C.meaning (checker_of follower.new)
        ≡ C.meaning (checker_of follower.old) }
{
    let Ok(answer) = answer_to(follower, message.time, message.body) else {
        return Err(RunFault::Memory);
    };
    let line = processed_line(alloc, message.number, &answer, follower)?;
    write_text(out, line.as_str())?;
    Ok(answer.is_ok())
}

/// Processes the messages of a log, and writes the line of each before the next is read. Returns whether the log is
/// broken.
fn follow_log<L: Source, K: Sink, C: SignatureCheck>(
    alloc: Global,
    follower: &mut Follower<C>,
    log: &mut L,
    progress: &mut Progress,
    out: &mut K,
) -> Result<bool, RunFault>
    requires log { IsWorking (L.device log.old) }
    requires out { IsWorking (K.device out.old) }
    requires none { (progress.old.accepted ≡ 0) × (progress.old.refused ≡ 0) }
    ensures followed { IfOk result
        (FollowsLog progress.old.time (C.meaning (checker_of follower.old)) (state_of follower.old)
        (L.device log.old).bytes (L.device log.new).bytes (K.device out.old).bytes (K.device out.new).bytes
        (state_of follower.new) progress.new.accepted progress.new.refused) }
    ensures effect_on_error { IfErr result
        (ReportsPart progress.old.time (C.meaning (checker_of follower.old)) (state_of follower.old)
        (L.device log.old).bytes (L.device log.new).bytes (K.device out.old).bytes (K.device out.new).bytes) }
    ensures checker { C.meaning (checker_of follower.new)
        ≡ C.meaning (checker_of follower.old) }
    ensures read { ReadFails result (L.device log.new) }
    ensures write { WriteFails result (K.device out.new) }
{
    let mut reader = Records::new(alloc, MESSAGE_LIMIT);
    let mut number = 1;
    'messages: loop {
        match next_record(&mut reader, log)? {
            RecordStep::Record => {
                let message = NumberedMessage {
                    number,
                    time: progress.time,
                    body: reader.body(),
                };
                let is_accepted = write_message_line(alloc, &message, follower, out)?;
                progress.count(is_accepted);
                number += 1;
            }
            RecordStep::End { is_broken } => return Ok(is_broken),
        }
    }
}

/// Returns the verdict of a replay.
fn verdict_of(is_broken: bool, refused: u32) -> Verdict
    ensures { IsVerdict is_broken refused result }
{
    if is_broken {
        return Verdict::No;
    }
    if refused == 0 {
        Verdict::Yes
    } else {
        Verdict::No
    }
}

/// Writes the report of a log, from its first record on.
fn write_log_report<L: Source, K: Sink, C: SignatureCheck>(
    alloc: Global,
    time: Option<u64>,
    follower: &mut Follower<C>,
    log: &mut L,
    out: &mut K,
) -> Result<Verdict, RunFault>
    requires log { IsWorking (L.device log.old) }
    requires out { IsWorking (K.device out.old) }
    ensures printed { IfOk result (λ verdict.
        ReplaysLog time (C.meaning (checker_of follower.old)) (state_of follower.old)
        (L.device log.old).bytes (L.device log.new).bytes (K.device out.old).bytes (K.device out.new).bytes
        verdict (state_of follower.new)) }
    ensures effect_on_error { IfErr result
        (ReportsPart time (C.meaning (checker_of follower.old)) (state_of follower.old)
        (L.device log.old).bytes (L.device log.new).bytes (K.device out.old).bytes (K.device out.new).bytes) }
    ensures checker { C.meaning (checker_of follower.new)
        ≡ C.meaning (checker_of follower.old) }
    ensures read { ReadFails result (L.device log.new) }
    ensures write { WriteFails result (K.device out.new) }
{
    let mut progress = Progress {
        time,
        accepted: 0,
        refused: 0,
    };
    let is_broken = follow_log(alloc, follower, log, &mut progress, out)?;
    let (accepted, refused) = (progress.accepted, progress.refused);
    let epoch = follower.context().epoch;
    let text = last_lines(alloc, is_broken, accepted, refused, epoch)?;
    write_text(out, text.as_str())?;
    Ok(verdict_of(is_broken, refused))
}

/// A replay whose report was written whole.
#[derive(Drop)]
pub struct Replayed<C: SignatureCheck> {
    /// The verdict.
    pub verdict: Verdict,
    /// The follower after the last whole message of the log; `None` if none has started or resumed.
    pub follower: Option<Follower<C>>,
}

/// Starts a follower from the inputs ([`Follower::start_by`]), or resumes one ([`Follower::resume`]) and adds the strict
/// rules to those of its state ([`Follower::make_strict`]). If none starts or resumes, or the rules cannot be added, it
/// writes the line of [`validate`](crate::validate); the verdict is `No` and the log is not read.
///
/// Otherwise it reads the log: at most 1,000,000 records, each a message as a variable-length vector (RFC 9420, 2.1.2).
/// It reads a record, processes the message at the time of `judge` ([`Follower::take_at`]), writes its line, and only then
/// reads on. Message n is one of:
///
/// - accepted as a proposal: the line has its reference;
/// - accepted as a commit: the line has the new epoch, tree hash and confirmed transcript hash, and `ended` if the group
///   is over (11.2);
/// - refused: the line has the number of the refusal;
/// - no complete record: the log is broken.
///
/// The last lines are the numbers of accepted, refused and broken messages, and the epoch. The verdict is `Yes` if no
/// message was refused or broken. The follower that is returned has processed each whole message.
///
/// # Errors
///
/// - `Read` if the log fails: exactly the messages that were read whole have their lines.
/// - `Write` if the output fails: nothing was read after the message in whose line it failed.
/// - `Memory`: each message that was read has its line, except the one at which memory ran out.
pub fn replay<L: Source, C: SignatureCheck, K: Sink>(
    alloc: Global,
    start: StartBytes,
    log: &mut L,
    judge: Judge<C>,
    out: &mut K,
) -> Result<Replayed<C>, RunFault>
    requires log { IsWorking (L.device log.old) }
    requires out { IsWorking (K.device out.old) }
    ensures replayed { IfOk result (λ r. Replays judge.time (C.meaning judge.checker) (inputs_of start)
        (L.device log.old).bytes (L.device log.new).bytes (K.device out.old).bytes (K.device out.new).bytes
        r.verdict (option_map (λ f. state_of f) r.follower)) }
    ensures checker { IfOk result (λ r. IfSome r.follower
        (λ f. C.meaning (checker_of f) ≡ C.meaning judge.checker)) }
    ensures effect_on_error { IfErr result (ReplaysPart judge.time (C.meaning judge.checker) (inputs_of start)
        (L.device log.old).bytes (L.device log.new).bytes (K.device out.old).bytes (K.device out.new).bytes) }
    ensures read { ReadFails result (L.device log.new) }
    ensures write { WriteFails result (K.device out.new) }
{
    let Judge { checker, time } = judge;
    match start.follower(alloc, checker) {
        Ok(follower) => {
            let mut follower = follower;
            match write_log_report(alloc, time, &mut follower, log, out) {
                Ok(verdict) => Ok(Replayed {
                    verdict,
                    follower: Some(follower),
                }),
                Err(fault) => {
                    drop(follower);
                    Err(fault)
                }
            }
        }
        Err(StartFailure::Found(finding)) => {
            let verdict = report_finding(alloc, &finding, out)?;
            Ok(Replayed {
                verdict,
                follower: None,
            })
        }
        Err(StartFailure::OutOfMemory) => Err(RunFault::Memory),
    }
}
