//! The signatures that the messages of a log need.

ghost use Rattle.std.specs.Prelude.{◌≡◌, ◌≢◌, ◌++◌, [], codes, false, Err, IfOk, IfErr, OnErr, OnOk};
ghost use Rattle.std.specs.Fmt.{decimal};
ghost use Rattle.std.specs.Io.KnownBytes.{Appends};
ghost use Rattle.mls_wire.specs.Devices.{AppendsPrefix, IsWorking, ReadFails, WriteFails};
ghost use Rattle.mls_follow.specs.FollowerModel.{state_of};
ghost use Rattle.mls_report.specs.SignaturesReport.{log_verdict, HasSignatures, ReportsSignatureLog, SignatureLogPart};
ghost use Rattle.mls_report.specs.SignaturesSteps.{WritesSignatures, StopsInMessage};

use crate::log_records::{RecordStep, next_record};
use crate::replay_report::MESSAGE_LIMIT;
use crate::replay_text::{broken_line, processed_line};
use crate::signature_lines::write_signature_lines;
use mls_check::{SignatureCheck, Trusting};
use mls_follow::{Follower, Refusal, SignatureListFault};
use mls_show::{Verdict, write_text};
use mls_signatures::SignatureList;
use mls_start::SignaturesLeft;
use mls_wire::{Records, RunFault, Sink, Source};
use std::alloc::Global;

/// Returns the signatures of a message, before it is processed. `None` if the bytes are no message.
fn message_signatures(
    follower: &mut Follower<Trusting>,
    body: &[u8],
) -> Result<Option<SignatureList>, RunFault>
    ensures needed { IfOk result (HasSignatures (state_of follower.old) body.now) }
    ensures memory { IfErr result (λ e. e ≡ RunFault.Memory) }
    ensures state { state_of follower.new ≡ state_of follower.old }
{
    match follower.signatures_to_verify(body) {
        Ok(needed) => Ok(Some(needed)),
        Err(SignatureListFault::Malformed) => Ok(None),
        Err(SignatureListFault::OutOfMemory) => Err(RunFault::Memory),
    }
}

/// Writes the line of message n, which is not decodable.
fn write_malformed_line<K: Sink>(
    alloc: Global,
    n: u32,
    follower: &Follower<Trusting>,
    out: &mut K,
) -> Result<(), RunFault>
    requires { IsWorking (K.device out.old) }
    ensures all { OnOk result
        (Appends (K.device out.old).bytes (K.device out.new).bytes (decimal n ++ codes " refused 1\n")) }
    ensures effect_on_error { OnErr result
        (AppendsPrefix (K.device out.old).bytes (K.device out.new).bytes (decimal n ++ codes " refused 1\n")) }
    ensures memory { result ≡ Err RunFault.Memory
        → Appends (K.device out.old).bytes (K.device out.new).bytes [] }
    ensures write { WriteFails result (K.device out.new) }
    ensures fault { IfErr result (λ e. e ≢ RunFault.Read) }
{
    let line = processed_line(alloc, n, &Err(Refusal::Malformed), follower)?;
    write_text(out, line.as_str())
}

/// Processes message n, accepting every signature, and writes the lines of the signatures it needs. Each line is written
/// before the next signature is made. Returns whether the message is decodable.
fn write_signatures<R: SignatureCheck, K: Sink>(
    alloc: Global,
    n: u32,
    body: &[u8],
    follower: &mut Follower<Trusting>,
    receipts: &R,
    out: &mut K,
) -> Result<bool, RunFault>
    requires out { IsWorking (K.device out.old) }
    ensures printed { IfOk result (WritesSignatures (R.meaning receipts.now) (state_of follower.old) n
        body.now (state_of follower.new) (K.device out.old).bytes (K.device out.new).bytes) }
    ensures effect_on_error { IfErr result (StopsInMessage (R.meaning receipts.now) (state_of follower.old) n
        body.now (K.device out.old).bytes (K.device out.new).bytes) }
    ensures write { WriteFails result (K.device out.new) }
{
    let needed = message_signatures(follower, body)?;
    let answer = follower.take_at(None, body);
    if let Err(Refusal::OutOfMemory) = answer {
        drop(needed);
        return Err(RunFault::Memory);
    }
    let Some(list) = needed else {
        write_malformed_line(alloc, n, follower, out)?;
        return Ok(false);
    };
    let mut left = SignaturesLeft::of_list(list);
    let written = write_signature_lines(alloc, &mut left, follower, receipts, out);
    drop(left);
    written?;
    Ok(true)
}

/// Writes the line of a broken log. The next message is n.
fn report_break<K: Sink>(alloc: Global, n: u32, out: &mut K) -> Result<Verdict, RunFault>
    requires { IsWorking (K.device out.old) }
    ensures printed { IfOk result (λ verdict. (verdict ≡ Verdict.No)
        × Appends (K.device out.old).bytes (K.device out.new).bytes (decimal n ++ codes " broken\n")) }
    ensures effect_on_error { OnErr result
        (AppendsPrefix (K.device out.old).bytes (K.device out.new).bytes (decimal n ++ codes " broken\n")) }
    ensures memory { result ≡ Err RunFault.Memory
        → Appends (K.device out.old).bytes (K.device out.new).bytes [] }
    ensures write { WriteFails result (K.device out.new) }
    ensures fault { IfErr result (λ e. e ≢ RunFault.Read) }
{
    let line = broken_line(alloc, n)?;
    write_text(out, line.as_str())?;
    Ok(Verdict::No)
}

/// Returns the verdict of a log that has ended.
fn verdict_of(is_read: bool) -> Verdict
    ensures { result ≡ log_verdict false is_read }
{
    if is_read { Verdict::Yes } else { Verdict::No }
}

/// Processes the messages of a log, and writes the lines of the signatures of each before the next is read.
pub(crate) fn write_signature_log<L: Source, R: SignatureCheck, K: Sink>(
    alloc: Global,
    follower: &mut Follower<Trusting>,
    log: &mut L,
    receipts: &R,
    out: &mut K,
) -> Result<Verdict, RunFault>
    requires log { IsWorking (L.device log.old) }
    requires out { IsWorking (K.device out.old) }
    ensures printed { IfOk result (ReportsSignatureLog (R.meaning receipts.now) (state_of follower.old)
        (L.device log.old).bytes (L.device log.new).bytes (K.device out.old).bytes (K.device out.new).bytes) }
    ensures effect_on_error { IfErr result (SignatureLogPart (R.meaning receipts.now) (state_of follower.old)
        (L.device log.old).bytes (L.device log.new).bytes (K.device out.old).bytes (K.device out.new).bytes) }
    ensures read { ReadFails result (L.device log.new) }
    ensures write { WriteFails result (K.device out.new) }
{
    let mut reader = Records::new(alloc, MESSAGE_LIMIT);
    let mut is_read = true;
    let mut n = 1;
    'messages: loop {
        match next_record(&mut reader, log)? {
            RecordStep::Record => {
                let readable = write_signatures(alloc, n, reader.body(), follower, receipts, out)?;
                is_read &= readable;
                n += 1;
            }
            RecordStep::End { is_broken: false } => return Ok(verdict_of(is_read)),
            RecordStep::End { is_broken: true } => return report_break(alloc, n, out),
        }
    }
}
