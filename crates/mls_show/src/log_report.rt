//! The report `show log`.

ghost use Rattle.std.specs.Prelude.{◌≡◌, ℕ, List, ◌+◌, ◌*◌, ◌++◌, ◌<◌, ◌≤◌, ◌&&◌, codes, length, false, true, IfOk, IfErr, Some};
ghost use Rattle.std.specs.Fmt.{decimal};
ghost use Rattle.mls_wire.specs.Devices.{IsWorking, ReadFails, WriteFails};
ghost use Rattle.mls_wire.specs.Encoding.{vector};
ghost use Rattle.mls_wire.specs.Limits.{input_limit};
ghost use Rattle.mls_wire.specs.Logs.{ReadsRecord, ReaderAfter};
ghost use Rattle.mls_show.specs.LogReport.{last_line, log_verdict, record_limit, ShowsLog, StopsLog};
ghost use Rattle.mls_show.specs.LogReportSteps.{WritesRecord, StopsAtRecord, WritesRecords};

use crate::message_report::message_report;
use crate::report_buffer::{put_number, put_text, put_u64};
use crate::verdict::Verdict;
use crate::write::write_bytes;
use mls_msgs::Profile;
use mls_wire::{LogStep, Records, RunFault, Sink, Source};
use std::alloc::{AllocError, Global};

/// The most records of a log that is shown.
const RECORD_LIMIT: u32 = u32::MAX;

/// What was read of a log: how many records, the number of their bytes, and whether each can be read as a message.
#[derive(Clone, Copy)]
struct Progress {
    count: u64,
    at: u64,
    is_readable: bool,
}

impl Progress {
    /// Adds a record with this number of bytes.
    fn add(&mut self, size: u64, is_readable: bool)
        requires count { self.old.count < record_limit }
        requires at { self.old.at ≤ self.old.count * 268435460 }
        requires size { size ≤ 268435460 }
        ensures count { self.new.count ≡ self.old.count + 1 }
        ensures at { self.new.at ≡ self.old.at + size }
        ensures readable { self.new.is_readable ≡ (is_readable && self.old.is_readable) }
    {
        self.count += 1;
        self.at += size;
        if !is_readable {
            self.is_readable = false;
        }
    }
}

/// Returns the number of bytes of a record with this body (RFC 9420, 2.1.2).
#[tactic(auto, using(crate::proofs::LogLines::record_1, crate::proofs::LogLines::record_2, crate::proofs::LogLines::record_4))]
fn record_size(body: &[u8]) -> u64
    requires { length body.now ≤ input_limit }
    ensures size { (read : List ℕ) → vector body.now ≡ Some read → result ≡ length read }
    ensures bound { result ≤ 268435460 }
{
    let size = body.len() as u64;
    if size < 64 {
        size + 1
    } else if size < 16384 {
        size + 2
    } else {
        size + 4
    }
}

/// Returns the line of a record: its number, the length of its body, and the report on it.
fn line_of(alloc: Global, number: u64, size: usize, text: &[u8]) -> Result<Vec<u8>, AllocError>
    ensures { IfOk result (λ line. line.items
        ≡ decimal number ++ (codes " " ++ (decimal size ++ (codes " " ++ text.now)))) }
{
    let mut line = Vec::new(alloc);
    put_u64(&mut line, number)?;
    put_text(&mut line, " ")?;
    put_number(&mut line, size)?;
    put_text(&mut line, " ")?;
    line.extend_from_slice(text)?;
    Ok(line)
}

/// Writes the line of a record. Returns whether the record can be read as a message.
fn write_record<K: Sink>(
    alloc: Global,
    profile: Profile,
    number: u64,
    body: &[u8],
    out: &mut K,
) -> Result<bool, RunFault>
    requires { IsWorking (K.device out.old) }
    ensures printed { IfOk result
        (WritesRecord profile number body.now (K.device out.old).bytes (K.device out.new).bytes) }
    ensures effect_on_error { IfErr result
        (StopsAtRecord profile number body.now (K.device out.old).bytes (K.device out.new).bytes) }
    ensures write { WriteFails result (K.device out.new) }
{
    let report = message_report(alloc, profile, body)?;
    let line = line_of(alloc, number, body.len(), report.bytes.as_slice())?;
    write_bytes(out, line.as_slice())?;
    Ok(report.verdict == Verdict::Yes)
}

/// Reads what comes next in a log that has not ended.
fn next_step<S: Source>(reader: &mut Records, log: &mut S) -> Result<LogStep, RunFault>
    requires going { reader.old.is_over ≡ false }
    requires log { IsWorking (S.device log.old) }
    ensures record_read { ReadsRecord (S.device log.old).bytes (S.device log.new).bytes
        reader.old.most reader.new.body result }
    ensures goes_on { ReaderAfter reader.old reader.new result }
    ensures read { ReadFails result (S.device log.new) }
{
    reader.next(log)
}

/// Writes the line of each record before the next is read. Returns whether the log is broken.
fn write_records<S: Source, K: Sink>(
    alloc: Global,
    profile: Profile,
    log: &mut S,
    progress: &mut Progress,
    out: &mut K,
) -> Result<bool, RunFault>
    requires log { IsWorking (S.device log.old) }
    requires out { IsWorking (K.device out.old) }
    requires none { (progress.old.count ≡ 0) × (progress.old.at ≡ 0) × (progress.old.is_readable ≡ true) }
    ensures printed { IfOk result
        (WritesRecords profile (S.device log.old).bytes (S.device log.new).bytes
        (K.device out.old).bytes (K.device out.new).bytes
        progress.new.count progress.new.at progress.new.is_readable) }
    ensures effect_on_error { IfErr result
        (StopsLog profile (S.device log.old).bytes (S.device log.new).bytes
        (K.device out.old).bytes (K.device out.new).bytes) }
    ensures read { ReadFails result (S.device log.new) }
    ensures write { WriteFails result (K.device out.new) }
{
    let mut reader = Records::new(alloc, RECORD_LIMIT);
    'records: loop {
        match next_step(&mut reader, log)? {
            LogStep::Record => {
                let body = reader.body();
                let is_readable = write_record(alloc, profile, progress.count + 1, body, out)?;
                let size = record_size(body);
                progress.add(size, is_readable);
            }
            LogStep::End => return Ok(false),
            LogStep::Broken => return Ok(true),
            LogStep::Over => unreachable!(),
        }
    }
}

/// Returns the last line.
fn last_line_of(alloc: Global, is_broken: bool, progress: &Progress) -> Result<Vec<u8>, AllocError>
    ensures { IfOk result (λ line. line.items ≡ last_line is_broken progress.now.count progress.now.at) }
{
    let mut line = Vec::new(alloc);
    put_text(&mut line, "records ")?;
    put_u64(&mut line, progress.count)?;
    if !is_broken {
        put_text(&mut line, "\n")?;
        return Ok(line);
    }
    put_text(&mut line, " broken ")?;
    put_u64(&mut line, progress.at)?;
    put_text(&mut line, "\n")?;
    Ok(line)
}

/// Returns the verdict of a log.
fn verdict_of(is_broken: bool, is_readable: bool) -> Verdict
    ensures { result ≡ log_verdict is_broken is_readable }
{
    if is_broken {
        return Verdict::No;
    }
    if is_readable {
        Verdict::Yes
    } else {
        Verdict::No
    }
}

/// Writes a line for each record of a log, and the last line. One record is in memory at a time.
pub(crate) fn show_log<S: Source, K: Sink>(
    alloc: Global,
    profile: Profile,
    log: &mut S,
    out: &mut K,
) -> Result<Verdict, RunFault>
    requires log { IsWorking (S.device log.old) }
    requires out { IsWorking (K.device out.old) }
    ensures shown { IfOk result
        (ShowsLog profile (S.device log.old).bytes (S.device log.new).bytes
        (K.device out.old).bytes (K.device out.new).bytes) }
    ensures effect_on_error { IfErr result
        (StopsLog profile (S.device log.old).bytes (S.device log.new).bytes
        (K.device out.old).bytes (K.device out.new).bytes) }
    ensures read { ReadFails result (S.device log.new) }
    ensures write { WriteFails result (K.device out.new) }
{
    let mut progress = Progress {
        count: 0,
        at: 0,
        is_readable: true,
    };
    let is_broken = write_records(alloc, profile, log, &mut progress, out)?;
    let line = last_line_of(alloc, is_broken, &progress)?;
    write_bytes(out, line.as_slice())?;
    Ok(verdict_of(is_broken, progress.is_readable))
}
