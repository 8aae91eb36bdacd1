//! Logs: records one after the other, each a vector whose body is one message (RFC 9420, 2.1.2).

ghost use Rattle.std.specs.Prelude.{◌≡◌, ◌≢◌, ◌+◌, ◌<◌, ◌≤◌, ◌||◌, ◌⊎◌, ◌++◌, ◌∷◌, ℕ, List, [], true, false, Ok, Err, Some, IfOk, IfErr, IfNone, OnErr, MatchOption, length, option_to_list};
ghost use Rattle.std.specs.Io.KnownBytes.{Consumes, IsAtEnd};
ghost use Rattle.mls_wire.specs.Limits.{input_limit};
ghost use Rattle.mls_wire.specs.Devices.{HasFailed};
ghost use Rattle.mls_wire.specs.Encoding.{length_form};
ghost use Rattle.mls_wire.specs.Logs.{length_size, IsBadLength, IsTruncatedRecord, unread_log, ended, ReadsRecord, ReaderAfter, is_read_fault};

use crate::decode::MAX_INPUT;
use crate::fault::RunFault;
use crate::reader::Reader;
use crate::source::{Source, fill};
use std::alloc::Global;
use std::marker::Model;

/// The most bytes by which the buffer of a body grows at once.
const PIECE: usize = 65536;

/// What a reader of records has read.
#[derive(Clone, Copy, Debug, PartialEq, Eq)]
pub enum LogStep {
    /// A record. The reader holds its body.
    Record,
    /// The end of the log, after its last record.
    End,
    /// No record: a length that is malformed or over [`MAX_INPUT`], an end within a record, or a byte after the last
    /// record that may come.
    Broken,
    /// Nothing: the reader had read the end or a break, or had returned an error.
    Over,
}

/// A reader of the records of a log, with a limit on their number. Each call takes the source.
/// [`RecordReader`](crate::RecordReader) holds its source.
#[derive(Drop)]
pub struct Records {
    most: u32,
    is_over: bool,
    body: Vec<u8>,
}

impl Model for Records {
    ghost use Rattle.std.specs.Prelude.{◌≡◌, true, []};
    ghost use Rattle.mls_wire.specs.Logs.{LogState};

    ghost Value = { LogState };

    ghost view = { λ r. record { most = r.most; is_over = r.is_over; body = r.body.items } };

    ghost invariant = { λ r. r.is_over ≡ true → r.body.items ≡ [] };
}

/// Returns the number of bytes of a length with this first byte (RFC 9420, 2.1.2).
#[tactic(auto, unfolding(crate::specs::Logs::length_size))]
fn size_of_length(first: u8) -> usize
    ensures size { result ≡ length_size first }
    ensures some { 1 ≤ result }
    ensures most { result ≤ 4 }
{
    if first < 64 {
        1
    } else if first < 128 {
        2
    } else if first < 192 {
        4
    } else {
        1
    }
}

/// Returns the length that these bytes are, if it is that of a record's body.
fn size_of_body(bytes: &[u8]) -> Option<usize>
    requires { (first : ℕ) × (more : List ℕ)
        × (bytes.now ≡ first ∷ more)
        × (length bytes.now ≡ length_size first) }
    ensures { MatchOption result
        (IsBadLength bytes.now)
        (λ n. (n ≤ input_limit) × (length_form n ≡ Some bytes.now)) }
{
    match Reader::new(bytes).next_len() {
        Ok(size) if size <= MAX_INPUT => Some(size),
        _ => None,
    }
}

/// Returns the next byte, if there is one.
fn next_byte<R: Source>(source: &mut R) -> Result<Option<u8>, RunFault>
    ensures byte { IfOk result
        (λ o. Consumes (R.device source.old).bytes (R.device source.new).bytes (option_to_list o)) }
    ensures end { IfOk result (λ o. IfNone o (IsAtEnd (R.device source.new).bytes)) }
    ensures effect_on_error { OnErr result (Consumes (R.device source.old).bytes (R.device source.new).bytes []) }
    ensures fault { IfErr result (λ e. e ≢ RunFault.Write) }
    ensures failed { (R.device source.new).has_failed ≡ ((R.device source.old).has_failed || is_read_fault result) }
    ensures remains_failed { HasFailed (R.device source.old) → result ≡ Err RunFault.Read }
{
    let mut byte = [0u8; 1];
    if fill(source, &mut byte)? == 0 {
        Ok(None)
    } else {
        Ok(Some(byte[0]))
    }
}

/// Returns the length of the body of a record with this first byte; `None` if the log is broken within the length.
fn next_size<R: Source>(source: &mut R, first: u8) -> Result<Option<usize>, RunFault>
    ensures size { IfOk result (λ o. (more : List ℕ)
        × Consumes (R.device source.old).bytes (R.device source.new).bytes more
        × MatchOption o
        (IsBadLength (first ∷ more) ⊎ (IsTruncatedRecord (first ∷ more) × IsAtEnd (R.device source.new).bytes))
        (λ n. (n ≤ input_limit) × (length_form n ≡ Some (first ∷ more)))) }
    ensures effect_on_error { OnErr result ((more : List ℕ)
        × Consumes (R.device source.old).bytes (R.device source.new).bytes more
        × IsTruncatedRecord (first ∷ more)) }
    ensures fault { IfErr result (λ e. e ≢ RunFault.Write) }
    ensures failed { (R.device source.new).has_failed ≡ ((R.device source.old).has_failed || is_read_fault result) }
{
    let size = size_of_length(first);
    let mut bytes = [first, 0, 0, 0];
    let count = fill(source, &mut bytes[1..size])?;
    if count < size - 1 {
        return Ok(None);
    }
    Ok(size_of_body(&bytes[..size]))
}

/// Adds `count` bytes to a body, and returns whether there were as many.
fn read_piece<R: Source>(source: &mut R, body: &mut Vec<u8>, count: usize) -> Result<bool, RunFault>
    requires { length body.old.items + count ≤ input_limit }
    ensures bytes { IfOk result (λ is_whole. (more : List ℕ)
        × (body.new.items ≡ body.old.items ++ more)
        × Consumes (R.device source.old).bytes (R.device source.new).bytes more
        × (length more ≤ count)
        × (is_whole ≡ true → length more ≡ count)
        × (is_whole ≡ false → (length more < count) × IsAtEnd (R.device source.new).bytes)) }
    ensures effect_on_error { OnErr result ((more : List ℕ)
        × (length more < count)
        × Consumes (R.device source.old).bytes (R.device source.new).bytes more) }
    ensures fault { IfErr result (λ e. e ≢ RunFault.Write) }
    ensures failed { (R.device source.new).has_failed ≡ ((R.device source.old).has_failed || is_read_fault result) }
{
    let at = body.len();
    body.resize(at + count, 0)?;
    let got = fill(source, &mut body[at..])?;
    body.truncate(at + got);
    Ok(got == count)
}

/// Reads a body of `size` bytes, or what there is of it.
fn read_body<R: Source>(source: &mut R, body: &mut Vec<u8>, size: usize) -> Result<(), RunFault>
    requires empty { body.old.items ≡ [] }
    requires bounded { size ≤ input_limit }
    ensures bytes { IfOk result
        (λ _. Consumes (R.device source.old).bytes (R.device source.new).bytes body.new.items) }
    ensures bound { IfOk result (λ _. length body.new.items ≤ size) }
    ensures end { IfOk result
        (λ _. length body.new.items < size → IsAtEnd (R.device source.new).bytes) }
    ensures effect_on_error { OnErr result ((more : List ℕ)
        × (length more < size)
        × Consumes (R.device source.old).bytes (R.device source.new).bytes more) }
    ensures fault { IfErr result (λ e. e ≢ RunFault.Write) }
    ensures failed { (R.device source.new).has_failed ≡ ((R.device source.old).has_failed || is_read_fault result) }
{
    'pieces: while body.len() < size {
        let count = (size - body.len()).min(PIECE);
        if !read_piece(source, body, count)? {
            return Ok(());
        }
    }
    Ok(())
}

/// Reads what comes next in a log of which `most` records may still come.
fn next_step<R: Source>(source: &mut R, most: u32, body: &mut Vec<u8>) -> Result<LogStep, RunFault>
    ensures record_read { ReadsRecord (R.device source.old).bytes (R.device source.new).bytes most body.new.items result }
    ensures failed { (R.device source.new).has_failed ≡ ((R.device source.old).has_failed || is_read_fault result) }
    ensures remains_failed { HasFailed (R.device source.old) → result ≡ Err RunFault.Read }
{
    let Some(first) = next_byte(source)? else {
        return Ok(LogStep::End);
    };
    if most == 0 {
        return Ok(LogStep::Broken);
    }
    let Some(size) = next_size(source, first)? else {
        return Ok(LogStep::Broken);
    };
    body.clear();
    read_body(source, body, size)?;
    if body.len() < size {
        return Ok(LogStep::Broken);
    }
    Ok(LogStep::Record)
}

impl Records {
    /// Returns a reader of a log of which nothing was read, and of which at most `most` records may come. It will
    /// allocate from `alloc`.
    pub fn new(alloc: Global, most: u32) -> Records
        ensures { result ≡ unread_log most }
    {
        Records {
            most,
            is_over: false,
            body: Vec::new(alloc),
        }
    }

    /// Reads the next record of the log from its source, and no byte after it (RFC 9420, 2.1.2).
    ///
    /// After [`LogStep::Record`] the reader holds the body, and one fewer record may come. After every other result the
    /// log is over: the reader holds no body, reads nothing more and returns [`LogStep::Over`]. If no record may come
    /// any more, it reads one byte, which must not be there.
    ///
    /// The buffer of the body serves all records. It grows by at most 65,536 bytes before they arrive.
    ///
    /// # Errors
    ///
    /// [`RunFault::Read`] if the source fails, and [`RunFault::Memory`] if an allocation fails. What was
    /// read until then is lost.
    pub fn next<R: Source>(&mut self, source: &mut R) -> Result<LogStep, RunFault>
        ensures over { self.old.is_over ≡ true
            → (result ≡ Ok LogStep.Over) × (self.new ≡ ended self.old) × (source.new ≡ source.old) }
        ensures record_read { self.old.is_over ≡ false
            → ReadsRecord (R.device source.old).bytes (R.device source.new).bytes self.old.most self.new.body result }
        ensures goes_on { self.old.is_over ≡ false → ReaderAfter self.old self.new result }
        ensures failed { (R.device source.new).has_failed
            ≡ ((R.device source.old).has_failed || is_read_fault result) }
        ensures remains_failed { self.old.is_over ≡ false → HasFailed (R.device source.old)
            → result ≡ Err RunFault.Read }
    {
        if self.is_over {
            return Ok(LogStep::Over);
        }
        let answer = next_step(source, self.most, &mut self.body);
        if let Ok(LogStep::Record) = answer {
            self.most -= 1;
        } else {
            self.is_over = true;
            self.body.clear();
        }
        answer
    }

    /// Returns the body of the record that the last call of [`next`](Records::next) read; no bytes if there is none.
    pub fn body(&self) -> &[u8]
        ensures { result.now ≡ self.now.body }
    {
        self.body.as_slice()
    }
}
