//! A reader of a log that holds its source.

ghost use Rattle.std.specs.Prelude.{◌≡◌, ◌||◌, true, false, Ok, Err};
ghost use Rattle.mls_wire.specs.Devices.{HasFailed};
ghost use Rattle.mls_wire.specs.Logs.{unread_log, ended, ReadsRecord, ReaderAfter, is_read_fault};

use crate::fault::RunFault;
use crate::log::{LogStep, Records};
use crate::source::Source;
use std::alloc::Global;
use std::marker::Model;

/// A reader of the records of a log, with a limit on their number and with the source.
///
/// What the source has left is known only while the reader exists. A caller whose contract names it afterwards uses
/// [`Records`].
#[derive(Drop)]
pub struct RecordReader<'a, R: Source> {
    source: &'a mut R,
    records: Records,
}

impl<'a, R: Source> Model for RecordReader<'a, R> {
    ghost use Rattle.mls_wire.specs.Logs.{HeldLog};

    ghost Value = { HeldLog R };

    ghost view = { λ r. record { source = r.source.now; log = r.records } };
}

impl<'a, R: Source> RecordReader<'a, R> {
    /// Returns a reader of the log that a source gives, of which at most `most` records may come. It will allocate from
    /// `alloc`.
    pub fn new(alloc: Global, source: &'a mut R, most: u32) -> RecordReader<'a, R>
        ensures source { result.source ≡ source.old }
        ensures log { result.log ≡ unread_log most }
    {
        RecordReader {
            source,
            records: Records::new(alloc, most),
        }
    }

    /// Reads the next record, and no byte after it, as [`Records::next`] does.
    pub fn next(&mut self) -> Result<LogStep, RunFault>
        ensures over { self.old.log.is_over ≡ true → (result ≡ Ok LogStep.Over)
            × (self.new.log ≡ ended self.old.log)
            × (self.new.source ≡ self.old.source) }
        ensures record_read { self.old.log.is_over ≡ false → ReadsRecord
            (R.device self.old.source).bytes (R.device self.new.source).bytes
            self.old.log.most self.new.log.body result }
        ensures goes_on { self.old.log.is_over ≡ false → ReaderAfter self.old.log self.new.log result }
        ensures failed { (R.device self.new.source).has_failed
            ≡ ((R.device self.old.source).has_failed || is_read_fault result) }
        ensures remains_failed { self.old.log.is_over ≡ false → HasFailed (R.device self.old.source)
            → result ≡ Err RunFault.Read }
    {
        self.records.next(self.source)
    }

    /// Returns the body of the record that the last call of [`next`](RecordReader::next) read; no bytes if there is
    /// none.
    pub fn body(&self) -> &[u8]
        ensures { result.now ≡ self.now.log.body }
    {
        self.records.body()
    }
}
