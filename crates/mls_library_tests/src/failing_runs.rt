//! Runs of reports over a device that fails at one of its calls, and how they have to end. What was written then is the
//! part of the report that is decided by what was read, or the front of the report that the output took.

use mls_show::Verdict;
use mls_wire::RunFault;
use std::process::Abort;

/// A device of a run: the records or the log, the output, and a writer of std below the output.
#[derive(Clone, Copy, PartialEq, Eq)]
pub(crate) enum Device {
    Records,
    Out,
    Writer,
}

/// Which device fails, and at which of its calls.
#[derive(Clone, Copy)]
pub(crate) struct Failing {
    pub(crate) device: Device,
    pub(crate) call: usize,
}

impl Failing {
    /// Returns the call at which a device fails, if it is this one.
    pub(crate) fn call_of(self, device: Device) -> Option<usize> {
        if self.device == device {
            Some(self.call)
        } else {
            None
        }
    }
}

/// The report of a run whose devices don't fail.
#[derive(Clone, Copy)]
pub(crate) struct Report {
    /// Its text.
    pub(crate) text: &'static str,
    /// How many bytes of the records are read when each of the first lines is written, and in the end.
    pub(crate) ends: &'static [usize],
}

impl Report {
    /// Returns the first lines.
    fn first_lines(self, count: usize) -> Option<&'static str> {
        let mut end = 0;
        for _ in 0..count {
            let rest = self.text.get(end..)?;
            end = end.saturating_add(rest.find('\n')?).saturating_add(1);
        }
        self.text.get(..end)
    }
}

/// Returns the fault of a run, if there was one. Without one the verdict has to be No.
pub(crate) fn fault_of(rt: &impl Abort, outcome: Result<Verdict, RunFault>) -> Option<RunFault> {
    match outcome {
        Ok(Verdict::No) => None,
        Ok(Verdict::Yes) => panic!(rt; "the verdict Yes"),
        Err(fault) => Some(fault),
    }
}

/// How a run ended: the fault if there was one, what was written, and how many bytes of the records were read.
#[derive(Drop)]
pub(crate) struct Ended {
    pub(crate) fault: Option<RunFault>,
    pub(crate) written: Vec<u8>,
    pub(crate) read: usize,
}

impl Ended {
    /// Checks that the records failed, and that the lines were written that are decided by what was read.
    fn is_cut_by_records(&self, report: Report) -> Option<bool> {
        let (_, ends) = report.ends.split_last()?;
        let whole = ends.iter().filter(|&&end| end <= self.read).count();
        let expected = report.first_lines(whole)?.as_bytes();
        Some(self.fault == Some(RunFault::Read) && self.written.as_slice() == expected)
    }

    /// Checks that the output failed, and that no more was read than for the front of the report that was written.
    fn is_cut_by_output(&self, report: Report) -> Option<bool> {
        let written = self.written.as_slice();
        let (_, ends) = report.ends.split_last()?;
        let lines = written.iter().filter(|&&byte| byte == b'\n').count();
        let is_front = report.text.as_bytes().starts_with(written);
        let is_read = self.read == *report.ends.get(lines.min(ends.len()))?;
        Some(self.fault == Some(RunFault::Write) && is_front && is_read)
    }

    /// Checks that the run ended by the fault of a device, with what it has to have written and read by then.
    pub(crate) fn is_cut_by(&self, device: Device, report: Report) -> bool {
        let is_cut = match device {
            Device::Records => self.is_cut_by_records(report),
            Device::Out | Device::Writer => self.is_cut_by_output(report),
        };
        is_cut == Some(true)
    }
}
