//! A replay whose devices fail: each pull of its log and each push of its output in turn.

ghost use Rattle.mls_wire.specs.Devices.{IsWorking};

use crate::failing_runs::{Device, Ended, Failing, Report, fault_of};
use crate::support::{GROUP_INFO, LOG, bytes, have, sink, source, start};
use mls_check::Trusting;
use mls_report::replay;
use mls_show::Verdict;
use mls_start::Judge;
use mls_wire::{RunFault, Sink, StdSink};
use std::alloc::Global;
use std::io::{self, ErrorKind, Write};
use std::process::Abort;

/// The report, with the verdict No. A line is written for each record. The last two lines are decided by the end of the log.
const REPORT: Report = Report {
    text: "\
    1 accepted proposal 419afc0a88fe171b793b00410d11c8121fb96fdfde7b5ced43d5912144a3a9f9\n\
    2 accepted commit 1 3dd545ada09b9e9be453de8b5c20702e810685eca3710882583a67d8a3eddd8b \
    3b3fe4cf185f12883575d4bc9a402561feafe917dc05379ecd9f3f0abe6607e5\n\
    3 refused 2\n4 broken\naccepted 2 refused 1 broken 1 epoch 1\n",
    ends: &[77, 141, 148, 151],
};

/// How many bytes a device moves at a call.
const PIECE: usize = 13;

/// A writer into memory that takes nothing at one of its calls.
#[derive(Drop)]
struct Halting<'a> {
    held: &'a mut Vec<u8>,
    good_calls: usize,
}

impl Write for Halting<'_> {
    fn write(&mut self, buf: &[u8]) -> io::Result<usize> {
        if self.good_calls == 0 {
            return Ok(0);
        }
        self.good_calls -= 1;
        let count = buf.len().min(PIECE);
        match self.held.extend_from_slice(&buf[..count]) {
            Ok(()) => Ok(count),
            Err(_) => Err(io::Error::from(ErrorKind::OutOfMemory)),
        }
    }

    fn flush(&mut self) -> io::Result<()> {
        Ok(())
    }
}

/// How the log of a replay is read: in pieces of a size, while it fails at a call.
#[derive(Clone, Copy)]
pub(crate) struct LogReading {
    pub(crate) piece: usize,
    pub(crate) fails_at: Option<usize>,
}

/// Replays the example log into an output. Returns the outcome, and how many bytes of the log are left.
pub(crate) fn replay_into<K: Sink>(
    rt: &impl Abort,
    alloc: Global,
    reading: LogReading,
    out: &mut K,
) -> (Result<Verdict, RunFault>, usize)
    requires { IsWorking (K.device out.old) }
{
    let start = start(rt, alloc, GROUP_INFO);
    let log = bytes(rt, alloc, LOG);
    let mut log = source(log.as_slice(), reading.piece, reading.fails_at);
    let judge = Judge {
        checker: Trusting,
        time: None,
    };
    let outcome = match replay(alloc, start, &mut log, judge, out) {
        Ok(replayed) => {
            let verdict = replayed.verdict;
            drop(replayed);
            Ok(verdict)
        }
        Err(fault) => Err(fault),
    };
    (outcome, log.left().len())
}

/// Returns how a replay ended, by its outcome and how many bytes of the log are left.
fn ended(rt: &impl Abort, outcome: (Result<Verdict, RunFault>, usize), written: Vec<u8>) -> Ended {
    let (outcome, left) = outcome;
    Ended {
        fault: fault_of(rt, outcome),
        written,
        read: (LOG.len() / 2).saturating_sub(left),
    }
}

/// Replays the example log with a device that fails.
fn replayed(rt: &impl Abort, alloc: Global, failing: Failing) -> Ended {
    let reading = LogReading {
        piece: PIECE,
        fails_at: failing.call_of(Device::Records),
    };
    let mut out = sink(rt, alloc, 1000, PIECE, failing.call_of(Device::Out));
    let outcome = replay_into(rt, alloc, reading, &mut out);
    ended(rt, outcome, have(rt, Vec::from_slice(alloc, out.bytes())))
}

/// Replays the example log into a writer of std that takes nothing at a call.
fn replayed_to_writer(rt: &impl Abort, alloc: Global, call: usize) -> Ended {
    let reading = LogReading {
        piece: PIECE,
        fails_at: None,
    };
    let mut written = Vec::new(alloc);
    let mut out = StdSink::new(Halting {
        held: &mut written,
        good_calls: call.saturating_sub(1),
    });
    let outcome = replay_into(rt, alloc, reading, &mut out);
    drop(out);
    ended(rt, outcome, written)
}

/// Whether a device is called at least so often in a replay, and each of these calls has failed in turn.
fn each_call_fails(rt: &impl Abort, alloc: Global, calls: (Device, usize)) -> bool {
    let (device, least) = calls;
    for call in 1..100usize {
        let ended = match device {
            Device::Writer => replayed_to_writer(rt, alloc, call),
            _ => replayed(rt, alloc, Failing { device, call }),
        };
        if ended.fault.is_none() {
            return call > least;
        }
        assert!(rt; ended.is_cut_by(device, REPORT));
    }
    false
}

/// The log has 151 bytes, and then comes the end. The report has lines of 85, 150 and 12 bytes, and 47
/// after them.
#[test]
fn each_call_of_a_device_fails(rt: HostRuntime) {
    let alloc = rt.alloc();
    for calls in [
        (Device::Records, 13),
        (Device::Out, 24),
        (Device::Writer, 24),
    ] {
        assert!(rt; each_call_fails(&rt, alloc, calls));
    }
}
