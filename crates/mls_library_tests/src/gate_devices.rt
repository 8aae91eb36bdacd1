//! Gates whose devices fail: each pull of their records and each push of their output in turn.

use crate::failing_runs::{Device, Ended, Failing, Report, fault_of};
use crate::support::{GROUP_INFO, bytes, have, sink, start};
use mls_check::Trusting;
use mls_gate::gate;
use mls_start::Judge;
use mls_wire::MemorySource;
use std::alloc::Global;
use std::process::Abort;

/// A run of the gate: the time at its start, if it has one, its records and its report.
#[derive(Clone, Copy)]
struct GateRun {
    time: Option<u64>,
    records: &'static str,
    report: Report,
}

/// A run without a time, whose report has the verdict No.
const UNTIMED: GateRun = GateRun {
    time: None,
    records: RECORDS,
    report: REPORT,
};

/// A run that starts at the time 10, whose report has the verdict No.
const TIMED: GateRun = GateRun {
    time: Some(10),
    records: TIMED_RECORDS,
    report: TIMED_REPORT,
};

/// The records, of 157 bytes: the begin, the example proposal, its commit, a PrivateMessage, and a record in which they end.
const RECORDS: &str =
    "0162404c6d00010001014700000000000000000100000000000200010001000101f101a101b100010141020001\
    0200010000020001010000000000000000ffffffffffffffff0001c10001c901c801c740406d000100010147000000000000\
    000001000000000003220220419afc0a88fe171b793b00410d11c8121fb96fdfde7b5ced43d5912144a3a9f90001c601\
    e101c5076d00010002abcd050001";

/// The report, with the verdict No. No record is read for the first line, and one record for each other line.
const REPORT: Report = Report {
    text: "queried 0\n\
    ready epoch 0 members 1 tree e32ab6a0a711ec8a732c3fad9263ed5fa61caf53fdf9b9690dc57271d8f110d7\n\
    accepted proposal 419afc0a88fe171b793b00410d11c8121fb96fdfde7b5ced43d5912144a3a9f9\n\
    accepted commit 1 3dd545ada09b9e9be453de8b5c20702e810685eca3710882583a67d8a3eddd8b \
    3b3fe4cf185f12883575d4bc9a402561feafe917dc05379ecd9f3f0abe6607e5\n\
    refused 2 NotPublic\nbroken\n",
    ends: &[0, 2, 80, 146, 154, 157],
};

/// Other records, of 253 bytes: the begin, a proposal to add member 1, whose KeyPackage is valid from 5 to 9, the time 9, the
/// proposal, the time 100, its commit by reference, and a time of seven bytes.
const TIMED_RECORDS: &str =
    "0162404c6d00010001014700000000000000000100000000000200010001000101f101a101b10001014102000102000100\
    0002000101000000000000000500000000000000090001c10001c901c801c709740000000000000009404c6d00010001014\
    700000000000000000100000000000200010001000101f101a101b100010141020001020001000002000101000000000000\
    000500000000000000090001c10001c901c801c70974000000000000006440406d000100010147000000000000000001000\
    0000000032202209789d8f5619a30689c1d8c09d1b266d9a76ec4fc5761760406d1fef36ef1cdae0001c601e101c5087400\
    000000000007";

/// Their report. No record is read for the first line. Before the lines of the second proposal and of the commit a time is
/// read too.
const TIMED_REPORT: Report = Report {
    text: "queried 0\n\
    ready epoch 0 members 1 tree e32ab6a0a711ec8a732c3fad9263ed5fa61caf53fdf9b9690dc57271d8f110d7\n\
    refused 53 LifetimeOutside\n\
    accepted proposal 9789d8f5619a30689c1d8c09d1b266d9a76ec4fc5761760406d1fef36ef1cdae\n\
    accepted commit 1 3c10920d13cf55654bc0ad830ce8a28b66277a40b1a7a5791f7a9c6a7fcdfb0e \
    b99101e98a5ab1d059c45aed6f662e3fef1f66d6b60ccae5c63ffc090b056169\nbroken\n",
    ends: &[0, 2, 80, 168, 244, 253],
};

/// How many bytes a device moves at a call.
const PIECE: usize = 13;

/// Runs the gate while a device fails at one of its calls.
fn gated(rt: &impl Abort, alloc: Global, run: GateRun, failing: Failing) -> Ended {
    let start = start(rt, alloc, GROUP_INFO);
    let records = bytes(rt, alloc, run.records);
    let mut input = MemorySource::new(records.as_slice(), PIECE, failing.call_of(Device::Records));
    let mut out = sink(rt, alloc, 1000, PIECE, failing.call_of(Device::Out));
    let judge = Judge {
        checker: Trusting,
        time: run.time,
    };
    let outcome = gate(alloc, start, &mut input, judge, &mut out);
    let read = records.len().saturating_sub(input.left().len());
    let written = have(rt, Vec::from_slice(alloc, out.bytes()));
    Ended {
        fault: fault_of(rt, outcome),
        written,
        read,
    }
}

/// Whether a device is called at least so often by a gate, and each of these calls has failed in turn. The call after the last
/// one changes nothing: the report is written whole.
fn each_call_fails(rt: &impl Abort, alloc: Global, run: GateRun, calls: (Device, usize)) -> bool {
    let (device, least) = calls;
    for call in 1..100usize {
        let ended = gated(rt, alloc, run, Failing { device, call });
        if ended.fault.is_none() {
            let is_whole = ended.written.as_slice() == run.report.text.as_bytes();
            return call > least && is_whole;
        }
        assert!(rt; ended.is_cut_by(device, run.report));
    }
    false
}

/// The records have 157 bytes, and then comes the end. The report has 362 bytes, in
/// lines of 10, 94, 83, 148, 20 and 7.
#[test]
fn each_call_of_a_gates_device_fails(rt: HostRuntime) {
    let alloc = rt.alloc();
    for calls in [(Device::Records, 13), (Device::Out, 31)] {
        assert!(rt; each_call_fails(&rt, alloc, UNTIMED, calls));
    }
}

/// The records have 253 bytes, and nothing is read after them. The report has 369 bytes, in lines of 10, 94, 27, 83, 148 and 7.
#[test]
fn each_call_of_a_timed_gates_device_fails(rt: HostRuntime) {
    let alloc = rt.alloc();
    for calls in [(Device::Records, 20), (Device::Out, 32)] {
        assert!(rt; each_call_fails(&rt, alloc, TIMED, calls));
    }
}
