//! Replays at a time (docs/FORMATS.md). The KeyPackage of member 1 is valid from 5 to 9.

use crate::support::{GROUP_INFO, bytes, expect_text, have, held_text, sink, source, start};
use mls_check::Trusting;
use mls_report::replay;
use mls_start::Judge;
use std::alloc::Global;
use std::process::Abort;

/// A log: a proposal to add member 1, and a commit that adds it by value.
const LOG: &str =
    "404b00010001014700000000000000000100000000000200010001000101f101a101b10001014102000102000100000200\
    0101000000000000000500000000000000090001c10001c901c801c74050000100010147000000000000000001000000000\
    003330100010001000101f101a101b100010141020001020001000002000101000000000000000500000000000000090001\
    c10001c90001c601e101c5";

/// The report if the lifetime includes the time, and without a time.
const ACCEPTED: &str =
    "1 accepted proposal 9789d8f5619a30689c1d8c09d1b266d9a76ec4fc5761760406d1fef36ef1cdae\n\
    2 accepted commit 1 3c10920d13cf55654bc0ad830ce8a28b66277a40b1a7a5791f7a9c6a7fcdfb0e \
    9eba6d683bf448bad57f91778b28f9f399b7e657bf9a317724d6457d9dcfd396\n\
    accepted 2 refused 0 broken 0 epoch 1\n";

/// The report if the lifetime doesn't include the time.
const REFUSED: &str = "1 refused 53\n2 refused 53\naccepted 0 refused 2 broken 0 epoch 0\n";

/// Returns what `replay` writes of the log, at a time if there is one.
fn replayed(rt: &impl Abort, alloc: Global, time: Option<u64>) -> String {
    let start = start(rt, alloc, GROUP_INFO);
    let log = bytes(rt, alloc, LOG);
    let mut log = source(log.as_slice(), 40, None);
    let mut out = sink(rt, alloc, 1000, 40, None);
    let judge = Judge {
        checker: Trusting,
        time,
    };
    let outcome = replay(alloc, start, &mut log, judge, &mut out);
    drop(have(rt, outcome));
    held_text(rt, alloc, &out)
}

#[test]
fn lifetimes_include_the_time(rt: HostRuntime) {
    let alloc = rt.alloc();
    const REPORTS: &[(Option<u64>, &str)] = &[
        (Some(0), REFUSED),
        (Some(4), REFUSED),
        (Some(5), ACCEPTED),
        (Some(9), ACCEPTED),
        (Some(10), REFUSED),
        (Some(u64::MAX), REFUSED),
        (None, ACCEPTED),
    ];
    for (time, expected) in REPORTS {
        expect_text(&rt, replayed(&rt, alloc, *time), expected);
    }
}
