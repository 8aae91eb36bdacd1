//! Sources and sinks over readers and writers of std that fail: any error, and a write that takes nothing, is a failure
//! for good, even if the reader or writer would go on.

use crate::support::{GROUP_INFO, bytes, expect_text, have, sink};
use mls_show::{ShowKind, Verdict, run_show};
use mls_wire::{DeviceFault, MemorySource, RunFault, Sink, Source, StdSink, StdSource};
use std::alloc::Global;
use std::io::{self, ErrorKind, Read, Write};
use std::process::Abort;

/// A reader or writer of one byte a call. After this many calls one fails with an error of this kind, or without one
/// moves nothing; then it goes on.
#[derive(Drop)]
struct Flaky {
    good_calls: u32,
    error: Option<ErrorKind>,
}

impl Flaky {
    /// How many bytes the next call moves, of as many as are asked for.
    fn turn(&mut self, asked: usize) -> io::Result<usize> {
        if self.good_calls == 0 {
            self.good_calls = 1_000;
            return match self.error {
                Some(kind) => Err(io::Error::from(kind)),
                None => Ok(0),
            };
        }
        self.good_calls -= 1;
        Ok(asked.min(1))
    }
}

impl Read for Flaky {
    fn read(&mut self, buf: &mut [u8]) -> io::Result<usize> {
        let count = self.turn(buf.len())?.min(buf.len());
        for byte in &mut buf[..count] {
            *byte = 7;
        }
        Ok(count)
    }
}

impl Write for Flaky {
    fn write(&mut self, buf: &[u8]) -> io::Result<usize> {
        let count = self.turn(buf.len())?.min(buf.len());
        Ok(count)
    }

    fn flush(&mut self) -> io::Result<()> {
        Ok(())
    }
}

/// Returns what a call returned, and whether the device has failed then.
fn answer(
    rt: &impl Abort,
    alloc: Global,
    answered: Result<usize, DeviceFault>,
    has_failed: bool,
) -> String {
    match answered {
        Ok(count) => have(rt, format!(in alloc; "{count} {has_failed}")),
        Err(_) => have(rt, format!(in alloc; "fault {has_failed}")),
    }
}

/// Returns what five calls of a source return, over a reader whose third call fails so.
fn pulled(rt: &impl Abort, alloc: Global, error: ErrorKind) -> String {
    let mut source = StdSource::new(Flaky {
        good_calls: 2,
        error: Some(error),
    });
    let mut said = String::new(alloc);
    for _ in 0..5 {
        let answered = source.pull(&mut [0u8; 4]);
        let one = answer(rt, alloc, answered, source.failed());
        said = have(rt, format!(in alloc; "{said}{one}, "));
    }
    said
}

#[test]
fn sources_fail_at_any_error(rt: HostRuntime) {
    let alloc = rt.alloc();
    const EXPECTED: &str = "1 false, 1 false, fault true, fault true, fault true, ";
    const ERRORS: &[(ErrorKind, &str)] = &[
        (ErrorKind::Interrupted, EXPECTED),
        (ErrorKind::WouldBlock, EXPECTED),
        (ErrorKind::UnexpectedEof, EXPECTED),
        (ErrorKind::OutOfMemory, EXPECTED),
    ];
    for (input, expected) in ERRORS {
        expect_text(&rt, pulled(&rt, alloc, *input), expected);
    }
}

/// Returns what five calls of a sink return, over a writer whose third call fails so, or takes nothing.
fn pushed(rt: &impl Abort, alloc: Global, error: Option<ErrorKind>) -> String {
    let mut sink = StdSink::new(Flaky {
        good_calls: 2,
        error,
    });
    let mut said = String::new(alloc);
    for _ in 0..5 {
        let answered = sink.push(b"mls");
        let one = answer(rt, alloc, answered, sink.failed());
        said = have(rt, format!(in alloc; "{said}{one}, "));
    }
    said
}

#[test]
fn sinks_fail_at_any_error(rt: HostRuntime) {
    let alloc = rt.alloc();
    const EXPECTED: &str = "1 false, 1 false, fault true, fault true, fault true, ";
    const ERRORS: &[(Option<ErrorKind>, &str)] = &[
        (Some(ErrorKind::Interrupted), EXPECTED),
        (Some(ErrorKind::WouldBlock), EXPECTED),
        (Some(ErrorKind::BrokenPipe), EXPECTED),
        (None, EXPECTED),
    ];
    for (input, expected) in ERRORS {
        expect_text(&rt, pushed(&rt, alloc, *input), expected);
    }
}

/// Returns what a sink returns for these bytes, over a writer that takes none.
fn taken(rt: &impl Abort, alloc: Global, bytes: &[u8]) -> String {
    let mut sink = StdSink::new(Flaky {
        good_calls: 0,
        error: None,
    });
    let answered = sink.push(bytes);
    answer(rt, alloc, answered, sink.failed())
}

#[test]
fn nothing_of_nothing_is_taken(rt: HostRuntime) {
    let alloc = rt.alloc();
    const ROWS: &[(&[u8], &str)] = &[(b"", "0 false"), (b"m", "fault true")];
    for (bytes, expected) in ROWS {
        expect_text(&rt, taken(&rt, alloc, bytes), expected);
    }
}

/// Returns how a report ended, as text.
fn end_text(rt: &impl Abort, alloc: Global, outcome: Result<Verdict, RunFault>) -> String {
    match outcome {
        Ok(_) => have(rt, String::from_str(alloc, "written")),
        Err(fault) => have(rt, format!(in alloc; "{fault}")),
    }
}

/// Returns how a report ends over a reader that fails after this many calls.
fn shown_of_reader(rt: &impl Abort, alloc: Global, good_calls: u32) -> String {
    let mut source = StdSource::new(Flaky {
        good_calls,
        error: Some(ErrorKind::Other),
    });
    let mut out = sink(rt, alloc, 300, 300, None);
    let outcome = run_show(alloc, ShowKind::Info, &mut source, &mut out);
    end_text(rt, alloc, outcome)
}

/// Returns how a report ends over a writer that fails after this many calls.
fn shown_to_writer(rt: &impl Abort, alloc: Global, good_calls: u32) -> String {
    let info = bytes(rt, alloc, GROUP_INFO);
    let mut source = MemorySource::new(info.as_slice(), 7, None);
    let mut out = StdSink::new(Flaky {
        good_calls,
        error: None,
    });
    let outcome = run_show(alloc, ShowKind::Info, &mut source, &mut out);
    end_text(rt, alloc, outcome)
}

#[test]
fn reports_over_what_fails(rt: HostRuntime) {
    let alloc = rt.alloc();
    const READS: &[(u32, &str)] = &[(0, "read"), (20, "read")];
    for (good_calls, expected) in READS {
        expect_text(&rt, shown_of_reader(&rt, alloc, *good_calls), expected);
    }
    const WRITES: &[(u32, &str)] = &[(0, "write"), (20, "write"), (999, "written")];
    for (good_calls, expected) in WRITES {
        expect_text(&rt, shown_to_writer(&rt, alloc, *good_calls), expected);
    }
}
