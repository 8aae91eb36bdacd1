//! The program `mlscheck`: passes its command line, the files and the standard streams to [`mls_cli::run_program`], and
//! ends with the exit status that this returns: 0 for yes and for help, 1 for no, 2 for a usage error, 3 for a fault.
#![tactic(auto)]

ghost use Rattle.mls_wire.specs.Devices.{IsWorking};

use mls_cli::{Progress, run_program};
use mls_program::{LastFailure, Output, StdFiles, note_causes, read_words, run_fault};
use mls_wire::{Sink, StdSink};
use std::io::{IsTerminal, Stderr, Stdout};
use std::process::ExitCode;

/// Returns whether progress is shown on standard error: if a log is replayed, standard error is a terminal, and
/// standard output, where the report goes, is none.
fn is_noted(rt: &HostRuntime, words: &[String]) -> bool {
    match words.get(1) {
        Some(word) if word.as_str() == "replay" => {
            rt.stderr().is_terminal() && !rt.stdout().is_terminal()
        }
        _ => false,
    }
}

/// The sink of a report.
///
/// There is one type of sink for all reports: each type would have the whole program proved and built for it.
type ReportSink<'a> = Progress<StdSink<Output<'a, Stdout>>, StdSink<Stderr>>;

/// Returns the sink of the report, on standard output. If `is_noted`, its progress is shown on standard error. `last` is told
/// why it fails.
fn report_sink<'a>(rt: &HostRuntime, last: &'a LastFailure, is_noted: bool) -> ReportSink<'a>
    ensures { IsWorking (⟦<Progress<StdSink<Output<'a, Stdout>>, StdSink<Stderr>> as Sink>⟧.device result) }
{
    let notes = if is_noted {
        Some(StdSink::new(rt.stderr()))
    } else {
        None
    };
    let out = StdSink::new(Output::new(rt.stdout(), last));
    Progress::new(rt.alloc(), out, notes)
}

/// Runs the program.
fn run(rt: &HostRuntime, words: &[String]) -> u8 {
    let last = LastFailure::new();
    let files = StdFiles::new(rt, rt.alloc(), rt.stdin(), words, &last);
    let mut out = report_sink(rt, &last, is_noted(rt, words));
    let mut notes = StdSink::new(rt.stderr());
    let status = run_program(rt.alloc(), words, &files, &mut out, &mut notes);
    out.finish();
    note_causes(rt, rt.alloc(), words, &last, status, &mut notes);
    status
}

fn main(rt: HostRuntime) -> ExitCode {
    let status = match read_words(&rt) {
        Ok(words) => run(&rt, words.as_slice()),
        Err(fault) => {
            let last = LastFailure::new();
            let mut out = report_sink(&rt, &last, false);
            run_fault(&fault, &mut out, &mut StdSink::new(rt.stderr()))
        }
    };
    ExitCode::from(status)
}
