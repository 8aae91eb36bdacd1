//! The program `mlscheck_show`, which has the command `show` alone: passes its command line, the files and the standard
//! streams to [`mls_program::run_show_program`], and ends with the exit status that this returns: 0 for yes and for help, 1
//! for no, 2 for a usage error and for another command, 3 for a fault.
#![tactic(auto)]

use mls_program::{
    LastFailure, Output, StdFiles, note_causes, read_words, run_fault, run_show_program,
};
use mls_wire::StdSink;
use std::process::ExitCode;

/// Runs the program.
fn run(rt: &HostRuntime, words: &[String]) -> u8 {
    let last = LastFailure::new();
    let files = StdFiles::new(rt, rt.alloc(), rt.stdin(), words, &last);
    let mut out = StdSink::new(Output::new(rt.stdout(), &last));
    let mut notes = StdSink::new(rt.stderr());
    let status = run_show_program(rt.alloc(), words, &files, &mut out, &mut notes);
    note_causes(rt, rt.alloc(), words, &last, status, &mut notes);
    status
}

fn main(rt: HostRuntime) -> ExitCode {
    let status = match read_words(&rt) {
        Ok(words) => run(&rt, words.as_slice()),
        Err(fault) => {
            let mut out = StdSink::new(rt.stdout());
            run_fault(&fault, &mut out, &mut StdSink::new(rt.stderr()))
        }
    };
    ExitCode::from(status)
}
