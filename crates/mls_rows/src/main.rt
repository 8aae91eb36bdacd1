//! The program `mls_rows`: it reads files of worked examples, whose names are its arguments, makes the call of each row, and compares
//! the result with the one that the row has. docs/TESTING.md has the notation and the kinds.
//!
//! The names of the first file are defined in all files, those of another file in this file alone. The program prints the file and the
//! number of each line that is wrong, and for each file how many names and rows of each kind it has. The exit status is 0 if each row is
//! right, and 1 if anything is wrong.
#![tactic(auto)]

mod bytes;
mod call_result;
mod calls;
mod check_calls;
mod codec_calls;
mod entries;
mod expected;
mod fault;
mod field_calls;
mod file;
mod hash_calls;
mod hostile_calls;
mod key_calls;
mod list_calls;
mod names;
mod proposal_calls;
mod row;
mod run_calls;
mod state;
mod state_calls;
mod stories;
mod text_writer;
mod token;
mod tree_calls;

use crate::file::take_file;
use crate::names::Names;
use std::process::ExitCode;
use std::{env, io};

/// Reads the files, and returns how much is wrong.
fn take_files(rt: &HostRuntime, files: &[String]) -> io::Result<usize> {
    let mut names = Names::new(rt.alloc());
    let mut shared = None;
    let mut wrong = 0usize;
    for file in files {
        wrong = wrong.saturating_add(take_file(rt, &mut names, file.as_str())?);
        match shared {
            None => shared = Some(names.len()),
            Some(count) => names.keep_first(count),
        }
    }
    Ok(wrong)
}

/// Reads the files that the arguments name.
fn run(rt: &HostRuntime) -> io::Result<usize> {
    let words: Vec<String> = env::args(rt)?.collect(rt.alloc())?;
    match words.as_slice() {
        [] | [_] => {
            println!(rt; "usage: mls_rows FILE ..")?;
            Ok(1)
        }
        [_, files @ ..] => take_files(rt, files),
    }
}

fn main(rt: HostRuntime) -> ExitCode {
    match run(&rt) {
        Ok(0) => ExitCode::from(0),
        _ => ExitCode::from(1),
    }
}
