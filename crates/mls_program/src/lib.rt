//! What the programs share: how files are opened and stored by name, how the command `show` is executed, and how a program
//! ends. Also the program that has `show` alone, except what opens real files and ends the process.
//!
//! [`note_causes`] notes which file failed, and why, or which file is of another kind than it is read as. No contract speaks
//! of these lines.
#![tactic(auto)]

mod causes;
mod endings;
mod failure;
mod file_words;
mod files;
mod show_execution;
mod show_program;
mod std_files;
mod words;
mod wrong_kind;

pub use causes::note_causes;
pub use endings::{end, run_fault};
pub use failure::LastFailure;
pub use files::Files;
pub use show_execution::execute_show;
pub use show_program::run_show_program;
pub use std_files::{Input, Output, StdFiles, Stream};
pub use words::read_words;
