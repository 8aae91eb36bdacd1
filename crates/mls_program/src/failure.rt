//! Which file or stream failed last, and why: a line on standard error says it. No contract speaks of it.

use crate::file_words::{FileWord, file_word};
use mls_wire::{Sink, write_all};
use std::alloc::{AllocError, Global};
use std::cell::Cell;
use std::io::{self, ErrorKind};

/// Why a file or a stream has failed.
#[derive(Clone, Copy)]
pub(crate) enum Cause {
    /// The system's error with this number.
    System(i32),
    /// The name is that of a folder.
    Folder,
    /// The name is that of a symbolic link.
    SymbolicLink,
    /// The name is that of a device, a pipe or a socket.
    NotRegular,
    /// No file can be written under the name with `.new` at its end.
    NotBeside,
    /// Another cause.
    Other,
}

/// What has failed.
#[derive(Clone, Copy)]
pub(crate) enum Place {
    /// The file that the word with this index names.
    Word(usize),
    /// Standard input.
    Input,
    /// Standard output.
    Output,
}

/// A failure: of what, and why.
#[derive(Clone, Copy)]
struct Failure {
    place: Place,
    cause: Cause,
}

/// The last failure of the files and streams of a process.
#[derive(Drop)]
pub struct LastFailure {
    failure: Cell<Option<Failure>>,
}

/// Returns the cause of an error.
pub(crate) fn cause_of(error: &io::Error) -> Cause {
    match error.raw_os_error() {
        Some(code) => Cause::System(code),
        None => Cause::Other,
    }
}

/// Returns the text of the system's error with this number.
fn system_text(alloc: Global, code: i32) -> Result<String, AllocError> {
    let error = io::Error::from_raw_os_error(code);
    let text = match error.kind() {
        ErrorKind::NotFound => "no such file",
        ErrorKind::PermissionDenied => "no permission",
        ErrorKind::IsADirectory => "is a folder",
        ErrorKind::NotADirectory => "a part of the path is no folder",
        ErrorKind::InvalidFilename => "the name is too long",
        ErrorKind::FilesystemLoop => "too many symbolic links",
        ErrorKind::StorageFull => "no space is left",
        ErrorKind::ReadOnlyFilesystem => "the file system is read-only",
        ErrorKind::BrokenPipe => "nobody reads it",
        _ => return format!(in alloc; "{error}"),
    };
    String::from_str(alloc, text)
}

/// Returns a cause as text.
fn cause_text(alloc: Global, cause: Cause) -> Result<String, AllocError> {
    match cause {
        Cause::System(code) => system_text(alloc, code),
        Cause::Folder => String::from_str(alloc, "is a folder"),
        Cause::SymbolicLink => String::from_str(alloc, "is a symbolic link"),
        Cause::NotRegular => String::from_str(alloc, "is no regular file"),
        Cause::NotBeside => String::from_str(
            alloc,
            "no file can be written as this name with .new",
        ),
        Cause::Other => String::from_str(alloc, "failed"),
    }
}

/// Returns a line about a file: the option that names it, if there is one, its name, and the text.
pub(crate) fn file_line(
    alloc: Global,
    file: FileWord<'_>,
    text: &str,
) -> Result<String, AllocError> {
    let name = file.name;
    match file.option {
        Some(option) => format!(in alloc; "{option} {name}: {text}\n"),
        None => format!(in alloc; "{name}: {text}\n"),
    }
}

/// Returns the line of a failure. The words are those of the command line.
fn failure_line(alloc: Global, failure: Failure, words: &[String]) -> Result<String, AllocError> {
    let text = cause_text(alloc, failure.cause)?;
    let text = text.as_str();
    match failure.place {
        Place::Word(index) => {
            let file = file_word(words, index);
            if file.name.is_empty() {
                return file_line(alloc, file, "the name is empty");
            }
            file_line(alloc, file, text)
        }
        Place::Input => format!(in alloc; "standard input: {text}\n"),
        Place::Output => format!(in alloc; "standard output: {text}\n"),
    }
}

/// Notes a line. If there is no memory for it or `notes` fails, that cannot be reported.
pub(crate) fn note_line<N: Sink>(notes: &mut N, line: Result<String, AllocError>) {
    if let Ok(line) = line {
        let _ = write_all(notes, line.as_bytes());
    }
}

impl LastFailure {
    /// Returns that nothing has failed yet.
    pub fn new() -> LastFailure {
        LastFailure {
            failure: Cell::new(None),
        }
    }

    /// Keeps a failure, in place of the one before.
    pub(crate) fn keep(&self, place: Place, cause: Cause) {
        self.failure.set(Some(Failure { place, cause }));
    }

    /// Notes which file or stream failed last, and why, if one has failed. The words are those of the command line.
    pub(crate) fn note<N: Sink>(&self, alloc: Global, words: &[String], notes: &mut N) {
        if let Some(failure) = self.failure.get() {
            note_line(notes, failure_line(alloc, failure, words));
        }
    }
}
