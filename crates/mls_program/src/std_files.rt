//! The files that std opens and stores.

ghost use Rattle.std.specs.Prelude.{refl};
ghost use Rattle.mls_program.specs.Files.{unknown};

use crate::failure::{Cause, LastFailure, Place, cause_of};
use crate::file_words::index_of;
use crate::files::Files;
use mls_wire::{Source, StdSource};
use std::alloc::Global;
use std::fs::OpenFile;
use std::io::{BufReader, ErrorKind, Read, Stdin, Write};
use std::{fs, io};

/// A file with a name, or standard input.
#[derive(Drop)]
pub enum Stream<F: Read + Drop> {
    /// A file with a name.
    File(F),
    /// Standard input.
    Stdin(Stdin),
}

/// A source of bytes, about which nothing is known. Why it fails is kept.
#[derive(Drop)]
pub struct Input<'a, F: Read + Drop> {
    stream: Stream<F>,
    place: Place,
    last: &'a LastFailure,
}

impl<F: Read + Drop> Read for Input<'_, F> {
    fn read(&mut self, buf: &mut [u8]) -> io::Result<usize> {
        let taken = match &mut self.stream {
            Stream::File(file) => file.read(buf),
            Stream::Stdin(stdin) => stdin.read(buf),
        };
        if let Err(error) = &taken {
            self.last.keep(self.place, cause_of(error));
        }
        taken
    }
}

/// A writer of standard output, or of what stands for it. Why it fails is kept.
#[derive(Drop)]
pub struct Output<'a, W: Write + Drop> {
    writer: W,
    last: &'a LastFailure,
}

impl<'a, W: Write + Drop> Output<'a, W> {
    /// Returns a writer over another one.
    pub fn new(writer: W, last: &'a LastFailure) -> Output<'a, W> {
        Output { writer, last }
    }
}

impl<W: Write + Drop> Write for Output<'_, W> {
    fn write(&mut self, buf: &[u8]) -> io::Result<usize> {
        let taken = self.writer.write(buf);
        if let Err(error) = &taken {
            self.last.keep(Place::Output, cause_of(error));
        }
        taken
    }

    fn flush(&mut self) -> io::Result<()> {
        self.writer.flush()
    }
}

/// Returns the cause for which no file can be stored under this name, if there is one: it is that of something other than a
/// regular file, or the system cannot say what it is.
fn obstacle<R: fs::Files>(rt: &R, name: &str) -> Option<Cause> {
    match fs::symlink_metadata(rt, name) {
        Ok(found) if found.is_file() => None,
        Ok(found) if found.is_symlink() => Some(Cause::SymbolicLink),
        Ok(found) if found.is_dir() => Some(Cause::Folder),
        Ok(_) => Some(Cause::NotRegular),
        Err(error) if error.kind() == ErrorKind::NotFound => None,
        Err(error) => Some(cause_of(&error)),
    }
}

/// Writes a file with this name and these bytes, and waits until the device has them.
fn write_new<R: fs::Files>(rt: &R, name: &str, bytes: &[u8]) -> io::Result<()> {
    let mut file = fs::create(rt, name)?;
    file.write_all(bytes)?;
    file.sync_all()
}

/// Returns the folder of a file with this name.
fn folder_of(name: &str) -> &str {
    match name.rsplit_once('/') {
        Some(("", _)) => "/",
        Some((folder, _)) => folder,
        None => ".",
    }
}

/// Waits until the device has the names of a folder.
fn sync_folder<R: fs::Files>(rt: &R, folder: &str) -> io::Result<()> {
    fs::open(rt, folder)?.sync_all()
}

/// Writes a file under the name `beside`, then renames it to `name`, and waits until the device has the folder's names. If
/// the file cannot be written or renamed, no file `beside` is left.
fn replace<R: fs::Files>(rt: &R, name: &str, beside: &str, bytes: &[u8]) -> io::Result<()> {
    let written = write_new(rt, beside, bytes);
    let replaced = written.and_then(|()| fs::rename(rt, beside, name));
    if replaced.is_err() {
        let _ = fs::remove_file(rt, beside);
    }
    replaced?;
    sync_folder(rt, folder_of(name))
}

/// The files that std opens and stores, and standard input, whose name is `-`.
#[derive(Drop)]
pub struct StdFiles<'a, R> {
    rt: &'a R,
    alloc: Global,
    stdin: Stdin,
    words: &'a [String],
    last: &'a LastFailure,
}

impl<'a, R: fs::Files> StdFiles<'a, R> {
    /// Returns the files that `rt` opens and stores, with `stdin` as standard input. `last` is told of which word of a
    /// command line a file has failed, and why. No postcondition says what a file holds.
    pub fn new(
        rt: &'a R,
        alloc: Global,
        stdin: Stdin,
        words: &'a [String],
        last: &'a LastFailure,
    ) -> StdFiles<'a, R> {
        StdFiles {
            rt,
            alloc,
            stdin,
            words,
            last,
        }
    }

    /// Returns where this name is on the command line: standard input if it is nowhere.
    fn place_of(&self, name: &str) -> Place {
        match index_of(self.words, name) {
            Some(index) => Place::Word(index),
            None => Place::Input,
        }
    }

    /// Opens the file with this name.
    fn input(&self, name: &str) -> Option<Input<'a, R::File>> {
        let place = self.place_of(name);
        let last = self.last;
        if name == "-" {
            let stream = Stream::Stdin(self.stdin);
            return Some(Input {
                stream,
                place,
                last,
            });
        }
        match fs::open(self.rt, name) {
            Ok(file) => Some(Input {
                stream: Stream::File(file),
                place,
                last,
            }),
            Err(error) => {
                last.keep(place, cause_of(&error));
                None
            }
        }
    }

    /// Stores a file, or returns why it is not stored.
    fn store(&self, name: &str, bytes: &[u8]) -> Result<(), Cause> {
        let Ok(beside) = format!(in self.alloc; "{name}.new") else {
            return Err(Cause::Other);
        };
        if let Some(cause) = obstacle(self.rt, name) {
            return Err(cause);
        }
        if obstacle(self.rt, beside.as_str()).is_some() {
            return Err(Cause::NotBeside);
        }
        match replace(self.rt, name, beside.as_str(), bytes) {
            Ok(()) => Ok(()),
            Err(error) => Err(cause_of(&error)),
        }
    }
}

impl<'a, R: fs::Files> Files for StdFiles<'a, R> {
    type File = StdSource<BufReader<Input<'a, R::File>>>;

    ghost opener = { λ _. unknown ⟦<StdSource<BufReader<Input<'a, R::File>>> as Source>⟧.device };

    /// Opens a file. It is read through a buffer, which takes what the device has: so a log of small messages takes few
    /// reads, and no read waits while the buffer has a byte. Without memory for a buffer, it is read without one.
    fn open(&self, name: &str) -> Option<StdSource<BufReader<Input<'a, R::File>>>> {
        let reader = match BufReader::new(self.alloc, self.input(name)?) {
            Ok(reader) => reader,
            Err(_) => BufReader::with_capacity(self.alloc, 0, self.input(name)?).ok()?,
        };
        Some(StdSource::new(reader))
    }

    /// Stores a regular file in place of one that has the name. If the name is that of anything else, as of a folder, a
    /// device, a pipe or a symbolic link, nothing is written, and the result is `false`.
    ///
    /// The bytes are written to a file whose name ends in `.new`, and the device has them before this file is renamed. So
    /// at any time the name has the old file or the new one, whole, also if the disk is full or the machine stops.
    ///
    /// If the folder's names can't be written to the device, the new file is in place, and `false` says that the old
    /// one may be there again if the machine stops. Two processes must not store the same name at once. The new file has
    /// the owner and the permissions of any file that the process creates.
    fn save(&self, name: &str, bytes: &[u8]) -> bool {
        match self.store(name, bytes) {
            Ok(()) => true,
            Err(cause) => {
                self.last.keep(self.place_of(name), cause);
                false
            }
        }
    }

    ghost device_is = { λ _. refl };
}
