//! Notes on the progress of a long report, next to the report.

ghost use Rattle.std.specs.Prelude.{◌≡◌};

use mls_wire::{DeviceFault, Sink, write_all};
use std::alloc::Global;

/// After how many lines there is a note.
const NOTED_LINES: u64 = 1000;

/// A sink that passes what it takes to another one. For each thousand lines it notes how many messages were reported so
/// far, if it has a sink for notes. The notes are written over one another in one line. Whether a note could be written is
/// ignored.
#[derive(Drop)]
pub struct Progress<K: Sink, N: Sink> {
    out: K,
    notes: Option<N>,
    lines: u64,
    noted: u64,
    alloc: Global,
}

impl<K: Sink, N: Sink> Progress<K, N> {
    /// Returns a sink over another one, with its notes on a third, if there is one.
    pub fn new(alloc: Global, out: K, notes: Option<N>) -> Progress<K, N>
        ensures { ⟦<Progress<K, N> as Sink>⟧.device result ≡ K.device out }
    {
        Progress {
            out,
            notes,
            lines: 0,
            noted: 0,
            alloc,
        }
    }

    /// Writes a note over the last one.
    fn note(&mut self)
        ensures { self.new.out ≡ self.old.out }
    {
        let Some(notes) = &mut self.notes else {
            return;
        };
        let lines = self.lines;
        if let Ok(text) = format!(in self.alloc; "\rmlscheck: {lines} messages") {
            let _ = write_all(notes, text.as_bytes());
        }
    }

    /// Counts the lines that end in these bytes, and notes them if they are many.
    fn count(&mut self, bytes: &[u8])
        ensures { self.new.out ≡ self.old.out }
    {
        if self.notes.is_none() {
            return;
        }
        let ended = bytes.iter().filter(|byte| **byte == b'\n').count();
        self.lines = self.lines.saturating_add(ended as u64);
        if self.lines / NOTED_LINES > self.noted {
            self.noted = self.lines / NOTED_LINES;
            self.note();
        }
    }

    /// Ends the line of the notes, if there is one.
    pub fn finish(&mut self)
        ensures { ⟦<Progress<K, N> as Sink>⟧.device self.new ≡ ⟦<Progress<K, N> as Sink>⟧.device self.old }
    {
        if self.noted == 0 {
            return;
        }
        self.noted = 0;
        if let Some(notes) = &mut self.notes {
            let _ = write_all(notes, b"\n");
        }
    }
}

impl<K: Sink, N: Sink> Sink for Progress<K, N> {
    ghost device = { λ s. K.device s.out };

    fn push(&mut self, bytes: &[u8]) -> Result<usize, DeviceFault> {
        let n = self.out.push(bytes)?;
        self.count(&bytes[..n]);
        Ok(n)
    }

    fn failed(&self) -> bool {
        self.out.failed()
    }
}
