//! Text that is put together piece by piece.

use crate::fault::RowFault;
use std::alloc::Global;

/// Text that is put together piece by piece, and whether there was memory for each piece.
#[derive(Drop)]
pub(crate) struct TextWriter {
    pub(crate) alloc: Global,
    text: String,
    is_whole: bool,
}

impl TextWriter {
    /// Nothing yet.
    pub(crate) fn new(alloc: Global) -> TextWriter {
        TextWriter {
            alloc,
            text: String::new(alloc),
            is_whole: true,
        }
    }

    /// Adds a piece.
    pub(crate) fn add(&mut self, piece: &str) {
        if self.text.push_str(piece).is_err() {
            self.fail();
        }
    }

    /// Adds a character.
    pub(crate) fn add_char(&mut self, c: char) {
        if self.text.push(c).is_err() {
            self.fail();
        }
    }

    /// Adds a piece if there is one before it.
    pub(crate) fn separate(&mut self, piece: &str) {
        if !self.text.is_empty() {
            self.add(piece);
        }
    }

    /// Adds a piece that was made, if it was.
    pub(crate) fn add_made<E: Drop>(&mut self, made: Result<String, E>) {
        match made {
            Ok(piece) => self.add(piece.as_str()),
            Err(_) => self.fail(),
        }
    }

    /// Adds the hexadecimal digits of bytes.
    pub(crate) fn add_digits(&mut self, bytes: &[u8]) {
        self.add_made(hex::encode(self.alloc, bytes));
    }

    /// Adds the hexadecimal digits of bytes that were made, if they were.
    pub(crate) fn add_made_digits<E: Drop>(&mut self, made: Result<Vec<u8>, E>) {
        match made {
            Ok(bytes) => self.add_digits(bytes.as_slice()),
            Err(_) => self.fail(),
        }
    }

    /// Adds a number.
    pub(crate) fn add_number(&mut self, number: u64) {
        self.add_made(format!(in self.alloc; "{number}"));
    }

    /// Records that there was no memory for something.
    pub(crate) fn fail(&mut self) {
        self.is_whole = false;
    }

    /// The text, if there was memory for each piece.
    pub(crate) fn finish(self) -> Result<String, RowFault> {
        let TextWriter { text, is_whole, .. } = self;
        if is_whole {
            Ok(text)
        } else {
            Err(RowFault::OutOfMemory)
        }
    }
}
