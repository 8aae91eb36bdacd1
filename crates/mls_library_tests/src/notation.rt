//! Bytes in a short notation: hexadecimal digits, with spaces between bytes. `a0*32` is the byte `a0` 32 times, and `<
//! .. >` is a vector (RFC 9420, 2.1.2) of the bytes in it.

use crate::support::{have, text};
use mls_hash::{Suite, hash};
use std::alloc::Global;
use std::mem;
use std::process::Abort;

/// A reader of the notation.
#[derive(Drop)]
struct NotationReader {
    alloc: Global,
    /// The digits after the last space or bracket.
    word: String,
    /// The bytes in the innermost bracket.
    bytes: Vec<u8>,
    /// The bytes before each bracket that is open.
    open: Vec<Vec<u8>>,
}

/// Appends the length of a vector of fewer than 16,384 bytes.
fn push_length(rt: &impl Abort, bytes: &mut Vec<u8>, length: usize) {
    if length < 64 {
        have(rt, bytes.push(length as u8));
    } else {
        assert!(rt; length < 16384, "a long vector");
        have(
            rt,
            bytes.extend_from_slice(&(length as u16 + 16384).to_be_bytes()),
        );
    }
}

impl NotationReader {
    /// Ends the digits, and appends their bytes as often as they say.
    fn end_word(&mut self, rt: &impl Abort) {
        let word = mem::replace(&mut self.word, String::new(self.alloc));
        let (digits, count) = word
            .as_str()
            .split_once('*')
            .unwrap_or((word.as_str(), "1"));
        let bytes = have(rt, hex::decode(self.alloc, digits));
        for _ in 0..have(rt, count.parse::<u16>()) {
            have(rt, self.bytes.extend_from_slice(bytes.as_slice()));
        }
    }

    /// Opens a bracket.
    fn open(&mut self, rt: &impl Abort) {
        self.end_word(rt);
        let before = mem::replace(&mut self.bytes, Vec::new(self.alloc));
        have(rt, self.open.push(before));
    }

    /// Closes a bracket.
    fn close(&mut self, rt: &impl Abort) {
        self.end_word(rt);
        let before = self.open.pop().expect(rt, "an open bracket");
        let body = mem::replace(&mut self.bytes, before);
        push_length(rt, &mut self.bytes, body.len());
        have(rt, self.bytes.extend_from_slice(body.as_slice()));
    }

    /// Reads a character.
    fn take(&mut self, rt: &impl Abort, character: char) {
        match character {
            ' ' => self.end_word(rt),
            '<' => self.open(rt),
            '>' => self.close(rt),
            digit => have(rt, self.word.push(digit)),
        }
    }
}

/// Returns the bytes of a notation.
pub(crate) fn bytes_of(rt: &impl Abort, alloc: Global, notation: &str) -> Vec<u8> {
    let mut reader = NotationReader {
        alloc,
        word: String::new(alloc),
        bytes: Vec::new(alloc),
        open: Vec::new(alloc),
    };
    for character in notation.chars() {
        reader.take(rt, character);
    }
    reader.end_word(rt);
    assert!(rt; reader.open.is_empty(), "closed brackets");
    mem::replace(&mut reader.bytes, Vec::new(alloc))
}

/// Returns a notation with the first of one text in it replaced by another.
fn replaced(rt: &impl Abort, alloc: Global, notation: &str, old: &str, new: &str) -> String {
    let (before, after) = notation
        .split_once(old)
        .expect(rt, "a part of the notation");
    have(rt, format!(in alloc; "{before}{new}{after}"))
}

/// Returns a notation with parts of it replaced, one after the other.
pub(crate) fn changed(
    rt: &impl Abort,
    alloc: Global,
    notation: &str,
    changes: &[(&str, &str)],
) -> String {
    let mut changed = have(rt, String::from_str(alloc, notation));
    for (old, new) in changes {
        changed = replaced(rt, alloc, changed.as_str(), old, new);
    }
    changed
}

/// Returns the hash of the bytes of a notation, in hexadecimal digits.
pub(crate) fn hash_of(rt: &impl Abort, alloc: Global, suite: u16, notation: &str) -> String {
    let suite = have(rt, Suite::from_u16(suite));
    let bytes = bytes_of(rt, alloc, notation);
    text(rt, alloc, hash(suite, bytes.as_slice(), &[]).as_slice())
}
