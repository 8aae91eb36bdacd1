//! What a file begins as that is read as another kind of file: a line on standard error says it. No contract speaks of it.

use crate::failure::{file_line, note_line};
use crate::file_words::{Kind, file_word, kind_of};
use mls_wire::Sink;
use std::alloc::Global;
use std::fs;
use std::io::Read;

/// How many bytes of a file are looked at: the digits of a receipt, and the end of its line.
const START: usize = 66;

/// Whether the bytes begin as an MLSMessage (RFC 9420, 6): with version 1 and a wire format that there is.
fn is_message(start: &[u8]) -> bool {
    match start {
        [0, 1, 0, format, ..] => *format >= 1 && *format <= 5,
        _ => false,
    }
}

/// Whether the bytes begin as an MLSMessage with a GroupInfo (12.4.3).
fn is_info(start: &[u8]) -> bool {
    start.starts_with(&[0, 1, 0, 4, 0, 1])
}

/// Whether the bytes begin as a ratchet tree (12.4.3.3): with a length, and a leaf node.
fn is_tree(start: &[u8]) -> bool {
    match start {
        [a, 1, 1, ..] => *a < 64,
        [a, _, 1, 1, ..] => *a >= 64 && *a < 128,
        [a, _, _, _, 1, 1, ..] => *a >= 128 && *a < 192,
        _ => false,
    }
}

/// Whether the bytes begin as the file of a state: with version 2 and the length of a checksum.
fn is_state(start: &[u8]) -> bool {
    start.starts_with(&[0, 2, 32])
}

/// Returns what is wrong with a file of a kind that begins with these bytes, if that can be said of them.
fn what_is_wrong(kind: Kind, start: &[u8]) -> Option<&'static str> {
    match kind {
        Kind::Log => {
            if is_message(start) {
                return Some("begins as an MLSMessage, not with the length of one");
            }
            None
        }
        Kind::Receipts => match start.get(64) {
            Some(b'\r') => Some("its lines end in CR LF, not in LF"),
            _ => None,
        },
        _ if start.is_empty() => Some("is empty"),
        Kind::Tree | Kind::State if is_message(start) => Some("begins as an MLSMessage"),
        Kind::Tree | Kind::Info if is_state(start) => Some("begins as the file of a state"),
        Kind::Context if is_info(start) => Some("begins as an MLSMessage with a GroupInfo"),
        Kind::Info if is_message(start) && !is_info(start) => {
            Some("begins as an MLSMessage without a GroupInfo")
        }
        Kind::Tree => None,
        _ if is_tree(start) => Some("begins as a ratchet tree"),
        _ => None,
    }
}

/// Returns the bytes at the front of a regular file; `None` if it is none or cannot be read.
fn start_of<R: fs::Files>(rt: &R, name: &str, start: &mut [u8; START]) -> Option<usize> {
    if !fs::metadata(rt, name).ok()?.is_file() {
        return None;
    }
    fs::open(rt, name).ok()?.read(start).ok()
}

/// Notes what is wrong with the file that the word with this index names, if it names one and that can be said.
fn note_wrong_kind<R: fs::Files, N: Sink>(
    rt: &R,
    alloc: Global,
    words: &[String],
    index: usize,
    notes: &mut N,
) {
    let Some(kind) = kind_of(words, index) else {
        return;
    };
    let file = file_word(words, index);
    let mut start = [0u8; START];
    let Some(count) = start_of(rt, file.name, &mut start) else {
        return;
    };
    if let Some(text) = what_is_wrong(kind, &start[..count.min(START)]) {
        note_line(notes, file_line(alloc, file, text));
    }
}

/// Notes what is wrong with the kinds of the files that a command line names, a line for each of which that can be said by
/// the bytes at its front. Only regular files are looked at.
pub(crate) fn note_wrong_kinds<R: fs::Files, N: Sink>(
    rt: &R,
    alloc: Global,
    words: &[String],
    notes: &mut N,
) {
    for index in 2..words.len() {
        note_wrong_kind(rt, alloc, words, index, notes);
    }
}
