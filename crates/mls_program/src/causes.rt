//! What a program notes after a run that ended with no or with a fault: what is wrong with the files, or what has failed.

use crate::failure::LastFailure;
use crate::wrong_kind::note_wrong_kinds;
use mls_wire::Sink;
use std::alloc::Global;
use std::fs;

/// Notes why a run ended with this status: after 1 which files begin as another kind of file, after 3 which file or stream
/// failed last. The words are those of the command line.
pub fn note_causes<R: fs::Files, N: Sink>(
    rt: &R,
    alloc: Global,
    words: &[String],
    last: &LastFailure,
    status: u8,
    notes: &mut N,
) {
    match status {
        1 => note_wrong_kinds(rt, alloc, words, notes),
        3 => last.note(alloc, words, notes),
        _ => {}
    }
}
