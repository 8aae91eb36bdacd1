//! Rows of inputs that are cut, and of messages of which one bit is changed.

use crate::call_result::CallResult;
use crate::fault::RowFault;
use crate::row::{Row, have};
use crate::state::brief_state;
use crate::stories::{started, taken_text};
use crate::text_writer::TextWriter;
use mls_check::{Receipts, Trusting};
use mls_follow::{Follower, Refusal, ResumeFault};
use mls_msgs::decode_message;
use mls_nodes::{NodeFault, decode_leaf, decode_ratchet_tree};
use mls_wire::{CodecFault, WireFault, WireFaultKind};
use std::alloc::Global;
use std::mem;

// ---- cut inputs

/// Why no follower resumes from bytes, if they can't be read.
fn state_fault(alloc: Global, bytes: &[u8]) -> Option<CodecFault> {
    let Ok(bytes) = Vec::from_slice(alloc, bytes) else {
        return Some(CodecFault::OutOfMemory);
    };
    match Follower::resume(alloc, bytes, Trusting) {
        Ok(follower) => {
            drop(follower);
            None
        }
        Err(refused) => match refused.fault {
            ResumeFault::Unreadable(NodeFault::Wire(fault)) => Some(CodecFault::Wire(fault)),
            _ => Some(CodecFault::OutOfMemory),
        },
    }
}

/// Why bytes are no encoding, if they are none.
fn fault_of(alloc: Global, what: &str, bytes: &[u8]) -> Option<WireFault> {
    let fault = match what {
        "tree" => match decode_ratchet_tree(alloc, bytes).err()? {
            NodeFault::Wire(fault) => CodecFault::Wire(fault),
            _ => CodecFault::OutOfMemory,
        },
        "leaf" => decode_leaf(alloc, bytes).err()?,
        "state" => state_fault(alloc, bytes)?,
        _ => decode_message(alloc, bytes).err()?,
    };
    match fault {
        CodecFault::Wire(fault) => Some(fault),
        CodecFault::OutOfMemory => None,
    }
}

/// Whether the first bytes of an encoding are truncated, a tree at its beginning.
fn is_truncated(alloc: Global, what: &str, front: &[u8]) -> bool {
    match fault_of(alloc, what, front) {
        Some(fault) => {
            let is_in_front = if what == "tree" {
                fault.at == 0
            } else {
                fault.at <= front.len()
            };
            fault.kind == WireFaultKind::Truncated && is_in_front
        }
        None => false,
    }
}

/// `cut | tree, leaf, state or message | BYTES`: how many bytes an encoding has. Each shorter front of it has to be truncated.
pub(crate) fn cut(row: &Row) -> Result<CallResult, RowFault> {
    row.has(2);
    let bytes = row.bytes(2);
    for size in 0..bytes.len() {
        let front = bytes.as_slice().get(..size).unwrap_or(&[]);
        if !is_truncated(row.alloc, row.word(1), front) {
            row.record(RowFault::CutIsRead(size));
        }
    }
    CallResult::of(have(format!(in row.alloc; "{}", bytes.len())))
}

/// Whether a follower that starts from the first field refuses bytes as malformed.
fn is_malformed(row: &Row, bytes: &[u8]) -> bool {
    match started(row, Trusting) {
        Ok(mut follower) => {
            let taken = follower.take(bytes);
            drop(follower);
            matches!(taken, Err(Refusal::Malformed))
        }
        Err(fault) => {
            row.record(fault);
            false
        }
    }
}

/// `cut_message | INFO | MESSAGE`: how many bytes a message has. A follower that starts from a GroupInfo has to refuse each shorter front
/// of it as malformed.
pub(crate) fn cut_message(row: &Row) -> Result<CallResult, RowFault> {
    row.has(2);
    let bytes = row.bytes(2);
    for size in 0..bytes.len() {
        let front = bytes.as_slice().get(..size).unwrap_or(&[]);
        if !is_malformed(row, front) {
            row.record(RowFault::CutIsRead(size));
        }
    }
    CallResult::of(have(format!(in row.alloc; "{}", bytes.len())))
}

// ---- changed bits

/// The result for a message, if it is accepted. A refused one has to leave the state unchanged.
fn accepted(row: &Row, follower: &mut Follower<Receipts>, message: &[u8]) -> Option<String> {
    let before = row.made(brief_state(row.alloc, follower));
    match follower.take(message) {
        Ok(taken) => row.some(taken_text(row.alloc, taken)),
        Err(_) => {
            let after = row.made(brief_state(row.alloc, follower));
            if before.as_slice() != after.as_slice() {
                row.record(RowFault::Changed(1));
            }
            None
        }
    }
}

/// Whether a follower accepts the message of a field.
fn accepts(row: &Row, follower: &mut Follower<Receipts>, at: usize) -> bool {
    follower.take(row.bytes(at).as_slice()).is_ok()
}

/// Has a follower accept the messages of the fields from the third to the last but two.
fn accept_first(row: &Row, follower: &mut Follower<Receipts>) {
    for at in 3..row.len().saturating_sub(1) {
        if !accepts(row, follower, at) {
            row.refuse(at, "a message that is accepted");
        }
    }
}

/// A follower that has accepted the messages of the fields from the third to the last but two.
fn ready(row: &Row) -> Result<Follower<Receipts>, RowFault> {
    let mut follower = started(row, row.receipts(2))?;
    accept_first(row, &mut follower);
    Ok(follower)
}

/// Replaces a follower by another one that is ready.
fn make_ready(row: &Row, follower: &mut Follower<Receipts>) {
    match ready(row) {
        Ok(new) => drop(mem::replace(follower, new)),
        Err(fault) => row.record(fault),
    }
}

/// Whether a message is accepted, which has to be with the result of the unchanged one. The follower is then replaced by another one that
/// is ready.
fn is_accepted(
    row: &Row,
    follower: &mut Follower<Receipts>,
    message: &[u8],
    unchanged: &str,
) -> bool {
    match accepted(row, follower, message) {
        Some(found) => {
            if found.as_str() != unchanged {
                row.record(RowFault::OtherResult);
            }
            make_ready(row, follower);
            true
        }
        None => false,
    }
}

/// How many bits of a byte can be changed so that the message is accepted all the same.
fn unchecked_bits(
    row: &Row,
    follower: &mut Follower<Receipts>,
    message: &mut Vec<u8>,
    at: usize,
    unchanged: &str,
) -> u32 {
    let mut count = 0u32;
    for bit in [1u8, 2, 4, 8, 16, 32, 64, 128] {
        flip(message, at, bit);
        if is_accepted(row, follower, message.as_slice(), unchanged) {
            count = count.saturating_add(1);
        }
        flip(message, at, bit);
    }
    count
}

/// Changes one bit of a byte.
fn flip(message: &mut Vec<u8>, at: usize, bit: u8) {
    if let Some(byte) = message.get_mut(at) {
        *byte ^= bit;
    }
}

/// Whether a follower resumes from bytes, if each signature is good.
fn resumes(row: &Row, bytes: &[u8]) -> bool {
    let bytes = row.made(have(Vec::from_slice(row.alloc, bytes)));
    match Follower::resume(row.alloc, bytes, Trusting) {
        Ok(follower) => {
            drop(follower);
            true
        }
        Err(refused) => {
            drop(refused);
            false
        }
    }
}

/// Checks that no follower resumes from a state of which a bit of a byte is changed.
fn check_bits(row: &Row, state: &mut Vec<u8>, at: usize) {
    for bit in [1u8, 2, 4, 8, 16, 32, 64, 128] {
        flip(state, at, bit);
        if resumes(row, state.as_slice()) {
            row.record(RowFault::Changed(at));
        }
        flip(state, at, bit);
    }
}

/// `state_bits | STATE`: how many bits the file of a state has from which a follower resumes. None may resume if one of
/// them is changed.
pub(crate) fn state_bits(row: &Row) -> Result<CallResult, RowFault> {
    row.has(1);
    let mut state = row.bytes(1);
    if !resumes(row, state.as_slice()) {
        row.refuse(1, "a state");
    }
    for at in 0..state.len() {
        check_bits(row, &mut state, at);
    }
    let count = state.len().saturating_mul(8);
    CallResult::of(have(format!(in row.alloc; "{count}")))
}

/// Those of the bytes from `first` to before `end` of which no bit is checked.
fn unchecked_bytes(
    row: &Row,
    follower: &mut Follower<Receipts>,
    message: &mut Vec<u8>,
    ends: (usize, usize),
    unchanged: &str,
) -> Vec<usize> {
    let mut unchecked = Vec::new(row.alloc);
    for at in ends.0..ends.1 {
        match unchecked_bits(row, follower, message, at, unchanged) {
            0 => {}
            8 => row.require(unchecked.push(at)),
            _ => row.record(RowFault::OtherResult),
        }
    }
    unchecked
}

/// The result of a follower that is ready for the unchanged message.
fn unchanged_result(row: &Row, message: &[u8]) -> Result<String, RowFault> {
    let mut follower = ready(row)?;
    let found = accepted(row, &mut follower, message);
    drop(follower);
    match found {
        Some(found) => Ok(found),
        None => Err(RowFault::Field(row.len().saturating_sub(1), "a message that is accepted")),
    }
}

/// Numbers that rise by their runs, each as the first and the one after the last: `3..5`.
fn runs_text(alloc: Global, numbers: &[usize]) -> Result<String, RowFault> {
    let mut text = TextWriter::new(alloc);
    let mut end = 0usize;
    for number in numbers {
        if end == 0 {
            text.add_made(format!(in alloc; "{number}.."));
        } else if *number != end {
            text.add_made(format!(in alloc; "{end} {number}.."));
        }
        end = number.saturating_add(1);
    }
    if end != 0 {
        text.add_number(end as u64);
    }
    text.finish()
}

/// A field that is two numbers.
fn ends_at(row: &Row, at: usize) -> (usize, usize) {
    match row.numbers(at).as_slice() {
        [first, end] => (*first as usize, *end as usize),
        _ => {
            row.refuse(at, "two numbers");
            (0, 0)
        }
    }
}

/// The runs of those bytes of a message from the first to the one before the end whose bits aren't checked.
fn bits_result(
    row: &Row,
    message: &mut Vec<u8>,
    ends: (usize, usize),
    unchanged: &str,
) -> Result<CallResult, RowFault> {
    let mut follower = ready(row)?;
    let found = unchecked_bytes(row, &mut follower, message, ends, unchanged);
    drop(follower);
    CallResult::of(runs_text(row.alloc, found.as_slice()))
}

/// `bits | INFO | RECEIPTS | MESSAGE | .. | FIRST END`: of the last message, those of the bytes from the first to the one before the end
/// whose bits aren't checked: the message is accepted all the same, whichever of these bits is changed. Of every other byte each bit has to
/// be checked: the message is refused whichever of them is changed, which has to leave the state unchanged.
pub(crate) fn bits(row: &Row) -> Result<CallResult, RowFault> {
    row.has_at_least(4);
    let ends = ends_at(row, row.len());
    let mut message = row.bytes(row.len().saturating_sub(1));
    match unchanged_result(row, message.as_slice()) {
        Ok(unchanged) => bits_result(row, &mut message, ends, unchanged.as_str()),
        Err(fault) => Err(fault),
    }
}
