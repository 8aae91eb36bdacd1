//! Calls that only read their input.

use crate::group::{LEAVES, RECEIPTS, SIGNED_START};
use crate::output::{Output, Stop, have};
use mls_check::{Receipts, ReceiptsFault, SignatureCheck};
use mls_msgs::{Message, Profile, decode_message_in, encode_message};
use mls_wire::CodecFault;
use std::alloc::Global;

/// Encodes a message.
fn written(
    alloc: Global,
    was_refused: bool,
    answer: Result<Message, CodecFault>,
) -> Result<Output, Stop> {
    let Ok(message) = answer else {
        return Err(Stop::NotRead);
    };
    let bytes = encode_message(alloc, &message);
    drop(message);
    let bytes = have(bytes)?;
    let text = have(hex::encode(alloc, bytes.as_slice()))?;
    Ok(Output { was_refused, text })
}

/// Decodes a message in a profile. The text is its encoding.
pub(crate) fn read_message(alloc: Global, profile: Profile, message: &str) -> Result<Output, Stop> {
    let input = have(hex::decode(alloc, message))?;
    match decode_message_in(alloc, profile, input.as_slice()) {
        Err(CodecFault::OutOfMemory) => {
            let again = decode_message_in(alloc, profile, input.as_slice());
            written(alloc, true, again)
        }
        answer => written(alloc, false, answer),
    }
}

/// Returns whether the signature of a leaf node is good.
fn is_good(alloc: Global, listed: &Receipts, leaf: &str, member: u8) -> Result<bool, Stop> {
    let tbs = leaf.get(..74).unwrap_or(leaf);
    let content = have(format!(in alloc; "{SIGNED_START}{tbs}"))?;
    let content = have(hex::decode(alloc, content.as_str()))?;
    let key = [0xb0u8.wrapping_add(member)];
    let signature = [0xc0u8.wrapping_add(member)];
    Ok(listed.good(1, &key, &[content.as_slice()], &signature))
}

/// Returns which signatures are good by the receipts: those of the two leaf nodes, and that of one under the key of the
/// other.
fn listed_text(
    alloc: Global,
    was_refused: bool,
    answer: Result<Receipts, ReceiptsFault>,
) -> Result<Output, Stop> {
    let Ok(listed) = answer else {
        return Err(Stop::NotRead);
    };
    let first = is_good(alloc, &listed, LEAVES[0], 0)?;
    let second = is_good(alloc, &listed, LEAVES[1], 1)?;
    let other = is_good(alloc, &listed, LEAVES[0], 1)?;
    let text = have(format!(in alloc; "{first} {second} {other}"))?;
    Ok(Output { was_refused, text })
}

/// Reads a receipts file of two lines.
pub(crate) fn read_receipts(alloc: Global) -> Result<Output, Stop> {
    match Receipts::read(alloc, RECEIPTS.as_bytes()) {
        Err(ReceiptsFault::OutOfMemory) => {
            let again = Receipts::read(alloc, RECEIPTS.as_bytes());
            listed_text(alloc, true, again)
        }
        answer => listed_text(alloc, false, answer),
    }
}
