//! The call that reads the facts of a message, for a caller in another language.

ghost use Rattle.std.specs.Prelude.{◌≡◌, ◌<◌, length, option_map};
ghost use Rattle.mls_wire.specs.Limits.{input_limit};
ghost use Rattle.mls_c.specs.MessageFacts.{bytes_or_none, PutsFacts};

use crate::buffer::put_both;
use crate::fact_numbers::{FactNumbers, numbers_of};
use crate::follower_calls::MALFORMED;
use crate::input_verdict::OUT_OF_MEMORY;
use mls_facts::message_facts;
use mls_msgs::{Profile, decode_message_in};
use mls_wire::CodecFault;
use std::alloc::Global;

/// Returns the bytes, or no bytes if there are none.
fn bytes_or_none(found: Option<&[u8]>) -> &[u8]
    ensures { result.now ≡ bytes_or_none (option_map (λ bytes. bytes.now) found.entry) }
{
    match found {
        Some(bytes) => bytes,
        None => &[],
    }
}

/// Writes the facts of a message that do not depend on a group (RFC 9420, 6, 6.1, 12.1 and 12.4), and puts its group ID and its
/// signature key into buffers. The message is decoded in the full profile. Nothing is checked: each fact is what the message
/// says of itself.
#[unsafe(no_mangle)]
pub extern "C" fn mls_message_facts(
    alloc: Global,
    message: &[u8],
    facts: &mut FactNumbers,
    group_id: &mut [u8],
    group_id_needed: &mut usize,
    signature_key: &mut [u8],
    signature_key_needed: &mut usize,
) -> u32
    ensures reads { PutsFacts message.now facts.old facts.new
        group_id.old group_id.new group_id_needed.new
        signature_key.old signature_key.new signature_key_needed.new result }
    ensures long { input_limit < length message.now → result ≡ 1 }
{
    *group_id_needed = 0;
    *signature_key_needed = 0;
    let decoded = match decode_message_in(alloc, Profile::Full, message) {
        Ok(decoded) => decoded,
        Err(CodecFault::Wire(_)) => return MALFORMED,
        Err(CodecFault::OutOfMemory) => return OUT_OF_MEMORY,
    };
    let found = message_facts(&decoded);
    *facts = numbers_of(&found);
    let id = bytes_or_none(found.group_id);
    let key = bytes_or_none(found.signature_key);
    *group_id_needed = id.len();
    *signature_key_needed = key.len();
    put_both(id, group_id, key, signature_key)
}
