//! MLSMessage.

ghost use Rattle.std.specs.Prelude.{◌≡◌, ◌≤◌, ◌<◌, ℕ, List, length, Some, true, IsSome, OnOk, Err};
ghost use Rattle.mls_wire.specs.SaturatingSizes.{size};
ghost use Rattle.mls_wire.specs.Faults.{too_long_at};
ghost use Rattle.mls_wire.specs.Limits.{input_limit};
ghost use Rattle.mls_wire.specs.ReadContracts.{DecodesInput, seen};
ghost use Rattle.mls_wire.specs.Parsing.{GivesOrFull};
ghost use Rattle.mls_wire.specs.ParsingInternal.{Finds};
ghost use Rattle.mls_wire.specs.WriteContracts.{Puts};
ghost use Rattle.mls_msgs.specs.Message.{header, is_unread, message, IsMessageFault, MakesMessage};
ghost use Rattle.mls_msgs.specs.MembersReading.{message_passes};
ghost use Rattle.mls_msgs.specs.Profile.{message_in};
ghost use Rattle.mls_msgs.specs.declared.profile.Profile.TheVariants.{Members};
ghost use Rattle.mls_msgs.specs.MessageParsing.{header_at, rest_at, message_at};

use crate::bad_tag::bad_tag;
use crate::group_info::GroupInfo;
use crate::key_package::KeyPackage;
use crate::profile::{Profile, check_frame, fault_found};
use crate::public_message::PublicMessage;
use mls_wire::{
    CodecFault, Decode, Draft, Encode, MAX_INPUT, Opaque, Reader, WireFault, WireFaultKind,
    add_sizes,
};
use std::alloc::Global;

/// The offset of the wire format.
const FORMAT_AT: usize = 2;

/// The offset of the body.
const BODY_AT: usize = 4;

/// An MLSMessage of protocol version 1 (RFC 9420, 6).
#[derive(Debug, Drop)]
pub enum Message {
    /// A PublicMessage: wire format 1.
    Public(PublicMessage),
    /// A PrivateMessage (wire format 2) or a Welcome (3), whose body is not decoded.
    Unread {
        /// 2 or 3. Any other has no encoding.
        wire_format: u16,
        /// All bytes after the wire format.
        body: Opaque,
    },
    /// A GroupInfo: wire format 4.
    GroupInfo(GroupInfo),
    /// A KeyPackage: wire format 5.
    KeyPackage(KeyPackage),
}

/// Returns whether a body of this wire format is not decoded.
fn is_unread(wire_format: u16) -> bool
    ensures { result ≡ is_unread wire_format }
{
    wire_format == 2 || wire_format == 3
}

/// Reads the protocol version and the wire format, and returns the latter. `BadTag` for a version other than 1.
#[tactic(auto, unfolding(crate::specs::MessageParsing::header_at))]
fn read_header(alloc: Global, reader: &mut Reader<'_>) -> Result<u16, CodecFault>
    ensures { GivesOrFull header_at reader.old reader.new result }
{
    let mut ahead = reader.fork();
    let version = u16::read(alloc, &mut ahead)?;
    if version != 1 {
        return Err(bad_tag(version, reader.position()));
    }
    let wire_format = u16::read(alloc, &mut ahead)?;
    *reader = ahead;
    Ok(wire_format)
}

/// Reads the value that is all of the rest.
fn read_rest<T: Decode>(alloc: Global, mut reader: Reader<'_>) -> Result<T, CodecFault>
    ensures { Finds (rest_at T.reading reader.entry) result }
{
    let value = T::read(alloc, &mut reader)?;
    reader.finish()?;
    Ok(value)
}

/// Returns a copy of all bytes.
fn copy_rest(alloc: Global, bytes: &[u8]) -> Result<Opaque, CodecFault>
    requires { length bytes.now ≤ MAX_INPUT }
    ensures { Finds (Some bytes.now) result }
{
    Opaque::copy(alloc, bytes)
}

#[tactic(auto, unfolding(crate::specs::MessageParsing::message_at, crate::specs::MessageParsing::message_body_at))]
fn message_of(alloc: Global, bytes: &[u8]) -> Result<Message, CodecFault>
    requires { length bytes.now ≤ MAX_INPUT }
    ensures { Finds (message_at bytes.now) result }
{
    let mut reader = Reader::new(bytes);
    let wire_format = read_header(alloc, &mut reader)?;
    if is_unread(wire_format) {
        let (_, body) = bytes.split_at(BODY_AT);
        let body = copy_rest(alloc, body)?;
        return Ok(Message::Unread { wire_format, body });
    }
    match wire_format {
        1 => Ok(Message::Public(read_rest(alloc, reader)?)),
        4 => Ok(Message::GroupInfo(read_rest(alloc, reader)?)),
        5 => Ok(Message::KeyPackage(read_rest(alloc, reader)?)),
        other => Err(bad_tag(other, FORMAT_AT)),
    }
}

/// Refuses a message that has a proposal type outside the members' profile, as [`check_frame`] does.
fn check_message(alloc: Global, bytes: &[u8]) -> Result<(), CodecFault>
    ensures { OnOk result (message_passes (message_at bytes.now) ≡ true) }
{
    let mut reader = Reader::new(bytes);
    let wire_format = read_header(alloc, &mut reader)?;
    if wire_format == 1 {
        return check_frame(alloc, reader);
    }
    Ok(())
}

/// Decodes the message (RFC 9420, 6: MLSMessage) that the bytes encode. Each of its proposals must be in `profile`.
///
/// # Errors
///
/// - `TooLong` at 0, if there are more than 268,435,456 bytes. This is checked first, and before any allocation.
/// - `BadTag` of the version at 0, if it is not 1; `BadTag` of the wire format at 2, if it is not 1 to 5.
/// - `BadTag` of the type at its offset, for the first proposal type that the profile does not have. Nothing after the
///   type is checked first.
/// - Otherwise the first fault of the bytes from the left.
/// - `OutOfMemory`.
#[tactic(auto, using(crate::proofs::Profiles::messages_in))]
pub fn decode_message_in(
    alloc: Global,
    profile: Profile,
    bytes: &[u8],
) -> Result<Message, CodecFault>
    ensures decoded { DecodesInput (message_in profile) bytes.now result }
    ensures long { input_limit < length bytes.now → result ≡ Err (CodecFault.Wire (too_long_at 0)) }
{
    if bytes.len() > MAX_INPUT {
        return Err(CodecFault::Wire(WireFault {
            kind: WireFaultKind::TooLong,
            at: 0,
        }));
    }
    match message_of(alloc, bytes) {
        Ok(message) => {
            if profile.has_message(&message) {
                return Ok(message);
            }
            drop(message);
            Err(fault_found(check_message(alloc, bytes)))
        }
        Err(CodecFault::OutOfMemory) => Err(CodecFault::OutOfMemory),
        Err(CodecFault::Wire(fault)) => Err(profile.fault_of(check_message(alloc, bytes), fault)),
    }
}

/// Decodes the message of the members' profile that the bytes encode, as [`decode_message_in`] does.
pub fn decode_message(alloc: Global, bytes: &[u8]) -> Result<Message, CodecFault>
    ensures decoded { DecodesInput (message_in Members) bytes.now result }
    ensures long { input_limit < length bytes.now → result ≡ Err (CodecFault.Wire (too_long_at 0)) }
{
    decode_message_in(alloc, Profile::Members, bytes)
}

/// Returns the encoded length of the protocol version and the wire format.
#[tactic(auto, using(mls_nodes::specs::TagSizes::tag_sizes), unfolding(crate::specs::Message::header))]
fn size_of_header(wire_format: u16) -> Option<usize>
    ensures { result ≡ size (header wire_format) }
{
    add_sizes(Some(2), wire_format.size())
}

/// Returns the encoded length of a message.
#[tactic(auto, using(crate::proofs::Rooms::sizes), unfolding(crate::specs::Message::message))]
fn size_of_message(value: &Message) -> Option<usize>
    ensures { result ≡ size (message value.now) }
{
    match value {
        Message::Public(public) => add_sizes(size_of_header(1), public.size()),
        Message::Unread { wire_format, body } => {
            if !is_unread(*wire_format) {
                return None;
            }
            add_sizes(size_of_header(*wire_format), Some(body.as_slice().len()))
        }
        Message::GroupInfo(info) => add_sizes(size_of_header(4), info.size()),
        Message::KeyPackage(key_package) => add_sizes(size_of_header(5), key_package.size()),
    }
}

/// Returns the fault of a message that has no encoding.
fn fault_of(value: &Message) -> WireFault
    ensures { IsMessageFault value.now result }
{
    let (kind, at) = match value {
        Message::Unread { wire_format, .. } if !is_unread(*wire_format) => {
            (WireFaultKind::BadTag(*wire_format), FORMAT_AT)
        }
        _ => (WireFaultKind::TooLong, 0),
    };
    WireFault { kind, at }
}

/// Writes the protocol version and the wire format.
#[tactic(auto, using(mls_wire::specs::WriteSequences::written), unfolding(crate::specs::Message::header))]
fn put_header(draft: &mut Draft, wire_format: u16) -> Result<(), CodecFault>
    ensures { Puts (header wire_format) draft.old draft.new result }
{
    draft.put_u16(1)?;
    draft.put_u16(wire_format)
}

/// Writes a message that has an encoding.
#[tactic(auto, using(mls_wire::specs::WriteSequences::written), unfolding(crate::specs::Message::message))]
fn put_message(alloc: Global, value: &Message, draft: &mut Draft) -> Result<(), CodecFault>
    requires { IsSome (message value.now) }
    ensures { Puts (message value.now) draft.old draft.new result }
{
    match value {
        Message::Public(public) => {
            put_header(draft, 1)?;
            public.put(alloc, draft)
        }
        Message::Unread { wire_format, body } => {
            put_header(draft, *wire_format)?;
            draft.put_bytes(body.as_slice())
        }
        Message::GroupInfo(info) => {
            put_header(draft, 4)?;
            info.put(alloc, draft)
        }
        Message::KeyPackage(key_package) => {
            put_header(draft, 5)?;
            key_package.put(alloc, draft)
        }
    }
}

/// Encodes a message.
///
/// # Errors
///
/// Except for `OutOfMemory`, exactly if the message has no encoding, which is checked before anything is allocated:
/// `BadTag` at offset 2 if an unread message has a wire format other than 2 and 3, else `TooLong` at 0 for a vector
/// over the limit.
#[tactic(auto, using(crate::proofs::Rooms::message_made))]
pub fn encode_message(alloc: Global, value: &Message) -> Result<Vec<u8>, CodecFault>
    ensures encoded { MakesMessage value.now (seen (λ bytes. bytes.items) result) }
{
    let Some(size) = size_of_message(value) else {
        return Err(CodecFault::Wire(fault_of(value)));
    };
    let mut draft = Draft::after(Vec::with_capacity(alloc, size)?);
    put_message(alloc, value, &mut draft)?;
    Ok(draft.finish())
}
