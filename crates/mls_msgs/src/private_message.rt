//! The front of a PrivateMessage.

ghost use Rattle.std.specs.Prelude.{◌≡◌};
ghost use Rattle.mls_wire.specs.EncodedItems.{Parses};
ghost use Rattle.mls_msgs.specs.BodyContracts.{ReadsFront};
ghost use Rattle.mls_msgs.specs.PrivateMessage.{private_message};
ghost use Rattle.mls_msgs.specs.PrivateMessageParsing.{content_type_at, private_message_at};

use mls_wire::{OpaqueRef, Reader, WireFault, WireFaultKind, parse_u8, parse_u64};

/// The type of the encrypted content of a PrivateMessage (RFC 9420, 6: ContentType).
#[derive(Clone, Copy, Debug, PartialEq, Eq)]
pub enum PrivateContent {
    /// Application data: 1.
    Application,
    /// A proposal: 2.
    Proposal,
    /// A commit: 3.
    Commit,
}

/// The group ID, the epoch and the content type of a PrivateMessage (RFC 9420, 6.3), borrowed from the bytes that encode it.
/// Only members can check them.
#[derive(Clone, Copy, Debug, PartialEq, Eq)]
pub struct PrivateFront<'a> {
    /// The group ID.
    pub group_id: &'a [u8],
    /// The epoch in which it was sent.
    pub epoch: u64,
    /// The type of its encrypted content.
    pub content: PrivateContent,
}

/// A PrivateMessage (RFC 9420, 6.3): its fields, borrowed from the bytes that encode them.
#[derive(Drop)]
struct PrivateMessage<'a> {
    group_id: OpaqueRef<'a>,
    epoch: u64,
    content_type: PrivateContent,
    authenticated_data: OpaqueRef<'a>,
    encrypted_sender_data: OpaqueRef<'a>,
    ciphertext: OpaqueRef<'a>,
}

/// Reads the content type at the front. `BadTag` for a value other than 1 to 3. On error the reader may have moved.
#[tactic(auto, unfolding(crate::specs::PrivateMessageParsing::content_type_at))]
fn parse_content_type(reader: &mut Reader<'_>) -> Result<PrivateContent, WireFault>
    ensures { Parses content_type_at reader.old reader.new result }
{
    let at = reader.position();
    match parse_u8(reader)? {
        1 => Ok(PrivateContent::Application),
        2 => Ok(PrivateContent::Proposal),
        3 => Ok(PrivateContent::Commit),
        kind => Err(WireFault {
            kind: WireFaultKind::BadTag(u16::from(kind)),
            at,
        }),
    }
}

impl<'a> PrivateMessage<'a> {
    /// Reads the PrivateMessage at the front. On error the reader may have moved.
    #[tactic(auto, unfolding(crate::specs::PrivateMessageParsing::private_message_at))]
    fn parse(reader: &mut Reader<'a>) -> Result<PrivateMessage<'a>, WireFault>
        ensures { Parses private_message_at reader.old reader.new result }
    {
        let group_id = OpaqueRef::parse(reader)?;
        let epoch = parse_u64(reader)?;
        let content_type = parse_content_type(reader)?;
        let authenticated_data = OpaqueRef::parse(reader)?;
        let encrypted_sender_data = OpaqueRef::parse(reader)?;
        let ciphertext = OpaqueRef::parse(reader)?;
        Ok(PrivateMessage {
            group_id,
            epoch,
            content_type,
            authenticated_data,
            encrypted_sender_data,
            ciphertext,
        })
    }
}

/// Returns the front of the PrivateMessage whose encoding is all of the bytes: the body of a message of wire format 2.
/// Nothing is copied or decrypted.
///
/// # Errors
///
/// `BadTag` at the content type, if it is not 1 to 3. Otherwise the first fault of the bytes from the left, `Trailing` if
/// bytes are left. Offsets are counted from the start of the body.
pub fn read_private(body: &[u8]) -> Result<PrivateFront<'_>, WireFault>
    ensures { ReadsFront private_message body.now result (λ m front.
        (front.group_id.now ≡ m.group_id) × (front.epoch ≡ m.epoch) × (front.content ≡ m.content_type)) }
{
    let mut reader = Reader::new(body);
    let message = PrivateMessage::parse(&mut reader)?;
    reader.finish()?;
    Ok(PrivateFront {
        group_id: message.group_id.as_slice(),
        epoch: message.epoch,
        content: message.content_type,
    })
}
