//! The header of an MLSMessage (RFC 9420, 6).

ghost use Rattle.std.specs.Prelude.{◌≡◌, IfSome, IfNone};
ghost use Rattle.mls_msgs.specs.Message.{is_unread};
ghost use Rattle.mls_follow.specs.MessageHeader.{IsWireFormat, HasHeader, HasNoHeader};

use mls_wire::Reader;

/// Returns the wire format that the first four bytes of an MLSMessage name (RFC 9420, 6). `None` if they name another
/// protocol version than 1, or no wire format from 1 to 5, or if there are fewer. Nothing is allocated.
pub(crate) fn wire_format_of(bytes: &[u8]) -> Option<u16>
    ensures known { IfSome result (λ wire_format. IsWireFormat wire_format) }
    ensures header { IfSome result (λ wire_format. HasHeader wire_format bytes.now) }
    ensures none { IfNone result (HasNoHeader bytes.now) }
{
    let mut reader = Reader::new(bytes);
    let Ok(version) = reader.read_u16() else {
        return None;
    };
    if version != 1 {
        return None;
    }
    let Ok(wire_format) = reader.read_u16() else {
        return None;
    };
    if wire_format < 1 || wire_format > 5 {
        return None;
    }
    Some(wire_format)
}

/// Returns whether the body of a message of this wire format is stored unread: of a PrivateMessage or a Welcome.
pub(crate) fn is_unread(wire_format: u16) -> bool
    ensures { result ≡ is_unread wire_format }
{
    wire_format == 2 || wire_format == 3
}
