//! The encoded credential of a leaf node.

ghost use Rattle.std.specs.Prelude.{◌≡◌, Some};
ghost use Rattle.mls_nodes.specs.Layout.{credential};
ghost use Rattle.mls_nodes.specs.StoredLeaf.{IsAfterKeys};

use mls_nodes::EncodedLeaf;
use mls_wire::{OpaqueRef, Reader, parse_u16};

/// Returns a reader of what follows the two keys of a leaf node: its credential first.
fn after_keys(leaf: &EncodedLeaf) -> Reader<'_>
    ensures { IsAfterKeys leaf.now result }
{
    let mut reader = Reader::new(leaf.encoding());
    let Ok(_) = OpaqueRef::parse(&mut reader) else {
        unreachable!();
    };
    let Ok(_) = OpaqueRef::parse(&mut reader) else {
        unreachable!();
    };
    reader
}

/// Returns the bytes that encode the credential of a leaf node. No certificate is read: the body of each credential is a
/// vector (RFC 9420, 5.3).
pub(crate) fn credential_bytes(leaf: &EncodedLeaf) -> &[u8]
    ensures { credential leaf.now.credential ≡ Some result.now }
{
    let mut reader = after_keys(leaf);
    let bytes = reader.left();
    let Ok(_) = parse_u16(&mut reader) else {
        unreachable!();
    };
    let Ok(_) = OpaqueRef::parse(&mut reader) else {
        unreachable!();
    };
    &bytes[..bytes.len() - reader.left().len()]
}
