//! Lists that fit into one vector (RFC 9420, 2.1.2): their items have at most 1,073,741,823 bytes, so each of them has
//! an encoding.

use crate::extension::Extension;
use crate::senders::ExternalSender;
use mls_wire::{EncodedItems, Items, Opaque};

/// Protocol versions, cipher suites, or types of extensions, proposals and credentials. Any `u16` is stored, known or
/// not. A list of at most 6 codes is stored in place.
pub type Codes = mls_wire::Codes;

/// A chain of certificates, the member's own first (RFC 9420, 5.3).
pub type CertChain = EncodedItems<Opaque>;

/// Extensions of a leaf node or a group, in their order.
pub type Extensions = EncodedItems<Extension>;

/// External senders, in the order in which `sender_index` numbers them.
pub type ExternalSenders = Items<ExternalSender>;
