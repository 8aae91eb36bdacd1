//! A signature that has to be verified.

use mls_wire::{Opaque, Sequence};

/// A signature that has to be verified: whether it is good for `content`, a SignContent (RFC 9420, 5.1.2), under the
/// public key `key` in the cipher suite `suite`.
#[derive(Debug, Drop)]
pub struct SignatureToVerify {
    /// The cipher suite.
    pub suite: u16,
    /// The public key.
    pub key: Opaque,
    /// What is signed.
    pub content: Sequence<u8>,
    /// The signature.
    pub signature: Opaque,
}
