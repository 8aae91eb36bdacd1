//! Leaf nodes (RFC 9420, 7.2).
ghost use Rattle.std.specs.Prelude.{◌↔◌, IsTrue};
ghost use Rattle.mls_wire.specs.EncodedItems.{Parses};
ghost use Rattle.mls_nodes.specs.Layout.{leaf};
ghost use Rattle.mls_nodes.specs.LeafParsing.{leaf_node_at};
ghost use Rattle.mls_nodes.specs.PlainLeaf.{IsPlain};

use crate::capabilities::Capabilities;
use crate::codes::lists_code;
use crate::credential::{CredentialBody, CredentialRef};
use crate::extension::Extension;
use crate::leaf_source::LeafSource;
use mls_wire::{ItemsRef, OpaqueRef, Reader, WireFault};

/// The code of basic credentials (RFC 9420, 5.3).
const BASIC: u16 = 1;

/// A member of a group, as its leaf of the ratchet tree shows it (RFC 9420, 7.2): its fields, borrowed from the bytes
/// that encode them.
pub struct LeafNode<'a> {
    /// The public key to which secrets are encrypted.
    pub encryption_key: OpaqueRef<'a>,
    /// The public key under which the member signs.
    pub signature_key: OpaqueRef<'a>,
    /// Who the member claims to be.
    pub credential: CredentialRef<'a>,
    /// What its client supports.
    pub capabilities: Capabilities<'a>,
    /// How the leaf came into the tree.
    pub source: LeafSource<'a>,
    /// The leaf's extensions.
    pub extensions: ItemsRef<'a, Extension>,
    /// The member's signature over the fields above.
    pub signature: OpaqueRef<'a>,
}

// Written out, so that a drop is one call in the proofs of its owners.
impl<'a> Drop for LeafNode<'a> {
    fn drop(self) {
        let LeafNode {
            encryption_key: _,
            signature_key: _,
            credential: _,
            capabilities: _,
            source: _,
            extensions: _,
            signature: _,
        } = self;
    }
}

impl<'a> LeafNode<'a> {
    /// Reads the leaf node at the front. On error the reader may have moved.
    #[tactic(auto, unfolding(crate::specs::LeafParsing::leaf_node_at))]
    pub(crate) fn parse(reader: &mut Reader<'a>) -> Result<LeafNode<'a>, WireFault>
        ensures { Parses leaf_node_at reader.old reader.new result }
    {
        let encryption_key = OpaqueRef::parse(reader)?;
        let signature_key = OpaqueRef::parse(reader)?;
        let credential = CredentialRef::parse(reader)?;
        let capabilities = Capabilities::parse(reader)?;
        let source = LeafSource::parse(reader)?;
        let extensions = ItemsRef::parse(reader)?;
        let signature = OpaqueRef::parse(reader)?;
        Ok(LeafNode {
            encryption_key,
            signature_key,
            credential,
            capabilities,
            source,
            extensions,
            signature,
        })
    }

    /// Returns whether the leaf node has no extensions, and has and supports a basic credential.
    pub(crate) fn is_plain(&self) -> bool
        ensures { IsTrue result ↔ IsPlain self.now }
    {
        match self.credential.body() {
            CredentialBody::Basic(_) => {
                self.extensions.is_empty() && lists_code(&self.capabilities.credentials, BASIC)
            }
            CredentialBody::X509(_) => false,
        }
    }
}
