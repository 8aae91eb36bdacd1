//! What a client supports (RFC 9420, 7.2).

ghost use Rattle.mls_wire.specs.EncodedItems.{Parses};
ghost use Rattle.mls_nodes.specs.LeafParsing.{capabilities_at};

use mls_wire::{ItemsRef, Reader, WireFault};

/// What a client supports: five lists of codes, in this order, borrowed from the bytes that encode them.
pub struct Capabilities<'a> {
    /// Protocol versions.
    pub versions: ItemsRef<'a, u16>,
    /// Cipher suites.
    pub cipher_suites: ItemsRef<'a, u16>,
    /// Extension types.
    pub extensions: ItemsRef<'a, u16>,
    /// Proposal types.
    pub proposals: ItemsRef<'a, u16>,
    /// Credential types.
    pub credentials: ItemsRef<'a, u16>,
}

// Written out, so that a drop is one call in the proofs of its owners.
impl<'a> Drop for Capabilities<'a> {
    fn drop(self) {
        let Capabilities {
            versions: _,
            cipher_suites: _,
            extensions: _,
            proposals: _,
            credentials: _,
        } = self;
    }
}

impl<'a> Capabilities<'a> {
    /// Reads the capabilities at the front. On error the reader may have moved.
    #[tactic(auto, unfolding(crate::specs::LeafParsing::capabilities_at))]
    pub(crate) fn parse(reader: &mut Reader<'a>) -> Result<Capabilities<'a>, WireFault>
        ensures { Parses capabilities_at reader.old reader.new result }
    {
        let versions = ItemsRef::parse(reader)?;
        let cipher_suites = ItemsRef::parse(reader)?;
        let extensions = ItemsRef::parse(reader)?;
        let proposals = ItemsRef::parse(reader)?;
        let credentials = ItemsRef::parse(reader)?;
        Ok(Capabilities {
            versions,
            cipher_suites,
            extensions,
            proposals,
            credentials,
        })
    }
}
