//! Parent nodes (RFC 9420, 7.1).

ghost use Rattle.mls_wire.specs.WriteContracts.{WritesPiece};
ghost use Rattle.mls_nodes.specs.Layout.{parent};

use crate::unmerged::Unmerged;
use mls_wire::{CodecFault, Decode, Draft, Encode, Opaque, Reader, TryClone, Writer};
use std::alloc::Global;

/// A parent of the ratchet tree, whose private key the members below it share.
#[derive(Debug, Drop)]
pub struct ParentNode {
    /// The public key to which secrets are encrypted.
    pub encryption_key: Opaque,
    /// The parent hash of the next parent above, empty if there is none.
    pub parent_hash: Opaque,
    /// The leaves below it whose members do not know its private key.
    pub unmerged: Unmerged,
}

impl Decode for ParentNode {
    ghost use Rattle.mls_nodes.specs.ParsingInternal.{parent_node_at};
    ghost use Rattle.mls_nodes.specs.NodesExact.{parent_exact, parent_long};

    ghost encoding = { parent };

    ghost reading = { parent_node_at };

    #[tactic(auto, unfolding(crate::specs::ParsingInternal::parent_node_at))]
    fn read(alloc: Global, reader: &mut Reader<'_>) -> Result<ParentNode, CodecFault> {
        let mut ahead = reader.fork();
        let encryption_key = Opaque::read(alloc, &mut ahead)?;
        let parent_hash = Opaque::read(alloc, &mut ahead)?;
        let unmerged = Unmerged::read(alloc, &mut ahead)?;
        *reader = ahead;
        Ok(ParentNode {
            encryption_key,
            parent_hash,
            unmerged,
        })
    }

    ghost exact = { parent_exact };

    ghost long = { parent_long };
}

impl Encode for ParentNode {
    #[tactic(auto, using(mls_wire::specs::EncodedSizes::size_exact))]
    fn size(&self) -> Option<usize> {
        Some(self.encoded_len() as usize)
    }

    #[tactic(auto, using(mls_wire::specs::WriteSequences::written), unfolding(crate::specs::Layout::parent))]
    fn put(&self, alloc: Global, draft: &mut Draft) -> Result<(), CodecFault> {
        self.encryption_key.put(alloc, draft)?;
        self.parent_hash.put(alloc, draft)?;
        self.unmerged.put(alloc, draft)?;
        Ok(())
    }
}

impl TryClone for ParentNode {
    fn try_clone(&self, alloc: Global) -> Result<ParentNode, CodecFault> {
        Ok(ParentNode {
            encryption_key: self.encryption_key.try_clone(alloc)?,
            parent_hash: self.parent_hash.try_clone(alloc)?,
            unmerged: self.unmerged.try_clone(alloc)?,
        })
    }
}

/// Appends the encoding of the parent node.
///
/// # Errors
///
/// `TooLong`, at the number of bytes written so far, if and only if it has no encoding, which is checked before
/// anything is allocated; or `OutOfMemory`. The bytes are then unchanged.
pub fn write_parent(
    alloc: Global,
    value: &ParentNode,
    writer: &mut Writer,
) -> Result<(), CodecFault>
    ensures { WritesPiece (parent value.now) writer.old writer.new result }
{
    writer.write(alloc, value)
}
