//! GroupContext (RFC 9420, 8.1).

ghost use Rattle.std.specs.Prelude.{◌≡◌, ◌<◌, Err, length};
ghost use Rattle.mls_wire.specs.Faults.{too_long_at};
ghost use Rattle.mls_wire.specs.Limits.{input_limit};
ghost use Rattle.mls_wire.specs.ReadContracts.{Decodes, DecodesInput, seen};
ghost use Rattle.mls_wire.specs.WriteContracts.{MakesPiece, WritesPiece};
ghost use Rattle.mls_nodes.specs.Layout.{group_context};

use crate::lists::Extensions;
use mls_wire::{
    CodecFault, Decode, Draft, Encode, Opaque, Reader, TryClone, Writer, bytes_of, read_input,
    read_value,
};
use std::alloc::Global;

/// What the members of a group agree on in an epoch. Any version and cipher suite is stored, supported or not.
#[derive(Debug)]
pub struct GroupContext {
    /// The protocol version.
    pub version: u16,
    /// The cipher suite.
    pub cipher_suite: u16,
    /// The group's id.
    pub group_id: Opaque,
    /// The number of commits of the group.
    pub epoch: u64,
    /// The tree hash of the ratchet tree's root.
    pub tree_hash: Opaque,
    /// The confirmed transcript hash.
    pub confirmed: Opaque,
    /// The group's extensions.
    pub extensions: Extensions,
}

// Written out, so that a drop is one call in the proofs of its owners.
impl Drop for GroupContext {
    fn drop(self) {
        let GroupContext {
            version: _,
            cipher_suite: _,
            group_id: _,
            epoch: _,
            tree_hash: _,
            confirmed: _,
            extensions: _,
        } = self;
    }
}

impl Decode for GroupContext {
    ghost use Rattle.mls_nodes.specs.ParsingInternal.{group_context_at};
    ghost use Rattle.mls_nodes.specs.NodesExact.{group_context_exact, group_context_long};

    ghost encoding = { group_context };

    ghost reading = { group_context_at };

    #[tactic(auto, unfolding(crate::specs::ParsingInternal::group_context_at))]
    fn read(alloc: Global, reader: &mut Reader<'_>) -> Result<GroupContext, CodecFault> {
        let mut ahead = reader.fork();
        let version = u16::read(alloc, &mut ahead)?;
        let cipher_suite = u16::read(alloc, &mut ahead)?;
        let group_id = Opaque::read(alloc, &mut ahead)?;
        let epoch = u64::read(alloc, &mut ahead)?;
        let tree_hash = Opaque::read(alloc, &mut ahead)?;
        let confirmed = Opaque::read(alloc, &mut ahead)?;
        let extensions = Extensions::read(alloc, &mut ahead)?;
        *reader = ahead;
        Ok(GroupContext {
            version,
            cipher_suite,
            group_id,
            epoch,
            tree_hash,
            confirmed,
            extensions,
        })
    }

    ghost exact = { group_context_exact };

    ghost long = { group_context_long };
}

impl Encode for GroupContext {
    #[tactic(auto, using(mls_wire::specs::EncodedSizes::size_exact))]
    fn size(&self) -> Option<usize> {
        Some(self.encoded_len() as usize)
    }

    #[tactic(auto, using(mls_wire::specs::WriteSequences::written), unfolding(crate::specs::Layout::group_context))]
    fn put(&self, alloc: Global, draft: &mut Draft) -> Result<(), CodecFault> {
        draft.put_u16(self.version)?;
        draft.put_u16(self.cipher_suite)?;
        self.group_id.put(alloc, draft)?;
        draft.put_u64(self.epoch)?;
        self.tree_hash.put(alloc, draft)?;
        self.confirmed.put(alloc, draft)?;
        self.extensions.put(alloc, draft)
    }
}

impl TryClone for GroupContext {
    fn try_clone(&self, alloc: Global) -> Result<GroupContext, CodecFault> {
        Ok(GroupContext {
            version: self.version,
            cipher_suite: self.cipher_suite,
            group_id: self.group_id.try_clone(alloc)?,
            epoch: self.epoch,
            tree_hash: self.tree_hash.try_clone(alloc)?,
            confirmed: self.confirmed.try_clone(alloc)?,
            extensions: self.extensions.try_clone(alloc)?,
        })
    }
}

/// Reads the GroupContext at the front. On error the reader is unchanged.
pub fn read_context(alloc: Global, reader: &mut Reader<'_>) -> Result<GroupContext, CodecFault>
    ensures { Decodes group_context reader.old reader.new result }
{
    read_value(alloc, reader)
}

/// Returns the GroupContext whose encoding is all of the bytes (RFC 9420, 8.1).
///
/// # Errors
///
/// `TooLong` at 0 for more than [`MAX_INPUT`](mls_wire::MAX_INPUT) bytes; another wire fault if and only if the bytes
/// are no such encoding; or `OutOfMemory`.
pub fn decode_context(alloc: Global, bytes: &[u8]) -> Result<GroupContext, CodecFault>
    ensures encoded { DecodesInput group_context bytes.now result }
    ensures long { input_limit < length bytes.now → result ≡ Err (CodecFault.Wire (too_long_at 0)) }
{
    read_input(alloc, bytes)
}

/// Returns the encoding of the GroupContext.
///
/// # Errors
///
/// `TooLong` at 0 if and only if it has no encoding, which is checked before anything is allocated; or `OutOfMemory`.
pub fn encode_context(alloc: Global, context: &GroupContext) -> Result<Vec<u8>, CodecFault>
    ensures { MakesPiece (group_context context.now) (seen (λ v. v.items) result) }
{
    bytes_of(alloc, context)
}

/// Appends the encoding of the GroupContext.
///
/// # Errors
///
/// `TooLong`, at the number of bytes written so far, if and only if it has no encoding, which is checked before
/// anything is allocated; or `OutOfMemory`. The bytes are then unchanged.
pub fn write_context(
    alloc: Global,
    context: &GroupContext,
    writer: &mut Writer,
) -> Result<(), CodecFault>
    ensures { WritesPiece (group_context context.now) writer.old writer.new result }
{
    writer.write(alloc, context)
}
