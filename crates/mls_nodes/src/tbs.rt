//! What is signed of a leaf node (RFC 9420, 7.2).

ghost use Rattle.mls_wire.specs.ReadContracts.{seen};
ghost use Rattle.mls_wire.specs.WriteContracts.{MakesPiece, Puts};
ghost use Rattle.mls_nodes.specs.LeafNodeTBS.{tbs_suffix, leaf_tbs};

use crate::encoded_leaf::EncodedLeaf;
use crate::encoded_len::leaf_tbs_len;
use crate::leaf_source::LeafSource;
use mls_wire::{CodecFault, Draft, Encode, Opaque};
use std::alloc::Global;

/// Adds the group id and the leaf index, for the sources update and commit.
#[tactic(auto, using(mls_wire::specs::WriteSequences::written), unfolding(crate::specs::LeafNodeTBS::tbs_suffix))]
fn put_tbs_suffix(
    alloc: Global,
    source: &LeafSource<'_>,
    group_id: &Opaque,
    index: u32,
    draft: &mut Draft,
) -> Result<(), CodecFault>
    ensures { Puts (tbs_suffix source.now group_id.now index) draft.old draft.new result }
{
    match source {
        LeafSource::KeyPackage(_) => draft.put_bytes(&[]),
        LeafSource::Update | LeafSource::Commit { .. } => {
            group_id.put(alloc, draft)?;
            draft.put_u32(index)
        }
    }
}

/// Adds the LeafNodeTBS to a draft: the leaf node without its signature, and for the sources update and commit the
/// group id and the leaf index (RFC 9420, 7.2). It always has an encoding, so the only error is `OutOfMemory`.
#[tactic(auto, using(mls_wire::specs::WriteSequences::written), unfolding(crate::specs::LeafNodeTBS::leaf_tbs))]
pub fn put_leaf_tbs(
    alloc: Global,
    leaf: &EncodedLeaf,
    group_id: &Opaque,
    index: u32,
    draft: &mut Draft,
) -> Result<(), CodecFault>
    ensures { Puts (leaf_tbs leaf.now group_id.now index) draft.old draft.new result }
{
    draft.put_bytes(leaf.unsigned())?;
    put_tbs_suffix(alloc, &leaf.source(), group_id, index, draft)
}

/// Returns the LeafNodeTBS: the leaf node without its signature, and for the sources update and commit the group id and
/// the leaf index (RFC 9420, 7.2). It always has an encoding, so the only error is `OutOfMemory`. Allocates once.
#[tactic(auto, using(crate::proofs::Drafted::drafted, crate::proofs::Drafted::undrafted))]
pub fn leaf_tbs(
    alloc: Global,
    leaf: &EncodedLeaf,
    group_id: &Opaque,
    index: u32,
) -> Result<Vec<u8>, CodecFault>
    ensures { MakesPiece (leaf_tbs leaf.now group_id.now index) (seen (λ v. v.items) result) }
{
    let len = leaf_tbs_len(leaf, group_id, index) as usize;
    let mut draft = Draft::after(Vec::with_capacity(alloc, len)?);
    put_leaf_tbs(alloc, leaf, group_id, index, &mut draft)?;
    Ok(draft.finish())
}
