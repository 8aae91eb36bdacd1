//! Proposals (RFC 9420, 12.1).

ghost use Rattle.std.specs.Prelude.{ℕ, List};
ghost use Rattle.mls_wire.specs.ReadContracts.{DecodesAll, seen};
ghost use Rattle.mls_wire.specs.WriteContracts.{MakesPiece};
ghost use Rattle.mls_msgs.specs.Layout.{proposal};
ghost use Rattle.mls_msgs.specs.Profile.{proposal_in};
ghost use Rattle.mls_msgs.specs.declared.profile.Profile.TheVariants.{Members};

use crate::bad_tag::bad_tag;
use crate::boxed::Boxed;
use crate::key_package::KeyPackage;
use crate::pre_shared_key::PreSharedKeyId;
use crate::profile::{Profile, check_proposal, fault_found};
use crate::reinit::ReInit;
use mls_nodes::{EncodedLeaf, Extensions};
use mls_wire::{
    BoxedOpaque, CodecFault, Decode, Draft, Encode, Reader, Shared, TryClone, add_sizes, bytes_of,
    read_all_of,
};
use std::alloc::Global;

/// A proposal (RFC 9420, 12.1: Proposal). Other proposal types are not decoded. Large contents are stored on the heap,
/// so that a list of small proposals takes little memory.
#[derive(Debug, Drop)]
pub enum Proposal {
    /// Type 1: adds the client with this KeyPackage (RFC 9420, 12.1.1).
    Add(Boxed<KeyPackage>),
    /// Type 2: replaces the sender's leaf node by this one (RFC 9420, 12.1.2).
    Update(Shared<EncodedLeaf>),
    /// Type 3: removes the member at this leaf index (RFC 9420, 12.1.3).
    Remove(u32),
    /// Type 7: replaces the extensions of the GroupContext by these (RFC 9420, 12.1.7).
    ContextExtensions(Boxed<Extensions>),
    /// Type 4: injects this pre-shared key into the key schedule of the next epoch (RFC 9420, 12.1.4).
    PreSharedKey(Boxed<PreSharedKeyId>),
    /// Type 5: reinitializes the group with these parameters (RFC 9420, 12.1.5).
    ReInit(Boxed<ReInit>),
    /// Type 6: the `kem_output` by which a new member joins with an external commit (RFC 9420, 12.1.6).
    ExternalInit(Boxed<BoxedOpaque>),
}

/// An entry of a proposal list (RFC 9420, 12.4: ProposalOrRef).
#[derive(Debug, Drop)]
pub enum ProposalOrRef {
    /// Type 1: a proposal of the committer.
    Proposal(Proposal),
    /// Type 2: the ProposalRef of a proposal that was sent before (RFC 9420, 5.2).
    Reference(BoxedOpaque),
}

impl Decode for Proposal {
    ghost use Rattle.mls_msgs.specs.Layout.{proposal};
    ghost use Rattle.mls_msgs.specs.Parsing.{proposal_at};
    ghost use Rattle.mls_msgs.specs.ProposalExact.{proposal_exact, proposal_long};

    ghost encoding = { proposal };

    ghost reading = { proposal_at };

    #[tactic(auto, unfolding(crate::specs::Parsing::proposal_at))]
    fn read(alloc: Global, reader: &mut Reader<'_>) -> Result<Proposal, CodecFault> {
        let mut ahead = reader.fork();
        let proposal = match u16::read(alloc, &mut ahead)? {
            1 => Proposal::Add(Boxed::read(alloc, &mut ahead)?),
            2 => Proposal::Update(Shared::read(alloc, &mut ahead)?),
            3 => Proposal::Remove(u32::read(alloc, &mut ahead)?),
            4 => Proposal::PreSharedKey(Boxed::read(alloc, &mut ahead)?),
            5 => Proposal::ReInit(Boxed::read(alloc, &mut ahead)?),
            6 => Proposal::ExternalInit(Boxed::read(alloc, &mut ahead)?),
            7 => Proposal::ContextExtensions(Boxed::read(alloc, &mut ahead)?),
            kind => return Err(bad_tag(kind, reader.position())),
        };
        *reader = ahead;
        Ok(proposal)
    }

    ghost exact = { proposal_exact };

    ghost long = { proposal_long };
}

impl Encode for Proposal {
    #[tactic(auto, using(mls_nodes::specs::TagSizes::tag_sizes), unfolding(crate::specs::Layout::proposal))]
    fn size(&self) -> Option<usize> {
        match self {
            Proposal::Add(key_package) => add_sizes(Some(2), key_package.size()),
            Proposal::Update(leaf_node) => add_sizes(Some(2), leaf_node.size()),
            Proposal::Remove(leaf_index) => add_sizes(Some(2), leaf_index.size()),
            Proposal::ContextExtensions(extensions) => add_sizes(Some(2), extensions.size()),
            Proposal::PreSharedKey(id) => add_sizes(Some(2), id.size()),
            Proposal::ReInit(reinit) => add_sizes(Some(2), reinit.size()),
            Proposal::ExternalInit(kem_output) => add_sizes(Some(2), kem_output.size()),
        }
    }

    #[tactic(auto, using(mls_wire::specs::WriteSequences::written), unfolding(crate::specs::Layout::proposal))]
    fn put(&self, alloc: Global, draft: &mut Draft) -> Result<(), CodecFault> {
        match self {
            Proposal::Add(key_package) => {
                draft.put_u16(1)?;
                key_package.put(alloc, draft)
            }
            Proposal::Update(leaf_node) => {
                draft.put_u16(2)?;
                leaf_node.put(alloc, draft)
            }
            Proposal::Remove(leaf_index) => {
                draft.put_u16(3)?;
                draft.put_u32(*leaf_index)
            }
            Proposal::ContextExtensions(extensions) => {
                draft.put_u16(7)?;
                extensions.put(alloc, draft)
            }
            Proposal::PreSharedKey(id) => {
                draft.put_u16(4)?;
                id.put(alloc, draft)
            }
            Proposal::ReInit(reinit) => {
                draft.put_u16(5)?;
                reinit.put(alloc, draft)
            }
            Proposal::ExternalInit(kem_output) => {
                draft.put_u16(6)?;
                kem_output.put(alloc, draft)
            }
        }
    }
}

impl Decode for ProposalOrRef {
    ghost use Rattle.mls_msgs.specs.Layout.{proposal_or_ref};
    ghost use Rattle.mls_msgs.specs.Parsing.{proposal_or_ref_at};
    ghost use Rattle.mls_msgs.specs.ProposalExact.{proposal_or_ref_exact, proposal_or_ref_long};

    ghost encoding = { proposal_or_ref };

    ghost reading = { proposal_or_ref_at };

    #[tactic(auto, unfolding(crate::specs::Parsing::proposal_or_ref_at))]
    fn read(alloc: Global, reader: &mut Reader<'_>) -> Result<ProposalOrRef, CodecFault> {
        let mut ahead = reader.fork();
        let entry = match u8::read(alloc, &mut ahead)? {
            1 => ProposalOrRef::Proposal(Proposal::read(alloc, &mut ahead)?),
            2 => ProposalOrRef::Reference(BoxedOpaque::read(alloc, &mut ahead)?),
            kind => return Err(bad_tag(u16::from(kind), reader.position())),
        };
        *reader = ahead;
        Ok(entry)
    }

    ghost exact = { proposal_or_ref_exact };

    ghost long = { proposal_or_ref_long };
}

impl Encode for ProposalOrRef {
    #[tactic(auto, using(mls_nodes::specs::TagSizes::tag_sizes), unfolding(crate::specs::Layout::proposal_or_ref))]
    fn size(&self) -> Option<usize> {
        match self {
            ProposalOrRef::Proposal(proposal) => add_sizes(Some(1), proposal.size()),
            ProposalOrRef::Reference(reference) => add_sizes(Some(1), reference.size()),
        }
    }

    #[tactic(auto, using(mls_wire::specs::WriteSequences::written), unfolding(crate::specs::Layout::proposal_or_ref))]
    fn put(&self, alloc: Global, draft: &mut Draft) -> Result<(), CodecFault> {
        match self {
            ProposalOrRef::Proposal(proposal) => {
                draft.put_u8(1)?;
                proposal.put(alloc, draft)
            }
            ProposalOrRef::Reference(reference) => {
                draft.put_u8(2)?;
                reference.put(alloc, draft)
            }
        }
    }
}

impl TryClone for Proposal {
    fn try_clone(&self, alloc: Global) -> Result<Proposal, CodecFault> {
        match self {
            Proposal::Add(key_package) => Ok(Proposal::Add(key_package.try_clone(alloc)?)),
            Proposal::Update(leaf_node) => Ok(Proposal::Update(leaf_node.try_clone(alloc)?)),
            Proposal::Remove(leaf_index) => Ok(Proposal::Remove(*leaf_index)),
            Proposal::ContextExtensions(extensions) => {
                Ok(Proposal::ContextExtensions(extensions.try_clone(alloc)?))
            }
            Proposal::PreSharedKey(id) => Ok(Proposal::PreSharedKey(id.try_clone(alloc)?)),
            Proposal::ReInit(reinit) => Ok(Proposal::ReInit(reinit.try_clone(alloc)?)),
            Proposal::ExternalInit(kem_output) => {
                Ok(Proposal::ExternalInit(kem_output.try_clone(alloc)?))
            }
        }
    }
}

/// Decodes the proposal that the bytes encode. It must be in `profile`.
///
/// # Errors
///
/// - `BadTag` of the type at 0, if the profile does not have the proposal type. Nothing after the type is checked first.
/// - Otherwise the first fault of the bytes from the left, `Trailing` if bytes follow the proposal.
/// - `OutOfMemory`.
#[tactic(auto, using(crate::proofs::Profiles::proposals_in))]
pub fn decode_proposal_in(
    alloc: Global,
    profile: Profile,
    bytes: &[u8],
) -> Result<Proposal, CodecFault>
    ensures decoded { DecodesAll (proposal_in profile) bytes.now result }
{
    match read_all_of::<Proposal>(alloc, bytes) {
        Ok(proposal) => {
            if profile.has_proposal(&proposal) {
                return Ok(proposal);
            }
            Err(fault_found(check_proposal(alloc, &Reader::new(bytes))))
        }
        Err(CodecFault::OutOfMemory) => Err(CodecFault::OutOfMemory),
        Err(CodecFault::Wire(fault)) => {
            Err(profile.fault_of(check_proposal(alloc, &Reader::new(bytes)), fault))
        }
    }
}

/// Decodes the proposal of the members' profile that the bytes encode, as [`decode_proposal_in`] does.
pub fn decode_proposal(alloc: Global, bytes: &[u8]) -> Result<Proposal, CodecFault>
    ensures decoded { DecodesAll (proposal_in Members) bytes.now result }
{
    decode_proposal_in(alloc, Profile::Members, bytes)
}

/// Returns the encoding of a proposal of either profile.
///
/// # Errors
///
/// - `TooLong` at 0, if the proposal has no encoding because one of its vectors is over the limit. This is checked before
///   any allocation.
/// - `OutOfMemory`.
pub fn encode_proposal(alloc: Global, value: &Proposal) -> Result<Vec<u8>, CodecFault>
    ensures encoded { MakesPiece (proposal value.now) (seen (λ bytes. bytes.items) result) }
{
    bytes_of(alloc, value)
}
