//! What a follower has of its group, in buffers.

ghost use Rattle.std.specs.Prelude.{◌≡◌, length, slice_get};
ghost use Rattle.mls_nodes.specs.Layout.{group_context};
ghost use Rattle.mls_tree.specs.Tree.{leaf_at};
ghost use Rattle.mls_c.specs.Followers.{state_in};
ghost use Rattle.mls_c.specs.GroupParts.{encoded_tree, tree_fault_number, PutsEncoding, PutsMember, PutsReference};

use crate::buffer::{put_both, put_sized};
use crate::group_follower::GroupFollower;
use crate::input_verdict::{NO_MEMBER, NO_PROPOSAL, OUT_OF_MEMORY, TOO_LONG};
use crate::member_credential::credential_bytes;
use mls_nodes::{NodeFault, encode_context, encode_ratchet_tree};
use mls_wire::CodecFault;
use std::alloc::Global;

/// Returns the number of a tree that is not encoded.
fn tree_fault_number(fault: NodeFault) -> u32
    ensures { result ≡ tree_fault_number fault }
{
    match fault {
        NodeFault::OutOfMemory => OUT_OF_MEMORY,
        NodeFault::Wire(_) => TOO_LONG,
        NodeFault::WrongNodeKind(_) => TOO_LONG,
        NodeFault::LastBlank => TOO_LONG,
        NodeFault::EmptyTree => TOO_LONG,
        NodeFault::TooManyLeaves => TOO_LONG,
    }
}

impl GroupFollower {
    /// Puts the encoded GroupContext into a buffer. Returns 0 or why not.
    pub(crate) fn put_context(&self, alloc: Global, buffer: &mut [u8], needed: &mut usize) -> u32
        ensures { PutsEncoding (group_context (state_in self.now).context)
            buffer.old buffer.new needed.new result }
    {
        *needed = 0;
        match encode_context(alloc, self.follower.context()) {
            Ok(bytes) => put_sized(bytes.as_slice(), buffer, needed),
            Err(CodecFault::Wire(_)) => TOO_LONG,
            Err(CodecFault::OutOfMemory) => OUT_OF_MEMORY,
        }
    }

    /// Puts the encoded ratchet tree into a buffer. Returns 0 or why not.
    #[tactic(auto, using(crate::proofs::PuttingParts::not_encoded))]
    pub(crate) fn put_tree(&self, alloc: Global, buffer: &mut [u8], needed: &mut usize) -> u32
        ensures { PutsEncoding (encoded_tree (state_in self.now).tree)
            buffer.old buffer.new needed.new result }
    {
        *needed = 0;
        match encode_ratchet_tree(alloc, self.follower.tree().nodes()) {
            Ok(bytes) => put_sized(bytes.as_slice(), buffer, needed),
            Err(fault) => tree_fault_number(fault),
        }
    }

    /// Puts the encoded credential and the signature key of a member into buffers. Returns 0 or why not.
    #[tactic(auto, using(crate::proofs::PuttingParts::member, crate::proofs::PuttingParts::no_leaf))]
    pub(crate) fn put_member(
        &self,
        leaf: u32,
        credential: &mut [u8],
        credential_needed: &mut usize,
        key: &mut [u8],
        key_needed: &mut usize,
    ) -> u32
        ensures { PutsMember (leaf_at 0 (state_in self.now).tree leaf)
            credential.old credential.new credential_needed.new key.old key.new key_needed.new result }
    {
        *credential_needed = 0;
        *key_needed = 0;
        let Some(found) = self.follower.tree().leaf(leaf) else {
            return NO_MEMBER;
        };
        let encoded = credential_bytes(found);
        let signature_key = found.signature_key();
        *credential_needed = encoded.len();
        *key_needed = signature_key.len();
        put_both(encoded, credential, signature_key, key)
    }

    /// Returns the number of pending proposals.
    pub(crate) fn pending_count(&self) -> usize
        ensures { result ≡ length (state_in self.now).known }
    {
        self.follower.known().len()
    }

    /// Puts the reference of a pending proposal into a buffer. Returns 0 or why not.
    #[tactic(auto, using(crate::proofs::PuttingParts::pending, crate::proofs::PuttingParts::no_pending))]
    pub(crate) fn put_reference(&self, k: usize, buffer: &mut [u8], needed: &mut usize) -> u32
        ensures { PutsReference (slice_get (state_in self.now).known k)
            buffer.old buffer.new needed.new result }
    {
        *needed = 0;
        match self.follower.known().get(k) {
            Some(pending) => put_sized(pending.reference.as_slice(), buffer, needed),
            None => NO_PROPOSAL,
        }
    }
}
