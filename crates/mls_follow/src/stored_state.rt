//! The file of a follower's state.

ghost use Rattle.std.specs.Prelude.{◌≡◌, ◌≢◌, map, option_map, Some, IfOk, IfErr};
ghost use Rattle.std.specs.Bool.{OnTrue, OnFalse};
ghost use Rattle.mls_wire.specs.Faults.{too_long_at};
ghost use Rattle.mls_wire.specs.ReadContracts.{seen};
ghost use Rattle.mls_nodes.specs.RatchetTreeEncoding.{ratchet_tree, trimmed};
ghost use Rattle.mls_tree.specs.PublicTreeModel.{plain};
ghost use Rattle.mls_tree.specs.RatchetTree.{RatchetTree};
ghost use Rattle.mls_tree.specs.Tree.{listing};
ghost use Rattle.mls_tree.specs.TreeDecoding.{IsTreeOf};
ghost use Rattle.mls_apply.specs.PendingContent.{authenticated_of};
ghost use Rattle.mls_follow.specs.FollowerModel.{state_of};
ghost use Rattle.mls_follow.specs.GroupModel.{group_state};
ghost use Rattle.mls_follow.specs.StoringParts.{HasNoTreeBody, MakesShortFile, storing_fault};
ghost use Rattle.mls_follow.specs.StoredState.{IsTreeBody, Stores, EncodesState, HasNoFile, stored_mode};

use crate::follower::Follower;
use crate::group::Group;
use mls_apply::{KnownProposal, authenticated_of};
use mls_check::SignatureCheck;
use mls_msgs::{Authenticated, Profile};
use mls_nodes::{GroupContext, NodeFault, encode_ratchet_tree, full_size_of, trimmed_entries};
use mls_state::{FollowerState, GroupMode, encode_state_file};
use mls_tree::{HashValue, PublicTree};
use mls_wire::{
    CodecFault, MAX_INPUT, Opaque, Sequence, WireFault, WireFaultKind, copy_of, read_input,
};
use std::alloc::{AllocError, Global};

/// Returns the fault of a state that has no file.
fn too_long() -> CodecFault
    ensures { result ≡ CodecFault.Wire (too_long_at 0) }
{
    CodecFault::Wire(WireFault {
        kind: WireFaultKind::TooLong,
        at: 0,
    })
}

/// Returns whether bytes, which encode the entries of a tree, encode the tree. They do not if its right subtree is
/// blank, or if they are more than an input may have.
fn encodes_tree(bytes: &[u8], tree: &PublicTree) -> bool
    requires { ratchet_tree (trimmed (listing tree.now.tree)) ≡ Some bytes.now }
    ensures same { OnTrue result (IsTreeOf bytes.now (plain tree.now)) }
    ensures other { OnFalse result (IsTreeOf bytes.now (plain tree.now) → ⊥) }
{
    let nodes = tree.nodes();
    let count = trimmed_entries(nodes).len();
    bytes.len() <= MAX_INPUT && full_size_of(count) == nodes.len()
}

/// Returns the body of these bytes, which encode the entries of a tree. `TooLong` if they do not encode the tree.
fn body_of(alloc: Global, bytes: &[u8], tree: &PublicTree) -> Result<Opaque, CodecFault>
    requires { ratchet_tree (trimmed (listing tree.now.tree)) ≡ Some bytes.now }
    ensures body { IfOk result (λ body. IsTreeBody body (plain tree.now)) }
    ensures none { IfErr result (λ e. e ≢ CodecFault.OutOfMemory → HasNoTreeBody (plain tree.now)) }
{
    if !encodes_tree(bytes, tree) {
        return Err(too_long());
    }
    read_input(alloc, bytes)
}

/// Returns the fault of a tree that has no encoding as one of a state.
fn storing_fault(fault: NodeFault) -> CodecFault
    ensures { result ≡ storing_fault fault }
{
    match fault {
        NodeFault::OutOfMemory => CodecFault::OutOfMemory,
        _ => too_long(),
    }
}

/// Returns the body of an encoded tree (RFC 9420, 12.4.3.3). `TooLong` if it has none.
fn tree_body(alloc: Global, tree: &PublicTree) -> Result<Opaque, CodecFault>
    ensures body { IfOk result (λ body. IsTreeBody body (plain tree.now)) }
    ensures none { IfErr result (λ e. e ≢ CodecFault.OutOfMemory → HasNoTreeBody (plain tree.now)) }
{
    match encode_ratchet_tree(alloc, tree.nodes()) {
        Ok(bytes) => body_of(alloc, bytes.as_slice(), tree),
        Err(fault) => Err(storing_fault(fault)),
    }
}

/// Returns the AuthenticatedContents of pending proposals, in their order (RFC 9420, 6).
fn pending_contents(
    alloc: Global,
    context: &GroupContext,
    known: &[KnownProposal],
) -> Result<Vec<Authenticated>, AllocError>
    ensures { IfOk result (λ contents. contents.items ≡ map (authenticated_of context.now) known.now) }
{
    let mut contents = Vec::with_capacity(alloc, known.len())?;
    for pending in known {
        contents.push(authenticated_of(alloc, context, pending)?)?;
    }
    Ok(contents)
}

/// Returns the references as a file has them.
fn stored_references(
    alloc: Global,
    added: &Option<Vec<HashValue>>,
) -> Result<Option<Sequence<Opaque>>, AllocError>
    ensures { IfOk result (λ stored. stored ≡ option_map (λ v. v.items) added.now) }
{
    let Some(references) = added else {
        return Ok(None);
    };
    let mut stored = Vec::with_capacity(alloc, references.len())?;
    for reference in references {
        stored.push(reference.to_opaque(alloc)?)?;
    }
    Ok(Some(Sequence::new(stored)))
}

/// Returns how a file has the profile, and whether the group is over. There is none for a group of the members' profile that
/// is over.
fn stored_mode(profile: Profile, ended: bool) -> Option<GroupMode>
    ensures { result ≡ stored_mode profile ended }
{
    match (profile, ended) {
        (Profile::Members, false) => Some(GroupMode::Members),
        (Profile::Members, true) => None,
        (Profile::Full, false) => Some(GroupMode::Full),
        (Profile::Full, true) => Some(GroupMode::Ended),
    }
}

impl Group {
    /// Returns the content of the file of the group's state. `TooLong` if it has none.
    fn content(&self, alloc: Global) -> Result<FollowerState, CodecFault>
        ensures stores { IfOk result (λ c. (t : RatchetTree) × IsTreeBody c.tree t
            × Stores c t (group_state self.now)) }
        ensures none { IfErr result (λ e. e ≢ CodecFault.OutOfMemory → HasNoFile (group_state self.now)) }
    {
        let Some(mode) = stored_mode(self.profile, self.ended) else {
            return Err(too_long());
        };
        let tree = tree_body(alloc, self.tree.tree())?;
        let context = copy_of(alloc, &self.context)?;
        let interim = self.interim.to_opaque(alloc)?;
        let known = pending_contents(alloc, &self.context, self.known.as_slice())?;
        let added = stored_references(alloc, &self.added)?;
        Ok(FollowerState {
            mode,
            rules: self.rules,
            context,
            interim,
            tree,
            known: Sequence::new(known),
            added,
        })
    }
}

/// Returns the file with this content, of no more bytes than an input may have. `TooLong` at 0 if there is none.
#[tactic(auto, using(crate::proofs::Storing::over_limit))]
fn file_of(alloc: Global, content: FollowerState) -> Result<Vec<u8>, CodecFault>
    ensures { MakesShortFile content (seen (λ v. v.items) result) }
{
    match encode_state_file(alloc, content) {
        Ok(bytes) => {
            if bytes.len() > MAX_INPUT {
                drop(bytes);
                return Err(too_long());
            }
            Ok(bytes)
        }
        Err(CodecFault::Wire(_)) => Err(too_long()),
        Err(CodecFault::OutOfMemory) => Err(CodecFault::OutOfMemory),
    }
}

impl<C: SignatureCheck> Follower<C> {
    /// Returns the file of the state, from which [`Follower::resume`] resumes a follower.
    ///
    /// # Errors
    ///
    /// `TooLong` at 0 only if the state has no file: it would have more than 268,435,456 bytes, as many as an input may
    /// have. (No file has a group of the members' profile that is over either, and no follower has such a state.) Or
    /// [`CodecFault::OutOfMemory`].
    pub fn encode_state(&self) -> Result<Vec<u8>, CodecFault>
        ensures encoded { IfOk result (λ bytes. EncodesState (state_of self.now) bytes.items) }
        ensures too_long { IfErr result (λ e. e ≢ CodecFault.OutOfMemory
            → (e ≡ CodecFault.Wire (too_long_at 0)) × HasNoFile (state_of self.now)) }
    {
        match self.group.content(self.alloc) {
            Ok(content) => file_of(self.alloc, content),
            Err(CodecFault::Wire(_)) => Err(too_long()),
            Err(CodecFault::OutOfMemory) => Err(CodecFault::OutOfMemory),
        }
    }
}
