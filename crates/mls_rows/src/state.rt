//! The state of a follower, as rows compare and write it.

use crate::fault::RowFault;
use crate::row::have;
use crate::text_writer::TextWriter;
use crate::tree_calls::node_key;
use mls_apply::KnownProposal;
use mls_check::SignatureCheck;
use mls_follow::Follower;
use mls_hash::{Suite, tree_hash};
use mls_msgs::{Sender, encode_proposal};
use mls_nodes::{Node, encode_context, encode_ratchet_tree};
use mls_tree::{HashValue, PublicTree};
use std::alloc::Global;

// ---- as bytes

/// The state of a follower that is put together, and whether all of it was made.
#[derive(Drop)]
struct StateBytes {
    bytes: Vec<u8>,
    is_whole: bool,
}

impl StateBytes {
    /// Nothing yet.
    fn new(alloc: Global) -> StateBytes {
        StateBytes {
            bytes: Vec::new(alloc),
            is_whole: true,
        }
    }

    /// Adds bytes.
    fn add(&mut self, bytes: &[u8]) {
        if self.bytes.extend_from_slice(bytes).is_err() {
            self.is_whole = false;
        }
    }

    /// Adds bytes that were made, if they were.
    fn add_made<E: Drop>(&mut self, made: Result<Vec<u8>, E>) {
        match made {
            Ok(bytes) => self.add(bytes.as_slice()),
            Err(_) => self.is_whole = false,
        }
    }

    /// Adds the tree hash of a node.
    fn add_hash(&mut self, suite: Suite, tree: &PublicTree, index: u32) {
        match tree_hash(suite, tree, index) {
            Ok(hash) => self.add(hash.as_slice()),
            Err(_) => self.is_whole = false,
        }
    }

    /// Adds the tree hash of each node.
    fn add_hashes(&mut self, suite: Suite, tree: &PublicTree) {
        for index in 0..tree.leaf_count().saturating_mul(2).saturating_sub(1) {
            self.add_hash(suite, tree, index);
        }
    }

    /// Adds a sender.
    fn add_sender(&mut self, sender: Sender) {
        let (kind, index) = match sender {
            Sender::Member(index) => (1u8, index),
            Sender::External(index) => (2, index),
            Sender::NewMemberProposal => (3, 0),
            Sender::NewMemberCommit => (4, 0),
        };
        self.add(&[kind]);
        self.add(&index.to_be_bytes());
    }

    /// Adds the pending proposals.
    fn add_known(&mut self, alloc: Global, known: &[KnownProposal]) {
        for proposal in known {
            self.add(proposal.reference.as_slice());
            self.add_sender(proposal.sender);
            self.add_made(encode_proposal(alloc, &proposal.proposal));
            self.add(proposal.authenticated_data.as_slice());
            self.add(proposal.signature.as_slice());
        }
    }

    /// Adds the KeyPackageRefs of those that the last commit added, if there was one.
    fn add_references(&mut self, added: Option<&[HashValue]>) {
        let Some(references) = added else {
            self.add(&[0u8]);
            return;
        };
        self.add(&[1u8]);
        for reference in references {
            self.add(reference.as_slice());
        }
    }

    /// The state, if all of it was made.
    fn finish(self) -> Result<Vec<u8>, RowFault> {
        let StateBytes { bytes, is_whole } = self;
        if is_whole {
            Ok(bytes)
        } else {
            Err(RowFault::OutOfMemory)
        }
    }
}

/// A follower's state, with this tree in place of its own: the context, every node, the interim transcript hash, the pending
/// proposals, the KeyPackageRefs of those that the last commit added, and, if there is a suite, the tree hash of each node index.
fn state_with<C: SignatureCheck>(
    alloc: Global,
    follower: &Follower<C>,
    tree: &PublicTree,
    suite: Option<Suite>,
) -> Result<Vec<u8>, RowFault> {
    let mut state = StateBytes::new(alloc);
    state.add_made(encode_context(alloc, follower.context()));
    state.add_made(encode_ratchet_tree(alloc, tree.nodes()));
    state.add(follower.interim().as_slice());
    state.add_known(alloc, follower.known());
    state.add_references(follower.added());
    if let Some(suite) = suite {
        state.add_hashes(suite, tree);
    }
    state.finish()
}

/// A follower's state, with a tree that is decoded from the encoding of its own, so that no hash of it is cached.
fn state_anew<C: SignatureCheck>(
    alloc: Global,
    follower: &Follower<C>,
    suite: Suite,
) -> Result<Vec<u8>, RowFault> {
    let nodes = have(encode_ratchet_tree(alloc, follower.tree().nodes()))?;
    match PublicTree::decode(alloc, nodes.as_slice()) {
        Ok(tree) => {
            let state = state_with(alloc, follower, &tree, Some(suite));
            drop(tree);
            state
        }
        Err(_) => Err(RowFault::OutOfMemory),
    }
}

/// A follower's state. Its cached hashes have to be those of its tree.
pub(crate) fn state_of<C: SignatureCheck>(
    alloc: Global,
    follower: &Follower<C>,
) -> Result<Vec<u8>, RowFault> {
    let suite = have(Suite::from_u16(follower.context().cipher_suite))?;
    let kept = state_with(alloc, follower, follower.tree(), Some(suite))?;
    match state_anew(alloc, follower, suite) {
        Ok(anew) if kept.as_slice() == anew.as_slice() => Ok(kept),
        Ok(_) => Err(RowFault::KeptHashes),
        Err(fault) => Err(fault),
    }
}

/// A follower's state without the hashes of its tree.
pub(crate) fn brief_state<C: SignatureCheck>(
    alloc: Global,
    follower: &Follower<C>,
) -> Result<Vec<u8>, RowFault> {
    state_with(alloc, follower, follower.tree(), None)
}

// ---- as text

/// A sender: a member by its leaf index.
pub(crate) fn sender_text(alloc: Global, sender: Sender) -> Result<String, RowFault> {
    match sender {
        Sender::Member(index) => have(format!(in alloc; "{index}")),
        Sender::External(index) => have(format!(in alloc; "external {index}")),
        Sender::NewMemberProposal => have(String::from_str(alloc, "new_member_proposal")),
        Sender::NewMemberCommit => have(String::from_str(alloc, "new_member_commit")),
    }
}

/// Adds a pending proposal by its reference and its sender.
fn add_pending(text: &mut TextWriter, proposal: &KnownProposal) {
    text.add(" ");
    text.add_digits(proposal.reference.as_slice());
    text.add(" of ");
    text.add_made(sender_text(text.alloc, proposal.sender));
}

/// Adds a follower's state: the context, the ratchet_tree, the interim transcript hash, each pending proposal by its reference and
/// its sender, and whether the group is over.
pub(crate) fn add_state<C: SignatureCheck>(follower: &Follower<C>, text: &mut TextWriter) {
    text.add(" ");
    text.add_made_digits(encode_context(text.alloc, follower.context()));
    text.add(" ");
    text.add_made_digits(encode_ratchet_tree(text.alloc, follower.tree().nodes()));
    text.add(" ");
    text.add_digits(follower.interim().as_slice());
    for proposal in follower.known() {
        add_pending(text, proposal);
    }
    if follower.ended() {
        text.add(" ended");
    }
}

/// Adds the KeyPackageRefs of those that a follower's last commit added, or `none` before the first commit.
pub(crate) fn add_added<C: SignatureCheck>(follower: &Follower<C>, text: &mut TextWriter) {
    let Some(references) = follower.added() else {
        text.add(" none");
        return;
    };
    for reference in references {
        text.add(" ");
        text.add_digits(reference.as_slice());
    }
}

/// Adds a node by its encryption key, and the unmerged leaves of a parent.
fn add_node(text: &mut TextWriter, node: &Option<Node>) {
    text.add(" ");
    text.add_made(node_key(text.alloc, node.as_ref()));
    if let Some(Node::Parent(parent)) = node {
        let unmerged = parent.unmerged.as_slice();
        if !unmerged.is_empty() {
            text.add_made(format!(in text.alloc; " {unmerged:?}"));
        }
    }
}

/// Adds a follower's tree: its tree hash, and each node by its key.
pub(crate) fn add_keys<C: SignatureCheck>(follower: &Follower<C>, text: &mut TextWriter) {
    text.add(" ");
    text.add_digits(follower.context().tree_hash.as_slice());
    for node in follower.tree().nodes() {
        add_node(text, node);
    }
}
