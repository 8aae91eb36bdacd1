//! Commit and UpdatePath.

use crate::ciphertexts::Ciphertexts;
use crate::proposal::ProposalOrRef;
use mls_nodes::EncodedLeaf;
use mls_wire::{
    BoxedOpaque, CodecFault, Decode, Draft, Encode, Reader, Sequence, Shared, add_sizes,
};
use std::alloc::Global;

/// An UpdatePathNode (RFC 9420, 7.6).
#[derive(Debug, Drop)]
pub struct PathNode {
    /// The node's new public key.
    pub encryption_key: BoxedOpaque,
    /// The node's path secret, encrypted to each node of the resolution of the copath child, in its order.
    pub ciphertexts: Ciphertexts,
}

/// One UpdatePathNode per node of the committer's filtered direct path, lowest first.
pub type PathNodes = Sequence<PathNode>;

/// An UpdatePath (RFC 9420, 7.6).
#[derive(Debug, Drop)]
pub struct UpdatePath {
    /// The committer's new leaf node.
    pub leaf_node: Shared<EncodedLeaf>,
    /// The new parent nodes on the filtered direct path, lowest first.
    pub nodes: PathNodes,
}

/// The proposals of a commit, in order.
pub type Proposals = Sequence<ProposalOrRef>;

/// A Commit (RFC 9420, 12.4).
#[derive(Debug, Drop)]
pub struct Commit {
    /// The committed proposals, by value or by reference, in order.
    pub proposals: Proposals,
    /// The UpdatePath, if there is one.
    pub path: Option<UpdatePath>,
}

impl Decode for PathNode {
    ghost use Rattle.mls_msgs.specs.Layout.{path_node};
    ghost use Rattle.mls_msgs.specs.Parsing.{path_node_at};
    ghost use Rattle.mls_msgs.specs.CommitExact.{path_node_exact, path_node_long};

    ghost encoding = { path_node };

    ghost reading = { path_node_at };

    #[tactic(auto, unfolding(crate::specs::Parsing::path_node_at))]
    fn read(alloc: Global, reader: &mut Reader<'_>) -> Result<PathNode, CodecFault> {
        let mut ahead = reader.fork();
        let encryption_key = BoxedOpaque::read(alloc, &mut ahead)?;
        let ciphertexts = Ciphertexts::read(alloc, &mut ahead)?;
        *reader = ahead;
        Ok(PathNode {
            encryption_key,
            ciphertexts,
        })
    }

    ghost exact = { path_node_exact };

    ghost long = { path_node_long };
}

impl Encode for PathNode {
    #[tactic(auto, using(mls_nodes::specs::TagSizes::tag_sizes), unfolding(crate::specs::Layout::path_node))]
    fn size(&self) -> Option<usize> {
        add_sizes(self.encryption_key.size(), self.ciphertexts.size())
    }

    #[tactic(auto, using(mls_wire::specs::WriteSequences::written), unfolding(crate::specs::Layout::path_node))]
    fn put(&self, alloc: Global, draft: &mut Draft) -> Result<(), CodecFault> {
        self.encryption_key.put(alloc, draft)?;
        self.ciphertexts.put(alloc, draft)
    }
}

impl Decode for UpdatePath {
    ghost use Rattle.mls_msgs.specs.Layout.{update_path};
    ghost use Rattle.mls_msgs.specs.Parsing.{update_path_at};
    ghost use Rattle.mls_msgs.specs.CommitExact.{update_path_exact, update_path_long};

    ghost encoding = { update_path };

    ghost reading = { update_path_at };

    #[tactic(auto, unfolding(crate::specs::Parsing::update_path_at))]
    fn read(alloc: Global, reader: &mut Reader<'_>) -> Result<UpdatePath, CodecFault> {
        let mut ahead = reader.fork();
        let leaf_node = Shared::read(alloc, &mut ahead)?;
        let nodes = PathNodes::read(alloc, &mut ahead)?;
        *reader = ahead;
        Ok(UpdatePath { leaf_node, nodes })
    }

    ghost exact = { update_path_exact };

    ghost long = { update_path_long };
}

impl Encode for UpdatePath {
    #[tactic(auto, using(mls_nodes::specs::TagSizes::tag_sizes), unfolding(crate::specs::Layout::update_path))]
    fn size(&self) -> Option<usize> {
        add_sizes(self.leaf_node.size(), self.nodes.size())
    }

    #[tactic(auto, using(mls_wire::specs::WriteSequences::written), unfolding(crate::specs::Layout::update_path))]
    fn put(&self, alloc: Global, draft: &mut Draft) -> Result<(), CodecFault> {
        self.leaf_node.put(alloc, draft)?;
        self.nodes.put(alloc, draft)
    }
}

impl Decode for Commit {
    ghost use Rattle.mls_msgs.specs.Layout.{commit};
    ghost use Rattle.mls_msgs.specs.Parsing.{commit_at};
    ghost use Rattle.mls_msgs.specs.CommitExact.{commit_exact, commit_long};

    ghost encoding = { commit };

    ghost reading = { commit_at };

    #[tactic(auto, unfolding(crate::specs::Parsing::commit_at))]
    fn read(alloc: Global, reader: &mut Reader<'_>) -> Result<Commit, CodecFault> {
        let mut ahead = reader.fork();
        let proposals = Proposals::read(alloc, &mut ahead)?;
        let path = Option::<UpdatePath>::read(alloc, &mut ahead)?;
        *reader = ahead;
        Ok(Commit { proposals, path })
    }

    ghost exact = { commit_exact };

    ghost long = { commit_long };
}

impl Encode for Commit {
    #[tactic(auto, using(mls_nodes::specs::TagSizes::tag_sizes), unfolding(crate::specs::Layout::commit))]
    fn size(&self) -> Option<usize> {
        add_sizes(self.proposals.size(), self.path.size())
    }

    #[tactic(auto, using(mls_wire::specs::WriteSequences::written), unfolding(crate::specs::Layout::commit))]
    fn put(&self, alloc: Global, draft: &mut Draft) -> Result<(), CodecFault> {
        self.proposals.put(alloc, draft)?;
        self.path.put(alloc, draft)
    }
}
