//! The leaf node that a sender sends of itself to join a group (RFC 9420, 6.1).

ghost use Rattle.std.specs.Prelude.{◌≡◌, option_map};
ghost use Rattle.mls_facts.specs.Facts.{added_leaf, proposed_leaf, committed_leaf, sender_leaf};

use mls_msgs::{Content, Proposal, Sender, UpdatePath};
use mls_nodes::EncodedLeaf;

/// Returns the leaf node of an Add.
fn added_leaf(proposal: &Proposal) -> Option<&EncodedLeaf>
    ensures { option_map (λ l. l.now) result ≡ added_leaf proposal.now }
{
    match proposal {
        Proposal::Add(key_package) => Some(&*key_package.leaf_node),
        Proposal::Update(_) => None,
        Proposal::Remove(_) => None,
        Proposal::PreSharedKey(_) => None,
        Proposal::ReInit(_) => None,
        Proposal::ExternalInit(_) => None,
        Proposal::ContextExtensions(_) => None,
    }
}

/// Returns the leaf node of a client that proposes its own Add.
fn proposed_leaf(content: &Content) -> Option<&EncodedLeaf>
    ensures { option_map (λ l. l.now) result ≡ proposed_leaf content.now }
{
    match content {
        Content::Application(_) => None,
        Content::Proposal(proposal) => added_leaf(proposal),
        Content::Commit(_) => None,
    }
}

/// Returns the leaf node of a path, if there is one.
fn path_leaf(path: &Option<UpdatePath>) -> Option<&EncodedLeaf>
    ensures { option_map (λ l. l.now) result ≡ option_map (λ p. p.leaf_node) path.now }
{
    match path {
        Some(path) => Some(&*path.leaf_node),
        None => None,
    }
}

/// Returns the leaf node in the path of a client that joins with a commit.
fn committed_leaf(content: &Content) -> Option<&EncodedLeaf>
    ensures { option_map (λ l. l.now) result ≡ committed_leaf content.now }
{
    match content {
        Content::Application(_) => None,
        Content::Proposal(_) => None,
        Content::Commit(commit) => path_leaf(&commit.path),
    }
}

/// Returns the leaf node that the sender of a content sends of itself to join.
pub(crate) fn sender_leaf(sender: Sender, content: &Content) -> Option<&EncodedLeaf>
    ensures { option_map (λ l. l.now) result ≡ sender_leaf sender content.now }
{
    match sender {
        Sender::Member(_) => None,
        Sender::External(_) => None,
        Sender::NewMemberProposal => proposed_leaf(content),
        Sender::NewMemberCommit => committed_leaf(content),
    }
}
