//! Whether a message is judged within the lifetimes of those that it adds, at a time that the caller passes (RFC 9420, 7.2,
//! 7.3 and 10.1). No clock is read.

ghost use Rattle.std.specs.Prelude.{◌≡◌, ◌&&◌, nat_le};
ghost use Rattle.std.specs.List.{list_all};
ghost use Rattle.mls_follow.specs.Lifetimes.{content_is_timely, entry_is_timely, includes, is_timely};

use mls_msgs::{Content, Proposal, ProposalOrRef};
use mls_nodes::LeafSource;

/// Returns whether the lifetime of a leaf node, if it has one, includes the time (RFC 9420, 7.2).
fn includes(now: u64, source: &LeafSource) -> bool
    ensures { result ≡ includes now source.now }
{
    match source {
        LeafSource::KeyPackage(lifetime) => {
            lifetime.not_before <= now && now <= lifetime.not_after
        }
        LeafSource::Update | LeafSource::Commit { .. } => true,
    }
}

/// Returns whether the lifetime of the leaf node of a proposal, if it is an Add, includes the time.
fn is_timely(now: u64, proposal: &Proposal) -> bool
    ensures { result ≡ is_timely now proposal.now }
{
    match proposal {
        Proposal::Add(key_package) => includes(now, &key_package.leaf_node.source()),
        _ => true,
    }
}

/// Returns whether so is an entry of a proposal list, as far as it is a proposal by value.
fn entry_is_timely(now: u64, entry: &ProposalOrRef) -> bool
    ensures { result ≡ entry_is_timely now entry.now }
{
    match entry {
        ProposalOrRef::Proposal(proposal) => is_timely(now, proposal),
        ProposalOrRef::Reference(_) => true,
    }
}

/// Returns whether so is each entry of a proposal list.
fn are_timely(now: u64, entries: &[ProposalOrRef]) -> bool
    ensures { result ≡ list_all (entry_is_timely now) entries.now }
{
    entries.iter().all(|entry| entry_is_timely(now, entry))
}

/// Returns whether the lifetimes of those that a content adds by value include the time. Allocates nothing.
pub(crate) fn content_is_timely(now: u64, content: &Content) -> bool
    ensures { result ≡ content_is_timely now content.now }
{
    match content {
        Content::Application(_) => true,
        Content::Proposal(proposal) => is_timely(now, proposal),
        Content::Commit(commit) => are_timely(now, commit.proposals.as_slice()),
    }
}
