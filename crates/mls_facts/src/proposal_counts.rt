//! How many proposals of each type a message has (RFC 9420, 12.1 and 12.4).

ghost use Rattle.std.specs.Prelude.{◌≡◌, ◌∷◌, []};
ghost use Rattle.mls_msgs.specs.declared.proposal.ProposalOrRef.TheVariants as variants;
ghost use Rattle.mls_facts.specs.Facts.{proposal_type, has_type, is_reference, type_count, reference_count, list_counts, content_counts};

use mls_msgs::{Content, Proposal, ProposalOrRef};

/// How many proposals of each type a message has (RFC 9420, 12.1 and 12.4).
#[derive(Clone, Copy, Debug, PartialEq, Eq)]
pub struct ProposalCounts {
    /// Adds: type 1.
    pub adds: usize,
    /// Updates: type 2.
    pub updates: usize,
    /// Removes: type 3.
    pub removes: usize,
    /// PreSharedKeys: type 4.
    pub psks: usize,
    /// ReInits: type 5.
    pub reinits: usize,
    /// ExternalInits: type 6.
    pub external_inits: usize,
    /// GroupContextExtensions: type 7.
    pub group_context_extensions: usize,
    /// References to proposals that were sent before (RFC 9420, 5.2 and 12.4). Their types are not known without the group.
    pub references: usize,
}

/// Returns the type of a proposal.
fn proposal_type(proposal: &Proposal) -> u16
    ensures { result ≡ proposal_type proposal.now }
{
    match proposal {
        Proposal::Add(_) => 1,
        Proposal::Update(_) => 2,
        Proposal::Remove(_) => 3,
        Proposal::PreSharedKey(_) => 4,
        Proposal::ReInit(_) => 5,
        Proposal::ExternalInit(_) => 6,
        Proposal::ContextExtensions(_) => 7,
    }
}

/// Returns whether an entry of a proposal list is a proposal of this type.
fn has_type(kind: u16, entry: &ProposalOrRef) -> bool
    ensures { result ≡ has_type kind entry.now }
{
    match entry {
        ProposalOrRef::Proposal(proposal) => proposal_type(proposal) == kind,
        ProposalOrRef::Reference(_) => false,
    }
}

/// Returns whether an entry of a proposal list is a reference.
fn is_reference(entry: &ProposalOrRef) -> bool
    ensures { result ≡ is_reference entry.now }
{
    match entry {
        ProposalOrRef::Proposal(_) => false,
        ProposalOrRef::Reference(_) => true,
    }
}

/// Returns how many proposals of this type a list has.
fn type_count(kind: u16, entries: &[ProposalOrRef]) -> usize
    ensures { result ≡ type_count kind entries.now }
{
    entries
        .iter()
        .filter(|&entry| has_type(kind, entry))
        .count()
}

/// Returns how many references a list has.
fn reference_count(entries: &[ProposalOrRef]) -> usize
    ensures { result ≡ reference_count entries.now }
{
    entries.iter().filter(|&entry| is_reference(entry)).count()
}

/// Returns the counts of a proposal list.
fn list_counts(entries: &[ProposalOrRef]) -> ProposalCounts
    ensures { result ≡ list_counts entries.now }
{
    ProposalCounts {
        adds: type_count(1, entries),
        updates: type_count(2, entries),
        removes: type_count(3, entries),
        psks: type_count(4, entries),
        reinits: type_count(5, entries),
        external_inits: type_count(6, entries),
        group_context_extensions: type_count(7, entries),
        references: reference_count(entries),
    }
}

/// Returns the counts of a message without proposals.
pub(crate) fn no_counts() -> ProposalCounts
    ensures { result ≡ list_counts [] }
{
    ProposalCounts {
        adds: 0,
        updates: 0,
        removes: 0,
        psks: 0,
        reinits: 0,
        external_inits: 0,
        group_context_extensions: 0,
        references: 0,
    }
}

/// Returns the counts of a single proposal.
fn single_counts(proposal: &Proposal) -> ProposalCounts
    ensures { result ≡ list_counts (variants.Proposal proposal.now ∷ []) }
{
    let mut counts = no_counts();
    match proposal {
        Proposal::Add(_) => counts.adds = 1,
        Proposal::Update(_) => counts.updates = 1,
        Proposal::Remove(_) => counts.removes = 1,
        Proposal::PreSharedKey(_) => counts.psks = 1,
        Proposal::ReInit(_) => counts.reinits = 1,
        Proposal::ExternalInit(_) => counts.external_inits = 1,
        Proposal::ContextExtensions(_) => counts.group_context_extensions = 1,
    }
    counts
}

/// Returns the counts of a content.
pub(crate) fn content_counts(content: &Content) -> ProposalCounts
    ensures { result ≡ content_counts content.now }
{
    match content {
        Content::Application(_) => no_counts(),
        Content::Proposal(proposal) => single_counts(proposal),
        Content::Commit(commit) => list_counts(commit.proposals.as_slice()),
    }
}
