//! The proposal list of a commit (RFC 9420, 12.4).

ghost use Rattle.std.specs.Prelude.{◌≡◌, ◌⊎◌, None, Some, IfOk, IfErr, Err};
ghost use Rattle.mls_apply.specs.ResolvedList.{entry_item, item_of, resolved};

use crate::pending_proposals::PendingProposals;
use crate::psk_fingerprint::psk_fingerprint;
use crate::refusal::Refusal;
use mls_msgs::{Commit, Proposal, ProposalOrRef, Sender};
use mls_tree::HashValue;
use mls_wire::Opaque;
use std::alloc::Global;
use std::marker::Model;

/// A proposal of a proposal list. It borrows the proposal from the commit or from the pending proposals.
///
/// Contracts see the sender and the proposal itself.
#[derive(Debug, Drop)]
pub struct ListItem<'a> {
    /// The sender (RFC 9420, 6): of a proposal by value that of the commit.
    pub sender: Sender,
    /// The proposal.
    pub proposal: &'a Proposal,
    /// The fingerprint of its PreSharedKeyID. 0 if the proposal is no PreSharedKey.
    fingerprint: u64,
}

impl<'a> Model for ListItem<'a> {
    ghost use Rattle.std.specs.Prelude.{◌≡◌};
    ghost use Rattle.mls_apply.specs.ListItemModel.{ListItemModel};

    ghost Value = { ListItemModel };

    ghost use Rattle.mls_apply.specs.PskFingerprints.{psk_fingerprint};

    ghost view = { λ x. record { sender = x.sender; proposal = x.proposal.now } };

    ghost invariant = { λ x. x.fingerprint ≡ psk_fingerprint x.proposal.now };
}

impl<'a> ListItem<'a> {
    ghost use Rattle.mls_apply.specs.ContextExtensions.{is_context_extensions};
    ghost use Rattle.mls_apply.specs.PendingIndex.{known_fingerprint};
    ghost use Rattle.mls_apply.specs.PskFingerprints.{psk_fingerprint};

    /// Returns the item of a proposal and its sender. Hashes the PreSharedKeyID, if the proposal is a PreSharedKey.
    pub fn new(sender: Sender, proposal: &'a Proposal) -> ListItem<'a>
        ensures { result ≡ record { sender = sender; proposal = proposal.now } }
    {
        ListItem {
            sender,
            proposal,
            fingerprint: psk_fingerprint(proposal),
        }
    }

    /// Returns the item of a pending proposal, whose fingerprint is known.
    pub(crate) fn of_known(known: &'a KnownProposal, fingerprint: u64) -> ListItem<'a>
        requires { fingerprint ≡ known_fingerprint known.now }
        ensures { result ≡ item_of known.now }
    {
        ListItem {
            sender: known.sender,
            proposal: &known.proposal,
            fingerprint,
        }
    }

    /// Returns the fingerprint of the PreSharedKeyID. 0 if the proposal is no PreSharedKey.
    pub(crate) fn psk_fingerprint(&self) -> u64
        ensures { result ≡ psk_fingerprint self.now.proposal }
    {
        self.fingerprint
    }

    /// Returns whether it is a GroupContextExtensions proposal (RFC 9420, 12.1.7).
    pub fn is_context_extensions(&self) -> bool
        ensures { result ≡ is_context_extensions self.now }
    {
        match self.proposal {
            Proposal::ContextExtensions(_) => true,
            Proposal::PreSharedKey(_) => false,
            Proposal::ReInit(_) => false,
            Proposal::ExternalInit(_) => false,
            Proposal::Add(_) => false,
            Proposal::Update(_) => false,
            Proposal::Remove(_) => false,
        }
    }
}

/// A pending proposal: one that was received in the current epoch.
#[derive(Debug, Drop)]
pub struct KnownProposal {
    /// The reference by which commits name it (RFC 9420, 5.2).
    pub reference: HashValue,
    /// The sender (RFC 9420, 6).
    pub sender: Sender,
    /// The proposal.
    pub proposal: Proposal,
    /// The authenticated data of the content (RFC 9420, 6).
    pub authenticated_data: Opaque,
    /// The signature of the content (RFC 9420, 6.1).
    pub signature: Opaque,
}

/// Returns the item of an entry of a proposal list, if its reference, if it is one, is that of a
/// pending proposal.
fn entry_item<'a>(
    committer: Sender,
    known: &'a PendingProposals,
    entry: &'a ProposalOrRef,
) -> Option<ListItem<'a>>
    ensures { result ≡ entry_item committer known.now entry.now }
{
    match entry {
        ProposalOrRef::Proposal(proposal) => Some(ListItem::new(committer, proposal)),
        ProposalOrRef::Reference(reference) => known.find_item(reference.as_slice()),
    }
}

/// Returns the list of proposals that a commit applies, in the order of its entries (RFC 9420, 12.4). The sender of a
/// proposal by value is the committer. A reference is resolved to the first pending proposal that has it, with that
/// proposal's sender.
///
/// No proposal is copied: each item borrows its own.
///
/// # Errors
///
/// `UnknownReference` if some reference is that of no pending proposal; `OutOfMemory`.
#[tactic(auto, using(crate::proofs::Resolving::resolved_step))]
pub fn resolve_list<'a>(
    alloc: Global,
    commit: &'a Commit,
    committer: Sender,
    known: &'a PendingProposals,
) -> Result<Vec<ListItem<'a>>, Refusal>
    ensures items { IfOk result (λ v.
        resolved committer known.now commit.now.proposals ≡ Some v.items) }
    ensures unknown { result ≡ Err Refusal.UnknownReference
        → resolved committer known.now commit.now.proposals ≡ None }
    ensures possible_errors { IfErr result (λ e.
        (e ≡ Refusal.UnknownReference) ⊎ (e ≡ Refusal.OutOfMemory)) }
{
    let mut items = Vec::with_capacity(alloc, commit.proposals.as_slice().len())?;
    let mut rest = commit.proposals.as_slice();
    while let Some((entry, tail)) = rest.split_first() {
        let Some(item) = entry_item(committer, known, entry) else {
            return Err(Refusal::UnknownReference);
        };
        items.push(item)?;
        rest = tail;
    }
    Ok(items)
}
