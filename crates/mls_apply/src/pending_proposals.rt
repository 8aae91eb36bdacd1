//! The pending proposals of an epoch (RFC 9420, 12.4), found by their references.

ghost use Rattle.std.specs.Prelude.{◌≡◌, ◌++◌, ◌∷◌, [], List, OnOk, OnErr, option_map};
ghost use Rattle.mls_apply.specs.PendingIndex.{known_fingerprint};
ghost use Rattle.mls_apply.specs.ResolvedList.{find_known, item_of};

use crate::list_item::{KnownProposal, ListItem};
use crate::psk_fingerprint::psk_fingerprint;
use std::alloc::{AllocError, Global};
use std::collections::BTreeMap;
use std::marker::Model;

/// The proposals that were accepted in the current epoch, of members and of senders outside the group (RFC 9420, 12.4 and
/// 12.1.8), in their order, an index of their references, and the fingerprints of their PreSharedKeyIDs.
///
/// Contracts see the list of the proposals.
#[derive(Drop)]
pub struct PendingProposals {
    proposals: Vec<KnownProposal>,
    /// The fingerprint of each proposal, by its position.
    fingerprints: Vec<u64>,
    positions: BTreeMap<Vec<u8>, usize>,
}

impl Model for PendingProposals {
    ghost use Rattle.std.specs.Prelude.{List};
    ghost use Rattle.mls_apply.specs.declared.list_item.KnownProposal.{KnownProposal};

    ghost Value = { List KnownProposal };

    ghost use Rattle.mls_apply.specs.PendingIndex.{IsIndexed, AreFingerprints};

    ghost view = { λ p. p.proposals.items };

    ghost invariant = { λ p. IsIndexed p.proposals.items p.positions
        × AreFingerprints p.proposals.items p.fingerprints.items };
}

/// Adds a proposal after the others, and its fingerprint after theirs.
///
/// # Errors
///
/// A failed allocation; both lists are unchanged.
fn push_proposal(
    proposals: &mut Vec<KnownProposal>,
    fingerprints: &mut Vec<u64>,
    proposal: KnownProposal,
) -> Result<(), AllocError>
    ensures proposals { OnOk result (proposals.new.items ≡ proposals.old.items ++ proposal ∷ []) }
    ensures fingerprints { OnOk result
        (fingerprints.new.items ≡ fingerprints.old.items ++ known_fingerprint proposal ∷ []) }
    ensures proposals_on_error { OnErr result (proposals.new.items ≡ proposals.old.items) }
    ensures fingerprints_on_error { OnErr result (fingerprints.new.items ≡ fingerprints.old.items) }
{
    let fingerprint = psk_fingerprint(&proposal.proposal);
    proposals.push(proposal)?;
    match fingerprints.push(fingerprint) {
        Ok(()) => Ok(()),
        Err(_) => {
            drop(proposals.pop());
            Err(AllocError)
        }
    }
}

impl PendingProposals {
    /// Returns an empty list of pending proposals.
    pub fn new(alloc: Global) -> PendingProposals
        ensures { result ≡ [] }
    {
        PendingProposals {
            proposals: Vec::new(alloc),
            fingerprints: Vec::new(alloc),
            positions: BTreeMap::new(alloc),
        }
    }

    /// Returns the proposals, in the order in which they were accepted.
    pub fn as_slice(&self) -> &[KnownProposal]
        ensures { result.now ≡ self.now }
    {
        self.proposals.as_slice()
    }

    /// Returns the first proposal with this reference (RFC 9420, 5.2), if there is one, in a time that grows with the
    /// logarithm of their number.
    pub fn find(&self, reference: &[u8]) -> Option<&KnownProposal>
        ensures { option_map (λ k. k.now) result ≡ find_known self.now reference.now }
    {
        match self.positions.get(reference) {
            Some(position) => self.proposals.get(*position),
            None => None,
        }
    }

    /// Returns the item of a proposal list that the first proposal with this reference is, if there is one. Takes the
    /// fingerprint that is stored, and hashes nothing.
    pub(crate) fn find_item(&self, reference: &[u8]) -> Option<ListItem<'_>>
        ensures { result ≡ option_map item_of (find_known self.now reference.now) }
    {
        match self.positions.get(reference) {
            Some(position) => {
                let known = &self.proposals[*position];
                let fingerprint = self.fingerprints[*position];
                Some(ListItem::of_known(known, fingerprint))
            }
            None => None,
        }
    }

    /// Adds a proposal after the others, and computes its fingerprint.
    ///
    /// # Errors
    ///
    /// A failed allocation; the list is unchanged.
    pub fn push(&mut self, alloc: Global, proposal: KnownProposal) -> Result<(), AllocError>
        ensures pushed { OnOk result (self.new ≡ self.old ++ proposal ∷ []) }
        ensures unchanged_on_error { OnErr result (self.new ≡ self.old) }
    {
        let Ok(reference) = Vec::from_slice(alloc, proposal.reference.as_slice()) else {
            drop(proposal);
            return Err(AllocError);
        };
        let is_new = !self.positions.contains_key(reference.as_slice());
        let position = self.proposals.len();
        push_proposal(&mut self.proposals, &mut self.fingerprints, proposal)?;
        if !is_new {
            return Ok(());
        }
        match self.positions.insert(reference, position) {
            Ok(_) => Ok(()),
            Err(_) => {
                drop(self.proposals.pop());
                let _ = self.fingerprints.pop();
                Err(AllocError)
            }
        }
    }

    /// Removes all proposals. Does not allocate.
    pub fn clear(&mut self)
        ensures { self.new ≡ [] }
    {
        self.proposals.clear();
        self.fingerprints.clear();
        self.positions.clear();
    }
}
