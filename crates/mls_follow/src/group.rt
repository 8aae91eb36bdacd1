//! The public state of a group, and what an accepted message changes in it.

ghost use Rattle.std.specs.Prelude.{◌≡◌, ◌<◌, Some, IsSome, IsTrue, IfOk, OnErr, option_map, unwrap_or};
ghost use Rattle.mls_hash.specs.SuiteHash.{hash_of};
ghost use Rattle.mls_msgs.specs.Layout.{is_commit};
ghost use Rattle.mls_msgs.specs.Tbs.{confirmed_input};
ghost use Rattle.mls_nodes.specs.ExternalSenders.{senders_by};
ghost use Rattle.mls_nodes.specs.Requirements.{Requires, RequiresBy};
ghost use Rattle.mls_nodes.proofs.RequiredOnce.{Requires-prop};
ghost use Rattle.mls_strict.specs.LeafForms.{requires_types};
ghost use Rattle.mls_apply.specs.Staged.{IsSettled};
ghost use Rattle.mls_apply.specs.StagedInternal.{IsSettled-prop};
ghost use Rattle.mls_follow.specs.MessageRules.{reference_of};
ghost use Rattle.mls_follow.specs.NextState.{pending_proposal};
ghost use Rattle.mls_follow.specs.State.{last_epoch};
ghost use Rattle.mls_follow.specs.StoredState.{AreReferenced};
ghost use Rattle.mls_follow.specs.GroupModelInternal.{IsSentIn};
ghost use Rattle.mls_apply.specs.Transcript.{confirmed_hash, interim_hash};

use crate::next_extensions::NextExtensions;
use crate::resolved::{ResolvedCommit, SentProposal};
use crate::taken::Taken;
use mls_apply::{
    KnownProposal, PendingProposals, Refusal, StagedTree, confirmed_hash, interim_hash,
};
use mls_check::GroupRequirements;
use mls_hash::Suite;
use mls_msgs::{Profile, Rules};
use mls_nodes::{ExternalSenders, GroupContext};
use mls_tree::HashValue;
use mls_wire::{Opaque, copy_of};
use std::alloc::{AllocError, Global};

/// The public state of a group: the profile, the set of strict rules, its context, its tree, the interim transcript hash,
/// the pending proposals, whether it is over, and the KeyPackageRefs of the Adds of the last commit; and, read from these, the
/// cipher suite, what the group requires of its members, what the types of its extensions require, and its external senders,
/// `None` if they cannot be read. What is required is stored with sorted lists, which are made once an epoch.
#[derive(Drop)]
pub(crate) struct Group {
    pub(crate) profile: Profile,
    pub(crate) rules: Rules,
    pub(crate) context: GroupContext,
    pub(crate) tree: StagedTree,
    pub(crate) interim: HashValue,
    pub(crate) known: PendingProposals,
    pub(crate) ended: bool,
    pub(crate) added: Option<Vec<HashValue>>,
    pub(crate) suite: Suite,
    pub(crate) required: GroupRequirements,
    pub(crate) types: GroupRequirements,
    pub(crate) senders: Option<ExternalSenders>,
    ghost same_suite: { suite ≡ context.cipher_suite },
    ghost requires_these: { Requires context required } by { Requires-prop context required },
    ghost same_types: { types ≡ requires_types context.extensions },
    ghost same_senders: { senders ≡ senders_by context.extensions },
    ghost referenced: { AreReferenced context known },
    ghost settled: { IsSettled tree } by { IsSettled-prop tree },
}

/// The transcript hashes after a commit (RFC 9420, 8.2).
#[derive(Drop)]
pub(crate) struct TranscriptHashes {
    pub(crate) confirmed: Opaque,
    pub(crate) interim: HashValue,
}

/// The hashes of a commit: the transcript hashes after it (RFC 9420, 8.2), and the KeyPackageRefs of the Adds of its list (5.2).
#[derive(Drop)]
pub(crate) struct CommitHashes {
    pub(crate) confirmed: Opaque,
    pub(crate) interim: HashValue,
    pub(crate) added: Vec<HashValue>,
}

/// Returns a proposal that was sent as a pending one under its reference: a copy.
fn pending_proposal(
    alloc: Global,
    reference: HashValue,
    sent: &SentProposal<'_>,
) -> Result<KnownProposal, AllocError>
    ensures { IfOk result (λ k. k ≡ pending_proposal sent.now.auth.now sent.now.sender sent.now.proposal.now reference) }
{
    let proposal = copy_of(alloc, sent.proposal)?;
    let authenticated_data = copy_of(alloc, &sent.auth.content().authenticated)?;
    let signature = copy_of(alloc, sent.auth.signature())?;
    Ok(KnownProposal {
        reference,
        sender: sent.sender,
        proposal,
        authenticated_data,
        signature,
    })
}

/// What a staged commit changes in the GroupContext: the tree hash, and the extensions, if its list proposes some.
#[derive(Drop)]
pub(crate) struct StagedContext {
    pub(crate) tree_hash: Opaque,
    pub(crate) extensions: Option<NextExtensions>,
}

impl Group {
    ghost use Rattle.mls_follow.specs.GroupModel.{group_state};
    ghost use Rattle.mls_follow.specs.NextState.{after_proposal, committed, with_extensions};

    /// Stores a proposal that was sent as a pending one, under its reference.
    pub(crate) fn store_proposal(
        &mut self,
        alloc: Global,
        reference: HashValue,
        sent: &SentProposal<'_>,
    ) -> Result<Taken, AllocError>
        requires framed { IsSentIn self.old.context sent.now.auth.now sent.now.sender sent.now.proposal.now }
        requires referenced { reference_of self.old.context sent.now.auth.now ≡ Some reference }
        ensures stored { IfOk result (λ taken. after_proposal
            (group_state self.old) sent.now.auth.now sent.now.sender sent.now.proposal.now reference
            ≡ record { taken = taken; state = group_state self.new }) }
        ensures unchanged_on_error { OnErr result (group_state self.new ≡ group_state self.old) }
    {
        let None = sent.auth.confirmation_tag() else {
            unreachable!();
        };
        let known = pending_proposal(alloc, reference, sent)?;
        self.known.push(alloc, known)?;
        Ok(Taken::Proposal(reference))
    }

    /// Returns the transcript hashes after a commit.
    pub(crate) fn transcript_hashes(
        &self,
        alloc: Global,
        commit: &ResolvedCommit<'_>,
    ) -> Result<TranscriptHashes, AllocError>
        ensures confirmed { IfOk result (λ h. confirmed_hash
            (hash_of self.now.suite) self.now.interim commit.now.auth.now ≡ Some h.confirmed) }
        ensures interim { IfOk result (λ h. interim_hash
            (hash_of self.now.suite) h.confirmed commit.now.auth.now.confirmation_tag
            ≡ Some h.interim) }
    {
        let Some(tag) = commit.auth.confirmation_tag() else {
            unreachable!();
        };
        let confirmed = confirmed_hash(alloc, self.suite, self.interim.as_slice(), commit.auth)?;
        let interim = interim_hash(alloc, self.suite, confirmed.as_slice(), tag)?;
        let confirmed = confirmed.to_opaque(alloc)?;
        Ok(TranscriptHashes { confirmed, interim })
    }

    /// Moves to the next epoch, whose tree is in place. The extensions, what is read in them and the requirements are
    /// replaced only if the commit proposes extensions. Does not allocate.
    pub(crate) fn begin_epoch(
        &mut self,
        staged: StagedContext,
        hashes: CommitHashes,
        required: Option<GroupRequirements>,
        ends: bool,
    ) -> Taken
        requires not_last_epoch { self.old.context.epoch < last_epoch }
        requires requirements { let proposed = option_map (λ next. next.extensions) staged.extensions in
            RequiresBy (unwrap_or proposed self.old.context.extensions) (unwrap_or required self.old.required) }
        ensures next { let proposed = option_map (λ next. next.extensions) staged.extensions in
            let extensions = unwrap_or proposed self.old.context.extensions in
            committed (with_extensions (group_state self.old) extensions ends hashes.added.items)
            self.old.tree.tree staged.tree_hash hashes.confirmed hashes.interim
            ≡ record { taken = result; state = group_state self.new } }
    {
        let StagedContext {
            tree_hash,
            extensions,
        } = staged;
        self.context.epoch += 1;
        if let Some(next) = extensions {
            self.context.extensions = next.extensions;
            self.types = next.types;
            self.senders = next.senders;
        }
        if let Some(required) = required {
            self.required = required;
        }
        self.context.tree_hash = tree_hash;
        self.context.confirmed = hashes.confirmed;
        self.interim = hashes.interim;
        self.known.clear();
        self.ended = ends;
        self.added = Some(hashes.added);
        Taken::Commit(self.context.epoch)
    }
}
