//! How a group processes what its members, external senders and new members have sent.

ghost use Rattle.std.specs.Prelude.{◌≡◌, ◌<◌, Some, IsSome, IsTrue, option_and_then, option_map, unwrap_or};
ghost use Rattle.mls_tree.specs.Tree.{leaf_at};
ghost use Rattle.mls_msgs.specs.Layout.{is_commit};
ghost use Rattle.mls_msgs.specs.Tbs.{confirmed_input};
ghost use Rattle.mls_msgs.specs.declared.framed_content.Content.TheVariants as contents;
ghost use Rattle.mls_hash.specs.SuiteHash.{hash_of};
ghost use Rattle.mls_msgs.specs.declared.framed_content.Sender.TheVariants.{Member, NewMemberCommit};
ghost use Rattle.mls_apply.specs.ContextExtensions.{proposed_extensions};
ghost use Rattle.mls_apply.specs.Senders.{is_present};
ghost use Rattle.mls_apply.specs.AppliedList.{outcome};
ghost use Rattle.mls_apply.specs.JoinRules.{join_items};
ghost use Rattle.mls_apply.specs.RuleLists.{first_failing};
ghost use Rattle.mls_follow.specs.GroupModel.{group_state};
ghost use Rattle.mls_follow.specs.GroupModelInternal.{IsFramedIn, IsSentIn, with_known};
ghost use Rattle.mls_follow.specs.FollowerInvariant.{HasUniqueKeysAndValidLeaves};
ghost use Rattle.mls_follow.specs.MessageRules.{changed_tree, if_full, joiner_rules, applied_tree_rules, outside_rules, required_after, rules_with_requirements, reference_of};
ghost use Rattle.mls_follow.specs.MessageRulesInternal.{external_commit_refusal, frame_refusal, handshake_refusal, joiner_refusal, outside_refusal, proposal_refusal, sender_refusal};
ghost use Rattle.mls_follow.specs.NextState.{after_commit, after_content, after_join, after_outside, after_proposal, after_sender, after_tree, with_list};
ghost use Rattle.mls_follow.specs.State.{EncodesMessage, last_epoch};
ghost use Rattle.mls_follow.specs.AcceptanceInternal.{Takes};
ghost use Rattle.mls_follow.specs.StrictRulesInternal.{late_refusal};
ghost use Rattle.mls_follow.specs.TimedAcceptance.{IsTransitionAt};

use crate::changed_tree_check::TreeRules;
use crate::commit_changes::{check_items, check_join_items, stage_judged_commit};
use crate::framed_content_rules::{
    check_header, check_joiner_frame, check_member_frame, check_outside_frame,
};
use crate::group::{CommitHashes, Group, TranscriptHashes};
use crate::next_extensions::{proposed_requirements, required_after};
use crate::proposal_message::check_proposal_message;
use crate::received_frame::{JudgedFrame, ReceivedFrame, ReceivedMessage};
use crate::resolved::{MemberMessage, ReceivedCommit, ResolvedCommit, SentProposal};
use crate::strict_rules::late_rule;
use crate::taken::Taken;
use mls_apply::{PendingProposals, Refusal, added_references, has_reinit};
use mls_check::{GroupRequirements, SignatureCheck};
use mls_msgs::{Authenticated, Commit, Content, Message, Profile, Proposal, Sender};
use std::alloc::{AllocError, Global};
use std::mem::replace;

impl Group {
    /// Processes a proposal that was sent and signed.
    #[tactic(auto, unfolding(crate::specs::MessageRulesInternal::proposal_refusal))]
    fn take_proposal<C: SignatureCheck>(
        &mut self,
        alloc: Global,
        checker: &C,
        sent: &SentProposal<'_>,
    ) -> Result<Taken, Refusal>
        requires present { IsTrue (is_present self.old.tree.tree sent.now.sender) }
        requires framed { IsSentIn self.old.context sent.now.auth.now sent.now.sender sent.now.proposal.now }
        requires referenced { IsSome (reference_of self.old.context sent.now.auth.now) }
        ensures { let s = group_state self.old in
            Takes (late_refusal self.old.rules sent.now.late)
            (proposal_refusal (C.meaning checker.now) s sent.now.auth.now sent.now.sender sent.now.proposal.now)
            (option_map (after_proposal s sent.now.auth.now sent.now.sender sent.now.proposal.now)
            (reference_of self.old.context sent.now.auth.now))
            s result (group_state self.new) }
    {
        let reference = check_proposal_message(alloc, self, checker, sent)?;
        if let Some(refusal) = sent.late {
            return Err(refusal);
        }
        Ok(self.store_proposal(alloc, reference, sent)?)
    }

    /// Processes a proposal that a member has sent and signed.
    #[tactic(auto, unfolding(crate::specs::MessageRulesInternal::handshake_refusal, crate::specs::MessageRulesInternal::proposal_refusal))]
    fn take_member_proposal<C: SignatureCheck>(
        &mut self,
        alloc: Global,
        checker: &C,
        message: &MemberMessage<'_>,
        proposal: &Proposal,
    ) -> Result<Taken, Refusal>
        requires member { IsSome (leaf_at 0 self.old.tree.tree message.now.sender) }
        requires framed { IsSentIn self.old.context message.now.auth.now (Member message.now.sender) proposal.now }
        requires referenced { IsSome (reference_of self.old.context message.now.auth.now) }
        ensures { let s = group_state self.old in
            Takes (late_refusal self.old.rules message.now.late)
            (handshake_refusal (C.meaning checker.now) s self.old.required message.now.auth.now
            message.now.sender (contents.Proposal proposal.now))
            (after_content s message.now.auth.now message.now.sender (contents.Proposal proposal.now))
            s result (group_state self.new) }
    {
        let sent = SentProposal {
            auth: message.auth,
            late: message.late,
            sender: Sender::Member(message.sender),
            proposal,
        };
        self.take_proposal(alloc, checker, &sent)
    }

    /// Changes the tree in place as a commit does, and begins the next epoch, if the path and the tree after both satisfy
    /// their rules. `required` is what the extensions require that the commit proposes, if it proposes some. Any error
    /// undoes the changes. The last step does not allocate.
    fn apply_commit<C: SignatureCheck>(
        &mut self,
        alloc: Global,
        checker: &C,
        commit: &ResolvedCommit<'_>,
        required: Option<GroupRequirements>,
    ) -> Result<Taken, Refusal>
        requires present { IsTrue (is_present self.old.tree.tree commit.now.committer) }
        requires not_last_epoch { self.old.context.epoch < last_epoch }
        requires requirements { required_after self.old.required (proposed_extensions commit.now.items.items)
            ≡ Some (unwrap_or required self.old.required) }
        requires checked { HasUniqueKeysAndValidLeaves (C.meaning checker.now) (group_state self.old) }
        ensures { let s = group_state self.old in
            let o = outcome commit.now.items.items self.old.tree.tree in
            let H = hash_of self.old.context.cipher_suite in
            let listed = with_list s (Some commit.now.items.items) in
            Takes (late_refusal self.old.rules commit.now.late)
            (first_failing (applied_tree_rules (C.meaning checker.now) s (unwrap_or required self.old.required)
            commit.now.committer commit.now.path.now o))
            (option_and_then (after_tree listed commit.now.auth.now) (changed_tree H commit.now.committer
            commit.now.path.now o))
            s result (group_state self.new) }
    {
        let hashes = match self.transcript_hashes(alloc, commit) {
            Ok(hashes) => hashes,
            Err(AllocError) => {
                drop(required);
                return Err(Refusal::OutOfMemory);
            }
        };
        let after = required_after(&self.required, &required);
        let rules = TreeRules {
            suite: self.suite,
            context: &self.context,
            former: &self.required,
            required: after.required,
            unchanged: after.unchanged,
            types: &self.types,
            asked: self.rules,
        };
        match stage_judged_commit(alloc, &rules, checker, &mut self.tree, commit) {
            Ok(staged) => {
                let Ok(added) = added_references(alloc, commit.items.as_slice()) else {
                    drop(staged);
                    self.tree.rollback();
                    return Err(Refusal::OutOfMemory);
                };
                self.tree.settle();
                let ends = has_reinit(commit.items.as_slice());
                let TranscriptHashes { confirmed, interim } = hashes;
                let hashes = CommitHashes {
                    confirmed,
                    interim,
                    added,
                };
                Ok(self.begin_epoch(staged, hashes, required, ends))
            }
            Err(refusal) => {
                self.tree.rollback();
                Err(refusal)
            }
        }
    }

    /// Processes a resolved commit: reads what the extensions require that it proposes, and applies it.
    fn take_resolved<C: SignatureCheck>(
        &mut self,
        alloc: Global,
        checker: &C,
        commit: &ResolvedCommit<'_>,
    ) -> Result<Taken, Refusal>
        requires present { IsTrue (is_present self.old.tree.tree commit.now.committer) }
        requires not_last_epoch { self.old.context.epoch < last_epoch }
        requires checked { HasUniqueKeysAndValidLeaves (C.meaning checker.now) (group_state self.old) }
        ensures { let s = group_state self.old in
            let o = outcome commit.now.items.items self.old.tree.tree in
            let required = required_after self.old.required (proposed_extensions commit.now.items.items) in
            let H = hash_of self.old.context.cipher_suite in
            let listed = with_list s (Some commit.now.items.items) in
            Takes (late_refusal self.old.rules commit.now.late)
            (first_failing (rules_with_requirements (C.meaning checker.now) s commit.now.committer
            commit.now.path.now o required))
            (option_and_then (after_tree listed commit.now.auth.now) (changed_tree H commit.now.committer
            commit.now.path.now o))
            s result (group_state self.new) }
    {
        let required = proposed_requirements(alloc, commit.items.as_slice())?;
        self.apply_commit(alloc, checker, commit, required)
    }

    /// Processes a commit that a member has sent and signed, while the group's pending proposals are apart from it.
    #[tactic(auto, unfolding(crate::specs::MessageRulesInternal::handshake_refusal, crate::specs::MessageRulesInternal::commit_refusal))]
    fn take_received<'a, C: SignatureCheck>(
        &mut self,
        alloc: Global,
        checker: &C,
        auth: &'a Authenticated,
        received: &ReceivedCommit<'a>,
    ) -> Result<Taken, Refusal>
        requires member { IsSome (leaf_at 0 self.old.tree.tree received.now.committer) }
        requires hashed { IsSome (confirmed_input auth.now) }
        requires commit { IsTrue (is_commit auth.now.content.content) }
        requires checked { HasUniqueKeysAndValidLeaves (C.meaning checker.now) (group_state self.old) }
        ensures { let s = group_state self.old in
            Takes (late_refusal self.old.rules received.now.late)
            (handshake_refusal (C.meaning checker.now) (with_known s received.now.known.now) self.old.required
            auth.now received.now.committer (contents.Commit received.now.commit.now))
            (after_content (with_known s received.now.known.now) auth.now received.now.committer (contents.Commit
            received.now.commit.now))
            s result (group_state self.new) }
    {
        let items = check_items(alloc, self, checker, received)?;
        let resolved = ResolvedCommit {
            auth,
            late: received.late,
            committer: Sender::Member(received.committer),
            items,
            path: &received.commit.path,
        };
        let answer = self.take_resolved(alloc, checker, &resolved);
        drop(resolved);
        answer
    }

    /// Processes a commit that a member has sent and signed. Its list borrows from the pending proposals, so these are
    /// moved out of the group for the time, and back on error.
    fn take_commit<'a, C: SignatureCheck>(
        &mut self,
        alloc: Global,
        checker: &C,
        message: &MemberMessage<'a>,
        commit: &'a Commit,
    ) -> Result<Taken, Refusal>
        requires member { IsSome (leaf_at 0 self.old.tree.tree message.now.sender) }
        requires hashed { IsSome (confirmed_input message.now.auth.now) }
        requires commit { IsTrue (is_commit message.now.auth.now.content.content) }
        requires checked { HasUniqueKeysAndValidLeaves (C.meaning checker.now) (group_state self.old) }
        ensures { let s = group_state self.old in
            Takes (late_refusal self.old.rules message.now.late)
            (handshake_refusal (C.meaning checker.now) s self.old.required message.now.auth.now
            message.now.sender (contents.Commit commit.now))
            (after_content s message.now.auth.now message.now.sender (contents.Commit commit.now))
            s result (group_state self.new) }
    {
        let known = replace(&mut self.known, PendingProposals::new(alloc));
        let received = ReceivedCommit {
            late: message.late,
            committer: message.sender,
            commit,
            known: &known,
        };
        match self.take_received(alloc, checker, message.auth, &received) {
            Ok(taken) => Ok(taken),
            Err(refusal) => {
                self.known = known;
                Err(refusal)
            }
        }
    }

    /// Processes an AuthenticatedContent of a member, which is for the group and its epoch.
    fn take_member_frame<C: SignatureCheck>(
        &mut self,
        alloc: Global,
        checker: &C,
        judged: &JudgedFrame<'_>,
        sender: u32,
    ) -> Result<Taken, Refusal>
        requires hashed { IsSome (confirmed_input judged.now.frame) }
        requires framed { IsFramedIn self.old.context judged.now.frame }
        requires sender_is { judged.now.frame.content.sender ≡ Member sender }
        requires referenced { IsSome (reference_of self.old.context judged.now.frame) }
        requires checked { HasUniqueKeysAndValidLeaves (C.meaning checker.now) (group_state self.old) }
        ensures { let s = group_state self.old in
            Takes (late_refusal self.old.rules judged.now.late)
            (sender_refusal (C.meaning checker.now) s self.old.required judged.now.frame (Member sender))
            (after_sender s judged.now.frame (Member sender))
            s result (group_state self.new) }
    {
        check_member_frame(alloc, self, checker, &judged.frame, sender)?;
        let auth = judged.frame.auth();
        let message = MemberMessage {
            auth,
            late: judged.late,
            sender,
        };
        match &auth.content().content {
            Content::Application(_) => unreachable!(),
            Content::Proposal(proposal) => {
                self.take_member_proposal(alloc, checker, &message, proposal)
            }
            Content::Commit(commit) => self.take_commit(alloc, checker, &message, commit),
        }
    }

    /// Processes an AuthenticatedContent of an external sender or of a client that proposes to join, which is for the group
    /// and its epoch.
    fn take_outside_frame<C: SignatureCheck>(
        &mut self,
        alloc: Global,
        checker: &C,
        judged: &JudgedFrame<'_>,
    ) -> Result<Taken, Refusal>
        requires present { IsTrue (is_present self.old.tree.tree judged.now.frame.content.sender) }
        requires framed { IsFramedIn self.old.context judged.now.frame }
        requires referenced { IsSome (reference_of self.old.context judged.now.frame) }
        ensures { let s = group_state self.old in
            Takes (late_refusal self.old.rules judged.now.late)
            (outside_refusal (C.meaning checker.now) s judged.now.frame judged.now.frame.content.sender)
            (after_outside s judged.now.frame judged.now.frame.content.sender judged.now.frame.content.content)
            s result (group_state self.new) }
    {
        let proposal = check_outside_frame(alloc, self, checker, &judged.frame)?;
        let auth = judged.frame.auth();
        let sent = SentProposal {
            auth,
            late: judged.late,
            sender: auth.content().sender,
            proposal,
        };
        self.take_proposal(alloc, checker, &sent)
    }

    /// Processes an AuthenticatedContent of such a sender in the full profile. The members' profile refuses it.
    #[tactic(auto, unfolding(crate::specs::MessageRulesInternal::outside_refusal))]
    fn take_outside<C: SignatureCheck>(
        &mut self,
        alloc: Global,
        checker: &C,
        judged: &JudgedFrame<'_>,
    ) -> Result<Taken, Refusal>
        requires present { IsTrue (is_present self.old.tree.tree judged.now.frame.content.sender) }
        requires framed { IsFramedIn self.old.context judged.now.frame }
        requires referenced { IsSome (reference_of self.old.context judged.now.frame) }
        ensures { let s = group_state self.old in
            Takes (late_refusal self.old.rules judged.now.late)
            (first_failing (if_full self.old.profile (outside_rules (C.meaning checker.now) s judged.now.frame
            judged.now.frame.content.sender)))
            (after_outside s judged.now.frame judged.now.frame.content.sender judged.now.frame.content.content)
            s result (group_state self.new) }
    {
        match self.profile {
            Profile::Members => Err(Refusal::SenderNotMember),
            Profile::Full => self.take_outside_frame(alloc, checker, judged),
        }
    }

    /// Processes a commit of a client that joins with it, which has a path and is signed.
    #[tactic(auto, unfolding(crate::specs::MessageRulesInternal::external_commit_refusal))]
    fn take_external_commit<C: SignatureCheck>(
        &mut self,
        alloc: Global,
        checker: &C,
        judged: &JudgedFrame<'_>,
        commit: &Commit,
    ) -> Result<Taken, Refusal>
        requires path { IsSome commit.now.path }
        requires hashed { IsSome (confirmed_input judged.now.frame) }
        requires commit { IsTrue (is_commit judged.now.frame.content.content) }
        requires checked { HasUniqueKeysAndValidLeaves (C.meaning checker.now) (group_state self.old) }
        ensures { let s = group_state self.old in
            Takes (late_refusal self.old.rules judged.now.late)
            (external_commit_refusal (C.meaning checker.now) s self.old.required commit.now)
            (after_commit s judged.now.frame NewMemberCommit commit.now (Some (join_items commit.now.proposals)))
            s result (group_state self.new) }
    {
        let items = check_join_items(alloc, self, commit)?;
        let auth = judged.frame.auth();
        let resolved = ResolvedCommit {
            auth,
            late: judged.late,
            committer: Sender::NewMemberCommit,
            items,
            path: &commit.path,
        };
        let answer = self.take_resolved(alloc, checker, &resolved);
        drop(resolved);
        answer
    }

    /// Processes an AuthenticatedContent of a client that joins with a commit, which is for the group and its epoch.
    fn take_joiner_frame<C: SignatureCheck>(
        &mut self,
        alloc: Global,
        checker: &C,
        judged: &JudgedFrame<'_>,
    ) -> Result<Taken, Refusal>
        requires hashed { IsSome (confirmed_input judged.now.frame) }
        requires checked { HasUniqueKeysAndValidLeaves (C.meaning checker.now) (group_state self.old) }
        ensures { let s = group_state self.old in
            Takes (late_refusal self.old.rules judged.now.late)
            (joiner_refusal (C.meaning checker.now) s self.old.required judged.now.frame judged.now.frame.content.content)
            (after_join s judged.now.frame judged.now.frame.content.content)
            s result (group_state self.new) }
    {
        let commit = check_joiner_frame(alloc, self, checker, &judged.frame)?;
        self.take_external_commit(alloc, checker, judged, commit)
    }

    /// Processes an AuthenticatedContent of a client that joins with a commit (RFC 9420, 12.4.3.2) in the full profile. The
    /// members' profile refuses it.
    #[tactic(auto, unfolding(crate::specs::MessageRulesInternal::joiner_refusal))]
    fn take_joiner<C: SignatureCheck>(
        &mut self,
        alloc: Global,
        checker: &C,
        judged: &JudgedFrame<'_>,
    ) -> Result<Taken, Refusal>
        requires hashed { IsSome (confirmed_input judged.now.frame) }
        requires checked { HasUniqueKeysAndValidLeaves (C.meaning checker.now) (group_state self.old) }
        ensures { let s = group_state self.old in
            Takes (late_refusal self.old.rules judged.now.late)
            (first_failing (if_full self.old.profile (joiner_rules (C.meaning checker.now) s self.old.required
            judged.now.frame judged.now.frame.content.content)))
            (after_join s judged.now.frame judged.now.frame.content.content)
            s result (group_state self.new) }
    {
        match self.profile {
            Profile::Members => Err(Refusal::SenderNotMember),
            Profile::Full => self.take_joiner_frame(alloc, checker, judged),
        }
    }

    /// Processes an AuthenticatedContent: accepts it if it satisfies every rule. On error the state is unchanged: only
    /// the tree is changed in place, and this is undone.
    fn take_frame<C: SignatureCheck>(
        &mut self,
        alloc: Global,
        checker: &C,
        judged: &JudgedFrame<'_>,
    ) -> Result<Taken, Refusal>
        requires hashed { IsSome (confirmed_input judged.now.frame) }
        requires referenced { IsSome (reference_of self.old.context judged.now.frame) }
        requires checked { HasUniqueKeysAndValidLeaves (C.meaning checker.now) (group_state self.old) }
        ensures { let s = group_state self.old in
            Takes (late_refusal self.old.rules judged.now.late)
            (frame_refusal (C.meaning checker.now) s self.old.required judged.now.frame)
            (after_sender s judged.now.frame judged.now.frame.content.sender)
            s result (group_state self.new) }
    {
        check_header(self, &judged.frame)?;
        match judged.frame.auth().content().sender {
            Sender::Member(sender) => self.take_member_frame(alloc, checker, judged, sender),
            Sender::External(_) => self.take_outside(alloc, checker, judged),
            Sender::NewMemberProposal => self.take_outside(alloc, checker, judged),
            Sender::NewMemberCommit => self.take_joiner(alloc, checker, judged),
        }
    }

    /// Processes a message, which `bytes` must encode, at this time if one is passed.
    pub(crate) fn take<C: SignatureCheck>(
        &mut self,
        alloc: Global,
        checker: &C,
        received: &ReceivedMessage<'_>,
    ) -> Result<Taken, Refusal>
        requires input { EncodesMessage self.old.profile received.now.message.now received.now.bytes.now }
        requires checked { HasUniqueKeysAndValidLeaves (C.meaning checker.now) (group_state self.old) }
        ensures { IsTransitionAt received.now.time (C.meaning checker.now) (group_state self.old)
            received.now.bytes.now result (group_state self.new) }
    {
        match received.message {
            Message::Public(public) => {
                let frame = ReceivedFrame::new(public, received.bytes);
                let late = late_rule(self, received.time, public);
                let judged = JudgedFrame { frame, late };
                self.take_frame(alloc, checker, &judged)
            }
            _ => Err(Refusal::NotPublic),
        }
    }
}
