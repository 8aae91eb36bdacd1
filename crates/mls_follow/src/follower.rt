//! The follower.

ghost use Rattle.std.specs.Prelude.{◌≡◌, ◌≢◌, ◌↔◌, ◌<◌, length, None, Err, IfOk, IfErr, OnOk, OnErr, IsErrAnd, option_map};
ghost use Rattle.mls_wire.specs.Limits.{input_limit};
ghost use Rattle.mls_tree.specs.PublicTreeModel.{plain};
ghost use Rattle.mls_nodes.specs.ExternalSenders.{senders_by};
ghost use Rattle.mls_nodes.specs.Requirements.{extension_of, Requires};
ghost use Rattle.mls_msgs.specs.Rules.{plain_rules};
ghost use Rattle.mls_msgs.specs.declared.profile.Profile.TheVariants.{Members};
ghost use Rattle.mls_strict.specs.LeafForms.{requires_types};
ghost use Rattle.mls_apply.specs.Staged.{IsSettled};
ghost use Rattle.mls_follow.specs.CommitTree.{initial_state_of_tree};
ghost use Rattle.mls_follow.specs.State.{EncodesMessage};
ghost use Rattle.mls_follow.specs.GroupModel.{group_state};
ghost use Rattle.mls_follow.specs.FollowerInvariant.{HasAcceptedPending, HasAcceptedPending-prop, HasUniqueKeysAndValidLeaves, HasUniqueKeysAndValidLeaves-prop};
ghost use Rattle.mls_follow.specs.Acceptance.{IsAcceptable, IsNext, IsFirstRefusal};
ghost use Rattle.mls_follow.specs.MessageHeader.{HasNoHeader, IsUnreadMessage};
ghost use Rattle.mls_follow.specs.TimedAcceptance.{IsAcceptableAt, IsFirstRefusalAt, IsTransitionAt};
ghost use Rattle.mls_check.specs.GroupTree.{FailsSuite, IsSupportedContext};
ghost use Rattle.mls_check.specs.ReceiptSets.{with_receipt};
ghost use Rattle.mls_check.specs.Signatures.{Extends};
ghost use Rattle.mls_follow.specs.AddedRules.{HasAddedRules, IsStrictRefused};
ghost use Rattle.mls_follow.specs.Resumption.{IsResumed, IsResumeFault};
ghost use Rattle.mls_follow.specs.Start.{IsStart, IsStartFault};
ghost use Rattle.mls_follow.specs.StoredState.{AreReferenced};

use crate::added_rules::StrictRefused;
use crate::framed_content_rules::read_message;
use crate::group::Group;
use crate::received_frame::ReceivedMessage;
use crate::resume::{ResumeRefused, resumed_group};
use crate::start::{StartParts, StartRefused, StartRules, check_start, supported_suite};
use crate::start_fault::StartFault;
use crate::taken::Taken;
use mls_apply::{KnownProposal, PendingProposals, Refusal, StagedTree};
use mls_check::{LearningCheck, OutOfMemory, SignatureCheck};
use mls_hash::Suite;
use mls_msgs::{GroupInfo, Message, Profile, Rules};
use mls_nodes::GroupContext;
use mls_tree::{HashValue, PublicTree};
use std::alloc::Global;

/// A follower of a group: the group's public state, and a checker of signatures. Its tree always has distinct
/// encryption keys and valid leaf nodes, by this checker. With strict rule 51 these always support the types of the
/// GroupContext's extensions. The checker always accepts the signatures of the pending Adds and Updates.
#[derive(Drop)]
pub struct Follower<C: SignatureCheck> {
    pub(crate) group: Group,
    checker: C,
    pub(crate) alloc: Global,
    ghost checked: { HasUniqueKeysAndValidLeaves (C.meaning checker) (group_state group) } by { HasUniqueKeysAndValidLeaves-prop (C.meaning checker) (group_state group) },
    ghost accepted: { HasAcceptedPending (C.meaning checker) (group_state group) } by { HasAcceptedPending-prop (C.meaning checker) (group_state group) },
}

/// Returns the group of a GroupInfo with its tree, from what was found of them, with no pending proposals.
fn initial_group(
    alloc: Global,
    profile: Profile,
    info: GroupInfo,
    tree: StagedTree,
    checked: StartParts,
) -> Group
    requires suite_of_context { checked.suite ≡ info.context.cipher_suite }
    requires required { Requires info.context checked.required }
    requires types { checked.types ≡ requires_types info.context.extensions }
    requires senders { checked.senders ≡ senders_by info.context.extensions }
    requires settled { IsSettled tree }
    ensures { group_state result ≡ initial_state_of_tree checked.asked profile info tree.tree checked.interim }
{
    Group {
        profile,
        rules: checked.asked,
        context: info.context,
        tree,
        interim: checked.interim,
        known: PendingProposals::new(alloc),
        ended: false,
        added: None,
        suite: checked.suite,
        required: checked.required,
        types: checked.types,
        senders: checked.senders,
    }
}

impl<C: SignatureCheck> Follower<C> {
    ghost use Rattle.mls_follow.specs.FollowerModel.{state_of, checker_of};

    /// Starts a follower in the members' profile, as [`Follower::start_in`] does.
    ///
    /// # Errors
    ///
    /// Those of [`Follower::start_in`].
    pub fn start(
        alloc: Global,
        info: GroupInfo,
        tree: Option<PublicTree>,
        checker: C,
    ) -> Result<Follower<C>, StartRefused<C>>
        ensures started { IfOk result (λ f. IsStart plain_rules Members (C.meaning checker) info
            (option_map plain tree) (state_of f)) }
        ensures checker { IfOk result (λ f. C.meaning (checker_of f) ≡ C.meaning checker) }
        ensures refused { IfErr result (λ r. IsStartFault plain_rules (C.meaning checker) info
            (option_map plain tree) r.fault) }
        ensures unsupported_version { IsErrAnd result
            (λ r. r.fault ≡ StartFault.UnsupportedVersion) ↔ (info.context.version ≢ 1) }
        ensures unsupported_suite { IsErrAnd result
            (λ r. r.fault ≡ StartFault.UnsupportedSuite) ↔ FailsSuite info.context }
        ensures no_tree { IsSupportedContext info.context → tree ≡ None → extension_of 2 info.extensions ≡ None
            → IsErrAnd result (λ r. r.fault ≡ StartFault.NoTree) }
        ensures returned_arguments { IfErr result (λ r. (r.info ≡ info)
            × (option_map plain r.tree ≡ option_map plain tree) × (r.checker ≡ checker)) }
    {
        Follower::start_in(alloc, Profile::Members, info, tree, checker)
    }

    /// Starts a follower without strict rules, as [`Follower::start_by`] does.
    ///
    /// # Errors
    ///
    /// Those of [`Follower::start_by`], but for `Strict`.
    pub fn start_in(
        alloc: Global,
        profile: Profile,
        info: GroupInfo,
        tree: Option<PublicTree>,
        checker: C,
    ) -> Result<Follower<C>, StartRefused<C>>
        ensures started { IfOk result (λ f. IsStart plain_rules profile (C.meaning checker) info
            (option_map plain tree) (state_of f)) }
        ensures checker { IfOk result (λ f. C.meaning (checker_of f) ≡ C.meaning checker) }
        ensures refused { IfErr result (λ r. IsStartFault plain_rules (C.meaning checker) info
            (option_map plain tree) r.fault) }
        ensures unsupported_version { IsErrAnd result
            (λ r. r.fault ≡ StartFault.UnsupportedVersion) ↔ (info.context.version ≢ 1) }
        ensures unsupported_suite { IsErrAnd result
            (λ r. r.fault ≡ StartFault.UnsupportedSuite) ↔ FailsSuite info.context }
        ensures no_tree { IsSupportedContext info.context → tree ≡ None → extension_of 2 info.extensions ≡ None
            → IsErrAnd result (λ r. r.fault ≡ StartFault.NoTree) }
        ensures returned_arguments { IfErr result (λ r. (r.info ≡ info)
            × (option_map plain r.tree ≡ option_map plain tree) × (r.checker ≡ checker)) }
    {
        Follower::start_by(alloc, Rules::plain(), profile, info, tree, checker)
    }

    /// Starts a follower from a GroupInfo (RFC 9420, 12.4.3), with the tree that is passed, otherwise with the one in the
    /// GroupInfo. In the members' profile it processes the proposals Add, Update, Remove and GroupContextExtensions of
    /// members. In the full profile it processes also PreSharedKey and ReInit (12.1.4, 12.1.5), and the proposals of external
    /// senders and of clients that propose to join (12.1.8), and external commits (12.4.3.2). It accepts what meets the rules
    /// of the profile and then the strict rules of the set.
    ///
    /// Whether the group is over, no GroupInfo says: the follower takes it that it goes on (11.2).
    ///
    /// # Errors
    ///
    /// The first of these conditions that fails, or `OutOfMemory`:
    ///
    /// 1. The version is 1.
    /// 2. The cipher suite is one from 1 to 7.
    /// 3. There is a tree.
    /// 4. The required capabilities can be read.
    /// 5. The tree is valid ([`mls_check::validate_tree`]).
    /// 6. Its leaf nodes are valid ([`mls_check::validate_members`]).
    /// 7. The signer's leaf is non-blank.
    /// 8. The signature of the GroupInfo is good.
    /// 9. The strict rules of the set are met: by the GroupInfo itself, of which 40 and 41 are, then by its GroupContext and
    ///    the tree ([`mls_strict::validate_strict`]).
    ///
    /// All arguments are returned as they were, except that slots of the tree's hash cache may have been filled.
    /// Conditions 1 and 2, and that there is neither a tree nor an extension for one, are checked before anything is
    /// allocated.
    pub fn start_by(
        alloc: Global,
        asked: Rules,
        profile: Profile,
        info: GroupInfo,
        tree: Option<PublicTree>,
        checker: C,
    ) -> Result<Follower<C>, StartRefused<C>>
        ensures started { IfOk result (λ f. IsStart asked profile (C.meaning checker) info
            (option_map plain tree) (state_of f)) }
        ensures checker { IfOk result (λ f. C.meaning (checker_of f) ≡ C.meaning checker) }
        ensures refused { IfErr result (λ r. IsStartFault asked (C.meaning checker) info
            (option_map plain tree) r.fault) }
        ensures unsupported_version { IsErrAnd result
            (λ r. r.fault ≡ StartFault.UnsupportedVersion) ↔ (info.context.version ≢ 1) }
        ensures unsupported_suite { IsErrAnd result
            (λ r. r.fault ≡ StartFault.UnsupportedSuite) ↔ FailsSuite info.context }
        ensures no_tree { IsSupportedContext info.context → tree ≡ None → extension_of 2 info.extensions ≡ None
            → IsErrAnd result (λ r. r.fault ≡ StartFault.NoTree) }
        ensures returned_arguments { IfErr result (λ r. (r.info ≡ info)
            × (option_map plain r.tree ≡ option_map plain tree) × (r.checker ≡ checker)) }
    {
        let suite = match supported_suite(&info) {
            Ok(suite) => suite,
            Err(fault) => {
                return Err(StartRefused {
                    fault,
                    info,
                    tree,
                    checker,
                });
            }
        };
        let rules = StartRules { asked, suite };
        match check_start(alloc, &rules, &info, tree, &checker) {
            Ok((tree, checked)) => Ok(Follower {
                group: initial_group(alloc, profile, info, tree, checked),
                checker,
                alloc,
            }),
            Err((fault, tree)) => Err(StartRefused {
                fault,
                info,
                tree,
                checker,
            }),
        }
    }

    /// Resumes a follower from the file of a stored state ([`Follower::encode_state`]), by the rules that the file has. Whoever
    /// wrote the file, the follower's tree is valid, and each of its pending proposals is one that its sender has signed and
    /// that a follower accepts in this state, by this checker.
    ///
    /// That the context, the tree and the transcript hash are those of the group's history, and the KeyPackageRefs those of its
    /// last commit, rests on who stored the file; and so does which of the proposals that were signed for this epoch are
    /// pending, and in which order.
    ///
    /// # Errors
    ///
    /// The first of these conditions that fails, or `OutOfMemory`, with the checker as it was:
    ///
    /// 1. The bytes are a file, and its tree can be read.
    /// 2. The checksum is that of the state after it.
    /// 3. The version is 1.
    /// 4. The cipher suite is one from 1 to 7.
    /// 5. The required capabilities can be read.
    /// 6. The tree is valid ([`mls_check::validate_tree`]).
    /// 7. Its leaf nodes are valid ([`mls_check::validate_members`]).
    /// 8. The interim transcript hash has the length of the suite's hashes.
    /// 9. Each pending proposal is one that a follower in this state, with those before it, accepts: that of a PublicMessage
    ///    (RFC 9420, 6.2) that satisfies every rule of the profile.
    ///
    /// Then, under the numbers that reports give them:
    ///
    /// - 12: each KeyPackageRef of those that the last commit added has the length of the suite's hashes (5.2), and there are no
    ///   more of them than members;
    /// - 10: the GroupContext and the tree meet the strict rules of the file;
    /// - 11: each pending proposal meets them.
    ///
    /// The bytes are dropped before the tree is made, so that both need not be in memory at once.
    pub fn resume(
        alloc: Global,
        bytes: Vec<u8>,
        checker: C,
    ) -> Result<Follower<C>, ResumeRefused<C>>
        ensures resumed { IfOk result (λ f. IsResumed (C.meaning checker) bytes.items (state_of f)) }
        ensures checker { IfOk result (λ f. C.meaning (checker_of f) ≡ C.meaning checker) }
        ensures refused { IfErr result (λ r. IsResumeFault (C.meaning checker) bytes.items r.fault) }
        ensures returned_arguments { IfErr result (λ r. r.checker ≡ checker) }
    {
        match resumed_group(alloc, bytes, &checker) {
            Ok(group) => Ok(Follower {
                group,
                checker,
                alloc,
            }),
            Err(fault) => Err(ResumeRefused { fault, checker }),
        }
    }

    /// Returns the profile in which the group is followed. It doesn't allocate.
    pub fn profile(&self) -> Profile
        ensures { result ≡ (state_of self.now).profile }
    {
        self.group.profile
    }

    /// Returns the set of strict rules (own rule). No message changes it. It doesn't allocate.
    pub fn rules(&self) -> Rules
        ensures { result ≡ (state_of self.now).rules }
    {
        self.group.rules
    }

    /// Returns whether the group is over: a commit with a ReInit was accepted (RFC 9420, 11.2). Every later message of the
    /// group's last epoch is then refused. It doesn't allocate.
    pub fn ended(&self) -> bool
        ensures { result ≡ (state_of self.now).ended }
    {
        self.group.ended
    }

    /// Returns the GroupContext (RFC 9420, 8.1).
    pub fn context(&self) -> &GroupContext
        ensures { result.now ≡ (state_of self.now).context }
    {
        &self.group.context
    }

    /// Returns the ratchet tree (RFC 9420, 4.1).
    pub fn tree(&self) -> &PublicTree
        ensures { result.now.tree ≡ (state_of self.now).tree }
    {
        self.group.tree.tree()
    }

    /// Returns the interim transcript hash (RFC 9420, 8.2).
    pub fn interim(&self) -> &HashValue
        ensures { result.now ≡ (state_of self.now).interim }
    {
        &self.group.interim
    }

    /// Returns the pending proposals (RFC 9420, 12.4): those received in the current epoch, in the order in which they
    /// were accepted. The reference of each is the ProposalRef of its AuthenticatedContent (5.2), which
    /// [`mls_apply::authenticated_of`] returns.
    pub fn known(&self) -> &[KnownProposal]
        ensures pending { result.now ≡ (state_of self.now).known }
        ensures referenced { AreReferenced (state_of self.now).context result.now }
    {
        self.group.known.as_slice()
    }

    /// Returns the KeyPackageRefs (RFC 9420, 5.2) of the Adds of the last accepted commit, in the order of its list: of the
    /// clients to whom its Welcomes are addressed (12.4.3.1). `None` before the first commit after a start. After a resumption
    /// they are those of the file. It doesn't allocate.
    pub fn added(&self) -> Option<&[HashValue]>
        ensures { option_map (λ references. references.now) result ≡ (state_of self.now).added }
    {
        match &self.group.added {
            Some(references) => Some(references.as_slice()),
            None => None,
        }
    }

    /// Returns the checker.
    pub fn checker(&self) -> &C
        ensures { result.now ≡ checker_of self.now }
    {
        &self.checker
    }

    /// Adds strict rules to the follower's set. Only those that it lacks are checked, and none is taken away.
    ///
    /// # Errors
    ///
    /// The follower is unchanged.
    ///
    /// - [`StrictRefused::Group`]: the GroupContext or the tree does not meet the first of them, by number, as
    ///   [`mls_strict::validate_strict`] says.
    /// - [`StrictRefused::Known`]: a pending proposal does not meet one.
    /// - [`StrictRefused::OutOfMemory`].
    pub fn make_strict(&mut self, asked: Rules) -> Result<(), StrictRefused>
        ensures made { OnOk result (HasAddedRules asked (state_of self.old) (state_of self.new)) }
        ensures refused { IfErr result (IsStrictRefused asked (state_of self.old)) }
        ensures unchanged_on_error { OnErr result (state_of self.new ≡ state_of self.old) }
        ensures checker { checker_of self.new ≡ checker_of self.old }
    {
        self.group.add_rules(self.alloc, asked)
    }

    /// Processes a message that was received.
    fn take_message(&mut self, received: &ReceivedMessage<'_>) -> Result<Taken, Refusal>
        requires { EncodesMessage (state_of self.old).profile received.now.message.now received.now.bytes.now }
        ensures takes { IsTransitionAt received.now.time (C.meaning (checker_of self.old)) (state_of self.old)
            received.now.bytes.now result (state_of self.new) }
        ensures checker { C.meaning (checker_of self.new) ≡ C.meaning (checker_of self.old) }
    {
        self.group.take(self.alloc, &self.checker, received)
    }

    /// Processes one message (RFC 9420, 6) without a time, as [`Follower::take_at`] does.
    ///
    /// # Errors
    ///
    /// Those of [`Follower::take_at`], but for `LifetimeOutside`.
    pub fn take(&mut self, bytes: &[u8]) -> Result<Taken, Refusal>
        ensures accepted { OnOk result (IsAcceptable (C.meaning (checker_of self.old))
            (state_of self.old) bytes.now) }
        ensures next { IfOk result (λ taken. IsNext (state_of self.old) bytes.now
            (record { taken = taken; state = state_of self.new })) }
        ensures refused { IfErr result (λ e. e ≢ Refusal.OutOfMemory
            → IsFirstRefusal (C.meaning (checker_of self.old)) (state_of self.old)
            bytes.now e) }
        ensures too_long { input_limit < length bytes.now → result ≡ Err Refusal.Malformed }
        ensures no_header { HasNoHeader bytes.now → result ≡ Err Refusal.Malformed }
        ensures unread { IsUnreadMessage bytes.now → result ≡ Err Refusal.NotPublic }
        ensures unchanged_on_error { OnErr result (state_of self.new ≡ state_of self.old) }
        ensures checker { C.meaning (checker_of self.new) ≡ C.meaning (checker_of self.old) }
    {
        self.take_at(None, bytes)
    }

    /// Processes one message (RFC 9420, 6), and accepts it if it satisfies every rule: those of the profile, then the strict
    /// rules of the follower's set, and last, if a time is passed, that the lifetime of the leaf node of each Add that the
    /// message has by value includes it (7.2, 7.3 and 10.1). `now` is in seconds since 1970, as a Lifetime. No clock is read,
    /// and no state has the time: a leaf node of the tree stays valid when its lifetime ends, and an Add that a commit names by
    /// reference was judged when it came.
    ///
    /// After a commit the tree is checked from its changes. All leaves are visited only if the commit changes what the
    /// group requires, or the types of the context's extensions and there is strict rule 51. A commit with a ReInit is applied
    /// as any other, and ends the group (RFC 9420, 11.2).
    ///
    /// # Errors
    ///
    /// The first rule that fails, or `OutOfMemory`. The state is then unchanged.
    ///
    /// These are returned even without memory: `Malformed` for more than 268,435,456 bytes or for bytes without the
    /// header of a message, and `NotPublic` for a PrivateMessage or a Welcome.
    pub fn take_at(&mut self, now: Option<u64>, bytes: &[u8]) -> Result<Taken, Refusal>
        ensures accepted { OnOk result (IsAcceptableAt now (C.meaning (checker_of self.old))
            (state_of self.old) bytes.now) }
        ensures next { IfOk result (λ taken. IsNext (state_of self.old) bytes.now
            (record { taken = taken; state = state_of self.new })) }
        ensures refused { IfErr result (λ e. e ≢ Refusal.OutOfMemory
            → IsFirstRefusalAt now (C.meaning (checker_of self.old)) (state_of self.old)
            bytes.now e) }
        ensures too_long { input_limit < length bytes.now → result ≡ Err Refusal.Malformed }
        ensures no_header { HasNoHeader bytes.now → result ≡ Err Refusal.Malformed }
        ensures unread { IsUnreadMessage bytes.now → result ≡ Err Refusal.NotPublic }
        ensures unchanged_on_error { OnErr result (state_of self.new ≡ state_of self.old) }
        ensures checker { C.meaning (checker_of self.new) ≡ C.meaning (checker_of self.old) }
    {
        let message = read_message(self.alloc, self.group.profile, bytes)?;
        let received = ReceivedMessage {
            message: &message,
            bytes,
            time: now,
        };
        let answer = self.take_message(&received);
        drop(message);
        answer
    }
}

impl<C: LearningCheck> Follower<C> {
    ghost use Rattle.mls_follow.specs.FollowerModel.{state_of, checker_of};

    /// Learns that the signatures with this receipt are good: from now on the checker accepts them. The state of the
    /// group is unchanged.
    ///
    /// # Errors
    ///
    /// [`OutOfMemory`]; what the checker says is unchanged.
    pub fn learn(&mut self, digest: [u8; 32]) -> Result<(), OutOfMemory>
        ensures learnt { OnOk result (C.meaning (checker_of self.new)
            ≡ with_receipt (C.meaning (checker_of self.old)) digest) }
        ensures unchanged_on_error { OnErr result (C.meaning (checker_of self.new)
            ≡ C.meaning (checker_of self.old)) }
        ensures extends { Extends (C.meaning (checker_of self.old)) (C.meaning (checker_of self.new)) }
        ensures state { state_of self.new ≡ state_of self.old }
    {
        self.checker.learn_receipt(digest)
    }
}
