//! The rules for a commit (RFC 9420, 12.4.2), and how it changes the group's tree, in place.

ghost use Rattle.std.specs.Prelude.{◌≡◌, ◌≢◌, ◌<◌, ℕ, Some, None, IsSome, IsTrue, IfOk, IfErr, OnOk, is_some, option_map, unwrap_or, true, false};
ghost use Rattle.mls_hash.specs.SuiteHash.{hash_of};
ghost use Rattle.mls_nodes.specs.declared.required_capabilities.RequiredCapabilities.{RequiredCapabilities};
ghost use Rattle.mls_check.specs.Signatures.{VerifyFn};
ghost use Rattle.mls_tree.specs.Tree.{leaf_at, leaf_count};
ghost use Rattle.mls_tree.specs.TreeHash.{tree_hash};
ghost use Rattle.mls_msgs.specs.declared.framed_content.Sender.TheVariants.{Member};
ghost use Rattle.mls_apply.specs.ContextExtensions.{new_extensions, proposed_extensions};
ghost use Rattle.mls_apply.specs.ResolvedList.{resolved};
ghost use Rattle.mls_apply.specs.JoinRules.{join_items, join_refusal};
ghost use Rattle.mls_apply.specs.ListRules.{list_refusal};
ghost use Rattle.mls_apply.specs.Senders.{is_present};
ghost use Rattle.mls_apply.specs.RuleLists.{first_failing};
ghost use Rattle.mls_apply.specs.AddedKeys.{have_distinct_added_keys};
ghost use Rattle.mls_apply.specs.AppliedList.{applied_tree, outcome};
ghost use Rattle.mls_apply.specs.StagedInternal.{SatisfiesTreeRules};
ghost use Rattle.mls_follow.specs.State.{State, last_epoch};
ghost use Rattle.mls_follow.specs.AcceptanceInternal.{FailsWithRule};
ghost use Rattle.mls_msgs.specs.Rules.{has_rule};
ghost use Rattle.mls_follow.specs.StrictRules.{supports_extensions};
ghost use Rattle.mls_follow.specs.StrictRulesInternal.{RefusesCommit, commit_late_refusal};
ghost use Rattle.mls_follow.specs.GroupModel.{group_state};
ghost use Rattle.mls_follow.specs.GroupModelInternal.{with_known};
ghost use Rattle.mls_follow.specs.MessageRules.{changed_tree, inline_rules, applied_tree_rules, path_rules_of, committer_tree, resulting};
ghost use Rattle.mls_follow.specs.MessageRulesInternal.{commit_refusal, external_commit_refusal};
ghost use Rattle.mls_follow.specs.CommitTree.{change_rules, in_context};

use crate::changed_tree_check::{TreeRules, check_changed_tree};
use crate::group::{Group, StagedContext};
use crate::next_extensions::copy_of_proposed;
use crate::proposals_by_value::check_inline;
use crate::resolved::{ReceivedCommit, ResolvedCommit};
use crate::strict_rules::check_late_commit;
use mls_apply::{
    CommitterPath, EpochState, Leaves, ListItem, Refusal, StagedTree, check_join, check_list,
    have_distinct_added_keys, join_items, resolve_list,
};
use mls_check::SignatureCheck;
use mls_hash::Suite;
use mls_msgs::{Commit, Sender, UpdatePath};
use mls_wire::Opaque;
use std::alloc::Global;

/// Returns the proposal list of a member's commit, if the commit satisfies the rules that are checked before the tree
/// is changed. Its epoch is not the last one, its list can be resolved, and it satisfies the rules for the proposals by
/// value and for the whole list.
#[tactic(auto, unfolding(crate::specs::MessageRulesInternal::commit_refusal))]
pub(crate) fn check_items<'a, C: SignatureCheck>(
    alloc: Global,
    group: &Group,
    checker: &C,
    received: &ReceivedCommit<'a>,
) -> Result<Vec<ListItem<'a>>, Refusal>
    requires member { IsSome (leaf_at 0 group.now.tree.tree received.now.committer) }
    ensures not_last_epoch { OnOk result (group.now.context.epoch < last_epoch) }
    ensures items { IfOk result (λ items. resolved (Member received.now.committer) received.now.known.now
        received.now.commit.now.proposals ≡ Some items.items) }
    ensures inline { OnOk result (first_failing (inline_rules (C.meaning checker.now)
        (group_state group.now) received.now.committer received.now.commit.now) ≡ None) }
    ensures list { IfOk result (λ items. list_refusal (Member received.now.committer) items.items
        (is_some received.now.commit.now.path) ≡ None) }
    ensures refused { IfErr result (FailsWithRule (commit_refusal (C.meaning checker.now)
        (with_known (group_state group.now) received.now.known.now)
        group.now.required received.now.committer received.now.commit.now)) }
{
    let ReceivedCommit {
        committer,
        commit,
        known,
        ..
    } = *received;
    if group.context.epoch == u64::MAX {
        return Err(Refusal::LastEpoch);
    }
    let sender = Sender::Member(committer);
    let items = resolve_list(alloc, commit, sender, known)?;
    check_inline(alloc, group, checker, committer, commit)?;
    check_list(alloc, sender, items.as_slice(), commit.path.is_some())?;
    Ok(items)
}

/// Returns the proposal list of an external commit, if the commit satisfies the rules that are checked before the tree is
/// changed. Its epoch is not the last one, and its list satisfies its rules (RFC 9420, 12.4.3.2). It must have a path.
#[tactic(auto, unfolding(crate::specs::MessageRulesInternal::external_commit_refusal))]
pub(crate) fn check_join_items<'a>(
    alloc: Global,
    group: &Group,
    commit: &'a Commit,
) -> Result<Vec<ListItem<'a>>, Refusal>
    requires { IsSome commit.now.path }
    ensures not_last_epoch { OnOk result (group.now.context.epoch < last_epoch) }
    ensures items { IfOk result (λ items. items.items ≡ join_items commit.now.proposals) }
    ensures list { OnOk result (join_refusal group.now.context group.now.tree.tree commit.now ≡ None) }
    ensures refused { IfErr result (λ e. e ≢ Refusal.OutOfMemory → (G : VerifyFn)
        → external_commit_refusal G (group_state group.now) group.now.required commit.now ≡ Some e) }
{
    if group.context.epoch == u64::MAX {
        return Err(Refusal::LastEpoch);
    }
    let epoch = EpochState {
        context: &group.context,
        tree: group.tree.tree(),
    };
    check_join(alloc, &epoch, commit)?;
    Ok(join_items(alloc, commit.proposals.as_slice())?)
}

/// The leaf of a committer in the tree after its proposals, and the leaves that these added.
#[derive(Drop)]
struct CommitterInTree {
    leaf: u32,
    added: Leaves,
}

/// Returns the committer's leaf in the tree after its proposals, of which `added` are the added leaves. A client that joins
/// takes the leaf of the next new member, for which the tree may be extended. No leaf counts as added then.
fn committer_in_tree(
    alloc: Global,
    tree: &mut StagedTree,
    committer: Sender,
    added: Leaves,
) -> Result<CommitterInTree, Refusal>
    requires { IsTrue (is_present tree.old.tree committer) }
    ensures committer_tree { IfOk result (λ q. committer_tree committer (applied_tree tree.old.tree added)
        ≡ Some (record { applied_tree = applied_tree tree.new.tree q.added; leaf = q.leaf })) }
    ensures inside { IfOk result (λ q. q.leaf < leaf_count tree.new.tree) }
    ensures refused { IfErr result (λ e. e ≢ Refusal.OutOfMemory
        → (committer_tree committer (applied_tree tree.old.tree added) ≡ None) × (e ≡ Refusal.TooManyLeaves)) }
    ensures base { tree.new.base ≡ tree.old.base }
{
    match committer {
        Sender::Member(leaf) => Ok(CommitterInTree { leaf, added }),
        Sender::External(_) => Err(Refusal::TooManyLeaves),
        Sender::NewMemberProposal => Err(Refusal::TooManyLeaves),
        Sender::NewMemberCommit => {
            let leaf = tree.seat()?;
            let none = Vec::new(alloc);
            let added = Leaves::new(none);
            Ok(CommitterInTree { leaf, added })
        }
    }
}

/// Merges the path of a commit, if it has one, into the tree after its proposals, if it satisfies the rules for paths.
fn merge(
    alloc: Global,
    suite: Suite,
    tree: &mut StagedTree,
    committer: &CommitterInTree,
    path: &Option<UpdatePath>,
) -> Result<(), Refusal>
    requires { committer.now.leaf < leaf_count tree.old.tree }
    ensures rules_hold { let g = applied_tree tree.old.tree committer.now.added in
        OnOk result (first_failing (path_rules_of (hash_of suite) g committer.now.leaf path.now) ≡ None) }
    ensures tree { let g = applied_tree tree.old.tree committer.now.added in
        OnOk result (resulting (hash_of suite) g committer.now.leaf path.now ≡ Some tree.new.tree) }
    ensures refused { let g = applied_tree tree.old.tree committer.now.added in
        IfErr result (FailsWithRule (first_failing (path_rules_of (hash_of suite) g
        committer.now.leaf path.now))) }
    ensures base { tree.new.base ≡ tree.old.base }
{
    let Some(path) = path else {
        return Ok(());
    };
    let path = CommitterPath {
        leaf: committer.leaf,
        added: &committer.added,
        path,
    };
    tree.merge_path(alloc, suite, &path)
}

/// Applies the proposal list of a commit and merges its path.
fn change_tree(
    alloc: Global,
    suite: Suite,
    tree: &mut StagedTree,
    commit: &ResolvedCommit<'_>,
) -> Result<(), Refusal>
    requires { IsTrue (is_present tree.old.tree commit.now.committer) }
    ensures rules_hold { let o = outcome commit.now.items.items tree.old.tree in
        OnOk result (first_failing (change_rules (hash_of suite)
        commit.now.committer commit.now.path.now o) ≡ None) }
    ensures tree { let o = outcome commit.now.items.items tree.old.tree in
        OnOk result (changed_tree (hash_of suite) commit.now.committer commit.now.path.now o
        ≡ Some tree.new.tree) }
    ensures refused { let o = outcome commit.now.items.items tree.old.tree in
        IfErr result (FailsWithRule (first_failing (change_rules (hash_of suite)
        commit.now.committer commit.now.path.now o))) }
    ensures base { tree.new.base ≡ tree.old.base }
{
    let added = tree.apply_list(alloc, commit.items.as_slice())?;
    let committer = committer_in_tree(alloc, tree, commit.committer, added)?;
    merge(alloc, suite, tree, &committer, commit.path)
}

/// Returns why a member's commit without a path is refused, two of whose Adds have one encryption key: `TooManyLeaves` if its
/// list cannot be applied, else `KeyRepeated`. No leaf node is copied, so many references to one large Add cost no more than
/// their own bytes. A part of the list may have been applied, in another form.
fn repeated_key_refusal(alloc: Global, tree: &mut StagedTree, items: &[ListItem<'_>]) -> Refusal
    requires { have_distinct_added_keys items.now ≡ false }
    ensures refused { let o = outcome items.now tree.old.tree in
        result ≢ Refusal.OutOfMemory → (G : VerifyFn) → (s : State) → (required : RequiredCapabilities) → (i : ℕ)
        → first_failing (applied_tree_rules G s required (Member i) None o) ≡ Some result }
    ensures base { tree.new.base ≡ tree.old.base }
{
    match tree.check_list_fits(alloc, items) {
        Ok(added) => {
            drop(added);
            Refusal::KeyRepeated
        }
        Err(fault) => Refusal::from(fault),
    }
}

/// Checks that no two Adds of a member's commit without a path have one encryption key, which is decided by the list alone.
/// With a path, other rules come first. On error a part of the commit may have been applied in another form.
fn check_added_keys(
    alloc: Global,
    tree: &mut StagedTree,
    commit: &ResolvedCommit<'_>,
) -> Result<(), Refusal>
    ensures refused { let o = outcome commit.now.items.items tree.old.tree in
        IfErr result (λ e. e ≢ Refusal.OutOfMemory → (G : VerifyFn) → (s : State) → (required : RequiredCapabilities)
        → first_failing (applied_tree_rules G s required commit.now.committer commit.now.path.now o) ≡ Some e) }
    ensures tree { OnOk result (tree.new.tree ≡ tree.old.tree) }
    ensures base { tree.new.base ≡ tree.old.base }
{
    let Sender::Member(_) = commit.committer else {
        return Ok(());
    };
    if commit.path.is_some() || have_distinct_added_keys(alloc, commit.items.as_slice())? {
        return Ok(());
    }
    Err(repeated_key_refusal(alloc, tree, commit.items.as_slice()))
}

/// Stages a commit, and returns what it changes in the GroupContext, if the tree after the list and the path satisfies its
/// rules. The changes can then be made final. The proposed extensions are copied last. On error a part of the commit may
/// have been applied.
fn stage_commit<C: SignatureCheck>(
    alloc: Global,
    rules: &TreeRules<'_>,
    checker: &C,
    tree: &mut StagedTree,
    commit: &ResolvedCommit<'_>,
) -> Result<StagedContext, Refusal>
    requires present { IsTrue (is_present tree.old.tree commit.now.committer) }
    requires rules_hold { SatisfiesTreeRules (C.meaning checker.now) rules.now.context.now rules.now.former.now
        tree.old.base }
    ensures rules_hold { let o = outcome commit.now.items.items tree.old.tree in
        OnOk result (first_failing (applied_tree_rules (C.meaning checker.now)
        (in_context rules.now.context.now) rules.now.required.now
        commit.now.committer commit.now.path.now o) ≡ None) }
    ensures refused { let o = outcome commit.now.items.items tree.old.tree in
        IfErr result (FailsWithRule (first_failing (applied_tree_rules (C.meaning checker.now)
        (in_context rules.now.context.now) rules.now.required.now
        commit.now.committer commit.now.path.now o))) }
    ensures tree { let o = outcome commit.now.items.items tree.old.tree in
        let H = hash_of rules.now.context.now.cipher_suite in
        OnOk result (changed_tree H commit.now.committer commit.now.path.now o
        ≡ Some tree.new.tree) }
    ensures hash { let H = hash_of rules.now.context.now.cipher_suite in
        IfOk result (λ staged. tree_hash H 0 tree.new.tree ≡ Some staged.tree_hash) }
    ensures extensions { IfOk result (λ staged.
        option_map (λ next. next.extensions) staged.extensions ≡ proposed_extensions commit.now.items.items) }
    ensures base { tree.new.base ≡ tree.old.base }
    ensures is_index_of_tree { OnOk result (tree.new.indexed ≡ true) }
{
    check_added_keys(alloc, tree, commit)?;
    change_tree(alloc, rules.suite, tree, commit)?;
    let tree_hash = check_changed_tree(alloc, rules, checker, tree)?;
    let extensions = copy_of_proposed(alloc, commit.items.as_slice())?;
    Ok(StagedContext {
        tree_hash,
        extensions,
    })
}

/// Stages a commit, as `stage_commit` does, if it also meets the strict rules, which are checked last. The changes can then be
/// made final. On error a part of the commit may have been applied.
pub(crate) fn stage_judged_commit<C: SignatureCheck>(
    alloc: Global,
    rules: &TreeRules<'_>,
    checker: &C,
    tree: &mut StagedTree,
    commit: &ResolvedCommit<'_>,
) -> Result<StagedContext, Refusal>
    requires present { IsTrue (is_present tree.old.tree commit.now.committer) }
    requires rules_hold { SatisfiesTreeRules (C.meaning checker.now) rules.now.context.now rules.now.former.now
        tree.old.base }
    requires supported { has_rule rules.now.asked 51 ≡ true
        → supports_extensions rules.now.context.now.extensions tree.old.base ≡ true }
    ensures rules_hold { let o = outcome commit.now.items.items tree.old.tree in
        OnOk result (first_failing (applied_tree_rules (C.meaning checker.now)
        (in_context rules.now.context.now) rules.now.required.now
        commit.now.committer commit.now.path.now o) ≡ None) }
    ensures strict_rules_hold { let extensions = new_extensions rules.now.context.now.extensions commit.now.items.items in
        OnOk result (commit_late_refusal rules.now.asked commit.now.late extensions tree.new.tree ≡ None) }
    ensures refused { let o = outcome commit.now.items.items tree.old.tree in
        let H = hash_of rules.now.context.now.cipher_suite in
        IfErr result (RefusesCommit rules.now.context.now rules.now.asked commit.now.late commit.now.items.items
        (first_failing (applied_tree_rules (C.meaning checker.now) (in_context rules.now.context.now)
        rules.now.required.now commit.now.committer commit.now.path.now o))
        (changed_tree H commit.now.committer commit.now.path.now o)) }
    ensures tree { let o = outcome commit.now.items.items tree.old.tree in
        let H = hash_of rules.now.context.now.cipher_suite in
        OnOk result (changed_tree H commit.now.committer commit.now.path.now o
        ≡ Some tree.new.tree) }
    ensures hash { let H = hash_of rules.now.context.now.cipher_suite in
        IfOk result (λ staged. tree_hash H 0 tree.new.tree ≡ Some staged.tree_hash) }
    ensures extensions { IfOk result (λ staged.
        option_map (λ next. next.extensions) staged.extensions ≡ proposed_extensions commit.now.items.items) }
    ensures base { tree.new.base ≡ tree.old.base }
    ensures is_index_of_tree { OnOk result (tree.new.indexed ≡ true) }
{
    let staged = stage_commit(alloc, rules, checker, tree, commit)?;
    let answer = check_late_commit(alloc, rules, checker, tree, commit.late, &staged);
    if let Err(refusal) = answer {
        drop(staged);
        return Err(refusal);
    }
    Ok(staged)
}
