//! The rules after those of the profile: the strict ones for the message by itself (own rule), that for the tree after a commit,
//! and that for lifetimes (RFC 9420, 7.2).

ghost use Rattle.std.specs.Prelude.{◌≡◌, None, IfOk, IfErr, IsTrue, OnOk, option_map, true, unwrap_or};
ghost use Rattle.mls_msgs.specs.Rules.{has_rule};
ghost use Rattle.mls_strict.specs.LeafForms.{requires_types};
ghost use Rattle.mls_apply.specs.RuleLists.{first_failing};
ghost use Rattle.mls_follow.specs.GroupModel.{group_state};
ghost use Rattle.mls_follow.specs.StrictRules.{support_rules, supports_extensions, tag_meets};
ghost use Rattle.mls_follow.specs.AcceptanceInternal.{FailsWithRule};
ghost use Rattle.mls_follow.specs.StrictRulesInternal.{comes_last, commit_late_refusal, late_rule, unmet_rule};

use crate::changed_tree_check::TreeRules;
use crate::group::{Group, StagedContext};
use crate::lifetimes::content_is_timely;
use crate::next_extensions::RequiredAfter;
use mls_apply::{Refusal, StagedTree};
use mls_check::{OutOfMemory, SignatureCheck};
use mls_hash::Suite;
use mls_index::LeafRules;
use mls_msgs::{PublicMessage, StrictRule};
use mls_strict::content_refusal;
use mls_wire::Opaque;
use std::alloc::Global;

/// Returns whether a tag, if there is one, has as many bytes as a hash of the suite.
fn tag_meets(suite: Suite, tag: Option<&Opaque>) -> bool
    ensures { result ≡ tag_meets suite (option_map (λ t. t.now) tag.entry) }
{
    match tag {
        Some(tag) => tag.as_slice().len() == usize::from(suite.hash_length()),
        None => true,
    }
}

/// Returns the first strict rule of the group's set, but for 51, that a PublicMessage does not meet by itself. Allocates
/// nothing.
#[tactic(auto, using(crate::proofs::StrictLists::tags_unmet, crate::proofs::StrictLists::content_unmet))]
fn unmet_rule(group: &Group, public: &PublicMessage) -> Option<StrictRule>
    ensures { result ≡ unmet_rule (group_state group.now) public.now }
{
    let auth = public.auth();
    let has_tags = tag_meets(group.suite, auth.confirmation_tag())
        && tag_meets(group.suite, public.membership_tag());
    if group.rules.has(40) && !has_tags {
        return Some(StrictRule::TagLength);
    }
    content_refusal(
        group.rules,
        group.suite,
        &group.context,
        &auth.content().content,
    )
}

/// Returns the refusal by the first rule after those of the profile that a PublicMessage does not meet by itself: a strict one of
/// the group's set, but for 51, or that for lifetimes at the time `now`, if one is passed. Allocates nothing.
#[tactic(auto, unfolding(crate::specs::StrictRulesInternal::late_rule))]
pub(crate) fn late_rule(group: &Group, now: Option<u64>, public: &PublicMessage) -> Option<Refusal>
    ensures { result ≡ late_rule now (group_state group.now) public.now }
{
    if let Some(rule) = unmet_rule(group, public) {
        return Some(Refusal::Strict(rule));
    }
    match now {
        Some(now) if !content_is_timely(now, &public.auth().content().content) => {
            Some(Refusal::LifetimeOutside)
        }
        _ => None,
    }
}

/// Returns whether the rule of a refusal comes after strict rule 51.
fn comes_last(refusal: Refusal) -> bool
    ensures { result ≡ comes_last refusal }
{
    match refusal {
        Refusal::Strict(StrictRule::PointOffCurve) | Refusal::LifetimeOutside => true,
        _ => false,
    }
}

/// Returns what the types of the extensions after a commit require: of those that it proposes, else of those of the
/// GroupContext (RFC 9420, 13.4).
fn types_after<'a>(rules: &TreeRules<'a>, staged: &'a StagedContext) -> RequiredAfter<'a>
    ensures required { let proposed = option_map (λ next. next.extensions) staged.now.extensions in
        result.required.now ≡ requires_types (unwrap_or proposed rules.now.context.now.extensions) }
    ensures unchanged { IsTrue result.unchanged → rules.now.types.now ≡ result.required.now }
{
    match &staged.extensions {
        Some(next) => RequiredAfter {
            required: &next.types,
            unchanged: false,
        },
        None => RequiredAfter {
            required: rules.types,
            unchanged: true,
        },
    }
}

/// Returns whether each leaf of the tree after a commit supports the types of the extensions after it (RFC 9420, 13.4). Each
/// leaf of the tree before it must support those of the GroupContext's extensions. If these have the same types, only the
/// changed leaves are visited.
fn supports_extensions<C: SignatureCheck>(
    alloc: Global,
    rules: &TreeRules<'_>,
    checker: &C,
    tree: &StagedTree,
    staged: &StagedContext,
) -> Result<bool, OutOfMemory>
    requires is_index_of_tree { tree.now.indexed ≡ true }
    requires supported { supports_extensions rules.now.context.now.extensions tree.now.base ≡ true }
    ensures { let proposed = option_map (λ next. next.extensions) staged.now.extensions in
        IfOk result (λ all. all
        ≡ supports_extensions (unwrap_or proposed rules.now.context.now.extensions) tree.now.tree) }
{
    let after = types_after(rules, staged);
    let leaf_rules = LeafRules {
        context: rules.context,
        required: after.required,
        checker,
    };
    let former = rules.types.required();
    let unmet = tree.first_unmet(alloc, former, after.unchanged, &leaf_rules)?;
    Ok(unmet.is_none())
}

/// Checks that each leaf of the tree after a commit supports the types of the extensions after it, if the follower has strict
/// rule 51 (RFC 9420, 12.1.7 and 13.4).
fn check_support<C: SignatureCheck>(
    alloc: Global,
    rules: &TreeRules<'_>,
    checker: &C,
    tree: &StagedTree,
    staged: &StagedContext,
) -> Result<(), Refusal>
    requires is_index_of_tree { tree.now.indexed ≡ true }
    requires supported { has_rule rules.now.asked 51 ≡ true
        → supports_extensions rules.now.context.now.extensions tree.now.base ≡ true }
    ensures rules_hold { let proposed = option_map (λ next. next.extensions) staged.now.extensions in
        OnOk result (first_failing (support_rules rules.now.asked
        (supports_extensions (unwrap_or proposed rules.now.context.now.extensions) tree.now.tree)) ≡ None) }
    ensures refused { let proposed = option_map (λ next. next.extensions) staged.now.extensions in
        IfErr result (FailsWithRule (first_failing (support_rules rules.now.asked
        (supports_extensions (unwrap_or proposed rules.now.context.now.extensions) tree.now.tree)))) }
{
    if rules.asked.has(51) && !supports_extensions(alloc, rules, checker, tree, staged)? {
        return Err(Refusal::Strict(StrictRule::GroupExtensionUnsupported));
    }
    Ok(())
}

/// Checks that a commit meets the rules after those of the profile: those for its message by itself, of which `unmet` is the
/// refusal by the first that it does not meet, and 51, for the tree after it. Of those for the message only `PointOffCurve` (52)
/// and `LifetimeOutside` (53) come after 51.
#[tactic(auto, using(crate::proofs::StrictLists::other_first, crate::proofs::StrictLists::last_first, crate::proofs::StrictLists::last_later))]
pub(crate) fn check_late_commit<C: SignatureCheck>(
    alloc: Global,
    rules: &TreeRules<'_>,
    checker: &C,
    tree: &StagedTree,
    unmet: Option<Refusal>,
    staged: &StagedContext,
) -> Result<(), Refusal>
    requires is_index_of_tree { tree.now.indexed ≡ true }
    requires supported { has_rule rules.now.asked 51 ≡ true
        → supports_extensions rules.now.context.now.extensions tree.now.base ≡ true }
    ensures rules_hold { let proposed = option_map (λ next. next.extensions) staged.now.extensions in
        OnOk result (commit_late_refusal rules.now.asked unmet
        (unwrap_or proposed rules.now.context.now.extensions) tree.now.tree ≡ None) }
    ensures refused { let proposed = option_map (λ next. next.extensions) staged.now.extensions in
        IfErr result (FailsWithRule (commit_late_refusal rules.now.asked unmet
        (unwrap_or proposed rules.now.context.now.extensions) tree.now.tree)) }
{
    let Some(refusal) = unmet else {
        return check_support(alloc, rules, checker, tree, staged);
    };
    if comes_last(refusal) {
        check_support(alloc, rules, checker, tree, staged)?;
    }
    Err(refusal)
}
