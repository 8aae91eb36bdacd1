//! Checking the tree after a commit from its changes (RFC 9420, 7.3 and 12.4.2).

ghost use Rattle.std.specs.Prelude.{◌≡◌, Some, None, IfOk, IfErr, IsTrue, OnOk, true};
ghost use Rattle.mls_hash.specs.SuiteHash.{hash_of};
ghost use Rattle.mls_tree.specs.TreeHash.{tree_hash};
ghost use Rattle.mls_check.specs.LeafValidation.{IsMemberFault, LeavesAreValid};
ghost use Rattle.mls_strict.specs.LeafForms.{requires_types};
ghost use Rattle.mls_apply.specs.RuleLists.{first_failing};
ghost use Rattle.mls_apply.specs.StagedInternal.{SatisfiesTreeRules};
ghost use Rattle.mls_follow.specs.AcceptanceInternal.{FailsWithRule};
ghost use Rattle.mls_follow.specs.MessageRules.{tree_rules};
ghost use Rattle.mls_follow.specs.CommitTree.{in_context};

use mls_apply::{Refusal, StagedTree};
use mls_check::{GroupRequirements, MemberFault, SignatureCheck};
use mls_hash::Suite;
use mls_index::LeafRules;
use mls_msgs::Rules;
use mls_nodes::GroupContext;
use mls_wire::Opaque;
use std::alloc::Global;

/// What the check needs: the GroupContext, its suite, what the group requires before the commit and after it, whether that is
/// certainly the same, what the types of the GroupContext's extensions require, and the set of strict rules.
#[derive(Drop)]
pub(crate) struct TreeRules<'a> {
    pub(crate) suite: Suite,
    pub(crate) context: &'a GroupContext,
    pub(crate) former: &'a GroupRequirements,
    pub(crate) required: &'a GroupRequirements,
    pub(crate) unchanged: bool,
    pub(crate) types: &'a GroupRequirements,
    pub(crate) asked: Rules,
    ghost same_suite: { suite ≡ context.now.cipher_suite },
    ghost same_required: { IsTrue unchanged → former.now ≡ required.now },
    ghost same_types: { types.now ≡ requires_types context.now.extensions },
}

/// Checks the leaf nodes of the tree after a commit (RFC 9420, 7.3). Those of the tree before it must be valid under the
/// previous requirements.
fn check_leaf_nodes<C: SignatureCheck>(
    alloc: Global,
    rules: &TreeRules<'_>,
    checker: &C,
    tree: &StagedTree,
) -> Result<(), MemberFault>
    requires is_index_of_tree { tree.now.indexed ≡ true }
    requires rules_hold { LeavesAreValid (C.meaning checker.now) rules.now.context.now.cipher_suite
        rules.now.context.now.group_id rules.now.former.now tree.now.base }
    ensures members { OnOk result (LeavesAreValid (C.meaning checker.now) rules.now.context.now.cipher_suite
        rules.now.context.now.group_id rules.now.required.now tree.now.tree) }
    ensures fault { IfErr result (λ e. IsMemberFault (C.meaning checker.now)
        rules.now.context.now.cipher_suite rules.now.context.now.group_id rules.now.required.now tree.now.tree e) }
{
    let leaf_rules = LeafRules {
        context: rules.context,
        required: rules.required,
        checker,
    };
    let former = rules.former.required();
    tree.check_members(alloc, former, rules.unchanged, &leaf_rules)
}

/// Checks the rules for the tree after a commit: its encryption keys are distinct, and its leaf nodes are valid (RFC
/// 9420, 7.3 and 12.4.2). The tree before it must satisfy them under the previous requirements. What did not change is
/// visited only if a rule needs it.
fn check_tree_rules<C: SignatureCheck>(
    alloc: Global,
    rules: &TreeRules<'_>,
    checker: &C,
    tree: &StagedTree,
) -> Result<(), Refusal>
    requires is_index_of_tree { tree.now.indexed ≡ true }
    requires rules_hold { SatisfiesTreeRules (C.meaning checker.now) rules.now.context.now rules.now.former.now
        tree.now.base }
    ensures rules_hold { let s = in_context rules.now.context.now in
        OnOk result (first_failing (tree_rules (C.meaning checker.now) s
        rules.now.required.now (Some tree.now.tree)) ≡ None) }
    ensures refused { let s = in_context rules.now.context.now in
        IfErr result (FailsWithRule (first_failing (tree_rules (C.meaning checker.now) s
        rules.now.required.now (Some tree.now.tree)))) }
{
    if !tree.has_distinct_keys() {
        return Err(Refusal::KeyRepeated);
    }
    Ok(check_leaf_nodes(alloc, rules, checker, tree)?)
}

/// Checks the rules for the tree after a commit, and returns its tree hash. The tree before it must satisfy them under
/// the previous requirements. The changes are indexed, so that they can be made final.
pub(crate) fn check_changed_tree<C: SignatureCheck>(
    alloc: Global,
    rules: &TreeRules<'_>,
    checker: &C,
    tree: &mut StagedTree,
) -> Result<Opaque, Refusal>
    requires { SatisfiesTreeRules (C.meaning checker.now) rules.now.context.now rules.now.former.now
        tree.old.base }
    ensures base { tree.new.base ≡ tree.old.base }
    ensures tree { tree.new.tree ≡ tree.old.tree }
    ensures is_index_of_tree { OnOk result (tree.new.indexed ≡ true) }
    ensures rules_hold { let s = in_context rules.now.context.now in
        OnOk result (first_failing (tree_rules (C.meaning checker.now) s
        rules.now.required.now (Some tree.old.tree)) ≡ None) }
    ensures refused { let s = in_context rules.now.context.now in
        IfErr result (FailsWithRule (first_failing (tree_rules (C.meaning checker.now) s
        rules.now.required.now (Some tree.old.tree)))) }
    ensures hash { IfOk result (λ hash.
        tree_hash (hash_of rules.now.context.now.cipher_suite) 0 tree.old.tree ≡ Some hash) }
{
    tree.index_changes(alloc)?;
    check_tree_rules(alloc, rules, checker, tree)?;
    let hash = tree.hash(alloc, rules.suite)?;
    Ok(hash.to_opaque(alloc)?)
}
