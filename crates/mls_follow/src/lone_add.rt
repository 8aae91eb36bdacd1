//! Whether a client can be added to a group by its KeyPackage alone (RFC 9420, 12.1.1).

ghost use Rattle.std.specs.Prelude.{◌≡◌, ◌≢◌, ◌∷◌, [], ℕ, List, None, Some, IfErr, IfOk, OnOk, true};
ghost use Rattle.mls_strict.specs.LeafForms.{supports_all};
ghost use Rattle.mls_apply.specs.AppliedList.{applied_tree, with_members};
ghost use Rattle.mls_apply.specs.RuleLists.{first_failing};
ghost use Rattle.mls_apply.specs.Staged.{IsSettled};
ghost use Rattle.mls_apply.specs.StagedInternal.{SatisfiesTreeRules};
ghost use Rattle.mls_follow.specs.CommitTree.{in_context};
ghost use Rattle.mls_follow.specs.CoveredLogs.{all_good};
ghost use Rattle.mls_follow.specs.FollowerModel.{state_of, checker_of};
ghost use Rattle.mls_follow.specs.GroupModel.{group_state};
ghost use Rattle.mls_follow.specs.LoneAdd.{lone_add_rules, with_client, CanBeAdded, FailsAdd};
ghost use Rattle.mls_follow.specs.LoneAddInternal.{FailsAddRule};

use crate::follower::Follower;
use crate::group::Group;
use mls_apply::{ApplyFault, ListItem, StagedTree};
use mls_check::{MemberFault, OutOfMemory, SignatureCheck, Trusting};
use mls_hash::Suite;
use mls_index::LeafRules;
use mls_msgs::{Boxed, KeyPackage, Proposal, Sender};
use mls_nodes::EncodedLeaf;
use mls_wire::copy_of;
use std::alloc::{AllocError, Global};
use thiserror::Error;

/// Why a client cannot be added to a group by its KeyPackage alone, whatever its signatures are: the first rule that the tree
/// after the Add fails.
#[derive(Clone, Copy, Debug, PartialEq, Eq, Error)]
pub enum AddFault {
    /// The group has as many members as a tree may have leaves, 1,048,576 (own limit), or an unmerged list would be too long.
    #[error("the group has as many members as it may have")]
    TooManyLeaves,
    /// A node of the tree has the encryption key of the client's leaf (RFC 9420, 7.3).
    #[error("a node of the tree has the encryption key")]
    KeyRepeated,
    /// A leaf node of the tree after the Add is not valid, for this fault (RFC 9420, 7.3).
    #[error("{0}")]
    Member(MemberFault),
    /// An allocation failed. It says nothing of the KeyPackage.
    #[error("out of memory")]
    OutOfMemory,
}

impl From<AllocError> for AddFault {
    ghost use Rattle.std.specs.Prelude.{◌≡◌};
    ghost use Rattle.mls_follow.specs.declared.lone_add.AddFault.TheVariants as faults;

    ghost from_gives = { λ _ e. e ≡ faults.OutOfMemory };

    fn from(_error: AllocError) -> AddFault {
        AddFault::OutOfMemory
    }
}

impl From<OutOfMemory> for AddFault {
    ghost use Rattle.std.specs.Prelude.{◌≡◌};
    ghost use Rattle.mls_follow.specs.declared.lone_add.AddFault.TheVariants as faults;

    ghost from_gives = { λ _ e. e ≡ faults.OutOfMemory };

    fn from(_memory: OutOfMemory) -> AddFault {
        AddFault::OutOfMemory
    }
}

impl From<MemberFault> for AddFault {
    ghost use Rattle.std.specs.Prelude.{◌≡◌};
    ghost use Rattle.mls_follow.specs.LoneAddInternal.{add_fault_of};

    ghost from_gives = { λ fault e. e ≡ add_fault_of fault };

    fn from(fault: MemberFault) -> AddFault {
        match fault {
            MemberFault::OutOfMemory => AddFault::OutOfMemory,
            _ => AddFault::Member(fault),
        }
    }
}

/// Adds the client of a KeyPackage to a tree (RFC 9420, 12.1.1). The KeyPackage is copied, since a proposal owns its own. On
/// error a part of the Add may have been applied.
fn add_client(
    alloc: Global,
    key_package: &KeyPackage,
    tree: &mut StagedTree,
) -> Result<(), AddFault>
    ensures applied { OnOk result ((added : List ℕ)
        × (with_members (key_package.now.leaf_node ∷ []) tree.old.tree ≡ Some (applied_tree tree.new.tree added))) }
    ensures refused { IfErr result (λ e. e ≢ AddFault.OutOfMemory → (e ≡ AddFault.TooManyLeaves)
        × (with_members (key_package.now.leaf_node ∷ []) tree.old.tree ≡ None)) }
    ensures base { tree.new.base ≡ tree.old.base }
{
    let proposal = Proposal::Add(Boxed::new(alloc, copy_of(alloc, key_package)?)?);
    let items = [ListItem::new(Sender::NewMemberProposal, &proposal)];
    match tree.apply_list(alloc, &items) {
        Ok(_) => Ok(()),
        Err(ApplyFault::NoSuchLeaf) => Err(AddFault::TooManyLeaves),
        Err(ApplyFault::TooManyLeaves) => Err(AddFault::TooManyLeaves),
        Err(ApplyFault::OutOfMemory) => Err(AddFault::OutOfMemory),
    }
}

/// Checks the tree after an Add: its encryption keys are distinct, and its leaf nodes are valid if every signature is good (RFC
/// 9420, 7.3 and 12.4.2). The tree before it must satisfy these rules. What did not change is visited only if a rule needs it.
fn check_with_client(
    alloc: Global,
    rules: &LeafRules<'_, Trusting>,
    tree: &StagedTree,
) -> Result<(), AddFault>
    requires is_index_of_tree { tree.now.indexed ≡ true }
    requires rules_hold { SatisfiesTreeRules all_good rules.now.context.now rules.now.required.now tree.now.base }
    ensures fits { (added : List ℕ) → OnOk result (first_failing (lone_add_rules (in_context rules.now.context.now)
        rules.now.required.now (Some (applied_tree tree.now.tree added))) ≡ None) }
    ensures refused { (added : List ℕ) → IfErr result (FailsAddRule (first_failing (lone_add_rules
        (in_context rules.now.context.now) rules.now.required.now (Some (applied_tree tree.now.tree added))))) }
{
    if !tree.has_distinct_keys() {
        return Err(AddFault::KeyRepeated);
    }
    let former = rules.required.required();
    Ok(tree.check_members(alloc, former, true, rules)?)
}

/// Adds the client of a KeyPackage to a tree, and checks the tree after it. On error a part of the Add may have been applied.
fn apply_and_check(
    alloc: Global,
    rules: &LeafRules<'_, Trusting>,
    key_package: &KeyPackage,
    tree: &mut StagedTree,
) -> Result<(), AddFault>
    requires rules_hold { SatisfiesTreeRules all_good rules.now.context.now rules.now.required.now tree.old.base }
    ensures fits { let o = with_members (key_package.now.leaf_node ∷ []) tree.old.tree in
        OnOk result (first_failing (lone_add_rules (in_context rules.now.context.now) rules.now.required.now o)
        ≡ None) }
    ensures refused { let o = with_members (key_package.now.leaf_node ∷ []) tree.old.tree in
        IfErr result (FailsAddRule (first_failing (lone_add_rules (in_context rules.now.context.now)
        rules.now.required.now o))) }
    ensures base { tree.new.base ≡ tree.old.base }
{
    add_client(alloc, key_package, tree)?;
    tree.index_changes(alloc)?;
    check_with_client(alloc, rules, tree)
}

/// Checks the tree after the Add of the client of a KeyPackage. The Add is applied to the tree in place, and undone.
fn check_client(
    alloc: Global,
    rules: &LeafRules<'_, Trusting>,
    key_package: &KeyPackage,
    tree: &mut StagedTree,
) -> Result<(), AddFault>
    requires settled { IsSettled tree.old }
    requires rules_hold { SatisfiesTreeRules all_good rules.now.context.now rules.now.required.now tree.old.base }
    ensures fits { let o = with_members (key_package.now.leaf_node ∷ []) tree.old.tree in
        OnOk result (first_failing (lone_add_rules (in_context rules.now.context.now) rules.now.required.now o)
        ≡ None) }
    ensures refused { let o = with_members (key_package.now.leaf_node ∷ []) tree.old.tree in
        IfErr result (FailsAddRule (first_failing (lone_add_rules (in_context rules.now.context.now)
        rules.now.required.now o))) }
    ensures tree { tree.new.tree ≡ tree.old.tree }
    ensures settled { IsSettled tree.new }
{
    let answer = apply_and_check(alloc, rules, key_package, tree);
    tree.rollback();
    answer
}

impl Group {
    /// Checks whether the client of a KeyPackage can be added. The group is unchanged, whatever is returned.
    fn check_add(&mut self, alloc: Global, key_package: &KeyPackage) -> Result<(), AddFault>
        requires { SatisfiesTreeRules all_good self.old.context self.old.required self.old.tree.tree }
        ensures fits { OnOk result (first_failing (lone_add_rules (group_state self.old) self.old.required
            (with_client (group_state self.old) key_package.now)) ≡ None) }
        ensures refused { IfErr result (FailsAddRule (first_failing (lone_add_rules (group_state self.old)
            self.old.required (with_client (group_state self.old) key_package.now)))) }
        ensures state { group_state self.new ≡ group_state self.old }
    {
        let trusting = Trusting;
        let rules = LeafRules {
            context: &self.context,
            required: &self.required,
            checker: &trusting,
        };
        check_client(alloc, &rules, key_package, &mut self.tree)
    }
}

impl<C: SignatureCheck> Follower<C> {
    /// Returns the cipher suite of the group (RFC 9420, 8.1). It doesn't allocate.
    pub fn suite(&self) -> Suite
        ensures { result ≡ (state_of self.now).context.cipher_suite }
    {
        self.group.suite
    }

    /// Returns whether a leaf node supports the types of the GroupContext's extensions (RFC 9420, 13.4). It takes no longer than
    /// to read the leaf node, however many there are.
    ///
    /// # Errors
    ///
    /// [`OutOfMemory`].
    pub fn supports_extensions(&self, leaf: &EncodedLeaf) -> Result<bool, OutOfMemory>
        ensures { IfOk result (λ all. all ≡ supports_all (state_of self.now).context.extensions leaf.now) }
    {
        self.group.types.are_supported_by(self.alloc, leaf)
    }

    /// Checks whether a commit of one Add could add the client of a KeyPackage (RFC 9420, 12.1.1), as far as the tree after it
    /// decides that: its encryption keys are distinct, and its leaf nodes are valid (7.3 and 12.4.2). That the KeyPackage
    /// belongs to a client of this group's version and cipher suite, and its signatures, are for the caller.
    ///
    /// The Add is applied to the tree in place and undone: the group and the checker are unchanged, whatever is returned. No
    /// signature is verified.
    ///
    /// # Errors
    ///
    /// The first of these, in this order, or `OutOfMemory`:
    ///
    /// 1. `TooManyLeaves`: the group has 1,048,576 members, or an unmerged list would have more entries.
    /// 2. `KeyRepeated`: a non-blank node of the tree, a leaf or a parent, has the encryption key of the client's leaf.
    /// 3. `Member`: a leaf node of the tree after the Add is not valid, under what the group requires and if every signature is
    ///    good, as [`mls_check::validate_members`] says. The fault may name a member's leaf. `Member` never holds
    ///    `OutOfMemory`.
    pub fn check_add(&mut self, key_package: &KeyPackage) -> Result<(), AddFault>
        ensures fits { OnOk result (CanBeAdded (state_of self.old) key_package.now) }
        ensures unfit { IfErr result (λ e. e ≢ AddFault.OutOfMemory
            → FailsAdd (state_of self.old) key_package.now e) }
        ensures state { state_of self.new ≡ state_of self.old }
        ensures checker { checker_of self.new ≡ checker_of self.old }
    {
        self.group.check_add(self.alloc, key_package)
    }
}
