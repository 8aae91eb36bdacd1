//! A group's tree that a commit changes in place (RFC 9420, 12.4.2).
//!
//! A proposal list and a path change a large tree in place, and the tree after both is checked from its changes. A
//! [`StagedTree`] has what this needs. Until they are made final, the changes can be undone.

ghost use Rattle.std.specs.Prelude.{◌≡◌, ◌≢◌, ◌<◌, ◌≤◌, ◌↔◌, ◌⊎◌, Err, None, Some, IsSome, IsTrue, IfOk, IfErr, OnOk, true};
ghost use Rattle.mls_hash.specs.SuiteHash.{hash_of};
ghost use Rattle.mls_tree.specs.ChangedNodes.{AgreeExceptAt};
ghost use Rattle.mls_tree.specs.Journals.{before};
ghost use Rattle.mls_nodes.specs.Limits.{leaf_limit};
ghost use Rattle.mls_tree.specs.Tree.{Tree, leaf_count, member_count};
ghost use Rattle.mls_tree.specs.TreeOperations.{seat};
ghost use Rattle.mls_tree.specs.TreeHash.{tree_hash};
ghost use Rattle.mls_index.specs.TreeIndex.{ContainsKeysOf, HasBase};
ghost use Rattle.mls_apply.specs.AppliedList.{applied_tree, outcome, without_adds, ExceedsCapacity};
ghost use Rattle.mls_apply.specs.Outline.{IsOutline};
ghost use Rattle.mls_apply.specs.CommitterPath.{merged_by, committer_path_refusal};
ghost use Rattle.mls_check.specs.DistinctKeys.{has_distinct_keys};
ghost use Rattle.mls_check.specs.LeafValidation.{FindsFailing, IsMemberFault, LeavesAreValid, all_leaves, has_unique_signature_key, supports_required, supports_used_credentials};
ghost use Rattle.mls_index.specs.FirstChanged.{leaf_rule};

use crate::adds::leaf_for_member;
use crate::blank_hashes::BlankHashes;
use crate::committer_path::CommitterPath;
use crate::fault::ApplyFault;
use crate::list_application::{Leaves, apply_list_in_place};
use crate::list_fit::check_list_fits;
use crate::list_item::ListItem;
use crate::new_parents::put_path_in_place;
use crate::path_merge::{check_keys_and_counts, filled_nodes, fitting_node_indices};
use crate::refusal::Refusal;
use crate::requirements::same_requirements;
use mls_check::{MemberFault, OutOfMemory, SignatureCheck};
use mls_hash::{HashFault, Suite, filled_hash};
use mls_index::{KeyKind, LeafRule, LeafRules, TreeIndex, first_changed_failing};
use mls_nodes::RequiredCapabilities;
use mls_tree::{HashValue, Journal, PublicTree};
use std::alloc::{AllocError, Global};
use std::marker::Model;

/// A tree that is changed in place, with a journal of the changes and an index of its keys and of its leaves'
/// credentials.
///
/// The changes are staged, until [`StagedTree::settle`] makes them final or [`StagedTree::rollback`] undoes them.
/// Neither of the two allocates.
///
/// Contracts see four parts. `tree` is the tree as it is, and `base` the one before the changes. `indexed` says whether
/// the index has what changed: nothing is checked or made final without it. `clean` says whether the index is that of
/// `base`, with no other entry. A call that fails, also because it is out of memory, leaves `base` unchanged.
#[derive(Drop)]
pub struct StagedTree {
    tree: PublicTree,
    journal: Journal,
    index: TreeIndex,
    staged_nodes: Option<Vec<u32>>,
    clean: bool,
    blank_hashes: BlankHashes,
}

impl Model for StagedTree {
    ghost use Rattle.mls_apply.specs.Staged.{Staged};
    ghost use Rattle.mls_apply.specs.StagedInternal.{staged_coded};

    ghost Value = { Staged };

    ghost coded = { staged_coded };

    ghost use Rattle.mls_apply.specs.StagedSeen.{IsStaged, staged};

    ghost view = { staged };

    ghost invariant = { IsStaged };
}

/// Adds the changed nodes of a tree, those that a journal has logged, to an index whose base is the tree before these
/// changes. Returns their node indices. The index then also contains the keys of the tree.
fn stage_changed_nodes(
    alloc: Global,
    tree: &PublicTree,
    journal: &Journal,
    index: &mut TreeIndex,
) -> Result<Vec<u32>, OutOfMemory>
    requires index_base { HasBase (before journal.now tree.now.tree) index.old }
    ensures index_base { (t : Tree) → HasBase t index.old → HasBase t index.new }
    ensures index_contains_keys { OnOk result (ContainsKeysOf tree.now.tree index.new) }
    ensures node_indices { IfOk result (λ node_indices.
        AgreeExceptAt node_indices.items (before journal.now tree.now.tree) tree.now.tree) }
{
    let node_indices = journal.changed_node_indices(alloc, tree)?;
    index.stage(tree, node_indices.as_slice())?;
    Ok(node_indices)
}

impl StagedTree {
    /// Returns a tree without changes, which is indexed. The tree is returned as the error if an allocation fails.
    pub fn of(alloc: Global, tree: PublicTree) -> Result<StagedTree, PublicTree>
        ensures base { IfOk result (λ s. s.base ≡ tree.tree) }
        ensures tree { IfOk result (λ s. s.tree ≡ tree.tree) }
        ensures clean { IfOk result (λ s. s.clean ≡ true) }
        ensures returned_arguments { IfErr result (λ back. back ≡ tree) }
    {
        match TreeIndex::of(alloc, &tree) {
            Ok(index) => Ok(StagedTree {
                tree,
                journal: Journal::new(alloc),
                index,
                staged_nodes: None,
                clean: true,
                blank_hashes: BlankHashes::new(alloc),
            }),
            Err(_) => Err(tree),
        }
    }

    /// Returns the tree as it is.
    pub fn tree(&self) -> &PublicTree
        ensures { result.now.tree ≡ self.now.tree }
    {
        &self.tree
    }

    /// Applies a list of proposals (RFC 9420, 12.3), as [`apply_list`](crate::apply_list) does to a copy, and says
    /// which leaves were added. After any fault a part of the list may have been applied.
    pub fn apply_list(
        &mut self,
        alloc: Global,
        items: &[ListItem<'_>],
    ) -> Result<Leaves, ApplyFault>
        ensures applied { IfOk result (λ added.
            outcome items.now self.old.tree ≡ Some (applied_tree self.new.tree added)) }
        ensures no_such_leaf { result ≡ Err ApplyFault.NoSuchLeaf
            → without_adds items.now self.old.tree ≡ None }
        ensures too_many_leaves { result ≡ Err ApplyFault.TooManyLeaves
            → IsSome (without_adds items.now self.old.tree) × (outcome items.now self.old.tree ≡ None) }
        ensures no_room { ExceedsCapacity items.now self.old.tree → result ≡ Err ApplyFault.TooManyLeaves }
        ensures base { self.new.base ≡ self.old.base }
    {
        self.staged_nodes = None;
        apply_list_in_place(alloc, &mut self.tree, &mut self.journal, items)
    }

    /// Checks whether a list of proposals can be applied (RFC 9420, 12.3): whether [`StagedTree::apply_list`] would succeed.
    /// Returns the leaves that it would add. The Updates and Removes are applied, the Adds are not: the added leaves are not put
    /// into the tree, and the others are those after the list. Whatever is returned, the tree has to be rolled back.
    ///
    /// # Errors
    ///
    /// Those of `apply_list`.
    pub fn check_list_fits(
        &mut self,
        alloc: Global,
        items: &[ListItem<'_>],
    ) -> Result<Leaves, ApplyFault>
        ensures fit { OnOk result (IsSome (outcome items.now self.old.tree)) }
        ensures outline { IfOk result (λ added. IsOutline (outcome items.now self.old.tree) added self.new.tree) }
        ensures no_such_leaf { result ≡ Err ApplyFault.NoSuchLeaf
            → without_adds items.now self.old.tree ≡ None }
        ensures too_many_leaves { result ≡ Err ApplyFault.TooManyLeaves
            → IsSome (without_adds items.now self.old.tree) × (outcome items.now self.old.tree ≡ None) }
        ensures base { self.new.base ≡ self.old.base }
    {
        self.staged_nodes = None;
        check_list_fits(alloc, &mut self.tree, &mut self.journal, items)
    }

    /// Returns the leaf of a client that joins with a commit: the leftmost blank one, otherwise the first one by which
    /// the tree is extended (RFC 9420, 7.7 and 12.4.3.2). The leaf is still blank.
    ///
    /// # Errors
    ///
    /// `TooManyLeaves` if and only if the tree has 1,048,576 members: then nothing changes. Or `OutOfMemory`.
    pub fn seat(&mut self) -> Result<u32, Refusal>
        ensures leaf { IfOk result (λ j. j ≡ (seat self.old.tree).leaf) }
        ensures tree { OnOk result (self.new.tree ≡ (seat self.old.tree).tree) }
        ensures inside { IfOk result (λ j. j < leaf_count self.new.tree) }
        ensures capacity { OnOk result (member_count self.old.tree < leaf_limit) }
        ensures too_many_leaves { (result ≡ Err Refusal.TooManyLeaves) ↔ (leaf_limit ≤ member_count self.old.tree) }
        ensures possible_errors { IfErr result (λ e. (e ≡ Refusal.TooManyLeaves) ⊎ (e ≡ Refusal.OutOfMemory)) }
        ensures base { self.new.base ≡ self.old.base }
    {
        if self.tree.member_count() >= 1_048_576 {
            return Err(Refusal::TooManyLeaves);
        }
        self.staged_nodes = None;
        Ok(leaf_for_member(&mut self.tree, &mut self.journal, 0)?)
    }

    /// Merges an update path (RFC 9420, 7.5). The changes are added to the index, and the path's keys are looked up in it.
    ///
    /// # Errors
    ///
    /// Those of [`merge_path`](crate::merge_path), in its order. The tree is unchanged, except after `OutOfMemory`,
    /// when a part of the path may have been merged. `SenderNotMember`, `PathLength` and `PathSource` are checked before the
    /// changes are added to the index: no key is hashed for a path that is refused as one of them. No tree hash is
    /// computed for a path that is refused by a rule before `PathParentHash`.
    pub fn merge_path(
        &mut self,
        alloc: Global,
        suite: Suite,
        path: &CommitterPath<'_>,
    ) -> Result<(), Refusal>
        ensures merged { OnOk result
            (merged_by (hash_of suite) self.old.tree path.now ≡ Some self.new.tree) }
        ensures rules_hold { OnOk result (committer_path_refusal (hash_of suite) self.old.tree path.now ≡ None) }
        ensures refused { IfErr result (λ e. e ≢ Refusal.OutOfMemory
            → committer_path_refusal (hash_of suite) self.old.tree path.now ≡ Some e) }
        ensures unchanged { IfErr result
            (λ e. e ≢ Refusal.OutOfMemory → self.new.tree ≡ self.old.tree) }
        ensures base { self.new.base ≡ self.old.base }
    {
        let node_indices = fitting_node_indices(alloc, &self.tree, path)?;
        self.staged_nodes = None;
        self.clean = false;
        let tree = &mut self.tree;
        let journal = &mut self.journal;
        drop(stage_changed_nodes(alloc, tree, journal, &mut self.index)?);
        check_keys_and_counts(alloc, tree, &self.index, node_indices.as_slice(), path)?;
        self.blank_hashes.fill(alloc, suite, tree)?;
        let new = filled_nodes(alloc, suite, tree, node_indices.as_slice(), path)?;
        put_path_in_place(alloc, tree, journal, path.leaf, new)?;
        Ok(())
    }

    /// Adds the changes to the index. Nothing else changes.
    pub fn index_changes(&mut self, alloc: Global) -> Result<(), OutOfMemory>
        ensures base { self.new.base ≡ self.old.base }
        ensures tree { self.new.tree ≡ self.old.tree }
        ensures is_index_of_tree { OnOk result (self.new.indexed ≡ true) }
    {
        self.staged_nodes = None;
        self.clean = false;
        let node_indices = stage_changed_nodes(alloc, &self.tree, &self.journal, &mut self.index)?;
        self.staged_nodes = Some(node_indices);
        Ok(())
    }

    /// Returns whether the encryption keys of the tree are distinct (RFC 9420, 12.4.2). Those of the tree before the
    /// changes must be. Only the keys of the changed nodes are looked up.
    pub fn has_distinct_keys(&self) -> bool
        requires is_index_of_tree { self.now.indexed ≡ true }
        requires distinct { has_distinct_keys self.now.base ≡ true }
        ensures { result ≡ has_distinct_keys self.now.tree }
    {
        let Some(node_indices) = &self.staged_nodes else {
            unreachable!()
        };
        let (index, tree) = (&self.index, &self.tree);
        index.have_unique_keys(tree, KeyKind::Encryption, node_indices.as_slice())
    }

    /// Returns the smallest leaf index of a leaf that fails a rule that needs no other leaf. Each leaf of the tree before
    /// the changes must satisfy it.
    fn first_failing<C: SignatureCheck>(
        &self,
        alloc: Global,
        rules: &LeafRules<'_, C>,
        rule: LeafRule,
    ) -> Result<Option<u32>, OutOfMemory>
        requires is_index_of_tree { self.now.indexed ≡ true }
        requires rules_hold { all_leaves (leaf_rule (C.meaning rules.now.checker.now) rules.now.context.now
            rules.now.required.now rule) 0 self.now.base ≡ true }
        ensures { IfOk result (FindsFailing (leaf_rule (C.meaning rules.now.checker.now) rules.now.context.now
            rules.now.required.now rule) self.now.tree) }
    {
        let Some(node_indices) = &self.staged_nodes else {
            unreachable!()
        };
        first_changed_failing(alloc, rules, rule, &self.tree, node_indices.as_slice())
    }

    /// Returns the smallest leaf index of a leaf whose capabilities lack what `rules` require (RFC 9420, 7.3). Each leaf of
    /// the tree before the changes must satisfy `former`. If these are the same requirements, only the changed leaves are
    /// checked; else all are. `unchanged` says that they are the same, so that long lists need not be compared.
    ///
    /// # Errors
    ///
    /// `OutOfMemory`.
    pub fn first_unmet<C: SignatureCheck>(
        &self,
        alloc: Global,
        former: &RequiredCapabilities,
        unchanged: bool,
        rules: &LeafRules<'_, C>,
    ) -> Result<Option<u32>, OutOfMemory>
        requires is_index_of_tree { self.now.indexed ≡ true }
        requires unchanged { IsTrue unchanged → former.now ≡ rules.now.required.now }
        requires rules_hold { all_leaves (λ _ x. supports_required former.now x) 0 self.now.base ≡ true }
        ensures { IfOk result (FindsFailing (λ _ x. supports_required rules.now.required.now x) self.now.tree) }
    {
        if same_requirements(former, rules.required.required(), unchanged) {
            return self.first_failing(alloc, rules, LeafRule::Requirements);
        }
        rules.required.first_unmet(alloc, &self.tree)
    }

    /// Returns the smallest leaf index of a leaf that does not support the credential type of some leaf. The index has
    /// it: no leaf of the tree is visited.
    fn first_unsupported(&self) -> Option<u32>
        requires is_index_of_tree { self.now.indexed ≡ true }
        ensures { FindsFailing (λ _ x. supports_used_credentials self.now.tree x) self.now.tree result }
    {
        self.index.first_unsupported_credential()
    }

    /// Returns the smallest leaf index of a leaf whose signature key another leaf has. The signature keys of the tree
    /// before the changes must be distinct. Only the keys of the changed leaves are looked up.
    fn first_repeated(&self) -> Option<u32>
        requires is_index_of_tree { self.now.indexed ≡ true }
        requires rules_hold { all_leaves (has_unique_signature_key self.now.base) 0 self.now.base ≡ true }
        ensures { FindsFailing (has_unique_signature_key self.now.tree) self.now.tree result }
    {
        let Some(node_indices) = &self.staged_nodes else {
            unreachable!()
        };
        self.index
            .first_repeated_key(&self.tree, node_indices.as_slice())
    }

    /// Checks that every non-blank leaf of the tree is a valid leaf node (RFC 9420, 7.3), as
    /// [`mls_check::validate_members`] does. Those of the tree before the changes must be, under what the group required
    /// then, `former`. Rules that need no other leaf are checked of the changed leaves alone, except what the group
    /// requires: if that changes, all leaves are checked. `unchanged` says that it does not. The others are decided by the
    /// index, which also has the first leaf that fails one.
    ///
    /// # Errors
    ///
    /// Those of `validate_members`, in its order.
    pub fn check_members<C: SignatureCheck>(
        &self,
        alloc: Global,
        former: &RequiredCapabilities,
        unchanged: bool,
        rules: &LeafRules<'_, C>,
    ) -> Result<(), MemberFault>
        requires is_index_of_tree { self.now.indexed ≡ true }
        requires unchanged { IsTrue unchanged → former.now ≡ rules.now.required.now }
        requires rules_hold { LeavesAreValid (C.meaning rules.now.checker.now) rules.now.context.now.cipher_suite
            rules.now.context.now.group_id former.now self.now.base }
        ensures members { OnOk result (LeavesAreValid (C.meaning rules.now.checker.now)
            rules.now.context.now.cipher_suite rules.now.context.now.group_id rules.now.required.now self.now.tree) }
        ensures fault { IfErr result (λ e. IsMemberFault (C.meaning rules.now.checker.now)
            rules.now.context.now.cipher_suite rules.now.context.now.group_id rules.now.required.now self.now.tree e) }
    {
        if let Some(leaf) = self.first_failing(alloc, rules, LeafRule::Extensions)? {
            return Err(MemberFault::ExtensionUnlisted(leaf));
        }
        if let Some(leaf) = self.first_unmet(alloc, former, unchanged, rules)? {
            return Err(MemberFault::RequirementUnmet(leaf));
        }
        if let Some(leaf) = self.first_unsupported() {
            return Err(MemberFault::CredentialUnsupported(leaf));
        }
        if let Some(leaf) = self.first_repeated() {
            return Err(MemberFault::SignatureKeyRepeated(leaf));
        }
        if let Some(leaf) = self.first_failing(alloc, rules, LeafRule::Signature)? {
            return Err(MemberFault::LeafSignature(leaf));
        }
        Ok(())
    }

    /// Returns the tree hash of the tree (RFC 9420, 7.8). Empty cache slots are filled, from the root down to filled ones:
    /// what is below a filled slot is not hashed. The hashes of blank subtrees of a tree that was extended are computed
    /// once. Nothing else changes.
    pub fn hash(&mut self, alloc: Global, suite: Suite) -> Result<HashValue, AllocError>
        ensures unchanged { self.new ≡ self.old }
        ensures hash { IfOk result (λ hash. tree_hash (hash_of suite) 0 self.old.tree ≡ Some hash) }
    {
        self.blank_hashes.fill(alloc, suite, &mut self.tree)?;
        root_hash(alloc, suite, &mut self.tree)
    }

    /// Makes the changes final: the tree as it is becomes the base. Does not allocate.
    pub fn settle(&mut self)
        requires { self.old.indexed ≡ true }
        ensures base { self.new.base ≡ self.old.tree }
        ensures tree { self.new.tree ≡ self.old.tree }
        ensures clean { self.new.clean ≡ true }
    {
        let Some(node_indices) = self.staged_nodes.take() else {
            unreachable!()
        };
        self.index.accept(&self.tree, node_indices.as_slice());
        self.journal.discard();
        self.clean = true;
    }

    /// Undoes the changes: the tree is the base again. The cached hashes of long nodes that the changes cleared are put back
    /// ([`Journal::rollback_with_hashes`]). Does not allocate.
    pub fn rollback(&mut self)
        ensures base { self.new.base ≡ self.old.base }
        ensures tree { self.new.tree ≡ self.old.base }
        ensures clean { self.new.clean ≡ true }
    {
        self.staged_nodes = None;
        self.index.revert();
        self.clean = true;
        self.journal.rollback_with_hashes(&mut self.tree);
    }
}

/// Returns the tree hash of a tree (RFC 9420, 7.8), and fills the cache slots that it takes.
fn root_hash(alloc: Global, suite: Suite, tree: &mut PublicTree) -> Result<HashValue, AllocError>
    ensures tree { tree.new.tree ≡ tree.old.tree }
    ensures hash { IfOk result (λ hash. tree_hash (hash_of suite) 0 tree.old.tree ≡ Some hash) }
{
    let root = tree.leaf_count() - 1;
    match filled_hash(alloc, suite, tree, root) {
        Ok(hash) => Ok(hash),
        Err(HashFault::OutOfMemory) => Err(AllocError),
        Err(_) => unreachable!(),
    }
}
