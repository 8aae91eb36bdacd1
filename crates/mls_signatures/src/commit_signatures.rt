//! The signatures of a member's commit after the message's own (RFC 9420, 12.4), appended to a list.

ghost use Rattle.std.specs.Prelude.{◌≡◌, ◌++◌, ◌∷◌, [], All, Some, IfOk, OnOk, filter, option_map, true};
ghost use Rattle.mls_msgs.specs.declared.framed_content.Sender.TheVariants.{Member};
ghost use Rattle.mls_tree.specs.Tree.{Tree};
ghost use Rattle.mls_apply.specs.Senders.{member_index};
ghost use Rattle.mls_apply.specs.ResolvedList.{resolved};
ghost use Rattle.mls_apply.specs.AppliedList.{applied_tree, outcome};
ghost use Rattle.mls_apply.specs.Staged.{IsSettled};
ghost use Rattle.mls_signatures.specs.AcceptedSignatures.{are_from_packages};
ghost use Rattle.mls_signatures.specs.AddedLeaves.{AreNamedAlike, AreOfValues, AppendsSignatures, HasNames, HasPackageNames, IfFresh, IsAfter, IsListed, IsPackageIfNamed, ListValues, ValuesAre, indices, leaves_of};
ghost use Rattle.mls_signatures.specs.SignaturesToVerify.{signatures_at, entry_signatures, entries_signatures, index_before, replaced_leaves, is_fresh_leaf, path_signatures, applied_list_signatures, list_signatures};

use crate::added_leaves::{AddedLeaf, NewLeaves, added_leaves, leaves_by_index};
use crate::fresh_leaf_signatures::{other_indices, push_contained, push_other_leaf_signatures};
use crate::new_leaf_signatures::{
    TreeAfter, push_added_leaf_signatures, push_replaced_leaf_signatures,
};
use crate::push_signatures::{push_leaf_signature, push_proposal_signatures};
use crate::signature_list::SignatureList;
use mls_apply::{ApplyFault, ListItem, PendingProposals, Refusal, StagedTree, resolve_list};
use mls_check::OutOfMemory;
use mls_msgs::{Commit, Proposal, ProposalOrRef, Sender, UpdatePath};
use mls_nodes::GroupContext;
use mls_tree::PublicTree;
use std::alloc::Global;

/// A commit of a member, the context of its group, and which of the leaves that its list replaces or adds are listed.
#[derive(Clone, Copy)]
pub(crate) struct MemberCommit<'a> {
    pub(crate) context: &'a GroupContext,
    pub(crate) committer: u32,
    pub(crate) commit: &'a Commit,
    pub(crate) leaves: NewLeaves,
}

/// Appends the signatures of an entry of a proposal list, if the entry is a proposal by value.
fn push_entry_signatures(
    alloc: Global,
    context: &GroupContext,
    committer: Sender,
    entry: &ProposalOrRef,
    list: &mut SignatureList,
) -> Result<(), OutOfMemory>
    ensures { OnOk result (AppendsSignatures list.old (entry_signatures context.now committer entry.now) list.new) }
{
    match entry {
        ProposalOrRef::Proposal(proposal) => {
            push_proposal_signatures(alloc, context, committer, proposal, list)
        }
        ProposalOrRef::Reference(_) => Ok(()),
    }
}

/// Appends the signatures of the proposals by value of a commit, in their order.
fn push_entries_signatures(
    alloc: Global,
    context: &GroupContext,
    committer: Sender,
    entries: &[ProposalOrRef],
    list: &mut SignatureList,
) -> Result<(), OutOfMemory>
    ensures { OnOk result (AppendsSignatures list.old (entries_signatures context.now committer entries.now) list.new) }
{
    for entry in entries {
        push_entry_signatures(alloc, context, committer, entry, list)?;
    }
    Ok(())
}

/// Appends the leaf index of a sender, if the sender is a member.
fn push_member_index(sender: Sender, leaves: &mut Vec<u32>) -> Result<(), OutOfMemory>
    ensures { OnOk result (leaves.new.items ≡ leaves.old.items ++ index_before (member_index sender) []) }
{
    match sender {
        Sender::Member(index) => {
            leaves.push(index)?;
            Ok(())
        }
        Sender::External(_) => Ok(()),
        Sender::NewMemberProposal => Ok(()),
        Sender::NewMemberCommit => Ok(()),
    }
}

/// Appends the leaf that an item replaces, if the item is an Update of a member.
fn push_replaced_leaf(item: &ListItem, leaves: &mut Vec<u32>) -> Result<(), OutOfMemory>
    ensures { OnOk result (leaves.new.items ≡ leaves.old.items ++ replaced_leaves (item.now ∷ [])) }
{
    match item.proposal {
        Proposal::Update(_) => push_member_index(item.sender, leaves),
        Proposal::Add(_) => Ok(()),
        Proposal::Remove(_) => Ok(()),
        Proposal::ContextExtensions(_) => Ok(()),
        Proposal::PreSharedKey(_) => Ok(()),
        Proposal::ReInit(_) => Ok(()),
        Proposal::ExternalInit(_) => Ok(()),
    }
}

/// Appends the leaves that the Updates of a list replace, in its order.
fn push_replaced_leaves(items: &[ListItem], leaves: &mut Vec<u32>) -> Result<(), OutOfMemory>
    ensures { OnOk result (leaves.new.items ≡ leaves.old.items ++ replaced_leaves items.now) }
{
    for item in items {
        push_replaced_leaf(item, leaves)?;
    }
    Ok(())
}

/// Appends the signature of the leaf of a member's UpdatePath, if there is a path.
fn push_path_signature(
    alloc: Global,
    context: &GroupContext,
    committer: u32,
    path: &Option<UpdatePath>,
    list: &mut SignatureList,
) -> Result<(), OutOfMemory>
    ensures { OnOk result (AppendsSignatures list.old (path_signatures context.now committer path.now) list.new) }
{
    let Some(path) = path else {
        return Ok(());
    };
    push_leaf_signature(alloc, context, committer, &path.leaf_node, list)
}

/// A tree that lacks the leaf nodes of the leaves that a list adds, and these leaves.
#[derive(Clone, Copy)]
struct Outline<'s, 'a> {
    tree: &'s PublicTree,
    leaves: &'s [AddedLeaf<'a>],
}

/// Appends the signatures of the leaves at these leaf indices, in the tree after a list.
fn push_signatures_at(
    alloc: Global,
    context: &GroupContext,
    outline: &Outline<'_, '_>,
    places: &[u32],
    list: &mut SignatureList,
) -> Result<(), OutOfMemory>
    ensures { let suite = context.now.cipher_suite in
        (t : Tree) → IsAfter t outline.now.tree.now.tree outline.now.leaves.now
        → OnOk result (AppendsSignatures list.old (signatures_at suite context.now.group_id t places.now) list.new) }
{
    if places.is_empty() {
        return Ok(());
    }
    let added = leaves_by_index(alloc, outline.leaves)?;
    let after = TreeAfter {
        tree: outline.tree,
        added: &added,
    };
    let answer = push_replaced_leaf_signatures(alloc, context, &after, places, list);
    drop(added);
    answer
}

/// Appends the signatures of all leaves that a list replaces or adds, in the tree after it.
fn push_all_leaf_signatures(
    alloc: Global,
    context: &GroupContext,
    items: &[ListItem],
    outline: &Outline<'_, '_>,
    list: &mut SignatureList,
) -> Result<(), OutOfMemory>
    requires named { AreNamedAlike outline.now.leaves.now }
    requires listed { AreOfValues (IsListed context.now list.old) outline.now.leaves.now }
    ensures { let suite = context.now.cipher_suite in
        (t : Tree) → IsAfter t outline.now.tree.now.tree outline.now.leaves.now
        → OnOk result (AppendsSignatures list.old (signatures_at suite context.now.group_id t
        (replaced_leaves items.now ++ indices outline.now.leaves.now)) list.new) }
{
    let mut replaced = Vec::new(alloc);
    push_replaced_leaves(items, &mut replaced)?;
    push_signatures_at(alloc, context, outline, replaced.as_slice(), list)?;
    push_added_leaf_signatures(alloc, context, outline.leaves, list)
}

/// Appends the signatures of those leaves that a list replaces or adds whose signature is not one of a proposal of the list.
/// The leaf nodes of the others are neither copied nor hashed.
fn push_fresh_leaf_signatures(
    alloc: Global,
    context: &GroupContext,
    items: &[ListItem],
    outline: &Outline<'_, '_>,
    list: &mut SignatureList,
) -> Result<(), OutOfMemory>
    requires { All IsPackageIfNamed outline.now.leaves.now }
    ensures { let suite = context.now.cipher_suite in
        (t : Tree) → IsAfter t outline.now.tree.now.tree outline.now.leaves.now
        → OnOk result (AppendsSignatures list.old (signatures_at suite context.now.group_id t
        (filter (is_fresh_leaf (indices outline.now.leaves.now) t)
        (replaced_leaves items.now ++ indices outline.now.leaves.now))) list.new) }
{
    let others = other_indices(alloc, outline.leaves)?;
    let mut replaced = Vec::new(alloc);
    push_replaced_leaves(items, &mut replaced)?;
    let mut kept = Vec::new(alloc);
    push_contained(&others, replaced.as_slice(), &mut kept)?;
    push_signatures_at(alloc, context, outline, kept.as_slice(), list)?;
    push_other_leaf_signatures(alloc, context, outline.leaves, list)
}

/// Appends the signatures of the leaves that are listed of those that a list replaces or adds, in the tree after it.
fn push_listed_leaf_signatures(
    alloc: Global,
    commit: &MemberCommit<'_>,
    items: &[ListItem],
    outline: &Outline<'_, '_>,
    list: &mut SignatureList,
) -> Result<(), OutOfMemory>
    requires named { AreNamedAlike outline.now.leaves.now }
    requires listed { AreOfValues (IsListed commit.now.context.now list.old) outline.now.leaves.now }
    requires packages { IfFresh commit.now.leaves (All IsPackageIfNamed outline.now.leaves.now) }
    ensures { let context = commit.now.context.now in
        (t : Tree) → IsAfter t outline.now.tree.now.tree outline.now.leaves.now
        → OnOk result (AppendsSignatures list.old (signatures_at context.cipher_suite context.group_id t
        (leaves_of commit.now.leaves items.now (applied_tree t (indices outline.now.leaves.now)))) list.new) }
{
    match commit.leaves {
        NewLeaves::All => push_all_leaf_signatures(alloc, commit.context, items, outline, list),
        NewLeaves::Fresh => push_fresh_leaf_signatures(alloc, commit.context, items, outline, list),
    }
}

/// Appends the signatures of the leaves that are listed, then that of the leaf of the path.
fn push_new_leaf_signatures(
    alloc: Global,
    commit: &MemberCommit<'_>,
    items: &[ListItem],
    outline: &Outline<'_, '_>,
    list: &mut SignatureList,
) -> Result<(), OutOfMemory>
    requires named { AreNamedAlike outline.now.leaves.now }
    requires listed { AreOfValues (IsListed commit.now.context.now list.old) outline.now.leaves.now }
    requires packages { IfFresh commit.now.leaves (All IsPackageIfNamed outline.now.leaves.now) }
    ensures { let context = commit.now.context.now in
        (t : Tree) → IsAfter t outline.now.tree.now.tree outline.now.leaves.now
        → OnOk result (AppendsSignatures list.old
        (signatures_at context.cipher_suite context.group_id t
        (leaves_of commit.now.leaves items.now (applied_tree t (indices outline.now.leaves.now)))
        ++ path_signatures context commit.now.committer commit.now.commit.now.path) list.new) }
{
    push_listed_leaf_signatures(alloc, commit, items, outline, list)?;
    push_path_signature(
        alloc,
        commit.context,
        commit.committer,
        &commit.commit.path,
        list,
    )
}

/// Applies a list to the tree, except for the leaf nodes of its Adds, and appends the signatures of the leaves that are listed of
/// those that it adds or replaces, and of the path's leaf, if the list can be applied. A part of the list may have been applied,
/// whatever is returned.
fn apply_and_push_signatures(
    alloc: Global,
    commit: &MemberCommit<'_>,
    items: &[ListItem],
    tree: &mut StagedTree,
    list: &mut SignatureList,
) -> Result<(), OutOfMemory>
    requires named { HasNames commit.now.commit.now.proposals items.now }
    requires packages { IfFresh commit.now.leaves (HasPackageNames commit.now.commit.now.proposals items.now) }
    requires listed { ValuesAre (IsListed commit.now.context.now list.old) commit.now.commit.now.proposals items.now }
    ensures signatures { let context = commit.now.context.now in
        OnOk result (AppendsSignatures list.old
        (applied_list_signatures (leaves_of commit.now.leaves) context commit.now.committer commit.now.commit.now.path items.now
        (outcome items.now tree.old.tree)) list.new) }
    ensures base { tree.new.base ≡ tree.old.base }
{
    let added = match tree.check_list_fits(alloc, items) {
        Ok(added) => added,
        Err(ApplyFault::NoSuchLeaf) => return Ok(()),
        Err(ApplyFault::TooManyLeaves) => return Ok(()),
        Err(ApplyFault::OutOfMemory) => return Err(OutOfMemory),
    };
    let entries = commit.commit.proposals.as_slice();
    let leaves = added_leaves(alloc, entries, items, added.as_slice());
    drop(added);
    let leaves = leaves?;
    let outline = Outline {
        tree: tree.tree(),
        leaves: leaves.as_slice(),
    };
    let answer = push_new_leaf_signatures(alloc, commit, items, &outline, list);
    drop(leaves);
    answer
}

/// Appends the signatures of the leaves that are listed of those that a proposal list adds or replaces, and of the path's leaf,
/// if the list can be applied. The list is applied to the tree, and undone.
fn push_applied_list_signatures(
    alloc: Global,
    commit: &MemberCommit<'_>,
    items: &[ListItem],
    tree: &mut StagedTree,
    list: &mut SignatureList,
) -> Result<(), OutOfMemory>
    requires named { HasNames commit.now.commit.now.proposals items.now }
    requires packages { IfFresh commit.now.leaves (HasPackageNames commit.now.commit.now.proposals items.now) }
    requires listed { ValuesAre (IsListed commit.now.context.now list.old) commit.now.commit.now.proposals items.now }
    requires settled { IsSettled tree.old }
    ensures signatures { let context = commit.now.context.now in
        OnOk result (AppendsSignatures list.old
        (applied_list_signatures (leaves_of commit.now.leaves) context commit.now.committer commit.now.commit.now.path items.now
        (outcome items.now tree.old.tree)) list.new) }
    ensures base { tree.new.base ≡ tree.old.base }
    ensures tree { tree.new.tree ≡ tree.old.tree }
    ensures settled { IsSettled tree.new }
{
    let answer = apply_and_push_signatures(alloc, commit, items, tree, list);
    tree.rollback();
    answer
}

/// Appends the signatures of the proposals by value of a commit, then those of the leaves that are listed of those that it adds or
/// replaces, then that of its path's leaf.
fn push_list_signatures(
    alloc: Global,
    commit: &MemberCommit<'_>,
    items: &[ListItem],
    tree: &mut StagedTree,
    list: &mut SignatureList,
) -> Result<(), OutOfMemory>
    requires named { HasNames commit.now.commit.now.proposals items.now }
    requires packages { IfFresh commit.now.leaves (HasPackageNames commit.now.commit.now.proposals items.now) }
    requires values { ListValues commit.now.context.now (Member commit.now.committer)
        commit.now.commit.now.proposals items.now }
    requires settled { IsSettled tree.old }
    ensures signatures { OnOk result (AppendsSignatures list.old
        (list_signatures (leaves_of commit.now.leaves) commit.now.context.now tree.old.tree commit.now.committer
        commit.now.commit.now (Some items.now)) list.new) }
    ensures base { tree.new.base ≡ tree.old.base }
    ensures tree { tree.new.tree ≡ tree.old.tree }
    ensures settled { IsSettled tree.new }
{
    let entries = commit.commit.proposals.as_slice();
    let committer = Sender::Member(commit.committer);
    push_entries_signatures(alloc, commit.context, committer, entries, list)?;
    push_applied_list_signatures(alloc, commit, items, tree, list)
}

/// Returns the list of proposals of a member's commit, if each reference is known.
fn resolved_items<'a>(
    alloc: Global,
    commit: &MemberCommit<'a>,
    known: &'a PendingProposals,
) -> Result<Option<Vec<ListItem<'a>>>, OutOfMemory>
    ensures { IfOk result (λ o. option_map (λ v. v.items) o
        ≡ resolved (Member commit.now.committer) known.now commit.now.commit.now.proposals) }
{
    let committer = Sender::Member(commit.committer);
    match resolve_list(alloc, commit.commit, committer, known) {
        Ok(items) => Ok(Some(items)),
        Err(Refusal::UnknownReference) => Ok(None),
        Err(Refusal::OutOfMemory) => Err(OutOfMemory),
        Err(_) => unreachable!(),
    }
}

/// Appends the signatures of a member's commit after the message's own, if each reference is known. Some that are equal to an
/// earlier one are left out.
pub(crate) fn push_commit_signatures(
    alloc: Global,
    commit: &MemberCommit<'_>,
    known: &PendingProposals,
    tree: &mut StagedTree,
    list: &mut SignatureList,
) -> Result<(), OutOfMemory>
    requires settled { IsSettled tree.old }
    requires packages { IfFresh commit.now.leaves (are_from_packages known.now ≡ true) }
    ensures signatures { OnOk result (AppendsSignatures list.old
        (list_signatures (leaves_of commit.now.leaves) commit.now.context.now tree.old.tree commit.now.committer
        commit.now.commit.now
        (resolved (Member commit.now.committer) known.now commit.now.commit.now.proposals)) list.new) }
    ensures base { tree.new.base ≡ tree.old.base }
    ensures tree { tree.new.tree ≡ tree.old.tree }
    ensures settled { IsSettled tree.new }
{
    let Some(items) = resolved_items(alloc, commit, known)? else {
        return Ok(());
    };
    let answer = push_list_signatures(alloc, commit, items.as_slice(), tree, list);
    drop(items);
    answer
}
