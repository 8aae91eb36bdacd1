//! The rules for the proposal list of a commit (RFC 9420, 12.2 and 12.4).

ghost use Rattle.std.specs.Prelude.{◌≡◌, ◌≢◌, ◌↔◌, Some, None, Err, IfOk, IfErr, OnOk};
ghost use Rattle.std.specs.List.{list_any};
ghost use Rattle.mls_apply.specs.ListRules.{is_update_by, removes, item_target, requires_path, is_reinit, has_reinit};
ghost use Rattle.mls_apply.specs.TargetLeaves.{removed_by};
ghost use Rattle.mls_apply.specs.ListRules.{have_distinct_targets, needs_path, is_reinit_alone, list_refusal};

use crate::context_extensions::has_one_context_extensions;
use crate::list_item::ListItem;
use crate::psk_list::have_distinct_psks;
use crate::refusal::Refusal;
use crate::senders::{is_same_sender, member_index};
use mls_msgs::{Proposal, Sender};
use std::alloc::{AllocError, Global};
use std::collections::BTreeSet;

/// Checks the rules for the proposal list of a commit of this sender (RFC 9420, 12.2 and 12.4).
///
/// # Errors
///
/// The first of these rules that fails, or `OutOfMemory`. The first two are checked before anything is allocated.
///
/// 1. `UpdateByCommitter`: no Update is the committer's.
/// 2. `RemovesCommitter`: no Remove removes the committer.
/// 3. `SameLeafTwice`: no two Updates or Removes apply to one leaf. An Update of a member applies to the member's.
/// 4. `TwoContextExtensions`: there are no two GroupContextExtensions proposals.
/// 5. `PskTwice`: no two PreSharedKey proposals have the same PreSharedKeyID.
/// 6. `ReInitNotAlone`: a ReInit is the only proposal.
/// 7. `PathMissing`: the commit has a path, or its list is not empty and has only Adds, PreSharedKeys and ReInits.
#[tactic(auto, unfolding(crate::specs::ListRules::list_refusal, crate::specs::ListRules::has_no_update_by, crate::specs::ListRules::has_no_remove_of))]
pub fn check_list(
    alloc: Global,
    committer: Sender,
    items: &[ListItem<'_>],
    has_path: bool,
) -> Result<(), Refusal>
    ensures rules_hold { OnOk result (list_refusal committer items.now has_path ≡ None) }
    ensures refused { IfErr result (λ e. e ≢ Refusal.OutOfMemory
        → list_refusal committer items.now has_path ≡ Some e) }
    ensures update_by_committer { (result ≡ Err Refusal.UpdateByCommitter)
        ↔ (list_refusal committer items.now has_path ≡ Some Refusal.UpdateByCommitter) }
    ensures removes_committer { (result ≡ Err Refusal.RemovesCommitter)
        ↔ (list_refusal committer items.now has_path ≡ Some Refusal.RemovesCommitter) }
{
    if has_update_by(committer, items) {
        return Err(Refusal::UpdateByCommitter);
    }
    if has_remove_of(committer, items) {
        return Err(Refusal::RemovesCommitter);
    }
    if !have_distinct_targets(alloc, items)? {
        return Err(Refusal::SameLeafTwice);
    }
    if !has_one_context_extensions(items) {
        return Err(Refusal::TwoContextExtensions);
    }
    if !have_distinct_psks(alloc, items)? {
        return Err(Refusal::PskTwice);
    }
    if !is_reinit_alone(items) {
        return Err(Refusal::ReInitNotAlone);
    }
    if !has_path && needs_path(items) {
        return Err(Refusal::PathMissing);
    }
    Ok(())
}

/// Whether an item is an Update of this sender's.
fn is_update_by(item: &ListItem<'_>, committer: Sender) -> bool
    ensures { result ≡ is_update_by committer item.now.sender item.now.proposal }
{
    match item.proposal {
        Proposal::Update(_) => is_same_sender(item.sender, committer),
        Proposal::Add(_) => false,
        Proposal::Remove(_) => false,
        Proposal::ContextExtensions(_) => false,
        Proposal::PreSharedKey(_) => false,
        Proposal::ReInit(_) => false,
        Proposal::ExternalInit(_) => false,
    }
}

/// The leaf that an item removes.
pub(crate) fn removed_leaf(item: &ListItem<'_>) -> Option<u32>
    ensures { result ≡ removed_by item.now }
{
    match item.proposal {
        Proposal::Remove(leaf) => Some(*leaf),
        Proposal::Add(_) => None,
        Proposal::Update(_) => None,
        Proposal::ContextExtensions(_) => None,
        Proposal::PreSharedKey(_) => None,
        Proposal::ReInit(_) => None,
        Proposal::ExternalInit(_) => None,
    }
}

/// Whether an item is a Remove of this sender, who is a member.
fn is_remove_of(item: &ListItem<'_>, committer: Sender) -> bool
    ensures { result ≡ removes committer item.now.proposal }
{
    let Sender::Member(member) = committer else {
        return false;
    };
    match removed_leaf(item) {
        Some(leaf) => leaf == member,
        None => false,
    }
}

/// The leaf that an item replaces or removes.
pub(crate) fn target_leaf(item: &ListItem<'_>) -> Option<u32>
    ensures { result ≡ item_target item.now }
{
    match item.proposal {
        Proposal::Add(_) => None,
        Proposal::Update(_) => member_index(item.sender),
        Proposal::Remove(leaf) => Some(*leaf),
        Proposal::ContextExtensions(_) => None,
        Proposal::PreSharedKey(_) => None,
        Proposal::ReInit(_) => None,
        Proposal::ExternalInit(_) => None,
    }
}

/// Whether some Update is this sender's own.
fn has_update_by(committer: Sender, items: &[ListItem<'_>]) -> bool
    ensures { result ≡ list_any (λ x. is_update_by committer x.sender x.proposal) items.now }
{
    items.iter().any(|item| is_update_by(item, committer))
}

/// Whether some Remove removes this sender.
fn has_remove_of(committer: Sender, items: &[ListItem<'_>]) -> bool
    ensures { result ≡ list_any (λ x. removes committer x.proposal) items.now }
{
    items.iter().any(|item| is_remove_of(item, committer))
}

/// Whether no two Updates or Removes apply to one leaf.
fn have_distinct_targets(alloc: Global, items: &[ListItem<'_>]) -> Result<bool, AllocError>
    ensures { IfOk result (λ once. once ≡ have_distinct_targets items.now) }
{
    let mut concerned = BTreeSet::new(alloc);
    for item in items {
        if let Some(leaf) = target_leaf(item) {
            if !concerned.insert(leaf)? {
                return Ok(false);
            }
        }
    }
    Ok(true)
}

/// Whether an item requires a path (RFC 9420, 17.4).
fn requires_path(item: &ListItem<'_>) -> bool
    ensures { result ≡ requires_path item.now.proposal }
{
    match item.proposal {
        Proposal::Add(_) => false,
        Proposal::Update(_) => true,
        Proposal::Remove(_) => true,
        Proposal::ContextExtensions(_) => true,
        Proposal::PreSharedKey(_) => false,
        Proposal::ReInit(_) => false,
        Proposal::ExternalInit(_) => true,
    }
}

/// Whether some item requires a path.
fn some_requires_path(items: &[ListItem<'_>]) -> bool
    ensures { result ≡ list_any (λ x. requires_path x.proposal) items.now }
{
    items.iter().any(|item| requires_path(item))
}

/// Returns whether a commit with this list needs a path.
#[tactic(auto, unfolding(crate::specs::ListRules::needs_path))]
fn needs_path(items: &[ListItem<'_>]) -> bool
    ensures { result ≡ needs_path items.now }
{
    items.is_empty() || some_requires_path(items)
}

/// Whether an item is a ReInit.
fn is_reinit(item: &ListItem<'_>) -> bool
    ensures { result ≡ is_reinit item.now.proposal }
{
    match item.proposal {
        Proposal::Add(_) => false,
        Proposal::Update(_) => false,
        Proposal::Remove(_) => false,
        Proposal::ContextExtensions(_) => false,
        Proposal::PreSharedKey(_) => false,
        Proposal::ReInit(_) => true,
        Proposal::ExternalInit(_) => false,
    }
}

/// Returns whether a list has a ReInit (RFC 9420, 12.1.5).
pub fn has_reinit(items: &[ListItem<'_>]) -> bool
    ensures { result ≡ has_reinit items.now }
{
    items.iter().any(|item| is_reinit(item))
}

/// Returns whether a ReInit of a list, if there is one, is its only proposal.
#[tactic(auto, unfolding(crate::specs::ListRules::is_reinit_alone))]
fn is_reinit_alone(items: &[ListItem<'_>]) -> bool
    ensures { result ≡ is_reinit_alone items.now }
{
    !has_reinit(items) || items.len() == 1
}
