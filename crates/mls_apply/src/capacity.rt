//! Whether a tree has capacity for the Adds of a proposal list (RFC 9420, 12.3), before anything is allocated.
//!
//! How many members are left after the list's Removes is known from its length alone, unless it removes a leaf that is
//! blank when the Remove is applied: one that is blank, or the same one twice. To find a leaf that is removed twice
//! without memory, the list is gone through once for each window of leaves, with a flag for each leaf of the window.

ghost use Rattle.std.specs.Prelude.{◌≡◌, ◌≤◌, ◌<◌, ◌+◌, ◌↔◌, ℕ, IsTrue, true, Some, length};
ghost use Rattle.mls_nodes.specs.Limits.{leaf_limit};
ghost use Rattle.mls_tree.specs.Tree.{member_count};
ghost use Rattle.mls_apply.specs.AddSteps.{is_add};
ghost use Rattle.mls_apply.specs.ListRules.{maps_to, maps_once};
ghost use Rattle.mls_apply.specs.AppliedList.{new_members, ExceedsCapacity};
ghost use Rattle.mls_apply.specs.TargetLeaves.{removed_by, removed_leaves, removed_in, is_non_blank_if_some, updates_non_blank_leaf, target_non_blank_leaves};

use crate::list_item::ListItem;
use crate::list_rules::removed_leaf;
use crate::senders::sender_leaf;
use mls_msgs::Proposal;
use mls_tree::PublicTree;

/// The most members of a group.
const MAX_MEMBERS: usize = 1_048_576;

/// The number of leaves in a window.
const WINDOW: usize = 65_536;

/// Whether an item is an Add.
fn is_add(item: &ListItem<'_>) -> bool
    ensures { result ≡ is_add item.now.proposal }
{
    match item.proposal {
        Proposal::Add(_) => true,
        Proposal::Update(_) => false,
        Proposal::Remove(_) => false,
        Proposal::ContextExtensions(_) => false,
        Proposal::PreSharedKey(_) => false,
        Proposal::ReInit(_) => false,
        Proposal::ExternalInit(_) => false,
    }
}

/// How many items are Adds.
fn add_count(items: &[ListItem<'_>]) -> usize
    ensures { result ≡ length (new_members items.now) }
{
    let mut count = 0;
    for item in items {
        if is_add(item) {
            count += 1;
        }
    }
    count
}

/// How many items are Removes.
fn remove_count(items: &[ListItem<'_>]) -> usize
    ensures { result ≡ length (removed_leaves items.now) }
{
    let mut count = 0;
    for item in items {
        if removed_leaf(item).is_some() {
            count += 1;
        }
    }
    count
}

/// Whether the members and the Adds of a list are more than there may be members and than its Removes.
fn exceeds_member_limit(tree: &PublicTree, items: &[ListItem<'_>]) -> bool
    ensures { let members = member_count tree.now.tree in
        IsTrue result ↔ (leaf_limit + length (removed_leaves items.now)
        < members + length (new_members items.now)) }
{
    let added = add_count(items);
    let removed = remove_count(items);
    if added <= removed {
        return false;
    }
    let members = tree.member_count() as usize;
    added - removed > MAX_MEMBERS - members
}

/// Whether the leaf that an item removes is set in a tree, if there is one.
fn is_removed_non_blank(tree: &PublicTree, item: &ListItem<'_>) -> bool
    ensures { result ≡ is_non_blank_if_some tree.now.tree (removed_by item.now) }
{
    match removed_leaf(item) {
        Some(leaf) => tree.leaf(leaf).is_some(),
        None => true,
    }
}

/// Whether the sender of an item is a member whose leaf is non-blank in a tree, if the item is an Update.
fn updates_non_blank_leaf(tree: &PublicTree, item: &ListItem<'_>) -> bool
    ensures { result ≡ updates_non_blank_leaf tree.now.tree item.now.sender item.now.proposal }
{
    match item.proposal {
        Proposal::Add(_) => true,
        Proposal::Update(_) => sender_leaf(tree, item.sender).is_some(),
        Proposal::Remove(_) => true,
        Proposal::ContextExtensions(_) => true,
        Proposal::PreSharedKey(_) => true,
        Proposal::ReInit(_) => true,
        Proposal::ExternalInit(_) => true,
    }
}

/// Whether the leaf of each Update and of each Remove is set in a tree.
fn are_targets_non_blank(tree: &PublicTree, items: &[ListItem<'_>]) -> bool
    ensures { result ≡ target_non_blank_leaves tree.now.tree items.now }
{
    items.iter().all(|item| updates_non_blank_leaf(tree, item) && is_removed_non_blank(tree, item))
}

/// The number that the leaf which an item removes has in the window from `first` on, if it is one of its leaves.
fn removed_in(item: &ListItem<'_>, first: usize) -> Option<usize>
    ensures { result ≡ removed_in first item.now }
{
    let leaf = removed_leaf(item)? as usize;
    if leaf < first || leaf - first >= WINDOW {
        return None;
    }
    Some(leaf - first)
}

/// Whether no leaf of the window from `first` on is removed twice.
fn is_removed_once_in(items: &[ListItem<'_>], first: usize) -> bool
    ensures { result ≡ maps_once (removed_in first) items.now }
{
    let mut removed = [false; WINDOW];
    for item in items {
        if let Some(number) = removed_in(item, first) {
            if removed[number] {
                return false;
            }
            removed[number] = true;
        }
    }
    true
}

/// Whether no leaf is removed twice. Each that is removed may be one of a tree's.
fn is_removed_once(items: &[ListItem<'_>]) -> bool
    requires { (i : ℕ) → maps_to removed_by items.now (Some i) ≡ true → i < leaf_limit }
    ensures { result ≡ maps_once removed_by items.now }
{
    for window in 0..MAX_MEMBERS / WINDOW {
        if !is_removed_once_in(items, window * WINDOW) {
            return false;
        }
    }
    true
}

/// Returns whether the Updates and the Removes of a list can be applied to a tree, and the Adds then exceed its
/// capacity. Does not allocate.
pub(crate) fn exceeds_capacity(tree: &PublicTree, items: &[ListItem<'_>]) -> bool
    ensures { IsTrue result ↔ ExceedsCapacity items.now tree.now.tree }
{
    if !exceeds_member_limit(tree, items) {
        return false;
    }
    if !are_targets_non_blank(tree, items) {
        return false;
    }
    is_removed_once(items)
}
