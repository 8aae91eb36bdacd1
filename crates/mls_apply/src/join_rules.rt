//! The rules for the proposal list of an external commit (RFC 9420, 12.2 and 12.4.3.2).

ghost use Rattle.std.specs.Prelude.{◌≡◌, ◌≢◌, ◌↔◌, Some, None, Err, IfOk, IfErr, OnOk, option_copied};
ghost use Rattle.std.specs.List.{list_all};
ghost use Rattle.mls_nodes.specs.Layout.{credential};
ghost use Rattle.mls_nodes.specs.StoredLeaf.{IsAfterKeys};
ghost use Rattle.mls_msgs.specs.declared.framed_content.Sender.TheVariants.{NewMemberCommit};
ghost use Rattle.mls_apply.specs.JoinRules.{all_items, is_external_init, is_join_list, is_join_proposal, is_remove, is_same_credential, is_successor, is_successor_if_non_blank, is_value, join_items, join_refusal, valid_if_resync, value_count};
ghost use Rattle.mls_apply.specs.ProposalRules.{valid_if_psk, valid_if_remove};

use crate::list_item::ListItem;
use crate::proposal_rules::EpochState;
use crate::psk_list::{have_distinct_psks, is_valid_psk};
use crate::refusal::Refusal;
use mls_msgs::{Commit, Proposal, ProposalOrRef, Sender};
use mls_nodes::{EncodedLeaf, GroupContext};
use mls_tree::PublicTree;
use mls_wire::{OpaqueRef, Reader, parse_u16};
use std::alloc::{AllocError, Global};

/// Checks the rules for an external commit before its list is applied: there is a path, and the proposal list satisfies its
/// rules (RFC 9420, 12.2 and 12.4.3.2). `epoch` has the context and the tree before the commit.
///
/// # Errors
///
/// The first of these rules that fails, or `OutOfMemory`. The first two are checked without an allocation.
///
/// 1. `PathMissing`: the commit has a path.
/// 2. `JoinList`: the list has no reference. It has one ExternalInit, at most one Remove, and otherwise only PreSharedKeys.
/// 3. `RemoveInvalid`: the leaf of the Remove is non-blank.
/// 4. `PskInvalid`: the nonce of each PreSharedKey has the length of the suite's hash, and its usage is application, if it
///    is a resumption PSK.
/// 5. `PskTwice`: no two PreSharedKeys have the same PreSharedKeyID.
/// 6. `ResyncInvalid`: the leaf of the Remove has another encryption key than the path's leaf, and its credential or its
///    signature key.
#[tactic(auto, unfolding(crate::specs::JoinRules::join_refusal), using(crate::proofs::JoinRefusals::not_path_missing, crate::proofs::JoinRefusals::not_join_list))]
pub fn check_join(alloc: Global, epoch: &EpochState<'_>, commit: &Commit) -> Result<(), Refusal>
    ensures rules_hold { OnOk result
        (join_refusal epoch.now.context.now epoch.now.tree.now.tree commit.now ≡ None) }
    ensures refused { IfErr result (λ e. e ≢ Refusal.OutOfMemory
        → join_refusal epoch.now.context.now epoch.now.tree.now.tree commit.now ≡ Some e) }
    ensures path_missing { (result ≡ Err Refusal.PathMissing)
        ↔ (join_refusal epoch.now.context.now epoch.now.tree.now.tree commit.now ≡ Some Refusal.PathMissing) }
    ensures join_list { (result ≡ Err Refusal.JoinList)
        ↔ (join_refusal epoch.now.context.now epoch.now.tree.now.tree commit.now ≡ Some Refusal.JoinList) }
{
    let Some(path) = &commit.path else {
        return Err(Refusal::PathMissing);
    };
    let entries = commit.proposals.as_slice();
    if !is_join_list(entries) {
        return Err(Refusal::JoinList);
    }
    let items = join_items(alloc, entries)?;
    if !are_valid_removes(epoch.tree, items.as_slice()) {
        return Err(Refusal::RemoveInvalid);
    }
    if !are_valid_psks(epoch.context, items.as_slice()) {
        return Err(Refusal::PskInvalid);
    }
    if !have_distinct_psks(alloc, items.as_slice())? {
        return Err(Refusal::PskTwice);
    }
    if !are_valid_resyncs(epoch.tree, &path.leaf_node, items.as_slice()) {
        return Err(Refusal::ResyncInvalid);
    }
    Ok(())
}

/// Returns whether an external commit may have the proposal (RFC 9420, 12.2).
fn is_join_proposal(proposal: &Proposal) -> bool
    ensures { result ≡ is_join_proposal proposal.now }
{
    match proposal {
        Proposal::Add(_) => false,
        Proposal::Update(_) => false,
        Proposal::Remove(_) => true,
        Proposal::ContextExtensions(_) => false,
        Proposal::PreSharedKey(_) => true,
        Proposal::ReInit(_) => false,
        Proposal::ExternalInit(_) => true,
    }
}

/// Returns whether a proposal is an ExternalInit (RFC 9420, 12.1.6).
fn is_external_init(proposal: &Proposal) -> bool
    ensures { result ≡ is_external_init proposal.now }
{
    match proposal {
        Proposal::Add(_) => false,
        Proposal::Update(_) => false,
        Proposal::Remove(_) => false,
        Proposal::ContextExtensions(_) => false,
        Proposal::PreSharedKey(_) => false,
        Proposal::ReInit(_) => false,
        Proposal::ExternalInit(_) => true,
    }
}

/// Returns whether a proposal is a Remove (RFC 9420, 12.1.3).
fn is_remove(proposal: &Proposal) -> bool
    ensures { result ≡ is_remove proposal.now }
{
    match proposal {
        Proposal::Add(_) => false,
        Proposal::Update(_) => false,
        Proposal::Remove(_) => true,
        Proposal::ContextExtensions(_) => false,
        Proposal::PreSharedKey(_) => false,
        Proposal::ReInit(_) => false,
        Proposal::ExternalInit(_) => false,
    }
}

/// Returns whether an entry is a proposal by value that an external commit may have.
fn is_join_entry(entry: &ProposalOrRef) -> bool
    ensures { result ≡ is_value is_join_proposal entry.now }
{
    match entry {
        ProposalOrRef::Proposal(proposal) => is_join_proposal(proposal),
        ProposalOrRef::Reference(_) => false,
    }
}

/// Returns whether an entry is an ExternalInit by value.
fn is_init_entry(entry: &ProposalOrRef) -> bool
    ensures { result ≡ is_value is_external_init entry.now }
{
    match entry {
        ProposalOrRef::Proposal(proposal) => is_external_init(proposal),
        ProposalOrRef::Reference(_) => false,
    }
}

/// Returns whether an entry is a Remove by value.
fn is_remove_entry(entry: &ProposalOrRef) -> bool
    ensures { result ≡ is_value is_remove entry.now }
{
    match entry {
        ProposalOrRef::Proposal(proposal) => is_remove(proposal),
        ProposalOrRef::Reference(_) => false,
    }
}

/// Returns whether each entry is a proposal by value that an external commit may have.
fn are_join_entries(entries: &[ProposalOrRef]) -> bool
    ensures { result ≡ list_all (is_value is_join_proposal) entries.now }
{
    entries.iter().all(|entry| is_join_entry(entry))
}

/// Returns how many entries are ExternalInits by value.
fn init_count(entries: &[ProposalOrRef]) -> usize
    ensures { result ≡ value_count is_external_init entries.now }
{
    entries.iter().filter(|&entry| is_init_entry(entry)).count()
}

/// Returns how many entries are Removes by value.
fn remove_count(entries: &[ProposalOrRef]) -> usize
    ensures { result ≡ value_count is_remove entries.now }
{
    entries
        .iter()
        .filter(|&entry| is_remove_entry(entry))
        .count()
}

/// Returns whether a proposal list is one of an external commit (RFC 9420, 12.2 and 12.4.3.2). It has no reference. It has
/// one ExternalInit, at most one Remove, any number of PreSharedKeys, and no other proposal, in any order.
#[tactic(auto, unfolding(crate::specs::JoinRules::is_join_list))]
pub fn is_join_list(entries: &[ProposalOrRef]) -> bool
    ensures { result ≡ is_join_list entries.now }
{
    are_join_entries(entries) && init_count(entries) == 1 && remove_count(entries) <= 1
}

/// Returns the proposals that an external commit includes by value, in their order, each with the sender of the commit.
pub fn join_items<'a>(
    alloc: Global,
    entries: &'a [ProposalOrRef],
) -> Result<Vec<ListItem<'a>>, AllocError>
    ensures { IfOk result (λ items. items.items ≡ join_items entries.now) }
{
    let mut items = Vec::new(alloc);
    for entry in entries {
        if let ProposalOrRef::Proposal(proposal) = entry {
            items.push(ListItem::new(Sender::NewMemberCommit, proposal))?;
        }
    }
    Ok(items)
}

/// Returns whether the leaf of a proposal is non-blank, if it is a Remove.
#[tactic(auto, unfolding(crate::specs::ProposalRules::is_valid_remove))]
fn is_valid_if_remove(tree: &PublicTree, proposal: &Proposal) -> bool
    ensures { result ≡ valid_if_remove tree.now.tree proposal.now }
{
    match proposal {
        Proposal::Add(_) => true,
        Proposal::Update(_) => true,
        Proposal::Remove(index) => tree.leaf(*index).is_some(),
        Proposal::ContextExtensions(_) => true,
        Proposal::PreSharedKey(_) => true,
        Proposal::ReInit(_) => true,
        Proposal::ExternalInit(_) => true,
    }
}

/// Returns whether a proposal is valid from the sender of an external commit, if it is a PreSharedKey.
fn is_valid_if_psk(context: &GroupContext, proposal: &Proposal) -> bool
    ensures { result ≡ valid_if_psk context.now NewMemberCommit proposal.now }
{
    match proposal {
        Proposal::Add(_) => true,
        Proposal::Update(_) => true,
        Proposal::Remove(_) => true,
        Proposal::ContextExtensions(_) => true,
        Proposal::PreSharedKey(id) => is_valid_psk(context, Sender::NewMemberCommit, id),
        Proposal::ReInit(_) => true,
        Proposal::ExternalInit(_) => true,
    }
}

/// Returns whether the leaf of each Remove is non-blank.
fn are_valid_removes(tree: &PublicTree, items: &[ListItem<'_>]) -> bool
    ensures { result ≡ all_items (valid_if_remove tree.now.tree) items.now }
{
    items
        .iter()
        .all(|item| is_valid_if_remove(tree, item.proposal))
}

/// Returns whether each PreSharedKey is valid from the sender of an external commit.
fn are_valid_psks(context: &GroupContext, items: &[ListItem<'_>]) -> bool
    ensures { result ≡ all_items (valid_if_psk context.now NewMemberCommit) items.now }
{
    items
        .iter()
        .all(|item| is_valid_if_psk(context, item.proposal))
}

/// Returns a reader of what follows the two keys of a leaf node: its credential first.
fn after_keys(leaf: &EncodedLeaf) -> Reader<'_>
    ensures { IsAfterKeys leaf.now result }
{
    let mut reader = Reader::new(leaf.encoding());
    let Ok(_) = OpaqueRef::parse(&mut reader) else {
        unreachable!();
    };
    let Ok(_) = OpaqueRef::parse(&mut reader) else {
        unreachable!();
    };
    reader
}

/// Returns the bytes that encode the credential of a leaf node. No certificate is read: the body of each credential is a
/// vector (RFC 9420, 5.3).
fn credential_bytes(leaf: &EncodedLeaf) -> &[u8]
    ensures { credential leaf.now.credential ≡ Some result.now }
{
    let mut reader = after_keys(leaf);
    let bytes = reader.left();
    let Ok(_) = parse_u16(&mut reader) else {
        unreachable!();
    };
    let Ok(_) = OpaqueRef::parse(&mut reader) else {
        unreachable!();
    };
    &bytes[..bytes.len() - reader.left().len()]
}

/// Returns whether two leaf nodes have equal credentials. Their encodings are compared: first the lengths, then the bytes up to
/// the first that differs.
fn have_same_credential(old: &EncodedLeaf, leaf: &EncodedLeaf) -> bool
    ensures { result ≡ is_same_credential old.now.credential leaf.now.credential }
{
    credential_bytes(old) == credential_bytes(leaf)
}

/// Returns whether a leaf node may replace a removed one. Its encryption key differs, and its signature key or its
/// credential is equal.
fn is_successor(old: &EncodedLeaf, leaf: &EncodedLeaf) -> bool
    ensures { result ≡ is_successor old.now leaf.now }
{
    old.encryption_key() != leaf.encryption_key()
        && (old.signature_key() == leaf.signature_key() || have_same_credential(old, leaf))
}

/// Returns whether a leaf node may replace a removed one, if that is non-blank.
fn is_successor_if_non_blank(old: Option<&EncodedLeaf>, leaf: &EncodedLeaf) -> bool
    ensures { result ≡ is_successor_if_non_blank (option_copied old.entry) leaf.now }
{
    match old {
        Some(old) => is_successor(old, leaf),
        None => true,
    }
}

/// Returns whether a leaf node may replace the leaf of a proposal, if it is a Remove.
fn is_valid_if_resync(tree: &PublicTree, leaf: &EncodedLeaf, proposal: &Proposal) -> bool
    ensures { result ≡ valid_if_resync tree.now.tree leaf.now proposal.now }
{
    match proposal {
        Proposal::Add(_) => true,
        Proposal::Update(_) => true,
        Proposal::Remove(index) => is_successor_if_non_blank(tree.leaf(*index), leaf),
        Proposal::ContextExtensions(_) => true,
        Proposal::PreSharedKey(_) => true,
        Proposal::ReInit(_) => true,
        Proposal::ExternalInit(_) => true,
    }
}

/// Returns whether a leaf node may replace the leaf of each Remove.
fn are_valid_resyncs(tree: &PublicTree, leaf: &EncodedLeaf, items: &[ListItem<'_>]) -> bool
    ensures { result ≡ all_items (valid_if_resync tree.now.tree leaf.now) items.now }
{
    items
        .iter()
        .all(|item| is_valid_if_resync(tree, leaf, item.proposal))
}
