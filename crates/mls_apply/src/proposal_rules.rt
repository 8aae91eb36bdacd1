//! The rules for a single proposal (RFC 9420, 12.1).

ghost use Rattle.std.specs.Prelude.{◌≡◌, ◌≢◌, ◌↔◌, Some, None, Ok, Err, IfOk, IfErr, IsTrue, OnOk, false};
ghost use Rattle.mls_check.specs.Signatures.{is_signed_text};
ghost use Rattle.mls_apply.specs.ProposalRules.{is_from_key_package, is_from_update, is_package_signed};
ghost use Rattle.mls_apply.specs.ProposalRules.{fits_group, fits_leaf, fits_if_add};
ghost use Rattle.mls_apply.specs.ProposalRules.{is_valid_add, is_valid_update, is_valid_update_by, are_valid_extensions, is_valid_reinit, checked_refusal};
ghost use Rattle.mls_apply.specs.Senders.{is_present};

use crate::psk_list::is_valid_psk;
use crate::refusal::Refusal;
use crate::senders::is_present;
use mls_check::{OutOfMemory, SignatureCheck, is_leaf_signed, signed_in_pieces};
use mls_msgs::{KEY_PACKAGE_LABEL, KeyPackage, Proposal, ReInit, Sender};
use mls_nodes::{EncodedLeaf, Extensions, GroupContext, LeafSource, requirements_of};
use mls_tree::PublicTree;
use mls_wire::{CodecFault, EncodedLength};
use std::alloc::Global;

/// The context and the tree of a group in one epoch.
#[derive(Drop)]
pub struct EpochState<'a> {
    /// The context.
    pub context: &'a GroupContext,
    /// The ratchet tree.
    pub tree: &'a PublicTree,
}

/// Checks a proposal of any sender by itself, in an epoch of its group (RFC 9420, 12.1). A content that is too long to
/// sign counts as not signed.
///
/// # Errors
///
/// The first of these rules that fails, or `OutOfMemory`. Only the signature of a KeyPackage, which is checked last, and
/// required capabilities need allocations.
///
/// 1. `SenderNotMember`: the leaf of a sender that is a member is non-blank.
/// 2. `AddInvalid`: a KeyPackage is of the group's version and cipher suite, the source of its leaf node is
///    key_package, its init key is not the leaf's encryption key, and the signatures of the leaf node and of the
///    KeyPackage are good under the leaf's signature key.
/// 3. `UpdateInvalid`: the sender of an Update is a member, the source of the new leaf node is update, its encryption key
///    is not that of the sender's current leaf, and its signature, over the group id and the sender's index too, is good
///    under its own signature key.
/// 4. `RemoveInvalid`: the leaf of a Remove is non-blank.
/// 5. `ContextExtensionsInvalid`: the required capabilities of a GroupContextExtensions can be read. Whether members
///    have them is checked in the commit.
/// 6. `PskInvalid`: the nonce of a PreSharedKey has the length of the suite's hash. Its usage is neither reinit nor branch,
///    or the epoch is 0 and the sender a member.
/// 7. `ReInitInvalid`: the version of a ReInit is no less than the group's.
/// 8. `ExternalInitMisplaced`: the proposal is no ExternalInit.
#[tactic(auto, unfolding(crate::specs::ProposalRules::checked_refusal, crate::specs::ProposalRules::is_valid_remove))]
pub fn check_proposal<C: SignatureCheck>(
    alloc: Global,
    epoch: &EpochState<'_>,
    sender: Sender,
    proposal: &Proposal,
    checker: &C,
) -> Result<(), Refusal>
    ensures valid { OnOk result
        (checked_refusal (C.meaning checker.now) epoch.now.context.now epoch.now.tree.now.tree sender
        proposal.now ≡ None) }
    ensures refused { IfErr result (λ e. e ≢ Refusal.OutOfMemory
        → checked_refusal (C.meaning checker.now) epoch.now.context.now epoch.now.tree.now.tree sender
        proposal.now ≡ Some e) }
    ensures sender_not_member { (result ≡ Err Refusal.SenderNotMember)
        ↔ (checked_refusal (C.meaning checker.now) epoch.now.context.now epoch.now.tree.now.tree sender
        proposal.now ≡ Some Refusal.SenderNotMember) }
    ensures unfit_add { IsTrue (is_present epoch.now.tree.now.tree sender)
        → fits_if_add epoch.now.context.now proposal.now ≡ false
        → result ≡ Err Refusal.AddInvalid }
    ensures update_invalid { (result ≡ Err Refusal.UpdateInvalid)
        ↔ (checked_refusal (C.meaning checker.now) epoch.now.context.now epoch.now.tree.now.tree sender
        proposal.now ≡ Some Refusal.UpdateInvalid) }
    ensures remove_invalid { (result ≡ Err Refusal.RemoveInvalid)
        ↔ (checked_refusal (C.meaning checker.now) epoch.now.context.now epoch.now.tree.now.tree sender
        proposal.now ≡ Some Refusal.RemoveInvalid) }
    ensures psk_invalid { (result ≡ Err Refusal.PskInvalid)
        ↔ (checked_refusal (C.meaning checker.now) epoch.now.context.now epoch.now.tree.now.tree sender
        proposal.now ≡ Some Refusal.PskInvalid) }
    ensures reinit_invalid { (result ≡ Err Refusal.ReInitInvalid)
        ↔ (checked_refusal (C.meaning checker.now) epoch.now.context.now epoch.now.tree.now.tree sender
        proposal.now ≡ Some Refusal.ReInitInvalid) }
    ensures external_init_misplaced { (result ≡ Err Refusal.ExternalInitMisplaced)
        ↔ (checked_refusal (C.meaning checker.now) epoch.now.context.now epoch.now.tree.now.tree sender
        proposal.now ≡ Some Refusal.ExternalInitMisplaced) }
{
    if !is_present(epoch.tree, sender) {
        return Err(Refusal::SenderNotMember);
    }
    match proposal {
        Proposal::Add(key_package) => {
            if !is_valid_add(alloc, epoch.context, key_package, checker)? {
                return Err(Refusal::AddInvalid);
            }
        }
        Proposal::Update(leaf) => {
            if !is_valid_update_by(epoch, sender, leaf, checker) {
                return Err(Refusal::UpdateInvalid);
            }
        }
        Proposal::Remove(index) => {
            if epoch.tree.leaf(*index).is_none() {
                return Err(Refusal::RemoveInvalid);
            }
        }
        Proposal::ContextExtensions(extensions) => {
            if !are_valid_extensions(alloc, extensions)? {
                return Err(Refusal::ContextExtensionsInvalid);
            }
        }
        Proposal::PreSharedKey(id) => {
            if !is_valid_psk(epoch.context, sender, id) {
                return Err(Refusal::PskInvalid);
            }
        }
        Proposal::ReInit(reinit) => {
            if !is_valid_reinit(epoch.context, reinit) {
                return Err(Refusal::ReInitInvalid);
            }
        }
        Proposal::ExternalInit(_) => return Err(Refusal::ExternalInitMisplaced),
    }
    Ok(())
}

/// Returns whether the version of a ReInit is no less than the group's.
#[tactic(auto, unfolding(crate::specs::ProposalRules::is_valid_reinit))]
fn is_valid_reinit(context: &GroupContext, reinit: &ReInit) -> bool
    ensures { result ≡ is_valid_reinit context.now reinit.now }
{
    context.version <= reinit.version
}

/// Returns whether the required capabilities in extensions can be read.
#[tactic(auto, using(crate::proofs::Brought::valid_read, crate::proofs::Brought::invalid_read))]
fn are_valid_extensions(alloc: Global, extensions: &Extensions) -> Result<bool, OutOfMemory>
    ensures { IfOk result (λ valid. valid ≡ are_valid_extensions extensions.now) }
{
    match requirements_of(alloc, extensions) {
        Ok(_) => Ok(true),
        Err(CodecFault::Wire(_)) => Ok(false),
        Err(CodecFault::OutOfMemory) => Err(OutOfMemory),
    }
}

/// Returns whether the source of a leaf node is key_package (RFC 9420, 7.2).
pub fn is_from_key_package(source: &LeafSource<'_>) -> bool
    ensures { result ≡ is_from_key_package source.now }
{
    matches!(source, LeafSource::KeyPackage(_))
}

/// Returns whether the source of a leaf node is update.
fn is_from_update(source: &LeafSource<'_>) -> bool
    ensures { result ≡ is_from_update source.now }
{
    matches!(source, LeafSource::Update)
}

/// Returns whether the signature of a KeyPackage is good (RFC 9420, 10.1). The checker gets the KeyPackageTBS (10) in pieces,
/// each from where it is stored.
fn is_package_signed<C: SignatureCheck>(
    alloc: Global,
    suite: u16,
    key_package: &KeyPackage,
    checker: &C,
) -> Result<bool, OutOfMemory>
    ensures { IfOk result (λ good.
        good ≡ is_package_signed (C.meaning checker.now) suite key_package.now) }
{
    let leaf = &key_package.leaf_node;
    let version = key_package.version.to_be_bytes();
    let cipher_suite = key_package.cipher_suite.to_be_bytes();
    let init_key = key_package.init_key.as_slice();
    let init_key_len = EncodedLength::of(init_key.len());
    let extensions = key_package.extensions.encoded();
    let extensions_len = EncodedLength::of(extensions.len());
    let tbs: [&[u8]; 7] = [
        &version,
        &cipher_suite,
        init_key_len.as_slice(),
        init_key,
        leaf.encoding(),
        extensions_len.as_slice(),
        extensions,
    ];
    let key = leaf.signature_key();
    let signature = key_package.signature.as_slice();
    signed_in_pieces(
        alloc,
        checker,
        suite,
        key,
        KEY_PACKAGE_LABEL,
        &tbs,
        signature,
    )
}

/// Returns whether a KeyPackage fits a group. Signatures are not checked.
#[tactic(auto, unfolding(crate::specs::ProposalRules::fits_group))]
fn fits_group(context: &GroupContext, key_package: &KeyPackage) -> bool
    ensures { result ≡ fits_group context.now key_package.now }
{
    let leaf = &key_package.leaf_node;
    key_package.version == context.version
        && key_package.cipher_suite == context.cipher_suite
        && is_from_key_package(&leaf.source())
        && key_package.init_key.as_slice() != leaf.encryption_key()
}

/// Returns whether a KeyPackage may be added to a group. Its signatures are checked last. What is signed of its leaf
/// node has no leaf index.
#[tactic(auto, unfolding(crate::specs::ProposalRules::is_valid_add))]
fn is_valid_add<C: SignatureCheck>(
    alloc: Global,
    context: &GroupContext,
    key_package: &KeyPackage,
    checker: &C,
) -> Result<bool, OutOfMemory>
    ensures valid { IfOk result (λ valid.
        valid ≡ is_valid_add (C.meaning checker.now) context.now key_package.now) }
    ensures unfit { fits_group context.now key_package.now ≡ false → result ≡ Ok false }
{
    if !fits_group(context, key_package) {
        return Ok(false);
    }
    let leaf = &key_package.leaf_node;
    let suite = context.cipher_suite;
    if !is_leaf_signed(suite, &context.group_id, 0, leaf, checker) {
        return Ok(false);
    }
    is_package_signed(alloc, suite, key_package, checker)
}

/// Returns whether a leaf node may replace a member's current one. The signature is not checked.
#[tactic(auto, unfolding(crate::specs::ProposalRules::fits_leaf))]
fn fits_leaf(present: &EncodedLeaf, leaf: &EncodedLeaf) -> bool
    ensures { result ≡ fits_leaf (Some present.now) leaf.now }
{
    is_from_update(&leaf.source()) && leaf.encryption_key() != present.encryption_key()
}

/// A member's leaf that a proposal replaces.
#[derive(Drop)]
struct Replaced<'a> {
    sender: u32,
    present: &'a EncodedLeaf,
}

/// Returns whether a leaf node may replace a member's current one. Its signature is checked last.
#[tactic(auto, unfolding(crate::specs::ProposalRules::is_valid_update))]
fn is_valid_update<C: SignatureCheck>(
    context: &GroupContext,
    replaced: &Replaced<'_>,
    leaf: &EncodedLeaf,
    checker: &C,
) -> bool
    ensures { result ≡ is_valid_update (C.meaning checker.now) context.now replaced.now.sender
        (Some replaced.now.present.now) leaf.now }
{
    let suite = context.cipher_suite;
    fits_leaf(replaced.present, leaf)
        && is_leaf_signed(suite, &context.group_id, replaced.sender, leaf, checker)
}

/// Returns whether the leaf node of an Update of this sender is valid. Only a member can send an Update. The signature is
/// checked last.
fn is_valid_update_by<C: SignatureCheck>(
    epoch: &EpochState<'_>,
    sender: Sender,
    leaf: &EncodedLeaf,
    checker: &C,
) -> bool
    requires { IsTrue (is_present epoch.now.tree.now.tree sender) }
    ensures { result ≡ is_valid_update_by (C.meaning checker.now)
        epoch.now.context.now epoch.now.tree.now.tree sender leaf.now }
{
    let Sender::Member(sender) = sender else {
        return false;
    };
    let Some(present) = epoch.tree.leaf(sender) else {
        return false;
    };
    let replaced = Replaced { sender, present };
    is_valid_update(epoch.context, &replaced, leaf, checker)
}
