//! GroupInfos of a later epoch than that of a group that is followed (RFC 9420, 12.4.3).

ghost use Rattle.std.specs.Prelude.{◌≡◌, ◌≢◌, None, Some, IfOk, IfErr, OnOk};
ghost use Rattle.mls_tree.specs.Tree.{leaf_at};
ghost use Rattle.mls_check.specs.Signatures.{VerifyFn};
ghost use Rattle.mls_apply.specs.RuleLists.{first_failing};
ghost use Rattle.mls_signatures.specs.SignaturesToVerify.{start_signatures};
ghost use Rattle.mls_follow.specs.FollowerModel.{checker_of, state_of};
ghost use Rattle.mls_examine.specs.GroupInfos.{unaccepted};
ghost use Rattle.mls_examine.specs.LaterInfos.{IsUnfitLater, StartsTrusting, has_signature_key, is_known_signer, later_rules};
ghost use Rattle.mls_examine.specs.LaterInternal.{IsUnfitStarted, IsVouchedFor, VouchesFor};

use crate::external_pubs::has_usable_external_pub;
use crate::unaccepted_signatures::UnacceptedSignatures;
use crate::unfit::Unfit;
use mls_check::{SignatureCheck, Trusting};
use mls_follow::{Follower, StartFault};
use mls_msgs::GroupInfo;
use mls_signatures::start_signatures;
use mls_tree::PublicTree;
use mls_wire::copy_of;
use std::alloc::{AllocError, Global};

/// Returns a copy of a GroupInfo.
fn copy_of_info(alloc: Global, info: &GroupInfo) -> Result<GroupInfo, AllocError>
    ensures { IfOk result (λ copy. copy ≡ info.now) }
{
    Ok(GroupInfo {
        context: copy_of(alloc, &info.context)?,
        extensions: copy_of(alloc, &info.extensions)?,
        confirmation_tag: copy_of(alloc, &info.confirmation_tag)?,
        signer: info.signer,
        signature: copy_of(alloc, &info.signature)?,
    })
}

/// Starts a follower that accepts every signature from a GroupInfo and the tree in it, in the profile and by the strict rules of
/// another follower (RFC 9420, 12.4.3.1).
fn start_trusting<C: SignatureCheck>(
    alloc: Global,
    follower: &Follower<C>,
    info: &GroupInfo,
) -> Result<Follower<Trusting>, Unfit>
    ensures starts { IfOk result (λ new. StartsTrusting (state_of follower.now) info.now (state_of new)) }
    ensures unfit { (G : VerifyFn) → IfErr result (λ e. e ≢ Unfit.OutOfMemory
        → IsUnfitLater G (state_of follower.now) info.now e) }
{
    let (rules, profile) = (follower.rules(), follower.profile());
    let info = copy_of_info(alloc, info)?;
    match Follower::start_by(alloc, rules, profile, info, None, Trusting) {
        Ok(new) => Ok(new),
        Err(refused) => {
            let fault = refused.fault;
            drop(refused);
            match fault {
                StartFault::OutOfMemory => Err(Unfit::OutOfMemory),
                _ => Err(Unfit::StartRefused(fault)),
            }
        }
    }
}

/// Returns whether some non-blank leaf of a tree has a signature key. Time is proportional to the number of leaves.
fn has_signature_key(tree: &PublicTree, key: &[u8]) -> bool
    ensures { result ≡ has_signature_key tree.now.tree key.now }
{
    for index in 0..tree.leaf_count() {
        if let Some(leaf) = tree.leaf(index) {
            if leaf.signature_key() == key {
                return true;
            }
        }
    }
    false
}

/// Returns whether the signer with a leaf index of the tree `new` has a signature key of a tree.
fn is_known_signer(tree: &PublicTree, new: &PublicTree, signer: u32) -> bool
    ensures { result ≡ is_known_signer tree.now.tree (leaf_at 0 new.now.tree signer) }
{
    match new.leaf(signer) {
        Some(leaf) => has_signature_key(tree, leaf.signature_key()),
        None => false,
    }
}

/// Checks that the signer of a GroupInfo has a signature key of a follower's tree, and that its external_pub, if there is one, is
/// usable. `new` is the tree in the GroupInfo.
fn check_vouching<C: SignatureCheck>(
    follower: &Follower<C>,
    info: &GroupInfo,
    new: &PublicTree,
) -> Result<(), Unfit>
    ensures rules_hold { OnOk result (first_failing (later_rules (state_of follower.now) info.now new.now.tree) ≡ None) }
    ensures broken_rule { IfErr result (λ e.
        first_failing (later_rules (state_of follower.now) info.now new.now.tree) ≡ Some e) }
{
    if !is_known_signer(follower.tree(), new, info.signer) {
        return Err(Unfit::SignerUnknown);
    }
    if !has_usable_external_pub(follower, info) {
        return Err(Unfit::ExternalPubInvalid);
    }
    Ok(())
}

/// Checks what a GroupInfo must satisfy from which a follower starts if every signature is good: who vouches for it, and the
/// signatures. `new` is the tree in the GroupInfo.
fn check_started<C: SignatureCheck>(
    alloc: Global,
    follower: &Follower<C>,
    info: &GroupInfo,
    new: &PublicTree,
) -> Result<(), Unfit>
    ensures vouches { OnOk result (VouchesFor (C.meaning (checker_of follower.now)) (state_of follower.now)
        info.now new.now.tree) }
    ensures unfit { IfErr result (λ e. e ≢ Unfit.OutOfMemory
        → IsUnfitStarted (C.meaning (checker_of follower.now)) (state_of follower.now) info.now new.now.tree e) }
{
    check_vouching(follower, info, new)?;
    let list = start_signatures(alloc, info, new)?;
    let unaccepted = UnacceptedSignatures::of_list(alloc, &list, follower.checker());
    drop(list);
    let unaccepted = unaccepted?;
    if !unaccepted.is_empty() {
        return Err(Unfit::Unsigned(unaccepted));
    }
    Ok(())
}

/// Checks that a GroupInfo of a later epoch is one for which a member vouches whom a follower knows.
pub(crate) fn check_later<C: SignatureCheck>(
    alloc: Global,
    follower: &Follower<C>,
    info: &GroupInfo,
) -> Result<(), Unfit>
    ensures later { OnOk result (IsVouchedFor (C.meaning (checker_of follower.now)) (state_of follower.now) info.now) }
    ensures unfit { IfErr result (λ e. e ≢ Unfit.OutOfMemory
        → IsUnfitLater (C.meaning (checker_of follower.now)) (state_of follower.now) info.now e) }
{
    let new = start_trusting(alloc, follower, info)?;
    let answer = check_started(alloc, follower, info, new.tree());
    drop(new);
    answer
}
