//! GroupInfos of the present epoch of a group that is followed (RFC 9420, 12.4.3 and 12.4.3.2).

ghost use Rattle.std.specs.Prelude.{◌≡◌, ◌≢◌, ◌==◌, true, None, Some, IsSome, IfOk, IfErr, OnOk, length, map};
ghost use Rattle.mls_nodes.specs.Requirements.{extension_of};
ghost use Rattle.mls_nodes.specs.NodeValues.{entry_value};
ghost use Rattle.mls_nodes.specs.RatchetTreeEncoding.{full_size, ratchet_tree, trimmed};
ghost use Rattle.mls_tree.specs.Tree.{leaf_at, listing};
ghost use Rattle.mls_strict.specs.ExtensionLists.{if_there};
ghost use Rattle.mls_apply.specs.RuleLists.{first_failing};
ghost use Rattle.mls_follow.specs.FollowerModel.{checker_of, state_of};
ghost use Rattle.mls_follow.specs.Start.{info_interim};
ghost use Rattle.mls_examine.specs.CurrentInfos.{IsUnfitCurrent, context_rules, current_fault, each_once_met, encodes_tree, epoch_rules, has_bytes, has_content, have_same_extensions, is_signed_by, part_rules, tag_length_met};
ghost use Rattle.mls_examine.specs.CurrentInternal.{IsUnfitSignature};

use crate::external_pubs::has_usable_external_pub;
use crate::unaccepted_signatures::UnacceptedSignatures;
use crate::unfit::Unfit;
use mls_check::{OutOfMemory, SignatureCheck};
use mls_follow::{Follower, interim_hash};
use mls_msgs::{GroupInfo, StrictRule};
use mls_nodes::{
    Extensions, Node, NodeFault, encode_ratchet_tree, find_extension, full_size_of, trimmed_entries,
};
use mls_signatures::info_signatures;
use mls_strict::has_each_once;
use mls_tree::PublicTree;
use mls_wire::MAX_INPUT;
use std::alloc::Global;

/// The extension type of a ratchet_tree (RFC 9420, 12.4.3.3).
const RATCHET_TREE: u16 = 2;

/// Returns whether two lists have the same extensions, in one order.
fn have_same_extensions(one: &Extensions, other: &Extensions) -> bool
    ensures { result ≡ have_same_extensions one.now other.now }
{
    one.is_same(other)
}

/// Checks that tree hash, confirmed transcript hash and extensions in the GroupContext of a GroupInfo are those of a follower
/// (RFC 9420, 8.1).
fn check_context<C: SignatureCheck>(follower: &Follower<C>, info: &GroupInfo) -> Result<(), Unfit>
    ensures rules_hold { OnOk result (first_failing (context_rules (state_of follower.now) info.now) ≡ None) }
    ensures broken_rule { IfErr result (λ e.
        first_failing (context_rules (state_of follower.now) info.now) ≡ Some e) }
{
    let (own, context) = (&info.context, follower.context());
    if own.tree_hash.as_slice() != context.tree_hash.as_slice() {
        return Err(Unfit::TreeHashDiffers);
    }
    if own.confirmed.as_slice() != context.confirmed.as_slice() {
        return Err(Unfit::ConfirmedDiffers);
    }
    if !have_same_extensions(&own.extensions, &context.extensions) {
        return Err(Unfit::ExtensionsDiffer);
    }
    Ok(())
}

/// Returns whether bytes are the encoding of the entries of a tree, which is made for that.
fn are_entries(alloc: Global, nodes: &[Option<Node>], bytes: &[u8]) -> Result<bool, OutOfMemory>
    ensures { IfOk result (λ same. same
        ≡ has_bytes (ratchet_tree (trimmed (map entry_value nodes.now))) bytes.now) }
{
    match encode_ratchet_tree(alloc, nodes) {
        Ok(encoding) => Ok(encoding.as_slice() == bytes),
        Err(NodeFault::OutOfMemory) => Err(OutOfMemory),
        Err(_) => Ok(false),
    }
}

/// Returns whether a tree is the least full one with its non-blank nodes, as one that is decoded is (RFC 9420, Appendix C).
fn is_least(tree: &PublicTree) -> bool
    ensures { let entries = listing tree.now.tree in
        result ≡ (full_size (length (trimmed entries)) == length entries) }
{
    let nodes = tree.nodes();
    let count = trimmed_entries(nodes).len();
    full_size_of(count) == nodes.len()
}

/// Returns whether bytes are the encoding of a tree, within the limit of an input (RFC 9420, 12.4.3.3).
fn encodes_tree(alloc: Global, tree: &PublicTree, bytes: &[u8]) -> Result<bool, OutOfMemory>
    ensures { IfOk result (λ same. same ≡ encodes_tree tree.now.tree bytes.now) }
{
    if bytes.len() > MAX_INPUT {
        return Ok(false);
    }
    if !is_least(tree) {
        return Ok(false);
    }
    are_entries(alloc, tree.nodes(), bytes)
}

/// Returns whether the first ratchet_tree of a GroupInfo, if there is one, is the encoding of a tree (RFC 9420, 12.4.3.3).
fn has_tree(alloc: Global, tree: &PublicTree, info: &GroupInfo) -> Result<bool, OutOfMemory>
    ensures { IfOk result (λ same. same
        ≡ if_there (encodes_tree tree.now.tree) (extension_of 2 info.now.extensions)) }
{
    match find_extension(&info.extensions, RATCHET_TREE) {
        Some(body) => encodes_tree(alloc, tree, body),
        None => Ok(true),
    }
}

/// Returns whether the confirmation tag of a GroupInfo leads to the interim transcript hash of a follower (RFC 9420, 8.2).
fn leads_to_interim<C: SignatureCheck>(
    alloc: Global,
    follower: &Follower<C>,
    info: &GroupInfo,
) -> Result<bool, OutOfMemory>
    requires { info.now.context.cipher_suite ≡ (state_of follower.now).context.cipher_suite }
    ensures { IfOk result (λ same. same ≡ has_bytes (info_interim info.now) (state_of follower.now).interim) }
{
    let confirmed = info.context.confirmed.as_slice();
    let interim = interim_hash(alloc, follower.suite(), confirmed, &info.confirmation_tag)?;
    Ok(interim.as_slice() == follower.interim().as_slice())
}

/// Checks that the confirmation tag of a GroupInfo leads to the interim transcript hash of a follower (RFC 9420, 8.2), that its
/// signer is a member, and that its ratchet_tree, if there is one, is the follower's (12.4.3.3).
fn check_epoch<C: SignatureCheck>(
    alloc: Global,
    follower: &Follower<C>,
    info: &GroupInfo,
) -> Result<(), Unfit>
    requires { info.now.context.cipher_suite ≡ (state_of follower.now).context.cipher_suite }
    ensures rules_hold { OnOk result (first_failing (epoch_rules (state_of follower.now) info.now) ≡ None) }
    ensures broken_rule { IfErr result (λ e. e ≢ Unfit.OutOfMemory
        → first_failing (epoch_rules (state_of follower.now) info.now) ≡ Some e) }
{
    if !leads_to_interim(alloc, follower, info)? {
        return Err(Unfit::TagDiffers);
    }
    let tree = follower.tree();
    if tree.leaf(info.signer).is_none() {
        return Err(Unfit::SignerNotMember);
    }
    if !has_tree(alloc, tree, info)? {
        return Err(Unfit::TreeDiffers);
    }
    Ok(())
}

/// Returns whether a GroupInfo meets the strict rule 40, if a follower has it: its confirmation tag has the length of a hash (RFC
/// 9420, 6.1 and 17.1).
fn has_tag_length<C: SignatureCheck>(follower: &Follower<C>, info: &GroupInfo) -> bool
    requires { info.now.context.cipher_suite ≡ (state_of follower.now).context.cipher_suite }
    ensures { result ≡ tag_length_met (state_of follower.now).rules info.now }
{
    let length = usize::from(follower.suite().hash_length());
    !follower.rules().has(40) || info.confirmation_tag.as_slice().len() == length
}

/// Returns whether a GroupInfo meets the strict rule 41, if a follower has it: no two of its extensions are of one type (RFC 9420,
/// 13.4).
fn has_extensions_once<C: SignatureCheck>(follower: &Follower<C>, info: &GroupInfo) -> bool
    ensures { result ≡ each_once_met (state_of follower.now).rules info.now }
{
    !follower.rules().has(41) || has_each_once(&info.extensions)
}

/// Checks that the external_pub of a GroupInfo, if there is one, is usable (RFC 9420, 12.4.3.2), and that it meets the strict
/// rules 40 and 41 of a follower.
fn check_parts<C: SignatureCheck>(follower: &Follower<C>, info: &GroupInfo) -> Result<(), Unfit>
    requires { info.now.context.cipher_suite ≡ (state_of follower.now).context.cipher_suite }
    ensures rules_hold { OnOk result (first_failing (part_rules (state_of follower.now) info.now) ≡ None) }
    ensures broken_rule { IfErr result (λ e.
        first_failing (part_rules (state_of follower.now) info.now) ≡ Some e) }
{
    if !has_usable_external_pub(follower, info) {
        return Err(Unfit::ExternalPubInvalid);
    }
    if !has_tag_length(follower, info) {
        return Err(Unfit::Strict(StrictRule::TagLength));
    }
    if !has_extensions_once(follower, info) {
        return Err(Unfit::Strict(StrictRule::ExtensionRepeated));
    }
    Ok(())
}

/// Checks that what is signed of a GroupInfo has an encoding, and that its signature is good under the leaf of its signer (RFC
/// 9420, 12.4.3).
fn check_signature<C: SignatureCheck>(
    alloc: Global,
    follower: &Follower<C>,
    info: &GroupInfo,
) -> Result<(), Unfit>
    requires { IsSome (leaf_at 0 (state_of follower.now).tree info.now.signer) }
    ensures content { OnOk result (has_content info.now ≡ true) }
    ensures signed { OnOk result (is_signed_by (C.meaning (checker_of follower.now)) info.now
        (leaf_at 0 (state_of follower.now).tree info.now.signer) ≡ true) }
    ensures unfit { IfErr result (λ e. e ≢ Unfit.OutOfMemory
        → IsUnfitSignature (C.meaning (checker_of follower.now)) (state_of follower.now) info.now e) }
{
    let signatures = info_signatures(alloc, info, follower.tree())?;
    if signatures.is_empty() {
        return Err(Unfit::Malformed);
    }
    let unaccepted = UnacceptedSignatures::among(signatures, follower.checker());
    if !unaccepted.is_empty() {
        return Err(Unfit::Unsigned(unaccepted));
    }
    Ok(())
}

/// Checks that a GroupInfo of the present epoch is one of the group of a follower: that a client which starts from it is where the
/// follower is.
pub(crate) fn check_current<C: SignatureCheck>(
    alloc: Global,
    follower: &Follower<C>,
    info: &GroupInfo,
) -> Result<(), Unfit>
    requires { info.now.context.cipher_suite ≡ (state_of follower.now).context.cipher_suite }
    ensures no_fault { OnOk result (current_fault (state_of follower.now) info.now ≡ None) }
    ensures signed { OnOk result (is_signed_by (C.meaning (checker_of follower.now)) info.now
        (leaf_at 0 (state_of follower.now).tree info.now.signer) ≡ true) }
    ensures unfit { IfErr result (λ e. e ≢ Unfit.OutOfMemory
        → IsUnfitCurrent (C.meaning (checker_of follower.now)) (state_of follower.now) info.now e) }
{
    check_context(follower, info)?;
    check_epoch(alloc, follower, info)?;
    check_parts(follower, info)?;
    check_signature(alloc, follower, info)
}
