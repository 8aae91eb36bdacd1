//! The signature of one thing that is signed (RFC 9420, 5.1.2), those of a start and those of a proposal, appended to a list.

ghost use Rattle.std.specs.Prelude.{◌≡◌, OnOk};
ghost use Rattle.mls_tree.specs.Tree.{leaf_at};
ghost use Rattle.mls_signatures.specs.AddedLeaves.{AppendsSignatures};
ghost use Rattle.mls_signatures.specs.SignaturesToVerify.{leaf_signatures, package_signatures, framed_content_signatures, info_signatures, non_blank_leaf_signatures, tree_signatures, is_supported_context, all_start_signatures, proposal_signatures, update_signatures};
ghost use Rattle.mls_apply.specs.Senders.{member_index};

use crate::signature_list::SignatureList;
use crate::single_signatures::{
    framed_content_signature, info_signature, leaf_signature, non_blank_leaf_signature,
    package_signature,
};
use mls_check::OutOfMemory;
use mls_hash::Suite;
use mls_msgs::{Authenticated, GroupInfo, KeyPackage, Proposal, Sender};
use mls_nodes::{EncodedLeaf, GroupContext};
use mls_tree::PublicTree;
use std::alloc::Global;

/// Appends the signature of a leaf node of the group (RFC 9420, 7.2).
pub(crate) fn push_leaf_signature(
    alloc: Global,
    context: &GroupContext,
    index: u32,
    leaf: &EncodedLeaf,
    list: &mut SignatureList,
) -> Result<(), OutOfMemory>
    ensures { OnOk result (AppendsSignatures list.old (leaf_signatures context.now.cipher_suite context.now.group_id index leaf.now) list.new) }
{
    let signature = leaf_signature(alloc, context.cipher_suite, &context.group_id, index, leaf)?;
    list.push_optional(alloc, signature)
}

/// Appends the signature of the leaf of a tree at an index, if it is non-blank.
fn push_non_blank_leaf_signature(
    alloc: Global,
    context: &GroupContext,
    tree: &PublicTree,
    index: u32,
    list: &mut SignatureList,
) -> Result<(), OutOfMemory>
    ensures { let suite = context.now.cipher_suite in
        OnOk result (AppendsSignatures list.old (non_blank_leaf_signatures
        suite context.now.group_id index (leaf_at 0 tree.now.tree index)) list.new) }
{
    let signature = non_blank_leaf_signature(alloc, context, tree, index)?;
    list.push_optional(alloc, signature)
}

/// Appends the signature of each leaf of a tree, from left to right.
pub(crate) fn push_tree_signatures(
    alloc: Global,
    context: &GroupContext,
    tree: &PublicTree,
    list: &mut SignatureList,
) -> Result<(), OutOfMemory>
    ensures { let suite = context.now.cipher_suite in
        OnOk result (AppendsSignatures list.old (tree_signatures suite context.now.group_id 0 tree.now.tree) list.new) }
{
    for index in 0..tree.leaf_count() {
        push_non_blank_leaf_signature(alloc, context, tree, index, list)?;
    }
    Ok(())
}

/// Appends the signature of a GroupInfo, if its signer's leaf is non-blank (RFC 9420, 12.4.3).
fn push_info_signature(
    alloc: Global,
    info: &GroupInfo,
    tree: &PublicTree,
    list: &mut SignatureList,
) -> Result<(), OutOfMemory>
    ensures { OnOk result (AppendsSignatures list.old (info_signatures info.now (leaf_at 0 tree.now.tree info.now.signer)) list.new) }
{
    let signature = info_signature(alloc, info, tree)?;
    list.push_optional(alloc, signature)
}

/// Returns whether the version and the cipher suite of a GroupContext are supported (RFC 9420, 17.1).
pub(crate) fn is_supported_context(context: &GroupContext) -> bool
    ensures { result ≡ is_supported_context context.now }
{
    context.version == 1 && Suite::from_u16(context.cipher_suite).is_ok()
}

/// Appends the signatures of a start (RFC 9420, 12.4.3.1).
pub(crate) fn push_start_signatures(
    alloc: Global,
    info: &GroupInfo,
    tree: &PublicTree,
    list: &mut SignatureList,
) -> Result<(), OutOfMemory>
    ensures { OnOk result (AppendsSignatures list.old (all_start_signatures info.now tree.now.tree) list.new) }
{
    if !is_supported_context(&info.context) {
        return Ok(());
    }
    push_info_signature(alloc, info, tree, list)?;
    push_tree_signatures(alloc, &info.context, tree, list)
}

/// Appends the signature of a KeyPackage for a cipher suite (RFC 9420, 10.1).
fn push_package_signature(
    alloc: Global,
    suite: u16,
    key_package: &KeyPackage,
    list: &mut SignatureList,
) -> Result<(), OutOfMemory>
    ensures { OnOk result (AppendsSignatures list.old (package_signatures suite key_package.now) list.new) }
{
    let signature = package_signature(alloc, suite, key_package)?;
    list.push_optional(alloc, signature)
}

/// Appends the signature of an AuthenticatedContent, under this key, and over the group's context if the sender signs it
/// (RFC 9420, 6.1).
pub(crate) fn push_framed_content_signature(
    alloc: Global,
    context: &GroupContext,
    key: &[u8],
    auth: &Authenticated,
    list: &mut SignatureList,
) -> Result<(), OutOfMemory>
    ensures { OnOk result (AppendsSignatures list.old (framed_content_signatures context.now key.now auth.now) list.new) }
{
    let signature = framed_content_signature(alloc, context, key, auth)?;
    list.push_optional(alloc, signature)
}

/// Appends the signature of the leaf node of an Update, if its sender is a member.
fn push_update_signature(
    alloc: Global,
    context: &GroupContext,
    sender: Sender,
    leaf: &EncodedLeaf,
    list: &mut SignatureList,
) -> Result<(), OutOfMemory>
    ensures { OnOk result (AppendsSignatures list.old (update_signatures context.now (member_index sender) leaf.now) list.new) }
{
    match sender {
        Sender::Member(index) => push_leaf_signature(alloc, context, index, leaf, list),
        Sender::External(_) => Ok(()),
        Sender::NewMemberProposal => Ok(()),
        Sender::NewMemberCommit => Ok(()),
    }
}

/// Appends the signatures of a proposal of any sender (RFC 9420, 12.1).
pub(crate) fn push_proposal_signatures(
    alloc: Global,
    context: &GroupContext,
    sender: Sender,
    proposal: &Proposal,
    list: &mut SignatureList,
) -> Result<(), OutOfMemory>
    ensures { OnOk result (AppendsSignatures list.old (proposal_signatures context.now sender proposal.now) list.new) }
{
    match proposal {
        Proposal::Add(key_package) => {
            push_leaf_signature(alloc, context, 0, &key_package.leaf_node, list)?;
            push_package_signature(alloc, context.cipher_suite, key_package, list)
        }
        Proposal::Update(leaf) => push_update_signature(alloc, context, sender, leaf, list),
        Proposal::Remove(_) => Ok(()),
        Proposal::ContextExtensions(_) => Ok(()),
        Proposal::PreSharedKey(_) => Ok(()),
        Proposal::ReInit(_) => Ok(()),
        Proposal::ExternalInit(_) => Ok(()),
    }
}
