//! The signature of one thing that is signed (RFC 9420, 5.1.2).

ghost use Rattle.std.specs.Prelude.{◌≡◌, Some, IfOk};
ghost use Rattle.std.specs.Option.{option_to_list};
ghost use Rattle.mls_tree.specs.Tree.{leaf_at};
ghost use Rattle.mls_signatures.specs.SignaturesToVerify.{labeled_signatures, leaf_signatures, package_signatures, framed_content_signatures, info_signatures, non_blank_leaf_signatures};

use crate::signature_to_verify::SignatureToVerify;
use crate::signing_keys::{opaque_of, signed_context};
use mls_check::{LEAF_NODE_TBS, OutOfMemory, sign_content};
use mls_msgs::{
    Authenticated, CONTENT_LABEL, GROUP_INFO_LABEL, GroupInfo, KEY_PACKAGE_LABEL, KeyPackage,
    content_tbs, info_tbs, package_tbs,
};
use mls_nodes::{EncodedLeaf, GroupContext, leaf_tbs};
use mls_tree::PublicTree;
use mls_wire::{CodecFault, Opaque, Sequence};
use std::alloc::Global;

/// A signature with what it is verified by, except for what is signed: the cipher suite, the public key and the label.
#[derive(Clone, Copy)]
struct Labeled<'a> {
    suite: u16,
    key: &'a [u8],
    label: &'a str,
    signature: &'a [u8],
}

/// Returns a signature over bytes, if they have a SignContent under its label.
fn signature_over(
    alloc: Global,
    signed: &Labeled<'_>,
    tbs: &[u8],
) -> Result<Option<SignatureToVerify>, OutOfMemory>
    ensures { IfOk result (λ o. option_to_list o
        ≡ labeled_signatures signed.now.suite signed.now.key.now signed.now.label.now (Some tbs.now)
        signed.now.signature.now) }
{
    let content = match sign_content(alloc, signed.label, tbs) {
        Ok(content) => Sequence::new(content),
        Err(CodecFault::Wire(_)) => return Ok(None),
        Err(CodecFault::OutOfMemory) => return Err(OutOfMemory),
    };
    let key = opaque_of(alloc, signed.key)?;
    let signature = opaque_of(alloc, signed.signature)?;
    Ok(Some(SignatureToVerify {
        suite: signed.suite,
        key,
        content,
        signature,
    }))
}

/// Returns the signature of a leaf node of a group with this cipher suite and group id (RFC 9420, 7.2).
pub(crate) fn leaf_signature(
    alloc: Global,
    suite: u16,
    group_id: &Opaque,
    index: u32,
    leaf: &EncodedLeaf,
) -> Result<Option<SignatureToVerify>, OutOfMemory>
    ensures { IfOk result (λ o. option_to_list o
        ≡ leaf_signatures suite group_id.now index leaf.now) }
{
    let tbs = match leaf_tbs(alloc, leaf, group_id, index) {
        Ok(tbs) => tbs,
        Err(CodecFault::Wire(_)) => return Ok(None),
        Err(CodecFault::OutOfMemory) => return Err(OutOfMemory),
    };
    let signed = Labeled {
        suite,
        key: leaf.signature_key(),
        label: LEAF_NODE_TBS,
        signature: leaf.signature(),
    };
    signature_over(alloc, &signed, tbs.as_slice())
}

/// Returns the signature of the leaf of a tree at an index, if it is non-blank.
pub(crate) fn non_blank_leaf_signature(
    alloc: Global,
    context: &GroupContext,
    tree: &PublicTree,
    index: u32,
) -> Result<Option<SignatureToVerify>, OutOfMemory>
    ensures { let suite = context.now.cipher_suite in
        IfOk result (λ o. option_to_list o ≡ non_blank_leaf_signatures
        suite context.now.group_id index (leaf_at 0 tree.now.tree index)) }
{
    let Some(leaf) = tree.leaf(index) else {
        return Ok(None);
    };
    leaf_signature(alloc, context.cipher_suite, &context.group_id, index, leaf)
}

/// Returns the signature of a GroupInfo, if its signer's leaf is non-blank (RFC 9420, 12.4.3).
pub(crate) fn info_signature(
    alloc: Global,
    info: &GroupInfo,
    tree: &PublicTree,
) -> Result<Option<SignatureToVerify>, OutOfMemory>
    ensures { IfOk result (λ o. option_to_list o
        ≡ info_signatures info.now (leaf_at 0 tree.now.tree info.now.signer)) }
{
    let Some(signer) = tree.leaf(info.signer) else {
        return Ok(None);
    };
    let tbs = match info_tbs(alloc, info) {
        Ok(tbs) => tbs,
        Err(CodecFault::Wire(_)) => return Ok(None),
        Err(CodecFault::OutOfMemory) => return Err(OutOfMemory),
    };
    let signed = Labeled {
        suite: info.context.cipher_suite,
        key: signer.signature_key(),
        label: GROUP_INFO_LABEL,
        signature: info.signature.as_slice(),
    };
    signature_over(alloc, &signed, tbs.as_slice())
}

/// Returns the signature of a KeyPackage for a cipher suite (RFC 9420, 10.1).
pub(crate) fn package_signature(
    alloc: Global,
    suite: u16,
    key_package: &KeyPackage,
) -> Result<Option<SignatureToVerify>, OutOfMemory>
    ensures { IfOk result (λ o. option_to_list o ≡ package_signatures suite key_package.now) }
{
    let tbs = match package_tbs(alloc, key_package) {
        Ok(tbs) => tbs,
        Err(CodecFault::Wire(_)) => return Ok(None),
        Err(CodecFault::OutOfMemory) => return Err(OutOfMemory),
    };
    let signed = Labeled {
        suite,
        key: key_package.leaf_node.signature_key(),
        label: KEY_PACKAGE_LABEL,
        signature: key_package.signature.as_slice(),
    };
    signature_over(alloc, &signed, tbs.as_slice())
}

/// Returns the signature of an AuthenticatedContent, under this key, and over the group's context if the sender signs it
/// (RFC 9420, 6.1).
pub(crate) fn framed_content_signature(
    alloc: Global,
    context: &GroupContext,
    key: &[u8],
    auth: &Authenticated,
) -> Result<Option<SignatureToVerify>, OutOfMemory>
    ensures { IfOk result (λ o. option_to_list o
        ≡ framed_content_signatures context.now key.now auth.now) }
{
    let over = signed_context(context, auth.content().sender);
    let tbs = match content_tbs(alloc, auth, over) {
        Ok(tbs) => tbs,
        Err(CodecFault::Wire(_)) => return Ok(None),
        Err(CodecFault::OutOfMemory) => return Err(OutOfMemory),
    };
    let signed = Labeled {
        suite: context.cipher_suite,
        key,
        label: CONTENT_LABEL,
        signature: auth.signature().as_slice(),
    };
    signature_over(alloc, &signed, tbs.as_slice())
}
