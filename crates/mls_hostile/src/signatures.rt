//! The signatures of a start, and the receipts of signatures.

use crate::group::{GROUP_INFO, TREE};
use crate::output::{Output, Stop, have};
use mls_check::receipt;
use mls_msgs::{GroupInfo, Message, decode_message};
use mls_nodes::encode_ratchet_tree;
use mls_signatures::{SignatureList, SignatureToVerify, start_signatures};
use mls_tree::PublicTree;
use mls_wire::bytes_of;
use std::alloc::Global;

/// Decodes the GroupInfo of the group of member 0 alone.
pub(crate) fn first_info(alloc: Global, input: &[u8]) -> Result<GroupInfo, Stop> {
    match decode_message(alloc, input) {
        Ok(Message::GroupInfo(info)) => Ok(info),
        _ => Err(Stop::Memory),
    }
}

/// Returns the receipt of a signature, or `-` if an argument is too long for one.
fn receipt_text(alloc: Global, signature: &SignatureToVerify) -> Result<String, Stop> {
    let digest = receipt(
        signature.suite,
        signature.key.as_slice(),
        &[signature.content.as_slice()],
        signature.signature.as_slice(),
    );
    match digest {
        Some(digest) => have(hex::encode(alloc, digest.as_slice())),
        None => have(String::from_str(alloc, "-")),
    }
}

/// Appends the receipts of signatures to those before.
pub(crate) fn add_receipts(
    alloc: Global,
    signatures: &SignatureList,
    receipts: &mut String,
) -> Result<(), Stop> {
    for index in 0..signatures.len() {
        let signature = have(signatures.get(alloc, index))?;
        let text = receipt_text(alloc, &signature)?;
        if !receipts.is_empty() {
            have(receipts.push_str(" "))?;
        }
        have(receipts.push_str(text.as_str()))?;
    }
    Ok(())
}

/// Returns the bytes of a GroupInfo and of a tree.
fn bytes_of_both(alloc: Global, info: &GroupInfo, tree: &PublicTree) -> Result<Vec<u8>, Stop> {
    let mut bytes = have(bytes_of(alloc, info))?;
    let nodes = have(encode_ratchet_tree(alloc, tree.nodes()))?;
    have(bytes.extend_from_slice(nodes.as_slice()))?;
    Ok(bytes)
}

/// Returns the signatures of a start, and whether the call first ran out of memory and was repeated. Then the GroupInfo
/// and the tree must be the same.
fn signatures_again(
    alloc: Global,
    info: &GroupInfo,
    tree: &PublicTree,
) -> Result<(bool, SignatureList), Stop> {
    let before = bytes_of_both(alloc, info, tree)?;
    if let Ok(signatures) = start_signatures(alloc, info, tree) {
        return Ok((false, signatures));
    }
    let after = bytes_of_both(alloc, info, tree)?;
    if before.as_slice() != after.as_slice() {
        return Err(Stop::Changed);
    }
    match start_signatures(alloc, info, tree) {
        Ok(signatures) => Ok((true, signatures)),
        Err(_) => Err(Stop::OtherSignatures),
    }
}

/// Returns the receipts of the signatures of a start from a GroupInfo with the tree of four members.
pub(crate) fn write_start_signatures(alloc: Global) -> Result<Output, Stop> {
    let input = have(hex::decode(alloc, GROUP_INFO))?;
    let tree = have(hex::decode(alloc, TREE))?;
    let info = first_info(alloc, input.as_slice())?;
    let Ok(tree) = PublicTree::decode(alloc, tree.as_slice()) else {
        return Err(Stop::Memory);
    };
    let (was_refused, signatures) = signatures_again(alloc, &info, &tree)?;
    let mut text = String::new(alloc);
    add_receipts(alloc, &signatures, &mut text)?;
    Ok(Output { was_refused, text })
}
