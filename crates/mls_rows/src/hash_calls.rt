//! Rows of hashes (RFC 9420, 5.1, 5.2, 7.8 and 7.9).

use crate::call_result::CallResult;
use crate::fault::RowFault;
use crate::row::{Row, have};
use mls_hash::{
    HashFault, HashValue, Side, SubtreeHashes, Suite, hash, original_tree_hash, parent_hash,
    ref_hash, tree_hash,
};
use mls_nodes::{EncodedLeaf, fingerprint};
use mls_tree::PublicTree;
use std::alloc::{AllocError, Global};

/// A field that is the number of a cipher suite that is followed.
pub(crate) fn suite_at(row: &Row, at: usize) -> Result<Suite, RowFault> {
    match Suite::from_u16(row.short_number(at)) {
        Ok(suite) => Ok(suite),
        Err(_) => Err(RowFault::Field(at, "a cipher suite")),
    }
}

/// A hash, or why there is none.
fn hash_result(row: &Row, made: Result<HashValue, HashFault>) -> Result<CallResult, RowFault> {
    match made {
        Ok(hash) => CallResult::bytes(row.alloc, hash.as_slice()),
        Err(fault) => CallResult::fault(row.alloc, &fault),
    }
}

/// `suite | NUMBER`: the number of that suite.
pub(crate) fn suite(row: &Row) -> Result<CallResult, RowFault> {
    row.has(1);
    match Suite::from_u16(row.short_number(1)) {
        Ok(suite) => CallResult::of(have(format!(in row.alloc; "{}", suite.number()))),
        Err(fault) => CallResult::fault(row.alloc, &fault),
    }
}

/// `hash_length | SUITE`: how many bytes a hash of the suite has.
pub(crate) fn length(row: &Row) -> Result<CallResult, RowFault> {
    row.has(1);
    let suite = suite_at(row, 1)?;
    let length = suite.hash_length();
    CallResult::of(have(format!(in row.alloc; "{length}")))
}

/// `hash | SUITE | FIRST | SECOND`: the hash of two parts joined.
pub(crate) fn hash_of(row: &Row) -> Result<CallResult, RowFault> {
    row.has(3);
    let suite = suite_at(row, 1)?;
    let found = hash(suite, row.bytes(2).as_slice(), row.bytes(3).as_slice());
    CallResult::bytes(row.alloc, found.as_slice())
}

/// `fingerprint | KEY`: the fingerprint of a key, by which keys are compared first.
pub(crate) fn fingerprint_of(row: &Row) -> Result<CallResult, RowFault> {
    row.has(1);
    let key = row.bytes(1);
    let found = fingerprint(key.as_slice());
    CallResult::bytes(row.alloc, &found.to_be_bytes())
}

/// `leaf_fingerprints | LEAF`: the fingerprints of the encryption key and of the signature key of a leaf.
pub(crate) fn leaf_fingerprints(row: &Row) -> Result<CallResult, RowFault> {
    row.has(1);
    let leaf = row.value::<EncodedLeaf>(1, "a leaf")?;
    let encryption = leaf.encryption_fingerprint();
    let signature = leaf.signature_fingerprint();
    drop(leaf);
    CallResult::of(have(format!(in row.alloc; "{encryption:016x}{signature:016x}")))
}

/// `proposal_ref | SUITE | AUTHENTICATED CONTENT`: the reference to a proposal.
pub(crate) fn proposal_ref(row: &Row) -> Result<CallResult, RowFault> {
    row.has(2);
    let suite = suite_at(row, 1)?;
    let content = row.bytes(2);
    let label = "MLS 1.0 Proposal Reference";
    hash_result(row, ref_hash(suite, label, content.as_slice()))
}

/// `tree_hash | SUITE | TREE | NODE INDEX`: the hash of a subtree.
pub(crate) fn subtree_hash(row: &Row) -> Result<CallResult, RowFault> {
    row.has(3);
    let suite = suite_at(row, 1)?;
    let tree = row.tree(2)?;
    let found = tree_hash(suite, &tree, row.number(3));
    drop(tree);
    hash_result(row, found)
}

/// `original_hash | SUITE | TREE | NODE INDEX | LEAVES`: the same without some leaves.
pub(crate) fn original_hash(row: &Row) -> Result<CallResult, RowFault> {
    row.has(4);
    let suite = suite_at(row, 1)?;
    let tree = row.tree(2)?;
    let index = row.number(3);
    let leaves = row.numbers(4);
    let found = original_tree_hash(row.alloc, suite, &tree, index, leaves.as_slice());
    drop(tree);
    hash_result(row, found)
}

/// A field that is the side of the child on the copath.
fn side_at(row: &Row, at: usize) -> Side {
    match row.word(at) {
        "left" => Side::Left,
        "right" => Side::Right,
        _ => {
            row.refuse(at, "left or right");
            Side::Left
        }
    }
}

/// `parent_hash | SUITE | TREE | NODE INDEX | SIDE`: the hash of a parent whose child on the copath is on that side.
pub(crate) fn hash_of_parent(row: &Row) -> Result<CallResult, RowFault> {
    row.has(4);
    let suite = suite_at(row, 1)?;
    let tree = row.tree(2)?;
    let found = parent_hash(row.alloc, suite, &tree, row.number(3), side_at(row, 4));
    drop(tree);
    hash_result(row, found)
}

/// Returns the hash of a node in the list of the hashes of all subtrees.
fn listed_hash(
    alloc: Global,
    suite: Suite,
    tree: &PublicTree,
    index: u32,
) -> Result<Option<HashValue>, AllocError> {
    let hashes = SubtreeHashes::new(alloc, suite, tree)?;
    Ok(hashes.get(index))
}

/// `subtree_hash | SUITE | TREE | NODE INDEX`: the hash of a node in the list of the hashes of all subtrees, or `none`.
pub(crate) fn one_of_all(row: &Row) -> Result<CallResult, RowFault> {
    row.has(3);
    let suite = suite_at(row, 1)?;
    let tree = row.tree(2)?;
    let hash = listed_hash(row.alloc, suite, &tree, row.number(3));
    drop(tree);
    match hash {
        Ok(Some(hash)) => CallResult::bytes(row.alloc, hash.as_slice()),
        Ok(None) => CallResult::word(row.alloc, "none"),
        Err(_) => Err(RowFault::OutOfMemory),
    }
}
