//! Rows of validation (RFC 9420, 5.1.2, 7.2, 7.3, 7.9 and 12.4.3.1): trees, leaves, keys and signatures.

use crate::call_result::CallResult;
use crate::fault::RowFault;
use crate::hash_calls::suite_at;
use crate::row::{Row, have};
use mls_check::{
    GroupRequirements, MemberFault, Receipts, SignatureCheck, TreeFault, Trusting,
    has_distinct_keys, is_leaf_signed, signed, signed_in_pieces, validate_members, validate_tree,
};
use mls_hash::{Suite, decode_with_leaf_hashes, fill_hashes, parent_hash_of};
use mls_index::{KeyKind, LeafRule, LeafRules, TreeIndex, first_changed_failing};
use mls_nodes::{EncodedLeaf, GroupContext, ParentNode, RequiredCapabilities, encode_ratchet_tree};
use mls_tree::{HashValue, PublicTree};
use std::alloc::Global;
use std::fmt::Debug;

/// A word if there is no fault.
fn validity<E: Debug + Drop>(
    alloc: Global,
    validated: Result<Result<(), E>, RowFault>,
    word: &str,
) -> Result<CallResult, RowFault> {
    match validated {
        Ok(Ok(())) => CallResult::word(alloc, word),
        Ok(Err(fault)) => CallResult::name(alloc, &fault),
        Err(fault) => Err(fault),
    }
}

/// Whether something holds, if that was found.
fn truth<E: Drop>(alloc: Global, holds: Result<bool, E>) -> Result<CallResult, RowFault> {
    match holds {
        Ok(holds) => truth_value(alloc, holds),
        Err(_) => Err(RowFault::OutOfMemory),
    }
}

/// A truth value.
fn truth_value(alloc: Global, holds: bool) -> Result<CallResult, RowFault> {
    CallResult::word(alloc, if holds { "true" } else { "false" })
}

// ---- trees

/// What the validator finds of a tree by cached hashes.
fn validated_by_hashes(
    alloc: Global,
    context: &GroupContext,
    tree: &PublicTree,
) -> Result<Result<(), TreeFault>, RowFault> {
    let suite = have(Suite::from_u16(context.cipher_suite))?;
    let mut copy = have(tree.try_clone(alloc))?;
    match fill_hashes(alloc, suite, &mut copy) {
        Ok(_) => {
            let found = validate_tree(alloc, suite, context, &copy);
            drop(copy);
            Ok(found)
        }
        Err(_) => {
            drop(copy);
            Err(RowFault::OutOfMemory)
        }
    }
}

/// What the validator finds of a tree that is read from the encoding of another one, by hashes of leaves as they are read. `None` if
/// that tree has no encoding, or more leaves than its encoding has.
fn validated_as_read(
    alloc: Global,
    suite: Suite,
    context: &GroupContext,
    tree: &PublicTree,
) -> Result<Option<Result<(), TreeFault>>, RowFault> {
    let Ok(encoding) = encode_ratchet_tree(alloc, tree.nodes()) else {
        return Ok(None);
    };
    let read = have(decode_with_leaf_hashes(alloc, suite, encoding))?;
    let is_whole = read.leaf_count() == tree.leaf_count();
    let found = validated_by_hashes(alloc, context, &read);
    drop(read);
    match found {
        Ok(found) if is_whole => Ok(Some(found)),
        Ok(_) => Ok(None),
        Err(fault) => Err(fault),
    }
}

/// What the validator finds of a tree in a context, also by cached hashes and by hashes of leaves as they are read.
fn validated(
    alloc: Global,
    context: &GroupContext,
    tree: &PublicTree,
) -> Result<Result<(), TreeFault>, RowFault> {
    let Ok(suite) = Suite::from_u16(context.cipher_suite) else {
        return Err(RowFault::Field(1, "a context of a suite that is supported"));
    };
    let found = validate_tree(alloc, suite, context, tree);
    let by_hashes = validated_by_hashes(alloc, context, tree)?;
    let as_read = validated_as_read(alloc, suite, context, tree)?;
    if by_hashes == found && as_read.unwrap_or(found) == found {
        Ok(found)
    } else {
        Err(RowFault::TwoResults)
    }
}

/// `valid_tree | CONTEXT | TREE`: `valid`, or the first fault of the tree.
pub(crate) fn valid_tree(row: &Row) -> Result<CallResult, RowFault> {
    row.has(2);
    let tree = row.tree(2)?;
    let found = match row.value::<GroupContext>(1, "a context") {
        Ok(context) => {
            let found = validated(row.alloc, &context, &tree);
            drop(context);
            found
        }
        Err(fault) => Err(fault),
    };
    drop(tree);
    validity(row.alloc, found, "valid")
}

/// `distinct_keys | TREE`: whether no two nodes have one encryption key.
pub(crate) fn distinct_keys(row: &Row) -> Result<CallResult, RowFault> {
    row.has(1);
    let tree = row.tree(1)?;
    let found = has_distinct_keys(row.alloc, &tree);
    drop(tree);
    truth(row.alloc, found)
}

/// `parent_hash_of | SUITE | PARENT | HASH`: the parent hash of a parent node, by the tree hash of the copath child.
pub(crate) fn hash_of_node(row: &Row) -> Result<CallResult, RowFault> {
    row.has(3);
    let suite = suite_at(row, 1)?;
    let Some(half) = HashValue::new(row.bytes(3).as_slice()) else {
        return Err(RowFault::Field(3, "a hash"));
    };
    let parent = row.value::<ParentNode>(2, "a parent")?;
    let hash = parent_hash_of(suite, &parent, &half);
    drop(parent);
    CallResult::bytes(row.alloc, hash.as_slice())
}

// ---- leaves

/// What is found of the leaves of a tree by a checker.
fn members_by<C: SignatureCheck>(
    row: &Row,
    tree: &PublicTree,
    checker: &C,
) -> Result<Result<(), MemberFault>, RowFault> {
    let group_id = row.opaque(2)?;
    let required = row.value::<RequiredCapabilities>(3, "required capabilities")?;
    let suite = row.short_number(1);
    let found = validate_members(row.alloc, suite, &group_id, &required, tree, checker);
    drop(required);
    Ok(found)
}

/// `members | SUITE | GROUP ID | REQUIRED | TREE | CHECKER`: `members`, or the first fault of the leaves.
pub(crate) fn members(row: &Row) -> Result<CallResult, RowFault> {
    row.has(5);
    let tree = row.tree(4)?;
    let found = if row.is_trusting(5) {
        members_by(row, &tree, &Trusting)
    } else {
        members_by(row, &tree, &row.receipts(5))
    };
    drop(tree);
    validity(row.alloc, found, "members")
}

/// Whether a leaf is signed by a checker.
fn leaf_signed_by<C: SignatureCheck>(row: &Row, checker: &C) -> Result<CallResult, RowFault> {
    let group_id = row.opaque(2)?;
    let leaf = row.value::<EncodedLeaf>(4, "a leaf")?;
    let suite = row.short_number(1);
    let found = is_leaf_signed(suite, &group_id, row.number(3), &leaf, checker);
    drop(leaf);
    truth_value(row.alloc, found)
}

/// `leaf_signed | SUITE | GROUP ID | INDEX | LEAF | CHECKER`: whether the signature of a leaf is good.
pub(crate) fn leaf_signed(row: &Row) -> Result<CallResult, RowFault> {
    row.has(5);
    if row.is_trusting(5) {
        leaf_signed_by(row, &Trusting)
    } else {
        leaf_signed_by(row, &row.receipts(5))
    }
}

/// A field that is a rule that needs no other leaf.
fn rule_at(row: &Row, at: usize) -> LeafRule {
    match row.word(at) {
        "extensions" => LeafRule::Extensions,
        "requirements" => LeafRule::Requirements,
        "signature" => LeafRule::Signature,
        _ => {
            row.refuse(at, "a rule of leaves");
            LeafRule::Signature
        }
    }
}

/// The first leaf at some node indices that fails a rule in a group that requires this, if no signature is good.
fn first_failing(
    row: &Row,
    context: &GroupContext,
    required: RequiredCapabilities,
) -> Result<Option<u32>, RowFault> {
    let tree = row.tree(4)?;
    let rule = rule_at(row, 1);
    let indices = row.numbers(5);
    let checker = Receipts::new(row.alloc);
    let found = match GroupRequirements::new(row.alloc, required) {
        Ok(required) => {
            let rules = LeafRules {
                context,
                required: &required,
                checker: &checker,
            };
            first_changed_failing(row.alloc, &rules, rule, &tree, indices.as_slice())
        }
        Err(memory) => Err(memory),
    };
    drop(tree);
    have(found)
}

/// `changed_leaves | RULE | CONTEXT | REQUIRED | TREE | NODE INDICES`: the smallest leaf index of a leaf at these node indices that
/// fails a rule that needs no other leaf, if no signature is good; or `none`.
pub(crate) fn changed_leaves(row: &Row) -> Result<CallResult, RowFault> {
    row.has(5);
    let context = row.value::<GroupContext>(2, "a context")?;
    let found = match row.value::<RequiredCapabilities>(3, "required capabilities") {
        Ok(required) => first_failing(row, &context, required),
        Err(fault) => Err(fault),
    };
    drop(context);
    match found {
        Ok(Some(leaf)) => CallResult::of(have(format!(in row.alloc; "{leaf}"))),
        Ok(None) => CallResult::word(row.alloc, "none"),
        Err(fault) => Err(fault),
    }
}

/// A field that is a kind of keys.
fn key_kind_at(row: &Row, at: usize) -> KeyKind {
    match row.word(at) {
        "encryption" => KeyKind::Encryption,
        "signature" => KeyKind::Signature,
        _ => {
            row.refuse(at, "encryption or signature");
            KeyKind::Signature
        }
    }
}

/// `key_in | TREE | encryption or signature | KEY`: whether a node of the tree has this key.
pub(crate) fn key_in(row: &Row) -> Result<CallResult, RowFault> {
    row.has(3);
    let tree = row.tree(1)?;
    let kind = key_kind_at(row, 2);
    let key = row.bytes(3);
    let found = match TreeIndex::of(row.alloc, &tree) {
        Ok(index) => {
            let found = index.has_key(&tree, kind, key.as_slice());
            drop(index);
            Ok(found)
        }
        Err(fault) => Err(fault),
    };
    drop(tree);
    truth(row.alloc, found)
}

// ---- signatures

/// Whether a signature is good by a checker.
fn signed_by<C: SignatureCheck>(row: &Row, checker: &C) -> Result<CallResult, RowFault> {
    let suite = row.short_number(2);
    let found = signed(
        checker,
        suite,
        row.bytes(3).as_slice(),
        row.text(4).as_str(),
        row.bytes(5).as_slice(),
        row.bytes(6).as_slice(),
    );
    truth_value(row.alloc, found)
}

/// `signed | CHECKER | SUITE | KEY | LABEL | CONTENT | SIGNATURE`: whether the signature of a content under a label is good.
pub(crate) fn is_signed(row: &Row) -> Result<CallResult, RowFault> {
    row.has(6);
    if row.is_trusting(1) {
        signed_by(row, &Trusting)
    } else {
        signed_by(row, &row.receipts(1))
    }
}

/// Whether a signature of a content in two pieces, the first byte and the rest, is good by a checker.
fn signed_by_in_pieces<C: SignatureCheck>(row: &Row, checker: &C) -> Result<CallResult, RowFault> {
    let content = row.bytes(5);
    let (first, rest) = content.as_slice().split_at(content.len().min(1));
    let found = signed_in_pieces(
        row.alloc,
        checker,
        row.short_number(2),
        row.bytes(3).as_slice(),
        row.text(4).as_str(),
        &[first, rest],
        row.bytes(6).as_slice(),
    );
    truth(row.alloc, found)
}

/// `signed_in_pieces | CHECKER | SUITE | KEY | LABEL | CONTENT | SIGNATURE`: as `signed`, of a content in pieces.
pub(crate) fn is_signed_in_pieces(row: &Row) -> Result<CallResult, RowFault> {
    row.has(6);
    if row.is_trusting(1) {
        signed_by_in_pieces(row, &Trusting)
    } else {
        signed_by_in_pieces(row, &row.receipts(1))
    }
}

/// `listed | FILE | SUITE | KEY | SIGN CONTENT | SIGNATURE`: whether a signature is good by a file of receipts, or why the file can't be
/// read.
pub(crate) fn listed(row: &Row) -> Result<CallResult, RowFault> {
    row.has(5);
    match Receipts::read(row.alloc, row.bytes(1).as_slice()) {
        Ok(listed) => {
            let found = listed.good(
                row.short_number(2),
                row.bytes(3).as_slice(),
                &[row.bytes(4).as_slice()],
                row.bytes(5).as_slice(),
            );
            drop(listed);
            CallResult::of(have(format!(in row.alloc; "{found}")))
        }
        Err(fault) => CallResult::fault(row.alloc, &fault),
    }
}
