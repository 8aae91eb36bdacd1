//! Rows of proposal lists and update paths (RFC 9420, 7.5, 7.6, 7.9 and 12.1 to 12.4).

use crate::call_result::{CallResult, are_same};
use crate::fault::RowFault;
use crate::hash_calls::suite_at;
use crate::row::Row;
use crate::text_writer::TextWriter;
use crate::tree_calls::tree_text;
use mls_apply::{
    Applied, ApplyFault, Leaves, ListItem, Refusal, apply_list, check_list, expected_parent_hashes,
    merge_path, new_extensions,
};
use mls_hash::Suite;
use mls_msgs::{Proposal, Sender, UpdatePath};
use mls_nodes::{Extensions, GroupContext, write_extensions};
use mls_tree::PublicTree;
use mls_wire::{CodecFault, Opaque, Reader, Writer, read_value};
use std::alloc::{AllocError, Global};

/// The next proposal after its sender.
fn read_item(alloc: Global, reader: &mut Reader<'_>) -> Result<(u32, Proposal), CodecFault> {
    let sender = reader.read_u32()?;
    let proposal = read_value::<Proposal>(alloc, reader)?;
    Ok((sender, proposal))
}

/// Adds the next proposal after its sender. Returns whether there was one.
fn add_proposal(
    row: &Row,
    at: usize,
    reader: &mut Reader<'_>,
    all: &mut Vec<(u32, Proposal)>,
) -> bool {
    match read_item(row.alloc, reader) {
        Ok(item) => {
            row.require(all.push(item));
            true
        }
        Err(_) => {
            row.refuse(at, "proposals after their senders");
            false
        }
    }
}

/// A field that is a list of proposals, each after its sender.
fn proposals_at(row: &Row, at: usize) -> Vec<(u32, Proposal)> {
    let bytes = row.bytes(at);
    let mut reader = Reader::new(bytes.as_slice());
    let mut all = Vec::new(row.alloc);
    for _ in 0..bytes.len() {
        if reader.at_end() || !add_proposal(row, at, &mut reader, &mut all) {
            break;
        }
    }
    all
}

/// The items of a list that has these proposals, each after its sender.
fn items_of<'a>(row: &Row, proposals: &'a [(u32, Proposal)]) -> Vec<ListItem<'a>> {
    let mut items = Vec::new(row.alloc);
    for (sender, proposal) in proposals {
        row.require(items.push(ListItem::new(Sender::Member(*sender), proposal)));
    }
    items
}

/// Whether a commit has a path: the field is `path` or `nopath`.
fn has_path_at(row: &Row, at: usize) -> bool {
    let word = row.word(at);
    if word != "path" && word != "nopath" {
        row.refuse(at, "path or nopath");
    }
    word == "path"
}

/// `check_list | COMMITTER | path or nopath | LIST`: why the list of a commit is refused, or `none`.
pub(crate) fn checked(row: &Row) -> Result<CallResult, RowFault> {
    row.has(3);
    let committer = Sender::Member(row.number(1));
    let has_path = has_path_at(row, 2);
    let proposals = proposals_at(row, 3);
    let list = items_of(row, proposals.as_slice());
    let found = check_list(row.alloc, committer, list.as_slice(), has_path);
    drop(list);
    drop(proposals);
    match found {
        Ok(()) => CallResult::word(row.alloc, "none"),
        Err(fault) => CallResult::fault(row.alloc, &fault),
    }
}

/// The tree after a list, and the leaves that it added.
fn applied_text(alloc: Global, applied: &Applied) -> Result<String, RowFault> {
    let mut text = TextWriter::new(alloc);
    text.add_made(tree_text(alloc, &applied.tree));
    text.add(" /");
    for leaf in applied.added.as_slice() {
        text.add(" ");
        text.add_number(u64::from(*leaf));
    }
    text.finish()
}

/// The tree after a list, and the leaves that it added, or the fault.
fn applied_result(
    alloc: Global,
    found: Result<Applied, ApplyFault>,
) -> Result<CallResult, RowFault> {
    match found {
        Ok(applied) => {
            let text = applied_text(alloc, &applied);
            drop(applied);
            CallResult::of(text)
        }
        Err(fault) => CallResult::fault(alloc, &fault),
    }
}

/// What the list of a field makes of a tree.
fn list_result(row: &Row, tree: &PublicTree, at: usize) -> Result<CallResult, RowFault> {
    let proposals = proposals_at(row, at);
    let list = items_of(row, proposals.as_slice());
    let found = apply_list(row.alloc, tree, list.as_slice());
    drop(list);
    drop(proposals);
    applied_result(row.alloc, found)
}

/// The same, once the tree was found unchanged.
fn result_beside(row: &Row, tree: &PublicTree, at: usize) -> Result<CallResult, RowFault> {
    let before = tree_text(row.alloc, tree);
    let found = list_result(row, tree, at);
    let after = tree_text(row.alloc, tree);
    if !are_same(&before, &after) {
        row.record(RowFault::TwoResults);
    }
    found
}

/// `apply_list | TREE | LIST`: how many leaves the tree after a list has, its encoding, and the indices of the leaves that are added. The
/// tree before has to be unchanged.
pub(crate) fn applied(row: &Row) -> Result<CallResult, RowFault> {
    row.has(2);
    let tree = row.tree(1)?;
    let found = result_beside(row, &tree, 2);
    drop(tree);
    found
}

/// The extensions after the list of a field, in a context.
fn extensions_in(row: &Row, context: &GroupContext, at: usize) -> Result<Extensions, AllocError> {
    let proposals = proposals_at(row, at);
    let list = items_of(row, proposals.as_slice());
    let found = new_extensions(row.alloc, context, list.as_slice());
    drop(list);
    drop(proposals);
    found
}

/// Extensions as they are written.
fn extensions_result(alloc: Global, extensions: &Extensions) -> Result<CallResult, RowFault> {
    let mut writer = Writer::new(alloc);
    match write_extensions(alloc, extensions, &mut writer) {
        Ok(()) => CallResult::bytes(alloc, writer.bytes()),
        Err(_) => Err(RowFault::OutOfMemory),
    }
}

/// `new_extensions | CONTEXT | LIST`: the extensions of the next epoch (12.1.7).
pub(crate) fn extensions_after(row: &Row) -> Result<CallResult, RowFault> {
    row.has(2);
    let context = row.value::<GroupContext>(1, "a context")?;
    let found = extensions_in(row, &context, 2);
    drop(context);
    match found {
        Ok(extensions) => extensions_result(row.alloc, &extensions),
        Err(_) => Err(RowFault::OutOfMemory),
    }
}

/// A tree after a path, or the fault.
fn merged_result(
    alloc: Global,
    merged: Result<PublicTree, (Refusal, Applied)>,
) -> Result<CallResult, RowFault> {
    match merged {
        Ok(tree) => {
            let text = tree_text(alloc, &tree);
            drop(tree);
            CallResult::of(text)
        }
        Err((refusal, applied)) => {
            drop(applied);
            CallResult::fault(alloc, &refusal)
        }
    }
}

/// The tree of a field with an update path, or the fault.
fn merged_by(row: &Row, suite: Suite, path: &UpdatePath) -> Result<CallResult, RowFault> {
    let tree = row.tree(2)?;
    let added = Leaves::new(row.numbers(3));
    let applied = Applied { tree, added };
    merged_result(
        row.alloc,
        merge_path(row.alloc, suite, applied, row.number(4), path),
    )
}

/// `merge_path | SUITE | TREE | ADDED | COMMITTER | PATH`: how many leaves the tree with an update path has, and its
/// encoding. Given are the tree after the proposal list and the leaves that this list added.
pub(crate) fn merged(row: &Row) -> Result<CallResult, RowFault> {
    row.has(5);
    let suite = suite_at(row, 1)?;
    let path = row.value::<UpdatePath>(5, "an update path")?;
    let found = merged_by(row, suite, &path);
    drop(path);
    found
}

/// Adds the next key. Returns whether there was one.
fn add_key(row: &Row, at: usize, reader: &mut Reader<'_>, keys: &mut Vec<Opaque>) -> bool {
    match reader.read_vec() {
        Ok(key) => {
            match Opaque::copy(row.alloc, key) {
                Ok(key) => row.require(keys.push(key)),
                Err(_) => row.record(RowFault::OutOfMemory),
            }
            true
        }
        Err(_) => {
            row.refuse(at, "keys");
            false
        }
    }
}

/// A field that is keys, each a vector.
fn keys_at(row: &Row, at: usize) -> Vec<Opaque> {
    let bytes = row.bytes(at);
    let mut reader = Reader::new(bytes.as_slice());
    let mut keys = Vec::new(row.alloc);
    for _ in 0..bytes.len() {
        if reader.at_end() || !add_key(row, at, &mut reader, &mut keys) {
            break;
        }
    }
    keys
}

/// Hashes, each as a vector.
fn vectors_result(row: &Row, hashes: &[Opaque]) -> Result<CallResult, RowFault> {
    let mut writer = Writer::new(row.alloc);
    for hash in hashes {
        row.require(writer.write_vec(hash.as_slice()));
    }
    CallResult::bytes(row.alloc, writer.bytes())
}

/// `expected_parent_hashes | SUITE | TREE | COMMITTER | KEYS`: the parent hashes that a committer's path with these keys has to have, that of the leaf
/// first, each as a vector.
pub(crate) fn expected_hashes(row: &Row) -> Result<CallResult, RowFault> {
    row.has(4);
    let suite = suite_at(row, 1)?;
    let tree = row.tree(2)?;
    let keys = keys_at(row, 4);
    let found = expected_parent_hashes(row.alloc, suite, &tree, row.number(3), keys.as_slice());
    drop(tree);
    match found {
        Ok(hashes) => vectors_result(row, hashes.as_slice()),
        Err(fault) => CallResult::fault(row.alloc, &fault),
    }
}
