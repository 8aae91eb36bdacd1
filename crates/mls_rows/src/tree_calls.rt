//! Rows of trees (RFC 9420, 4.1, 7.7 and Appendix C): node indices, lists of nodes, and changes.

use crate::call_result::CallResult;
use crate::fault::RowFault;
use crate::row::{Row, have, only_word};
use crate::text_writer::TextWriter;
use mls_nodes::{EncodedLeaf, Node, ParentNode, decode_ratchet_tree, encode_ratchet_tree};
use mls_tree::{
    HashKind, Part, PublicTree, TreeError, left, level, parent, right, root, sibling, split_leaves,
};
use std::alloc::Global;
use std::collections::BTreeSet;

/// A number, or `none`.
fn number_result(alloc: Global, number: Option<u32>) -> Result<CallResult, RowFault> {
    match number {
        Some(number) => CallResult::of(have(format!(in alloc; "{number}"))),
        None => CallResult::word(alloc, "none"),
    }
}

/// Numbers with a space between two.
pub(crate) fn numbers_text(alloc: Global, numbers: &[u32]) -> Result<String, RowFault> {
    let mut text = TextWriter::new(alloc);
    for number in numbers {
        text.separate(" ");
        text.add_number(u64::from(*number));
    }
    text.finish()
}

/// `root | LEAVES`: the node index of the root, or `none`.
pub(crate) fn root_of(row: &Row) -> Result<CallResult, RowFault> {
    row.has(1);
    number_result(row.alloc, root(row.number(1)))
}

/// `left | NODE INDEX | LEAVES` and the like: the node index of a child, the parent or the sibling, or the level of a node; `none` if
/// there is none.
pub(crate) fn relative(row: &Row) -> Result<CallResult, RowFault> {
    row.has(2);
    let index = row.number(1);
    let leaves = row.number(2);
    let found = match row.word(0) {
        "left" => left(index, leaves),
        "right" => right(index, leaves),
        "parent" => parent(index, leaves),
        "sibling" => sibling(index, leaves),
        _ => level(index, leaves),
    };
    number_result(row.alloc, found)
}

/// `direct_path | TREE | INDEX` and the like: the direct path, the copath or the filtered direct path of a leaf, or the resolution of
/// a node.
pub(crate) fn list(row: &Row) -> Result<CallResult, RowFault> {
    row.has(2);
    let tree = row.tree(1)?;
    let index = row.number(2);
    let found = match row.word(0) {
        "direct_path" => tree.direct_path(row.alloc, index),
        "copath" => tree.copath(row.alloc, index),
        "filtered_direct_path" => tree.filtered_direct_path(row.alloc, index),
        _ => tree.resolution(row.alloc, index),
    };
    drop(tree);
    match found {
        Ok(list) => CallResult::of(numbers_text(row.alloc, list.as_slice())),
        Err(fault) => CallResult::fault(row.alloc, &fault),
    }
}

/// Whether a resolution has a length, by the counts that are stored with cached hashes; and whether there was memory for these.
fn has_length_by_counts(
    alloc: Global,
    tree: &PublicTree,
    index: u32,
    without: &BTreeSet<u64>,
    length: usize,
) -> Result<Result<bool, TreeError>, RowFault> {
    let mut counted = have(tree.try_clone(alloc))?;
    let reserved = counted.reserve_hashes(alloc, HashKind::Sha256);
    let found = counted.has_resolution_len(index, without, length);
    drop(counted);
    match reserved {
        Ok(_) => Ok(found),
        Err(_) => Err(RowFault::OutOfMemory),
    }
}

/// The numbers of a field, as a set.
fn number_set(row: &Row, at: usize) -> BTreeSet<u64> {
    let mut set = BTreeSet::new(row.alloc);
    for number in row.numbers(at) {
        row.require(set.insert(u64::from(number)));
    }
    set
}

/// Whether a resolution has that many nodes other than those of a field.
fn length_result(
    row: &Row,
    tree: &PublicTree,
    index: u32,
    length: usize,
) -> Result<CallResult, RowFault> {
    let without = number_set(row, 3);
    let by_counts = has_length_by_counts(row.alloc, tree, index, &without, length);
    let found = tree.has_resolution_len(index, &without, length);
    match by_counts {
        Ok(by_counts) if by_counts != found => Err(RowFault::TwoResults),
        Ok(_) => match found {
            Ok(found) => CallResult::of(have(format!(in row.alloc; "{found}"))),
            Err(fault) => CallResult::fault(row.alloc, &fault),
        },
        Err(fault) => Err(fault),
    }
}

/// `resolution_length | TREE | NODE INDEX | NUMBERS | NUMBER`: whether the resolution has that many nodes other than
/// these.
pub(crate) fn resolution_length(row: &Row) -> Result<CallResult, RowFault> {
    row.has(4);
    let tree = row.tree(1)?;
    let index = row.number(2);
    let length = row.number(4) as usize;
    let found = length_result(row, &tree, index, length);
    drop(tree);
    found
}

// ---- nodes

/// The encryption key of a leaf, or `blank`.
fn leaf_key(alloc: Global, leaf: Option<&EncodedLeaf>) -> Result<String, RowFault> {
    match leaf {
        Some(leaf) => have(hex::encode(alloc, leaf.encryption_key())),
        None => have(String::from_str(alloc, "blank")),
    }
}

/// The encryption key of a parent, or `blank`.
fn parent_key(alloc: Global, parent: Option<&ParentNode>) -> Result<String, RowFault> {
    match parent {
        Some(parent) => have(hex::encode(alloc, parent.encryption_key.as_slice())),
        None => have(String::from_str(alloc, "blank")),
    }
}

/// The encryption key of a node, or `blank`.
pub(crate) fn node_key(alloc: Global, node: Option<&Node>) -> Result<String, RowFault> {
    match node {
        Some(Node::Leaf(leaf)) => leaf_key(alloc, Some(leaf)),
        Some(Node::Parent(parent)) => parent_key(alloc, Some(parent)),
        None => have(String::from_str(alloc, "blank")),
    }
}

/// The part of a tree at a node index in words.
fn part_text(alloc: Global, tree: &PublicTree, index: u32) -> Result<String, RowFault> {
    let mut text = TextWriter::new(alloc);
    match tree.part(index) {
        Some(Part::Leaf { index, node }) => {
            text.add_made(format!(in alloc; "leaf {index} "));
            text.add_made(leaf_key(alloc, node));
        }
        Some(
            Part::Parent {
                node,
                left,
                right,
                middle,
            },
        ) => {
            text.add("parent ");
            text.add_made(parent_key(alloc, node));
            text.add_made(format!(in alloc; " {left} {right} {middle}"));
        }
        None => text.add("none"),
    }
    text.finish()
}

/// `part | TREE | NODE INDEX`: a leaf by its index and its key; or a parent by its key, the node indices of its children, and the
/// index of the first leaf under the right one; or `none`.
pub(crate) fn part(row: &Row) -> Result<CallResult, RowFault> {
    row.has(2);
    let tree = row.tree(1)?;
    let index = row.number(2);
    let text = part_text(row.alloc, &tree, index);
    drop(tree);
    CallResult::of(text)
}

/// The key of the node at a node index, and its key if it is a parent.
fn node_text(alloc: Global, tree: &PublicTree, index: u32) -> Result<String, RowFault> {
    let mut text = TextWriter::new(alloc);
    text.add_made(node_key(alloc, tree.node(index)));
    text.add(" ");
    text.add_made(parent_key(alloc, tree.parent(index)));
    text.finish()
}

/// `node | TREE | NODE INDEX`: the key of the node there, and the key of the parent there; each may be `blank`.
pub(crate) fn node(row: &Row) -> Result<CallResult, RowFault> {
    row.has(2);
    let tree = row.tree(1)?;
    let index = row.number(2);
    let text = node_text(row.alloc, &tree, index);
    drop(tree);
    CallResult::of(text)
}

/// `leaf | TREE | INDEX`: the key of a leaf, or `blank`.
pub(crate) fn leaf(row: &Row) -> Result<CallResult, RowFault> {
    row.has(2);
    let tree = row.tree(1)?;
    let index = row.number(2);
    let text = leaf_key(row.alloc, tree.leaf(index));
    drop(tree);
    CallResult::of(text)
}

/// `split_leaves | NUMBERS | NUMBER`: the leaves to the left of a leaf, and the others.
pub(crate) fn split(row: &Row) -> Result<CallResult, RowFault> {
    row.has(2);
    let numbers = row.numbers(1);
    let (front, rest) = split_leaves(numbers.as_slice(), row.number(2));
    let mut text = TextWriter::new(row.alloc);
    text.add_made(numbers_text(row.alloc, front));
    text.add(" / ");
    text.add_made(numbers_text(row.alloc, rest));
    CallResult::of(text.finish())
}

// ---- sizes

/// `tree_size | BYTES`: how many nodes and members the tree of an encoding has, or why it has none.
pub(crate) fn size(row: &Row) -> Result<CallResult, RowFault> {
    row.has(1);
    let bytes = row.bytes(1);
    match PublicTree::decode(row.alloc, bytes.as_slice()) {
        Ok(tree) => {
            let (nodes, members) = (tree.nodes().len(), tree.member_count());
            drop(tree);
            CallResult::of(have(format!(in row.alloc; "{nodes} {members}")))
        }
        Err(fault) => CallResult::fault(row.alloc, &fault),
    }
}

/// How many leaves and members the tree of nodes has, or why they form none.
fn form_result(alloc: Global, nodes: Vec<Option<Node>>) -> Result<CallResult, RowFault> {
    match PublicTree::from_nodes(nodes) {
        Ok(tree) => {
            let (leaves, members) = (tree.leaf_count(), tree.member_count());
            drop(tree);
            CallResult::of(have(format!(in alloc; "{leaves} {members}")))
        }
        Err((fault, nodes)) => {
            drop(nodes);
            CallResult::fault(alloc, &fault)
        }
    }
}

/// Makes nodes that many: drops the last ones, or adds blank ones.
fn resize(row: &Row, nodes: &mut Vec<Option<Node>>, count: usize) {
    nodes.truncate(count);
    for _ in 0..count.saturating_sub(nodes.len()) {
        row.require(nodes.push(None));
    }
}

/// `nodes_form | BYTES | COUNT`: how many leaves and members the tree of nodes has, of which there are that many, those
/// of a ratchet_tree first and blank ones after them; or why they form none.
pub(crate) fn nodes_form(row: &Row) -> Result<CallResult, RowFault> {
    row.has(2);
    match decode_ratchet_tree(row.alloc, row.bytes(1).as_slice()) {
        Ok(mut nodes) => {
            resize(row, &mut nodes, row.number(2) as usize);
            form_result(row.alloc, nodes)
        }
        Err(_) => Err(RowFault::Field(1, "a tree")),
    }
}

/// `extended_blank | LEAVES`: how many leaves a blank tree of that many has once it is extended, or why there is none
/// or can't be extended.
pub(crate) fn extended_blank(row: &Row) -> Result<CallResult, RowFault> {
    row.has(1);
    let extended = match PublicTree::blank(row.alloc, row.number(1)) {
        Ok(mut tree) => {
            let extended = tree.extend();
            let leaves = tree.leaf_count();
            drop(tree);
            extended.map(|()| leaves)
        }
        Err(fault) => Err(fault),
    };
    match extended {
        Ok(leaves) => CallResult::of(have(format!(in row.alloc; "{leaves}"))),
        Err(fault) => CallResult::fault(row.alloc, &fault),
    }
}

/// `blank_leaf | TREE | NUMBER`: the first blank leaf from this one on, or `none`.
pub(crate) fn blank_leaf(row: &Row) -> Result<CallResult, RowFault> {
    row.has(2);
    let tree = row.tree(1)?;
    let start = row.number(2);
    let next = tree.next_blank_leaf(start);
    let first = tree.first_blank_leaf();
    drop(tree);
    if start == 0 && next != first {
        return Err(RowFault::TwoResults);
    }
    number_result(row.alloc, next)
}

// ---- changes

/// How many leaves a tree has, and its encoding; `blank` if it has none.
pub(crate) fn tree_text(alloc: Global, tree: &PublicTree) -> Result<String, RowFault> {
    let mut text = TextWriter::new(alloc);
    text.add_number(u64::from(tree.leaf_count()));
    text.add(" ");
    match encode_ratchet_tree(alloc, tree.nodes()) {
        Ok(bytes) => text.add_digits(bytes.as_slice()),
        Err(_) => text.add("blank"),
    }
    text.finish()
}

/// Makes a leaf of a tree blank.
fn make_blank(row: &Row, tree: &mut PublicTree, leaf: u32) {
    match tree.set_leaf(leaf, None) {
        Ok(()) => {}
        Err(refused) => {
            drop(refused);
            row.record(RowFault::OutOfMemory);
        }
    }
}

/// Changes a tree.
fn change(row: &Row, tree: &mut PublicTree, word: &str, leaf: u32) {
    match word {
        "blank_path" => row.require(tree.blank_path(leaf)),
        "blank_leaf" => make_blank(row, tree, leaf),
        "add_unmerged" => row.require(tree.add_unmerged(row.alloc, leaf)),
        "extend" => row.require(tree.extend()),
        "truncate" => tree.truncate(),
        _ => row.refuse(3, "a change"),
    }
}

/// `changed | TREE | LEAF | CHANGES`: how many leaves a tree has after changes at a leaf, and its encoding.
pub(crate) fn changed(row: &Row) -> Result<CallResult, RowFault> {
    row.has(3);
    let mut tree = row.tree(1)?;
    let leaf = row.number(2);
    for step in row.field(3) {
        let word = only_word(std::slice::from_ref(step)).unwrap_or("");
        change(row, &mut tree, word, leaf);
    }
    let text = tree_text(row.alloc, &tree);
    drop(tree);
    CallResult::of(text)
}

/// A leaf and the tree in which it is, in words.
fn seat_text(
    alloc: Global,
    index: u32,
    tree: Result<String, RowFault>,
) -> Result<String, RowFault> {
    let mut text = TextWriter::new(alloc);
    text.add_number(u64::from(index));
    text.add(" / ");
    text.add_made(tree);
    text.finish()
}

/// `seat | TREE`: the leaf of a new member, how many leaves the tree has then, and its encoding.
pub(crate) fn seat(row: &Row) -> Result<CallResult, RowFault> {
    row.has(1);
    let mut tree = row.tree(1)?;
    let found = tree.seat();
    let text = tree_text(row.alloc, &tree);
    drop(tree);
    match found {
        Ok(index) => CallResult::of(seat_text(row.alloc, index, text)),
        Err(fault) => CallResult::fault(row.alloc, &fault),
    }
}

/// `copied | TREE`: how many leaves the copy of a tree has, and its encoding.
pub(crate) fn copied(row: &Row) -> Result<CallResult, RowFault> {
    row.has(1);
    let tree = row.tree(1)?;
    let copy = tree.try_clone(row.alloc);
    drop(tree);
    match copy {
        Ok(copy) => {
            let text = tree_text(row.alloc, &copy);
            drop(copy);
            CallResult::of(text)
        }
        Err(_) => Err(RowFault::OutOfMemory),
    }
}
