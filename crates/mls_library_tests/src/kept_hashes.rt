//! Hashes that a tree caches of its subtrees (RFC 9420, 7.8): which of them a change empties, and how many are filled.

use crate::support::{
    TWO_LEAVES, TWO_LEAVES_HASH, TWO_OF_FOUR, bytes, expect_text, have, joined_leaf, leaf_node,
    list_text, suite, text, tree_text, tree_with,
};
use mls_hash::{HashFault, Suite, decode_with_leaf_hashes, fill_hashes, filled_hash, tree_hash};
use mls_nodes::{decode_ratchet_tree, encode_ratchet_tree};
use mls_tree::{HashKind, PublicTree};
use std::alloc::Global;
use std::process::Abort;

/// A change of a tree.
#[derive(Clone, Copy)]
enum Change {
    /// None.
    Nothing,
    /// A leaf is replaced, by that of its key package.
    Leaf(u32),
    /// The parents above a leaf become blank.
    Path(u32),
    /// A leaf's index is added to the lists above it.
    Entry(u32),
    /// A parent becomes blank.
    Parent(u32),
    /// The tree is extended.
    Growth,
    /// The tree is truncated.
    Halving,
}

/// Changes a tree.
fn make_change(rt: &impl Abort, alloc: Global, tree: &mut PublicTree, change: Change) {
    match change {
        Change::Nothing => (),
        Change::Leaf(index) => {
            let leaf = joined_leaf(rt, alloc, index);
            have(
                rt,
                tree.set_leaf(index, Some(leaf_node(rt, alloc, leaf.as_str()))),
            )
        }
        Change::Path(index) => have(rt, tree.blank_path(index)),
        Change::Entry(index) => have(rt, tree.add_unmerged(alloc, index)),
        Change::Parent(node_index) => have(rt, tree.put_parent(node_index, None)),
        Change::Growth => have(rt, tree.extend()),
        Change::Halving => tree.truncate(),
    }
}

/// The node indices, of a tree of at most 16 leaves, of which it caches no hash.
pub(crate) fn empty_node_indices(rt: &impl Abort, alloc: Global, tree: &PublicTree) -> String {
    let mut node_indices = Vec::new(alloc);
    for node_index in 0..31 {
        if tree.part(node_index).is_some() && tree.kept_hash(node_index).is_none() {
            have(rt, node_indices.push(node_index));
        }
    }
    list_text(rt, alloc, node_indices.as_slice())
}

/// How many leaves a tree has after a change, of which node indices it caches no hash then, and how many hashes are
/// filled.
fn filled_after(rt: &impl Abort, alloc: Global, tree: &mut PublicTree, change: Change) -> String {
    make_change(rt, alloc, tree, change);
    let leaves = tree.leaf_count();
    let empty = empty_node_indices(rt, alloc, tree);
    let filled = fill_by(rt, alloc, 1, tree);
    have(rt, format!(in alloc; "{leaves} {empty} {filled}"))
}

#[test]
fn emptied_node_indices(rt: HostRuntime) {
    const STEPS: &[(Change, &str)] = &[
        (
            Change::Nothing,
            "8 [0, 1, 2, 3, 4, 5, 6, 7, 8, 9, 10, 11, 12, 13, 14] 15",
        ),
        (Change::Nothing, "8 [] 0"),
        (Change::Leaf(5), "8 [7, 9, 10, 11] 4"),
        (Change::Path(5), "8 [7, 9, 11] 3"),
        (Change::Entry(5), "8 [7, 9, 11] 3"),
        (Change::Parent(9), "8 [7, 9, 11] 3"),
        (
            Change::Growth,
            "16 [15, 16, 17, 18, 19, 20, 21, 22, 23, 24, 25, 26, 27, 28, 29, 30] 16",
        ),
        (Change::Halving, "8 [] 0"),
    ];
    let alloc = rt.alloc();
    let mut tree = have(&rt, PublicTree::blank(alloc, 8));
    assert!(rt; tree.hash_kind() == None);
    for (change, expected) in STEPS {
        let found = filled_after(&rt, alloc, &mut tree, *change);
        expect_text(&rt, found, expected);
    }
    have(&rt, tree.reserve_hashes(alloc, HashKind::Sha256));
    assert!(rt; tree.hash_kind() == Some(HashKind::Sha256));
    expect_text(&rt, empty_node_indices(&rt, alloc, &tree), "[]");
}

/// The nodes of a tree, and the tree hash of each node index.
pub(crate) fn whole_text(rt: &impl Abort, alloc: Global, tree: &PublicTree) -> String {
    let mut all = tree_text(rt, alloc, tree);
    for node_index in 0..tree.leaf_count().saturating_mul(2).saturating_sub(1) {
        let hash = have(rt, tree_hash(suite(rt), tree, node_index));
        have(rt, all.push_str(text(rt, alloc, hash.as_slice()).as_str()));
    }
    all
}

/// The same of a tree that is made again of a copy of these nodes, and so caches no hash.
pub(crate) fn whole_text_anew(rt: &impl Abort, alloc: Global, tree: &PublicTree) -> String {
    let written = have(rt, encode_ratchet_tree(alloc, tree.nodes()));
    match PublicTree::from_nodes(have(rt, decode_ratchet_tree(alloc, written.as_slice()))) {
        Ok(tree) => whole_text(rt, alloc, &tree),
        Err(_) => panic!(rt; "a tree"),
    }
}

/// That of `02004040`, the first of these, `4040` and the second.
const LONG_ROOT: &str = "1e1db873b4faac7d7014b9786112b266718fb0615bde2fd3715e83d75a3877547a6e62\
        6867002333444137858d02de09dafb7d6991e556fc612be0dc2d40cae2";

/// That of `020030`, the first of these, `30` and the second.
const MIDDLE_ROOT: &str = "d37a2bcacca3a77f993562bc222ab9764463662aec6c3fecf5167ee7978a8136711076\
        0c8147e2bb333176ddd518f8c9";

/// Fills the hashes of a tree by a suite. Returns how many were empty.
fn fill_by(rt: &impl Abort, alloc: Global, number: u16, tree: &mut PublicTree) -> u32 {
    let suite = have(rt, Suite::from_u16(number));
    have(rt, fill_hashes(alloc, suite, tree))
}

/// Returns the tree hash of a tree of two leaves by a suite.
fn root_hash(rt: &impl Abort, alloc: Global, number: u16, tree: &PublicTree) -> String {
    let suite = have(rt, Suite::from_u16(number));
    let hash = have(rt, tree_hash(suite, tree, 1));
    text(rt, alloc, hash.as_slice())
}

/// Returns how many hashes of a tree of two non-blank leaves are filled by a suite, and then by another one, and the tree
/// hash that is read by each of them after that.
fn filled(rt: &impl Abort, alloc: Global, numbers: (u16, u16)) -> String {
    let (number, other) = numbers;
    let mut tree = tree_with(rt, alloc, TWO_LEAVES);
    let first = fill_by(rt, alloc, number, &mut tree);
    let second = fill_by(rt, alloc, other, &mut tree);
    let hash = root_hash(rt, alloc, number, &tree);
    let other_hash = root_hash(rt, alloc, other, &tree);
    have(
        rt,
        format!(in alloc; "{first} {second} {hash} {other_hash}"),
    )
}

/// The hashes of one hash function are never read for another.
#[test]
fn hashes_of_a_kind_are_kept(rt: HostRuntime) {
    let alloc = rt.alloc();
    let changed = filled(&rt, alloc, (1, 7));
    let expected = have(
        &rt,
        format!(in alloc; "3 3 {TWO_LEAVES_HASH} {MIDDLE_ROOT}"),
    );
    expect_text(&rt, changed, expected.as_str());
    let stayed = filled(&rt, alloc, (4, 6));
    let expected = have(&rt, format!(in alloc; "3 0 {LONG_ROOT} {LONG_ROOT}"));
    expect_text(&rt, stayed, expected.as_str());
}

/// The hash of a subtree is filled with those below it, and no other. There is none of a node that is not there.
#[test]
fn hashes_of_a_subtree_are_filled(rt: HostRuntime) {
    let alloc = rt.alloc();
    let mut tree = tree_with(&rt, alloc, TWO_OF_FOUR);
    let anew = whole_text_anew(&rt, alloc, &tree);
    let computed = have(&rt, tree_hash(suite(&rt), &tree, 1));
    let filled = have(&rt, filled_hash(alloc, suite(&rt), &mut tree, 1));
    let expected = text(&rt, alloc, computed.as_slice());
    expect_text(&rt, text(&rt, alloc, filled.as_slice()), expected.as_str());
    expect_text(&rt, empty_node_indices(&rt, alloc, &tree), "[3, 4, 5, 6]");
    expect_text(&rt, whole_text(&rt, alloc, &tree), anew.as_str());
    match filled_hash(alloc, suite(&rt), &mut tree, 7) {
        Err(HashFault::NoSuchNode) => {}
        _ => panic!(rt; "no node"),
    }
}

/// Checks of which node indices a tree that is read caches no hash, and how many hashes are filled after. The hashes that
/// it caches have to be those of its nodes.
fn check_leaf_hashes(rt: &impl Abort, alloc: Global, encoding: &str, empty: &str, filled: u32) {
    let encoding = bytes(rt, alloc, encoding);
    let mut tree = have(rt, decode_with_leaf_hashes(alloc, suite(rt), encoding));
    expect_text(rt, empty_node_indices(rt, alloc, &tree), empty);
    let anew = whole_text_anew(rt, alloc, &tree);
    expect_text(rt, whole_text(rt, alloc, &tree), anew.as_str());
    assert!(rt; fill_by(rt, alloc, 1, &mut tree) == filled);
    expect_text(rt, whole_text(rt, alloc, &tree), anew.as_str());
}

/// The leaves of a tree that is read are hashed, blank ones too. The hashes of the other nodes are filled after.
#[test]
fn leaves_are_hashed_as_they_are_read(rt: HostRuntime) {
    const TREES: &[(&str, &str, u32)] = &[(TWO_LEAVES, "[1]", 1), (TWO_OF_FOUR, "[1, 3, 5, 6]", 4)];
    for (encoding, empty, filled) in TREES {
        check_leaf_hashes(&rt, rt.alloc(), encoding, empty, *filled);
    }
}

/// The encoding of a tree of 400,000 blank entries and the leaf of member 1 after them.
fn sparse_tree(rt: &impl Abort, alloc: Global) -> Vec<u8> {
    let blanks = have(rt, vec![in alloc; 0u8; 400000]);
    let leaves = bytes(rt, alloc, TWO_LEAVES);
    let mut encoding = bytes(rt, alloc, "80061aa9");
    have(rt, encoding.extend_from_slice(blanks.as_slice()));
    let leaf = leaves.as_slice().get(44..).expect(rt, "a leaf");
    have(rt, encoding.extend_from_slice(leaf));
    encoding
}

/// The last leaf of a large tree of blank nodes is hashed from its bytes.
#[test]
fn the_last_leaf_of_a_large_tree_is_hashed(rt: HostRuntime) {
    let alloc = rt.alloc();
    let tree = have(
        &rt,
        PublicTree::decode(alloc, sparse_tree(&rt, alloc).as_slice()),
    );
    let computed = have(&rt, tree_hash(suite(&rt), &tree, 400000));
    drop(tree);
    let hashed = have(
        &rt,
        decode_with_leaf_hashes(alloc, suite(&rt), sparse_tree(&rt, alloc)),
    );
    assert_eq!(rt; hashed.leaf_count(), 262144);
    let cached = hashed.kept_hash(400000).expect(&rt, "a hash");
    drop(hashed);
    let expected = text(&rt, alloc, computed.as_slice());
    expect_text(&rt, text(&rt, alloc, cached.as_slice()), expected.as_str());
}
