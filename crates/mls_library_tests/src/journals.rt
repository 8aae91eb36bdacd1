//! Changes of a tree that a journal undoes (RFC 9420, 7.7 and 12.1): the tree is then the one before them, node by
//! node, and caches the hashes of the subtrees that no change touched.

use crate::kept_hashes::{empty_node_indices, whole_text, whole_text_anew};
use crate::support::{
    GROWN, TWO_OF_FOUR, bytes, expect_text, have, key_package, list_text, suite, tree_text,
    tree_with,
};
use mls_apply::{ApplyFault, ListItem, apply_list_in_place};
use mls_hash::fill_hashes;
use mls_msgs::{Proposal, Sender, decode_proposal};
use mls_nodes::Node;
use mls_tree::{Journal, PublicTree};
use std::alloc::Global;
use std::process::Abort;

/// A change of a tree.
#[derive(Clone, Copy)]
enum Change {
    /// A leaf becomes blank.
    Leaf(u32),
    /// The parents above a leaf become blank.
    Path(u32),
    /// A leaf's index is added to the lists above it.
    Entry(u32),
    /// Two leaf indices are added to the lists above them, at once.
    Entries(u32, u32),
    /// The tree is extended.
    Growth,
    /// The tree is truncated.
    Halving,
}

/// Changes a tree. A leaf that it doesn't have is no change.
fn make_change(
    rt: &impl Abort,
    alloc: Global,
    tree: &mut PublicTree,
    journal: &mut Journal,
    change: Change,
) {
    let leaves = tree.leaf_count();
    match change {
        Change::Leaf(index) if index < leaves => have(rt, journal.set_leaf(tree, index, None)),
        Change::Path(index) if index < leaves => have(rt, journal.blank_path(alloc, tree, index)),
        Change::Entry(index) if index < leaves => have(
            rt,
            journal.add_unmerged(alloc, tree, index),
        ),
        Change::Entries(low, high) => add_two(rt, alloc, tree, journal, low, high),
        Change::Growth => have(rt, journal.extend(tree)),
        Change::Halving => have(rt, journal.truncate(alloc, tree)),
        _ => panic!(rt; "a leaf of the tree"),
    }
}

/// How many leaves a tree has, and its nodes.
fn nodes_text(rt: &impl Abort, alloc: Global, tree: &PublicTree) -> String {
    let leaves = tree.leaf_count();
    let nodes = tree_text(rt, alloc, tree);
    have(rt, format!(in alloc; "{leaves} {nodes}"))
}

/// Whether the nodes of two texts are the same.
fn comparison(rt: &impl Abort, alloc: Global, leaves: u32, before: &str, after: &str) -> String {
    let same = before == after;
    have(rt, format!(in alloc; "{leaves} {same}"))
}

/// How many leaves a tree has after changes, and whether it is the one before them once they are undone.
fn changed_and_back(
    rt: &impl Abort,
    alloc: Global,
    tree: &mut PublicTree,
    changes: &[Change],
) -> String {
    let before = nodes_text(rt, alloc, tree);
    let mut journal = Journal::new(alloc);
    for step in changes {
        make_change(rt, alloc, tree, &mut journal, *step);
    }
    let leaves = tree.leaf_count();
    let changed = nodes_text(rt, alloc, tree);
    if before == changed {
        panic!(rt; "a change");
    }
    journal.rollback(tree);
    let after = nodes_text(rt, alloc, tree);
    comparison(rt, alloc, leaves, before.as_str(), after.as_str())
}

/// The same of the tree of four leaves, one of which is unmerged.
fn back(rt: &impl Abort, alloc: Global, changes: &[Change]) -> String {
    let mut tree = tree_with(rt, alloc, GROWN);
    changed_and_back(rt, alloc, &mut tree, changes)
}

#[test]
fn changes_are_taken_back(rt: HostRuntime) {
    let alloc = rt.alloc();
    const CHANGES: &[(&[Change], &str)] = &[
        (&[Change::Leaf(1)], "4 true"),
        (&[Change::Path(0)], "4 true"),
        (&[Change::Entry(2)], "4 true"),
        (&[Change::Growth], "8 true"),
        (&[Change::Growth, Change::Growth], "16 true"),
        (&[Change::Growth, Change::Entry(5)], "8 true"),
        (
            &[
                Change::Leaf(3),
                Change::Path(3),
                Change::Leaf(2),
                Change::Path(2),
                Change::Halving,
            ],
            "2 true",
        ),
        (
            &[
                Change::Leaf(3),
                Change::Leaf(2),
                Change::Leaf(1),
                Change::Halving,
                Change::Growth,
            ],
            "2 true",
        ),
        (
            &[
                Change::Entry(1),
                Change::Entry(2),
                Change::Path(2),
                Change::Entry(0),
            ],
            "4 true",
        ),
    ];
    for (input, expected) in CHANGES {
        expect_text(&rt, back(&rt, alloc, *input), expected);
    }
}

/// Fills the hash cache of a tree, changes the tree, and undoes the changes. Returns the node indices of the slots that
/// are empty after the changes, those of the slots that are empty once they are undone, and how many are filled then.
fn emptied_and_back(
    rt: &impl Abort,
    alloc: Global,
    tree: &mut PublicTree,
    changes: &[Change],
) -> String {
    have(rt, fill_hashes(alloc, suite(rt), tree));
    let mut journal = Journal::new(alloc);
    for step in changes {
        make_change(rt, alloc, tree, &mut journal, *step);
    }
    let changed = empty_node_indices(rt, alloc, tree);
    journal.rollback(tree);
    let back = empty_node_indices(rt, alloc, tree);
    let filled = have(rt, fill_hashes(alloc, suite(rt), tree));
    have(rt, format!(in alloc; "{changed} {back} {filled}"))
}

/// In a tree of eight leaves, a change of a leaf empties the slots of the leaf and of its direct path (RFC 9420, 4.1.2),
/// which are four. A change of the parents above a leaf empties the three slots of its direct path. Undoing leaves these
/// slots empty, and no others. It removes the slots that extending added. A truncated tree has its slots again, except
/// those of the parents above the part that remained.
#[test]
fn undoing_empties_no_other_slot(rt: HostRuntime) {
    let alloc = rt.alloc();
    const CHANGES: &[(&[Change], &str)] = &[
        (&[Change::Leaf(1)], "[1, 2, 3, 7] [1, 2, 3, 7] 4"),
        (&[Change::Path(0)], "[1, 3, 7] [1, 3, 7] 3"),
        (&[Change::Entry(2)], "[3, 5, 7] [3, 5, 7] 3"),
        (&[Change::Entries(0, 1)], "[1, 3, 7] [1, 3, 7] 3"),
        (
            &[Change::Growth],
            "[15, 16, 17, 18, 19, 20, 21, 22, 23, 24, 25, 26, 27, 28, 29, 30] [] 0",
        ),
        (
            &[Change::Growth, Change::Halving, Change::Leaf(3)],
            "[3, 5, 6] [3, 5, 6, 7] 4",
        ),
        (&[Change::Halving], "[] [7] 1"),
        (
            &[Change::Halving, Change::Growth],
            "[7, 8, 9, 10, 11, 12, 13, 14] [7] 1",
        ),
        (
            &[Change::Leaf(3), Change::Leaf(2), Change::Halving],
            "[] [3, 4, 5, 6, 7] 5",
        ),
    ];
    for (changes, expected) in CHANGES {
        let mut tree = tree_with(&rt, alloc, GROWN);
        have(&rt, tree.extend());
        let found = emptied_and_back(&rt, alloc, &mut tree, *changes);
        expect_text(&rt, found, expected);
    }
}

/// The tree of [`TWO_OF_FOUR`], but the signature of leaf 0 has 300 bytes.
const LONG_LEAF: &str =
    "4181010101a001b0000101400200010200010000020001010000000000000000ffffffffffffffff00412c00010203040506\
    0708090a0b0c0d0e0f101112131415161718191a1b1c1d1e1f202122232425262728292a2b2c2d2e2f303132333435363738\
    393a3b3c3d3e3f404142434445464748494a4b4c4d4e4f505152535455565758595a5b5c5d5e5f606162636465666768696a\
    6b6c6d6e6f707172737475767778797a7b7c7d7e7f808182838485868788898a8b8c8d8e8f909192939495969798999a9b9c\
    9d9e9fa0a1a2a3a4a5a6a7a8a9aaabacadaeafb0b1b2b3b4b5b6b7b8b9babbbcbdbebfc0c1c2c3c4c5c6c700000000000000\
    0000000000000000000000000000000000000000000000000000000000000000000000000000000000000000000000000000\
    00000000000000000000000000000000000000000000000000000000000000000000000000000000000000000000010101a2\
    01b2000101420200010200010000020001010000000000000000ffffffffffffffff0001c2";

/// Fills the hash cache of a tree, makes leaf 0 blank, and undoes this with the logged hashes. Returns the node indices of the
/// slots that are empty after the change and once it is undone, how many are filled then, and whether the tree has the nodes
/// and the hashes that it had.
fn removed_and_back(rt: &impl Abort, alloc: Global, encoding: &str) -> String {
    let mut tree = tree_with(rt, alloc, encoding);
    have(rt, fill_hashes(alloc, suite(rt), &mut tree));
    let before = whole_text(rt, alloc, &tree);
    let mut journal = Journal::new(alloc);
    if tree.leaf_count() == 0 {
        panic!(rt; "a leaf");
    }
    have(rt, journal.set_leaf(&mut tree, 0, None));
    let changed = empty_node_indices(rt, alloc, &tree);
    journal.rollback_with_hashes(&mut tree);
    let back = empty_node_indices(rt, alloc, &tree);
    let is_same = before == whole_text(rt, alloc, &tree);
    let filled = have(rt, fill_hashes(alloc, suite(rt), &mut tree));
    have(rt, format!(in alloc; "{changed} {back} {filled} {is_same}"))
}

/// The hash of a leaf of more than 256 bytes is logged and put back. Those of a short leaf and of blank parents are not.
#[test]
fn hashes_of_long_nodes_are_put_back(rt: HostRuntime) {
    let alloc = rt.alloc();
    const TREES: &[(&str, &str)] = &[
        (LONG_LEAF, "[0, 1, 3] [1, 3] 2 true"),
        (TWO_OF_FOUR, "[0, 1, 3] [0, 1, 3] 3 true"),
    ];
    for (encoding, expected) in TREES {
        expect_text(&rt, removed_and_back(&rt, alloc, encoding), expected);
    }
}

/// A change that is final remains when those after it are undone.
fn kept(rt: &impl Abort, alloc: Global, changes: (Change, Change)) -> String {
    let mut tree = tree_with(rt, alloc, GROWN);
    let mut journal = Journal::new(alloc);
    make_change(rt, alloc, &mut tree, &mut journal, changes.0);
    journal.discard();
    let before = nodes_text(rt, alloc, &tree);
    make_change(rt, alloc, &mut tree, &mut journal, changes.1);
    journal.rollback(&mut tree);
    let after = nodes_text(rt, alloc, &tree);
    comparison(
        rt,
        alloc,
        tree.leaf_count(),
        before.as_str(),
        after.as_str(),
    )
}

#[test]
fn kept_changes_stay(rt: HostRuntime) {
    let alloc = rt.alloc();
    const CHANGES: &[((Change, Change), &str)] = &[
        ((Change::Growth, Change::Leaf(0)), "8 true"),
        ((Change::Leaf(1), Change::Growth), "4 true"),
    ];
    for (input, expected) in CHANGES {
        expect_text(&rt, kept(&rt, alloc, *input), expected);
    }
}

/// The node indices that a journal returns after changes of the tree of four leaves, one of which is unmerged.
fn changed_node_indices(rt: &impl Abort, alloc: Global, changes: &[Change]) -> String {
    let mut tree = tree_with(rt, alloc, GROWN);
    let mut journal = Journal::new(alloc);
    for step in changes {
        make_change(rt, alloc, &mut tree, &mut journal, *step);
    }
    let node_indices = have(rt, journal.changed_node_indices(alloc, &tree));
    list_text(rt, alloc, node_indices.as_slice())
}

#[test]
fn changed_node_indices_are_returned(rt: HostRuntime) {
    let alloc = rt.alloc();
    const CHANGES: &[(&[Change], &str)] = &[
        (&[], "[]"),
        (&[Change::Leaf(1)], "[2]"),
        (&[Change::Path(0)], "[1, 3]"),
        (&[Change::Entry(2)], "[3]"),
        (&[Change::Leaf(1), Change::Growth], "[2]"),
        (&[Change::Growth, Change::Halving], "[]"),
        (
            &[Change::Leaf(3), Change::Leaf(2), Change::Halving],
            "[3, 4, 6]",
        ),
    ];
    for (input, expected) in CHANGES {
        expect_text(&rt, changed_node_indices(&rt, alloc, *input), expected);
    }
}

/// The tree of [`GROWN`], but at node 3 the leaves 3 and 1 are unmerged, in this order.
const UNSORTED: &str =
    "40ea0101018001b0000101400200010200010000020001032093665b04245cc070b1bdf028955a30b2dc700e38eb40845f27\
    4e3075f50535910001c0010201d1206a02415c428629f3da6145086a76a2675a238d2c57ad21584dba9d231107a0f7000101\
    01a101b1000101410200010200010000020001010000000000000000ffffffffffffffff0001c1010201d300080000000300\
    000001010101a201b2000101420200010200010000020001010000000000000000ffffffffffffffff0001c200010101a301\
    b3000101430200010200010000020001010000000000000000ffffffffffffffff0001c3";

/// The unmerged leaves of the parent at a node index.
fn unmerged_text(rt: &impl Abort, alloc: Global, tree: &PublicTree, node_index: u32) -> String {
    match tree.node(node_index) {
        Some(Node::Parent(parent)) => list_text(rt, alloc, parent.unmerged.as_slice()),
        _ => panic!(rt; "a parent"),
    }
}

/// Adds two leaf indices to the unmerged lists above them, at once.
fn add_two(
    rt: &impl Abort,
    alloc: Global,
    tree: &mut PublicTree,
    journal: &mut Journal,
    low: u32,
    high: u32,
) {
    if low < high && high < tree.leaf_count() {
        have(rt, tree.check_unmerged_fit(alloc, &[low, high]));
        have(rt, journal.add_all_unmerged(alloc, tree, &[low, high]))
    } else {
        panic!(rt; "two leaves of the tree, in increasing order")
    }
}

/// The unmerged leaves of the parents at node indices 1 and 3 after two leaf indices were added at once, and whether the
/// tree is the one before once this is undone.
fn added_at_once(rt: &impl Abort, alloc: Global, encoding: &str, added: (u32, u32)) -> String {
    let mut tree = tree_with(rt, alloc, encoding);
    let before = nodes_text(rt, alloc, &tree);
    let mut journal = Journal::new(alloc);
    add_two(rt, alloc, &mut tree, &mut journal, added.0, added.1);
    let left = unmerged_text(rt, alloc, &tree, 1);
    let root = unmerged_text(rt, alloc, &tree, 3);
    journal.rollback(&mut tree);
    let same = before == nodes_text(rt, alloc, &tree);
    have(rt, format!(in alloc; "{left} {root} {same}"))
}

/// The parent at node index 5 is blank.
#[test]
fn leaf_indices_are_added_at_once(rt: HostRuntime) {
    let alloc = rt.alloc();
    const ADDED: &[(&str, (u32, u32), &str)] = &[
        (GROWN, (0, 1), "[0, 1] [0, 1, 3] true"),
        (GROWN, (0, 2), "[0] [0, 2, 3] true"),
        (GROWN, (1, 3), "[1] [1, 3] true"),
        (GROWN, (2, 3), "[] [2, 3] true"),
        (UNSORTED, (0, 1), "[0, 1] [0, 3, 1] true"),
        (UNSORTED, (1, 2), "[1] [2, 3, 1] true"),
    ];
    for (encoding, added, expected) in ADDED {
        expect_text(&rt, added_at_once(&rt, alloc, encoding, *added), expected);
    }
}

/// The items of a list that has these proposals, each after its sender.
fn items_of<'a>(
    rt: &impl Abort,
    alloc: Global,
    proposals: &'a [(u32, Proposal)],
) -> Vec<ListItem<'a>> {
    let mut items = Vec::new(alloc);
    for (sender, proposal) in proposals {
        let item = ListItem::new(Sender::Member(*sender), proposal);
        have(rt, items.push(item));
    }
    items
}

/// Returns the proposal of a text.
fn proposal(rt: &impl Abort, alloc: Global, text: &str) -> Proposal {
    let bytes = bytes(rt, alloc, text);
    have(rt, decode_proposal(alloc, bytes.as_slice()))
}

/// A list of this many Adds by member 0.
fn adds(rt: &impl Abort, alloc: Global, count: u32) -> Vec<(u32, Proposal)> {
    let mut list = Vec::new(alloc);
    for member in 0..count {
        let package = key_package(rt, alloc, 1 + member % 15);
        let add = have(rt, format!(in alloc; "0001{package}"));
        have(rt, list.push((0, proposal(rt, alloc, add.as_str()))));
    }
    list
}

/// Applies a list to a tree. Returns why the list is refused, if it is.
fn apply(
    rt: &impl Abort,
    alloc: Global,
    tree: &mut PublicTree,
    journal: &mut Journal,
    proposals: &[(u32, Proposal)],
) -> Option<ApplyFault> {
    let list = items_of(rt, alloc, proposals);
    apply_list_in_place(alloc, tree, journal, list.as_slice()).err()
}

/// Returns how many leaves a tree of four has after this many Adds, and whether it is the one before them once they are
/// undone.
fn added_and_back(rt: &impl Abort, alloc: Global, count: u32) -> String {
    let proposals = adds(rt, alloc, count);
    let mut tree = tree_with(rt, alloc, TWO_OF_FOUR);
    let before = nodes_text(rt, alloc, &tree);
    let mut journal = Journal::new(alloc);
    let fault = apply(rt, alloc, &mut tree, &mut journal, proposals.as_slice());
    assert!(rt; fault.is_none());
    let leaves = tree.leaf_count();
    journal.rollback(&mut tree);
    let after = nodes_text(rt, alloc, &tree);
    comparison(rt, alloc, leaves, before.as_str(), after.as_str())
}

#[test]
fn many_adds_are_taken_back(rt: HostRuntime) {
    let alloc = rt.alloc();
    const COUNTS: &[(u32, &str)] = &[
        (1, "4 true"),
        (2, "4 true"),
        (3, "8 true"),
        (1000, "1024 true"),
    ];
    for (count, expected) in COUNTS {
        expect_text(&rt, added_and_back(&rt, alloc, *count), expected);
    }
}

/// The list of these proposals, as member 0's.
fn list_of(rt: &impl Abort, alloc: Global, proposals: &[&str]) -> Vec<(u32, Proposal)> {
    let mut list = Vec::new(alloc);
    for text in proposals {
        have(rt, list.push((0, proposal(rt, alloc, text))));
    }
    list
}

/// Applies a list that can't be applied to its end, and undoes what was applied. Returns why the list is refused, and
/// whether the nodes and hashes were other ones than `before` in between.
fn applied_and_back(
    rt: &impl Abort,
    alloc: Global,
    tree: &mut PublicTree,
    proposals: &[&str],
    before: &str,
) -> String {
    let list = list_of(rt, alloc, proposals);
    let mut journal = Journal::new(alloc);
    let fault = apply(rt, alloc, tree, &mut journal, list.as_slice());
    let changed = whole_text(rt, alloc, tree);
    journal.rollback(tree);
    let is_changed = before != changed.as_str();
    have(rt, format!(in alloc; "{fault:?} {is_changed}"))
}

/// Fills the hashes of a tree, then applies and undoes a list. Returns how many hashes were filled, why the list is
/// refused, whether the tree was another one in between, and whether it has the nodes and the hashes that it had in the
/// end, as it caches them and as they are computed again; and how many hashes are filled then.
fn refused_and_back(rt: &impl Abort, alloc: Global, proposals: &[&str]) -> String {
    let mut tree = tree_with(rt, alloc, GROWN);
    let filled = have(rt, fill_hashes(alloc, suite(rt), &mut tree));
    let before = whole_text(rt, alloc, &tree);
    let applied = applied_and_back(rt, alloc, &mut tree, proposals, before.as_str());
    let is_same = before == whole_text(rt, alloc, &tree);
    let is_same_anew = before == whole_text_anew(rt, alloc, &tree);
    let again = have(rt, fill_hashes(alloc, suite(rt), &mut tree));
    have(
        rt,
        format!(in alloc; "{filled} {applied} {is_same} {is_same_anew} {again}"),
    )
}

/// A leaf is removed twice, before and after other proposals. In this tree of four leaves, the slots of each removed or
/// updated leaf and of its direct path have to be filled again, and no others.
#[test]
fn the_front_of_a_list_is_taken_back(rt: HostRuntime) {
    let alloc = rt.alloc();
    const UPDATE: &str = "0002019001b0000101400200010200010000020001020001c0";
    const LISTS: &[(&[&str], u32)] = &[
        (&["000300000001", "000300000001"], 3),
        (&["000300000003", UPDATE, "000300000002", "000300000003"], 6),
        (&["000300000002", "000300000002", "000300000003"], 3),
    ];
    for (proposals, emptied) in LISTS {
        let expected = have(
            &rt,
            format!(in alloc; "7 Some(NoSuchLeaf) true true true {emptied}"),
        );
        let found = refused_and_back(&rt, alloc, *proposals);
        expect_text(&rt, found, expected.as_str());
    }
}
