//! The index of a tree's keys while the tree changes (RFC 9420, 7.3).

use crate::support::{PATH, expect_text, have, leaf_node, leaf_with, tree_with, updated_leaf};
use mls_index::{KeyKind, TreeIndex};
use mls_tree::{Journal, PublicTree};
use std::alloc::Global;
use std::process::Abort;

/// Which of the keys `91` and `a1` a tree has.
fn both(rt: &impl Abort, alloc: Global, index: &TreeIndex, tree: &PublicTree) -> String {
    let new = index.has_key(tree, KeyKind::Encryption, &[0x91]);
    let old = index.has_key(tree, KeyKind::Encryption, &[0xa1]);
    have(rt, format!(in alloc; "{new} {old}"))
}

/// Replaces the leaf of member 1 by an update, and stages it.
fn stage_update(
    rt: &impl Abort,
    alloc: Global,
    tree: &mut PublicTree,
    journal: &mut Journal,
    index: &mut TreeIndex,
) {
    let leaf = updated_leaf(rt, alloc, 1);
    let leaf = leaf_node(rt, alloc, leaf.as_str());
    assert!(rt; 1 < tree.leaf_count());
    have(rt, journal.set_leaf(tree, 1, Some(leaf)));
    have(rt, index.stage(tree, &[2]));
}

/// Accepts the update, or refuses it.
fn settle(tree: &mut PublicTree, journal: &mut Journal, index: &mut TreeIndex, is_accepted: bool) {
    if is_accepted {
        index.accept(tree, &[2]);
    } else {
        journal.rollback(tree);
        index.revert();
    }
}

/// Which of the keys the tree has once member 1 has updated its leaf, and again once that is accepted or refused.
fn updated(rt: &impl Abort, alloc: Global, is_accepted: bool) -> String {
    let mut tree = tree_with(rt, alloc, PATH);
    let mut index = have(rt, TreeIndex::of(alloc, &tree));
    let mut journal = Journal::new(alloc);
    stage_update(rt, alloc, &mut tree, &mut journal, &mut index);
    let entered = both(rt, alloc, &index, &tree);
    settle(&mut tree, &mut journal, &mut index, is_accepted);
    let settled = both(rt, alloc, &index, &tree);
    have(rt, format!(in alloc; "{entered}, {settled}"))
}

#[test]
fn keys_that_come_and_go(rt: HostRuntime) {
    let alloc = rt.alloc();
    expect_text(&rt, updated(&rt, alloc, true), "true false, true false");
    expect_text(&rt, updated(&rt, alloc, false), "true false, false true");
}

/// Gives the keys of member 1 to the blank leaf 3, and removes leaf 1 or not.
fn move_keys(rt: &impl Abort, alloc: Global, tree: &mut PublicTree, is_removed: bool) {
    let leaf = leaf_with(rt, alloc, 1, "a", "02");
    let leaf = leaf_node(rt, alloc, leaf.as_str());
    have(rt, tree.set_leaf(3, Some(leaf)));
    if is_removed {
        have(rt, tree.set_leaf(1, None));
    }
}

/// Whose keys are their own: those of leaf 3, of leaf 1, and of the node indices 0 and 6.
fn unique_keys(rt: &impl Abort, alloc: Global, index: &TreeIndex, tree: &PublicTree) -> String {
    let encryption = index.has_unique_key(tree, KeyKind::Encryption, 6);
    let signature = index.has_unique_key(tree, KeyKind::Signature, 6);
    let other = index.has_unique_key(tree, KeyKind::Signature, 2);
    let both = index.have_unique_keys(tree, KeyKind::Encryption, &[0, 6]);
    let parent = index.have_unique_keys(tree, KeyKind::Signature, &[0, 1]);
    have(
        rt,
        format!(in alloc; "{encryption} {signature} {other} {both} {parent}"),
    )
}

/// Whose keys are their own once those of member 1 are moved.
fn moved(rt: &impl Abort, alloc: Global, is_removed: bool) -> String {
    let mut tree = tree_with(rt, alloc, PATH);
    let mut index = have(rt, TreeIndex::of(alloc, &tree));
    move_keys(rt, alloc, &mut tree, is_removed);
    have(rt, index.stage(&tree, &[2, 6, 2]));
    unique_keys(rt, alloc, &index, &tree)
}

#[test]
fn keys_that_move(rt: HostRuntime) {
    let alloc = rt.alloc();
    expect_text(
        &rt,
        moved(&rt, alloc, false),
        "false false false false true",
    );
    expect_text(&rt, moved(&rt, alloc, true), "true true true true true");
}
