//! The largest group: the most members that a tree holds, which is this library's own limit.

use crate::support::{bytes, expect_text, group_info, have, key_package, suite, text};
use mls_apply::{Applied, ApplyFault, Leaves, PendingProposals, apply_list, resolve_list};
use mls_check::Trusting;
use mls_follow::{Follower, Refusal};
use mls_hash::tree_hash;
use mls_msgs::{Commit, GroupInfo, Profile, Sender};
use mls_nodes::decode_leaf;
use mls_tree::{PublicTree, TreeError};
use mls_wire::{Shared, read_all_of};
use std::alloc::Global;
use std::process::Abort;

/// The most members of a group.
const MOST: u32 = 1_048_576;

/// An external commit in epoch 0, without a Remove, with a path of one node.
const JOINING_MESSAGE: &str =
    "00010001014700000000000000000400030501000601aa01018101b1000101410200010200\
    01000002000103202c8eee82830dd44bbbffaeffae38f629547698198b39cd9280b00999cee948770001c10701d10401aa01bb01c6\
    01e1";

/// Puts the leaf of an encoding at a leaf index.
fn put_leaf(rt: &impl Abort, alloc: Global, tree: &mut PublicTree, index: u32, leaf: &[u8]) {
    let leaf = have(rt, decode_leaf(alloc, leaf));
    let leaf = have(rt, Shared::new(alloc, leaf));
    have(rt, tree.set_leaf(index, Some(leaf)));
}

/// A tree with the most leaves, all of them non-blank except the last ones. A leaf has no keys here, which no list
/// needs.
fn tree_without(rt: &impl Abort, alloc: Global, blank: u32) -> PublicTree {
    let leaf = bytes(rt, alloc, "00000001000000000000020000");
    let mut tree = have(rt, PublicTree::blank(alloc, MOST));
    for index in 0..MOST.saturating_sub(blank) {
        put_leaf(rt, alloc, &mut tree, index, leaf.as_slice());
    }
    tree
}

/// A vector by its body of less than 16,384 bytes.
fn vector(rt: &impl Abort, alloc: Global, body: &str) -> String {
    let length = body.len() / 2 % 16384;
    if length < 64 {
        have(rt, format!(in alloc; "{length:02x}{body}"))
    } else {
        let form = 16384 + length;
        have(rt, format!(in alloc; "{form:04x}{body}"))
    }
}

/// The Adds of these members, as a commit has them in its list.
fn adds_of(rt: &impl Abort, alloc: Global, members: &[u32]) -> String {
    let mut list = String::new(alloc);
    for member in members {
        have(rt, list.push_str("010001"));
        have(rt, list.push_str(key_package(rt, alloc, *member).as_str()));
    }
    list
}

/// A commit with this list and no path.
fn commit_with(rt: &impl Abort, alloc: Global, list: &str) -> Commit {
    let commit = have(rt, format!(in alloc; "{}00", vector(rt, alloc, list)));
    let commit = bytes(rt, alloc, commit.as_str());
    have(rt, read_all_of(alloc, commit.as_slice()))
}

/// How many leaves and members a tree has after a list, and which leaves the list added.
fn applied_text(rt: &impl Abort, alloc: Global, applied: &Applied) -> String {
    let leaves = applied.tree.leaf_count();
    let members = applied.tree.member_count();
    let added = applied.added.as_slice();
    have(rt, format!(in alloc; "{leaves} {members} {added:?}"))
}

/// Applies a list of member 0's to a copy of a tree.
fn applied(
    rt: &impl Abort,
    alloc: Global,
    tree: &PublicTree,
    list: &str,
) -> Result<Applied, ApplyFault> {
    let commit = commit_with(rt, alloc, list);
    let known = PendingProposals::new(alloc);
    let items = have(rt, resolve_list(alloc, &commit, Sender::Member(0), &known));
    apply_list(alloc, tree, items.as_slice())
}

/// Returns how many leaves and members a tree has after a list, and which leaves the list added, or why it is refused.
fn outcome_of(rt: &impl Abort, alloc: Global, tree: &PublicTree, list: &str) -> String {
    match applied(rt, alloc, tree, list) {
        Ok(applied) => applied_text(rt, alloc, &applied),
        Err(fault) => have(rt, format!(in alloc; "{fault}")),
    }
}

/// What each list makes of the tree of the most members without the last ones: a Remove or none, and the Adds of some
/// members.
fn at_the_limit(rt: &impl Abort, alloc: Global, blank: u32, rows: &[(&str, &[u32])]) -> String {
    let tree = tree_without(rt, alloc, blank);
    let mut all = String::new(alloc);
    for (removes, added) in rows {
        let added = adds_of(rt, alloc, added);
        let list = have(rt, format!(in alloc; "{removes}{added}"));
        let outcome = outcome_of(rt, alloc, &tree, list.as_str());
        have(rt, write!(all, "{outcome}; "));
    }
    all
}

/// In a full group an Add takes the leaf of a member that the list removes; if there is none, or one too few, the list
/// is refused. One that removes a leaf twice is refused for that, however many Adds it has; leaves 5 and 65,541 are
/// two.
#[test]
fn a_full_group_adds_whom_it_has_room_for(rt: HostRuntime) {
    let alloc = rt.alloc();
    let remove = "01000300000005";
    let rows = [
        ("", [1].as_slice()),
        (remove, &[1]),
        (remove, &[1, 2]),
        ("0100030000000501000300010005", &[1, 2, 3]),
        ("0100030000000501000300000005", &[1, 2, 3]),
    ];
    let too_many = "a tree has at most 1,048,576 leaves";
    let expected = have(
        &rt,
        format!(in alloc;
            "{too_many}; 1048576 1048576 [5]; {too_many}; {too_many}; a leaf is not set; "
        ),
    );
    expect_text(&rt, at_the_limit(&rt, alloc, 0, &rows), expected.as_str());
}

/// A tree with the most leaves, each of a member with keys of its own, which are four bytes, and a basic credential.
fn full_tree(rt: &impl Abort, alloc: Global) -> PublicTree {
    let mut tree = have(rt, PublicTree::blank(alloc, MOST));
    for index in 0..MOST {
        let leaf = have(
            rt,
            format!(in alloc; "04{index:08x}04{index:08x}00010000000000020001020000"),
        );
        let leaf = bytes(rt, alloc, leaf.as_str());
        put_leaf(rt, alloc, &mut tree, index, leaf.as_slice());
    }
    tree
}

/// A GroupInfo of epoch 0, signed by member 0, without a tree, of a group with this tree hash.
fn info_with(rt: &impl Abort, alloc: Global, tree_hash: &str) -> GroupInfo {
    let info = have(
        rt,
        format!(in alloc;
            "00010004000100010147000000000000000020{tree_hash}00000001e00000000001c4"
        ),
    );
    group_info(rt, alloc, info.as_str())
}

/// A commit of member 0 in epoch 0 that adds one member, without a path.
fn adding_message(rt: &impl Abort, alloc: Global) -> Vec<u8> {
    let list = vector(rt, alloc, adds_of(rt, alloc, &[1]).as_str());
    let message = have(
        rt,
        format!(in alloc; "000100010147000000000000000001000000000003{list}0001c601e101c5"),
    );
    bytes(rt, alloc, message.as_str())
}

/// The GroupInfo of the group of a tree.
fn info_of(rt: &impl Abort, alloc: Global, tree: &PublicTree) -> GroupInfo {
    let root = tree.leaf_count().saturating_sub(1);
    let hash = have(rt, tree_hash(suite(rt), tree, root));
    info_with(rt, alloc, text(rt, alloc, hash.as_slice()).as_str())
}

/// A follower of the largest group, in the full profile.
fn full_follower(rt: &impl Abort, alloc: Global) -> Follower<Trusting> {
    let tree = full_tree(rt, alloc);
    let info = info_of(rt, alloc, &tree);
    match Follower::start_in(alloc, Profile::Full, info, Some(tree), Trusting) {
        Ok(follower) => follower,
        Err(_) => panic!(rt; "a start"),
    }
}

/// Whether a follower refuses a message since it has no leaf left.
fn has_no_leaf_for(follower: &mut Follower<Trusting>, message: &[u8]) -> bool {
    follower.take(message) == Err(Refusal::TooManyLeaves)
}

/// A follower of the largest group refuses an Add and an external commit since it has no leaf left (own limit), and is
/// as it was: it refuses them again.
#[test]
fn a_full_group_refuses_new_members(rt: HostRuntime) {
    let alloc = rt.alloc();
    let message = adding_message(&rt, alloc);
    let joining = bytes(&rt, alloc, JOINING_MESSAGE);
    let mut follower = full_follower(&rt, alloc);
    for _ in 0..2 {
        assert!(rt; has_no_leaf_for(&mut follower, message.as_slice()));
        assert!(rt; has_no_leaf_for(&mut follower, joining.as_slice()));
    }
    let epoch = follower.context().epoch;
    drop(follower);
    assert!(rt; epoch == 0);
}

/// With one leaf blank, one Add is accepted and two are refused.
#[test]
fn a_group_is_filled(rt: HostRuntime) {
    let alloc = rt.alloc();
    let rows = [("", [1].as_slice()), ("", &[1, 2])];
    let too_many = "a tree has at most 1,048,576 leaves";
    let expected = have(
        &rt,
        format!(in alloc; "1048576 1048576 [1048575]; {too_many}; "),
    );
    expect_text(&rt, at_the_limit(&rt, alloc, 1, &rows), expected.as_str());
}

/// A new member takes the last leaf of the largest tree. With that leaf set, there is none.
#[test]
fn the_last_leaf_is_taken(rt: HostRuntime) {
    let alloc = rt.alloc();
    let mut tree = tree_without(&rt, alloc, 1);
    let last = MOST.saturating_sub(1);
    assert!(rt; tree.seat() == Ok(last));
    let leaf = bytes(&rt, alloc, "00000001000000000000020000");
    put_leaf(&rt, alloc, &mut tree, last, leaf.as_slice());
    assert!(rt; tree.seat() == Err(TreeError::TooManyLeaves));
}

#[test]
fn leaves_hold_their_numbers(rt: HostRuntime) {
    let alloc = rt.alloc();
    let leaves = Leaves::new(have(&rt, Vec::from_slice(alloc, &[3, 1, 2])));
    assert!(rt; leaves.as_slice() == [3, 1, 2].as_slice());
}
