//! Groups with keys that begin alike (RFC 9420, 7.3, 12.4.2 and 12.4.3.1): a key that a node has is refused, and one that only
//! begins alike is not.
//!
//! The keys of a group have the same first eight bytes, except those of [`SHORT`] and [`LONG`]. Values are in the notation of
//! [`bytes_of`]. The answer to a commit is the epoch that it begins, or the number of its refusal, and that of the fault of a
//! leaf node after 25.

use crate::notation::{bytes_of, changed, hash_of};
use crate::strict_group::{start, start_with};
use crate::support::{expect_text, have};
use mls_apply::Refusal;
use mls_check::Trusting;
use mls_follow::{Follower, Taken};
use mls_msgs::{Profile, Rules};
use std::alloc::Global;
use std::process::Abort;

/// The encryption key and the signature key of a client.
type Keys<'a> = (&'a str, &'a str);

/// A commit of member 0: its epoch, the keys of the clients that it adds, and the answer.
type Adds<'a> = (u8, &'a [Keys<'a>], &'a str);

/// The keys of member 0.
const KEYS_0: Keys<'static> = ("77*8 a0", "77*8 b0");

/// The keys of member 1.
const KEYS_1: Keys<'static> = ("77*8 a1", "77*8 b1");

/// The leaf of member 0, with the keys `E` and `S`.
const LEAF_0: &str = "<E> <S> 0001 <40> <0001> <0001> <> <> <0001> 01 00*8 ff*8 <> <c0>";

/// The leaf of a client that is added, with the keys `E` and `S`.
const LEAF_1: &str = "<E> <S> 0001 <41> <0001> <0001> <> <> <0001> 01 00*8 ff*8 <> <c1>";

/// A Remove of member 1 in a proposal list.
const REMOVE_1: &str = "01 0003 00000001";

/// The path of member 0 if no other member is left (7.5): its leaf, without a parent hash, and no node.
const LONE_PATH: &str =
    "01 <77*8 80> <77*8 b0> 0001 <40> <0001> <0001> <> <> <0001> 03 <> <> <c0> <>";

/// The keys of members 0 and 1, and the number of the fault of a start, or 0 if it has none.
const STARTS: &[(Keys<'_>, Keys<'_>, u8)] = &[
    (KEYS_0, KEYS_1, 0),
    (KEYS_0, ("77*8", "77*8"), 0),
    (KEYS_0, ("77*8 a0 00", "77*8 b0 00"), 0),
    (KEYS_0, ("77*8 a0", "77*8 b1"), 5),
    (KEYS_0, ("77*8 a1", "77*8 b0"), 6),
    (("77*7", "77*7"), ("77*7 00", "77*7 00"), 0),
    (("77*7", "77*7"), ("77*7", "77*7 00"), 5),
    (("77*7", "77*7"), ("77*7 00", "77*7"), 6),
    (("77*300", "77*300"), ("77*299 78", "77*299 78"), 0),
    (("77*300", "77*300"), ("77*300", "77*299 78"), 5),
    (("77*300", "77*300"), ("77*299 78", "77*300"), 6),
];

/// Commits in the group of member 0 alone: of keys that a member has, and of others.
const ADDED: &[Adds<'_>] = &[
    (0, &[("77*8 a0", "77*8 b1")], "24"),
    (0, &[("77*8 a1", "77*8 b0")], "25 4"),
    (0, &[KEYS_1], "epoch 1"),
    (1, &[("77*8 a0", "77*8 b2")], "24"),
    (1, &[("77*8 a1", "77*8 b2")], "24"),
    (1, &[("77*8 a2", "77*8 b0")], "25 4"),
    (1, &[("77*8 a2", "77*8 b1")], "25 4"),
    (1, &[("77*8 a2", "77*8 b2")], "epoch 2"),
    (2, &[("77*8 a2", "77*8 b3")], "24"),
    (2, &[("77*8 a3", "77*8 b2")], "25 4"),
    (2, &[("77*8 a3", "77*8 b3"), ("77*8 a3", "77*8 b4")], "24"),
    (2, &[("77*8 a3", "77*8 b3"), ("77*8 a4", "77*8 b3")], "25 4"),
    (2, &[("77*8 a3", "77*8 b3"), ("77*8", "77*8")], "epoch 3"),
    (3, &[("77*8", "77*8 b5")], "24"),
    (3, &[("77*8 a5", "77*8")], "25 4"),
    (3, &[("77*8 a5", "77*8 b5")], "epoch 4"),
];

/// Commits in the group of a member 0 with the keys `77*7`: of these keys with zeros after them, which are other keys.
const SHORT: &[Adds<'_>] = &[
    (0, &[("77*7", "77*7 00")], "24"),
    (0, &[("77*7 00", "77*7")], "25 4"),
    (0, &[("77*7 00", "77*7 00")], "epoch 1"),
    (1, &[("77*7", "77*7 00*2")], "24"),
    (1, &[("77*7 00", "77*7 00*2")], "24"),
    (1, &[("77*7 00*2", "77*7")], "25 4"),
    (1, &[("77*7 00*2", "77*7 00")], "25 4"),
    (1, &[("77*7 00*2", "77*7 00*2")], "epoch 2"),
];

/// Commits in the group of a member 0 with the keys `77*300`: of keys that differ in the last byte.
const LONG: &[Adds<'_>] = &[
    (0, &[("77*300", "77*299 78")], "24"),
    (0, &[("77*299 78", "77*300")], "25 4"),
    (0, &[("77*299 78", "77*299 78")], "epoch 1"),
    (1, &[("77*299 78", "77*299 79")], "24"),
    (1, &[("77*299 79", "77*299 78")], "25 4"),
    (1, &[("77*299 79", "77*299 79")], "epoch 2"),
];

/// Commits in epoch 2 of the group, after one that removed member 1 and gave member 0 another encryption key: the keys that
/// left are added again.
const ADDED_AGAIN: &[Adds<'_>] = &[
    (2, &[("77*8 80", "77*8 b1")], "24"),
    (2, &[("77*8 a1", "77*8 b0")], "25 4"),
    (2, &[KEYS_1], "epoch 3"),
    (3, &[("77*8 a1", "77*8 b2")], "24"),
    (3, &[("77*8 a2", "77*8 b1")], "25 4"),
    (3, &[("77*8 a0", "77*8 b2")], "epoch 4"),
    (4, &[("77*8 a0", "77*8 b3")], "24"),
];

/// The encryption keys of a path of member 0 in the group of members 0 and 1, that of its leaf and that of node 1, and the
/// answer.
const PATHS: &[(&str, &str, &str)] = &[
    ("77*8 a0", "77*8 d1", "21"),
    ("77*8 a1", "77*8 d1", "21"),
    ("77*8 80", "77*8 a0", "21"),
    ("77*8 80", "77*8 a1", "21"),
    ("77*8 80", "77*8 80", "21"),
    ("77*8 80", "77*8 d1", "epoch 1"),
];

/// Commits in epoch 1 of the group of members 0 and 1, after the last of these paths: node 1 has a key too, and no node has the
/// first one of member 0.
const ADDED_BELOW: &[Adds<'_>] = &[
    (1, &[("77*8 d1", "77*8 b2")], "24"),
    (1, &[("77*8 80", "77*8 b2")], "24"),
    (1, &[("77*8 a0", "77*8 b2")], "epoch 2"),
    (2, &[("77*8 a0", "77*8 b3")], "24"),
    (2, &[("77*8 d2", "77*8 b3")], "epoch 3"),
];

/// A leaf with these keys.
fn leaf_of(rt: &impl Abort, alloc: Global, leaf: &str, keys: Keys<'_>) -> String {
    changed(rt, alloc, leaf, &[("E", keys.0), ("S", keys.1)])
}

/// The tree hash of the leaf at a leaf index (7.8).
fn leaf_hash(rt: &impl Abort, alloc: Global, leaf_index: u32, leaf: &str) -> String {
    let input = have(rt, format!(in alloc; "01 0000000{leaf_index} 01 {leaf}"));
    hash_of(rt, alloc, 1, input.as_str())
}

/// The GroupInfo of the group of members 0 and 1 in epoch 0, with these leaves. It has the tree as its only extension.
fn info_of_two(rt: &impl Abort, alloc: Global, first: &str, second: &str) -> String {
    let left = leaf_hash(rt, alloc, 0, first);
    let right = leaf_hash(rt, alloc, 1, second);
    let root = have(rt, format!(in alloc; "02 00 <{left}> <{right}>"));
    let hash = hash_of(rt, alloc, 1, root.as_str());
    have(
        rt,
        format!(in alloc;
            "0001 0004 0001 0001 <47> 00*8 <{hash}> <> <> < 0002 < < 01 01 {first} 00 01 01 {second} > > > \
            <e0> 00*4 <c4>"
        ),
    )
}

/// The GroupInfo of the group of members 0 and 1 with these keys.
fn info_with(rt: &impl Abort, alloc: Global, first: Keys<'_>, second: Keys<'_>) -> String {
    let first = leaf_of(rt, alloc, LEAF_0, first);
    let second = leaf_of(rt, alloc, LEAF_1, second);
    info_of_two(rt, alloc, first.as_str(), second.as_str())
}

/// A follower that starts from a GroupInfo.
fn follower_of(rt: &impl Abort, alloc: Global, info: &str) -> Follower<Trusting> {
    have(rt, start(rt, alloc, Rules::plain(), Profile::Members, info))
}

/// A follower of the group of a member 0 alone with these keys.
fn follower_of_one(rt: &impl Abort, alloc: Global, keys: Keys<'_>) -> Follower<Trusting> {
    let leaf = leaf_of(rt, alloc, LEAF_0, keys);
    let info = start_with(rt, alloc, leaf.as_str(), &[]);
    follower_of(rt, alloc, info.as_str())
}

/// A follower of the group of members 0 and 1.
fn follower_of_two(rt: &impl Abort, alloc: Global) -> Follower<Trusting> {
    let info = info_with(rt, alloc, KEYS_0, KEYS_1);
    follower_of(rt, alloc, info.as_str())
}

/// The commit of member 0 in an epoch of a proposal list, with a path after the byte 01, or the byte 00.
fn commit_of(rt: &impl Abort, alloc: Global, epoch: u8, list: &str, path: &str) -> Vec<u8> {
    let commit = have(
        rt,
        format!(in alloc;
            "0001 0001 <47> 00*7 0{epoch} 01 00*4 <> 03 < {list} > {path} <c6> <e1> <c5>"
        ),
    );
    bytes_of(rt, alloc, commit.as_str())
}

/// The proposal list that adds clients with these keys.
fn list_of(rt: &impl Abort, alloc: Global, clients: &[Keys<'_>]) -> String {
    let mut list = String::new(alloc);
    for keys in clients {
        let leaf = leaf_of(rt, alloc, LEAF_1, *keys);
        have(rt, write!(list, "01 0001 0001 0001 <f1> {leaf} <> <c9> "));
    }
    list
}

/// The answer to a commit.
fn answer(
    rt: &impl Abort,
    alloc: Global,
    follower: &mut Follower<Trusting>,
    commit: &[u8],
) -> String {
    let answer = match follower.take(commit) {
        Ok(Taken::Commit(epoch)) => format!(in alloc; "epoch {epoch}"),
        Ok(Taken::Proposal(_)) => panic!(rt; "a proposal"),
        Err(Refusal::Member(fault)) => format!(in alloc; "25 {}", fault.number()),
        Err(refusal) => format!(in alloc; "{}", refusal.number()),
    };
    have(rt, answer)
}

/// Checks the answers to commits that add clients, one after the other.
fn check_adds(
    rt: &impl Abort,
    alloc: Global,
    follower: &mut Follower<Trusting>,
    commits: &[Adds<'_>],
) {
    for (epoch, clients, expected) in commits {
        let list = list_of(rt, alloc, clients);
        let commit = commit_of(rt, alloc, *epoch, list.as_str(), "00");
        let found = answer(rt, alloc, follower, commit.as_slice());
        expect_text(rt, found, expected);
    }
}

/// The path of member 0 with these encryption keys and ciphertexts, after the byte 01. Its leaf has the parent hash of node 1
/// (7.9), which is above the leaf of member 1.
fn path_of(rt: &impl Abort, alloc: Global, own: &str, parent: &str, ciphertexts: &str) -> String {
    let other = leaf_of(rt, alloc, LEAF_1, KEYS_1);
    let other = leaf_hash(rt, alloc, 1, other.as_str());
    let input = have(rt, format!(in alloc; "<{parent}> <> <{other}>"));
    let hash = hash_of(rt, alloc, 1, input.as_str());
    have(
        rt,
        format!(in alloc;
            "01 <{own}> <77*8 b0> 0001 <40> <0001> <0001> <> <> <0001> 03 <{hash}> <> <c0> < <{parent}> < {ciphertexts} > >"
        ),
    )
}

#[test]
fn keys_of_a_start(rt: HostRuntime) {
    let alloc = rt.alloc();
    for (first, second, expected) in STARTS {
        let info = info_with(&rt, alloc, *first, *second);
        let started = start(&rt, alloc, Rules::plain(), Profile::Members, info.as_str());
        let found = match started {
            Ok(follower) => {
                drop(follower);
                0
            }
            Err(fault) => fault.number(),
        };
        assert_eq!(rt; found, *expected);
    }
}

#[test]
fn keys_that_are_added(rt: HostRuntime) {
    const GROUPS: &[(Keys<'_>, &[Adds<'_>])] = &[
        (KEYS_0, ADDED),
        (("77*7", "77*7"), SHORT),
        (("77*300", "77*300"), LONG),
    ];
    let alloc = rt.alloc();
    for (keys, commits) in GROUPS {
        let mut follower = follower_of_one(&rt, alloc, *keys);
        check_adds(&rt, alloc, &mut follower, commits);
        drop(follower);
    }
}

#[test]
fn keys_that_leave(rt: HostRuntime) {
    let alloc = rt.alloc();
    let mut follower = follower_of_one(&rt, alloc, KEYS_0);
    check_adds(&rt, alloc, &mut follower, &[(0, &[KEYS_1], "epoch 1")]);
    let commit = commit_of(&rt, alloc, 1, REMOVE_1, LONE_PATH);
    let found = answer(&rt, alloc, &mut follower, commit.as_slice());
    expect_text(&rt, found, "epoch 2");
    check_adds(&rt, alloc, &mut follower, ADDED_AGAIN);
    drop(follower);
}

/// One commit removes member 1 and adds a client with its keys, to which its path encrypts nothing (12.4.2).
#[test]
fn keys_that_leave_and_come(rt: HostRuntime) {
    let alloc = rt.alloc();
    let mut follower = follower_of_two(&rt, alloc);
    let list = list_of(&rt, alloc, &[KEYS_1]);
    let list = have(&rt, format!(in alloc; "{REMOVE_1} {list}"));
    let path = path_of(&rt, alloc, "77*8 80", "77*8 d1", "");
    let commit = commit_of(&rt, alloc, 0, list.as_str(), path.as_str());
    let found = answer(&rt, alloc, &mut follower, commit.as_slice());
    expect_text(&rt, found, "epoch 1");
    check_adds(&rt, alloc, &mut follower, ADDED_BELOW);
    drop(follower);
}

#[test]
fn keys_of_a_path(rt: HostRuntime) {
    let alloc = rt.alloc();
    let mut follower = follower_of_two(&rt, alloc);
    for (own, parent, expected) in PATHS {
        let path = path_of(&rt, alloc, own, parent, "<aa> <bb>");
        let commit = commit_of(&rt, alloc, 0, "", path.as_str());
        let found = answer(&rt, alloc, &mut follower, commit.as_slice());
        expect_text(&rt, found, expected);
    }
    check_adds(&rt, alloc, &mut follower, ADDED_BELOW);
    drop(follower);
}
