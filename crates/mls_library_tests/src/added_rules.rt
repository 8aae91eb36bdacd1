//! Strict rules that are added to those of a follower (own rule).

use crate::notation::changed;
use crate::strict_group::{
    ADD, ADDING_COMMIT, INFO, LEAF_0, Story, follower_after, rules_of, start_with,
};
use crate::support::{expect_text, have, text, tree_text};
use mls_check::Trusting;
use mls_follow::{Follower, StrictRefused};
use mls_msgs::{Profile, Rules};
use mls_nodes::encode_context;
use std::alloc::Global;
use std::process::Abort;

/// All strict rules but 47.
const WITHOUT_47: u16 = 0x1f7f;

/// Changes by which a leaf lists a default extension type and a default proposal type.
const DEFAULTS: &[(&str, &str)] = &[("<> <> <0001> 01", "<0002> <0007> <0001> 01")];

/// A follower of the group of member 0, with the rules of a number, after messages that it accepts.
fn follower_with(
    rt: &impl Abort,
    alloc: Global,
    bits: u16,
    messages: &[&str],
) -> Follower<Trusting> {
    let story = Story {
        profile: Profile::Members,
        info: INFO,
        messages,
    };
    follower_after(rt, alloc, rules_of(rt, bits), story)
}

/// What a follower holds: its rules, context, tree and interim transcript hash, and the references of its pending
/// proposals.
fn state_text(rt: &impl Abort, alloc: Global, follower: &Follower<Trusting>) -> String {
    let rules = follower.rules().bits();
    let context = have(rt, encode_context(alloc, follower.context()));
    let context = text(rt, alloc, context.as_slice());
    let tree = tree_text(rt, alloc, follower.tree());
    let interim = text(rt, alloc, follower.interim().as_slice());
    let mut state = have(
        rt,
        format!(in alloc; "{rules:x} {context} {tree} {interim}"),
    );
    for known in follower.known() {
        let reference = text(rt, alloc, known.reference.as_slice());
        have(rt, write!(state, " {reference}"));
    }
    state
}

/// The answer to rules that are added: the set after them, or what does not meet them.
fn added(rt: &impl Abort, alloc: Global, follower: &mut Follower<Trusting>, bits: u16) -> String {
    match follower.make_strict(rules_of(rt, bits)) {
        Ok(()) => have(rt, format!(in alloc; "{:x}", follower.rules().bits())),
        Err(StrictRefused::Group(fault)) => {
            let number = fault.rule.number();
            let place = fault.place.expect(rt, "a node index");
            have(rt, format!(in alloc; "group {number} at {place}"))
        }
        Err(StrictRefused::Known(number)) => have(rt, format!(in alloc; "known {number}")),
        Err(StrictRefused::OutOfMemory) => panic!(rt; "memory"),
    }
}

/// Checks the answers to sets that are added one after the other. A set that is refused changes nothing.
fn check_added(
    rt: &impl Abort,
    alloc: Global,
    mut follower: Follower<Trusting>,
    sets: &[(u16, &str)],
) {
    for (bits, expected) in sets {
        let before = state_text(rt, alloc, &follower);
        let answer = added(rt, alloc, &mut follower, *bits);
        assert_eq!(rt; answer.as_str(), *expected, "{bits:x}");
        if answer.as_str().starts_with("known") || answer.as_str().starts_with("group") {
            expect_text(rt, state_text(rt, alloc, &follower), before.as_str());
        }
    }
    drop(follower);
}

/// Checks that a follower which is made strict holds what one holds that was strict from the start.
fn check_same(rt: &impl Abort, alloc: Global, from: u16, to: u16, messages: &[&str]) {
    let mut later = follower_with(rt, alloc, from, messages);
    have(rt, later.make_strict(rules_of(rt, to)));
    let earlier = follower_with(rt, alloc, to, messages);
    let found = state_text(rt, alloc, &later);
    expect_text(rt, found, state_text(rt, alloc, &earlier).as_str());
    drop(later);
    drop(earlier);
}

#[test]
fn plain_followers_are_made_strict(rt: HostRuntime) {
    let alloc = rt.alloc();
    let listing = changed(&rt, alloc, ADDING_COMMIT, DEFAULTS);
    check_same(&rt, alloc, 0, 0x1fff, &[ADD]);
    check_same(&rt, alloc, 0x1fff, 0x1fff, &[ADD]);
    check_same(&rt, alloc, WITHOUT_47, WITHOUT_47, &[listing.as_str()]);
    check_same(&rt, alloc, 0, WITHOUT_47, &[listing.as_str()]);
}

/// An Add whose leaf lists default types, as a pending proposal and as a leaf of the tree.
#[test]
fn only_added_rules_are_checked(rt: HostRuntime) {
    let alloc = rt.alloc();
    let add = changed(&rt, alloc, ADD, DEFAULTS);
    let commit = changed(&rt, alloc, ADDING_COMMIT, DEFAULTS);
    let pending = [
        (WITHOUT_47, "1f7f"),
        (0x1fff, "known 0"),
        (0x0080, "known 0"),
        (0x00c0, "known 0"),
    ];
    let follower = follower_with(&rt, alloc, WITHOUT_47, &[add.as_str()]);
    check_added(&rt, alloc, follower, &pending);
    let committed = [
        (WITHOUT_47, "1f7f"),
        (0x1fff, "group 47 at 2"),
        (0x0080, "group 47 at 2"),
        (0x00c0, "group 47 at 2"),
    ];
    let follower = follower_with(&rt, alloc, WITHOUT_47, &[commit.as_str()]);
    check_added(&rt, alloc, follower, &committed);
    let follower = follower_with(&rt, alloc, 0, &[commit.as_str()]);
    check_added(&rt, alloc, follower, &[(0x1010, "1010"), (0x0011, "1011")]);
}

/// An Add without an init key, before and after another proposal; and a leaf that lists no cipher suite.
#[test]
fn the_first_fault_is_found(rt: HostRuntime) {
    let alloc = rt.alloc();
    let empty = changed(&rt, alloc, ADD, &[("<f1*32>", "<>")]);
    let follower = follower_with(&rt, alloc, 0, &[empty.as_str(), ADD]);
    check_added(&rt, alloc, follower, &[(0x1fff, "known 0")]);
    let follower = follower_with(&rt, alloc, 0, &[ADD, empty.as_str()]);
    check_added(&rt, alloc, follower, &[(0x1fff, "known 1")]);
    let leaf = changed(&rt, alloc, LEAF_0, &[("<0001> <> <>", "<> <> <>")]);
    let info = start_with(&rt, alloc, leaf.as_str(), &[]);
    let story = Story {
        profile: Profile::Members,
        info: info.as_str(),
        messages: &[],
    };
    let follower = follower_after(&rt, alloc, Rules::plain(), story);
    check_added(&rt, alloc, follower, &[(0x1fff, "group 46 at 0")]);
}
