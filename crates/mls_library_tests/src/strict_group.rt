//! The example group of the strict rules: the group of `support`, except that its keys and tags have 32 bytes each.
//!
//! A value is text in the notation of [`bytes_of`]. A case has changes of it, each of which replaces one part of the
//! text: [`changed`].

use crate::notation::{bytes_of, changed, hash_of};
use crate::support::have;
use mls_check::Trusting;
use mls_follow::{Follower, StartFault};
use mls_msgs::{GroupInfo, Message, Profile, Rules, decode_message};
use std::alloc::Global;
use std::process::Abort;

/// The leaf of member 0.
pub(crate) const LEAF_0: &str =
    "<a0*32> <b0*32> 0001 <40> <0001> <0001> <> <> <0001> 01 00*8 ff*8 <> <c0>";

/// The tree hash of the tree of member 0 alone: the SHA-256 of `010000000001` and the leaf.
const HASH_0: &str = "6ba25c52ef31161bb831fc1c7641fe58d96875ea566326b1f9fac1df206fc8e5";

/// The GroupInfo of the group of member 0 alone in epoch 0. It has the tree as its only extension.
pub(crate) const INFO: &str = "0001 0004 0001 0001 <47> 00*8 \
    <6ba25c52ef31161bb831fc1c7641fe58d96875ea566326b1f9fac1df206fc8e5> <> <> \
    < 0002 < < 01 01 <a0*32> <b0*32> 0001 <40> <0001> <0001> <> <> <0001> 01 00*8 ff*8 <> <c0> > > > \
    <e0*32> 00*4 <c4>";

/// A proposal of member 0 in epoch 0, an Add of member 1.
pub(crate) const ADD: &str = "0001 0001 <47> 00*8 01 00*4 <> 02 0001 \
    0001 0001 <f1*32> <a1*32> <b1*32> 0001 <41> <0001> <0001> <> <> <0001> 01 00*8 ff*8 <> <c1> <> <c9> \
    <c8> <c7*32>";

/// A commit of member 0 in epoch 0 that adds member 1, without a path.
pub(crate) const ADDING_COMMIT: &str = "0001 0001 <47> 00*8 01 00*4 <> 03 < 01 0001 \
    0001 0001 <f1*32> <a1*32> <b1*32> 0001 <41> <0001> <0001> <> <> <0001> 01 00*8 ff*8 <> <c1> <> <c9> \
    > 00 <c6> <e1*32> <c5*32>";

/// A group that is followed: the profile, its GroupInfo, and messages, all in the notation of [`bytes_of`].
#[derive(Clone, Copy)]
pub(crate) struct Story<'a> {
    pub(crate) profile: Profile,
    pub(crate) info: &'a str,
    pub(crate) messages: &'a [&'a str],
}

/// The GroupInfo of a notation.
fn group_info(rt: &impl Abort, alloc: Global, notation: &str) -> GroupInfo {
    let message = bytes_of(rt, alloc, notation);
    match have(rt, decode_message(alloc, message.as_slice())) {
        Message::GroupInfo(info) => info,
        _ => panic!(rt; "a GroupInfo"),
    }
}

/// Starts a follower from a GroupInfo that has its tree.
pub(crate) fn start(
    rt: &impl Abort,
    alloc: Global,
    rules: Rules,
    profile: Profile,
    info: &str,
) -> Result<Follower<Trusting>, StartFault> {
    let info = group_info(rt, alloc, info);
    match Follower::start_by(alloc, rules, profile, info, None, Trusting) {
        Ok(follower) => Ok(follower),
        Err(refused) => {
            let fault = refused.fault;
            drop(refused);
            Err(fault)
        }
    }
}

/// The follower of a story after its messages, each of which is accepted.
pub(crate) fn follower_after(
    rt: &impl Abort,
    alloc: Global,
    rules: Rules,
    story: Story<'_>,
) -> Follower<Trusting> {
    let mut follower = have(rt, start(rt, alloc, rules, story.profile, story.info));
    for message in story.messages {
        let message = bytes_of(rt, alloc, message);
        have(rt, follower.take(message.as_slice()));
    }
    follower
}

/// The set of strict rules that a number encodes.
pub(crate) fn rules_of(rt: &impl Abort, bits: u16) -> Rules {
    Rules::from_bits(bits).expect(rt, "a set of rules")
}

/// The GroupInfo of the group of one leaf alone, with these changes.
pub(crate) fn start_with(
    rt: &impl Abort,
    alloc: Global,
    leaf: &str,
    changes: &[(&str, &str)],
) -> String {
    let node = have(rt, format!(in alloc; "010000000001 {leaf}"));
    let hash = hash_of(rt, alloc, 1, node.as_str());
    let info = changed(rt, alloc, INFO, &[(LEAF_0, leaf)]);
    let info = changed(rt, alloc, info.as_str(), &[(HASH_0, hash.as_str())]);
    changed(rt, alloc, info.as_str(), changes)
}
