//! States of followers, stored and resumed (docs/FORMATS.md).

use crate::support::{GROUP_INFO, bytes, expect_text, group_info, have, text, tree_text};
use mls_check::Trusting;
use mls_follow::{Follower, ResumeFault};
use mls_msgs::Profile;
use mls_nodes::encode_context;
use std::alloc::Global;
use std::process::Abort;

/// A proposal of member 0 in epoch 0: an Add of member 1.
const PROPOSAL: &str =
    "00010001014700000000000000000100000000000200010001000101f101a101b1000101410200010200010000020001\
    010000000000000000ffffffffffffffff0001c10001c901c801c7";

/// The same Add with the authenticated data `aabb`.
const DATA_PROPOSAL: &str =
    "0001000101470000000000000000010000000002aabb0200010001000101f101a101b100010141020001020001000002\
    0001010000000000000000ffffffffffffffff0001c10001c901c801c7";

/// The same Add as a proposal of the client that joins (RFC 9420, 12.1.8).
const CLIENT_PROPOSAL: &str =
    "000100010147000000000000000003000200010001000101f101a101b100010141020001020001000002000101000000\
    0000000000ffffffffffffffff0001c10001c901c8";

/// The commit of member 0 by which the first proposal is applied.
const COMMIT: &str =
    "000100010147000000000000000001000000000003220220419afc0a88fe171b793b00410d11c8121fb96fdfde7b5ced\
    43d5912144a3a9f90001c601e101c5";

/// The commit of member 0 by which the proposal with authenticated data is applied.
const DATA_COMMIT: &str =
    "000100010147000000000000000001000000000003220220f3853c860d5f0e7b9a9e70244815e51290b36cafc85f86f3\
    7d4e346e0d379bf50001c601e101c5";

/// The next commit of member 0, without proposals and with a path of one node.
const PATH_COMMIT: &str =
    "0001000101470000000000000001010000000000030001018001b000010140020001020001000002000103207e534e72\
    295b2ed4520a7628873779052cbc9788fb7a2927ad4234fd783969900001c00701d10401aa01bb01c601e101c5";

/// The KeyPackageRef of member 1: the SHA-256 of `1b`, `MLS 1.0 KeyPackage Reference`, `32` and the KeyPackage.
const ADDED: &str = "2ecb8b18295924eead626e0aeaf767ebefa71136bd7e54db65cb6132a1b4968a; ";

/// The pending proposals after the first one and that with authenticated data.
const TWO_PENDING: &str =
    "419afc0a88fe171b793b00410d11c8121fb96fdfde7b5ced43d5912144a3a9f9 Member(0) [] c8; \
    f3853c860d5f0e7b9a9e70244815e51290b36cafc85f86f37d4e346e0d379bf5 Member(0) [aabb] c8; ";

/// The pending proposals after that of the client and that with authenticated data.
const PENDING_OF_CLIENT: &str =
    "b836c206b73645909b678e6776b383519d2ceb044a96c6837cc3d29feeefa265 NewMemberProposal [] c8; \
    f3853c860d5f0e7b9a9e70244815e51290b36cafc85f86f37d4e346e0d379bf5 Member(0) [aabb] c8; ";

/// A state of a follower.
#[derive(Clone, Copy)]
struct Case {
    /// The profile of the follower, which starts from the group of member 0 alone.
    profile: Profile,
    /// The messages that the follower accepts.
    messages: &'static [&'static str],
    /// How many bytes the file of the state has.
    size: usize,
    /// The first bytes of the file: the version, the checksum, the profile, that the group goes on, and the rules.
    front: &'static str,
    /// The pending proposals: for each the reference, the sender, the authenticated data and the signature.
    known: &'static str,
    /// The KeyPackageRefs of those that the last commit added.
    added: &'static str,
}

/// The states.
const CASES: &[Case] = &[
    Case {
        profile: Profile::Members,
        messages: &[],
        size: 165,
        front: "000220ee1b1ee4244987b900e6cc3b1f06dc8c8ddfe18107d31db4195061be10f63af501000000",
        known: "",
        added: "none",
    },
    Case {
        profile: Profile::Members,
        messages: &[PROPOSAL],
        size: 237,
        front: "000220df3e9e451f711e9c59f38e081f76d51d811946d899ee558c45bff30dbaa416a701000000",
        known: "419afc0a88fe171b793b00410d11c8121fb96fdfde7b5ced43d5912144a3a9f9 Member(0) [] c8; ",
        added: "none",
    },
    Case {
        profile: Profile::Members,
        messages: &[PROPOSAL, DATA_PROPOSAL],
        size: 310,
        front: "0002209485eac6307cef2dc0b052f37a9c90e4eff718ed931dfbe265678d979496b62401000000",
        known: TWO_PENDING,
        added: "none",
    },
    Case {
        profile: Profile::Full,
        messages: &[CLIENT_PROPOSAL, DATA_PROPOSAL],
        size: 306,
        front: "000220c6327f9123d70995e6dd76485f47ee2346e77d0a1685b5334261a0a48fc7c71202000000",
        known: PENDING_OF_CLIENT,
        added: "none",
    },
    Case {
        profile: Profile::Members,
        messages: &[PROPOSAL, COMMIT],
        size: 274,
        front: "0002200c5e2eef0eb5189d1eb9683e22328dd5f4deb83d11bb11d867e1d5bdb33d682f01000000",
        known: "",
        added: ADDED,
    },
    Case {
        profile: Profile::Full,
        messages: &[CLIENT_PROPOSAL, DATA_PROPOSAL, DATA_COMMIT],
        size: 274,
        front: "0002200f258bb12db852a9f8807931f10d522e71667e2265f395d1d379ea0a32f6c6c402000000",
        known: "",
        added: ADDED,
    },
    Case {
        profile: Profile::Members,
        messages: &[PROPOSAL, COMMIT, PATH_COMMIT],
        size: 263,
        front: "000220532da1f3131b75a6f5cef9dd1583fb91bca7541ba0f0fa689c315a0410b5ffb101000000",
        known: "",
        added: "",
    },
];

/// A follower after messages that it accepts.
fn after(
    rt: &impl Abort,
    alloc: Global,
    mut follower: Follower<Trusting>,
    messages: &[&str],
) -> Follower<Trusting> {
    for message in messages {
        let message = bytes(rt, alloc, message);
        have(rt, follower.take(message.as_slice()));
    }
    follower
}

/// The follower of a case after the first messages, as many as `count`.
fn follower_after(rt: &impl Abort, alloc: Global, case: Case, count: usize) -> Follower<Trusting> {
    let info = group_info(rt, alloc, GROUP_INFO);
    let follower = match Follower::start_in(alloc, case.profile, info, None, Trusting) {
        Ok(follower) => follower,
        Err(_) => panic!(rt; "a start"),
    };
    let messages = case.messages.get(..count).expect(rt, "messages");
    after(rt, alloc, follower, messages)
}

/// The file of the state of a follower.
fn stored(rt: &impl Abort, follower: Follower<Trusting>) -> Vec<u8> {
    let state = have(rt, follower.encode_state());
    drop(follower);
    state
}

/// The follower that is resumed from a file, or why none is.
fn resumed(
    rt: &impl Abort,
    alloc: Global,
    state: &[u8],
) -> Result<Follower<Trusting>, ResumeFault> {
    let state = have(rt, Vec::from_slice(alloc, state));
    match Follower::resume(alloc, state, Trusting) {
        Ok(follower) => Ok(follower),
        Err(refused) => {
            let fault = refused.fault;
            drop(refused);
            Err(fault)
        }
    }
}

/// What a resumed follower stores, or why none is resumed.
fn stored_again(rt: &impl Abort, alloc: Global, state: &[u8]) -> String {
    match resumed(rt, alloc, state) {
        Ok(follower) => text(rt, alloc, stored(rt, follower).as_slice()),
        Err(fault) => have(rt, format!(in alloc; "{fault}")),
    }
}

/// Checks that a state is resumed, and stored as the same bytes. With one bit of its checksum changed it is not resumed,
/// and with a byte more as well, for another reason.
fn check_resumption(rt: &impl Abort, alloc: Global, mut state: Vec<u8>) {
    let expected = text(rt, alloc, state.as_slice());
    let again = stored_again(rt, alloc, state.as_slice());
    expect_text(rt, again, expected.as_str());
    if let Some(byte) = state.get_mut(3) {
        *byte ^= 1;
    }
    let changed = stored_again(rt, alloc, state.as_slice());
    expect_text(rt, changed, "the checksum differs");
    let size = state.len();
    let trailing = have(rt, format!(in alloc; "unreadable: Trailing at {size}"));
    have(rt, state.push(0));
    let longer = stored_again(rt, alloc, state.as_slice());
    expect_text(rt, longer, trailing.as_str());
}

#[test]
fn states_are_resumed(rt: HostRuntime) {
    let alloc = rt.alloc();
    for case in CASES {
        let follower = follower_after(&rt, alloc, *case, case.messages.len());
        let state = stored(&rt, follower);
        assert!(rt; state.len() == case.size);
        let front = text(&rt, alloc, state.as_slice().get(..39).unwrap_or(&[]));
        expect_text(&rt, front, case.front);
        check_resumption(&rt, alloc, state);
    }
}

/// The pending proposals of a follower: for each the reference, the sender, the authenticated data and the signature.
fn known_text(rt: &impl Abort, alloc: Global, follower: &Follower<Trusting>) -> String {
    let mut all = String::new(alloc);
    for known in follower.known() {
        let reference = text(rt, alloc, known.reference.as_slice());
        let data = text(rt, alloc, known.authenticated_data.as_slice());
        let signature = text(rt, alloc, known.signature.as_slice());
        let sender = known.sender;
        have(
            rt,
            write!(all, "{reference} {sender:?} [{data}] {signature}; "),
        );
    }
    all
}

/// The KeyPackageRefs of those that the last commit added, or `none`.
fn added_text(rt: &impl Abort, alloc: Global, follower: &Follower<Trusting>) -> String {
    let Some(references) = follower.added() else {
        return have(rt, format!(in alloc; "none"));
    };
    let mut all = String::new(alloc);
    for reference in references {
        let reference = text(rt, alloc, reference.as_slice());
        have(rt, write!(all, "{reference}; "));
    }
    all
}

/// The rest of a follower's state: its profile, its rules, whether the group is over, the context, the tree and the interim
/// transcript hash.
fn group_text(rt: &impl Abort, alloc: Global, follower: &Follower<Trusting>) -> String {
    let context = have(rt, encode_context(alloc, follower.context()));
    let context = text(rt, alloc, context.as_slice());
    let tree = tree_text(rt, alloc, follower.tree());
    let interim = text(rt, alloc, follower.interim().as_slice());
    let profile = follower.profile();
    let rules = follower.rules().bits();
    let ended = follower.ended();
    have(
        rt,
        format!(in alloc; "{profile:?} {rules} {ended} {context} {tree} {interim}"),
    )
}

/// Checks the pending proposals that a follower of a case has after its messages, and those that the last commit added. Returns
/// the rest of its state.
fn checked_text(
    rt: &impl Abort,
    alloc: Global,
    case: Case,
    follower: &Follower<Trusting>,
) -> String {
    expect_text(rt, known_text(rt, alloc, follower), case.known);
    expect_text(rt, added_text(rt, alloc, follower), case.added);
    group_text(rt, alloc, follower)
}

/// A follower has the same state after it was resumed.
#[test]
fn resumed_followers_have_the_same_state(rt: HostRuntime) {
    let alloc = rt.alloc();
    for case in CASES {
        let follower = follower_after(&rt, alloc, *case, case.messages.len());
        let before = checked_text(&rt, alloc, *case, &follower);
        let state = stored(&rt, follower);
        let follower = have(&rt, resumed(&rt, alloc, state.as_slice()));
        let again = checked_text(&rt, alloc, *case, &follower);
        drop(follower);
        expect_text(&rt, again, before.as_str());
    }
}

/// The file of the state of a case, if the follower is stored and resumed after the first messages, as many as `count`.
fn stored_in_between(rt: &impl Abort, alloc: Global, case: Case, count: usize) -> String {
    let state = stored(rt, follower_after(rt, alloc, case, count));
    let follower = have(rt, resumed(rt, alloc, state.as_slice()));
    let messages = case.messages.get(count..).expect(rt, "messages");
    let follower = after(rt, alloc, follower, messages);
    text(rt, alloc, stored(rt, follower).as_slice())
}

/// A follower accepts the same messages after it was resumed, and has the same state after them.
#[test]
fn resumed_followers_go_on(rt: HostRuntime) {
    let alloc = rt.alloc();
    for case in CASES {
        for count in 0..case.messages.len() {
            let state = stored_in_between(&rt, alloc, *case, count);
            assert!(rt; state.as_str().starts_with(case.front));
        }
    }
}
