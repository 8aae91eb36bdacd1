//! Examinations: KeyPackages and GroupInfos in the example group, changed part by part.
//!
//! A value is text in the notation of [`bytes_of`], and a case has changes of it: [`changed`]. A result is text: of a fit message
//! what is known of it; else the number and the name of the reason, and what it names.

use crate::notation::{bytes_of, changed, hash_of};
use crate::strict_group::{self, Story, follower_after, rules_of};
use crate::support::{PATH, expect_text, have, text};
use mls_check::{MemberFault, Receipts, SignatureCheck, Trusting};
use mls_examine::{Examined, InfoFacts, PackageFacts, Unfit, examine};
use mls_follow::{Follower, StartFault};
use mls_msgs::{GroupInfo, Message, Profile, Rules, decode_message};
use mls_strict::StrictFault;
use std::alloc::Global;
use std::process::Abort;

/// The GroupInfo of the group of member 0 alone in epoch 0. It has the tree as its only extension.
const START: &str = "0001 0004 0001 0001 <47> 00*8 \
    <e32ab6a0a711ec8a732c3fad9263ed5fa61caf53fdf9b9690dc57271d8f110d7> <> <> \
    < 0002 < < 01 01 <a0> <b0> 0001 <40> <0001> <0001> <> <> <0001> 01 00*8 ff*8 <> <c0> > > > <e0> 00*4 <c4>";

/// The KeyPackage of member 2.
const PACKAGE: &str =
    "0001 0005 0001 0001 <f2> <a2> <b2> 0001 <42> <0001> <0001> <> <> <0001> 01 00*8 ff*8 <> <c2> <> <c9>";

/// A proposal of member 0 in epoch 0, an Add of member 1.
const ADD: &str = "0001 0001 <47> 00*8 01 00*4 <> 02 0001 \
    0001 0001 <f1> <a1> <b1> 0001 <41> <0001> <0001> <> <> <0001> 01 00*8 ff*8 <> <c1> <> <c9> <c8> <c7>";

/// A commit of member 0 in epoch 0 of that proposal.
const COMMIT: &str = "0001 0001 <47> 00*8 01 00*4 <> 03 \
    < 02 <419afc0a88fe171b793b00410d11c8121fb96fdfde7b5ced43d5912144a3a9f9> > 00 <c6> <e1> <c5>";

/// The GroupInfo of member 0 in epoch 1, after that commit. It has the tree as its only extension.
const INFO: &str = "0001 0004 0001 0001 <47> 00*7 01 \
    <3dd545ada09b9e9be453de8b5c20702e810685eca3710882583a67d8a3eddd8b> \
    <3b3fe4cf185f12883575d4bc9a402561feafe917dc05379ecd9f3f0abe6607e5> <> \
    < 0002 < < 01 01 <a0> <b0> 0001 <40> <0001> <0001> <> <> <0001> 01 00*8 ff*8 <> <c0> 00 \
    01 01 <a1> <b1> 0001 <41> <0001> <0001> <> <> <0001> 01 00*8 ff*8 <> <c1> > > > <e1> 00*4 <c4>";

/// Its extensions.
const TREE: &str =
    "< 0002 < < 01 01 <a0> <b0> 0001 <40> <0001> <0001> <> <> <0001> 01 00*8 ff*8 <> <c0> 00 \
    01 01 <a1> <b1> 0001 <41> <0001> <0001> <> <> <0001> 01 00*8 ff*8 <> <c1> > > >";

/// The same with an external_pub.
const TREE_AND_KEY: &str =
    "< 0002 < < 01 01 <a0> <b0> 0001 <40> <0001> <0001> <> <> <0001> 01 00*8 ff*8 <> <c0> 00 \
    01 01 <a1> <b1> 0001 <41> <0001> <0001> <> <> <0001> 01 00*8 ff*8 <> <c1> > > 0004 <<e5*32>> >";

/// What member 1's KeyPackage is known by.
const FIRST: &str =
    "package 2ecb8b18295924eead626e0aeaf767ebefa71136bd7e54db65cb6132a1b4968a 1 0 18446744073709551615";

/// What [`PACKAGE`] is known by.
const SECOND: &str =
    "package 8a2cbc032c0e6ae38becc2641b68d176bd48f1da961837ea9fec1fff5922a6a0 1 0 18446744073709551615";

/// Changes of [`PACKAGE`] to that of member 1.
const TO_FIRST: &[(&str, &str)] = &[
    ("<f2>", "<f1>"),
    ("<a2>", "<a1>"),
    ("<b2>", "<b1>"),
    ("<42>", "<41>"),
    ("<c2>", "<c1>"),
];

/// What member 3's KeyPackage is known by.
const THIRD: &str =
    "package 9f2b57bceb1292146a62ce6f4a6af9c2cf36c48860e5ffed6858ba22ebfb187c 1 0 18446744073709551615";

/// The tree hash of [`PATH`].
const PATH_HASH: &str = "01fca42e2e9594b5e27dc046ce618ac5b6d06d3fd7c145b8387ce547c6f36219";

/// A case: changes of a message, and the result.
type Case = (&'static [(&'static str, &'static str)], &'static str);

/// Changes of [`PACKAGE`] after [`COMMIT`].
const PACKAGE_CASES: &[Case] = &[
    (&[], SECOND),
    (TO_FIRST, "81 KeyRepeated"),
    (&[("0005 0001 0001", "0005 0001 0002")], "67 WrongSuite"),
    (&[("0005 0001 0001", "0005 0002 0001")], "66 WrongVersion"),
    (&[("<a2>", "<92>"), ("01 00*8 ff*8", "02")], "78 LeafSource"),
    (&[("<f2>", "<a2>")], "79 InitKeyReused"),
    (&[("<a2>", "<a0>")], "81 KeyRepeated"),
    (&[("<> <c2>", "<0009 00> <c2>")], "82 Member 1 2"),
    (&[("<> <> <0001> 01", "<> <> <> 01")], "82 Member 3 2"),
    (&[("<b2>", "<b1>")], "82 Member 4 1"),
    (
        &[
            ("0001 <42>", "0002 <>"),
            ("<> <> <0001> 01", "<> <> <0001 0002> 01"),
        ],
        "82 Member 3 0",
    ),
    (
        &[("<a2>", "<a0>"), ("<> <c2>", "<0009 00> <c2>")],
        "81 KeyRepeated",
    ),
    (&[("<c9>", "<c9> 00")], "61 Malformed"),
];

/// Changes of [`INFO`] after [`COMMIT`].
const INFO_CASES: &[Case] = &[
    (&[], "current 1 tree noexternal"),
    (
        &[("<e1> 00*4", "<e1> 00*3 01")],
        "current 1 tree noexternal",
    ),
    (&[(TREE, "<>")], "current 1 notree noexternal"),
    (&[(TREE, TREE_AND_KEY)], "current 1 tree external"),
    (
        &[(TREE, "< 0004 <<e5*32>> 0004 <> >")],
        "current 1 notree external",
    ),
    (
        &[("> > > <e1>", "> > 0002 <> > <e1>")],
        "current 1 tree noexternal",
    ),
    (&[("<47>", "<48>")], "65 WrongGroup"),
    (
        &[("<47>", "<48>"), ("0004 0001", "0004 0002")],
        "65 WrongGroup",
    ),
    (&[("0004 0001", "0004 0002")], "66 WrongVersion"),
    (&[("0004 0001 0001", "0004 0001 0002")], "67 WrongSuite"),
    (&[("00*7 01", "00*8")], "68 PastEpoch"),
    (&[("<3dd5", "<3dd4")], "69 TreeHashDiffers"),
    (
        &[("<3dd5", "<3dd4"), ("<e1>", "<e2>")],
        "69 TreeHashDiffers",
    ),
    (&[("<3b3f", "<3b3e")], "70 ConfirmedDiffers"),
    (&[("> <> <", "> <0009 00> <")], "71 ExtensionsDiffer"),
    (&[("<e1>", "<e2>")], "72 TagDiffers"),
    (&[("<e1> 00*4", "<e1> 00*3 02")], "73 SignerNotMember"),
    (
        &[(
            TREE,
            "< 0002 < < 01 01 <a0> <b0> 0001 <40> <0001> <0001> <> <> <0001> 01 00*8 ff*8 <> <c0> > > >",
        )],
        "74 TreeDiffers",
    ),
    (
        &[("<a0> <b0> 0001 <40>", "<a0> <b0> 0001 <41>")],
        "74 TreeDiffers",
    ),
    (
        &[
            ("<a0> <b0> 0001 <40>", "<a1> <b1> 0001 <41>"),
            ("<c0> 00 01 01 <a1>", "<c1> 00 01 01 <a0>"),
            (
                "<b1> 0001 <41> <0001> <0001> <> <> <0001> 01 00*8 ff*8 <> <c1> > >",
                "<b0> 0001 <40> <0001> <0001> <> <> <0001> 01 00*8 ff*8 <> <c0> > >",
            ),
        ],
        "74 TreeDiffers",
    ),
    (&[(TREE, "< 0002 <> >")], "74 TreeDiffers"),
    (&[("< 0002 <", "< 0002 <> 0002 <")], "74 TreeDiffers"),
    (&[(TREE, "< 0004 <e5*32> >")], "77 ExternalPubInvalid"),
    (&[(TREE, "< 0004 <<e5*31>> >")], "77 ExternalPubInvalid"),
    (
        &[(TREE, "< 0004 <> 0004 <<e5*32>> >")],
        "77 ExternalPubInvalid",
    ),
    (&[("<c4>", "<c4> 00")], "61 Malformed"),
];

/// Changes of [`INFO`] before any message.
const LATER_CASES: &[Case] = &[
    (&[], "later 1 tree noexternal"),
    (&[(TREE, "<>")], "75 StartRefused 3"),
    (
        &[(
            "3dd545ada09b9e9be453de8b5c20702e810685eca3710882583a67d8a3eddd8b",
            "e32ab6a0a711ec8a732c3fad9263ed5fa61caf53fdf9b9690dc57271d8f110d7",
        )],
        "75 StartRefused 5",
    ),
    (&[("> <> <", "> <0003 <00>> <")], "75 StartRefused 4"),
    (&[("<e1> 00*4", "<e1> 00*3 02")], "75 StartRefused 7"),
    (&[("<e1> 00*4", "<e1> 00*3 01")], "76 SignerUnknown"),
    (
        &[
            ("00*7 01", "00*7 07"),
            (
                "<3b3fe4cf185f12883575d4bc9a402561feafe917dc05379ecd9f3f0abe6607e5>",
                "<>",
            ),
            ("<e1>", "<e9>"),
        ],
        "later 7 tree noexternal",
    ),
    (&[(TREE, TREE_AND_KEY)], "later 1 tree external"),
];

/// What is known of a GroupInfo, as text.
fn info_text(rt: &impl Abort, alloc: Global, facts: &InfoFacts) -> String {
    let kind = if facts.is_later { "later" } else { "current" };
    let tree = if facts.has_tree { "tree" } else { "notree" };
    let external = if facts.has_external_pub {
        "external"
    } else {
        "noexternal"
    };
    have(
        rt,
        format!(in alloc; "{kind} {} {tree} {external}", facts.epoch),
    )
}

/// What is known of a KeyPackage, as text.
fn package_text(rt: &impl Abort, alloc: Global, facts: &PackageFacts) -> String {
    let reference = text(rt, alloc, facts.reference.as_slice());
    let suite = facts.cipher_suite;
    let first = facts.lifetime.not_before;
    let last = facts.lifetime.not_after;
    have(
        rt,
        format!(in alloc; "package {reference} {suite} {first} {last}"),
    )
}

/// The leaf index in a fault of a leaf node.
fn leaf_of(fault: &MemberFault) -> u32 {
    match fault {
        MemberFault::ExtensionUnlisted(leaf) => *leaf,
        MemberFault::RequirementUnmet(leaf) => *leaf,
        MemberFault::CredentialUnsupported(leaf) => *leaf,
        MemberFault::SignatureKeyRepeated(leaf) => *leaf,
        MemberFault::LeafSignature(leaf) => *leaf,
        MemberFault::OutOfMemory => u32::MAX,
    }
}

/// A fault of a start as text: its number, and of a strict one also the rule and the node index.
fn start_text(rt: &impl Abort, alloc: Global, fault: &StartFault) -> String {
    let number = fault.number();
    let made = match fault {
        StartFault::Strict(
            StrictFault {
                rule,
                place: Some(place),
            },
        ) => format!(in alloc; "{number} {} {place}", rule.number()),
        StartFault::Strict(StrictFault { rule, place: None }) => {
            format!(in alloc; "{number} {}", rule.number())
        }
        _ => format!(in alloc; "{number}"),
    };
    have(rt, made)
}

/// A reason as text.
fn reason_text(rt: &impl Abort, alloc: Global, reason: &Unfit) -> String {
    let (number, name) = (reason.number(), reason.name());
    let made = match reason {
        Unfit::Member(fault) => {
            format!(in alloc; "{number} {name} {} {}", fault.number(), leaf_of(fault))
        }
        Unfit::StartRefused(fault) => {
            let fault = start_text(rt, alloc, fault);
            format!(in alloc; "{number} {name} {fault}")
        }
        Unfit::Strict(rule) => {
            format!(in alloc; "{number} {name} {} {}", rule.number(), rule.name())
        }
        Unfit::Unsigned(signatures) => {
            format!(in alloc; "{number} {name} {}", signatures.as_slice().len())
        }
        _ => format!(in alloc; "{number} {name}"),
    };
    have(rt, made)
}

/// What `examine` says of a message.
fn finding<C: SignatureCheck>(
    rt: &impl Abort,
    alloc: Global,
    follower: &mut Follower<C>,
    message: &[u8],
) -> String {
    match examine(alloc, follower, message) {
        Ok(Examined::Package(facts)) => package_text(rt, alloc, &facts),
        Ok(Examined::Info(facts)) => info_text(rt, alloc, &facts),
        Err(reason) => reason_text(rt, alloc, &reason),
    }
}

/// Checks what `examine` says of a message with changes.
fn check_changed<C: SignatureCheck>(
    rt: &impl Abort,
    alloc: Global,
    follower: &mut Follower<C>,
    message: &str,
    case: &Case,
) {
    let (changes, expected) = case;
    let notation = changed(rt, alloc, message, changes);
    let message = bytes_of(rt, alloc, notation.as_str());
    let found = finding(rt, alloc, follower, message.as_slice());
    expect_text(rt, found, expected);
}

/// A follower of the group of member 0 in a profile, after messages that it accepts.
fn follower_in(
    rt: &impl Abort,
    alloc: Global,
    profile: Profile,
    info: &str,
    messages: &[&str],
) -> Follower<Trusting> {
    let story = Story {
        profile,
        info,
        messages,
    };
    follower_after(rt, alloc, Rules::plain(), story)
}

/// A follower of the group, by the members' profile, after messages that it accepts.
fn follower_of(rt: &impl Abort, alloc: Global, messages: &[&str]) -> Follower<Trusting> {
    follower_in(rt, alloc, Profile::Members, START, messages)
}

/// Checks what a follower says of a message with changes, case by case.
fn check_cases(
    rt: &impl Abort,
    alloc: Global,
    mut follower: Follower<Trusting>,
    message: &str,
    cases: &[Case],
) {
    for case in cases {
        check_changed(rt, alloc, &mut follower, message, case);
    }
    drop(follower);
}

#[test]
fn clients_can_be_added_or_not(rt: HostRuntime) {
    let alloc = rt.alloc();
    let follower = follower_of(&rt, alloc, &[]);
    check_cases(&rt, alloc, follower, PACKAGE, &[(TO_FIRST, FIRST)]);
    let follower = follower_of(&rt, alloc, &[ADD, COMMIT]);
    check_cases(&rt, alloc, follower, PACKAGE, PACKAGE_CASES);
}

/// A group whose tree has parents with the encryption keys `d1` and `d3`.
#[test]
fn keys_of_parents_are_not_added_again(rt: HostRuntime) {
    let alloc = rt.alloc();
    let info = have(
        &rt,
        format!(in alloc;
            "0001 0004 0001 0001 <47> 00*7 02 <{PATH_HASH}> <> <> < 0002 <{PATH}> > <e1> 00*4 <c4>"
        ),
    );
    let changes = [
        ("<f2> <a2> <b2>", "<f3> <a3> <b3>"),
        ("<42>", "<43>"),
        ("<c2>", "<c3>"),
    ];
    let third = changed(&rt, alloc, PACKAGE, &changes);
    let follower = follower_in(&rt, alloc, Profile::Members, info.as_str(), &[]);
    let cases: [Case; 3] = [
        (&[], THIRD),
        (&[("<a3>", "<d1>")], "81 KeyRepeated"),
        (&[("<a3>", "<d3>")], "81 KeyRepeated"),
    ];
    check_cases(&rt, alloc, follower, third.as_str(), &cases);
}

/// A group that requires the credential type 1.
#[test]
fn clients_support_what_the_group_requires(rt: HostRuntime) {
    let alloc = rt.alloc();
    let required = [("<> <> < 0002", "<> <0003 <<> <> <0001>>> < 0002")];
    let info = changed(&rt, alloc, START, &required);
    let follower = follower_in(&rt, alloc, Profile::Members, info.as_str(), &[]);
    let cases: [Case; 2] = [
        (TO_FIRST, FIRST),
        (&[("<> <> <0001> 01", "<> <> <> 01")], "82 Member 2 1"),
    ];
    check_cases(&rt, alloc, follower, PACKAGE, &cases);
}

#[test]
fn no_client_is_added_in_the_last_epoch(rt: HostRuntime) {
    let alloc = rt.alloc();
    let info = changed(&rt, alloc, START, &[("00*8", "ff*8")]);
    let follower = follower_in(&rt, alloc, Profile::Members, info.as_str(), &[]);
    check_cases(&rt, alloc, follower, PACKAGE, &[(&[], "64 LastEpoch")]);
}

#[test]
fn group_infos_are_of_the_present_epoch(rt: HostRuntime) {
    let alloc = rt.alloc();
    let follower = follower_of(&rt, alloc, &[ADD, COMMIT]);
    check_cases(&rt, alloc, follower, INFO, INFO_CASES);
}

#[test]
fn group_infos_are_of_a_later_epoch(rt: HostRuntime) {
    let alloc = rt.alloc();
    let follower = follower_of(&rt, alloc, &[]);
    check_cases(&rt, alloc, follower, INFO, LATER_CASES);
}

/// Messages that no examination is for: a PublicMessage, a PrivateMessage, a Welcome, and bytes that are none.
#[test]
fn other_messages_are_unfit(rt: HostRuntime) {
    let alloc = rt.alloc();
    let mut follower = follower_of(&rt, alloc, &[]);
    const CASES: &[(&str, &str)] = &[
        (COMMIT, "62 PublicMessage"),
        ("0001 0002 abcd", "61 Malformed"),
        ("0001 0003 abcd", "61 Malformed"),
        ("", "61 Malformed"),
        ("0001 0006", "61 Malformed"),
    ];
    for (message, expected) in CASES {
        let message = bytes_of(&rt, alloc, message);
        let found = finding(&rt, alloc, &mut follower, message.as_slice());
        expect_text(&rt, found, expected);
    }
    drop(follower);
}

/// A ReInit ends the group: in its last epoch no client is added, and no GroupInfo is current.
#[test]
fn nothing_fits_a_group_that_is_over(rt: HostRuntime) {
    let alloc = rt.alloc();
    const REINIT: &str = "0001 0001 <47> 00*7 01 01 00*3 01 <> 02 0005 <48> 0001 0001 <> <c8> <c7>";
    const END: &str = "0001 0001 <47> 00*7 01 01 00*4 <> 03 \
        < 02 <f922547eb456c33d4a57a608f8d3cecf131a8454674de76d1b6720ecee23db5a> > 00 <c6> <e1> <c5>";
    let messages = [ADD, COMMIT, REINIT, END];
    let follower = follower_in(&rt, alloc, Profile::Full, START, &messages);
    let infos: [Case; 3] = [
        (
            &[
                ("00*7 01", "00*7 02"),
                (
                    "3b3fe4cf185f12883575d4bc9a402561feafe917dc05379ecd9f3f0abe6607e5",
                    "ca117795c5d2f081dfd8313c30de2eb21a79f2f508f54a2d5b17d0f7af81e6a1",
                ),
            ],
            "63 GroupOver",
        ),
        (&[("00*7 01", "00*7 03")], "63 GroupOver"),
        (&[], "68 PastEpoch"),
    ];
    check_cases(&rt, alloc, follower, INFO, &infos);
    let follower = follower_in(&rt, alloc, Profile::Full, START, &messages);
    check_cases(&rt, alloc, follower, PACKAGE, &[(&[], "63 GroupOver")]);
}

// ---- signatures

/// The receipts of the signatures of the leaves of members 0, 1 and 2: the SHA-256 of suite, key, SignContent and signature.
const LEAVES: [&str; 3] = [
    "bd6f8df8dcd01852d1c0a3e53b39dcb3bb86dda462a62c39b9582a3907fe4c36",
    "e60b8f3c0a227ffc5e084212caecf78d7e2b38f53addb2f55387762615d6872a",
    "8f55df7bd7fc75821ad6b942534d4e4267d2de799e3237d7e8a8c86fceb6b453",
];

/// Those of the KeyPackages of members 1 and 2.
const PACKAGES: [&str; 2] = [
    "47c350198b187b8db3ec7885f5f8de0799a2ebdd4d7c97610b7b94d2af36410e",
    "2b88e35f6e0d7e67c02e2d0bfc01d60827fdc1a4291dc803b05a2f29198f4211",
];

/// Those of [`START`], [`ADD`] and [`COMMIT`].
const HISTORY: [&str; 3] = [
    "584cca8421eb79fc5ddfb3f6cc7af53016bdb08bef17bdfff9609d6ae9071284",
    "fd064fc6472edfe1ed558ad948a217e66423a65a87d59215cf027574c22d998a",
    "5cb22003b3fd65f195f718b661f1928e98a924d273554bf449080e0429cb4803",
];

/// That of [`INFO`].
const INFO_RECEIPT: &str = "ba95854ff217379cf25718452ff63e719ddd10935429de676015bb144f2ecfc5";

/// A checker of these receipts.
fn listed(rt: &impl Abort, alloc: Global, receipts: &[&str]) -> Receipts {
    let mut lines = String::new(alloc);
    for digest in receipts {
        have(rt, lines.push_str(digest));
        have(rt, lines.push_str("\n"));
    }
    have(rt, Receipts::read(alloc, lines.as_bytes()))
}

/// The GroupInfo of a notation.
fn group_info(rt: &impl Abort, alloc: Global, notation: &str) -> GroupInfo {
    let message = bytes_of(rt, alloc, notation);
    match have(rt, decode_message(alloc, message.as_slice())) {
        Message::GroupInfo(info) => info,
        _ => panic!(rt; "a GroupInfo"),
    }
}

/// A follower of the group of member 0 by these receipts.
fn started(rt: &impl Abort, alloc: Global, receipts: &[&str]) -> Follower<Receipts> {
    let info = group_info(rt, alloc, START);
    let checker = listed(rt, alloc, receipts);
    match Follower::start(alloc, info, None, checker) {
        Ok(follower) => follower,
        Err(_) => panic!(rt; "a follower"),
    }
}

/// A follower of the group by these receipts, after messages that it accepts.
fn followed(
    rt: &impl Abort,
    alloc: Global,
    receipts: &[&str],
    messages: &[&str],
) -> Follower<Receipts> {
    let mut follower = started(rt, alloc, receipts);
    for message in messages {
        let message = bytes_of(rt, alloc, message);
        have(rt, follower.take(message.as_slice()));
    }
    follower
}

/// The bytes of the digits of a receipt.
fn digest_of(rt: &impl Abort, alloc: Global, digits: &str) -> [u8; 32] {
    let bytes = bytes_of(rt, alloc, digits);
    *bytes.as_slice().first_chunk::<32>().expect(rt, "32 bytes")
}

/// Checks what a follower says of a message before it learns each of some receipts, and after the last one.
fn check_learning(
    rt: &impl Abort,
    alloc: Global,
    message: &str,
    steps: &[(&str, &str)],
    last: &str,
) {
    let message = bytes_of(rt, alloc, message);
    let mut follower = started(rt, alloc, &[HISTORY[0], LEAVES[0]]);
    for (expected, digest) in steps {
        let found = finding(rt, alloc, &mut follower, message.as_slice());
        expect_text(rt, found, expected);
        have(rt, follower.learn(digest_of(rt, alloc, digest)));
    }
    let found = finding(rt, alloc, &mut follower, message.as_slice());
    expect_text(rt, found, last);
    drop(follower);
}

#[test]
fn signatures_that_are_not_good_are_listed(rt: HostRuntime) {
    let alloc = rt.alloc();
    let package = changed(&rt, alloc, PACKAGE, TO_FIRST);
    let steps = [("87 Unsigned 2", LEAVES[1]), ("87 Unsigned 1", PACKAGES[0])];
    check_learning(&rt, alloc, package.as_str(), &steps, FIRST);
    let steps = [
        ("87 Unsigned 2", INFO_RECEIPT),
        ("87 Unsigned 1", LEAVES[1]),
    ];
    check_learning(&rt, alloc, INFO, &steps, "later 1 tree noexternal");
}

/// The signature of a GroupInfo of the present epoch is the only one of it that is checked.
#[test]
fn the_signature_of_a_current_group_info_is_listed(rt: HostRuntime) {
    let alloc = rt.alloc();
    let receipts = [
        HISTORY[0],
        HISTORY[1],
        HISTORY[2],
        LEAVES[0],
        LEAVES[1],
        PACKAGES[0],
    ];
    let mut follower = followed(&rt, alloc, &receipts, &[ADD, COMMIT]);
    let message = bytes_of(&rt, alloc, INFO);
    let found = finding(&rt, alloc, &mut follower, message.as_slice());
    expect_text(&rt, found, "87 Unsigned 1");
    have(&rt, follower.learn(digest_of(&rt, alloc, INFO_RECEIPT)));
    let found = finding(&rt, alloc, &mut follower, message.as_slice());
    expect_text(&rt, found, "current 1 tree noexternal");
    drop(follower);
}

/// Each bit of a byte.
const BITS: [u8; 8] = [1, 2, 4, 8, 16, 32, 64, 128];

/// Bytes with one of them changed by a mask.
fn masked(rt: &impl Abort, alloc: Global, bytes: &[u8], at: usize, mask: u8) -> Vec<u8> {
    let mut changed = Vec::new(alloc);
    for (index, byte) in bytes.iter().enumerate() {
        let mask = if index == at { mask } else { 0 };
        have(rt, changed.push(*byte ^ mask));
    }
    changed
}

/// Checks that a message is unfit if one of the bits of a byte is another one.
fn check_byte(
    rt: &impl Abort,
    alloc: Global,
    follower: &mut Follower<Receipts>,
    bytes: &[u8],
    at: usize,
) {
    for mask in BITS {
        let message = masked(rt, alloc, bytes, at, mask);
        assert!(rt;
            examine(alloc, follower, message.as_slice()).is_err(),
            "an unfit message"
        );
    }
}

/// Checks that a message is unfit if one of its bits is another one, and that each proper prefix is malformed.
fn check_each_bit(
    rt: &impl Abort,
    alloc: Global,
    follower: &mut Follower<Receipts>,
    message: &str,
) {
    let bytes = bytes_of(rt, alloc, message);
    assert!(rt;
        examine(alloc, follower, bytes.as_slice()).is_ok(),
        "a fit message"
    );
    for at in 0..bytes.len() {
        let found = finding(rt, alloc, follower, &bytes.as_slice()[..at]);
        expect_text(rt, found, "61 Malformed");
        check_byte(rt, alloc, follower, bytes.as_slice(), at);
    }
}

#[test]
fn each_bit_counts(rt: HostRuntime) {
    let alloc = rt.alloc();
    let receipts = [
        HISTORY[0],
        HISTORY[1],
        HISTORY[2],
        LEAVES[0],
        LEAVES[1],
        LEAVES[2],
        PACKAGES[0],
        PACKAGES[1],
        INFO_RECEIPT,
    ];
    let mut follower = followed(&rt, alloc, &receipts, &[ADD, COMMIT]);
    check_each_bit(&rt, alloc, &mut follower, PACKAGE);
    check_each_bit(&rt, alloc, &mut follower, INFO);
    drop(follower);
}

// ---- strict rules

/// The KeyPackage of member 1, with keys of 32 bytes.
const STRICT_PACKAGE: &str =
    "0001 0005 0001 0001 <f1*32> <a1*32> <b1*32> 0001 <41> <0001> <0001> <> <> <0001> 01 00*8 ff*8 \
    <> <c1> <> <c9>";

/// What it is known by.
const STRICT_FIRST: &str =
    "package 3613a29d567128ab27a4352650aec3557c78b55086189c0efa1cd894aa268a8d 1 0 18446744073709551615";

/// Changes of [`STRICT_PACKAGE`] by which it breaks a strict rule.
const STRICT_CASES: &[Case] = &[
    (&[], STRICT_FIRST),
    (&[("<f1*32>", "<00*32>")], "89 Strict 44 KeyForm"),
    (&[("<f1*32>", "<f1*31>")], "89 Strict 44 KeyForm"),
    (&[("<a1*32>", "<01 00*31>")], "89 Strict 44 KeyForm"),
    (
        &[("<0001> <0001> <>", "<0001> <0002> <>")],
        "89 Strict 46 GroupUnlisted",
    ),
    (
        &[("<> <> <0001> 01", "<0002> <> <0001> 01")],
        "89 Strict 47 DefaultListed",
    ),
    (
        &[("00*8 ff*8", "00*7 05 00*7 04")],
        "89 Strict 48 LifetimeEmpty",
    ),
    (
        &[("<> <c9>", "<0009 00 0009 00> <c9>")],
        "89 Strict 41 ExtensionRepeated",
    ),
    (
        &[("<> <c1>", "<0004 00> <c1>")],
        "89 Strict 42 ExtensionMisplaced",
    ),
    (
        &[("<> <c1>", "<0001 00> <c1>")],
        "89 Strict 43 ExtensionUnreadable",
    ),
];

/// Checks each changed KeyPackage by all strict rules, and that it is fit by none.
fn check_strict_packages(rt: &impl Abort, alloc: Global) {
    let story = Story {
        profile: Profile::Members,
        info: strict_group::INFO,
        messages: &[],
    };
    let strict = follower_after(rt, alloc, Rules::strict(), story);
    check_cases(rt, alloc, strict, STRICT_PACKAGE, STRICT_CASES);
    let mut plain = follower_after(rt, alloc, Rules::plain(), story);
    for (changes, _) in STRICT_CASES {
        let notation = changed(rt, alloc, STRICT_PACKAGE, changes);
        let message = bytes_of(rt, alloc, notation.as_str());
        assert!(rt;
            examine(alloc, &mut plain, message.as_slice()).is_ok(),
            "fit by the plain rules"
        );
    }
    drop(plain);
}

#[test]
fn key_packages_meet_the_strict_rules_of_the_group(rt: HostRuntime) {
    let alloc = rt.alloc();
    check_strict_packages(&rt, alloc);
}

/// A group whose GroupContext has an extension of a type that its member lists.
#[test]
fn clients_support_the_extensions_of_the_group(rt: HostRuntime) {
    let alloc = rt.alloc();
    let leaf = changed(
        &rt,
        alloc,
        strict_group::LEAF_0,
        &[("<> <> <0001> 01", "<0a0a> <> <0001> 01")],
    );
    let extension = [("> <> <> < 0002", "> <> <0a0a 00> < 0002")];
    let info = strict_group::start_with(&rt, alloc, leaf.as_str(), &extension);
    let story = Story {
        profile: Profile::Members,
        info: info.as_str(),
        messages: &[],
    };
    let follower = follower_after(&rt, alloc, Rules::strict(), story);
    let cases: [Case; 1] = [(&[], "89 Strict 51 GroupExtensionUnsupported")];
    check_cases(&rt, alloc, follower, STRICT_PACKAGE, &cases);
    let listing = changed(
        &rt,
        alloc,
        STRICT_PACKAGE,
        &[("<> <> <0001> 01", "<0a0a> <> <0001> 01")],
    );
    let mut follower = follower_after(&rt, alloc, Rules::strict(), story);
    let message = bytes_of(&rt, alloc, listing.as_str());
    assert!(rt;
        examine(alloc, &mut follower, message.as_slice()).is_ok(),
        "a client that lists it"
    );
    drop(follower);
}

/// The GroupInfo of member 0 after [`strict_group::ADDING_COMMIT`]. It has the tree as its only extension.
const STRICT_INFO: &str = "0001 0004 0001 0001 <47> 00*7 01 \
    <45653e7637c12622b5d0d4a7ccb1789a6fc7bcc168bee96d8a7dce496e25c9a4> \
    <c7c5963655f48fe6d697c5ef54d444c01e782619653c8fa7b74a497c19e32b44> <> \
    < 0002 < < 01 01 <a0*32> <b0*32> 0001 <40> <0001> <0001> <> <> <0001> 01 00*8 ff*8 <> <c0> 00 \
    01 01 <a1*32> <b1*32> 0001 <41> <0001> <0001> <> <> <0001> 01 00*8 ff*8 <> <c1> > > > \
    <e1*32> 00*4 <c4>";

/// A proposal of member 0 that adds member 1, and the commit of it by its reference.
const STRICT_COMMIT: &str =
    "0001 0001 <47> 00*8 01 00*4 <> 03 < 02 <da40ba00e8444b5d7aad58abae18be158345ef66a861f8f0e275572403ea0b93> > 00 <c6> <e1*32> <c5*32>";

/// The end of [`STRICT_INFO`], and the same with other extensions behind the tree.
const END: &str = "> > > <e1*32>";

/// Changes of [`STRICT_INFO`] to one of a group in which member 1 lists cipher suite 2 alone. The tree hash is that of its tree.
const OTHER_SUITE: &[(&str, &str)] = &[
    (
        "45653e7637c12622b5d0d4a7ccb1789a6fc7bcc168bee96d8a7dce496e25c9a4",
        "4dcfedff5deeb4d8b54073eeb39f0372c9c13b3af9eceada2fad8f2688fd6295",
    ),
    ("<41> <0001> <0001>", "<41> <0001> <0002>"),
];

/// Changes of [`STRICT_INFO`] to one of a group in which member 1 lists the default proposal type 7. The tree hash is that of its
/// tree.
const DEFAULT_TYPE: &[(&str, &str)] = &[
    (
        "45653e7637c12622b5d0d4a7ccb1789a6fc7bcc168bee96d8a7dce496e25c9a4",
        "d5fdc7e9cdee3811b16ed99bb8bbd8eab66f075ba0c4350ea8f005a75d392360",
    ),
    ("<41> <0001> <0001> <> <>", "<41> <0001> <0001> <> <0007>"),
];

/// Changes of [`STRICT_INFO`], the result by all strict rules, and that by none.
const STRICT_INFOS: &[(&[(&str, &str)], &str, &str)] = &[
    (
        &[],
        "current 1 tree noexternal",
        "current 1 tree noexternal",
    ),
    (
        &[(END, "> > 0004 <<e5*32>> > <e1*32>")],
        "current 1 tree external",
        "current 1 tree external",
    ),
    (
        &[(END, "> > 0004 <<00*32>> > <e1*32>")],
        "77 ExternalPubInvalid",
        "current 1 tree external",
    ),
    (
        &[(END, "> > 0004 <<e5*31>> > <e1*32>")],
        "77 ExternalPubInvalid",
        "77 ExternalPubInvalid",
    ),
    (
        &[(END, "> > 0009 00 0009 00 > <e1*32>")],
        "89 Strict 41 ExtensionRepeated",
        "current 1 tree noexternal",
    ),
];

/// A follower with the rules of a number, after the messages of the strict group that lead to epoch 1.
fn strict_follower(rt: &impl Abort, alloc: Global, bits: u16) -> Follower<Trusting> {
    let story = Story {
        profile: Profile::Members,
        info: strict_group::INFO,
        messages: &[strict_group::ADD, STRICT_COMMIT],
    };
    follower_after(rt, alloc, rules_of(rt, bits), story)
}

/// Checks the GroupInfos of epoch 1 by a set of rules, all or none.
fn check_strict_infos(rt: &impl Abort, alloc: Global, bits: u16) {
    let mut follower = strict_follower(rt, alloc, bits);
    for (changes, strict, plain) in STRICT_INFOS {
        let expected = if bits == 0 { *plain } else { *strict };
        check_changed(rt, alloc, &mut follower, STRICT_INFO, &(*changes, expected));
    }
    drop(follower);
}

#[test]
fn group_infos_meet_the_strict_rules_of_the_group(rt: HostRuntime) {
    let alloc = rt.alloc();
    check_strict_infos(&rt, alloc, 0x1fff);
    check_strict_infos(&rt, alloc, 0);
}

/// By the rules of the group, a start from a GroupInfo of a later epoch fails for a strict rule.
#[test]
fn later_group_infos_meet_the_strict_rules_of_the_group(rt: HostRuntime) {
    let alloc = rt.alloc();
    let story = Story {
        profile: Profile::Members,
        info: strict_group::INFO,
        messages: &[],
    };
    const REPEATED: &[(&str, &str)] = &[(END, "> > 0009 00 0009 00 > <e1*32>")];
    let strict: [Case; 3] = [
        (&[], "later 1 tree noexternal"),
        (REPEATED, "75 StartRefused 9 41"),
        (OTHER_SUITE, "75 StartRefused 9 46 2"),
    ];
    let follower = follower_after(&rt, alloc, Rules::strict(), story);
    check_cases(&rt, alloc, follower, STRICT_INFO, &strict);
    let plain: [Case; 3] = [
        (&[], "later 1 tree noexternal"),
        (REPEATED, "later 1 tree noexternal"),
        (OTHER_SUITE, "later 1 tree noexternal"),
    ];
    let follower = follower_after(&rt, alloc, Rules::plain(), story);
    check_cases(&rt, alloc, follower, STRICT_INFO, &plain);
}

/// A follower of the group of strict keys in epoch 0, with the rules of a number.
fn follower_by(rt: &impl Abort, alloc: Global, bits: u16) -> Follower<Trusting> {
    let story = Story {
        profile: Profile::Members,
        info: strict_group::INFO,
        messages: &[],
    };
    follower_after(rt, alloc, rules_of(rt, bits), story)
}

/// The rules but for 47, and those but for 44.
const WITHOUT_47: u16 = 0x1f7f;

const WITHOUT_44: u16 = 0x1fef;

/// Only rules of the group's set are asked.
#[test]
fn rules_that_a_group_lacks_are_not_asked(rt: HostRuntime) {
    let alloc = rt.alloc();
    let follower = follower_by(&rt, alloc, WITHOUT_47);
    let cases: [Case; 2] = [
        (
            &[("<> <> <0001> 01", "<0002> <> <0001> 01")],
            "package 93e87d397e6b3252b1b93428cd61e769e350f3667926cc2f245d3473e2eb112e 1 0 18446744073709551615",
        ),
        (
            &[
                ("<> <> <0001> 01", "<0002> <> <0001> 01"),
                ("<f1*32>", "<00*32>"),
            ],
            "89 Strict 44 KeyForm",
        ),
    ];
    check_cases(&rt, alloc, follower, STRICT_PACKAGE, &cases);
    let lists_default = [(DEFAULT_TYPE, "later 1 tree noexternal")];
    let follower = follower_by(&rt, alloc, WITHOUT_47);
    check_cases(&rt, alloc, follower, STRICT_INFO, &lists_default);
    let lists_default = [(DEFAULT_TYPE, "75 StartRefused 9 47 2")];
    let follower = follower_by(&rt, alloc, 0x1fff);
    check_cases(&rt, alloc, follower, STRICT_INFO, &lists_default);
    let follower = strict_follower(&rt, alloc, WITHOUT_44);
    let cases: [Case; 1] = [(
        &[(END, "> > 0004 <<00*32>> > <e1*32>")],
        "current 1 tree external",
    )];
    check_cases(&rt, alloc, follower, STRICT_INFO, &cases);
}

/// A GroupInfo whose tag is not of the hash's length, in a group that was made strict after it started from it.
#[test]
fn tags_of_group_infos_have_the_length_of_a_hash(rt: HostRuntime) {
    let alloc = rt.alloc();
    let info = changed(&rt, alloc, strict_group::INFO, &[("<e0*32>", "<e0>")]);
    let mut follower = follower_in(&rt, alloc, Profile::Members, info.as_str(), &[]);
    let message = bytes_of(&rt, alloc, info.as_str());
    let found = finding(&rt, alloc, &mut follower, message.as_slice());
    expect_text(&rt, found, "current 0 tree noexternal");
    have(&rt, follower.make_strict(Rules::strict()));
    let found = finding(&rt, alloc, &mut follower, message.as_slice());
    expect_text(&rt, found, "89 Strict 40 TagLength");
    drop(follower);
}

// ---- other cipher suites

/// [`START`] in another cipher suite.
fn start_in_suite(rt: &impl Abort, alloc: Global, suite: u16) -> String {
    const LEAF: &str = "<a0> <b0> 0001 <40> <0001> <0001> <> <> <0001> 01 00*8 ff*8 <> <c0>";
    let node = have(rt, format!(in alloc; "010000000001 {LEAF}"));
    let hash = hash_of(rt, alloc, suite, node.as_str());
    let head = have(rt, format!(in alloc; "0004 0001 000{suite}"));
    let changes = [
        ("0004 0001 0001", head.as_str()),
        (
            "e32ab6a0a711ec8a732c3fad9263ed5fa61caf53fdf9b9690dc57271d8f110d7",
            hash.as_str(),
        ),
    ];
    changed(rt, alloc, START, &changes)
}

/// An external_pub has as many bytes as a public key of the suite's KEM.
#[test]
fn external_pubs_have_the_length_of_the_suites_keys(rt: HostRuntime) {
    let alloc = rt.alloc();
    const SHORT: &[(&str, &str)] = &[("> > > <e0>", "> > 0004 <<e5*32>> > <e0>")];
    const CASES: [(u16, [Case; 2]); 2] = [
        (
            4,
            [
                (
                    &[("> > > <e0>", "> > 0004 <<e5*56>> > <e0>")],
                    "current 0 tree external",
                ),
                (SHORT, "77 ExternalPubInvalid"),
            ],
        ),
        (
            7,
            [
                (
                    &[("> > > <e0>", "> > 0004 <<e5*97>> > <e0>")],
                    "current 0 tree external",
                ),
                (SHORT, "77 ExternalPubInvalid"),
            ],
        ),
    ];
    for (suite, cases) in &CASES {
        let info = start_in_suite(&rt, alloc, *suite);
        let follower = follower_in(&rt, alloc, Profile::Members, info.as_str(), &[]);
        check_cases(&rt, alloc, follower, info.as_str(), cases);
    }
}

/// The leaf of member 0 of a group of cipher suite 2, whose keys are points of its curve, of the least coordinates from `a0` and
/// from `b0` on.
const POINT_LEAF: &str = "\
    <04 00*31 a1 ee9a99815d52d927b8072c2e70f554ae24f64c24dadb1208b5bf9c58a36f6e68> \
    <04 00*31 b0 3f008ee72f4bbed200d9de29eb4f91cdc2397980f05d6114cd202a2d0e9cbe10> \
    0001 <40> <0001> <0002> <> <> <0001> 01 00*8 ff*8 <> <c0>";

/// The extensions of [`strict_group::INFO`], with the leaf of [`POINT_LEAF`].
const POINT_TREE: &str = "< 0002 < < 01 01 \
    <04 00*31 a1 ee9a99815d52d927b8072c2e70f554ae24f64c24dadb1208b5bf9c58a36f6e68> \
    <04 00*31 b0 3f008ee72f4bbed200d9de29eb4f91cdc2397980f05d6114cd202a2d0e9cbe10> \
    0001 <40> <0001> <0002> <> <> <0001> 01 00*8 ff*8 <> <c0> > > >";

/// External_pubs in that group, each with the result by no rule, by 44 alone, by 52 alone, and by all rules: a point of the curve, a
/// key of the form of one, and bytes of the same length that have not this form.
const POINTS: &[(&str, [&str; 4])] = &[
    (
        "< 0004 <<04 00*31 05 459243b9aa581806fe913bce99817ade11ca503c64d9a3c533415c083248fbcc>> >",
        [EXTERNAL, EXTERNAL, EXTERNAL, EXTERNAL],
    ),
    (
        "< 0004 <<04 00*64>> >",
        [EXTERNAL, EXTERNAL, INVALID, INVALID],
    ),
    (
        "< 0004 <<02 00*31 05 459243b9aa581806fe913bce99817ade11ca503c64d9a3c533415c083248fbcc>> >",
        [EXTERNAL, INVALID, INVALID, INVALID],
    ),
];

/// What is said of a usable external_pub, and of another one.
const EXTERNAL: &str = "current 0 notree external";

const INVALID: &str = "77 ExternalPubInvalid";

/// The sets of rules of [`POINTS`].
const POINT_RULES: [u16; 4] = [0, 0x0010, 0x1000, 0x1fff];

/// Checks the GroupInfo of the group of cipher suite 2 with each external_pub, by one of the sets.
fn check_points(rt: &impl Abort, alloc: Global, info: &str, at: usize) {
    assert!(rt; at < 4);
    let story = Story {
        profile: Profile::Members,
        info,
        messages: &[],
    };
    let mut follower = follower_after(rt, alloc, rules_of(rt, POINT_RULES[at]), story);
    for (extensions, expected) in POINTS {
        let notation = changed(rt, alloc, info, &[(POINT_TREE, extensions)]);
        let message = bytes_of(rt, alloc, notation.as_str());
        let found = finding(rt, alloc, &mut follower, message.as_slice());
        expect_text(rt, found, expected[at]);
    }
    drop(follower);
}

#[test]
fn external_pubs_meet_the_rules_for_keys(rt: HostRuntime) {
    let alloc = rt.alloc();
    let suite = [("0004 0001 0001", "0004 0001 0002")];
    let info = strict_group::start_with(&rt, alloc, POINT_LEAF, &suite);
    for at in 0..POINT_RULES.len() {
        check_points(&rt, alloc, info.as_str(), at);
    }
}
