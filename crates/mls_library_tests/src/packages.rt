//! KeyPackages by themselves (RFC 9420, 7.3 and 10.1): the KeyPackage of member 1, changed part by part.
//!
//! A value is text in the notation of [`bytes_of`], and a case has changes of it: [`changed`]. A result is text: of a good
//! KeyPackage its KeyPackageRef, its cipher suite and the lifetime of its leaf node; else the number and the name of the reason,
//! and what it names.

use crate::notation::{bytes_of, changed};
use crate::strict_group::rules_of;
use crate::support::{expect_text, have, text};
use mls_check::{Receipts, SignatureCheck, Trusting, receipt};
use mls_examine::{PackageFacts, Unfit, check_package};
use mls_msgs::{KeyPackage, Message, Rules, decode_message};
use std::alloc::Global;
use std::process::Abort;

/// The KeyPackage of member 1, with keys of one byte.
const PACKAGE: &str =
    "0001 0005 0001 0001 <f1> <a1> <b1> 0001 <41> <0001> <0001> <> <> <0001> 01 00*8 ff*8 <> <c1> <> <c9>";

/// The KeyPackage of member 1, with keys of 32 bytes.
const STRICT_PACKAGE: &str =
    "0001 0005 0001 0001 <f1*32> <a1*32> <b1*32> 0001 <41> <0001> <0001> <> <> <0001> 01 00*8 ff*8 \
    <> <c1> <> <c9>";

/// The KeyPackage of a client with keys of cipher suite 2: each is a point of its curve.
const POINT_PACKAGE: &str = "0001 0005 0001 0002 \
    <04 00*29 0f1002 bda32f74e99d35dad95643e5c86ec1b6696ba3d79284b325bf3e2cfb8f58b886> \
    <04 00*29 0a1000 b9966c131da55c9db84091a5b1745559fa92f77d0ed72e33bdc5bd25a59e38f4> \
    <04 00*29 0b1001 13ff752184619faf4b593bd1c4eca74ade967b213cb15bb24e5c5e92217e8d8a> \
    0001 <41> <0001> <0002> <> <> <0001> 01 00*8 ff*8 <> <c1> <> <c9>";

/// The receipt of the signature of the leaf node of [`PACKAGE`]: the SHA-256 of the suite, the key, the SignContent and the
/// signature.
const LEAF_RECEIPT: &str = "e60b8f3c0a227ffc5e084212caecf78d7e2b38f53addb2f55387762615d6872a";

/// That of the signature of [`PACKAGE`] itself.
const OWN_RECEIPT: &str = "47c350198b187b8db3ec7885f5f8de0799a2ebdd4d7c97610b7b94d2af36410e";

/// What [`PACKAGE`] is known by.
const GOOD: &str =
    "2ecb8b18295924eead626e0aeaf767ebefa71136bd7e54db65cb6132a1b4968a 1 0 18446744073709551615";

/// What [`STRICT_PACKAGE`] is known by.
const STRICT_GOOD: &str =
    "3613a29d567128ab27a4352650aec3557c78b55086189c0efa1cd894aa268a8d 1 0 18446744073709551615";

/// What it is known by if its leaf lists the extension type 2.
const LISTING_GOOD: &str =
    "93e87d397e6b3252b1b93428cd61e769e350f3667926cc2f245d3473e2eb112e 1 0 18446744073709551615";

/// All strict rules but 47.
const WITHOUT_47: u16 = 0x1f7f;

/// A change by which a leaf lists the extension type 2.
const LISTING: (&str, &str) = ("<> <> <0001> 01", "<0002> <> <0001> 01");

/// A change by which the init key has 32 bytes that are 0.
const ZERO_INIT: (&str, &str) = ("<f1*32>", "<00*32>");

/// Changes of [`PACKAGE`], and the result without strict rules.
const PLAIN_CASES: &[(&[(&str, &str)], &str)] = &[
    (&[], GOOD),
    (
        &[("0005 0001 0001", "0005 0001 0002")],
        "12fc5d9cabbb9bded53873a1f65e54a81fd4ce03ba64e93d2b585dea45944831 2 0 18446744073709551615",
    ),
    (
        &[("0005 0001 0001", "0005 0001 0007")],
        "ce02b523feef1b8f16277037deaa024638cc5a8432795f7247e1d096c192d98f597f8e172d4e19d5d77a8be9cddff41e \
        7 0 18446744073709551615",
    ),
    (&[("0005 0001", "0005 0002")], "66 WrongVersion"),
    (&[("0005 0001", "0005 0000")], "66 WrongVersion"),
    (&[("0005 0001 0001", "0005 0001 0000")], "67 WrongSuite"),
    (&[("0005 0001 0001", "0005 0001 0008")], "67 WrongSuite"),
    (&[("0005 0001 0001", "0005 0002 0008")], "66 WrongVersion"),
    (&[("<a1>", "<91>"), ("01 00*8 ff*8", "02")], "78 LeafSource"),
    (
        &[("<a1>", "<81>"), ("01 00*8 ff*8", "03 <>")],
        "78 LeafSource",
    ),
    (&[("<f1>", "<a1>")], "79 InitKeyReused"),
    (&[("<> <c1>", "<0009 00> <c1>")], "82 Member 1"),
    (
        &[
            ("<> <c1>", "<0009 00> <c1>"),
            ("<> <> <0001>", "<0009> <> <0001>"),
        ],
        "4cdedb42987e4086bf7f3ee7c7886e39b332c22e566ddef81f1e9c4ef04766de 1 0 18446744073709551615",
    ),
    (&[("<> <> <0001> 01", "<> <> <> 01")], "82 Member 3"),
    (&[("0001 <41>", "0002 <>")], "82 Member 3"),
    (
        &[
            ("0005 0001 0001", "0005 0001 0008"),
            ("<a1>", "<91>"),
            ("01 00*8 ff*8", "02"),
        ],
        "67 WrongSuite",
    ),
    (
        &[("<f1>", "<a1>"), ("<> <c1>", "<0009 00> <c1>")],
        "79 InitKeyReused",
    ),
    (
        &[
            ("<> <c1>", "<0009 00> <c1>"),
            ("<> <> <0001> 01", "<> <> <> 01"),
        ],
        "82 Member 1",
    ),
];

/// Changes of [`STRICT_PACKAGE`] by which it breaks a strict rule, and the result by all strict rules.
const STRICT_CASES: &[(&[(&str, &str)], &str)] = &[
    (&[ZERO_INIT], "89 Strict 44 KeyForm"),
    (&[("<f1*32>", "<f1*31>")], "89 Strict 44 KeyForm"),
    (&[("<a1*32>", "<01 00*31>")], "89 Strict 44 KeyForm"),
    (&[("<b1*32>", "<b1*31>")], "89 Strict 44 KeyForm"),
    (
        &[("<0001> <0001> <>", "<0001> <0002> <>")],
        "89 Strict 46 GroupUnlisted",
    ),
    (
        &[("<0001> <0001> <>", "<> <0001> <>")],
        "89 Strict 46 GroupUnlisted",
    ),
    (&[LISTING], "89 Strict 47 DefaultListed"),
    (
        &[("00*8 ff*8", "00*7 05 00*7 04")],
        "89 Strict 48 LifetimeEmpty",
    ),
    (
        &[("<> <c9>", "<0009 00 0009 00> <c9>")],
        "89 Strict 41 ExtensionRepeated",
    ),
    (
        &[
            ("<> <c1>", "<0009 00 0009 00> <c1>"),
            ("<> <> <0001> 01", "<0009> <> <0001> 01"),
        ],
        "89 Strict 41 ExtensionRepeated",
    ),
    (
        &[("<> <c1>", "<0004 00> <c1>")],
        "89 Strict 42 ExtensionMisplaced",
    ),
    (
        &[("<> <c1>", "<0001 00> <c1>")],
        "89 Strict 43 ExtensionUnreadable",
    ),
];

/// The KeyPackage of a notation, with changes.
fn package_of(
    rt: &impl Abort,
    alloc: Global,
    notation: &str,
    changes: &[(&str, &str)],
) -> KeyPackage {
    let notation = changed(rt, alloc, notation, changes);
    let message = bytes_of(rt, alloc, notation.as_str());
    match have(rt, decode_message(alloc, message.as_slice())) {
        Message::KeyPackage(key_package) => key_package,
        _ => panic!(rt; "a KeyPackage"),
    }
}

/// The facts of a KeyPackage as text.
fn facts_text(rt: &impl Abort, alloc: Global, facts: &PackageFacts) -> String {
    let reference = text(rt, alloc, facts.reference.as_slice());
    let suite = facts.cipher_suite;
    let first = facts.lifetime.not_before;
    let last = facts.lifetime.not_after;
    have(rt, format!(in alloc; "{reference} {suite} {first} {last}"))
}

/// A reason as text.
fn reason_text(rt: &impl Abort, alloc: Global, reason: &Unfit) -> String {
    let number = reason.number();
    let name = reason.name();
    let made = match reason {
        Unfit::Member(fault) => format!(in alloc; "{number} {name} {}", fault.number()),
        Unfit::Strict(rule) => {
            format!(in alloc; "{number} {name} {} {}", rule.number(), rule.name())
        }
        Unfit::Unsigned(signatures) => {
            format!(in alloc; "{number} {name} {}", signatures.as_slice().len())
        }
        _ => format!(in alloc; "{number} {name}"),
    };
    have(rt, made)
}

/// What `check_package` says of a KeyPackage.
fn finding<C: SignatureCheck>(
    rt: &impl Abort,
    alloc: Global,
    key_package: &KeyPackage,
    asked: Rules,
    checker: &C,
) -> String {
    match check_package(alloc, key_package, asked, checker) {
        Ok(facts) => facts_text(rt, alloc, &facts),
        Err(reason) => reason_text(rt, alloc, &reason),
    }
}

/// A checker of these receipts.
fn listed(rt: &impl Abort, alloc: Global, receipts: &[&str]) -> Receipts {
    let mut lines = String::new(alloc);
    for digest in receipts {
        have(rt, lines.push_str(digest));
        have(rt, lines.push_str("\n"));
    }
    have(rt, Receipts::read(alloc, lines.as_bytes()))
}

/// Checks that a KeyPackage that is good by the plain rules has this result by a set of strict rules, also if no signature is
/// accepted.
fn check_strict(
    rt: &impl Abort,
    alloc: Global,
    key_package: &KeyPackage,
    asked: Rules,
    expected: &str,
) {
    let plain = check_package(alloc, key_package, Rules::plain(), &Trusting);
    assert!(rt; plain.is_ok(), "good by the plain rules");
    drop(plain);
    let found = finding(rt, alloc, key_package, asked, &Trusting);
    expect_text(rt, found, expected);
    let found = finding(rt, alloc, key_package, asked, &listed(rt, alloc, &[]));
    expect_text(rt, found, expected);
}

#[test]
fn the_first_reason_is_found(rt: HostRuntime) {
    let alloc = rt.alloc();
    for (changes, expected) in PLAIN_CASES {
        let key_package = package_of(&rt, alloc, PACKAGE, changes);
        let found = finding(&rt, alloc, &key_package, Rules::plain(), &Trusting);
        expect_text(&rt, found, expected);
    }
}

/// Signatures are checked last, and those that are not good are returned.
#[test]
fn signatures_that_are_not_good_are_listed(rt: HostRuntime) {
    let alloc = rt.alloc();
    const CASES: &[(&[&str], &str)] = &[
        (&[], "87 Unsigned 2"),
        (&[LEAF_RECEIPT], "87 Unsigned 1"),
        (&[OWN_RECEIPT], "87 Unsigned 1"),
        (&[OWN_RECEIPT, LEAF_RECEIPT], GOOD),
    ];
    let key_package = package_of(&rt, alloc, PACKAGE, &[]);
    for (receipts, expected) in CASES {
        let checker = listed(&rt, alloc, receipts);
        let found = finding(&rt, alloc, &key_package, Rules::plain(), &checker);
        expect_text(&rt, found, expected);
    }
}

/// The receipt of the first signature that is not good, under a checker of these receipts.
fn first_receipt(
    rt: &impl Abort,
    alloc: Global,
    key_package: &KeyPackage,
    receipts: &[&str],
) -> String {
    let checker = listed(rt, alloc, receipts);
    let answer = check_package(alloc, key_package, Rules::plain(), &checker);
    let Err(Unfit::Unsigned(signatures)) = answer else {
        panic!(rt; "signatures that are not good");
    };
    let signature = signatures.as_slice().first().expect(rt, "a signature");
    let digest = receipt(
        signature.suite,
        signature.key.as_slice(),
        &[signature.content.as_slice()],
        signature.signature.as_slice(),
    );
    text(rt, alloc, digest.expect(rt, "a receipt").as_slice())
}

#[test]
fn the_signature_of_the_leaf_node_is_listed_first(rt: HostRuntime) {
    let alloc = rt.alloc();
    let key_package = package_of(&rt, alloc, PACKAGE, &[]);
    let found = first_receipt(&rt, alloc, &key_package, &[]);
    expect_text(&rt, found, LEAF_RECEIPT);
    let found = first_receipt(&rt, alloc, &key_package, &[LEAF_RECEIPT]);
    expect_text(&rt, found, OWN_RECEIPT);
}

#[test]
fn strict_rules_are_checked_before_signatures(rt: HostRuntime) {
    let alloc = rt.alloc();
    for (changes, expected) in STRICT_CASES {
        let key_package = package_of(&rt, alloc, STRICT_PACKAGE, changes);
        check_strict(&rt, alloc, &key_package, Rules::strict(), expected);
    }
    let key_package = package_of(&rt, alloc, PACKAGE, &[]);
    check_strict(
        &rt,
        alloc,
        &key_package,
        Rules::strict(),
        "89 Strict 44 KeyForm",
    );
}

/// A KeyPackage that meets each strict rule, and reasons that come before those.
#[test]
fn strict_packages_are_good(rt: HostRuntime) {
    let alloc = rt.alloc();
    const CASES: &[(&[(&str, &str)], &str)] = &[
        (&[], STRICT_GOOD),
        (&[ZERO_INIT, ("<a1*32>", "<00*32>")], "79 InitKeyReused"),
        (
            &[ZERO_INIT, ("<> <> <0001> 01", "<> <> <> 01")],
            "82 Member 3",
        ),
    ];
    for (changes, expected) in CASES {
        let key_package = package_of(&rt, alloc, STRICT_PACKAGE, changes);
        let found = finding(&rt, alloc, &key_package, Rules::strict(), &Trusting);
        expect_text(&rt, found, expected);
    }
    let key_package = package_of(&rt, alloc, STRICT_PACKAGE, &[]);
    let found = finding(
        &rt,
        alloc,
        &key_package,
        Rules::strict(),
        &listed(&rt, alloc, &[]),
    );
    expect_text(&rt, found, "87 Unsigned 2");
}

/// Keys of cipher suite 2: with its last bit changed the init key is no point of the curve.
#[test]
fn init_keys_are_points(rt: HostRuntime) {
    let alloc = rt.alloc();
    let key_package = package_of(&rt, alloc, POINT_PACKAGE, &[]);
    let answer = check_package(alloc, &key_package, Rules::strict(), &Trusting);
    assert!(rt; answer.is_ok(), "a point");
    drop(answer);
    let key_package = package_of(&rt, alloc, POINT_PACKAGE, &[("58b886>", "58b887>")]);
    let expected = "89 Strict 52 PointOffCurve";
    check_strict(&rt, alloc, &key_package, Rules::strict(), expected);
}

/// The set without 47: a leaf may list a default type, but the init key has to be a key.
#[test]
fn only_the_rules_of_the_set_are_checked(rt: HostRuntime) {
    let alloc = rt.alloc();
    let asked = rules_of(&rt, WITHOUT_47);
    let key_package = package_of(&rt, alloc, STRICT_PACKAGE, &[LISTING]);
    let found = finding(&rt, alloc, &key_package, asked, &Trusting);
    expect_text(&rt, found, LISTING_GOOD);
    let key_package = package_of(&rt, alloc, STRICT_PACKAGE, &[LISTING, ZERO_INIT]);
    check_strict(&rt, alloc, &key_package, asked, "89 Strict 44 KeyForm");
}
