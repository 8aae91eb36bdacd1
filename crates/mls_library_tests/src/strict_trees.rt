//! Ratchet trees of one leaf, by the strict rules (own rule; RFC 9420, 7.2, 12.1.7 and 13.4).

use crate::support::{bytes, expect_text, have, suite, tree_with};
use mls_msgs::Rules;
use mls_nodes::{GroupContext, decode_context};
use mls_strict::{StrictFault, StrictTreeFault, validate_strict};
use std::alloc::Global;
use std::process::Abort;

/// The extensions of the GroupContext, the tree, and the first strict rule that is not met, by its number, with the node index
/// of the leaf if it is the leaf that does not meet it; no text if each is met.
const CASES: &[(&str, &str, &str)] = &[
    // Each rule is met.
    (
        "00",
        "4067010120a0a0a0a0a0a0a0a0a0a0a0a0a0a0a0a0a0a0a0a0a0a0a0a0a0a0a0a0a0a0a0a020b0b0b0b0\
        b0b0b0b0b0b0b0b0b0b0b0b0b0b0b0b0b0b0b0b0b0b0b0b0b0b0b0b00001014002000102000100000200\
        01010000000000000000ffffffffffffffff0001c0",
        "",
    ),
    // A GroupContext has required_capabilities twice.
    (
        "06000300000300",
        "4067010120a0a0a0a0a0a0a0a0a0a0a0a0a0a0a0a0a0a0a0a0a0a0a0a0a0a0a0a0a0a0a0a020b0b0b0b0\
        b0b0b0b0b0b0b0b0b0b0b0b0b0b0b0b0b0b0b0b0b0b0b0b0b0b0b0b00001014002000102000100000200\
        01010000000000000000ffffffffffffffff0001c0",
        "41",
    ),
    // A leaf has a type twice.
    (
        "00",
        "406f010120a0a0a0a0a0a0a0a0a0a0a0a0a0a0a0a0a0a0a0a0a0a0a0a0a0a0a0a0a0a0a0a020b0b0b0b0\
        b0b0b0b0b0b0b0b0b0b0b0b0b0b0b0b0b0b0b0b0b0b0b0b0b0b0b0b00001014002000102000102000900\
        020001010000000000000000ffffffffffffffff0600090000090001c0",
        "41 at 0",
    ),
    // A leaf has a ratchet_tree.
    (
        "00",
        "406a010120a0a0a0a0a0a0a0a0a0a0a0a0a0a0a0a0a0a0a0a0a0a0a0a0a0a0a0a0a0a0a0a020b0b0b0b0\
        b0b0b0b0b0b0b0b0b0b0b0b0b0b0b0b0b0b0b0b0b0b0b0b0b0b0b0b00001014002000102000100000200\
        01010000000000000000ffffffffffffffff0300020001c0",
        "42 at 0",
    ),
    // A leaf has external_senders.
    (
        "00",
        "406a010120a0a0a0a0a0a0a0a0a0a0a0a0a0a0a0a0a0a0a0a0a0a0a0a0a0a0a0a0a0a0a0a020b0b0b0b0\
        b0b0b0b0b0b0b0b0b0b0b0b0b0b0b0b0b0b0b0b0b0b0b0b0b0b0b0b00001014002000102000100000200\
        01010000000000000000ffffffffffffffff0300050001c0",
        "42 at 0",
    ),
    // External_senders that cannot be read.
    (
        "050005020706",
        "4067010120a0a0a0a0a0a0a0a0a0a0a0a0a0a0a0a0a0a0a0a0a0a0a0a0a0a0a0a0a0a0a0a020b0b0b0b0\
        b0b0b0b0b0b0b0b0b0b0b0b0b0b0b0b0b0b0b0b0b0b0b0b0b0b0b0b00001014002000102000100000200\
        01010000000000000000ffffffffffffffff0001c0",
        "43",
    ),
    // An application_id that is cut.
    (
        "00",
        "406c010120a0a0a0a0a0a0a0a0a0a0a0a0a0a0a0a0a0a0a0a0a0a0a0a0a0a0a0a0a0a0a0a020b0b0b0b0\
        b0b0b0b0b0b0b0b0b0b0b0b0b0b0b0b0b0b0b0b0b0b0b0b0b0b0b0b00001014002000102000100000200\
        01010000000000000000ffffffffffffffff0500010202aa01c0",
        "43 at 0",
    ),
    // An encryption key of 31 bytes.
    (
        "00",
        "406601011fa0a0a0a0a0a0a0a0a0a0a0a0a0a0a0a0a0a0a0a0a0a0a0a0a0a0a0a0a0a0a020b0b0b0b0b0\
        b0b0b0b0b0b0b0b0b0b0b0b0b0b0b0b0b0b0b0b0b0b0b0b0b0b0b0000101400200010200010000020001\
        010000000000000000ffffffffffffffff0001c0",
        "44 at 0",
    ),
    // An encryption key of low order.
    (
        "00",
        "4067010120000000000000000000000000000000000000000000000000000000000000000020b0b0b0b0\
        b0b0b0b0b0b0b0b0b0b0b0b0b0b0b0b0b0b0b0b0b0b0b0b0b0b0b0b00001014002000102000100000200\
        01010000000000000000ffffffffffffffff0001c0",
        "44 at 0",
    ),
    // A signature key of 33 bytes.
    (
        "00",
        "4068010120a0a0a0a0a0a0a0a0a0a0a0a0a0a0a0a0a0a0a0a0a0a0a0a0a0a0a0a0a0a0a0a021b0b0b0b0\
        b0b0b0b0b0b0b0b0b0b0b0b0b0b0b0b0b0b0b0b0b0b0b0b0b0b0b0b0b000010140020001020001000002\
        0001010000000000000000ffffffffffffffff0001c0",
        "44 at 0",
    ),
    // A signature key that is not canonical.
    (
        "00",
        "4067010120a0a0a0a0a0a0a0a0a0a0a0a0a0a0a0a0a0a0a0a0a0a0a0a0a0a0a0a0a0a0a0a020f0ffffff\
        ffffffffffffffffffffffffffffffffffffffffffffffffffffff7f0001014002000102000100000200\
        01010000000000000000ffffffffffffffff0001c0",
        "44 at 0",
    ),
    // No protocol version.
    (
        "00",
        "4065010120a0a0a0a0a0a0a0a0a0a0a0a0a0a0a0a0a0a0a0a0a0a0a0a0a0a0a0a0a0a0a0a020b0b0b0b0\
        b0b0b0b0b0b0b0b0b0b0b0b0b0b0b0b0b0b0b0b0b0b0b0b0b0b0b0b00001014000020001000002000101\
        0000000000000000ffffffffffffffff0001c0",
        "46 at 0",
    ),
    // Another protocol version.
    (
        "00",
        "4067010120a0a0a0a0a0a0a0a0a0a0a0a0a0a0a0a0a0a0a0a0a0a0a0a0a0a0a0a0a0a0a0a020b0b0b0b0\
        b0b0b0b0b0b0b0b0b0b0b0b0b0b0b0b0b0b0b0b0b0b0b0b0b0b0b0b00001014002000202000100000200\
        01010000000000000000ffffffffffffffff0001c0",
        "46 at 0",
    ),
    // Other cipher suites.
    (
        "00",
        "4069010120a0a0a0a0a0a0a0a0a0a0a0a0a0a0a0a0a0a0a0a0a0a0a0a0a0a0a0a0a0a0a0a020b0b0b0b0\
        b0b0b0b0b0b0b0b0b0b0b0b0b0b0b0b0b0b0b0b0b0b0b0b0b0b0b0b00001014002000104000200030000\
        020001010000000000000000ffffffffffffffff0001c0",
        "46 at 0",
    ),
    // A default extension type.
    (
        "00",
        "4069010120a0a0a0a0a0a0a0a0a0a0a0a0a0a0a0a0a0a0a0a0a0a0a0a0a0a0a0a0a0a0a0a020b0b0b0b0\
        b0b0b0b0b0b0b0b0b0b0b0b0b0b0b0b0b0b0b0b0b0b0b0b0b0b0b0b00001014002000102000102000100\
        020001010000000000000000ffffffffffffffff0001c0",
        "47 at 0",
    ),
    // A default extension type among others.
    (
        "00",
        "406b010120a0a0a0a0a0a0a0a0a0a0a0a0a0a0a0a0a0a0a0a0a0a0a0a0a0a0a0a0a0a0a0a020b0b0b0b0\
        b0b0b0b0b0b0b0b0b0b0b0b0b0b0b0b0b0b0b0b0b0b0b0b0b0b0b0b000010140020001020001040a0a00\
        0500020001010000000000000000ffffffffffffffff0001c0",
        "47 at 0",
    ),
    // A default proposal type.
    (
        "00",
        "4069010120a0a0a0a0a0a0a0a0a0a0a0a0a0a0a0a0a0a0a0a0a0a0a0a0a0a0a0a0a0a0a0a020b0b0b0b0\
        b0b0b0b0b0b0b0b0b0b0b0b0b0b0b0b0b0b0b0b0b0b0b0b0b0b0b0b00001014002000102000100020007\
        020001010000000000000000ffffffffffffffff0001c0",
        "47 at 0",
    ),
    // A lifetime that ends before it begins.
    (
        "00",
        "4067010120a0a0a0a0a0a0a0a0a0a0a0a0a0a0a0a0a0a0a0a0a0a0a0a0a0a0a0a0a0a0a0a020b0b0b0b0\
        b0b0b0b0b0b0b0b0b0b0b0b0b0b0b0b0b0b0b0b0b0b0b0b0b0b0b0b00001014002000102000100000200\
        0101000000000000000500000000000000040001c0",
        "48 at 0",
    ),
    // A lifetime of one second.
    (
        "00",
        "4067010120a0a0a0a0a0a0a0a0a0a0a0a0a0a0a0a0a0a0a0a0a0a0a0a0a0a0a0a0a0a0a0a020b0b0b0b0\
        b0b0b0b0b0b0b0b0b0b0b0b0b0b0b0b0b0b0b0b0b0b0b0b0b0b0b0b00001014002000102000100000200\
        0101000000000000000500000000000000050001c0",
        "",
    ),
    // An extension of the group that the leaf does not list.
    (
        "030a0a00",
        "4067010120a0a0a0a0a0a0a0a0a0a0a0a0a0a0a0a0a0a0a0a0a0a0a0a0a0a0a0a0a0a0a0a020b0b0b0b0\
        b0b0b0b0b0b0b0b0b0b0b0b0b0b0b0b0b0b0b0b0b0b0b0b0b0b0b0b00001014002000102000100000200\
        01010000000000000000ffffffffffffffff0001c0",
        "51 at 0",
    ),
    // One that it lists.
    (
        "030a0a00",
        "4069010120a0a0a0a0a0a0a0a0a0a0a0a0a0a0a0a0a0a0a0a0a0a0a0a0a0a0a0a0a0a0a0a020b0b0b0b0\
        b0b0b0b0b0b0b0b0b0b0b0b0b0b0b0b0b0b0b0b0b0b0b0b0b0b0b0b000010140020001020001020a0a00\
        020001010000000000000000ffffffffffffffff0001c0",
        "",
    ),
    // Default types in the GroupContext.
    (
        "09000100000200000400",
        "4067010120a0a0a0a0a0a0a0a0a0a0a0a0a0a0a0a0a0a0a0a0a0a0a0a0a0a0a0a0a0a0a0a020b0b0b0b0\
        b0b0b0b0b0b0b0b0b0b0b0b0b0b0b0b0b0b0b0b0b0b0b0b0b0b0b0b00001014002000102000100000200\
        01010000000000000000ffffffffffffffff0001c0",
        "",
    ),
    // The least of two numbers.
    (
        "00",
        "4065010120000000000000000000000000000000000000000000000000000000000000000020b0b0b0b0\
        b0b0b0b0b0b0b0b0b0b0b0b0b0b0b0b0b0b0b0b0b0b0b0b0b0b0b0b00001014002000100000002000101\
        0000000000000000ffffffffffffffff0001c0",
        "44 at 0",
    ),
    // Of one number the GroupContext.
    (
        "03000500",
        "4065010120000000000000000000000000000000000000000000000000000000000000000020b0b0b0b0\
        b0b0b0b0b0b0b0b0b0b0b0b0b0b0b0b0b0b0b0b0b0b0b0b0b0b0b0b00001014002000100000002000101\
        0000000000000000ffffffffffffffff0001c0",
        "43",
    ),
];

/// The GroupContext of the group `47` in epoch 0, of suite 1, with these extensions.
fn context(rt: &impl Abort, alloc: Global, extensions: &str) -> GroupContext {
    let text = have(
        rt,
        format!(in alloc; "00010001014700000000000000000000{extensions}"),
    );
    have(
        rt,
        decode_context(alloc, bytes(rt, alloc, text.as_str()).as_slice()),
    )
}

/// The strict rule of a set that a GroupContext and a tree do not meet, as text.
fn finding(rt: &impl Abort, alloc: Global, rules: Rules, extensions: &str, tree: &str) -> String {
    let context = context(rt, alloc, extensions);
    let tree = tree_with(rt, alloc, tree);
    let suite = suite(rt);
    assert!(rt; suite.number() == context.cipher_suite);
    match validate_strict(alloc, rules, suite, &context, &tree) {
        Ok(()) => String::new(alloc),
        Err(StrictTreeFault::Strict(StrictFault { rule, place: None })) => {
            have(rt, format!(in alloc; "{}", rule.number()))
        }
        Err(
            StrictTreeFault::Strict(
                StrictFault {
                    rule,
                    place: Some(place),
                },
            ),
        ) => have(rt, format!(in alloc; "{} at {place}", rule.number())),
        Err(StrictTreeFault::OutOfMemory) => panic!(rt; "memory"),
    }
}

#[test]
fn the_first_strict_rule_is_found(rt: HostRuntime) {
    let alloc = rt.alloc();
    for (extensions, tree, expected) in CASES {
        let found = finding(&rt, alloc, Rules::strict(), extensions, tree);
        expect_text(&rt, found, expected);
    }
}

#[test]
fn no_rule_is_checked_that_the_set_lacks(rt: HostRuntime) {
    let alloc = rt.alloc();
    for (extensions, tree, _) in CASES {
        let found = finding(&rt, alloc, Rules::plain(), extensions, tree);
        expect_text(&rt, found, "");
    }
}
