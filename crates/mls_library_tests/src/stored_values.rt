//! What values store beside their bytes: short vectors their encoding (RFC 9420, 2.1.2), and leaf nodes whether they are
//! plain (7.2).

use crate::support::{bytes, expect_text, have, text};
use mls_nodes::decode_leaf;
use mls_tree::HashValue;
use mls_wire::Opaque;
use std::alloc::Global;
use std::process::Abort;

/// 31 bytes.
const MANY: &str = "07070707070707070707070707070707070707070707070707070707070707";

/// An encoding that is stored, as hexadecimal text.
fn stored_text(rt: &impl Abort, alloc: Global, encoded: Option<&[u8]>) -> String {
    match encoded {
        Some(encoded) => text(rt, alloc, encoded),
        None => have(rt, format!(in alloc; "none")),
    }
}

/// The length and the bytes, if there is a length.
fn expected_text(rt: &impl Abort, alloc: Global, length: &str, bytes: &str) -> String {
    if length.is_empty() {
        have(rt, format!(in alloc; "none"))
    } else {
        have(rt, format!(in alloc; "{length}{bytes}"))
    }
}

/// The encoding of a body, if it is stored.
fn opaque_text(rt: &impl Abort, alloc: Global, body: &str) -> String {
    let body = bytes(rt, alloc, body);
    let body = have(rt, Opaque::copy(alloc, body.as_slice()));
    stored_text(rt, alloc, body.short_encoding())
}

/// The body is `MANY` and these bytes. Bodies of 31, 38 and 39 bytes.
#[test]
fn short_bodies_are_stored_as_they_are_encoded(rt: HostRuntime) {
    let alloc = rt.alloc();
    const ENDS: &[(&str, &str)] = &[
        ("", "1f"),
        ("61626364656667", "26"),
        ("6162636465666768", ""),
    ];
    for (end, length) in ENDS {
        let body = have(&rt, format!(in alloc; "{MANY}{end}"));
        let expected = expected_text(&rt, alloc, length, body.as_str());
        let found = opaque_text(&rt, alloc, body.as_str());
        expect_text(&rt, found, expected.as_str());
    }
    expect_text(&rt, opaque_text(&rt, alloc, ""), "00");
}

/// The encoding of a hash, if it is stored.
fn hash_text(rt: &impl Abort, alloc: Global, hash: &str) -> String {
    let hash = bytes(rt, alloc, hash);
    let hash = HashValue::new(hash.as_slice()).expect(rt, "at most 64 bytes");
    stored_text(rt, alloc, hash.short_encoding())
}

/// Hashes of 32, 48, 63 and 64 bytes.
#[test]
fn hashes_are_stored_as_they_are_encoded(rt: HostRuntime) {
    let alloc = rt.alloc();
    const HASHES: &[(&str, &str)] = &[
        ("01", "20"),
        ("0102030405060708090a0b0c0d0e0f1011", "30"),
        (
            "0707070707070707070707070707070707070707070707070707070707070708",
            "3f",
        ),
        (
            "070707070707070707070707070707070707070707070707070707070707070809",
            "",
        ),
    ];
    for (end, length) in HASHES {
        let hash = have(&rt, format!(in alloc; "{MANY}{end}"));
        let expected = expected_text(&rt, alloc, length, hash.as_str());
        let found = hash_text(&rt, alloc, hash.as_str());
        expect_text(&rt, found, expected.as_str());
    }
}

/// A credential, the credential types that the leaf node lists, its extensions, and whether it is plain.
const LEAVES: &[(&str, &str, &str, bool)] = &[
    ("00010140", "020001", "00", true),
    ("00010140", "0400020001", "00", true),
    ("00010140", "020002", "00", false),
    ("00010140", "00", "00", false),
    ("00010140", "020001", "03ff0000", false),
    ("000200", "0400010002", "00", false),
];

#[test]
fn plain_leaf_nodes(rt: HostRuntime) {
    let alloc = rt.alloc();
    for (credential, listed, extensions, is_plain) in LEAVES {
        let leaf = have(
            &rt,
            format!(in alloc;
                "01a001b0{credential}02000102000100\
                00{listed}010000000000000000ffffffffffffffff{extensions}01c0"
            ),
        );
        let leaf = bytes(&rt, alloc, leaf.as_str());
        let leaf = have(&rt, decode_leaf(alloc, leaf.as_slice()));
        assert_eq!(rt; leaf.is_plain(), *is_plain);
    }
}
