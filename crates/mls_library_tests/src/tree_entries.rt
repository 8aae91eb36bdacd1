//! Reading the entries of a ratchet_tree one after the other, from bytes that the leaf nodes share (RFC 9420, 12.4.3.3).

use crate::support::{TWO_LEAVES, TWO_OF_FOUR, bytes, expect_text, have, text};
use mls_nodes::{NodeFault, OwnedTreeReader};
use mls_wire::Shared;
use std::alloc::Global;
use std::process::Abort;

/// Bytes that leaf nodes can share.
fn shared(rt: &impl Abort, alloc: Global, encoding: &str) -> Shared<Vec<u8>> {
    have(rt, Shared::new(alloc, bytes(rt, alloc, encoding)))
}

/// How many entries a tree has, and their encodings one after the other.
fn entries_of(rt: &impl Abort, alloc: Global, encoding: &str) -> String {
    let mut reader = have(rt, OwnedTreeReader::new(shared(rt, alloc, encoding)));
    let mut encodings = String::new(alloc);
    for _ in 0..16 {
        match have(rt, reader.next_entry(alloc)) {
            Some(entry) => {
                drop(entry);
                have(
                    rt,
                    encodings.push_str(text(rt, alloc, reader.encoding()).as_str()),
                );
            }
            None => return have(rt, format!(in alloc; "{} {encodings}", reader.node_index())),
        }
    }
    panic!(rt; "more than 16 entries")
}

/// After the two bytes of its length, a tree is the encodings of its entries.
#[test]
fn entries_with_their_encodings(rt: HostRuntime) {
    const TREES: &[(&str, u32)] = &[(TWO_LEAVES, 3), (TWO_OF_FOUR, 5)];
    let alloc = rt.alloc();
    for (encoding, count) in TREES {
        let body = encoding.get(4..).expect(&rt, "a body");
        let expected = have(&rt, format!(in alloc; "{count} {body}"));
        expect_text(&rt, entries_of(&rt, alloc, encoding), expected.as_str());
    }
}

/// The faults of the vector, and of the end of the entries.
#[test]
fn faults_of_entries(rt: HostRuntime) {
    let alloc = rt.alloc();
    let short = OwnedTreeReader::new(shared(&rt, alloc, "02"));
    assert!(rt; short.is_err());
    let mut blank = have(&rt, OwnedTreeReader::new(shared(&rt, alloc, "0100")));
    let first = have(&rt, blank.next_entry(alloc));
    assert!(rt; first.expect(&rt, "an entry").is_none());
    let end = blank.next_entry(alloc);
    assert!(rt; end.err() == Some(NodeFault::EmptyTree));
}
