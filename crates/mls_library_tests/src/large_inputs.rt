//! Inputs at the limit of 268,435,456 bytes and over it, which is this library's own, and arguments over the 1,073,741,823
//! bytes of a vector's body (RFC 9420, 2.1.2).

use crate::support::{expect_text, have, held_text, sink};
use mls_check::{Receipts, Trusting, signed, signed_in_pieces};
use mls_msgs::{Message, decode_message};
use mls_nodes::{decode_context, decode_ratchet_tree};
use mls_show::{ShowKind, run_show};
use mls_vectors::{CheckKind, run_check};
use mls_wire::{Opaque, StdSource, Writer};
use std::alloc::Global;
use std::fmt::Display;
use std::process::Abort;

/// Some bytes with one byte again and again after them, this many in all.
fn filled(rt: &impl Abort, alloc: Global, first: &[u8], filler: u8, size: usize) -> Vec<u8> {
    let fillers = have(rt, vec![in alloc; filler; 65536]);
    let mut input = have(rt, Vec::with_capacity(alloc, size));
    have(rt, input.extend_from_slice(first));
    for _ in 0..4097 {
        let more = size.saturating_sub(input.len()).min(fillers.len());
        let more = fillers.as_slice().get(..more).expect(rt, "fillers");
        have(rt, input.extend_from_slice(more));
    }
    input
}

/// A private message with a body of zeros, this many bytes in all.
fn private_message(rt: &impl Abort, alloc: Global, size: usize) -> Vec<u8> {
    filled(rt, alloc, &[0, 1, 0, 2], 0, size)
}

/// The wire format and the body's length of a message of such a size, or why it can't be read.
fn message_of(rt: &impl Abort, alloc: Global, size: usize) -> String {
    let input = private_message(rt, alloc, size);
    match decode_message(alloc, input.as_slice()) {
        Ok(Message::Unread { wire_format, body }) => {
            let length = body.as_slice().len();
            have(rt, format!(in alloc; "{wire_format} {length}"))
        }
        Ok(_) => panic!(rt; "another message"),
        Err(fault) => have(rt, format!(in alloc; "{fault}")),
    }
}

#[test]
fn messages_at_the_limit(rt: HostRuntime) {
    let alloc = rt.alloc();
    const SIZES: &[(usize, &str)] = &[(268435456, "2 268435452"), (268435457, "TooLong at 0")];
    for (input, expected) in SIZES {
        expect_text(&rt, message_of(&rt, alloc, *input), expected);
    }
}

/// Returns why a value can't be read.
fn fault_text<T, E: Display + Drop>(rt: &impl Abort, alloc: Global, read: Result<T, E>) -> String {
    match read {
        Ok(_) => panic!(rt; "a fault"),
        Err(fault) => have(rt, format!(in alloc; "{fault}")),
    }
}

/// Why a context, a tree and receipts of such a size can't be read.
#[test]
fn other_inputs_over_the_limit(rt: HostRuntime) {
    let alloc = rt.alloc();
    let input = private_message(&rt, alloc, 268435457);
    let context = decode_context(alloc, input.as_slice());
    expect_text(&rt, fault_text(&rt, alloc, context), "TooLong at 0");
    let tree = decode_ratchet_tree(alloc, input.as_slice());
    expect_text(&rt, fault_text(&rt, alloc, tree), "TooLong at 0");
    let receipts = Receipts::read(alloc, input.as_slice());
    expect_text(
        &rt,
        fault_text(&rt, alloc, receipts),
        "the file has more than 268,435,456 bytes",
    );
}

/// Returns what `show message` writes of a message of such a size.
fn shown(rt: &impl Abort, alloc: Global, size: usize) -> String {
    let input = private_message(rt, alloc, size);
    let mut source = StdSource::new(input.as_slice());
    let mut out = sink(rt, alloc, 100, 100, None);
    have(
        rt,
        run_show(alloc, ShowKind::Message, &mut source, &mut out),
    );
    held_text(rt, alloc, &out)
}

#[test]
fn a_message_over_the_limit_is_reported(rt: HostRuntime) {
    let alloc = rt.alloc();
    const SIZES: &[(usize, &str)] = &[
        (268435456, "private 268435452\n"),
        (268435457, "unreadable TooLong 0\n"),
    ];
    for (size, expected) in SIZES {
        expect_text(&rt, shown(&rt, alloc, *size), expected);
    }
}

/// Returns why a writer refuses a vector with this body, after one byte.
fn written(rt: &impl Abort, alloc: Global, body: &[u8]) -> String {
    let mut writer = Writer::new(alloc);
    have(rt, writer.write_u8(0));
    fault_text(rt, alloc, writer.write_vec(body))
}

/// A content of so many zeros is not signed, also for a checker that trusts everyone. They can't be copied or written.
#[test]
fn arguments_over_a_vector(rt: HostRuntime) {
    let alloc = rt.alloc();
    let zeros = have(&rt, vec![in alloc; 0u8; 1073741824]);
    let zeros = zeros.as_slice();
    assert!(rt; !signed(&Trusting, 1, b"k", "MLS 1.0 Test", zeros, b"s"));
    let (first, rest) = zeros.split_at(1);
    let in_pieces = [first, rest];
    let found = signed_in_pieces(alloc, &Trusting, 1, b"k", "MLS 1.0 Test", &in_pieces, b"s");
    assert!(rt; !have(&rt, found));
    let copied = Opaque::copy(alloc, zeros);
    expect_text(&rt, fault_text(&rt, alloc, copied), "TooLong at 0");
    expect_text(&rt, written(&rt, alloc, zeros), "TooLong at 1");
}

/// Returns what `check` writes of no vectors with blanks after them, this many bytes in all.
fn checked(rt: &impl Abort, alloc: Global, size: usize) -> String {
    let input = filled(rt, alloc, b"[]", b' ', size);
    let mut source = StdSource::new(input.as_slice());
    let mut out = sink(rt, alloc, 100, 100, None);
    have(
        rt,
        run_check(alloc, CheckKind::TreeMath, &mut source, &mut out),
    );
    held_text(rt, alloc, &out)
}

#[test]
fn vectors_over_the_limit_are_reported(rt: HostRuntime) {
    let alloc = rt.alloc();
    const SIZES: &[(usize, &str)] = &[
        (268435456, "passed 0 failed 0 skipped 0\n"),
        (268435457, "vectors unreadable\n"),
    ];
    for (size, expected) in SIZES {
        expect_text(&rt, checked(&rt, alloc, *size), expected);
    }
}
