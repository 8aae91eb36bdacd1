//! Fields of the presentation language (RFC 9420, 2.1) that a reader reads and a writer writes one by one.

use crate::support::{bytes, expect_text, have, text};
use mls_wire::{Items, Opaque, Reader, Writer, laws};
use std::alloc::Global;
use std::process::Abort;

/// Reads a `uint8`, a `uint16`, a `uint32` and a `uint64`.
fn integers_text(rt: &impl Abort, alloc: Global, reader: &mut Reader) -> String {
    let byte = have(rt, reader.read_u8());
    let short = have(rt, reader.read_u16());
    let word = have(rt, reader.read_u32());
    let long = have(rt, reader.read_u64());
    have(rt, format!(in alloc; "{byte} {short} {word} {long}"))
}

/// Reads a vector, and the byte before an optional value.
fn vector_text(rt: &impl Abort, alloc: Global, reader: &mut Reader) -> String {
    let body = text(rt, alloc, have(rt, reader.read_vec()));
    let is_present = have(rt, reader.read_optional());
    have(rt, format!(in alloc; "{body} {is_present}"))
}

/// Reads a vector for itself. Returns its first byte, the position after this byte, and whether the vector ends there.
fn inner_text(rt: &impl Abort, alloc: Global, reader: &mut Reader) -> String {
    let mut inner = have(rt, reader.read_sub());
    let first = have(rt, inner.read_u8());
    let (at, is_whole) = (inner.position(), inner.at_end());
    have(rt, format!(in alloc; "{first} {at} {is_whole}"))
}

/// Reads all these fields. Returns them, the position after them, and whether the input ends there.
fn fields_text(rt: &impl Abort, alloc: Global, input: &[u8]) -> String {
    let mut reader = Reader::new(input);
    let integers = integers_text(rt, alloc, &mut reader);
    let vector = vector_text(rt, alloc, &mut reader);
    let inner = inner_text(rt, alloc, &mut reader);
    let (end, is_end) = (reader.position(), reader.at_end());
    have(
        rt,
        format!(in alloc; "{integers} {vector}, {inner}, {end} {is_end}"),
    )
}

#[test]
fn fields_are_read(rt: HostRuntime) {
    let alloc = rt.alloc();
    const FIELDS: &[(&str, &str)] = &[
        (
            "0102030405060708090a0b0c0d0e0f02616201020809",
            "1 515 67438087 579005069656919567 6162 true, 8 21 false, 22 true",
        ),
        (
            "ff00ff000000ff00000000000000ff0000010800",
            "255 255 255 255  false, 8 19 true, 19 false",
        ),
    ];
    for (input, expected) in FIELDS {
        let input = bytes(&rt, alloc, input);
        expect_text(&rt, fields_text(&rt, alloc, input.as_slice()), expected);
    }
}

/// A `uint8`, a `uint16`, a `uint32`, a vector with this body and the byte before an optional value.
fn fields_with(rt: &impl Abort, alloc: Global, body: &[u8]) -> Vec<u8> {
    let mut writer = Writer::new(alloc);
    have(rt, writer.reserve(300));
    have(rt, writer.write_u8(0x01));
    have(rt, writer.write_u16(0x0203));
    have(rt, writer.write_u32(0x04050607));
    have(rt, writer.write_vec(body));
    have(rt, writer.write_optional(true));
    writer.into_bytes()
}

#[test]
fn fields_are_written(rt: HostRuntime) {
    let alloc = rt.alloc();
    laws::one_value::<Items<Opaque>>();
    let found = text(&rt, alloc, fields_with(&rt, alloc, b"ab").as_slice());
    expect_text(&rt, found, "0102030405060702616201");
}
