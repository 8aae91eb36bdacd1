//! A credential as text.

ghost use Rattle.std.specs.Prelude.{◌≡◌, ◌++◌, length, OnOk};
ghost use Rattle.std.specs.List.{list_all};
ghost use Rattle.std.specs.Str.{chars};
ghost use Rattle.mls_show.specs.CredentialText as texts;

use crate::report_buffer::{put_hex, put_number, put_text};
use mls_nodes::{CredentialBody, CredentialRef};
use mls_wire::{ItemsRef, Opaque, Skip};
use std::alloc::AllocError;

/// Returns whether a number is at least `low` and at most `high`.
fn is_between(low: u32, high: u32, c: u32) -> bool
    ensures { result ≡ texts.is_between low high c }
{
    low <= c && c <= high
}

/// Returns whether a character may be printed as it is.
#[tactic(auto, unfolding(crate::specs::CredentialText::is_printable))]
fn is_printable(c: char) -> bool
    ensures { result ≡ texts.is_printable c }
{
    let code = c as u32;
    code >= 32
        && !is_between(127, 159, code)
        && !is_between(8232, 8238, code)
        && !is_between(8294, 8297, code)
}

/// Returns whether each character of a text may be printed as it is.
fn has_printable(text: &str) -> bool
    ensures { result ≡ list_all texts.is_printable (chars text.now) }
{
    for c in text.chars() {
        if !is_printable(c) {
            return false;
        }
    }
    true
}

/// Returns whether bytes are the UTF-8 of printable characters.
fn is_printable_text(bytes: &[u8]) -> bool
    ensures { result ≡ texts.is_printable_text bytes.now }
{
    match str::from_utf8(bytes) {
        Ok(text) => has_printable(text),
        Err(_) => false,
    }
}

/// Appends a byte of a printable text, after a backslash if it is a quotation mark or a backslash.
fn put_escaped_byte(out: &mut Vec<u8>, byte: u8) -> Result<(), AllocError>
    ensures { OnOk result (out.new.items ≡ out.old.items ++ texts.escaped_byte byte) }
{
    if byte == b'"' {
        return put_text(out, "\\\"");
    }
    if byte == b'\\' {
        return put_text(out, "\\\\");
    }
    out.extend_from_slice(&[byte])
}

/// Appends a printable text, with a backslash before each quotation mark and each backslash.
fn put_escaped(out: &mut Vec<u8>, bytes: &[u8]) -> Result<(), AllocError>
    ensures { OnOk result (out.new.items ≡ out.old.items ++ texts.escaped bytes.now) }
{
    for byte in bytes {
        put_escaped_byte(out, *byte)?;
    }
    Ok(())
}

/// Appends an identity: between quotation marks if it is printable text, else in hexadecimal.
fn put_identity(out: &mut Vec<u8>, identity: &[u8]) -> Result<(), AllocError>
    ensures { OnOk result (out.new.items ≡ out.old.items ++ texts.identity_text identity.now) }
{
    if !is_printable_text(identity) {
        return put_hex(out, identity);
    }
    put_text(out, "\"")?;
    put_escaped(out, identity)?;
    put_text(out, "\"")
}

/// Returns the number of certificates of a chain.
fn certificate_count(chain: &ItemsRef<'_, Opaque>) -> usize
    ensures { result ≡ length chain.now }
{
    let mut left = chain.reader();
    let mut count = 0;
    'certificates: while !left.at_end() {
        let Ok(()) = Opaque::skip(&mut left) else {
            unreachable!();
        };
        count += 1;
    }
    count
}

/// Appends a credential: the identity of a basic one, the number of certificates of an X.509 one.
pub(crate) fn put_credential(
    out: &mut Vec<u8>,
    credential: &CredentialRef<'_>,
) -> Result<(), AllocError>
    ensures { OnOk result (out.new.items ≡ out.old.items ++ texts.credential_text credential.now) }
{
    match credential.body() {
        CredentialBody::Basic(identity) => {
            put_text(out, "basic ")?;
            put_identity(out, identity.as_slice())
        }
        CredentialBody::X509(chain) => {
            put_text(out, "x509 ")?;
            put_number(out, certificate_count(chain))
        }
    }
}
