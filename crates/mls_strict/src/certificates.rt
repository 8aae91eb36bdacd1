//! The public key in an X.509 certificate (RFC 5280, 4.1), in DER (X.690, 8.1 and 10.1). Nothing is copied.

ghost use Rattle.std.specs.Prelude.{◌≡◌, ◌≤◌, ◌-◌, ◌^◌, ◌∷◌, [], length, option_map};
ghost use Rattle.mls_nodes.specs.declared.credential.Credential.TheVariants as credentials;
ghost use Rattle.mls_strict.specs.Certificates.{be_number, behind, behind_version, bits, certificate_key, certifies, der_length, element, integer, is_key, key_bits, long_length, sequence, whole};

use mls_nodes::{CredentialBody, CredentialRef};
use mls_wire::{ItemsRef, Opaque, OpaqueRef};
use std::marker::Model;

/// The tag of an INTEGER (X.690, 8.3).
const INTEGER: u8 = 2;

/// The tag of a BIT STRING (X.690, 8.6).
const BIT_STRING: u8 = 3;

/// The tag of a SEQUENCE (X.690, 8.9).
const SEQUENCE: u8 = 48;

/// The tag of a certificate's version, [0] (RFC 5280, 4.1; X.690, 8.14).
const VERSION: u8 = 160;

/// An element of DER, and the bytes that follow it.
#[derive(Drop)]
struct Element<'a> {
    contents: &'a [u8],
    rest: &'a [u8],
}

impl<'a> Model for Element<'a> {
    ghost use Rattle.std.specs.Prelude.{ℕ, List};

    ghost Value = { List ℕ × List ℕ };

    ghost view = { λ e. (e.contents.now, e.rest.now) };
}

/// Returns the number that at most four bytes encode, the highest byte first.
fn be_number(digits: &[u8]) -> usize
    requires { length digits.now ≤ 4 }
    ensures { result ≡ be_number 0 digits.now }
{
    let mut number = 0;
    for digit in digits {
        number = number * 256 + usize::from(*digit);
    }
    number
}

/// Returns the smallest number but 0 that takes `size` bytes, from one to four.
fn least_number(size: usize) -> usize
    requires least { 1 ≤ size }
    requires most { size ≤ 4 }
    ensures { result ≡ 256 ^ (size - 1) }
{
    match size {
        1 => 1,
        2 => 256,
        3 => 65536,
        _ => 16777216,
    }
}

/// Returns a length in `size` bytes, from one to four, and what follows. It takes the fewest bytes, and is none below 128,
/// which takes one byte by itself (X.690, 8.1.3.5 and 10.1).
#[tactic(auto, unfolding(crate::specs::Certificates::long_length))]
fn long_length(size: usize, bytes: &[u8]) -> Option<(usize, &[u8])>
    requires least { 1 ≤ size }
    requires most { size ≤ 4 }
    ensures { option_map (λ n. (n.0, n.1.now)) result ≡ long_length size bytes.now }
{
    if bytes.len() < size {
        return None;
    }
    let (digits, rest) = bytes.split_at(size);
    let length = be_number(digits);
    if 128 <= length && least_number(size) <= length {
        Some((length, rest))
    } else {
        None
    }
}

/// Returns the length at the front, in bytes, and what follows. It is below 2^32 (X.690, 8.1.3).
#[tactic(auto, unfolding(crate::specs::Certificates::der_length))]
fn der_length(bytes: &[u8]) -> Option<(usize, &[u8])>
    ensures { option_map (λ n. (n.0, n.1.now)) result ≡ der_length bytes.now }
{
    let [first, rest @ ..] = bytes else {
        return None;
    };
    match *first {
        0..=127 => Some((usize::from(*first), rest)),
        129..=132 => long_length(usize::from(*first) - 128, rest),
        _ => None,
    }
}

/// Returns the element at the front, if it has this tag (X.690, 8.1).
#[tactic(auto, unfolding(crate::specs::Certificates::element))]
fn read_element(tag: u8, bytes: &[u8]) -> Option<Element<'_>>
    ensures { result ≡ element tag bytes.now }
{
    let [first, rest @ ..] = bytes else {
        return None;
    };
    if *first != tag {
        return None;
    }
    let (length, rest) = der_length(rest)?;
    if rest.len() < length {
        return None;
    }
    let (contents, rest) = rest.split_at(length);
    Some(Element { contents, rest })
}

/// Returns the contents of the element that these bytes are, if it has this tag.
fn whole(tag: u8, bytes: &[u8]) -> Option<&[u8]>
    ensures { option_map (λ b. b.now) result ≡ whole (element tag bytes.now) }
{
    let element = read_element(tag, bytes)?;
    if element.rest.is_empty() {
        Some(element.contents)
    } else {
        None
    }
}

/// Returns what follows the element at the front, if it has this tag.
#[tactic(auto, unfolding(crate::specs::Certificates::behind))]
fn behind(tag: u8, bytes: &[u8]) -> Option<&[u8]>
    ensures { option_map (λ b. b.now) result ≡ behind (tag ∷ []) bytes.now }
{
    Some(read_element(tag, bytes)?.rest)
}

/// Returns what follows the version of a TBSCertificate, if it has one (RFC 5280, 4.1.2.1).
fn behind_version(bytes: &[u8]) -> Option<&[u8]>
    ensures { option_map (λ b. b.now) result ≡ behind_version bytes.now }
{
    match bytes.first() {
        Some(tag) if *tag == VERSION => behind(VERSION, bytes),
        _ => Some(bytes),
    }
}

/// Returns what follows the subject of a TBSCertificate, from the serial number on (RFC 5280, 4.1).
#[tactic(auto, using(crate::proofs::DerElements::behind_split))]
fn behind_subject(fields: &[u8]) -> Option<&[u8]>
    ensures { option_map (λ b. b.now) result
        ≡ behind (integer ∷ sequence ∷ sequence ∷ sequence ∷ sequence ∷ []) fields.now }
{
    let algorithm = behind(INTEGER, fields)?;
    let issuer = behind(SEQUENCE, algorithm)?;
    let validity = behind(SEQUENCE, issuer)?;
    let subject = behind(SEQUENCE, validity)?;
    behind(SEQUENCE, subject)
}

/// Returns the bytes of a bit string's contents, if the last one lacks no bit (X.690, 8.6.2).
fn bits(contents: &[u8]) -> Option<&[u8]>
    ensures { option_map (λ b. b.now) result ≡ bits contents.now }
{
    match contents {
        [0, bytes @ ..] => Some(bytes),
        _ => None,
    }
}

/// Returns the bytes of the subjectPublicKey in the contents of a SubjectPublicKeyInfo (RFC 5280, 4.1.2.7).
#[tactic(auto, unfolding(crate::specs::Certificates::key_bits))]
fn key_bits(info: &[u8]) -> Option<&[u8]>
    ensures { option_map (λ b. b.now) result ≡ key_bits info.now }
{
    let key = behind(SEQUENCE, info)?;
    bits(whole(BIT_STRING, key)?)
}

/// Returns the bytes of the public key in an X.509 certificate, borrowed from it: the subjectPublicKey of its
/// SubjectPublicKeyInfo (RFC 5280, 4.1.2.7). For ECDSA these are the bytes of a point, for Ed25519 and Ed448 those of the key
/// (RFC 9420, 5.1.1; RFC 8410, 4).
///
/// `None` if
///
/// - the bytes are not one SEQUENCE with nothing behind it, or an element on the way to the key has another tag than that of
///   its field (RFC 5280, 4.1) or more bytes than are left;
/// - a length on the way is 2^32 or more, is indefinite, or is not in its shortest form (X.690, 8.1.3 and 10.1);
/// - the subjectPublicKey does not end its SubjectPublicKeyInfo, or its last byte lacks bits (X.690, 8.6.2).
///
/// The fields that are skipped and what follows the SubjectPublicKeyInfo are not read, so neither the algorithm of the key
/// nor the signature is checked. Allocates nothing. The time does not depend on the length of the certificate.
#[tactic(auto, unfolding(crate::specs::Certificates::certificate_key))]
pub fn certificate_key(certificate: &[u8]) -> Option<&[u8]>
    ensures { option_map (λ k. k.now) result ≡ certificate_key certificate.now }
{
    let tbs = read_element(SEQUENCE, whole(SEQUENCE, certificate)?)?;
    let info = behind_subject(behind_version(tbs.contents)?)?;
    key_bits(read_element(SEQUENCE, info)?.contents)
}

/// Returns whether a key is the public key in a certificate.
fn is_key(key: &[u8], certificate: &[u8]) -> bool
    ensures { result ≡ is_key key.now (certificate_key certificate.now) }
{
    match certificate_key(certificate) {
        Some(certified) => certified == key,
        None => false,
    }
}

/// Returns whether a key is that of the first of these certificates. False if there is none.
fn is_first_key(key: &[u8], chain: &ItemsRef<'_, Opaque>) -> bool
    ensures { result ≡ certifies key.now (credentials.X509 chain.now) }
{
    match OpaqueRef::parse(&mut chain.reader()) {
        Ok(certificate) => is_key(key, certificate.as_slice()),
        Err(_) => false,
    }
}

/// Returns whether a credential is basic, or has a certificate and a key is that of the first one (RFC 9420, 5.3).
pub(crate) fn certifies(key: &[u8], credential: &CredentialRef<'_>) -> bool
    ensures { result ≡ certifies key.now credential.now }
{
    match credential.body() {
        CredentialBody::Basic(_) => true,
        CredentialBody::X509(chain) => is_first_key(key, chain),
    }
}
