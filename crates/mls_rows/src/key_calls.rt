//! Rows of keys (RFC 9420, 5.1.1 and 5.3; RFC 9180, 7.1): their forms, points, and the keys of certificates.

use crate::call_result::CallResult;
use crate::fault::RowFault;
use crate::hash_calls::suite_at;
use crate::row::Row;
use mls_strict::{certificate_key, is_hpke_key, is_signature_key, is_suite_point};

/// A truth value in a word.
fn answer(row: &Row, holds: bool) -> Result<CallResult, RowFault> {
    CallResult::word(row.alloc, if holds { "yes" } else { "no" })
}

/// `hpke_key | SUITE | KEY`: whether a key has the form of a public key of the suite's KEM.
pub(crate) fn hpke_key(row: &Row) -> Result<CallResult, RowFault> {
    row.has(2);
    let suite = suite_at(row, 1)?;
    let key = row.bytes(2);
    answer(row, is_hpke_key(suite, key.as_slice()))
}

/// `signature_key | SUITE | KEY`: whether a key has the form of a public signature key of the suite.
pub(crate) fn signature_key(row: &Row) -> Result<CallResult, RowFault> {
    row.has(2);
    let suite = suite_at(row, 1)?;
    let key = row.bytes(2);
    answer(row, is_signature_key(suite, key.as_slice()))
}

/// `suite_point | SUITE | KEY`: whether a key is a point of the curve of the suite's KEM, if that has points.
pub(crate) fn suite_point(row: &Row) -> Result<CallResult, RowFault> {
    row.has(2);
    let suite = suite_at(row, 1)?;
    let key = row.bytes(2);
    answer(row, is_suite_point(suite, key.as_slice()))
}

/// `certificate_key | CERTIFICATE`: the public key in a certificate, or `none`.
pub(crate) fn key_of_certificate(row: &Row) -> Result<CallResult, RowFault> {
    row.has(1);
    let certificate = row.bytes(1);
    match certificate_key(certificate.as_slice()) {
        Some(key) => CallResult::bytes(row.alloc, key),
        None => CallResult::word(row.alloc, "none"),
    }
}
