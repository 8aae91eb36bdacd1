//! The members of a vector.

ghost use Rattle.std.specs.Prelude.{◌≡◌, ◌↔◌, IsTrue, IfOk, Some, option_map, option_and_then};
ghost use Rattle.serde_json.specs.Find.{as_number, as_u64};
ghost use Rattle.serde_json.specs.View.{view, items_view, number_view};
ghost use Rattle.mls_vectors.specs.VectorFile as vectors;

use hex::FromHexError;
use serde_json::{Number, Value};
use std::alloc::{AllocError, Global};

/// Returns whether a value is this number.
pub(crate) fn is_number(value: &Value, number: u64) -> bool
    ensures { IsTrue result
        ↔ (option_and_then as_u64 (as_number (view value.now)) ≡ Some number) }
{
    match value.as_u64() {
        Some(found) => found == number,
        None => false,
    }
}

/// Returns the number with this name. `None` for anything else.
pub(crate) fn number_under<'v>(vector: &'v Value, name: &str) -> Option<&'v Number>
    ensures { option_map (λ n. number_view n.now) result
        ≡ vectors.number_under name.now (view vector.now) }
{
    match vector.get(name) {
        Some(value) => value.as_number(),
        None => None,
    }
}

/// Returns the non-negative whole number with this name. `None` for anything else.
pub(crate) fn whole_under(vector: &Value, name: &str) -> Option<u64>
    ensures { result ≡ vectors.whole_under name.now (view vector.now) }
{
    vector.get(name).and_then(Value::as_u64)
}

/// Returns whether this number is there under this name.
pub(crate) fn has_number(vector: &Value, name: &str, number: u64) -> bool
    ensures { IsTrue result ↔ (vectors.whole_under name.now (view vector.now) ≡ Some number) }
{
    match whole_under(vector, name) {
        Some(found) => found == number,
        None => false,
    }
}

/// Returns the array with this name. `None` for anything else.
pub(crate) fn array_under<'v>(vector: &'v Value, name: &str) -> Option<&'v Vec<Value>>
    ensures { option_map (λ v. items_view v.now.items) result
        ≡ vectors.array_under name.now (view vector.now) }
{
    match vector.get(name) {
        Some(value) => value.as_array(),
        None => None,
    }
}

/// Decodes a hexadecimal text. `None` for any other text.
fn hex_bytes(alloc: Global, text: &str) -> Result<Option<Vec<u8>>, AllocError>
    ensures { IfOk result
        (λ o. option_map (λ v. v.items) o ≡ vectors.hex_bytes text.now) }
{
    match hex::decode(alloc, text) {
        Ok(bytes) => Ok(Some(bytes)),
        Err(error) => match error {
            FromHexError::OutOfMemory => Err(AllocError),
            _ => Ok(None),
        },
    }
}

/// Returns the bytes of a value that is a hexadecimal text. `None` for any other value.
pub(crate) fn bytes_of(alloc: Global, value: &Value) -> Result<Option<Vec<u8>>, AllocError>
    ensures { IfOk result
        (λ o. option_map (λ v. v.items) o ≡ vectors.bytes_of (view value.now)) }
{
    match value.as_str() {
        Some(text) => hex_bytes(alloc, text),
        None => Ok(None),
    }
}

/// Returns the bytes of the hexadecimal text with this name. `None` for anything else.
pub(crate) fn bytes_under(
    alloc: Global,
    vector: &Value,
    name: &str,
) -> Result<Option<Vec<u8>>, AllocError>
    ensures { IfOk result
        (λ o. option_map (λ v. v.items) o ≡ vectors.bytes_under name.now (view vector.now)) }
{
    match vector.get(name) {
        Some(value) => bytes_of(alloc, value),
        None => Ok(None),
    }
}

/// Returns whether a value is the hexadecimal text of these bytes.
pub(crate) fn gives_bytes(alloc: Global, value: &Value, bytes: &[u8]) -> Result<bool, AllocError>
    ensures { IfOk result
        (λ b. IsTrue b ↔ (vectors.bytes_of (view value.now) ≡ Some bytes.now)) }
{
    match bytes_of(alloc, value)? {
        Some(found) => Ok(found.as_slice() == bytes),
        None => Ok(false),
    }
}

/// Returns whether the hexadecimal text of these bytes is there under this name.
pub(crate) fn has_bytes(
    alloc: Global,
    vector: &Value,
    name: &str,
    bytes: &[u8],
) -> Result<bool, AllocError>
    ensures { IfOk result (λ b. IsTrue b
        ↔ (vectors.bytes_under name.now (view vector.now) ≡ Some bytes.now)) }
{
    match vector.get(name) {
        Some(value) => gives_bytes(alloc, value, bytes),
        None => Ok(false),
    }
}
