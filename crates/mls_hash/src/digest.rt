//! Hashes of bytes.

ghost use Rattle.std.specs.Prelude.{◌≡◌, ◌++◌, ◌≤◌, Some, None, length, option_map, MatchResult};
ghost use Rattle.mls_wire.specs.Encoding.{◌⊕◌, length_form, vector};
ghost use Rattle.mls_wire.specs.Limits.{vector_limit};
ghost use Rattle.mls_hash.specs.SuiteHash.{hash_of, ref_hash_input};
ghost use Rattle.mls_hash.specs.HasherModel.{HoldsMore};

use crate::fault::HashFault;
use crate::hasher::Hasher;
use crate::suite::Suite;
use mls_tree::HashValue;
use mls_wire::{MAX_BODY, Opaque};

/// Returns the hash of `first` followed by `second`, by the suite's hash function. Does not allocate.
pub fn hash(suite: Suite, first: &[u8], second: &[u8]) -> HashValue
    ensures { result ≡ hash_of suite (first.now ++ second.now) }
{
    let mut hasher = Hasher::new(suite);
    hasher.update(first);
    hasher.update(second);
    hasher.finish()
}

/// Feeds the length of a vector, in its shortest form (RFC 9420, 2.1.2).
pub(crate) fn feed_length(hasher: &mut Hasher, length: usize)
    requires { length ≤ vector_limit }
    ensures { HoldsMore (length_form length) hasher.old hasher.new }
{
    if length < 64 {
        hasher.update(&[length as u8]);
    } else if length < 16384 {
        hasher.update(&(length as u16 + 0x4000).to_be_bytes());
    } else {
        hasher.update(&(length as u32 + 0x8000_0000).to_be_bytes());
    }
}

/// Feeds a vector: its length, and its body.
pub(crate) fn feed_vector(hasher: &mut Hasher, body: &[u8])
    requires { length body.now ≤ vector_limit }
    ensures { HoldsMore (vector body.now) hasher.old hasher.new }
{
    feed_length(hasher, body.len());
    hasher.update(body);
}

/// Feeds two vectors, one after the other.
pub(crate) fn feed_two_vectors(hasher: &mut Hasher, first: &[u8], second: &[u8])
    requires first { length first.now ≤ vector_limit }
    requires second { length second.now ≤ vector_limit }
    ensures { HoldsMore (vector first.now ⊕ vector second.now) hasher.old hasher.new }
{
    feed_vector(hasher, first);
    feed_vector(hasher, second);
}

/// Feeds the body of a vector as that vector. A short one is stored as it is fed.
pub(crate) fn feed_opaque(hasher: &mut Hasher, body: &Opaque)
    ensures { HoldsMore (vector body.now) hasher.old hasher.new }
{
    match body.short_encoding() {
        Some(encoded) => hasher.update(encoded),
        None => feed_vector(hasher, body.as_slice()),
    }
}

/// Feeds a hash as a vector. One of fewer than 64 bytes is stored as it is fed.
pub(crate) fn feed_hash(hasher: &mut Hasher, value: &HashValue)
    ensures { HoldsMore (vector value.now) hasher.old hasher.new }
{
    match value.short_encoding() {
        Some(encoded) => hasher.update(encoded),
        None => feed_vector(hasher, value.as_slice()),
    }
}

/// Returns the reference `RefHash(label, value)` (RFC 9420, 5.2): the hash of the label and the value, each as a
/// vector. Does not allocate.
///
/// # Errors
///
/// [`HashFault::TooLong`] if and only if the label or the value has more than 1,073,741,823 bytes.
pub fn ref_hash(suite: Suite, label: &str, value: &[u8]) -> Result<HashValue, HashFault>
    ensures { MatchResult result
        (λ h. option_map (hash_of suite) (ref_hash_input label.now value.now) ≡ Some h)
        (λ e. (e ≡ HashFault.TooLong) × (ref_hash_input label.now value.now ≡ None)) }
{
    if label.len() > MAX_BODY || value.len() > MAX_BODY {
        return Err(HashFault::TooLong);
    }
    let mut hasher = Hasher::new(suite);
    feed_two_vectors(&mut hasher, label.as_bytes(), value);
    Ok(hasher.finish())
}
