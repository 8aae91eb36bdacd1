//! Fingerprints of keys: the first eight bytes of their SHA-256.

ghost use Rattle.std.specs.Prelude.{◌≡◌, IfOk, option_map};
ghost use Rattle.sha2.specs.Sha256.{sha256};
ghost use Rattle.mls_nodes.specs.Fingerprints.{fingerprint};
ghost use Rattle.mls_nodes.specs.FingerprintsInternal.{AreFingerprints};

use crate::key_prefixes::key_prefix;
use sha2::{Digest, Sha256};
use std::alloc::{AllocError, Global};

/// The most bytes of a key that is hashed whenever its fingerprint is needed.
const MAX_SHORT_KEY: usize = 256;

/// Returns the SHA-256 digest of a key.
fn digest(key: &[u8]) -> [u8; 32]
    ensures { result ≡ sha256 key.now }
{
    let mut hasher = Sha256::new();
    hasher.update(key);
    hasher.finalize()
}

/// Returns the fingerprint of a key: the first eight bytes of its SHA-256, as a number. So nobody can choose it. Keys
/// with equal fingerprints have to be compared themselves.
#[tactic(auto, unfolding(crate::specs::Fingerprints::fingerprint))]
pub fn fingerprint(key: &[u8]) -> u64
    ensures { result ≡ fingerprint key.now }
{
    key_prefix(&digest(key))
}

/// The fingerprints of the two keys of a leaf node.
#[derive(Clone, Copy, Debug)]
pub(crate) struct KeyFingerprints {
    /// The fingerprint of the encryption key.
    pub(crate) encryption: u64,
    /// The fingerprint of the signature key.
    pub(crate) signature: u64,
}

/// Returns the fingerprints of two keys if one of them has more than [`MAX_SHORT_KEY`] bytes. Allocates only then.
pub(crate) fn fingerprints_of_long(
    alloc: Global,
    encryption: &[u8],
    signature: &[u8],
) -> Result<Option<Box<KeyFingerprints>>, AllocError>
    ensures { IfOk result (λ stored. AreFingerprints encryption.now signature.now (option_map (λ b. b.value) stored)) }
{
    if encryption.len() <= MAX_SHORT_KEY && signature.len() <= MAX_SHORT_KEY {
        return Ok(None);
    }
    Ok(Some(Box::new(
        alloc,
        KeyFingerprints {
            encryption: fingerprint(encryption),
            signature: fingerprint(signature),
        },
    )?))
}

/// Returns a copy of fingerprints. The only error is a failed allocation.
pub(crate) fn copy_fingerprints(
    alloc: Global,
    stored: &Option<Box<KeyFingerprints>>,
) -> Result<Option<Box<KeyFingerprints>>, AllocError>
    ensures { IfOk result (λ copy. option_map (λ b. b.value) copy ≡ option_map (λ b. b.value) stored.now) }
{
    match stored {
        Some(both) => Ok(Some(Box::new(alloc, **both)?)),
        None => Ok(None),
    }
}
