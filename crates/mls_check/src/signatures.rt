//! Signatures (RFC 9420, 5.1.2), which a checker verifies that the caller supplies.

ghost use Rattle.std.specs.Prelude.{◌≡◌, ℕ, List, Bool, true, flat_map, IfOk};
ghost use Rattle.std.specs.Bool.{OnTrue};
ghost use Rattle.mls_check.specs.Signatures.{AcceptsAll, is_signed, sign_content};
ghost use Rattle.mls_wire.specs.ReadContracts.{seen};
ghost use Rattle.mls_wire.specs.WriteContracts.{Makes};

use crate::receipts::len_of_pieces;
use mls_wire::{CodecFault, Draft, EncodedLength, MAX_BODY};
use std::alloc::{AllocError, AllocFailed, Global};
use thiserror::Error;

/// Verifies signatures. How, is for the implementor. The type of a checker is a parameter of the calls that use it. A
/// checker that is chosen at run time is an enum.
pub trait SignatureCheck: Drop {
    /// The verification function: whether a signature is good, from a cipher suite, a public key, a signed content and
    /// the signature.
    ghost meaning: { Self → ℕ → List ℕ → List ℕ → List ℕ → Bool };

    /// Returns whether `signature` is good for a SignContent (RFC 9420, 5.1.2) under the public key `key` in the cipher
    /// suite `suite`. The SignContent is the pieces of `content`, one after the other: nothing is copied to be verified.
    fn good(&self, suite: u16, key: &[u8], content: &[&[u8]], signature: &[u8]) -> bool
        ensures { result ≡ meaning self.now suite key.now (flat_map (λ p. p.now) content.now) signature.now };

    /// Returns `true` only if every signature is good, whatever its content. For such a checker no content has to be
    /// put together. A checker that verifies signatures returns `false`.
    fn accepts_all(&self) -> bool
        ensures { OnTrue result (AcceptsAll (meaning self.now)) };
}

/// A checker that accepts each signature.
#[derive(Clone, Copy, Debug)]
pub struct Trusting;

impl SignatureCheck for Trusting {
    ghost meaning = { λ _ _ _ _ _. true };

    fn good(&self, _suite: u16, _key: &[u8], _content: &[&[u8]], _signature: &[u8]) -> bool {
        true
    }

    fn accepts_all(&self) -> bool {
        true
    }
}

/// An allocation failed.
#[derive(Clone, Copy, Debug, PartialEq, Eq, Error)]
#[error("out of memory")]
pub struct OutOfMemory;

impl<T: Drop> From<AllocFailed<T>> for OutOfMemory {
    ghost use Rattle.std.specs.Prelude.{◌≡◌};

    fn from(_failed: AllocFailed<T>) -> OutOfMemory {
        OutOfMemory
    }
}

impl From<AllocError> for OutOfMemory {
    ghost use Rattle.std.specs.Prelude.{◌≡◌};

    fn from(_error: AllocError) -> OutOfMemory {
        OutOfMemory
    }
}

/// Returns the SignContent of a label and a content (RFC 9420, 5.1.2).
///
/// # Errors
///
/// `TooLong` if a part is over the limit of a vector, or `OutOfMemory`.
#[tactic(auto, using(mls_wire::specs::WriteSequences::written), unfolding(crate::specs::Signatures::sign_content))]
pub fn sign_content(alloc: Global, label: &str, content: &[u8]) -> Result<Vec<u8>, CodecFault>
    ensures { Makes (sign_content label.now content.now) (seen (λ v. v.items) result) }
{
    let mut draft = Draft::new(alloc);
    draft.put_vec(label.as_bytes())?;
    draft.put_vec(content)?;
    Ok(draft.finish())
}

/// VerifyWithLabel (RFC 9420, 5.1.2): returns whether the checker accepts `signature` for the bytes `tbs` under the
/// label `label`, which begins with `MLS 1.0 `. Bytes that are too long for a SignContent are not signed. Does not
/// allocate.
pub fn signed<C: SignatureCheck>(
    checker: &C,
    suite: u16,
    key: &[u8],
    label: &str,
    tbs: &[u8],
    signature: &[u8],
) -> bool
    ensures { result ≡ is_signed
        (C.meaning checker.now) suite key.now label.now tbs.now signature.now }
{
    let label = label.as_bytes();
    if label.len() > MAX_BODY || tbs.len() > MAX_BODY {
        return false;
    }
    let label_len = EncodedLength::of(label.len());
    let tbs_len = EncodedLength::of(tbs.len());
    let content = [label_len.as_slice(), label, tbs_len.as_slice(), tbs];
    checker.good(suite, key, &content, signature)
}

/// VerifyWithLabel (RFC 9420, 5.1.2) for bytes in pieces: returns whether the checker accepts `signature` for the pieces of
/// `tbs`, one after the other, under the label `label`, which begins with `MLS 1.0 `. Bytes that are too long for a
/// SignContent are not signed. The checker gets the pieces where they are: none is copied.
///
/// # Errors
///
/// [`OutOfMemory`]
pub fn signed_in_pieces<C: SignatureCheck>(
    alloc: Global,
    checker: &C,
    suite: u16,
    key: &[u8],
    label: &str,
    tbs: &[&[u8]],
    signature: &[u8],
) -> Result<bool, OutOfMemory>
    ensures { IfOk result (λ good. good ≡ is_signed (C.meaning checker.now) suite key.now label.now
        (flat_map (λ p. p.now) tbs.now) signature.now) }
{
    let label = label.as_bytes();
    let Some(len) = len_of_pieces(tbs) else {
        return Ok(false);
    };
    if label.len() > MAX_BODY {
        return Ok(false);
    }
    let label_len = EncodedLength::of(label.len());
    let tbs_len = EncodedLength::of(len);
    let mut content = Vec::from_slice(alloc, &[label_len.as_slice(), label, tbs_len.as_slice()])?;
    content.extend_from_slice(tbs)?;
    Ok(checker.good(suite, key, content.as_slice(), signature))
}
