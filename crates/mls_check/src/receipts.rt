//! Receipts: a file that lists good signatures by their digests.
//!
//! Each line has 64 hexadecimal digits, of either case, and is ended by LF, which the last line may lack. The digits
//! are the SHA-256 digest, for every suite, of the suite in two bytes and of the key, the signed content and the
//! signature, each as a vector.

ghost use Rattle.std.specs.Prelude.{◌≡◌, ◌++◌, ℕ, ◌<◌, ◌≤◌, List, ◌∷◌, Bool, Option, Some, None, option_map, length, map, IfOk, IfErr, IfNone, MatchOption, OnSome, flat_map};
ghost use Rattle.sha2.specs.Sha256.{sha256};
ghost use Rattle.mls_wire.specs.Encoding.{vector};
ghost use Rattle.mls_wire.specs.Limits.{input_limit, vector_limit};
ghost use Rattle.mls_check.specs.Receipts.{receipt_input, receipt_lines, digest_of, bad_line, IsReceipts, IsReceiptsFault};
ghost use Rattle.mls_check.specs.declared.receipts.ReceiptsFault.TheVariants.{BadLine, TooLong, OutOfMemory};

use hex::FromHex;
use mls_wire::{EncodedLength, MAX_BODY};
use sha2::{Digest, Sha256};
use std::alloc::{AllocFailed, Global};
use thiserror::Error;

/// Why a receipts file cannot be read.
#[derive(Clone, Copy, Debug, PartialEq, Eq, Error)]
pub enum ReceiptsFault {
    /// The first line that is not 64 hexadecimal digits, counted from 1.
    #[error("line {0} is not 64 hexadecimal digits")]
    BadLine(usize),
    /// The file has more than 268,435,456 bytes.
    #[error("the file has more than 268,435,456 bytes")]
    TooLong,
    /// An allocation failed.
    #[error("out of memory")]
    OutOfMemory,
}

impl<T: Drop> From<AllocFailed<T>> for ReceiptsFault {
    ghost use Rattle.std.specs.Prelude.{◌≡◌};
    ghost use Rattle.mls_check.specs.declared.receipts.ReceiptsFault.TheVariants.{OutOfMemory};

    ghost from_gives = { λ _ e. e ≡ OutOfMemory };

    fn from(_failed: AllocFailed<T>) -> ReceiptsFault {
        ReceiptsFault::OutOfMemory
    }
}

/// Returns the first line of bytes that are not empty, and what follows it.
fn split_line(bytes: &[u8]) -> (&[u8], &[u8])
    requires { 0 < length bytes.now }
    ensures line { receipt_lines bytes.now ≡ result.0.now ∷ receipt_lines result.1.now }
    ensures shorter { length result.1.now < length bytes.now }
{
    match bytes.iter().position(|&byte| byte == b'\n') {
        Some(end) => (&bytes[..end], &bytes[end + 1..]),
        None => (bytes, &[]),
    }
}

/// Returns the digests on the lines, in their order.
pub(crate) fn digests_of(alloc: Global, bytes: &[u8]) -> Result<Vec<[u8; 32]>, ReceiptsFault>
    requires { length bytes.now ≤ input_limit }
    ensures digests { IfOk result
        (λ digests. map digest_of (receipt_lines bytes.now)
        ≡ map (λ digest. Some digest) digests.items) }
    ensures refused { IfErr result (λ e. IsReceiptsFault e bytes.now) }
{
    let mut digests = Vec::new(alloc);
    let mut rest = bytes;
    while !rest.is_empty() {
        let (line, tail) = split_line(rest);
        let Ok(digest) = <[u8; 32] as FromHex>::from_hex(line) else {
            return Err(ReceiptsFault::BadLine(digests.len() + 1));
        };
        digests.push(digest)?;
        rest = tail;
    }
    Ok(digests)
}

/// Returns how many bytes the pieces have. `None` if they are too long for a vector.
pub(crate) fn len_of_pieces(pieces: &[&[u8]]) -> Option<usize>
    ensures { MatchOption result
        (vector_limit < length (flat_map (λ p. p.now) pieces.now))
        (λ n. (n ≡ length (flat_map (λ p. p.now) pieces.now)) × (n ≤ vector_limit)) }
{
    let mut len = 0;
    for piece in pieces {
        if piece.len() > MAX_BODY - len {
            return None;
        }
        len += piece.len();
    }
    Some(len)
}

/// Feeds the pieces, one after the other.
fn update_pieces(hasher: &mut Sha256, pieces: &[&[u8]])
    ensures { (m : List ℕ) → ⟦<Sha256 as Digest>⟧.holds hasher.old m
        → ⟦<Sha256 as Digest>⟧.holds hasher.new (m ++ flat_map (λ p. p.now) pieces.now) }
{
    for piece in pieces {
        hasher.update(*piece);
    }
}

/// Feeds a vector whose body is the pieces, one after the other; `None` if it is too long for one.
fn update_vector(hasher: &mut Sha256, body: &[&[u8]]) -> Option<()>
    ensures none { IfNone result (vector (flat_map (λ p. p.now) body.now) ≡ None) }
    ensures some { OnSome result
        ((text : List ℕ) × (vector (flat_map (λ p. p.now) body.now) ≡ Some text)
        × ((m : List ℕ) → ⟦<Sha256 as Digest>⟧.holds hasher.old m
        → ⟦<Sha256 as Digest>⟧.holds hasher.new (m ++ text))) }
{
    let len = EncodedLength::of(len_of_pieces(body)?);
    hasher.update(len.as_slice());
    update_pieces(hasher, body);
    Some(())
}

/// Returns the receipt of a signature: the digest that is listed if it is good. The signed content is the pieces of
/// `content`, one after the other. `None` if an argument is too long for a vector.
pub fn receipt(suite: u16, key: &[u8], content: &[&[u8]], signature: &[u8]) -> Option<[u8; 32]>
    ensures { result ≡ option_map sha256
        (receipt_input suite key.now (flat_map (λ p. p.now) content.now) signature.now) }
{
    let mut hasher = Sha256::new();
    hasher.update(suite.to_be_bytes());
    update_vector(&mut hasher, &[key])?;
    update_vector(&mut hasher, content)?;
    update_vector(&mut hasher, &[signature])?;
    Some(hasher.finalize())
}
