//! Receipts as bytes, 32 for each.

ghost use Rattle.std.specs.Prelude.{◌≡◌, IfOk, IfErr, OnOk};
ghost use Rattle.std.specs.Bool.{OnTrue, OnFalse};
ghost use Rattle.mls_check.specs.Receipts.{listed};
ghost use Rattle.mls_c.specs.Followers.{AreWhole, good_by};
ghost use Rattle.mls_c.specs.Numbers as numbers;
ghost use Rattle.mls_c.specs.Numbers.{bad_receipts};
ghost use Rattle.mls_c.specs.Starts.{RunsOut};

use crate::input_verdict::{BAD_RECEIPTS, InputVerdict, OUT_OF_MEMORY, plain_verdict};
use mls_check::{OutOfMemory, Receipts};
use mls_start::learn_receipts;
use std::alloc::Global;

/// The number of bytes of a receipt.
const RECEIPT_SIZE: usize = 32;

/// Returns whether bytes are receipts of 32 bytes each.
pub(crate) fn are_whole(receipts: &[u8]) -> bool
    ensures whole { OnTrue result (AreWhole receipts.now) }
    ensures not_whole { OnFalse result (AreWhole receipts.now → ⊥) }
{
    receipts.len() % RECEIPT_SIZE == 0
}

/// Returns the set of the receipts in these bytes, or the verdict of bytes for which there is none.
pub(crate) fn receipts_in(alloc: Global, bytes: &[u8]) -> Result<Receipts, InputVerdict>
    ensures receipts { IfOk result (λ r. listed r ≡ good_by bytes.now) }
    ensures whole { OnOk result (AreWhole bytes.now) }
    ensures not_whole { IfErr result
        (λ v. (AreWhole bytes.now → ⊥) → v ≡ numbers.plain_verdict bad_receipts) }
    ensures memory { IfErr result (λ v. AreWhole bytes.now → RunsOut v) }
{
    if !are_whole(bytes) {
        return Err(plain_verdict(BAD_RECEIPTS));
    }
    let mut receipts = Receipts::new(alloc);
    match learn_receipts(&mut receipts, bytes) {
        Ok(()) => Ok(receipts),
        Err(OutOfMemory) => Err(plain_verdict(OUT_OF_MEMORY)),
    }
}
