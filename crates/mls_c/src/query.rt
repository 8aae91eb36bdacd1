//! The records of the signatures that have to be verified.

ghost use Rattle.std.specs.Prelude.{◌≡◌, ◌++◌, IfOk, OnOk};
ghost use Rattle.mls_wire.specs.Encoding.{vector};
ghost use Rattle.mls_wire.specs.ReadContracts.{seen};
ghost use Rattle.mls_wire.specs.WriteContracts.{Makes};
ghost use Rattle.mls_check.specs.Receipts.{receipt_input};
ghost use Rattle.mls_follow.specs.FollowerModel.{state_of};
ghost use Rattle.mls_start.specs.SignaturesLeft.{signatures_left};
ghost use Rattle.mls_c.specs.Queries.{bytes_or_none, signature_record, record_unless, query_records};

use mls_check::{OutOfMemory, SignatureCheck, receipt};
use mls_follow::Follower;
use mls_signatures::SignatureToVerify;
use mls_start::SignaturesLeft;
use mls_wire::{CodecFault, Draft, Writer};
use std::alloc::{AllocError, Global};

/// Returns the input of the receipt of a signature.
#[tactic(auto, using(mls_wire::specs::WriteSequences::written), unfolding(mls_check::specs::Receipts::receipt_input))]
fn input_of(alloc: Global, needed: &SignatureToVerify) -> Result<Vec<u8>, CodecFault>
    ensures { let input = receipt_input needed.now.suite needed.now.key needed.now.content
        needed.now.signature in Makes input (seen (λ v. v.items) result) }
{
    let mut draft = Draft::new(alloc);
    draft.put_u16(needed.suite)?;
    draft.put_vec(needed.key.as_slice())?;
    draft.put_vec(needed.content.as_slice())?;
    draft.put_vec(needed.signature.as_slice())?;
    Ok(draft.finish())
}

/// Appends a vector, if its body is not too long for one.
fn push_vector(alloc: Global, body: &[u8], records: &mut Vec<u8>) -> Result<(), AllocError>
    ensures { OnOk result
        (records.new.items ≡ records.old.items ++ bytes_or_none (vector body.now)) }
{
    let mut writer = Writer::new(alloc);
    match writer.write_vec(body) {
        Ok(()) => records.extend_from_slice(writer.bytes()),
        Err(CodecFault::Wire(_)) => Ok(()),
        Err(CodecFault::OutOfMemory) => Err(AllocError),
    }
}

/// Appends the record with a receipt and its input.
fn push_receipt(
    alloc: Global,
    digest: &[u8; 32],
    input: &[u8],
    records: &mut Vec<u8>,
) -> Result<(), AllocError>
    ensures { OnOk result (records.new.items
        ≡ records.old.items ++ bytes_or_none (vector (digest.now ++ input.now))) }
{
    let mut body = Vec::new(alloc);
    body.extend_from_slice(digest)?;
    body.extend_from_slice(input)?;
    push_vector(alloc, body.as_slice(), records)
}

/// Appends the record of a signature.
fn push_record(
    alloc: Global,
    needed: &SignatureToVerify,
    records: &mut Vec<u8>,
) -> Result<(), AllocError>
    ensures { OnOk result
        (records.new.items ≡ records.old.items ++ signature_record needed.now) }
{
    let input = match input_of(alloc, needed) {
        Ok(input) => input,
        Err(CodecFault::Wire(_)) => return Ok(()),
        Err(CodecFault::OutOfMemory) => return Err(AllocError),
    };
    let key = needed.key.as_slice();
    let content = needed.content.as_slice();
    let signature = needed.signature.as_slice();
    match receipt(needed.suite, key, &[content], signature) {
        Some(digest) => push_receipt(alloc, &digest, input.as_slice(), records),
        None => Ok(()),
    }
}

/// Appends the record of a signature, unless the checker accepts it.
fn push_record_unless<C: SignatureCheck>(
    alloc: Global,
    needed: &SignatureToVerify,
    checker: &C,
    records: &mut Vec<u8>,
) -> Result<(), AllocError>
    ensures { OnOk result (records.new.items ≡ records.old.items
        ++ record_unless (C.meaning checker.now) needed.now) }
{
    let key = needed.key.as_slice();
    let content = needed.content.as_slice();
    if checker.good(needed.suite, key, &[content], needed.signature.as_slice()) {
        return Ok(());
    }
    push_record(alloc, needed, records)
}

/// Returns the records of the signatures that are left and that the checker does not accept. `follower` is the one whose
/// leaves are signed.
pub(crate) fn query_records<F: SignatureCheck, C: SignatureCheck>(
    alloc: Global,
    mut left: SignaturesLeft,
    follower: &Follower<F>,
    checker: &C,
) -> Result<Vec<u8>, OutOfMemory>
    ensures { IfOk result (λ records. records.items
        ≡ query_records (C.meaning checker.now) (signatures_left (state_of follower.now) left)) }
{
    let mut records = Vec::new(alloc);
    'signatures: while let Some(signature) = left.next(alloc, follower)? {
        push_record_unless(alloc, &signature, checker, &mut records)?;
    }
    Ok(records)
}
