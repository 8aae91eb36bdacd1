//! The lines of signatures, written one after the other.

ghost use Rattle.std.specs.Prelude.{[], ◌∷◌, IfErr, OnOk};
ghost use Rattle.std.specs.Io.KnownBytes.{Appends};
ghost use Rattle.mls_wire.specs.Devices.{IsWorking, WriteFails};
ghost use Rattle.mls_follow.specs.FollowerModel.{state_of};
ghost use Rattle.mls_start.specs.SignaturesLeft.{signatures_left};
ghost use Rattle.mls_report.specs.SignaturesReport.{needed_lines};
ghost use Rattle.mls_report.specs.SignaturesSteps.{StopsInLines};

use crate::signature_text::put_line;
use mls_check::{SignatureCheck, Trusting};
use mls_follow::Follower;
use mls_show::write_text;
use mls_signatures::SignatureToVerify;
use mls_start::SignaturesLeft;
use mls_wire::{RunFault, Sink};
use std::alloc::Global;

/// Writes the line of a signature, if `receipts` don't cover it.
fn write_line<R: SignatureCheck, K: Sink>(
    alloc: Global,
    signature: &SignatureToVerify,
    receipts: &R,
    out: &mut K,
) -> Result<(), RunFault>
    requires { IsWorking (K.device out.old) }
    ensures all { OnOk result (Appends (K.device out.old).bytes (K.device out.new).bytes
        (needed_lines (R.meaning receipts.now) (signature.now ∷ []))) }
    ensures effect_on_error { IfErr result (StopsInLines (needed_lines (R.meaning receipts.now))
        (signature.now ∷ []) (K.device out.old).bytes (K.device out.new).bytes) }
    ensures write { WriteFails result (K.device out.new) }
{
    let mut text = String::new(alloc);
    put_line(alloc, &mut text, signature, receipts)?;
    write_text(out, text.as_str())
}

/// Writes the lines of the signatures left that `receipts` don't cover. Each line is written before the next signature is
/// made. `follower` is the one whose leaves are signed.
pub(crate) fn write_signature_lines<R: SignatureCheck, K: Sink>(
    alloc: Global,
    left: &mut SignaturesLeft,
    follower: &Follower<Trusting>,
    receipts: &R,
    out: &mut K,
) -> Result<(), RunFault>
    requires { IsWorking (K.device out.old) }
    ensures all { OnOk result (Appends (K.device out.old).bytes (K.device out.new).bytes
        (needed_lines (R.meaning receipts.now) (signatures_left (state_of follower.now) left.old))) }
    ensures effect_on_error { IfErr result (StopsInLines (needed_lines (R.meaning receipts.now))
        (signatures_left (state_of follower.now) left.old) (K.device out.old).bytes (K.device out.new).bytes) }
    ensures write { WriteFails result (K.device out.new) }
{
    'signatures: loop {
        let Ok(made) = left.next(alloc, follower) else {
            return Err(RunFault::Memory);
        };
        let Some(signature) = made else {
            return Ok(());
        };
        let written = write_line(alloc, &signature, receipts, out);
        drop(signature);
        written?;
    }
}
