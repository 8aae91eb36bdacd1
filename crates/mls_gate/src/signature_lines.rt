//! The lines of signatures at the gate, written one after the other.

ghost use Rattle.std.specs.Prelude.{◌≡◌, IfOk, IfErr, OnOk};
ghost use Rattle.std.specs.Io.KnownBytes.{Appends};
ghost use Rattle.mls_wire.specs.Devices.{IsWorking, WriteFails};
ghost use Rattle.mls_follow.specs.FollowerModel.{state_of};
ghost use Rattle.mls_start.specs.SignaturesLeft.{signatures_left};
ghost use Rattle.mls_report.specs.SignaturesSteps.{StopsInLines};
ghost use Rattle.mls_gate.specs.Answers as answers;
ghost use Rattle.mls_gate.specs.GateSteps.{StopsInQueryText};

use crate::lines::{is_known, query_count_line, verify_line};
use mls_check::SignatureCheck;
use mls_follow::Follower;
use mls_show::write_text;
use mls_start::SignaturesLeft;
use mls_wire::{RunFault, Sink};
use std::alloc::Global;

/// Writes the lines of the signatures left that the checker does not accept. Each line is written before the next signature
/// is made. Returns their number.
fn write_verify_lines<C: SignatureCheck, F: SignatureCheck, K: Sink>(
    alloc: Global,
    mut left: SignaturesLeft,
    follower: &Follower<F>,
    checker: &C,
    out: &mut K,
) -> Result<usize, RunFault>
    requires { IsWorking (K.device out.old) }
    ensures all { OnOk result (Appends (K.device out.old).bytes (K.device out.new).bytes
        (answers.verify_lines (C.meaning checker.now) (signatures_left (state_of follower.now) left))) }
    ensures count { IfOk result (λ count. count ≡ answers.unknown_count (C.meaning checker.now)
        (signatures_left (state_of follower.now) left)) }
    ensures effect_on_error { IfErr result (StopsInLines (answers.verify_lines (C.meaning checker.now))
        (signatures_left (state_of follower.now) left) (K.device out.old).bytes (K.device out.new).bytes) }
    ensures write { WriteFails result (K.device out.new) }
{
    let mut count: usize = 0;
    'signatures: for made in 0..left.at_most(follower) {
        let Ok(next) = left.next(alloc, follower) else {
            return Err(RunFault::Memory);
        };
        let Some(signature) = next else {
            return Ok(count);
        };
        if !is_known(&signature, checker) {
            let line = verify_line(alloc, &signature)?;
            write_text(out, line.as_str())?;
            count += 1;
        }
    }
    Ok(count)
}

/// Writes the lines of the signatures left that the checker does not accept, and a last one with their number. Each line is
/// written before the next signature is made.
pub(crate) fn write_query<C: SignatureCheck, F: SignatureCheck, K: Sink>(
    alloc: Global,
    left: SignaturesLeft,
    follower: &Follower<F>,
    checker: &C,
    out: &mut K,
) -> Result<(), RunFault>
    requires { IsWorking (K.device out.old) }
    ensures all { OnOk result (Appends (K.device out.old).bytes (K.device out.new).bytes
        (answers.query_text (C.meaning checker.now) (signatures_left (state_of follower.now) left))) }
    ensures effect_on_error { IfErr result (StopsInQueryText (C.meaning checker.now)
        (signatures_left (state_of follower.now) left) (K.device out.old).bytes (K.device out.new).bytes) }
    ensures write { WriteFails result (K.device out.new) }
{
    let count = write_verify_lines(alloc, left, follower, checker, out)?;
    let line = query_count_line(alloc, count)?;
    write_text(out, line.as_str())
}
