//! The answer of a follower to a message.

ghost use Rattle.std.specs.Prelude.{◌≡◌, IfOk, IfErr};
ghost use Rattle.mls_follow.specs.FollowerModel.{checker_of, state_of};
ghost use Rattle.mls_follow.specs.TimedAnswers.{IsAnswerAt};

use mls_check::SignatureCheck;
use mls_follow::{Follower, Refusal, Taken};
use mls_wire::RunFault;

/// Processes a message, at a time if one is passed. Returns what came of it, unless memory ran out.
pub fn answer_to<C: SignatureCheck>(
    follower: &mut Follower<C>,
    time: Option<u64>,
    message: &[u8],
) -> Result<Result<Taken, Refusal>, RunFault>
    ensures answered { IfOk result (λ answer. IsAnswerAt time (C.meaning (checker_of follower.old))
        (state_of follower.old) message.now answer (state_of follower.new)) }
    ensures memory { IfErr result (λ e. e ≡ RunFault.Memory) }
    ensures checker { C.meaning (checker_of follower.new)
        ≡ C.meaning (checker_of follower.old) }
{
    let answer = follower.take_at(time, message);
    if let Err(Refusal::OutOfMemory) = answer {
        return Err(RunFault::Memory);
    }
    Ok(answer)
}
