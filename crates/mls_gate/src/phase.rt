//! What the gate is at between two records, and how it answers one.

ghost use Rattle.std.specs.Prelude.{◌≡◌, ℕ, List, Some, IfOk, IfErr};
ghost use Rattle.mls_wire.specs.Devices.{IsWorking, WriteFails};
ghost use Rattle.mls_follow.specs.FollowerModel.{checker_of, state_of};
ghost use Rattle.mls_gate.specs.GateSteps.{phase_of, text_of, is_last, verdict_at, Gives, GivesBehind, IsQueried, IsReady, RespondsIn, AnswersIn, StopsAnswering};

use crate::lines::{message_answer_line, ready_line, stored_line};
use crate::request::{Request, request_of};
use crate::signature_lines::write_query;
use mls_check::{LearningCheck, OutOfMemory, SignatureCheck};
use mls_follow::{Follower, SignatureListFault};
use mls_report::{answer_to, finding_line};
use mls_show::Verdict;
use mls_signatures::SignatureList;
use mls_start::{
    Judge, SignaturesLeft, StartBytes, StartFailure, learn_in_follower, learn_receipts,
};
use mls_wire::{CodecFault, RunFault, Sink};
use std::alloc::Global;
use std::mem;

/// The line of a record that is none, or has no answer in the phase.
pub(crate) const BROKEN: &str = "broken\n";

/// What the gate is at.
#[derive(Drop)]
pub(crate) enum GatePhase<C: SignatureCheck> {
    /// No follower has started: what the group is followed from, what was learnt, and the time, if one was passed.
    Opening {
        start: StartBytes,
        judge: Judge<C>,
    },
    /// A follower has started. It judges messages at the time, if one was passed.
    Following {
        follower: Follower<C>,
        time: Option<u64>,
    },
    /// The gate has ended.
    Over,
}

/// What is still to be written of the answer to a record.
#[derive(Drop)]
pub(crate) enum Answer {
    /// Nothing. The gate goes on.
    Silent,
    /// This text. The gate goes on.
    Goes(String),
    /// This text, and the gate ends.
    Ends(String),
    /// The line of a record that has no answer in the phase. The gate ends.
    Broken,
}

impl Answer {
    /// Returns the text.
    pub(crate) fn text(&self) -> &str
        ensures { result.now ≡ text_of self.now }
    {
        match self {
            Answer::Silent => "",
            Answer::Goes(text) => text.as_str(),
            Answer::Ends(text) => text.as_str(),
            Answer::Broken => BROKEN,
        }
    }

    /// Returns whether the gate ends.
    pub(crate) fn is_last(&self) -> bool
        ensures { result ≡ is_last self.now }
    {
        matches!(self, Answer::Ends(_) | Answer::Broken)
    }
}

/// Returns the signatures of a message that is queried, except for those of the pending proposals, which the checker accepts.
/// Bytes that are no message have none.
fn queried_signatures<C: SignatureCheck>(
    alloc: Global,
    follower: &mut Follower<C>,
    message: &[u8],
) -> Result<SignatureList, OutOfMemory>
    ensures signatures { IfOk result (IsQueried (C.meaning (checker_of follower.old)) (state_of follower.old)
        message.now) }
    ensures state { state_of follower.new ≡ state_of follower.old }
    ensures checker { checker_of follower.new ≡ checker_of follower.old }
{
    match follower.fresh_signatures(message) {
        Ok(signatures) => Ok(signatures),
        Err(SignatureListFault::Malformed) => Ok(SignatureList::new(alloc)),
        Err(SignatureListFault::OutOfMemory) => Err(OutOfMemory),
    }
}

impl<C: LearningCheck> GatePhase<C> {
    /// Learns receipts.
    fn learn(&mut self, receipts: &[u8]) -> Result<Answer, RunFault>
        ensures answered { IfOk result (Gives
            (RespondsIn (phase_of C.meaning self.old) (Some Request.Learn) receipts.now)
            (phase_of C.meaning self.new)) }
        ensures memory { IfErr result (λ e. e ≡ RunFault.Memory) }
    {
        match self {
            GatePhase::Opening { start: _, judge } => {
                match learn_receipts(&mut judge.checker, receipts) {
                    Ok(()) => Ok(Answer::Silent),
                    Err(OutOfMemory) => Err(RunFault::Memory),
                }
            }
            GatePhase::Following { follower, time: _ } => {
                match learn_in_follower(follower, receipts) {
                    Ok(()) => Ok(Answer::Silent),
                    Err(OutOfMemory) => Err(RunFault::Memory),
                }
            }
            GatePhase::Over => Ok(Answer::Broken),
        }
    }

    /// Starts or resumes the follower by what the checker has learnt, if none has started.
    fn begin(&mut self, alloc: Global) -> Result<Answer, RunFault>
        requires { IsReady (phase_of C.meaning self.old) }
        ensures answered { (rest : List ℕ) → IfOk result (Gives
            (RespondsIn (phase_of C.meaning self.old) (Some Request.Begin) rest)
            (phase_of C.meaning self.new)) }
        ensures memory { IfErr result (λ e. e ≡ RunFault.Memory) }
    {
        let GatePhase::Opening { start, judge } = mem::replace(self, GatePhase::Over) else {
            return Ok(Answer::Broken);
        };
        let Judge { checker, time } = judge;
        match start.follower(alloc, checker) {
            Ok(follower) => {
                let text = ready_line(alloc, &follower);
                *self = GatePhase::Following { follower, time };
                Ok(Answer::Goes(text?))
            }
            Err(StartFailure::Found(finding)) => Ok(Answer::Ends(finding_line(alloc, &finding)?)),
            Err(StartFailure::OutOfMemory) => Err(RunFault::Memory),
        }
    }

    /// Judges messages at this time from now on.
    fn set_time(&mut self, seconds: u64) -> Answer
        ensures { (rest : List ℕ) → Gives
            (RespondsIn (phase_of C.meaning self.old) (Some (Request.Time seconds)) rest)
            (phase_of C.meaning self.new) result }
    {
        match self {
            GatePhase::Opening { start: _, judge } => {
                judge.time = Some(seconds);
                Answer::Silent
            }
            GatePhase::Following { follower: _, time } => {
                *time = Some(seconds);
                Answer::Silent
            }
            GatePhase::Over => Answer::Broken,
        }
    }

    /// Writes a line for each signature of a message that the checker does not accept, and one with their number.
    fn query<K: Sink>(
        &mut self,
        alloc: Global,
        message: &[u8],
        out: &mut K,
    ) -> Result<Answer, RunFault>
        requires { IsWorking (K.device out.old) }
        ensures answered { IfOk result (GivesBehind
            (RespondsIn (phase_of C.meaning self.old) (Some Request.Query) message.now)
            (phase_of C.meaning self.new) (K.device out.old).bytes (K.device out.new).bytes) }
        ensures effect_on_error { IfErr result (StopsAnswering
            (RespondsIn (phase_of C.meaning self.old) (Some Request.Query) message.now)
            (phase_of C.meaning self.new) (K.device out.old).bytes (K.device out.new).bytes) }
        ensures write { WriteFails result (K.device out.new) }
    {
        let GatePhase::Following { follower, time: _ } = self else {
            return Ok(Answer::Broken);
        };
        let Ok(signatures) = queried_signatures(alloc, follower, message) else {
            return Err(RunFault::Memory);
        };
        let left = SignaturesLeft::of_list(signatures);
        write_query(alloc, left, follower, follower.checker(), out)?;
        Ok(Answer::Silent)
    }

    /// Processes a message. The answer says what came of it.
    fn process(&mut self, alloc: Global, message: &[u8]) -> Result<Answer, RunFault>
        ensures answered { IfOk result (Gives
            (RespondsIn (phase_of C.meaning self.old) (Some Request.Process) message.now)
            (phase_of C.meaning self.new)) }
        ensures memory { IfErr result (λ e. e ≡ RunFault.Memory) }
    {
        let GatePhase::Following { follower, time } = self else {
            return Ok(Answer::Broken);
        };
        let Ok(answer) = answer_to(follower, *time, message) else {
            return Err(RunFault::Memory);
        };
        Ok(Answer::Goes(message_answer_line(alloc, &answer, follower)?))
    }

    /// Answers the state of the follower, as a file.
    fn store(&self, alloc: Global) -> Result<Answer, RunFault>
        ensures answered { (rest : List ℕ) → IfOk result (Gives
            (RespondsIn (phase_of C.meaning self.now) (Some Request.Store) rest)
            (phase_of C.meaning self.now)) }
        ensures memory { IfErr result (λ e. e ≡ RunFault.Memory) }
    {
        let GatePhase::Following { follower, time: _ } = self else {
            return Ok(Answer::Broken);
        };
        match follower.encode_state() {
            Ok(file) => Ok(Answer::Goes(stored_line(alloc, file)?)),
            Err(CodecFault::Wire(_)) => {
                Ok(Answer::Goes(String::from_str(alloc, "state TooLong\n")?))
            }
            Err(CodecFault::OutOfMemory) => Err(RunFault::Memory),
        }
    }

    /// Answers a record with this body. The lines of a query are written; the text of any other answer is returned.
    pub(crate) fn answer<K: Sink>(
        &mut self,
        alloc: Global,
        body: &[u8],
        out: &mut K,
    ) -> Result<Answer, RunFault>
        requires ready { IsReady (phase_of C.meaning self.old) }
        requires out { IsWorking (K.device out.old) }
        ensures answered { IfOk result (GivesBehind (AnswersIn (phase_of C.meaning self.old) body.now)
            (phase_of C.meaning self.new) (K.device out.old).bytes (K.device out.new).bytes) }
        ensures effect_on_error { IfErr result (StopsAnswering (AnswersIn (phase_of C.meaning self.old) body.now)
            (phase_of C.meaning self.new) (K.device out.old).bytes (K.device out.new).bytes) }
        ensures write { WriteFails result (K.device out.new) }
    {
        match request_of(body) {
            Some(Request::Learn) => self.learn(&body[1..]),
            Some(Request::Begin) => self.begin(alloc),
            Some(Request::Query) => self.query(alloc, &body[1..], out),
            Some(Request::Process) => self.process(alloc, &body[1..]),
            Some(Request::Time(seconds)) => Ok(self.set_time(seconds)),
            Some(Request::Store) => self.store(alloc),
            None => Ok(Answer::Broken),
        }
    }

    /// Returns the verdict if the input ends between two records.
    pub(crate) fn end_verdict(&self) -> Verdict
        ensures { result ≡ verdict_at (phase_of C.meaning self.now) }
    {
        match self {
            GatePhase::Following { .. } => Verdict::Yes,
            _ => Verdict::No,
        }
    }
}
