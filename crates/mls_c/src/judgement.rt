//! What a call that checks a message returns.

ghost use Rattle.std.specs.Prelude.{◌≡◌};
ghost use Rattle.mls_c.specs.Numbers as numbers;

use crate::input_verdict::{OUT_OF_MEMORY, member_fault_leaf};
use mls_check::MemberFault;
use mls_follow::{Refusal, Taken};

/// What came of a message.
#[repr(C)]
#[derive(Clone, Copy)]
pub struct Judgement {
    /// 0 if the message is accepted, from 1 to 53 the first rule that it fails; from 100 on it was not processed.
    pub number: u32,
    /// 1 for a proposal that is accepted, 2 for a commit, otherwise 0.
    pub kind: u32,
    /// For 25, the number of the fault of the leaf node, otherwise 0.
    pub inner: u32,
    /// For 25, the leaf index, otherwise 0.
    pub leaf: u32,
    /// The epoch that a commit begins, otherwise 0.
    pub epoch: u64,
}

/// Returns the judgement of a message that was not processed.
pub(crate) fn not_judged(number: u32) -> Judgement
    ensures { result ≡ numbers.not_judged number }
{
    Judgement {
        number,
        kind: 0,
        inner: 0,
        leaf: 0,
        epoch: 0,
    }
}

/// Returns the judgement of a message that is refused for a leaf node.
fn leaf_judgement(fault: MemberFault) -> Judgement
    ensures { result ≡ numbers.leaf_judgement fault }
{
    Judgement {
        number: 25,
        kind: 0,
        inner: u32::from(fault.number()),
        leaf: member_fault_leaf(fault),
        epoch: 0,
    }
}

/// Returns the judgement of a message that is refused.
fn refused_judgement(refusal: &Refusal) -> Judgement
    ensures { result ≡ numbers.refused_judgement refusal.now }
{
    match refusal {
        Refusal::OutOfMemory => not_judged(OUT_OF_MEMORY),
        Refusal::Member(fault) => leaf_judgement(*fault),
        _ => not_judged(refusal.number() as u32),
    }
}

/// Returns the judgement of a message that was processed.
pub(crate) fn judgement_of(answer: &Result<Taken, Refusal>) -> Judgement
    ensures { result ≡ numbers.judgement_of answer.now }
{
    let (kind, epoch) = match answer {
        Ok(Taken::Proposal(_)) => (1, 0),
        Ok(Taken::Commit(epoch)) => (2, *epoch),
        Err(refusal) => return refused_judgement(refusal),
    };
    Judgement {
        number: 0,
        kind,
        inner: 0,
        leaf: 0,
        epoch,
    }
}
