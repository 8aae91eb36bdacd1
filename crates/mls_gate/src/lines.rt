//! The lines of the gate.

ghost use Rattle.std.specs.Prelude.{◌≡◌, ◌++◌, codes, IfOk, string_bytes};
ghost use Rattle.std.specs.Fmt.{decimal};
ghost use Rattle.mls_follow.specs.FollowerModel.{state_of};
ghost use Rattle.mls_apply.specs.Refusals.{number_of};
ghost use Rattle.mls_report.specs.FaultText.{member_fault_text};
ghost use Rattle.mls_report.specs.Replay.{ended_text};
ghost use Rattle.mls_report.specs.SignaturesReport.{signature_line};
ghost use Rattle.mls_show.specs.ValueTexts.{hex_text};
ghost use Rattle.mls_gate.specs.Answers as answers;

use mls_apply::Refusal;
use mls_check::{MemberFault, SignatureCheck};
use mls_follow::{Follower, Taken};
use mls_nodes::GroupContext;
use mls_report::fault_text::member_fault_text;
use mls_report::replay_text::ended_text;
use mls_report::signature_text::signature_line;
use mls_show::hex_of;
use mls_signatures::SignatureToVerify;
use mls_tree::HashValue;
use std::alloc::{AllocError, Global};

/// Returns whether the checker accepts a signature.
pub(crate) fn is_known<C: SignatureCheck>(needed: &SignatureToVerify, checker: &C) -> bool
    ensures { result ≡ answers.is_known (C.meaning checker.now) needed.now }
{
    let key = needed.key.as_slice();
    let content = needed.content.as_slice();
    checker.good(needed.suite, key, &[content], needed.signature.as_slice())
}

/// Returns the line of a signature that the checker does not accept.
pub(crate) fn verify_line(alloc: Global, needed: &SignatureToVerify) -> Result<String, AllocError>
    ensures { IfOk result
        (λ text. string_bytes text ≡ codes "verify " ++ signature_line needed.now) }
{
    let line = signature_line(alloc, needed)?;
    let mut text = String::from_str(alloc, "verify ")?;
    text.push_str(line.as_str())?;
    Ok(text)
}

/// Returns the line with the number of signatures that the checker does not accept.
pub(crate) fn query_count_line(alloc: Global, count: usize) -> Result<String, AllocError>
    ensures { IfOk result (λ text. string_bytes text ≡ answers.query_count_line count) }
{
    format!(in alloc; "queried {count}\n")
}

/// Returns the line of a follower that has started.
pub(crate) fn ready_line<C: SignatureCheck>(
    alloc: Global,
    follower: &Follower<C>,
) -> Result<String, AllocError>
    ensures { IfOk result
        (λ text. string_bytes text ≡ answers.ready_line (state_of follower.now)) }
{
    let epoch = follower.context().epoch;
    let members = follower.tree().member_count();
    let tree_hash = hex_of(alloc, follower.context().tree_hash.as_slice())?;
    format!(in alloc; "ready epoch {epoch} members {members} tree {tree_hash}\n")
}

/// Returns the name of a refusal for a fault of a leaf node.
fn member_name(alloc: Global, fault: MemberFault) -> Result<String, AllocError>
    ensures { IfOk result
        (λ text. string_bytes text ≡ codes "Member " ++ member_fault_text fault) }
{
    let fault = member_fault_text(alloc, fault)?;
    format!(in alloc; "Member {fault}")
}

/// Returns the name of a refusal, and for a fault of a leaf node that of the fault.
fn refusal_name(alloc: Global, refusal: &Refusal) -> Result<String, AllocError>
    ensures { IfOk result (λ text. string_bytes text ≡ answers.refusal_name refusal.now) }
{
    match refusal {
        Refusal::Member(fault) => member_name(alloc, *fault),
        _ => String::from_str(alloc, refusal.name()),
    }
}

/// Returns the line of a refused message.
fn refused_line(alloc: Global, refusal: &Refusal) -> Result<String, AllocError>
    ensures { IfOk result (λ text. string_bytes text
        ≡ codes "refused " ++ (decimal (number_of refusal.now)
        ++ (codes " " ++ (answers.refusal_name refusal.now ++ codes "\n")))) }
{
    let number = refusal.number();
    let name = refusal_name(alloc, refusal)?;
    format!(in alloc; "refused {number} {name}\n")
}

/// Returns the line of an accepted proposal.
fn proposal_line(alloc: Global, reference: &HashValue) -> Result<String, AllocError>
    ensures { IfOk result (λ text. string_bytes text
        ≡ codes "accepted proposal " ++ (hex_text reference.now ++ codes "\n")) }
{
    let reference = hex_of(alloc, reference.as_slice())?;
    format!(in alloc; "accepted proposal {reference}\n")
}

/// Returns the line of a commit that began an epoch. `has_ended` is true if the group is over after it.
fn commit_line(
    alloc: Global,
    epoch: u64,
    context: &GroupContext,
    has_ended: bool,
) -> Result<String, AllocError>
    ensures { IfOk result (λ text. string_bytes text
        ≡ codes "accepted commit " ++ (decimal epoch
        ++ (codes " " ++ (hex_text context.now.tree_hash
        ++ (codes " " ++ (hex_text context.now.confirmed
        ++ (ended_text has_ended ++ codes "\n"))))))) }
{
    let tree_hash = hex_of(alloc, context.tree_hash.as_slice())?;
    let confirmed = hex_of(alloc, context.confirmed.as_slice())?;
    let ended = ended_text(has_ended);
    format!(in alloc; "accepted commit {epoch} {tree_hash} {confirmed}{ended}\n")
}

/// Returns the line of a state that has this file. It allocates the text once, in addition to the hexadecimal digits.
pub(crate) fn stored_line(alloc: Global, file: Vec<u8>) -> Result<String, AllocError>
    ensures { IfOk result (λ text. string_bytes text ≡ answers.stored_line file.items) }
{
    let digits = hex_of(alloc, file.as_slice());
    drop(file);
    let digits = digits?;
    let mut text = String::with_capacity(alloc, digits.len() + 7)?;
    text.push_str("state ")?;
    text.push_str(digits.as_str())?;
    text.push_str("\n")?;
    Ok(text)
}

/// Returns the line of a processed message.
pub(crate) fn message_answer_line<C: SignatureCheck>(
    alloc: Global,
    answer: &Result<Taken, Refusal>,
    follower: &Follower<C>,
) -> Result<String, AllocError>
    ensures { IfOk result
        (λ text. string_bytes text ≡ answers.message_answer_line answer.now (state_of follower.now)) }
{
    match answer {
        Ok(Taken::Proposal(reference)) => proposal_line(alloc, reference),
        Ok(Taken::Commit(epoch)) => {
            commit_line(alloc, *epoch, follower.context(), follower.ended())
        }
        Err(refusal) => refused_line(alloc, refusal),
    }
}
