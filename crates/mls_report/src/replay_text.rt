//! The lines of `replay`.

ghost use Rattle.std.specs.Prelude.{◌≡◌, ◌++◌, ◌+◌, ◌≤◌, codes, IfOk, string_bytes};
ghost use Rattle.std.specs.Fmt.{decimal};
ghost use Rattle.mls_follow.specs.FollowerModel.{state_of};
ghost use Rattle.mls_report.specs.Replay as lines;
ghost use Rattle.mls_show.specs.ValueTexts.{hex_text};

use mls_check::SignatureCheck;
use mls_follow::{Follower, Refusal, Taken};
use mls_nodes::GroupContext;
use mls_show::hex_of;
use mls_tree::HashValue;
use std::alloc::{AllocError, Global};

/// Returns a refusal as text.
fn refusal_text(alloc: Global, refusal: &Refusal) -> Result<String, AllocError>
    ensures { IfOk result (λ text. string_bytes text ≡ lines.refusal_text refusal.now) }
{
    match refusal {
        Refusal::Member(fault) => {
            let number = fault.number();
            format!(in alloc; "25 {number}")
        }
        _ => {
            let number = refusal.number();
            format!(in alloc; "{number}")
        }
    }
}

/// Returns the words for a refused message.
fn refused_text(alloc: Global, refusal: &Refusal) -> Result<String, AllocError>
    ensures { IfOk result
        (λ text. string_bytes text ≡ codes " refused " ++ lines.refusal_text refusal.now) }
{
    let refusal = refusal_text(alloc, refusal)?;
    format!(in alloc; " refused {refusal}")
}

/// Returns the words for an accepted proposal.
fn proposal_text(alloc: Global, reference: &HashValue) -> Result<String, AllocError>
    ensures { IfOk result
        (λ text. string_bytes text ≡ codes " accepted proposal " ++ hex_text reference.now) }
{
    let reference = hex_of(alloc, reference.as_slice())?;
    format!(in alloc; " accepted proposal {reference}")
}

/// Returns the word after the line of a commit after which the group is over, else nothing.
pub fn ended_text(has_ended: bool) -> &'static str
    ensures { result.now ≡ lines.ended_text has_ended }
{
    if has_ended { " ended" } else { "" }
}

/// Returns the words for a commit that began an epoch. `has_ended` is true if the group is over after it.
fn commit_text(
    alloc: Global,
    epoch: u64,
    context: &GroupContext,
    has_ended: bool,
) -> Result<String, AllocError>
    ensures { IfOk result
        (λ text. string_bytes text ≡ codes " accepted commit " ++ (decimal epoch
        ++ (codes " " ++ (hex_text context.now.tree_hash
        ++ (codes " " ++ (hex_text context.now.confirmed ++ lines.ended_text has_ended)))))) }
{
    let tree_hash = hex_of(alloc, context.tree_hash.as_slice())?;
    let confirmed = hex_of(alloc, context.confirmed.as_slice())?;
    let ended = ended_text(has_ended);
    format!(in alloc; " accepted commit {epoch} {tree_hash} {confirmed}{ended}")
}

/// Returns the answer to a message without its number, as ` refused 1`: from the space after the number to before the
/// line feed. `follower` has processed the message.
pub fn answer_text<C: SignatureCheck>(
    alloc: Global,
    answer: &Result<Taken, Refusal>,
    follower: &Follower<C>,
) -> Result<String, AllocError>
    ensures { IfOk result
        (λ text. string_bytes text ≡ lines.answer_text answer.now (state_of follower.now)) }
{
    match answer {
        Ok(Taken::Proposal(reference)) => proposal_text(alloc, reference),
        Ok(Taken::Commit(epoch)) => {
            commit_text(alloc, *epoch, follower.context(), follower.ended())
        }
        Err(refusal) => refused_text(alloc, refusal),
    }
}

/// Returns the line of message n.
pub fn processed_line<C: SignatureCheck>(
    alloc: Global,
    n: u32,
    answer: &Result<Taken, Refusal>,
    follower: &Follower<C>,
) -> Result<String, AllocError>
    ensures { IfOk result
        (λ text. string_bytes text
        ≡ decimal n ++ (lines.answer_text answer.now (state_of follower.now) ++ codes "\n")) }
{
    let answer = answer_text(alloc, answer, follower)?;
    format!(in alloc; "{n}{answer}\n")
}

/// Returns the line of the counts.
fn log_counts_line(
    alloc: Global,
    accepted: u32,
    refused: u32,
    broken: u32,
    epoch: u64,
) -> Result<String, AllocError>
    ensures { IfOk result
        (λ text. string_bytes text ≡ lines.log_counts_line accepted refused broken epoch) }
{
    format!(in alloc; "accepted {accepted} refused {refused} broken {broken} epoch {epoch}\n")
}

/// Returns the line of message n, which is broken.
pub fn broken_line(alloc: Global, n: u32) -> Result<String, AllocError>
    ensures { IfOk result (λ text. string_bytes text ≡ decimal n ++ codes " broken\n") }
{
    format!(in alloc; "{n} broken\n")
}

/// Returns the last lines, after the given numbers of accepted and refused messages.
pub fn last_lines(
    alloc: Global,
    is_broken: bool,
    accepted: u32,
    refused: u32,
    epoch: u64,
) -> Result<String, AllocError>
    requires { accepted + refused ≤ lines.message_limit }
    ensures { IfOk result
        (λ text. string_bytes text ≡ lines.last_lines is_broken accepted refused epoch) }
{
    if !is_broken {
        return log_counts_line(alloc, accepted, refused, 0, epoch);
    }
    let counts = log_counts_line(alloc, accepted, refused, 1, epoch)?;
    let mut text = broken_line(alloc, accepted + refused + 1)?;
    text.push_str(counts.as_str())?;
    Ok(text)
}
