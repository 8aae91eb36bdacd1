//! The lines of the report `check`.

ghost use Rattle.std.specs.Prelude.{◌≡◌, ◌++◌, ◌+◌, ◌<◌, IfOk, map, codes, string_bytes, length};
ghost use Rattle.std.specs.Fmt.{decimal};
ghost use Rattle.mls_vectors.specs.CheckReport as lines;
ghost use Rattle.mls_vectors.specs.CheckModel.{outcome_of, counts_of};

use crate::vector_result::VectorResult;
use std::alloc::{AllocError, Global};

/// The numbers of vectors that passed, failed and were skipped.
#[derive(Clone, Copy, Debug, PartialEq, Eq)]
pub(crate) struct Counts {
    /// Passed.
    passed: usize,
    /// Failed.
    pub(crate) failed: usize,
    /// Skipped.
    skipped: usize,
}

/// Returns the line of a vector, given its number.
fn outcome_line(alloc: Global, number: usize, outcome: VectorResult) -> Result<String, AllocError>
    ensures { IfOk result
        (λ text. string_bytes text ≡ decimal number ++ lines.outcome_text (outcome_of outcome)) }
{
    match outcome {
        VectorResult::Pass => format!(in alloc; "{number} pass\n"),
        VectorResult::Fail(name) => format!(in alloc; "{number} fail {name}\n"),
        VectorResult::Skip => format!(in alloc; "{number} skip\n"),
    }
}

/// Returns the lines of all vectors.
pub(crate) fn outcome_lines(alloc: Global, outcomes: &[VectorResult]) -> Result<String, AllocError>
    ensures { IfOk result
        (λ text. string_bytes text ≡ lines.outcome_lines 1 (map outcome_of outcomes.now)) }
{
    let mut text = String::new(alloc);
    for (index, outcome) in outcomes.iter().enumerate() {
        let line = outcome_line(alloc, index + 1, *outcome)?;
        text.push_str(line.as_str())?;
    }
    Ok(text)
}

/// Returns the counts with one more outcome.
fn add_result(counts: Counts, outcome: VectorResult) -> Counts
    requires { counts.passed + counts.failed + counts.skipped < 18446744073709551615 }
    ensures add_result { counts_of result ≡ lines.add_result (outcome_of outcome) (counts_of counts) }
    ensures one { result.passed + result.failed + result.skipped
        ≡ counts.passed + counts.failed + counts.skipped + 1 }
{
    let Counts {
        passed,
        failed,
        skipped,
    } = counts;
    match outcome {
        VectorResult::Pass => Counts {
            passed: passed + 1,
            failed,
            skipped,
        },
        VectorResult::Fail(_) => Counts {
            passed,
            failed: failed + 1,
            skipped,
        },
        VectorResult::Skip => Counts {
            passed,
            failed,
            skipped: skipped + 1,
        },
    }
}

/// Returns the counts of all outcomes.
pub(crate) fn count(outcomes: &[VectorResult]) -> Counts
    ensures { counts_of result ≡ lines.counts (map outcome_of outcomes.now) }
{
    let mut counts = Counts {
        passed: 0,
        failed: 0,
        skipped: 0,
    };
    for outcome in outcomes {
        counts = add_result(counts, *outcome);
    }
    counts
}

/// Returns the last line.
pub(crate) fn vector_counts_line(alloc: Global, counts: Counts) -> Result<String, AllocError>
    ensures { IfOk result (λ text. string_bytes text ≡ lines.vector_counts_line (counts_of counts)) }
{
    let Counts {
        passed,
        failed,
        skipped,
    } = counts;
    format!(in alloc; "passed {passed} failed {failed} skipped {skipped}\n")
}
