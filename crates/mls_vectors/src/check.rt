//! The report `check`: which vectors of a file agree with this library.

ghost use Rattle.std.specs.Prelude.{◌≡◌, [], Err, map, IfOk, OnErr, IfErr, option_map};
ghost use Rattle.std.specs.Io.KnownBytes.{Appends};
ghost use Rattle.mls_wire.specs.Devices.{IsWorking, ReadFails, WriteFails};
ghost use Rattle.serde_json.specs.View.{view, items_view};
ghost use Rattle.mls_vectors.specs.CheckReport.{AreOutcomes, Checks, ChecksPart, IsCheckReport, IsNoVectorsReport, IsOutcomeOf, IsOutcomesReport, IsVectorsReport};
ghost use Rattle.mls_vectors.specs.CheckModel.{outcome_of, IsValueReport};
ghost use Rattle.mls_vectors.specs.VectorFile as vectors;
ghost use Rattle.mls_vectors.specs.VectorFile.{vectors_of};

use crate::report_lines::{count, outcome_lines, vector_counts_line};
use crate::text_weight::is_too_heavy;
use crate::transcript::transcript_outcome;
use crate::tree_math::tree_math_outcome;
use crate::tree_operations::tree_operations_outcome;
use crate::tree_validation::tree_validation_outcome;
use crate::vector_result::VectorResult;
use mls_show::{CheckKind, Report, Verdict, read_all, write_bytes};
use mls_wire::{MAX_INPUT, RunFault, Sink, Source};
use serde_json::Value;
use std::alloc::{AllocError, Global};

/// Returns whether each value is an object.
fn are_objects(values: &[Value]) -> bool
    ensures { result ≡ vectors.are_objects (items_view values.now) }
{
    let mut rest = values;
    while let Some((value, tail)) = rest.split_first() {
        if !value.is_object() {
            return false;
        }
        rest = tail;
    }
    true
}

/// Returns the vectors in a value: an array of objects.
fn vectors_in(whole: &Value) -> Option<&Vec<Value>>
    ensures { option_map (λ v. items_view v.now.items) result ≡ vectors_of (view whole.now) }
{
    let list = whole.as_array()?;
    if are_objects(list.as_slice()) {
        Some(list)
    } else {
        None
    }
}

/// Returns the outcome of a vector.
fn outcome_by(alloc: Global, kind: CheckKind, vector: &Value) -> Result<VectorResult, AllocError>
    ensures { IfOk result (λ o. IsOutcomeOf kind (view vector.now) (outcome_of o)) }
{
    match kind {
        CheckKind::TreeMath => Ok(tree_math_outcome(vector)),
        CheckKind::TreeValidation => tree_validation_outcome(alloc, vector),
        CheckKind::TreeOperations => tree_operations_outcome(alloc, vector),
        CheckKind::Transcript => transcript_outcome(alloc, vector),
    }
}

/// Returns the outcomes of vectors.
fn outcomes_by(
    alloc: Global,
    kind: CheckKind,
    vectors: &[Value],
) -> Result<Vec<VectorResult>, AllocError>
    ensures { IfOk result
        (λ v. AreOutcomes kind (items_view vectors.now) (map outcome_of v.items)) }
{
    let mut outcomes = Vec::new(alloc);
    let mut rest = vectors;
    while let Some((vector, tail)) = rest.split_first() {
        outcomes.push(outcome_by(alloc, kind, vector)?)?;
        rest = tail;
    }
    Ok(outcomes)
}

/// Returns the report of outcomes.
fn outcomes_report(alloc: Global, outcomes: &[VectorResult]) -> Result<Report, AllocError>
    ensures { IfOk result
        (λ r. IsOutcomesReport (map outcome_of outcomes.now) r.bytes.items r.verdict) }
{
    let mut text = outcome_lines(alloc, outcomes)?;
    let counts = count(outcomes);
    let last = vector_counts_line(alloc, counts)?;
    text.push_str(last.as_str())?;
    let verdict = if counts.failed == 0 {
        Verdict::Yes
    } else {
        Verdict::No
    };
    Ok(Report::of_text(text, verdict))
}

/// Returns the report of a file that is no array of vectors.
fn no_vectors_report(alloc: Global) -> Result<Report, AllocError>
    ensures { IfOk result (λ r. IsNoVectorsReport r.bytes.items r.verdict) }
{
    Ok(Report {
        bytes: Vec::from_slice(alloc, b"vectors unreadable\n")?,
        verdict: Verdict::No,
    })
}

/// Returns the report of vectors.
fn vectors_report(alloc: Global, kind: CheckKind, vectors: &[Value]) -> Result<Report, AllocError>
    ensures { IfOk result (λ r.
        IsVectorsReport kind (items_view vectors.now) r.bytes.items r.verdict) }
{
    let outcomes = outcomes_by(alloc, kind, vectors)?;
    outcomes_report(alloc, outcomes.as_slice())
}

/// Returns the report of a JSON text.
fn whole_report(alloc: Global, kind: CheckKind, whole: &Value) -> Result<Report, AllocError>
    ensures { IfOk result
        (λ r. IsValueReport kind (view whole.now) r.bytes.items r.verdict) }
{
    match vectors_in(whole) {
        Some(vectors) => vectors_report(alloc, kind, vectors.as_slice()),
        None => no_vectors_report(alloc),
    }
}

/// Returns the report of a file's bytes.
fn check_report(alloc: Global, kind: CheckKind, bytes: &[u8]) -> Result<Report, RunFault>
    ensures report { IfOk result
        (λ r. IsCheckReport kind bytes.now r.bytes.items r.verdict) }
    ensures memory { IfErr result (λ e. e ≡ RunFault.Memory) }
{
    if bytes.len() > MAX_INPUT || is_too_heavy(bytes) {
        return Ok(no_vectors_report(alloc)?);
    }
    match Value::from_slice(alloc, bytes) {
        Ok(whole) => {
            let report = whole_report(alloc, kind, &whole);
            drop(whole);
            Ok(report?)
        }
        Err(error) => {
            if error.is_memory() {
                Err(RunFault::Memory)
            } else {
                Ok(no_vectors_report(alloc)?)
            }
        }
    }
}

/// Reads a file of test vectors, a JSON array of objects, to its end, and writes a line for each:
///
/// - `N pass`;
/// - `N fail` and the name of the first check that fails;
/// - `N skip` if the cipher suite is a whole number, but not of a supported suite.
///
/// The last line has the number of each; the verdict is `Yes` if none failed. A member that is missing or of the wrong
/// JSON type fails when its check comes. If the input is no such array, or longer than [`mls_wire::MAX_INPUT`], or too
/// heavy, the report is the line `vectors unreadable`, and the verdict is `No`.
///
/// A value of JSON takes memory however short its text is. So a text must not weigh more than 262,144 and its length in
/// bytes: 40 for each `{`, 7 for each `[`, and 4 for each `,`, also those inside strings.
///
/// # Errors
///
/// `Read` if the input fails. `Write` if the output fails; a prefix of the report may be written. `Memory` comes before
/// anything is written.
pub fn run_check<S: Source, K: Sink>(
    alloc: Global,
    kind: CheckKind,
    input: &mut S,
    out: &mut K,
) -> Result<Verdict, RunFault>
    requires input { IsWorking (S.device input.old) }
    requires out { IsWorking (K.device out.old) }
    ensures checked { IfOk result (Checks kind (S.device input.old).bytes (S.device input.new).bytes
        (K.device out.old).bytes (K.device out.new).bytes) }
    ensures effect_on_error { OnErr result
        (ChecksPart kind (S.device input.old).bytes (S.device input.new).bytes
        (K.device out.old).bytes (K.device out.new).bytes) }
    ensures memory { result ≡ Err RunFault.Memory
        → Appends (K.device out.old).bytes (K.device out.new).bytes [] }
    ensures read { ReadFails result (S.device input.new) }
    ensures write { WriteFails result (K.device out.new) }
{
    let bytes = read_all(alloc, input)?;
    let report = check_report(alloc, kind, bytes.as_slice())?;
    write_bytes(out, report.bytes.as_slice())?;
    Ok(report.verdict)
}
