//! Vectors of the kind `transcript`: the transcript hashes before and after a commit (RFC 9420, 8.2).

ghost use Rattle.std.specs.Prelude.{◌≡◌, IfOk, codes};
ghost use Rattle.serde_json.specs.View.{view};
ghost use Rattle.mls_hash.specs.SuiteHash.{hash_of};
ghost use Rattle.mls_vectors.specs.CheckModel.{outcome_of, FindsCommit, ReadsCommitOf};
ghost use Rattle.mls_vectors.specs.VectorResults.{IsVectorResult};
ghost use Rattle.mls_vectors.specs.TranscriptVectors.{HasCommit, IsTranscript, hash_checks};
ghost use Rattle.mls_vectors.specs.TreeValidation.{HasSuite, IsOutcomeUnlessSkipped};

use crate::json_members::{bytes_under, has_bytes};
use crate::suite::{SuiteMember, suite_of};
use crate::vector_result::VectorResult;
use mls_apply::{confirmed_hash, interim_hash};
use mls_hash::Suite;
use mls_msgs::{Authenticated, decode_authenticated};
use mls_wire::CodecFault;
use serde_json::Value;
use std::alloc::{AllocError, Global};

/// Decodes an AuthenticatedContent with a commit. `None` if the bytes are not decodable as one.
fn commit_of(alloc: Global, bytes: &[u8]) -> Result<Option<Authenticated>, AllocError>
    ensures { IfOk result (λ o. ReadsCommitOf bytes.now o) }
{
    match decode_authenticated(alloc, bytes) {
        Ok(auth) => {
            if auth.confirmation_tag().is_some() {
                Ok(Some(auth))
            } else {
                drop(auth);
                Ok(None)
            }
        }
        Err(CodecFault::OutOfMemory) => Err(AllocError),
        Err(CodecFault::Wire(_)) => Ok(None),
    }
}

/// Returns the commit of a vector. `None` if it is not decodable.
fn commit_in(alloc: Global, vector: &Value) -> Result<Option<Authenticated>, AllocError>
    ensures { IfOk result (λ o. FindsCommit (view vector.now) o) }
{
    match bytes_under(alloc, vector, "authenticated_content")? {
        Some(bytes) => commit_of(alloc, bytes.as_slice()),
        None => Ok(None),
    }
}

/// Returns the outcome of the checks of the hashes after the commit.
fn hash_outcome(
    alloc: Global,
    suite: Suite,
    interim: &[u8],
    auth: &Authenticated,
    vector: &Value,
) -> Result<VectorResult, AllocError>
    requires { HasCommit (view vector.now) auth.now }
    ensures { IfOk result (λ o.
        IsVectorResult (hash_checks (hash_of suite) interim.now auth.now (view vector.now))
        (outcome_of o)) }
{
    let confirmed = confirmed_hash(alloc, suite, interim, auth)?;
    if !has_bytes(
        alloc,
        vector,
        "confirmed_transcript_hash_after",
        confirmed.as_slice(),
    )? {
        return Ok(VectorResult::Fail("confirmed_transcript_hash_after"));
    }
    let Some(tag) = auth.confirmation_tag() else {
        unreachable!()
    };
    let after = interim_hash(alloc, suite, confirmed.as_slice(), tag)?;
    if !has_bytes(
        alloc,
        vector,
        "interim_transcript_hash_after",
        after.as_slice(),
    )? {
        return Ok(VectorResult::Fail("interim_transcript_hash_after"));
    }
    Ok(VectorResult::Pass)
}

/// Returns the outcome, given the suite and the commit.
fn commit_outcome(
    alloc: Global,
    suite: Suite,
    auth: &Authenticated,
    vector: &Value,
) -> Result<VectorResult, AllocError>
    requires suite { HasSuite (view vector.now) suite }
    requires commit { HasCommit (view vector.now) auth.now }
    ensures { IfOk result (λ o. IsTranscript (view vector.now) (outcome_of o)) }
{
    match bytes_under(alloc, vector, "interim_transcript_hash_before")? {
        Some(interim) => hash_outcome(alloc, suite, interim.as_slice(), auth, vector),
        None => Ok(VectorResult::Fail("interim_transcript_hash_before")),
    }
}

/// Returns the outcome, given the suite.
fn suite_outcome(alloc: Global, suite: Suite, vector: &Value) -> Result<VectorResult, AllocError>
    requires { HasSuite (view vector.now) suite }
    ensures { IfOk result (λ o. IsTranscript (view vector.now) (outcome_of o)) }
{
    match commit_in(alloc, vector)? {
        Some(auth) => {
            let outcome = commit_outcome(alloc, suite, &auth, vector);
            drop(auth);
            outcome
        }
        None => Ok(VectorResult::Fail("authenticated_content")),
    }
}

/// Returns the outcome of a vector.
pub(crate) fn transcript_outcome(alloc: Global, vector: &Value) -> Result<VectorResult, AllocError>
    ensures { IfOk result
        (λ o. IsOutcomeUnlessSkipped IsTranscript (view vector.now) (outcome_of o)) }
{
    match suite_of(vector) {
        SuiteMember::Followed(suite) => suite_outcome(alloc, suite, vector),
        SuiteMember::Other => Ok(VectorResult::Skip),
        SuiteMember::Missing => Ok(VectorResult::Fail("cipher_suite")),
    }
}
