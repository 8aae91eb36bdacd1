//! Theorems about the definitions of this crate, which no call of a caller's needs to run.

ghost use Rattle.mls_signatures.specs.AcceptedSignatures.{FreshSignaturesSuffice};
ghost use Rattle.mls_signatures.specs.Agreement.{DuplicatesAreIrrelevant};
ghost use Rattle.mls_signatures.specs.DistinctStarts.{StartSignaturesAreDistinct};

/// Two verification functions agree on a list of signatures if and only if they agree on it without its duplicates.
pub fn duplicates_are_irrelevant()
    ensures duplicates { DuplicatesAreIrrelevant }
{}

/// If no two leaves have one signature key, no two signatures of a start are equal. So a caller that requests them one
/// at a time need not look for duplicates.
pub fn start_signatures_are_distinct()
    ensures distinct { StartSignaturesAreDistinct }
{}

/// If a verification function accepts the signatures of the pending proposals, those of a message that it does not accept are
/// those among the ones that no pending proposal has, in the same order. So a follower, which has verified its pending
/// proposals, need not list theirs again.
pub fn fresh_signatures_suffice()
    ensures fresh { FreshSignaturesSuffice }
{}
