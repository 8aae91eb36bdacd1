//! Properties of the definitions of findings and of starts. No caller needs to run these functions.

ghost use Rattle.mls_start.specs.FindingLaws.{TreeFindingIsUnique, TreeFindingExists, FindingIsUnique, FindingExists, FirstStateIsUnique, FirstStateOrFindingExists, FirstStatesAreStrict, FirstStatesAreValid};

/// Findings are determined by the bytes and the verification function of the signature check, except for which fault is
/// named of an undecodable input. So is the state in which a follower starts or resumes.
pub fn findings_are_determined()
    ensures tree { TreeFindingIsUnique }
    ensures start { FindingIsUnique }
    ensures state { FirstStateIsUnique }
{}

/// For any bytes and any verification function of the signature check there is a finding. A follower starts or resumes, or
/// the finding says why none does. So contracts that allow `OutOfMemory` never allow only that.
pub fn findings_exist()
    ensures tree { TreeFindingExists }
    ensures start { FindingExists }
    ensures first { FirstStateOrFindingExists }
{}

/// A follower starts or resumes in a valid state.
pub fn first_states_are_valid()
    ensures { FirstStatesAreValid }
{}

/// A follower starts or resumes with the strict rules that are asked, in a strict state: its context, its tree and its pending
/// proposals meet its strict rules.
pub fn first_states_are_strict()
    ensures { FirstStatesAreStrict }
{}
