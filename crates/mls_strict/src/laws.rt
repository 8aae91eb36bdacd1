//! Theorems about the definitions of this crate. No caller needs to run the functions.

ghost use Rattle.mls_strict.specs.StrictTrees.{NoFaultOfStrict, StrictFaultIsUnique, StrictOrFault};

/// A GroupContext and a tree meet the strict rules of a set, or one rule is the first that is not met, at one place: never
/// both, and no other rule and no other place. So the result is determined.
pub fn strict_or_one_fault()
    ensures some { StrictOrFault }
    ensures apart { NoFaultOfStrict }
    ensures one { StrictFaultIsUnique }
{}
