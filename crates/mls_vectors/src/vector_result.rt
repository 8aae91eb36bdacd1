//! Outcomes of vectors.

/// The outcome of a vector.
#[derive(Clone, Copy, Debug, PartialEq, Eq)]
pub(crate) enum VectorResult {
    /// Every check holds.
    Pass,
    /// The name of the first check that fails.
    Fail(&'static str),
    /// The cipher suite is not supported.
    Skip,
}
