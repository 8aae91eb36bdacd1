//! Kinds of files of test vectors.

/// The kind of a file of test vectors.
#[derive(Clone, Copy, Debug, PartialEq, Eq)]
pub enum CheckKind {
    /// Node indices of a tree (RFC 9420, 4.1.1 and Appendix C).
    TreeMath,
    /// A tree that must be valid, with its resolutions and tree hashes (RFC 9420, 4.1.1, 7.8 and 12.4.3.1).
    TreeValidation,
    /// A tree before and after one proposal (RFC 9420, 12.1 and 12.3).
    TreeOperations,
    /// The transcript hashes before and after a commit (RFC 9420, 8.2).
    Transcript,
}
