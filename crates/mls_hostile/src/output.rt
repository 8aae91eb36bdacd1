//! The result of a call, and why there may be none.

/// The answer of a call as text.
#[derive(Drop)]
pub(crate) struct Output {
    /// Whether the call first ran out of memory, left everything unchanged, and was repeated.
    pub(crate) was_refused: bool,
    /// The answer.
    pub(crate) text: String,
}

/// Why there is no answer.
#[derive(Clone, Copy, Debug)]
pub(crate) enum Stop {
    /// An allocation outside of the call failed.
    Memory,
    /// A decodable input was not decoded.
    NotRead,
    /// A decoded input has another encoding.
    OtherBytes,
    /// A message is decodable in the members' profile, but not in the full one.
    OtherProfile,
    /// The suite is not that of the GroupContext.
    OtherSuite,
    /// A follower did not start, or did not return what was passed.
    NotStarted,
    /// A follower did not resume.
    NotResumed,
    /// A state or its file is another one, or has none.
    OtherState,
    /// The arguments or the state have changed.
    Changed,
    /// A report is another one, or incomplete.
    OtherReport,
    /// The signatures of a start or of messages are other ones, or are not returned.
    OtherSignatures,
    /// At a time a message is answered otherwise than without one, and not as one outside of a lifetime.
    OtherAtTime,
}

/// Returns a value that is made or compared before or after a call. If there is none, memory ran out.
pub(crate) fn have<T, E: Drop>(made: Result<T, E>) -> Result<T, Stop> {
    match made {
        Ok(value) => Ok(value),
        Err(_) => Err(Stop::Memory),
    }
}
