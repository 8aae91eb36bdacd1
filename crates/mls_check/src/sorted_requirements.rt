//! What a group requires (RFC 9420, 11.1), as short sorted lists.

ghost use Rattle.std.specs.List.Sorted.{IsStrictlyIncreasing};

use crate::signatures::OutOfMemory;
use crate::sorted_codes::sorted_codes;
use mls_nodes::RequiredCapabilities;
use std::alloc::Global;

/// What a group requires of its members (RFC 9420, 11.1): extension, proposal and credential types, each list sorted
/// and without repeats. Made once, and checked for many leaves by [`supports_required`](crate::supports_required).
#[derive(Debug, Drop)]
pub struct SortedRequirements {
    /// Types of extensions.
    pub(crate) extensions: Vec<u16>,
    /// Types of proposals.
    pub(crate) proposals: Vec<u16>,
    /// Types of credentials.
    pub(crate) credentials: Vec<u16>,
    ghost sorted_extensions: { IsStrictlyIncreasing extensions.items },
    ghost sorted_proposals: { IsStrictlyIncreasing proposals.items },
    ghost sorted_credentials: { IsStrictlyIncreasing credentials.items },
}

impl SortedRequirements {
    ghost use Rattle.std.specs.Prelude.{◌≡◌, ◌↔◌, [], IfOk, IsTrue};
    ghost use Rattle.mls_check.specs.SortedRequirements.{RequireSame, requirements_of};

    /// Returns requirements that each leaf satisfies if and only if it satisfies those that are passed: their lists,
    /// copied and sorted.
    ///
    /// # Errors
    ///
    /// `OutOfMemory`.
    pub fn new(
        alloc: Global,
        requirements: &RequiredCapabilities,
    ) -> Result<SortedRequirements, OutOfMemory>
        ensures { IfOk result (λ increasing. RequireSame (requirements_of increasing) requirements.now) }
    {
        let extensions = sorted_codes(alloc, requirements.extensions.as_slice())?;
        let proposals = sorted_codes(alloc, requirements.proposals.as_slice())?;
        let credentials = sorted_codes(alloc, requirements.credentials.as_slice())?;
        Ok(SortedRequirements {
            extensions,
            proposals,
            credentials,
        })
    }

    /// Returns whether nothing is required.
    pub(crate) fn is_empty(&self) -> bool
        ensures { IsTrue result ↔ (requirements_of self.now ≡ record { extensions = []; proposals = []; credentials = [] }) }
    {
        self.extensions.is_empty() && self.proposals.is_empty() && self.credentials.is_empty()
    }
}
