//! What a follower makes of a GroupContext's extensions once an epoch (RFC 9420, 11.1, 12.1.8.1 and 13.4).

ghost use Rattle.std.specs.Prelude.{◌≡◌, IfOk};
ghost use Rattle.mls_nodes.specs.ExternalSenders.{senders_by};
ghost use Rattle.mls_strict.specs.LeafForms.{requires_types};

use mls_check::{GroupRequirements, OutOfMemory};
use mls_nodes::{Extensions, ExternalSenders, RequiredCapabilities};
use mls_signatures::senders_of;
use mls_strict::required_types;
use std::alloc::Global;

/// What the group requires of its members, what the types of the extensions require, and the external senders, `None` if
/// these cannot be read.
#[derive(Drop)]
pub(crate) struct EpochParts {
    pub(crate) required: GroupRequirements,
    pub(crate) types: GroupRequirements,
    pub(crate) senders: Option<ExternalSenders>,
}

impl EpochParts {
    /// Returns what is made of these extensions, which require `required`.
    pub(crate) fn of(
        alloc: Global,
        extensions: &Extensions,
        required: RequiredCapabilities,
    ) -> Result<EpochParts, OutOfMemory>
        ensures required { IfOk result (λ parts. parts.required ≡ required) }
        ensures types { IfOk result (λ parts. parts.types ≡ requires_types extensions.now) }
        ensures senders { IfOk result (λ parts. parts.senders ≡ senders_by extensions.now) }
    {
        let required = GroupRequirements::new(alloc, required)?;
        let types = required_types(alloc, extensions)?;
        let senders = senders_of(alloc, extensions)?;
        Ok(EpochParts {
            required,
            types,
            senders,
        })
    }
}
