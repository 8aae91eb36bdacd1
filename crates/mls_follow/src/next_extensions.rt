//! The extensions that a proposal list proposes for the next GroupContext, and what they require of members (RFC 9420,
//! 11.1 and 12.1.7).

ghost use Rattle.std.specs.Prelude.{◌≡◌, ◌≢◌, Some, None, IfOk, IfErr, IsTrue, option_map, unwrap_or};
ghost use Rattle.mls_nodes.specs.ExternalSenders.{senders_by};
ghost use Rattle.mls_nodes.specs.declared.required_capabilities.RequiredCapabilities.{RequiredCapabilities};
ghost use Rattle.mls_apply.specs.ContextExtensions.{proposed_extensions};
ghost use Rattle.mls_strict.specs.LeafForms.{requires_types};
ghost use Rattle.mls_follow.specs.MessageRules.{required_after};

use mls_apply::{ListItem, Refusal};
use mls_check::{GroupRequirements, OutOfMemory};
use mls_msgs::Proposal;
use mls_nodes::{Extensions, ExternalSenders, requirements_of};
use mls_signatures::senders_of;
use mls_strict::required_types;
use mls_wire::{CodecFault, copy_of};
use std::alloc::Global;

/// The extensions that a commit proposes for the next GroupContext, what their types require of members, and the external
/// senders that they name, `None` if these cannot be read (RFC 9420, 12.1.7, 12.1.8.1 and 13.4).
#[derive(Drop)]
pub(crate) struct NextExtensions {
    pub(crate) extensions: Extensions,
    pub(crate) types: GroupRequirements,
    pub(crate) senders: Option<ExternalSenders>,
    ghost same_types: { types ≡ requires_types extensions },
    ghost same_senders: { senders ≡ senders_by extensions },
}

/// Returns the extensions of the first GroupContextExtensions proposal of a list.
fn proposed_extensions<'a>(items: &[ListItem<'a>]) -> Option<&'a Extensions>
    ensures { option_map (λ extensions. extensions.now) result ≡ proposed_extensions items.now }
{
    for item in items {
        if let Proposal::ContextExtensions(extensions) = item.proposal {
            return Some(extensions);
        }
    }
    None
}

/// Returns what the extensions that a proposal list proposes require of members, `None` if it proposes none. The
/// extensions are not copied.
///
/// # Errors
///
/// `ContextExtensionsInvalid` if the required capabilities cannot be read, or `OutOfMemory`.
#[tactic(auto, using(crate::proofs::Requiring::required_after_read, crate::proofs::Requiring::required_after_unread))]
pub(crate) fn proposed_requirements(
    alloc: Global,
    items: &[ListItem<'_>],
) -> Result<Option<GroupRequirements>, Refusal>
    ensures required { IfOk result (λ required. (former : RequiredCapabilities)
        → required_after former (proposed_extensions items.now) ≡ Some (unwrap_or required former)) }
    ensures refused { IfErr result (λ e. e ≢ Refusal.OutOfMemory
        → (e ≡ Refusal.ContextExtensionsInvalid) × ((former : RequiredCapabilities)
        → required_after former (proposed_extensions items.now) ≡ None)) }
{
    let Some(extensions) = proposed_extensions(items) else {
        return Ok(None);
    };
    match requirements_of(alloc, extensions) {
        Ok(required) => Ok(Some(GroupRequirements::new(alloc, required)?)),
        Err(CodecFault::Wire(_)) => Err(Refusal::ContextExtensionsInvalid),
        Err(CodecFault::OutOfMemory) => Err(Refusal::OutOfMemory),
    }
}

/// Returns a copy of the extensions that a proposal list proposes, what their types require, and their external senders;
/// `None` if it proposes none.
pub(crate) fn copy_of_proposed(
    alloc: Global,
    items: &[ListItem<'_>],
) -> Result<Option<NextExtensions>, OutOfMemory>
    ensures { IfOk result (λ next.
        option_map (λ n. n.extensions) next ≡ proposed_extensions items.now) }
{
    let Some(proposed) = proposed_extensions(items) else {
        return Ok(None);
    };
    let extensions = copy_of(alloc, proposed)?;
    let types = required_types(alloc, &extensions)?;
    let senders = senders_of(alloc, &extensions)?;
    Ok(Some(NextExtensions {
        extensions,
        types,
        senders,
    }))
}

/// What is required after a commit, and whether that is certainly the same as before it.
#[derive(Clone, Copy)]
pub(crate) struct RequiredAfter<'a> {
    pub(crate) required: &'a GroupRequirements,
    pub(crate) unchanged: bool,
}

/// Returns what a group requires after a commit: what the proposed extensions require, otherwise what is required before
/// it.
pub(crate) fn required_after<'a>(
    former: &'a GroupRequirements,
    proposed: &'a Option<GroupRequirements>,
) -> RequiredAfter<'a>
    ensures required { result.required.now ≡ unwrap_or proposed.now former.now }
    ensures unchanged { IsTrue result.unchanged → former.now ≡ result.required.now }
{
    match proposed {
        Some(required) => RequiredAfter {
            required,
            unchanged: false,
        },
        None => RequiredAfter {
            required: former,
            unchanged: true,
        },
    }
}
