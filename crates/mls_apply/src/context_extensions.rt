//! GroupContextExtensions proposals in a proposal list (RFC 9420, 12.1.7).

ghost use Rattle.std.specs.Prelude.{◌≡◌, IfOk, option_map};
ghost use Rattle.mls_apply.specs.ContextExtensions.{has_one_context_extensions, proposed_extensions, new_extensions};

use crate::list_item::ListItem;
use mls_msgs::Proposal;
use mls_nodes::{Extensions, GroupContext};
use mls_wire::{CodecFault, TryClone};
use std::alloc::{AllocError, Global};

/// Returns whether at most one item is a GroupContextExtensions proposal (RFC 9420, 12.2).
pub(crate) fn has_one_context_extensions(items: &[ListItem<'_>]) -> bool
    ensures { result ≡ has_one_context_extensions items.now }
{
    let mut is_brought = false;
    for item in items {
        if item.is_context_extensions() {
            if is_brought {
                return false;
            }
            is_brought = true;
        }
    }
    true
}

/// Returns the extensions of the first GroupContextExtensions proposal of a list.
fn proposed_extensions<'a>(items: &[ListItem<'a>]) -> Option<&'a Extensions>
    ensures { option_map (λ extensions. extensions.now) result ≡ proposed_extensions items.now }
{
    for item in items {
        if let Proposal::ContextExtensions(extensions) = item.proposal {
            return Some(extensions);
        }
    }
    None
}

/// Returns the extensions of the GroupContext after a proposal list (RFC 9420, 12.1.7): those of its first
/// GroupContextExtensions proposal, else the current ones.
pub fn new_extensions(
    alloc: Global,
    context: &GroupContext,
    items: &[ListItem<'_>],
) -> Result<Extensions, AllocError>
    ensures { IfOk result (λ extensions.
        extensions ≡ new_extensions context.now.extensions items.now) }
{
    let extensions = match proposed_extensions(items) {
        Some(extensions) => extensions,
        None => &context.extensions,
    };
    match extensions.try_clone(alloc) {
        Ok(copy) => Ok(copy),
        Err(CodecFault::OutOfMemory) => Err(AllocError),
        Err(CodecFault::Wire(_)) => unreachable!(),
    }
}
