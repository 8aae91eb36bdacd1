//! The AuthenticatedContent of a pending proposal (RFC 9420, 6 and 12.4).

ghost use Rattle.std.specs.Prelude.{◌≡◌, IfOk};
ghost use Rattle.mls_apply.specs.PendingContent.{authenticated_of};

use crate::list_item::KnownProposal;
use mls_msgs::{Authenticated, AuthenticatedParts, Content, FramedContent};
use mls_nodes::GroupContext;
use mls_wire::copy_of;
use std::alloc::{AllocError, Global};

/// Returns the FramedContent of a pending proposal of the group and the epoch of `context`. Copies the proposal.
fn content_of(
    alloc: Global,
    context: &GroupContext,
    known: &KnownProposal,
) -> Result<FramedContent, AllocError>
    ensures { IfOk result (λ content. content ≡ (authenticated_of context.now known.now).content) }
{
    let group_id = copy_of(alloc, &context.group_id)?;
    let authenticated = copy_of(alloc, &known.authenticated_data)?;
    let proposal = copy_of(alloc, &known.proposal)?;
    Ok(FramedContent {
        group_id,
        epoch: context.epoch,
        sender: known.sender,
        authenticated,
        content: Content::Proposal(proposal),
    })
}

/// Returns the AuthenticatedContent (RFC 9420, 6) of a pending proposal, by which its sender sent it as a PublicMessage of the
/// group and the epoch of `context`. Copies the proposal. Fails only if an allocation fails.
pub fn authenticated_of(
    alloc: Global,
    context: &GroupContext,
    known: &KnownProposal,
) -> Result<Authenticated, AllocError>
    ensures { IfOk result (λ a. a ≡ authenticated_of context.now known.now) }
{
    let content = content_of(alloc, context, known)?;
    let signature = copy_of(alloc, &known.signature)?;
    match Authenticated::new(AuthenticatedParts {
        wire_format: 1,
        content,
        signature,
        confirmation_tag: None,
    }) {
        Ok(auth) => Ok(auth),
        Err(_) => unreachable!(),
    }
}
