//! The signatures of a resumption from a stored state.

ghost use Rattle.std.specs.Prelude.{◌≡◌, IfOk, OnOk, option_map};
ghost use Rattle.mls_nodes.specs.ExternalSenders.{senders_by};
ghost use Rattle.mls_nodes.specs.declared.context.GroupContext.{GroupContext};
ghost use Rattle.mls_msgs.specs.declared.framed_content.Content.TheVariants as contents;
ghost use Rattle.mls_signatures.specs.AddedLeaves.{AppendsSignatures};
ghost use Rattle.mls_signatures.specs.SignaturesToVerify.{pending_proposal_signatures, pending_signatures, all_resumption_signatures, resumption_signatures};
ghost use Rattle.mls_signatures.specs.SigningKeys.{signing_key};

use crate::push_signatures::{
    is_supported_context, push_framed_content_signature, push_proposal_signatures,
    push_tree_signatures,
};
use crate::signature_list::SignatureList;
use crate::signing_keys::{outside_key_among, senders_of};
use mls_apply::{KnownProposal, authenticated_of};
use mls_check::OutOfMemory;
use mls_msgs::{FramedContent, Sender};
use mls_nodes::{ExternalSenders, GroupContext};
use mls_tree::PublicTree;
use std::alloc::Global;

/// What the key of a pending proposal's sender is looked up in: the ratchet tree, and the group's external senders.
#[derive(Clone, Copy)]
struct Signers<'a> {
    tree: &'a PublicTree,
    senders: &'a Option<ExternalSenders>,
}

/// Returns the key under which the signature of a FramedContent is verified (RFC 9420, 6.1).
fn signing_key<'a>(
    tree: &'a PublicTree,
    senders: &'a Option<ExternalSenders>,
    content: &'a FramedContent,
) -> Option<&'a [u8]>
    ensures { (context : GroupContext) → senders.now ≡ senders_by context.extensions
        → option_map (λ key. key.now) result
        ≡ signing_key context tree.now.tree content.now.sender content.now.content }
{
    match content.sender {
        Sender::Member(index) => match tree.leaf(index) {
            Some(leaf) => Some(leaf.signature_key()),
            None => None,
        },
        sender => outside_key_among(senders, sender, &content.content),
    }
}

/// Appends the signature of the AuthenticatedContent of a pending proposal under its sender's key, then those of the proposal.
/// Nothing is appended if the sender has no key.
fn push_pending_proposal_signatures(
    alloc: Global,
    context: &GroupContext,
    signers: &Signers<'_>,
    pending: &KnownProposal,
    list: &mut SignatureList,
) -> Result<(), OutOfMemory>
    requires { signers.now.senders.now ≡ senders_by context.now.extensions }
    ensures { OnOk result (AppendsSignatures list.old
        (pending_proposal_signatures context.now pending.now
        (signing_key context.now signers.now.tree.now.tree pending.now.sender (contents.Proposal pending.now.proposal)))
        list.new) }
{
    let auth = authenticated_of(alloc, context, pending)?;
    let Some(key) = signing_key(signers.tree, signers.senders, auth.content()) else {
        return Ok(());
    };
    push_framed_content_signature(alloc, context, key, &auth, list)?;
    push_proposal_signatures(alloc, context, pending.sender, &pending.proposal, list)
}

/// Appends the signatures of pending proposals, in their order.
fn push_pending_signatures(
    alloc: Global,
    context: &GroupContext,
    tree: &PublicTree,
    known: &[KnownProposal],
    list: &mut SignatureList,
) -> Result<(), OutOfMemory>
    ensures { OnOk result (AppendsSignatures list.old
        (pending_signatures context.now tree.now.tree known.now) list.new) }
{
    let senders = senders_of(alloc, &context.extensions)?;
    let signers = Signers {
        tree,
        senders: &senders,
    };
    for pending in known {
        push_pending_proposal_signatures(alloc, context, &signers, pending, list)?;
    }
    Ok(())
}

/// Appends the signatures of resuming in a state with this context, this tree and these pending proposals.
fn push_resumption_signatures(
    alloc: Global,
    context: &GroupContext,
    tree: &PublicTree,
    known: &[KnownProposal],
    list: &mut SignatureList,
) -> Result<(), OutOfMemory>
    ensures { OnOk result (AppendsSignatures list.old (all_resumption_signatures context.now tree.now.tree known.now) list.new) }
{
    if !is_supported_context(context) {
        return Ok(());
    }
    push_tree_signatures(alloc, context, tree, list)?;
    push_pending_signatures(alloc, context, tree, known, list)
}

/// Returns the signatures of resuming in a state with this context, this tree and these pending proposals, without
/// duplicates: each leaf's from left to right; then of each pending proposal, in their order, that of its AuthenticatedContent
/// (RFC 9420, 6.1), of an Add the leaf's and the KeyPackage's, and of an Update the leaf's. There are none if the version isn't 1
/// or the cipher suite isn't 1 to 7.
///
/// # Errors
///
/// [`OutOfMemory`].
pub fn resumption_signatures(
    alloc: Global,
    context: &GroupContext,
    tree: &PublicTree,
    known: &[KnownProposal],
) -> Result<SignatureList, OutOfMemory>
    ensures { IfOk result (λ list.
        list ≡ resumption_signatures context.now tree.now.tree known.now) }
{
    let mut list = SignatureList::of_group(alloc, &context.group_id)?;
    match push_resumption_signatures(alloc, context, tree, known, &mut list) {
        Ok(()) => list.deduplicated(alloc),
        Err(memory) => {
            drop(list);
            Err(memory)
        }
    }
}
