//! The signatures of a start and of a message, without duplicates.

ghost use Rattle.std.specs.Prelude.{◌≡◌, IfOk, OnOk, true};
ghost use Rattle.std.specs.Option.{option_to_list};
ghost use Rattle.mls_nodes.specs.ExternalSenders.{senders_by};
ghost use Rattle.mls_tree.specs.Tree.{leaf_at};
ghost use Rattle.mls_apply.specs.Staged.{IsSettled};
ghost use Rattle.mls_signatures.specs.AcceptedSignatures.{are_from_packages};
ghost use Rattle.mls_signatures.specs.AddedLeaves.{AppendsSignatures, IfFresh, leaves_of};
ghost use Rattle.mls_signatures.specs.SignaturesToVerify.{all_message_signatures, authenticated_signatures, deduplicated, fresh_message_signatures, info_signatures, join_content_signatures, key_package_signatures, list_signatures, member_signatures, message_signatures, non_blank_leaf_signatures, outside_content_signatures, outside_proposal_signatures, outside_signatures, sender_signatures, start_signatures};
ghost use Rattle.mls_signatures.specs.SigningKeys.{outside_key};

use crate::added_leaves::NewLeaves;
use crate::commit_signatures::{MemberCommit, push_commit_signatures};
use crate::external_commit_signatures::{ExternalCommit, push_external_commit_signature};
use crate::push_signatures::{
    push_framed_content_signature, push_proposal_signatures, push_start_signatures,
};
use crate::signature_list::SignatureList;
use crate::signature_to_verify::SignatureToVerify;
use crate::signing_keys::{may_propose, outside_key_among};
use crate::single_signatures::{
    info_signature, leaf_signature, non_blank_leaf_signature, package_signature,
};
use mls_apply::{PendingProposals, StagedTree};
use mls_check::OutOfMemory;
use mls_msgs::{Authenticated, Content, GroupInfo, KeyPackage, Message, Profile, Proposal, Sender};
use mls_nodes::{ExternalSenders, GroupContext};
use mls_tree::PublicTree;
use mls_wire::Opaque;
use std::alloc::Global;

/// Returns the signatures of a start from a GroupInfo and a tree (RFC 9420, 12.4.3.1), without duplicates: the GroupInfo's,
/// if its signer's leaf is non-blank, then each leaf's from left to right. There are none if the version isn't 1 or the
/// cipher suite isn't 1 to 7.
///
/// # Errors
///
/// [`OutOfMemory`].
pub fn start_signatures(
    alloc: Global,
    info: &GroupInfo,
    tree: &PublicTree,
) -> Result<SignatureList, OutOfMemory>
    ensures { IfOk result (λ list. list ≡ start_signatures info.now tree.now.tree) }
{
    let mut list = SignatureList::of_group(alloc, &info.context.group_id)?;
    match push_start_signatures(alloc, info, tree, &mut list) {
        Ok(()) => list.deduplicated(alloc),
        Err(memory) => {
            drop(list);
            Err(memory)
        }
    }
}

/// Returns the list of a signature, if there is one.
fn list_of(
    alloc: Global,
    signature: Option<SignatureToVerify>,
) -> Result<Vec<SignatureToVerify>, OutOfMemory>
    ensures { IfOk result (λ v. v.items ≡ option_to_list signature) }
{
    let mut list = Vec::new(alloc);
    if let Some(signature) = signature {
        list.push(signature)?;
    }
    Ok(list)
}

/// Returns the signature of a GroupInfo by a tree (RFC 9420, 12.4.3). It is the first of [`start_signatures`] if version
/// and cipher suite are supported. The list is empty if the signer's leaf is blank, or if what is signed has no encoding.
///
/// # Errors
///
/// [`OutOfMemory`].
pub fn info_signatures(
    alloc: Global,
    info: &GroupInfo,
    tree: &PublicTree,
) -> Result<Vec<SignatureToVerify>, OutOfMemory>
    ensures { IfOk result (λ v. v.items
        ≡ info_signatures info.now (leaf_at 0 tree.now.tree info.now.signer)) }
{
    let signature = info_signature(alloc, info, tree)?;
    list_of(alloc, signature)
}

/// Returns the signature of one leaf node of a group (RFC 9420, 7.2), by its leaf index. Those of all leaves from left to
/// right are the others of [`start_signatures`], if no two leaves have one signature key. The list is empty if the leaf
/// is blank, or if what is signed has no encoding.
///
/// # Errors
///
/// [`OutOfMemory`].
pub fn leaf_signatures(
    alloc: Global,
    context: &GroupContext,
    tree: &PublicTree,
    index: u32,
) -> Result<Vec<SignatureToVerify>, OutOfMemory>
    ensures { let suite = context.now.cipher_suite in
        IfOk result (λ v. v.items ≡ non_blank_leaf_signatures
        suite context.now.group_id index (leaf_at 0 tree.now.tree index)) }
{
    let signature = non_blank_leaf_signature(alloc, context, tree, index)?;
    list_of(alloc, signature)
}

/// Returns the signatures of a KeyPackage in any group of its cipher suite: that of its leaf node, then its own (RFC 9420, 7.2
/// and 10.1). What the leaf node of a KeyPackage signs has no group id and no leaf index. A signature is left out if what is
/// signed has no encoding.
///
/// # Errors
///
/// [`OutOfMemory`].
pub fn package_signatures(
    alloc: Global,
    key_package: &KeyPackage,
) -> Result<Vec<SignatureToVerify>, OutOfMemory>
    ensures { IfOk result (λ v. v.items ≡ key_package_signatures key_package.now) }
{
    let Ok(group_id) = Opaque::new(Vec::new(alloc)) else {
        unreachable!();
    };
    let suite = key_package.cipher_suite;
    let signature = leaf_signature(alloc, suite, &group_id, 0, &key_package.leaf_node)?;
    let mut list = list_of(alloc, signature)?;
    if let Some(signature) = package_signature(alloc, suite, key_package)? {
        list.push(signature)?;
    }
    Ok(list)
}

/// What the signatures of a message depend on besides the tree.
#[derive(Clone, Copy)]
pub struct GroupEpoch<'a> {
    /// The profile in which the group is followed.
    pub profile: Profile,
    /// The group's context.
    pub context: &'a GroupContext,
    /// The pending proposals.
    pub known: &'a PendingProposals,
    /// The external senders of the group, as [`senders_of`](crate::senders_of) returns them for the context.
    pub senders: &'a Option<ExternalSenders>,
}

/// What the signatures of a message depend on besides the tree, and which of the leaves that a commit replaces or adds are
/// listed.
#[derive(Clone, Copy)]
struct Listing<'a> {
    epoch: &'a GroupEpoch<'a>,
    leaves: NewLeaves,
}

/// What a member has sent.
#[derive(Clone, Copy)]
struct Sent<'a> {
    sender: u32,
    auth: &'a Authenticated,
}

/// Appends the signatures of what a member has sent, if its leaf is non-blank.
fn push_member_signatures(
    alloc: Global,
    listing: &Listing<'_>,
    tree: &mut StagedTree,
    sent: &Sent<'_>,
    list: &mut SignatureList,
) -> Result<(), OutOfMemory>
    requires settled { IsSettled tree.old }
    requires packages { IfFresh listing.now.leaves (are_from_packages listing.now.epoch.now.known.now ≡ true) }
    ensures signatures { let epoch = listing.now.epoch.now in
        OnOk result (AppendsSignatures list.old
        (member_signatures (list_signatures (leaves_of listing.now.leaves)) epoch.context.now epoch.known.now tree.old.tree
        sent.now.auth.now sent.now.sender (leaf_at 0 tree.old.tree sent.now.sender)) list.new) }
    ensures base { tree.new.base ≡ tree.old.base }
    ensures tree { tree.new.tree ≡ tree.old.tree }
    ensures settled { IsSettled tree.new }
{
    let context = listing.epoch.context;
    let sender = sent.sender;
    let auth = sent.auth;
    let Some(leaf) = tree.tree().leaf(sender) else {
        return Ok(());
    };
    let key = leaf.signature_key();
    match &auth.content().content {
        Content::Application(_) => Ok(()),
        Content::Proposal(proposal) => {
            push_framed_content_signature(alloc, context, key, auth, list)?;
            push_proposal_signatures(alloc, context, Sender::Member(sender), proposal, list)
        }
        Content::Commit(commit) => {
            push_framed_content_signature(alloc, context, key, auth, list)?;
            let commit = MemberCommit {
                context,
                committer: sender,
                commit,
                leaves: listing.leaves,
            };
            push_commit_signatures(alloc, &commit, listing.epoch.known, tree, list)
        }
    }
}

/// An AuthenticatedContent of a sender outside the group, with the key of the sender.
#[derive(Clone, Copy)]
struct OutsideFrame<'a> {
    key: &'a [u8],
    auth: &'a Authenticated,
}

/// Appends the signatures of a proposal that a sender outside the group has sent, if the sender may send it.
fn push_outside_proposal_signatures(
    alloc: Global,
    context: &GroupContext,
    frame: &OutsideFrame<'_>,
    proposal: &Proposal,
    list: &mut SignatureList,
) -> Result<(), OutOfMemory>
    ensures { let auth = frame.now.auth.now in
        OnOk result (AppendsSignatures list.old (outside_proposal_signatures context.now auth
        auth.content.sender frame.now.key.now proposal.now) list.new) }
{
    let sender = frame.auth.content().sender;
    if !may_propose(sender, proposal) {
        return Ok(());
    }
    push_framed_content_signature(alloc, context, frame.key, frame.auth, list)?;
    push_proposal_signatures(alloc, context, sender, proposal, list)
}

/// Appends the signatures of what a sender outside the group has sent, if it is a proposal that the sender may send.
fn push_outside_content_signatures(
    alloc: Global,
    context: &GroupContext,
    frame: &OutsideFrame<'_>,
    list: &mut SignatureList,
) -> Result<(), OutOfMemory>
    ensures { let auth = frame.now.auth.now in
        OnOk result (AppendsSignatures list.old (outside_content_signatures context.now auth
        auth.content.sender frame.now.key.now auth.content.content) list.new) }
{
    match &frame.auth.content().content {
        Content::Application(_) => Ok(()),
        Content::Proposal(proposal) => {
            push_outside_proposal_signatures(alloc, context, frame, proposal, list)
        }
        Content::Commit(_) => Ok(()),
    }
}

/// Appends the signatures of what a sender outside the group has sent, if the sender has a key.
fn push_outside_signatures(
    alloc: Global,
    epoch: &GroupEpoch<'_>,
    auth: &Authenticated,
    list: &mut SignatureList,
) -> Result<(), OutOfMemory>
    requires { epoch.now.senders.now ≡ senders_by epoch.now.context.now.extensions }
    ensures { let content = auth.now.content in
        OnOk result (AppendsSignatures list.old (outside_signatures epoch.now.context.now auth.now content.sender
        (outside_key epoch.now.context.now content.sender content.content)) list.new) }
{
    let content = auth.content();
    let Some(key) = outside_key_among(epoch.senders, content.sender, &content.content) else {
        return Ok(());
    };
    let frame = OutsideFrame { key, auth };
    push_outside_content_signatures(alloc, epoch.context, &frame, list)
}

/// Appends the signatures of what a client that joins with a commit has sent, if it is a commit with a path.
fn push_join_signatures(
    alloc: Global,
    context: &GroupContext,
    tree: &mut StagedTree,
    auth: &Authenticated,
    list: &mut SignatureList,
) -> Result<(), OutOfMemory>
    requires { IsSettled tree.old }
    ensures signatures { OnOk result (AppendsSignatures list.old (join_content_signatures context.now tree.old.tree auth.now auth.now.content.content) list.new) }
    ensures base { tree.new.base ≡ tree.old.base }
    ensures tree { tree.new.tree ≡ tree.old.tree }
    ensures settled { IsSettled tree.new }
{
    let commit = match &auth.content().content {
        Content::Application(_) => return Ok(()),
        Content::Proposal(_) => return Ok(()),
        Content::Commit(commit) => commit,
    };
    let Some(path) = &commit.path else {
        return Ok(());
    };
    push_framed_content_signature(alloc, context, path.leaf_node.signature_key(), auth, list)?;
    let external = ExternalCommit {
        context,
        commit,
        path,
    };
    push_external_commit_signature(alloc, &external, tree, list)
}

/// Appends the signatures of what a sender has sent. In the members' profile there are none of a sender outside the group.
fn push_sender_signatures(
    alloc: Global,
    listing: &Listing<'_>,
    tree: &mut StagedTree,
    auth: &Authenticated,
    list: &mut SignatureList,
) -> Result<(), OutOfMemory>
    requires settled { IsSettled tree.old }
    requires senders { listing.now.epoch.now.senders.now ≡ senders_by listing.now.epoch.now.context.now.extensions }
    requires packages { IfFresh listing.now.leaves (are_from_packages listing.now.epoch.now.known.now ≡ true) }
    ensures signatures { let epoch = listing.now.epoch.now in
        OnOk result (AppendsSignatures list.old
        (sender_signatures (list_signatures (leaves_of listing.now.leaves)) epoch.profile epoch.context.now epoch.known.now
        tree.old.tree auth.now auth.now.content.sender) list.new) }
    ensures base { tree.new.base ≡ tree.old.base }
    ensures tree { tree.new.tree ≡ tree.old.tree }
    ensures settled { IsSettled tree.new }
{
    let epoch = listing.epoch;
    match (auth.content().sender, epoch.profile) {
        (Sender::Member(sender), _) => {
            let sent = Sent { sender, auth };
            push_member_signatures(alloc, listing, tree, &sent, list)
        }
        (Sender::External(_), Profile::Full) => {
            push_outside_signatures(alloc, epoch, auth, list)
        }
        (Sender::NewMemberProposal, Profile::Full) => {
            push_outside_signatures(alloc, epoch, auth, list)
        }
        (Sender::NewMemberCommit, Profile::Full) => {
            push_join_signatures(alloc, epoch.context, tree, auth, list)
        }
        _ => Ok(()),
    }
}

/// Appends the signatures of an AuthenticatedContent, if it is of the group and its epoch.
fn push_authenticated_signatures(
    alloc: Global,
    listing: &Listing<'_>,
    tree: &mut StagedTree,
    auth: &Authenticated,
    list: &mut SignatureList,
) -> Result<(), OutOfMemory>
    requires settled { IsSettled tree.old }
    requires senders { listing.now.epoch.now.senders.now ≡ senders_by listing.now.epoch.now.context.now.extensions }
    requires packages { IfFresh listing.now.leaves (are_from_packages listing.now.epoch.now.known.now ≡ true) }
    ensures signatures { let epoch = listing.now.epoch.now in
        OnOk result (AppendsSignatures list.old
        (authenticated_signatures (list_signatures (leaves_of listing.now.leaves)) epoch.profile epoch.context.now
        epoch.known.now tree.old.tree auth.now) list.new) }
    ensures base { tree.new.base ≡ tree.old.base }
    ensures tree { tree.new.tree ≡ tree.old.tree }
    ensures settled { IsSettled tree.new }
{
    let content = auth.content();
    let context = listing.epoch.context;
    if content.group_id.as_slice() != context.group_id.as_slice() {
        return Ok(());
    }
    if content.epoch != context.epoch {
        return Ok(());
    }
    push_sender_signatures(alloc, listing, tree, auth, list)
}

/// Appends the signatures of a message, if it is a PublicMessage.
fn push_message_signatures(
    alloc: Global,
    listing: &Listing<'_>,
    tree: &mut StagedTree,
    message: &Message,
    list: &mut SignatureList,
) -> Result<(), OutOfMemory>
    requires settled { IsSettled tree.old }
    requires senders { listing.now.epoch.now.senders.now ≡ senders_by listing.now.epoch.now.context.now.extensions }
    requires packages { IfFresh listing.now.leaves (are_from_packages listing.now.epoch.now.known.now ≡ true) }
    ensures signatures { let epoch = listing.now.epoch.now in
        OnOk result (AppendsSignatures list.old
        (all_message_signatures (list_signatures (leaves_of listing.now.leaves)) epoch.profile epoch.context.now
        epoch.known.now tree.old.tree message.now) list.new) }
    ensures base { tree.new.base ≡ tree.old.base }
    ensures tree { tree.new.tree ≡ tree.old.tree }
    ensures settled { IsSettled tree.new }
{
    match message {
        Message::Public(public) => {
            push_authenticated_signatures(alloc, listing, tree, public.auth(), list)
        }
        _ => Ok(()),
    }
}

/// Returns the signatures of a message, of which those of a commit's leaves are listed that are to be, without duplicates.
fn listed_signatures(
    alloc: Global,
    listing: &Listing<'_>,
    tree: &mut StagedTree,
    message: &Message,
) -> Result<SignatureList, OutOfMemory>
    requires settled { IsSettled tree.old }
    requires senders { listing.now.epoch.now.senders.now ≡ senders_by listing.now.epoch.now.context.now.extensions }
    requires packages { IfFresh listing.now.leaves (are_from_packages listing.now.epoch.now.known.now ≡ true) }
    ensures signatures { let epoch = listing.now.epoch.now in
        IfOk result (λ list. list ≡ deduplicated
        (all_message_signatures (list_signatures (leaves_of listing.now.leaves)) epoch.profile epoch.context.now
        epoch.known.now tree.old.tree message.now)) }
    ensures base { tree.new.base ≡ tree.old.base }
    ensures tree { tree.new.tree ≡ tree.old.tree }
    ensures settled { IsSettled tree.new }
{
    let mut list = SignatureList::of_group(alloc, &listing.epoch.context.group_id)?;
    match push_message_signatures(alloc, listing, tree, message, &mut list) {
        Ok(()) => list.deduplicated(alloc),
        Err(memory) => {
            drop(list);
            Err(memory)
        }
    }
}

/// Returns the signatures of a message of a group in this epoch, with this tree, without duplicates (RFC 9420, 6): the
/// message's own, if it is a PublicMessage of the group and its epoch; then of an Add the leaf's and the KeyPackage's, and of
/// an Update the leaf's; of a commit those of its proposals by value, and of the leaves that it adds or replaces.
///
/// In the members' profile only messages of members have signatures. In the full profile also the proposals that external
/// senders and new members may send do, if the sender has a key (12.1.8). An external commit with a path has its own, and that
/// of the path's leaf, if its list is one of an external commit and can be applied (12.4.3.2). Some signatures may be returned
/// that no rule checks, as if another rule refuses the message before.
///
/// The proposal list of a commit is applied to the tree and undone, so the tree must have no staged change. Its changes
/// are undone whatever is returned.
///
/// # Errors
///
/// [`OutOfMemory`].
pub fn message_signatures(
    alloc: Global,
    epoch: &GroupEpoch<'_>,
    tree: &mut StagedTree,
    message: &Message,
) -> Result<SignatureList, OutOfMemory>
    requires settled { IsSettled tree.old }
    requires senders { epoch.now.senders.now ≡ senders_by epoch.now.context.now.extensions }
    ensures signatures { IfOk result (λ list. list
        ≡ message_signatures epoch.now.profile epoch.now.context.now epoch.now.known.now tree.old.tree message.now) }
    ensures base { tree.new.base ≡ tree.old.base }
    ensures tree { tree.new.tree ≡ tree.old.tree }
    ensures settled { IsSettled tree.new }
{
    let listing = Listing {
        epoch,
        leaves: NewLeaves::All,
    };
    listed_signatures(alloc, &listing, tree, message)
}

/// Returns those signatures of a message of a group in this epoch, with this tree, that no pending proposal has, without
/// duplicates (RFC 9420, 6): those of [`message_signatures`], except that of the leaves that a commit adds or replaces only those
/// are returned whose signature is not one of a proposal of its list. A checker that accepts the signatures of the pending
/// proposals accepts all others ([`laws::fresh_signatures_suffice`](crate::laws::fresh_signatures_suffice)).
///
/// The leaf node of each pending Add must be from a KeyPackage, as in each Add that a follower accepts (RFC 9420, 10.1). The
/// proposals that a commit names by reference are neither read nor copied nor hashed. The list is applied to the tree and undone, so
/// the tree must have no staged change. Its changes are undone whatever is returned.
///
/// # Errors
///
/// [`OutOfMemory`].
pub fn fresh_message_signatures(
    alloc: Global,
    epoch: &GroupEpoch<'_>,
    tree: &mut StagedTree,
    message: &Message,
) -> Result<SignatureList, OutOfMemory>
    requires settled { IsSettled tree.old }
    requires senders { epoch.now.senders.now ≡ senders_by epoch.now.context.now.extensions }
    requires packages { are_from_packages epoch.now.known.now ≡ true }
    ensures signatures { IfOk result (λ list. list
        ≡ fresh_message_signatures epoch.now.profile epoch.now.context.now epoch.now.known.now tree.old.tree message.now) }
    ensures base { tree.new.base ≡ tree.old.base }
    ensures tree { tree.new.tree ≡ tree.old.tree }
    ensures settled { IsSettled tree.new }
{
    let listing = Listing {
        epoch,
        leaves: NewLeaves::Fresh,
    };
    listed_signatures(alloc, &listing, tree, message)
}
