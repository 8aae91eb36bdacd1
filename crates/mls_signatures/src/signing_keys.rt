//! Under which key the signature of a FramedContent is verified, and which proposals a sender may send (RFC 9420, 6.1 and
//! 12.1.8).

ghost use Rattle.std.specs.Prelude.{◌≡◌, IfOk, IfSome, None, OnErr, option_map};
ghost use Rattle.mls_nodes.specs.ExternalSenders.{senders_by};
ghost use Rattle.mls_signatures.specs.SigningKeys.{added_signature_key, committer_key, external_key_among, is_external_proposal, joiner_key, external_sender_key, may_propose, outside_key_among, path_key, signed_context};

use mls_check::OutOfMemory;
use mls_msgs::{Content, Proposal, Sender, UpdatePath};
use mls_nodes::{Extensions, ExternalSender, ExternalSenders, GroupContext, external_senders};
use mls_wire::{CodecFault, Opaque};
use std::alloc::Global;

/// Returns the context that is signed with the content of this sender: that of the group if the sender is a member or joins
/// with a commit (RFC 9420, 6.1: FramedContentTBS).
pub fn signed_context(context: &GroupContext, sender: Sender) -> Option<&GroupContext>
    ensures { option_map (λ c. c.now) result ≡ signed_context context.now sender }
{
    match sender {
        Sender::Member(_) => Some(context),
        Sender::External(_) => None,
        Sender::NewMemberProposal => None,
        Sender::NewMemberCommit => Some(context),
    }
}

/// Returns the external senders of a group with these extensions (RFC 9420, 12.1.8.1), `None` if the extension
/// external_senders cannot be read.
///
/// # Errors
///
/// [`OutOfMemory`].
#[tactic(auto, using(crate::proofs::ExternalKeys::senders_read, crate::proofs::ExternalKeys::senders_unread))]
pub fn senders_of(
    alloc: Global,
    extensions: &Extensions,
) -> Result<Option<ExternalSenders>, OutOfMemory>
    ensures { IfOk result (λ senders. senders ≡ senders_by extensions.now) }
{
    match external_senders(alloc, extensions) {
        Ok(senders) => Ok(Some(senders)),
        Err(CodecFault::Wire(_)) => Ok(None),
        Err(CodecFault::OutOfMemory) => Err(OutOfMemory),
    }
}

/// Returns a copy of a key or a signature.
pub(crate) fn opaque_of(alloc: Global, bytes: &[u8]) -> Result<Opaque, OutOfMemory>
    ensures { IfOk result (λ copy. copy ≡ bytes.now) }
{
    match Opaque::copy(alloc, bytes) {
        Ok(copy) => Ok(copy),
        Err(_) => Err(OutOfMemory),
    }
}

/// The signature key of the external sender with this index.
#[tactic(auto, using(crate::proofs::ExternalKeys::key_there, crate::proofs::ExternalKeys::key_past))]
fn external_sender_key(senders: &[ExternalSender], index: u32) -> Option<&[u8]>
    ensures { option_map (λ key. key.now) result ≡ external_sender_key senders.now index }
{
    match senders.get(index as usize) {
        Some(sender) => Some(sender.signature_key.as_slice()),
        None => None,
    }
}

/// Returns the signature key of the external sender with this index (RFC 9420, 12.1.8), if there is one, among those that
/// [`senders_of`] returned. The first sender has the index 0. There is none if the extension external_senders cannot be read.
/// Does not allocate.
pub fn external_key_among(senders: &Option<ExternalSenders>, index: u32) -> Option<&[u8]>
    ensures { option_map (λ key. key.now) result ≡ external_key_among senders.now index }
{
    match senders {
        Some(senders) => external_sender_key(senders.as_slice(), index),
        None => None,
    }
}

/// The signature key of the client that an Add adds.
fn added_signature_key(proposal: &Proposal) -> Option<&[u8]>
    ensures { option_map (λ key. key.now) result ≡ added_signature_key proposal.now }
{
    match proposal {
        Proposal::Add(key_package) => Some(key_package.leaf_node.signature_key()),
        Proposal::Update(_) => None,
        Proposal::Remove(_) => None,
        Proposal::ContextExtensions(_) => None,
        Proposal::PreSharedKey(_) => None,
        Proposal::ReInit(_) => None,
        Proposal::ExternalInit(_) => None,
    }
}

/// The signature key of a client that proposes its own Add.
fn joiner_key(content: &Content) -> Option<&[u8]>
    ensures { option_map (λ key. key.now) result ≡ joiner_key content.now }
{
    match content {
        Content::Application(_) => None,
        Content::Proposal(proposal) => added_signature_key(proposal),
        Content::Commit(_) => None,
    }
}

/// The signature key of the leaf node of a path, if there is one.
fn path_key(path: &Option<UpdatePath>) -> Option<&[u8]>
    ensures { option_map (λ key. key.now) result ≡ path_key path.now }
{
    match path {
        Some(path) => Some(path.leaf_node.signature_key()),
        None => None,
    }
}

/// The signature key of a client that joins with a commit: that of its path's leaf node.
fn committer_key(content: &Content) -> Option<&[u8]>
    ensures { option_map (λ key. key.now) result ≡ committer_key content.now }
{
    match content {
        Content::Application(_) => None,
        Content::Proposal(_) => None,
        Content::Commit(commit) => path_key(&commit.path),
    }
}

/// Returns the key under which the signature of a content of a sender outside the group is verified (RFC 9420, 6.1, 12.1.8
/// and 12.4.3.2), if there is one. It is that of the external sender among those that [`senders_of`] returned, of the client
/// that proposes its own Add, or of the path's leaf node of a client that joins with a commit. Does not allocate.
pub fn outside_key_among<'a>(
    senders: &'a Option<ExternalSenders>,
    sender: Sender,
    content: &'a Content,
) -> Option<&'a [u8]>
    ensures { option_map (λ key. key.now) result ≡ outside_key_among senders.now sender content.now }
{
    match sender {
        Sender::Member(_) => None,
        Sender::External(index) => external_key_among(senders, index),
        Sender::NewMemberProposal => joiner_key(content),
        Sender::NewMemberCommit => committer_key(content),
    }
}

/// Whether an external sender may send a proposal.
fn is_external_proposal(proposal: &Proposal) -> bool
    ensures { result ≡ is_external_proposal proposal.now }
{
    match proposal {
        Proposal::Add(_) => true,
        Proposal::Update(_) => false,
        Proposal::Remove(_) => true,
        Proposal::ContextExtensions(_) => true,
        Proposal::PreSharedKey(_) => true,
        Proposal::ReInit(_) => true,
        Proposal::ExternalInit(_) => false,
    }
}

/// Returns whether a sender may send a proposal (RFC 9420, 6.1 and 12.1.8). A member may send any; an external sender no
/// Update and no ExternalInit; a client that proposes to join only an Add; a client that joins with a commit none.
pub fn may_propose(sender: Sender, proposal: &Proposal) -> bool
    ensures { result ≡ may_propose sender proposal.now }
{
    match sender {
        Sender::Member(_) => true,
        Sender::External(_) => is_external_proposal(proposal),
        Sender::NewMemberProposal => added_signature_key(proposal).is_some(),
        Sender::NewMemberCommit => false,
    }
}
