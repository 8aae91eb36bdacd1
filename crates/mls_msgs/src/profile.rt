//! Profiles: the proposal types that are decoded (own rule).

ghost use Rattle.std.specs.Prelude.{◌≡◌, ◌<◌, length, Some, Err, true, OnOk};
ghost use Rattle.std.specs.Result.{IsErr};
ghost use Rattle.mls_wire.specs.Parsing.{items_at};
ghost use Rattle.mls_msgs.specs.Parsing.{proposal_at, proposal_or_ref_at, commit_at, content_at, framed_content_at};
ghost use Rattle.mls_msgs.specs.MembersReading.{passes, entries_pass};
ghost use Rattle.mls_msgs.specs.Profile.{is_members_proposal, is_members_entry, are_members_entries, is_members_content, is_members_authenticated, is_members_message, is_in, fault_among};

use crate::authenticated::Authenticated;
use crate::bad_tag::bad_tag;
use crate::framed_content::{Content, Sender};
use crate::message::Message;
use crate::proposal::{Proposal, ProposalOrRef};
use mls_wire::{CodecFault, Decode, Opaque, Reader, WireFault};
use std::alloc::Global;

/// The proposal types that are decoded (own rule).
#[derive(Clone, Copy, Debug, PartialEq, Eq)]
pub enum Profile {
    /// The types add 1, update 2, remove 3 and group_context_extensions 7. This is the profile of every call that names
    /// none.
    Members,
    /// The types of the members' profile, and psk 4, reinit 5 and external_init 6.
    Full,
}

impl Profile {
    /// Returns whether a value is in the profile. `of_members` must say whether it is in the members' profile.
    pub(crate) fn has(self, of_members: bool) -> bool
        ensures { result ≡ is_in self of_members }
    {
        match self {
            Profile::Members => of_members,
            Profile::Full => true,
        }
    }
}

/// Returns whether a proposal is in the members' profile.
fn is_members_proposal(proposal: &Proposal) -> bool
    ensures { result ≡ is_members_proposal proposal.now }
{
    match proposal {
        Proposal::Add(_) => true,
        Proposal::Update(_) => true,
        Proposal::Remove(_) => true,
        Proposal::PreSharedKey(_) => false,
        Proposal::ReInit(_) => false,
        Proposal::ExternalInit(_) => false,
        Proposal::ContextExtensions(_) => true,
    }
}

/// Returns whether an entry of a proposal list is in the members' profile. A reference is.
fn is_members_entry(entry: &ProposalOrRef) -> bool
    ensures { result ≡ is_members_entry entry.now }
{
    match entry {
        ProposalOrRef::Proposal(proposal) => is_members_proposal(proposal),
        ProposalOrRef::Reference(_) => true,
    }
}

/// Returns whether each entry of a proposal list is in the members' profile.
fn are_members_entries(entries: &[ProposalOrRef]) -> bool
    ensures { result ≡ are_members_entries entries.now }
{
    for entry in entries {
        if !is_members_entry(entry) {
            return false;
        }
    }
    true
}

/// Returns whether a content is in the members' profile: each proposal in it is.
fn is_members_content(content: &Content) -> bool
    ensures { result ≡ is_members_content content.now }
{
    match content {
        Content::Application(_) => true,
        Content::Proposal(proposal) => is_members_proposal(proposal),
        Content::Commit(commit) => are_members_entries(commit.proposals.as_slice()),
    }
}

/// Returns whether an AuthenticatedContent is in the members' profile: each proposal in it is.
fn is_members_authenticated(auth: &Authenticated) -> bool
    ensures { result ≡ is_members_authenticated auth.now }
{
    is_members_content(&auth.content().content)
}

impl Profile {
    /// Returns whether a proposal is in the profile.
    pub fn has_proposal(self, proposal: &Proposal) -> bool
        ensures { result ≡ is_in self (is_members_proposal proposal.now) }
    {
        self.has(is_members_proposal(proposal))
    }

    /// Returns whether each proposal of an AuthenticatedContent is in the profile.
    pub fn has_authenticated(self, auth: &Authenticated) -> bool
        ensures { result ≡ is_in self (is_members_authenticated auth.now) }
    {
        self.has(is_members_authenticated(auth))
    }

    /// Returns whether each proposal of a message is in the profile.
    pub fn has_message(self, message: &Message) -> bool
        ensures { result ≡ is_in self (is_members_message message.now) }
    {
        match message {
            Message::Public(public) => self.has_authenticated(public.auth()),
            Message::Unread { .. } => self.has(true),
            Message::GroupInfo(_) => self.has(true),
            Message::KeyPackage(_) => self.has(true),
        }
    }

    /// Returns the fault of bytes that are refused: in the members' profile that of `checked`, if it has one, and
    /// `otherwise` if not. `checked` must be what a reader of the members' profile found up to the end of the
    /// proposals.
    pub(crate) fn fault_of(
        self,
        checked: Result<(), CodecFault>,
        otherwise: WireFault,
    ) -> CodecFault
        ensures { result ≡ fault_among self checked otherwise }
    {
        match (self, checked) {
            (Profile::Members, Err(fault)) => fault,
            _ => CodecFault::Wire(otherwise),
        }
    }
}

/// Returns the fault of a judgement that found one.
pub(crate) fn fault_found(checked: Result<(), CodecFault>) -> CodecFault
    requires { IsErr checked }
    ensures { checked ≡ Err result }
{
    match checked {
        Ok(()) => unreachable!(),
        Err(fault) => fault,
    }
}

/// Refuses a proposal type outside the members' profile: `BadTag` at its offset. Nothing after the type is read.
pub(crate) fn check_proposal(alloc: Global, reader: &Reader<'_>) -> Result<(), CodecFault>
    ensures { OnOk result (passes is_members_proposal (proposal_at reader.now) ≡ true) }
{
    let mut ahead = reader.fork();
    let kind = u16::read(alloc, &mut ahead)?;
    if kind == 4 || kind == 5 || kind == 6 {
        return Err(bad_tag(kind, reader.position()));
    }
    Ok(())
}

/// Refuses an entry of a proposal list whose proposal type is outside the members' profile, as [`check_proposal`] does.
fn check_entry(alloc: Global, reader: &Reader<'_>) -> Result<(), CodecFault>
    ensures { OnOk result (passes is_members_entry (proposal_or_ref_at reader.now) ≡ true) }
{
    let mut ahead = reader.fork();
    let kind = u8::read(alloc, &mut ahead)?;
    if kind == 1 {
        return check_proposal(alloc, &ahead);
    }
    Ok(())
}

/// Skips a value.
#[tactic(auto, using(mls_wire::specs::ListLoops::shortens))]
fn skip<T: Decode>(alloc: Global, reader: &mut Reader<'_>) -> Result<(), CodecFault>
    ensures read { OnOk result ((x : T) × (T.reading reader.old ≡ Some (x, reader.new))) }
    ensures shorter { OnOk result (length reader.new.left < length reader.old.left) }
{
    let _value = T::read(alloc, reader)?;
    Ok(())
}

/// Refuses the first entry of a proposal list that cannot be read, or whose proposal type is outside the members'
/// profile.
fn check_list(alloc: Global, mut body: Reader<'_>) -> Result<(), CodecFault>
    ensures { OnOk result (entries_pass
        (items_at proposal_or_ref_at (length body.entry.left) body.entry) ≡ true) }
{
    while !body.at_end() {
        check_entry(alloc, &body)?;
        skip::<ProposalOrRef>(alloc, &mut body)?;
    }
    Ok(())
}

/// Refuses a commit as [`check_list`] refuses its list.
fn check_commit(alloc: Global, mut reader: Reader<'_>) -> Result<(), CodecFault>
    ensures { OnOk result
        (passes (λ c. are_members_entries c.proposals) (commit_at reader.entry) ≡ true) }
{
    let body = reader.read_sub()?;
    check_list(alloc, body)
}

/// Refuses a content that cannot be read up to the end of its proposals, or that has a proposal type outside the
/// members' profile.
fn check_content(alloc: Global, mut reader: Reader<'_>) -> Result<(), CodecFault>
    ensures { OnOk result (passes is_members_content (content_at reader.entry) ≡ true) }
{
    let kind = u8::read(alloc, &mut reader)?;
    if kind == 2 {
        return check_proposal(alloc, &reader);
    }
    if kind == 3 {
        return check_commit(alloc, reader);
    }
    Ok(())
}

/// Refuses a FramedContent that cannot be read up to the end of its proposals, or that has a proposal type outside the
/// members' profile. Nothing after such a type is read.
pub(crate) fn check_frame(alloc: Global, mut reader: Reader<'_>) -> Result<(), CodecFault>
    ensures { OnOk result (passes (λ f. is_members_content f.content)
        (framed_content_at reader.entry) ≡ true) }
{
    skip::<Opaque>(alloc, &mut reader)?;
    skip::<u64>(alloc, &mut reader)?;
    skip::<Sender>(alloc, &mut reader)?;
    skip::<Opaque>(alloc, &mut reader)?;
    check_content(alloc, reader)
}
