//! FramedContent.

use crate::bad_tag::bad_tag;
use crate::commit::Commit;
use crate::proposal::Proposal;
use mls_wire::{CodecFault, Decode, Draft, Encode, Opaque, Reader, add_sizes};
use std::alloc::Global;

/// The sender of a message (RFC 9420, 6).
#[derive(Clone, Copy, Debug, PartialEq, Eq)]
pub enum Sender {
    /// The member with this leaf index.
    Member(u32),
    /// The external sender with this index in the `external_senders` extension.
    External(u32),
    /// A client that proposes its own Add.
    NewMemberProposal,
    /// A client that joins by an external commit.
    NewMemberCommit,
}

/// The content of a message (RFC 9420, 6).
#[derive(Debug, Drop)]
pub enum Content {
    /// Application data.
    Application(Opaque),
    /// A proposal.
    Proposal(Proposal),
    /// A commit.
    Commit(Commit),
}

/// A FramedContent (RFC 9420, 6).
#[derive(Debug)]
pub struct FramedContent {
    /// The group ID.
    pub group_id: Opaque,
    /// The epoch in which it was sent.
    pub epoch: u64,
    /// The sender.
    pub sender: Sender,
    /// The authenticated data, which the signature covers.
    pub authenticated: Opaque,
    /// The content.
    pub content: Content,
}

// Implemented by hand, so that proofs of callers see a drop as one call.
impl Drop for FramedContent {
    fn drop(self) {
        let FramedContent {
            group_id: _,
            epoch: _,
            sender: _,
            authenticated: _,
            content: _,
        } = self;
    }
}

impl Sender {
    ghost use Rattle.std.specs.Prelude.{◌≡◌};
    ghost use Rattle.mls_msgs.specs.Layout.{is_member};

    /// Returns whether the sender is a member.
    pub(crate) fn is_member(self) -> bool
        ensures { result ≡ is_member self }
    {
        match self {
            Sender::Member(_) => true,
            _ => false,
        }
    }
}

impl Content {
    ghost use Rattle.std.specs.Prelude.{◌≡◌};
    ghost use Rattle.mls_msgs.specs.Layout.{is_commit};

    /// Returns whether the content is a commit.
    pub(crate) fn is_commit(&self) -> bool
        ensures { result ≡ is_commit self.now }
    {
        match self {
            Content::Commit(_) => true,
            _ => false,
        }
    }
}

impl Decode for Sender {
    ghost use Rattle.mls_msgs.specs.Layout.{sender};
    ghost use Rattle.mls_msgs.specs.Parsing.{sender_at};
    ghost use Rattle.mls_msgs.specs.FrameExact.{sender_exact, sender_long};

    ghost encoding = { sender };

    ghost reading = { sender_at };

    #[tactic(auto, unfolding(crate::specs::Parsing::sender_at))]
    fn read(alloc: Global, reader: &mut Reader<'_>) -> Result<Sender, CodecFault> {
        let mut ahead = reader.fork();
        let sender = match u8::read(alloc, &mut ahead)? {
            1 => Sender::Member(u32::read(alloc, &mut ahead)?),
            2 => Sender::External(u32::read(alloc, &mut ahead)?),
            3 => Sender::NewMemberProposal,
            4 => Sender::NewMemberCommit,
            kind => return Err(bad_tag(u16::from(kind), reader.position())),
        };
        *reader = ahead;
        Ok(sender)
    }

    ghost exact = { sender_exact };

    ghost long = { sender_long };
}

impl Encode for Sender {
    #[tactic(auto, using(mls_nodes::specs::TagSizes::tag_sizes), unfolding(crate::specs::Layout::sender))]
    fn size(&self) -> Option<usize> {
        match self {
            Sender::Member(leaf_index) => add_sizes(Some(1), leaf_index.size()),
            Sender::External(sender_index) => add_sizes(Some(1), sender_index.size()),
            Sender::NewMemberProposal | Sender::NewMemberCommit => Some(1),
        }
    }

    #[tactic(auto, using(mls_wire::specs::WriteSequences::written), unfolding(crate::specs::Layout::sender))]
    fn put(&self, _alloc: Global, draft: &mut Draft) -> Result<(), CodecFault> {
        match self {
            Sender::Member(leaf_index) => {
                draft.put_u8(1)?;
                draft.put_u32(*leaf_index)
            }
            Sender::External(sender_index) => {
                draft.put_u8(2)?;
                draft.put_u32(*sender_index)
            }
            Sender::NewMemberProposal => draft.put_u8(3),
            Sender::NewMemberCommit => draft.put_u8(4),
        }
    }
}

impl Decode for Content {
    ghost use Rattle.mls_msgs.specs.Layout.{content};
    ghost use Rattle.mls_msgs.specs.Parsing.{content_at};
    ghost use Rattle.mls_msgs.specs.FrameExact.{content_exact, content_long};

    ghost encoding = { content };

    ghost reading = { content_at };

    #[tactic(auto, unfolding(crate::specs::Parsing::content_at))]
    fn read(alloc: Global, reader: &mut Reader<'_>) -> Result<Content, CodecFault> {
        let mut ahead = reader.fork();
        let content = match u8::read(alloc, &mut ahead)? {
            1 => Content::Application(Opaque::read(alloc, &mut ahead)?),
            2 => Content::Proposal(Proposal::read(alloc, &mut ahead)?),
            3 => Content::Commit(Commit::read(alloc, &mut ahead)?),
            kind => return Err(bad_tag(u16::from(kind), reader.position())),
        };
        *reader = ahead;
        Ok(content)
    }

    ghost exact = { content_exact };

    ghost long = { content_long };
}

impl Encode for Content {
    #[tactic(auto, using(mls_nodes::specs::TagSizes::tag_sizes), unfolding(crate::specs::Layout::content))]
    fn size(&self) -> Option<usize> {
        match self {
            Content::Application(data) => add_sizes(Some(1), data.size()),
            Content::Proposal(proposal) => add_sizes(Some(1), proposal.size()),
            Content::Commit(commit) => add_sizes(Some(1), commit.size()),
        }
    }

    #[tactic(auto, using(mls_wire::specs::WriteSequences::written), unfolding(crate::specs::Layout::content))]
    fn put(&self, alloc: Global, draft: &mut Draft) -> Result<(), CodecFault> {
        match self {
            Content::Application(data) => {
                draft.put_u8(1)?;
                data.put(alloc, draft)
            }
            Content::Proposal(proposal) => {
                draft.put_u8(2)?;
                proposal.put(alloc, draft)
            }
            Content::Commit(commit) => {
                draft.put_u8(3)?;
                commit.put(alloc, draft)
            }
        }
    }
}

impl Decode for FramedContent {
    ghost use Rattle.mls_msgs.specs.Layout.{framed_content};
    ghost use Rattle.mls_msgs.specs.Parsing.{framed_content_at};
    ghost use Rattle.mls_msgs.specs.FrameExact.{framed_content_exact, framed_content_long};

    ghost encoding = { framed_content };

    ghost reading = { framed_content_at };

    #[tactic(auto, unfolding(crate::specs::Parsing::framed_content_at))]
    fn read(alloc: Global, reader: &mut Reader<'_>) -> Result<FramedContent, CodecFault> {
        let mut ahead = reader.fork();
        let group_id = Opaque::read(alloc, &mut ahead)?;
        let epoch = u64::read(alloc, &mut ahead)?;
        let sender = Sender::read(alloc, &mut ahead)?;
        let authenticated = Opaque::read(alloc, &mut ahead)?;
        let content = Content::read(alloc, &mut ahead)?;
        *reader = ahead;
        Ok(FramedContent {
            group_id,
            epoch,
            sender,
            authenticated,
            content,
        })
    }

    ghost exact = { framed_content_exact };

    ghost long = { framed_content_long };
}

impl Encode for FramedContent {
    #[tactic(auto, using(mls_nodes::specs::TagSizes::tag_sizes), unfolding(crate::specs::Layout::framed_content))]
    fn size(&self) -> Option<usize> {
        add_sizes(
            self.group_id.size(),
            add_sizes(
                self.epoch.size(),
                add_sizes(
                    self.sender.size(),
                    add_sizes(self.authenticated.size(), self.content.size()),
                ),
            ),
        )
    }

    #[tactic(auto, using(mls_wire::specs::WriteSequences::written), unfolding(crate::specs::Layout::framed_content))]
    fn put(&self, alloc: Global, draft: &mut Draft) -> Result<(), CodecFault> {
        self.group_id.put(alloc, draft)?;
        draft.put_u64(self.epoch)?;
        self.sender.put(alloc, draft)?;
        self.authenticated.put(alloc, draft)?;
        self.content.put(alloc, draft)
    }
}
