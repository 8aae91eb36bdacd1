//! A proposal that was sent, and a commit before and after its proposal list is resolved (RFC 9420, 12.4). With each is the
//! refusal by the first of the rules after those of the profile that its message does not meet by itself.

ghost use Rattle.std.specs.Prelude.{IsSome, IsTrue};
ghost use Rattle.mls_msgs.specs.Layout.{is_commit};
ghost use Rattle.mls_msgs.specs.Tbs.{confirmed_input};
ghost use Rattle.mls_follow.specs.CommitTree.{IsListed, IsListed-prop};

use mls_apply::{ListItem, PendingProposals, Refusal};
use mls_msgs::{Authenticated, Commit, Proposal, Sender, UpdatePath};

/// A message that a member has sent and signed: its AuthenticatedContent, and the member.
#[derive(Clone, Copy)]
pub(crate) struct MemberMessage<'a> {
    pub(crate) auth: &'a Authenticated,
    pub(crate) late: Option<Refusal>,
    pub(crate) sender: u32,
}

/// A proposal that was sent and signed: its AuthenticatedContent, the sender, and the proposal.
#[derive(Clone, Copy)]
pub(crate) struct SentProposal<'a> {
    pub(crate) auth: &'a Authenticated,
    pub(crate) late: Option<Refusal>,
    pub(crate) sender: Sender,
    pub(crate) proposal: &'a Proposal,
}

/// A member's commit that was decoded: the member, the commit, and the pending proposals that its list may name.
#[derive(Clone, Copy)]
pub(crate) struct ReceivedCommit<'a> {
    pub(crate) late: Option<Refusal>,
    pub(crate) committer: u32,
    pub(crate) commit: &'a Commit,
    pub(crate) known: &'a PendingProposals,
}

/// A commit whose proposal list is resolved and satisfies its rules: its AuthenticatedContent, the committer, the list, and its
/// path. The committer is a member, or a client that joins (RFC 9420, 12.4.3.2).
#[derive(Drop)]
pub(crate) struct ResolvedCommit<'a> {
    pub(crate) auth: &'a Authenticated,
    pub(crate) late: Option<Refusal>,
    pub(crate) committer: Sender,
    pub(crate) items: Vec<ListItem<'a>>,
    pub(crate) path: &'a Option<UpdatePath>,
    ghost commit: { IsTrue (is_commit auth.now.content.content) },
    ghost hashed: { IsSome (confirmed_input auth.now) },
    ghost listed: { IsListed committer items.items path.now } by { IsListed-prop committer items.items path.now },
}
