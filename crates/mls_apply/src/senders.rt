//! Senders of proposals (RFC 9420, 6 and 12.1.8).

ghost use Rattle.std.specs.Prelude.{◌≡◌, option_map};
ghost use Rattle.mls_msgs.specs.Layout.{is_member};
ghost use Rattle.mls_apply.specs.Senders.{is_present, is_same_sender, member_index, sender_leaf};

use mls_msgs::Sender;
use mls_nodes::EncodedLeaf;
use mls_tree::PublicTree;

/// Whether a sender is a member.
pub(crate) fn is_member(sender: Sender) -> bool
    ensures { result ≡ is_member sender }
{
    match sender {
        Sender::Member(_) => true,
        Sender::External(_) => false,
        Sender::NewMemberProposal => false,
        Sender::NewMemberCommit => false,
    }
}

/// The leaf index of a sender that is a member.
pub(crate) fn member_index(sender: Sender) -> Option<u32>
    ensures { result ≡ member_index sender }
{
    match sender {
        Sender::Member(index) => Some(index),
        Sender::External(_) => None,
        Sender::NewMemberProposal => None,
        Sender::NewMemberCommit => None,
    }
}

/// The leaf node of a sender that is a member, if it is non-blank.
pub(crate) fn sender_leaf(tree: &PublicTree, sender: Sender) -> Option<&EncodedLeaf>
    ensures { option_map (λ x. x.now) result ≡ sender_leaf tree.now.tree sender }
{
    match member_index(sender) {
        Some(index) => tree.leaf(index),
        None => None,
    }
}

/// Whether the leaf of a sender is non-blank, if the sender is a member.
pub(crate) fn is_present(tree: &PublicTree, sender: Sender) -> bool
    ensures { result ≡ is_present tree.now.tree sender }
{
    match sender {
        Sender::Member(index) => tree.leaf(index).is_some(),
        Sender::External(_) => true,
        Sender::NewMemberProposal => true,
        Sender::NewMemberCommit => true,
    }
}

/// Whether two senders are the same.
pub(crate) fn is_same_sender(one: Sender, other: Sender) -> bool
    ensures { result ≡ is_same_sender one other }
{
    match (one, other) {
        (Sender::Member(index), Sender::Member(other_index)) => index == other_index,
        (Sender::External(index), Sender::External(other_index)) => index == other_index,
        (Sender::NewMemberProposal, Sender::NewMemberProposal) => true,
        (Sender::NewMemberCommit, Sender::NewMemberCommit) => true,
        _ => false,
    }
}
