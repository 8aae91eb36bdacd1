//! Why a message is refused, or a part of it: the numbers, names and sentences of the refusals.

use crate::fault::ApplyFault;
use mls_check::{MemberFault, OutOfMemory};
use mls_msgs::StrictRule;
use std::alloc::{AllocError, AllocFailed};
use thiserror::Error;

/// Why a message is refused: the first rule that it fails. A proposal, a proposal list or an update path alone is refused
/// for the same rules. docs/FORMATS.md has the rules in their order. The variants are in the order of their numbers.
#[derive(Clone, Copy, Debug, PartialEq, Eq, Error)]
pub enum Refusal {
    /// The bytes are the encoding of no message, or more than 268,435,456 (RFC 9420, 6).
    #[error("the bytes encode no message")]
    Malformed,
    /// The message is not a PublicMessage: its wire format is not 1 (RFC 9420, 6).
    #[error("the message is not a PublicMessage")]
    NotPublic,
    /// The message's group id is not that of the GroupContext (RFC 9420, 6.1).
    #[error("the message is of another group")]
    WrongGroup,
    /// The message's epoch is not the current one (RFC 9420, 6.1).
    #[error("the message is of another epoch")]
    WrongEpoch,
    /// The leaf of a member that sends is blank, or the tree has no such leaf (RFC 9420, 6.1). In the members' profile also:
    /// the sender is no member (own rule).
    #[error("the sender is no member")]
    SenderNotMember,
    /// The content is application data, which is never sent as a PublicMessage (RFC 9420, 6.2).
    #[error("the message is no proposal and no commit")]
    NotHandshake,
    /// The signature of the message is not good under the sender's key (RFC 9420, 6.1, 12.1.8 and 12.4.3.2). It is that of a
    /// member's leaf, of the external sender in the GroupContext, of the leaf node in the Add of a client that proposes to join,
    /// or of the path's leaf node of a client that joins with a commit.
    #[error("the message's signature is not good")]
    BadSignature,
    /// A proposal that is pending already, by its reference (RFC 9420, 5.2; own rule).
    #[error("the proposal is pending already")]
    KnownProposal,
    /// The KeyPackage of an Add is not valid (RFC 9420, 10.1 and 12.1.1): it is of another version or cipher suite than
    /// the group, the source of its leaf node is not key_package, its init key is the leaf's encryption key, or one of
    /// its two signatures is not good.
    #[error("an added key package is not valid")]
    AddInvalid,
    /// The leaf node of an Update is not valid (RFC 9420, 7.3 and 12.1.2): its source is not update, it has the
    /// encryption key of the sender's current leaf, or its signature is not good.
    #[error("an updated leaf is not valid")]
    UpdateInvalid,
    /// The leaf of a Remove is blank (RFC 9420, 12.1.3).
    #[error("a removed leaf is blank")]
    RemoveInvalid,
    /// A commit in epoch 18,446,744,073,709,551,615, the largest that a GroupContext can hold (RFC 9420, 8.1; own
    /// rule).
    #[error("the epoch is the last one")]
    LastEpoch,
    /// A commit refers to a proposal that is not pending (RFC 9420, 12.4).
    #[error("a proposal is not known")]
    UnknownReference,
    /// The proposal list of a commit has an Update of the committer's leaf (RFC 9420, 12.2).
    #[error("the committer updates its own leaf")]
    UpdateByCommitter,
    /// The proposal list of a commit removes the committer (RFC 9420, 12.2).
    #[error("the committer is removed")]
    RemovesCommitter,
    /// Two Updates or Removes of a proposal list apply to one leaf (RFC 9420, 12.2).
    #[error("two Update or Remove proposals apply to one leaf")]
    SameLeafTwice,
    /// A commit has no path, and its list is empty or has an Update, a Remove or a GroupContextExtensions (RFC 9420,
    /// 12.4). Or an external commit has no path (12.4.3.2).
    #[error("a path is missing")]
    PathMissing,
    /// The group would have more than 1,048,576 members, or an unmerged list more than 1,048,576 entries (own limits).
    #[error("a tree has at most 1,048,576 leaves")]
    TooManyLeaves,
    /// The number of nodes of a path is not that of the committer's filtered direct path (RFC 9420, 7.6).
    #[error("a path has another number of nodes than the filtered direct path")]
    PathLength,
    /// The source of a path's leaf node is not commit (RFC 9420, 7.3 and 12.4.2).
    #[error("the leaf of a path is not meant for a commit")]
    PathSource,
    /// A key of a path is in the tree, or twice in the path (RFC 9420, 12.4.2).
    #[error("a key of a path is used already")]
    PathKeyUsed,
    /// The number of ciphertexts of a path node is not that of the nodes of its resolution, without the leaves that the
    /// commit adds (RFC 9420, 7.6).
    #[error("a node of a path has another number of ciphertexts than its resolution")]
    CiphertextCount,
    /// The parent hash of a path's leaf node is not the expected one (RFC 9420, 7.9.2).
    #[error("the parent hash of a path's leaf is not the one expected")]
    PathParentHash,
    /// Two nodes of the tree after a commit have one encryption key (RFC 9420, 7.3 and 12.4.3.1).
    #[error("two nodes have one encryption key")]
    KeyRepeated,
    /// A leaf node of the tree after a commit is not valid, for this fault (RFC 9420, 7.3). It is checked under what
    /// the context requires after the commit.
    #[error("{0}")]
    Member(MemberFault),
    /// A proposal list has two GroupContextExtensions proposals (RFC 9420, 12.2).
    #[error("the proposal list has two GroupContextExtensions proposals")]
    TwoContextExtensions,
    /// The required capabilities of a GroupContextExtensions proposal cannot be read (RFC 9420, 11.1 and 12.1.7).
    #[error("the required capabilities of a GroupContextExtensions proposal can't be read")]
    ContextExtensionsInvalid,
    /// The group is over: a commit with a ReInit was accepted (RFC 9420, 11.2 and 12.1.5).
    #[error("the group is over")]
    GroupOver,
    /// The extension external_senders of the GroupContext has no sender with this index, or cannot be read (RFC 9420,
    /// 12.1.8).
    #[error("the external sender is not known")]
    UnknownExternal,
    /// The sender may not send the content (RFC 9420, 6.1, 12.1.8 and 12.4.3.2): an external sender an Update, an ExternalInit
    /// or a commit; a client that proposes to join anything but an Add; one that joins with a commit a proposal.
    #[error("the sender may not send this")]
    SenderContent,
    /// The nonce of a PreSharedKey has not the length of the suite's hash; or its usage is reinit or branch, and the epoch is
    /// not 0 or the sender no member (RFC 9420, 12.1.4).
    #[error("a PreSharedKey proposal is not valid")]
    PskInvalid,
    /// The version of a ReInit is less than the group's (RFC 9420, 12.1.5).
    #[error("a reinitialization is to an earlier version")]
    ReInitInvalid,
    /// An ExternalInit is outside an external commit (RFC 9420, 12.1.6).
    #[error("an external init is outside an external commit")]
    ExternalInitMisplaced,
    /// Two PreSharedKeys of a proposal list have equal PreSharedKeyIDs, nonce and all (RFC 9420, 12.2).
    #[error("two PreSharedKey proposals have one PreSharedKeyID")]
    PskTwice,
    /// A proposal list has a ReInit and another proposal (RFC 9420, 12.2).
    #[error("a reinitialization is not alone")]
    ReInitNotAlone,
    /// The list of an external commit has not one ExternalInit, or two Removes, or a proposal of another type than
    /// ExternalInit, Remove and PreSharedKey, or a reference (RFC 9420, 12.2 and 12.4.3.2).
    #[error("the list of an external commit is not one")]
    JoinList,
    /// The leaf that an external commit removes has the encryption key of the path's leaf, or neither its credential nor its
    /// signature key (RFC 9420, 12.4.3.2).
    #[error("an external commit removes another client than its own")]
    ResyncInvalid,
    /// A strict rule of the follower's set is not met (own rule). These are checked after the rules of the profile.
    #[error("{0}")]
    Strict(StrictRule),
    /// The message adds a client by a KeyPackage whose lifetime does not include the time that was passed (RFC 9420, 7.2
    /// and 10.1). It is the last to be checked.
    #[error("an added key package is not valid at this time")]
    LifetimeOutside,
    /// An allocation failed. It says nothing of the message.
    #[error("out of memory")]
    OutOfMemory,
}

impl Refusal {
    ghost use Rattle.std.specs.Prelude.{◌≡◌};
    ghost use Rattle.mls_apply.specs.Refusals.{number_of, name_of};

    /// Returns the number by which reports name the refusal: 0 for `OutOfMemory`, that of the rule for `Strict`, 53 for
    /// `LifetimeOutside`, else from 1 on in the order of the variants.
    pub fn number(&self) -> u8
        ensures { result ≡ number_of self.now }
    {
        match self {
            Refusal::OutOfMemory => 0,
            Refusal::Malformed => 1,
            Refusal::NotPublic => 2,
            Refusal::WrongGroup => 3,
            Refusal::WrongEpoch => 4,
            Refusal::SenderNotMember => 5,
            Refusal::NotHandshake => 6,
            Refusal::BadSignature => 7,
            Refusal::KnownProposal => 8,
            Refusal::AddInvalid => 9,
            Refusal::UpdateInvalid => 10,
            Refusal::RemoveInvalid => 11,
            Refusal::LastEpoch => 12,
            Refusal::UnknownReference => 13,
            Refusal::UpdateByCommitter => 14,
            Refusal::RemovesCommitter => 15,
            Refusal::SameLeafTwice => 16,
            Refusal::PathMissing => 17,
            Refusal::TooManyLeaves => 18,
            Refusal::PathLength => 19,
            Refusal::PathSource => 20,
            Refusal::PathKeyUsed => 21,
            Refusal::CiphertextCount => 22,
            Refusal::PathParentHash => 23,
            Refusal::KeyRepeated => 24,
            Refusal::Member(_) => 25,
            Refusal::TwoContextExtensions => 26,
            Refusal::ContextExtensionsInvalid => 27,
            Refusal::GroupOver => 28,
            Refusal::UnknownExternal => 29,
            Refusal::SenderContent => 30,
            Refusal::PskInvalid => 31,
            Refusal::ReInitInvalid => 32,
            Refusal::ExternalInitMisplaced => 33,
            Refusal::PskTwice => 34,
            Refusal::ReInitNotAlone => 35,
            Refusal::JoinList => 36,
            Refusal::ResyncInvalid => 37,
            Refusal::Strict(rule) => rule.number(),
            Refusal::LifetimeOutside => 53,
        }
    }

    /// Returns the name by which reports name the refusal: that of the rule for `Strict`, else that of the variant. A
    /// report adds the fault of a leaf node to `Member`.
    pub fn name(&self) -> &'static str
        ensures { result.now ≡ name_of self.now }
    {
        match self {
            Refusal::OutOfMemory => "OutOfMemory",
            Refusal::Malformed => "Malformed",
            Refusal::NotPublic => "NotPublic",
            Refusal::WrongGroup => "WrongGroup",
            Refusal::WrongEpoch => "WrongEpoch",
            Refusal::SenderNotMember => "SenderNotMember",
            Refusal::NotHandshake => "NotHandshake",
            Refusal::BadSignature => "BadSignature",
            Refusal::KnownProposal => "KnownProposal",
            Refusal::AddInvalid => "AddInvalid",
            Refusal::UpdateInvalid => "UpdateInvalid",
            Refusal::RemoveInvalid => "RemoveInvalid",
            Refusal::LastEpoch => "LastEpoch",
            Refusal::UnknownReference => "UnknownReference",
            Refusal::UpdateByCommitter => "UpdateByCommitter",
            Refusal::RemovesCommitter => "RemovesCommitter",
            Refusal::SameLeafTwice => "SameLeafTwice",
            Refusal::PathMissing => "PathMissing",
            Refusal::TooManyLeaves => "TooManyLeaves",
            Refusal::PathLength => "PathLength",
            Refusal::PathSource => "PathSource",
            Refusal::PathKeyUsed => "PathKeyUsed",
            Refusal::CiphertextCount => "CiphertextCount",
            Refusal::PathParentHash => "PathParentHash",
            Refusal::KeyRepeated => "KeyRepeated",
            Refusal::Member(_) => "Member",
            Refusal::TwoContextExtensions => "TwoContextExtensions",
            Refusal::ContextExtensionsInvalid => "ContextExtensionsInvalid",
            Refusal::GroupOver => "GroupOver",
            Refusal::UnknownExternal => "UnknownExternal",
            Refusal::SenderContent => "SenderContent",
            Refusal::PskInvalid => "PskInvalid",
            Refusal::ReInitInvalid => "ReInitInvalid",
            Refusal::ExternalInitMisplaced => "ExternalInitMisplaced",
            Refusal::PskTwice => "PskTwice",
            Refusal::ReInitNotAlone => "ReInitNotAlone",
            Refusal::JoinList => "JoinList",
            Refusal::ResyncInvalid => "ResyncInvalid",
            Refusal::Strict(rule) => rule.name(),
            Refusal::LifetimeOutside => "LifetimeOutside",
        }
    }
}

impl From<AllocError> for Refusal {
    ghost use Rattle.std.specs.Prelude.{◌≡◌};
    ghost use Rattle.mls_apply.specs.declared.refusal.Refusal.TheVariants.{OutOfMemory};

    ghost from_gives = { λ _ e. e ≡ OutOfMemory };

    fn from(_error: AllocError) -> Refusal {
        Refusal::OutOfMemory
    }
}

impl<T: Drop> From<AllocFailed<T>> for Refusal {
    ghost use Rattle.std.specs.Prelude.{◌≡◌};
    ghost use Rattle.mls_apply.specs.declared.refusal.Refusal.TheVariants.{OutOfMemory};

    ghost from_gives = { λ _ e. e ≡ OutOfMemory };

    fn from(_error: AllocFailed<T>) -> Refusal {
        Refusal::OutOfMemory
    }
}

impl From<OutOfMemory> for Refusal {
    ghost use Rattle.std.specs.Prelude.{◌≡◌};
    ghost use Rattle.mls_apply.specs.declared.refusal.Refusal.TheVariants as refusals;

    ghost from_gives = { λ _ e. e ≡ refusals.OutOfMemory };

    fn from(_memory: OutOfMemory) -> Refusal {
        Refusal::OutOfMemory
    }
}

impl From<MemberFault> for Refusal {
    ghost use Rattle.std.specs.Prelude.{◌≡◌};
    ghost use Rattle.mls_apply.specs.Refusals.{member_refusal};

    ghost from_gives = { λ fault e. e ≡ member_refusal fault };

    fn from(fault: MemberFault) -> Refusal {
        match fault {
            MemberFault::OutOfMemory => Refusal::OutOfMemory,
            _ => Refusal::Member(fault),
        }
    }
}

impl From<ApplyFault> for Refusal {
    ghost use Rattle.std.specs.Prelude.{◌≡◌};
    ghost use Rattle.mls_apply.specs.Refusals.{unapplied};

    ghost from_gives = { λ fault e. e ≡ unapplied fault };

    fn from(fault: ApplyFault) -> Refusal {
        match fault {
            ApplyFault::NoSuchLeaf => Refusal::TooManyLeaves,
            ApplyFault::TooManyLeaves => Refusal::TooManyLeaves,
            ApplyFault::OutOfMemory => Refusal::OutOfMemory,
        }
    }
}
