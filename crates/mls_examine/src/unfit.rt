//! Why a message is not fit: the numbers, names and sentences of the reasons.

use crate::unaccepted_signatures::UnacceptedSignatures;
use mls_apply::PackageRefFault;
use mls_check::{MemberFault, OutOfMemory};
use mls_follow::{AddFault, StartFault};
use mls_msgs::StrictRule;
use std::alloc::AllocError;
use thiserror::Error;

/// Why a message other than a PublicMessage is not fit. The numbers stand behind those of refusals, so that a number has one
/// meaning whichever call returns it.
#[derive(Debug, Drop, Error)]
pub enum Unfit {
    /// The bytes are no message, or the value has no encoding.
    #[error("it is not a message")]
    Malformed,
    /// The message is a PublicMessage, which is for a follower to process (RFC 9420, 6.2).
    #[error("it is a PublicMessage")]
    PublicMessage,
    /// The group is over: it was reinitialized (RFC 9420, 11.2).
    #[error("the group is over")]
    GroupOver,
    /// The epoch of the group is the last one, so no commit can follow.
    #[error("the epoch is the last one")]
    LastEpoch,
    /// The group is another one.
    #[error("the group is another one")]
    WrongGroup,
    /// The version is another one than the group's, or is not 1.
    #[error("the version is not supported")]
    WrongVersion,
    /// The cipher suite is another one than the group's, or none of 1 to 7.
    #[error("the cipher suite is not supported")]
    WrongSuite,
    /// The epoch is before the present one.
    #[error("the epoch is a former one")]
    PastEpoch,
    /// The tree hash is not the group's (RFC 9420, 8.1).
    #[error("the tree hash is not the group's")]
    TreeHashDiffers,
    /// The confirmed transcript hash is not the group's (RFC 9420, 8.1).
    #[error("the confirmed transcript hash is not the group's")]
    ConfirmedDiffers,
    /// The extensions of the GroupContext are not the group's, in their order (RFC 9420, 8.1).
    #[error("the extensions of the GroupContext are not the group's")]
    ExtensionsDiffer,
    /// The confirmation tag does not lead to the group's interim transcript hash (RFC 9420, 8.2).
    #[error("the confirmation tag does not lead to the group's transcript hash")]
    TagDiffers,
    /// The signer's leaf is blank (RFC 9420, 12.4.3).
    #[error("the signer is no member")]
    SignerNotMember,
    /// The first ratchet_tree is not the encoding of the group's tree (RFC 9420, 12.4.3.3).
    #[error("the ratchet_tree is not the group's")]
    TreeDiffers,
    /// No follower starts from the GroupInfo, even if every signature is good, for this fault.
    #[error("{0}")]
    StartRefused(StartFault),
    /// No member that the follower knows has the signature key of the signer's leaf (own rule).
    #[error("no known member has the signature key of the signer")]
    SignerUnknown,
    /// The first external_pub is no public key of the cipher suite's KEM (RFC 9420, 12.4.3.2; own rule).
    #[error("the external_pub is no key of the cipher suite")]
    ExternalPubInvalid,
    /// The source of the leaf node is not key_package (RFC 9420, 7.3).
    #[error("the leaf node is not one of a key package")]
    LeafSource,
    /// The init key is the encryption key of the leaf node (RFC 9420, 10.1).
    #[error("the init key is the encryption key of the leaf node")]
    InitKeyReused,
    /// The group has as many members as a tree may have leaves, 1,048,576 (own limit).
    #[error("the group has as many members as it may have")]
    TooManyLeaves,
    /// A node of the tree has the encryption key of the leaf node (RFC 9420, 7.3).
    #[error("a node of the tree has the encryption key")]
    KeyRepeated,
    /// A leaf node is not valid (RFC 9420, 7.3): that of the KeyPackage, or in a group one of the tree after its Add.
    #[error("{0}")]
    Member(MemberFault),
    /// Signatures are not good: these, which the checker does not accept.
    #[error("a signature is not good")]
    Unsigned(UnacceptedSignatures),
    /// A strict rule is not met (own rule).
    #[error("{0}")]
    Strict(StrictRule),
    /// An allocation failed.
    #[error("out of memory")]
    OutOfMemory,
}

impl Unfit {
    ghost use Rattle.std.specs.Prelude.{◌≡◌};
    ghost use Rattle.mls_examine.specs.UnfitNumbers.{number_of, name_of};

    /// Returns the number by which reports name the reason: 0 for `OutOfMemory`, else one from 61 to 89. A report adds the
    /// number of the fault to that of `StartRefused`, and the number of the rule to that of `Strict`.
    pub fn number(&self) -> u32
        ensures { result ≡ number_of self.now }
    {
        match self {
            Unfit::OutOfMemory => 0,
            Unfit::Malformed => 61,
            Unfit::PublicMessage => 62,
            Unfit::GroupOver => 63,
            Unfit::LastEpoch => 64,
            Unfit::WrongGroup => 65,
            Unfit::WrongVersion => 66,
            Unfit::WrongSuite => 67,
            Unfit::PastEpoch => 68,
            Unfit::TreeHashDiffers => 69,
            Unfit::ConfirmedDiffers => 70,
            Unfit::ExtensionsDiffer => 71,
            Unfit::TagDiffers => 72,
            Unfit::SignerNotMember => 73,
            Unfit::TreeDiffers => 74,
            Unfit::StartRefused(_) => 75,
            Unfit::SignerUnknown => 76,
            Unfit::ExternalPubInvalid => 77,
            Unfit::LeafSource => 78,
            Unfit::InitKeyReused => 79,
            Unfit::TooManyLeaves => 80,
            Unfit::KeyRepeated => 81,
            Unfit::Member(_) => 82,
            Unfit::Unsigned(_) => 87,
            Unfit::Strict(_) => 89,
        }
    }

    /// Returns the name by which reports name the reason: that of the variant. A report adds the fault of a start to
    /// `StartRefused`, the fault of a leaf node to `Member`, and the number and the name of the rule to `Strict`.
    pub fn name(&self) -> &'static str
        ensures { result.now ≡ name_of self.now }
    {
        match self {
            Unfit::OutOfMemory => "OutOfMemory",
            Unfit::Malformed => "Malformed",
            Unfit::PublicMessage => "PublicMessage",
            Unfit::GroupOver => "GroupOver",
            Unfit::LastEpoch => "LastEpoch",
            Unfit::WrongGroup => "WrongGroup",
            Unfit::WrongVersion => "WrongVersion",
            Unfit::WrongSuite => "WrongSuite",
            Unfit::PastEpoch => "PastEpoch",
            Unfit::TreeHashDiffers => "TreeHashDiffers",
            Unfit::ConfirmedDiffers => "ConfirmedDiffers",
            Unfit::ExtensionsDiffer => "ExtensionsDiffer",
            Unfit::TagDiffers => "TagDiffers",
            Unfit::SignerNotMember => "SignerNotMember",
            Unfit::TreeDiffers => "TreeDiffers",
            Unfit::StartRefused(_) => "StartRefused",
            Unfit::SignerUnknown => "SignerUnknown",
            Unfit::ExternalPubInvalid => "ExternalPubInvalid",
            Unfit::LeafSource => "LeafSource",
            Unfit::InitKeyReused => "InitKeyReused",
            Unfit::TooManyLeaves => "TooManyLeaves",
            Unfit::KeyRepeated => "KeyRepeated",
            Unfit::Member(_) => "Member",
            Unfit::Unsigned(_) => "Unsigned",
            Unfit::Strict(_) => "Strict",
        }
    }
}

impl From<OutOfMemory> for Unfit {
    ghost use Rattle.std.specs.Prelude.{◌≡◌};
    ghost use Rattle.mls_examine.specs.declared.unfit.Unfit.TheVariants as unfit;

    ghost from_gives = { λ _ e. e ≡ unfit.OutOfMemory };

    fn from(_memory: OutOfMemory) -> Unfit {
        Unfit::OutOfMemory
    }
}

impl From<PackageRefFault> for Unfit {
    ghost use Rattle.std.specs.Prelude.{◌≡◌};
    ghost use Rattle.mls_examine.specs.UnfitNumbers.{unreferenced};

    ghost from_gives = { λ fault e. e ≡ unreferenced fault };

    fn from(fault: PackageRefFault) -> Unfit {
        match fault {
            PackageRefFault::UnsupportedSuite => Unfit::WrongSuite,
            PackageRefFault::TooLong => Unfit::Malformed,
            PackageRefFault::OutOfMemory => Unfit::OutOfMemory,
        }
    }
}

impl From<AllocError> for Unfit {
    ghost use Rattle.std.specs.Prelude.{◌≡◌};
    ghost use Rattle.mls_examine.specs.declared.unfit.Unfit.TheVariants as unfit;

    ghost from_gives = { λ _ e. e ≡ unfit.OutOfMemory };

    fn from(_error: AllocError) -> Unfit {
        Unfit::OutOfMemory
    }
}

impl From<AddFault> for Unfit {
    ghost use Rattle.std.specs.Prelude.{◌≡◌};
    ghost use Rattle.mls_examine.specs.AddablePackages.{unfit_add};

    ghost from_gives = { λ fault e. e ≡ unfit_add fault };

    fn from(fault: AddFault) -> Unfit {
        match fault {
            AddFault::TooManyLeaves => Unfit::TooManyLeaves,
            AddFault::KeyRepeated => Unfit::KeyRepeated,
            AddFault::Member(fault) => Unfit::Member(fault),
            AddFault::OutOfMemory => Unfit::OutOfMemory,
        }
    }
}
