//! Why no follower resumes from a file.

use crate::added_rules::StrictRefused;
use mls_check::{GroupTreeFault, MemberFault, TreeFault};
use mls_nodes::NodeFault;
use mls_strict::StrictFault;
use std::alloc::AllocError;
use thiserror::Error;

/// Why no follower resumes from a file: the first condition that fails, in this order.
#[derive(Clone, Copy, Debug, PartialEq, Eq, Error)]
pub enum ResumeFault {
    /// The bytes encode no file, for this fault, or more of them are there than an input may have, or the ratchet tree
    /// of the file cannot be read (RFC 9420, 12.4.3.3).
    #[error("unreadable: {0}")]
    Unreadable(NodeFault),
    /// The checksum is not that of the state after it (own rule).
    #[error("the checksum differs")]
    ChecksumDiffers,
    /// The group's version is not 1 (RFC 9420, 6).
    #[error("the version is not supported")]
    UnsupportedVersion,
    /// The group's cipher suite is not one from 1 to 7 (RFC 9420, 17.1).
    #[error("the cipher suite is not supported")]
    UnsupportedSuite,
    /// The group's required capabilities cannot be read (RFC 9420, 11.1).
    #[error("the required capabilities can't be read")]
    RequirementsUnreadable,
    /// The tree is not valid, for this fault (RFC 9420, 7.9.2 and 12.4.3.1).
    #[error("{0}")]
    Tree(TreeFault),
    /// A leaf node of the tree is not valid, for this fault (RFC 9420, 7.3).
    #[error("{0}")]
    Member(MemberFault),
    /// The interim transcript hash does not have the length of the suite's hashes (RFC 9420, 8.2 and 17.1).
    #[error("the interim transcript hash has another length than the suite's hashes")]
    InterimLength,
    /// The pending proposal with this number, from 0 on, is not one that a follower in this state, with those before it,
    /// would accept (RFC 9420, 6.1, 12.1 and 12.4). It may not be signed.
    #[error("the pending proposal {0} is not valid")]
    KnownInvalid(usize),
    /// The KeyPackageRef with this number, from 0 on, of those that the last commit added does not have the length of the
    /// suite's hashes (RFC 9420, 5.2), or the group has no more members than references before it.
    #[error("the KeyPackageRef {0} of those that were added is not valid")]
    AddedInvalid(usize),
    /// The GroupContext or the tree does not meet a strict rule of the file (own rule).
    #[error("{0}")]
    Strict(StrictFault),
    /// The pending proposal with this number, from 0 on, does not meet a strict rule of the file (own rule).
    #[error("the pending proposal {0} does not meet the strict rules")]
    KnownStrict(usize),
    /// An allocation failed. It says nothing of the file.
    #[error("out of memory")]
    OutOfMemory,
}

impl From<AllocError> for ResumeFault {
    ghost use Rattle.std.specs.Prelude.{◌≡◌};
    ghost use Rattle.mls_follow.specs.declared.resume_fault.ResumeFault.TheVariants.{OutOfMemory};

    ghost from_gives = { λ _ e. e ≡ OutOfMemory };

    fn from(_error: AllocError) -> ResumeFault {
        ResumeFault::OutOfMemory
    }
}

impl From<StrictRefused> for ResumeFault {
    ghost use Rattle.std.specs.Prelude.{◌≡◌};
    ghost use Rattle.mls_follow.specs.ResumptionParts.{resume_fault_of_strict};

    ghost from_gives = { λ refused e. e ≡ resume_fault_of_strict refused };

    fn from(refused: StrictRefused) -> ResumeFault {
        match refused {
            StrictRefused::Group(fault) => ResumeFault::Strict(fault),
            StrictRefused::Known(number) => ResumeFault::KnownStrict(number),
            StrictRefused::OutOfMemory => ResumeFault::OutOfMemory,
        }
    }
}

impl From<NodeFault> for ResumeFault {
    ghost use Rattle.std.specs.Prelude.{◌≡◌};
    ghost use Rattle.mls_follow.specs.ResumptionParts.{unreadable};

    ghost from_gives = { λ fault e. e ≡ unreadable fault };

    fn from(fault: NodeFault) -> ResumeFault {
        match fault {
            NodeFault::OutOfMemory => ResumeFault::OutOfMemory,
            _ => ResumeFault::Unreadable(fault),
        }
    }
}

impl From<GroupTreeFault> for ResumeFault {
    ghost use Rattle.std.specs.Prelude.{◌≡◌};
    ghost use Rattle.mls_follow.specs.ResumptionParts.{resume_fault_of};

    ghost from_gives = { λ fault e. e ≡ resume_fault_of fault };

    fn from(fault: GroupTreeFault) -> ResumeFault {
        match fault {
            GroupTreeFault::RequirementsUnreadable => ResumeFault::RequirementsUnreadable,
            GroupTreeFault::Tree(fault) => ResumeFault::Tree(fault),
            GroupTreeFault::Member(fault) => ResumeFault::Member(fault),
            GroupTreeFault::OutOfMemory => ResumeFault::OutOfMemory,
        }
    }
}
