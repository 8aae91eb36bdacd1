//! Why no follower starts from a GroupInfo (RFC 9420, 12.4.3.1).

use mls_check::{GroupTreeFault, MemberFault, OutOfMemory, TreeFault};
use mls_strict::StrictFault;
use std::alloc::AllocError;
use thiserror::Error;

/// Why no follower starts from a GroupInfo: the first condition that fails, in this order.
#[derive(Clone, Copy, Debug, PartialEq, Eq, Error)]
pub enum StartFault {
    /// The group's version is not 1 (RFC 9420, 6).
    #[error("the version is not supported")]
    UnsupportedVersion,
    /// The group's cipher suite is not one from 1 to 7 (RFC 9420, 17.1).
    #[error("the cipher suite is not supported")]
    UnsupportedSuite,
    /// No tree was passed, and the GroupInfo has no extension of type 2, or the first one cannot be read (RFC 9420,
    /// 12.4.3.3).
    #[error("there is no tree")]
    NoTree,
    /// The group's required capabilities cannot be read (RFC 9420, 11.1).
    #[error("the required capabilities can't be read")]
    RequirementsUnreadable,
    /// The tree is not valid, for this fault (RFC 9420, 7.9.2 and 12.4.3.1).
    #[error("{0}")]
    Tree(TreeFault),
    /// A leaf node of the tree is not valid, for this fault (RFC 9420, 7.3).
    #[error("{0}")]
    Member(MemberFault),
    /// The signer's leaf is blank (RFC 9420, 12.4.3).
    #[error("the signer is no member")]
    SignerNotMember,
    /// The signature of the GroupInfo is not good (RFC 9420, 12.4.3).
    #[error("the signature of the GroupInfo is not good")]
    InfoSignature,
    /// A strict rule of the follower's set is not met (own rule): by the GroupInfo itself, else by its GroupContext or its
    /// tree. It is the last to be checked.
    #[error("{0}")]
    Strict(StrictFault),
    /// An allocation failed. It says nothing of the GroupInfo.
    #[error("out of memory")]
    OutOfMemory,
}

impl StartFault {
    ghost use Rattle.std.specs.Prelude.{◌≡◌};
    ghost use Rattle.mls_follow.specs.StartNumbers.{start_number_of};

    /// Returns the number by which reports name the fault: 0 for `OutOfMemory`, else from 1 on in the order of the
    /// variants.
    pub fn number(&self) -> u8
        ensures { result ≡ start_number_of self.now }
    {
        match self {
            StartFault::OutOfMemory => 0,
            StartFault::UnsupportedVersion => 1,
            StartFault::UnsupportedSuite => 2,
            StartFault::NoTree => 3,
            StartFault::RequirementsUnreadable => 4,
            StartFault::Tree(_) => 5,
            StartFault::Member(_) => 6,
            StartFault::SignerNotMember => 7,
            StartFault::InfoSignature => 8,
            StartFault::Strict(_) => 9,
        }
    }
}

impl From<AllocError> for StartFault {
    ghost use Rattle.std.specs.Prelude.{◌≡◌};
    ghost use Rattle.mls_follow.specs.declared.start_fault.StartFault.TheVariants.{OutOfMemory};

    ghost from_gives = { λ _ e. e ≡ OutOfMemory };

    fn from(_error: AllocError) -> StartFault {
        StartFault::OutOfMemory
    }
}

impl From<OutOfMemory> for StartFault {
    ghost use Rattle.std.specs.Prelude.{◌≡◌};
    ghost use Rattle.mls_follow.specs.declared.start_fault.StartFault.TheVariants as faults;

    ghost from_gives = { λ _ e. e ≡ faults.OutOfMemory };

    fn from(_memory: OutOfMemory) -> StartFault {
        StartFault::OutOfMemory
    }
}

impl From<GroupTreeFault> for StartFault {
    ghost use Rattle.std.specs.Prelude.{◌≡◌};
    ghost use Rattle.mls_follow.specs.StartInternal.{start_fault_of};

    ghost from_gives = { λ fault e. e ≡ start_fault_of fault };

    fn from(fault: GroupTreeFault) -> StartFault {
        match fault {
            GroupTreeFault::RequirementsUnreadable => StartFault::RequirementsUnreadable,
            GroupTreeFault::Tree(fault) => StartFault::Tree(fault),
            GroupTreeFault::Member(fault) => StartFault::Member(fault),
            GroupTreeFault::OutOfMemory => StartFault::OutOfMemory,
        }
    }
}
