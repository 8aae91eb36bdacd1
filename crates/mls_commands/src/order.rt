//! The commands of a command line.

ghost use Rattle.std.specs.Prelude.{◌≡◌};
ghost use Rattle.mls_commands.specs.FaultStatus.{fault_status};

use crate::file_name::FileName;
use mls_msgs::{Profile, Rules};
use mls_show::{CheckKind, ShowKind};
use std::alloc::AllocError;
use thiserror::Error;

/// The choice of a checker.
#[derive(Debug, Drop)]
pub enum CheckerChoice {
    /// `--trust`: it accepts every signature.
    Trust,
    /// `--receipts FILE`: it accepts those that the file lists.
    Receipts(FileName),
    /// Neither, in `signatures` and `gate`: it accepts none, as long as it learns none.
    NoReceipts,
}

/// What a group is followed from.
#[derive(Debug, Drop)]
pub enum GroupFiles {
    /// `--info FILE [--tree FILE] [--profile PROFILE] [--strict [--allow NUMBERS]]`: its GroupInfo.
    Info {
        /// The strict rules that are asked.
        rules: Rules,
        /// The profile in which it is followed.
        profile: Profile,
        /// The file of the GroupInfo.
        info: FileName,
        /// The file of the ratchet tree, if one is named.
        tree: Option<FileName>,
    },
    /// `--state FILE [--strict [--allow NUMBERS]]`: the file of a stored state.
    State {
        /// The strict rules that are added to those of the state.
        rules: Rules,
        /// The file of the state.
        state: FileName,
    },
}

/// What a replay reads and stores, and the time at which it judges lifetimes.
#[derive(Debug, Drop)]
pub struct ReplayOptions {
    /// What the group is followed from.
    pub group: GroupFiles,
    /// The file of the log.
    pub log: FileName,
    /// `--save FILE`: the file in which the state after the log is stored, if one is named.
    pub save: Option<FileName>,
    /// `--now SECONDS`: the time at which lifetimes are judged, in seconds since 1970. `None` if they are not judged.
    pub time: Option<u64>,
}

/// A report on a group or a tree, with a checker of signatures.
#[derive(Debug, Drop)]
pub enum GroupReport {
    /// `validate-tree`: say whether a tree is valid for a GroupContext, its leaf nodes are valid, and both meet the strict
    /// rules that are asked.
    ValidateTree {
        /// The strict rules that are asked.
        rules: Rules,
        /// The file of the GroupContext.
        context: FileName,
        /// The file of the ratchet tree.
        tree: FileName,
    },
    /// `validate`: say whether a group can be followed.
    Validate(GroupFiles),
    /// `replay`: follow a group through a log of handshakes.
    Replay(ReplayOptions),
    /// `signatures`: print the signatures to verify of a group's start or resumption and its handshakes.
    Signatures {
        /// What the group is followed from.
        group: GroupFiles,
        /// The file of the log, if one is named.
        log: Option<FileName>,
    },
    /// `validate-key-package`: say which KeyPackages are good by themselves, and meet the strict rules that are asked.
    ValidatePackages {
        /// The strict rules that are asked.
        rules: Rules,
        /// The files of the KeyPackages, at least one.
        files: Vec<FileName>,
    },
    /// `signatures --key-package`: print the signatures to verify of KeyPackages.
    PackageSignatures {
        /// The strict rules that are asked.
        rules: Rules,
        /// The files of the KeyPackages, at least one.
        files: Vec<FileName>,
    },
    /// `gate`: answer the records of standard input, one after the other.
    Gate {
        /// What the group is followed from.
        group: GroupFiles,
        /// `--now SECONDS`: the time at which lifetimes are judged at first, in seconds since 1970. `None` if they are not
        /// judged.
        time: Option<u64>,
    },
}

/// What the program is to do.
#[derive(Debug, Drop)]
pub enum Order {
    /// `show KIND FILE`: print what a file holds.
    Show {
        /// The profile in which a message is decoded, also that of a log; that of the members for another kind.
        profile: Profile,
        /// What the file is to be read as.
        kind: ShowKind,
        /// The file.
        file: FileName,
    },
    /// `validate-tree`, `validate`, `validate-key-package`, `replay`, `signatures` or `gate`.
    Group {
        /// Which of them, and its files.
        report: GroupReport,
        /// The choice of a checker. `signatures` leaves out the signatures that it accepts.
        checker: CheckerChoice,
    },
    /// `check KIND FILE`: say which test vectors of a file agree with this library.
    Check {
        /// What the vectors check.
        kind: CheckKind,
        /// The file.
        file: FileName,
    },
}

/// Why a command line has no command to execute.
#[derive(Debug, Drop, Error)]
pub enum OrderFault {
    /// It requests help or the version, which is this text.
    #[error("{0}")]
    Help(String),
    /// It is none of the forms that the program knows. The text says why.
    #[error("{0}")]
    Usage(String),
    /// An allocation failed.
    #[error("memory")]
    Memory,
}

impl OrderFault {
    /// Returns the exit status of a command line without a command: 0 for help and the version, 2 for a usage fault, 3
    /// for out of memory.
    pub fn status(&self) -> u8
        ensures { result ≡ fault_status self.now }
    {
        match self {
            OrderFault::Help(_) => 0,
            OrderFault::Usage(_) => 2,
            OrderFault::Memory => 3,
        }
    }
}

impl From<AllocError> for OrderFault {
    ghost use Rattle.mls_commands.specs.declared.order.OrderFault.TheVariants.{Memory};

    ghost from_gives = { λ _ e. e ≡ Memory };

    fn from(_e: AllocError) -> OrderFault {
        OrderFault::Memory
    }
}
