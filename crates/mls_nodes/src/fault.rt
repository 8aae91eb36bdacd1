//! Why a ratchet_tree cannot be decoded or encoded.

use mls_wire::{CodecFault, WireFault};
use std::alloc::{AllocError, AllocFailed};
use thiserror::Error;

/// Why a ratchet_tree cannot be decoded or encoded. The numbers are node indices.
#[derive(Clone, Copy, Debug, PartialEq, Eq, Error)]
pub enum NodeFault {
    /// The bytes cannot be read, or the tree is too long for one vector.
    #[error(transparent)]
    Wire(WireFault),
    /// A leaf is at an odd node index or a parent at an even one: the first such node index.
    #[error("a node of the wrong kind at place {0}")]
    WrongNodeKind(usize),
    /// The last entry is blank, and another one is not.
    #[error("the last entry is blank")]
    LastBlank,
    /// Every entry is blank.
    #[error("no entry is set")]
    EmptyTree,
    /// There are more than 2,097,151 entries, those of 1,048,576 leaves.
    #[error("a tree has at most 2,097,151 nodes")]
    TooManyLeaves,
    /// An allocation failed.
    #[error("out of memory")]
    OutOfMemory,
}

impl From<CodecFault> for NodeFault {
    ghost use Rattle.std.specs.Prelude.{◌≡◌};
    ghost use Rattle.mls_nodes.specs.RatchetTreeContractsInternal.{node_fault};

    ghost from_gives = { λ f e. e ≡ node_fault f };

    fn from(fault: CodecFault) -> NodeFault {
        match fault {
            CodecFault::Wire(fault) => NodeFault::Wire(fault),
            CodecFault::OutOfMemory => NodeFault::OutOfMemory,
        }
    }
}

impl From<WireFault> for NodeFault {
    ghost use Rattle.std.specs.Prelude.{◌≡◌};
    ghost use Rattle.mls_nodes.specs.declared.fault.NodeFault.TheVariants.{Wire};

    ghost from_gives = { λ f e. e ≡ Wire f };

    fn from(fault: WireFault) -> NodeFault {
        NodeFault::Wire(fault)
    }
}

impl From<AllocError> for NodeFault {
    ghost use Rattle.std.specs.Prelude.{◌≡◌};
    ghost use Rattle.mls_nodes.specs.declared.fault.NodeFault.TheVariants.{OutOfMemory};

    ghost from_gives = { λ _ e. e ≡ OutOfMemory };

    fn from(_e: AllocError) -> NodeFault {
        NodeFault::OutOfMemory
    }
}

impl<T: Drop> From<AllocFailed<T>> for NodeFault {
    ghost use Rattle.std.specs.Prelude.{◌≡◌};
    ghost use Rattle.mls_nodes.specs.declared.fault.NodeFault.TheVariants.{OutOfMemory};

    ghost from_gives = { λ _ e. e ≡ OutOfMemory };

    fn from(_e: AllocFailed<T>) -> NodeFault {
        NodeFault::OutOfMemory
    }
}
