//! What the calls on a group's inputs return.

ghost use Rattle.std.specs.Prelude.{◌≡◌};
ghost use Rattle.mls_c.specs.Numbers as numbers;

use mls_check::{MemberFault, TreeFault};
use mls_follow::{ResumeFault, StartFault, StrictRefused};
use mls_nodes::NodeFault;
use mls_start::Finding;
use mls_strict::StrictFault;
use mls_wire::{WireFault, WireFaultKind};

/// What came of a call on a GroupContext, a GroupInfo, a tree or a state.
#[repr(C)]
#[derive(Clone, Copy)]
pub struct InputVerdict {
    /// 0 if all is well, otherwise why not.
    pub number: u32,
    /// The number of what is wrong inside, or 0.
    pub inner: u32,
    /// The leaf index, the node index or the offset of what is wrong, or the number of a pending proposal or of a
    /// KeyPackageRef from 0 on, or 0. It is 18,446,744,073,709,551,615 if a strict rule is not met, and not by a node.
    pub place: u64,
}

/// An allocation failed.
pub(crate) const OUT_OF_MEMORY: u32 = 100;

/// The value is longer than the buffer.
pub(crate) const BUFFER_TOO_SMALL: u32 = 101;

/// The handle has no follower.
pub(crate) const NO_FOLLOWER: u32 = 102;

/// No profile has this number.
pub(crate) const UNSUPPORTED_PROFILE: u32 = 103;

/// The receipts are not of 32 bytes each.
pub(crate) const BAD_RECEIPTS: u32 = 104;

/// The value has no encoding within the limits.
pub(crate) const TOO_LONG: u32 = 105;

/// The bytes of the GroupInfo are no message.
const INFO_UNREADABLE: u32 = 106;

/// The message is no GroupInfo.
const NOT_GROUP_INFO: u32 = 107;

/// The bytes of the tree are no ratchet_tree.
const TREE_UNREADABLE: u32 = 108;

/// The bytes of the context are no GroupContext.
const CONTEXT_UNREADABLE: u32 = 109;

/// The state is of another profile.
pub(crate) const OTHER_PROFILE: u32 = 110;

/// A bit above bit 12 is 1, so the number encodes no set of strict rules.
pub(crate) const UNSUPPORTED_RULES: u32 = 114;

/// No leaf node is at the leaf index: the leaf is blank, or the tree has no such leaf.
pub(crate) const NO_MEMBER: u32 = 115;

/// There are no more pending proposals than the number.
pub(crate) const NO_PROPOSAL: u32 = 116;

/// The place of a strict rule that is not met, and not by a node.
const NO_PLACE: u64 = u64::MAX;

/// Returns a verdict with a number and no more.
pub(crate) fn plain_verdict(number: u32) -> InputVerdict
    ensures { result ≡ numbers.plain_verdict number }
{
    InputVerdict {
        number,
        inner: 0,
        place: 0,
    }
}

/// Returns the number of what is wrong with bytes that cannot be read.
fn wire_number(kind: WireFaultKind) -> u32
    ensures { result ≡ numbers.wire_number kind }
{
    match kind {
        WireFaultKind::Truncated => 1,
        WireFaultKind::NotShortest => 2,
        WireFaultKind::BadPrefix => 3,
        WireFaultKind::BadOptional => 4,
        WireFaultKind::BadTag(_) => 5,
        WireFaultKind::OddLength => 6,
        WireFaultKind::Trailing => 7,
        WireFaultKind::TooLong => 8,
    }
}

/// Returns the verdict of bytes that cannot be read.
fn unreadable_by(number: u32, fault: WireFault) -> InputVerdict
    ensures { result ≡ numbers.unreadable_by number fault }
{
    InputVerdict {
        number,
        inner: wire_number(fault.kind),
        place: fault.at as u64,
    }
}

/// Returns the verdict of a ratchet tree that cannot be read.
fn node_verdict(number: u32, fault: NodeFault) -> InputVerdict
    ensures { result ≡ numbers.node_verdict number fault }
{
    let (inner, place) = match fault {
        NodeFault::Wire(fault) => return unreadable_by(number, fault),
        NodeFault::OutOfMemory => return plain_verdict(OUT_OF_MEMORY),
        NodeFault::WrongNodeKind(place) => (9, place as u64),
        NodeFault::LastBlank => (10, 0),
        NodeFault::EmptyTree => (11, 0),
        NodeFault::TooManyLeaves => (12, 0),
    };
    InputVerdict {
        number,
        inner,
        place,
    }
}

/// Returns the verdict of a tree that is not valid.
fn tree_verdict(number: u32, fault: TreeFault) -> InputVerdict
    ensures { result ≡ numbers.tree_verdict number fault }
{
    let (inner, place) = match fault {
        TreeFault::HashDiffers => (1, 0),
        TreeFault::UnmergedUnsorted(place) => (2, place),
        TreeFault::UnmergedUnsound(place) => (3, place),
        TreeFault::KeyRepeated(place) => (4, place),
        TreeFault::ParentHashInvalid(place) => (5, place),
        TreeFault::OutOfMemory => return plain_verdict(OUT_OF_MEMORY),
    };
    InputVerdict {
        number,
        inner,
        place: place as u64,
    }
}

/// Returns the leaf index of a fault of a leaf node.
pub(crate) fn member_fault_leaf(fault: MemberFault) -> u32
    ensures { result ≡ numbers.member_fault_leaf fault }
{
    match fault {
        MemberFault::ExtensionUnlisted(leaf) => leaf,
        MemberFault::RequirementUnmet(leaf) => leaf,
        MemberFault::CredentialUnsupported(leaf) => leaf,
        MemberFault::SignatureKeyRepeated(leaf) => leaf,
        MemberFault::LeafSignature(leaf) => leaf,
        MemberFault::OutOfMemory => 0,
    }
}

/// Returns the verdict of a leaf node that is not valid.
fn member_verdict(number: u32, fault: MemberFault) -> InputVerdict
    ensures { result ≡ numbers.member_verdict number fault }
{
    match fault {
        MemberFault::OutOfMemory => plain_verdict(OUT_OF_MEMORY),
        _ => InputVerdict {
            number,
            inner: u32::from(fault.number()),
            place: member_fault_leaf(fault) as u64,
        },
    }
}

/// Returns the verdict of a strict rule that is not met: its number, and the node index.
fn strict_verdict(number: u32, fault: StrictFault) -> InputVerdict
    ensures { result ≡ numbers.strict_verdict number fault }
{
    let place = match fault.place {
        Some(node_index) => node_index as u64,
        None => NO_PLACE,
    };
    InputVerdict {
        number,
        inner: u32::from(fault.rule.number()),
        place,
    }
}

/// Returns the verdict of a start that is refused.
fn start_verdict(fault: StartFault) -> InputVerdict
    ensures { result ≡ numbers.start_verdict fault }
{
    match fault {
        StartFault::OutOfMemory => plain_verdict(OUT_OF_MEMORY),
        StartFault::Tree(fault) => tree_verdict(5, fault),
        StartFault::Member(fault) => member_verdict(6, fault),
        StartFault::Strict(fault) => strict_verdict(9, fault),
        _ => plain_verdict(fault.number() as u32),
    }
}

/// Returns the verdict of a resumption that is refused.
fn resume_verdict(fault: ResumeFault) -> InputVerdict
    ensures { result ≡ numbers.resume_verdict fault }
{
    match fault {
        ResumeFault::Unreadable(fault) => node_verdict(1, fault),
        ResumeFault::ChecksumDiffers => plain_verdict(2),
        ResumeFault::UnsupportedVersion => plain_verdict(3),
        ResumeFault::UnsupportedSuite => plain_verdict(4),
        ResumeFault::RequirementsUnreadable => plain_verdict(5),
        ResumeFault::Tree(fault) => tree_verdict(6, fault),
        ResumeFault::Member(fault) => member_verdict(7, fault),
        ResumeFault::InterimLength => plain_verdict(8),
        ResumeFault::KnownInvalid(n) => InputVerdict {
            number: 9,
            inner: 0,
            place: n as u64,
        },
        ResumeFault::AddedInvalid(n) => InputVerdict {
            number: 12,
            inner: 0,
            place: n as u64,
        },
        ResumeFault::Strict(fault) => strict_verdict(10, fault),
        ResumeFault::KnownStrict(n) => InputVerdict {
            number: 11,
            inner: 0,
            place: n as u64,
        },
        ResumeFault::OutOfMemory => plain_verdict(OUT_OF_MEMORY),
    }
}

/// Returns the verdict of strict rules that cannot be added to those of a follower.
pub(crate) fn added_verdict(refused: StrictRefused) -> InputVerdict
    ensures { result ≡ numbers.added_verdict refused }
{
    match refused {
        StrictRefused::Group(fault) => strict_verdict(10, fault),
        StrictRefused::Known(n) => InputVerdict {
            number: 11,
            inner: 0,
            place: n as u64,
        },
        StrictRefused::OutOfMemory => plain_verdict(OUT_OF_MEMORY),
    }
}

/// Returns the verdict of what is found of a group's inputs.
pub(crate) fn verdict_of(finding: Finding) -> InputVerdict
    ensures { result ≡ numbers.verdict_of finding }
{
    match finding {
        Finding::ContextUnreadable(fault) => unreadable_by(CONTEXT_UNREADABLE, fault),
        Finding::InfoUnreadable(fault) => unreadable_by(INFO_UNREADABLE, fault),
        Finding::NotGroupInfo => plain_verdict(NOT_GROUP_INFO),
        Finding::TreeUnreadable(fault) => node_verdict(TREE_UNREADABLE, fault),
        Finding::UnsupportedVersion => plain_verdict(1),
        Finding::UnsupportedSuite => plain_verdict(2),
        Finding::RequirementsUnreadable => plain_verdict(4),
        Finding::TreeRefused(fault) => tree_verdict(5, fault),
        Finding::MembersRefused(fault) => member_verdict(6, fault),
        Finding::TreeNotStrict(fault) => strict_verdict(9, fault),
        Finding::StartRefused(fault) => start_verdict(fault),
        Finding::StateRefused(fault) => resume_verdict(fault),
        Finding::StateNotStrict(refused) => added_verdict(refused),
        Finding::TreeValid(_) => plain_verdict(0),
        Finding::Starts(_) => plain_verdict(0),
    }
}
