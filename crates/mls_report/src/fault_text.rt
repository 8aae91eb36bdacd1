//! Faults as text in a report.

ghost use Rattle.std.specs.Prelude.{◌≡◌, ◌++◌, codes, IfOk, string_bytes};
ghost use Rattle.mls_show.specs.FaultText.{node_fault_text};
ghost use Rattle.mls_report.specs.FaultText as texts;

use mls_check::{MemberFault, TreeFault};
use mls_follow::{ResumeFault, StartFault, StrictRefused};
use mls_nodes::NodeFault;
use mls_show::node_fault_text;
use mls_strict::StrictFault;
use std::alloc::{AllocError, Global};

/// Returns the first fault of a tree: number, name, and node index, as `4 KeyRepeated 12`.
pub fn tree_fault_text(alloc: Global, fault: TreeFault) -> Result<String, AllocError>
    ensures { IfOk result (λ text. string_bytes text ≡ texts.tree_fault_text fault) }
{
    match fault {
        TreeFault::HashDiffers => String::from_str(alloc, "1 HashDiffers"),
        TreeFault::UnmergedUnsorted(node_index) => format!(in alloc;
            "2 UnmergedUnsorted {node_index}"
        ),
        TreeFault::UnmergedUnsound(node_index) => format!(in alloc;
            "3 UnmergedUnsound {node_index}"
        ),
        TreeFault::KeyRepeated(node_index) => format!(in alloc; "4 KeyRepeated {node_index}"),
        TreeFault::ParentHashInvalid(node_index) => format!(in alloc;
            "5 ParentHashInvalid {node_index}"
        ),
        TreeFault::OutOfMemory => String::from_str(alloc, "OutOfMemory"),
    }
}

/// Returns the first fault of the members: number, name, and leaf index, as `5 LeafSignature 3`.
pub fn member_fault_text(alloc: Global, fault: MemberFault) -> Result<String, AllocError>
    ensures { IfOk result (λ text. string_bytes text ≡ texts.member_fault_text fault) }
{
    match fault {
        MemberFault::ExtensionUnlisted(leaf) => format!(in alloc; "1 ExtensionUnlisted {leaf}"),
        MemberFault::RequirementUnmet(leaf) => format!(in alloc; "2 RequirementUnmet {leaf}"),
        MemberFault::CredentialUnsupported(leaf) => {
            format!(in alloc; "3 CredentialUnsupported {leaf}")
        }
        MemberFault::SignatureKeyRepeated(leaf) => {
            format!(in alloc; "4 SignatureKeyRepeated {leaf}")
        }
        MemberFault::LeafSignature(leaf) => format!(in alloc; "5 LeafSignature {leaf}"),
        MemberFault::OutOfMemory => String::from_str(alloc, "OutOfMemory"),
    }
}

/// Returns why no follower can start, if the tree is the cause.
fn start_tree_text(alloc: Global, fault: TreeFault) -> Result<String, AllocError>
    ensures { IfOk result
        (λ text. string_bytes text ≡ codes "5 Tree " ++ texts.tree_fault_text fault) }
{
    let fault = tree_fault_text(alloc, fault)?;
    format!(in alloc; "5 Tree {fault}")
}

/// Returns why no follower can start, if the members are the cause.
fn start_member_text(alloc: Global, fault: MemberFault) -> Result<String, AllocError>
    ensures { IfOk result
        (λ text. string_bytes text ≡ codes "6 Member " ++ texts.member_fault_text fault) }
{
    let fault = member_fault_text(alloc, fault)?;
    format!(in alloc; "6 Member {fault}")
}

/// Returns the strict rule that is not met: number and name, and the node index if a node does not meet it, as
/// `44 KeyForm 0`.
pub fn strict_fault_text(alloc: Global, fault: StrictFault) -> Result<String, AllocError>
    ensures { IfOk result (λ text. string_bytes text ≡ texts.strict_fault_text fault) }
{
    let (number, name) = (fault.rule.number(), fault.rule.name());
    match fault.place {
        Some(node_index) => format!(in alloc; "{number} {name} {node_index}"),
        None => format!(in alloc; "{number} {name}"),
    }
}

/// Returns why no follower can start, if a strict rule is the cause.
fn start_strict_text(alloc: Global, fault: StrictFault) -> Result<String, AllocError>
    ensures { IfOk result
        (λ text. string_bytes text ≡ codes "9 Strict " ++ texts.strict_fault_text fault) }
{
    let fault = strict_fault_text(alloc, fault)?;
    format!(in alloc; "9 Strict {fault}")
}

/// Returns why no follower can start: number and name, and those of a fault of the tree or of the members, or of the strict
/// rule that is not met.
pub fn start_fault_text(alloc: Global, fault: StartFault) -> Result<String, AllocError>
    ensures { IfOk result (λ text. string_bytes text ≡ texts.start_fault_text fault) }
{
    match fault {
        StartFault::UnsupportedVersion => String::from_str(alloc, "1 UnsupportedVersion"),
        StartFault::UnsupportedSuite => String::from_str(alloc, "2 UnsupportedSuite"),
        StartFault::NoTree => String::from_str(alloc, "3 NoTree"),
        StartFault::RequirementsUnreadable => {
            String::from_str(alloc, "4 RequirementsUnreadable")
        }
        StartFault::Tree(fault) => start_tree_text(alloc, fault),
        StartFault::Member(fault) => start_member_text(alloc, fault),
        StartFault::SignerNotMember => String::from_str(alloc, "7 SignerNotMember"),
        StartFault::InfoSignature => String::from_str(alloc, "8 InfoSignature"),
        StartFault::Strict(fault) => start_strict_text(alloc, fault),
        StartFault::OutOfMemory => String::from_str(alloc, "OutOfMemory"),
    }
}

/// Returns why the file of a state is not readable.
fn unreadable_state_text(alloc: Global, fault: NodeFault) -> Result<String, AllocError>
    ensures { IfOk result
        (λ text. string_bytes text ≡ codes "unreadable " ++ node_fault_text fault) }
{
    let fault = node_fault_text(alloc, fault)?;
    format!(in alloc; "unreadable {fault}")
}

/// Returns why no follower resumes, if the tree is the cause.
fn resumed_tree_text(alloc: Global, fault: TreeFault) -> Result<String, AllocError>
    ensures { IfOk result
        (λ text. string_bytes text ≡ codes "refused 6 Tree " ++ texts.tree_fault_text fault) }
{
    let fault = tree_fault_text(alloc, fault)?;
    format!(in alloc; "refused 6 Tree {fault}")
}

/// Returns why no follower resumes, if the members are the cause.
fn resumed_member_text(alloc: Global, fault: MemberFault) -> Result<String, AllocError>
    ensures { IfOk result
        (λ text. string_bytes text ≡ codes "refused 7 Member " ++ texts.member_fault_text fault) }
{
    let fault = member_fault_text(alloc, fault)?;
    format!(in alloc; "refused 7 Member {fault}")
}

/// Returns why no follower resumes, if the GroupContext or the tree does not meet a strict rule of the file.
fn resumed_strict_text(alloc: Global, fault: StrictFault) -> Result<String, AllocError>
    ensures { IfOk result
        (λ text. string_bytes text ≡ codes "refused 10 Strict " ++ texts.strict_fault_text fault) }
{
    let fault = strict_fault_text(alloc, fault)?;
    format!(in alloc; "refused 10 Strict {fault}")
}

/// Returns why no follower resumes from the file of a state: `unreadable` and the fault, or `refused`, number and name,
/// and those of a fault of the tree or of the members, the number of the pending proposal or of the KeyPackageRef, or the
/// strict rule of the file that is not met.
pub fn resume_fault_text(alloc: Global, fault: ResumeFault) -> Result<String, AllocError>
    ensures { IfOk result (λ text. string_bytes text ≡ texts.resume_fault_text fault) }
{
    match fault {
        ResumeFault::Unreadable(fault) => unreadable_state_text(alloc, fault),
        ResumeFault::ChecksumDiffers => String::from_str(alloc, "refused 2 ChecksumDiffers"),
        ResumeFault::UnsupportedVersion => {
            String::from_str(alloc, "refused 3 UnsupportedVersion")
        }
        ResumeFault::UnsupportedSuite => String::from_str(alloc, "refused 4 UnsupportedSuite"),
        ResumeFault::RequirementsUnreadable => {
            String::from_str(alloc, "refused 5 RequirementsUnreadable")
        }
        ResumeFault::Tree(fault) => resumed_tree_text(alloc, fault),
        ResumeFault::Member(fault) => resumed_member_text(alloc, fault),
        ResumeFault::InterimLength => String::from_str(alloc, "refused 8 InterimLength"),
        ResumeFault::KnownInvalid(n) => format!(in alloc; "refused 9 KnownInvalid {n}"),
        ResumeFault::AddedInvalid(n) => format!(in alloc; "refused 12 AddedInvalid {n}"),
        ResumeFault::Strict(fault) => resumed_strict_text(alloc, fault),
        ResumeFault::KnownStrict(n) => format!(in alloc; "refused 11 KnownStrict {n}"),
        ResumeFault::OutOfMemory => String::from_str(alloc, "OutOfMemory"),
    }
}

/// Returns why strict rules cannot be added to those of a resumed state, if the GroupContext or the tree is the cause.
fn group_refused_text(alloc: Global, fault: StrictFault) -> Result<String, AllocError>
    ensures { IfOk result
        (λ text. string_bytes text ≡ codes "10 Strict " ++ texts.strict_fault_text fault) }
{
    let fault = strict_fault_text(alloc, fault)?;
    format!(in alloc; "10 Strict {fault}")
}

/// Returns why strict rules cannot be added to those of a resumed state: number and name, and the strict rule that is not
/// met, or the number of the pending proposal from 0 on, as `10 Strict 44 KeyForm 0`.
pub fn strict_refused_text(alloc: Global, refused: StrictRefused) -> Result<String, AllocError>
    ensures { IfOk result (λ text. string_bytes text ≡ texts.strict_refused_text refused) }
{
    match refused {
        StrictRefused::Group(fault) => group_refused_text(alloc, fault),
        StrictRefused::Known(n) => format!(in alloc; "11 KnownStrict {n}"),
        StrictRefused::OutOfMemory => String::from_str(alloc, "OutOfMemory"),
    }
}
