//! Why bytes are not decodable, as text in a report.

ghost use Rattle.std.specs.Prelude.{◌≡◌, IfOk, string_bytes};
ghost use Rattle.mls_show.specs.FaultText as texts;

use mls_nodes::NodeFault;
use mls_wire::{WireFault, WireFaultKind};
use std::alloc::{AllocError, Global};

/// Returns why bytes are not decodable.
fn wire_kind_text(alloc: Global, kind: WireFaultKind) -> Result<String, AllocError>
    ensures { IfOk result (λ text. string_bytes text ≡ texts.wire_kind_text kind) }
{
    let name = match kind {
        WireFaultKind::Truncated => "Truncated",
        WireFaultKind::NotShortest => "NotShortest",
        WireFaultKind::BadPrefix => "BadPrefix",
        WireFaultKind::BadOptional => "BadOptional",
        WireFaultKind::BadTag(value) => return format!(in alloc; "BadTag {value}"),
        WireFaultKind::OddLength => "OddLength",
        WireFaultKind::Trailing => "Trailing",
        WireFaultKind::TooLong => "TooLong",
    };
    String::from_str(alloc, name)
}

/// Returns why bytes are not decodable, and the offset, as `Truncated 7`.
pub fn wire_fault_text(alloc: Global, fault: WireFault) -> Result<String, AllocError>
    ensures { IfOk result (λ text. string_bytes text ≡ texts.wire_fault_text fault) }
{
    let kind = wire_kind_text(alloc, fault.kind)?;
    let at = fault.at;
    format!(in alloc; "{kind} {at}")
}

/// Returns why a ratchet tree (RFC 9420, 12.4.3.3) is not decodable: the fault's name, and its offset or node index.
pub fn node_fault_text(alloc: Global, fault: NodeFault) -> Result<String, AllocError>
    ensures { IfOk result (λ text. string_bytes text ≡ texts.node_fault_text fault) }
{
    match fault {
        NodeFault::Wire(fault) => wire_fault_text(alloc, fault),
        NodeFault::WrongNodeKind(node_index) => format!(in alloc; "WrongNodeKind {node_index}"),
        NodeFault::LastBlank => String::from_str(alloc, "LastBlank"),
        NodeFault::EmptyTree => String::from_str(alloc, "EmptyTree"),
        NodeFault::TooManyLeaves => String::from_str(alloc, "TooManyLeaves"),
        NodeFault::OutOfMemory => String::from_str(alloc, "OutOfMemory"),
    }
}
