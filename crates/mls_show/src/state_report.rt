//! The report `show state`.

ghost use Rattle.std.specs.Prelude.{◌≡◌, ◌≢◌, IfOk, IfErr};
ghost use Rattle.mls_wire.specs.ReadContracts.{seen};
ghost use Rattle.mls_show.specs.StateReport.{IsStateReport};
ghost use Rattle.mls_show.specs.StateReportInternal.{ContentReport, GivesStateTextBy, StateFaultReport};
ghost use Rattle.mls_show.specs.StateText.{state_text};

use crate::fault_text::wire_fault_text;
use crate::node_lines::{NodeLines, tree_lines};
use crate::report::{Report, unreadable_report};
use crate::state_text::{NoLines, state_text};
use crate::tree_report::no_tree_report;
use crate::verdict::Verdict;
use mls_nodes::NodeFault;
use mls_state::{FollowerState, StateFileFault, decode_state_file};
use mls_wire::{CodecFault, Opaque, RunFault, bytes_of};
use std::alloc::Global;

/// Returns the lines of the tree of a state and the line of the counts. `body` is the tree's encoding without the length.
pub(crate) fn state_tree_lines<L: NodeLines>(
    alloc: Global,
    body: &Opaque,
) -> Result<Vec<u8>, NodeFault>
    ensures { GivesStateTextBy L.line body.now (seen (λ v. v.items) result) }
{
    match bytes_of(alloc, body) {
        Ok(bytes) => tree_lines::<L>(alloc, bytes.as_slice()),
        Err(CodecFault::Wire(fault)) => Err(NodeFault::Wire(fault)),
        Err(CodecFault::OutOfMemory) => Err(NodeFault::OutOfMemory),
    }
}

/// Returns the report of bytes that are the file of no state.
#[tactic(auto, using(crate::proofs::Lines::wire_fault_is_one_line))]
pub(crate) fn no_state_report(alloc: Global, fault: StateFileFault) -> Result<Report, RunFault>
    ensures report { IfOk result (λ r. StateFaultReport fault r.bytes.items r.verdict) }
    ensures memory { IfErr result (λ e. e ≡ RunFault.Memory) }
{
    match fault {
        StateFileFault::Unreadable(fault) => {
            let fault = wire_fault_text(alloc, fault)?;
            Ok(unreadable_report(alloc, fault.as_str())?)
        }
        StateFileFault::ChecksumDiffers => Ok(Report {
            bytes: Vec::from_slice(alloc, b"unreadable ChecksumDiffers\n")?,
            verdict: Verdict::No,
        }),
        StateFileFault::OutOfMemory => Err(RunFault::Memory),
    }
}

/// Returns the report of a state that is the content of a file.
fn content_report(alloc: Global, state: &FollowerState) -> Result<Report, RunFault>
    ensures report { IfOk result (λ r. ContentReport (state_text state.now) state.now.tree r.bytes.items r.verdict) }
    ensures memory { IfErr result (λ e. e ≡ RunFault.Memory) }
{
    match state_tree_lines::<NoLines>(alloc, &state.tree) {
        Ok(counts) => {
            let text = state_text(alloc, state, counts.as_slice())?;
            Ok(Report {
                bytes: text,
                verdict: Verdict::Yes,
            })
        }
        Err(fault) => no_tree_report(alloc, fault),
    }
}

/// Returns the report of the bytes of the file of a state.
pub(crate) fn state_report(alloc: Global, bytes: Vec<u8>) -> Result<Report, RunFault>
    ensures report { IfOk result (λ r. IsStateReport bytes.items r.bytes.items r.verdict) }
    ensures memory { IfErr result (λ e. e ≡ RunFault.Memory) }
{
    let decoded = decode_state_file(alloc, bytes.as_slice());
    drop(bytes);
    match decoded {
        Ok(state) => {
            let report = content_report(alloc, &state);
            drop(state);
            report
        }
        Err(fault) => no_state_report(alloc, fault),
    }
}
