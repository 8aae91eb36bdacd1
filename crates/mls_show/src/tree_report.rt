//! The report `show tree`.

ghost use Rattle.std.specs.Prelude.{◌≡◌, ◌≢◌, IfOk, IfErr};
ghost use Rattle.mls_msgs.specs.declared.profile.Profile.TheVariants.{Members};
ghost use Rattle.mls_show.specs.InputReports.{IsUnreadableReport};
ghost use Rattle.mls_show.specs.declared.show.ShowKind.TheVariants as kinds;
ghost use Rattle.mls_show.specs.Show.{IsShowReport};

use crate::fault_text::node_fault_text;
use crate::node_lines::tree_lines;
use crate::report::{Report, unreadable_report};
use crate::tree_text::TreeLines;
use crate::verdict::Verdict;
use mls_nodes::NodeFault;
use mls_wire::RunFault;
use std::alloc::Global;

/// Returns the report of bytes that do not decode as a tree.
#[tactic(auto, using(crate::proofs::Lines::node_fault_is_one_line))]
pub(crate) fn no_tree_report(alloc: Global, fault: NodeFault) -> Result<Report, RunFault>
    ensures report { IfOk result
        (λ r. (fault ≢ NodeFault.OutOfMemory) × IsUnreadableReport r.bytes.items r.verdict) }
    ensures memory { IfErr result (λ e. e ≡ RunFault.Memory) }
{
    match fault {
        NodeFault::OutOfMemory => Err(RunFault::Memory),
        _ => {
            let fault = node_fault_text(alloc, fault)?;
            Ok(unreadable_report(alloc, fault.as_str())?)
        }
    }
}

/// Returns the report of a tree's bytes, which are dropped after it.
pub(crate) fn tree_report(alloc: Global, bytes: Vec<u8>) -> Result<Report, RunFault>
    ensures report { IfOk result
        (λ r. IsShowReport Members kinds.Tree bytes.items r.bytes.items r.verdict) }
    ensures memory { IfErr result (λ e. e ≡ RunFault.Memory) }
{
    let text = tree_lines::<TreeLines>(alloc, bytes.as_slice());
    drop(bytes);
    match text {
        Ok(text) => Ok(Report {
            bytes: text,
            verdict: Verdict::Yes,
        }),
        Err(fault) => no_tree_report(alloc, fault),
    }
}
