//! The report `validate-tree`: whether a ratchet tree belongs to a GroupContext and is valid, and its members are.

ghost use Rattle.std.specs.Prelude.{◌≡◌, ◌≢◌, [], Err, IfOk, OnErr, IfErr};
ghost use Rattle.std.specs.Io.KnownBytes.{Appends};
ghost use Rattle.mls_wire.specs.Devices.{IsWorking, WriteFails};
ghost use Rattle.mls_start.specs.TreeFinding.{IsTreeFinding};
ghost use Rattle.mls_report.specs.Finding.{ReportsFinding, ReportsFindingPart};

use crate::finding::report_finding;
use mls_check::{OutOfMemory, SignatureCheck};
use mls_msgs::Rules;
use mls_show::Verdict;
use mls_start::tree_finding;
use mls_wire::{RunFault, Sink};
use std::alloc::Global;

/// Writes one line for the bytes of a GroupContext and of a tree, the first that applies:
///
/// 1. The GroupContext is not decodable, its version is not `mls10`, or its cipher suite is not supported.
/// 2. The tree is not decodable.
/// 3. The `required_capabilities` extension is not decodable.
/// 4. The tree is not valid: the first check that fails, and its node index.
/// 5. The members are not valid: the first rule that fails, and its leaf index.
/// 6. A strict rule of `rules` is not met: the first that fails, and the node index if a node does not meet it
///    ([`mls_strict::validate_strict`]).
/// 7. All is valid: the tree hash. Only here the verdict is `Yes`.
///
/// # Errors
///
/// `Write` if the output fails; a prefix of the line may be written. `Memory` comes before anything is written.
pub fn validate_tree<C: SignatureCheck, K: Sink>(
    alloc: Global,
    rules: Rules,
    context: &[u8],
    tree: Vec<u8>,
    checker: &C,
    out: &mut K,
) -> Result<Verdict, RunFault>
    requires { IsWorking (K.device out.old) }
    ensures printed { IfOk result
        (ReportsFinding (IsTreeFinding rules (C.meaning checker.now) context.now tree.items)
        (K.device out.old).bytes (K.device out.new).bytes) }
    ensures effect_on_error { OnErr result
        (ReportsFindingPart (IsTreeFinding rules (C.meaning checker.now) context.now tree.items)
        (K.device out.old).bytes (K.device out.new).bytes) }
    ensures memory { result ≡ Err RunFault.Memory
        → Appends (K.device out.old).bytes (K.device out.new).bytes [] }
    ensures write { WriteFails result (K.device out.new) }
    ensures fault { IfErr result (λ e. e ≢ RunFault.Read) }
{
    match tree_finding(alloc, rules, context, tree, checker) {
        Ok(finding) => report_finding(alloc, &finding, out),
        Err(OutOfMemory) => Err(RunFault::Memory),
    }
}
