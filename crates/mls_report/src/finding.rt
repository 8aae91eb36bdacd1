//! The line and the verdict of what is found of a group's inputs.

ghost use Rattle.std.specs.Prelude.{◌≡◌, ◌≢◌, ◌++◌, [], codes, Err, IfOk, IfErr, OnErr, string_bytes};
ghost use Rattle.std.specs.Io.KnownBytes.{Appends};
ghost use Rattle.mls_wire.specs.Devices.{AppendsPrefix, IsWorking, WriteFails};
ghost use Rattle.mls_report.specs.Finding as findings;

use crate::fault_text::{
    member_fault_text, resume_fault_text, start_fault_text, strict_fault_text, strict_refused_text,
    tree_fault_text,
};
use mls_show::{Verdict, hex_of, node_fault_text, wire_fault_text, write_text};
use mls_start::{Finding, Started};
use mls_wire::{RunFault, Sink};
use std::alloc::{AllocError, Global};

/// Returns the words of a finding with its detail.
pub(crate) fn with_detail(alloc: Global, head: &str, more: String) -> Result<String, AllocError>
    ensures { IfOk result
        (λ text. string_bytes text ≡ head.now ++ (codes " " ++ string_bytes more)) }
{
    let more = more.as_str();
    format!(in alloc; "{head} {more}")
}

/// Returns the words for a follower that can start.
fn started_text(alloc: Global, started: &Started) -> Result<String, AllocError>
    ensures { IfOk result (λ text. string_bytes text ≡ findings.started_text started.now) }
{
    let (epoch, members) = (started.epoch, started.members);
    let tree_hash = hex_of(alloc, started.tree_hash.as_slice())?;
    format!(in alloc; "valid epoch {epoch} members {members} tree {tree_hash}")
}

/// Returns the verdict: `Yes` for a valid tree, and for a follower that can start or resumes.
pub fn finding_verdict(finding: &Finding) -> Verdict
    ensures { result ≡ findings.finding_verdict finding.now }
{
    if finding.is_valid() {
        Verdict::Yes
    } else {
        Verdict::No
    }
}

/// Returns the words of a finding: its kind, and then its detail, if it has one.
pub fn finding_text(alloc: Global, finding: &Finding) -> Result<String, AllocError>
    ensures { IfOk result (λ text. string_bytes text ≡ findings.finding_text finding.now) }
{
    match finding {
        Finding::ContextUnreadable(fault) => {
            with_detail(alloc, "context unreadable", wire_fault_text(alloc, *fault)?)
        }
        Finding::InfoUnreadable(fault) => {
            with_detail(alloc, "info unreadable", wire_fault_text(alloc, *fault)?)
        }
        Finding::NotGroupInfo => String::from_str(alloc, "info unreadable NotGroupInfo"),
        Finding::TreeUnreadable(fault) => {
            with_detail(alloc, "tree unreadable", node_fault_text(alloc, *fault)?)
        }
        Finding::UnsupportedVersion => {
            String::from_str(alloc, "context refused UnsupportedVersion")
        }
        Finding::UnsupportedSuite => String::from_str(alloc, "context refused UnsupportedSuite"),
        Finding::RequirementsUnreadable => {
            String::from_str(alloc, "context refused RequirementsUnreadable")
        }
        Finding::TreeRefused(fault) => {
            with_detail(alloc, "tree refused", tree_fault_text(alloc, *fault)?)
        }
        Finding::MembersRefused(fault) => {
            with_detail(alloc, "members refused", member_fault_text(alloc, *fault)?)
        }
        Finding::StartRefused(fault) => {
            with_detail(alloc, "start refused", start_fault_text(alloc, *fault)?)
        }
        Finding::StateRefused(fault) => {
            with_detail(alloc, "state", resume_fault_text(alloc, *fault)?)
        }
        Finding::TreeNotStrict(fault) => {
            with_detail(alloc, "strict refused", strict_fault_text(alloc, *fault)?)
        }
        Finding::StateNotStrict(refused) => {
            with_detail(
                alloc,
                "state refused",
                strict_refused_text(alloc, *refused)?,
            )
        }
        Finding::TreeValid(hash) => with_detail(alloc, "valid", hex_of(alloc, hash.as_slice())?),
        Finding::Starts(started) => started_text(alloc, started),
    }
}

/// Returns the line of a finding: its words and a line feed.
pub fn finding_line(alloc: Global, finding: &Finding) -> Result<String, AllocError>
    ensures { IfOk result (λ text. string_bytes text ≡ findings.finding_line finding.now) }
{
    let text = finding_text(alloc, finding)?;
    format!(in alloc; "{text}\n")
}

/// Writes the line of a finding and returns its verdict.
///
/// # Errors
///
/// - `Memory` before anything is written.
/// - `Write` if the output fails; then a prefix of the line may be written.
pub fn report_finding<K: Sink>(
    alloc: Global,
    finding: &Finding,
    out: &mut K,
) -> Result<Verdict, RunFault>
    requires { IsWorking (K.device out.old) }
    ensures printed { IfOk result
        (λ verdict. Appends (K.device out.old).bytes (K.device out.new).bytes
        (findings.finding_line finding.now) × (verdict ≡ findings.finding_verdict finding.now)) }
    ensures effect_on_error { OnErr result
        (AppendsPrefix (K.device out.old).bytes (K.device out.new).bytes
        (findings.finding_line finding.now)) }
    ensures memory { result ≡ Err RunFault.Memory
        → Appends (K.device out.old).bytes (K.device out.new).bytes [] }
    ensures write { WriteFails result (K.device out.new) }
    ensures fault { IfErr result (λ e. e ≢ RunFault.Read) }
{
    let line = finding_line(alloc, finding)?;
    write_text(out, line.as_str())?;
    Ok(finding_verdict(finding))
}
