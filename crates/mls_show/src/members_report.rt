//! The report `show members`.

ghost use Rattle.std.specs.Prelude.{◌≡◌, IfOk, IfErr};
ghost use Rattle.mls_nodes.specs.Requirements.{extension_of};
ghost use Rattle.mls_show.specs.MembersReport.{begins_with, ExtensionMembers, MessageMembers, IsInfoMembers, IsStateMembers, IsTreeMembers, IsMembersReport};
ghost use Rattle.mls_show.specs.MembersText.{members_text};
ghost use Rattle.mls_show.specs.StateReportInternal.{ContentReport};

use crate::members_text::MemberLines;
use crate::message_report::no_message_report;
use crate::node_lines::tree_lines;
use crate::report::Report;
use crate::state_report::{no_state_report, state_tree_lines};
use crate::tree_report::no_tree_report;
use crate::verdict::Verdict;
use mls_msgs::{Message, decode_message};
use mls_nodes::{Extensions, find_extension};
use mls_state::{FollowerState, decode_state_file};
use mls_wire::RunFault;
use std::alloc::Global;

/// The extension type of a ratchet tree.
const RATCHET_TREE: u16 = 2;

/// Returns the report of the members of a tree's bytes.
fn tree_members(alloc: Global, bytes: &[u8]) -> Result<Report, RunFault>
    ensures report { IfOk result (λ r. IsTreeMembers bytes.now r.bytes.items r.verdict) }
    ensures memory { IfErr result (λ e. e ≡ RunFault.Memory) }
{
    match tree_lines::<MemberLines>(alloc, bytes) {
        Ok(text) => Ok(Report {
            bytes: text,
            verdict: Verdict::Yes,
        }),
        Err(fault) => no_tree_report(alloc, fault),
    }
}

/// Returns the report of the members of the tree in the first ratchet_tree extension.
fn extension_members(alloc: Global, extensions: &Extensions) -> Result<Report, RunFault>
    ensures report { IfOk result
        (λ r. ExtensionMembers (extension_of 2 extensions.now) r.bytes.items r.verdict) }
    ensures memory { IfErr result (λ e. e ≡ RunFault.Memory) }
{
    match find_extension(extensions, RATCHET_TREE) {
        Some(tree) => tree_members(alloc, tree),
        None => Ok(Report {
            bytes: Vec::from_slice(alloc, b"unreadable NoTree\n")?,
            verdict: Verdict::No,
        }),
    }
}

/// Returns the report of the members of a message that should be a GroupInfo.
fn message_members(alloc: Global, message: &Message) -> Result<Report, RunFault>
    ensures report { IfOk result (λ r. MessageMembers message.now r.bytes.items r.verdict) }
    ensures memory { IfErr result (λ e. e ≡ RunFault.Memory) }
{
    match message {
        Message::GroupInfo(info) => extension_members(alloc, &info.extensions),
        _ => Ok(Report {
            bytes: Vec::from_slice(alloc, b"unreadable NotGroupInfo\n")?,
            verdict: Verdict::No,
        }),
    }
}

/// Returns the report of the members of a GroupInfo's bytes, which are dropped once they are decoded.
fn info_members(alloc: Global, bytes: Vec<u8>) -> Result<Report, RunFault>
    ensures report { IfOk result (λ r. IsInfoMembers bytes.items r.bytes.items r.verdict) }
    ensures memory { IfErr result (λ e. e ≡ RunFault.Memory) }
{
    let decoded = decode_message(alloc, bytes.as_slice());
    drop(bytes);
    match decoded {
        Ok(message) => {
            let report = message_members(alloc, &message);
            drop(message);
            report
        }
        Err(fault) => no_message_report(alloc, fault),
    }
}

/// Returns the report of the members of a state that is the content of a file.
fn content_members(alloc: Global, state: &FollowerState) -> Result<Report, RunFault>
    ensures report { IfOk result
        (λ r. ContentReport members_text state.now.tree r.bytes.items r.verdict) }
    ensures memory { IfErr result (λ e. e ≡ RunFault.Memory) }
{
    match state_tree_lines::<MemberLines>(alloc, &state.tree) {
        Ok(text) => Ok(Report {
            bytes: text,
            verdict: Verdict::Yes,
        }),
        Err(fault) => no_tree_report(alloc, fault),
    }
}

/// Returns the report of the members of the state in a file's bytes, which are dropped once they are decoded.
fn state_members(alloc: Global, bytes: Vec<u8>) -> Result<Report, RunFault>
    ensures report { IfOk result (λ r. IsStateMembers bytes.items r.bytes.items r.verdict) }
    ensures memory { IfErr result (λ e. e ≡ RunFault.Memory) }
{
    let decoded = decode_state_file(alloc, bytes.as_slice());
    drop(bytes);
    match decoded {
        Ok(state) => {
            let report = content_members(alloc, &state);
            drop(state);
            report
        }
        Err(fault) => no_state_report(alloc, fault),
    }
}

/// Returns whether bytes begin with those of `front`.
fn begins_with(bytes: &[u8], front: &[u8]) -> bool
    ensures { result ≡ begins_with front.now bytes.now }
{
    bytes.starts_with(front)
}

/// Returns the report of the members of what bytes begin as: a GroupInfo, the file of a state, or else a tree.
pub(crate) fn members_report(alloc: Global, bytes: Vec<u8>) -> Result<Report, RunFault>
    ensures report { IfOk result (λ r. IsMembersReport bytes.items r.bytes.items r.verdict) }
    ensures memory { IfErr result (λ e. e ≡ RunFault.Memory) }
{
    let start = bytes.as_slice();
    let is_info = begins_with(start, &[0, 1, 0, 4]);
    let is_state = begins_with(start, &[0, 2, 32]);
    if is_info {
        return info_members(alloc, bytes);
    }
    if is_state {
        return state_members(alloc, bytes);
    }
    tree_members(alloc, bytes.as_slice())
}
