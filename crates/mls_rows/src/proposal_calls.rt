//! Rows of proposals (RFC 9420, 12.1 and 12.4).

use crate::call_result::CallResult;
use crate::fault::RowFault;
use crate::row::Row;
use crate::state::sender_text;
use crate::text_writer::TextWriter;
use mls_apply::{
    EpochState, KnownProposal, ListItem, PendingProposals, Refusal, check_join, check_proposal,
    join_items, package_ref, resolve_list,
};
use mls_check::{SignatureCheck, Trusting};
use mls_hash::Suite;
use mls_msgs::{Commit, KeyPackage, Proposal, Sender, encode_proposal};
use mls_nodes::GroupContext;
use mls_tree::{HashValue, PublicTree};
use mls_wire::{CodecFault, Opaque, Reader, read_value};
use std::alloc::Global;

/// `none`, or a refusal.
fn refusal_result(alloc: Global, refusal: Option<Refusal>) -> Result<CallResult, RowFault> {
    match refusal {
        None => CallResult::word(alloc, "none"),
        Some(refusal) => CallResult::fault(alloc, &refusal),
    }
}

/// Why a proposal is refused in this context and tree.
fn checked<C: SignatureCheck>(
    row: &Row,
    context: &GroupContext,
    tree: &PublicTree,
    proposal: &Proposal,
    checker: &C,
) -> Result<CallResult, RowFault> {
    match Suite::from_u16(context.cipher_suite) {
        Ok(suite) if suite.number() == context.cipher_suite => {
            let sender = Sender::Member(row.number(3));
            let epoch = EpochState { context, tree };
            let found = check_proposal(row.alloc, &epoch, sender, proposal, checker);
            refusal_result(row.alloc, found.err())
        }
        _ => Err(RowFault::Field(1, "a context of a suite that is followed")),
    }
}

/// The same in the tree of its field.
fn checked_in<C: SignatureCheck>(
    row: &Row,
    context: &GroupContext,
    proposal: &Proposal,
    checker: &C,
) -> Result<CallResult, RowFault> {
    let tree = row.tree(2)?;
    let found = checked(row, context, &tree, proposal, checker);
    drop(tree);
    found
}

/// The same of a proposal and the context of its field.
fn checked_by<C: SignatureCheck>(
    row: &Row,
    proposal: &Proposal,
    checker: &C,
) -> Result<CallResult, RowFault> {
    let context = row.value::<GroupContext>(1, "a context")?;
    let found = checked_in(row, &context, proposal, checker);
    drop(context);
    found
}

/// `proposal | CONTEXT | TREE | SENDER | CHECKER | PROPOSAL`: why a member's proposal is refused, or `none`.
pub(crate) fn proposal(row: &Row) -> Result<CallResult, RowFault> {
    row.has(5);
    let proposal = row.value::<Proposal>(5, "a proposal")?;
    let found = if row.is_trusting(4) {
        checked_by(row, &proposal, &Trusting)
    } else {
        checked_by(row, &proposal, &row.receipts(4))
    };
    drop(proposal);
    found
}

/// Reads a pending proposal: a vector that is its reference, its sender, and itself. Its authenticated data and its signature are
/// empty.
fn read_known(alloc: Global, reader: &mut Reader<'_>) -> Result<KnownProposal, CodecFault> {
    let reference = reader.read_vec()?;
    let sender = reader.read_u32()?;
    let proposal = read_value::<Proposal>(alloc, reader)?;
    let authenticated_data = Opaque::copy(alloc, &[])?;
    let signature = Opaque::copy(alloc, &[])?;
    match HashValue::new(reference) {
        Some(reference) => Ok(KnownProposal {
            reference,
            sender: Sender::Member(sender),
            proposal,
            authenticated_data,
            signature,
        }),
        None => Err(CodecFault::OutOfMemory),
    }
}

/// Adds the next pending proposal. Returns whether there was one.
fn add_known(row: &Row, at: usize, reader: &mut Reader<'_>, all: &mut PendingProposals) -> bool {
    match read_known(row.alloc, reader) {
        Ok(known) => {
            row.require(all.push(row.alloc, known));
            true
        }
        Err(_) => {
            row.refuse(at, "pending proposals");
            false
        }
    }
}

/// A field that is pending proposals, one after the other.
fn known_at(row: &Row, at: usize) -> PendingProposals {
    let bytes = row.bytes(at);
    let mut reader = Reader::new(bytes.as_slice());
    let mut all = PendingProposals::new(row.alloc);
    for _ in 0..bytes.len() {
        if reader.at_end() || !add_known(row, at, &mut reader, &mut all) {
            break;
        }
    }
    all
}

/// Proposals, each after its sender.
fn items_text(alloc: Global, items: &[ListItem<'_>]) -> Result<String, RowFault> {
    let mut text = TextWriter::new(alloc);
    for item in items {
        text.separate(" ");
        text.add_made(sender_text(alloc, item.sender));
        text.add(" ");
        text.add_made_digits(encode_proposal(alloc, item.proposal));
    }
    text.finish()
}

/// The proposals of the list of a commit, each after its sender, or the fault.
fn resolved_text(
    alloc: Global,
    commit: &Commit,
    committer: u32,
    known: &PendingProposals,
) -> Result<CallResult, RowFault> {
    match resolve_list(alloc, commit, Sender::Member(committer), known) {
        Ok(items) => {
            let text = items_text(alloc, items.as_slice());
            drop(items);
            CallResult::of(text)
        }
        Err(fault) => CallResult::fault(alloc, &fault),
    }
}

/// `resolve | PENDING | COMMITTER | COMMIT`: the proposals of the list of a commit, each after its sender.
pub(crate) fn resolve(row: &Row) -> Result<CallResult, RowFault> {
    row.has(3);
    let commit = row.value::<Commit>(3, "a commit")?;
    let known = known_at(row, 1);
    let text = resolved_text(row.alloc, &commit, row.number(2), &known);
    drop(commit);
    drop(known);
    text
}

/// Why an external commit is refused in the context and the tree of their fields, before its list is applied.
fn joined(row: &Row, commit: &Commit) -> Result<CallResult, RowFault> {
    let context = row.value::<GroupContext>(1, "a context")?;
    let found = joined_in(row, &context, commit);
    drop(context);
    found
}

/// The same in this context.
fn joined_in(row: &Row, context: &GroupContext, commit: &Commit) -> Result<CallResult, RowFault> {
    let tree = row.tree(2)?;
    let epoch = EpochState {
        context,
        tree: &tree,
    };
    let found = check_join(row.alloc, &epoch, commit);
    drop(tree);
    refusal_result(row.alloc, found.err())
}

/// `check_join | CONTEXT | TREE | COMMIT`: why an external commit is refused before its list is applied, or `none`.
pub(crate) fn join(row: &Row) -> Result<CallResult, RowFault> {
    row.has(3);
    let commit = row.value::<Commit>(3, "a commit")?;
    let found = joined(row, &commit);
    drop(commit);
    found
}

/// `join_items | COMMIT`: the proposals that an external commit includes by value, each after its sender.
pub(crate) fn items_of_join(row: &Row) -> Result<CallResult, RowFault> {
    row.has(1);
    let commit = row.value::<Commit>(1, "a commit")?;
    let text = match join_items(row.alloc, commit.proposals.as_slice()) {
        Ok(items) => {
            let text = items_text(row.alloc, items.as_slice());
            drop(items);
            text
        }
        Err(_) => Err(RowFault::OutOfMemory),
    };
    drop(commit);
    CallResult::of(text)
}

/// `pending | PENDING | REFERENCE`: the sender of the first pending proposal of a reference, or `none`.
pub(crate) fn find(row: &Row) -> Result<CallResult, RowFault> {
    row.has(2);
    let reference = row.bytes(2);
    let known = known_at(row, 1);
    let sender = known.find(reference.as_slice()).map(|found| found.sender);
    drop(known);
    match sender {
        Some(sender) => CallResult::of(sender_text(row.alloc, sender)),
        None => CallResult::word(row.alloc, "none"),
    }
}

/// `package_ref | KEY PACKAGE`: the KeyPackageRef of a KeyPackage.
pub(crate) fn reference_of_package(row: &Row) -> Result<CallResult, RowFault> {
    row.has(1);
    let key_package = row.value::<KeyPackage>(1, "a KeyPackage")?;
    let reference = package_ref(row.alloc, &key_package);
    drop(key_package);
    match reference {
        Ok(reference) => CallResult::bytes(row.alloc, reference.as_slice()),
        Err(fault) => CallResult::fault(row.alloc, &fault),
    }
}
