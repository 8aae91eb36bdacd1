//! Rows of followers that resume from the file of a state (docs/FORMATS.md).

use crate::call_result::CallResult;
use crate::fault::RowFault;
use crate::row::Row;
use crate::state::{add_added, add_state};
use crate::text_writer::TextWriter;
use mls_check::{SignatureCheck, Trusting};
use mls_follow::Follower;
use std::alloc::Global;

/// Checks that the file of a follower's state is this one.
fn check_file<C: SignatureCheck>(follower: &Follower<C>, file: &[u8]) -> Result<(), RowFault> {
    match follower.encode_state() {
        Ok(bytes) if bytes.as_slice() == file => Ok(()),
        Ok(_) => Err(RowFault::TwoResults),
        Err(_) => Err(RowFault::OutOfMemory),
    }
}

/// A follower's state, and the KeyPackageRefs of those that the last commit added.
fn resumed_text<C: SignatureCheck>(
    alloc: Global,
    follower: &Follower<C>,
) -> Result<String, RowFault> {
    let mut text = TextWriter::new(alloc);
    text.add("state");
    add_state(follower, &mut text);
    text.add(" / added");
    add_added(follower, &mut text);
    text.finish()
}

/// The result of a resumption by a checker.
fn resume_by<C: SignatureCheck>(row: &Row, checker: C) -> Result<CallResult, RowFault> {
    match Follower::resume(row.alloc, row.bytes(1), checker) {
        Ok(follower) => {
            row.some(check_file(&follower, row.bytes(1).as_slice()));
            let text = resumed_text(row.alloc, &follower);
            drop(follower);
            CallResult::of(text)
        }
        Err(refused) => {
            let found = CallResult::fault(row.alloc, &refused.fault);
            drop(refused);
            found
        }
    }
}

/// `resume | STATE | CHECKER`: the state of a follower that resumes from a file, whose file has to be that one, and the KeyPackageRefs of
/// those that the last commit added; or why no follower resumes.
pub(crate) fn resume(row: &Row) -> Result<CallResult, RowFault> {
    row.has(2);
    if row.is_trusting(2) {
        resume_by(row, Trusting)
    } else {
        resume_by(row, row.receipts(2))
    }
}
