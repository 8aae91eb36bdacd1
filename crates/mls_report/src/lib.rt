//! The reports of the program `mlscheck` on a tree and on a group: whether they are valid ([`validate_tree`],
//! [`validate`]), what a follower answers to a log ([`replay`]), and which signatures are checked ([`signatures`]). Each
//! report is one call. It takes what the group is followed from as a value ([`mls_start::StartBytes`]), and writes its
//! lines to a sink. It ends with a verdict, or with the fault that ended it early.
//!
//! What is found of KeyPackages is written line by line ([`report_package`], [`report_package_signatures`],
//! [`report_package_count`]), since a command reads one after the other.
//!
//! The texts of findings, faults, answers and signatures are in modules of their own. The gate writes some of them too.
#![tactic(auto)]

mod answering;
pub mod fault_text;
mod finding;
pub mod laws;
mod log_records;
mod packages_report;
mod receipts_report;
mod replay_report;
pub mod replay_text;
mod signature_lines;
mod signature_log;
pub mod signature_text;
mod signatures_report;
mod start_report;
mod tree_report;

pub use answering::answer_to;
pub use finding::{finding_line, finding_text, finding_verdict, report_finding};
pub use log_records::{RecordStep, next_record};
pub use packages_report::{
    package_text, report_package, report_package_count, report_package_signatures, unfit_text,
};
pub use receipts_report::report_unreadable_receipts;
pub use replay_report::{Replayed, replay};
pub use signatures_report::signatures;
pub use start_report::validate;
pub use tree_report::validate_tree;
