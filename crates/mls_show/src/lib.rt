//! The report `show`: the content of an input as text. How an input is read to its end, and how a report of one input is
//! written and ends. Also the names of the kinds of test vectors, which the command line and the checks of them share.
#![tactic(auto)]

mod check_kind;
mod credential_text;
mod extensions_text;
mod fault_text;
mod info_text;
mod key_package_text;
mod log_report;
mod members_report;
mod members_text;
mod message_report;
mod message_text;
mod node_lines;
mod read_to_end;
mod report;
mod report_buffer;
mod show;
mod state_report;
mod state_text;
mod tree_report;
mod tree_text;
mod value_text;
mod verdict;
mod write;

pub use check_kind::CheckKind;
pub use fault_text::{node_fault_text, wire_fault_text};
pub use read_to_end::read_all;
pub use report::Report;
pub use show::{ShowKind, run_show, run_show_in};
pub use value_text::hex_of;
pub use verdict::{Verdict, status_of};
pub use write::{write_bytes, write_text};
