//! The commands of the program `mlscheck`, and how a command line is parsed.
#![tactic(auto)]

mod arguments;
mod asked_rules;
mod asked_time;
mod clap_command;
mod file_name;
mod order;
mod parse_order;

pub use file_name::FileName;
pub use order::{CheckerChoice, GroupFiles, GroupReport, Order, OrderFault, ReplayOptions};
pub use parse_order::order_of;
