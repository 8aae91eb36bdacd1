//! How the commands of the program `mlscheck` are executed. The commands of [`mls_commands`] are re-exported, and so are the
//! reports `show` and `check`.
#![tactic(auto)]

mod execution;
mod load_checker;
mod packages_execution;
mod program;
mod program_checker;
mod progress;
mod read_files;

pub use execution::execute_order;
pub use mls_commands::{
    CheckerChoice, FileName, GroupFiles, GroupReport, Order, OrderFault, ReplayOptions, order_of,
};
pub use mls_msgs::{Profile, Rules};
pub use mls_program::{Files, run_fault};
pub use mls_show::{ShowKind, run_show};
pub use mls_vectors::{CheckKind, run_check};
pub use program::run_program;
pub use progress::Progress;
