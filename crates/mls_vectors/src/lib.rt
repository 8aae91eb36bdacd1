//! The report `check`: which test vectors of a file agree with these libraries.
#![tactic(auto)]

mod check;
mod json_members;
pub mod laws;
mod report_lines;
mod suite;
mod text_weight;
mod transcript;
mod tree_math;
mod tree_operations;
mod tree_validation;
mod vector_result;
mod vector_trees;

pub use check::run_check;
pub use mls_show::CheckKind;
