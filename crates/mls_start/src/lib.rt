//! What a group is followed from, as bytes, and what becomes of it: a follower, or the first cause for which there is none;
//! and the signatures to verify of a start, of a resumption and of a message, made one at a time. No device is read here,
//! and no text is made.
//!
//! [`StartBytes`] is a GroupInfo with or without a tree, or the file of a state. [`tree_finding`] says whether a tree is the
//! valid one of a GroupContext. What is found is determined by the bytes and the checker ([`laws`]).
#![tactic(auto)]

mod finding;
mod judge;
pub mod laws;
mod learning;
mod read_inputs;
mod signatures_left;
mod start_bytes;
mod trees;
mod trusting_start;

pub use finding::{Finding, Started};
pub use judge::Judge;
pub use learning::{learn_in_follower, learn_receipts};
pub use signatures_left::SignaturesLeft;
pub use start_bytes::{StartBytes, StartFailure};
pub use trees::tree_finding;
pub use trusting_start::TrustingStart;
