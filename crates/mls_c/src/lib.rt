//! The calls of these libraries for C, and so for any other language: a tree is validated, the facts of a message are read,
//! and a follower of a group is started, queried, taught and given messages. `include/mls_check.h` has their conditions.
//!
//! What crosses is numbers, bytes and handles. Each call does what one of a library below does, and its postconditions
//! are those of that call.
#![tactic(auto)]

mod buffer;
mod fact_numbers;
mod facts_exports;
mod follower_calls;
mod follower_exports;
mod follower_handle;
mod group_calls;
mod group_exports;
mod group_follower;
mod input_exports;
mod input_verdict;
mod judgement;
mod loose;
mod member_credential;
mod query;
mod receipts;
mod start_copies;
mod tree_exports;

pub use fact_numbers::FactNumbers;
pub use follower_handle::FollowerHandle;
pub use group_follower::GroupFollower;
pub use input_verdict::InputVerdict;
pub use judgement::Judgement;
