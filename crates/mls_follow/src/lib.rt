//! A follower of a group (RFC 9420): from a GroupInfo and the group's PublicMessage handshakes it computes the group's
//! public state. It accepts exactly the messages that satisfy every rule. A refused message changes nothing.
//!
//! [`Follower::start`] checks a GroupInfo with its tree, and [`Follower::take`] processes one message after the other.
//! Contracts model a follower as its state (`specs/State.antt`): the profile, the context, the tree, the interim transcript
//! hash, the pending proposals, and whether the group is over.
//!
//! [`Follower::signatures_to_verify`] returns the signatures of a message, for a caller that verifies them elsewhere, and
//! [`Follower::fresh_signatures`] those that no pending proposal has; those of a start are
//! [`mls_signatures::start_signatures`].
#![tactic(auto)]

mod added_rules;
mod changed_tree_check;
mod commit_changes;
mod context_pieces;
mod epoch_parts;
mod follower;
mod framed_content_rules;
mod group;
mod group_tree;
pub mod laws;
mod lifetimes;
mod lone_add;
mod message_header;
mod next_extensions;
mod pending_entries;
mod proposal_message;
mod proposals_by_value;
mod received_frame;
mod resolved;
mod resume;
mod resume_fault;
mod signatures;
mod start;
mod start_fault;
mod stored_state;
mod strict_rules;
mod take;
mod taken;

pub use added_rules::StrictRefused;
pub use follower::Follower;
pub use lone_add::AddFault;
pub use mls_apply::{Refusal, confirmed_hash, interim_hash};
pub use resume::ResumeRefused;
pub use resume_fault::ResumeFault;
pub use signatures::SignatureListFault;
pub use start::{StartRefused, tree_in};
pub use start_fault::StartFault;
pub use taken::Taken;
