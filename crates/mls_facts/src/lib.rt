//! The facts of a message that do not depend on a group (RFC 9420, 6, 6.1, 12.1 and 12.4): what a delivery service needs to
//! route a message, to limit it, and to decide who may send it.
//!
//! [`message_facts`] reads them from a decoded message. It allocates nothing. It checks nothing: each fact is what the
//! message says of itself.
#![tactic(auto)]

mod facts;
mod named_group;
mod proposal_counts;
mod sender_leaf;

pub use facts::{MessageFacts, message_facts};
pub use proposal_counts::ProposalCounts;
