//! The file of a follower's state: what a service stores of a group so that it can go on after a restart.
//!
//! A state ([`FollowerState`]) has
//!
//! - the profile and the set of strict rules by which the group is followed (own rule), and whether the group is over
//!   (RFC 9420, 11.2);
//! - the group's context, its interim transcript hash and its ratchet tree (8.1, 8.2, 12.4.3.3);
//! - each proposal received in the current epoch, with what its sender signed and the signature: an AuthenticatedContent
//!   (6, 12.4);
//! - the KeyPackageRefs (5.2) of the Adds of the last accepted commit.
//!
//! A [`StateFile`] is the encoding of a state with a version and a checksum before it. [`encode_state_file`] writes one and
//! [`decode_state_file`] reads one. The layout is this repository's own; its parts are encoded as RFC 9420 has them. The
//! checksum finds damage. It doesn't show who wrote the file.
#![tactic(auto)]

mod fault;
mod file;
pub mod laws;
mod rule_set;
mod state;

pub use fault::StateFileFault;
pub use file::{StateFile, decode_state_file, encode_state_file};
pub use state::{FollowerState, GroupMode};
