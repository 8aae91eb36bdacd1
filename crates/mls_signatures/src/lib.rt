//! Which signatures have to be verified (RFC 9420, 5.1.2): those of a start from a GroupInfo, those of a resumption
//! from a stored state, and those of a message of a group.
//!
//! [`start_signatures`] and [`message_signatures`] return them without duplicates, for a caller that verifies them
//! elsewhere. [`fresh_message_signatures`] leaves out those of the pending proposals. [`info_signatures`] and
//! [`leaf_signatures`] return those of a start one at a time. [`resumption_signatures`] returns those of a resumption,
//! [`package_signatures`] those of a KeyPackage by itself. None verifies a signature. A [`SignatureList`] stores the id of
//! the group once.
#![tactic(auto)]

mod added_leaves;
mod commit_signatures;
mod duplicates;
mod external_commit_signatures;
mod fresh_leaf_signatures;
pub mod laws;
mod new_leaf_signatures;
mod push_signatures;
mod resumption;
mod shortened_content;
mod shortened_signature;
mod signature_list;
mod signature_to_verify;
mod signatures;
mod signing_keys;
mod single_signatures;

pub use resumption::resumption_signatures;
pub use signature_list::SignatureList;
pub use signature_to_verify::SignatureToVerify;
pub use signatures::{
    GroupEpoch, fresh_message_signatures, info_signatures, leaf_signatures, message_signatures,
    package_signatures, start_signatures,
};
pub use signing_keys::{
    external_key_among, may_propose, outside_key_among, senders_of, signed_context,
};
