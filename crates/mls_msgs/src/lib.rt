//! The messages of RFC 9420: KeyPackage, proposals, commits, and the structs that frame them, with decoding and
//! encoding, and the content that is signed and hashed. Of a PrivateMessage and a Welcome the front is read.
#![tactic(auto)]

mod authenticated;
mod bad_tag;
mod boxed;
mod ciphertexts;
mod commit;
mod framed_content;
mod group_info;
mod key_package;
pub mod laws;
mod message;
mod pre_shared_key;
mod private_message;
mod profile;
mod proposal;
mod public_message;
mod reinit;
mod reserved_draft;
mod rules;
mod strict_rule;
mod tbs;
mod welcome;

pub use authenticated::{
    Authenticated, AuthenticatedParts, decode_authenticated, decode_authenticated_in,
    encode_authenticated,
};
pub use boxed::Boxed;
pub use ciphertexts::{Ciphertext, Ciphertexts};
pub use commit::{Commit, PathNode, PathNodes, Proposals, UpdatePath};
pub use framed_content::{Content, FramedContent, Sender};
pub use group_info::GroupInfo;
pub use key_package::KeyPackage;
pub use message::{Message, decode_message, decode_message_in, encode_message};
pub use pre_shared_key::{PreSharedKeyId, PskKind, PskUsage};
pub use private_message::{PrivateContent, PrivateFront, read_private};
pub use profile::Profile;
pub use proposal::{Proposal, ProposalOrRef, decode_proposal, decode_proposal_in, encode_proposal};
pub use public_message::{PublicMessage, PublicParts};
pub use reinit::ReInit;
pub use rules::Rules;
pub use strict_rule::StrictRule;
pub use tbs::{
    CONTENT_LABEL, GROUP_INFO_LABEL, KEY_PACKAGE_LABEL, PROPOSAL_REFERENCE_LABEL, confirmed_input,
    content_tbs, info_tbs, package_tbs,
};
pub use welcome::{ReferencesLeft, WelcomeFront, read_welcome};
