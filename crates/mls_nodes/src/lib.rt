//! The nodes of MLS ratchet trees (RFC 9420, 5.3 and 7) as values and as bytes: credentials, leaf nodes, parent nodes
//! and the ratchet_tree extension.
//!
//! Contracts name encodings, which `specs/` has once for each type.
#![tactic(auto)]

mod capabilities;
mod codes;
mod context;
mod credential;
mod encoded_leaf;
mod encoded_len;
mod extension;
mod fault;
mod fingerprints;
mod key_prefixes;
pub mod laws;
mod leaf;
mod leaf_bytes;
mod leaf_source;
mod lists;
mod node;
mod parent;
mod ratchet_tree;
mod required_capabilities;
mod senders;
mod tbs;
mod unmerged;

pub use capabilities::Capabilities;
pub use codes::{lists_code, next_code};
pub use context::{GroupContext, decode_context, encode_context, read_context, write_context};
pub use credential::{Credential, CredentialBody, CredentialRef};
pub use encoded_leaf::{EncodedLeaf, decode_leaf, encode_leaf, read_leaf, write_leaf};
pub use encoded_len::leaf_tbs_len;
pub use extension::{Extension, ExtensionRef, ExtensionsLeft, read_extensions, write_extensions};
pub use fault::NodeFault;
pub use fingerprints::fingerprint;
pub use key_prefixes::key_prefix;
pub use leaf::LeafNode;
pub use leaf_source::{LeafSource, Lifetime};
pub use lists::{CertChain, Codes, Extensions, ExternalSenders};
pub use node::Node;
pub use parent::{ParentNode, write_parent};
pub use ratchet_tree::{
    OwnedTreeReader, RatchetTreeReader, append_blanks, decode_ratchet_tree, encode_ratchet_tree,
    full_size_of, trimmed_entries,
};
pub use required_capabilities::{
    RequiredCapabilities, find_extension, requirements, requirements_of,
};
pub use senders::{ExternalSender, external_senders};
pub use tbs::{leaf_tbs, put_leaf_tbs};
pub use unmerged::{MAX_UNMERGED, Unmerged};
