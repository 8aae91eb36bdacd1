//! Validation of ratchet trees (RFC 9420, 7.9.2 and 12.4.3.1) and of leaf nodes (7.3), and the interface to a checker
//! of signatures (5.1.2), which the caller supplies.
#![tactic(auto)]

mod capability_support;
mod code_set;
mod credential_types;
mod distinct_keys;
mod group_requirements;
mod group_tree;
mod key_prefixes;
pub mod laws;
mod members;
mod node_count;
mod parent_hash_validity;
mod plain_leaves;
mod receipt_set;
mod receipts;
mod signature_keys;
mod signatures;
mod sorted_codes;
mod sorted_leaf_lists;
mod sorted_requirements;
mod tree_validation;
mod unmerged_consistency;
mod unmerged_order;

pub use capability_support::{
    SupportedCredentials, supported_credentials, supports_own_extensions, supports_required,
};
pub use credential_types::first_unsupported_credential;
pub use distinct_keys::has_distinct_keys;
pub use group_requirements::GroupRequirements;
pub use group_tree::{GroupTreeFault, validate_group_tree};
pub use members::{
    LEAF_NODE_TBS, MemberFault, first_unmet_requirement, is_leaf_signed, validate_members,
};
pub use receipt_set::{LearningCheck, Receipts};
pub use receipts::{ReceiptsFault, receipt};
pub use signature_keys::first_repeated_signature_key;
pub use signatures::{
    OutOfMemory, SignatureCheck, Trusting, sign_content, signed, signed_in_pieces,
};
pub use sorted_requirements::SortedRequirements;
pub use tree_validation::{TreeFault, validate_tree};
