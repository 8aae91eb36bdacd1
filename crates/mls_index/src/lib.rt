//! An index of a ratchet tree, and the theorems by which a changed tree is checked from its changes (RFC 9420, 7.3 and
//! 12.4.2).
//!
//! A commit changes few nodes of a large tree. If the tree before it has distinct encryption keys and valid leaf nodes,
//! the keys of the changed nodes are looked up in a [`TreeIndex`], which also says whether each leaf supports the
//! credential types of all leaves. It names the first leaf that does not, or whose signature key another leaf has. The
//! other rules are checked of the changed leaves only ([`first_changed_failing`]). The theorems in [`laws`] say that the
//! whole tree then has distinct keys and valid leaf nodes again, and that a leaf that is named is the first of the whole
//! tree.
#![tactic(auto)]

mod changed_leaves;
mod credential_counts;
mod entry_table;
mod hashed_keys;
mod key_table;
pub mod laws;
mod leaf_credentials;
mod node_key;
mod numbers;
mod tree_index;

pub use changed_leaves::{LeafRule, LeafRules, first_changed_failing};
pub use node_key::KeyKind;
pub use tree_index::TreeIndex;
