//! Hashes of an MLS group: tree hashes and parent hashes, and references to messages (RFC 9420, 5.2, 7.8 and 7.9), for
//! the cipher suites 1 to 7, which hash with SHA-256, SHA-384 or SHA-512.
//!
//! A tree hash takes one hash for each node. The original tree hash of a subtree, which leaves some leaves out, is
//! computed on the same tree, without a copy. [`SubtreeHashes`] stores the tree hashes of all subtrees, and
//! [`OriginalHashes`] those from which parent hashes are computed. So a walk over all parents hashes a subtree again
//! only if leaves are left out, and then once. [`fill_hashes`] stores the tree hashes in the tree itself, where
//! [`tree_hash`] reads them, and [`filled_hash`] those of a subtree.
#![tactic(auto)]

mod cached_hashes;
mod decode;
mod digest;
mod fault;
mod hash_input;
mod hasher;
mod leaf_set;
mod original_tree_hashes;
mod parent_hashes;
mod parent_original_hashes;
mod side;
mod subtree_hashes;
mod suite;
mod tree_hashes;

pub use cached_hashes::{fill_hashes, filled_hash};
pub use decode::decode_with_leaf_hashes;
pub use digest::{hash, ref_hash};
pub use fault::HashFault;
pub use mls_tree::HashValue;
pub use original_tree_hashes::{ChildHashes, OriginalHashes};
pub use parent_hashes::{parent_hash, parent_hash_of};
pub use side::Side;
pub use subtree_hashes::SubtreeHashes;
pub use suite::Suite;
pub use tree_hashes::{original_tree_hash, tree_hash};
