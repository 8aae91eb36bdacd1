//! Ratchet trees (RFC 9420, 4.1, 7.7 and Appendix C): the arithmetic of node indices, and `PublicTree`, the public
//! nodes of a group as one array, with an optional cache of tree hashes.
//!
//! Contracts see a `PublicTree` as a recursive tree (`specs/Tree.antt`) with the list of cached hashes
//! (`specs/PublicTreeModel.antt`). The array is private to this crate.
//!
//! Nodes are named by their node indices, which parameters call `node_index`. Leaf `i` has the node index `2 * i`,
//! parents have odd ones, and the root of a tree of `n` leaves has `n - 1`.
#![tactic(auto)]

mod blanks;
mod cache_slots;
mod cache_update;
mod cached_counts;
mod changed_nodes;
mod decode;
mod entries;
mod error;
mod hash_cache;
mod hash_kind;
mod hash_list;
mod hash_value;
mod journal;
pub mod laws;
mod leaf_split;
mod logged_hashes;
mod merged_parents;
mod node_array;
mod node_indices;
mod node_view;
mod paths;
mod public_tree;
mod resolution;
mod resolution_len;
mod subtree_counts;
mod swap_prefix;
mod tree_size;
mod unmerged_leaves;

pub use error::TreeError;
pub use hash_kind::HashKind;
pub use hash_list::HashList;
pub use hash_value::HashValue;
pub use journal::Journal;
pub use leaf_split::split_leaves;
pub use node_indices::{left, level, parent, right, root, sibling};
pub use node_view::Part;
pub use public_tree::PublicTree;
