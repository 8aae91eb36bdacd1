//! The trees of vectors.

ghost use Rattle.std.specs.Prelude.{◌≡◌, IfOk, Some, option_map};
ghost use Rattle.serde_json.specs.View.{view};
ghost use Rattle.mls_tree.specs.PublicTreeModel.{plain};
ghost use Rattle.mls_tree.specs.TreeHash.{tree_hash};
ghost use Rattle.mls_hash.specs.SuiteHash.{hash_of};
ghost use Rattle.mls_vectors.specs.CheckModel.{FindsTree, ReadsTreeOf};

use crate::json_members::bytes_under;
use mls_hash::{Suite, tree_hash};
use mls_nodes::NodeFault;
use mls_tree::{HashValue, PublicTree};
use serde_json::Value;
use std::alloc::{AllocError, Global};

/// Decodes a tree. `None` if the bytes are not decodable.
fn tree_of(alloc: Global, bytes: &[u8]) -> Result<Option<PublicTree>, AllocError>
    ensures { IfOk result (λ o. ReadsTreeOf bytes.now (option_map plain o)) }
{
    match PublicTree::decode(alloc, bytes) {
        Ok(tree) => Ok(Some(tree)),
        Err(fault) => match fault {
            NodeFault::OutOfMemory => Err(AllocError),
            _ => Ok(None),
        },
    }
}

/// Returns the tree with this name. `None` if it is not decodable.
pub(crate) fn tree_under(
    alloc: Global,
    vector: &Value,
    name: &str,
) -> Result<Option<PublicTree>, AllocError>
    ensures { IfOk result (λ o. FindsTree name.now (view vector.now) (option_map plain o)) }
{
    match bytes_under(alloc, vector, name)? {
        Some(bytes) => tree_of(alloc, bytes.as_slice()),
        None => Ok(None),
    }
}

/// Returns the tree hash of a whole tree.
pub(crate) fn whole_hash(suite: Suite, tree: &PublicTree) -> HashValue
    ensures { tree_hash (hash_of suite) 0 tree.now.tree ≡ Some result }
{
    match tree_hash(suite, tree, tree.leaf_count() - 1) {
        Ok(hash) => hash,
        Err(_) => unreachable!(),
    }
}
