//! Vectors of the kind `tree-math`: node indices of a tree (RFC 9420, 4.1.1 and Appendix C).

ghost use Rattle.std.specs.Prelude.{◌≡◌, ◌↔◌, ◌≤◌, ◌<◌, ◌+◌, ◌*◌, IsTrue, IfSome, IfNone, length};
ghost use Rattle.serde_json.specs.View.{view, items_view};
ghost use Rattle.mls_nodes.specs.Limits.{leaf_limit};
ghost use Rattle.mls_tree.specs.RatchetTree.{RatchetTree};
ghost use Rattle.mls_tree.specs.Tree.{leaf_count};
ghost use Rattle.mls_vectors.specs.CheckModel.{outcome_of, relation, column_name};
ghost use Rattle.mls_vectors.specs.VectorResults.{IsVectorResult};
ghost use Rattle.mls_vectors.specs.TreeMath.{HasSize, IsEntry, IsTreeMath, node_index_checks};
ghost use Rattle.mls_vectors.specs.VectorFile.{AreEntries, HasEntries};

use crate::json_members::{array_under, has_number, is_number, whole_under};
use crate::vector_result::VectorResult;
use mls_tree::{left, parent, right, root, sibling};
use serde_json::Value;

/// The most leaves that a tree may have.
const MAX_LEAVES: u64 = 1_048_576;

/// The relation that an array of a vector has for each node.
#[derive(Clone, Copy, Debug, PartialEq, Eq)]
enum Column {
    /// The left child.
    Left,
    /// The right child.
    Right,
    /// The parent.
    Parent,
    /// The sibling.
    Sibling,
}

/// Returns the name of the array.
fn name_of(column: Column) -> &'static str
    ensures { result.now ≡ column_name column }
{
    match column {
        Column::Left => "left",
        Column::Right => "right",
        Column::Parent => "parent",
        Column::Sibling => "sibling",
    }
}

/// Returns the related node of the node at node index `node_index`.
fn related_node_index(column: Column, node_index: u32, leaves: u32) -> Option<u32>
    ensures { (t : RatchetTree) → leaf_count t.tree ≡ leaves → relation column t.tree node_index result }
{
    match column {
        Column::Left => left(node_index, leaves),
        Column::Right => right(node_index, leaves),
        Column::Parent => parent(node_index, leaves),
        Column::Sibling => sibling(node_index, leaves),
    }
}

/// Returns whether an entry is the right one for the node at node index `node_index`.
fn is_entry(column: Column, leaves: u32, node_index: u32, entry: &Value) -> bool
    ensures { (t : RatchetTree)
        → leaf_count t.tree ≡ leaves
        → (IsTrue result ↔ IsEntry (relation column) t.tree node_index (view entry.now)) }
{
    match related_node_index(column, node_index, leaves) {
        None => entry.is_null(),
        Some(expected) => is_number(entry, u64::from(expected)),
    }
}

/// Returns whether the entries are the right ones for all nodes.
fn are_entries(column: Column, leaves: u32, entries: &[Value]) -> bool
    requires { leaves ≤ leaf_limit }
    ensures { (t : RatchetTree)
        → leaf_count t.tree ≡ leaves
        → (IsTrue result
        ↔ AreEntries (IsEntry (relation column) t.tree) leaves 0 (items_view entries.now)) }
{
    if entries.len() + 1 != 2 * leaves as usize {
        return false;
    }
    let mut node_index = 0;
    let mut rest = entries;
    while let Some((entry, tail)) = rest.split_first() {
        if !is_entry(column, leaves, node_index, entry) {
            return false;
        }
        rest = tail;
        node_index += 1;
    }
    true
}

/// Returns whether the vector has the array, with the right entries for all nodes.
fn has_entries(column: Column, leaves: u32, vector: &Value) -> bool
    requires { leaves ≤ leaf_limit }
    ensures { (t : RatchetTree)
        → leaf_count t.tree ≡ leaves
        → (IsTrue result
        ↔ HasEntries (IsEntry (relation column) t.tree) leaves (column_name column)
        (view vector.now)) }
{
    match array_under(vector, name_of(column)) {
        Some(entries) => are_entries(column, leaves, entries.as_slice()),
        None => false,
    }
}

/// Returns the number of leaves that the vector names, if a tree can have that number.
fn size_of(vector: &Value) -> Option<u32>
    ensures some { IfSome result
        (λ n. (t : RatchetTree) × (leaf_count t.tree ≡ n) × HasSize (view vector.now) t) }
    ensures none { IfNone result ((t : RatchetTree) → ¬ HasSize (view vector.now) t) }
{
    let leaves = whole_under(vector, "n_leaves")?;
    if leaves > MAX_LEAVES {
        return None;
    }
    let leaves = leaves as u32;
    if root(leaves).is_none() {
        return None;
    }
    Some(leaves)
}

/// Returns the outcome of a vector with this number of leaves.
fn node_index_outcome(leaves: u32, vector: &Value) -> VectorResult
    requires low { leaves ≤ leaf_limit }
    requires some { 0 < leaves }
    ensures { (t : RatchetTree)
        → leaf_count t.tree ≡ leaves
        → IsVectorResult (node_index_checks t.tree (view vector.now)) (outcome_of result) }
{
    if !has_number(vector, "n_nodes", 2 * u64::from(leaves) - 1) {
        return VectorResult::Fail("n_nodes");
    }
    if !has_number(vector, "root", u64::from(leaves) - 1) {
        return VectorResult::Fail("root");
    }
    if !has_entries(Column::Left, leaves, vector) {
        return VectorResult::Fail("left");
    }
    if !has_entries(Column::Right, leaves, vector) {
        return VectorResult::Fail("right");
    }
    if !has_entries(Column::Parent, leaves, vector) {
        return VectorResult::Fail("parent");
    }
    if !has_entries(Column::Sibling, leaves, vector) {
        return VectorResult::Fail("sibling");
    }
    VectorResult::Pass
}

/// Returns the outcome of a vector.
pub(crate) fn tree_math_outcome(vector: &Value) -> VectorResult
    ensures { IsTreeMath (view vector.now) (outcome_of result) }
{
    match size_of(vector) {
        Some(leaves) => node_index_outcome(leaves, vector),
        None => VectorResult::Fail("n_leaves"),
    }
}
