//! The node indices at which a change of a tree replaced, added or removed a node.
ghost use Rattle.std.specs.Prelude.{◌≡◌, ◌≤◌, ◌<◌, ◌+◌, ◌^◌, ◌++◌, filter, is_some, OnOk, IfOk};
ghost use Rattle.std.specs.List.{range_with_len};
ghost use Rattle.mls_nodes.specs.Limits.{leaf_limit};
ghost use Rattle.mls_tree.specs.Tree.{leaf_count, node_at};
ghost use Rattle.mls_tree.specs.RatchetTree.{RatchetTree};
ghost use Rattle.mls_tree.specs.Journals.{undone};
ghost use Rattle.mls_tree.specs.ChangedNodes.{AgreeExceptAt};

use crate::journal::UndoEntry;
use crate::public_tree::PublicTree;
use std::alloc::AllocError;

// Appends the node indices of the non-blank nodes of `tree` among `count` node indices, beginning with `first`.
fn push_non_blank(
    out: &mut Vec<u32>,
    tree: &PublicTree,
    first: u32,
    count: u32,
) -> Result<(), AllocError>
    requires { first + count < 2 ^ 32 }
    ensures { OnOk result (out.new.items ≡ out.old.items
        ++ filter (λ p. is_some (node_at tree.now.tree p)) (range_with_len first count)) }
{
    for offset in 0..count {
        let node_index = first + offset;
        if tree.node(node_index).is_some() {
            out.push(node_index)?;
        }
    }
    Ok(())
}

/// Appends the node indices at which a change replaced a node, those of the non-blank nodes that truncating removed, and
/// those of the non-blank nodes of `tree` in what extending added. `tree` is the tree after all changes. `former` is the
/// undo entry of the change, and `leaves` the number of leaves after it. Returns the number of leaves before it.
pub(crate) fn push_changed(
    out: &mut Vec<u32>,
    tree: &PublicTree,
    former: &UndoEntry,
    leaves: u32,
) -> Result<u32, AllocError>
    requires some { 0 < leaves }
    requires few { leaves ≤ leaf_limit }
    ensures leaves { IfOk result (λ n. (t : RatchetTree) → leaf_count t.tree ≡ leaves
        → leaf_count (undone former.now t.tree) ≡ n) }
    ensures node_indices { OnOk result ((t : RatchetTree) → leaf_count t.tree ≡ leaves
        → AgreeExceptAt out.old.items t.tree tree.now.tree
        → AgreeExceptAt out.new.items (undone former.now t.tree) tree.now.tree) }
{
    match former {
        UndoEntry::Leaf { index, .. } => {
            if *index < leaves {
                out.push(2 * *index)?;
            }
            Ok(leaves)
        }
        UndoEntry::Parent { node_index, .. } => {
            out.push(*node_index)?;
            Ok(leaves)
        }
        UndoEntry::AddedUnmerged { node_index, .. } => {
            out.push(*node_index)?;
            Ok(leaves)
        }
        UndoEntry::Extended => {
            if leaves == 1 {
                return Ok(1);
            }
            let half = leaves / 2;
            push_non_blank(out, tree, 2 * half - 1, 2 * (leaves - half))?;
            Ok(half)
        }
        UndoEntry::Truncated(whole) => {
            let count = whole.leaf_count();
            if count <= leaves {
                return Ok(leaves);
            }
            push_non_blank(out, &**whole, 2 * leaves - 1, 2 * (count - leaves))?;
            Ok(count)
        }
        UndoEntry::Hash(_) => Ok(leaves),
    }
}
