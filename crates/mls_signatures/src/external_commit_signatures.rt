//! The signatures of an external commit after the message's own (RFC 9420, 12.4.3.2), appended to a list.

ghost use Rattle.std.specs.Prelude.{◌≡◌, OnOk};
ghost use Rattle.mls_tree.specs.TreeOperations.{added_leaf};
ghost use Rattle.mls_apply.specs.AppliedList.{outcome};
ghost use Rattle.mls_apply.specs.Staged.{IsSettled};
ghost use Rattle.mls_signatures.specs.AddedLeaves.{AppendsSignatures};
ghost use Rattle.mls_signatures.specs.SignaturesToVerify.{join_list_signatures, seated_signatures};

use crate::push_signatures::push_leaf_signature;
use crate::signature_list::SignatureList;
use mls_apply::{ApplyFault, ListItem, StagedTree, is_join_list, join_items};
use mls_check::OutOfMemory;
use mls_msgs::{Commit, UpdatePath};
use mls_nodes::GroupContext;
use mls_tree::PublicTree;
use std::alloc::Global;

/// A commit of a client that joins with it, its path, and the context of its group.
#[derive(Clone, Copy)]
pub(crate) struct ExternalCommit<'a> {
    pub(crate) context: &'a GroupContext,
    pub(crate) commit: &'a Commit,
    pub(crate) path: &'a UpdatePath,
}

/// Returns the leaf that a new member takes in a tree: the leftmost blank one, otherwise the first one by which the
/// tree is extended.
fn added_leaf(tree: &PublicTree) -> u32
    ensures { result ≡ added_leaf tree.now.tree }
{
    match tree.first_blank_leaf() {
        Some(index) => index,
        None => tree.leaf_count(),
    }
}

/// Applies the list of an external commit to the tree, and appends the signature of the path's leaf at the leaf that its
/// sender takes, if the list can be applied. A part of the list may have been applied, whatever is returned.
fn apply_and_push_seated_signature(
    alloc: Global,
    external: &ExternalCommit<'_>,
    items: &[ListItem],
    tree: &mut StagedTree,
    list: &mut SignatureList,
) -> Result<(), OutOfMemory>
    ensures signatures { OnOk result (AppendsSignatures list.old (seated_signatures external.now.context.now external.now.path.now (outcome items.now tree.old.tree)) list.new) }
    ensures base { tree.new.base ≡ tree.old.base }
{
    let added = match tree.apply_list(alloc, items) {
        Ok(added) => added,
        Err(ApplyFault::NoSuchLeaf) => return Ok(()),
        Err(ApplyFault::TooManyLeaves) => return Ok(()),
        Err(ApplyFault::OutOfMemory) => return Err(OutOfMemory),
    };
    drop(added);
    let index = added_leaf(tree.tree());
    push_leaf_signature(
        alloc,
        external.context,
        index,
        &external.path.leaf_node,
        list,
    )
}

/// Appends the signature of the path's leaf of an external commit with these proposals, if its list can be applied. The list
/// is applied to the tree, and undone.
fn push_seated_signature(
    alloc: Global,
    external: &ExternalCommit<'_>,
    items: &[ListItem],
    tree: &mut StagedTree,
    list: &mut SignatureList,
) -> Result<(), OutOfMemory>
    requires { IsSettled tree.old }
    ensures signatures { OnOk result (AppendsSignatures list.old (seated_signatures external.now.context.now external.now.path.now (outcome items.now tree.old.tree)) list.new) }
    ensures base { tree.new.base ≡ tree.old.base }
    ensures tree { tree.new.tree ≡ tree.old.tree }
    ensures settled { IsSettled tree.new }
{
    let answer = apply_and_push_seated_signature(alloc, external, items, tree, list);
    tree.rollback();
    answer
}

/// Appends the signature of an external commit after the message's own: that of the path's leaf. There is none if the list is
/// not one of an external commit, or if it cannot be applied.
pub(crate) fn push_external_commit_signature(
    alloc: Global,
    external: &ExternalCommit<'_>,
    tree: &mut StagedTree,
    list: &mut SignatureList,
) -> Result<(), OutOfMemory>
    requires { IsSettled tree.old }
    ensures signatures { OnOk result (AppendsSignatures list.old (join_list_signatures external.now.context.now tree.old.tree external.now.commit.now
        external.now.path.now) list.new) }
    ensures base { tree.new.base ≡ tree.old.base }
    ensures tree { tree.new.tree ≡ tree.old.tree }
    ensures settled { IsSettled tree.new }
{
    let entries = external.commit.proposals.as_slice();
    if !is_join_list(entries) {
        return Ok(());
    }
    let items = join_items(alloc, entries)?;
    let answer = push_seated_signature(alloc, external, items.as_slice(), tree, list);
    drop(items);
    answer
}
