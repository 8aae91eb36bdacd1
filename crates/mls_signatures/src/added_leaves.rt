//! The leaves that the Adds of a commit's list add (RFC 9420, 12.1.1). Their leaf nodes are borrowed from the proposals.

ghost use Rattle.std.specs.Prelude.{◌≡◌, IfOk, List, Option, ℕ, length, option_map};
ghost use Rattle.mls_nodes.specs.declared.context.GroupContext.{GroupContext};
ghost use Rattle.mls_nodes.specs.declared.leaf.LeafNode.{LeafNode};
ghost use Rattle.mls_tree.specs.Tree.{Tree};
ghost use Rattle.mls_apply.specs.AppliedList.{new_members};
ghost use Rattle.mls_signatures.specs.AddedLeaves.{AreNamedBy, AreOfValues, IsAfter, IsListed, IsMapOf, NamesAre, ValuesAre, indices, leaf_nodes, reference_at, reference_of_entry};
ghost use Rattle.mls_signatures.specs.declared.signature_to_verify.SignatureToVerify.{SignatureToVerify};

use mls_apply::ListItem;
use mls_check::OutOfMemory;
use mls_msgs::{Proposal, ProposalOrRef};
use mls_nodes::EncodedLeaf;
use std::alloc::Global;
use std::collections::BTreeMap;

/// A leaf that an Add adds.
#[derive(Clone, Copy)]
pub(crate) struct AddedLeaf<'a> {
    /// The leaf index.
    pub(crate) index: u32,
    /// The leaf node of the Add.
    pub(crate) leaf: &'a EncodedLeaf,
    /// The reference by which the list names the Add, if it is not in the list by value.
    pub(crate) reference: Option<&'a [u8]>,
}

/// Which of the leaves that a list replaces or adds have their signatures listed.
#[derive(Clone, Copy)]
pub(crate) enum NewLeaves {
    /// All of them.
    All,
    /// Those whose signature is not one of a proposal of the list.
    Fresh,
}

/// Returns the reference in an entry of a proposal list, if there is one.
fn reference_of_entry(entry: &ProposalOrRef) -> Option<&[u8]>
    ensures { option_map (λ r. r.now) result ≡ reference_of_entry entry.now }
{
    match entry {
        ProposalOrRef::Proposal(_) => None,
        ProposalOrRef::Reference(reference) => Some(reference.as_slice()),
    }
}

/// Returns the reference in the entry at a position of a proposal list, if there is one.
#[tactic(auto, using(crate::proofs::AddedLeaves::reference_there, crate::proofs::AddedLeaves::reference_past))]
fn reference_at(entries: &[ProposalOrRef], position: usize) -> Option<&[u8]>
    ensures { option_map (λ r. r.now) result ≡ reference_at entries.now position }
{
    match entries.get(position) {
        Some(entry) => reference_of_entry(entry),
        None => None,
    }
}

/// Returns the leaves that the Adds of a list add, in its order: those at the leaf indices `added`. `items` is the list with
/// these entries.
pub(crate) fn added_leaves<'a>(
    alloc: Global,
    entries: &'a [ProposalOrRef],
    items: &[ListItem<'a>],
    added: &[u32],
) -> Result<Vec<AddedLeaf<'a>>, OutOfMemory>
    requires { length added.now ≡ length (new_members items.now) }
    ensures indices { IfOk result (λ v. indices v.items ≡ added.now) }
    ensures leaf_nodes { IfOk result (λ v. leaf_nodes v.items ≡ new_members items.now) }
    ensures named { IfOk result (λ v. (F : List ℕ → Option LeafNode)
        → NamesAre F entries.now items.now → AreNamedBy F v.items) }
    ensures by_value { IfOk result (λ v. (context : GroupContext) (qs : List SignatureToVerify)
        → ValuesAre (IsListed context qs) entries.now items.now → AreOfValues (IsListed context qs) v.items) }
{
    let mut leaves = Vec::with_capacity(alloc, added.len())?;
    let mut position = 0;
    for item in items {
        if let Proposal::Add(key_package) = item.proposal {
            let index = added[leaves.len()];
            let reference = reference_at(entries, position);
            leaves.push(AddedLeaf {
                index,
                leaf: &key_package.leaf_node,
                reference,
            })?;
        }
        position += 1;
    }
    Ok(leaves)
}

/// Returns the leaf nodes of leaves by their leaf indices.
pub(crate) fn leaves_by_index<'a>(
    alloc: Global,
    leaves: &[AddedLeaf<'a>],
) -> Result<BTreeMap<u32, &'a EncodedLeaf>, OutOfMemory>
    ensures { IfOk result (λ m. (t u : Tree) → IsAfter t u leaves.now → IsMapOf t u m) }
{
    let mut by_index = BTreeMap::new(alloc);
    for leaf in leaves {
        match by_index.insert(leaf.index, leaf.leaf) {
            Ok(_) => {}
            Err(_) => return Err(OutOfMemory),
        }
    }
    Ok(by_index)
}
