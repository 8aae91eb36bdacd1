//! Encoding a ratchet_tree.

ghost use Rattle.std.specs.Prelude.{◌≡◌, ◌≢◌, ◌↔◌, ◌≤◌, ◌<◌, ℕ, [], None, Some, Err, length, map, true, MatchResult};
ghost use Rattle.mls_wire.specs.SaturatingSizes.{size};
ghost use Rattle.mls_wire.specs.Faults.{too_long_at};
ghost use Rattle.mls_wire.specs.Limits.{vector_limit};
ghost use Rattle.mls_wire.specs.Encoding.{items, list, optional};
ghost use Rattle.mls_wire.specs.ReadContracts.{seen};
ghost use Rattle.mls_wire.specs.WriteContracts.{MakesPiece, Puts, PutsPiece};
ghost use Rattle.mls_wire.specs.declared.fault.WireFault.{WireFault};
ghost use Rattle.mls_nodes.specs.Limits.{entry_limit};
ghost use Rattle.mls_nodes.specs.NodeValues.{node_value, entry_value};
ghost use Rattle.mls_nodes.specs.Layout.{node};
ghost use Rattle.mls_nodes.specs.RatchetTreeEncoding.{fits_at, trimmed, IsFirstMisplaced};
ghost use Rattle.mls_nodes.specs.RatchetTreeContracts.{EncodesTree};
ghost use Rattle.mls_nodes.specs.RatchetTreeWriting.{FitsNodeIndices, WritesTree};
ghost use Rattle.mls_nodes.specs.declared.fault.NodeFault.TheVariants as faults;

use crate::fault::NodeFault;
use crate::node::Node;
use crate::ratchet_tree::MAX_ENTRIES;
use mls_wire::{CodecFault, Draft, Encode, MAX_BODY, WireFault, WireFaultKind, add_sizes};
use std::alloc::Global;

/// Returns the entries without the blank ones at the end, as they are encoded (RFC 9420, 12.4.3.3).
pub fn trimmed_entries(entries: &[Option<Node>]) -> &[Option<Node>]
    ensures { map entry_value result.now ≡ trimmed (map entry_value entries.now) }
{
    let mut count = entries.len();
    while count > 0 && entries[count - 1].is_none() {
        count -= 1;
    }
    &entries[..count]
}

/// Returns whether an entry may be at a node index.
fn may_be_at(node_index: usize, entry: &Option<Node>) -> bool
    ensures { result ≡ fits_at node_index (entry_value entry.now) }
{
    match entry {
        None => true,
        Some(Node::Leaf(_)) => node_index % 2 == 0,
        Some(Node::Parent(_)) => node_index % 2 == 1,
    }
}

/// Checks the kinds and the number of the entries.
fn check_node_kinds(entries: &[Option<Node>]) -> Result<(), NodeFault>
    ensures { FitsNodeIndices (map entry_value entries.now) result }
{
    for node_index in 0..entries.len() {
        if node_index >= MAX_ENTRIES {
            return Err(NodeFault::TooManyLeaves);
        }
        if !may_be_at(node_index, &entries[node_index]) {
            return Err(NodeFault::WrongNodeKind(node_index));
        }
    }
    Ok(())
}

/// Adds a node: its type, and its fields.
#[tactic(auto, using(mls_wire::specs::WriteSequences::written), unfolding(crate::specs::Layout::node))]
fn put_node(alloc: Global, value: &Node, draft: &mut Draft) -> Result<(), CodecFault>
    ensures { Puts (node (node_value value.now)) draft.old draft.new result }
{
    match value {
        Node::Leaf(leaf) => {
            draft.put_u8(1)?;
            leaf.put(alloc, draft)
        }
        Node::Parent(parent) => {
            draft.put_u8(2)?;
            parent.put(alloc, draft)
        }
    }
}

/// Adds an optional entry.
#[tactic(auto, using(mls_wire::specs::WriteSequences::written), unfolding(mls_wire::specs::Encoding::optional, mls_wire::specs::Encoding::flag))]
fn put_entry(alloc: Global, entry: &Option<Node>, draft: &mut Draft) -> Result<(), CodecFault>
    ensures { Puts (optional node (entry_value entry.now)) draft.old draft.new result }
{
    match entry {
        None => draft.put_optional(false),
        Some(value) => {
            draft.put_optional(true)?;
            put_node(alloc, value, draft)
        }
    }
}

/// Returns the size of a node, with its type.
#[tactic(auto, using(crate::specs::TagSizes::tag_sizes), unfolding(crate::specs::Layout::node))]
fn size_of_node(value: &Node) -> Option<usize>
    ensures { result ≡ size (node (node_value value.now)) }
{
    match value {
        Node::Leaf(leaf) => add_sizes(Some(1), leaf.size()),
        Node::Parent(parent) => add_sizes(Some(1), parent.size()),
    }
}

/// Returns the size of an optional entry.
#[tactic(auto, using(mls_wire::specs::EncodedSizes::sizes), unfolding(mls_wire::specs::Encoding::optional))]
fn size_of_entry(entry: &Option<Node>) -> Option<usize>
    ensures { result ≡ size (optional node (entry_value entry.now)) }
{
    match entry {
        None => Some(1),
        Some(value) => add_sizes(Some(1), size_of_node(value)),
    }
}

/// Returns the size of the entries, one after the other.
fn size_of_entries(entries: &[Option<Node>]) -> Option<usize>
    ensures { result ≡ size (items (optional node) (map entry_value entries.now)) }
{
    let mut total: usize = 0;
    for entry in entries {
        total = total.saturating_add(size_of_entry(entry)?);
    }
    Some(total)
}

/// Returns the size of the entries, if they fit into one vector. `TooLong` at 0 if they do not.
fn size_of_body(entries: &[Option<Node>]) -> Result<usize, CodecFault>
    ensures { MatchResult result
        (λ body. (Some body ≡ size (items (optional node) (map entry_value entries.now)))
        × (body ≤ vector_limit))
        (λ e. (e ≡ CodecFault.Wire (too_long_at 0))
        × (list (optional node) (map entry_value entries.now) ≡ None)) }
{
    match size_of_entries(entries) {
        Some(body) if body <= MAX_BODY => Ok(body),
        _ => Err(CodecFault::Wire(WireFault {
            kind: WireFaultKind::TooLong,
            at: 0,
        })),
    }
}

/// Adds the entries, one after the other.
fn put_entries(alloc: Global, entries: &[Option<Node>], draft: &mut Draft) -> Result<(), CodecFault>
    ensures { Puts
        (items (optional node) (map entry_value entries.now))
        draft.old draft.new result }
{
    for entry in entries {
        put_entry(alloc, entry, draft)?;
    }
    Ok(())
}

/// Adds the entries as one vector, whose body has this size.
fn put_vector(
    alloc: Global,
    entries: &[Option<Node>],
    body: usize,
    draft: &mut Draft,
) -> Result<(), CodecFault>
    requires { Some body ≡ size (items (optional node) (map entry_value entries.now)) }
    ensures { PutsPiece
        (list (optional node) (map entry_value entries.now))
        draft.old draft.new result }
{
    draft.put_len(body)?;
    put_entries(alloc, entries, draft)
}

/// Returns the entries as one vector. `TooLong` at 0 if and only if they do not fit into one, which is checked before
/// anything is allocated.
fn bytes_of_entries(alloc: Global, entries: &[Option<Node>]) -> Result<Vec<u8>, CodecFault>
    ensures { MakesPiece
        (list (optional node) (map entry_value entries.now))
        (seen (λ v. v.items) result) }
{
    let body = size_of_body(entries)?;
    let mut draft = Draft::after(Vec::with_capacity(alloc, body + 4)?);
    put_vector(alloc, entries, body, &mut draft)?;
    Ok(draft.finish())
}

/// Returns the encoding of entries without blank ones at the end.
fn encode_trimmed(alloc: Global, entries: &[Option<Node>]) -> Result<Vec<u8>, NodeFault>
    ensures { WritesTree (map entry_value entries.now) (seen (λ v. v.items) result) }
{
    if entries.is_empty() {
        return Err(NodeFault::EmptyTree);
    }
    check_node_kinds(entries)?;
    Ok(bytes_of_entries(alloc, entries)?)
}

/// Returns the encoding of the tree with these entries, without the blank ones at the end (RFC 9420, 12.4.3.3).
///
/// # Errors
///
/// In this order: `EmptyTree` if every entry is blank; then, entry by entry, `TooManyLeaves` at node index 2,097,151
/// and `WrongNodeKind` at the first node that may not be there; then `TooLong` at 0 for entries that do not fit into
/// one vector. All of these are checked before anything is allocated. Or `OutOfMemory`. Never `LastBlank`.
pub fn encode_ratchet_tree(alloc: Global, nodes: &[Option<Node>]) -> Result<Vec<u8>, NodeFault>
    ensures encoded { EncodesTree (map entry_value nodes.now) (seen (λ v. v.items) result) }
    ensures empty { (result ≡ Err faults.EmptyTree) ↔ (trimmed (map entry_value nodes.now) ≡ []) }
    ensures misplaced { (node_index : ℕ)
        → result ≡ Err (faults.WrongNodeKind node_index)
        → IsFirstMisplaced (trimmed (map entry_value nodes.now)) node_index }
    ensures many { result ≡ Err faults.TooManyLeaves
        → entry_limit < length (trimmed (map entry_value nodes.now)) }
    ensures long { (f : WireFault) → result ≡ Err (faults.Wire f) → f ≡ too_long_at 0 }
    ensures not_blank { result ≢ Err faults.LastBlank }
{
    encode_trimmed(alloc, trimmed_entries(nodes))
}
