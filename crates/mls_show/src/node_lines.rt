//! The lines of a tree, made while its entries are decoded.

ghost use Rattle.std.specs.Prelude.{◌≡◌, ◌≤◌, ◌++◌, ◌-◌, ℕ, List, [], ◌∷◌, replicate, Option, None, OnOk};
ghost use Rattle.mls_nodes.specs.NodeModel.{NodeValue};
ghost use Rattle.mls_nodes.specs.NodeValues.{entry_value};
ghost use Rattle.mls_tree.specs.Tree.{leaves_among};
ghost use Rattle.mls_wire.specs.ReadContracts.{seen};
ghost use Rattle.mls_show.specs.TreeText.{lines_by, tree_counts_line};
ghost use Rattle.mls_show.specs.TreeTextInternal.{PutsEntries, GivesTextBy};

use crate::report_buffer::{put_number, put_text};
use mls_nodes::{Node, NodeFault, RatchetTreeReader, full_size_of};
use std::alloc::{AllocError, Global};

/// What a report has of each node of a tree.
pub(crate) trait NodeLines {
    /// The lines of the node at a node index; none for a node that the report leaves out.
    ghost line: { ℕ → Option NodeValue → List ℕ };

    /// Appends the lines of the node at node index `node_index`.
    fn put_line(out: &mut Vec<u8>, node_index: usize, node: &Option<Node>) -> Result<(), AllocError>
        ensures { OnOk result (out.new.items ≡ out.old.items ++ line node_index (entry_value node.now)) };
}

/// Returns the number of leaf nodes in an entry, 0 or 1.
fn leaf_node_count(entry: &Option<Node>) -> usize
    ensures count { result ≡ leaves_among (entry_value entry.now ∷ []) }
    ensures bound { result ≤ 1 }
{
    match entry {
        Some(Node::Leaf(_)) => 1,
        _ => 0,
    }
}

/// Appends the lines of the entries still to be read. Returns how many of them are leaf nodes.
fn put_entries<L: NodeLines>(
    alloc: Global,
    out: &mut Vec<u8>,
    reader: &mut RatchetTreeReader<'_>,
) -> Result<usize, NodeFault>
    requires { reader.old.node_index ≡ 0 }
    ensures { PutsEntries L.line out.old.items out.new.items reader.old reader.new result }
{
    let mut members = 0;
    let mut node_index = 0;
    'entries: while let Some(entry) = reader.next_entry(alloc)? {
        L::put_line(out, node_index, &entry)?;
        members += leaf_node_count(&entry);
        node_index = reader.node_index();
    }
    Ok(members)
}

/// Appends the lines of blank nodes from one node index up to another one.
fn put_blank_nodes<L: NodeLines>(
    out: &mut Vec<u8>,
    first: usize,
    end: usize,
) -> Result<(), AllocError>
    requires { first ≤ end }
    ensures { OnOk result (out.new.items
        ≡ out.old.items ++ lines_by L.line first (replicate (end - first) None)) }
{
    'blanks: for node_index in first..end {
        L::put_line(out, node_index, &None)?;
    }
    Ok(())
}

/// Appends the line of the counts.
fn put_counts(out: &mut Vec<u8>, leaves: usize, members: usize) -> Result<(), AllocError>
    ensures { OnOk result (out.new.items ≡ out.old.items ++ tree_counts_line leaves members) }
{
    put_text(out, "leaves ")?;
    put_number(out, leaves)?;
    put_text(out, " members ")?;
    put_number(out, members)?;
    put_text(out, "\n")
}

/// Returns the lines of a tree's bytes and the line of the counts. Each entry is dropped after its lines were made.
pub(crate) fn tree_lines<L: NodeLines>(alloc: Global, bytes: &[u8]) -> Result<Vec<u8>, NodeFault>
    ensures { GivesTextBy L.line bytes.now (seen (λ v. v.items) result) }
{
    let mut reader = RatchetTreeReader::new(bytes)?;
    let mut out = Vec::new(alloc);
    let members = put_entries::<L>(alloc, &mut out, &mut reader)?;
    let count = reader.node_index();
    let size = full_size_of(count);
    put_blank_nodes::<L>(&mut out, count, size)?;
    put_counts(&mut out, (size + 1) / 2, members)?;
    Ok(out)
}
