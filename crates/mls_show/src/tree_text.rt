//! The lines of `show tree`.

ghost use Rattle.std.specs.Prelude.{◌≡◌, ◌++◌, ◌/◌, OnOk, codes};
ghost use Rattle.std.specs.Fmt.{decimal};
ghost use Rattle.mls_nodes.specs.NodeValues.{entry_value};
ghost use Rattle.mls_show.specs.ValueTexts.{hex_text};
ghost use Rattle.mls_show.specs.TreeText as lines;

use crate::node_lines::NodeLines;
use crate::report_buffer::{put_hex, put_number, put_numbers, put_text, put_u64};
use mls_nodes::{EncodedLeaf, LeafSource, Node, ParentNode};
use std::alloc::AllocError;

/// Appends the source of a leaf.
pub(crate) fn put_source(out: &mut Vec<u8>, source: &LeafSource<'_>) -> Result<(), AllocError>
    ensures { OnOk result (out.new.items ≡ out.old.items ++ lines.source_text source.now) }
{
    match source {
        LeafSource::KeyPackage(lifetime) => {
            put_text(out, "key_package ")?;
            put_u64(out, lifetime.not_before)?;
            put_text(out, " ")?;
            put_u64(out, lifetime.not_after)
        }
        LeafSource::Update => put_text(out, "update"),
        LeafSource::Commit { parent_hash } => {
            put_text(out, "commit ")?;
            put_hex(out, parent_hash.as_slice())
        }
    }
}

/// Appends the node index and the leaf index, with which the line of a leaf begins.
fn put_leaf_indices(out: &mut Vec<u8>, node_index: usize) -> Result<(), AllocError>
    ensures { OnOk result (out.new.items ≡ out.old.items
        ++ (decimal node_index ++ (codes " leaf " ++ (decimal (node_index / 2) ++ codes " ")))) }
{
    put_number(out, node_index)?;
    put_text(out, " leaf ")?;
    put_number(out, node_index / 2)?;
    put_text(out, " ")
}

/// Appends two fields in hexadecimal, each followed by a space.
fn put_fields(out: &mut Vec<u8>, first: &[u8], second: &[u8]) -> Result<(), AllocError>
    ensures { OnOk result (out.new.items ≡ out.old.items
        ++ (hex_text first.now ++ (codes " " ++ (hex_text second.now ++ codes " ")))) }
{
    put_hex(out, first)?;
    put_text(out, " ")?;
    put_hex(out, second)?;
    put_text(out, " ")
}

/// Appends the line of a leaf.
fn put_leaf(out: &mut Vec<u8>, node_index: usize, leaf: &EncodedLeaf) -> Result<(), AllocError>
    ensures { OnOk result (out.new.items ≡ out.old.items ++ lines.leaf_line node_index leaf.now) }
{
    put_leaf_indices(out, node_index)?;
    put_fields(out, leaf.encryption_key(), leaf.signature_key())?;
    put_source(out, &leaf.source())?;
    put_text(out, "\n")
}

/// Appends the line of a parent.
fn put_parent(out: &mut Vec<u8>, node_index: usize, parent: &ParentNode) -> Result<(), AllocError>
    ensures { OnOk result (out.new.items ≡ out.old.items ++ lines.parent_line node_index parent.now) }
{
    put_number(out, node_index)?;
    put_text(out, " parent ")?;
    put_fields(
        out,
        parent.encryption_key.as_slice(),
        parent.parent_hash.as_slice(),
    )?;
    put_numbers(out, parent.unmerged.as_slice())?;
    put_text(out, "\n")
}

/// Appends the line of the node at node index `node_index`.
fn put_node(out: &mut Vec<u8>, node_index: usize, node: &Option<Node>) -> Result<(), AllocError>
    ensures { OnOk result (out.new.items
        ≡ out.old.items ++ lines.node_line node_index (entry_value node.now)) }
{
    match node {
        None => {
            put_number(out, node_index)?;
            put_text(out, " blank\n")
        }
        Some(Node::Leaf(leaf)) => put_leaf(out, node_index, leaf),
        Some(Node::Parent(parent)) => put_parent(out, node_index, parent),
    }
}

/// The lines of `show tree`: one for each node.
pub(crate) struct TreeLines;

impl NodeLines for TreeLines {
    ghost use Rattle.mls_show.specs.TreeText.{node_line};

    ghost line = { node_line };

    fn put_line(
        out: &mut Vec<u8>,
        node_index: usize,
        node: &Option<Node>,
    ) -> Result<(), AllocError> {
        put_node(out, node_index, node)
    }
}
