//! Nodes of a ratchet tree (RFC 9420, 7.8 and 12.4.3.3).

ghost use Rattle.std.specs.Prelude.{◌≡◌, IfOk, IfErr};
ghost use Rattle.mls_wire.specs.declared.fault.CodecFault.TheVariants as codec;

use crate::encoded_leaf::EncodedLeaf;
use crate::parent::ParentNode;
use mls_wire::{CodecFault, Shared, TryClone};
use std::alloc::Global;

/// A non-blank node. The model is a `NodeValue`, its fields.
#[derive(Debug, Drop)]
pub enum Node {
    /// A leaf, at an even node index.
    Leaf(Shared<EncodedLeaf>),
    /// A parent, at an odd node index.
    Parent(Box<ParentNode>),
}

impl Node {
    ghost use Rattle.mls_nodes.specs.NodeValues.{node_value};

    /// Returns an equal node. A leaf is shared, which allocates nothing. The only error is `OutOfMemory`.
    pub fn try_clone(&self, alloc: Global) -> Result<Node, CodecFault>
        ensures same { IfOk result (λ node. node_value node ≡ node_value self.now) }
        ensures memory { IfErr result (λ e. e ≡ codec.OutOfMemory) }
    {
        match self {
            Node::Leaf(leaf) => Ok(Node::Leaf(leaf.try_clone(alloc)?)),
            Node::Parent(parent) => Ok(Node::Parent(Box::new(alloc, parent.try_clone(alloc)?)?)),
        }
    }
}
