//! The node at a node index, with its position.

ghost use Rattle.std.specs.Prelude.{◌≡◌, None, MatchOption, option_copied};
ghost use Rattle.mls_tree.specs.Tree.{subtree_at, node_at};
ghost use Rattle.mls_tree.specs.NodeView.{IsPartAt, parent_of};

use crate::node_indices::{left, level, right};
use crate::public_tree::PublicTree;
use mls_nodes::{EncodedLeaf, Node, ParentNode};

/// A leaf or a parent of a tree.
#[derive(Clone, Copy, Debug)]
pub enum Part<'a> {
    /// A leaf, with its leaf index. `node` is `None` if the leaf is blank.
    Leaf {
        index: u32,
        node: Option<&'a EncodedLeaf>,
    },
    /// A parent, with the node indices of its children and the leaf index of the first leaf of its right subtree.
    /// `node` is `None` if the parent is blank.
    Parent {
        node: Option<&'a ParentNode>,
        left: u32,
        right: u32,
        middle: u32,
    },
}

impl PublicTree {
    /// Returns the parent node at node index `node_index`. `None` if it is blank, a leaf, or not in the tree.
    pub fn parent(&self, node_index: u32) -> Option<&ParentNode>
        ensures { option_copied result ≡ parent_of (node_at self.now.tree node_index) }
    {
        match self.node(node_index) {
            Some(Node::Parent(parent)) => Some(&**parent),
            Some(Node::Leaf(_)) => None,
            None => None,
        }
    }

    /// Returns the leaf or parent at node index `node_index`, blank or not. `None` if it is not in the tree.
    pub fn part(&self, node_index: u32) -> Option<Part<'_>>
        ensures { MatchOption result (subtree_at 0 self.now.tree node_index ≡ None)
            (λ part. IsPartAt self.now.tree node_index part) }
    {
        let leaves = self.leaf_count();
        if level(node_index, leaves)? == 0 {
            let index = node_index / 2;
            return Some(Part::Leaf {
                index,
                node: self.leaf(index),
            });
        }
        let left = left(node_index, leaves)?;
        let right = right(node_index, leaves)?;
        Some(Part::Parent {
            node: self.parent(node_index),
            left,
            right,
            middle: node_index / 2 + 1,
        })
    }
}
