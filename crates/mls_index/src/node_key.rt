//! The keys of a tree by node index.

ghost use Rattle.std.specs.Prelude.{◌≡◌, ◌↔◌, ◌+◌, ◌*◌, ◌<◌, Some, IsTrue};
ghost use Rattle.std.specs.Option.{option_copied};
ghost use Rattle.mls_tree.specs.Tree.{leaf_count};
ghost use Rattle.mls_index.specs.NodeKeys.{key_at_node, prefix_at, fingerprint_at};
ghost use Rattle.mls_index.specs.EntryTableInternal.{number_at};
ghost use Rattle.mls_index.specs.RepeatedKeysInternal.{HasKeyBut};

use mls_nodes::{Node, fingerprint, key_prefix};
use mls_tree::PublicTree;

/// Which keys of a tree: the encryption keys of all nodes, or the signature keys of the leaves.
#[derive(Clone, Copy, Debug, PartialEq, Eq)]
pub enum KeyKind {
    /// The encryption keys, of leaves and parents.
    Encryption,
    /// The signature keys, of leaves alone.
    Signature,
}

/// Which number of a key an entry has.
#[derive(Clone, Copy)]
pub(crate) enum KeyNumber {
    /// The 8-byte prefix of the key.
    Prefix,
    /// The fingerprint of the key.
    Fingerprint,
}

/// Returns the key of a kind at a node index.
pub(crate) fn key_at_node(tree: &PublicTree, kind: KeyKind, node_index: u32) -> Option<&[u8]>
    ensures { option_copied result ≡ key_at_node kind tree.now.tree node_index }
{
    match tree.node(node_index) {
        Some(Node::Leaf(leaf)) => match kind {
            KeyKind::Encryption => Some(leaf.encryption_key()),
            KeyKind::Signature => Some(leaf.signature_key()),
        },
        Some(Node::Parent(parent)) => match kind {
            KeyKind::Encryption => Some(parent.encryption_key.as_slice()),
            KeyKind::Signature => None,
        },
        None => None,
    }
}

/// Returns the fingerprint of the key at a node index. No long key of a leaf is hashed.
pub(crate) fn fingerprint_at(tree: &PublicTree, kind: KeyKind, node_index: u32) -> Option<u64>
    ensures { result ≡ fingerprint_at kind tree.now.tree node_index }
{
    match tree.node(node_index) {
        Some(Node::Leaf(leaf)) => match kind {
            KeyKind::Encryption => Some(leaf.encryption_fingerprint()),
            KeyKind::Signature => Some(leaf.signature_fingerprint()),
        },
        Some(Node::Parent(parent)) => match kind {
            KeyKind::Encryption => Some(fingerprint(parent.encryption_key.as_slice())),
            KeyKind::Signature => None,
        },
        None => None,
    }
}

/// Returns the prefix of the key at a node index.
pub(crate) fn prefix_at(tree: &PublicTree, kind: KeyKind, node_index: u32) -> Option<u64>
    ensures { result ≡ prefix_at kind tree.now.tree node_index }
{
    match key_at_node(tree, kind, node_index) {
        Some(key) => Some(key_prefix(key)),
        None => None,
    }
}

/// Returns a number of the key at a node index.
pub(crate) fn number_at(
    tree: &PublicTree,
    kind: KeyKind,
    choice: KeyNumber,
    node_index: u32,
) -> Option<u64>
    ensures { result ≡ number_at choice kind tree.now.tree node_index }
{
    match choice {
        KeyNumber::Prefix => prefix_at(tree, kind, node_index),
        KeyNumber::Fingerprint => fingerprint_at(tree, kind, node_index),
    }
}

/// Returns whether the tree has this key at a node index.
pub(crate) fn has_key_at(tree: &PublicTree, kind: KeyKind, node_index: u32, key: &[u8]) -> bool
    ensures { IsTrue result ↔ (key_at_node kind tree.now.tree node_index ≡ Some key.now) }
{
    match key_at_node(tree, kind, node_index) {
        Some(other) => other == key,
        None => false,
    }
}

/// Returns whether the tree has this key at a node index other than `but`.
pub(crate) fn has_key_but(
    tree: &PublicTree,
    kind: KeyKind,
    key: &[u8],
    but: Option<u32>,
    node_index: u32,
) -> bool
    ensures { IsTrue result ↔ HasKeyBut kind tree.now.tree key.now but node_index }
{
    match but {
        Some(other) if other == node_index => false,
        _ => has_key_at(tree, kind, node_index, key),
    }
}

/// Returns whether there is a number, which is this one.
pub(crate) fn is_number(some: Option<u64>, number: u64) -> bool
    ensures { IsTrue result ↔ (some ≡ Some number) }
{
    match some {
        Some(other) => other == number,
        None => false,
    }
}

/// Returns the number of nodes of the tree.
pub(crate) fn node_index_count(tree: &PublicTree) -> u32
    ensures count { result + 1 ≡ 2 * leaf_count tree.now.tree }
    ensures low { result < 2097152 }
{
    2 * tree.leaf_count() - 1
}
