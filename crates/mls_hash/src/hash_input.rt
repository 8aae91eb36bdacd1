//! Tree hashes of nodes (RFC 9420, 7.8). The fields of a node are fed to the hasher from where they are stored.

ghost use Rattle.std.specs.Prelude.{◌≡◌, ◌≤◌, Some, length, option_copied, option_map};
ghost use Rattle.std.specs.Int.{w8, w32};
ghost use Rattle.mls_wire.specs.Encoding as encoding;
ghost use Rattle.mls_wire.specs.Encoding.{◌⊕◌};
ghost use Rattle.mls_nodes.specs.Limits.{leaf_limit};
ghost use Rattle.mls_nodes.specs.Layout as layout;
ghost use Rattle.mls_tree.specs.TreeHash.{leaf_tree_hash_input, parent_tree_hash_input};
ghost use Rattle.mls_hash.specs.SuiteHash.{hash_of};
ghost use Rattle.mls_hash.specs.HasherModel.{HoldsMore};
ghost use Rattle.mls_hash.specs.WithoutLeaves.{stripped_parent, without};

use crate::digest::{feed_hash, feed_length, feed_opaque, hash};
use crate::hasher::Hasher;
use crate::leaf_set::LeafSet;
use crate::suite::Suite;
use mls_nodes::{EncodedLeaf, ParentNode};
use mls_tree::HashValue;

/// Returns the tree hash of a leaf (RFC 9420, 7.8): the hash of the node type 1, the leaf index and the optional leaf
/// node.
pub(crate) fn hash_leaf(suite: Suite, index: u32, node: Option<&EncodedLeaf>) -> HashValue
    ensures { option_map (hash_of suite) (leaf_tree_hash_input index (option_copied node.entry))
        ≡ Some result }
{
    let [a, b, c, d] = index.to_be_bytes();
    match node {
        Some(leaf) => hash(suite, &[1, a, b, c, d, 1], leaf.encoding()),
        None => hash(suite, &[1, a, b, c, d, 0], &[]),
    }
}

/// Returns how many of the numbers are not in the set.
fn count_kept(indices: &[u32], left_out: &LeafSet<'_>) -> usize
    ensures { result ≡ length (without left_out.now indices.now) }
{
    let mut kept = 0;
    for number in indices {
        if !left_out.contains(*number) {
            kept += 1;
        }
    }
    kept
}

/// Feeds one number of a list.
fn feed_number(hasher: &mut Hasher, number: u32)
    ensures { HoldsMore (encoding.number w32 number) hasher.old hasher.new }
{
    hasher.update(&number.to_be_bytes());
}

/// Feeds the numbers that are not in the set, one after the other.
fn feed_kept(hasher: &mut Hasher, indices: &[u32], left_out: &LeafSet<'_>)
    ensures { HoldsMore (encoding.items (encoding.number w32) (without left_out.now indices.now))
        hasher.old hasher.new }
{
    for number in indices {
        if !left_out.contains(*number) {
            feed_number(hasher, *number);
        }
    }
}

/// Feeds a list of unmerged leaves, without those of the set.
fn feed_unmerged(hasher: &mut Hasher, indices: &[u32], left_out: &LeafSet<'_>)
    requires { length indices.now ≤ leaf_limit }
    ensures { HoldsMore (layout.unmerged (without left_out.now indices.now)) hasher.old hasher.new }
{
    if left_out.holds_just(indices) {
        feed_length(hasher, 0);
        return;
    }
    feed_length(hasher, 4 * count_kept(indices, left_out));
    feed_kept(hasher, indices, left_out);
}

/// Feeds a parent node, without the unmerged leaves of the set.
fn feed_parent(hasher: &mut Hasher, node: &ParentNode, left_out: &LeafSet<'_>)
    ensures { HoldsMore (layout.parent (stripped_parent left_out.now node.now)) hasher.old hasher.new }
{
    feed_opaque(hasher, &node.encryption_key);
    feed_opaque(hasher, &node.parent_hash);
    feed_unmerged(hasher, node.unmerged.as_slice(), left_out);
}

/// Feeds the node type 2 and an optional parent node, without the unmerged leaves of the set.
fn feed_type_and_parent(hasher: &mut Hasher, node: Option<&ParentNode>, left_out: &LeafSet<'_>)
    ensures { HoldsMore (encoding.number w8 2 ⊕ encoding.optional layout.parent
        (option_map (stripped_parent left_out.now) (option_copied node.entry))) hasher.old
        hasher.new }
{
    match node {
        None => hasher.update(&[2, 0]),
        Some(node) => {
            hasher.update(&[2, 1]);
            feed_parent(hasher, node, left_out);
        }
    }
}

/// Returns the tree hash of a parent from the hashes of its children (RFC 9420, 7.8), without the unmerged leaves of
/// the set: the hash of the node type 2, the optional parent node and both hashes.
pub(crate) fn hash_parent(
    suite: Suite,
    node: Option<&ParentNode>,
    left_out: &LeafSet<'_>,
    left: &HashValue,
    right: &HashValue,
) -> HashValue
    ensures { option_map (hash_of suite)
        (parent_tree_hash_input (option_map (stripped_parent left_out.now) (option_copied node.entry))
        left.now right.now) ≡ Some result }
{
    let mut hasher = Hasher::new(suite);
    feed_type_and_parent(&mut hasher, node, left_out);
    feed_hash(&mut hasher, left);
    feed_hash(&mut hasher, right);
    hasher.finish()
}
