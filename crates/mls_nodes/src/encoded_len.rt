//! The lengths of the encodings of nodes and GroupContext. Each has an encoding, since its fields are within their
//! limits.

ghost use Rattle.std.specs.Prelude.{◌≡◌, ◌≤◌, ◌+◌, ◌*◌, ◌^◌, Some, length, option_map};
ghost use Rattle.mls_wire.specs.Limits.{vector_limit};
ghost use Rattle.mls_wire.specs.Encoding.{length_form, list, vector};
ghost use Rattle.mls_nodes.specs.Limits.{leaf_limit};
ghost use Rattle.mls_nodes.specs.Layout.{group_context, parent, unmerged};
ghost use Rattle.mls_nodes.specs.LeafNodeTBS.{tbs_suffix, leaf_tbs};

use crate::context::GroupContext;
use crate::encoded_leaf::EncodedLeaf;
use crate::leaf_source::LeafSource;
use crate::parent::ParentNode;
use mls_wire::{EncodedItems, Opaque, Skip};

/// Returns the number of bytes of the length of a vector.
fn length_of_prefix(body: u64) -> u64
    requires { body ≤ vector_limit }
    ensures length { option_map length (length_form body) ≡ Some result }
    ensures small { result ≤ 4 }
{
    if body < 64 {
        1
    } else if body < 16384 {
        2
    } else {
        4
    }
}

/// Returns the length of the encoding of a vector with this body.
pub(crate) fn length_of_body(bytes: &[u8]) -> u64
    requires { length bytes.now ≤ vector_limit }
    ensures length { option_map length (vector bytes.now) ≡ Some result }
    ensures small { result ≤ vector_limit + 4 }
{
    let body = bytes.len() as u64;
    length_of_prefix(body) + body
}

/// Returns the length of the encoding of a vector.
fn length_of_vector(bytes: &Opaque) -> u64
    ensures length { option_map length (vector bytes.now) ≡ Some result }
    ensures small { result ≤ vector_limit + 4 }
{
    length_of_body(bytes.as_slice())
}

/// Returns the length of the encoding of a list that is stored as its encoding.
fn length_of_list<T: Skip>(values: &EncodedItems<T>) -> u64
    ensures length { option_map length (list T.encoding values.now) ≡ Some result }
    ensures small { result ≤ vector_limit + 4 }
{
    length_of_body(values.encoded())
}

/// Returns the length of the encoding of a list of unmerged leaves.
fn length_of_unmerged(leaves: &[u32]) -> u64
    requires { length leaves.now ≤ leaf_limit }
    ensures length { option_map length (unmerged leaves.now) ≡ Some result }
    ensures small { result ≤ 4 * leaf_limit + 4 }
{
    let body = 4 * leaves.len() as u64;
    length_of_prefix(body) + body
}

impl ParentNode {
    /// Returns the length of the encoding of the parent node.
    pub fn encoded_len(&self) -> u64
        ensures length { option_map length (parent self.now) ≡ Some result }
        ensures small { result ≤ 2 ^ 40 }
    {
        let encryption_key = length_of_vector(&self.encryption_key);
        let parent_hash = length_of_vector(&self.parent_hash);
        let unmerged = length_of_unmerged(self.unmerged.as_slice());
        encryption_key + parent_hash + unmerged
    }
}

impl GroupContext {
    /// Returns the length of the encoding of the GroupContext, which always has one.
    pub fn encoded_len(&self) -> u64
        ensures length { option_map length (group_context self.now) ≡ Some result }
        ensures small { result ≤ 2 ^ 40 }
    {
        let _version = self.version;
        let _cipher_suite = self.cipher_suite;
        let _epoch = self.epoch;
        let group_id = length_of_vector(&self.group_id);
        let tree_hash = length_of_vector(&self.tree_hash);
        let confirmed = length_of_vector(&self.confirmed);
        let extensions = length_of_list(&self.extensions);
        12 + group_id + tree_hash + confirmed + extensions
    }
}

/// Returns the length of the group id and the leaf index in a LeafNodeTBS.
fn length_of_tbs_suffix(source: &LeafSource<'_>, group_id: &Opaque, index: u32) -> u64
    ensures length { option_map length (tbs_suffix source.now group_id.now index) ≡ Some result }
    ensures small { result ≤ vector_limit + 8 }
{
    let _index = index;
    match source {
        LeafSource::KeyPackage(_) => 0,
        LeafSource::Update | LeafSource::Commit { .. } => length_of_vector(group_id) + 4,
    }
}

/// Returns the length of the LeafNodeTBS (RFC 9420, 7.2), before it is made. It always has an encoding.
pub fn leaf_tbs_len(leaf: &EncodedLeaf, group_id: &Opaque, index: u32) -> u64
    ensures length { option_map length (leaf_tbs leaf.now group_id.now index) ≡ Some result }
    ensures small { result ≤ 2 ^ 40 }
{
    let suffix = length_of_tbs_suffix(&leaf.source(), group_id, index);
    leaf.unsigned().len() as u64 + suffix
}
