//! Decoding a tree.
ghost use Rattle.std.specs.Prelude.{◌≡◌, [], None, IfOk};
ghost use Rattle.mls_tree.specs.TreeDecoding.{ReadsTree};

use crate::public_tree::PublicTree;
use mls_nodes::{NodeFault, decode_ratchet_tree};
use std::alloc::Global;

impl PublicTree {
    /// Decodes a tree that is the whole input, encoded as a `ratchet_tree` extension (RFC 9420, 12.4.3.3), and extends
    /// it with blank nodes to a full tree. The tree has no cache.
    ///
    /// # Errors
    ///
    /// As [`decode_ratchet_tree`], in its order. An input of more than 268,435,456 bytes is `TooLong` at offset 0.
    pub fn decode(alloc: Global, bytes: &[u8]) -> Result<PublicTree, NodeFault>
        ensures tree { ReadsTree bytes.now result }
        ensures kind { IfOk result (λ t. t.kind ≡ None) }
        ensures slots { IfOk result (λ t. t.slots ≡ []) }
    {
        let entries = decode_ratchet_tree(alloc, bytes)?;
        match PublicTree::from_nodes(entries) {
            Ok(tree) => Ok(tree),
            Err(_) => unreachable!(),
        }
    }
}
