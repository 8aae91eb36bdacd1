//! Decoding a tree, each of whose leaves is hashed from its bytes as they are read (RFC 9420, 7.8).

ghost use Rattle.std.specs.Prelude.{◌≡◌, ◌+◌, ◌*◌, ◌/◌, ◌<◌, ◌++◌, ◌∷◌, [], List, Option, Some, length, drop, map, option_map, OnOk, IfOk};
ghost use Rattle.mls_wire.specs.Encoding.{optional};
ghost use Rattle.mls_wire.specs.ReadContracts.{seen};
ghost use Rattle.mls_nodes.specs.declared.leaf.LeafNode.{LeafNode};
ghost use Rattle.mls_nodes.specs.Layout.{leaf, node};
ghost use Rattle.mls_nodes.specs.Limits.{entry_limit};
ghost use Rattle.mls_nodes.specs.NodeModel.{NodeValue};
ghost use Rattle.mls_nodes.specs.NodeValues.{entry_value};
ghost use Rattle.mls_nodes.specs.RatchetTreeContractsInternal.{DecodesEntries};
ghost use Rattle.mls_tree.specs.Tree.{leaf_entry};
ghost use Rattle.mls_tree.specs.TreeDecoding.{ReadsTree};
ghost use Rattle.mls_tree.specs.TreeHash.{leaf_tree_hash_input};
ghost use Rattle.mls_hash.specs.SuiteHash.{hash_length, hash_of, kind_of};
ghost use Rattle.mls_hash.specs.EncodedLeaves.{AreEntryHashes, AreLeafHashes};

use crate::digest::hash;
use crate::suite::Suite;
use mls_nodes::{Node, NodeFault, OwnedTreeReader, append_blanks};
use mls_tree::{HashList, HashValue, PublicTree};
use mls_wire::Shared;
use std::alloc::{AllocError, Global};

/// Returns the bytes after the first one.
fn after_first(bytes: &[u8]) -> &[u8]
    requires { 0 < length bytes.now }
    ensures { result.now ≡ drop 1 bytes.now }
{
    &bytes[1..]
}

/// Returns the encoding of an optional leaf node from that of its entry, if the entry is blank or a leaf node.
///
/// The encoding of the entry is 0, or 1, the node type 1 and the leaf node (RFC 9420, 12.4.3.3). That of the optional
/// leaf node is 0, or 1 and the leaf node.
fn optional_leaf<'a>(entry: &Option<Node>, encoding: &'a [u8]) -> &'a [u8]
    requires { optional node (entry_value entry.now) ≡ Some encoding.now }
    ensures { (x : Option LeafNode) → entry_value entry.now ≡ leaf_entry x
        → optional leaf x ≡ Some result.now }
{
    match entry {
        Some(_) => after_first(encoding),
        None => encoding,
    }
}

/// Returns the tree hash of a leaf from the encoding of its entry, if the entry is blank or a leaf node. The hash input
/// is the node type 1, the leaf index and the optional leaf node (RFC 9420, 7.8).
fn hash_encoded(suite: Suite, index: u32, entry: &Option<Node>, encoding: &[u8]) -> HashValue
    requires { optional node (entry_value entry.now) ≡ Some encoding.now }
    ensures hash { (x : Option LeafNode) → entry_value entry.now ≡ leaf_entry x
        → option_map (hash_of suite) (leaf_tree_hash_input index x) ≡ Some result }
    ensures length { length result ≡ hash_length suite }
{
    let [a, b, c, d] = index.to_be_bytes();
    hash(suite, &[1, a, b, c, d], optional_leaf(entry, encoding))
}

/// Appends the tree hash of the leaf whose entry was read, if the node index is that of a leaf.
fn push_hash(
    suite: Suite,
    node_index: usize,
    entry: &Option<Node>,
    encoding: &[u8],
    hashes: &mut HashList,
) -> Result<(), AllocError>
    requires node_index { node_index < entry_limit }
    requires encoding { optional node (entry_value entry.now) ≡ Some encoding.now }
    requires width { hashes.old.width ≡ hash_length suite }
    requires count { length hashes.old.hashes ≡ (node_index + 1) / 2 }
    ensures width { hashes.new.width ≡ hashes.old.width }
    ensures pushed { let H = hash_of suite in
        OnOk result ((nodes : List (Option NodeValue)) → length nodes ≡ node_index
        → AreEntryHashes H nodes hashes.old.hashes
        → AreEntryHashes H (nodes ++ entry_value entry.now ∷ []) hashes.new.hashes) }
{
    if node_index % 2 == 1 {
        return Ok(());
    }
    let hash = hash_encoded(suite, (node_index / 2) as u32, entry, encoding);
    hashes.push(&hash)
}

/// Reserves room, once the first entry was read, for as many leaves as there would be if each took as many bytes as that
/// entry, and at least 64, and for as many parents.
fn reserve_at_first(
    node_index: usize,
    input_len: usize,
    entry_len: usize,
    entries: &mut Vec<Option<Node>>,
    hashes: &mut HashList,
) -> Result<(), AllocError>
    ensures entries { entries.new.items ≡ entries.old.items }
    ensures hashes { hashes.new ≡ hashes.old }
{
    if node_index > 0 {
        return Ok(());
    }
    let leaves = input_len / entry_len.max(64);
    entries.try_reserve_exact(leaves.saturating_mul(2))?;
    hashes.reserve(leaves)
}

/// Returns the entries whose encoding is all of the bytes, up to the last non-blank one, and the tree hashes of the
/// leaves among them.
fn read_hashed(
    alloc: Global,
    suite: Suite,
    bytes: Vec<u8>,
) -> Result<(Vec<Option<Node>>, HashList), NodeFault>
    ensures entries { DecodesEntries bytes.items (seen (λ p. map entry_value p.0.items) result) }
    ensures hashes { IfOk result
        (λ p. AreEntryHashes (hash_of suite) (map entry_value p.0.items) p.1.hashes) }
{
    let input_len = bytes.len();
    let mut reader = OwnedTreeReader::new(Shared::new(alloc, bytes)?)?;
    let mut entries = Vec::new(alloc);
    let mut hashes = HashList::blank(alloc, 0, suite.hash_len())?;
    while let Some(entry) = reader.next_entry(alloc)? {
        let node_index = reader.node_index() - 1;
        let encoding = reader.encoding();
        reserve_at_first(
            node_index,
            input_len,
            encoding.len(),
            &mut entries,
            &mut hashes,
        )?;
        push_hash(suite, node_index, &entry, encoding, &mut hashes)?;
        entries.push(entry)?;
    }
    Ok((entries, hashes))
}

/// Creates a hash cache for the suite, and puts the tree hashes of leaves into their slots.
fn put_leaf_hashes(
    alloc: Global,
    suite: Suite,
    tree: &mut PublicTree,
    hashes: &HashList,
) -> Result<(), AllocError>
    requires { AreLeafHashes (hash_of suite) tree.old.tree hashes.now.hashes }
    ensures tree { tree.new.tree ≡ tree.old.tree }
    ensures kind { OnOk result (tree.new.kind ≡ Some (kind_of suite)) }
{
    tree.reserve_hashes(alloc, suite.kind())?;
    for index in 0..tree.leaf_count() {
        if let Some(hash) = hashes.get(index) {
            tree.keep_hash(2 * index, hash);
        }
    }
    Ok(())
}

/// Decodes a tree that is the whole input, as [`PublicTree::decode`] does. The tree has a hash cache for the suite, in
/// which the leaves that were read have their tree hashes: each leaf is hashed from its bytes, which are not encoded
/// again.
///
/// The leaf nodes share the bytes, as by [`OwnedTreeReader`].
///
/// # Errors
///
/// As [`PublicTree::decode`], in its order.
pub fn decode_with_leaf_hashes(
    alloc: Global,
    suite: Suite,
    bytes: Vec<u8>,
) -> Result<PublicTree, NodeFault>
    ensures tree { ReadsTree bytes.items result }
    ensures kind { IfOk result (λ t. t.kind ≡ Some (kind_of suite)) }
{
    let (entries, hashes) = read_hashed(alloc, suite, bytes)?;
    let entries = append_blanks(entries)?;
    match PublicTree::from_nodes(entries) {
        Ok(mut tree) => {
            put_leaf_hashes(alloc, suite, &mut tree, &hashes)?;
            Ok(tree)
        }
        Err(_) => unreachable!(),
    }
}
