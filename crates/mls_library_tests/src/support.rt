//! What the tests share: how values are compared, bytes as hexadecimal text, and the example group with its leaves and trees.
//!
//! The group has the id `47` and cipher suite 1. Member `i` has the leaf `i` and keys of one byte: `a0 + i` encrypts (`90 + i` after an
//! update, `80 + i` after a commit), `b0 + i` signs, `40 + i` is the identity, `c0 + i` the signature. A value is hexadecimal text here.
//!
//! A test is a table and a loop. A table is a `const`, and so one step of the proof, whatever its length.
//!
//! The functions return no `Result`: a call that fails ends the test, by [`have`]. At a `?` each value that is alive is
//! dropped, and the proof has all these drops. A function makes some eight calls at most, since each step of its proof
//! has the facts of all earlier ones. A follower is passed to `drop`, which is one step: else each field is one.

ghost use Rattle.std.specs.Prelude.{◌≡◌, ◌<◌, Ok, false};

use mls_hash::Suite;
use mls_msgs::{GroupInfo, Message, Profile, Rules, decode_message};
use mls_nodes::{EncodedLeaf, decode_leaf, encode_ratchet_tree};
use mls_start::StartBytes;
use mls_tree::PublicTree;
use mls_wire::{MemorySink, MemorySource, Shared};
use std::alloc::Global;
use std::fmt::Debug;
use std::process::Abort;

/// The tree of member 0's leaf alone.
pub(crate) const TREE: &str =
    "29010101a001b0000101400200010200010000020001010000000000000000ffffffffffffffff0001c0";

/// The GroupInfo of the group of member 0 alone in epoch 0, which has the tree as its only extension.
pub(crate) const GROUP_INFO: &str = "00010004000100010147000000000000000020e32ab6a0a711ec8a732c3f\
    ad9263ed5fa61caf53fdf9b9690dc57271d8f110d700002d00022a29010101a001b00001014002000102000100000200\
    01010000000000000000ffffffffffffffff0001c001e00000000001c4";

/// The example log, of 151 bytes: a proposal, its commit, a private message, and a record that the log ends in.
pub(crate) const LOG: &str =
    "404b00010001014700000000000000000100000000000200010001000101f101a101b100010141020001\
    0200010000020001010000000000000000ffffffffffffffff0001c10001c901c801c73f000100010147000000000000\
    000001000000000003220220419afc0a88fe171b793b00410d11c8121fb96fdfde7b5ced43d5912144a3a9f90001c601\
    e101c50600010002abcd050001";

/// The tree hash of [`TWO_LEAVES`]: the SHA-256 of `020020`, the hash of leaf 0, `20` and the hash of leaf 1.
pub(crate) const TWO_LEAVES_HASH: &str =
    "3dd545ada09b9e9be453de8b5c20702e810685eca3710882583a67d8a3eddd8b";

/// The leaves of members 0 and 1 under a blank root.
pub(crate) const TWO_LEAVES: &str =
    "4053010101a001b0000101400200010200010000020001010000000000000000ffffffffffffffff0001c000010101a101b1\
    000101410200010200010000020001010000000000000000ffffffffffffffff0001c1";

/// The leaves of members 0 and 2 under blank parents.
pub(crate) const TWO_OF_FOUR: &str =
    "4055010101a001b0000101400200010200010000020001010000000000000000ffffffffffffffff0001c0000000010101a2\
    01b2000101420200010200010000020001010000000000000000ffffffffffffffff0001c2";

/// Four leaves, of which 0, 1 and 2 are non-blank, after a commit of member 0 with a path of the nodes 1 and 3.
pub(crate) const PATH: &str =
    "40b80101018001b0000101400200010200010000020001032093665b04245cc070b1bdf028955a30b2dc700e38eb40845f27\
    4e3075f50535910001c0010201d1206a02415c428629f3da6145086a76a2675a238d2c57ad21584dba9d231107a0f7000101\
    01a101b1000101410200010200010000020001010000000000000000ffffffffffffffff0001c1010201d30000010101a201\
    b2000101420200010200010000020001010000000000000000ffffffffffffffff0001c2";

/// The tree of [`PATH`] after member 3 was added, who is unmerged at node 3.
pub(crate) const GROWN: &str =
    "40e60101018001b0000101400200010200010000020001032093665b04245cc070b1bdf028955a30b2dc700e38eb40845f27\
    4e3075f50535910001c0010201d1206a02415c428629f3da6145086a76a2675a238d2c57ad21584dba9d231107a0f7000101\
    01a101b1000101410200010200010000020001010000000000000000ffffffffffffffff0001c1010201d300040000000301\
    0101a201b2000101420200010200010000020001010000000000000000ffffffffffffffff0001c200010101a301b3000101\
    430200010200010000020001010000000000000000ffffffffffffffff0001c3";

/// Returns the value of a call. A call that fails ends the test.
pub(crate) fn have<T, E: Debug>(rt: &impl Abort, found: Result<T, E>) -> T
    ensures { found ≡ Ok result }
{
    found.expect(rt, "a value")
}

/// Asserts that a text is the expected one.
pub(crate) fn expect_text(rt: &impl Abort, found: String, expected: &str) {
    assert_eq!(rt; found.as_str(), expected);
}

/// Returns a source of these bytes. It gives at most `piece` of them in one call, and fails at the call `fails_at`.
pub(crate) fn source(bytes: &[u8], piece: usize, fails_at: Option<usize>) -> MemorySource<'_>
    ensures { result.is_failed ≡ false }
{
    MemorySource::new(bytes, piece.max(1), fails_at)
}

/// Returns an empty sink of this capacity. It takes at most `piece` bytes in one call, and fails at the call `fails_at`.
pub(crate) fn sink(
    rt: &impl Abort,
    alloc: Global,
    capacity: usize,
    piece: usize,
    fails_at: Option<usize>,
) -> MemorySink
    requires { 0 < piece }
    ensures { result.is_failed ≡ false }
{
    have(rt, MemorySink::new(alloc, capacity, piece, fails_at))
}

/// Returns what a sink holds, as text.
pub(crate) fn held_text(rt: &impl Abort, alloc: Global, sink: &MemorySink) -> String {
    let held = have(rt, Vec::from_slice(alloc, sink.bytes()));
    have(rt, String::from_utf8(held))
}

/// Returns a start from a GroupInfo that has its tree, in the members' profile, without strict rules.
pub(crate) fn start(rt: &impl Abort, alloc: Global, info: &str) -> StartBytes {
    StartBytes::Info {
        rules: Rules::plain(),
        profile: Profile::Members,
        info: bytes(rt, alloc, info),
        tree: None,
    }
}

/// The bytes that hexadecimal text stands for.
pub(crate) fn bytes(rt: &impl Abort, alloc: Global, text: &str) -> Vec<u8> {
    have(rt, hex::decode(alloc, text))
}

/// Bytes as hexadecimal text.
pub(crate) fn text(rt: &impl Abort, alloc: Global, bytes: &[u8]) -> String {
    have(rt, hex::encode(alloc, bytes))
}

/// A list as text, as `[1, 3]`.
pub(crate) fn list_text(rt: &impl Abort, alloc: Global, list: &[u32]) -> String {
    have(rt, format!(in alloc; "{list:?}"))
}

/// A member's leaf, by the first digit of its encryption key and its source.
pub(crate) fn leaf_with(
    rt: &impl Abort,
    alloc: Global,
    member: u32,
    digit: &str,
    source: &str,
) -> String {
    let i = member % 16;
    have(
        rt,
        format!(in alloc;
            "01{digit}{i:x}01b{i:x}0001014{i:x}0200010200010000020001{source}0001c{i:x}"
        ),
    )
}

/// The leaf of a member's key package.
pub(crate) fn joined_leaf(rt: &impl Abort, alloc: Global, member: u32) -> String {
    leaf_with(rt, alloc, member, "a", "010000000000000000ffffffffffffffff")
}

/// A member's leaf after an update.
pub(crate) fn updated_leaf(rt: &impl Abort, alloc: Global, member: u32) -> String {
    leaf_with(rt, alloc, member, "9", "02")
}

/// A member's key package, with the init key `f0` and up.
pub(crate) fn key_package(rt: &impl Abort, alloc: Global, member: u32) -> String {
    let leaf = joined_leaf(rt, alloc, member);
    have(
        rt,
        format!(in alloc; "0001000101f{:x}{leaf}0001c9", member % 16),
    )
}

/// The leaf node of a text.
pub(crate) fn leaf_node(rt: &impl Abort, alloc: Global, leaf: &str) -> Shared<EncodedLeaf> {
    let bytes = bytes(rt, alloc, leaf);
    have(
        rt,
        Shared::new(alloc, have(rt, decode_leaf(alloc, bytes.as_slice()))),
    )
}

/// The tree of an encoding.
pub(crate) fn tree_with(rt: &impl Abort, alloc: Global, encoding: &str) -> PublicTree {
    have(
        rt,
        PublicTree::decode(alloc, bytes(rt, alloc, encoding).as_slice()),
    )
}

/// The encoding of a tree.
pub(crate) fn tree_text(rt: &impl Abort, alloc: Global, tree: &PublicTree) -> String {
    text(
        rt,
        alloc,
        have(rt, encode_ratchet_tree(alloc, tree.nodes())).as_slice(),
    )
}

/// The example group's suite.
pub(crate) fn suite(rt: &impl Abort) -> Suite {
    have(rt, Suite::from_u16(1))
}

/// Returns the GroupInfo of a message.
pub(crate) fn group_info(rt: &impl Abort, alloc: Global, message: &str) -> GroupInfo {
    let message = bytes(rt, alloc, message);
    match have(rt, decode_message(alloc, message.as_slice())) {
        Message::GroupInfo(info) => info,
        _ => panic!(rt; "a GroupInfo"),
    }
}
