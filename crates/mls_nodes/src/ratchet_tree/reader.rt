//! Reading the entries of a ratchet_tree, one after the other.

ghost use Rattle.std.specs.Prelude.{◌≡◌, ◌+◌, ◌≤◌, ◌<◌, [], length, Some, None, Err, IfOk, OnErr};
ghost use Rattle.mls_wire.specs.Faults.{too_long_at};
ghost use Rattle.mls_wire.specs.Limits.{input_limit};
ghost use Rattle.mls_wire.specs.Parsing.{body_at};
ghost use Rattle.mls_wire.specs.ParsingInternal.{Gives, flag_at, optional_at};
ghost use Rattle.mls_wire.specs.ReadContracts.{seen};
ghost use Rattle.mls_nodes.specs.Limits.{entry_limit};
ghost use Rattle.mls_nodes.specs.LeafBytesInternal.{IsFrom};
ghost use Rattle.mls_nodes.specs.NodeValues.{node_value, entry_value};
ghost use Rattle.mls_nodes.specs.ParsingInternal.{node_in, reader_model, rest_at, GivesNode, ReadsVector};
ghost use Rattle.mls_nodes.specs.RatchetTreeReading.{StartsReading, ReadsEntry};
ghost use Rattle.mls_nodes.specs.declared.fault.NodeFault.TheVariants as faults;

use crate::encoded_leaf::EncodedLeaf;
use crate::fault::NodeFault;
use crate::leaf_bytes::InputPart;
use crate::node::Node;
use crate::parent::ParentNode;
use crate::ratchet_tree::MAX_ENTRIES;
use crate::ratchet_tree::progress::Progress;
use mls_wire::{Decode, MAX_INPUT, Reader, Shared, WireFault, WireFaultKind};
use std::alloc::Global;
use std::marker::Model;

/// Returns whether an entry is non-blank.
fn read_presence(reader: &mut Reader<'_>) -> Result<bool, WireFault>
    ensures { Gives flag_at reader.old reader.new result }
{
    reader.read_optional()
}

/// Returns a reader of the body of the vector at the front.
fn read_body<'a>(reader: &mut Reader<'a>) -> Result<Reader<'a>, WireFault>
    ensures { Gives body_at reader.old reader.new result }
{
    reader.read_sub()
}

/// Reads the node of the entry at a node index. Its type is checked before its body is read.
#[tactic(auto, unfolding(crate::specs::ParsingInternal::node_in))]
fn read_node(
    alloc: Global,
    source: Option<InputPart<'_>>,
    node_index: usize,
    reader: &mut Reader<'_>,
) -> Result<Node, NodeFault>
    requires { IsFrom source reader.old }
    ensures { GivesNode (node_in node_index) reader.old reader.new (seen node_value result) }
{
    let at = reader.position();
    match u8::read(alloc, reader)? {
        1 if node_index % 2 == 0 => Ok(Node::Leaf(Shared::new(
            alloc,
            EncodedLeaf::read_from(alloc, source, reader)?,
        )?)),
        2 if node_index % 2 == 1 => Ok(Node::Parent(Box::new(
            alloc,
            ParentNode::read(alloc, reader)?,
        )?)),
        1 | 2 => Err(NodeFault::WrongNodeKind(node_index)),
        kind => Err(NodeFault::Wire(WireFault {
            kind: WireFaultKind::BadTag(u16::from(kind)),
            at,
        })),
    }
}

/// Reads the entry at a node index.
#[tactic(auto, unfolding(mls_wire::specs::ParsingInternal::optional_at))]
fn read_entry(
    alloc: Global,
    source: Option<InputPart<'_>>,
    node_index: usize,
    reader: &mut Reader<'_>,
) -> Result<Option<Node>, NodeFault>
    requires { IsFrom source reader.old }
    ensures { GivesNode (optional_at (node_in node_index)) reader.old reader.new
        (seen entry_value result) }
{
    if !read_presence(reader)? {
        return Ok(None);
    }
    Ok(Some(read_node(alloc, source, node_index, reader)?))
}

/// Checks that the entries may end after the body of the vector, and that no byte is after the vector.
fn check_end(progress: Progress, body: &Reader<'_>, after: &Reader<'_>) -> Result<(), NodeFault>
    requires { body.now.left ≡ [] }
    ensures end { IfOk result
        (λ _. rest_at progress.node_index progress.is_last_non_blank after.now body.now ≡ Some []) }
    ensures fault { OnErr result
        (rest_at progress.node_index progress.is_last_non_blank after.now body.now ≡ None) }
{
    if !progress.is_last_non_blank {
        return Err(if progress.has_non_blank {
            NodeFault::LastBlank
        } else {
            NodeFault::EmptyTree
        });
    }
    after.finish()?;
    Ok(())
}

/// Returns readers of the body of the vector at the front of an input, and of what is after it.
pub(super) fn read_vector(bytes: &[u8]) -> Result<(Reader<'_>, Reader<'_>), NodeFault>
    ensures vector { ReadsVector bytes.now result }
    ensures long { input_limit < length bytes.now → result ≡ Err (faults.Wire (too_long_at 0)) }
{
    if bytes.len() > MAX_INPUT {
        return Err(NodeFault::Wire(WireFault {
            kind: WireFaultKind::TooLong,
            at: 0,
        }));
    }
    let mut after = Reader::new(bytes);
    let body = read_body(&mut after)?;
    Ok((body, after))
}

/// Reads the next entry from the unread bytes of entries. `after` is the input after the vector. A leaf node shares its
/// bytes with the input that the unread bytes are from, if it is given.
pub(super) fn read_next(
    alloc: Global,
    source: Option<InputPart<'_>>,
    progress: &mut Progress,
    body: &mut Reader<'_>,
    after: &Reader<'_>,
) -> Result<Option<Option<Node>>, NodeFault>
    requires { IsFrom source body.old }
    ensures entry { ReadsEntry
        (reader_model progress.old after.now body.old)
        (reader_model progress.new after.now body.new) result }
    ensures end { IfOk result (λ _. body.new.offset + length body.new.left
        ≡ body.old.offset + length body.old.left) }
{
    if body.at_end() {
        check_end(*progress, body, after)?;
        return Ok(None);
    }
    if progress.node_index >= MAX_ENTRIES {
        return Err(NodeFault::TooManyLeaves);
    }
    let entry = read_entry(alloc, source, progress.node_index, body)?;
    *progress = Progress {
        node_index: progress.node_index + 1,
        is_last_non_blank: entry.is_some(),
        has_non_blank: progress.has_non_blank || entry.is_some(),
    };
    Ok(Some(entry))
}

/// The entries of a ratchet_tree that are still to be read (RFC 9420, 12.4.3.3).
///
/// A caller that needs one entry at a time reads a tree without the memory of all its nodes.
#[derive(Drop)]
pub struct RatchetTreeReader<'a> {
    body: Reader<'a>,
    after: Reader<'a>,
    progress: Progress,
}

impl<'a> Model for RatchetTreeReader<'a> {
    ghost use Rattle.mls_nodes.specs.RatchetTreeReading.{RatchetTreeReaderModel};
    ghost use Rattle.mls_nodes.specs.ParsingInternal.{reader_model};

    ghost Value = { RatchetTreeReaderModel };

    ghost view = { λ r. reader_model r.progress r.after r.body };
}

impl<'a> RatchetTreeReader<'a> {
    /// Returns a reader of the entries of the tree whose encoding is all of the bytes.
    ///
    /// # Errors
    ///
    /// `TooLong` at 0 for an input of more than [`MAX_INPUT`] bytes, then the faults of the vector.
    pub fn new(bytes: &'a [u8]) -> Result<RatchetTreeReader<'a>, NodeFault>
        ensures starts { StartsReading bytes.now result }
        ensures long { input_limit < length bytes.now → result ≡ Err (faults.Wire (too_long_at 0)) }
    {
        let (body, after) = read_vector(bytes)?;
        Ok(RatchetTreeReader {
            body,
            after,
            progress: Progress {
                node_index: 0,
                is_last_non_blank: false,
                has_non_blank: false,
            },
        })
    }

    /// Returns the node index of the next entry: how many entries were read.
    pub fn node_index(&self) -> usize
        ensures value { result ≡ self.now.node_index }
        ensures bound { result ≤ entry_limit }
    {
        self.progress.node_index
    }

    /// Reads the next entry. Returns `None` after the last one, if these entries are a tree up to its last non-blank
    /// node, and no byte is after them.
    ///
    /// # Errors
    ///
    /// `TooManyLeaves` where the entry with node index 2,097,151 begins; the faults of the entry, of which
    /// `WrongNodeKind` is found at the type of the node. After the last entry: `EmptyTree` if every entry is blank;
    /// `LastBlank`; `Trailing` for bytes after the vector. Or `OutOfMemory`.
    pub fn next_entry(&mut self, alloc: Global) -> Result<Option<Option<Node>>, NodeFault>
        ensures { ReadsEntry self.old self.new result }
    {
        read_next(alloc, None, &mut self.progress, &mut self.body, &self.after)
    }
}
