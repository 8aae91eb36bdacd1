//! Reading the entries of a ratchet_tree, whose leaf nodes share its bytes.

ghost use Rattle.std.specs.Prelude.{◌≡◌, ◌+◌, ◌≤◌, ◌<◌, length, take, drop, Some, Err, IfOk, IfSome};
ghost use Rattle.mls_wire.specs.Encoding.{optional};
ghost use Rattle.mls_wire.specs.Faults.{too_long_at};
ghost use Rattle.mls_wire.specs.Input.{at};
ghost use Rattle.mls_wire.specs.Limits.{input_limit};
ghost use Rattle.mls_wire.specs.ReadContracts.{seen};
ghost use Rattle.mls_nodes.specs.Layout.{node};
ghost use Rattle.mls_nodes.specs.Limits.{entry_limit};
ghost use Rattle.mls_nodes.specs.NodeValues.{entry_value};
ghost use Rattle.mls_nodes.specs.RatchetTreeReading.{StartsReading, ReadsEntry};
ghost use Rattle.mls_nodes.specs.declared.fault.NodeFault.TheVariants as faults;

use crate::fault::NodeFault;
use crate::leaf_bytes::InputPart;
use crate::node::Node;
use crate::ratchet_tree::progress::Progress;
use crate::ratchet_tree::reader::{read_next, read_vector};
use mls_wire::{Reader, Shared};
use std::alloc::Global;
use std::marker::Model;

/// Returns readers of the unread bytes of entries, which begin at `next` and are `body_len`, and of the bytes after them.
fn unread_parts(bytes: &[u8], next: usize, body_len: usize) -> (Reader<'_>, Reader<'_>)
    requires { next + body_len ≤ length bytes.now }
    ensures body { result.0 ≡ at next (take body_len (drop next bytes.now)) }
    ensures after { result.1 ≡ at (next + body_len) (drop body_len (drop next bytes.now)) }
{
    let (body, after) = bytes[next..].split_at(body_len);
    let body = Reader::resumed(next, body);
    let after = Reader::resumed(next + body_len, after);
    (body, after)
}

/// The entries of a ratchet_tree that are still to be read (RFC 9420, 12.4.3.3), with its bytes.
///
/// The leaf nodes that are read share the bytes, which are freed with the last of them. So a leaf node is not copied.
#[derive(Drop)]
pub struct OwnedTreeReader {
    bytes: Shared<Vec<u8>>,
    entry: usize,
    next: usize,
    body_len: usize,
    progress: Progress,
}

impl Model for OwnedTreeReader {
    ghost use Rattle.std.specs.Prelude.{◌+◌, ◌≤◌, length, drop, slice_range};
    ghost use Rattle.mls_nodes.specs.ParsingInternal.{unread_model};
    ghost use Rattle.mls_nodes.specs.RatchetTreeReading.{OwnedTreeReaderModel};

    ghost Value = { OwnedTreeReaderModel };

    ghost view = { λ r. record {
      reader = unread_model r.progress r.next r.body_len (drop r.next r.bytes.items);
      encoding = slice_range r.bytes.items r.entry r.next;
    } };

    ghost invariant = { λ r. (r.entry ≤ r.next) × (r.next + r.body_len ≤ length r.bytes.items) };
}

impl OwnedTreeReader {
    /// Returns a reader of the entries of the tree whose encoding is all of the bytes.
    ///
    /// # Errors
    ///
    /// `TooLong` at 0 for an input of more than [`MAX_INPUT`](mls_wire::MAX_INPUT) bytes, then the faults of the vector.
    pub fn new(bytes: Shared<Vec<u8>>) -> Result<OwnedTreeReader, NodeFault>
        ensures starts { StartsReading bytes.items (seen (λ r. r.reader) result) }
        ensures long { input_limit < length bytes.items
            → result ≡ Err (faults.Wire (too_long_at 0)) }
    {
        let (body, _) = read_vector(bytes.as_slice())?;
        let next = body.position();
        let body_len = body.left().len();
        Ok(OwnedTreeReader {
            bytes,
            entry: next,
            next,
            body_len,
            progress: Progress {
                node_index: 0,
                is_last_non_blank: false,
                has_non_blank: false,
            },
        })
    }

    /// Returns the node index of the next entry: how many entries were read.
    pub fn node_index(&self) -> usize
        ensures value { result ≡ self.now.reader.node_index }
        ensures bound { result ≤ entry_limit }
    {
        self.progress.node_index
    }

    /// Returns the encoding of the entry that was read last.
    pub fn encoding(&self) -> &[u8]
        ensures { result.now ≡ self.now.encoding }
    {
        &self.bytes.as_slice()[self.entry..self.next]
    }

    /// Reads the next entry. Returns `None` after the last one, if these entries are a tree up to its last non-blank
    /// node, and no byte is after them.
    ///
    /// # Errors
    ///
    /// As [`RatchetTreeReader::next_entry`](crate::RatchetTreeReader::next_entry).
    pub fn next_entry(&mut self, alloc: Global) -> Result<Option<Option<Node>>, NodeFault>
        ensures entry { ReadsEntry self.old.reader self.new.reader result }
        ensures encoding { IfOk result
            (λ o. IfSome o (λ x. optional node (entry_value x) ≡ Some self.new.encoding)) }
    {
        let (mut body, after) = unread_parts(self.bytes.as_slice(), self.next, self.body_len);
        let part = InputPart {
            input: &self.bytes,
            end: self.next + self.body_len,
        };
        let mut progress = self.progress;
        let entry = read_next(alloc, Some(part), &mut progress, &mut body, &after)?;
        let left = body.left().len();
        self.progress = progress;
        self.entry = self.next;
        self.next += self.body_len - left;
        self.body_len = left;
        Ok(entry)
    }
}
