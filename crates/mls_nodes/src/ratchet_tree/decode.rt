//! Decoding a ratchet_tree, one entry after the other.

ghost use Rattle.std.specs.Prelude.{◌≡◌, ◌≤◌, ◌<◌, Err, map, length, IfOk, IfErr};
ghost use Rattle.mls_wire.specs.Faults.{too_long_at};
ghost use Rattle.mls_wire.specs.Limits.{input_limit};
ghost use Rattle.mls_wire.specs.ReadContracts.{seen};
ghost use Rattle.mls_nodes.specs.Limits.{entry_limit};
ghost use Rattle.mls_nodes.specs.NodeValues.{entry_value};
ghost use Rattle.mls_nodes.specs.RatchetTreeEncoding.{full_size, filled};
ghost use Rattle.mls_nodes.specs.RatchetTreeContracts.{DecodesTree};
ghost use Rattle.mls_nodes.specs.RatchetTreeContractsInternal.{DecodesEntries};
ghost use Rattle.mls_nodes.specs.declared.fault.NodeFault.TheVariants as faults;

use crate::fault::NodeFault;
use crate::node::Node;
use crate::ratchet_tree::reader::RatchetTreeReader;
use std::alloc::Global;

/// Returns the entries whose encoding is all of the bytes, up to the last non-blank one.
fn read_tree(alloc: Global, bytes: &[u8]) -> Result<Vec<Option<Node>>, NodeFault>
    ensures entries { DecodesEntries bytes.now (seen (λ v. map entry_value v.items) result) }
    ensures long { input_limit < length bytes.now → result ≡ Err (faults.Wire (too_long_at 0)) }
{
    let mut reader = RatchetTreeReader::new(bytes)?;
    let mut entries = Vec::new(alloc);
    while let Some(entry) = reader.next_entry(alloc)? {
        entries.push(entry)?;
    }
    Ok(entries)
}

/// Returns the number of nodes of the least full tree that has at least `count` (RFC 9420, Appendix C).
pub fn full_size_of(count: usize) -> usize
    requires { count ≤ entry_limit }
    ensures { result ≡ full_size count }
{
    let mut size = 1;
    while size < count {
        size = 2 * size + 1;
    }
    size
}

/// Appends blank entries, up to the least full tree (RFC 9420, 12.4.3.3).
///
/// # Errors
///
/// `OutOfMemory`. The entries are dropped.
pub fn append_blanks(mut entries: Vec<Option<Node>>) -> Result<Vec<Option<Node>>, NodeFault>
    requires { length entries.items ≤ entry_limit }
    ensures full { IfOk result
        (λ v. map entry_value v.items ≡ filled (map entry_value entries.items)) }
    ensures memory { IfErr result (λ e. e ≡ faults.OutOfMemory) }
{
    let size = full_size_of(entries.len());
    entries.reserve(size - entries.len())?;
    while entries.len() < size {
        entries.push(None)?;
    }
    Ok(entries)
}

/// Returns the tree whose encoding is all of the bytes (RFC 9420, 12.4.3.3), followed by blank entries up to the least
/// number 2^(d+1) - 1 that is not below its own.
///
/// # Errors
///
/// In this order: `TooLong` at 0 for an input of more than [`MAX_INPUT`] bytes; the faults of the vector; those of the
/// entries, one after the other; `EmptyTree` if every entry is blank; `LastBlank`; `Trailing` for bytes after the
/// vector. `TooManyLeaves` is found where the entry with node index 2,097,151 begins, and `WrongNodeKind` at the type
/// of a node, before its body is read. Or `OutOfMemory`.
pub fn decode_ratchet_tree(alloc: Global, bytes: &[u8]) -> Result<Vec<Option<Node>>, NodeFault>
    ensures encoded { DecodesTree bytes.now (seen (λ v. map entry_value v.items) result) }
    ensures long { input_limit < length bytes.now → result ≡ Err (faults.Wire (too_long_at 0)) }
{
    append_blanks(read_tree(alloc, bytes)?)
}
