//! The ratchet_tree extension (RFC 9420, 12.4.3.3): the entries of a tree up to the last non-blank one, each blank or a
//! node.

mod decode;
mod encode;
mod owned_reader;
mod progress;
mod reader;

pub use decode::{append_blanks, decode_ratchet_tree, full_size_of};
pub use encode::{encode_ratchet_tree, trimmed_entries};
pub use owned_reader::OwnedTreeReader;
pub use reader::RatchetTreeReader;

/// The most entries of a tree, those of 1,048,576 leaves.
const MAX_ENTRIES: usize = 2097151;
