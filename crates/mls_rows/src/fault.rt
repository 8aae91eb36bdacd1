//! Why a row is wrong, or can't be read.

use std::alloc::{AllocError, AllocFailed};
use thiserror::Error;

/// Why a line of a file is wrong.
#[derive(Debug, Drop, Error)]
pub(crate) enum RowFault {
    /// Another result than the one that the row expects.
    #[error("wanted {0} found {1}")]
    Wrong(String, String),
    /// A refused message changed a follower.
    #[error("message {0} was refused, and changed the follower")]
    Changed(usize),
    /// A validator refuses the tree after an accepted message.
    #[error("message {0} was accepted, and the tree is not valid")]
    NotValid(usize),
    /// The cached hashes of a follower's tree differ from those of its nodes.
    #[error("the cached hashes are not those of the tree")]
    KeptHashes,
    /// The hash of a follower's tree is not cached.
    #[error("the hash of the tree is not cached")]
    NotCached,
    /// Two calls that must agree return different values.
    #[error("two calls return different values, or an argument was changed")]
    TwoResults,
    /// A changed message was accepted with another result than the message itself.
    #[error("a changed message has another result")]
    OtherResult,
    /// A front of an encoding was read.
    #[error("the first {0} bytes are read")]
    CutIsRead(usize),
    /// A word is no bytes.
    #[error("not bytes: {0}")]
    NotBytes(String),
    /// A name is not defined.
    #[error("not defined: {0}")]
    NotDefined(String),
    /// A name is given twice.
    #[error("defined before: {0}")]
    DefinedTwice(String),
    /// A vector or a hash isn't closed, or what is closed was not opened.
    #[error("not closed, or not opened")]
    Brackets,
    /// A text has no second quotation mark.
    #[error("a text has no end")]
    Text,
    /// A body is too long for a vector.
    #[error("too long for a vector")]
    TooLong,
    /// There is no `=`.
    #[error("no result")]
    NoResult,
    /// There are rows of no such kind.
    #[error("not a kind: {0}")]
    Kind(String),
    /// A row has another number of fields than its kind.
    #[error("another number of fields than {0}")]
    Fields(usize),
    /// A field isn't of its kind.
    #[error("field {0} is not {1}")]
    Field(usize, &'static str),
    /// A file has neither names nor rows.
    #[error("nothing in it")]
    Empty,
    /// A file can't be read.
    #[error("can't be read")]
    NotRead,
    /// Memory ran out.
    #[error("out of memory")]
    OutOfMemory,
}

impl From<AllocError> for RowFault {
    fn from(_error: AllocError) -> RowFault {
        RowFault::OutOfMemory
    }
}

impl<T: Drop> From<AllocFailed<T>> for RowFault {
    fn from(_error: AllocFailed<T>) -> RowFault {
        RowFault::OutOfMemory
    }
}
