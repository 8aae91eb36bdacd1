//! The presentation language of MLS (RFC 9420, 2.1): integers, lengths, vectors, optional values and lists as bytes,
//! and devices that give and take bytes.
//!
//! - A [`Reader`] reads bytes from left to right, and a [`Writer`] appends to its own.
//! - A type that implements [`Decode`] and [`Encode`] states its encoding. It is then decoded by [`read_value`],
//!   [`read_all_of`] and [`read_input`], and encoded by [`bytes_of`] and [`Writer::write`].
//! - [`Opaque`] is the body of a vector, [`BoxedOpaque`] a smaller form for long lists, [`Items`] a list that fits into
//!   one, [`EncodedItems`] such a list stored as its encoding, [`Codes`] such a list of `uint16`, [`Sequence`] a list of
//!   any length.
//! - [`OpaqueRef`] and [`ItemsRef`] are the body of a vector and a list, borrowed from the bytes that encode them.
//! - [`EncodedLength`] is the encoding of a vector's length, for whoever passes on a vector in pieces.
//! - [`Shared`] holds a value with several owners, so that a copy of it allocates nothing.
//! - A [`Source`] gives bytes and a [`Sink`] takes them, in pieces of any size; each over std or over memory.
//! - A [`RecordReader`] reads the records of a log from its source. [`Records`] takes the source in each call.
//!
//! Contracts name encodings (`specs/Encoding.antt`). A read returns the value that is encoded at the front, and fails
//! if and only if there is none. A write appends exactly the encoding, or nothing. Only what implementors of [`Decode`]
//! and [`Skip`] need, and types that borrow their fields, also names the reading function.
#![tactic(auto)]

mod borrowed;
mod boxed_opaque;
mod codes;
mod decode;
mod draft;
mod encode;
mod encoded_items;
mod encoded_length;
mod fault;
mod integers;
mod items;
pub mod laws;
mod log;
mod memory_device;
mod opaque;
mod optional;
mod reader;
mod record_reader;
mod sequence;
mod shared;
mod short_bytes;
mod short_codes;
mod short_vector;
mod sink;
mod size;
mod source;
mod try_clone;
mod writer;

pub use borrowed::{ItemsRef, OpaqueRef, parse_u8, parse_u16, parse_u64};
pub use boxed_opaque::BoxedOpaque;
pub use codes::Codes;
pub use decode::{Decode, MAX_INPUT, read_all_of, read_input, read_value};
pub use draft::Draft;
pub use encode::{Encode, bytes_of, put_list};
pub use encoded_items::{EncodedItems, Skip};
pub use encoded_length::EncodedLength;
pub use fault::{CodecFault, DeviceFault, RunFault, WireFault, WireFaultKind};
pub use items::{Items, fits};
pub use log::{LogStep, Records};
pub use memory_device::{MemorySink, MemorySource};
pub use opaque::{MAX_BODY, Opaque};
pub use reader::Reader;
pub use record_reader::RecordReader;
pub use sequence::Sequence;
pub use shared::Shared;
pub use sink::{Sink, StdSink, write_all};
pub use size::{add_sizes, size_of_list};
pub use source::{Source, StdSource, fill};
pub use try_clone::{TryClone, copy_of};
pub use writer::Writer;
