//! The live gate: one group is followed record by record. A caller queries which signatures a message needs, verifies them
//! by its own library, passes the receipts of the good ones, and then has the message processed.
//!
//! [`gate`] reads records and writes the answers. Everything that it writes is determined by what the group is followed
//! from and by the bytes of the records ([`laws`]).
#![tactic(auto)]

pub mod laws;
mod lines;
mod phase;
mod records;
mod request;
mod signature_lines;

pub use records::gate;
pub use request::Request;
