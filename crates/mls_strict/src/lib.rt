//! The strict rules (own rule): forms, lengths and lists that RFC 9420 demands of keys, extensions, leaf nodes, proposals
//! and commits, and that anyone can see. A follower checks them after the rules of its profile.
//!
//! - [`is_hpke_key`], [`is_suite_point`] and [`is_signature_key`] validate a key by itself.
//! - [`certificate_key`] returns the bytes of the public key in an X.509 certificate.
//! - [`content_refusal`] says which strict rule a proposal or a commit breaks, [`proposal_refusal`] which one a proposal does.
//! - [`validate_strict`] says which one a GroupContext and a ratchet tree break, and where.
//! - [`required_types`] says what the extensions of a GroupContext require of its members.
//!
//! Each call that is given a set of rules names the first rule of it, by number. `specs/KeyForms.antt`,
//! `specs/Certificates.antt`, `specs/ExtensionLists.antt`, `specs/LeafForms.antt`, `specs/ContentForms.antt` and
//! `specs/StrictTrees.antt` define the rules.
#![tactic(auto)]

mod certificates;
mod content_forms;
mod coordinates;
mod extension_lists;
mod key_forms;
pub mod laws;
mod leaf_forms;
mod strict_fault;
mod strict_tree;

pub use certificates::certificate_key;
pub use content_forms::{content_refusal, package_refusal, proposal_refusal};
pub use extension_lists::{has_each_once, has_readable_senders};
pub use key_forms::{is_hpke_key, is_signature_key, is_suite_point};
pub use strict_fault::{StrictFault, StrictTreeFault};
pub use strict_tree::{required_types, validate_strict};
