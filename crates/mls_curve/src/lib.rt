//! Points of the curves P-256, P-384 and P-521 in uncompressed form (SEC 1, 2.3.3; FIPS 186-4, D.1.2).
//!
//! - [`Curve`] names one of the three curves.
//! - [`is_on_curve`] validates bytes as a point of a curve.
//!
//! HPKE encodes public keys on these curves in this form (RFC 9180, 7.1.1). MLS does so for ECDSA public keys (RFC 9420,
//! 5.1.1; RFC 8446, 4.2.8.2). A recipient must validate that a key is a point of its curve (RFC 9180, 7.1.4; RFC 8446,
//! 4.2.8.2).
//!
//! The calls allocate nothing. They are not constant in time, so pass public keys only.
//!
//! `specs/Curves.antt` defines the curves and their points.
#![tactic(auto)]

mod curve;
mod curve_numbers;
mod equation;
mod limbs;
mod point;
mod residue;

pub use curve::Curve;
pub use point::is_on_curve;
