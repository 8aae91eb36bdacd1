//! The numbers of the curves (FIPS 186-4, D.1.2) in limbs of 64 bits, the lowest first.
//!
//! The complement of a prime p is 2^(64 n) - p, where n is the curve's number of limbs.

use crate::limbs::LIMBS;

/// The complement of the prime of P-256: 2^224 - 2^192 - 2^96 + 1.
pub(crate) const COMPLEMENT_P256: [u64; LIMBS] = [
    0x0000000000000001,
    0xffffffff00000000,
    0xffffffffffffffff,
    0x00000000fffffffe,
    0,
    0,
    0,
    0,
    0,
];

/// The complement of the prime of P-384: 2^128 + 2^96 - 2^32 + 1.
pub(crate) const COMPLEMENT_P384: [u64; LIMBS] = [
    0xffffffff00000001,
    0x00000000ffffffff,
    0x0000000000000001,
    0,
    0,
    0,
    0,
    0,
    0,
];

/// The complement of the prime of P-521: 2^576 - 2^521 + 1.
pub(crate) const COMPLEMENT_P521: [u64; LIMBS] = [
    0x0000000000000001,
    0,
    0,
    0,
    0,
    0,
    0,
    0,
    0xfffffffffffffe00,
];

/// The coefficient b of P-256.
pub(crate) const COEFFICIENT_P256: [u64; LIMBS] = [
    0x3bce3c3e27d2604b,
    0x651d06b0cc53b0f6,
    0xb3ebbd55769886bc,
    0x5ac635d8aa3a93e7,
    0,
    0,
    0,
    0,
    0,
];

/// The coefficient b of P-384.
pub(crate) const COEFFICIENT_P384: [u64; LIMBS] = [
    0x2a85c8edd3ec2aef,
    0xc656398d8a2ed19d,
    0x0314088f5013875a,
    0x181d9c6efe814112,
    0x988e056be3f82d19,
    0xb3312fa7e23ee7e4,
    0,
    0,
    0,
];

/// The coefficient b of P-521.
pub(crate) const COEFFICIENT_P521: [u64; LIMBS] = [
    0xef451fd46b503f00,
    0x3573df883d2c34f1,
    0x1652c0bd3bb1bf07,
    0x56193951ec7e937b,
    0xb8b489918ef109e1,
    0xa2da725b99b315f3,
    0x929a21a0b68540ee,
    0x953eb9618e1c9a1f,
    0x0000000000000051,
];
