//! The curves and their numbers (FIPS 186-4, D.1.2).

ghost use Rattle.std.specs.Prelude.{◌≡◌, ◌+◌, ◌-◌, ◌*◌, ◌^◌, ◌%◌, ◌<◌, ◌≤◌};
ghost use Rattle.mls_curve.specs.Curves.{coefficient, coordinate_length, prime};
ghost use Rattle.mls_curve.specs.CurvesInternal.{limb_count};
ghost use Rattle.mls_curve.specs.Limbs.{limb_weight, value_below};

use crate::curve_numbers::{
    COEFFICIENT_P256, COEFFICIENT_P384, COEFFICIENT_P521, COMPLEMENT_P256, COMPLEMENT_P384,
    COMPLEMENT_P521,
};
use crate::limbs::LIMBS;

/// A curve y^2 = x^3 - 3x + b over the field of the integers modulo a prime p (FIPS 186-4, D.1.2).
#[derive(Clone, Copy, Debug, PartialEq, Eq)]
pub enum Curve {
    /// P-256, also called secp256r1. Its prime has 256 bits, its field 2^256 - 2^224 + 2^192 + 2^96 - 1 elements.
    P256,
    /// P-384, also called secp384r1. Its prime has 384 bits, its field 2^384 - 2^128 - 2^96 + 2^32 - 1 elements.
    P384,
    /// P-521, also called secp521r1. Its prime has 521 bits, its field 2^521 - 1 elements.
    P521,
}

impl Curve {
    /// Returns the length of a coordinate in bytes: 32 for P-256, 48 for P-384, 66 for P-521 (SEC 1, 2.3.5). An uncompressed
    /// point has 1 + 2 * `coordinate_len` bytes (SEC 1, 2.3.3).
    #[tactic(auto, unfolding(crate::specs::Curves::coordinate_length))]
    pub fn coordinate_len(self) -> usize
        ensures length { result ≡ coordinate_length self }
        ensures limit { result ≤ 66 }
    {
        match self {
            Curve::P256 => 32,
            Curve::P384 => 48,
            Curve::P521 => 66,
        }
    }

    /// Returns how many limbs of 64 bits a coordinate has.
    #[tactic(auto, unfolding(crate::specs::CurvesInternal::limb_count))]
    pub(crate) fn limb_count(self) -> usize
        ensures count { result ≡ limb_count self }
        ensures least { 0 < result }
        ensures limit { result ≤ 9 }
    {
        match self {
            Curve::P256 => 4,
            Curve::P384 => 6,
            Curve::P521 => 9,
        }
    }

    /// Returns the complement of the prime.
    pub(crate) fn complement(self) -> [u64; LIMBS]
        ensures { value_below result (limb_count self) + prime self ≡ limb_weight (limb_count self) }
    {
        match self {
            Curve::P256 => COMPLEMENT_P256,
            Curve::P384 => COMPLEMENT_P384,
            Curve::P521 => COMPLEMENT_P521,
        }
    }

    /// Returns the inverse of the complement modulo 2^64.
    pub(crate) fn inverse(self) -> u64
        ensures { (limb_weight (limb_count self) - prime self) * result % 2 ^ 64 ≡ 1 }
    {
        match self {
            Curve::P256 => 1,
            Curve::P384 => 0x0000_0001_0000_0001,
            Curve::P521 => 1,
        }
    }

    /// Returns the coefficient b of the equation.
    pub(crate) fn coefficient(self) -> [u64; LIMBS]
        ensures { value_below result (limb_count self) ≡ coefficient self }
    {
        match self {
            Curve::P256 => COEFFICIENT_P256,
            Curve::P384 => COEFFICIENT_P384,
            Curve::P521 => COEFFICIENT_P521,
        }
    }
}
