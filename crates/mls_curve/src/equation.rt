//! The equation of a curve, as (x^2 + (p - 3)) x + (p - y) y + b = 0 modulo p, so that nothing is negative.
//!
//! Each product is divided by w = 2^(64 * len), where `len` is the number of limbs. The sum is divided by w^2, since the outer
//! product adds a summand that is divided by w before. A number and its quotient are multiples of p together, because w has an
//! inverse modulo p.

ghost use Rattle.std.specs.Prelude.{◌≡◌};
ghost use Rattle.mls_curve.specs.Curves.{is_point};
ghost use Rattle.mls_curve.specs.CurvesInternal.{limb_count};
ghost use Rattle.mls_curve.specs.Limbs.{value_below};

use crate::curve::Curve;
use crate::limbs::LIMBS;
use crate::residue::{is_below, is_multiple, negated, product};

/// The number 3.
const THREE: [u64; LIMBS] = [3, 0, 0, 0, 0, 0, 0, 0, 0];

/// Returns whether `x` and `y` are the coordinates of a point.
#[inline(always)]
pub(crate) fn is_point(curve: Curve, x: &[u64; LIMBS], y: &[u64; LIMBS]) -> bool
    ensures { result
        ≡ is_point curve (value_below x.now (limb_count curve)) (value_below y.now (limb_count curve)) }
{
    if !is_below(curve, x) || !is_below(curve, y) {
        return false;
    }
    let factor = product(curve, x, x, &negated(curve, &THREE));
    let summand = product(curve, &negated(curve, y), y, &curve.coefficient());
    let sum = product(curve, &factor, x, &summand);
    is_multiple(curve, &sum)
}
