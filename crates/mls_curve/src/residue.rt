//! Arithmetic modulo the prime p of a curve.
//!
//! Results are right up to multiples of p, and may exceed it. The prime is given by its complement, w - p, where w is
//! 2^(64 * len) and `len` is the number of limbs. A carry of 1 counts w, the complement plus the prime. So a carry is removed
//! by adding as many complements, which subtracts a multiple of p.
//!
//! A product is divided by w (Montgomery multiplication), limb by limb. To divide by 2^64, a multiple of p is added that makes
//! the lowest limb 0, and the limbs move down by one place. To add t times p, t complements are subtracted and t is added to
//! the carry. This is fast, because most limbs of the complements are 0 or 1.

ghost use Rattle.std.specs.Prelude.{◌≡◌, ◌+◌, ◌*◌, ◌^◌, ◌<◌, ◌≤◌, ◌%◌, ◌↔◌, IsTrue};
ghost use Rattle.mls_curve.specs.Curves.{prime};
ghost use Rattle.mls_curve.specs.CurvesInternal.{limb_count};
ghost use Rattle.mls_curve.specs.Limbs.{limb_weight, value_below};
ghost use Rattle.mls_curve.specs.Residues.{IsQuotient, IsReducedQuotient, ReducesTo};

use crate::curve::Curve;
use crate::limbs::{LIMBS, add_product, are_equal, shift_down, subtract_product};

/// Removes the carry of a number: adds the complement `carry` times, until nothing is carried.
#[inline(always)]
fn fold(curve: Curve, limbs: &mut [u64; LIMBS], carry: u64)
    ensures reduces { ReducesTo (prime curve)
        (value_below limbs.old (limb_count curve) + carry * limb_weight (limb_count curve))
        (value_below limbs.new (limb_count curve)) }
    ensures fits { value_below limbs.new (limb_count curve) < limb_weight (limb_count curve) }
{
    let len = curve.limb_count();
    let complement = curve.complement();
    let mut top = carry;
    while top > 0 {
        top = add_product(limbs, &complement, top, len);
    }
}

/// Divides the number by 2^64, and returns the carry of the quotient.
///
/// Adds the multiple of the prime that makes the lowest limb 0. `carry` is the carry of the number before.
#[inline(always)]
fn divide(curve: Curve, limbs: &mut [u64; LIMBS], carry: u128) -> u64
    requires { carry < 2 ^ 65 }
    ensures quotient { IsQuotient (prime curve) (2 ^ 64)
        (value_below limbs.old (limb_count curve) + carry * limb_weight (limb_count curve))
        (value_below limbs.new (limb_count curve) + result * limb_weight (limb_count curve)) }
    ensures limit { result ≤ 2 }
{
    let len = curve.limb_count();
    let times = limbs[0].wrapping_mul(curve.inverse());
    let borrow = subtract_product(limbs, &curve.complement(), times, len);
    let top = carry + u128::from(times) - u128::from(borrow);
    shift_down(limbs, len, (top & 0xffff_ffff_ffff_ffff) as u64);
    (top >> 64) as u64
}

/// Returns `sum` plus the product of `a` and `b`, divided by 2^(64 * len), modulo the prime.
///
/// Goes through the limbs of `a` from the lowest up, and divides by 2^64 after each. The carry is removed at the end.
#[inline(always)]
pub(crate) fn product(
    curve: Curve,
    a: &[u64; LIMBS],
    b: &[u64; LIMBS],
    sum: &[u64; LIMBS],
) -> [u64; LIMBS]
    ensures quotient { IsReducedQuotient (prime curve) (limb_weight (limb_count curve))
        (value_below a.now (limb_count curve) * value_below b.now (limb_count curve)
        + value_below sum.now (limb_count curve))
        (value_below result (limb_count curve)) }
    ensures fits { value_below result (limb_count curve) < limb_weight (limb_count curve) }
{
    let len = curve.limb_count();
    let mut result = *sum;
    let mut top = 0;
    for i in 0..len {
        let carry = add_product(&mut result, b, a[i], len);
        top = divide(curve, &mut result, u128::from(top) + u128::from(carry));
    }
    fold(curve, &mut result, top);
    result
}

/// Returns the prime minus the number, which must not exceed the prime.
#[inline(always)]
pub(crate) fn negated(curve: Curve, limbs: &[u64; LIMBS]) -> [u64; LIMBS]
    requires { value_below limbs.now (limb_count curve) ≤ prime curve }
    ensures { value_below result (limb_count curve) + value_below limbs.now (limb_count curve) ≡ prime curve }
{
    let len = curve.limb_count();
    let mut result = [0; LIMBS];
    subtract_product(&mut result, &curve.complement(), 1, len);
    subtract_product(&mut result, limbs, 1, len);
    result
}

/// Returns whether the number is below the prime.
#[inline(always)]
pub(crate) fn is_below(curve: Curve, limbs: &[u64; LIMBS]) -> bool
    ensures { IsTrue result ↔ (value_below limbs.now (limb_count curve) < prime curve) }
{
    let mut sum = *limbs;
    add_product(&mut sum, &curve.complement(), 1, curve.limb_count()) == 0
}

/// Returns whether the number is a multiple of the prime.
///
/// The number must be below twice the prime. It is a multiple if and only if it is 0 or the prime. The sum of the prime and
/// the complement is 0 except for the carry.
#[inline(always)]
pub(crate) fn is_multiple(curve: Curve, limbs: &[u64; LIMBS]) -> bool
    requires { value_below limbs.now (limb_count curve) < 2 * prime curve }
    ensures { IsTrue result ↔ (value_below limbs.now (limb_count curve) % prime curve ≡ 0) }
{
    let len = curve.limb_count();
    let zero = [0; LIMBS];
    let mut sum = *limbs;
    add_product(&mut sum, &curve.complement(), 1, len);
    are_equal(&sum, &zero, len) || are_equal(limbs, &zero, len)
}
