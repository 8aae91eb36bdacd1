//! Points in uncompressed form (SEC 1, 2.3.3).

ghost use Rattle.std.specs.Prelude.{◌≡◌};
ghost use Rattle.mls_curve.specs.Curves.{is_on_curve};

use crate::curve::Curve;
use crate::equation::is_point;
use crate::limbs::from_bytes;

/// Returns whether the bytes are a point of the curve in uncompressed form.
///
/// This is inlined for each curve, as is all that it calls, so that the lengths and the curve's numbers are constants. The
/// loops over limbs are then unrolled and test no index.
#[inline(always)]
fn is_point_of(curve: Curve, point: &[u8]) -> bool
    ensures { result ≡ is_on_curve curve point.now }
{
    let coordinate_len = curve.coordinate_len();
    if point.len() != 1 + 2 * coordinate_len || point[0] != 4 {
        return false;
    }
    let len = curve.limb_count();
    let x = from_bytes(&point[1..1 + coordinate_len], len);
    let y = from_bytes(&point[1 + coordinate_len..], len);
    is_point(curve, &x, &y)
}

/// Returns whether the bytes are a point of the curve in uncompressed form (SEC 1, 2.3.3).
///
/// That form is the byte 4, then the coordinates x and y. Each has `coordinate_len` bytes, the highest byte first. Both are
/// below the curve's prime, and they satisfy its equation (SEC 1, 2.2.1). Bytes of another length are no such point, nor are
/// compressed and hybrid forms or the point at infinity.
///
/// Allocates nothing. It is not constant in time, so pass public keys only.
pub fn is_on_curve(curve: Curve, point: &[u8]) -> bool
    ensures { result ≡ is_on_curve curve point.now }
{
    match curve {
        Curve::P256 => is_point_of(Curve::P256, point),
        Curve::P384 => is_point_of(Curve::P384, point),
        Curve::P521 => is_point_of(Curve::P521, point),
    }
}
