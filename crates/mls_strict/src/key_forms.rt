//! The forms of keys (RFC 9420, 5.1.1).

ghost use Rattle.std.specs.Prelude.{◌≡◌, ◌%◌, ◌^◌, ◌==◌, nat_lt, length};
ghost use Rattle.std.specs.List.{list_any};
ghost use Rattle.mls_curve.specs.Curves.{begins_with};
ghost use Rattle.mls_strict.specs.KeyForms.{curve_of, is_canonical, is_hpke_key, is_signature_key, is_suite_point, le_number, low_order_25519, low_order_448, prime_25519, prime_448};

use crate::coordinates::{
    LOW_ORDER_448, LOW_ORDER_25519, LOW_ORDER_FIRST_448, LOW_ORDER_FIRST_25519, PRIME_448,
    PRIME_25519, UNSIGNED_448, UNSIGNED_25519,
};
use mls_curve::{Curve, is_on_curve};
use mls_hash::Suite;

/// Returns whether an X25519 key is of low order. Its top bit is ignored (RFC 7748, 5).
fn has_low_order_25519(key: &[u8]) -> bool
    requires { length key.now ≡ 32 }
    ensures { result ≡ list_any (λ u. u == le_number key.now % 2 ^ 255) low_order_25519 }
{
    if !LOW_ORDER_FIRST_25519.contains(&key[0]) {
        return false;
    }
    let mut u = [0; 32];
    u.copy_from_slice(key);
    u[31] %= 128;
    LOW_ORDER_25519.contains(&u)
}

/// Returns whether an X448 key is of low order.
fn has_low_order_448(key: &[u8]) -> bool
    requires { length key.now ≡ 56 }
    ensures { result ≡ list_any (λ u. u == le_number key.now) low_order_448 }
{
    if !LOW_ORDER_FIRST_448.contains(&key[0]) {
        return false;
    }
    let mut u = [0; 56];
    u.copy_from_slice(key);
    LOW_ORDER_448.contains(&u)
}

/// Returns whether the first of two numbers is below the second. Each is passed as its bytes, the least byte first.
fn is_below(bytes: &[u8], limit: &[u8]) -> bool
    requires { length bytes.now ≡ length limit.now }
    ensures { result ≡ nat_lt (le_number bytes.now) (le_number limit.now) }
{
    let mut is_below = false;
    for (i, byte) in bytes.iter().enumerate() {
        if *byte != limit[i] {
            is_below = *byte < limit[i];
        }
    }
    is_below
}

/// Returns whether 32 bytes are the canonical encoding of a coordinate y and a sign, as an Ed25519 key is (RFC 8032, 5.1.3).
fn is_canonical_25519(key: &[u8]) -> bool
    requires { length key.now ≡ 32 }
    ensures { result ≡ is_canonical 255 prime_25519 (le_number key.now) }
{
    let mut y = [0; 32];
    y.copy_from_slice(key);
    let has_sign = y[31] >= 128;
    y[31] %= 128;
    is_below(&y, &PRIME_25519) && !(has_sign && UNSIGNED_25519.contains(&y))
}

/// Returns whether 57 bytes are the canonical encoding of a coordinate y and a sign, as an Ed448 key is (RFC 8032, 5.2.3).
fn is_canonical_448(key: &[u8]) -> bool
    requires { length key.now ≡ 57 }
    ensures { result ≡ is_canonical 455 prime_448 (le_number key.now) }
{
    let mut y = [0; 57];
    y.copy_from_slice(key);
    let has_sign = y[56] >= 128;
    y[56] %= 128;
    is_below(&y, &PRIME_448) && !(has_sign && UNSIGNED_448.contains(&y))
}

/// Returns whether the first byte is that of an uncompressed point, 4 (RFC 8446, 4.2.8.2).
fn is_uncompressed(key: &[u8]) -> bool
    ensures { result ≡ begins_with 4 key.now }
{
    match key.first() {
        Some(form) => *form == 4,
        None => false,
    }
}

/// Returns whether the bytes have the form of a public key of the suite's KEM, which is also that of its `kem_output` (RFC
/// 9420, 5.1.1; RFC 9180, 7.1): for P-256, P-384 and P-521 an uncompressed point, by its length and its first byte; for X25519
/// and X448 a coordinate that is not of low order (RFC 7748, 6). That a point is on its curve is for [`is_suite_point`].
#[tactic(auto, unfolding(crate::specs::KeyForms::is_hpke_key))]
pub fn is_hpke_key(suite: Suite, key: &[u8]) -> bool
    ensures { result ≡ is_hpke_key suite key.now }
{
    if key.len() != suite.hpke_key_length() {
        return false;
    }
    match suite.number() {
        1 | 3 => !has_low_order_25519(key),
        4 | 6 => !has_low_order_448(key),
        _ => is_uncompressed(key),
    }
}

/// Returns whether the bytes have the form of a public signature key of the suite (RFC 9420, 5.1.1): for ECDSA an
/// uncompressed point, by its length and its first byte; for Ed25519 and Ed448 a canonical encoding (RFC 8032, 5.1.3 and
/// 5.2.3). That there is such a point is not checked; [`is_suite_point`] is for keys of the suite's KEM.
#[tactic(auto, unfolding(crate::specs::KeyForms::is_signature_key))]
pub fn is_signature_key(suite: Suite, key: &[u8]) -> bool
    ensures { result ≡ is_signature_key suite key.now }
{
    if key.len() != suite.signature_key_length() {
        return false;
    }
    match suite.number() {
        1 | 3 => is_canonical_25519(key),
        4 | 6 => is_canonical_448(key),
        _ => is_uncompressed(key),
    }
}

/// Returns the curve of the suite's KEM, if it is one of P-256, P-384 and P-521 (RFC 9420, 17.1).
#[tactic(auto, unfolding(crate::specs::KeyForms::curve_of))]
fn curve_of(suite: Suite) -> Option<Curve>
    ensures { result ≡ curve_of suite }
{
    match suite.number() {
        2 => Some(Curve::P256),
        5 => Some(Curve::P521),
        7 => Some(Curve::P384),
        _ => None,
    }
}

/// Returns whether the bytes are a point of the curve of the suite's KEM, as its public keys and each `kem_output` are (RFC
/// 9420, 5.1.1; RFC 9180, 7.1.4): for P-256, P-384 and P-521 an uncompressed point, whose coordinates are below the prime
/// and satisfy the curve's equation. For X25519 and X448, where each coordinate is that of a point, it returns true for any
/// bytes; [`is_hpke_key`] checks their length and refuses the points of low order. Allocates nothing.
#[tactic(auto, unfolding(crate::specs::KeyForms::is_suite_point))]
pub fn is_suite_point(suite: Suite, key: &[u8]) -> bool
    ensures { result ≡ is_suite_point suite key.now }
{
    match curve_of(suite) {
        Some(curve) => is_on_curve(curve, key),
        None => true,
    }
}
