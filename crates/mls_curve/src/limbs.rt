//! Numbers of up to nine limbs of 64 bits, the lowest first. Of each array the first `len` limbs count.

ghost use Rattle.std.specs.Prelude.{◌≡◌, ℕ, ◌+◌, ◌*◌, ◌^◌, ◌<◌, ◌≤◌, ◌↔◌, IsTrue, drop, length};
ghost use Rattle.mls_curve.specs.Curves.{big_endian};
ghost use Rattle.mls_curve.specs.Limbs.{limb_weight, value_below};

/// The length of the arrays: the number of limbs of the longest numbers, those of P-521.
pub(crate) const LIMBS: usize = 9;

/// Replaces the number by `by` times the number plus `add`, and returns the carry.
#[inline(always)]
pub(crate) fn multiply(limbs: &mut [u64; LIMBS], len: usize, by: u64, add: u64) -> u64
    requires { len ≤ 9 }
    ensures { value_below limbs.new len + result * limb_weight len
        ≡ value_below limbs.old len * by + add }
{
    let mut carry = add;
    for i in 0..len {
        let wide = limbs[i] as u128 * by as u128 + carry as u128;
        limbs[i] = (wide & 0xffff_ffff_ffff_ffff) as u64;
        carry = (wide >> 64) as u64;
    }
    carry
}

/// Adds `by` times `limbs` to `sum`, and returns the carry.
#[inline(always)]
pub(crate) fn add_product(sum: &mut [u64; LIMBS], limbs: &[u64; LIMBS], by: u64, len: usize) -> u64
    requires { len ≤ 9 }
    ensures value { value_below sum.new len + result * limb_weight len
        ≡ value_below sum.old len + value_below limbs.now len * by }
    ensures limit { value_below sum.new len < limb_weight len }
{
    let mut carry = 0;
    for i in 0..len {
        let wide = limbs[i] as u128 * by as u128 + sum[i] as u128 + carry as u128;
        sum[i] = (wide & 0xffff_ffff_ffff_ffff) as u64;
        carry = (wide >> 64) as u64;
    }
    carry
}

/// Subtracts `by` times `limbs` from `sum`, and returns the borrow.
#[inline(always)]
pub(crate) fn subtract_product(
    sum: &mut [u64; LIMBS],
    limbs: &[u64; LIMBS],
    by: u64,
    len: usize,
) -> u64
    requires { len ≤ 9 }
    ensures value { value_below sum.new len + value_below limbs.now len * by
        ≡ value_below sum.old len + result * limb_weight len }
    ensures fits { value_below sum.new len < limb_weight len }
    ensures limit { result ≤ by }
{
    let mut borrow = 0;
    for i in 0..len {
        let wide = limbs[i] as u128 * by as u128 + borrow as u128;
        let (rest, is_less) = sum[i].overflowing_sub((wide & 0xffff_ffff_ffff_ffff) as u64);
        sum[i] = rest;
        borrow = (wide >> 64) as u64 + u64::from(is_less);
    }
    borrow
}

/// Moves each limb up by one place, puts `lowest` into the lowest place, and returns the carry: the limb that was the highest.
#[inline(always)]
pub(crate) fn shift_up(limbs: &mut [u64; LIMBS], len: usize, lowest: u64) -> u64
    requires { len ≤ 9 }
    ensures { value_below limbs.new len + result * limb_weight len
        ≡ value_below limbs.old len * 2 ^ 64 + lowest }
{
    let mut carry = lowest;
    for i in 0..len {
        let limb = limbs[i];
        limbs[i] = carry;
        carry = limb;
    }
    carry
}

/// Moves each limb down by one place, puts `highest` into the highest place, and returns the limb that was the lowest.
#[inline(always)]
pub(crate) fn shift_down(limbs: &mut [u64; LIMBS], len: usize, highest: u64) -> u64
    requires { len ≤ 9 }
    ensures { value_below limbs.new len * 2 ^ 64 + result
        ≡ value_below limbs.old len + highest * limb_weight len }
{
    let mut carry = highest;
    let mut place = len;
    while place > 0 {
        place -= 1;
        let limb = limbs[place];
        limbs[place] = carry;
        carry = limb;
    }
    carry
}

/// Returns the limb that eight bytes from `i` on encode, the highest byte first.
#[inline(always)]
fn limb_from_bytes(bytes: &[u8], i: usize) -> u64
    requires { i + 8 ≤ length bytes.now }
    ensures { (n : ℕ) → big_endian n (drop i bytes.now) ≡ big_endian (n * 2 ^ 64 + result) (drop (i + 8) bytes.now) }
{
    u64::from_be_bytes([
        bytes[i],
        bytes[i + 1],
        bytes[i + 2],
        bytes[i + 3],
        bytes[i + 4],
        bytes[i + 5],
        bytes[i + 6],
        bytes[i + 7],
    ])
}

/// Returns the number that the bytes encode, the highest byte first. It must fit: `bytes` has at most 8 * `len` bytes.
///
/// All but the first few bytes are read eight at a time, a limb each.
#[inline(always)]
pub(crate) fn from_bytes(bytes: &[u8], len: usize) -> [u64; LIMBS]
    requires limbs { len ≤ 9 }
    requires bytes { length bytes.now ≤ 8 * len }
    ensures { value_below result len ≡ big_endian 0 bytes.now }
{
    let mut limbs = [0; LIMBS];
    let mut i = 0;
    while i < bytes.len() % 8 {
        multiply(&mut limbs, len, 256, u64::from(bytes[i]));
        i += 1;
    }
    while i < bytes.len() {
        shift_up(&mut limbs, len, limb_from_bytes(bytes, i));
        i += 8;
    }
    limbs
}

/// Returns whether `a` and `b` are equal.
#[inline(always)]
pub(crate) fn are_equal(a: &[u64; LIMBS], b: &[u64; LIMBS], len: usize) -> bool
    requires { len ≤ 9 }
    ensures { IsTrue result ↔ (value_below a.now len ≡ value_below b.now len) }
{
    let mut i = len;
    while i > 0 {
        i -= 1;
        if a[i] != b[i] {
            return false;
        }
    }
    true
}
