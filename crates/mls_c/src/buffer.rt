//! Values in buffers of the caller's.

ghost use Rattle.std.specs.Prelude.{◌≡◌};
ghost use Rattle.mls_c.specs.Buffers.{both_fit, put, put_if, put_number, number_if, IsPut};

use crate::input_verdict::BUFFER_TOO_SMALL;

/// Puts a value at the front of a buffer, if it fits. Returns 0, or the number that says that it does not.
pub(crate) fn put(value: &[u8], buffer: &mut [u8]) -> u32
    ensures buffer { buffer.new ≡ put value.now buffer.old }
    ensures number { result ≡ put_number value.now buffer.old }
{
    if value.len() > buffer.len() {
        return BUFFER_TOO_SMALL;
    }
    buffer[..value.len()].copy_from_slice(value);
    0
}

/// Puts a value at the front of a buffer, if it fits, and returns how long it is.
pub(crate) fn put_sized(value: &[u8], buffer: &mut [u8], needed: &mut usize) -> u32
    ensures { IsPut value.now buffer.old buffer.new needed.new result }
{
    *needed = value.len();
    put(value, buffer)
}

/// Puts two values at the fronts of two buffers, if both fit. Returns 0, or the number that says that one does not.
pub(crate) fn put_both(first: &[u8], buffer: &mut [u8], second: &[u8], other: &mut [u8]) -> u32
    ensures first { buffer.new
        ≡ put_if (both_fit first.now buffer.old second.now other.old) first.now buffer.old }
    ensures second { other.new
        ≡ put_if (both_fit first.now buffer.old second.now other.old) second.now other.old }
    ensures number { result ≡ number_if (both_fit first.now buffer.old second.now other.old) }
{
    if first.len() > buffer.len() || second.len() > other.len() {
        return BUFFER_TOO_SMALL;
    }
    buffer[..first.len()].copy_from_slice(first);
    other[..second.len()].copy_from_slice(second);
    0
}
