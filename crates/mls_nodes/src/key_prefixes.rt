//! The 8-byte prefixes of keys, as numbers.

ghost use Rattle.std.specs.Prelude.{◌≡◌};
ghost use Rattle.mls_nodes.specs.KeyPrefix.{key_prefix};

/// Returns the 8-byte prefix of a key as a number, the first byte the highest. A shorter key is followed by zeros. Keys
/// with equal prefixes have to be compared themselves.
pub fn key_prefix(key: &[u8]) -> u64
    ensures { result ≡ key_prefix key.now }
{
    if let Some(front) = key.first_chunk::<8>() {
        return u64::from_be_bytes(*front);
    }
    let mut padded = [0; 8];
    padded[..key.len()].copy_from_slice(key);
    u64::from_be_bytes(padded)
}
