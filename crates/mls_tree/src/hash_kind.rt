//! The hash functions of a tree's cache.
ghost use Rattle.std.specs.Prelude.{◌≡◌, ◌≤◌};
ghost use Rattle.mls_tree.specs.HashCacheInternal.{hash_len};

/// A hash function that a tree's cache stores hashes of: one of those of the cipher suites (RFC 9420, 17.1).
#[derive(Clone, Copy, Debug, PartialEq, Eq)]
pub enum HashKind {
    /// SHA-256.
    Sha256,
    /// SHA-384.
    Sha384,
    /// SHA-512.
    Sha512,
}

impl HashKind {
    /// Returns the length of a hash in bytes.
    pub(crate) fn hash_len(self) -> usize
        ensures length { result ≡ hash_len self }
        ensures limit { result ≤ 64 }
    {
        match self {
            HashKind::Sha256 => 32,
            HashKind::Sha384 => 48,
            HashKind::Sha512 => 64,
        }
    }
}
