//! Cipher suites.

ghost use Rattle.std.specs.Prelude.{◌≡◌, ◌≤◌, ℕ, Ok, Err};
ghost use Rattle.mls_tree.specs.HashCache.{hash_by};
ghost use Rattle.mls_hash.specs.SuiteHash.{hash_length, hash_of, kind_of};
ghost use Rattle.mls_hash.specs.Suites.{IsSupported, hpke_key_length, signature_key_length};

use crate::fault::HashFault;
use mls_tree::HashKind;
use std::marker::Model;

/// A cipher suite whose hash function is known, by its number in the registry (RFC 9420, 17.1): 1, 2 or 3, which hash
/// with SHA-256; 4, 5 or 6, which hash with SHA-512; or 7, which hashes with SHA-384.
///
/// The model is its number.
#[derive(Clone, Copy, Debug, PartialEq, Eq)]
pub struct Suite {
    number: u16,
}

impl Model for Suite {
    ghost use Rattle.std.specs.Prelude.{ℕ};
    ghost use Rattle.mls_hash.specs.Suites.{IsSupported};

    ghost Value = { ℕ };

    ghost view = { λ s. s.number };

    ghost invariant = { λ s. IsSupported s.number };

    ghost inverse = { λ number. record { number = number } };
}

impl Suite {
    /// Returns the suite with this number, from 1 to 7.
    ///
    /// # Errors
    ///
    /// [`HashFault::UnsupportedSuite`] for any other number.
    pub fn from_u16(number: u16) -> Result<Suite, HashFault>
        ensures supported { IsSupported number → result ≡ Ok number }
        ensures unsupported { ¬ IsSupported number → result ≡ Err HashFault.UnsupportedSuite }
    {
        match number {
            1..=7 => Ok(Suite { number }),
            _ => Err(HashFault::UnsupportedSuite),
        }
    }

    /// Returns the suite's number.
    pub fn number(self) -> u16
        ensures number { result ≡ self }
        ensures supported { IsSupported self }
    {
        self.number
    }

    /// Returns the suite's hash function, as the hash cache of a tree names it.
    #[tactic(auto, unfolding(mls_tree::specs::HashCache::hash_by, crate::specs::SuiteHash::hash_of, crate::specs::SuiteHash::kind_of))]
    pub fn kind(self) -> HashKind
        ensures kind { result ≡ kind_of self }
        ensures function { hash_by result ≡ hash_of self }
    {
        match self.number() {
            1..=3 => HashKind::Sha256,
            4..=6 => HashKind::Sha512,
            _ => HashKind::Sha384,
        }
    }

    /// Returns the length in bytes of a hash of the suite: 32, 64 or 48. It is also `KDF.Nh`, the length of a `psk_nonce`
    /// (RFC 9420, 8.4 and 17.1).
    #[tactic(auto, unfolding(crate::specs::SuiteHash::hash_length))]
    pub fn hash_length(self) -> u8
        ensures length { result ≡ hash_length self }
        ensures limit { result ≤ 64 }
    {
        match self.number() {
            1..=3 => 32,
            4..=6 => 64,
            _ => 48,
        }
    }

    /// Returns the length in bytes of a public key of the suite's KEM, which is also that of its `kem_output`: 32 for
    /// X25519, 56 for X448, 65, 97 or 133 for an uncompressed point of P-256, P-384 or P-521 (RFC 9180, 7.1).
    pub fn hpke_key_length(self) -> usize
        ensures { result ≡ hpke_key_length self }
    {
        match self.number() {
            1 | 3 => 32,
            2 => 65,
            5 => 133,
            7 => 97,
            _ => 56,
        }
    }

    /// Returns the length in bytes of a public signature key of the suite: 32 for Ed25519, 57 for Ed448 (RFC 8032, 5.1.5
    /// and 5.2.5), 65, 97 or 133 for an uncompressed point of P-256, P-384 or P-521 (RFC 9420, 5.1.1).
    pub fn signature_key_length(self) -> usize
        ensures { result ≡ signature_key_length self }
    {
        match self.number() {
            1 | 3 => 32,
            2 => 65,
            5 => 133,
            7 => 97,
            _ => 57,
        }
    }

    /// Returns [`Suite::hash_length`] as a length of lists.
    pub(crate) fn hash_len(self) -> usize
        ensures length { result ≡ hash_length self }
        ensures limit { result ≤ 64 }
    {
        usize::from(self.hash_length())
    }
}
