//! Hashers of the hash functions of cipher suites.

ghost use Rattle.std.specs.Prelude.{◌≡◌, ℕ, List, []};
ghost use Rattle.mls_hash.specs.SuiteHash.{hash_of};
ghost use Rattle.mls_hash.specs.HasherModel.{HoldsMessage, IsFed};

use crate::suite::Suite;
use mls_tree::HashValue;
use sha2::{Digest, Sha256, Sha384, Sha512};

/// A hasher of one of the three hash functions (RFC 9420, 17.1).
#[derive(Drop)]
pub(crate) enum Hasher {
    /// Of suites 1, 2 and 3.
    Sha256(Sha256),
    /// Of suite 7.
    Sha384(Sha384),
    /// Of suites 4, 5 and 6.
    Sha512(Sha512),
}

impl Hasher {
    /// Returns a hasher of the suite's hash function, to which nothing was fed.
    #[tactic(auto, unfolding(crate::specs::SuiteHash::hash_of))]
    pub(crate) fn new(suite: Suite) -> Hasher
        ensures { HoldsMessage (hash_of suite) result [] }
    {
        match suite.number() {
            1..=3 => Hasher::Sha256(Sha256::new()),
            4..=6 => Hasher::Sha512(Sha512::new()),
            _ => Hasher::Sha384(Sha384::new()),
        }
    }

    /// Feeds bytes.
    pub(crate) fn update(&mut self, bytes: &[u8])
        ensures { IsFed bytes.now self.old self.new }
    {
        match self {
            Hasher::Sha256(hasher) => hasher.update(bytes),
            Hasher::Sha384(hasher) => hasher.update(bytes),
            Hasher::Sha512(hasher) => hasher.update(bytes),
        }
    }

    /// Returns the hash of what was fed.
    pub(crate) fn finish(self) -> HashValue
        ensures { (H : List ℕ → List ℕ) (m : List ℕ) → HoldsMessage H self m → result ≡ H m }
    {
        match self {
            Hasher::Sha256(hasher) => HashValue::new(&hasher.finalize()).unwrap(),
            Hasher::Sha384(hasher) => HashValue::new(&hasher.finalize()).unwrap(),
            Hasher::Sha512(hasher) => HashValue::new(&hasher.finalize()).unwrap(),
        }
    }
}
