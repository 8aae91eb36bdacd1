//! Own hashes of the parents of a tree (RFC 9420, 7.9), as far as they are known.

ghost use Rattle.std.specs.Prelude.{◌≡◌, ◌≢◌, ◌≤◌, ◌<◌, ◌^◌, ◌⊎◌, ℕ, List, IfOk, IfSome, Some, slice_get, slice_set};

use mls_tree::{HashList, HashValue};
use std::alloc::{AllocError, Global};
use std::marker::Model;

/// Hashes of one length, some of which are known.
///
/// The model is the list of those that are known, each at its index.
///
/// `hashes` is empty until the first hash is stored, since most trees store none.
#[derive(Drop)]
pub(crate) struct OwnHashes {
    alloc: Global,
    known: Vec<bool>,
    hashes: HashList,
}

impl Model for OwnHashes {
    ghost use Rattle.std.specs.Prelude.{ℕ, List, Option};
    ghost use Rattle.mls_hash.specs.OwnHashesInternal.{AreStored, marked_hashes};

    ghost Value = { List (Option (List ℕ)) };

    ghost view = { λ o. marked_hashes o.known.items o.hashes.hashes };

    ghost invariant = { λ o. AreStored o.known.items o.hashes.hashes };
}

impl OwnHashes {
    /// Returns a list of `count` hashes of this length, none of which is known.
    pub(crate) fn blank(alloc: Global, count: usize, width: usize) -> Result<OwnHashes, AllocError>
        requires count { count < 2 ^ 32 }
        requires width { width ≤ 64 }
        ensures { IfOk result
            (λ o. (k : ℕ) (hash : List ℕ) → slice_get o k ≢ Some (Some hash)) }
    {
        Ok(OwnHashes {
            alloc,
            known: vec![in alloc; false; count]?,
            hashes: HashList::blank(alloc, 0, width)?,
        })
    }

    /// Returns the hash at an index, if it is known.
    pub(crate) fn get(&self, index: u32) -> Option<HashValue>
        ensures { IfSome result (λ h. slice_get self.now index ≡ Some (Some h)) }
    {
        match self.known.get(index as usize) {
            Some(true) => self.hashes.get(index),
            Some(false) | None => None,
        }
    }

    /// Stores a hash, if there is such an index and the hash has the length of the others. Otherwise nothing changes,
    /// which only takes more time. The first hash that is stored allocates memory for all. If that fails, nothing
    /// changes either.
    pub(crate) fn store(&mut self, index: u32, hash: &HashValue)
        ensures { (self.new ≡ self.old) ⊎ (self.new ≡ slice_set self.old index (Some hash.now)) }
    {
        let count = self.known.len();
        let width = self.hashes.width();
        if index as usize >= count || hash.as_slice().len() != width {
            return;
        }
        if self.hashes.get(index).is_none() {
            let Ok(hashes) = HashList::blank(self.alloc, count, width) else {
                return;
            };
            self.hashes = hashes;
        }
        self.hashes.put(index, hash);
        self.known[index as usize] = true;
    }
}
