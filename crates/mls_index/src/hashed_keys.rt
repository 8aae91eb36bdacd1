//! Copies of keys with their fingerprints, so that a key is hashed once: of the long keys of parents, and of those that are
//! added with a fingerprint.

ghost use Rattle.std.specs.Prelude.{◌≡◌, Some, IfOk, IfSome};
ghost use Rattle.mls_nodes.specs.Fingerprints.{fingerprint};
ghost use Rattle.mls_index.specs.NodeKeys.{fingerprint_at};

use crate::node_key::{KeyKind, fingerprint_at, key_at_node, node_index_count};
use mls_nodes::fingerprint;
use mls_tree::PublicTree;
use std::alloc::{AllocError, Global};
use std::collections::BTreeMap;
use std::marker::Model;

/// The most bytes of a key that is not long. The keys of the cipher suites of RFC 9420 are far shorter (17.1).
const MAX_SHORT_KEY: usize = 2048;

/// A key and its fingerprint. The model is the key.
#[derive(Drop)]
struct HashedKey {
    /// The key.
    key: Vec<u8>,
    /// Its fingerprint.
    number: u64,
}

impl Model for HashedKey {
    ghost use Rattle.std.specs.Prelude.{◌≡◌, ℕ, List};
    ghost use Rattle.mls_nodes.specs.Fingerprints.{fingerprint};

    ghost Value = { List ℕ };

    ghost view = { λ h. h.key.items };

    ghost invariant = { λ h. h.number ≡ fingerprint h.key.items };
}

impl HashedKey {
    /// Returns a copy of a key, with its fingerprint.
    fn of(alloc: Global, key: &[u8]) -> Result<HashedKey, AllocError>
        ensures { IfOk result (λ h. h ≡ key.now) }
    {
        let copy = Vec::from_slice(alloc, key)?;
        Ok(HashedKey {
            key: copy,
            number: fingerprint(key),
        })
    }

    /// Returns the fingerprint of a key, if it is this one. Nothing is hashed.
    fn fingerprint_of(&self, key: &[u8]) -> Option<u64>
        ensures { IfSome result (λ number. number ≡ fingerprint key.now) }
    {
        if self.key.as_slice() == key {
            Some(self.number)
        } else {
            None
        }
    }
}

/// Returns the fingerprint of a key, if it is the one that is stored.
fn fingerprint_in(stored: &Option<HashedKey>, key: &[u8]) -> Option<u64>
    ensures { IfSome result (λ number. number ≡ fingerprint key.now) }
{
    match stored {
        Some(hashed) => hashed.fingerprint_of(key),
        None => None,
    }
}

/// The keys that are stored for a node index.
#[derive(Drop)]
struct StoredKeys {
    /// The key of the base tree, if it is long.
    base: Option<HashedKey>,
    /// The key that was staged, if it is another one.
    staged: Option<HashedKey>,
}

impl StoredKeys {
    /// Returns the fingerprint of a key, if it is one of these.
    fn fingerprint_of(&self, key: &[u8]) -> Option<u64>
        ensures { IfSome result (λ number. number ≡ fingerprint key.now) }
    {
        match fingerprint_in(&self.base, key) {
            Some(number) => Some(number),
            None => fingerprint_in(&self.staged, key),
        }
    }
}

/// Returns whether a key is stored, which is this one.
fn is_key(stored: &Option<HashedKey>, key: Option<&[u8]>) -> bool {
    match (stored, key) {
        (Some(hashed), Some(key)) => hashed.key.as_slice() == key,
        _ => false,
    }
}

/// Returns the key of a parent at a node index, if it is long.
fn long_key_at(tree: &PublicTree, kind: KeyKind, node_index: u32) -> Option<&[u8]> {
    if node_index % 2 == 0 {
        return None;
    }
    match key_at_node(tree, kind, node_index) {
        Some(key) if key.len() > MAX_SHORT_KEY => Some(key),
        _ => None,
    }
}

/// Returns the key at a node index, unless it is a long key of a leaf. A leaf node with such a key stores its fingerprint.
fn copied_key_at(tree: &PublicTree, kind: KeyKind, node_index: u32) -> Option<&[u8]> {
    match key_at_node(tree, kind, node_index) {
        Some(key) if key.len() <= MAX_SHORT_KEY => Some(key),
        _ => long_key_at(tree, kind, node_index),
    }
}

/// By node index, the long keys of the parents of a tree, and keys that were staged for a changed tree: long keys of parents,
/// and those that were hashed. A key is found by comparing it with its copy, which is far faster than to hash it. Contracts
/// say only that fingerprints are right: which keys are stored decides how often one is hashed.
#[derive(Drop)]
pub(crate) struct HashedKeys {
    /// The memory of the copies.
    alloc: Global,
    /// The keys.
    keys: BTreeMap<u32, StoredKeys>,
    /// The node indices for which a key was staged.
    staged: Vec<u32>,
}

impl HashedKeys {
    /// Returns the long keys of a tree's parents. Each is hashed once.
    pub(crate) fn of(
        alloc: Global,
        tree: &PublicTree,
        kind: KeyKind,
    ) -> Result<HashedKeys, AllocError> {
        let mut keys = BTreeMap::new(alloc);
        for node_index in 0..node_index_count(tree) {
            if let Some(key) = long_key_at(tree, kind, node_index) {
                let stored = StoredKeys {
                    base: Some(HashedKey::of(alloc, key)?),
                    staged: None,
                };
                keys.insert(node_index, stored)?;
            }
        }
        Ok(HashedKeys {
            alloc,
            keys,
            staged: Vec::new(alloc),
        })
    }

    /// Returns the fingerprint of the key at a node index of a tree, if this key is stored.
    fn stored_at(&self, tree: &PublicTree, kind: KeyKind, node_index: u32) -> Option<u64>
        ensures { IfSome result (λ number. fingerprint_at kind tree.now.tree node_index ≡ Some number) }
    {
        let Some(stored) = self.keys.get(&node_index) else {
            return None;
        };
        let Some(key) = key_at_node(tree, kind, node_index) else {
            return None;
        };
        stored.fingerprint_of(key)
    }

    /// Returns the fingerprint of the key at a node index of a tree. No key that is stored is hashed.
    pub(crate) fn fingerprint_at(
        &self,
        tree: &PublicTree,
        kind: KeyKind,
        node_index: u32,
    ) -> Option<u64>
        ensures { result ≡ fingerprint_at kind tree.now.tree node_index }
    {
        match self.stored_at(tree, kind, node_index) {
            Some(number) => Some(number),
            None => fingerprint_at(tree, kind, node_index),
        }
    }

    /// Stores a key that was staged for a node index.
    fn store(&mut self, node_index: u32, hashed: HashedKey) -> Result<(), AllocError> {
        self.staged.try_reserve(1)?;
        if let Some(stored) = self.keys.get_mut(&node_index) {
            stored.staged = Some(hashed);
        } else {
            let stored = StoredKeys {
                base: None,
                staged: Some(hashed),
            };
            self.keys.insert(node_index, stored)?;
        }
        self.staged.push_reserved(node_index);
        Ok(())
    }

    /// Returns the fingerprint of the key at a node index of a tree. The key is stored, unless it is a long key of a leaf.
    pub(crate) fn stage(
        &mut self,
        tree: &PublicTree,
        kind: KeyKind,
        node_index: u32,
    ) -> Result<Option<u64>, AllocError>
        ensures { IfOk result (λ number. number ≡ fingerprint_at kind tree.now.tree node_index) }
    {
        let Some(key) = copied_key_at(tree, kind, node_index) else {
            return Ok(fingerprint_at(tree, kind, node_index));
        };
        if let Some(number) = self.stored_at(tree, kind, node_index) {
            return Ok(Some(number));
        }
        let hashed = HashedKey::of(self.alloc, key)?;
        self.store(node_index, hashed)?;
        Ok(self.fingerprint_at(tree, kind, node_index))
    }

    /// Stores the key of a parent at a node index of a tree, if it is long.
    pub(crate) fn stage_long(
        &mut self,
        tree: &PublicTree,
        kind: KeyKind,
        node_index: u32,
    ) -> Result<(), AllocError> {
        if long_key_at(tree, kind, node_index).is_some() {
            self.stage(tree, kind, node_index)?;
        }
        Ok(())
    }

    /// Makes the long key of a parent at a node index of a tree that of the base tree. Drops all others of the node index.
    /// Does not allocate.
    pub(crate) fn accept(&mut self, tree: &PublicTree, kind: KeyKind, node_index: u32) {
        let Some(stored) = self.keys.get_mut(&node_index) else {
            return;
        };
        let key = long_key_at(tree, kind, node_index);
        let staged = stored.staged.take();
        if !is_key(&stored.base, key) {
            stored.base = staged;
        }
        if !is_key(&stored.base, key) {
            self.keys.remove(&node_index);
        }
    }

    /// Drops the key that was staged for a node index. Does not allocate.
    fn revert_at(&mut self, node_index: u32)
        ensures { self.new.staged ≡ self.old.staged }
    {
        let Some(stored) = self.keys.get_mut(&node_index) else {
            return;
        };
        stored.staged = None;
        if stored.base.is_none() {
            self.keys.remove(&node_index);
        }
    }

    /// Drops the keys that were staged. Does not allocate.
    pub(crate) fn revert(&mut self) {
        while let Some(node_index) = self.staged.pop() {
            self.revert_at(node_index);
        }
    }
}
