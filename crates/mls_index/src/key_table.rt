//! Node indices of the keys of one kind, by the prefix or the fingerprint of each key.

ghost use Rattle.std.specs.Prelude.{◌≡◌, ◌↔◌, ◌∷◌, [], ℕ, List, Some, IsTrue, IfOk, IfSome, OnOk, true};
ghost use Rattle.mls_nodes.specs.Fingerprints.{fingerprint};
ghost use Rattle.mls_tree.specs.Tree.{Tree};
ghost use Rattle.mls_tree.specs.ChangedNodes.{AgreeExceptAt};
ghost use Rattle.mls_index.specs.FirstIndex.{FindsFirst};
ghost use Rattle.mls_index.specs.NodeKeys.{are_numbers_for, key_at_node, prefix_at, HasKey, IsUniqueKey};
ghost use Rattle.mls_index.specs.RepeatedKeysInternal.{FindsOther, HasKeyBut};
ghost use Rattle.mls_index.specs.EntryTable.{has_entry, HaveDistinctNumbers};
ghost use Rattle.mls_index.specs.EntryTableInternal.{HasEntered};
ghost use Rattle.mls_index.specs.KeyTable.{AddsNumbers, HasBaseOf, IsTableOfTree, TableContainsKeys};
ghost use Rattle.mls_index.specs.KeyTableInternal.{ContainsKeysBut, IsSettling};

use crate::changed_leaves::smaller;
use crate::entry_table::EntryTable;
use crate::hashed_keys::HashedKeys;
use crate::node_key::{KeyKind, KeyNumber, key_at_node, prefix_at};
use mls_nodes::{fingerprint, key_prefix};
use mls_tree::PublicTree;
use std::alloc::{AllocError, Global};

/// An entry for each key of one kind: its number and its node index. A table has a base tree. Then entries may be added
/// for a changed tree, which are accepted or refused.
///
/// The number of a key is its prefix or its fingerprint. No two entries have the same prefix as their number: a key that is
/// added has its prefix as its number, unless an entry of another node index has it. So a look-up compares few keys, whoever
/// chooses them, and hashes none if no entry has a fingerprint.
#[derive(Drop)]
pub(crate) struct KeyTable {
    /// The entries of prefixes.
    prefixes: EntryTable,
    /// The entries of fingerprints.
    fingerprints: EntryTable,
    /// Keys that were hashed, and long keys of parents.
    hashed_keys: HashedKeys,
}

/// The number that the entry of a key has: its prefix or its fingerprint. Neither if there is no key.
#[derive(Clone, Copy)]
struct KeyNumbers {
    /// The prefix.
    prefix: Option<u64>,
    /// The fingerprint.
    fingerprint: Option<u64>,
}

impl KeyTable {
    /// Returns the table of a tree's keys. Their numbers are their prefixes if these are all different, else their
    /// fingerprints. So no key is hashed unless two have the same prefix.
    pub(crate) fn of(
        alloc: Global,
        tree: &PublicTree,
        kind: KeyKind,
    ) -> Result<KeyTable, AllocError>
        ensures { IfOk result (IsTableOfTree kind tree.now.tree) }
    {
        let hashed_keys = HashedKeys::of(alloc, tree, kind)?;
        let prefixes = EntryTable::with(alloc, tree, kind, KeyNumber::Prefix)?;
        if prefixes.has_distinct_numbers() {
            return Ok(KeyTable {
                prefixes,
                fingerprints: EntryTable::new(alloc),
                hashed_keys,
            });
        }
        drop(prefixes);
        let fingerprints = EntryTable::with(alloc, tree, kind, KeyNumber::Fingerprint)?;
        Ok(KeyTable {
            prefixes: EntryTable::new(alloc),
            fingerprints,
            hashed_keys,
        })
    }

    /// Adds an entry of the prefix of the key at a node index of a tree, unless it is there. No entry of another node index has
    /// this prefix.
    fn add_prefix(
        &mut self,
        tree: &PublicTree,
        kind: KeyKind,
        node_index: u32,
        prefix: u64,
    ) -> Result<(), AllocError>
        requires prefix { prefix_at kind tree.now.tree node_index ≡ Some prefix }
        requires no_other { HaveDistinctNumbers self.old.prefixes.entries
            → (p : ℕ) → has_entry self.old.prefixes.entries prefix p ≡ true → p ≡ node_index }
        ensures index_base { (t : Tree) → HasBaseOf kind t self.old → HasBaseOf kind t self.new }
        ensures index_contains_keys { OnOk result ((rest : List ℕ) → ContainsKeysBut (node_index ∷ rest) kind tree.now.tree self.old
            → ContainsKeysBut rest kind tree.now.tree self.new) }
        ensures numbers { AddsNumbers kind tree.now.tree self.old self.new }
    {
        self.hashed_keys.stage_long(tree, kind, node_index)?;
        self.prefixes.insert_at(prefix, node_index)
    }

    /// Adds an entry of the fingerprint of the key at a node index of a tree, unless it is there. The key is hashed once, until
    /// the change is accepted or refused.
    fn add_fingerprint(
        &mut self,
        tree: &PublicTree,
        kind: KeyKind,
        node_index: u32,
    ) -> Result<(), AllocError>
        ensures index_base { (t : Tree) → HasBaseOf kind t self.old → HasBaseOf kind t self.new }
        ensures index_contains_keys { OnOk result ((rest : List ℕ) → ContainsKeysBut (node_index ∷ rest) kind tree.now.tree self.old
            → ContainsKeysBut rest kind tree.now.tree self.new) }
        ensures numbers { AddsNumbers kind tree.now.tree self.old self.new }
    {
        let staged = self.hashed_keys.stage(tree, kind, node_index)?;
        let Some(number) = staged else {
            return Ok(());
        };
        self.fingerprints.insert_at(number, node_index)
    }

    /// Adds an entry for the key at a node index of a tree, unless there is one. Its number is the prefix of the key, or the
    /// fingerprint if an entry of another node index has the prefix.
    fn stage_at(
        &mut self,
        tree: &PublicTree,
        kind: KeyKind,
        node_index: u32,
    ) -> Result<(), AllocError>
        ensures index_base { (t : Tree) → HasBaseOf kind t self.old → HasBaseOf kind t self.new }
        ensures index_contains_keys { OnOk result ((rest : List ℕ) → ContainsKeysBut (node_index ∷ rest) kind tree.now.tree self.old
            → ContainsKeysBut rest kind tree.now.tree self.new) }
        ensures numbers { AddsNumbers kind tree.now.tree self.old self.new }
    {
        let Some(prefix) = prefix_at(tree, kind, node_index) else {
            return Ok(());
        };
        if self.prefixes.has_other(prefix, node_index) {
            return self.add_fingerprint(tree, kind, node_index);
        }
        self.add_prefix(tree, kind, node_index, prefix)
    }

    /// Adds an entry for each key at these node indices of a tree, and reserves memory so that the tree can become the base
    /// tree. On error some entries may have been added.
    pub(crate) fn stage(
        &mut self,
        tree: &PublicTree,
        kind: KeyKind,
        node_indices: &[u32],
    ) -> Result<(), AllocError>
        ensures index_base { (t : Tree) → HasBaseOf kind t self.old → HasBaseOf kind t self.new }
        ensures index_contains_keys { OnOk result ((t : Tree) → TableContainsKeys kind t self.old
            → AgreeExceptAt node_indices.now t tree.now.tree → TableContainsKeys kind tree.now.tree self.new) }
        ensures numbers { AddsNumbers kind tree.now.tree self.old self.new }
    {
        let mut rest = node_indices;
        while let Some((node_index, tail)) = rest.split_first() {
            self.stage_at(tree, kind, *node_index)?;
            rest = tail;
        }
        Ok(())
    }

    /// Returns the number of the entry of the key at a node index of a tree: the prefix of the key, or its fingerprint if
    /// there is no entry of the prefix.
    fn entered_at(&self, tree: &PublicTree, kind: KeyKind, node_index: u32) -> KeyNumbers
        ensures numbers { are_numbers_for (key_at_node kind tree.now.tree node_index) result.prefix result.fingerprint ≡ true }
        ensures prefix { HasEntered result.prefix node_index self.now.prefixes }
        ensures fingerprint { TableContainsKeys kind tree.now.tree self.now
            → HasEntered result.fingerprint node_index self.now.fingerprints }
    {
        let Some(prefix) = prefix_at(tree, kind, node_index) else {
            return KeyNumbers {
                prefix: None,
                fingerprint: None,
            };
        };
        if self.prefixes.contains(prefix, node_index) {
            return KeyNumbers {
                prefix: Some(prefix),
                fingerprint: None,
            };
        }
        KeyNumbers {
            prefix: None,
            fingerprint: self.hashed_keys.fingerprint_at(tree, kind, node_index),
        }
    }

    /// Stores the number of the key at a node index of a tree, and removes the entry of the previous one.
    fn settle_at(&mut self, tree: &PublicTree, kind: KeyKind, node_index: u32)
        ensures { (rest : List ℕ) → IsSettling kind tree.now.tree (node_index ∷ rest) self.old
            → IsSettling kind tree.now.tree rest self.new }
    {
        let numbers = self.entered_at(tree, kind, node_index);
        self.prefixes.settle_at(node_index, numbers.prefix);
        self.fingerprints.settle_at(node_index, numbers.fingerprint);
        self.hashed_keys.accept(tree, kind, node_index);
    }

    /// Stores the numbers of the keys at these node indices of a tree.
    fn settle(&mut self, tree: &PublicTree, kind: KeyKind, node_indices: &[u32])
        ensures { IsSettling kind tree.now.tree node_indices.now self.old → IsSettling kind tree.now.tree [] self.new }
    {
        let mut rest = node_indices;
        while let Some((node_index, tail)) = rest.split_first() {
            self.settle_at(tree, kind, *node_index);
            rest = tail;
        }
    }

    /// Removes the added entries whose number is not the one that is stored for their node index.
    fn leave_others(&mut self)
        ensures { (kind : KeyKind) (t : Tree) → IsSettling kind t [] self.old → IsTableOfTree kind t self.new }
    {
        self.prefixes.leave_others();
        self.fingerprints.leave_others();
        self.hashed_keys.revert();
    }

    /// Makes a tree whose keys the table contains, and which differs at these node indices from the base tree, the base
    /// tree. Does not allocate.
    pub(crate) fn accept(&mut self, tree: &PublicTree, kind: KeyKind, node_indices: &[u32])
        ensures { (t : Tree) → HasBaseOf kind t self.old → TableContainsKeys kind tree.now.tree self.old
            → AgreeExceptAt node_indices.now t tree.now.tree → IsTableOfTree kind tree.now.tree self.new }
    {
        self.settle(tree, kind, node_indices);
        self.leave_others();
    }

    /// Removes the added entries. Does not allocate.
    pub(crate) fn revert(&mut self)
        ensures { (kind : KeyKind) (t : Tree) → HasBaseOf kind t self.old → IsTableOfTree kind t self.new }
    {
        self.prefixes.revert();
        self.fingerprints.revert();
        self.hashed_keys.revert();
    }

    /// Returns the fingerprint of a key, which the tree has at the node index `but`, if there is one. A key that was hashed
    /// when it was added is not hashed again.
    fn number_of(&self, tree: &PublicTree, kind: KeyKind, key: &[u8], but: Option<u32>) -> u64
        requires { IfSome but (λ p. key_at_node kind tree.now.tree p ≡ Some key.now) }
        ensures { result ≡ fingerprint key.now }
    {
        let Some(node_index) = but else {
            return fingerprint(key);
        };
        match self.hashed_keys.fingerprint_at(tree, kind, node_index) {
            Some(number) => number,
            None => fingerprint(key),
        }
    }

    /// Returns the smallest node index, other than `but`, at which a tree has this key. The tree has the key at `but`, if there
    /// is one. No key is hashed if no entry has a fingerprint.
    fn first_with(
        &self,
        tree: &PublicTree,
        kind: KeyKind,
        key: &[u8],
        but: Option<u32>,
    ) -> Option<u32>
        requires { IfSome but (λ p. key_at_node kind tree.now.tree p ≡ Some key.now) }
        ensures { TableContainsKeys kind tree.now.tree self.now → FindsFirst (HasKeyBut kind tree.now.tree key.now but) result }
    {
        let found = self
            .prefixes
            .first_among(tree, kind, key, key_prefix(key), but);
        if self.fingerprints.is_empty() {
            return found;
        }
        let number = self.number_of(tree, kind, key, but);
        smaller(
            found,
            self.fingerprints.first_among(tree, kind, key, number, but),
        )
    }

    /// Returns whether some node of a tree has this key.
    pub(crate) fn has_key(&self, tree: &PublicTree, kind: KeyKind, key: &[u8]) -> bool
        ensures { TableContainsKeys kind tree.now.tree self.now → IsTrue result ↔ HasKey kind tree.now.tree key.now }
    {
        self.first_with(tree, kind, key, None).is_some()
    }

    /// Returns the smallest node index of another node of a tree that has the key at a node index.
    pub(crate) fn first_other(
        &self,
        tree: &PublicTree,
        kind: KeyKind,
        node_index: u32,
    ) -> Option<u32>
        ensures { TableContainsKeys kind tree.now.tree self.now → FindsOther kind tree.now.tree node_index result }
    {
        let Some(key) = key_at_node(tree, kind, node_index) else {
            return None;
        };
        self.first_with(tree, kind, key, Some(node_index))
    }

    /// Returns whether no other node of a tree has the key at a node index.
    pub(crate) fn has_unique_key(&self, tree: &PublicTree, kind: KeyKind, node_index: u32) -> bool
        ensures { TableContainsKeys kind tree.now.tree self.now
            → IsTrue result ↔ IsUniqueKey kind tree.now.tree node_index }
    {
        self.first_other(tree, kind, node_index).is_none()
    }
}
