//! Node indices of the keys of one kind, by a number of each key.

ghost use Rattle.std.specs.Prelude.{◌≡◌, ◌<◌, ◌≤◌, ◌+◌, [], ℕ, Option, None, IsFalse, IsTrue, IfOk, OnOk, length, true, false};
ghost use Rattle.mls_index.specs.EntryTable.{base_at, has_entry, is_entered, HaveDistinctNumbers, IsTableOf, TableHasBase};
ghost use Rattle.mls_index.specs.EntryTableInternal.{number_at, AddsOnly, AreSettled, HasEntered, HasLeft, HasListed, HasSettled, ListsAll, ListsFirst};
ghost use Rattle.mls_index.specs.RepeatedKeysInternal.{FindsAmong, HasKeyBut};

use crate::node_key::{KeyKind, KeyNumber, has_key_but, is_number, node_index_count, number_at};
use crate::numbers::Numbers;
use mls_tree::PublicTree;
use std::alloc::{AllocError, Global};
use std::collections::BTreeSet;

/// Entries, each of the number of a key and the key's node index. A table has a base, the entries of a tree. Then entries may
/// be added for a changed tree, which are accepted or refused.
#[derive(Drop)]
pub(crate) struct EntryTable {
    /// The number of each key, and its node index.
    entries: BTreeSet<(u64, u32)>,
    /// By node index, the number of the base. Node indices above the last entry may be missing.
    numbers: Numbers,
    /// The entries that were added to those of the base.
    came: Vec<(u64, u32)>,
}

/// Appends the entry of a key at a node index, if there is one.
fn put_entry(
    entries: &mut Vec<(u64, u32)>,
    number: Option<u64>,
    node_index: u32,
) -> Result<(), AllocError>
    ensures { OnOk result (HasListed number node_index entries.old.items entries.new.items) }
{
    let Some(number) = number else {
        return Ok(());
    };
    entries.push((number, node_index))?;
    Ok(())
}

/// Removes the entry of the previous number at a node index, unless it is the number that is there now.
fn leave_entry(
    entries: &mut BTreeSet<(u64, u32)>,
    left: Option<u64>,
    now: Option<u64>,
    node_index: u32,
)
    ensures { HasLeft left now node_index entries.old entries.new }
{
    let Some(number) = left else {
        return;
    };
    if !is_number(now, number) {
        entries.remove(&(number, node_index));
    }
}

/// The keys of one kind of a tree, in order of node index.
#[derive(Drop)]
struct KeyList {
    /// The number of each key, and its node index.
    entries: Vec<(u64, u32)>,
    /// By node index, the number of the key there.
    numbers: Numbers,
}

impl KeyList {
    /// Returns the list of no keys. Does not allocate.
    fn new(alloc: Global) -> KeyList
        ensures { (x : ℕ → Option ℕ) → ListsFirst x 0 result }
    {
        KeyList {
            entries: Vec::new(alloc),
            numbers: Numbers::new(alloc),
        }
    }

    /// Appends the next node index, with the number of its key.
    fn append(&mut self, number: Option<u64>, node_index: u32) -> Result<(), AllocError>
        ensures { OnOk result ((x : ℕ → Option ℕ) → x node_index ≡ number
            → ListsFirst x node_index self.old → ListsFirst x (node_index + 1) self.new) }
    {
        put_entry(&mut self.entries, number, node_index)?;
        self.numbers.push(number)?;
        Ok(())
    }

    /// Appends the node indices of a tree, one after the other.
    fn fill(
        &mut self,
        tree: &PublicTree,
        kind: KeyKind,
        choice: KeyNumber,
    ) -> Result<(), AllocError>
        requires { ListsFirst (number_at choice kind tree.now.tree) 0 self.old }
        ensures { OnOk result (ListsAll (number_at choice kind tree.now.tree) self.new) }
    {
        for node_index in 0..node_index_count(tree) {
            self.append(number_at(tree, kind, choice, node_index), node_index)?;
        }
        Ok(())
    }

    /// Returns the list of a tree's keys.
    fn of(
        alloc: Global,
        tree: &PublicTree,
        kind: KeyKind,
        choice: KeyNumber,
    ) -> Result<KeyList, AllocError>
        ensures { IfOk result (ListsAll (number_at choice kind tree.now.tree)) }
    {
        let mut list = KeyList::new(alloc);
        list.fill(tree, kind, choice)?;
        Ok(list)
    }
}

impl EntryTable {
    /// Returns the table without entries. Does not allocate.
    pub(crate) fn new(alloc: Global) -> EntryTable
        ensures { IsTableOf (λ _. None) result }
    {
        EntryTable {
            entries: BTreeSet::new(alloc),
            numbers: Numbers::new(alloc),
            came: Vec::new(alloc),
        }
    }

    /// Returns the table of a tree's keys, each with the chosen number. They are sorted at once, which is faster than to
    /// insert them one by one.
    pub(crate) fn with(
        alloc: Global,
        tree: &PublicTree,
        kind: KeyKind,
        choice: KeyNumber,
    ) -> Result<EntryTable, AllocError>
        ensures { IfOk result (IsTableOf (number_at choice kind tree.now.tree)) }
    {
        let KeyList { entries, numbers } = KeyList::of(alloc, tree, kind, choice)?;
        let entries = BTreeSet::from_iter(alloc, entries)?;
        Ok(EntryTable {
            entries,
            numbers,
            came: Vec::new(alloc),
        })
    }

    /// Returns whether there is no entry.
    pub(crate) fn is_empty(&self) -> bool
        ensures { IsTrue result → (b p : ℕ) → has_entry self.now.entries b p ≡ false }
    {
        self.entries.is_empty()
    }

    /// Returns whether no two entries have the same number. Nothing is proved of `false`, which costs only that keys are
    /// hashed.
    pub(crate) fn has_distinct_numbers(&self) -> bool
        ensures { IsTrue result → HaveDistinctNumbers self.now.entries }
    {
        let mut last = None;
        for entry in self.entries.iter() {
            if is_number(last, entry.0) {
                return false;
            }
            last = Some(entry.0);
        }
        true
    }

    /// Returns whether an entry of this number has another node index, if no two entries have the same number. Nothing is
    /// proved of `true`, which costs only that a key is hashed.
    pub(crate) fn has_other(&self, number: u64, node_index: u32) -> bool
        ensures { IsFalse result → HaveDistinctNumbers self.now.entries
            → (p : ℕ) → has_entry self.now.entries number p ≡ true → p ≡ node_index }
    {
        match self.entries.range((number, 0)..).next() {
            Some(entry) => entry.0 == number && entry.1 != node_index,
            None => false,
        }
    }

    /// Returns whether there is an entry of this number and node index, and the number can be stored.
    pub(crate) fn contains(&self, number: u64, node_index: u32) -> bool
        ensures { result ≡ is_entered self.now number node_index }
    {
        let index = node_index as usize;
        if index >= self.numbers.len() {
            return false;
        }
        self.entries.contains(&(number, node_index))
    }

    /// Makes room for the number at a node index.
    fn make_room(&mut self, node_index: u32) -> Result<(), AllocError>
        ensures base { (p : ℕ) → base_at self.new p ≡ base_at self.old p }
        ensures entries { self.new.entries ≡ self.old.entries }
        ensures came { self.new.came ≡ self.old.came }
        ensures long { length self.old.numbers ≤ length self.new.numbers }
        ensures capacity { OnOk result (node_index < length self.new.numbers) }
    {
        while self.numbers.len() <= node_index as usize {
            self.numbers.push(None)?;
        }
        Ok(())
    }

    /// Adds an entry, unless it is there.
    fn insert_entry(&mut self, number: u64, node_index: u32) -> Result<(), AllocError>
        ensures index_base { (x : ℕ → Option ℕ) → TableHasBase x self.old → TableHasBase x self.new }
        ensures adds_only { AddsOnly number node_index self.old.entries self.new.entries }
        ensures remaining { (b p : ℕ) → has_entry self.old.entries b p ≡ true → has_entry self.new.entries b p ≡ true }
        ensures here { OnOk result (has_entry self.new.entries number node_index ≡ true) }
        ensures numbers { self.new.numbers ≡ self.old.numbers }
    {
        self.came.try_reserve(1)?;
        let added = self.entries.insert((number, node_index))?;
        if !added {
            return Ok(());
        }
        self.came.push_reserved((number, node_index));
        Ok(())
    }

    /// Adds an entry, unless it is there, and reserves memory to store its number.
    pub(crate) fn insert_at(&mut self, number: u64, node_index: u32) -> Result<(), AllocError>
        ensures index_base { (x : ℕ → Option ℕ) → TableHasBase x self.old → TableHasBase x self.new }
        ensures adds_only { AddsOnly number node_index self.old.entries self.new.entries }
        ensures remaining { (b p : ℕ) → is_entered self.old b p ≡ true → is_entered self.new b p ≡ true }
        ensures here { OnOk result (is_entered self.new number node_index ≡ true) }
    {
        self.make_room(node_index)?;
        self.insert_entry(number, node_index)
    }

    /// Returns the number that is stored for a node index.
    fn stored_at(&self, node_index: u32) -> Option<u64>
        ensures { result ≡ base_at self.now node_index }
    {
        let index = node_index as usize;
        if index >= self.numbers.len() {
            return None;
        }
        self.numbers.get(index)
    }

    /// Stores the number of a node index, if there is an entry of it. Removes the entry of the previous number.
    pub(crate) fn settle_at(&mut self, node_index: u32, number: Option<u64>)
        ensures { HasEntered number node_index self.old → HasSettled number node_index self.old self.new }
    {
        let index = node_index as usize;
        if index >= self.numbers.len() {
            return;
        }
        let left = self.numbers.get(index);
        leave_entry(&mut self.entries, left, number, node_index);
        self.numbers.set(index, number);
    }

    /// Removes the added entries whose number is not the one that is stored for their node index.
    pub(crate) fn leave_others(&mut self)
        ensures index { AreSettled [] self.old → IsTableOf (base_at self.old) self.new }
        ensures only { (b p : ℕ) → has_entry self.new.entries b p ≡ true → has_entry self.old.entries b p ≡ true }
    {
        while let Some((number, node_index)) = self.came.pop() {
            let now = self.stored_at(node_index);
            leave_entry(&mut self.entries, Some(number), now, node_index);
        }
    }

    /// Removes the added entries. Does not allocate.
    pub(crate) fn revert(&mut self)
        ensures index { (x : ℕ → Option ℕ) → TableHasBase x self.old → IsTableOf x self.new }
        ensures only { (b p : ℕ) → has_entry self.new.entries b p ≡ true → has_entry self.old.entries b p ≡ true }
    {
        while let Some((number, node_index)) = self.came.pop() {
            self.entries.remove(&(number, node_index));
        }
    }

    /// Returns the smallest node index, other than `but`, of an entry of this number at which a tree has this key. The
    /// entries of a number are visited in the order of their node indices.
    pub(crate) fn first_among(
        &self,
        tree: &PublicTree,
        kind: KeyKind,
        key: &[u8],
        number: u64,
        but: Option<u32>,
    ) -> Option<u32>
        ensures { FindsAmong (λ p. has_entry self.now.entries number p ≡ true) (HasKeyBut kind tree.now.tree key.now but) result }
    {
        for entry in self.entries.range((number, 0)..=(number, u32::MAX)) {
            if has_key_but(tree, kind, key, but, entry.1) {
                return Some(entry.1);
            }
        }
        None
    }
}
