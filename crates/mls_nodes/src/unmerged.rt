//! Lists of unmerged leaves (RFC 9420, 4.1.1 and 7.1).

ghost use Rattle.std.specs.Prelude.{◌≡◌, ◌==◌, ◌≤◌, ◌<◌, insert, length, nat_le, position, remove, slice_index_or, MatchResult, OnErr, OnOk};
ghost use Rattle.std.specs.Bool.{OnTrue};
ghost use Rattle.std.specs.List.{position_or_len};
ghost use Rattle.std.specs.List.Sorted.{IsNonDecreasing};
ghost use Rattle.mls_nodes.specs.Limits.{leaf_limit};

use mls_wire::{
    CodecFault, Decode, Draft, Encode, Items, Reader, TryClone, WireFault, WireFaultKind,
};
use std::alloc::{AllocError, Global};
use std::marker::Model;

/// The most entries of a list of unmerged leaves, as many as a tree has leaves.
pub const MAX_UNMERGED: usize = 1048576;

/// The indices of the leaves below a parent whose members do not know its private key, at most [`MAX_UNMERGED`].
#[derive(Debug, Drop)]
pub struct Unmerged {
    leaves: Items<u32>,
    /// If true, no leaf is less than the one before it, so a binary search finds a leaf. Lists of valid trees are sorted.
    /// Other lists are unchanged, and are searched from the first leaf on.
    is_sorted: bool,
}

impl Model for Unmerged {
    ghost use Rattle.std.specs.Prelude.{ℕ, ◌≤◌, List, length};
    ghost use Rattle.std.specs.Bool.{OnTrue};
    ghost use Rattle.std.specs.List.Sorted.{IsNonDecreasing};
    ghost use Rattle.mls_nodes.specs.Limits.{leaf_limit};

    ghost Value = { List ℕ };

    ghost view = { λ a. a.leaves };

    ghost invariant = { λ a. (length a.leaves ≤ leaf_limit) × OnTrue a.is_sorted (IsNonDecreasing a.leaves) };
}

/// Returns whether a leaf may be inserted at a position of a sorted list, so that it remains sorted.
fn is_between(leaves: &[u32], index: usize, leaf: u32) -> bool
    requires { index ≤ length leaves.now }
    ensures { OnTrue result (IsNonDecreasing leaves.now → IsNonDecreasing (insert leaves.now index leaf)) }
{
    if index > 0 && leaves[index - 1] > leaf {
        return false;
    }
    index == leaves.len() || leaf <= leaves[index]
}

/// Returns the position of the first leaf that is not less than `leaf`, or the length of the list.
fn first_not_less(leaves: &[u32], leaf: u32) -> usize
    ensures { result ≡ position_or_len (λ x. nat_le leaf x) leaves.now }
{
    for (index, item) in leaves.iter().enumerate() {
        if *item >= leaf {
            return index;
        }
    }
    leaves.len()
}

/// Returns the position of the first entry that is `leaf`.
fn first_equal(leaves: &[u32], leaf: u32) -> Option<usize>
    ensures { result ≡ position (λ x. x == leaf) leaves.now }
{
    for (index, item) in leaves.iter().enumerate() {
        if *item == leaf {
            return Some(index);
        }
    }
    None
}

impl Unmerged {
    /// Returns the list of these leaves. A list over the limit is returned as the error.
    pub fn new(leaves: Vec<u32>) -> Result<Unmerged, Vec<u32>>
        ensures { MatchResult result
            (λ made. made ≡ leaves.items)
            (λ back. (back ≡ leaves) × (leaf_limit < length leaves.items)) }
    {
        if leaves.len() > MAX_UNMERGED {
            return Err(leaves);
        }
        let is_sorted = leaves.as_slice().is_sorted();
        Ok(Unmerged {
            leaves: Items::new(leaves)?,
            is_sorted,
        })
    }

    /// Returns the leaves in their order.
    pub fn as_slice(&self) -> &[u32]
        ensures items { result.now ≡ self.now }
        ensures limit { length self.now ≤ leaf_limit }
    {
        self.leaves.as_slice()
    }

    /// Inserts a leaf at a position of the list. If an allocation fails, the list is unchanged.
    pub fn insert(&mut self, index: usize, leaf: u32) -> Result<(), AllocError>
        requires inside { index ≤ length self.old }
        requires capacity { length self.old < leaf_limit }
        ensures changed { OnOk result (self.new ≡ insert self.old index leaf) }
        ensures unchanged_on_error { OnErr result (self.new ≡ self.old) }
    {
        let is_sorted = self.is_sorted && is_between(self.leaves.as_slice(), index, leaf);
        match self.leaves.insert(index, leaf) {
            Ok(()) => {
                self.is_sorted = is_sorted;
                Ok(())
            }
            Err(_) => Err(AllocError),
        }
    }

    /// Returns the position of the first leaf that is not less than `leaf`, or the length of the list. Takes logarithmic
    /// time if no leaf of the list is less than the one before it, else linear time.
    pub fn insertion_point(&self, leaf: u32) -> usize
        ensures { result ≡ position_or_len (λ x. nat_le leaf x) self.now }
    {
        let leaves = self.leaves.as_slice();
        if self.is_sorted {
            leaves.partition_point(|x| *x < leaf)
        } else {
            first_not_less(leaves, leaf)
        }
    }

    /// Returns the position of the first entry that is `leaf`. `None` if the list does not have it. Takes logarithmic
    /// time if no leaf of the list is less than the one before it, else linear time.
    pub fn position(&self, leaf: u32) -> Option<usize>
        ensures { result ≡ position (λ x. x == leaf) self.now }
    {
        let leaves = self.leaves.as_slice();
        if !self.is_sorted {
            return first_equal(leaves, leaf);
        }
        let at = self.insertion_point(leaf);
        if at < leaves.len() && leaves[at] == leaf {
            Some(at)
        } else {
            None
        }
    }

    /// Removes the leaf at a position of the list and returns it. Does not allocate.
    pub fn remove(&mut self, index: usize) -> u32
        requires { index < length self.old }
        ensures value { result ≡ slice_index_or self.old index result }
        ensures leaves { self.new ≡ remove self.old index }
    {
        self.leaves.remove(index)
    }
}

impl Decode for Unmerged {
    ghost use Rattle.mls_nodes.specs.Layout.{unmerged};
    ghost use Rattle.mls_nodes.specs.ParsingInternal.{unmerged_at};
    ghost use Rattle.mls_nodes.specs.NodesExact.{unmerged_exact, unmerged_long};

    ghost encoding = { unmerged };

    ghost reading = { unmerged_at };

    /// Reads the list at the front. A list over the limit is `TooLong` at its offset.
    #[tactic(auto, unfolding(crate::specs::ParsingInternal::unmerged_at))]
    fn read(alloc: Global, reader: &mut Reader<'_>) -> Result<Unmerged, CodecFault> {
        let mut ahead = reader.fork();
        let leaves = Items::<u32>::read(alloc, &mut ahead)?;
        if leaves.as_slice().len() > MAX_UNMERGED {
            return Err(CodecFault::Wire(WireFault {
                kind: WireFaultKind::TooLong,
                at: reader.position(),
            }));
        }
        *reader = ahead;
        let is_sorted = leaves.as_slice().is_sorted();
        Ok(Unmerged { leaves, is_sorted })
    }

    ghost exact = { unmerged_exact };

    ghost long = { unmerged_long };
}

impl Encode for Unmerged {
    fn size(&self) -> Option<usize> {
        self.leaves.size()
    }

    fn put(&self, alloc: Global, draft: &mut Draft) -> Result<(), CodecFault> {
        self.leaves.put(alloc, draft)
    }
}

impl TryClone for Unmerged {
    fn try_clone(&self, alloc: Global) -> Result<Unmerged, CodecFault> {
        Ok(Unmerged {
            leaves: self.leaves.try_clone(alloc)?,
            is_sorted: self.is_sorted,
        })
    }
}
