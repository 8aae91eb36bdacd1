//! Sets of leaves.

ghost use Rattle.std.specs.Prelude.{◌≡◌, ◌≤◌, ◌<◌, ◌++◌, ◌↔◌, [], All, IfOk, IsTrue};
ghost use Rattle.std.specs.List.Sorted.{IsNonDecreasing, IsPermutation};
ghost use Rattle.mls_hash.specs.WithoutLeaves.{is_among};

use mls_tree::split_leaves;
use std::alloc::{AllocError, Global};
use std::marker::Model;

/// A set of leaf indices, in non-decreasing order.
#[derive(Drop)]
pub(crate) struct LeafSet<'a> {
    leaves: &'a [u32],
}

impl<'a> Model for LeafSet<'a> {
    ghost use Rattle.std.specs.Prelude.{ℕ, List};
    ghost use Rattle.std.specs.List.Sorted.{IsNonDecreasing};

    ghost Value = { List ℕ };

    ghost view = { λ s. s.leaves.now };

    ghost invariant = { λ s. IsNonDecreasing s.leaves.now };
}

/// Returns these leaf indices, sorted.
pub(crate) fn sorted(alloc: Global, leaves: &[u32]) -> Result<Vec<u32>, AllocError>
    ensures same { IfOk result (λ s. IsPermutation leaves.now s.items) }
    ensures sorted { IfOk result (λ s. IsNonDecreasing s.items) }
{
    let mut leaves = leaves.to_vec(alloc)?;
    leaves.sort_unstable();
    Ok(leaves)
}

impl<'a> LeafSet<'a> {
    /// Returns the empty set.
    pub(crate) fn empty() -> LeafSet<'a>
        ensures { result ≡ [] }
    {
        LeafSet { leaves: &[] }
    }

    /// Returns the set of these leaf indices, which are sorted.
    pub(crate) fn new(leaves: &'a [u32]) -> LeafSet<'a>
        requires { IsNonDecreasing leaves.now }
        ensures { result ≡ leaves.now }
    {
        LeafSet { leaves }
    }

    /// Returns whether the set is empty.
    pub(crate) fn is_empty(&self) -> bool
        ensures { IsTrue result ↔ (self.now ≡ []) }
    {
        self.leaves.is_empty()
    }

    /// Returns whether the set is this list.
    pub(crate) fn holds_just(&self, leaves: &[u32]) -> bool
        ensures { IsTrue result ↔ (self.now ≡ leaves.now) }
    {
        self.leaves == leaves
    }

    /// Returns whether a leaf is in the set, by binary search.
    pub(crate) fn contains(&self, leaf: u32) -> bool
        ensures { result ≡ is_among self.now leaf }
    {
        self.leaves.binary_search(&leaf).is_ok()
    }

    /// Returns those left of the leaf `middle`, and the rest.
    pub(crate) fn split(&self, middle: u32) -> (LeafSet<'a>, LeafSet<'a>)
        ensures whole { self.now ≡ result.0 ++ result.1 }
        ensures front { All (λ i. i < middle) result.0 }
        ensures rest { All (λ i. middle ≤ i) result.1 }
    {
        let (front, rest) = split_leaves(self.leaves, middle);
        (LeafSet { leaves: front }, LeafSet { leaves: rest })
    }
}
