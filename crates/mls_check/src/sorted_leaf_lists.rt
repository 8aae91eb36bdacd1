//! Sorted lists of leaves, walked from the front.

ghost use Rattle.std.specs.Prelude.{◌≡◌, ◌==◌, ◌↔◌, IsTrue, Some, [], ◌∷◌, slice_get};
ghost use Rattle.std.specs.List.{list_all, list_any};
ghost use Rattle.std.specs.List.Sorted.{IsStrictlyIncreasing};

use mls_tree::split_leaves;

/// Returns whether a leaf is the first of a list.
pub(crate) fn starts_with(list: &[u32], leaf: u32) -> bool
    ensures { IsTrue result ↔ (slice_get list.now 0 ≡ Some leaf) }
{
    list.first().copied() == Some(leaf)
}

/// Returns whether a leaf is the only one of a list.
pub(crate) fn is_only(list: &[u32], leaf: u32) -> bool
    ensures { IsTrue result ↔ (list.now ≡ leaf ∷ []) }
{
    list.len() == 1 && starts_with(list, leaf)
}

/// Returns whether each of the leaves is in a list. Both are sorted, and walked together.
pub(crate) fn are_among(leaves: &[u32], list: &[u32]) -> bool
    requires leaves { IsStrictlyIncreasing leaves.now }
    requires list { IsStrictlyIncreasing list.now }
    ensures { result ≡ list_all (λ i. list_any (λ x. x == i) list.now) leaves.now }
{
    let mut rest = list;
    for &leaf in leaves {
        rest = split_leaves(rest, leaf).1;
        if !starts_with(rest, leaf) {
            return false;
        }
    }
    true
}
