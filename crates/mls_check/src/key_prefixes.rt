//! The 8-byte prefixes of keys, as numbers. Keys with different prefixes are different, and numbers are compared sooner
//! than keys.

ghost use Rattle.std.specs.Prelude.{◌≢◌, ◌↔◌, IsTrue, AllPairs};

/// Returns whether the numbers are distinct: sorted, each is below the next.
pub(crate) fn all_differ(mut prefixes: Vec<u64>) -> bool
    ensures { IsTrue result ↔ AllPairs (λ x y. x ≢ y) prefixes.items }
{
    prefixes.sort_unstable();
    prefixes
        .as_slice()
        .is_sorted_by(|lower, upper| *lower < *upper)
}
