//! Splitting a list of leaf indices on the way down a tree.

ghost use Rattle.std.specs.Prelude.{◌≡◌, ◌≤◌, ◌<◌, ◌++◌, All, IfSome, drop, length, slice_get, take};

// Returns the number of leading entries that are less than `middle`.
fn prefix_below(leaves: &[u32], middle: u32) -> usize
    ensures inside { result ≤ length leaves.now }
    ensures front { All (λ i. i < middle) (take result leaves.now) }
    ensures rest { IfSome (slice_get (drop result leaves.now) 0) (λ i. middle ≤ i) }
{
    for (index, leaf) in leaves.iter().enumerate() {
        if *leaf >= middle {
            return index;
        }
    }
    leaves.len()
}

/// Splits a list of leaf indices into its longest prefix of entries below `middle`, and the rest.
///
/// For a sorted list of leaves under a parent, with `middle` the first leaf of the right subtree, these are the leaves
/// of the left and of the right subtree. Time is proportional to the length of the prefix.
pub fn split_leaves(leaves: &[u32], middle: u32) -> (&[u32], &[u32])
    ensures whole { leaves.now ≡ result.0.now ++ result.1.now }
    ensures front { All (λ i. i < middle) result.0.now }
    ensures rest { IfSome (slice_get result.1.now 0) (λ i. middle ≤ i) }
{
    leaves.split_at(prefix_below(leaves, middle))
}
