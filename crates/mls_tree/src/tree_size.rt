//! Sizes of a tree: its height, its number of leaves, and its number of nodes.
ghost use Rattle.std.specs.Prelude.{◌≡◌, ◌+◌, ◌*◌, ◌^◌, ◌≤◌, ◌<◌, MatchOption, MatchResult};
ghost use Rattle.mls_nodes.specs.Limits.{leaf_limit};
ghost use Rattle.mls_tree.specs.TreeInternal.{leaves_at};
ghost use Rattle.mls_tree.specs.TreeSizes.{IsPowerOfTwo};
ghost use Rattle.mls_tree.specs.NodeArray.{IsNoSize, IsNoLength};

use crate::error::TreeError;

/// Returns the number of leaves of a tree of this height.
pub(crate) fn leaves_of(height: u32) -> u32
    requires { height ≤ 20 }
    ensures value { result ≡ leaves_at height }
    ensures low { result ≤ leaf_limit }
    ensures positive { 0 < result }
{
    1 << height
}

// Returns the exponent of a power of two.
fn exponent_of(number: usize) -> Option<u32>
    ensures { MatchOption result (IsPowerOfTwo number → ⊥) (λ h. number ≡ 2 ^ h) }
{
    let exponent = number.trailing_zeros();
    if exponent < 64 && number == 1 << exponent {
        Some(exponent)
    } else {
        None
    }
}

/// Returns the height of a tree with `leaves` leaves. `BadShape` if that is no power of two, `TooManyLeaves` if it is
/// too large.
pub(crate) fn height_of(leaves: usize) -> Result<u32, TreeError>
    ensures { MatchResult result (λ h. (h ≤ 20) × (leaves ≡ leaves_at h)) (λ e. IsNoSize e leaves) }
{
    let Some(height) = exponent_of(leaves) else {
        return Err(TreeError::BadShape);
    };
    if height > 20 {
        return Err(TreeError::TooManyLeaves);
    }
    Ok(height)
}

/// Returns the height of a tree with `length` nodes. Errors as `height_of`.
pub(crate) fn height_of_length(length: usize) -> Result<u32, TreeError>
    requires { length < 2 ^ 63 }
    ensures { MatchResult result (λ h. (h ≤ 20) × (length + 1 ≡ 2 * leaves_at h))
        (λ e. IsNoLength e length) }
{
    if length % 2 == 0 {
        return Err(TreeError::BadShape);
    }
    height_of(length / 2 + 1)
}
