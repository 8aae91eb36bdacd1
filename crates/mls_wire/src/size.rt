//! The length of encodings, which is known before they are written.
//!
//! A size is a number of bytes, at most [`usize::MAX`], and `None` if there is no encoding.

ghost use Rattle.std.specs.Prelude.{◌≡◌, List, ℕ, length};
ghost use Rattle.mls_wire.specs.Encoding.{items, list, vector};
ghost use Rattle.mls_wire.specs.SaturatingSizes.{saturated, joint_size, size};

use crate::encode::Encode;
use crate::opaque::MAX_BODY;

/// Returns the size of two parts, one after the other.
#[tactic(auto, unfolding(crate::specs::SaturatingSizes::joint_size))]
pub fn add_sizes(first: Option<usize>, second: Option<usize>) -> Option<usize>
    ensures { result ≡ joint_size first second }
{
    Some(first?.saturating_add(second?))
}

/// Returns the size of a vector whose body has this size (RFC 9420, 2.1.2).
pub(crate) fn size_of_vector(body: usize) -> Option<usize>
    ensures { (s : List ℕ) → saturated (length s) ≡ body → result ≡ size (vector s) }
{
    if body < 64 {
        Some(body + 1)
    } else if body < 16384 {
        Some(body + 2)
    } else if body <= MAX_BODY {
        Some(body + 4)
    } else {
        None
    }
}

/// Returns the size of the values, one after the other.
pub(crate) fn size_of_items<T: Encode>(values: &[T]) -> Option<usize>
    ensures { result ≡ size (items T.encoding values.now) }
{
    let mut total: usize = 0;
    for value in values {
        total = total.saturating_add(value.size()?);
    }
    Some(total)
}

/// Returns the size of a list: its length in bytes, and its items (RFC 9420, 2.1.2).
pub fn size_of_list<T: Encode>(values: &[T]) -> Option<usize>
    ensures { result ≡ size (list T.encoding values.now) }
{
    size_of_vector(size_of_items(values)?)
}
