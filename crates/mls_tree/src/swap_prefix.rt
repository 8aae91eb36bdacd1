//! Leftmost subtrees that are taken out of a tree and put back.
ghost use Rattle.std.specs.Prelude.{◌≡◌, ℕ, ◌<◌, ◌≤◌, length, slice_get};

use std::mem;

/// Exchanges the entries of `front` with the first entries of `whole`.
pub(crate) fn swap_prefix<T>(whole: &mut Vec<T>, front: &mut Vec<T>)
    requires { length front.old.items ≤ length whole.old.items }
    ensures put { (p : ℕ) → p < length front.old.items
        → slice_get whole.new.items p ≡ slice_get front.old.items p }
    ensures rest { (p : ℕ) → length front.old.items ≤ p
        → slice_get whole.new.items p ≡ slice_get whole.old.items p }
    ensures taken { (p : ℕ) → p < length front.old.items
        → slice_get front.new.items p ≡ slice_get whole.old.items p }
    ensures long { length whole.new.items ≡ length whole.old.items }
    ensures short { length front.new.items ≡ length front.old.items }
{
    for at in 0..front.len() {
        mem::swap(&mut whole[at], &mut front[at]);
    }
}
