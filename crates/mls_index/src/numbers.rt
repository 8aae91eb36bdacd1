//! Lists of optional numbers.

ghost use Rattle.std.specs.Prelude.{◌≡◌, ◌<◌, ◌++◌, ◌∷◌, [], None, OnOk, OnErr, length, slice_get, slice_set, unwrap_or};

use std::alloc::{AllocError, Global};
use std::marker::Model;

/// A list of optional numbers, nine bytes each.
///
/// The model is the list. An `Option<u64>` would take sixteen bytes.
#[derive(Drop)]
pub(crate) struct Numbers {
    /// By index, the number. Any number if there is none.
    numbers: Vec<u64>,
    /// By index, whether there is a number.
    are_some: Vec<bool>,
}

impl Model for Numbers {
    ghost use Rattle.std.specs.Prelude.{◌≡◌, ℕ, List, Option, length};
    ghost use Rattle.mls_index.specs.NumbersInternal.{optional_numbers};

    ghost Value = { List (Option ℕ) };

    ghost view = { λ n. optional_numbers n.are_some.items n.numbers.items };

    ghost invariant = { λ n. length n.are_some.items ≡ length n.numbers.items };
}

impl Numbers {
    /// Returns an empty list. Does not allocate.
    pub(crate) fn new(alloc: Global) -> Numbers
        ensures { result ≡ [] }
    {
        Numbers {
            numbers: Vec::new(alloc),
            are_some: Vec::new(alloc),
        }
    }

    /// Returns the number of entries.
    pub(crate) fn len(&self) -> usize
        ensures { result ≡ length self.now }
    {
        self.are_some.len()
    }

    /// Returns the entry at an index.
    pub(crate) fn get(&self, index: usize) -> Option<u64>
        requires { index < length self.now }
        ensures { result ≡ unwrap_or (slice_get self.now index) None }
    {
        if self.are_some[index] {
            Some(self.numbers[index])
        } else {
            None
        }
    }

    /// Replaces the entry at an index.
    pub(crate) fn set(&mut self, index: usize, number: Option<u64>)
        requires { index < length self.old }
        ensures { self.new ≡ slice_set self.old index number }
    {
        self.numbers[index] = number.unwrap_or(0);
        self.are_some[index] = number.is_some();
    }

    /// Appends an entry.
    ///
    /// # Errors
    ///
    /// `AllocError`. The list is unchanged.
    pub(crate) fn push(&mut self, number: Option<u64>) -> Result<(), AllocError>
        ensures pushed { OnOk result (self.new ≡ self.old ++ number ∷ []) }
        ensures unchanged_on_error { OnErr result (self.new ≡ self.old) }
    {
        self.numbers.try_reserve(1)?;
        self.are_some.try_reserve(1)?;
        self.numbers.push_reserved(number.unwrap_or(0));
        self.are_some.push_reserved(number.is_some());
        Ok(())
    }
}
