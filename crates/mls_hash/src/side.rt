//! The two children of a parent.

/// One of the two children of a parent.
#[derive(Clone, Copy, Debug, PartialEq, Eq)]
pub enum Side {
    /// The left child, with the smaller leaf indices.
    Left,
    /// The right child.
    Right,
}
