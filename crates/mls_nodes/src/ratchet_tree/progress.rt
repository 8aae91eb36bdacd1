//! How far the entries of a ratchet_tree were read.

ghost use Rattle.std.specs.Prelude.{◌≤◌};
ghost use Rattle.mls_nodes.specs.Limits.{entry_limit};

/// How many entries of a ratchet_tree were read, and which of them were non-blank.
#[derive(Clone, Copy)]
pub(crate) struct Progress {
    /// The node index of the next entry.
    pub node_index: usize,
    /// Whether the last entry is non-blank.
    pub is_last_non_blank: bool,
    /// Whether an entry is non-blank.
    pub has_non_blank: bool,
    ghost bounded: { node_index ≤ entry_limit },
}
