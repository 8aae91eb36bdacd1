//! Theorems about changed trees, and about their index.

ghost use Rattle.mls_index.specs.IncrementalCheck.{ChangedNodesDecideKeys, ChangedLeavesDecideValidity};
ghost use Rattle.mls_index.specs.FirstChanged.{ChangedLeavesFindFailing};
ghost use Rattle.mls_index.specs.RepeatedKeys.{ChangedLeavesFindRepeated};
ghost use Rattle.mls_index.specs.TreeIndex.{IndexHasBase, IndexContainsKeys};

/// If the encryption keys of a tree are distinct (RFC 9420, 12.4.2), those of the tree after a change are distinct if
/// and only if no other node has the key of a changed node.
pub fn changed_nodes_suffice()
    ensures { ChangedNodesDecideKeys }
{}

/// If the leaf nodes of a tree are valid (RFC 9420, 7.3), those of the tree after a change are valid if and only if
/// each changed leaf supports its extensions and what the group requires, is signed, and has a unique signature key,
/// and each leaf supports the credential types of all leaves.
pub fn changed_members_suffice()
    ensures { ChangedLeavesDecideValidity }
{}

/// If each leaf of a tree passes a test that does not depend on other leaves, the first leaf that fails it after a change
/// is the first of the leaves that changed.
pub fn first_failing_leaf_changed()
    ensures { ChangedLeavesFindFailing }
{}

/// If each leaf of a tree has a signature key of its own, the first leaf after a change whose signature key another leaf
/// has is the one that [`TreeIndex::first_repeated_key`](crate::TreeIndex::first_repeated_key) returns for the changed
/// node indices.
pub fn first_repeated_key_changed()
    ensures { ChangedLeavesFindRepeated }
{}

/// The index of a tree has it as its base, and contains its keys.
pub fn index_covers_its_tree()
    ensures index_base { IndexHasBase }
    ensures index_contains_keys { IndexContainsKeys }
{}
