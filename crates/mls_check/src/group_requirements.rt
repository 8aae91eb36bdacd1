//! What a group requires of its members (RFC 9420, 11.1), made once and used for many leaf nodes.

ghost use Rattle.std.specs.Prelude.{◌≡◌, IfOk};
ghost use Rattle.mls_check.specs.LeafValidation.{FindsFailing, supports_required};
ghost use Rattle.mls_check.specs.SortedRequirements.{RequireSame, requirements_of};

use crate::capability_support::supports_required;
use crate::members::first_unsupporting;
use crate::signatures::OutOfMemory;
use crate::sorted_requirements::SortedRequirements;
use mls_nodes::{EncodedLeaf, RequiredCapabilities};
use mls_tree::PublicTree;
use std::alloc::Global;
use std::marker::Model;

/// What a group requires of its members (RFC 9420, 11.1), with sorted lists of it. The owner of a group makes it once an
/// epoch. To check a leaf node by it then takes no longer than to read the leaf node, however much is required. The model
/// is the required capabilities.
#[derive(Debug)]
pub struct GroupRequirements {
    required: RequiredCapabilities,
    sorted: SortedRequirements,
}

// Written out, so that a drop is one call in the proofs of its owners.
impl Drop for GroupRequirements {
    fn drop(self) {
        let GroupRequirements {
            required: _,
            sorted: _,
        } = self;
    }
}

impl Model for GroupRequirements {
    ghost use Rattle.mls_nodes.specs.declared.required_capabilities.RequiredCapabilities.{RequiredCapabilities};
    ghost use Rattle.mls_check.specs.SortedRequirements.{RequireSame, requirements_of};

    ghost Value = { RequiredCapabilities };

    ghost view = { λ s. s.required };

    ghost invariant = { λ s. RequireSame (requirements_of s.sorted) s.required };
}

impl GroupRequirements {
    /// Returns these requirements, with their lists sorted. Time is linear.
    ///
    /// # Errors
    ///
    /// `OutOfMemory`.
    pub fn new(
        alloc: Global,
        required: RequiredCapabilities,
    ) -> Result<GroupRequirements, OutOfMemory>
        ensures { IfOk result (λ requirements. requirements ≡ required) }
    {
        let sorted = SortedRequirements::new(alloc, &required)?;
        Ok(GroupRequirements { required, sorted })
    }

    /// Returns the required capabilities.
    pub fn required(&self) -> &RequiredCapabilities
        ensures { result.now ≡ self.now }
    {
        &self.required
    }

    /// Returns the sorted requirements.
    pub fn sorted(&self) -> &SortedRequirements
        ensures { RequireSame (requirements_of result.now) self.now }
    {
        &self.sorted
    }

    /// Returns whether a leaf supports what the group requires, as [`supports_required`].
    ///
    /// # Errors
    ///
    /// `OutOfMemory`.
    pub fn are_supported_by(&self, alloc: Global, leaf: &EncodedLeaf) -> Result<bool, OutOfMemory>
        ensures { IfOk result (λ all. all ≡ supports_required self.now leaf.now) }
    {
        supports_required(alloc, leaf, &self.sorted)
    }

    /// Returns the smallest leaf index of a leaf whose capabilities lack what the group requires (RFC 9420, 7.3), as
    /// [`first_unmet_requirement`](crate::first_unmet_requirement). Time is linear in the size of the tree, however much
    /// is required.
    ///
    /// # Errors
    ///
    /// `OutOfMemory`.
    pub fn first_unmet(&self, alloc: Global, tree: &PublicTree) -> Result<Option<u32>, OutOfMemory>
        ensures { IfOk result (FindsFailing (λ _ x. supports_required self.now x) tree.now.tree) }
    {
        first_unsupporting(alloc, tree, &self.sorted)
    }
}
