//! Counts of the credential types that the leaves of a tree have and support.

ghost use Rattle.std.specs.Prelude.{◌≡◌, ◌<◌, ◌≤◌, ◌+◌, ◌↔◌, ◌∷◌, [], ℕ, List, IsTrue, IfOk, OnOk, OnErr, length};
ghost use Rattle.mls_tree.specs.Tree.{Tree};
ghost use Rattle.mls_tree.specs.ChangedNodes.{AgreeExceptAt};
ghost use Rattle.mls_check.specs.LeafValidation.{FindsFailing, supports_used_credentials};
ghost use Rattle.mls_index.specs.IncrementalCheck.{SupportCredentials};
ghost use Rattle.mls_index.specs.CredentialCounts.{Count, HaveBase, AreCountsOf};
ghost use Rattle.mls_index.specs.CredentialCountsInternal.{CountBut, HasCapacityFor, CountsFirst};

use crate::leaf_credentials::{CountedClasses, LeafClass};
use mls_check::OutOfMemory;
use mls_tree::PublicTree;
use std::alloc::{AllocError, Global};

/// How many leaves of a tree have a credential of each type, and how many do not support one (RFC 9420, 7.3). The
/// counts have a base tree. When the tree changes, the changed leaves are counted instead, and the change is accepted
/// or refused.
#[derive(Drop)]
pub(crate) struct CredentialCounts {
    /// The classes of the leaves.
    classes: CountedClasses,
    /// The classes that were replaced, by leaf index.
    replaced: Vec<(u32, LeafClass)>,
}

impl CredentialCounts {
    /// Returns counts of no leaves. Does not allocate.
    fn new(alloc: Global) -> CredentialCounts
        ensures { (t : Tree) → CountsFirst t 0 result }
    {
        CredentialCounts {
            classes: CountedClasses::new(alloc),
            replaced: Vec::new(alloc),
        }
    }

    /// Counts the leaves of a tree, one after the other.
    fn fill(&mut self, tree: &PublicTree) -> Result<(), AllocError>
        requires { CountsFirst tree.now.tree 0 self.old }
        ensures { OnOk result (AreCountsOf tree.now.tree self.new) }
    {
        for index in 0..tree.leaf_count() {
            self.classes.push(LeafClass::at(tree, index))?;
        }
        Ok(())
    }

    /// Returns the counts of a tree.
    pub(crate) fn of(alloc: Global, tree: &PublicTree) -> Result<CredentialCounts, OutOfMemory>
        ensures { IfOk result (AreCountsOf tree.now.tree) }
    {
        let mut counts = CredentialCounts::new(alloc);
        counts.fill(tree)?;
        Ok(counts)
    }

    /// Makes entries for this many leaves.
    fn make_room(&mut self, count: u32) -> Result<(), AllocError>
        ensures same { (t : Tree) → AreCountsOf t self.old → AreCountsOf t self.new }
        ensures capacity { OnOk result (count ≤ length self.new.classes.list.items) }
    {
        while self.classes.len() < count as usize {
            self.classes.push(LeafClass::blank())?;
        }
        Ok(())
    }

    /// Counts the leaf at a node index in place of the one that was counted there. Nothing changes for a parent, and
    /// for a leaf without an entry.
    fn recount_at(&mut self, tree: &PublicTree, node_index: u32) -> Result<(), AllocError>
        ensures index_base { (t : Tree) → HaveBase t self.old → HaveBase t self.new }
        ensures counts { OnOk result ((rest : List ℕ) → HasCapacityFor tree.now.tree self.old
            → CountBut (node_index ∷ rest) tree.now.tree self.old
            → CountBut rest tree.now.tree self.new) }
        ensures capacity { length self.new.classes.list.items ≡ length self.old.classes.list.items }
    {
        let index = node_index / 2;
        if node_index % 2 == 1 || index as usize >= self.classes.len() {
            return Ok(());
        }
        self.replaced.try_reserve(1)?;
        let was = self
            .classes
            .replace(index as usize, LeafClass::at(tree, index));
        self.replaced.push_reserved((index, was));
        Ok(())
    }

    /// Counts the leaves at these node indices of a tree.
    fn insert_all(&mut self, tree: &PublicTree, node_indices: &[u32]) -> Result<(), AllocError>
        ensures index_base { (t : Tree) → HaveBase t self.old → HaveBase t self.new }
        ensures counts { OnOk result (HasCapacityFor tree.now.tree self.old
            → CountBut node_indices.now tree.now.tree self.old → Count tree.now.tree self.new) }
    {
        let mut rest = node_indices;
        while let Some((node_index, tail)) = rest.split_first() {
            self.recount_at(tree, *node_index)?;
            rest = tail;
        }
        Ok(())
    }

    /// Counts a tree that differs at these node indices from the base tree. What was counted before is undone first. A
    /// node index may be listed twice, and may be outside the tree. If an allocation fails, the base is unchanged.
    pub(crate) fn stage(
        &mut self,
        tree: &PublicTree,
        node_indices: &[u32],
    ) -> Result<(), OutOfMemory>
        ensures index_base { (t : Tree) → HaveBase t self.old → HaveBase t self.new }
        ensures counts { OnOk result ((t : Tree) → HaveBase t self.old
            → AgreeExceptAt node_indices.now t tree.now.tree → Count tree.now.tree self.new) }
    {
        self.revert();
        self.make_room(tree.leaf_count())?;
        self.insert_all(tree, node_indices)?;
        Ok(())
    }

    /// Makes the counted tree the base tree. Does not allocate.
    pub(crate) fn accept(&mut self)
        ensures { (t : Tree) → Count t self.old → AreCountsOf t self.new }
    {
        self.replaced.clear();
    }

    /// Undoes what was counted since. Does not allocate.
    pub(crate) fn revert(&mut self)
        ensures { (t : Tree) → HaveBase t self.old → AreCountsOf t self.new }
    {
        while let Some((index, was)) = self.replaced.pop() {
            if (index as usize) < self.classes.len() {
                self.classes.replace(index as usize, was);
            }
        }
    }

    /// Returns whether each leaf supports the credential type of each leaf.
    pub(crate) fn support_credentials(&self) -> bool
        ensures { (t : Tree) → Count t self.now → IsTrue result ↔ SupportCredentials t }
    {
        self.classes.support_each_other()
    }

    /// Returns the smallest leaf index of a leaf that does not support the credential type of some leaf.
    pub(crate) fn first_unsupported(&self) -> Option<u32>
        ensures { (t : Tree) → Count t self.now
            → FindsFailing (λ _ x. supports_used_credentials t x) t result }
    {
        if self.support_credentials() {
            return None;
        }
        self.classes.first_lacking()
    }
}
