//! What the leaves of a tree say of credential types (RFC 9420, 5.3 and 7.2), with counts.

ghost use Rattle.std.specs.Prelude.{◌≡◌, ◌+◌, ◌<◌, ◌≤◌, ◌^◌, ◌++◌, ◌∷◌, [], Some, OnOk, OnErr, cond, length, slice_set, slice_index_or, count_by};
ghost use Rattle.mls_tree.specs.Tree.{leaf_at};
ghost use Rattle.mls_index.specs.LeafCredentials.{LeafClass, class_of, blank_class, class_at};
ghost use Rattle.mls_index.specs.LeafCredentialsInternal.{support_each_other, lacks_used, FindsLacking};

use mls_check::supported_credentials;
use mls_nodes::{CredentialBody, EncodedLeaf};
use mls_tree::PublicTree;
use std::alloc::{AllocError, Global};

/// The class of a leaf: which credential type it has, and which it does not support.
#[derive(Clone, Copy, Debug)]
pub(crate) struct LeafClass {
    has_basic: bool,
    has_x509: bool,
    lacks_basic: bool,
    lacks_x509: bool,
}

impl LeafClass {
    /// Returns the class of a blank leaf.
    pub(crate) fn blank() -> LeafClass
        ensures { result ≡ blank_class }
    {
        LeafClass {
            has_basic: false,
            has_x509: false,
            lacks_basic: false,
            lacks_x509: false,
        }
    }

    /// Returns the class of a non-blank leaf.
    fn of(leaf: &EncodedLeaf) -> LeafClass
        ensures { result ≡ class_of (Some leaf.now) }
    {
        let supported = supported_credentials(leaf);
        let lacks_basic = !supported.basic;
        let lacks_x509 = !supported.x509;
        match leaf.credential().body() {
            CredentialBody::Basic(_) => LeafClass {
                has_basic: true,
                has_x509: false,
                lacks_basic,
                lacks_x509,
            },
            CredentialBody::X509(_) => LeafClass {
                has_basic: false,
                has_x509: true,
                lacks_basic,
                lacks_x509,
            },
        }
    }

    /// Returns the class of a leaf of a tree, blank or not.
    pub(crate) fn at(tree: &PublicTree, index: u32) -> LeafClass
        ensures { result ≡ class_of (leaf_at 0 tree.now.tree index) }
    {
        match tree.leaf(index) {
            Some(leaf) => LeafClass::of(leaf),
            None => LeafClass::blank(),
        }
    }
}

/// Returns a count of leaves after one of them was replaced, from whether the old one and the new one are counted.
fn recounted(count: usize, was: bool, is: bool) -> usize
    requires counted { cond was 1 0 ≤ count }
    requires fits { count + 1 < 2 ^ 64 }
    ensures { result + cond was 1 0 ≡ count + cond is 1 0 }
{
    count - usize::from(was) + usize::from(is)
}

/// The classes of leaves, and how many leaves have each credential type and how many lack it.
#[derive(Drop)]
pub(crate) struct CountedClasses {
    /// By leaf index.
    pub(crate) list: Vec<LeafClass>,
    with_basic: usize,
    with_x509: usize,
    without_basic: usize,
    without_x509: usize,
    ghost fits: { length list.items < 2 ^ 32 },
    ghost with_basic_counted: { with_basic ≡ count_by (λ (c : LeafClass). c.has_basic) list.items },
    ghost with_x509_counted: { with_x509 ≡ count_by (λ (c : LeafClass). c.has_x509) list.items },
    ghost without_basic_counted: { without_basic ≡ count_by (λ (c : LeafClass). c.lacks_basic) list.items },
    ghost without_x509_counted: { without_x509 ≡ count_by (λ (c : LeafClass). c.lacks_x509) list.items },
}

impl CountedClasses {
    /// Returns a list of no classes. Does not allocate.
    pub(crate) fn new(alloc: Global) -> CountedClasses
        ensures { result.list.items ≡ [] }
    {
        CountedClasses {
            list: Vec::new(alloc),
            with_basic: 0,
            with_x509: 0,
            without_basic: 0,
            without_x509: 0,
        }
    }

    /// Returns the number of classes.
    pub(crate) fn len(&self) -> usize
        ensures { result ≡ length self.now.list.items }
    {
        self.list.len()
    }

    /// Adds the class of the next leaf.
    pub(crate) fn push(&mut self, class: LeafClass) -> Result<(), AllocError>
        requires { length self.old.list.items + 1 < 2 ^ 32 }
        ensures pushed { OnOk result
            (self.new.list.items ≡ self.old.list.items ++ class ∷ []) }
        ensures same { OnErr result (self.new.list.items ≡ self.old.list.items) }
    {
        self.list.push(class)?;
        self.with_basic += usize::from(class.has_basic);
        self.with_x509 += usize::from(class.has_x509);
        self.without_basic += usize::from(class.lacks_basic);
        self.without_x509 += usize::from(class.lacks_x509);
        Ok(())
    }

    /// Replaces the class of a leaf, and returns the previous one.
    pub(crate) fn replace(&mut self, index: usize, class: LeafClass) -> LeafClass
        requires { index < length self.old.list.items }
        ensures replaced { self.new.list.items ≡ slice_set self.old.list.items index class }
        ensures before { result ≡ slice_index_or self.old.list.items index blank_class }
    {
        let was = self.list[index];
        self.list[index] = class;
        self.with_basic = recounted(self.with_basic, was.has_basic, class.has_basic);
        self.with_x509 = recounted(self.with_x509, was.has_x509, class.has_x509);
        self.without_basic = recounted(self.without_basic, was.lacks_basic, class.lacks_basic);
        self.without_x509 = recounted(self.without_x509, was.lacks_x509, class.lacks_x509);
        was
    }

    /// Returns whether no leaf lacks a credential type that some leaf has.
    pub(crate) fn support_each_other(&self) -> bool
        ensures { result ≡ support_each_other self.now.list.items }
    {
        (self.with_basic == 0 || self.without_basic == 0)
            && (self.with_x509 == 0 || self.without_x509 == 0)
    }

    /// Returns whether the leaf of a class lacks a credential type that some leaf has.
    fn lacks_used(&self, index: usize) -> bool
        requires { index < length self.now.list.items }
        ensures { result ≡ lacks_used self.now.list.items (class_at self.now.list.items index) }
    {
        let class = self.list[index];
        (self.with_basic != 0 && class.lacks_basic) || (self.with_x509 != 0 && class.lacks_x509)
    }

    /// Returns the smallest index of a class that lacks a credential type that some class has.
    pub(crate) fn first_lacking(&self) -> Option<u32>
        ensures { FindsLacking self.now.list.items result }
    {
        for index in 0..self.list.len() as u32 {
            if self.lacks_used(index as usize) {
                return Some(index);
            }
        }
        None
    }
}
