//! The index of a tree's keys and of its leaves' credentials.

ghost use Rattle.std.specs.Prelude.{◌≡◌, ◌↔◌, ◌∷◌, [], IsTrue, IfOk, OnOk};
ghost use Rattle.mls_tree.specs.Tree.{Tree};
ghost use Rattle.mls_tree.specs.ChangedNodes.{AgreeExceptAt};
ghost use Rattle.mls_check.specs.LeafValidation.{FindsFailing, supports_used_credentials};
ghost use Rattle.mls_index.specs.NodeKeys.{HasKey, IsUniqueKey};
ghost use Rattle.mls_index.specs.RepeatedKeys.{FindsRepeatedAt};
ghost use Rattle.mls_index.specs.TreeIndex.{HasBase, IsIndexOf, ContainsKeysOf, AddsNumbersTo};
ghost use Rattle.mls_index.specs.IncrementalCheck.{AreUniqueKeys, SupportCredentials};

use crate::changed_leaves::smaller;
use crate::credential_counts::CredentialCounts;
use crate::key_table::KeyTable;
use crate::node_key::KeyKind;
use mls_check::OutOfMemory;
use mls_tree::PublicTree;
use std::alloc::Global;

/// The encryption keys of a tree's nodes and the signature keys of its leaves, by node index, and how many leaves have
/// a credential of each type and do not support one (RFC 9420, 7.3). With it a key is looked up, and credential types
/// are compared, without visiting the tree.
///
/// The index has an entry for each key: its number and its node index. The number is the 8-byte prefix of the key, or its
/// fingerprint: the first eight bytes of the key's SHA-256. If the keys of a kind had different prefixes when the index was
/// made, their numbers are these prefixes, otherwise the fingerprints. A key that was added since has its prefix as its
/// number, unless an entry of another node index has this prefix.
///
/// A look-up searches the sorted entries for the prefix of the key. If an entry has a fingerprint, it also searches for the
/// fingerprint of the key. It compares the key with that of each entry found. Whoever chooses the keys, these are few. No two
/// entries of a kind have the same prefix as their number (`IsIndexOf`, `HasBase`). Different keys with equal fingerprints are
/// hard to find, by SHA-256.
///
/// So no key is hashed as long as all keys of a kind have different prefixes, except a parent's key of more than 2,048 bytes.
/// The index has a copy of such a key: it is hashed once, and then compared with its copy. A shorter key that is added with
/// its fingerprint is copied too, until the change is accepted or refused.
///
/// # Following a change of the tree
///
/// The index has a base tree (`IsIndexOf`). [`stage`](TreeIndex::stage) inserts the keys and leaves of a changed tree
/// (`HasBase` for the base tree, `ContainsKeysOf` for the changed one); it may allocate. Then
/// [`accept`](TreeIndex::accept) makes the changed tree the base tree, or [`revert`](TreeIndex::revert) removes what
/// was added. Neither of them allocates.
#[derive(Drop)]
pub struct TreeIndex {
    encryption: KeyTable,
    signature: KeyTable,
    credentials: CredentialCounts,
}

impl TreeIndex {
    /// Returns the index of a tree. It takes some 115 bytes for each leaf of a full tree, and the bytes of the parents' keys
    /// of more than 2,048 bytes.
    pub fn of(alloc: Global, tree: &PublicTree) -> Result<TreeIndex, OutOfMemory>
        ensures { IfOk result (IsIndexOf tree.now.tree) }
    {
        let encryption = KeyTable::of(alloc, tree, KeyKind::Encryption)?;
        let signature = KeyTable::of(alloc, tree, KeyKind::Signature)?;
        let credentials = CredentialCounts::of(alloc, tree)?;
        Ok(TreeIndex {
            encryption,
            signature,
            credentials,
        })
    }

    /// Adds the keys and the leaves of a tree at these node indices, which must include all at which it differs from
    /// the base tree. A node index may be listed twice. Call it again for more changes, each time with all node indices
    /// at which the tree then differs from the base tree. The number of each entry that is added is the prefix or the
    /// fingerprint of its key.
    ///
    /// # Errors
    ///
    /// `OutOfMemory`. Some of the keys may have been added. The base tree is unchanged.
    pub fn stage(&mut self, tree: &PublicTree, node_indices: &[u32]) -> Result<(), OutOfMemory>
        ensures index_base { (t : Tree) → HasBase t self.old → HasBase t self.new }
        ensures index_contains_keys { OnOk result ((t : Tree) → HasBase t self.old
            → AgreeExceptAt node_indices.now t tree.now.tree → ContainsKeysOf tree.now.tree self.new) }
        ensures numbers { AddsNumbersTo tree.now.tree self.old self.new }
    {
        self.encryption
            .stage(tree, KeyKind::Encryption, node_indices)?;
        self.signature
            .stage(tree, KeyKind::Signature, node_indices)?;
        self.credentials.stage(tree, node_indices)?;
        Ok(())
    }

    /// Makes a tree the base tree, whose keys were added and which differs at these node indices from the base tree.
    /// Does not allocate.
    pub fn accept(&mut self, tree: &PublicTree, node_indices: &[u32])
        ensures { (t : Tree) → HasBase t self.old → ContainsKeysOf tree.now.tree self.old
            → AgreeExceptAt node_indices.now t tree.now.tree → IsIndexOf tree.now.tree self.new }
    {
        self.encryption
            .accept(tree, KeyKind::Encryption, node_indices);
        self.signature
            .accept(tree, KeyKind::Signature, node_indices);
        self.credentials.accept();
    }

    /// Removes what was added to the index of the base tree. Does not allocate.
    pub fn revert(&mut self)
        ensures { (t : Tree) → HasBase t self.old → IsIndexOf t self.new }
    {
        self.encryption.revert();
        self.signature.revert();
        self.credentials.revert();
    }

    /// Returns whether some node of a tree has this key, if the index contains the tree's keys.
    pub fn has_key(&self, tree: &PublicTree, kind: KeyKind, key: &[u8]) -> bool
        ensures { ContainsKeysOf tree.now.tree self.now → IsTrue result ↔ HasKey kind tree.now.tree key.now }
    {
        match kind {
            KeyKind::Encryption => self.encryption.has_key(tree, kind, key),
            KeyKind::Signature => self.signature.has_key(tree, kind, key),
        }
    }

    /// Returns whether no other node of a tree has the key of the node at a node index, if the index contains the
    /// tree's keys. A node without a key of this kind shares none.
    pub fn has_unique_key(&self, tree: &PublicTree, kind: KeyKind, node_index: u32) -> bool
        ensures { ContainsKeysOf tree.now.tree self.now → IsTrue result ↔ IsUniqueKey kind tree.now.tree node_index }
    {
        match kind {
            KeyKind::Encryption => self.encryption.has_unique_key(tree, kind, node_index),
            KeyKind::Signature => self.signature.has_unique_key(tree, kind, node_index),
        }
    }

    /// Returns whether the key of each node at these node indices of a tree is unique, if the index contains the tree's
    /// keys.
    pub fn have_unique_keys(&self, tree: &PublicTree, kind: KeyKind, node_indices: &[u32]) -> bool
        ensures { ContainsKeysOf tree.now.tree self.now
            → IsTrue result ↔ AreUniqueKeys kind node_indices.now tree.now.tree }
    {
        let mut rest = node_indices;
        while let Some((node_index, tail)) = rest.split_first() {
            if !self.has_unique_key(tree, kind, *node_index) {
                return false;
            }
            rest = tail;
        }
        true
    }

    /// Returns whether each leaf supports the credential types of all leaves, in the tree of which the index was made
    /// or that was added last.
    pub fn support_credentials(&self) -> bool
        ensures { (t : Tree) → ContainsKeysOf t self.now → IsTrue result ↔ SupportCredentials t }
    {
        self.credentials.support_credentials()
    }

    /// Returns the smallest leaf index of a leaf that does not support the credential type of some leaf, in the tree of
    /// which the index was made or that was added last (RFC 9420, 7.3). Does not visit the tree.
    pub fn first_unsupported_credential(&self) -> Option<u32>
        ensures { (t : Tree) → ContainsKeysOf t self.now
            → FindsFailing (λ _ x. supports_used_credentials t x) t result }
    {
        self.credentials.first_unsupported()
    }

    /// Returns the smaller leaf index of the leaf at a node index and of the first other leaf with its signature key, if
    /// there is one.
    fn repeated_at(&self, tree: &PublicTree, node_index: u32) -> Option<u32>
        ensures { ContainsKeysOf tree.now.tree self.now → FindsRepeatedAt (node_index ∷ []) tree.now.tree result }
    {
        match self
            .signature
            .first_other(tree, KeyKind::Signature, node_index)
        {
            Some(other) => Some(node_index.min(other) / 2),
            None => None,
        }
    }

    /// Returns the smallest leaf index of a leaf whose signature key another leaf has, if one of the two is at one of
    /// these node indices (RFC 9420, 7.3). The index must contain the tree's keys. A node index may be listed twice.
    /// One key is looked up for each node index. Does not allocate.
    pub fn first_repeated_key(&self, tree: &PublicTree, node_indices: &[u32]) -> Option<u32>
        ensures { ContainsKeysOf tree.now.tree self.now → FindsRepeatedAt node_indices.now tree.now.tree result }
    {
        let mut found = None;
        let mut rest = node_indices;
        while let Some((node_index, tail)) = rest.split_first() {
            found = smaller(found, self.repeated_at(tree, *node_index));
            rest = tail;
        }
        found
    }
}
