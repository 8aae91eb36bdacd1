//! Leaf node validation (RFC 9420, 7.3).

ghost use Rattle.std.specs.Prelude.{◌≡◌, ℕ, ◌<◌, ◌≤◌, ◌^◌, true, length, IfOk, IfErr, IsSomeAnd, OnOk};
ghost use Rattle.std.specs.Bool.{OnTrue};
ghost use Rattle.mls_wire.specs.Limits.{vector_limit};
ghost use Rattle.mls_nodes.specs.LeafNodeTBS.{leaf_tbs};
ghost use Rattle.mls_tree.specs.Tree.{leaf_at};
ghost use Rattle.mls_check.specs.Signatures.{VerifyFn};
ghost use Rattle.mls_check.specs.LeafValidation.{LeavesAreValid, IsMemberFault, FindsFailing, member_number, supports_required, is_leaf_signed};
ghost use Rattle.mls_check.specs.SortedRequirements.{requirements_of};

use crate::capability_support::supports_required_by;
use crate::code_set::CodeSet;
use crate::plain_leaves::{are_plain, first_unlisted_extension, first_unsupported};
use crate::signature_keys::first_repeated_signature_key;
use crate::signatures::{OutOfMemory, SignatureCheck};
use crate::sorted_requirements::SortedRequirements;
use mls_nodes::{EncodedLeaf, LeafSource, RequiredCapabilities, leaf_tbs_len};
use mls_tree::PublicTree;
use mls_wire::{EncodedLength, MAX_BODY, Opaque};
use std::alloc::Global;
use thiserror::Error;

/// The label under which members sign their leaf nodes (RFC 9420, 7.2).
pub const LEAF_NODE_TBS: &str = "MLS 1.0 LeafNodeTBS";

/// Why a leaf node is not valid: the first rule that fails at some leaf, and the smallest leaf index at which it fails.
#[derive(Clone, Copy, Debug, PartialEq, Eq, Error)]
pub enum MemberFault {
    /// The leaf has an extension of a type that its capabilities do not list.
    #[error("leaf {0} has an extension of a type that it does not list")]
    ExtensionUnlisted(u32),
    /// The leaf's capabilities lack an extension, proposal or credential type that the group requires.
    #[error("leaf {0} lacks a type that the group requires")]
    RequirementUnmet(u32),
    /// The leaf's capabilities lack the credential type of some leaf.
    #[error("leaf {0} lacks the type of a member's credential")]
    CredentialUnsupported(u32),
    /// Another leaf has the signature key of the leaf.
    #[error("another leaf has the signature key of leaf {0}")]
    SignatureKeyRepeated(u32),
    /// The leaf's signature is not good.
    #[error("the signature of leaf {0} is not good")]
    LeafSignature(u32),
    /// An allocation failed.
    #[error("out of memory")]
    OutOfMemory,
}

impl MemberFault {
    /// Returns the number of the rule that fails, from 1 to 5; 0 for `OutOfMemory`.
    pub fn number(&self) -> u8
        ensures { result ≡ member_number self.now }
    {
        match self {
            MemberFault::ExtensionUnlisted(_) => 1,
            MemberFault::RequirementUnmet(_) => 2,
            MemberFault::CredentialUnsupported(_) => 3,
            MemberFault::SignatureKeyRepeated(_) => 4,
            MemberFault::LeafSignature(_) => 5,
            MemberFault::OutOfMemory => 0,
        }
    }
}

impl From<OutOfMemory> for MemberFault {
    ghost use Rattle.std.specs.Prelude.{◌≡◌};
    ghost use Rattle.mls_check.specs.declared.members.MemberFault.TheVariants as faults;

    ghost from_gives = { λ _ e. e ≡ faults.OutOfMemory };

    fn from(_memory: OutOfMemory) -> MemberFault {
        MemberFault::OutOfMemory
    }
}

/// Checks that every non-blank leaf of a tree is a valid leaf node (RFC 9420, 7.3) of a group with this cipher suite,
/// group id and required capabilities.
///
/// # Errors
///
/// The first rule that fails anywhere, with the smallest leaf index at which it fails, or `OutOfMemory`:
///
/// 1. Each leaf's capabilities list the types of its extensions. Types 1 to 5 need not be listed.
/// 2. They list the types that the group requires. Extension types 1 to 5 and proposal types 1 to 7 need not be listed.
/// 3. They list the credential type of each leaf.
/// 4. No two leaves have one signature key.
/// 5. The checker accepts each leaf's signature.
pub fn validate_members<C: SignatureCheck>(
    alloc: Global,
    suite: u16,
    group_id: &Opaque,
    requirements: &RequiredCapabilities,
    tree: &PublicTree,
    checker: &C,
) -> Result<(), MemberFault>
    ensures members { OnOk result
        (LeavesAreValid (C.meaning checker.now) suite group_id.now requirements.now tree.now.tree) }
    ensures fault { IfErr result
        (λ e. IsMemberFault (C.meaning checker.now) suite group_id.now requirements.now
        tree.now.tree e) }
{
    let are_plain = are_plain(tree);
    if let Some(leaf) = first_unlisted_extension(alloc, tree, are_plain)? {
        return Err(MemberFault::ExtensionUnlisted(leaf));
    }
    if let Some(leaf) = first_unmet_requirement(alloc, tree, requirements)? {
        return Err(MemberFault::RequirementUnmet(leaf));
    }
    if let Some(leaf) = first_unsupported(tree, are_plain) {
        return Err(MemberFault::CredentialUnsupported(leaf));
    }
    if let Some(leaf) = first_repeated_signature_key(alloc, tree)? {
        return Err(MemberFault::SignatureKeyRepeated(leaf));
    }
    if let Some(leaf) = first_unsigned_leaf(suite, group_id, tree, checker) {
        return Err(MemberFault::LeafSignature(leaf));
    }
    Ok(())
}

/// Returns the smallest leaf index of a leaf whose capabilities lack what the group requires (RFC 9420, 7.3).
pub fn first_unmet_requirement(
    alloc: Global,
    tree: &PublicTree,
    requirements: &RequiredCapabilities,
) -> Result<Option<u32>, OutOfMemory>
    ensures { IfOk result
        (FindsFailing (λ _ x. supports_required requirements.now x) tree.now.tree) }
{
    let sorted = SortedRequirements::new(alloc, requirements)?;
    first_unsupporting(alloc, tree, &sorted)
}

/// Returns the smallest leaf index of a leaf whose capabilities lack what the group requires (RFC 9420, 7.3). Time is
/// linear in the size of the tree, however much is required.
pub(crate) fn first_unsupporting(
    alloc: Global,
    tree: &PublicTree,
    requirements: &SortedRequirements,
) -> Result<Option<u32>, OutOfMemory>
    ensures { IfOk result
        (FindsFailing (λ _ x. supports_required (requirements_of requirements.now) x) tree.now.tree) }
{
    let mut set = CodeSet::new(alloc);
    for index in 0..tree.leaf_count() {
        if let Some(leaf) = tree.leaf(index) {
            if !supports_required_by(&mut set, leaf, requirements)? {
                return Ok(Some(index));
            }
        }
    }
    Ok(None)
}

/// Returns `true` only if the LeafNodeTBS of a leaf (RFC 9420, 7.2) is short enough for a SignContent, whatever the
/// index of the leaf. It may return `false` although it is. It adds up lengths and does not read the leaf node.
fn has_short_tbs(leaf: &EncodedLeaf, group_id: &Opaque) -> bool
    ensures { OnTrue result ((index : ℕ) → index < 2 ^ 32
        → IsSomeAnd (leaf_tbs leaf.now group_id.now index) (λ tbs. length tbs ≤ vector_limit)) }
{
    // The length of the group id takes at most four bytes, and the leaf index takes four.
    leaf.encoded_len() + group_id.as_slice().len() as u64 + 8 <= MAX_BODY as u64
}

/// Returns whether the checker accepts the signature of a leaf whose LeafNodeTBS is short enough for a SignContent. The
/// checker gets the SignContent in pieces, each from where it is stored.
fn is_content_signed<C: SignatureCheck>(
    suite: u16,
    group_id: &Opaque,
    index: u32,
    leaf: &EncodedLeaf,
    checker: &C,
) -> bool
    requires { IsSomeAnd (leaf_tbs leaf.now group_id.now index) (λ tbs. length tbs ≤ vector_limit) }
    ensures { result ≡ is_leaf_signed (C.meaning checker.now) suite group_id.now index leaf.now }
{
    let label = LEAF_NODE_TBS.as_bytes();
    let label_len = EncodedLength::of(label.len());
    let tbs_len = EncodedLength::of(leaf_tbs_len(leaf, group_id, index) as usize);
    let group_id = group_id.as_slice();
    let group_id_len = EncodedLength::of(group_id.len());
    let index = index.to_be_bytes();
    let content = [
        label_len.as_slice(),
        label,
        tbs_len.as_slice(),
        leaf.unsigned(),
        group_id_len.as_slice(),
        group_id,
        &index,
    ];
    // The group id and the index are signed for the sources update and commit.
    let count = match &leaf.source() {
        LeafSource::KeyPackage(_) => 4,
        LeafSource::Update | LeafSource::Commit { .. } => 7,
    };
    checker.good(
        suite,
        leaf.signature_key(),
        &content[..count],
        leaf.signature(),
    )
}

/// Returns the smallest leaf index of a leaf whose signature is not good.
fn first_unsigned_leaf<C: SignatureCheck>(
    suite: u16,
    group_id: &Opaque,
    tree: &PublicTree,
    checker: &C,
) -> Option<u32>
    ensures { FindsFailing
        (is_leaf_signed (C.meaning checker.now) suite group_id.now) tree.now.tree result }
{
    for index in 0..tree.leaf_count() {
        if let Some(leaf) = tree.leaf(index) {
            if !is_leaf_signed(suite, group_id, index, leaf, checker) {
                return Some(index);
            }
        }
    }
    None
}

/// Returns whether the leaf with this index has signed its LeafNodeTBS in the group with this id (RFC 9420, 7.2), as
/// the checker verifies it. The group id and the index matter only if the source of the leaf is update or commit. A
/// leaf whose LeafNodeTBS is too long for a SignContent is not signed. Does not allocate.
pub fn is_leaf_signed<C: SignatureCheck>(
    suite: u16,
    group_id: &Opaque,
    index: u32,
    leaf: &EncodedLeaf,
    checker: &C,
) -> bool
    ensures { result ≡ is_leaf_signed (C.meaning checker.now) suite group_id.now index leaf.now }
{
    if checker.accepts_all() && has_short_tbs(leaf, group_id) {
        return true;
    }
    if leaf_tbs_len(leaf, group_id, index) > MAX_BODY as u64 {
        return false;
    }
    checker.accepts_all() || is_content_signed(suite, group_id, index, leaf, checker)
}
