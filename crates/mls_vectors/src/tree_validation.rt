//! Vectors of the kind `tree-validation`: a tree that must be valid, with its resolutions and tree hashes (RFC 9420,
//! 4.1.1, 7.8 and 12.4.3.1).

ghost use Rattle.std.specs.Prelude.{◌≡◌, ◌↔◌, ◌≤◌, ℕ, List, IsTrue, IfOk, codes};
ghost use Rattle.serde_json.specs.View.{view, items_view};
ghost use Rattle.mls_nodes.specs.Limits.{leaf_limit};
ghost use Rattle.mls_tree.specs.Tree.{leaf_count};
ghost use Rattle.mls_hash.specs.SuiteHash.{hash_of};
ghost use Rattle.mls_check.specs.ValidTree.{Valid};
ghost use Rattle.mls_vectors.specs.CheckModel.{outcome_of, IsKeptHash};
ghost use Rattle.mls_vectors.specs.VectorResults.{IsVectorResult};
ghost use Rattle.mls_vectors.specs.TreeValidation as trees;
ghost use Rattle.mls_vectors.specs.TreeValidation.{HasSuite, IsResolution, IsOutcomeUnlessSkipped, IsTreeHash, IsTreeValidation, tree_checks};
ghost use Rattle.mls_vectors.specs.VectorFile.{AreEntries, HasEntries};

use crate::json_members::{array_under, gives_bytes, is_number};
use crate::suite::{SuiteMember, suite_of};
use crate::vector_result::VectorResult;
use crate::vector_trees::{tree_under, whole_hash};
use mls_check::{TreeFault, validate_tree};
use mls_hash::{SubtreeHashes, Suite};
use mls_nodes::{Extensions, GroupContext};
use mls_tree::{HashValue, PublicTree, TreeError};
use mls_wire::Opaque;
use serde_json::Value;
use std::alloc::{AllocError, Global};

/// Returns whether values are these numbers.
fn are_numbers(values: &[Value], numbers: &[u32]) -> bool
    ensures { result ≡ trees.are_numbers numbers.now (items_view values.now) }
{
    let mut values = values;
    let mut numbers = numbers;
    while let Some((value, more)) = values.split_first() {
        let Some((number, others)) = numbers.split_first() else {
            return false;
        };
        if !is_number(value, u64::from(*number)) {
            return false;
        }
        values = more;
        numbers = others;
    }
    numbers.is_empty()
}

/// Returns whether an entry is an array of these numbers.
fn has_numbers(entry: &Value, numbers: &[u32]) -> bool
    ensures { result ≡ trees.has_numbers numbers.now (view entry.now) }
{
    match entry.as_array() {
        Some(values) => are_numbers(values.as_slice(), numbers),
        None => false,
    }
}

/// Returns whether an entry is the resolution of the node at a node index.
fn is_resolution(
    alloc: Global,
    tree: &PublicTree,
    node_index: u32,
    entry: &Value,
) -> Result<bool, AllocError>
    ensures { IfOk result
        (λ b. IsTrue b ↔ IsResolution tree.now.tree node_index (view entry.now)) }
{
    match tree.resolution(alloc, node_index) {
        Ok(node_indices) => Ok(has_numbers(entry, node_indices.as_slice())),
        Err(TreeError::NoSuchNode) => Ok(false),
        Err(_) => Err(AllocError),
    }
}

/// Returns whether the entries are the resolutions of all nodes.
fn are_resolutions(alloc: Global, tree: &PublicTree, entries: &[Value]) -> Result<bool, AllocError>
    ensures { IfOk result (λ b. IsTrue b
        ↔ AreEntries (IsResolution tree.now.tree) (leaf_count tree.now.tree) 0
        (items_view entries.now)) }
{
    if entries.len() + 1 != 2 * tree.leaf_count() as usize {
        return Ok(false);
    }
    let mut node_index = 0;
    let mut rest = entries;
    while let Some((entry, tail)) = rest.split_first() {
        if !is_resolution(alloc, tree, node_index, entry)? {
            return Ok(false);
        }
        rest = tail;
        node_index += 1;
    }
    Ok(true)
}

/// Returns whether the vector has the resolutions of all nodes.
fn has_resolutions(alloc: Global, tree: &PublicTree, vector: &Value) -> Result<bool, AllocError>
    ensures { IfOk result (λ b. IsTrue b
        ↔ HasEntries (IsResolution tree.now.tree) (leaf_count tree.now.tree)
        (codes "resolutions") (view vector.now)) }
{
    match array_under(vector, "resolutions") {
        Some(entries) => are_resolutions(alloc, tree, entries.as_slice()),
        None => Ok(false),
    }
}

/// Returns whether an entry is the cached tree hash at a node index.
fn is_kept_hash(
    alloc: Global,
    hashes: &SubtreeHashes<'_>,
    node_index: u32,
    entry: &Value,
) -> Result<bool, AllocError>
    ensures { IfOk result (λ b. IsTrue b ↔ IsKeptHash hashes.now node_index (view entry.now)) }
{
    match hashes.get(node_index) {
        Some(hash) => gives_bytes(alloc, entry, hash.as_slice()),
        None => Ok(false),
    }
}

/// Returns whether the entries are the cached tree hashes of all nodes.
fn are_kept_hashes(
    alloc: Global,
    leaves: u32,
    hashes: &SubtreeHashes<'_>,
    entries: &[Value],
) -> Result<bool, AllocError>
    requires { leaves ≤ leaf_limit }
    ensures { IfOk result (λ b. IsTrue b
        ↔ AreEntries (IsKeptHash hashes.now) leaves 0 (items_view entries.now)) }
{
    if entries.len() + 1 != 2 * leaves as usize {
        return Ok(false);
    }
    let mut node_index = 0;
    let mut rest = entries;
    while let Some((entry, tail)) = rest.split_first() {
        if !is_kept_hash(alloc, hashes, node_index, entry)? {
            return Ok(false);
        }
        rest = tail;
        node_index += 1;
    }
    Ok(true)
}

/// Returns whether the vector has the cached tree hashes of all nodes.
fn has_kept_hashes(
    alloc: Global,
    leaves: u32,
    hashes: &SubtreeHashes<'_>,
    vector: &Value,
) -> Result<bool, AllocError>
    requires { leaves ≤ leaf_limit }
    ensures { IfOk result (λ b. IsTrue b
        ↔ HasEntries (IsKeptHash hashes.now) leaves (codes "tree_hashes") (view vector.now)) }
{
    match array_under(vector, "tree_hashes") {
        Some(entries) => are_kept_hashes(alloc, leaves, hashes, entries.as_slice()),
        None => Ok(false),
    }
}

/// Returns whether the vector has the tree hashes of all subtrees.
fn has_tree_hashes(
    alloc: Global,
    suite: Suite,
    tree: &PublicTree,
    vector: &Value,
) -> Result<bool, AllocError>
    ensures { IfOk result (λ b. IsTrue b
        ↔ HasEntries (IsTreeHash (hash_of suite) tree.now.tree) (leaf_count tree.now.tree)
        (codes "tree_hashes") (view vector.now)) }
{
    let hashes = SubtreeHashes::new(alloc, suite, tree)?;
    has_kept_hashes(alloc, tree.leaf_count(), &hashes, vector)
}

/// Creates a GroupContext with a tree hash. Its other fields don't matter for the validity of a tree.
fn context_of(alloc: Global, suite: Suite, hash: &HashValue) -> Result<GroupContext, AllocError>
    ensures suite { IfOk result (λ c. c.cipher_suite ≡ suite) }
    ensures hash { IfOk result (λ c. c.tree_hash ≡ hash.now) }
{
    Ok(GroupContext {
        version: 1,
        cipher_suite: suite.number(),
        group_id: Opaque::new(Vec::new(alloc)).ok().unwrap(),
        epoch: 0,
        tree_hash: hash.to_opaque(alloc)?,
        confirmed: Opaque::new(Vec::new(alloc)).ok().unwrap(),
        extensions: Extensions::empty(),
    })
}

/// Returns whether a tree is valid in a GroupContext.
fn is_valid_in(
    alloc: Global,
    suite: Suite,
    context: &GroupContext,
    tree: &PublicTree,
) -> Result<bool, AllocError>
    requires { suite ≡ context.now.cipher_suite }
    ensures { IfOk result (λ b. IsTrue b
        ↔ Valid (hash_of suite) context.now.tree_hash tree.now.tree) }
{
    match validate_tree(alloc, suite, context, tree) {
        Ok(()) => Ok(true),
        Err(fault) => {
            if fault == TreeFault::OutOfMemory {
                Err(AllocError)
            } else {
                Ok(false)
            }
        }
    }
}

/// Returns whether a tree is valid with its own tree hash.
fn is_valid(alloc: Global, suite: Suite, tree: &PublicTree) -> Result<bool, AllocError>
    ensures { IfOk result (λ b. IsTrue b
        ↔ ((hash : List ℕ) × Valid (hash_of suite) hash tree.now.tree)) }
{
    let hash = whole_hash(suite, tree);
    let context = context_of(alloc, suite, &hash)?;
    is_valid_in(alloc, suite, &context, tree)
}

/// Returns the outcome, given the suite and the tree.
fn tree_outcome(
    alloc: Global,
    suite: Suite,
    tree: &PublicTree,
    vector: &Value,
) -> Result<VectorResult, AllocError>
    ensures { IfOk result (λ o.
        IsVectorResult (tree_checks (hash_of suite) tree.now.tree (view vector.now)) (outcome_of o)) }
{
    if !has_resolutions(alloc, tree, vector)? {
        return Ok(VectorResult::Fail("resolutions"));
    }
    if !has_tree_hashes(alloc, suite, tree, vector)? {
        return Ok(VectorResult::Fail("tree_hashes"));
    }
    if !is_valid(alloc, suite, tree)? {
        return Ok(VectorResult::Fail("valid"));
    }
    Ok(VectorResult::Pass)
}

/// Returns the outcome, given the suite.
fn suite_outcome(alloc: Global, suite: Suite, vector: &Value) -> Result<VectorResult, AllocError>
    requires { HasSuite (view vector.now) suite }
    ensures { IfOk result (λ o. IsTreeValidation (view vector.now) (outcome_of o)) }
{
    match tree_under(alloc, vector, "tree")? {
        Some(tree) => {
            let outcome = tree_outcome(alloc, suite, &tree, vector);
            drop(tree);
            outcome
        }
        None => Ok(VectorResult::Fail("tree")),
    }
}

/// Returns the outcome of a vector.
pub(crate) fn tree_validation_outcome(
    alloc: Global,
    vector: &Value,
) -> Result<VectorResult, AllocError>
    ensures { IfOk result
        (λ o. IsOutcomeUnlessSkipped IsTreeValidation (view vector.now) (outcome_of o)) }
{
    match suite_of(vector) {
        SuiteMember::Followed(suite) => suite_outcome(alloc, suite, vector),
        SuiteMember::Other => Ok(VectorResult::Skip),
        SuiteMember::Missing => Ok(VectorResult::Fail("cipher_suite")),
    }
}
