//! Vectors of the kind `tree-operations`: a tree before and after one proposal (RFC 9420, 12.1 and 12.3).

ghost use Rattle.std.specs.Prelude.{◌≡◌, ◌↔◌, ℕ, IsTrue, IfOk, IfSome, IfNone, codes, option_map};
ghost use Rattle.serde_json.specs.View.{view};
ghost use Rattle.mls_msgs.specs.declared.framed_content.Sender.{Sender};
ghost use Rattle.mls_tree.specs.PublicTreeModel.{plain};
ghost use Rattle.mls_nodes.specs.RatchetTreeEncoding.{ratchet_tree, trimmed};
ghost use Rattle.mls_tree.specs.Tree.{listing};
ghost use Rattle.mls_hash.specs.SuiteHash.{hash_of};
ghost use Rattle.mls_vectors.specs.CheckModel.{outcome_of, AppliesItem, FindsProposal, ReadsProposalOf};
ghost use Rattle.mls_vectors.specs.VectorResults.{IsVectorResult};
ghost use Rattle.mls_vectors.specs.TreeOperations.{HasProposal, HasSender, HasTreeBytes, HasTreeHash, IsTreeOperation, IsItemOutcome, after_checks};
ghost use Rattle.mls_vectors.specs.TreeValidation.{HasSuite, HasTreeUnder, IsOutcomeUnlessSkipped};

use crate::json_members::{bytes_under, has_bytes, whole_under};
use crate::suite::{SuiteMember, suite_of};
use crate::vector_result::VectorResult;
use crate::vector_trees::{tree_under, whole_hash};
use mls_apply::{Applied, ApplyFault, ListItem, apply_list};
use mls_hash::Suite;
use mls_msgs::{Proposal, Sender, decode_proposal};
use mls_nodes::{NodeFault, encode_ratchet_tree};
use mls_tree::PublicTree;
use mls_wire::CodecFault;
use serde_json::Value;
use std::alloc::{AllocError, Global};
use std::slice;

/// Decodes a proposal. `None` if the bytes are not decodable.
fn proposal_of(alloc: Global, bytes: &[u8]) -> Result<Option<Proposal>, AllocError>
    ensures { IfOk result (λ o. ReadsProposalOf bytes.now o) }
{
    match decode_proposal(alloc, bytes) {
        Ok(proposal) => Ok(Some(proposal)),
        Err(CodecFault::OutOfMemory) => Err(AllocError),
        Err(CodecFault::Wire(_)) => Ok(None),
    }
}

/// Returns the proposal of a vector. `None` if it is not decodable.
fn proposal_in(alloc: Global, vector: &Value) -> Result<Option<Proposal>, AllocError>
    ensures { IfOk result (λ o. FindsProposal (view vector.now) o) }
{
    match bytes_under(alloc, vector, "proposal")? {
        Some(bytes) => proposal_of(alloc, bytes.as_slice()),
        None => Ok(None),
    }
}

/// Returns the proposal's sender, who is a member. `None` if there is no such leaf index.
fn sender_in(vector: &Value) -> Option<Sender>
    ensures some { IfSome result (λ sender. HasSender (view vector.now) sender) }
    ensures none { IfNone result ((sender : Sender) → ¬ HasSender (view vector.now) sender) }
{
    let sender = whole_under(vector, "proposal_sender")?;
    if sender > u64::from(u32::MAX) {
        return None;
    }
    Some(Sender::Member(sender as u32))
}

/// Returns whether the tree hash of a tree is there under this name.
fn has_tree_hash(
    alloc: Global,
    suite: Suite,
    tree: &PublicTree,
    vector: &Value,
    name: &str,
) -> Result<bool, AllocError>
    ensures { IfOk result (λ b. IsTrue b
        ↔ HasTreeHash (hash_of suite) name.now tree.now.tree (view vector.now)) }
{
    let hash = whole_hash(suite, tree);
    has_bytes(alloc, vector, name, hash.as_slice())
}

/// Encodes a tree. `None` if all its nodes are blank: then it has no encoding.
fn encoding_of(alloc: Global, tree: &PublicTree) -> Result<Option<Vec<u8>>, AllocError>
    ensures { IfOk result (λ o.
        option_map (λ v. v.items) o ≡ ratchet_tree (trimmed (listing tree.now.tree))) }
{
    match encode_ratchet_tree(alloc, tree.nodes()) {
        Ok(bytes) => Ok(Some(bytes)),
        Err(fault) => match fault {
            NodeFault::OutOfMemory => Err(AllocError),
            _ => Ok(None),
        },
    }
}

/// Returns whether the encoding of a tree is there under this name.
fn has_tree_bytes(
    alloc: Global,
    tree: &PublicTree,
    vector: &Value,
    name: &str,
) -> Result<bool, AllocError>
    ensures { IfOk result (λ b. IsTrue b
        ↔ HasTreeBytes name.now tree.now.tree (view vector.now)) }
{
    match encoding_of(alloc, tree)? {
        Some(bytes) => has_bytes(alloc, vector, name, bytes.as_slice()),
        None => Ok(false),
    }
}

/// Returns the outcome of the checks of the tree after the proposal.
fn after_outcome(
    alloc: Global,
    suite: Suite,
    tree: &PublicTree,
    vector: &Value,
) -> Result<VectorResult, AllocError>
    ensures { IfOk result (λ o.
        IsVectorResult (after_checks (hash_of suite) tree.now.tree (view vector.now)) (outcome_of o)) }
{
    if !has_tree_bytes(alloc, tree, vector, "tree_after")? {
        return Ok(VectorResult::Fail("tree_after"));
    }
    if !has_tree_hash(alloc, suite, tree, vector, "tree_hash_after")? {
        return Ok(VectorResult::Fail("tree_hash_after"));
    }
    Ok(VectorResult::Pass)
}

/// The tree after one proposal. None if it can't be applied.
fn applied(
    alloc: Global,
    tree: &PublicTree,
    item: &ListItem<'_>,
) -> Result<Option<Applied>, AllocError>
    ensures { IfOk result (λ o. AppliesItem item.now tree.now.tree o) }
{
    match apply_list(alloc, tree, slice::from_ref(item)) {
        Ok(applied) => Ok(Some(applied)),
        Err(fault) => match fault {
            ApplyFault::OutOfMemory => Err(AllocError),
            _ => Ok(None),
        },
    }
}

/// Returns the outcome, given what the vector has.
fn item_outcome(
    alloc: Global,
    suite: Suite,
    tree: &PublicTree,
    item: &ListItem<'_>,
    vector: &Value,
) -> Result<VectorResult, AllocError>
    ensures { IfOk result (λ o.
        IsItemOutcome (hash_of suite) tree.now.tree item.now (view vector.now) (outcome_of o)) }
{
    if !has_tree_hash(alloc, suite, tree, vector, "tree_hash_before")? {
        return Ok(VectorResult::Fail("tree_hash_before"));
    }
    match applied(alloc, tree, item)? {
        Some(after) => {
            let outcome = after_outcome(alloc, suite, &after.tree, vector);
            drop(after);
            outcome
        }
        None => Ok(VectorResult::Fail("apply")),
    }
}

/// Returns the outcome, given the suite, the tree and the proposal.
fn proposal_outcome(
    alloc: Global,
    suite: Suite,
    tree: &PublicTree,
    proposal: Proposal,
    vector: &Value,
) -> Result<VectorResult, AllocError>
    requires suite { HasSuite (view vector.now) suite }
    requires tree { HasTreeUnder (codes "tree_before") (view vector.now) (plain tree.now) }
    requires proposal { HasProposal (view vector.now) proposal }
    ensures { IfOk result (λ o. IsTreeOperation (view vector.now) (outcome_of o)) }
{
    match sender_in(vector) {
        Some(sender) => {
            let item = ListItem::new(sender, &proposal);
            let outcome = item_outcome(alloc, suite, tree, &item, vector);
            drop(proposal);
            outcome
        }
        None => {
            drop(proposal);
            Ok(VectorResult::Fail("proposal_sender"))
        }
    }
}

/// Returns the outcome, given the suite and the tree.
fn tree_outcome(
    alloc: Global,
    suite: Suite,
    tree: &PublicTree,
    vector: &Value,
) -> Result<VectorResult, AllocError>
    requires suite { HasSuite (view vector.now) suite }
    requires tree { HasTreeUnder (codes "tree_before") (view vector.now) (plain tree.now) }
    ensures { IfOk result (λ o. IsTreeOperation (view vector.now) (outcome_of o)) }
{
    match proposal_in(alloc, vector)? {
        Some(proposal) => proposal_outcome(alloc, suite, tree, proposal, vector),
        None => Ok(VectorResult::Fail("proposal")),
    }
}

/// Returns the outcome, given the suite.
fn suite_outcome(alloc: Global, suite: Suite, vector: &Value) -> Result<VectorResult, AllocError>
    requires { HasSuite (view vector.now) suite }
    ensures { IfOk result (λ o. IsTreeOperation (view vector.now) (outcome_of o)) }
{
    match tree_under(alloc, vector, "tree_before")? {
        Some(tree) => {
            let outcome = tree_outcome(alloc, suite, &tree, vector);
            drop(tree);
            outcome
        }
        None => Ok(VectorResult::Fail("tree_before")),
    }
}

/// Returns the outcome of a vector.
pub(crate) fn tree_operations_outcome(
    alloc: Global,
    vector: &Value,
) -> Result<VectorResult, AllocError>
    ensures { IfOk result
        (λ o. IsOutcomeUnlessSkipped IsTreeOperation (view vector.now) (outcome_of o)) }
{
    match suite_of(vector) {
        SuiteMember::Followed(suite) => suite_outcome(alloc, suite, vector),
        SuiteMember::Other => Ok(VectorResult::Skip),
        SuiteMember::Missing => Ok(VectorResult::Fail("cipher_suite")),
    }
}
