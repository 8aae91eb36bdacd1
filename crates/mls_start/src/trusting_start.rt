//! A start or a resumption in which every signature is good, and its signatures.

ghost use Rattle.std.specs.Prelude.{◌≡◌, List, ℕ, Option, None, ◌++◌, IfOk, IfErr, option_map};
ghost use Rattle.mls_tree.specs.PublicTreeModel.{plain};
ghost use Rattle.mls_msgs.specs.declared.rules.Rules.{Rules};
ghost use Rattle.mls_follow.specs.CoveredLogs.{all_good};
ghost use Rattle.mls_follow.specs.FollowerModel.{state_of};
ghost use Rattle.mls_start.specs.Inputs.{OfInfo, OfState};
ghost use Rattle.mls_start.specs.SignaturesLeft.{signatures_left};
ghost use Rattle.mls_start.specs.StartFailures.{Says};
ghost use Rattle.mls_start.specs.StartFindings.{IsReadAs, IsResumedWith, Declines};
ghost use Rattle.mls_start.specs.StartSignatures.{StartsWith};
ghost use Rattle.mls_start.specs.StartSteps.{AreInfoSignatures};

use crate::read_inputs::{ReadInputs, StartMode, read_inputs, start_decoded};
use crate::signatures_left::SignaturesLeft;
use crate::start_bytes::{StartFailure, resume_from};
use mls_check::{OutOfMemory, Trusting};
use mls_follow::{Follower, StartFault, tree_in};
use mls_msgs::{GroupInfo, Rules};
use mls_signatures::{SignatureToVerify, info_signatures, resumption_signatures};
use mls_tree::PublicTree;
use std::alloc::Global;

/// A follower that has started or resumed and accepts every signature, and the signatures to verify of that.
#[derive(Drop)]
pub struct TrustingStart {
    pub follower: Follower<Trusting>,
    pub signatures: SignaturesLeft,
}

/// Returns the signature of a GroupInfo, by the tree in it. The list is empty if it has none.
fn own_info_signatures(
    alloc: Global,
    info: &GroupInfo,
) -> Result<Vec<SignatureToVerify>, OutOfMemory>
    ensures { IfOk result (λ v. AreInfoSignatures info.now None v.items) }
{
    match tree_in(alloc, info) {
        Ok(tree) => {
            let signatures = info_signatures(alloc, info, &tree);
            drop(tree);
            signatures
        }
        Err(StartFault::OutOfMemory) => Err(OutOfMemory),
        Err(_) => Ok(Vec::new(alloc)),
    }
}

/// Returns the signature of a GroupInfo, by the given tree, otherwise by the one in it. The list is empty if what is signed
/// has no encoding.
fn used_info_signatures(
    alloc: Global,
    inputs: &ReadInputs,
) -> Result<Vec<SignatureToVerify>, OutOfMemory>
    ensures { IfOk result (λ v. AreInfoSignatures inputs.now.info (option_map plain inputs.now.tree) v.items) }
{
    match &inputs.tree {
        Some(tree) => info_signatures(alloc, &inputs.info, tree),
        None => own_info_signatures(alloc, &inputs.info),
    }
}

/// Starts a follower that accepts every signature. `info_signatures` is that of the GroupInfo.
fn start_with(
    alloc: Global,
    mode: StartMode,
    inputs: ReadInputs,
    info_signatures: Vec<SignatureToVerify>,
) -> Result<TrustingStart, StartFailure>
    requires { AreInfoSignatures inputs.info (option_map plain inputs.tree) info_signatures.items }
    ensures starts { (info_bytes : List ℕ) (tree_bytes : Option (List ℕ))
        → IsReadAs mode.profile info_bytes tree_bytes inputs.info (option_map plain inputs.tree)
        → IfOk result (λ start. StartsWith (OfInfo mode.rules mode.profile info_bytes tree_bytes) (state_of start.follower)
        (signatures_left (state_of start.follower) start.signatures)) }
    ensures refused { (info_bytes : List ℕ) (tree_bytes : Option (List ℕ))
        → IsReadAs mode.profile info_bytes tree_bytes inputs.info (option_map plain inputs.tree)
        → IfErr result (Says (Declines all_good (OfInfo mode.rules mode.profile info_bytes tree_bytes))) }
{
    match start_decoded(alloc, mode, inputs, Trusting) {
        Ok(follower) => Ok(TrustingStart {
            follower,
            signatures: SignaturesLeft::Start {
                made: info_signatures,
                leaf: 0,
            },
        }),
        Err(failure) => {
            drop(info_signatures);
            Err(failure)
        }
    }
}

/// Starts a follower that accepts every signature from decoded inputs.
fn trust_decoded(
    alloc: Global,
    mode: StartMode,
    inputs: ReadInputs,
) -> Result<TrustingStart, StartFailure>
    ensures starts { (info_bytes : List ℕ) (tree_bytes : Option (List ℕ))
        → IsReadAs mode.profile info_bytes tree_bytes inputs.info (option_map plain inputs.tree)
        → IfOk result (λ start. StartsWith (OfInfo mode.rules mode.profile info_bytes tree_bytes) (state_of start.follower)
        (signatures_left (state_of start.follower) start.signatures)) }
    ensures refused { (info_bytes : List ℕ) (tree_bytes : Option (List ℕ))
        → IsReadAs mode.profile info_bytes tree_bytes inputs.info (option_map plain inputs.tree)
        → IfErr result (Says (Declines all_good (OfInfo mode.rules mode.profile info_bytes tree_bytes))) }
{
    match used_info_signatures(alloc, &inputs) {
        Ok(signatures) => start_with(alloc, mode, inputs, signatures),
        Err(OutOfMemory) => {
            drop(inputs);
            Err(StartFailure::OutOfMemory)
        }
    }
}

/// Starts a follower that accepts every signature (RFC 9420, 12.4.3.1). The signatures are that of the
/// GroupInfo, and those of the follower's leaves from left to right.
pub(crate) fn trusting_start(
    alloc: Global,
    mode: StartMode,
    info: Vec<u8>,
    tree: Option<Vec<u8>>,
) -> Result<TrustingStart, StartFailure>
    ensures starts { IfOk result (λ start.
        StartsWith (OfInfo mode.rules mode.profile info.items (option_map (λ v. v.items) tree)) (state_of start.follower)
        (signatures_left (state_of start.follower) start.signatures)) }
    ensures refused { IfErr result
        (Says (Declines all_good (OfInfo mode.rules mode.profile info.items (option_map (λ v. v.items) tree)))) }
{
    match read_inputs(alloc, mode.profile, info, tree) {
        Ok(inputs) => trust_decoded(alloc, mode, inputs),
        Err(failure) => Err(failure),
    }
}

/// Returns a follower that has resumed, with the signatures of the resumption.
fn with_signatures(
    alloc: Global,
    follower: Follower<Trusting>,
) -> Result<TrustingStart, StartFailure>
    ensures starts { (asked : Rules) (bytes : List ℕ) → IsResumedWith asked all_good bytes (state_of follower)
        → IfOk result (λ start. StartsWith (OfState asked bytes) (state_of start.follower)
        (signatures_left (state_of start.follower) start.signatures)) }
    ensures memory { IfErr result (λ failure. failure ≡ StartFailure.OutOfMemory) }
{
    let (context, tree, known) = (follower.context(), follower.tree(), follower.known());
    match resumption_signatures(alloc, context, tree, known) {
        Ok(list) => Ok(TrustingStart {
            follower,
            signatures: SignaturesLeft::of_list(list),
        }),
        Err(_) => {
            drop(follower);
            Err(StartFailure::OutOfMemory)
        }
    }
}

/// Resumes a follower that accepts every signature from the bytes of a state's file, and adds strict rules to those of the
/// state.
pub(crate) fn trusting_resumption(
    alloc: Global,
    rules: Rules,
    bytes: Vec<u8>,
) -> Result<TrustingStart, StartFailure>
    ensures starts { IfOk result (λ start. StartsWith (OfState rules bytes.items) (state_of start.follower)
        (signatures_left (state_of start.follower) start.signatures)) }
    ensures refused { IfErr result (Says (Declines all_good (OfState rules bytes.items))) }
{
    match resume_from(alloc, rules, bytes, Trusting) {
        Ok(follower) => with_signatures(alloc, follower),
        Err(failure) => Err(failure),
    }
}
