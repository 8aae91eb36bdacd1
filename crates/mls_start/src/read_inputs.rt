//! A GroupInfo and a tree are decoded, and a follower starts from them.

ghost use Rattle.std.specs.Prelude.{◌≡◌, ◌≢◌, List, ℕ, Option, IfOk, IfErr, option_map};
ghost use Rattle.mls_tree.specs.PublicTreeModel.{plain};
ghost use Rattle.mls_follow.specs.FollowerModel.{checker_of, state_of};
ghost use Rattle.mls_follow.specs.Start.{IsStart};
ghost use Rattle.mls_start.specs.Inputs.{OfInfo};
ghost use Rattle.mls_start.specs.StartFailures.{Says};
ghost use Rattle.mls_start.specs.StartFindings.{IsInfo, IsSupplied, IsSuppliedUnread, IsReadAs, IsFirstState, Declines};
ghost use Rattle.mls_start.specs.StartSteps.{IsUnread};

use crate::finding::Finding;
use crate::start_bytes::StartFailure;
use mls_check::SignatureCheck;
use mls_follow::{Follower, StartFault};
use mls_hash::{Suite, decode_with_leaf_hashes};
use mls_msgs::{GroupInfo, Message, Profile, Rules, decode_message_in};
use mls_nodes::NodeFault;
use mls_tree::PublicTree;
use mls_wire::CodecFault;
use std::alloc::Global;

/// How a group is followed from a GroupInfo: with these strict rules, in this profile.
#[derive(Clone, Copy)]
pub(crate) struct StartMode {
    pub(crate) rules: Rules,
    pub(crate) profile: Profile,
}

/// Decodes the GroupInfo in `profile`.
fn read_info(alloc: Global, profile: Profile, bytes: &[u8]) -> Result<GroupInfo, StartFailure>
    ensures info { IfOk result (IsInfo profile bytes.now) }
    ensures unread { (tree_bytes : Option (List ℕ))
        → IfErr result (Says (IsUnread profile bytes.now tree_bytes)) }
{
    match decode_message_in(alloc, profile, bytes) {
        Ok(Message::GroupInfo(info)) => Ok(info),
        Ok(other) => {
            drop(other);
            Err(StartFailure::Found(Finding::NotGroupInfo))
        }
        Err(CodecFault::OutOfMemory) => Err(StartFailure::OutOfMemory),
        Err(CodecFault::Wire(fault)) => Err(StartFailure::Found(Finding::InfoUnreadable(fault))),
    }
}

/// Decodes the tree, if one is passed. If the suite with this number is supported, the leaves have their tree hashes in a
/// cache.
fn read_tree(
    alloc: Global,
    suite: u16,
    bytes: Option<Vec<u8>>,
) -> Result<Option<PublicTree>, NodeFault>
    ensures tree { IfOk result (λ t.
        IsSupplied (option_map (λ v. v.items) bytes) (option_map plain t)) }
    ensures unread { IfErr result (λ fault. fault ≢ NodeFault.OutOfMemory
        → IsSuppliedUnread (option_map (λ v. v.items) bytes)) }
{
    match bytes {
        Some(bytes) => match Suite::from_u16(suite) {
            Ok(suite) => Ok(Some(decode_with_leaf_hashes(alloc, suite, bytes)?)),
            Err(_) => Ok(Some(PublicTree::decode(alloc, bytes.as_slice())?)),
        },
        None => Ok(None),
    }
}

/// A decoded GroupInfo, and the tree if one is passed.
#[derive(Drop)]
pub(crate) struct ReadInputs {
    pub(crate) info: GroupInfo,
    pub(crate) tree: Option<PublicTree>,
}

/// Decodes the GroupInfo (RFC 9420, 12.4.3) in `profile`, and the tree if one is passed (12.4.3.3). The leaf nodes share the
/// bytes of the tree. If the cipher suite of the GroupInfo is supported, the tree has a hash cache with the tree hashes of
/// its leaves.
pub(crate) fn read_inputs(
    alloc: Global,
    profile: Profile,
    info_bytes: Vec<u8>,
    tree_bytes: Option<Vec<u8>>,
) -> Result<ReadInputs, StartFailure>
    ensures read { IfOk result
        (λ inputs. IsReadAs profile info_bytes.items (option_map (λ v. v.items) tree_bytes)
        inputs.info (option_map plain inputs.tree)) }
    ensures unread { IfErr result
        (Says (IsUnread profile info_bytes.items (option_map (λ v. v.items) tree_bytes))) }
{
    let info = match read_info(alloc, profile, info_bytes.as_slice()) {
        Ok(info) => info,
        Err(failure) => return Err(failure),
    };
    drop(info_bytes);
    match read_tree(alloc, info.context.cipher_suite, tree_bytes) {
        Ok(tree) => Ok(ReadInputs { info, tree }),
        Err(fault) => {
            drop(info);
            match fault {
                NodeFault::OutOfMemory => Err(StartFailure::OutOfMemory),
                _ => Err(StartFailure::Found(Finding::TreeUnreadable(fault))),
            }
        }
    }
}

/// Returns why no follower has started.
pub(crate) fn start_failure(fault: StartFault) -> StartFailure
    ensures { Says (λ finding. (fault ≢ StartFault.OutOfMemory)
        × (finding ≡ Finding.StartRefused fault)) result }
{
    match fault {
        StartFault::OutOfMemory => StartFailure::OutOfMemory,
        _ => StartFailure::Found(Finding::StartRefused(fault)),
    }
}

/// Starts a follower from the decoded inputs.
#[tactic(auto, using(crate::proofs::Starting::says_declines))]
pub(crate) fn start_decoded<C: SignatureCheck>(
    alloc: Global,
    mode: StartMode,
    inputs: ReadInputs,
    checker: C,
) -> Result<Follower<C>, StartFailure>
    ensures started { IfOk result (λ f. IsStart mode.rules mode.profile (C.meaning checker) inputs.info
        (option_map plain inputs.tree) (state_of f)) }
    ensures checker { IfOk result (λ f. C.meaning (checker_of f) ≡ C.meaning checker) }
    ensures refused { (info_bytes : List ℕ) (tree_bytes : Option (List ℕ))
        → IsReadAs mode.profile info_bytes tree_bytes inputs.info (option_map plain inputs.tree)
        → IfErr result (Says (Declines (C.meaning checker)
        (OfInfo mode.rules mode.profile info_bytes tree_bytes))) }
{
    let (rules, profile) = (mode.rules, mode.profile);
    match Follower::start_by(alloc, rules, profile, inputs.info, inputs.tree, checker) {
        Ok(follower) => Ok(follower),
        Err(refused) => {
            let fault = refused.fault;
            drop(refused);
            Err(start_failure(fault))
        }
    }
}

/// Starts a follower from the bytes of a GroupInfo, and of a tree if one is passed.
pub(crate) fn start_from<C: SignatureCheck>(
    alloc: Global,
    mode: StartMode,
    info: Vec<u8>,
    tree: Option<Vec<u8>>,
    checker: C,
) -> Result<Follower<C>, StartFailure>
    ensures started { IfOk result (λ f. IsFirstState (C.meaning checker)
        (OfInfo mode.rules mode.profile info.items (option_map (λ v. v.items) tree)) (state_of f)) }
    ensures checker { IfOk result (λ f. C.meaning (checker_of f) ≡ C.meaning checker) }
    ensures refused { IfErr result (Says (Declines (C.meaning checker)
        (OfInfo mode.rules mode.profile info.items (option_map (λ v. v.items) tree)))) }
{
    match read_inputs(alloc, mode.profile, info, tree) {
        Ok(inputs) => start_decoded(alloc, mode, inputs, checker),
        Err(failure) => Err(failure),
    }
}
