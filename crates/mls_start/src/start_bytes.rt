//! What a group is followed from, and the follower that it leads to.

ghost use Rattle.std.specs.Prelude.{◌≡◌, ◌≢◌, IfOk, IfErr, option_map};
ghost use Rattle.mls_follow.specs.AddedRules.{HasAddedRules};
ghost use Rattle.mls_follow.specs.CoveredLogs.{all_good};
ghost use Rattle.mls_follow.specs.FollowerModel.{checker_of, state_of};
ghost use Rattle.mls_start.specs.Inputs.{inputs_of, OfInfo, OfState};
ghost use Rattle.mls_start.specs.StartFailures.{Says};
ghost use Rattle.mls_start.specs.StartFindings.{IsFindingOf, IsFirstState, Declines};
ghost use Rattle.mls_start.specs.StartSignatures.{StartsWith};
ghost use Rattle.mls_start.specs.SignaturesLeft.{signatures_left};
ghost use Rattle.mls_start.specs.StartSteps.{IsNotStrict};

use crate::finding::{Finding, started_by};
use crate::read_inputs::{StartMode, start_from};
use crate::trusting_start::{TrustingStart, trusting_resumption, trusting_start};
use mls_check::{OutOfMemory, SignatureCheck};
use mls_follow::{Follower, ResumeFault, StrictRefused};
use mls_msgs::{Profile, Rules};
use mls_wire::TryClone;
use std::alloc::{AllocError, Global};

/// What a group is followed from, as bytes. Contracts read it as `inputs_of`.
#[derive(Drop)]
pub enum StartBytes {
    /// A GroupInfo (RFC 9420, 12.4.3), and the ratchet tree if it is passed apart from it (12.4.3.3). The group is followed in
    /// `profile`, and with the strict rules `rules`.
    Info {
        rules: Rules,
        profile: Profile,
        info: Vec<u8>,
        tree: Option<Vec<u8>>,
    },
    /// The file of a state, to whose strict rules `rules` are added.
    State {
        rules: Rules,
        bytes: Vec<u8>,
    },
}

/// Why no follower has started or resumed.
#[derive(Clone, Copy)]
pub enum StartFailure {
    /// The first cause: the inputs are not good.
    Found(Finding),
    /// An allocation failed.
    OutOfMemory,
}

/// Returns why no follower has resumed.
fn resume_failure(fault: ResumeFault) -> StartFailure
    ensures { Says (λ finding. (fault ≢ ResumeFault.OutOfMemory)
        × (finding ≡ Finding.StateRefused fault)) result }
{
    match fault {
        ResumeFault::OutOfMemory => StartFailure::OutOfMemory,
        _ => StartFailure::Found(Finding::StateRefused(fault)),
    }
}

/// Returns why the strict rules cannot be added to those of a follower that has resumed.
fn added_failure(refused: StrictRefused) -> StartFailure
    ensures { Says (λ finding. (refused ≢ StrictRefused.OutOfMemory)
        × (finding ≡ Finding.StateNotStrict refused)) result }
{
    match refused {
        StrictRefused::OutOfMemory => StartFailure::OutOfMemory,
        _ => StartFailure::Found(Finding::StateNotStrict(refused)),
    }
}

/// Adds strict rules to those of a follower that has resumed from these bytes.
fn with_rules<C: SignatureCheck>(
    rules: Rules,
    follower: Follower<C>,
) -> Result<Follower<C>, StartFailure>
    ensures added { IfOk result (λ f. HasAddedRules rules (state_of follower) (state_of f)) }
    ensures checker { IfOk result (λ f. C.meaning (checker_of f) ≡ C.meaning (checker_of follower)) }
    ensures refused { IfErr result (Says (IsNotStrict rules (state_of follower))) }
{
    let mut follower = follower;
    match follower.make_strict(rules) {
        Ok(()) => Ok(follower),
        Err(refused) => {
            drop(follower);
            Err(added_failure(refused))
        }
    }
}

/// Resumes a follower from the bytes of a state's file, and adds strict rules to those of the state.
pub(crate) fn resume_from<C: SignatureCheck>(
    alloc: Global,
    rules: Rules,
    bytes: Vec<u8>,
    checker: C,
) -> Result<Follower<C>, StartFailure>
    ensures resumed { IfOk result (λ f. IsFirstState (C.meaning checker) (OfState rules bytes.items) (state_of f)) }
    ensures checker { IfOk result (λ f. C.meaning (checker_of f) ≡ C.meaning checker) }
    ensures refused { IfErr result (Says (Declines (C.meaning checker) (OfState rules bytes.items))) }
{
    match Follower::resume(alloc, bytes, checker) {
        Ok(follower) => with_rules(rules, follower),
        Err(refused) => {
            let fault = refused.fault;
            drop(refused);
            Err(resume_failure(fault))
        }
    }
}

/// Returns a copy of bytes, if there are some.
fn copy_of(alloc: Global, bytes: &Option<Vec<u8>>) -> Result<Option<Vec<u8>>, AllocError>
    ensures { IfOk result (λ copy. option_map (λ v. v.items) copy ≡ option_map (λ v. v.items) bytes.now) }
{
    match bytes {
        Some(bytes) => Ok(Some(bytes.clone()?)),
        None => Ok(None),
    }
}

impl StartBytes {
    /// Starts or resumes a follower from these bytes.
    ///
    /// # Errors
    ///
    /// - `Found` if none starts or resumes. From a GroupInfo: it, or after it the tree, is not decodable, or the message is not
    ///   a GroupInfo; then the first condition of [`Follower::start_by`] that fails. From the file of a state: the first
    ///   condition of [`Follower::resume`] that fails; then why [`Follower::make_strict`] cannot add the strict rules.
    /// - `OutOfMemory`.
    pub fn follower<C: SignatureCheck>(
        self,
        alloc: Global,
        checker: C,
    ) -> Result<Follower<C>, StartFailure>
        ensures first { IfOk result
            (λ f. IsFirstState (C.meaning checker) (inputs_of self) (state_of f)) }
        ensures checker { IfOk result (λ f. C.meaning (checker_of f) ≡ C.meaning checker) }
        ensures refused { IfErr result (Says (Declines (C.meaning checker) (inputs_of self))) }
    {
        match self {
            StartBytes::Info {
                rules,
                profile,
                info,
                tree,
            } => start_from(alloc, StartMode { rules, profile }, info, tree, checker),
            StartBytes::State { rules, bytes } => resume_from(alloc, rules, bytes, checker),
        }
    }

    /// Starts or resumes a follower that accepts every signature from these bytes. The signatures to verify of the start
    /// ([`mls_signatures::start_signatures`]) or of the resumption ([`mls_signatures::resumption_signatures`]) come with it.
    ///
    /// # Errors
    ///
    /// Those of [`StartBytes::follower`], every signature being good.
    pub fn trusting(self, alloc: Global) -> Result<TrustingStart, StartFailure>
        ensures starts { IfOk result (λ start. StartsWith (inputs_of self) (state_of start.follower)
            (signatures_left (state_of start.follower) start.signatures)) }
        ensures refused { IfErr result (Says (Declines all_good (inputs_of self))) }
    {
        match self {
            StartBytes::Info {
                rules,
                profile,
                info,
                tree,
            } => trusting_start(alloc, StartMode { rules, profile }, info, tree),
            StartBytes::State { rules, bytes } => trusting_resumption(alloc, rules, bytes),
        }
    }

    /// Returns the finding about these bytes: that a follower starts or resumes, or the first cause for which none does.
    ///
    /// # Errors
    ///
    /// [`OutOfMemory`].
    #[tactic(auto, using(crate::proofs::Hashes::length_first))]
    pub fn finding<C: SignatureCheck>(
        self,
        alloc: Global,
        checker: C,
    ) -> Result<Finding, OutOfMemory>
        ensures { IfOk result (IsFindingOf (C.meaning checker) (inputs_of self)) }
    {
        match self.follower(alloc, checker) {
            Ok(follower) => {
                let finding = started_by(&follower);
                drop(follower);
                Ok(finding)
            }
            Err(StartFailure::Found(finding)) => Ok(finding),
            Err(StartFailure::OutOfMemory) => Err(OutOfMemory),
        }
    }

    /// Returns a copy of the bytes.
    ///
    /// # Errors
    ///
    /// `AllocError`.
    pub fn try_clone(&self, alloc: Global) -> Result<StartBytes, AllocError>
        ensures { IfOk result (λ copy. inputs_of copy ≡ inputs_of self.now) }
    {
        match self {
            StartBytes::Info {
                rules,
                profile,
                info,
                tree,
            } => {
                let info = info.clone()?;
                match copy_of(alloc, tree) {
                    Ok(tree) => Ok(StartBytes::Info {
                        rules: *rules,
                        profile: *profile,
                        info,
                        tree,
                    }),
                    Err(fault) => {
                        drop(info);
                        Err(fault)
                    }
                }
            }
            StartBytes::State { rules, bytes } => Ok(StartBytes::State {
                rules: *rules,
                bytes: bytes.clone()?,
            }),
        }
    }
}
