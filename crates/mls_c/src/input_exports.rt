//! The calls that start and resume a follower, and list the signatures of a start or a resumption, for a caller in another
//! language.

ghost use Rattle.std.specs.Prelude.{◌≡◌, ◌↔◌, ◌⊎◌, List, ℕ, Option, Some, None, true, IfOk, IfErr};
ghost use Rattle.mls_check.specs.Receipts.{listed};
ghost use Rattle.mls_msgs.specs.Rules.{plain_rules};
ghost use Rattle.mls_msgs.specs.declared.profile.Profile.{Profile};
ghost use Rattle.mls_msgs.specs.declared.profile.Profile.TheVariants.{Members};
ghost use Rattle.mls_msgs.specs.declared.rules.Rules.{Rules};
ghost use Rattle.mls_follow.specs.CoveredLogs.{all_good};
ghost use Rattle.mls_start.specs.Inputs.{inputs_of, OfInfo, OfState};
ghost use Rattle.mls_start.specs.StartFailures.{Says};
ghost use Rattle.mls_start.specs.StartFindings.{Declines};
ghost use Rattle.mls_c.specs.Followers.{AreWhole, good_by};
ghost use Rattle.mls_c.specs.Numbers as numbers;
ghost use Rattle.mls_c.specs.Numbers.{bad_receipts, unsupported_profile, unsupported_rules, EncodesRules, EncodesNoRules};
ghost use Rattle.mls_c.specs.Starts.{passed, RunsOut, ListsStart, QueriesStart, Starts};

use crate::buffer::put_sized;
use crate::follower_handle::FollowerHandle;
use crate::group_follower::GroupFollower;
use crate::input_verdict::{
    InputVerdict, OTHER_PROFILE, OUT_OF_MEMORY, UNSUPPORTED_PROFILE, UNSUPPORTED_RULES,
    plain_verdict, verdict_of,
};
use crate::query::query_records;
use crate::receipts::receipts_in;
use crate::start_copies::{info_copy, state_copy};
use mls_check::{OutOfMemory, Receipts, SignatureCheck};
use mls_follow::Follower;
use mls_msgs::{Profile, Rules};
use mls_start::{StartBytes, StartFailure, TrustingStart};
use std::alloc::Global;

/// Returns the profile with this number.
fn profile_with_number(number: u32) -> Option<Profile>
    ensures { result ≡ numbers.profile_with_number number }
{
    match number {
        1 => Some(Profile::Members),
        2 => Some(Profile::Full),
        _ => None,
    }
}

/// Returns whether the profiles are equal.
fn are_equal(profile: Profile, other: Profile) -> bool
    ensures { (result ≡ true) ↔ (profile ≡ other) }
{
    match (profile, other) {
        (Profile::Members, Profile::Members) => true,
        (Profile::Full, Profile::Full) => true,
        _ => false,
    }
}

/// Returns the records of the signatures of a start or a resumption that the checker does not accept, if a follower starts or
/// resumes, each signature being good.
fn start_records<C: SignatureCheck>(
    alloc: Global,
    start: StartBytes,
    checker: &C,
) -> Result<Vec<u8>, StartFailure>
    ensures records { IfOk result (λ v. ListsStart (C.meaning checker.now) (inputs_of start) v.items) }
    ensures refused { IfErr result (Says (Declines all_good (inputs_of start))) }
{
    let start = match start.trusting(alloc) {
        Ok(start) => start,
        Err(failure) => return Err(failure),
    };
    let TrustingStart {
        follower,
        signatures,
    } = start;
    let records = query_records(alloc, signatures, &follower, checker);
    drop(follower);
    match records {
        Ok(records) => Ok(records),
        Err(OutOfMemory) => Err(StartFailure::OutOfMemory),
    }
}

/// Puts the records of the signatures of a start or a resumption that the checker does not accept into a buffer.
fn put_start_records<C: SignatureCheck>(
    alloc: Global,
    start: StartBytes,
    checker: &C,
    records: &mut [u8],
    needed: &mut usize,
) -> InputVerdict
    requires { needed.old ≡ 0 }
    ensures { QueriesStart (C.meaning checker.now) (inputs_of start) records.old records.new
        needed.new result }
{
    match start_records(alloc, start, checker) {
        Ok(list) => plain_verdict(put_sized(list.as_slice(), records, needed)),
        Err(StartFailure::Found(finding)) => verdict_of(finding),
        Err(StartFailure::OutOfMemory) => plain_verdict(OUT_OF_MEMORY),
    }
}

/// Puts the records of the signatures of a start (RFC 9420, 12.4.3.1) that have no receipt into the buffer `records`, if a
/// follower can start from the GroupInfo and the tree once each of them is good. If `tree` is empty, the tree is the one
/// in the GroupInfo.
#[unsafe(no_mangle)]
pub extern "C" fn mls_start_query(
    alloc: Global,
    info: &[u8],
    tree: &[u8],
    receipts: &[u8],
    records: &mut [u8],
    needed: &mut usize,
) -> InputVerdict
    ensures not_whole { (AreWhole receipts.now → ⊥) → (result ≡ numbers.plain_verdict bad_receipts)
        × (records.new ≡ records.old) × (needed.new ≡ 0) }
    ensures queries { AreWhole receipts.now → QueriesStart (good_by receipts.now)
        (OfInfo plain_rules Members info.now (passed tree.now)) records.old records.new needed.new result }
{
    *needed = 0;
    let receipts = match receipts_in(alloc, receipts) {
        Ok(receipts) => receipts,
        Err(verdict) => return verdict,
    };
    match info_copy(alloc, Rules::plain(), Profile::Members, info, tree) {
        Ok(start) => put_start_records(alloc, start, &receipts, records, needed),
        Err(_) => plain_verdict(OUT_OF_MEMORY),
    }
}

/// Puts the records of the signatures of a resumption (own rule) that have no receipt into the buffer `records`, if a follower
/// can resume from the file of a state once each of them is good. The file names the profile and the strict rules.
#[unsafe(no_mangle)]
pub extern "C" fn mls_resume_query(
    alloc: Global,
    state: &[u8],
    receipts: &[u8],
    records: &mut [u8],
    needed: &mut usize,
) -> InputVerdict
    ensures not_whole { (AreWhole receipts.now → ⊥) → (result ≡ numbers.plain_verdict bad_receipts)
        × (records.new ≡ records.old) × (needed.new ≡ 0) }
    ensures queries { AreWhole receipts.now → QueriesStart (good_by receipts.now)
        (OfState plain_rules state.now) records.old records.new needed.new result }
{
    *needed = 0;
    let receipts = match receipts_in(alloc, receipts) {
        Ok(receipts) => receipts,
        Err(verdict) => return verdict,
    };
    match state_copy(alloc, state) {
        Ok(start) => put_start_records(alloc, start, &receipts, records, needed),
        Err(_) => plain_verdict(OUT_OF_MEMORY),
    }
}

/// Puts a follower into a handle, and returns the verdict. What the handle had is dropped.
fn put_follower(
    alloc: Global,
    follower: Follower<Receipts>,
    handle: &mut FollowerHandle,
) -> InputVerdict
    ensures { ((result ≡ numbers.plain_verdict 0) × (handle.new.value ≡ Some (record { follower = follower })))
        ⊎ (RunsOut result × (handle.new.value ≡ handle.old.value)) }
{
    match Box::new(alloc, GroupFollower { follower }) {
        Ok(follower) => {
            handle.put(follower);
            plain_verdict(0)
        }
        Err(failed) => {
            drop(failed);
            plain_verdict(OUT_OF_MEMORY)
        }
    }
}

/// Starts or resumes a follower by these receipts, and puts it into a handle if it has this profile.
fn put_started(
    alloc: Global,
    profile: Profile,
    start: StartBytes,
    receipts: Receipts,
    handle: &mut FollowerHandle,
) -> InputVerdict
    requires { (asked : Rules) (own : Profile) (info : List ℕ) (tree : Option (List ℕ))
        → inputs_of start ≡ OfInfo asked own info tree → own ≡ profile }
    ensures { Starts profile (listed receipts) (inputs_of start) handle.old.value handle.new.value result }
{
    let follower = match start.follower(alloc, receipts) {
        Ok(follower) => follower,
        Err(StartFailure::Found(finding)) => return verdict_of(finding),
        Err(StartFailure::OutOfMemory) => return plain_verdict(OUT_OF_MEMORY),
    };
    if !are_equal(follower.profile(), profile) {
        drop(follower);
        return plain_verdict(OTHER_PROFILE);
    }
    put_follower(alloc, follower, handle)
}

/// Starts a follower with this profile and these strict rules from a GroupInfo and a tree, by the receipts in these bytes,
/// and puts it into the handle.
fn put_start(
    alloc: Global,
    rules: Rules,
    profile: Profile,
    info: &[u8],
    tree: &[u8],
    receipts: &[u8],
    handle: &mut FollowerHandle,
) -> InputVerdict
    ensures not_whole { (AreWhole receipts.now → ⊥) → (result ≡ numbers.plain_verdict bad_receipts)
        × (handle.new.value ≡ handle.old.value) }
    ensures starts { AreWhole receipts.now → Starts profile (good_by receipts.now)
        (OfInfo rules profile info.now (passed tree.now)) handle.old.value handle.new.value result }
{
    let receipts = match receipts_in(alloc, receipts) {
        Ok(receipts) => receipts,
        Err(verdict) => return verdict,
    };
    let Ok(start) = info_copy(alloc, rules, profile, info, tree) else {
        return plain_verdict(OUT_OF_MEMORY);
    };
    put_started(alloc, profile, start, receipts, handle)
}

/// Starts a follower with the profile of this number from a GroupInfo (RFC 9420, 12.4.3) and a tree, by these receipts, and
/// puts it into the handle. If `tree` is empty, the tree is the one in the GroupInfo. If none starts, the handle is
/// unchanged. The follower has no strict rules.
#[unsafe(no_mangle)]
pub extern "C" fn mls_follower_start(
    alloc: Global,
    info: &[u8],
    tree: &[u8],
    receipts: &[u8],
    profile: u32,
    follower: &mut FollowerHandle,
) -> InputVerdict
    ensures profile { numbers.profile_with_number profile ≡ None
        → (result ≡ numbers.plain_verdict unsupported_profile)
        × (follower.new.value ≡ follower.old.value) }
    ensures not_whole { (p : Profile) → numbers.profile_with_number profile ≡ Some p → (AreWhole receipts.now → ⊥)
        → (result ≡ numbers.plain_verdict bad_receipts) × (follower.new.value ≡ follower.old.value) }
    ensures starts { (p : Profile) → numbers.profile_with_number profile ≡ Some p → AreWhole receipts.now
        → Starts p (good_by receipts.now) (OfInfo plain_rules p info.now (passed tree.now))
        follower.old.value follower.new.value result }
{
    let Some(named) = profile_with_number(profile) else {
        return plain_verdict(UNSUPPORTED_PROFILE);
    };
    put_start(alloc, Rules::plain(), named, info, tree, receipts, follower)
}

/// Starts a follower as `mls_follower_start` does, with the set of strict rules (own rule) that the number `rules` encodes.
#[unsafe(no_mangle)]
pub extern "C" fn mls_follower_start_by(
    alloc: Global,
    info: &[u8],
    tree: &[u8],
    receipts: &[u8],
    profile: u32,
    rules: u16,
    follower: &mut FollowerHandle,
) -> InputVerdict
    ensures profile { numbers.profile_with_number profile ≡ None
        → (result ≡ numbers.plain_verdict unsupported_profile)
        × (follower.new.value ≡ follower.old.value) }
    ensures rules { (p : Profile) → numbers.profile_with_number profile ≡ Some p → EncodesNoRules rules
        → (result ≡ numbers.plain_verdict unsupported_rules)
        × (follower.new.value ≡ follower.old.value) }
    ensures not_whole { (p : Profile) (asked : Rules) → numbers.profile_with_number profile ≡ Some p
        → EncodesRules rules asked → (AreWhole receipts.now → ⊥)
        → (result ≡ numbers.plain_verdict bad_receipts) × (follower.new.value ≡ follower.old.value) }
    ensures starts { (p : Profile) (asked : Rules) → numbers.profile_with_number profile ≡ Some p
        → EncodesRules rules asked → AreWhole receipts.now
        → Starts p (good_by receipts.now) (OfInfo asked p info.now (passed tree.now))
        follower.old.value follower.new.value result }
{
    let Some(named) = profile_with_number(profile) else {
        return plain_verdict(UNSUPPORTED_PROFILE);
    };
    let Some(asked) = Rules::from_bits(rules) else {
        return plain_verdict(UNSUPPORTED_RULES);
    };
    put_start(alloc, asked, named, info, tree, receipts, follower)
}

/// Resumes a follower from the file of a state of the profile with this number, by these receipts, and puts it into the
/// handle. If none resumes, or the state is of another profile, the handle is unchanged. No strict rules are added to those
/// of the state.
#[unsafe(no_mangle)]
pub extern "C" fn mls_follower_resume(
    alloc: Global,
    state: &[u8],
    receipts: &[u8],
    profile: u32,
    follower: &mut FollowerHandle,
) -> InputVerdict
    ensures profile { numbers.profile_with_number profile ≡ None
        → (result ≡ numbers.plain_verdict unsupported_profile)
        × (follower.new.value ≡ follower.old.value) }
    ensures not_whole { (p : Profile) → numbers.profile_with_number profile ≡ Some p → (AreWhole receipts.now → ⊥)
        → (result ≡ numbers.plain_verdict bad_receipts) × (follower.new.value ≡ follower.old.value) }
    ensures resumes { (p : Profile) → numbers.profile_with_number profile ≡ Some p → AreWhole receipts.now
        → Starts p (good_by receipts.now) (OfState plain_rules state.now) follower.old.value follower.new.value result }
{
    let Some(named) = profile_with_number(profile) else {
        return plain_verdict(UNSUPPORTED_PROFILE);
    };
    let receipts = match receipts_in(alloc, receipts) {
        Ok(receipts) => receipts,
        Err(verdict) => return verdict,
    };
    let Ok(start) = state_copy(alloc, state) else {
        return plain_verdict(OUT_OF_MEMORY);
    };
    put_started(alloc, named, start, receipts, follower)
}
