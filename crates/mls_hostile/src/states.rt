//! States of followers, stored and resumed.

use crate::followers::{TrustingFollower, bytes_of_all, is_unchanged, pass, start, state_anew};
use crate::output::{Output, Stop, have};
use mls_check::Trusting;
use mls_follow::{Follower, ResumeFault, ResumeRefused};
use mls_msgs::{Profile, Rules};
use mls_wire::CodecFault;
use std::alloc::Global;

/// Returns the file of a follower's state, and whether `encode_state` ran out of memory. If so, the state must be unchanged,
/// and it is called again.
fn store(alloc: Global, follower: &TrustingFollower) -> Result<(Vec<u8>, bool), Stop> {
    let before = state_anew(alloc, follower)?;
    match follower.encode_state() {
        Ok(file) => Ok((file, false)),
        Err(CodecFault::OutOfMemory) => {
            if !is_unchanged(alloc, follower, before.as_slice())? {
                return Err(Stop::Changed);
            }
            match follower.encode_state() {
                Ok(file) => Ok((file, true)),
                Err(_) => Err(Stop::OtherState),
            }
        }
        Err(_) => Err(Stop::OtherState),
    }
}

/// Resumes a follower from a file. Returns also whether it ran out of memory. If so, it is resumed again, with the checker
/// that was returned.
fn resume(alloc: Global, file: &[u8]) -> Result<(TrustingFollower, bool), Stop> {
    let bytes = have(Vec::from_slice(alloc, file))?;
    match Follower::resume(alloc, bytes, Trusting) {
        Ok(follower) => Ok((follower, false)),
        Err(refused) => {
            if refused.fault != ResumeFault::OutOfMemory {
                return Err(Stop::NotResumed);
            }
            let ResumeRefused { checker, .. } = refused;
            let bytes = have(Vec::from_slice(alloc, file))?;
            match Follower::resume(alloc, bytes, checker) {
                Ok(follower) => Ok((follower, true)),
                Err(_) => Err(Stop::NotResumed),
            }
        }
    }
}

/// Returns whether two followers have one state.
fn have_one_state(
    alloc: Global,
    first: &TrustingFollower,
    second: &TrustingFollower,
) -> Result<bool, Stop> {
    let first = state_anew(alloc, first)?;
    let second = state_anew(alloc, second)?;
    Ok(first.as_slice() == second.as_slice())
}

/// Resumes a follower from the file of another one. It must have the state of that one, and the same file. Returns whether a
/// call ran out of memory.
fn resume_same(alloc: Global, follower: &TrustingFollower, file: &[u8]) -> Result<bool, Stop> {
    let (resumed, was_refused) = resume(alloc, file)?;
    let is_same = have_one_state(alloc, follower, &resumed);
    let again = store(alloc, &resumed);
    drop(resumed);
    if !is_same? {
        return Err(Stop::OtherState);
    }
    let (again, was_refused_again) = again?;
    if again.as_slice() != file {
        return Err(Stop::OtherState);
    }
    Ok(was_refused | was_refused_again)
}

/// Passes messages to a follower, stores its state, which must have this file, and resumes another one from it. Returns
/// whether a call ran out of memory.
fn store_after(
    alloc: Global,
    follower: &mut TrustingFollower,
    messages: &[Vec<u8>],
    file: &[u8],
) -> Result<bool, Stop> {
    let followed = pass(alloc, follower, None, messages)?;
    let (stored, was_refused) = store(alloc, follower)?;
    if stored.as_slice() != file {
        return Err(Stop::OtherState);
    }
    let was_refused_again = resume_same(alloc, follower, file)?;
    Ok(followed.was_refused | was_refused | was_refused_again)
}

/// Returns the text of the state after messages, which must have this file: how many bytes the file has. The follower starts
/// with these strict rules and this profile on the group of member 0 alone.
pub(crate) fn write_stored(
    alloc: Global,
    rules: Rules,
    profile: Profile,
    messages: &[&str],
    file: &str,
) -> Result<Output, Stop> {
    let messages = bytes_of_all(alloc, messages)?;
    let file = have(hex::decode(alloc, file))?;
    let (mut follower, was_refused) = start(alloc, rules, profile)?;
    let stored = store_after(alloc, &mut follower, messages.as_slice(), file.as_slice());
    drop(follower);
    let was_refused_later = stored?;
    let text = have(format!(in alloc; "{} bytes", file.len()))?;
    Ok(Output {
        was_refused: was_refused | was_refused_later,
        text,
    })
}
