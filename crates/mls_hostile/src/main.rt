//! The program `mls_hostile`: tests the libraries with failing allocations and with changed inputs. It reads three
//! numbers from standard input; each is 0 if it is missing.
//!
//! First it makes calls of the libraries, and prints a line for each with the answer. A call that runs out of memory
//! must leave its arguments and the state unchanged. It is then repeated, and must give the usual answer. The first
//! number is how often a piece of memory is allocated and freed before: if the n-th allocation of a run fails, this
//! number moves the failure through the calls, so that one build serves for all of them. `tests/refused.sh` does so.
//!
//! Then it changes inputs at random and passes them to the libraries: as many as the third number, beginning with the
//! one of the second number. A refused input must leave a follower unchanged. `tests/changed.sh` tries many.
//!
//! The exit status is 0 if no allocation failed, 2 if one failed outside of the calls, 3 if a call ran out of memory
//! and all is as it must be, and 1 if something is not.
#![tactic(auto)]

mod changed;
mod followers;
mod group;
mod inputs;
mod output;
mod packages;
mod reports;
mod signatures;
mod states;
mod trees;

use crate::changed::try_input;
use crate::followers::{Taking, met_rules, write_added, write_answers};
use crate::group::{
    ADD_ANSWERS, ADD_COMMIT, ADD_RECEIPTS, CLIENT_PROPOSAL, COMMIT, DATA_ANSWERS, DATA_COMMIT,
    DATA_PROPOSAL, DATA_RECEIPTS, EXTENSIONS_ANSWERS, EXTENSIONS_COMMIT, EXTENSIONS_RECEIPTS,
    FULL_COMMIT, FULL_STATE, GROUP_INFO, JOIN_ANSWERS, JOIN_COMMIT, JOIN_RECEIPTS, KEY_PACKAGE,
    NEXT_STATE, PACKAGE_RECEIPTS, PATH_ANSWERS, PATH_COMMIT, PATH_RECEIPTS, PROPOSAL,
    REMOVE_COMMIT, RESYNC_COMMIT, SECOND_ADD_COMMIT, START_RECEIPTS, STRICT_STATE, TIMED_ANSWERS,
    TIMED_COMMIT, TIMED_PROPOSAL, TIMED_RECEIPTS, TWO_PENDING_STATE,
};
use crate::inputs::{read_message, read_receipts};
use crate::output::{Output, Stop};
use crate::packages::check_alone;
use crate::reports::{Report, write_report};
use crate::signatures::write_start_signatures;
use crate::states::write_stored;
use crate::trees::{Validator, validate};
use mls_msgs::{Profile, Rules};
use std::alloc::Global;
use std::io::Read;
use std::process::ExitCode;
use std::time::Instant;

/// A call, or a start of a follower with the messages that it processes, perhaps at a time, and the receipts of their signatures, or
/// the file of the state after them.
#[derive(Clone, Copy)]
enum Call {
    Message(&'static str),
    FullMessage(&'static str),
    Receipts,
    Validate(Validator),
    StartSignatures,
    CheckPackage(&'static str, &'static str),
    Follow(&'static [&'static str], &'static str),
    FollowAt(u64, &'static [&'static str], &'static str),
    FollowInFull(&'static [&'static str], &'static str),
    FollowStrictly(&'static [&'static str], &'static str),
    AddMet(&'static [&'static str]),
    AddAll(&'static [&'static str]),
    Store(&'static [&'static str], &'static str),
    StoreInFull(&'static [&'static str], &'static str),
    StoreStrictly(&'static [&'static str], &'static str),
    Report(Report),
}

/// The calls but reports, with their names and the expected texts.
const CALLS: &[(&str, Call, &str)] = &[
    (
        "decode_message of a group info",
        Call::Message(GROUP_INFO),
        GROUP_INFO,
    ),
    (
        "decode_message of a proposal",
        Call::Message(PROPOSAL),
        PROPOSAL,
    ),
    ("decode_message of a commit", Call::Message(COMMIT), COMMIT),
    (
        "decode_message_in, in the full profile, of a commit of each of its proposals",
        Call::FullMessage(FULL_COMMIT),
        FULL_COMMIT,
    ),
    ("Receipts::read", Call::Receipts, "true true false"),
    ("validate_tree", Call::Validate(Validator::Tree), "yes"),
    (
        "validate_members",
        Call::Validate(Validator::Members),
        "yes",
    ),
    (
        "start_signatures, of a group info and a tree of four members",
        Call::StartSignatures,
        START_RECEIPTS,
    ),
    (
        "check_package of a key package",
        Call::CheckPackage(KEY_PACKAGE, PACKAGE_RECEIPTS),
        "2ecb8b18295924eead626e0aeaf767ebefa71136bd7e54db65cb6132a1b4968a",
    ),
    (
        "check_package of a key package without receipts",
        Call::CheckPackage(KEY_PACKAGE, ""),
        "2 signatures that are not good",
    ),
    (
        "Follower::start, signatures_to_verify and take, to a commit with a path",
        Call::Follow(&[PROPOSAL, COMMIT, PATH_COMMIT], PATH_RECEIPTS),
        PATH_ANSWERS,
    ),
    (
        "Follower::start, signatures_to_verify and take, to commits that add a member to a full tree, \
        add one under a set parent, and halve the tree",
        Call::Follow(
            &[
                PROPOSAL,
                COMMIT,
                ADD_COMMIT,
                SECOND_ADD_COMMIT,
                REMOVE_COMMIT,
            ],
            ADD_RECEIPTS,
        ),
        ADD_ANSWERS,
    ),
    (
        "Follower::start, signatures_to_verify and take, to a commit with a path that sets the context's extensions",
        Call::Follow(&[PROPOSAL, COMMIT, EXTENSIONS_COMMIT], EXTENSIONS_RECEIPTS),
        EXTENSIONS_ANSWERS,
    ),
    (
        "Follower::start_in, signatures_to_verify and take, to external commits that join and come back",
        Call::FollowInFull(&[JOIN_COMMIT, RESYNC_COMMIT], JOIN_RECEIPTS),
        JOIN_ANSWERS,
    ),
    (
        "Follower::start, signatures_to_verify and take, to a proposal with authenticated data and its commit",
        Call::Follow(&[DATA_PROPOSAL, DATA_COMMIT], DATA_RECEIPTS),
        DATA_ANSWERS,
    ),
    (
        "Follower::start_by, signatures_to_verify and take, by strict rules, to a commit with a path",
        Call::FollowStrictly(&[PROPOSAL, COMMIT, PATH_COMMIT], PATH_RECEIPTS),
        PATH_ANSWERS,
    ),
    (
        "Follower::start, signatures_to_verify and take_at, to Adds whose lifetime has ended and has not",
        Call::FollowAt(
            10,
            &[TIMED_PROPOSAL, TIMED_COMMIT, PROPOSAL, COMMIT],
            TIMED_RECEIPTS,
        ),
        TIMED_ANSWERS,
    ),
    (
        "Follower::make_strict, after a proposal, by rules that the group meets",
        Call::AddMet(&[PROPOSAL]),
        "added",
    ),
    (
        "Follower::make_strict, after a proposal, by all strict rules",
        Call::AddAll(&[PROPOSAL]),
        "10 Strict 44 KeyForm 0",
    ),
    (
        "encode_state and Follower::resume, after two proposals, one of them with authenticated data",
        Call::Store(&[PROPOSAL, DATA_PROPOSAL], TWO_PENDING_STATE),
        "310 bytes",
    ),
    (
        "encode_state and Follower::resume, after a commit that adds a member",
        Call::Store(&[PROPOSAL, COMMIT], NEXT_STATE),
        "274 bytes",
    ),
    (
        "encode_state and Follower::resume, in the full profile, after proposals of a client and of a member",
        Call::StoreInFull(&[CLIENT_PROPOSAL, DATA_PROPOSAL], FULL_STATE),
        "306 bytes",
    ),
    (
        "encode_state and Follower::resume, by strict rules, after a proposal",
        Call::StoreStrictly(&[PROPOSAL], STRICT_STATE),
        "237 bytes",
    ),
];

/// Each report, by name, with its verdict and how many bytes it writes.
const REPORTS: &[(&str, Report, &str)] = &[
    ("replay", Report::Replay, "no, 294 bytes"),
    ("replay, at a time", Report::TimedReplay, "no, 299 bytes"),
    ("run_check", Report::Check, "yes, 35 bytes"),
    ("validate", Report::Validate, "yes, 94 bytes"),
    (
        "validate, by all strict rules",
        Report::StrictValidate,
        "no, 36 bytes",
    ),
    ("validate_tree", Report::ValidateTree, "yes, 71 bytes"),
    (
        "validate_tree, by all strict rules",
        Report::StrictValidateTree,
        "no, 28 bytes",
    ),
    ("signatures", Report::Signatures, "no, 1821 bytes"),
    (
        "signatures of a state",
        Report::SignaturesState,
        "no, 1502 bytes",
    ),
    ("gate", Report::Gate, "no, 2527 bytes"),
    (
        "gate, at a time and then at others",
        Report::TimedGate,
        "yes, 915 bytes",
    ),
    ("gate of a state", Report::GateState, "yes, 2152 bytes"),
    (
        "validate of a state",
        Report::ValidateState,
        "yes, 94 bytes",
    ),
    (
        "validate of a state, by all strict rules",
        Report::StrictValidateState,
        "no, 37 bytes",
    ),
    (
        "replay of a state, and encode_state",
        Report::ReplayState,
        "no, 200 bytes",
    ),
    (
        "validate-key-package of a key package",
        Report::Packages,
        "yes, 109 bytes",
    ),
    (
        "signatures of a key package",
        Report::PackageSignatures,
        "yes, 402 bytes",
    ),
];

/// Makes a call.
fn make(alloc: Global, call: Call) -> Result<Output, Stop> {
    match call {
        Call::Message(message) => read_message(alloc, Profile::Members, message),
        Call::FullMessage(message) => read_message(alloc, Profile::Full, message),
        Call::Receipts => read_receipts(alloc),
        Call::Validate(validator) => validate(alloc, validator),
        Call::StartSignatures => write_start_signatures(alloc),
        Call::CheckPackage(message, receipts) => check_alone(alloc, message, receipts),
        Call::Follow(messages, receipts) => {
            let taking = Taking::untimed(Rules::plain(), Profile::Members);
            write_answers(alloc, taking, messages, receipts)
        }
        Call::FollowAt(time, messages, receipts) => {
            let taking = Taking {
                rules: Rules::plain(),
                profile: Profile::Members,
                time: Some(time),
            };
            write_answers(alloc, taking, messages, receipts)
        }
        Call::FollowInFull(messages, receipts) => {
            let taking = Taking::untimed(Rules::plain(), Profile::Full);
            write_answers(alloc, taking, messages, receipts)
        }
        Call::FollowStrictly(messages, receipts) => {
            let taking = Taking::untimed(met_rules()?, Profile::Members);
            write_answers(alloc, taking, messages, receipts)
        }
        Call::AddMet(messages) => write_added(alloc, messages, met_rules()?),
        Call::AddAll(messages) => write_added(alloc, messages, Rules::strict()),
        Call::Store(messages, file) => {
            write_stored(alloc, Rules::plain(), Profile::Members, messages, file)
        }
        Call::StoreInFull(messages, file) => {
            write_stored(alloc, Rules::plain(), Profile::Full, messages, file)
        }
        Call::StoreStrictly(messages, file) => {
            write_stored(alloc, met_rules()?, Profile::Members, messages, file)
        }
        Call::Report(report) => write_report(alloc, report),
    }
}

/// Where an allocation failed.
#[derive(Clone, Copy, PartialEq, Eq)]
enum Refused {
    Nowhere,
    Outside,
    InCall,
}

/// Makes a call, and once more if an allocation outside of it failed. Returns also where one failed.
fn make_all(alloc: Global, call: Call) -> (Refused, Result<Output, Stop>) {
    match make(alloc, call) {
        Err(Stop::Memory) => (Refused::Outside, make(alloc, call)),
        Ok(output) if output.was_refused => (Refused::InCall, Ok(output)),
        output => (Refused::Nowhere, output),
    }
}

/// Prints the answer of a call. Returns where an allocation failed, or `None` if something is wrong.
fn write(rt: &HostRuntime, name: &str, call: Call, needed: &str) -> Option<Refused> {
    let (refused, output) = make_all(rt.alloc(), call);
    match output {
        Ok(output) if output.text.as_str() == needed => {
            let before = match refused {
                Refused::InCall => "out of memory, unchanged, then ",
                _ => "",
            };
            println!(rt; "{name}: {before}{needed}").ok()?;
            Some(refused)
        }
        Ok(output) => {
            println!(rt; "{name}: wrong: {}", output.text).ok()?;
            None
        }
        Err(stop) => {
            println!(rt; "{name}: wrong: {stop:?}").ok()?;
            None
        }
    }
}

/// Makes all calls but reports. Returns where an allocation failed, or `None` if something is wrong.
fn write_calls(rt: &HostRuntime) -> Option<Refused> {
    let mut refused = Refused::Nowhere;
    for (name, call, needed) in CALLS {
        match write(rt, name, *call, needed)? {
            Refused::Nowhere => {}
            found => refused = found,
        }
    }
    Some(refused)
}

/// Makes all reports. Returns where an allocation failed, or `None` if something is wrong.
fn write_reports(rt: &HostRuntime) -> Option<Refused> {
    let mut refused = Refused::Nowhere;
    for (name, report, needed) in REPORTS {
        match write(rt, name, Call::Report(*report), needed)? {
            Refused::Nowhere => {}
            found => refused = found,
        }
    }
    Some(refused)
}

/// Makes all calls. Returns where an allocation failed, or `None` if something is wrong.
fn write_all(rt: &HostRuntime) -> Option<Refused> {
    let in_calls = write_calls(rt)?;
    match write_reports(rt)? {
        Refused::Nowhere => Some(in_calls),
        in_reports => Some(in_reports),
    }
}

/// Passes `count` changed inputs to the libraries, and prints the first at which something is wrong. The number of
/// accepted ones and the time of the slowest go to standard error.
fn write_changed(rt: &HostRuntime, first: u64, count: u64) -> Option<()> {
    let (mut accepted, mut slowest) = (0u64, 0u128);
    for at in 0..count {
        let number = first.wrapping_add(at);
        let began = Instant::now(rt).ok()?;
        let answer = try_input(rt.alloc(), number);
        slowest = slowest.max(began.elapsed(rt).ok()?.as_millis());
        match answer {
            Ok(is_accepted) => accepted = accepted.saturating_add(u64::from(is_accepted)),
            Err(stop) => {
                println!(rt; "changed input {number}: wrong: {stop:?}").ok()?;
                return None;
            }
        }
    }
    eprintln!(rt; "accepted {accepted} slowest {slowest} ms").ok()?;
    println!(rt; "changed inputs: {count}, and nothing is wrong").ok()
}

/// Reads the numbers on standard input.
fn numbers(rt: &HostRuntime) -> [u64; 3] {
    let mut text = [0u8; 64];
    let count = rt.stdin().read(&mut text).unwrap_or(0);
    let (mut first, mut second, mut third) = (0u64, 0u64, 0u64);
    for byte in text.iter().take(count) {
        if byte.is_ascii_digit() {
            third = third
                .saturating_mul(10)
                .saturating_add(u64::from(byte.wrapping_sub(b'0')));
        } else if *byte == b' ' {
            (first, second, third) = (second, third, 0);
        }
    }
    [first, second, third]
}

/// Allocates and frees a piece of memory, `count` times.
fn take_memory(alloc: Global, count: u64) {
    for _ in 0..count {
        let mut piece = Vec::new(alloc);
        let _ = piece.push(0u8);
    }
}

fn main(rt: HostRuntime) -> ExitCode {
    let [pieces, first, count] = numbers(&rt);
    take_memory(rt.alloc(), pieces);
    let refused = write_all(&rt);
    let is_right = refused.is_some() && write_changed(&rt, first, count).is_some();
    match refused {
        Some(Refused::Nowhere) if is_right => ExitCode::from(0),
        Some(Refused::Outside) if is_right => ExitCode::from(2),
        Some(Refused::InCall) if is_right => ExitCode::from(3),
        _ => ExitCode::from(1),
    }
}
