//! Reports over devices in memory.

use crate::group::{
    CHECKED, COMMIT, GATE_RECORDS, GATED, GROUP_INFO, KEY_PACKAGE, LOG, NEXT_STATE, NOT_STRICT,
    PACKAGE_RECEIPTS, PACKAGE_SIGNATURES, REPLAYED, RESUMED, SIGNATURES, STATE, STATE_GATED,
    STATE_NOT_STRICT, STATE_RECORDS, STATE_SIGNATURES, STATE_VALIDATED, TIMED_GATED, TIMED_LOG,
    TIMED_RECORDS, TIMED_REPLAYED, TREE, TREE_CONTEXT, TREE_NOT_STRICT, VALIDATED,
    VALIDATED_PACKAGE, VALIDATED_TREE, VECTORS,
};
use crate::output::{Output, Stop, have};
use mls_check::{OutOfMemory, Receipts, Trusting};
use mls_examine::{PackageFinding, package_finding};
use mls_follow::Follower;
use mls_gate::gate;
use mls_msgs::{Profile, Rules};
use mls_report::{
    Replayed, replay, report_package, report_package_count, report_package_signatures, signatures,
    validate, validate_tree,
};
use mls_show::Verdict;
use mls_start::{Judge, StartBytes};
use mls_vectors::{CheckKind, run_check};
use mls_wire::{CodecFault, MemorySink, MemorySource, RunFault};
use std::alloc::Global;

/// A report.
#[derive(Clone, Copy)]
pub(crate) enum Report {
    /// `replay` of the log.
    Replay,
    /// `replay` of a log at a time, with a KeyPackage whose lifetime has ended.
    TimedReplay,
    /// `check` of the test vector.
    Check,
    /// `validate` of the group of member 0 alone.
    Validate,
    /// `validate` of the group of member 0 alone, by all strict rules.
    StrictValidate,
    /// `validate-tree` of the tree of four members.
    ValidateTree,
    /// `validate-tree` of the tree of four members, by all strict rules.
    StrictValidateTree,
    /// `signatures` of the group of member 0 alone and of the log, with no receipts.
    Signatures,
    /// `signatures` of a state with a pending proposal, and of a log, with no receipts.
    SignaturesState,
    /// `gate` of the group of member 0 alone and of records, with no receipts at first.
    Gate,
    /// `gate` of this group at a time and of records that have others, with no receipts at first.
    TimedGate,
    /// `gate` of a state with a pending proposal and of records, with no receipts at first.
    GateState,
    /// `validate` of the state after the proposal.
    ValidateState,
    /// `validate` of the state after the proposal, to whose strict rules all are added.
    StrictValidateState,
    /// `replay` from this state, and the state after it.
    ReplayState,
    /// `validate-key-package` of a KeyPackage, with its receipts.
    Packages,
    /// `signatures --key-package` of a KeyPackage, with no receipts.
    PackageSignatures,
}

/// How a report ends, and what is written then.
type Ended = (Result<Verdict, RunFault>, MemorySink);

/// Returns a start from the GroupInfo of the group of member 0 alone, in the members' profile and with these strict rules.
fn info_start(alloc: Global, rules: Rules) -> Result<StartBytes, Stop> {
    Ok(StartBytes::Info {
        rules,
        profile: Profile::Members,
        info: have(hex::decode(alloc, GROUP_INFO))?,
        tree: None,
    })
}

/// Returns a start from the state with a pending proposal, to which these strict rules are added.
fn state_start(alloc: Global, rules: Rules) -> Result<StartBytes, Stop> {
    Ok(StartBytes::State {
        rules,
        bytes: have(hex::decode(alloc, STATE))?,
    })
}

/// Returns the verdict of a replay, or its fault.
fn verdict_of(replayed: Result<Replayed<Trusting>, RunFault>) -> Result<Verdict, RunFault> {
    match replayed {
        Ok(replayed) => {
            let verdict = replayed.verdict;
            drop(replayed);
            Ok(verdict)
        }
        Err(fault) => Err(fault),
    }
}

/// Returns how `replay` of a log ends, at a time if there is one.
fn replay_ended(alloc: Global, log: &str, time: Option<u64>) -> Result<Ended, Stop> {
    let Ok(mut out) = MemorySink::new(alloc, 1000, 40, None) else {
        return Err(Stop::Memory);
    };
    let log = have(hex::decode(alloc, log))?;
    let start = info_start(alloc, Rules::plain())?;
    let mut log = MemorySource::new(log.as_slice(), 40, None);
    let judge = Judge {
        checker: Trusting,
        time,
    };
    let outcome = verdict_of(replay(alloc, start, &mut log, judge, &mut out));
    Ok((outcome, out))
}

/// Returns how `check` ends.
fn check_ended(alloc: Global) -> Result<Ended, Stop> {
    let Ok(mut out) = MemorySink::new(alloc, 1000, 40, None) else {
        return Err(Stop::Memory);
    };
    let mut input = MemorySource::new(VECTORS.as_bytes(), 40, None);
    let outcome = run_check(alloc, CheckKind::TreeMath, &mut input, &mut out);
    Ok((outcome, out))
}

/// Returns how `validate` with these strict rules ends.
fn validate_ended(alloc: Global, rules: Rules) -> Result<Ended, Stop> {
    let Ok(mut out) = MemorySink::new(alloc, 1000, 40, None) else {
        return Err(Stop::Memory);
    };
    let start = info_start(alloc, rules)?;
    let outcome = validate(alloc, start, Trusting, &mut out);
    Ok((outcome, out))
}

/// Returns how `validate-tree` with these strict rules ends.
fn validate_tree_ended(alloc: Global, rules: Rules) -> Result<Ended, Stop> {
    let Ok(mut out) = MemorySink::new(alloc, 1000, 40, None) else {
        return Err(Stop::Memory);
    };
    let context = have(hex::decode(alloc, TREE_CONTEXT))?;
    let tree = have(hex::decode(alloc, TREE))?;
    let outcome = validate_tree(alloc, rules, context.as_slice(), tree, &Trusting, &mut out);
    Ok((outcome, out))
}

/// Returns how `signatures` ends.
fn signatures_ended(alloc: Global) -> Result<Ended, Stop> {
    let Ok(mut out) = MemorySink::new(alloc, 2000, 40, None) else {
        return Err(Stop::Memory);
    };
    let receipts = Receipts::new(alloc);
    let log = have(hex::decode(alloc, LOG))?;
    let start = info_start(alloc, Rules::plain())?;
    let mut log = Some(MemorySource::new(log.as_slice(), 40, None));
    let outcome = signatures(alloc, start, &mut log, &receipts, &mut out);
    Ok((outcome, out))
}

/// Returns the log of the commit and an empty record.
fn commit_log(alloc: Global) -> Result<Vec<u8>, Stop> {
    let mut log = Vec::new(alloc);
    let commit = have(hex::decode(alloc, COMMIT))?;
    let Ok(length) = u8::try_from(commit.len()) else {
        return Err(Stop::NotRead);
    };
    have(log.push(length))?;
    have(log.extend_from_slice(commit.as_slice()))?;
    have(log.push(0))?;
    Ok(log)
}

/// Returns how `signatures` from a state ends.
fn signatures_state_ended(alloc: Global) -> Result<Ended, Stop> {
    let Ok(mut out) = MemorySink::new(alloc, 2000, 40, None) else {
        return Err(Stop::Memory);
    };
    let receipts = Receipts::new(alloc);
    let log = commit_log(alloc)?;
    let start = state_start(alloc, Rules::plain())?;
    let mut log = Some(MemorySource::new(log.as_slice(), 40, None));
    let outcome = signatures(alloc, start, &mut log, &receipts, &mut out);
    Ok((outcome, out))
}

/// Returns what the gate judges messages by at first: no receipts, and a time if there is one.
fn first_judge(alloc: Global, time: Option<u64>) -> Judge<Receipts> {
    Judge {
        checker: Receipts::new(alloc),
        time,
    }
}

/// Returns how `gate` of records ends, at a time if there is one.
fn gate_ended(alloc: Global, records: &str, time: Option<u64>) -> Result<Ended, Stop> {
    let Ok(mut out) = MemorySink::new(alloc, 3000, 40, None) else {
        return Err(Stop::Memory);
    };
    let records = have(hex::decode(alloc, records))?;
    let start = info_start(alloc, Rules::plain())?;
    let mut records = MemorySource::new(records.as_slice(), 40, None);
    let outcome = gate(
        alloc,
        start,
        &mut records,
        first_judge(alloc, time),
        &mut out,
    );
    Ok((outcome, out))
}

/// Returns how `gate` from a state ends.
fn gate_state_ended(alloc: Global) -> Result<Ended, Stop> {
    let Ok(mut out) = MemorySink::new(alloc, 3000, 40, None) else {
        return Err(Stop::Memory);
    };
    let records = have(hex::decode(alloc, STATE_RECORDS))?;
    let start = state_start(alloc, Rules::plain())?;
    let mut records = MemorySource::new(records.as_slice(), 40, None);
    let outcome = gate(
        alloc,
        start,
        &mut records,
        first_judge(alloc, None),
        &mut out,
    );
    Ok((outcome, out))
}

/// Returns how `validate` of a state to which these strict rules are added ends.
fn validate_state_ended(alloc: Global, rules: Rules) -> Result<Ended, Stop> {
    let Ok(mut out) = MemorySink::new(alloc, 1000, 40, None) else {
        return Err(Stop::Memory);
    };
    let start = state_start(alloc, rules)?;
    let outcome = validate(alloc, start, Trusting, &mut out);
    Ok((outcome, out))
}

/// Returns the verdict if the state of a follower, if there is one, is that after the commit.
fn stored_ended(
    verdict: Verdict,
    follower: &Option<Follower<Trusting>>,
    needed: &[u8],
) -> Result<Verdict, RunFault> {
    match follower {
        Some(follower) => match follower.encode_state() {
            Ok(bytes) if bytes.as_slice() == needed => Ok(verdict),
            Err(CodecFault::OutOfMemory) => Err(RunFault::Memory),
            _ => Err(RunFault::Write),
        },
        None => Err(RunFault::Write),
    }
}

/// Returns how `replay` from a state ends, once the state after it is stored.
fn replay_state_ended(alloc: Global) -> Result<Ended, Stop> {
    let Ok(mut out) = MemorySink::new(alloc, 1000, 40, None) else {
        return Err(Stop::Memory);
    };
    let needed = have(hex::decode(alloc, NEXT_STATE))?;
    let log = commit_log(alloc)?;
    let start = state_start(alloc, Rules::plain())?;
    let mut log = MemorySource::new(log.as_slice(), 40, None);
    let judge = Judge {
        checker: Trusting,
        time: None,
    };
    let outcome = match replay(alloc, start, &mut log, judge, &mut out) {
        Ok(replayed) => {
            let ended = stored_ended(replayed.verdict, &replayed.follower, needed.as_slice());
            drop(replayed);
            ended
        }
        Err(fault) => Err(fault),
    };
    Ok((outcome, out))
}

/// Returns what is found of the KeyPackage, with these receipts.
fn finding_of(alloc: Global, receipts: &str) -> Result<Result<PackageFinding, RunFault>, Stop> {
    let input = have(hex::decode(alloc, KEY_PACKAGE))?;
    let checker = have(Receipts::read(alloc, receipts.as_bytes()))?;
    match package_finding(alloc, Rules::plain(), input.as_slice(), &checker) {
        Ok(finding) => Ok(Ok(finding)),
        Err(OutOfMemory) => Ok(Err(RunFault::Memory)),
    }
}

/// Returns how `validate-key-package` ends.
fn packages_ended(alloc: Global) -> Result<Ended, Stop> {
    let Ok(mut out) = MemorySink::new(alloc, 1000, 40, None) else {
        return Err(Stop::Memory);
    };
    let outcome = match finding_of(alloc, PACKAGE_RECEIPTS)? {
        Ok(finding) => match report_package(alloc, 1, &finding, &mut out) {
            Ok(is_good) => report_package_count(alloc, u32::from(is_good), 1, &mut out),
            Err(fault) => Err(fault),
        },
        Err(fault) => Err(fault),
    };
    Ok((outcome, out))
}

/// Returns how `signatures --key-package` ends.
fn package_signatures_ended(alloc: Global) -> Result<Ended, Stop> {
    let Ok(mut out) = MemorySink::new(alloc, 2000, 40, None) else {
        return Err(Stop::Memory);
    };
    let outcome = match finding_of(alloc, "")? {
        Ok(finding) => match report_package_signatures(alloc, 1, &finding, &mut out) {
            Ok(true) => Ok(Verdict::Yes),
            Ok(false) => Ok(Verdict::No),
            Err(fault) => Err(fault),
        },
        Err(fault) => Err(fault),
    };
    Ok((outcome, out))
}

/// Returns how a report ends.
fn ended(alloc: Global, report: Report) -> Result<Ended, Stop> {
    match report {
        Report::Replay => replay_ended(alloc, LOG, None),
        Report::TimedReplay => replay_ended(alloc, TIMED_LOG, Some(10)),
        Report::Check => check_ended(alloc),
        Report::Validate => validate_ended(alloc, Rules::plain()),
        Report::StrictValidate => validate_ended(alloc, Rules::strict()),
        Report::ValidateTree => validate_tree_ended(alloc, Rules::plain()),
        Report::StrictValidateTree => validate_tree_ended(alloc, Rules::strict()),
        Report::Signatures => signatures_ended(alloc),
        Report::SignaturesState => signatures_state_ended(alloc),
        Report::Gate => gate_ended(alloc, GATE_RECORDS, None),
        Report::TimedGate => gate_ended(alloc, TIMED_RECORDS, Some(10)),
        Report::GateState => gate_state_ended(alloc),
        Report::ValidateState => validate_state_ended(alloc, Rules::plain()),
        Report::StrictValidateState => validate_state_ended(alloc, Rules::strict()),
        Report::ReplayState => replay_state_ended(alloc),
        Report::Packages => packages_ended(alloc),
        Report::PackageSignatures => package_signatures_ended(alloc),
    }
}

/// Returns the usual verdict and text of a report.
fn usual(report: Report) -> (&'static str, &'static str) {
    match report {
        Report::Replay => ("no", REPLAYED),
        Report::TimedReplay => ("no", TIMED_REPLAYED),
        Report::Check => ("yes", CHECKED),
        Report::Validate => ("yes", VALIDATED),
        Report::StrictValidate => ("no", NOT_STRICT),
        Report::ValidateTree => ("yes", VALIDATED_TREE),
        Report::StrictValidateTree => ("no", TREE_NOT_STRICT),
        Report::Signatures => ("no", SIGNATURES),
        Report::SignaturesState => ("no", STATE_SIGNATURES),
        Report::Gate => ("no", GATED),
        Report::TimedGate => ("yes", TIMED_GATED),
        Report::GateState => ("yes", STATE_GATED),
        Report::ValidateState => ("yes", STATE_VALIDATED),
        Report::StrictValidateState => ("no", STATE_NOT_STRICT),
        Report::ReplayState => ("no", RESUMED),
        Report::Packages => ("yes", VALIDATED_PACKAGE),
        Report::PackageSignatures => ("yes", PACKAGE_SIGNATURES),
    }
}

/// Makes a report, and once more if it ran out of memory. Then what is written must be a prefix of the usual report,
/// and nothing if the report is made whole before it is written.
pub(crate) fn write_report(alloc: Global, report: Report) -> Result<Output, Stop> {
    let (usual_verdict, usual_text) = usual(report);
    let (mut outcome, mut out) = ended(alloc, report)?;
    let was_refused = matches!(outcome, Err(RunFault::Memory));
    if was_refused {
        let front = match report {
            Report::Replay
            | Report::TimedReplay
            | Report::ReplayState
            | Report::Signatures
            | Report::SignaturesState
            | Report::Gate
            | Report::TimedGate
            | Report::GateState
            | Report::Packages
            | Report::PackageSignatures => usual_text.as_bytes(),
            Report::Check
            | Report::Validate
            | Report::StrictValidate
            | Report::ValidateTree
            | Report::StrictValidateTree
            | Report::ValidateState
            | Report::StrictValidateState => b"",
        };
        if !front.starts_with(out.bytes()) {
            return Err(Stop::OtherReport);
        }
        (outcome, out) = ended(alloc, report)?;
    }
    let verdict = match outcome {
        Ok(Verdict::Yes) => "yes",
        Ok(Verdict::No) => "no",
        Err(_) => return Err(Stop::OtherReport),
    };
    if usual_verdict != verdict || usual_text.as_bytes() != out.bytes() {
        return Err(Stop::OtherReport);
    }
    let text = have(format!(in alloc; "{verdict}, {} bytes", out.bytes().len()))?;
    Ok(Output { was_refused, text })
}
