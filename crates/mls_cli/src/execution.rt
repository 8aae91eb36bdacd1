//! Executing a command: the files that it names are read or opened, and its report is made of them.

ghost use Rattle.std.specs.Prelude.{◌≡◌, ◌≢◌, ◌⊎◌, false, None, is_some, Err, option_map, IfErr, IfSome};
ghost use Rattle.mls_wire.specs.Devices.{IsWorking, WriteFails};
ghost use Rattle.mls_follow.specs.FollowerModel.{state_of};
ghost use Rattle.mls_follow.specs.State.{State};
ghost use Rattle.mls_follow.specs.StoredState.{EncodesState};
ghost use Rattle.mls_report.specs.SignaturesReport.{has_failed};
ghost use Rattle.mls_program.specs.Files.{IsOpened, NamedFileIsMissing, EndsUnread};
ghost use Rattle.mls_cli.specs.CheckerFaults.{IsCheckerFault};
ghost use Rattle.mls_cli.specs.Execution.{ExecutesOrder, EndsStoring, EndsSaved, MeansWrite, report_stores, stores_state, ExecutesReport, ExecutesValidateTree, ExecutesValidate, ExecutesReplay, ExecutesSignatures, ExecutesGate, ExecutesCheck};
ghost use Rattle.mls_cli.specs.ProgramCheckers.{RunsWithCheckerOrEnds, EndsRefused, CannotReadReceipts};
ghost use Rattle.mls_cli.specs.ProgramCheckersInternal.{checker_verify};

use crate::load_checker::load_checker;
use crate::packages_execution::{execute_package_signatures, execute_packages};
use crate::program_checker::{CheckerFault, ProgramChecker};
use crate::read_files::{read_file, read_start};
use mls_commands::{CheckerChoice, FileName, GroupFiles, GroupReport, Order, ReplayOptions};
use mls_follow::Follower;
use mls_gate::gate;
use mls_msgs::Rules;
use mls_program::{Files, execute_show};
use mls_report::{
    Replayed, replay, report_unreadable_receipts, signatures, validate, validate_tree,
};
use mls_show::{CheckKind, Verdict};
use mls_start::Judge;
use mls_vectors::run_check;
use mls_wire::{CodecFault, RunFault, Sink};
use std::alloc::Global;

/// Says which test vectors of a file agree with this library.
fn execute_check<F: Files, K: Sink>(
    alloc: Global,
    kind: CheckKind,
    file: &FileName,
    files: &F,
    out: &mut K,
) -> Result<Verdict, RunFault>
    requires { IsWorking (K.device out.old) }
    ensures executed { ExecutesCheck (F.opener files.now) kind file.now (K.device out.old) (K.device out.new) result }
    ensures write { WriteFails result (K.device out.new) }
{
    let Some(mut input) = files.open(file.as_str()) else {
        return Err(RunFault::Read);
    };
    run_check(alloc, kind, &mut input, out)
}

/// Says whether a tree is valid for a GroupContext, its leaf nodes are valid, and both meet the strict rules.
fn execute_validate_tree<F: Files, K: Sink>(
    alloc: Global,
    rules: Rules,
    context: &FileName,
    tree: &FileName,
    files: &F,
    checker: &ProgramChecker,
    out: &mut K,
) -> Result<Verdict, RunFault>
    requires { IsWorking (K.device out.old) }
    ensures executed { ExecutesValidateTree (F.opener files.now) (checker_verify checker.now) rules
        context.now tree.now (K.device out.old) (K.device out.new) result }
    ensures write { WriteFails result (K.device out.new) }
{
    let context = read_file(alloc, context, files)?;
    let tree = read_file(alloc, tree, files)?;
    validate_tree(alloc, rules, context.as_slice(), tree, checker, out)
}

/// Says whether a group can be followed.
fn execute_validate<F: Files, K: Sink>(
    alloc: Global,
    group: &GroupFiles,
    files: &F,
    checker: ProgramChecker,
    out: &mut K,
) -> Result<Verdict, RunFault>
    requires { IsWorking (K.device out.old) }
    ensures executed { ExecutesValidate (F.opener files.now) (checker_verify checker) group.now
        (K.device out.old) (K.device out.new) result }
    ensures write { WriteFails result (K.device out.new) }
{
    let start = read_start(alloc, group, files)?;
    validate(alloc, start, checker, out)
}

/// Stores the bytes of a state, and returns the verdict if they are stored.
fn store<F: Files>(
    verdict: Verdict,
    bytes: &[u8],
    name: &FileName,
    files: &F,
) -> Result<Verdict, RunFault>
    ensures stored { (s : State) → EncodesState s bytes.now
        → EndsStoring (F.opener files.now) name.now s verdict result }
    ensures fault { IfErr result (λ e. e ≢ RunFault.Read) }
{
    if files.save(name.as_str(), bytes) {
        Ok(verdict)
    } else {
        Err(RunFault::Write)
    }
}

/// Stores the state of a follower, and returns the verdict if it is stored.
fn store_state<F: Files>(
    verdict: Verdict,
    follower: &Follower<ProgramChecker>,
    name: &FileName,
    files: &F,
) -> Result<Verdict, RunFault>
    ensures stored { EndsStoring (F.opener files.now) name.now (state_of follower.now) verdict result }
    ensures fault { IfErr result (λ e. e ≢ RunFault.Read) }
{
    match follower.encode_state() {
        Ok(bytes) => store(verdict, bytes.as_slice(), name, files),
        Err(CodecFault::Wire(_)) => Err(RunFault::Write),
        Err(CodecFault::OutOfMemory) => Err(RunFault::Memory),
    }
}

/// Stores the state after a replay if a file is named and a follower has started, and returns the verdict if it is
/// stored.
fn store_after<F: Files>(
    replayed: &Replayed<ProgramChecker>,
    save: &Option<FileName>,
    files: &F,
) -> Result<Verdict, RunFault>
    ensures saved { EndsSaved (F.opener files.now) save.now
        (option_map (λ f. state_of f) replayed.now.follower) replayed.now.verdict result }
    ensures fault { IfErr result (λ e. e ≢ RunFault.Read) }
    ensures write { is_some save.now ≡ false → IfErr result (λ e. e ≢ RunFault.Write) }
{
    match (save, &replayed.follower) {
        (Some(name), Some(follower)) => store_state(replayed.verdict, follower, name, files),
        _ => Ok(replayed.verdict),
    }
}

/// Follows a group through a log of handshakes, and stores its state if a file is named.
fn execute_replay<F: Files, K: Sink>(
    alloc: Global,
    options: &ReplayOptions,
    files: &F,
    checker: ProgramChecker,
    out: &mut K,
) -> Result<Verdict, RunFault>
    requires { IsWorking (K.device out.old) }
    ensures executed { ExecutesReplay (F.opener files.now) (checker_verify checker) options.now
        (K.device out.old) (K.device out.new) result }
    ensures write { MeansWrite (is_some options.now.save) (K.device out.new) result }
{
    let start = read_start(alloc, &options.group, files)?;
    let Some(mut log) = files.open(options.log.as_str()) else {
        return Err(RunFault::Read);
    };
    let judge = Judge {
        checker,
        time: options.time,
    };
    match replay(alloc, start, &mut log, judge, out) {
        Ok(replayed) => {
            let stored = store_after(&replayed, &options.save, files);
            drop(replayed);
            stored
        }
        Err(fault) => Err(fault),
    }
}

/// Opens a file with an optional name.
fn open_named<F: Files>(name: &Option<FileName>, files: &F) -> Option<Option<F::File>>
    ensures given { IfSome result (IsOpened (F.opener files.now) name.now) }
    ensures fresh { IfSome result (λ file. has_failed (option_map (λ f. (F.File.device f).has_failed) file) ≡ false) }
    ensures none { result ≡ None → NamedFileIsMissing (F.opener files.now) name.now }
{
    match name {
        Some(name) => Some(Some(files.open(name.as_str())?)),
        None => Some(None),
    }
}

/// Prints the signatures to verify of a group's start or resumption and its handshakes.
fn execute_signatures<F: Files, K: Sink>(
    alloc: Global,
    group: &GroupFiles,
    log: &Option<FileName>,
    files: &F,
    receipts: &ProgramChecker,
    out: &mut K,
) -> Result<Verdict, RunFault>
    requires { IsWorking (K.device out.old) }
    ensures executed { ExecutesSignatures (F.opener files.now) (checker_verify receipts.now) group.now log.now
        (K.device out.old) (K.device out.new) result }
    ensures write { WriteFails result (K.device out.new) }
{
    let start = read_start(alloc, group, files)?;
    let Some(mut log) = open_named(log, files) else {
        return Err(RunFault::Read);
    };
    signatures(alloc, start, &mut log, receipts, out)
}

/// Answers the records of standard input, one after the other.
fn execute_gate<F: Files, K: Sink>(
    alloc: Global,
    group: &GroupFiles,
    files: &F,
    judge: Judge<ProgramChecker>,
    out: &mut K,
) -> Result<Verdict, RunFault>
    requires { IsWorking (K.device out.old) }
    ensures executed { ExecutesGate (F.opener files.now) judge.time (checker_verify judge.checker) group.now
        (K.device out.old) (K.device out.new) result }
    ensures write { WriteFails result (K.device out.new) }
{
    let start = read_start(alloc, group, files)?;
    let Some(mut records) = files.open("-") else {
        return Err(RunFault::Read);
    };
    gate(alloc, start, &mut records, judge, out)
}

/// Says why there is no checker.
fn write_refusal<F: Files, K: Sink>(
    alloc: Global,
    checker: &CheckerChoice,
    files: &F,
    fault: CheckerFault,
    out: &mut K,
) -> Result<Verdict, RunFault>
    requires out { IsWorking (K.device out.old) }
    requires fault { IsCheckerFault (F.opener files.now) checker.now fault }
    ensures ended { EndsUnread (CannotReadReceipts (F.opener files.now) checker.now)
        (K.device out.old).bytes (K.device out.new).bytes result
        ⊎ EndsRefused (F.opener files.now) checker.now (K.device out.old) (K.device out.new) result }
    ensures write { WriteFails result (K.device out.new) }
{
    match fault {
        CheckerFault::Lost(fault) => Err(fault),
        CheckerFault::Refused(fault) => report_unreadable_receipts(alloc, fault, out),
    }
}

/// Executes a report with a checker.
fn report_by<F: Files, K: Sink>(
    alloc: Global,
    report: &GroupReport,
    files: &F,
    checker: ProgramChecker,
    out: &mut K,
) -> Result<Verdict, RunFault>
    requires { IsWorking (K.device out.old) }
    ensures executed { ExecutesReport (F.opener files.now) (checker_verify checker) report.now
        (K.device out.old) (K.device out.new) result }
    ensures write { MeansWrite (report_stores report.now) (K.device out.new) result }
{
    match report {
        GroupReport::ValidateTree {
            rules,
            context,
            tree,
        } => execute_validate_tree(alloc, *rules, context, tree, files, &checker, out),
        GroupReport::Validate(group) => execute_validate(alloc, group, files, checker, out),
        GroupReport::ValidatePackages {
            rules,
            files: names,
        } => execute_packages(alloc, *rules, names.as_slice(), files, &checker, out),
        GroupReport::PackageSignatures {
            rules,
            files: names,
        } => execute_package_signatures(alloc, *rules, names.as_slice(), files, &checker, out),
        GroupReport::Replay(options) => execute_replay(alloc, options, files, checker, out),
        GroupReport::Signatures { group, log } => {
            execute_signatures(alloc, group, log, files, &checker, out)
        }
        GroupReport::Gate { group, time } => {
            let judge = Judge {
                checker,
                time: *time,
            };
            execute_gate(alloc, group, files, judge, out)
        }
    }
}

/// Executes a report with the checker of a choice, or says why there is none.
fn execute_report<F: Files, K: Sink>(
    alloc: Global,
    report: &GroupReport,
    checker: &CheckerChoice,
    files: &F,
    out: &mut K,
) -> Result<Verdict, RunFault>
    requires { IsWorking (K.device out.old) }
    ensures executed { RunsWithCheckerOrEnds (F.opener files.now) checker.now
        (λ G. ExecutesReport (F.opener files.now) G report.now
        (K.device out.old) (K.device out.new) result) (K.device out.old) (K.device out.new) result }
    ensures write { MeansWrite (report_stores report.now) (K.device out.new) result }
{
    match load_checker(alloc, checker, files) {
        Ok(loaded) => report_by(alloc, report, files, loaded, out),
        Err(fault) => write_refusal(alloc, checker, files, fault, out),
    }
}

/// Executes a command, and writes its report on `out`. The receipts are read first, if there are any. Then what a group is
/// followed from is read, then the log is opened, and then the report begins. A KeyPackage is read after the lines of those
/// before it were written.
///
/// No postcondition says in which order files are opened, or that no other file is, since nothing is known of an opener
/// except what it may give. The contract says which file is read as which input, that nothing is written if one cannot
/// be opened, and that a bad receipts file is reported alone, with `No`.
///
/// # Errors
///
/// - `Read` if a file cannot be opened, or if one fails. Nothing is written if a file other than a KeyPackage cannot be opened.
/// - `Write` if the output fails.
/// - `Memory`.
///
/// A prefix of the report may have been written, except if memory runs out in a report other than `validate-key-package`,
/// `replay`, `signatures` and `gate`.
///
/// With `--save`, `replay` stores the state after its last whole message once its report is written whole, if a follower
/// has started. If the state has no file or its file cannot be stored, the fault is `Write` too, after the whole report.
pub fn execute_order<F: Files, K: Sink>(
    alloc: Global,
    order: &Order,
    files: &F,
    out: &mut K,
) -> Result<Verdict, RunFault>
    requires { IsWorking (K.device out.old) }
    ensures executed { ExecutesOrder (F.opener files.now) order.now (K.device out.old) (K.device out.new) result }
    ensures write { MeansWrite (stores_state order.now) (K.device out.new) result }
{
    match order {
        Order::Show {
            profile,
            kind,
            file,
        } => execute_show(alloc, *profile, *kind, file, files, out),
        Order::Group { report, checker } => execute_report(alloc, report, checker, files, out),
        Order::Check { kind, file } => execute_check(alloc, *kind, file, files, out),
    }
}
