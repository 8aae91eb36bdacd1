//! Executing the reports on KeyPackages. Each file is read when its turn comes, after the lines of those before it were written.

ghost use Rattle.std.specs.Prelude.{◌≡◌, ◌≢◌, ◌<◌, ◌+◌, ◌⊎◌, IfOk, IfErr, if◌then◌else◌};
ghost use Rattle.mls_wire.specs.Devices.{IsWorking, WriteFails};
ghost use Rattle.mls_program.specs.Files.{CannotReadFile};
ghost use Rattle.mls_report.specs.PackagesReport.{signature_listing, validation};
ghost use Rattle.mls_cli.specs.PackagesExecution.{ExecutesPackages, FindsPackage};
ghost use Rattle.mls_cli.specs.ProgramCheckersInternal.{checker_verify};

use crate::program_checker::ProgramChecker;
use crate::read_files::read_file;
use mls_check::OutOfMemory;
use mls_commands::FileName;
use mls_examine::{PackageFinding, package_finding};
use mls_msgs::Rules;
use mls_program::Files;
use mls_report::{report_package, report_package_count, report_package_signatures};
use mls_show::Verdict;
use mls_wire::{RunFault, Sink};
use std::alloc::Global;

/// Returns what is found of the KeyPackage in a file.
fn find_package<F: Files>(
    alloc: Global,
    rules: Rules,
    name: &FileName,
    files: &F,
    checker: &ProgramChecker,
) -> Result<PackageFinding, RunFault>
    ensures found { IfOk result
        (FindsPackage (F.opener files.now) (checker_verify checker.now) rules name.now) }
    ensures unread { IfErr result (λ e. (e ≡ RunFault.Memory)
        ⊎ CannotReadFile (F.opener files.now) name.now e) }
    ensures fault { IfErr result (λ e. e ≢ RunFault.Write) }
{
    let bytes = read_file(alloc, name, files)?;
    match package_finding(alloc, rules, bytes.as_slice(), checker) {
        Ok(finding) => Ok(finding),
        Err(OutOfMemory) => Err(RunFault::Memory),
    }
}

/// Returns the number after this one. No number is larger than 4,294,967,295: more files count as out of memory.
fn number_after(number: u32) -> Result<u32, RunFault>
    ensures next { IfOk result (λ next. next ≡ number + 1) }
    ensures memory { IfErr result (λ e. e ≡ RunFault.Memory) }
{
    match number.checked_add(1) {
        Some(next) => Ok(next),
        None => Err(RunFault::Memory),
    }
}

/// Returns the number of good KeyPackages after one more, which is good or not.
fn good_after(good: u32, is_good: bool) -> u32
    requires { good < 4294967295 }
    ensures { result ≡ good + (if is_good then 1 else 0) }
{
    if is_good { good + 1 } else { good }
}

/// Returns the verdict after one more file, which can be read or not.
fn verdict_after(verdict: Verdict, is_readable: bool) -> Verdict
    ensures { result ≡ (if is_readable then verdict else Verdict.No) }
{
    if is_readable { verdict } else { Verdict::No }
}

/// Says which KeyPackages are good by themselves, and meet the strict rules.
pub(crate) fn execute_packages<F: Files, K: Sink>(
    alloc: Global,
    rules: Rules,
    names: &[FileName],
    files: &F,
    checker: &ProgramChecker,
    out: &mut K,
) -> Result<Verdict, RunFault>
    requires { IsWorking (K.device out.old) }
    ensures executed { ExecutesPackages (F.opener files.now) (checker_verify checker.now) rules validation
        names.now (K.device out.old) (K.device out.new) result }
    ensures write { WriteFails result (K.device out.new) }
{
    let mut all = 0;
    let mut good = 0;
    for name in names {
        let number = number_after(all)?;
        let finding = find_package(alloc, rules, name, files, checker)?;
        let is_good = report_package(alloc, number, &finding, out)?;
        good = good_after(good, is_good);
        all = number;
    }
    report_package_count(alloc, good, all, out)
}

/// Prints the signatures to verify of KeyPackages, of each that is good but for them and meets the strict rules.
pub(crate) fn execute_package_signatures<F: Files, K: Sink>(
    alloc: Global,
    rules: Rules,
    names: &[FileName],
    files: &F,
    receipts: &ProgramChecker,
    out: &mut K,
) -> Result<Verdict, RunFault>
    requires { IsWorking (K.device out.old) }
    ensures executed { ExecutesPackages (F.opener files.now) (checker_verify receipts.now) rules
        signature_listing names.now (K.device out.old) (K.device out.new) result }
    ensures write { WriteFails result (K.device out.new) }
{
    let mut all = 0;
    let mut verdict = Verdict::Yes;
    for name in names {
        let number = number_after(all)?;
        let finding = find_package(alloc, rules, name, files, receipts)?;
        let is_readable = report_package_signatures(alloc, number, &finding, out)?;
        verdict = verdict_after(verdict, is_readable);
        all = number;
    }
    Ok(verdict)
}
