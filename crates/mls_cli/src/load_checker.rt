//! The checker of a choice on the command line: a receipts file is read.

ghost use Rattle.std.specs.Prelude.{IfOk, IfErr};
ghost use Rattle.mls_cli.specs.ProgramCheckers.{IsMeaning};
ghost use Rattle.mls_cli.specs.ProgramCheckersInternal.{checker_verify};
ghost use Rattle.mls_cli.specs.CheckerFaults.{IsCheckerFault};
ghost use Rattle.mls_commands.specs.declared.order.CheckerChoice.TheVariants as choices;

use crate::program_checker::{CheckerFault, ProgramChecker};
use crate::read_files::read_file;
use mls_check::Receipts;
use mls_commands::{CheckerChoice, FileName};
use mls_program::Files;
use std::alloc::Global;

/// Returns the checker of a receipts file.
fn read_listed<F: Files>(
    alloc: Global,
    file: &FileName,
    files: &F,
) -> Result<ProgramChecker, CheckerFault>
    ensures checker { IfOk result (λ checker.
        IsMeaning (F.opener files.now) (choices.Receipts file.now) (checker_verify checker)) }
    ensures fault { IfErr result (IsCheckerFault (F.opener files.now) (choices.Receipts file.now)) }
{
    let bytes = match read_file(alloc, file, files) {
        Ok(bytes) => bytes,
        Err(fault) => return Err(CheckerFault::Lost(fault)),
    };
    match Receipts::read(alloc, bytes.as_slice()) {
        Ok(receipts) => Ok(ProgramChecker::Known(receipts)),
        Err(fault) => Err(CheckerFault::Refused(fault)),
    }
}

/// Returns the checker of a choice. A receipts file is read.
pub(crate) fn load_checker<F: Files>(
    alloc: Global,
    checker: &CheckerChoice,
    files: &F,
) -> Result<ProgramChecker, CheckerFault>
    ensures checker { IfOk result
        (λ c. IsMeaning (F.opener files.now) checker.now (checker_verify c)) }
    ensures fault { IfErr result (IsCheckerFault (F.opener files.now) checker.now) }
{
    match checker {
        CheckerChoice::Trust => Ok(ProgramChecker::All),
        CheckerChoice::Receipts(file) => read_listed(alloc, file, files),
        CheckerChoice::NoReceipts => Ok(ProgramChecker::Known(Receipts::new(alloc))),
    }
}
