//! The checker of a report.

use mls_check::{LearningCheck, OutOfMemory, Receipts, ReceiptsFault, SignatureCheck};
use mls_wire::RunFault;

/// A checker of the program, once the receipts file is read.
#[derive(Drop)]
pub enum ProgramChecker {
    /// Accepts each signature.
    All,
    /// Accepts those that have a receipt in the set.
    Known(Receipts),
}

impl SignatureCheck for ProgramChecker {
    ghost use Rattle.mls_cli.specs.ProgramCheckersInternal.{checker_verify};

    ghost meaning = { checker_verify };

    fn good(&self, suite: u16, key: &[u8], content: &[&[u8]], signature: &[u8]) -> bool {
        match self {
            ProgramChecker::All => true,
            ProgramChecker::Known(receipts) => receipts.good(suite, key, content, signature),
        }
    }

    fn accepts_all(&self) -> bool {
        match self {
            ProgramChecker::All => true,
            ProgramChecker::Known(_) => false,
        }
    }
}

impl LearningCheck for ProgramChecker {
    fn learn_receipt(&mut self, digest: [u8; 32]) -> Result<(), OutOfMemory> {
        match self {
            ProgramChecker::All => Ok(()),
            ProgramChecker::Known(receipts) => receipts.learn_receipt(digest),
        }
    }
}

/// Why there is no checker.
#[derive(Clone, Copy)]
pub enum CheckerFault {
    /// The receipts file cannot be read.
    Lost(RunFault),
    /// It is no receipts file.
    Refused(ReceiptsFault),
}
