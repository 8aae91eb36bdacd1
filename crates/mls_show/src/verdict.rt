//! How a report ends, and the exit status.

ghost use Rattle.std.specs.Prelude.{◌≡◌};
ghost use Rattle.mls_show.specs.Status.{status};

use mls_wire::RunFault;

/// The verdict of a report that is written whole.
#[derive(Clone, Copy, Debug, PartialEq, Eq)]
pub enum Verdict {
    /// Each input is readable, and none was refused.
    Yes,
    /// An input is not readable, or was refused.
    No,
}

/// Returns the exit status: 0 for `Yes`, 1 for `No`, 3 for a fault.
pub fn status_of(outcome: &Result<Verdict, RunFault>) -> u8
    ensures { result ≡ status outcome.now }
{
    match outcome {
        Ok(Verdict::Yes) => 0,
        Ok(Verdict::No) => 1,
        Err(_) => 3,
    }
}
