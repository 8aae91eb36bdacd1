//! The records of a log, or of the input of the gate.

ghost use Rattle.std.specs.Prelude.{◌≡◌, ◌≢◌, false, IfOk, IfErr, OnErr};
ghost use Rattle.mls_wire.specs.Devices.{IsWorking, ReadFails};
ghost use Rattle.mls_report.specs.ReplaySteps.{ReadsStep, ReadsUndecided};

use mls_wire::{LogStep, Records, RunFault, Source};

/// What [`next_record`] has read.
#[derive(Clone, Copy)]
pub enum RecordStep {
    /// A record. The reader holds its body.
    Record,
    /// No record: the log has ended or is broken.
    End { is_broken: bool },
}

/// Reads the next record of a log, or of the input of the gate.
///
/// # Errors
///
/// - `Read` if the source fails.
/// - `Memory`.
pub fn next_record<L: Source>(reader: &mut Records, log: &mut L) -> Result<RecordStep, RunFault>
    requires going { reader.old.is_over ≡ false }
    requires log { IsWorking (L.device log.old) }
    ensures step { IfOk result
        (ReadsStep (L.device log.old).bytes (L.device log.new).bytes reader.old reader.new) }
    ensures undecided { OnErr result
        (ReadsUndecided (L.device log.old).bytes (L.device log.new).bytes reader.old.most) }
    ensures fault { IfErr result (λ e. e ≢ RunFault.Write) }
    ensures read { ReadFails result (L.device log.new) }
{
    match reader.next(log)? {
        LogStep::Record => Ok(RecordStep::Record),
        LogStep::End | LogStep::Over => Ok(RecordStep::End { is_broken: false }),
        LogStep::Broken => Ok(RecordStep::End { is_broken: true }),
    }
}
