//! The report of a file of receipts that is not readable.

ghost use Rattle.std.specs.Prelude.{◌≡◌, ◌≢◌, [], Err, IfOk, OnErr, IfErr, string_bytes};
ghost use Rattle.std.specs.Io.KnownBytes.{Appends};
ghost use Rattle.mls_wire.specs.Devices.{AppendsPrefix, IsWorking, WriteFails};
ghost use Rattle.mls_report.specs.UnreadableReceipts as reports;
ghost use Rattle.mls_report.specs.UnreadableReceipts.{ReportsReceipts};

use mls_check::ReceiptsFault;
use mls_show::{Verdict, write_text};
use mls_wire::{RunFault, Sink};
use std::alloc::Global;

/// Returns the line of a file of receipts that is not readable.
fn receipts_line(alloc: Global, fault: ReceiptsFault) -> Result<String, RunFault>
    ensures line { IfOk result
        (λ text. (fault ≢ ReceiptsFault.OutOfMemory)
        × (string_bytes text ≡ reports.receipts_line fault)) }
    ensures memory { IfErr result (λ e. e ≡ RunFault.Memory) }
{
    match fault {
        ReceiptsFault::BadLine(line) => Ok(format!(in alloc; "receipts unreadable {line}\n")?),
        ReceiptsFault::TooLong => Ok(String::from_str(alloc, "receipts unreadable TooLong\n")?),
        ReceiptsFault::OutOfMemory => Err(RunFault::Memory),
    }
}

/// Writes why a file of receipts is not readable: one line that begins with `receipts unreadable`, with the first line
/// that is no receipt, or `TooLong`. The verdict is `No`.
///
/// # Errors
///
/// `Write` if the output fails; a prefix of the line may be written. `Memory` comes before anything is written; it is
/// always the result for a fault of memory.
pub fn report_unreadable_receipts<K: Sink>(
    alloc: Global,
    fault: ReceiptsFault,
    out: &mut K,
) -> Result<Verdict, RunFault>
    requires { IsWorking (K.device out.old) }
    ensures printed { IfOk result (ReportsReceipts fault (K.device out.old).bytes (K.device out.new).bytes) }
    ensures effect_on_error { OnErr result
        (AppendsPrefix (K.device out.old).bytes (K.device out.new).bytes (reports.receipts_line fault)) }
    ensures memory { result ≡ Err RunFault.Memory
        → Appends (K.device out.old).bytes (K.device out.new).bytes [] }
    ensures write { WriteFails result (K.device out.new) }
    ensures fault { IfErr result (λ e. e ≢ RunFault.Read) }
{
    let line = receipts_line(alloc, fault)?;
    write_text(out, line.as_str())?;
    Ok(Verdict::No)
}
