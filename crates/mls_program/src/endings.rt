//! How a program ends: what is noted of a report's result, or of a command line without a command, and the exit status.

ghost use Rattle.std.specs.Prelude.{◌≡◌};
ghost use Rattle.mls_wire.specs.Devices.{IsWorking};
ghost use Rattle.mls_program.specs.Endings.{Ends, EndsHelp, EndsFault, WritesOrFails};
ghost use Rattle.mls_program.specs.Endings as specs;

use mls_commands::OrderFault;
use mls_show::{Verdict, status_of, write_text};
use mls_wire::{RunFault, Sink, write_all};

/// Returns what is noted of how a report ended.
fn fault_note(outcome: &Result<Verdict, RunFault>) -> &'static str
    ensures { result.now ≡ specs.fault_note outcome.now }
{
    match outcome {
        Ok(_) => "",
        Err(RunFault::Read) => "fault: read\n",
        Err(RunFault::Write) => "fault: write\n",
        Err(RunFault::Memory) => "fault: memory\n",
    }
}

/// Notes a text. If `notes` fails, that cannot be reported.
pub(crate) fn note<N: Sink>(notes: &mut N, text: &str)
    requires { IsWorking (N.device notes.old) }
    ensures { WritesOrFails (N.device notes.old) (N.device notes.new) text.now }
{
    let _ = write_all(notes, text.as_bytes());
}

/// Notes a fault, and returns the exit status.
pub fn end<N: Sink>(outcome: &Result<Verdict, RunFault>, notes: &mut N) -> u8
    requires { IsWorking (N.device notes.old) }
    ensures { Ends (N.device notes.old) (N.device notes.new) result outcome.now }
{
    note(notes, fault_note(outcome));
    status_of(outcome)
}

/// Writes help.
fn help<K: Sink, N: Sink>(text: &str, out: &mut K, notes: &mut N) -> u8
    requires out { IsWorking (K.device out.old) }
    requires notes { IsWorking (N.device notes.old) }
    ensures { EndsHelp (K.device out.old) (K.device out.new) (N.device notes.old) (N.device notes.new)
        result text.now }
{
    match write_text(out, text) {
        Ok(()) => end(&Ok(Verdict::Yes), notes),
        Err(fault) => end(&Err(fault), notes),
    }
}

/// Ends the program without a command, and returns the exit status. Help is written on `out`, anything else on `notes`.
pub fn run_fault<K: Sink, N: Sink>(fault: &OrderFault, out: &mut K, notes: &mut N) -> u8
    requires out { IsWorking (K.device out.old) }
    requires notes { IsWorking (N.device notes.old) }
    ensures { EndsFault (K.device out.old) (K.device out.new) (N.device notes.old) (N.device notes.new)
        result fault.now }
{
    match fault {
        OrderFault::Help(text) => help(text.as_str(), out, notes),
        OrderFault::Usage(text) => {
            note(notes, text.as_str());
            fault.status()
        }
        OrderFault::Memory => end(&Err(RunFault::Memory), notes),
    }
}
