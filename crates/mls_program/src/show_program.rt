//! The program that has the command `show` alone, except what opens real files and ends the process.

ghost use Rattle.std.specs.Prelude.{map, string_bytes};
ghost use Rattle.mls_wire.specs.Devices.{IsWorking};
ghost use Rattle.mls_program.specs.ShowProgram.{EndsShowOrder, RunsShowProgram};

use crate::endings::{end, note, run_fault};
use crate::files::Files;
use crate::show_execution::execute_show;
use mls_commands::{Order, order_of};
use mls_wire::Sink;
use std::alloc::Global;

/// What is noted of a command that the program does not have.
const OTHER_COMMAND: &str = "usage: this program has the command show alone\n";

/// Executes the command `show`, or refuses another one, and returns the exit status.
fn run_show_order<F: Files, K: Sink, N: Sink>(
    alloc: Global,
    order: &Order,
    files: &F,
    out: &mut K,
    notes: &mut N,
) -> u8
    requires out { IsWorking (K.device out.old) }
    requires notes { IsWorking (N.device notes.old) }
    ensures { EndsShowOrder (F.opener files.now) (K.device out.old) (K.device out.new)
        (N.device notes.old) (N.device notes.new) result order.now }
{
    match order {
        Order::Show {
            profile,
            kind,
            file,
        } => {
            let outcome = execute_show(alloc, *profile, *kind, file, files, out);
            end(&outcome, notes)
        }
        Order::Group { .. } | Order::Check { .. } => {
            note(notes, OTHER_COMMAND);
            2
        }
    }
}

/// Runs the program that has the command `show` alone, except what opens real files and ends the process. It parses the
/// arguments as the whole program does, executes `show`, and returns the exit status. The first argument is the program's
/// name. The report and help are written on `out`, usage and faults on `notes`. Any command other than `show` is refused:
/// nothing is written, and a usage text is noted.
///
/// The status is 0 for yes and for help, 1 for no, 2 for arguments that are no command and for another command, and 3 for a
/// fault.
pub fn run_show_program<F: Files, K: Sink, N: Sink>(
    alloc: Global,
    words: &[String],
    files: &F,
    out: &mut K,
    notes: &mut N,
) -> u8
    requires out { IsWorking (K.device out.old) }
    requires notes { IsWorking (N.device notes.old) }
    ensures { RunsShowProgram (F.opener files.now) (K.device out.old) (K.device out.new)
        (N.device notes.old) (N.device notes.new) result (map string_bytes words.now) }
{
    match order_of(alloc, words) {
        Ok(order) => {
            let status = run_show_order(alloc, &order, files, out, notes);
            drop(order);
            status
        }
        Err(fault) => {
            let status = run_fault(&fault, out, notes);
            drop(fault);
            status
        }
    }
}
