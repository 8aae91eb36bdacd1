//! The program, except what opens real files and ends the process.

ghost use Rattle.std.specs.Prelude.{map, string_bytes};
ghost use Rattle.mls_wire.specs.Devices.{IsWorking};
ghost use Rattle.mls_cli.specs.Program.{EndsOrder, RunsProgram};

use crate::execution::execute_order;
use mls_commands::{Order, order_of};
use mls_program::{Files, end, run_fault};
use mls_wire::Sink;
use std::alloc::Global;

/// Executes a command.
fn run_order<F: Files, K: Sink, N: Sink>(
    alloc: Global,
    order: &Order,
    files: &F,
    out: &mut K,
    notes: &mut N,
) -> u8
    requires out { IsWorking (K.device out.old) }
    requires notes { IsWorking (N.device notes.old) }
    ensures { EndsOrder (F.opener files.now) (K.device out.old) (K.device out.new)
        (N.device notes.old) (N.device notes.new) result order.now }
{
    let outcome = execute_order(alloc, order, files, out);
    end(&outcome, notes)
}

/// Runs the program, except what opens real files and ends the process. It parses the arguments, of which the first is
/// the program's name, executes their command, and returns the exit status. Reports and help are written on `out`,
/// usage and faults on `notes`.
///
/// The status is 0 for yes and for help, 1 for no, 2 for arguments that are no command, and 3 for a fault.
pub fn run_program<F: Files, K: Sink, N: Sink>(
    alloc: Global,
    words: &[String],
    files: &F,
    out: &mut K,
    notes: &mut N,
) -> u8
    requires out { IsWorking (K.device out.old) }
    requires notes { IsWorking (N.device notes.old) }
    ensures { RunsProgram (F.opener files.now) (K.device out.old) (K.device out.new)
        (N.device notes.old) (N.device notes.new) result
        (map string_bytes words.now) }
{
    match order_of(alloc, words) {
        Ok(order) => {
            let status = run_order(alloc, &order, files, out, notes);
            drop(order);
            status
        }
        Err(fault) => {
            let status = run_fault(&fault, out, notes);
            drop(fault);
            status
        }
    }
}
