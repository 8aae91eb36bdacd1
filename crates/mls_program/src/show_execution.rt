//! Executing the command `show`: the file that it names is opened, and its report is made of it.

ghost use Rattle.mls_wire.specs.Devices.{IsWorking, WriteFails};
ghost use Rattle.mls_program.specs.ShowExecution.{ExecutesShow};

use crate::files::Files;
use mls_commands::FileName;
use mls_msgs::Profile;
use mls_show::{ShowKind, Verdict, run_show_in};
use mls_wire::{RunFault, Sink};
use std::alloc::Global;

/// Shows a file. A message is decoded in `profile`, also that of a log.
///
/// # Errors
///
/// - `Read` if the file cannot be opened, and then nothing is written, or if it fails.
/// - `Write` if the output fails; a prefix of the report may be written.
/// - `Memory`. After it and after a file that fails nothing is written, or of a log the lines of the records before.
pub fn execute_show<F: Files, K: Sink>(
    alloc: Global,
    profile: Profile,
    kind: ShowKind,
    file: &FileName,
    files: &F,
    out: &mut K,
) -> Result<Verdict, RunFault>
    requires { IsWorking (K.device out.old) }
    ensures executed { ExecutesShow (F.opener files.now)
        profile kind file.now (K.device out.old).bytes (K.device out.new).bytes result }
    ensures write { WriteFails result (K.device out.new) }
{
    let Some(mut input) = files.open(file.as_str()) else {
        return Err(RunFault::Read);
    };
    run_show_in(alloc, profile, kind, &mut input, out)
}
