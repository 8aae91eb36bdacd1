//! Reading the files that a command names.

ghost use Rattle.std.specs.Prelude.{◌≢◌, IfOk, IfErr, option_map};
ghost use Rattle.mls_start.specs.Inputs.{inputs_of};
ghost use Rattle.mls_program.specs.Files.{ReadsFile, CannotReadFile, ReadsNamed, CannotReadNamed};
ghost use Rattle.mls_cli.specs.GroupStarts.{ReadsStart, CannotReadStart};

use mls_commands::{FileName, GroupFiles};
use mls_program::Files;
use mls_show::read_all;
use mls_start::StartBytes;
use mls_wire::RunFault;
use std::alloc::Global;

/// Returns the bytes of a file.
pub(crate) fn read_file<F: Files>(
    alloc: Global,
    file: &FileName,
    files: &F,
) -> Result<Vec<u8>, RunFault>
    ensures read { IfOk result (λ bytes. ReadsFile (F.opener files.now) file.now bytes.items) }
    ensures unread { IfErr result (CannotReadFile (F.opener files.now) file.now) }
    ensures fault { IfErr result (λ e. e ≢ RunFault.Write) }
{
    let Some(mut input) = files.open(file.as_str()) else {
        return Err(RunFault::Read);
    };
    read_all(alloc, &mut input)
}

/// Returns the bytes of a file with an optional name, if there is a name.
fn read_named<F: Files>(
    alloc: Global,
    file: &Option<FileName>,
    files: &F,
) -> Result<Option<Vec<u8>>, RunFault>
    ensures read { IfOk result
        (λ bytes. ReadsNamed (F.opener files.now) file.now (option_map (λ v. v.items) bytes)) }
    ensures unread { IfErr result (CannotReadNamed (F.opener files.now) file.now) }
    ensures fault { IfErr result (λ e. e ≢ RunFault.Write) }
{
    match file {
        Some(file) => Ok(Some(read_file(alloc, file, files)?)),
        None => Ok(None),
    }
}

/// Returns what a group is followed from: the bytes of the files that a command names, and the strict rules that it asks.
pub(crate) fn read_start<F: Files>(
    alloc: Global,
    group: &GroupFiles,
    files: &F,
) -> Result<StartBytes, RunFault>
    ensures read { IfOk result
        (λ start. ReadsStart (F.opener files.now) group.now (inputs_of start)) }
    ensures unread { IfErr result (CannotReadStart (F.opener files.now) group.now) }
    ensures fault { IfErr result (λ e. e ≢ RunFault.Write) }
{
    match group {
        GroupFiles::Info {
            rules,
            profile,
            info,
            tree,
        } => {
            let info = read_file(alloc, info, files)?;
            let tree = read_named(alloc, tree, files)?;
            Ok(StartBytes::Info {
                rules: *rules,
                profile: *profile,
                info,
                tree,
            })
        }
        GroupFiles::State { rules, state } => {
            let bytes = read_file(alloc, state, files)?;
            Ok(StartBytes::State {
                rules: *rules,
                bytes,
            })
        }
    }
}
