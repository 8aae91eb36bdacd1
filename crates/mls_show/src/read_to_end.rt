//! Reading a source to its end.

ghost use Rattle.std.specs.Prelude.{◌≡◌, ◌≢◌, ◌<◌, ◌≤◌, length, take, IfOk, IfErr, OnErr, OnOk};
ghost use Rattle.std.specs.Io.KnownBytes.{Consumes, Keeps, IsAtEnd};
ghost use Rattle.mls_wire.specs.Devices.{HasFailed, IsWorking, ReadFails};
ghost use Rattle.mls_show.specs.ReadAll.{ReadsAll, ReadsSome};

use mls_wire::{DeviceFault, MAX_INPUT, RunFault, Source};
use std::alloc::Global;

/// The most bytes that one call reads of a source.
const PIECE: usize = 65536;

/// Reads one piece from the source.
fn pull_piece<S: Source>(source: &mut S, piece: &mut [u8]) -> Result<usize, RunFault>
    ensures bound { IfOk result (λ n. n ≤ length piece.new) }
    ensures bytes { IfOk result
        (λ n. Consumes (S.device source.old).bytes (S.device source.new).bytes (take n piece.new)) }
    ensures end { IfOk result (λ n. n ≡ 0 → 0 < length piece.new → IsAtEnd (S.device source.new).bytes) }
    ensures fault { IfErr result (λ e. (e ≡ RunFault.Read) × HasFailed (S.device source.new)) }
    ensures unchanged_on_error { OnErr result (Keeps (S.device source.old).bytes (S.device source.new).bytes) }
    ensures same_length { length piece.new ≡ length piece.old }
    ensures going { IsWorking (S.device source.old) → OnOk result (IsWorking (S.device source.new)) }
{
    match source.pull(piece) {
        Ok(n) => Ok(n),
        Err(DeviceFault) => Err(RunFault::Read),
    }
}

/// Reads all bytes of the source, but at most `MAX_INPUT + 1`: a longer input is refused anyway.
///
/// # Errors
///
/// `Read` if the source fails, `Memory` if the bytes can't be stored. The source is then after the bytes that were read.
pub fn read_all<S: Source>(alloc: Global, source: &mut S) -> Result<Vec<u8>, RunFault>
    requires { IsWorking (S.device source.old) }
    ensures all { IfOk result
        (λ bytes. ReadsAll (S.device source.old).bytes (S.device source.new).bytes bytes.items) }
    ensures effect_on_error { OnErr result (ReadsSome (S.device source.old).bytes (S.device source.new).bytes) }
    ensures read { ReadFails result (S.device source.new) }
    ensures fault { IfErr result (λ e. e ≢ RunFault.Write) }
{
    let mut bytes = Vec::new(alloc);
    let mut piece = [0u8; PIECE];
    'pieces: while bytes.len() <= MAX_INPUT {
        let room = (MAX_INPUT + 1 - bytes.len()).min(PIECE);
        let n = pull_piece(source, &mut piece[..room])?;
        if n == 0 {
            return Ok(bytes);
        }
        bytes.extend_from_slice(&piece[..n])?;
    }
    Ok(bytes)
}
