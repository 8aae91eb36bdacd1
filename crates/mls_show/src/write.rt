//! Writing to a sink.

ghost use Rattle.std.specs.Prelude.{◌≡◌, IfErr, OnErr, OnOk};
ghost use Rattle.std.specs.Io.KnownBytes.{Appends};
ghost use Rattle.mls_wire.specs.Devices.{AppendsPrefix, IsWorking, WriteFails};

use mls_wire::{DeviceFault, RunFault, Sink, write_all};

/// Writes bytes, in as few pieces as the sink takes. If the sink fails, a prefix may be written.
pub fn write_bytes<K: Sink>(out: &mut K, bytes: &[u8]) -> Result<(), RunFault>
    requires { IsWorking (K.device out.old) }
    ensures all { OnOk result (Appends (K.device out.old).bytes (K.device out.new).bytes bytes.now) }
    ensures effect_on_error { OnErr result (AppendsPrefix (K.device out.old).bytes (K.device out.new).bytes bytes.now) }
    ensures fault { IfErr result (λ e. e ≡ RunFault.Write) }
    ensures write { WriteFails result (K.device out.new) }
{
    match write_all(out, bytes) {
        Ok(()) => Ok(()),
        Err(DeviceFault) => Err(RunFault::Write),
    }
}

/// Writes a text, as `write_bytes`.
pub fn write_text<K: Sink>(out: &mut K, text: &str) -> Result<(), RunFault>
    requires { IsWorking (K.device out.old) }
    ensures all { OnOk result (Appends (K.device out.old).bytes (K.device out.new).bytes text.now) }
    ensures effect_on_error { OnErr result (AppendsPrefix (K.device out.old).bytes (K.device out.new).bytes text.now) }
    ensures fault { IfErr result (λ e. e ≡ RunFault.Write) }
    ensures write { WriteFails result (K.device out.new) }
{
    write_bytes(out, text.as_bytes())
}
