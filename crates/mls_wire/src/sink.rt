//! Devices that take bytes, in pieces of any size.

ghost use Rattle.std.specs.Prelude.{◌≡◌, ◌<◌, ◌||◌, IfOk, OnOk, OnErr, IsErr, is_err, length};
ghost use Rattle.std.specs.Io.{WritesAtMost};
ghost use Rattle.std.specs.Io.KnownBytes.{Appends, WriteAppends};
ghost use Rattle.mls_wire.specs.Devices.{AppendsPrefix, Device, working, HasFailed};

use crate::fault::DeviceFault;
use std::io::Write;

/// A device that takes bytes.
pub trait Sink: Drop {
    /// The bytes that it holds, if they are known, and whether it has failed.
    ghost device: { Self → Device };

    /// Takes bytes from the front of `bytes`, and returns how many: 0 only if `bytes` is empty. A device that has
    /// failed returns [`DeviceFault`].
    fn push(&mut self, bytes: &[u8]) -> Result<usize, DeviceFault>
        ensures bound { WritesAtMost result bytes.now }
        ensures bytes { WriteAppends (device self.old).bytes (device self.new).bytes result bytes.now }
        ensures takes { IfOk result (λ n. 0 < length bytes.now → 0 < n) }
        ensures failed { (device self.new).has_failed ≡ ((device self.old).has_failed || is_err result) }
        ensures remains_failed { HasFailed (device self.old) → IsErr result };

    /// Returns whether a call has returned [`DeviceFault`].
    fn failed(&self) -> bool
        ensures { result ≡ (device self.now).has_failed };
}

/// A sink over a writer of std. Any error of the writer is a failure of the sink. So is a write that takes nothing
/// although there are bytes.
#[derive(Drop)]
pub struct StdSink<W: Write + Drop> {
    writer: W,
    has_failed: bool,
}

impl<W: Write + Drop> StdSink<W> {
    /// Returns a sink over the writer, which has not failed.
    pub fn new(writer: W) -> StdSink<W>
        ensures { ⟦<StdSink<W> as Sink>⟧.device result ≡ working (W.contents writer) }
    {
        StdSink {
            writer,
            has_failed: false,
        }
    }
}

impl<W: Write + Drop> Sink for StdSink<W> {
    ghost device = { λ s. record { bytes = W.contents s.writer; has_failed = s.has_failed } };

    fn push(&mut self, bytes: &[u8]) -> Result<usize, DeviceFault> {
        if self.has_failed {
            return Err(DeviceFault);
        }
        match self.writer.write(bytes) {
            Ok(n) if n > 0 || bytes.is_empty() => Ok(n),
            _ => {
                self.has_failed = true;
                Err(DeviceFault)
            }
        }
    }

    fn failed(&self) -> bool {
        self.has_failed
    }
}

/// Pushes all the bytes, in as few pieces as the sink takes. On error a prefix of them was taken.
pub fn write_all<K: Sink>(sink: &mut K, bytes: &[u8]) -> Result<(), DeviceFault>
    ensures all { OnOk result (Appends (K.device sink.old).bytes (K.device sink.new).bytes bytes.now) }
    ensures effect_on_error { OnErr result
        (AppendsPrefix (K.device sink.old).bytes (K.device sink.new).bytes bytes.now) }
    ensures failed { (K.device sink.new).has_failed ≡ ((K.device sink.old).has_failed || is_err result) }
{
    let mut rest = bytes;
    while !rest.is_empty() {
        let n = sink.push(rest)?;
        rest = &rest[n..];
    }
    Ok(())
}
