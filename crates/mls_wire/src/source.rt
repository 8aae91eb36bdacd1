//! Devices that give bytes, in pieces of any size.

ghost use Rattle.std.specs.Prelude.{◌≡◌, ◌<◌, ◌≤◌, ◌||◌, ℕ, List, IfOk, IfErr, OnErr, IsErr, is_err, length, take};
ghost use Rattle.std.specs.Io.{ReadsAtMost};
ghost use Rattle.std.specs.Io.KnownBytes.{Consumes, IsAtEnd, ReadConsumes};
ghost use Rattle.mls_wire.specs.Devices.{Device, working, HasFailed};

use crate::fault::{DeviceFault, RunFault};
use std::io::Read;

/// A device that gives bytes.
pub trait Source: Drop {
    /// The bytes that are left, if they are known, and whether it has failed.
    ghost device: { Self → Device };

    /// Puts bytes at the front of `into`, and returns how many: 0 only if `into` is empty, or at the end. A device that
    /// has failed returns [`DeviceFault`].
    fn pull(&mut self, into: &mut [u8]) -> Result<usize, DeviceFault>
        ensures bound { ReadsAtMost result into.new }
        ensures bytes { ReadConsumes (device self.old).bytes (device self.new).bytes result into.new }
        ensures failed { (device self.new).has_failed ≡ ((device self.old).has_failed || is_err result) }
        ensures remains_failed { HasFailed (device self.old) → IsErr result };

    /// Returns whether a call has returned [`DeviceFault`].
    fn failed(&self) -> bool
        ensures { result ≡ (device self.now).has_failed };
}

/// A source over a reader of std. Any error of the reader is a failure of the source.
#[derive(Drop)]
pub struct StdSource<R: Read + Drop> {
    reader: R,
    has_failed: bool,
}

impl<R: Read + Drop> StdSource<R> {
    /// Returns a source over the bytes that the reader has left, which has not failed.
    pub fn new(reader: R) -> StdSource<R>
        ensures { ⟦<StdSource<R> as Source>⟧.device result ≡ working (R.remaining reader) }
    {
        StdSource {
            reader,
            has_failed: false,
        }
    }
}

impl<R: Read + Drop> Source for StdSource<R> {
    ghost device = { λ s. record { bytes = R.remaining s.reader; has_failed = s.has_failed } };

    fn pull(&mut self, into: &mut [u8]) -> Result<usize, DeviceFault> {
        if self.has_failed {
            return Err(DeviceFault);
        }
        match self.reader.read(into) {
            Ok(n) => Ok(n),
            Err(_) => {
                self.has_failed = true;
                Err(DeviceFault)
            }
        }
    }

    fn failed(&self) -> bool {
        self.has_failed
    }
}

/// Fills `into` from the front, as far as there are bytes, and returns how many there were. If the source fails, the
/// bytes that it gave before are lost: the error is [`RunFault::Read`].
pub fn fill<S: Source>(source: &mut S, into: &mut [u8]) -> Result<usize, RunFault>
    ensures bound { IfOk result (λ n. n ≤ length into.new) }
    ensures bytes { IfOk result
        (λ n. Consumes (S.device source.old).bytes (S.device source.new).bytes (take n into.new)) }
    ensures end { IfOk result (λ n. n < length into.new → IsAtEnd (S.device source.new).bytes) }
    ensures len { length into.new ≡ length into.old }
    ensures effect_on_error { OnErr result
        ((got : List ℕ)
        × (length got < length into.old)
        × Consumes (S.device source.old).bytes (S.device source.new).bytes got) }
    ensures failed { (S.device source.new).has_failed ≡ ((S.device source.old).has_failed || is_err result) }
    ensures fault { IfErr result (λ e. e ≡ RunFault.Read) }
    ensures remains_failed { HasFailed (S.device source.old) → 0 < length into.old → IsErr result }
{
    let mut at = 0;
    while at < into.len() {
        let Ok(n) = source.pull(&mut into[at..]) else {
            return Err(RunFault::Read);
        };
        if n == 0 {
            return Ok(at);
        }
        at += n;
    }
    Ok(at)
}
