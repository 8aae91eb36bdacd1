//! Devices over memory, with a given size of pieces, which fail at a given call: for callers that have their bytes in
//! memory, and for tests.

ghost use Rattle.std.specs.Prelude.{◌≡◌, ◌<◌, ◌≤◌, ◌||◌, ℕ, List, [], Bool, true, false, Option, Some, IfOk, IfErr, IsErr, MatchResult, is_err, length, take, drop};
ghost use Rattle.std.specs.Io.{ReadsAtMost, WritesAtMost};
ghost use Rattle.std.specs.Io.KnownBytes.{ReadConsumes, WriteAppends};
ghost use Rattle.mls_wire.specs.Devices.{MemoryLeft, MemoryHeld, next_call, is_failing_call, fails_to_pull, fails_to_push, pulled_count, pushed_count};

use crate::fault::{CodecFault, DeviceFault};
use crate::sink::Sink;
use crate::source::Source;
use std::alloc::Global;
use std::marker::Model;

/// A source over bytes in memory. It gives at most `piece` of them in one call.
#[derive(Drop)]
pub struct MemorySource<'a> {
    left: &'a [u8],
    piece: usize,
    calls: usize,
    fails_at: Option<usize>,
    has_failed: bool,
}

impl<'a> Model for MemorySource<'a> {
    ghost use Rattle.std.specs.Prelude.{◌<◌};
    ghost use Rattle.mls_wire.specs.Devices.{MemoryLeft};

    ghost Value = { MemoryLeft };

    ghost view = { λ s. record {
      left = s.left.now;
      piece = s.piece;
      calls = s.calls;
      fails_at = s.fails_at;
      is_failed = s.has_failed;
    } };

    ghost invariant = { λ s. 0 < s.piece };
}

/// Returns whether the call of this number is the one at which the device fails.
fn is_failing(fails_at: Option<usize>, call: usize) -> bool
    ensures { result ≡ is_failing_call fails_at call }
{
    match fails_at {
        Some(number) => number == call,
        None => false,
    }
}

impl<'a> MemorySource<'a> {
    /// Returns a source of these bytes. It gives at most `piece` of them in one call, and fails at the call of number
    /// `fails_at`, counted from 1. The count does not go beyond the greatest `usize`.
    pub fn new(bytes: &'a [u8], piece: usize, fails_at: Option<usize>) -> MemorySource<'a>
        requires { 0 < piece }
        ensures left { result.left ≡ bytes.now }
        ensures piece { result.piece ≡ piece }
        ensures calls { result.calls ≡ 0 }
        ensures fails_at { result.fails_at ≡ fails_at }
        ensures fresh { result.is_failed ≡ false }
    {
        MemorySource {
            left: bytes,
            piece,
            calls: 0,
            fails_at,
            has_failed: false,
        }
    }

    /// Returns the bytes that are left.
    pub fn left(&self) -> &'a [u8]
        ensures { result.now ≡ self.now.left }
    {
        self.left
    }
}

impl<'a> Source for MemorySource<'a> {
    ghost device = { λ s. record { bytes = Some s.left; has_failed = s.is_failed } };

    fn pull(&mut self, into: &mut [u8]) -> Result<usize, DeviceFault>
        ensures bound { ReadsAtMost result into.new }
        ensures bytes { ReadConsumes (Some self.old.left) (Some self.new.left) result into.new }
        ensures failed { self.new.is_failed ≡ (self.old.is_failed || is_err result) }
        ensures remains_failed { self.old.is_failed ≡ true → IsErr result }

        ensures fails { is_err result ≡ fails_to_pull self.old }
        ensures count { IfOk result (λ n. n ≡ pulled_count self.old (length into.old)) }
        ensures rest { MatchResult result
            (λ n. drop n into.new ≡ drop n into.old)
            (λ _. into.new ≡ into.old) }
        ensures calls { self.new.calls ≡ next_call self.old.calls }
        ensures piece { self.new.piece ≡ self.old.piece }
        ensures fails_at { self.new.fails_at ≡ self.old.fails_at }
    {
        self.calls = self.calls.saturating_add(1);
        if self.has_failed || is_failing(self.fails_at, self.calls) {
            self.has_failed = true;
            return Err(DeviceFault);
        }
        let count = self.piece.min(into.len()).min(self.left.len());
        let (front, rest) = self.left.split_at(count);
        into[..count].copy_from_slice(front);
        self.left = rest;
        Ok(count)
    }

    fn failed(&self) -> bool {
        self.has_failed
    }
}

/// A sink that holds its bytes in memory. It takes at most `piece` of them in one call, and has a fixed capacity.
#[derive(Drop)]
pub struct MemorySink {
    bytes: Vec<u8>,
    capacity: usize,
    piece: usize,
    calls: usize,
    fails_at: Option<usize>,
    has_failed: bool,
}

impl Model for MemorySink {
    ghost use Rattle.std.specs.Prelude.{◌<◌, ◌≤◌, length, vec_capacity};
    ghost use Rattle.mls_wire.specs.Devices.{MemoryHeld};

    ghost Value = { MemoryHeld };

    ghost view = { λ s. record {
      held = s.bytes.items;
      capacity = s.capacity;
      piece = s.piece;
      calls = s.calls;
      fails_at = s.fails_at;
      is_failed = s.has_failed;
    } };

    ghost invariant = { λ s. (0 < s.piece)
        × (length s.bytes.items ≤ s.capacity)
        × (s.capacity ≤ vec_capacity s.bytes) };
}

impl MemorySink {
    /// Returns an empty sink, whose capacity is allocated here. It takes at most `piece` bytes in one call. It fails at
    /// the call of number `fails_at`, counted from 1, and if it is full and there are bytes to take. The count does not
    /// go beyond the greatest `usize`.
    pub fn new(
        alloc: Global,
        capacity: usize,
        piece: usize,
        fails_at: Option<usize>,
    ) -> Result<MemorySink, CodecFault>
        requires { 0 < piece }
        ensures held { IfOk result (λ s. s.held ≡ []) }
        ensures capacity { IfOk result (λ s. s.capacity ≡ capacity) }
        ensures piece { IfOk result (λ s. s.piece ≡ piece) }
        ensures calls { IfOk result (λ s. s.calls ≡ 0) }
        ensures fails_at { IfOk result (λ s. s.fails_at ≡ fails_at) }
        ensures fresh { IfOk result (λ s. s.is_failed ≡ false) }
        ensures memory { IfErr result (λ e. e ≡ CodecFault.OutOfMemory) }
    {
        Ok(MemorySink {
            bytes: Vec::with_capacity(alloc, capacity)?,
            capacity,
            piece,
            calls: 0,
            fails_at,
            has_failed: false,
        })
    }

    /// Returns the bytes that it holds.
    pub fn bytes(&self) -> &[u8]
        ensures { result.now ≡ self.now.held }
    {
        self.bytes.as_slice()
    }
}

impl Sink for MemorySink {
    ghost device = { λ s. record { bytes = Some s.held; has_failed = s.is_failed } };

    fn push(&mut self, bytes: &[u8]) -> Result<usize, DeviceFault>
        ensures bound { WritesAtMost result bytes.now }
        ensures bytes { WriteAppends (Some self.old.held) (Some self.new.held) result bytes.now }
        ensures takes { IfOk result (λ n. 0 < length bytes.now → 0 < n) }
        ensures failed { self.new.is_failed ≡ (self.old.is_failed || is_err result) }
        ensures remains_failed { self.old.is_failed ≡ true → IsErr result }

        ensures fails { is_err result ≡ fails_to_push self.old (length bytes.now) }
        ensures count { IfOk result (λ n. n ≡ pushed_count self.old (length bytes.now)) }
        ensures calls { self.new.calls ≡ next_call self.old.calls }
        ensures capacity { self.new.capacity ≡ self.old.capacity }
        ensures piece { self.new.piece ≡ self.old.piece }
        ensures fails_at { self.new.fails_at ≡ self.old.fails_at }
    {
        self.calls = self.calls.saturating_add(1);
        let is_full = self.bytes.len() == self.capacity;
        if self.has_failed
            || is_failing(self.fails_at, self.calls)
            || (is_full && !bytes.is_empty())
        {
            self.has_failed = true;
            return Err(DeviceFault);
        }
        let space = self.capacity - self.bytes.len();
        let count = self.piece.min(bytes.len()).min(space);
        if self.bytes.extend_from_slice(&bytes[..count]).is_err() {
            unreachable!();
        }
        Ok(count)
    }

    fn failed(&self) -> bool {
        self.has_failed
    }
}
