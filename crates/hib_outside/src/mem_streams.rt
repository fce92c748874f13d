// A source and a sink in memory, with the numbers of the calls that are to fail, for checks.
ghost use Rattle.std.specs.Prelude.{◌≡◌, ◌↔◌, ◌⊎◌, ◌+◌, ◌≤◌, ◌<◌, [], min, if◌then◌else◌, true, is_err, length, drop, IfOk, IsErr, OnErr, vec_len, vec_capacity};
ghost use Rattle.std.specs.declared.option.Option.TheVariants.{Some};
ghost use Rattle.std.specs.Io.{ReadsAtMost, WritesAtMost};
ghost use Rattle.std.specs.Io.KnownBytes.{ReadConsumes, WriteAppends};
ghost use Rattle.hib_outside.specs.Causes.{failed_calls, is_due, next_call, one_more, HasCause};

use crate::{Failed, Failing, Numbers, Sink, Source};
use hib_base::Bytes;
use std::alloc::{AllocError, Global};

/// Bytes to be read.
#[derive(Drop)]
pub struct MemSource {
    /// All bytes.
    pub bytes: Bytes,
    /// How many were read.
    pub at: usize,
    /// The calls so far, and those that are to fail.
    pub failing: Failing,
    ghost within: { at ≤ length bytes },
}

impl MemSource {
    /// The source of these bytes, whose calls of these numbers fail. It has failed at none yet.
    pub fn new(bytes: Bytes, fail: Numbers) -> MemSource
        ensures bytes { result.bytes ≡ bytes }
        ensures at { result.at ≡ 0 }
        ensures calls { result.failing.calls ≡ 0 }
        ensures fail { result.failing.fail ≡ fail }
    {
        MemSource {
            bytes,
            at: 0,
            failing: Failing::new(fail),
        }
    }
}

impl Source for MemSource {
    ghost left = { λ s. Some (drop s.at s.bytes) };

    ghost faults = { λ s. failed_calls s.failing.fail s.failing.calls };

    /// Fills the buffer as far as there are bytes left. It fails exactly at the calls that are to fail.
    fn read(&mut self, buf: &mut [u8]) -> Result<usize, Failed>
        ensures bound { ReadsAtMost result buf.new }
        ensures bytes { ReadConsumes (Some (drop self.old.at self.old.bytes))
            (Some (drop self.new.at self.new.bytes)) result buf.new }
        ensures cause { HasCause (failed_calls self.old.failing.fail self.old.failing.calls)
            (failed_calls self.new.failing.fail self.new.failing.calls) result }
        ensures fails { IsErr result ↔ (is_due self.old.failing.fail self.old.failing.calls
            ≡ true) }
        ensures count { IfOk result (λ n. n
            ≡ min (length buf.old) (length (drop self.old.at self.old.bytes))) }
        ensures calls { self.new.failing.calls ≡ next_call self.old.failing.calls }
        ensures fail { self.new.failing.fail ≡ self.old.failing.fail }
    {
        if self.failing.comes() {
            return Err(Failed);
        }
        let n = buf.len().min(self.bytes.len() - self.at);
        buf[..n].copy_from_slice(&self.bytes.as_slice()[self.at..self.at + n]);
        self.at += n;
        Ok(n)
    }
}

/// Room for bytes, and those that were taken.
#[derive(Drop)]
pub struct MemSink {
    /// The bytes that were taken.
    pub bytes: Vec<u8>,
    /// How many more it takes.
    pub room: usize,
    /// The calls so far, and those that are to fail.
    pub failing: Failing,
    /// How many calls failed, or the last value of the type if that is more.
    pub failures: u64,
    ghost reserved: { vec_len bytes + room ≤ vec_capacity bytes },
}

impl MemSink {
    /// A sink that takes as many bytes as it has room for, and whose calls of these numbers fail. Its memory is
    /// taken here.
    pub fn new(alloc: Global, room: usize, fail: Numbers) -> Result<MemSink, AllocError>
        ensures bytes { IfOk result (λ s. s.bytes.items ≡ []) }
        ensures room { IfOk result (λ s. s.room ≡ room) }
        ensures calls { IfOk result (λ s. s.failing.calls ≡ 0) }
        ensures fail { IfOk result (λ s. s.failing.fail ≡ fail) }
        ensures failures { IfOk result (λ s. s.failures ≡ 0) }
    {
        Ok(MemSink {
            bytes: Vec::with_capacity(alloc, room)?,
            room,
            failing: Failing::new(fail),
            failures: 0,
        })
    }

    /// The bytes that were taken.
    pub fn bytes(&self) -> &[u8]
        ensures { result.now ≡ self.now.bytes.items }
    {
        self.bytes.as_slice()
    }
}

impl Sink for MemSink {
    ghost taken = { λ s. Some s.bytes.items };

    ghost faults = { λ s. s.failures };

    /// Takes as much of a piece as there is room for. It fails exactly at the calls that are to fail, and if a
    /// piece that isn't empty meets no room.
    fn write(&mut self, bytes: &[u8]) -> Result<usize, Failed>
        ensures bound { WritesAtMost result bytes.now }
        ensures some { 0 < length bytes.now → IfOk result (λ n. 0 < n) }
        ensures bytes { WriteAppends (Some self.old.bytes.items)
            (Some self.new.bytes.items) result bytes.now }
        ensures cause { HasCause self.old.failures self.new.failures result }
        ensures fails { IsErr result ↔ ((is_due self.old.failing.fail self.old.failing.calls ≡ true)
            ⊎ ((0 < length bytes.now) × (self.old.room ≡ 0))) }
        ensures count { IfOk result (λ n. n ≡ min (length bytes.now) self.old.room) }
        ensures room { IfOk result (λ n. self.new.room + n ≡ self.old.room) }
        ensures full { OnErr result (self.new.room ≡ self.old.room) }
        ensures failures { self.new.failures
            ≡ (if is_err result then one_more self.old.failures else self.old.failures) }
        ensures calls { self.new.failing.calls ≡ next_call self.old.failing.calls }
        ensures fail { self.new.failing.fail ≡ self.old.failing.fail }
    {
        let n = bytes.len().min(self.room);
        if self.failing.comes() || (n == 0 && !bytes.is_empty()) {
            self.failures = self.failures.saturating_add(1);
            return Err(Failed);
        }
        if self.bytes.extend_from_slice(&bytes[..n]).is_err() {
            unreachable!();
        }
        self.room -= n;
        Ok(n)
    }
}
