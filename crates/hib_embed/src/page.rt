// The source and the sink of a call: bytes in memory.
ghost use Rattle.std.specs.Prelude.{◌≡◌, ◌<◌, [], if◌then◌else◌, is_err, length, min, IfOk, IsOk};
ghost use Rattle.std.specs.declared.option.Option.TheVariants.{Some};
ghost use Rattle.std.specs.Io.{ReadsAtMost, WritesAtMost};
ghost use Rattle.std.specs.Io.KnownBytes.{ReadConsumes, WriteAppends};
ghost use Rattle.hib_outside.specs.Causes.{HasCause, one_more};

use hib_base::{Bytes, Seq};
use hib_outside::{Failed, Sink, Source};
use std::alloc::Global;

/// Bytes that are read. Reading them never fails.
#[derive(Drop)]
pub struct Input<'a> {
    left: &'a [u8],
}

impl<'a> Input<'a> {
    /// All of these bytes are left.
    pub fn new(bytes: &'a [u8]) -> Input<'a>
        ensures { result.left.now ≡ bytes.now }
    {
        Input { left: bytes }
    }
}

impl Source for Input<'_> {
    ghost left = { λ s. Some s.left.now };

    ghost faults = { λ _. 0 };

    /// Fills the buffer as far as there are bytes left.
    fn read(&mut self, buf: &mut [u8]) -> Result<usize, Failed>
        ensures bound { ReadsAtMost result buf.new }
        ensures bytes { ReadConsumes (Some self.old.left.now) (Some self.new.left.now) result buf.new }
        ensures cause { HasCause 0 0 result }
        ensures ok { IsOk result }
        ensures count { IfOk result (λ n. n ≡ min (length buf.old) (length self.old.left.now)) }
    {
        let n = buf.len().min(self.left.len());
        buf[..n].copy_from_slice(&self.left[..n]);
        self.left = &self.left[n..];
        Ok(n)
    }
}

/// What was written, in memory that grows with it.
#[derive(Drop)]
pub struct Page {
    bytes: Vec<u8>,
    failures: u64,
}

impl Page {
    /// Nothing was written yet, and no call has failed.
    pub fn new(alloc: Global) -> Page
        ensures bytes { result.bytes.items ≡ [] }
        ensures failures { result.failures ≡ 0 }
    {
        Page {
            bytes: Vec::new(alloc),
            failures: 0,
        }
    }

    /// How often memory ran out for what was to be written, or 18446744073709551615 if that is more.
    pub fn failures(&self) -> u64
        ensures { result ≡ self.now.failures }
    {
        self.failures
    }

    /// All that was written.
    pub fn into_text(self) -> Bytes
        ensures { result ≡ self.bytes.items }
    {
        let Page { bytes, failures: _ } = self;
        Seq::from_vec(bytes)
    }
}

impl Sink for Page {
    ghost taken = { λ s. Some s.bytes.items };

    ghost faults = { λ s. s.failures };

    /// Takes the whole piece, and fails only if memory runs out.
    fn write(&mut self, bytes: &[u8]) -> Result<usize, Failed>
        ensures bound { WritesAtMost result bytes.now }
        ensures some { 0 < length bytes.now → IfOk result (λ n. 0 < n) }
        ensures bytes { WriteAppends (Some self.old.bytes.items)
            (Some self.new.bytes.items) result bytes.now }
        ensures cause { HasCause self.old.failures self.new.failures result }
        ensures count { IfOk result (λ n. n ≡ length bytes.now) }
        ensures failures { self.new.failures
            ≡ (if is_err result then one_more self.old.failures else self.old.failures) }
    {
        if self.bytes.extend_from_slice(bytes).is_err() {
            self.failures = self.failures.saturating_add(1);
            return Err(Failed);
        }
        Ok(bytes.len())
    }
}
