// The source and the sink over std's reader and writer, which the programs read standard input and write standard
// output by. They count their failures and tell nothing.
ghost use Rattle.hib_outside.specs.Causes.{HasCause, one_more};
ghost use Rattle.std.specs.Io.{ReadsAtMost, WritesAtMost};
ghost use Rattle.std.specs.Io.KnownBytes.{ReadConsumes, WriteAppends};
ghost use Rattle.std.specs.Prelude.{◌≡◌, ◌<◌, if◌then◌else◌, is_err, length, IfOk};
ghost use Rattle.std.specs.declared.option.Option.TheVariants.{None};

use crate::{Failed, Sink, Source};
use std::io::{Read, Write};

/// Bytes from a reader of std.
#[derive(Drop)]
pub struct StdSource<R> {
    /// The reader.
    pub inner: R,
    /// How often it has failed, or the last value of the type if that is more.
    pub faults: u64,
}

impl<R> StdSource<R> {
    /// The source over a reader. It has counted no failure yet.
    pub fn new(inner: R) -> StdSource<R>
        ensures inner { result.inner ≡ inner }
        ensures faults { result.faults ≡ 0 }
    {
        StdSource { inner, faults: 0 }
    }
}

impl<R: Read> Source for StdSource<R> {
    ghost left = { λ _. None };

    ghost faults = { λ s. s.faults };

    /// Each failure is counted, and nothing else.
    fn read(&mut self, buf: &mut [u8]) -> Result<usize, Failed>
        ensures bound { ReadsAtMost result buf.new }
        ensures bytes { ReadConsumes None None result buf.new }
        ensures cause { HasCause self.old.faults self.new.faults result }
        ensures count { self.new.faults
            ≡ (if is_err result then one_more self.old.faults else self.old.faults) }
    {
        match self.inner.read(buf) {
            Ok(count) => Ok(count),
            Err(_) => {
                self.faults = self.faults.saturating_add(1);
                Err(Failed)
            }
        }
    }
}

/// Bytes into a writer of std.
#[derive(Drop)]
pub struct StdSink<W> {
    /// The writer.
    pub inner: W,
    /// How often it has failed, or the last value of the type if that is more.
    pub faults: u64,
}

impl<W> StdSink<W> {
    /// The sink over a writer. It has counted no failure yet.
    pub fn new(inner: W) -> StdSink<W>
        ensures inner { result.inner ≡ inner }
        ensures faults { result.faults ≡ 0 }
    {
        StdSink { inner, faults: 0 }
    }
}

impl<W: Write> Sink for StdSink<W> {
    ghost taken = { λ _. None };

    ghost faults = { λ s. s.faults };

    /// A writer that takes nothing of a piece that isn't empty has failed. Each failure is counted, and nothing else.
    fn write(&mut self, bytes: &[u8]) -> Result<usize, Failed>
        ensures bound { WritesAtMost result bytes.now }
        ensures some { 0 < length bytes.now → IfOk result (λ n. 0 < n) }
        ensures bytes { WriteAppends None None result bytes.now }
        ensures cause { HasCause self.old.faults self.new.faults result }
        ensures count { self.new.faults
            ≡ (if is_err result then one_more self.old.faults else self.old.faults) }
    {
        match self.inner.write(bytes) {
            Ok(count) if count > 0 || bytes.is_empty() => Ok(count),
            _ => {
                self.faults = self.faults.saturating_add(1);
                Err(Failed)
            }
        }
    }
}
