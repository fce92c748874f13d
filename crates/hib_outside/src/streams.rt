// What a source of bytes and a sink for bytes are. Each counts its faults.
ghost use Rattle.std.specs.Prelude.{◌<◌, ℕ, List, length, IfOk};
ghost use Rattle.std.specs.declared.option.Option.{Option};
ghost use Rattle.std.specs.Io.{ReadsAtMost, WritesAtMost};
ghost use Rattle.std.specs.Io.KnownBytes.{ReadConsumes, WriteAppends};
ghost use Rattle.hib_outside.specs.Causes.{HasCause};

use thiserror::Error;

/// The outside failed.
#[derive(Clone, Copy, Debug, PartialEq, Eq, Error)]
#[error("the call failed")]
pub struct Failed;

/// What bytes are read from.
pub trait Source {
    /// The bytes that are left, if it tells them.
    ghost left: { Self → Option (List ℕ) };

    /// How often it has failed.
    ghost faults: { Self → ℕ };

    /// Moves the first bytes left to the front of the buffer, and answers how many.
    /// None is moved into a buffer with room only at the end. It fails only if the count of faults rose, and
    /// then no byte is taken; if it doesn't fail the count stays.
    fn read(&mut self, buf: &mut [u8]) -> Result<usize, Failed>
        ensures bound { ReadsAtMost result buf.new }
        ensures bytes { ReadConsumes (left self.old) (left self.new) result buf.new }
        ensures cause { HasCause (faults self.old) (faults self.new) result };
}

/// What bytes are written to.
pub trait Sink {
    /// The bytes that it took, if it tells them.
    ghost taken: { Self → Option (List ℕ) };

    /// How often it has failed.
    ghost faults: { Self → ℕ };

    /// Takes the first bytes of a piece, at least one if there is one, and answers how many.
    /// It fails only if the count of faults rose, and then nothing is taken; if it doesn't fail the count stays.
    fn write(&mut self, bytes: &[u8]) -> Result<usize, Failed>
        ensures bound { WritesAtMost result bytes.now }
        ensures some { 0 < length bytes.now → IfOk result (λ n. 0 < n) }
        ensures bytes { WriteAppends (taken self.old) (taken self.new) result bytes.now }
        ensures cause { HasCause (faults self.old) (faults self.new) result };
}
