// Why reading gives no script, and why a line adds nothing to one.
ghost use Rattle.hib_script.specs.declared.errors.LineError.TheVariants as why;
ghost use Rattle.hib_script.specs.declared.errors.ScriptError.TheVariants.{NoMemory};
ghost use Rattle.std.specs.Prelude.{◌≡◌};

use hib_base::{Kind, Refused};
use std::alloc::AllocError;
use std::str;
use thiserror::Error;

/// Why reading gives no script.
#[derive(Clone, Copy, Debug, PartialEq, Eq, Error)]
pub enum ScriptError {
    /// There is no memory left.
    #[error("no memory")]
    NoMemory,
    /// The text is no script: its first bad line, and what is wrong with it.
    #[error("line {line}: {word}", line = .0.line, word = word(.0.kind))]
    Refused(Refused),
}

impl From<AllocError> for ScriptError {
    ghost from_gives = { λ _ e. e ≡ NoMemory };

    fn from(_: AllocError) -> Self {
        ScriptError::NoMemory
    }
}

/// The word of a kind, as it is printed.
fn word(kind: Kind) -> &'static str {
    str::from_utf8(kind.word()).unwrap_or("")
}

/// Why a line adds nothing to a script.
pub enum LineError {
    /// There is no memory left.
    NoMemory,
    /// The line has this fault.
    Fault(Kind),
}

impl From<AllocError> for LineError {
    ghost from_gives = { λ _ e. e ≡ why.NoMemory };

    fn from(_: AllocError) -> Self {
        LineError::NoMemory
    }
}
