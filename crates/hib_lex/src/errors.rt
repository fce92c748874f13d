// Why a text has no lines of tokens, for the reader of scripts.
ghost use Rattle.hib_lex.specs.declared.errors.LexError.TheVariants.{NoMemory};
ghost use Rattle.std.specs.Prelude.{◌≡◌};

use hib_base::Refused;
use std::alloc::AllocError;
use thiserror::Error;

/// Why a text isn't split into lines of tokens.
#[derive(Clone, Copy, Debug, PartialEq, Eq, Error)]
pub enum LexError {
    /// There is no memory left.
    #[error("no memory")]
    NoMemory,
    /// A line breaks the rules of bytes, length or tokens.
    #[error("line {line} is no line of a script", line = .0.line)]
    Refused(Refused),
}

impl From<AllocError> for LexError {
    ghost from_gives = { λ _ e. e ≡ NoMemory };

    fn from(_: AllocError) -> Self {
        LexError::NoMemory
    }
}
