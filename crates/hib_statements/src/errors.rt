// Why a line is no statement and no row, for the reader of scripts.
ghost use Rattle.hib_statements.specs.declared.errors.StatementError.TheVariants.{NoMemory};
ghost use Rattle.std.specs.Prelude.{◌≡◌};

use hib_base::Kind;
use std::alloc::AllocError;
use thiserror::Error;

/// Why a line is no statement and no row.
#[derive(Clone, Copy, Debug, PartialEq, Eq, Error)]
pub enum StatementError {
    /// There is no memory left.
    #[error("no memory")]
    NoMemory,
    /// The line has this fault.
    #[error("the line is no statement and no row")]
    Fault(Kind),
}

impl From<AllocError> for StatementError {
    ghost from_gives = { λ _ e. e ≡ NoMemory };

    fn from(_: AllocError) -> Self {
        StatementError::NoMemory
    }
}
