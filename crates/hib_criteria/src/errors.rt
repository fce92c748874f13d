// Why a line is no query, for the reader of scripts.
ghost use Rattle.hib_criteria.specs.declared.errors.CriteriaError.TheVariants.{NoMemory};
ghost use Rattle.std.specs.Prelude.{◌≡◌};

use hib_base::Kind;
use std::alloc::AllocError;
use thiserror::Error;

/// Why a line is no query.
#[derive(Clone, Copy, Debug, PartialEq, Eq, Error)]
pub enum CriteriaError {
    /// There is no memory left.
    #[error("no memory")]
    NoMemory,
    /// The line has this fault.
    #[error("the line is no query")]
    Fault(Kind),
}

impl From<AllocError> for CriteriaError {
    ghost from_gives = { λ _ e. e ≡ NoMemory };

    fn from(_: AllocError) -> Self {
        CriteriaError::NoMemory
    }
}
