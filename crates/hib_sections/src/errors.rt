// Why a line is none of a section.
ghost use Rattle.std.specs.Prelude.{◌≡◌};

use hib_base::Kind;
use std::alloc::AllocError;
use thiserror::Error;

/// Why a line is none of a section.
#[derive(Clone, Copy, Debug, PartialEq, Eq, Error)]
pub enum LineError {
    /// There is no memory left.
    #[error("no memory")]
    NoMemory,
    /// The line has this fault.
    #[error("the line is none of the section")]
    Fault(Kind),
}

impl From<AllocError> for LineError {
    ghost use Rattle.hib_sections.specs.declared.errors.LineError.TheVariants as faults;

    ghost from_gives = { λ _ e. e ≡ faults.NoMemory };

    fn from(_: AllocError) -> Self {
        LineError::NoMemory
    }
}
