// Why lines are no journal, for the readers of inputs.
ghost use Rattle.hib_journal_json.specs.declared.faults.JournalFault.TheVariants.{NoMemory};
ghost use Rattle.std.specs.Prelude.{◌≡◌};

use hib_base::Refused;
use std::alloc::AllocError;
use thiserror::Error;

/// Why a text isn't read as a journal.
#[derive(Clone, Copy, Debug, PartialEq, Eq, Error)]
pub enum JournalFault {
    /// There is no memory left.
    #[error("no memory")]
    NoMemory,
    /// A line is no entry's.
    #[error("line {line} is no entry's", line = .0.line)]
    Refused(Refused),
}

impl From<AllocError> for JournalFault {
    ghost from_gives = { λ _ e. e ≡ NoMemory };

    fn from(_: AllocError) -> Self {
        JournalFault::NoMemory
    }
}
