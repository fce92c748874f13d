// Why a thread stops before its session is at its end.
ghost use Rattle.std.specs.Prelude.{◌≡◌};

use crate::strange::Strange;
use std::alloc::AllocError;

/// Why a thread stops before its session is at its end.
#[derive(Drop)]
pub enum Halt {
    /// Memory ran out, or no tick is left.
    NoMemory,
    /// A lock gave another region than the one that was asked for.
    Strange(Strange),
}

impl From<AllocError> for Halt {
    ghost use Rattle.hib_split.specs.declared.halt.Halt.TheVariants.{NoMemory};

    ghost from_gives = { λ _ e. e ≡ NoMemory };

    fn from(_: AllocError) -> Self {
        Halt::NoMemory
    }
}

impl From<Strange> for Halt {
    ghost use Rattle.hib_split.specs.declared.halt.Halt.TheVariants as halts;

    ghost from_gives = { λ s e. e ≡ halts.Strange s };

    fn from(strange: Strange) -> Self {
        Halt::Strange(strange)
    }
}
