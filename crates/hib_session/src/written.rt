// Copies for the entry of a write, which are made before the write, so that its entry takes no memory.
ghost use Rattle.std.specs.Prelude.{◌≡◌, IfOk};
ghost use Rattle.hib_base.specs.Tables.{row_left};

use hib_base::{Change, Row};
use std::alloc::{AllocError, Global};

/// Copies of a change, for the memory that takes the entry of its write.
#[derive(Drop)]
pub struct Written {
    /// The change.
    pub change: Change,
    /// The row that it leaves, if it leaves one.
    pub base: Option<Row>,
}

impl Written {
    /// The copies of a change.
    pub fn of(alloc: Global, change: &Change) -> Result<Written, AllocError>
        ensures { IfOk result (λ w. (w.change ≡ change.now) × (w.base ≡ row_left change.now)) }
    {
        Ok(Written {
            change: change.copy(alloc)?,
            base: change.copy_left(alloc)?,
        })
    }
}
