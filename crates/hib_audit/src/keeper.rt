// A keeper in memory that never fails: the audit's engines stand over it, so that faults come from the journal alone.
ghost use Rattle.std.specs.Prelude.{◌≡◌, [], Some};

use hib_base::{Change, EntityNo, Key, Mapping, Row, Rows, Seq};
use hib_outside::{Applied, KeepFault, Keeper, MemKeeper};
use std::alloc::Global;

/// A keeper in memory that never fails. It tells its tables.
#[derive(Drop)]
pub struct Unfailing {
    /// The keeper, none of whose calls is to fail.
    memory: MemKeeper,
    ghost sure: { memory.failing.fail ≡ [] },
}

impl Unfailing {
    /// A keeper without rows. It takes no memory.
    pub fn new(alloc: Global) -> Unfailing
        ensures { result.memory.rows.items ≡ [] }
    {
        Unfailing {
            memory: MemKeeper::new(alloc, Seq::new(alloc)),
        }
    }
}

impl Keeper for Unfailing {
    ghost tables = { λ k. Some k.memory.rows.items };

    ghost faults = { λ _. 0 };

    ghost asked = { λ k. k.memory.asked };

    ghost ordered = { λ k. k.memory.ordered };

    fn seed(
        &mut self,
        alloc: Global,
        mapping: &Mapping,
        rows: &[(Key, Row)],
    ) -> Result<(), KeepFault> {
        self.memory.seed(alloc, mapping, rows)
    }

    fn read(&mut self, alloc: Global, key: Key) -> Result<Option<Row>, KeepFault> {
        self.memory.read(alloc, key)
    }

    fn list(&mut self, alloc: Global, entities: &[EntityNo]) -> Result<Rows, KeepFault> {
        self.memory.list(alloc, entities)
    }

    fn apply(&mut self, alloc: Global, batch: &[Change]) -> Result<Applied, KeepFault> {
        self.memory.apply(alloc, batch)
    }
}
