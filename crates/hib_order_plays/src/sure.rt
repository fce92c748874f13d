// A keeper that never fails, so that the steps of an order alone decide its run.
ghost use Rattle.std.specs.Prelude.{◌≡◌, []};
ghost use Rattle.std.specs.declared.option.Option.TheVariants.{Some};

use hib_base::{Change, EntityNo, Key, Mapping, Row, Rows, Seq};
use hib_outside::{Applied, KeepFault, Keeper, MemKeeper};
use std::alloc::Global;

/// A keeper in memory that never fails. Its calls have no error but that memory ran out. It tells its tables.
#[derive(Drop)]
pub struct SureKeeper {
    keeper: MemKeeper,
    ghost sure: { keeper.failing.fail ≡ [] },
}

impl SureKeeper {
    /// A keeper without rows, which was asked for nothing yet.
    pub fn new(alloc: Global) -> SureKeeper
        ensures rows { result.keeper.rows.items ≡ [] }
        ensures asked { result.keeper.asked ≡ 0 }
    {
        SureKeeper {
            keeper: MemKeeper::new(alloc, Seq::new(alloc)),
        }
    }
}

#[tactic(auto, using(crate::proofs::Never::never))]
impl Keeper for SureKeeper {
    ghost tables = { λ k. Some k.keeper.rows.items };

    ghost faults = { λ k. 0 };

    ghost asked = { λ k. k.keeper.asked };

    ghost ordered = { λ k. k.keeper.ordered };

    fn seed(
        &mut self,
        alloc: Global,
        mapping: &Mapping,
        rows: &[(Key, Row)],
    ) -> Result<(), KeepFault> {
        self.keeper.seed(alloc, mapping, rows)
    }

    fn read(&mut self, alloc: Global, key: Key) -> Result<Option<Row>, KeepFault> {
        self.keeper.read(alloc, key)
    }

    fn list(&mut self, alloc: Global, entities: &[EntityNo]) -> Result<Rows, KeepFault> {
        self.keeper.list(alloc, entities)
    }

    fn apply(&mut self, alloc: Global, batch: &[Change]) -> Result<Applied, KeepFault> {
        self.keeper.apply(alloc, batch)
    }
}
