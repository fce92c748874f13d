// A keeper in memory: the program's own, if no file is named, and the checks'.
ghost use Rattle.std.specs.Prelude.{◌≡◌, ◌<◌, [], true, length, IfOk};
ghost use Rattle.std.specs.declared.option.Option.TheVariants.{Some, None};
ghost use Rattle.hib_base.specs.Tables.{row_at, in_order};
ghost use Rattle.hib_outside.specs.Causes.{failed_calls, IsAsked, IsCall};
ghost use Rattle.hib_outside.specs.Keeps.{tables_seeded, tables_after, rows_of};
ghost use Rattle.hib_outside.specs.Verdicts.{verdict, IsPlace};

use crate::{Applied, Failing, KeepFault, Keeper, Numbers, keyed, shelf};
use hib_base::{Change, EntityNo, Key, Mapping, Row, Rows, Seq};
use std::alloc::Global;

/// A keeper in memory. It tells its tables.
#[derive(Drop)]
pub struct MemKeeper {
    /// The rows, in order of keys.
    pub rows: Vec<(Key, Row)>,
    /// How often it was asked for rows, or the last value of the type if that is more.
    pub asked: u64,
    /// The calls so far, and those that are to fail.
    pub failing: Failing,
    pub ghost ordered: { in_order rows.items ≡ true },
}

impl MemKeeper {
    /// A keeper without rows, whose calls of these numbers fail. It was asked for nothing yet.
    pub fn new(alloc: Global, fail: Numbers) -> MemKeeper
        ensures rows { result.rows.items ≡ [] }
        ensures asked { result.asked ≡ 0 }
        ensures calls { result.failing.calls ≡ 0 }
        ensures fail { result.failing.fail ≡ fail }
    {
        MemKeeper {
            rows: Vec::new(alloc),
            asked: 0,
            failing: Failing::new(fail),
        }
    }

    /// How often it was asked for rows, or 18446744073709551615 if that is more.
    pub fn asked(&self) -> u64
        ensures { result ≡ self.now.asked }
    {
        self.asked
    }
}

impl Keeper for MemKeeper {
    ghost tables = { λ k. Some k.rows.items };

    ghost faults = { λ k. failed_calls k.failing.fail k.failing.calls };

    ghost asked = { λ k. k.asked };

    ghost ordered = { λ k. k.ordered };

    #[tactic(auto, using(crate::proofs::Orders::in_order_with_absent, crate::proofs::Orders::in_order_widened))]
    fn seed(
        &mut self,
        alloc: Global,
        mapping: &Mapping,
        rows: &[(Key, Row)],
    ) -> Result<(), KeepFault>
        ensures tables { Some self.new.rows.items
            ≡ tables_seeded result mapping.now rows.now (Some self.old.rows.items) }
        ensures asked { self.new.asked ≡ self.old.asked }
        ensures call { IsCall self.old.failing self.new.failing result }
    {
        if self.failing.comes() {
            return Err(KeepFault::Failed);
        }
        let mut kept = shelf::widened(alloc, mapping.as_slice(), self.rows.as_slice())?;
        let more = shelf::copy_rows(alloc, rows)?;
        kept.reserve(more.len())?;
        shelf::add_all(&mut kept, more);
        self.rows = kept;
        Ok(())
    }

    fn read(&mut self, alloc: Global, key: Key) -> Result<Option<Row>, KeepFault>
        ensures row { IfOk result (λ row. row ≡ row_at self.old.rows.items key) }
        ensures same { self.new.rows.items ≡ self.old.rows.items }
        ensures asked { IsAsked self.old.failing self.old.asked self.new.asked }
        ensures call { IsCall self.old.failing self.new.failing result }
    {
        if self.failing.comes() {
            return Err(KeepFault::Failed);
        }
        self.asked = self.asked.saturating_add(1);
        match keyed::row_of(self.rows.as_slice(), &key) {
            Some(row) => Ok(Some(row.copy(alloc)?)),
            None => Ok(None),
        }
    }

    fn list(&mut self, alloc: Global, entities: &[EntityNo]) -> Result<Rows, KeepFault>
        ensures rows { IfOk result (λ rows. rows ≡ rows_of entities.now self.old.rows.items) }
        ensures same { self.new.rows.items ≡ self.old.rows.items }
        ensures asked { IsAsked self.old.failing self.old.asked self.new.asked }
        ensures call { IsCall self.old.failing self.new.failing result }
    {
        if self.failing.comes() {
            return Err(KeepFault::Failed);
        }
        self.asked = self.asked.saturating_add(1);
        let rows = shelf::listed(alloc, self.rows.as_slice(), entities)?;
        Ok(Seq::from_vec(rows))
    }

    #[tactic(auto, using(crate::proofs::Orders::in_order_changes))]
    fn apply(&mut self, alloc: Global, batch: &[Change]) -> Result<Applied, KeepFault>
        ensures verdict { IfOk result (λ a. a ≡ verdict self.old.rows.items batch.now 0) }
        ensures place { IfOk result (λ a. IsPlace a (length batch.now)) }
        ensures tables { Some self.new.rows.items
            ≡ tables_after result batch.now (Some self.old.rows.items) }
        ensures asked { self.new.asked ≡ self.old.asked }
        ensures call { IsCall self.old.failing self.new.failing result }
    {
        if self.failing.comes() {
            return Err(KeepFault::Failed);
        }
        let applied = shelf::judge(alloc, self.rows.as_slice(), batch)?;
        if applied == Applied::Done {
            let changes = shelf::copy_changes(alloc, batch)?;
            shelf::change(alloc, &mut self.rows, changes)?;
        }
        Ok(applied)
    }
}
