// What a keeper of tables is: the store asks one for rows, and has it apply batches of changes.
ghost use Rattle.std.specs.Prelude.{◌≡◌, ◌+◌, ◌≤◌, ◌<◌, ℕ, length, true, IfOk, IfSome};
ghost use Rattle.std.specs.declared.option.Option.{Option};
ghost use Rattle.hib_base.specs.Tables.{Tables, row_at, in_order};
ghost use Rattle.hib_outside.specs.Verdicts.{verdict, IsPlace};
ghost use Rattle.hib_outside.specs.Keeps.{tables_seeded, tables_after, rows_of};
ghost use Rattle.hib_outside.specs.Causes.{FailsByCause};
ghost use Rattle.hib_outside.specs.declared.keeper.KeepFault.TheVariants.{NoMemory};

use hib_base::{Change, EntityNo, Key, Mapping, Row, Rows};
use std::alloc::{AllocError, AllocFailed, Global};
use thiserror::Error;

/// Why a keeper's call did nothing.
#[derive(Clone, Copy, Debug, PartialEq, Eq, Error)]
pub enum KeepFault {
    /// Memory ran out.
    #[error("no memory")]
    NoMemory,
    /// The keeper failed; its count of faults rose.
    #[error("the keeper failed")]
    Failed,
}

impl From<AllocError> for KeepFault {
    ghost from_gives = { λ _ e. e ≡ NoMemory };

    fn from(_: AllocError) -> Self {
        KeepFault::NoMemory
    }
}

impl<T: Drop> From<AllocFailed<T>> for KeepFault {
    ghost from_gives = { λ _ e. e ≡ NoMemory };

    fn from(_: AllocFailed<T>) -> Self {
        KeepFault::NoMemory
    }
}

/// A keeper's answer to a batch of changes.
#[derive(Clone, Copy, Debug, PartialEq, Eq)]
pub enum Applied {
    /// All were applied.
    Done,
    /// A change met another version than it expected, or no row; nothing was applied.
    Stale {
        /// The place in the batch of the first change that failed.
        at: usize,
        /// The version of the row that was found, or none.
        found: Option<u32>,
        /// Whether a row is there.
        there: bool,
    },
    /// An insert met a row; nothing was applied.
    Duplicate {
        /// The place in the batch of the first change that failed.
        at: usize,
    },
}

/// Keeps tables. At any error they are as before, and Failed comes only if the count of faults rose.
pub trait Keeper {
    /// Its tables, if it tells them.
    ghost tables: { Self → Option Tables };

    /// How often it has failed.
    ghost faults: { Self → ℕ };

    /// How often it was asked for rows.
    ghost asked: { Self → ℕ };

    /// Gives each row that it keeps of an entity of this mapping, if the row lacks columns, the defaults of the columns
    /// that it lacks, if each of these has one. Then it adds in order each of these rows whose key has none. It does
    /// all of this, or at an error nothing.
    fn seed(
        &mut self,
        alloc: Global,
        mapping: &Mapping,
        rows: &[(Key, Row)],
    ) -> Result<(), KeepFault>
        ensures tables { tables self.new
            ≡ tables_seeded result mapping.now rows.now (tables self.old) }
        ensures asked { asked self.new ≡ asked self.old }
        ensures cause { FailsByCause (faults self.old) (faults self.new) result };

    /// The row of a key, if it has one.
    fn read(&mut self, alloc: Global, key: Key) -> Result<Option<Row>, KeepFault>
        ensures row { IfOk result (λ row. IfSome (tables self.old) (λ m. row ≡ row_at m key)) }
        ensures same { tables self.new ≡ tables self.old }
        ensures asked { (asked self.old ≤ asked self.new) × (asked self.new ≤ asked self.old + 1) }
        ensures cause { FailsByCause (faults self.old) (faults self.new) result };

    /// All rows of these entities, in order of keys.
    fn list(&mut self, alloc: Global, entities: &[EntityNo]) -> Result<Rows, KeepFault>
        ensures rows { IfOk result (λ rows. IfSome (tables self.old)
            (λ m. rows ≡ rows_of entities.now m)) }
        ensures same { tables self.new ≡ tables self.old }
        ensures asked { (asked self.old ≤ asked self.new) × (asked self.new ≤ asked self.old + 1) }
        ensures cause { FailsByCause (faults self.old) (faults self.new) result };

    /// Applies changes in order: all of them if it answers Done, else none.
    fn apply(&mut self, alloc: Global, batch: &[Change]) -> Result<Applied, KeepFault>
        ensures verdict { IfOk result (λ a. IfSome (tables self.old)
            (λ m. a ≡ verdict m batch.now 0)) }
        ensures place { IfOk result (λ a. IsPlace a (length batch.now)) }
        ensures tables { tables self.new ≡ tables_after result batch.now (tables self.old) }
        ensures asked { asked self.new ≡ asked self.old }
        ensures cause { FailsByCause (faults self.old) (faults self.new) result };

    /// Told tables have each key once, in order of keys.
    ghost ordered: { (k : Self) → IfSome (tables k) (λ m. in_order m ≡ true) };
}
