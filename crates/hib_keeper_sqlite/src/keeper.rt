// A keeper over a table of rows in SQL.
ghost use Rattle.std.specs.Prelude.{◌≡◌, ◌≢◌, ◌+◌, ◌≤◌, length, None, Err, IfOk, IfErr, IfSome, IsErr};
ghost use Rattle.std.specs.Option.{option_map};
ghost use Rattle.hib_base.specs.Tables.{row_at};
ghost use Rattle.hib_outside.specs.Keeps.{tables_seeded, tables_after, rows_of};
ghost use Rattle.hib_outside.specs.Verdicts.{verdict, IsPlace};
ghost use Rattle.hib_outside.specs.Causes.{Rose, one_more, FailsByCause};
ghost use Rattle.hib_outside.specs.declared.keeper.KeepFault.TheVariants.{NoMemory, Failed};
ghost use Rattle.sqlite.specs.declared.error.Error.TheVariants.{SqliteFailure};
ghost use Rattle.sqlite.specs.declared.error.ErrorCode.TheVariants.{OutOfMemory};
ghost use Rattle.hib_keeper_sqlite.specs.Batches.{IsAtRest};
ghost use Rattle.hib_keeper_sqlite.specs.Keeps.{told_in, tables_in, Counts};

use crate::batch;
use crate::fits::{batch_fits, key_fits, rows_fit};
use hib_base::{Change, EntityNo, Key, Mapping, Row, Rows};
use hib_outside::{Applied, KeepFault, Keeper};
use hib_sqlite_rows::{MemoryTable, RowTable, StoreTable, list, read};
use sqlite::{Alter, Connection, Error, ErrorCode};
use std::alloc::Global;

/// As many entities have numbers.
const MOST_ENTITIES: usize = 65536;

/// A keeper over a table of rows in SQL. If the table couldn't be opened, each call fails.
#[derive(Drop)]
pub struct SqlKeeper<T: RowTable> {
    table: Option<T>,
    faults: u64,
    asked: u64,
    ghost rest: { IsAtRest (told_in T.tells T.told table) },
}

/// The keeper in memory, which tells its tables.
pub type SqliteTables = SqlKeeper<MemoryTable>;

/// The keeper over any store, such as a file. It tells nothing.
pub type SqliteKeeper<S> = SqlKeeper<StoreTable<S>>;

impl<T: RowTable> SqlKeeper<T> {
    /// The keeper over a table. It hasn't failed, and was asked for nothing yet.
    pub(crate) fn over(table: T) -> SqlKeeper<T>
        requires { IsAtRest (T.told table) }
        ensures table { told_in T.tells T.told result.table ≡ T.told table }
        ensures there { result.table ≢ None }
        ensures counts { (result.faults ≡ 0) × (result.asked ≡ 0) }
    {
        SqlKeeper {
            table: Some(table),
            faults: 0,
            asked: 0,
        }
    }

    /// The keeper of a table that couldn't be opened, or the fault if memory ran out.
    pub(crate) fn without(error: Error) -> Result<SqlKeeper<T>, KeepFault>
        ensures table { IfOk result (λ k. k.table ≡ None) }
        ensures memory { error ≡ SqliteFailure OutOfMemory → IsErr result }
        ensures counts { IfOk result (λ k. (k.faults ≡ 0) × (k.asked ≡ 0)) }
        ensures err { IfErr result (λ e. e ≡ NoMemory) }
    {
        match error {
            Error::SqliteFailure(ErrorCode::OutOfMemory) => Err(KeepFault::NoMemory),
            _ => Ok(SqlKeeper {
                table: None,
                faults: 0,
                asked: 0,
            }),
        }
    }
}

impl<S: Alter + Drop> SqlKeeper<StoreTable<S>> {
    /// Gives the connection back, if there is one. So a file can be closed by `close_files`, which leaves all in the
    /// database file, and nothing in the log beside it.
    pub fn into_connection(self) -> Option<Connection<S>>
        ensures { result ≡ option_map (λ table. table.conn) self.table }
    {
        let SqlKeeper {
            table,
            faults: _,
            asked: _,
        } = self;
        match table {
            Some(table) => Some(table.into_connection()),
            None => None,
        }
    }
}

/// Counts a failure.
fn failed(faults: &mut u64) -> KeepFault
    ensures count { faults.new ≡ one_more faults.old }
    ensures later { faults.old ≤ faults.new }
    ensures rose { Rose faults.old faults.new }
    ensures fault { result ≡ Failed }
{
    *faults = faults.saturating_add(1);
    KeepFault::Failed
}

/// What an error of SQL is to a keeper: a failure, unless memory ran out. The count rises at each failure.
fn cause(faults: &mut u64, error: Error) -> KeepFault
    ensures later { faults.old ≤ faults.new }
    ensures rose { result ≡ Failed → Rose faults.old faults.new }
    ensures failed { result ≡ Failed → faults.new ≡ one_more faults.old }
    ensures memory { result ≡ NoMemory → faults.new ≡ faults.old }
    ensures only { result ≡ NoMemory → error ≡ SqliteFailure OutOfMemory }
{
    match error {
        Error::SqliteFailure(ErrorCode::OutOfMemory) => KeepFault::NoMemory,
        _ => failed(faults),
    }
}

impl<T: RowTable + Send> Keeper for SqlKeeper<T> {
    ghost use Rattle.hib_keeper_sqlite.specs.Ordered.{tables_in_order};

    ghost tables = { λ k. tables_in T.RowTable.tells T.RowTable.told k.table };

    ghost faults = { λ k. k.faults };

    ghost asked = { λ k. k.asked };

    ghost ordered = { λ k. tables_in_order T.RowTable.tells T.RowTable.told T.RowTable.ordered
        k.table };

    fn seed(
        &mut self,
        alloc: Global,
        mapping: &Mapping,
        rows: &[(Key, Row)],
    ) -> Result<(), KeepFault>
        ensures tables { tables_in T.RowTable.tells T.RowTable.told self.new.table
            ≡ tables_seeded result mapping.now rows.now
            (tables_in T.RowTable.tells T.RowTable.told self.old.table) }
        ensures asked { self.new.asked ≡ self.old.asked }
        ensures cause { FailsByCause self.old.faults self.new.faults result }
        ensures counts { Counts self.old.faults self.new.faults result }
        ensures closed { self.old.table ≡ None → result ≡ Err Failed }
    {
        let Some(table) = &mut self.table else {
            return Err(failed(&mut self.faults));
        };
        if mapping.len() > MOST_ENTITIES || !rows_fit(rows) {
            return Err(failed(&mut self.faults));
        }
        match batch::seed(table, alloc, mapping.as_slice(), rows) {
            Ok(()) => Ok(()),
            Err(error) => Err(cause(&mut self.faults, error)),
        }
    }

    fn read(&mut self, alloc: Global, key: Key) -> Result<Option<Row>, KeepFault>
        ensures row { IfOk result (λ row. IfSome
            (tables_in T.RowTable.tells T.RowTable.told self.old.table)
            (λ m. row ≡ row_at m key)) }
        ensures same { tables_in T.RowTable.tells T.RowTable.told self.new.table
            ≡ tables_in T.RowTable.tells T.RowTable.told self.old.table }
        ensures asked { (self.old.asked ≤ self.new.asked) × (self.new.asked ≤ self.old.asked + 1) }
        ensures counted { self.new.asked ≡ one_more self.old.asked }
        ensures cause { FailsByCause self.old.faults self.new.faults result }
        ensures counts { Counts self.old.faults self.new.faults result }
        ensures closed { self.old.table ≡ None → result ≡ Err Failed }
    {
        self.asked = self.asked.saturating_add(1);
        let Some(table) = &mut self.table else {
            return Err(failed(&mut self.faults));
        };
        if !key_fits(&key) {
            return Err(failed(&mut self.faults));
        }
        match read(table, alloc, key) {
            Ok(row) => Ok(row),
            Err(error) => Err(cause(&mut self.faults, error)),
        }
    }

    fn list(&mut self, alloc: Global, entities: &[EntityNo]) -> Result<Rows, KeepFault>
        ensures rows { IfOk result (λ rows. IfSome
            (tables_in T.RowTable.tells T.RowTable.told self.old.table)
            (λ m. rows ≡ rows_of entities.now m)) }
        ensures same { tables_in T.RowTable.tells T.RowTable.told self.new.table
            ≡ tables_in T.RowTable.tells T.RowTable.told self.old.table }
        ensures asked { (self.old.asked ≤ self.new.asked) × (self.new.asked ≤ self.old.asked + 1) }
        ensures counted { self.new.asked ≡ one_more self.old.asked }
        ensures cause { FailsByCause self.old.faults self.new.faults result }
        ensures counts { Counts self.old.faults self.new.faults result }
        ensures closed { self.old.table ≡ None → result ≡ Err Failed }
    {
        self.asked = self.asked.saturating_add(1);
        let Some(table) = &mut self.table else {
            return Err(failed(&mut self.faults));
        };
        match list(table, alloc, entities) {
            Ok(rows) => Ok(rows),
            Err(error) => Err(cause(&mut self.faults, error)),
        }
    }

    fn apply(&mut self, alloc: Global, batch: &[Change]) -> Result<Applied, KeepFault>
        ensures verdict { IfOk result (λ a. IfSome
            (tables_in T.RowTable.tells T.RowTable.told self.old.table)
            (λ m. a ≡ verdict m batch.now 0)) }
        ensures place { IfOk result (λ a. IsPlace a (length batch.now)) }
        ensures tables { tables_in T.RowTable.tells T.RowTable.told self.new.table
            ≡ tables_after result batch.now
            (tables_in T.RowTable.tells T.RowTable.told self.old.table) }
        ensures asked { self.new.asked ≡ self.old.asked }
        ensures cause { FailsByCause self.old.faults self.new.faults result }
        ensures counts { Counts self.old.faults self.new.faults result }
        ensures closed { self.old.table ≡ None → result ≡ Err Failed }
    {
        let Some(table) = &mut self.table else {
            return Err(failed(&mut self.faults));
        };
        if !batch_fits(batch) {
            return Err(failed(&mut self.faults));
        }
        match batch::apply(table, alloc, batch) {
            Ok(applied) => Ok(applied),
            Err(error) => Err(cause(&mut self.faults, error)),
        }
    }
}
