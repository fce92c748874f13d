// The table over memory, which tells its rows.
ghost use Rattle.std.specs.Prelude.{◌≡◌, ◌<◌, [], Some, true, IfOk, IfErr};
ghost use Rattle.sqlite.specs.declared.error.Error.TheVariants.{SqliteFailure};
ghost use Rattle.sqlite.specs.declared.error.ErrorCode.TheVariants.{OutOfMemory};
ghost use Rattle.hib_sqlite_rows.specs.Told.{at_rest};
ghost use Rattle.hib_sqlite_rows.specs.Stored.{told_of};

use crate::{RowTable, pack, statements};
use hib_base::{EntityNo, Key, Row};
use sqlite::{Connection, Error, MemStore, Row as SqlRow};
use std::alloc::Global;
use std::marker::Model;

/// The table over a connection in memory. It tells its rows.
#[derive(Drop)]
pub struct MemoryTable {
    conn: Connection<MemStore>,
}

impl Model for MemoryTable {
    ghost use Rattle.hib_sqlite_rows.specs.Stored.{Held, held_by, KeepsRows};
    ghost use Rattle.sqlite.specs.Held.{state};
    ghost use Rattle.sqlite.specs.Steps.{over_memory};

    ghost Value = { Held };

    ghost view = { λ t. held_by (state over_memory t.conn) };

    ghost invariant = { λ t. KeepsRows (state over_memory t.conn) };
}

impl MemoryTable {
    /// An empty table. Fails for want of memory alone.
    pub fn open(alloc: Global) -> Result<MemoryTable, Error>
        ensures empty { IfOk result (λ t. told_of t ≡ at_rest []) }
        ensures err { IfErr result (λ e. e ≡ SqliteFailure OutOfMemory) }
    {
        let mut conn = Connection::open_in_memory(alloc)?;
        match statements::create(&mut conn) {
            Ok(_) => Ok(MemoryTable { conn }),
            Err(error) => Err(error),
        }
    }
}

impl RowTable for MemoryTable {
    ghost use Rattle.hib_sqlite_rows.specs.Ordered.{tables_in_order};

    ghost told = { λ t. Some (told_of t) };

    ghost tells = { true };

    ghost ordered = { λ t. tables_in_order t.now };

    fn select(&mut self, key: Key) -> Result<Vec<SqlRow>, Error> {
        statements::select(&mut self.conn, key)
    }

    fn select_entity(&mut self, entity: EntityNo) -> Result<Vec<SqlRow>, Error> {
        statements::select_entity(&mut self.conn, entity)
    }

    fn insert(&mut self, alloc: Global, key: Key, row: &Row) -> Result<(), Error> {
        let body = pack(alloc, &row.cells)?;
        statements::insert(&mut self.conn, key, row.version, body.as_slice())?;
        Ok(())
    }

    fn update(&mut self, alloc: Global, key: Key, row: &Row) -> Result<(), Error> {
        let body = pack(alloc, &row.cells)?;
        statements::update(&mut self.conn, key, row.version, body.as_slice())?;
        Ok(())
    }

    fn delete(&mut self, key: Key) -> Result<(), Error> {
        statements::delete(&mut self.conn, key)?;
        Ok(())
    }

    fn begin(&mut self) -> Result<(), Error> {
        statements::begin(&mut self.conn)?;
        Ok(())
    }

    fn commit(&mut self) -> Result<(), Error> {
        statements::commit(&mut self.conn)?;
        Ok(())
    }

    fn rollback(&mut self) {
        if !self.conn.is_autocommit() {
            let _ = statements::rollback(&mut self.conn);
        }
    }
}
