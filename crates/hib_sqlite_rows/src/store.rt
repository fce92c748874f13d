// The table over any store, which tells nothing.
ghost use Rattle.std.specs.Prelude.{◌≡◌, ◌<◌, ◌^◌, ℕ, pos, [], ◌∷◌, true, false, Ok, IfOk, OnOk, IsErr};
ghost use Rattle.sqlite.specs.declared.types.Value.TheVariants.{Int};
ghost use Rattle.sqlite.specs.Held.{state};
ghost use Rattle.sqlite.specs.State.{HasCleanDisk, Executes, Shown};
ghost use Rattle.hib_sqlite_rows.specs.Body.{packed};
ghost use Rattle.hib_sqlite_rows.specs.Texts.{create_text, read_text, list_text, insert_text, update_text, delete_text, begin_text, commit_text};
ghost use Rattle.hib_sqlite_rows.specs.Shown.{bound_key, bound_row, IsInRange};
ghost use Rattle.std.specs.declared.option.Option.TheVariants.{None};

use crate::{RowTable, pack, statements};
use hib_base::{EntityNo, Key, Row};
use sqlite::{Alter, Connection, Error, ErrorCode, Row as SqlRow};
use std::alloc::Global;

/// The table of a connection over any store, such as a file. It tells nothing. Of each statement that went well a
/// clause says which text ran, with which values: what it did is then what SQL makes of it, if the disk gave back what
/// was written.
#[derive(Drop)]
pub struct StoreTable<S: Alter> {
    conn: Connection<S>,
}

impl<S: Alter + Drop> StoreTable<S> {
    /// The table of a connection that has begun no transaction. It is made if it isn't there.
    /// Fails within a transaction, if SQLite fails, or for want of memory; then the connection is closed.
    pub fn over(mut conn: Connection<S>) -> Result<StoreTable<S>, Error>
        ensures runs { IfOk result (λ t. HasCleanDisk (state S.Store t.conn) → (count : ℕ)
            × Executes create_text [] (state S.Store conn) (state S.Store t.conn) (Ok count)) }
        ensures free { (state S.Store conn).in_transaction ≡ true → IsErr result }
    {
        if !conn.is_autocommit() {
            return Err(Error::SqliteFailure(ErrorCode::TransactionState));
        }
        statements::create(&mut conn)?;
        Ok(StoreTable { conn })
    }

    /// The connection, which has the table.
    pub fn into_connection(self) -> Connection<S>
        ensures { result ≡ self.conn }
    {
        self.conn
    }
}

impl<S: Alter> RowTable for StoreTable<S> {
    ghost told = { λ _. None };

    ghost tells = { false };

    ghost ordered = { λ _. tt };

    fn select(&mut self, key: Key) -> Result<Vec<SqlRow>, Error>
        requires { key.id < 2 ^ 63 }
        ensures { HasCleanDisk (state S.Store self.new.conn)
            → IfOk result (λ rows. Shown read_text (bound_key key) (state S.Store self.old.conn)
            (state S.Store self.new.conn) rows.items) }
    {
        statements::select(&mut self.conn, key)
    }

    fn select_entity(&mut self, entity: EntityNo) -> Result<Vec<SqlRow>, Error>
        ensures { HasCleanDisk (state S.Store self.new.conn)
            → IfOk result (λ rows. Shown list_text (Int (pos entity) ∷ [])
            (state S.Store self.old.conn) (state S.Store self.new.conn) rows.items) }
    {
        statements::select_entity(&mut self.conn, entity)
    }

    fn insert(&mut self, alloc: Global, key: Key, row: &Row) -> Result<(), Error>
        requires { IsInRange key row.now }
        ensures { HasCleanDisk (state S.Store self.new.conn)
            → OnOk result ((count : ℕ) × Executes insert_text
            (bound_row key row.now.version (packed row.now.cells)) (state S.Store self.old.conn)
            (state S.Store self.new.conn) (Ok count)) }
    {
        let body = pack(alloc, &row.cells)?;
        statements::insert(&mut self.conn, key, row.version, body.as_slice())?;
        Ok(())
    }

    fn update(&mut self, alloc: Global, key: Key, row: &Row) -> Result<(), Error>
        requires { IsInRange key row.now }
        ensures { HasCleanDisk (state S.Store self.new.conn)
            → OnOk result ((count : ℕ) × Executes update_text
            (bound_row key row.now.version (packed row.now.cells)) (state S.Store self.old.conn)
            (state S.Store self.new.conn) (Ok count)) }
    {
        let body = pack(alloc, &row.cells)?;
        statements::update(&mut self.conn, key, row.version, body.as_slice())?;
        Ok(())
    }

    fn delete(&mut self, key: Key) -> Result<(), Error>
        requires { key.id < 2 ^ 63 }
        ensures { HasCleanDisk (state S.Store self.new.conn)
            → OnOk result ((count : ℕ) × Executes delete_text (bound_key key)
            (state S.Store self.old.conn) (state S.Store self.new.conn) (Ok count)) }
    {
        statements::delete(&mut self.conn, key)?;
        Ok(())
    }

    fn begin(&mut self) -> Result<(), Error>
        ensures { HasCleanDisk (state S.Store self.new.conn)
            → OnOk result ((count : ℕ) × Executes begin_text [] (state S.Store self.old.conn)
            (state S.Store self.new.conn) (Ok count)) }
    {
        statements::begin(&mut self.conn)?;
        Ok(())
    }

    fn commit(&mut self) -> Result<(), Error>
        ensures { HasCleanDisk (state S.Store self.new.conn)
            → OnOk result ((count : ℕ) × Executes commit_text [] (state S.Store self.old.conn)
            (state S.Store self.new.conn) (Ok count)) }
    {
        statements::commit(&mut self.conn)?;
        Ok(())
    }

    fn rollback(&mut self) {
        if !self.conn.is_autocommit() {
            let _ = statements::rollback(&mut self.conn);
        }
    }
}
