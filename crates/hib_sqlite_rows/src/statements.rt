// The statements, each in a function of its own, over any store. A clause says which text runs with which values.
ghost use Rattle.std.specs.Prelude.{◌<◌, ◌^◌, [], ◌∷◌, pos, IfOk, IfErr};
ghost use Rattle.sqlite.specs.declared.types.Value.TheVariants.{Int};
ghost use Rattle.sqlite.specs.Held.{state};
ghost use Rattle.sqlite.specs.State.{HasCleanDisk, Executes, Survives, Shown, FailsToQuery, CommitsBy, CommitsShowing};
ghost use Rattle.hib_sqlite_rows.specs.Texts.{create_text, read_text, list_text, insert_text, update_text, delete_text, begin_text, commit_text, rollback_text};
ghost use Rattle.hib_sqlite_rows.specs.Shown.{bound_key, bound_row};

use hib_base::{EntityNo, Key};
use sqlite::{Alter, Connection, Error, Row, params};

/// Makes the table, if it isn't there.
pub fn create<S: Alter>(conn: &mut Connection<S>) -> Result<usize, Error>
    ensures runs { HasCleanDisk (state S.Store conn.new)
        → Executes create_text [] (state S.Store conn.old) (state S.Store conn.new) result }
    ensures survives { Survives (state S.Store conn.old) (state S.Store conn.new)
        (CommitsBy create_text [] (state S.Store conn.old)) }
{
    conn.execute(
        "CREATE TABLE IF NOT EXISTS hib_rows (entity INTEGER NOT NULL, id INTEGER NOT NULL, version INTEGER, body BLOB NOT NULL, PRIMARY KEY (entity, id)) STRICT",
        &[],
    )
}

/// Reads the version and the body of a key's row.
pub fn select<S: Alter>(conn: &mut Connection<S>, key: Key) -> Result<Vec<Row>, Error>
    requires { key.id < 2 ^ 63 }
    ensures ok { HasCleanDisk (state S.Store conn.new)
        → IfOk result (λ rows. Shown read_text (bound_key key) (state S.Store conn.old)
        (state S.Store conn.new) rows.items) }
    ensures err { HasCleanDisk (state S.Store conn.new)
        → IfErr result (FailsToQuery read_text (bound_key key) (state S.Store conn.old)
        (state S.Store conn.new)) }
    ensures survives { Survives (state S.Store conn.old) (state S.Store conn.new)
        (CommitsShowing read_text (bound_key key) (state S.Store conn.old)) }
{
    conn.query_all(
        "SELECT version, body FROM hib_rows WHERE entity = ?1 AND id = ?2",
        params![u32::from(key.entity.0), key.id as i64],
    )
}

/// Reads identifier, version and body of each row of an entity, in order of identifiers.
pub fn select_entity<S: Alter>(
    conn: &mut Connection<S>,
    entity: EntityNo,
) -> Result<Vec<Row>, Error>
    ensures ok { HasCleanDisk (state S.Store conn.new)
        → IfOk result (λ rows. Shown list_text (Int (pos entity) ∷ []) (state S.Store conn.old)
        (state S.Store conn.new) rows.items) }
    ensures err { HasCleanDisk (state S.Store conn.new)
        → IfErr result (FailsToQuery list_text (Int (pos entity) ∷ []) (state S.Store conn.old)
        (state S.Store conn.new)) }
    ensures survives { Survives (state S.Store conn.old) (state S.Store conn.new)
        (CommitsShowing list_text (Int (pos entity) ∷ []) (state S.Store conn.old)) }
{
    conn.query_all(
        "SELECT id, version, body FROM hib_rows WHERE entity = ?1 ORDER BY id",
        params![u32::from(entity.0)],
    )
}

/// Adds a row.
pub fn insert<S: Alter>(
    conn: &mut Connection<S>,
    key: Key,
    version: Option<u32>,
    body: &[u8],
) -> Result<usize, Error>
    requires { key.id < 2 ^ 63 }
    ensures runs { HasCleanDisk (state S.Store conn.new)
        → Executes insert_text (bound_row key version body.now) (state S.Store conn.old)
        (state S.Store conn.new) result }
    ensures survives { Survives (state S.Store conn.old) (state S.Store conn.new)
        (CommitsBy insert_text (bound_row key version body.now) (state S.Store conn.old)) }
{
    conn.execute(
        "INSERT INTO hib_rows (entity, id, version, body) VALUES (?1, ?2, ?3, ?4)",
        params![u32::from(key.entity.0), key.id as i64, version, body],
    )
}

/// Changes a row.
pub fn update<S: Alter>(
    conn: &mut Connection<S>,
    key: Key,
    version: Option<u32>,
    body: &[u8],
) -> Result<usize, Error>
    requires { key.id < 2 ^ 63 }
    ensures runs { HasCleanDisk (state S.Store conn.new)
        → Executes update_text (bound_row key version body.now) (state S.Store conn.old)
        (state S.Store conn.new) result }
    ensures survives { Survives (state S.Store conn.old) (state S.Store conn.new)
        (CommitsBy update_text (bound_row key version body.now) (state S.Store conn.old)) }
{
    conn.execute(
        "UPDATE hib_rows SET version = ?3, body = ?4 WHERE entity = ?1 AND id = ?2",
        params![u32::from(key.entity.0), key.id as i64, version, body],
    )
}

/// Deletes a row.
pub fn delete<S: Alter>(conn: &mut Connection<S>, key: Key) -> Result<usize, Error>
    requires { key.id < 2 ^ 63 }
    ensures runs { HasCleanDisk (state S.Store conn.new)
        → Executes delete_text (bound_key key) (state S.Store conn.old)
        (state S.Store conn.new) result }
    ensures survives { Survives (state S.Store conn.old) (state S.Store conn.new)
        (CommitsBy delete_text (bound_key key) (state S.Store conn.old)) }
{
    conn.execute(
        "DELETE FROM hib_rows WHERE entity = ?1 AND id = ?2",
        params![u32::from(key.entity.0), key.id as i64],
    )
}

/// Begins a transaction.
pub fn begin<S: Alter>(conn: &mut Connection<S>) -> Result<usize, Error>
    ensures runs { HasCleanDisk (state S.Store conn.new)
        → Executes begin_text [] (state S.Store conn.old) (state S.Store conn.new) result }
    ensures survives { Survives (state S.Store conn.old) (state S.Store conn.new)
        (CommitsBy begin_text [] (state S.Store conn.old)) }
{
    conn.execute("BEGIN", &[])
}

/// Ends a transaction, and keeps what it wrote.
pub fn commit<S: Alter>(conn: &mut Connection<S>) -> Result<usize, Error>
    ensures runs { HasCleanDisk (state S.Store conn.new)
        → Executes commit_text [] (state S.Store conn.old) (state S.Store conn.new) result }
    ensures survives { Survives (state S.Store conn.old) (state S.Store conn.new)
        (CommitsBy commit_text [] (state S.Store conn.old)) }
{
    conn.execute("COMMIT", &[])
}

/// Ends a transaction, and takes back what it wrote.
pub fn rollback<S: Alter>(conn: &mut Connection<S>) -> Result<usize, Error>
    ensures runs { HasCleanDisk (state S.Store conn.new)
        → Executes rollback_text [] (state S.Store conn.old) (state S.Store conn.new) result }
    ensures survives { Survives (state S.Store conn.old) (state S.Store conn.new)
        (CommitsBy rollback_text [] (state S.Store conn.old)) }
{
    conn.execute("ROLLBACK", &[])
}
