// The keepers are made.
ghost use Rattle.std.specs.Prelude.{◌≡◌, ◌≢◌, [], Some, None, true, codes, IfOk, IfErr};
ghost use Rattle.sqlite.specs.Held.{state};
ghost use Rattle.hib_outside.specs.declared.keeper.KeepFault.TheVariants.{NoMemory};

use crate::keeper::{SqlKeeper, SqliteKeeper, SqliteTables};
use hib_outside::{KeepFault, Keeper};
use hib_sqlite_rows::{MemoryTable, StoreTable};
use sqlite::{Alter, Connection, File, FileStore};
use std::alloc::Global;

/// Opens a keeper in memory, without rows. It is refused for want of memory alone, and has a table.
pub fn in_memory(alloc: Global) -> Result<SqliteTables, KeepFault>
    ensures tables { IfOk result (λ k. ⟦<SqliteTables as Keeper>⟧.tables k ≡ Some []) }
    ensures faults { IfOk result (λ k. ⟦<SqliteTables as Keeper>⟧.faults k ≡ 0) }
    ensures asked { IfOk result (λ k. ⟦<SqliteTables as Keeper>⟧.asked k ≡ 0) }
    ensures there { IfOk result (λ k. k.table ≢ None) }
    ensures err { IfErr result (λ e. e ≡ NoMemory) }
{
    match MemoryTable::open(alloc) {
        Ok(table) => Ok(SqlKeeper::over(table)),
        Err(error) => SqlKeeper::without(error),
    }
}

/// Takes an open connection over any store, and makes the table `hib_rows` if it isn't there. It is refused for want of
/// memory alone. If the table can't be made, or the connection has begun a transaction, the connection is closed and
/// each later call fails.
pub fn adopt<S: Alter + Drop>(connection: Connection<S>) -> Result<SqliteKeeper<S>, KeepFault>
    ensures free { (state S.Store connection).in_transaction ≡ true
        → IfOk result (λ k. k.table ≡ None) }
    ensures counts { IfOk result (λ k. (k.faults ≡ 0) × (k.asked ≡ 0)) }
    ensures err { IfErr result (λ e. e ≡ NoMemory) }
{
    match StoreTable::over(connection) {
        Ok(table) => Ok(SqlKeeper::over(table)),
        Err(error) => SqlKeeper::without(error),
    }
}

/// Opens the file at a path, or makes it, and the table `hib_rows` in it. It is refused for want of memory alone. If
/// the file can't be opened, as one that another program has open, or the table can't be made, each later call fails;
/// so it does at the path `:memory:`, which names no file.
pub fn open_file(rt: &HostRuntime, path: &str) -> Result<SqliteKeeper<FileStore<File>>, KeepFault>
    ensures memory { path.now ≡ codes ":memory:" → IfOk result (λ k. k.table ≡ None) }
    ensures counts { IfOk result (λ k. (k.faults ≡ 0) × (k.asked ≡ 0)) }
    ensures err { IfErr result (λ e. e ≡ NoMemory) }
{
    match Connection::open(rt, path) {
        Ok(connection) => adopt(connection),
        Err(error) => SqlKeeper::without(error),
    }
}
