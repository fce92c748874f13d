// The table of rows, with a function for each statement.
ghost use Rattle.std.specs.Prelude.{◌≡◌, ◌≢◌, ◌<◌, ◌^◌, Bool, None, true, false, IfOk, IfSome, OnOk, OnErr};
ghost use Rattle.std.specs.declared.option.Option.{Option};
ghost use Rattle.hib_base.specs.Tables.{row_at, with_row, without_row, in_order};
ghost use Rattle.hib_sqlite_rows.specs.Told.{Told, changed, begun, committed, rolled_back, LeavesOrUndoes};
ghost use Rattle.hib_sqlite_rows.specs.Shown.{ShowsKey, ShowsEntity, IsInRange};

use hib_base::{EntityNo, Key, Row};
use sqlite::{Error, Row as SqlRow};
use std::alloc::Global;

/// A table of rows in SQL. At an error nothing has changed, or the transaction is undone.
pub trait RowTable {
    /// What it tells, if it tells anything.
    ghost told: { Self → Option Told };

    /// Whether a table of this type tells its rows. One that couldn't be opened then has none.
    ghost tells: { Bool };

    /// The version and the body of a key's row, or nothing.
    fn select(&mut self, key: Key) -> Result<Vec<SqlRow>, Error>
        requires { key.id < 2 ^ 63 }
        ensures rows { IfOk result (λ rows. IfSome (told self.old)
            (λ t. ShowsKey rows.items t.now key)) }
        ensures same { OnOk result (told self.new ≡ told self.old) }
        ensures err { OnErr result (LeavesOrUndoes (told self.old) (told self.new)) };

    /// Identifier, version and body of each row of an entity, in order of identifiers.
    fn select_entity(&mut self, entity: EntityNo) -> Result<Vec<SqlRow>, Error>
        ensures rows { IfOk result (λ rows. IfSome (told self.old)
            (λ t. ShowsEntity rows.items t.now entity)) }
        ensures same { OnOk result (told self.new ≡ told self.old) }
        ensures err { OnErr result (LeavesOrUndoes (told self.old) (told self.new)) };

    /// Adds, within a transaction, a row at a key that has none.
    fn insert(&mut self, alloc: Global, key: Key, row: &Row) -> Result<(), Error>
        requires range { IsInRange key row.now }
        requires inside { IfSome (told self.old) (λ t. t.in_transaction ≡ true) }
        requires absent { IfSome (told self.old) (λ t. row_at t.now key ≡ None) }
        ensures ok { OnOk result (told self.new
            ≡ changed (λ t. with_row t key row.now) (told self.old)) }
        ensures err { OnErr result (LeavesOrUndoes (told self.old) (told self.new)) };

    /// Puts, within a transaction, a row in the place of the one at its key.
    fn update(&mut self, alloc: Global, key: Key, row: &Row) -> Result<(), Error>
        requires range { IsInRange key row.now }
        requires inside { IfSome (told self.old) (λ t. t.in_transaction ≡ true) }
        requires there { IfSome (told self.old) (λ t. row_at t.now key ≢ None) }
        ensures ok { OnOk result (told self.new
            ≡ changed (λ t. with_row t key row.now) (told self.old)) }
        ensures err { OnErr result (LeavesOrUndoes (told self.old) (told self.new)) };

    /// Takes out, within a transaction, the row of a key.
    fn delete(&mut self, key: Key) -> Result<(), Error>
        requires range { key.id < 2 ^ 63 }
        requires inside { IfSome (told self.old) (λ t. t.in_transaction ≡ true) }
        ensures ok { OnOk result (told self.new
            ≡ changed (λ t. without_row t key) (told self.old)) }
        ensures err { OnErr result (LeavesOrUndoes (told self.old) (told self.new)) };

    /// Begins a transaction.
    fn begin(&mut self) -> Result<(), Error>
        requires { IfSome (told self.old) (λ t. t.in_transaction ≡ false) }
        ensures ok { OnOk result (told self.new ≡ begun (told self.old)) }
        ensures err { OnErr result (LeavesOrUndoes (told self.old) (told self.new)) };

    /// Ends a transaction, and keeps what it wrote.
    fn commit(&mut self) -> Result<(), Error>
        ensures ok { OnOk result (told self.new ≡ committed (told self.old)) }
        ensures err { OnErr result (LeavesOrUndoes (told self.old) (told self.new)) };

    /// Ends a transaction, if there is one, and takes back what it wrote.
    fn rollback(&mut self)
        ensures { told self.new ≡ rolled_back (told self.old) };

    /// Each key stands once, in order of keys.
    ghost ordered: { (table : Self) → IfSome (told table) (λ t. in_order t.now ≡ true) };
}
