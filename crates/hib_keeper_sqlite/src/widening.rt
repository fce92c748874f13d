// Rows that lack columns get the defaults of these, within a transaction.
ghost use Rattle.std.specs.Prelude.{◌≡◌, ◌≤◌, ◌^◌, true, is_some, length, IfSome, OnOk};
ghost use Rattle.hib_base.specs.Start.{widened};
ghost use Rattle.hib_base.specs.Tables.{row_at};
ghost use Rattle.hib_sqlite_rows.specs.Told.{changed, rolled_back};
ghost use Rattle.hib_keeper_sqlite.specs.Widening.{with_wide, with_all_wide, widened_one, are_there};

use crate::fits::entry_fits;
use hib_base::{ColumnDef, EntityDef, EntityNo, Key, Row, has_defaults, is_narrow};
use hib_sqlite_rows::{RowTable, list};
use sqlite::{Error, ErrorCode};
use std::alloc::Global;

/// Puts a row in its own place with the defaults of the columns that it lacks, if each of these has one.
fn widen_one<T: RowTable>(
    table: &mut T,
    alloc: Global,
    columns: &[ColumnDef],
    entry: &(Key, Row),
) -> Result<(), Error>
    requires inside { IfSome (T.told table.old) (λ t. t.in_transaction ≡ true) }
    requires there { IfSome (T.told table.old) (λ t. is_some (row_at t.now entry.now.0) ≡ true) }
    ensures ok { OnOk result (T.told table.new
        ≡ changed (λ t. with_wide columns.now t entry.now) (T.told table.old)) }
    ensures before { rolled_back (T.told table.new) ≡ rolled_back (T.told table.old) }
{
    if !is_narrow(columns, &entry.1.cells) {
        return Ok(());
    }
    let wide = entry.1.widened(alloc, columns)?;
    if !entry_fits(entry.0, &wide) {
        return Err(Error::SqliteFailure(ErrorCode::TooBig));
    }
    table.update(alloc, entry.0, &wide)
}

/// Does so with each of these rows.
fn widen_rows<T: RowTable>(
    table: &mut T,
    alloc: Global,
    columns: &[ColumnDef],
    rows: &[(Key, Row)],
) -> Result<(), Error>
    requires inside { IfSome (T.told table.old) (λ t. t.in_transaction ≡ true) }
    requires there { IfSome (T.told table.old) (λ t. are_there rows.now t.now ≡ true) }
    ensures ok { OnOk result (T.told table.new
        ≡ changed (λ t. with_all_wide columns.now t rows.now) (T.told table.old)) }
    ensures before { rolled_back (T.told table.new) ≡ rolled_back (T.told table.old) }
{
    for at in 0..rows.len() {
        widen_one(table, alloc, columns, &rows[at])?;
    }
    Ok(())
}

/// Does so with each row of an entity. An entity none of whose columns has a default isn't read.
fn widen_entity<T: RowTable>(
    table: &mut T,
    alloc: Global,
    entity: EntityNo,
    columns: &[ColumnDef],
) -> Result<(), Error>
    requires inside { IfSome (T.told table.old) (λ t. t.in_transaction ≡ true) }
    ensures ok { OnOk result (T.told table.new
        ≡ changed (widened_one entity columns.now) (T.told table.old)) }
    ensures before { rolled_back (T.told table.new) ≡ rolled_back (T.told table.old) }
{
    if !has_defaults(columns) {
        return Ok(());
    }
    let rows = list(table, alloc, &[entity])?;
    widen_rows(table, alloc, columns, rows.as_slice())
}

/// Gives each row of an entity of this mapping the defaults of the columns that it lacks, if each of these has one.
pub fn widen<T: RowTable>(table: &mut T, alloc: Global, mapping: &[EntityDef]) -> Result<(), Error>
    requires few { length mapping.now ≤ 2 ^ 16 }
    requires inside { IfSome (T.told table.old) (λ t. t.in_transaction ≡ true) }
    ensures ok { OnOk result (T.told table.new ≡ changed (widened mapping.now) (T.told table.old)) }
    ensures before { rolled_back (T.told table.new) ≡ rolled_back (T.told table.old) }
{
    for at in 0..mapping.len() {
        widen_entity(
            table,
            alloc,
            EntityNo(at as u16),
            mapping[at].columns.as_slice(),
        )?;
    }
    Ok(())
}
