// Rows by key and by entity, over the statements that read.
ghost use Rattle.std.specs.Prelude.{◌≡◌, ◌↔◌, ◌<◌, ◌^◌, ◌++◌, ℕ, Some, Contains, IfOk, IfSome, OnOk, OnErr};
ghost use Rattle.std.specs.List.Sorted.{IsStrictlyIncreasing};
ghost use Rattle.sqlite_value.specs.Order.{column, bytes};
ghost use Rattle.hib_base.specs.Tables.{Tables, row_at};
ghost use Rattle.hib_outside.specs.Keeps.{rows_of};
ghost use Rattle.hib_sqlite_rows.specs.Types.{Key as KeptKey, Row as KeptRow};
ghost use Rattle.hib_sqlite_rows.specs.Body.{unpacked, IsPackable};
ghost use Rattle.hib_sqlite_rows.specs.Told.{rows_in, LeavesOrUndoes};
ghost use Rattle.hib_sqlite_rows.specs.Shown.{shown, shown_entry, ShowsEntity};

use crate::{RowTable, unpack};
use hib_base::{Cells, EntityNo, Key, Row, Rows, Seq};
use sqlite::types::Type;
use sqlite::{Error, Row as SqlRow};
use std::alloc::{AllocError, Global};

/// The cells whose body stands in a column. Bytes that are no body are an error.
fn cells_at(alloc: Global, row: &SqlRow, at: usize) -> Result<Cells, Error>
    ensures { IfOk result (λ cells. unpacked (bytes (column row.now at)) ≡ Some cells) }
{
    let body: Vec<u8> = row.get(at)?;
    match unpack(alloc, body.as_slice())? {
        Some(cells) => Ok(cells),
        None => Err(Error::InvalidColumnType(at, Type::Blob)),
    }
}

/// The row that an answer of two columns shows.
fn row_of(alloc: Global, row: &SqlRow) -> Result<Row, Error>
    ensures { IfOk result (λ r. (it : KeptRow) → IsPackable it.cells → row.now ≡ shown it
        → r ≡ it) }
{
    Ok(Row {
        version: row.get(0)?,
        cells: cells_at(alloc, row, 1)?,
    })
}

/// The row that an answer of three columns shows, with its key.
fn entry_of(alloc: Global, entity: EntityNo, row: &SqlRow) -> Result<(Key, Row), Error>
    ensures { IfOk result (λ e. (it : KeptKey × KeptRow) → it.0.entity ≡ entity
        → IsPackable it.1.cells → row.now ≡ shown_entry it → e ≡ it) }
{
    let id = row.get(0)?;
    Ok((
        Key { entity, id },
        Row {
            version: row.get(1)?,
            cells: cells_at(alloc, row, 2)?,
        },
    ))
}

/// The row of a key, if it has one. At an error nothing has changed, or the transaction is undone.
pub fn read<T: RowTable>(table: &mut T, alloc: Global, key: Key) -> Result<Option<Row>, Error>
    requires { key.id < 2 ^ 63 }
    ensures row { IfOk result (λ row. IfSome (T.told table.old) (λ t. row ≡ row_at t.now key)) }
    ensures same { OnOk result (T.told table.new ≡ T.told table.old) }
    ensures err { OnErr result (LeavesOrUndoes (T.told table.old) (T.told table.new)) }
{
    let rows = table.select(key)?;
    match rows.first() {
        None => Ok(None),
        Some(row) => Ok(Some(row_of(alloc, row)?)),
    }
}

/// Adds the rows of an entity that an answer shows.
fn add_entries(
    list: &mut Vec<(Key, Row)>,
    alloc: Global,
    entity: EntityNo,
    rows: &[SqlRow],
) -> Result<(), Error>
    ensures { OnOk result ((t : Tables) → ShowsEntity rows.now t entity
        → list.new.items ≡ list.old.items ++ rows_in entity t) }
{
    for row in rows {
        list.push(entry_of(alloc, entity, row)?)?;
    }
    Ok(())
}

/// The numbers of entities, each once, the least first.
fn distinct(alloc: Global, entities: &[EntityNo]) -> Result<Vec<u16>, AllocError>
    ensures rising { IfOk result (λ numbers. IsStrictlyIncreasing numbers.items) }
    ensures same { IfOk result (λ numbers. (n : ℕ) → Contains numbers.items n
        ↔ Contains entities.now n) }
{
    let mut numbers = Vec::with_capacity(alloc, entities.len())?;
    for entity in entities {
        numbers.push(entity.0)?;
    }
    numbers.sort_unstable();
    numbers.dedup();
    Ok(numbers)
}

/// All rows of these entities, in order of keys. At an error nothing has changed, or the transaction is undone.
pub fn list<T: RowTable>(table: &mut T, alloc: Global, entities: &[EntityNo]) -> Result<Rows, Error>
    ensures rows { IfOk result (λ rows. IfSome (T.told table.old)
        (λ t. rows ≡ rows_of entities.now t.now)) }
    ensures same { OnOk result (T.told table.new ≡ T.told table.old) }
    ensures err { OnErr result (LeavesOrUndoes (T.told table.old) (T.told table.new)) }
{
    let numbers = distinct(alloc, entities)?;
    let mut list = Vec::new(alloc);
    for number in &numbers {
        let entity = EntityNo(*number);
        let rows = table.select_entity(entity)?;
        add_entries(&mut list, alloc, entity, rows.as_slice())?;
    }
    Ok(Seq::from_vec(list))
}
