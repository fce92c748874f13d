// What a bulk line makes of the rows that meet its condition.
ghost use Rattle.std.specs.Prelude.{◌≡◌, map, IfOk};
ghost use Rattle.hib_journal.specs.Held.{next_version};
ghost use Rattle.hib_bulk_law.specs.Rows.{row_after, change_to};

use hib_base::{Change, Changes, Key, Row, Seq, copy_cells, copy_sets, set_cells};
use hib_bulk_law::{BulkChange, BulkDef};
use std::alloc::{AllocError, Global};

/// The version of a row after one more change; it stays at the greatest.
fn version_after(version: Option<u32>) -> Option<u32>
    ensures { result ≡ next_version version }
{
    match version {
        None => None,
        Some(u32::MAX) => Some(u32::MAX),
        Some(v) => Some(v + 1),
    }
}

/// A row's change by a bulk line: an update to the row with the cells set and the next version, or a delete.
fn change_of(alloc: Global, change: &BulkChange, key: Key, row: &Row) -> Result<Change, AllocError>
    ensures { IfOk result (λ c. c
        ≡ change_to (row_after change.now row.now) key row.now.version) }
{
    match change {
        BulkChange::Set(sets) => {
            let mut cells = copy_cells(alloc, &row.cells)?;
            set_cells(alloc, &mut cells, copy_sets(alloc, sets)?)?;
            Ok(Change::Update {
                key,
                expected: row.version,
                row: Row {
                    version: version_after(row.version),
                    cells,
                },
            })
        }
        BulkChange::Delete => Ok(Change::Delete {
            key,
            expected: row.version,
        }),
    }
}

/// The changes of rows by a bulk line, in their order. Fails for want of memory alone.
pub fn changes_of(
    alloc: Global,
    line: &BulkDef,
    rows: &[&(Key, Row)],
) -> Result<Changes, AllocError>
    ensures { IfOk result (λ cs. cs ≡ map (λ p. change_to (row_after line.now.change p.now.1)
        p.now.0 p.now.1.version) rows.now) }
{
    let mut changes = Changes::new(alloc);
    for row in rows {
        let change = change_of(alloc, &line.change, row.0, &row.1)?;
        changes.push(change)?;
    }
    Ok(changes)
}
