// Rows that were kept before columns were added, and the cells that they get in these: keepers widen them so when they
// are seeded.
ghost use Rattle.std.specs.List.{list_all, list_any};
ghost use Rattle.std.specs.Prelude.{◌≡◌, ◌++◌, [], IfOk, OnOk};
ghost use Rattle.hib_base.specs.Fits as fits;
ghost use Rattle.hib_base.specs.Start as start;

use crate::numbers::EntityNo;
use crate::rows::{Cell, Cells, Row, copy_cells, owned_cells};
use crate::scripts::{ColumnDef, EntityDef};
use std::alloc::{AllocError, Global};

/// The columns of an entity; none if it isn't declared.
pub fn entity_columns(mapping: &[EntityDef], entity: EntityNo) -> &[ColumnDef]
    ensures { result.now ≡ fits.entity_columns mapping.now entity }
{
    match mapping.get(usize::from(entity.0)) {
        Some(def) => def.columns.as_slice(),
        None => &[],
    }
}

fn has_default(column: &ColumnDef) -> bool
    ensures { result ≡ fits.has_default column.now }
{
    column.default.is_some()
}

/// Whether one of these columns has a default.
pub fn has_defaults(columns: &[ColumnDef]) -> bool
    ensures { result ≡ list_any fits.has_default columns.now }
{
    columns.iter().any(has_default)
}

/// Whether each of these columns has a default.
fn have_defaults(columns: &[ColumnDef]) -> bool
    ensures { result ≡ list_all fits.has_default columns.now }
{
    columns.iter().all(has_default)
}

/// Whether cells of a row are fewer than its columns, and each column that it lacks has a default.
pub fn is_narrow(columns: &[ColumnDef], cells: &Cells) -> bool
    ensures { result ≡ start.is_narrow columns.now cells.now }
{
    cells.len() < columns.len() && have_defaults(&columns[cells.len()..])
}

/// Adds the default of a column, which the row of these cells lacks yet, at their end, if it has one.
fn add_default(alloc: Global, cells: &mut Vec<Cell>, column: &ColumnDef) -> Result<(), AllocError>
    ensures { OnOk result (cells.new.items
        ≡ cells.old.items ++ start.before_default column.now.default []) }
{
    if let Some(cell) = &column.default {
        cells.push(cell.copy(alloc)?)?;
    }
    Ok(())
}

/// Adds the defaults of columns at the end of cells.
fn add_defaults(
    alloc: Global,
    cells: &mut Vec<Cell>,
    columns: &[ColumnDef],
) -> Result<(), AllocError>
    ensures { OnOk result (cells.new.items ≡ cells.old.items ++ start.defaults_of columns.now) }
{
    for column in columns {
        add_default(alloc, cells, column)?;
    }
    Ok(())
}

/// The cells of a row of these columns. If the row lacks columns, and each that it lacks has a default, it gets these
/// defaults at its end; else it has the cells that it had. Fails for want of memory alone.
pub fn widened_cells(
    alloc: Global,
    columns: &[ColumnDef],
    cells: &Cells,
) -> Result<Cells, AllocError>
    ensures { IfOk result (λ c. c ≡ start.widened_cells columns.now cells.now) }
{
    if !is_narrow(columns, cells) {
        return copy_cells(alloc, cells);
    }
    let mut wide = owned_cells(alloc, cells.as_slice())?;
    add_defaults(alloc, &mut wide, &columns[cells.len()..])?;
    Cells::from_vec(wide)
}

impl Row {
    /// The row with the defaults of the columns that it lacks, if each of these has one; else an equal row. Its version
    /// stays. Fails for want of memory alone.
    pub fn widened(&self, alloc: Global, columns: &[ColumnDef]) -> Result<Row, AllocError>
        ensures { IfOk result (λ r. r ≡ start.widened_row columns.now self.now) }
    {
        Ok(Row {
            version: self.version,
            cells: widened_cells(alloc, columns, &self.cells)?,
        })
    }
}
