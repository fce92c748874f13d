// Whether a row meets a condition, which is tested over a view.
ghost use Rattle.std.specs.Prelude.{◌≡◌, option_copied, slice_get, true, false};
ghost use Rattle.std.specs.Option.{option_map_or};
ghost use Rattle.std.specs.List.{list_any};
ghost use Rattle.hib_journal.specs.Query.{same_cell, passes, row_of_ref, cell_at, holds};

use crate::cells;
use crate::view::View;
use hib_base::{Cell, Cond, EntityNo, Key, Op, Path, Row};

/// The row to which a cell refers.
fn referred<'a>(view: &'a View<'_>, entity: EntityNo, cell: Option<&Cell>) -> Option<&'a Row>
    ensures { option_copied result ≡ row_of_ref view.now entity (option_copied cell.entry) }
{
    match cell {
        Some(Cell::Int(id)) if *id >= 0 => view.row_of(&Key {
            entity,
            id: *id as u64,
        }),
        _ => None,
    }
}

/// The cell at a path from a row, or none if the row to which it steps is missing.
fn cell_at<'a>(view: &'a View<'_>, row: &'a Row, path: &Path) -> Option<&'a Cell>
    ensures { option_copied result ≡ cell_at view.now row.now path.now }
{
    let cell = row.cells.as_slice().get(usize::from(path.column));
    match path.target {
        None => cell,
        Some(target) => referred(view, target.entity, cell)?
            .cells
            .as_slice()
            .get(usize::from(target.column)),
    }
}

/// Whether a cell is among others.
fn is_among(cell: &Cell, cells: &[Cell]) -> bool
    ensures { result ≡ list_any (λ c. same_cell cell.now c) cells.now }
{
    for other in cells {
        if cells::is_same(cell, other) {
            return true;
        }
    }
    false
}

/// Whether a condition holds of a row. A comparison at a row that is missing doesn't hold.
fn holds<'a>(view: &'a View<'_>, row: &'a Row, cond: &Cond) -> bool
    ensures { result ≡ holds view.now row.now cond.now }
{
    match cond {
        Cond::And(a, b) => holds(view, row, a) && holds(view, row, b),
        Cond::Or(a, b) => holds(view, row, a) || holds(view, row, b),
        Cond::Not(a) => !holds(view, row, a),
        Cond::Test { op, path, cell } => match cell_at(view, row, path) {
            Some(found) => cells::is_passed(*op, found, cell),
            None => false,
        },
        Cond::Among { path, cells } => match cell_at(view, row, path) {
            Some(found) => is_among(found, cells.as_slice()),
            None => false,
        },
    }
}

/// Whether a row's own cell in a column compares so with a cell.
#[inline(always)]
fn is_passed_here(row: &Row, column: u16, op: Op, cell: &Cell) -> bool
    ensures { result ≡ option_map_or (λ found. passes op found cell.now)
        (slice_get row.now.cells column) false }
{
    match row.cells.as_slice().get(usize::from(column)) {
        Some(found) => cells::is_passed(op, found, cell),
        None => false,
    }
}

/// Whether a row meets a query's condition, if it has one. A comparison of a cell of its own, which most rows are
/// tested by, comes first.
#[inline]
pub fn meets<'a>(view: &'a View<'_>, row: &'a Row, cond: &Option<Cond>) -> bool
    ensures { result ≡ option_map_or (holds view.now row.now) cond.now true }
{
    match cond {
        None => true,
        Some(Cond::Test { op, path, cell }) if path.target.is_none() => is_passed_here(
            row,
            path.column,
            *op,
            cell,
        ),
        Some(cond) => holds(view, row, cond),
    }
}
