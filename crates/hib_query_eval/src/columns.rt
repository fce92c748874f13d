// The columns by whose cells rows are found, as rows come and go. The place of a cell is where it stands among all
// cells of its column, in order of values and then of identifiers.
ghost use Rattle.std.specs.Prelude.{◌≡◌, ◌<◌, ◌^◌, ℕ, ◌&&◌, ◌||◌, not, true, false, IfOk, IfSome, OnOk, option_copied};
ghost use Rattle.std.specs.Option.{option_map_or};
ghost use Rattle.hib_base.specs.Keys.{same_key};
ghost use Rattle.hib_base.specs.Tables.{Tables, in_order, row_at, key_of, after_change};
ghost use Rattle.hib_journal.specs.Types.{Cell as CellSpec};
ghost use Rattle.hib_journal.specs.Room.{key as key_at};
ghost use Rattle.hib_journal.specs.Query.{same_cell};
ghost use Rattle.hib_query_eval.specs.Places.{is_place, has_place, has_cell, IsIndexOf, AreIndexes};

use crate::places::{self, Place};
use crate::searches;
use hib_base::{Cell, Change, Cond, EntityNo, Key, Op, Path, Row};
use std::alloc::{AllocError, Global};
use std::collections::BTreeSet;

/// A column of an entity, with the places of its cells.
#[derive(Drop)]
pub struct Column {
    /// The entity.
    pub entity: EntityNo,
    /// The column, from 0.
    pub column: usize,
    /// The places of the cells of the entity's rows in the column.
    pub places: BTreeSet<Place>,
}

/// The places of a column's cells, if it is one of some.
pub fn places_in(columns: &[Column], entity: EntityNo, column: usize) -> Option<&BTreeSet<Place>>
    ensures { IfSome (option_copied result) (λ places. (t : Tables) → AreIndexes columns.now t
        → IsIndexOf entity column places.keys t) }
{
    for one in columns {
        if one.entity == entity && one.column == column {
            return Some(&one.places);
        }
    }
    None
}

/// The cell of a row in a column, if there is a row and it has one.
fn cell_of(row: Option<&Row>, column: usize) -> Option<&Cell>
    ensures { (d : CellSpec) → has_cell (option_copied row.entry) column d
        ≡ option_map_or (same_cell d) (option_copied result) false }
{
    match row {
        Some(row) => row.cells.as_slice().get(column),
        None => None,
    }
}

/// The place of a key's cell in a column of an entity, if it has one there.
fn place_in(
    alloc: Global,
    entity: EntityNo,
    column: usize,
    key: &Key,
    row: Option<&Row>,
) -> Result<Option<Place>, AllocError>
    ensures { IfOk result (λ place. (i : ℕ) (d : CellSpec)
        → option_map_or (is_place i d) place false
        ≡ (same_key key.now (key_at entity i) && has_cell (option_copied row.entry) column d)) }
{
    if key.entity != entity {
        return Ok(None);
    }
    match cell_of(row, column) {
        Some(cell) => Ok(Some(places::place_of(alloc, key.id, cell)?)),
        None => Ok(None),
    }
}

/// Drops the place of a key's cell in a column of an entity, if it has one there.
fn drop_cell(
    alloc: Global,
    places: &mut BTreeSet<Place>,
    entity: EntityNo,
    column: usize,
    key: &Key,
    row: Option<&Row>,
) -> Result<(), AllocError>
    ensures { OnOk result ((i : ℕ) (d : CellSpec) → has_place places.new.keys i d
        ≡ (not (same_key key.now (key_at entity i) && has_cell (option_copied row.entry) column d)
        && has_place places.old.keys i d)) }
{
    match place_in(alloc, entity, column, key, row)? {
        Some(place) => {
            places::drop_place(places, place);
            Ok(())
        }
        None => Ok(()),
    }
}

/// Adds the place of a key's cell in a column of an entity, if it has one there.
fn add_cell(
    alloc: Global,
    places: &mut BTreeSet<Place>,
    entity: EntityNo,
    column: usize,
    key: &Key,
    row: Option<&Row>,
) -> Result<(), AllocError>
    ensures fit { key.now.id < 2 ^ 64 }
    ensures added { OnOk result ((i : ℕ) (d : CellSpec) → has_place places.new.keys i d
        ≡ ((same_key key.now (key_at entity i) && has_cell (option_copied row.entry) column d)
        || has_place places.old.keys i d)) }
{
    let _id = key.id;
    match place_in(alloc, entity, column, key, row)? {
        Some(place) => places::add_place(places, place),
        None => Ok(()),
    }
}

/// Does a change to the places of a column's cells: the cell that its key had leaves, and the one that it has then
/// comes. `found` is the row that is there before the change.
fn lay_over(
    alloc: Global,
    one: &mut Column,
    change: &Change,
    found: Option<&Row>,
) -> Result<(), AllocError>
    ensures { OnOk result ((t : Tables) → option_copied found.entry ≡ row_at t (key_of change.now)
        → IsIndexOf one.old.entity one.old.column one.old.places.keys t
        → IsIndexOf one.new.entity one.new.column one.new.places.keys (after_change change.now t)) }
{
    let key = change.key();
    drop_cell(alloc, &mut one.places, one.entity, one.column, &key, found)?;
    let left = change.row_left();
    add_cell(alloc, &mut one.places, one.entity, one.column, &key, left)
}

/// Does a change to the places of the cells of each column.
pub fn lay_over_all(
    alloc: Global,
    columns: &mut Vec<Column>,
    change: &Change,
    found: Option<&Row>,
) -> Result<(), AllocError>
    ensures { OnOk result ((t : Tables) → option_copied found.entry ≡ row_at t (key_of change.now)
        → AreIndexes columns.old.items t
        → AreIndexes columns.new.items (after_change change.now t)) }
{
    let mut at = 0;
    while at < columns.len() {
        lay_over(alloc, &mut columns[at], change, found)?;
        at += 1;
    }
    Ok(())
}

/// The places of the cells of rows in a column of an entity.
fn places_of(
    alloc: Global,
    entity: EntityNo,
    column: usize,
    rows: &[(Key, Row)],
) -> Result<BTreeSet<Place>, AllocError>
    requires { in_order rows.now ≡ true }
    ensures { IfOk result (λ places. IsIndexOf entity column places.keys rows.now) }
{
    let mut places = BTreeSet::new(alloc);
    for row in rows {
        add_cell(alloc, &mut places, entity, column, &row.0, Some(&row.1))?;
    }
    Ok(places)
}

/// Adds a column, if it isn't one of them.
fn add_column(
    alloc: Global,
    columns: &mut Vec<Column>,
    rows: &[(Key, Row)],
    entity: EntityNo,
    column: usize,
) -> Result<(), AllocError>
    requires { in_order rows.now ≡ true }
    ensures { AreIndexes columns.old.items rows.now → AreIndexes columns.new.items rows.now }
{
    if places_in(columns.as_slice(), entity, column).is_some() {
        return Ok(());
    }
    let own = searches::of_entity(rows, entity);
    let places = places_of(alloc, entity, column, own)?;
    columns.push(Column {
        entity,
        column,
        places,
    })?;
    Ok(())
}

/// Adds the columns through which a path goes.
fn add_path(
    alloc: Global,
    columns: &mut Vec<Column>,
    rows: &[(Key, Row)],
    entity: EntityNo,
    path: &Path,
) -> Result<(), AllocError>
    requires { in_order rows.now ≡ true }
    ensures { AreIndexes columns.old.items rows.now → AreIndexes columns.new.items rows.now }
{
    add_column(alloc, columns, rows, entity, usize::from(path.column))?;
    match path.target {
        Some(target) => add_column(
            alloc,
            columns,
            rows,
            target.entity,
            usize::from(target.column),
        ),
        None => Ok(()),
    }
}

/// Adds the columns by whose cells the rows may be found that meet a condition.
pub fn add_asked(
    alloc: Global,
    columns: &mut Vec<Column>,
    rows: &[(Key, Row)],
    entity: EntityNo,
    condition: &Cond,
) -> Result<(), AllocError>
    requires { in_order rows.now ≡ true }
    ensures { AreIndexes columns.old.items rows.now → AreIndexes columns.new.items rows.now }
{
    match condition {
        Cond::And(first, second) | Cond::Or(first, second) => {
            add_asked(alloc, columns, rows, entity, first)?;
            add_asked(alloc, columns, rows, entity, second)
        }
        Cond::Not(_) | Cond::Test { op: Op::Ne, .. } => Ok(()),
        Cond::Test { path, .. } | Cond::Among { path, .. } => add_path(
            alloc, columns, rows, entity, path,
        ),
    }
}
