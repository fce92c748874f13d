// Which rows may meet a condition, found by the places of cells and not by a look at each row.
ghost use Rattle.std.specs.Prelude.{◌≡◌, ◌⊎◌, ℕ, ◌<◌, ◌^◌, ◌++◌, true, false, Some, IfOk, IfSome, OnOk, MatchOption};
ghost use Rattle.std.specs.List.{list_any};
ghost use Rattle.std.specs.Ordering.{is_le, is_lt};
ghost use Rattle.hib_journal.specs.Types.{Cell as CellSpec, Cond};
ghost use Rattle.hib_journal.specs.Query.{passes, same_cell};
ghost use Rattle.hib_query_eval.specs.declared.places.Value.{Value as ValueSpec};
ghost use Rattle.hib_query_eval.specs.Orders.{kind};
ghost use Rattle.hib_query_eval.specs.Places.{cell_in, has_place, has_id};
ghost use Rattle.hib_query_eval.specs.Spans.{value_cmp};
ghost use Rattle.hib_query_eval.specs.Covers.{Covers, Refer};

use crate::columns::{Column, places_in};
use crate::places::{self, Place, Value};
use hib_base::{Cell, Cond, EntityNo, Op, Path};
use std::alloc::{AllocError, Global};
use std::collections::BTreeSet;

/// The first value of the types that are ordered above a cell's.
fn above_kind(alloc: Global, cell: &Cell) -> Value
    ensures { (v : ValueSpec) → kind (Some cell.now) < kind (cell_in v)
        → is_le (value_cmp result v) ≡ true }
{
    match cell {
        Cell::Int(_) => Value::Text(Vec::new(alloc)),
        Cell::Text(_) => Value::Bool(false),
        Cell::Bool(_) => Value::Greatest,
    }
}

/// A value that is above all of the types that are ordered below a cell's.
fn below_kind(alloc: Global, cell: &Cell) -> Value
    ensures { (v : ValueSpec) → 0 < kind (cell_in v) → kind (cell_in v) < kind (Some cell.now)
        → is_lt (value_cmp result v) ≡ false }
{
    match cell {
        Cell::Int(_) => Value::Least,
        Cell::Text(_) => Value::Text(Vec::new(alloc)),
        Cell::Bool(_) => Value::Bool(false),
    }
}

/// Adds the identifiers of the rows whose cell is the same.
fn add_same(
    alloc: Global,
    places: &BTreeSet<Place>,
    cell: &Cell,
    ids: &mut Vec<u64>,
) -> Result<(), AllocError>
    ensures kept { OnOk result ((i : ℕ) → has_id i ids.old.items ≡ true
        → has_id i ids.new.items ≡ true) }
    ensures found { OnOk result ((i : ℕ) (d : CellSpec) → i < 2 ^ 64
        → has_place places.now.keys i d ≡ true → passes Op.Eq d cell.now ≡ true
        → has_id i ids.new.items ≡ true) }
{
    let from = places::value_of(alloc, cell)?;
    let to = places::value_of(alloc, cell)?;
    places::add_between(places, from, to, ids)
}

/// Adds the identifiers of the rows whose cell is below.
fn add_below(
    alloc: Global,
    places: &BTreeSet<Place>,
    cell: &Cell,
    ids: &mut Vec<u64>,
) -> Result<(), AllocError>
    ensures kept { OnOk result ((i : ℕ) → has_id i ids.old.items ≡ true
        → has_id i ids.new.items ≡ true) }
    ensures found { OnOk result ((i : ℕ) (d : CellSpec) → i < 2 ^ 64
        → has_place places.now.keys i d ≡ true → passes Op.Lt d cell.now ≡ true
        → has_id i ids.new.items ≡ true) }
{
    let to = places::value_of(alloc, cell)?;
    places::add_between(places, Value::Least, to, ids)
}

/// Adds the identifiers of the rows whose cell is above.
fn add_above(
    alloc: Global,
    places: &BTreeSet<Place>,
    cell: &Cell,
    ids: &mut Vec<u64>,
) -> Result<(), AllocError>
    ensures kept { OnOk result ((i : ℕ) → has_id i ids.old.items ≡ true
        → has_id i ids.new.items ≡ true) }
    ensures found { OnOk result ((i : ℕ) (d : CellSpec) → i < 2 ^ 64
        → has_place places.now.keys i d ≡ true → passes Op.Gt d cell.now ≡ true
        → has_id i ids.new.items ≡ true) }
{
    let from = places::value_of(alloc, cell)?;
    places::add_between(places, from, Value::Greatest, ids)
}

/// Adds the identifiers of the rows whose cell isn't above: one of another type isn't above either.
fn add_not_above(
    alloc: Global,
    places: &BTreeSet<Place>,
    cell: &Cell,
    ids: &mut Vec<u64>,
) -> Result<(), AllocError>
    ensures kept { OnOk result ((i : ℕ) → has_id i ids.old.items ≡ true
        → has_id i ids.new.items ≡ true) }
    ensures found { OnOk result ((i : ℕ) (d : CellSpec) → i < 2 ^ 64
        → has_place places.now.keys i d ≡ true → passes Op.Le d cell.now ≡ true
        → has_id i ids.new.items ≡ true) }
{
    let to = places::value_of(alloc, cell)?;
    places::add_between(places, Value::Least, to, ids)?;
    let next = above_kind(alloc, cell);
    places::add_between(places, next, Value::Greatest, ids)
}

/// Adds the identifiers of the rows whose cell isn't below: one of another type isn't below either.
fn add_not_below(
    alloc: Global,
    places: &BTreeSet<Place>,
    cell: &Cell,
    ids: &mut Vec<u64>,
) -> Result<(), AllocError>
    ensures kept { OnOk result ((i : ℕ) → has_id i ids.old.items ≡ true
        → has_id i ids.new.items ≡ true) }
    ensures found { OnOk result ((i : ℕ) (d : CellSpec) → i < 2 ^ 64
        → has_place places.now.keys i d ≡ true → passes Op.Ge d cell.now ≡ true
        → has_id i ids.new.items ≡ true) }
{
    let from = places::value_of(alloc, cell)?;
    places::add_between(places, from, Value::Greatest, ids)?;
    let last = below_kind(alloc, cell);
    places::add_between(places, Value::Least, last, ids)
}

/// The identifiers of the rows whose cell in a column compares so with this cell, and perhaps of others. None if an
/// index doesn't narrow the comparison.
fn compared(
    alloc: Global,
    places: &BTreeSet<Place>,
    op: Op,
    cell: &Cell,
) -> Result<Option<Vec<u64>>, AllocError>
    ensures { IfOk result (λ o. IfSome o (λ ids. (i : ℕ) (d : CellSpec) → i < 2 ^ 64
        → has_place places.now.keys i d ≡ true → passes op d cell.now ≡ true
        → has_id i ids.items ≡ true)) }
{
    let mut ids = Vec::new(alloc);
    match op {
        Op::Eq => add_same(alloc, places, cell, &mut ids)?,
        Op::Ne => return Ok(None),
        Op::Lt => add_below(alloc, places, cell, &mut ids)?,
        Op::Le => add_not_above(alloc, places, cell, &mut ids)?,
        Op::Gt => add_above(alloc, places, cell, &mut ids)?,
        Op::Ge => add_not_below(alloc, places, cell, &mut ids)?,
    }
    Ok(Some(ids))
}

/// The identifiers of the rows whose cell is one of some cells, and perhaps of others.
fn among(alloc: Global, places: &BTreeSet<Place>, cells: &[Cell]) -> Result<Vec<u64>, AllocError>
    ensures { IfOk result (λ ids. (i : ℕ) (d : CellSpec) → i < 2 ^ 64
        → has_place places.now.keys i d ≡ true
        → list_any (λ c. same_cell d c) cells.now ≡ true → has_id i ids.items ≡ true) }
{
    let mut ids = Vec::new(alloc);
    for cell in cells {
        add_same(alloc, places, cell, &mut ids)?;
    }
    Ok(ids)
}

/// The shorter list, if there are two; else the one that there is. Of two conditions that must both hold, one list is
/// enough.
fn shorter(first: Option<Vec<u64>>, second: Option<Vec<u64>>) -> Option<Vec<u64>>
    ensures { IfSome result (λ ids. (first ≡ Some ids) ⊎ (second ≡ Some ids)) }
{
    let Some(first) = first else {
        return second;
    };
    match second {
        Some(second) if second.len() < first.len() => Some(second),
        _ => Some(first),
    }
}

/// The identifiers of both lists, if there are two; else none. Of two conditions of which one must hold, both lists are
/// needed.
fn joined(first: Option<Vec<u64>>, second: Option<Vec<u64>>) -> Result<Option<Vec<u64>>, AllocError>
    ensures { IfOk result (λ o. IfSome o
        (λ ids. MatchOption first ⊥ (λ a. MatchOption second ⊥
        (λ b. ids.items ≡ a.items ++ b.items)))) }
{
    let (Some(mut first), Some(second)) = (first, second) else {
        return Ok(None);
    };
    first.extend_from_slice(second.as_slice())?;
    Ok(Some(first))
}

/// The identifiers of the rows whose cell refers to a row of one of some identifiers. None if one of these is so
/// large that no cell holds it.
fn referring(
    alloc: Global,
    places: &BTreeSet<Place>,
    targets: &[u64],
) -> Result<Option<Vec<u64>>, AllocError>
    ensures { IfOk result (λ o. IfSome o
        (λ ids. Refer places.now.keys targets.now ids.items)) }
{
    let mut ids = Vec::new(alloc);
    for target in targets {
        let Ok(id) = i64::try_from(*target) else {
            return Ok(None);
        };
        add_same(alloc, places, &Cell::Int(id), &mut ids)?;
    }
    Ok(Some(ids))
}

/// The identifiers of the rows of which a comparison of the cell at a path holds, and perhaps of others.
fn compared_at(
    alloc: Global,
    columns: &[Column],
    entity: EntityNo,
    path: &Path,
    op: Op,
    cell: &Cell,
) -> Result<Option<Vec<u64>>, AllocError>
    ensures { IfOk result (λ o. IfSome o
        (λ ids. Covers columns.now entity (Cond.Test op path.now cell.now) ids.items)) }
{
    let column = usize::from(path.column);
    let Some(places) = places_in(columns, entity, column) else {
        return Ok(None);
    };
    let Some(target) = path.target else {
        return compared(alloc, places, op, cell);
    };
    let of_target = usize::from(target.column);
    let Some(there) = places_in(columns, target.entity, of_target) else {
        return Ok(None);
    };
    let Some(found) = compared(alloc, there, op, cell)? else {
        return Ok(None);
    };
    referring(alloc, places, found.as_slice())
}

/// The identifiers of the rows of which the cell at a path is one of some cells, and perhaps of others.
fn among_at(
    alloc: Global,
    columns: &[Column],
    entity: EntityNo,
    path: &Path,
    cells: &[Cell],
) -> Result<Option<Vec<u64>>, AllocError>
    ensures { IfOk result (λ o. IfSome o
        (λ ids. Covers columns.now entity (Cond.Among path.now cells.now) ids.items)) }
{
    let column = usize::from(path.column);
    let Some(places) = places_in(columns, entity, column) else {
        return Ok(None);
    };
    let Some(target) = path.target else {
        return Ok(Some(among(alloc, places, cells)?));
    };
    let of_target = usize::from(target.column);
    let Some(there) = places_in(columns, target.entity, of_target) else {
        return Ok(None);
    };
    let found = among(alloc, there, cells)?;
    referring(alloc, places, found.as_slice())
}

/// The identifiers of the rows of an entity that meet a condition, and perhaps of others, in any order, and some perhaps
/// more than once. None if the columns don't narrow the condition, or if a comparison by order finds more than `most`
/// rows.
pub fn candidates(
    alloc: Global,
    columns: &[Column],
    entity: EntityNo,
    condition: &Cond,
    most: usize,
) -> Result<Option<Vec<u64>>, AllocError>
    ensures { IfOk result (λ o. IfSome o
        (λ ids. Covers columns.now entity condition.now ids.items)) }
{
    match condition {
        Cond::And(first, second) => {
            let of_first = candidates(alloc, columns, entity, first, most)?;
            let of_second = candidates(alloc, columns, entity, second, most)?;
            Ok(shorter(of_first, of_second))
        }
        Cond::Or(first, second) => {
            let of_first = candidates(alloc, columns, entity, first, most)?;
            let of_second = candidates(alloc, columns, entity, second, most)?;
            joined(of_first, of_second)
        }
        Cond::Not(_) => Ok(None),
        Cond::Test { .. } if is_wide(alloc, columns, entity, condition, most)? => Ok(None),
        Cond::Test { op, path, cell } => compared_at(alloc, columns, entity, path, *op, cell),
        Cond::Among { path, cells } => among_at(alloc, columns, entity, path, cells.as_slice()),
    }
}

/// Whether the columns find more rows of an entity for a condition than this, as far as that is quickly told. What is
/// listed doesn't depend on it.
pub fn is_wide(
    alloc: Global,
    columns: &[Column],
    entity: EntityNo,
    condition: &Cond,
    most: usize,
) -> Result<bool, AllocError> {
    match condition {
        Cond::And(first, second) => Ok(
            is_wide(alloc, columns, entity, first, most)?
                && is_wide(alloc, columns, entity, second, most)?,
        ),
        Cond::Or(first, second) => Ok(
            is_wide(alloc, columns, entity, first, most)?
                || is_wide(alloc, columns, entity, second, most)?,
        ),
        Cond::Not(_) => Ok(true),
        Cond::Test { op, path, cell } if path.target.is_none() => {
            let column = usize::from(path.column);
            let Some(places) = places_in(columns, entity, column) else {
                return Ok(true);
            };
            let value = places::value_of(alloc, cell)?;
            Ok(match op {
                Op::Lt | Op::Le => places::are_more(places, Value::Least, value, most),
                Op::Gt | Op::Ge => places::are_more(places, value, Value::Greatest, most),
                Op::Eq => false,
                Op::Ne => true,
            })
        }
        Cond::Test { .. } | Cond::Among { .. } => Ok(false),
    }
}
