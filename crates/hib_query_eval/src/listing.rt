// What a query gives: the rows that it lists are found, put in order, cut, and what it selects of them is taken.
ghost use Rattle.std.specs.Prelude.{◌≡◌, ◌∷◌, ◌+◌, pos, take, drop, map, true, slice_get, ◌<◌, ◌^◌, [], IfOk, unwrap_or, false};
ghost use Rattle.std.specs.List.{filter};
ghost use Rattle.hib_base.specs.Tables.{in_order};
ghost use Rattle.hib_journal.specs.Query.{sorted, selected, gives};
ghost use Rattle.hib_journal.specs.Types.{Cell};
ghost use Rattle.hib_query_eval.specs.Enough.{enough, is_enough, is_listed, first_of};

use crate::view::View;
use crate::{conditions, orders};
use hib_base::{Cell, Key, Listing, Query, Row, Rows, Select};
use std::alloc::{AllocError, Global};

/// What a query gives over rows, which must stand in order of keys: of the rows of its entity that meet its condition
/// the count; or else, in its order and cut by its offset and limit, their identifiers or the cells of a column. An
/// identifier of 2^63 or more, which no cell holds, is answered as want of memory.
#[tactic(auto, unfolding(hib_journal::specs::Query::gives))]
pub fn gives(alloc: Global, query: &Query, rows: &Rows) -> Result<Listing, AllocError>
    requires { in_order rows.now ≡ true }
    ensures { IfOk result (λ l. l ≡ gives query.now rows.now) }
{
    let view = View::of(rows.as_slice());
    let met = listed(alloc, query, rows.as_slice(), &view, enough(query))?;
    selected(alloc, query, met)
}

/// How many rows are enough for what a query gives, if it has no order, so that the first that it lists are those. None
/// if all are needed.
pub fn enough(query: &Query) -> Option<usize>
    ensures { result ≡ enough query.now }
{
    match query.select {
        Select::Ids | Select::Column(_) if query.order.is_empty() => Some(last_place(query)),
        _ => None,
    }
}

/// The place behind the last row that a query's offset and limit leave.
pub fn last_place(query: &Query) -> usize
    ensures { result ≡ query.now.offset + query.now.limit }
{
    query.offset as usize + query.limit as usize
}

/// Whether this many rows are enough.
pub fn is_enough(count: usize, most: Option<usize>) -> bool
    ensures { result ≡ is_enough count most }
{
    match most {
        Some(most) => count >= most,
        None => false,
    }
}

/// What a query selects of the rows that meet its condition.
pub fn selected(alloc: Global, query: &Query, met: Vec<&(Key, Row)>) -> Result<Listing, AllocError>
    ensures { IfOk result (λ l. l ≡ selected query.now
        (map (λ r. r.now) met.entry.items) query.now.select) }
{
    match query.select {
        Select::Count => count(alloc, met.len()),
        Select::Ids => {
            let placed = placed(alloc, query, met)?;
            identifiers(alloc, cut(placed.as_slice(), query.offset, query.limit))
        }
        Select::Column(column) => {
            let placed = placed(alloc, query, met)?;
            cells_of(
                alloc,
                column,
                cut(placed.as_slice(), query.offset, query.limit),
            )
        }
    }
}

/// Rows in a query's order, the first ones up to its limit.
fn placed<'a>(
    alloc: Global,
    query: &Query,
    met: Vec<&'a (Key, Row)>,
) -> Result<Vec<&'a (Key, Row)>, AllocError>
    ensures { IfOk result (λ v. map (λ r. r.now) v.items
        ≡ take (query.now.offset + query.now.limit)
        (sorted query.now.order (map (λ r. r.now) met.entry.items))) }
{
    orders::first_sorted(alloc, query.order.as_slice(), met, last_place(query))
}

/// Of these rows of a view those that a query lists. If a number is enough, no more than that.
pub fn listed<'a>(
    alloc: Global,
    query: &Query,
    rows: &'a [(Key, Row)],
    view: &'a View<'_>,
    most: Option<usize>,
) -> Result<Vec<&'a (Key, Row)>, AllocError>
    ensures { IfOk result (λ v. map (λ r. r.now) v.items
        ≡ first_of most (filter (is_listed query.now view.now) rows.now)) }
{
    let mut met = Vec::new(alloc);
    for row in rows {
        if is_enough(met.len(), most) {
            return Ok(met);
        }
        if is_listed(query, view, row) {
            met.push(row)?;
        }
    }
    Ok(met)
}

/// Whether a query lists a row of a view.
#[inline]
pub fn is_listed<'a>(query: &Query, view: &'a View<'_>, row: &'a (Key, Row)) -> bool
    ensures { result ≡ is_listed query.now view.now row.now }
{
    row.0.entity == query.entity && conditions::meets(view, &row.1, &query.condition)
}

/// Of these rows the ones from `offset` on, `limit` at most.
fn cut<'a, 'b>(rows: &'a [&'b (Key, Row)], offset: u32, limit: u32) -> &'a [&'b (Key, Row)]
    ensures { result.now ≡ take limit (drop offset rows.now) }
{
    let rest = &rows[rows.len().min(offset as usize)..];
    &rest[..rest.len().min(limit as usize)]
}

/// What a query that counts gives: one cell.
fn count(alloc: Global, rows: usize) -> Result<Listing, AllocError>
    ensures { rows < 2 ^ 63 → IfOk result (λ l. l ≡ Cell.Int (pos rows) ∷ []) }
{
    let mut list = Vec::new(alloc);
    list.push(Cell::Int(i64::try_from(rows).unwrap_or(i64::MAX)))?;
    Listing::from_vec(list)
}

/// The identifiers of rows, as cells.
fn identifiers(alloc: Global, rows: &[&(Key, Row)]) -> Result<Listing, AllocError>
    ensures { IfOk result (λ l. l ≡ map (λ a. Cell.Int (pos a.now.0.id)) rows.now) }
{
    let mut list = Vec::new(alloc);
    for row in rows {
        let Ok(id) = i64::try_from(row.0.id) else {
            return Err(AllocError);
        };
        list.push(Cell::Int(id))?;
    }
    Listing::from_vec(list)
}

/// The cells of a column.
fn cells_of(alloc: Global, column: u16, rows: &[&(Key, Row)]) -> Result<Listing, AllocError>
    ensures { IfOk result (λ l. l ≡ map
        (λ a. unwrap_or (slice_get a.now.1.cells column) (Cell.Bool false)) rows.now) }
{
    let mut list = Vec::new(alloc);
    for row in rows {
        list.push(cell_of(alloc, column, &row.1)?)?;
    }
    Listing::from_vec(list)
}

/// A row's cell of a column; false stands for one that is missing.
fn cell_of(alloc: Global, column: u16, row: &Row) -> Result<Cell, AllocError>
    ensures { IfOk result (λ c. c ≡ unwrap_or (slice_get row.now.cells column) (Cell.Bool false)) }
{
    match row.cells.as_slice().get(usize::from(column)) {
        Some(cell) => cell.copy(alloc),
        None => Ok(Cell::Bool(false)),
    }
}
