// The rows that come first in a query's order, found by a walk along the places of the ordered column, without putting
// all rows in order.
ghost use Rattle.std.specs.Prelude.{◌≡◌, ◌≢◌, ◌+◌, ◌∷◌, not, ◌&&◌, true, map, take, List, IfOk, IfSome, option_copied};
ghost use Rattle.std.specs.List.{filter, list_all};
ghost use Rattle.hib_journal.specs.Types.{Sort as SortSpec, Select as SelectSpec};
ghost use Rattle.hib_journal.specs.Query.{sorted};
ghost use Rattle.hib_query_eval.specs.Enough.{is_listed};
ghost use Rattle.hib_query_eval.specs.Orders.{is_behind, is_alike};

use crate::candidates::is_wide;
use crate::columns::{Column, places_in};
use crate::places::{self, Place, Value};
use crate::view::View;
use crate::{listing, orders, searches};
use hib_base::{Cell, Cond, Key, Op, Query, Row, Select, Sort};
use std::alloc::{AllocError, Global};
use std::collections::BTreeSet;
use std::collections::btree_set::Range;

/// The first column of a query's order. None if it has no order, or counts rows.
fn first_sort(query: &Query) -> Option<&Sort>
    ensures { IfSome (option_copied result) (λ sort. (query.now.select ≢ SelectSpec.Count)
        × ((more : List SortSpec) × (query.now.order ≡ sort ∷ more))) }
{
    match query.select {
        Select::Count => None,
        Select::Ids | Select::Column(_) => query.order.as_slice().first(),
    }
}

/// Whether a row has a cell of another's type in a column.
#[inline(always)]
fn is_alike(sort: &Sort, bound: &Cell, row: &(Key, Row)) -> bool
    ensures { result ≡ is_alike sort.now bound.now row.now }
{
    let cell = row.1.cells.as_slice().get(usize::from(sort.column));
    orders::kind(cell) == orders::kind(Some(bound))
}

/// Whether a row is behind a cell in a column.
#[inline(always)]
fn is_behind(sort: &Sort, bound: &Cell, row: &(Key, Row)) -> bool
    ensures { result ≡ is_behind sort.now bound.now row.now }
{
    let cell = row.1.cells.as_slice().get(usize::from(sort.column));
    if sort.desc {
        orders::is_below_at(cell, Some(bound))
    } else {
        orders::is_below_at(Some(bound), cell)
    }
}

/// Whether a query lists a row of a view, and the row isn't behind a cell in a column.
#[inline(always)]
fn is_near<'a>(
    query: &Query,
    sort: &Sort,
    bound: &Cell,
    view: &'a View<'_>,
    row: &'a (Key, Row),
) -> bool
    ensures { result
        ≡ (not (is_behind sort.now bound.now row.now) && is_listed query.now view.now row.now) }
{
    !is_behind(sort, bound, row) && listing::is_listed(query, view, row)
}

/// Of some rows those that a query lists, without those that are behind a cell in the first column of its order. None
/// if the rows don't all have a cell of its type there.
fn not_behind<'a>(
    alloc: Global,
    query: &Query,
    sort: &Sort,
    bound: &Cell,
    rows: &'a [(Key, Row)],
    view: &'a View<'_>,
) -> Result<Option<Vec<&'a (Key, Row)>>, AllocError>
    ensures met { IfOk result (λ o. IfSome o (λ v. map (λ r. r.now) v.items
        ≡ filter (λ a. not (is_behind sort.now bound.now a) && is_listed query.now view.now a)
        rows.now)) }
    ensures alike { IfOk result (λ o. IfSome o
        (λ _. list_all (is_alike sort.now bound.now) rows.now ≡ true)) }
{
    let mut met = Vec::new(alloc);
    for row in rows {
        if !is_alike(sort, bound, row) {
            return Ok(None);
        }
        if is_near(query, sort, bound, view, row) {
            met.push(row)?;
        }
    }
    Ok(Some(met))
}

/// The cell from which a condition bounds a column, on the side where an order by the column begins.
fn start_of<'a>(condition: &'a Cond, sort: &Sort) -> Option<&'a Cell> {
    match condition {
        Cond::And(first, second) => match start_of(first, sort) {
            Some(cell) => Some(cell),
            None => start_of(second, sort),
        },
        Cond::Test { op, path, cell } if path.target.is_none() && path.column == sort.column => {
            match op {
                Op::Lt | Op::Le if sort.desc => Some(cell),
                Op::Gt | Op::Ge if !sort.desc => Some(cell),
                _ => None,
            }
        }
        _ => None,
    }
}

/// The value from which a walk along the order of a column begins, if it isn't at the column's end.
fn start(alloc: Global, query: &Query, sort: &Sort) -> Result<Option<Value>, AllocError> {
    match &query.condition {
        Some(condition) => match start_of(condition, sort) {
            Some(cell) => Ok(Some(places::value_of(alloc, cell)?)),
            None => Ok(None),
        },
        None => Ok(None),
    }
}

/// How far a walk along a column goes: to a number of rows that a query lists, in at most a number of steps. If it is
/// sure, the query lists each row from the first one on that it lists.
#[derive(Clone, Copy)]
struct Reach {
    most: usize,
    steps: usize,
    is_sure: bool,
}

/// The part of a column's places along which a walk goes: from where it begins up to the column's end.
fn ahead<'a>(sort: &Sort, places: &'a BTreeSet<Place>, start: Option<Value>) -> Range<'a, Place> {
    if sort.desc {
        let to = start.unwrap_or(Value::Greatest);
        return places::between(places, Value::Least, to);
    }
    let from = start.unwrap_or(Value::Least);
    places::between(places, from, Value::Greatest)
}

/// The next identifier of a walk, which goes down from the last place or up from the first one.
fn next_id(found: &mut Range<'_, Place>, is_down: bool) -> Option<u64> {
    if is_down {
        return Some(found.next_back()?.id);
    }
    Some(found.next()?.id)
}

/// The row at which a walk along a column ends; none if it doesn't come so far.
fn reached<'a>(
    query: &Query,
    view: &'a View<'_>,
    found: Range<'_, Place>,
    is_down: bool,
    reach: &Reach,
) -> Option<&'a (Key, Row)> {
    let mut found = found;
    let mut left = reach.most;
    for _step in 0..reach.steps {
        let id = next_id(&mut found, is_down)?;
        if reach.is_sure && left > 1 && left < reach.most {
            left -= 1;
        } else if let Some(row) = searches::met_at(query, view, id) {
            if left <= 1 {
                return Some(row);
            }
            left -= 1;
        }
    }
    None
}

/// A row behind which, in the first column of a query's order, no row stands that is asked for; likely so. None if the
/// places don't tell one quickly. What the query gives doesn't depend on it.
fn likely_last<'a>(
    alloc: Global,
    query: &Query,
    sort: &Sort,
    columns: &[Column],
    view: &'a View<'_>,
    most: usize,
    steps: usize,
) -> Result<Option<&'a (Key, Row)>, AllocError> {
    let Some(places) = places_in(columns, query.entity, usize::from(sort.column)) else {
        return Ok(None);
    };
    let start = start(alloc, query, sort)?;
    let is_sure = match &query.condition {
        Some(Cond::Test { .. }) => start.is_some(),
        Some(_) => false,
        None => true,
    };
    let found = ahead(sort, places, start);
    let reach = Reach {
        most,
        steps,
        is_sure,
    };
    Ok(reached(query, view, found, sort.desc, &reach))
}

/// Whether the places tell that no more rows than this meet a query's condition.
fn are_few(
    alloc: Global,
    query: &Query,
    columns: &[Column],
    many: usize,
) -> Result<bool, AllocError> {
    match &query.condition {
        Some(condition) => Ok(!is_wide(alloc, columns, query.entity, condition, many)?),
        None => Ok(false),
    }
}

/// Of some rows those that a query lists and that come first in its order: as many as are asked for, and perhaps more.
/// None if putting all in order is as quick.
pub fn foremost<'a>(
    alloc: Global,
    query: &Query,
    rows: &'a [(Key, Row)],
    columns: &[Column],
    view: &'a View<'_>,
) -> Result<Option<Vec<&'a (Key, Row)>>, AllocError>
    ensures asked { IfOk result (λ o. IfSome o (λ _. query.now.select ≢ SelectSpec.Count)) }
    ensures first { IfOk result (λ o. IfSome o (λ v.
        take (query.now.offset + query.now.limit) (sorted query.now.order (map (λ r. r.now) v.items))
        ≡ take (query.now.offset + query.now.limit)
        (sorted query.now.order (filter (is_listed query.now view.now) rows.now)))) }
{
    let Some(sort) = first_sort(query) else {
        return Ok(None);
    };
    let most = listing::last_place(query);
    let steps = rows.len() / 16;
    let many = (rows.len() / 8).min(most.saturating_mul(2));
    if most > steps || are_few(alloc, query, columns, many)? {
        return Ok(None);
    }
    let Some(last) = likely_last(alloc, query, sort, columns, view, most, steps)? else {
        return Ok(None);
    };
    let Some(bound) = last.1.cells.as_slice().get(usize::from(sort.column)) else {
        return Ok(None);
    };
    let Some(met) = not_behind(alloc, query, sort, bound, rows, view)? else {
        return Ok(None);
    };
    if met.len() < most {
        return Ok(None);
    }
    Ok(Some(met))
}
