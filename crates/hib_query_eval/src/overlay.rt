// What a query gives over indexed rows, with a session's own changes laid over them. It picks the quickest way.
ghost use Rattle.std.specs.Prelude.{◌≡◌, true, IfOk};
ghost use Rattle.hib_base.specs.Tables.{in_order, after_changes};
ghost use Rattle.hib_journal.specs.Query.{gives};
ghost use Rattle.hib_query_eval.specs.Places.{AreIndexes};
ghost use Rattle.hib_query_eval.specs.Views.{Lays};

use crate::columns::Column;
use crate::own::{self, Laid, Own};
use crate::view::View;
use crate::{foremost, listing, reading, searches};
use hib_base::{Change, Key, Listing, Query, Row};
use std::alloc::{AllocError, Global};

/// What a query gives over rows with a session's own changes laid over them. No row is copied.
pub fn gives(
    alloc: Global,
    query: &Query,
    rows: &[(Key, Row)],
    columns: &[Column],
    own: &Own,
) -> Result<Listing, AllocError>
    requires ordered { in_order rows.now ≡ true }
    requires indexed { AreIndexes columns.now rows.now }
    ensures { IfOk result (λ l. l ≡ gives query.now (after_changes own.now rows.now)) }
{
    if reading::is_touched(query, own.as_slice()) {
        return given_laid(alloc, query, rows, columns, own);
    }
    given(alloc, query, rows, columns)
}

/// What a query gives over rows with changes laid over them, if the changes touch a table that it reads.
fn given_laid(
    alloc: Global,
    query: &Query,
    rows: &[(Key, Row)],
    columns: &[Column],
    own: &Own,
) -> Result<Listing, AllocError>
    requires ordered { in_order rows.now ≡ true }
    requires indexed { AreIndexes columns.now rows.now }
    ensures { IfOk result (λ l. l ≡ gives query.now (after_changes own.now rows.now)) }
{
    let changes = own.as_slice();
    if let Some(laid) = own.laid() {
        return given_over(alloc, query, rows, columns, changes, laid);
    }
    let laid = own::all_laid(alloc, changes)?;
    given_over(alloc, query, rows, columns, changes, &laid)
}

/// What a query gives over rows as they are: no change touches a table that it reads.
fn given(
    alloc: Global,
    query: &Query,
    rows: &[(Key, Row)],
    columns: &[Column],
) -> Result<Listing, AllocError>
    requires ordered { in_order rows.now ≡ true }
    requires indexed { AreIndexes columns.now rows.now }
    ensures { IfOk result (λ l. l ≡ gives query.now rows.now) }
{
    let view = View::of(rows);
    let own = searches::of_entity(rows, query.entity);
    match foremost::foremost(alloc, query, own, columns, &view)? {
        Some(met) => listing::selected(alloc, query, met),
        None => given_of_all(alloc, query, rows, columns, &view),
    }
}

/// What a query gives over rows as they are, by all rows that it lists, or by as many as are enough.
fn given_of_all(
    alloc: Global,
    query: &Query,
    rows: &[(Key, Row)],
    columns: &[Column],
    view: &View<'_>,
) -> Result<Listing, AllocError>
    requires ordered { in_order rows.now ≡ true }
    requires indexed { AreIndexes columns.now rows.now }
    requires view { view.now ≡ rows.now }
    ensures { IfOk result (λ l. l ≡ gives query.now rows.now) }
{
    let enough = listing::enough(query);
    let met = searches::listed(alloc, query, rows, columns, view, enough)?;
    listing::selected(alloc, query, met)
}

/// What a query gives over rows with changes laid over them; `laid` is what the changes leave.
fn given_over(
    alloc: Global,
    query: &Query,
    rows: &[(Key, Row)],
    columns: &[Column],
    changes: &[Change],
    laid: &Laid,
) -> Result<Listing, AllocError>
    requires ordered { in_order rows.now ≡ true }
    requires indexed { AreIndexes columns.now rows.now }
    requires laid { Lays changes.now laid.now }
    ensures { IfOk result (λ l. l ≡ gives query.now (after_changes changes.now rows.now)) }
{
    let view = View::over(rows, changes, laid);
    let enough = listing::enough(query);
    let met = searches::listed_over(alloc, query, rows, columns, changes, laid, &view, enough)?;
    listing::selected(alloc, query, met)
}
