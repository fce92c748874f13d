// The rows that a query lists, found by an index or by a walk over all rows, with changes laid over them or without.
ghost use Rattle.std.specs.Prelude.{◌≡◌, ◌<◌, ◌≤◌, ℕ, true, false, length, IfOk, IfSome, OnOk, map, take, drop, option_copied};
ghost use Rattle.std.specs.List.Sorted.{IsStrictlyIncreasing};
ghost use Rattle.hib_base.specs.Tables.{Tables, in_order, after_changes};
ghost use Rattle.hib_journal.specs.Room.{key as key_at};
ghost use Rattle.hib_journal.specs.Query.{listed};
ghost use Rattle.std.specs.List.{filter};
ghost use Rattle.hib_outside.specs.Places.{place_in};
ghost use Rattle.hib_query_eval.specs.Covers.{HasLeft, HasMet};
ghost use Rattle.hib_query_eval.specs.Enough.{first_of, is_listed, IsFirst, place_of, HasEntity};
ghost use Rattle.hib_query_eval.specs.Found.{row_in, if_met};
ghost use Rattle.hib_query_eval.specs.Places.{AreIndexes, has_id};
ghost use Rattle.hib_query_eval.specs.Views.{is_changed, has_changed, comes_first, laid_over, Lays};

use crate::candidates::{candidates, is_wide};
use crate::columns::Column;
use crate::own::{self, Laid};
use crate::view::View;
use crate::{conditions, listing, reading};
use hib_base::{Change, EntityNo, Key, Query, Row};
use hib_outside::keyed;
use std::alloc::{AllocError, Global};

/// The row at an identifier, if it meets a query's condition.
pub fn met_at<'a>(query: &Query, view: &'a View<'_>, id: u64) -> Option<&'a (Key, Row)>
    ensures { option_copied result
        ≡ if_met query.now view.now (row_in view.now (key_at query.now.entity id)) }
{
    let entry = view.entry_of(&Key {
        entity: query.entity,
        id,
    })?;
    if conditions::meets(view, &entry.1, &query.condition) {
        Some(entry)
    } else {
        None
    }
}

/// The rows that a query lists. They must all be among these identifiers, which must rise.
fn found<'a>(
    alloc: Global,
    query: &Query,
    view: &'a View<'_>,
    ids: &[u64],
) -> Result<Vec<&'a (Key, Row)>, AllocError>
    requires ordered { in_order view.now ≡ true }
    requires rising { IsStrictlyIncreasing ids.now }
    requires all { HasMet query.now view.now ids.now }
    ensures { IfOk result (λ v. map (λ r. r.now) v.items ≡ listed query.now view.now) }
{
    let mut met = Vec::new(alloc);
    for id in ids {
        if let Some(row) = met_at(query, view, *id) {
            met.push(row)?;
        }
    }
    Ok(met)
}

/// Adds the identifiers of the rows of an entity that the changes change.
fn add_changed(ids: &mut Vec<u64>, entity: EntityNo, changes: &[Change]) -> Result<(), AllocError>
    ensures kept { OnOk result ((i : ℕ) → has_id i ids.old.items ≡ true
        → has_id i ids.new.items ≡ true) }
    ensures changed { OnOk result ((i : ℕ) → is_changed (key_at entity i) changes.now ≡ true
        → has_id i ids.new.items ≡ true) }
{
    for change in changes {
        let key = change.key();
        if key.entity == entity {
            ids.push(key.id)?;
        }
    }
    Ok(())
}

/// The same identifiers in order, each once.
fn rising(mut ids: Vec<u64>) -> Vec<u64>
    ensures rising { IsStrictlyIncreasing result.items }
    ensures kept { (i : ℕ) → has_id i ids.items ≡ true → has_id i result.items ≡ true }
{
    ids.sort_unstable();
    ids.dedup();
    ids
}

/// Identifiers among which are those of all rows that meet a query's condition. None if the places don't narrow it
/// much.
fn narrowed(
    alloc: Global,
    query: &Query,
    columns: &[Column],
    most: usize,
) -> Result<Option<Vec<u64>>, AllocError>
    ensures { IfOk result (λ o. IfSome o (λ ids. (t : Tables) → AreIndexes columns.now t
        → HasMet query.now t ids.items)) }
{
    match &query.condition {
        Some(condition) => candidates(alloc, columns, query.entity, condition, most),
        None => Ok(None),
    }
}

/// Adds the identifiers of the rows that changes leave and that meet a query's condition, and perhaps of other changed
/// keys.
fn add_left(
    alloc: Global,
    ids: &mut Vec<u64>,
    query: &Query,
    changes: &[Change],
    laid: &Laid,
    most: usize,
) -> Result<(), AllocError>
    requires { Lays changes.now laid.now }
    ensures kept { OnOk result ((i : ℕ) → has_id i ids.old.items ≡ true
        → has_id i ids.new.items ≡ true) }
    ensures left { OnOk result (HasLeft query.now changes.now laid.now ids.new.items) }
{
    if !reading::steps_anywhere(query) {
        if let Some(left) = narrowed(alloc, query, laid.left.columns(), most)? {
            ids.extend_from_slice(left.as_slice())?;
            return Ok(());
        }
    }
    add_changed(ids, query.entity, changes)
}

/// Identifiers among which are those of all rows that meet a query's condition once changes are laid over the rows of
/// these columns. None if the places don't narrow it much, or if the changes touch a table to which the condition
/// steps.
fn narrowed_over(
    alloc: Global,
    query: &Query,
    columns: &[Column],
    changes: &[Change],
    laid: &Laid,
    most: usize,
) -> Result<Option<Vec<u64>>, AllocError>
    requires { Lays changes.now laid.now }
    ensures { IfOk result (λ o. IfSome o (λ ids. (t : Tables) → AreIndexes columns.now t
        → HasMet query.now (after_changes changes.now t) ids.items)) }
{
    if reading::touches_steps(query, changes) {
        return Ok(None);
    }
    let Some(mut ids) = narrowed(alloc, query, columns, most)? else {
        return Ok(None);
    };
    add_left(alloc, &mut ids, query, changes, laid, most)?;
    Ok(Some(ids))
}

/// As many rows as are enough, if the first rows have them. None if they don't, or if the places tell that few rows
/// meet the condition.
fn listed_early<'a>(
    alloc: Global,
    query: &Query,
    own: &'a [(Key, Row)],
    columns: &[Column],
    view: &'a View<'_>,
    enough: usize,
) -> Result<Option<Vec<&'a (Key, Row)>>, AllocError>
    ensures { IfOk result (λ o. IfSome o (λ v. map (λ r. r.now) v.items
        ≡ take enough (filter (is_listed query.now view.now) own.now))) }
{
    if let Some(condition) = &query.condition {
        let many = enough.saturating_mul(2).saturating_add(64);
        if !is_wide(alloc, columns, query.entity, condition, many)? {
            return Ok(None);
        }
    }
    let first = &own[..own.len().min(enough.saturating_mul(16).saturating_add(512))];
    let met = listing::listed(alloc, query, first, view, Some(enough))?;
    if met.len() < enough {
        return Ok(None);
    }
    Ok(Some(met))
}

/// The place of a key's row, or where it belongs, among rows that must stand in order of keys.
fn place(rows: &[(Key, Row)], key: Key) -> usize
    requires { in_order rows.now ≡ true }
    ensures within { result ≤ length rows.now }
    ensures place { result ≡ place_of (place_in rows.now key) }
{
    match keyed::find(rows, &key) {
        Ok(at) => at,
        Err(at) => at,
    }
}

/// The rows from the first one of an entity on.
fn from_entity(rows: &[(Key, Row)], entity: EntityNo) -> &[(Key, Row)]
    requires { in_order rows.now ≡ true }
    ensures ordered { in_order result.now ≡ true }
    ensures has_all { HasEntity entity rows.now result.now }
{
    let first = place(rows, Key { entity, id: 0 });
    &rows[first..]
}

/// The rows of an entity, which stand together.
pub fn of_entity(rows: &[(Key, Row)], entity: EntityNo) -> &[(Key, Row)]
    requires { in_order rows.now ≡ true }
    ensures ordered { in_order result.now ≡ true }
    ensures has_all { HasEntity entity rows.now result.now }
{
    let rest = from_entity(rows, entity);
    match entity.0.checked_add(1) {
        Some(next) => {
            let next = EntityNo(next);
            let behind = place(
                rest,
                Key {
                    entity: next,
                    id: 0,
                },
            );
            &rest[..behind]
        }
        None => rest,
    }
}

/// Of rows, which must stand in order of keys, those that a query lists. If a number is enough, perhaps no more than
/// that.
pub fn listed<'a>(
    alloc: Global,
    query: &Query,
    rows: &'a [(Key, Row)],
    columns: &[Column],
    view: &'a View<'_>,
    most: Option<usize>,
) -> Result<Vec<&'a (Key, Row)>, AllocError>
    requires ordered { in_order rows.now ≡ true }
    requires indexed { AreIndexes columns.now rows.now }
    requires view { view.now ≡ rows.now }
    ensures { IfOk result (λ v. IsFirst most query.now rows.now (map (λ r. r.now) v.items)) }
{
    let own = of_entity(rows, query.entity);
    if let Some(enough) = most {
        if let Some(met) = listed_early(alloc, query, own, columns, view, enough)? {
            return Ok(met);
        }
    }
    match narrowed(alloc, query, columns, own.len() / 8)? {
        Some(ids) => {
            let ids = rising(ids);
            found(alloc, query, view, ids.as_slice())
        }
        None => listing::listed(alloc, query, own, view, most),
    }
}

/// Whether, of what is left of two lists, the next row comes from the second one.
fn is_second(rows: &[(Key, Row)], at: usize, left: &[(Key, Row)], behind: usize) -> bool
    ensures first { result ≡ comes_first (drop at rows.now) (drop behind left.now) }
    ensures second { result ≡ true → behind < length left.now }
    ensures within { result ≡ false → behind < length left.now → at < length rows.now }
{
    if behind >= left.len() {
        return false;
    }
    if at >= rows.len() {
        return true;
    }
    keyed::comes_before(&left[behind].0, &rows[at].0)
}

/// The rows that a query lists of a view, in order: of `rows` those whose keys aren't changed, and of `left` those that
/// the changes leave. If a number is enough, no more than that.
fn walked<'a>(
    alloc: Global,
    query: &Query,
    rows: &'a [(Key, Row)],
    left: &'a [(Key, Row)],
    laid: &Laid,
    view: &'a View<'_>,
    most: Option<usize>,
) -> Result<Vec<&'a (Key, Row)>, AllocError>
    ensures { IfOk result (λ v. map (λ r. r.now) v.items ≡ first_of most
        (filter (is_listed query.now view.now) (laid_over (has_changed laid.now) rows.now left.now))) }
{
    let mut met = Vec::new(alloc);
    let mut at = 0;
    let mut behind = 0;
    while at < rows.len() || behind < left.len() {
        if listing::is_enough(met.len(), most) {
            return Ok(met);
        }
        if is_second(rows, at, left, behind) {
            let row = &left[behind];
            if listing::is_listed(query, view, row) {
                met.push(row)?;
            }
            behind += 1;
        } else {
            let row = &rows[at];
            if listing::is_listed(query, view, row) && !own::is_changed(laid, &row.0) {
                met.push(row)?;
            }
            at += 1;
        }
    }
    Ok(met)
}

/// From how many rows on that may meet a condition a walk over all rows is likely to be quicker.
fn many(rows: usize, most: Option<usize>) -> usize {
    let many = rows / 8;
    match most {
        Some(enough) => many.min(enough.saturating_mul(2).saturating_add(64)),
        None => many,
    }
}

/// The rows that a query lists of a view, which must be that of `rows` with these changes laid over them. If a number
/// is enough, perhaps no more than that.
pub fn listed_over<'a>(
    alloc: Global,
    query: &Query,
    rows: &'a [(Key, Row)],
    columns: &[Column],
    changes: &[Change],
    laid: &'a Laid,
    view: &'a View<'_>,
    most: Option<usize>,
) -> Result<Vec<&'a (Key, Row)>, AllocError>
    requires ordered { in_order rows.now ≡ true }
    requires indexed { AreIndexes columns.now rows.now }
    requires laid { Lays changes.now laid.now }
    requires view { view.now ≡ after_changes changes.now rows.now }
    ensures { IfOk result (λ v. IsFirst most query.now view.now (map (λ r. r.now) v.items)) }
{
    let own = of_entity(rows, query.entity);
    let many = many(own.len(), most);
    if let Some(ids) = narrowed_over(alloc, query, columns, changes, laid, many)? {
        let ids = rising(ids);
        return found(alloc, query, view, ids.as_slice());
    }
    let left = of_entity(laid.left.as_slice(), query.entity);
    walked(alloc, query, own, left, laid, view, most)
}
