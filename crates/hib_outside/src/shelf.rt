// What is done to a shelf, which is rows in order of keys, as a keeper in memory has them: changes, one by one and in
// batches, and copies.
ghost use Rattle.std.specs.Map.{lookup};
ghost use Rattle.std.specs.Prelude.{◌≡◌, ◌+◌, ◌≤◌, ◌<◌, ℕ, true, length, take, [], if◌then◌else◌, Some, None, IfOk, IfSome, OnOk, OnErr, vec_len, vec_capacity, option_copied};
ghost use Rattle.hib_base.specs.Keys.{same_key};
ghost use Rattle.hib_base.specs.declared.numbers.Key.{Key as KeyOf};
ghost use Rattle.hib_base.specs.Tables.{in_order, row_at, same_version, after_change, after_changes, unless_there, with_absent};
ghost use Rattle.hib_base.specs.Start.{widened_entry, widened};
ghost use Rattle.hib_outside.specs.Keeps.{rows_of, is_listed};
ghost use Rattle.hib_outside.specs.Verdicts.{refused_at, verdict, IsPlace};
ghost use Rattle.hib_outside.specs.Lasts.{change_at, HasLasts};

use crate::keyed::{comes_before, put, row_of, take_out};
use crate::{Applied, parted};
use hib_base::{Change, EntityDef, EntityNo, Key, Row, Rows, Seq, entity_columns};
use indexmap::IndexMap;
use std::alloc::{AllocError, Global};

/// The last change of a key among the first ones of a batch, if it has one there; for `row_after`.
fn last_change<'a>(
    batch: &'a [Change],
    lasts: &IndexMap<Key, usize>,
    key: &Key,
) -> Option<&'a Change>
    ensures { option_copied result
        ≡ change_at batch.now (lookup (same_key key.now) lasts.now.entries) }
{
    batch.get(*lasts.get(key)?)
}

/// Notes that a key has its last change at this place, so far.
fn note_last(lasts: &mut IndexMap<Key, usize>, key: Key, at: usize) -> Result<(), AllocError>
    ensures { OnOk result ((k : KeyOf) → lookup (same_key k) lasts.new.entries
        ≡ (if same_key key k then Some at else lookup (same_key k) lasts.old.entries)) }
{
    lasts.insert(key, at)?;
    Ok(())
}

/// The row that a key would have after the first changes of a batch, to judge the next one. `lasts` has for each key
/// the place of its last change among them.
fn row_after<'a>(
    rows: &'a [(Key, Row)],
    batch: &'a [Change],
    lasts: &IndexMap<Key, usize>,
    key: &Key,
) -> Option<&'a Row>
    requires { in_order rows.now ≡ true }
    ensures { (n : ℕ) → HasLasts batch.now n lasts.now.entries
        → option_copied result ≡ row_at (after_changes (take n batch.now) rows.now) key.now }
{
    match last_change(batch, lasts, key) {
        Some(change) => change.row_left(),
        None => row_of(rows, key),
    }
}

/// The answer to a change that doesn't apply to this row; none if it applies.
fn refused(at: usize, change: &Change, found: Option<&Row>) -> Option<Applied>
    ensures value { result ≡ refused_at at change.now (option_copied found.entry) }
    ensures place { (n : ℕ) → at < n → IfSome result (λ a. IsPlace a n) }
{
    match (change, found) {
        (Change::Insert { .. }, Some(_)) => Some(Applied::Duplicate { at }),
        (Change::Insert { .. }, None) => None,
        (Change::Update { expected, .. } | Change::Delete { expected, .. }, Some(row)) => {
            unless_expected(at, *expected, row.version)
        }
        (Change::Update { .. } | Change::Delete { .. }, None) => Some(Applied::Stale {
            at,
            found: None,
            there: false,
        }),
    }
}

/// The answer to a change that expects another version than the row has; none if it expects this one.
fn unless_expected(at: usize, expected: Option<u32>, found: Option<u32>) -> Option<Applied>
    ensures value { result ≡ (if same_version expected found then None
        else Some (Applied.Stale at found true)) }
    ensures place { (n : ℕ) → at < n → IfSome result (λ a. IsPlace a n) }
{
    match (expected, found) {
        (None, None) => None,
        (Some(a), Some(b)) if a == b => None,
        _ => Some(Applied::Stale {
            at,
            found,
            there: true,
        }),
    }
}

/// What is answered to a batch: the first change that doesn't apply decides. The rows stay.
pub fn judge(alloc: Global, rows: &[(Key, Row)], batch: &[Change]) -> Result<Applied, AllocError>
    requires { in_order rows.now ≡ true }
    ensures value { IfOk result (λ a. a ≡ verdict rows.now batch.now 0) }
    ensures place { IfOk result (λ a. IsPlace a (length batch.now)) }
{
    let mut lasts = IndexMap::new(alloc);
    for at in 0..batch.len() {
        let change = &batch[at];
        let key = change.key();
        let found = row_after(rows, batch, &lasts, &key);
        if let Some(applied) = refused(at, change, found) {
            return Ok(applied);
        }
        note_last(&mut lasts, key, at)?;
    }
    Ok(Applied::Done)
}

/// Equal changes.
pub fn copy_changes(alloc: Global, changes: &[Change]) -> Result<Vec<Change>, AllocError>
    ensures { IfOk result (λ c. c.items ≡ changes.now) }
{
    let mut copy = Vec::with_capacity(alloc, changes.len())?;
    for change in changes {
        copy.push(change.copy(alloc)?)?;
    }
    Ok(copy)
}

/// Equal rows.
pub fn copy_rows(alloc: Global, rows: &[(Key, Row)]) -> Result<Vec<(Key, Row)>, AllocError>
    ensures { IfOk result (λ c. c.items ≡ rows.now) }
{
    let mut copy = Vec::with_capacity(alloc, rows.len())?;
    for row in rows {
        copy.push((row.0, row.1.copy(alloc)?))?;
    }
    Ok(copy)
}

/// A row with its key, widened to the columns of its entity.
fn widened_entry(
    alloc: Global,
    mapping: &[EntityDef],
    entry: &(Key, Row),
) -> Result<(Key, Row), AllocError>
    ensures { IfOk result (λ e. e ≡ widened_entry mapping.now entry.now) }
{
    let columns = entity_columns(mapping, entry.0.entity);
    Ok((entry.0, entry.1.widened(alloc, columns)?))
}

/// Equal rows, except that a row of an entity of this mapping that lacks columns has their defaults at its end, if each
/// of these columns has one.
pub fn widened(
    alloc: Global,
    mapping: &[EntityDef],
    rows: &[(Key, Row)],
) -> Result<Vec<(Key, Row)>, AllocError>
    ensures { IfOk result (λ c. c.items ≡ widened mapping.now rows.now) }
{
    let mut wide = Vec::with_capacity(alloc, rows.len())?;
    for row in rows {
        wide.push(widened_entry(alloc, mapping, row)?)?;
    }
    Ok(wide)
}

/// Copies of the rows of these entities.
pub fn listed(
    alloc: Global,
    rows: &[(Key, Row)],
    entities: &[EntityNo],
) -> Result<Vec<(Key, Row)>, AllocError>
    ensures { IfOk result (λ c. c.items ≡ rows_of entities.now rows.now) }
{
    let mut copy = Vec::new(alloc);
    for row in rows {
        if is_of(&row.0, entities) {
            copy.push((row.0, row.1.copy(alloc)?))?;
        }
    }
    Ok(copy)
}

/// Whether a key is of one of these entities.
fn is_of(key: &Key, entities: &[EntityNo]) -> bool
    ensures { result ≡ is_listed key.now.entity entities.now }
{
    entities.contains(&key.entity)
}

/// Does a change. There must be room for one row more.
fn change_one(rows: &mut Vec<(Key, Row)>, change: Change)
    requires ordered { in_order rows.old.items ≡ true }
    requires room { vec_len rows.old < vec_capacity rows.old }
    ensures rows { rows.new.items ≡ after_change change rows.old.items }
    ensures len { vec_len rows.new ≤ vec_len rows.old + 1 }
    ensures capacity { vec_capacity rows.new ≡ vec_capacity rows.old }
{
    let key = change.key();
    match change.into_row() {
        Some(row) => put(rows, key, row),
        None => take_out(rows, &key),
    }
}

/// Does changes one after another. There must be room for as many rows more.
#[tactic(auto, using(crate::proofs::Commits::after_changes_push, crate::proofs::Orders::in_order_change))]
pub fn change_all(rows: &mut Vec<(Key, Row)>, changes: Vec<Change>)
    requires ordered { in_order rows.old.items ≡ true }
    requires room { vec_len rows.old + vec_len changes ≤ vec_capacity rows.old }
    ensures { rows.new.items ≡ after_changes changes.items rows.old.items }
{
    for change in changes {
        change_one(rows, change);
    }
}

/// Whether `sweep` is the quicker way: the changes are many beside the number of rows, and their keys rise or fall all
/// along. Then few rows are passed from one to the next.
fn is_sweep(changes: &[Change], rows: usize) -> bool {
    if changes.len() < rows / 8 {
        return false;
    }
    let mut rises = true;
    let mut falls = true;
    for i in 1..changes.len() {
        let before = changes[i - 1].key();
        let here = changes[i].key();
        rises = rises && !comes_before(&here, &before);
        falls = falls && !comes_before(&before, &here);
    }
    rises || falls
}

/// Does changes one after another, each where the rows were parted for it. `back` has the rows behind the place. There
/// must be room for as many rows more, also there.
#[tactic(auto, using(crate::proofs::Commits::after_changes_push, crate::proofs::Orders::in_order_change))]
fn sweep(rows: &mut Vec<(Key, Row)>, back: &mut Vec<(Key, Row)>, changes: Vec<Change>)
    requires ordered { in_order rows.old.items ≡ true }
    requires empty { back.old.items ≡ [] }
    requires room { vec_len rows.old + vec_len changes ≤ vec_capacity rows.old }
    requires back_room { vec_len rows.old + vec_len changes ≤ vec_capacity back.old }
    ensures { rows.new.items ≡ after_changes changes.items rows.old.items }
{
    for change in changes {
        let key = change.key();
        parted::set(rows, back, key, change.into_row());
    }
    parted::join(rows, back);
}

/// Does changes one after another. At an error nothing has changed.
pub fn change(
    alloc: Global,
    rows: &mut Vec<(Key, Row)>,
    changes: Vec<Change>,
) -> Result<(), AllocError>
    requires { in_order rows.old.items ≡ true }
    ensures ok { OnOk result (rows.new.items ≡ after_changes changes.items rows.old.items) }
    ensures err { OnErr result (rows.new.items ≡ rows.old.items) }
{
    rows.reserve(changes.len())?;
    if is_sweep(changes.as_slice(), rows.len()) {
        if let Ok(mut back) = Vec::with_capacity(alloc, rows.capacity()) {
            sweep(rows, &mut back, changes);
            return Ok(());
        }
    }
    change_all(rows, changes);
    Ok(())
}

/// Adds a row, unless its key has one. There must be room for one row more.
fn add_one(rows: &mut Vec<(Key, Row)>, key: Key, row: Row)
    requires ordered { in_order rows.old.items ≡ true }
    requires room { vec_len rows.old < vec_capacity rows.old }
    ensures rows { rows.new.items ≡ unless_there rows.old.items key row
        (row_at rows.old.items key) }
    ensures len { vec_len rows.new ≤ vec_len rows.old + 1 }
    ensures capacity { vec_capacity rows.new ≡ vec_capacity rows.old }
{
    if row_of(rows.as_slice(), &key).is_none() {
        put(rows, key, row);
    }
}

/// Adds each row whose key has none, one after another, as a keeper takes the first rows of a script. There must be
/// room for as many rows more.
#[tactic(auto, using(crate::proofs::Commits::with_absent_push, crate::proofs::Orders::in_order_unless_there))]
pub fn add_all(rows: &mut Vec<(Key, Row)>, more: Vec<(Key, Row)>)
    requires ordered { in_order rows.old.items ≡ true }
    requires room { vec_len rows.old + vec_len more ≤ vec_capacity rows.old }
    ensures { rows.new.items ≡ with_absent rows.old.items more.items }
{
    for (key, row) in more {
        add_one(rows, key, row);
    }
}

/// Rows in order of keys, with changes done to them one after another. The given rows may come in any order; if a key
/// has several, its first counts. At an error the rows are dropped.
#[tactic(auto, using(crate::proofs::Orders::in_order_with_absent, crate::proofs::Orders::in_order_changes))]
pub fn laid_over(alloc: Global, rows: Rows, changes: &[Change]) -> Result<Rows, AllocError>
    ensures rows { IfOk result (λ r. r ≡ after_changes changes.now (with_absent [] rows)) }
    ensures ordered { IfOk result (λ r. in_order r ≡ true) }
{
    let rows = rows.into_vec();
    let changes = copy_changes(alloc, changes)?;
    let mut view = Vec::new(alloc);
    view.reserve(rows.len())?;
    add_all(&mut view, rows);
    view.reserve(changes.len())?;
    change_all(&mut view, changes);
    Ok(Seq::from_vec(view))
}
