// Rows and the places of their cells, as changes are done to them: by a commit, or in what a session sees.
ghost use Rattle.std.specs.Prelude.{◌≡◌, true, is_none, IfOk, OnOk, option_copied};
ghost use Rattle.hib_base.specs.Tables.{in_order, refusal, tables_with, after_change};
ghost use Rattle.hib_query_eval.specs.Applies.{applies};
ghost use Rattle.hib_query_eval.specs.Places.{AreIndexes};

use crate::columns::{self, Column};
use hib_base::{Change, Key, Row};
use hib_outside::keyed;
use std::alloc::{AllocError, Global};

/// Whether a change applies to the row of its key.
fn applies(change: &Change, found: Option<&Row>) -> bool
    ensures { result ≡ applies change.now (option_copied found.entry) }
{
    match (change, found) {
        (Change::Insert { .. }, found) => found.is_none(),
        (Change::Update { expected, .. } | Change::Delete { expected, .. }, Some(row)) => *expected
            == row.version,
        (Change::Update { .. } | Change::Delete { .. }, None) => false,
    }
}

/// Gives a key a copy of a row, or takes its row away.
fn set_row(
    alloc: Global,
    rows: &mut Vec<(Key, Row)>,
    key: &Key,
    row: Option<&Row>,
) -> Result<(), AllocError>
    requires { in_order rows.old.items ≡ true }
    ensures { OnOk result
        (rows.new.items ≡ tables_with rows.old.items key.now (option_copied row.entry)) }
{
    match row {
        Some(row) => {
            let row = row.copy(alloc)?;
            rows.reserve(1)?;
            keyed::put(rows, *key, row);
            Ok(())
        }
        None => {
            keyed::take_out(rows, key);
            Ok(())
        }
    }
}

/// Does a change to rows and to the places of their cells, if it applies. Answers whether it does.
pub fn change_one(
    alloc: Global,
    rows: &mut Vec<(Key, Row)>,
    columns: &mut Vec<Column>,
    change: &Change,
) -> Result<bool, AllocError>
    requires ordered { in_order rows.old.items ≡ true }
    requires indexed { AreIndexes columns.old.items rows.old.items }
    ensures applied { IfOk result (λ done. done ≡ is_none (refusal change.now rows.old.items)) }
    ensures rows { IfOk result (λ done. done ≡ true
        → rows.new.items ≡ after_change change.now rows.old.items) }
    ensures indexed { IfOk result (λ done. done ≡ true → AreIndexes columns.new.items rows.new.items) }
{
    let key = change.key();
    if !applies(change, keyed::row_of(rows.as_slice(), &key)) {
        return Ok(false);
    }
    lay_one(alloc, rows, columns, change)?;
    Ok(true)
}

/// Does a change to rows and to the places of their cells, whether or not it applies.
pub fn lay_one(
    alloc: Global,
    rows: &mut Vec<(Key, Row)>,
    columns: &mut Vec<Column>,
    change: &Change,
) -> Result<(), AllocError>
    requires ordered { in_order rows.old.items ≡ true }
    requires indexed { AreIndexes columns.old.items rows.old.items }
    ensures rows { OnOk result (rows.new.items ≡ after_change change.now rows.old.items) }
    ensures indexed { OnOk result (AreIndexes columns.new.items rows.new.items) }
{
    let key = change.key();
    let found = keyed::row_of(rows.as_slice(), &key);
    columns::lay_over_all(alloc, columns, change, found)?;
    set_row(alloc, rows, &key, change.row_left())
}
