// Rows and changes in one transaction, over the statements of the table.
ghost use Rattle.std.specs.Prelude.{◌≡◌, ◌≢◌, ◌<◌, ◌≤◌, ◌^◌, ℕ, None, true, length, All, IfOk, IfSome, OnOk, OnErr};
ghost use Rattle.hib_base.specs.Tables.{row_at, key_of, after_change, after_changes, unless_there, with_absent};
ghost use Rattle.hib_base.specs.Start.{start};
ghost use Rattle.hib_outside.specs.Verdicts.{unless_as_expected, refused_at, verdict, after_applied, IsPlace};
ghost use Rattle.hib_outside.specs.declared.keeper.Applied.TheVariants.{Done};
ghost use Rattle.hib_sqlite_rows.specs.Told.{changed, rolled_back};
ghost use Rattle.hib_keeper_sqlite.specs.Batches.{IsKeepable, IsKeepableEntry, Meets, IsAtRest, made};

use crate::widening::widen;
use hib_base::{Change, EntityDef, Key, Row};
use hib_outside::Applied;
use hib_sqlite_rows::{RowTable, read};
use sqlite::Error;
use std::alloc::Global;

/// What is answered to a change that expects a version, by the row that it meets; none if it applies.
fn unless_expected(at: usize, expected: Option<u32>, found: &Option<Row>) -> Option<Applied>
    ensures value { result ≡ unless_as_expected at expected found.now }
    ensures place { (n : ℕ) → at < n → IfSome result (λ a. IsPlace a n) }
{
    match found {
        None => Some(Applied::Stale {
            at,
            found: None,
            there: false,
        }),
        Some(row) => {
            if expected == row.version {
                None
            } else {
                Some(Applied::Stale {
                    at,
                    found: row.version,
                    there: true,
                })
            }
        }
    }
}

/// What is answered to a change by the row that it meets; none if it applies.
fn refused(at: usize, change: &Change, found: &Option<Row>) -> Option<Applied>
    ensures value { result ≡ refused_at at change.now found.now }
    ensures place { (n : ℕ) → at < n → IfSome result (λ a. IsPlace a n) }
{
    match change {
        Change::Insert { .. } => {
            if found.is_some() {
                Some(Applied::Duplicate { at })
            } else {
                None
            }
        }
        Change::Update { expected, .. } | Change::Delete { expected, .. } => {
            unless_expected(at, *expected, found)
        }
    }
}

/// Makes a change that applies.
fn make<T: RowTable>(table: &mut T, alloc: Global, change: &Change) -> Result<(), Error>
    requires range { IsKeepable change.now }
    requires inside { IfSome (T.told table.old) (λ t. t.in_transaction ≡ true) }
    requires meets { IfSome (T.told table.old)
        (λ t. Meets change.now (row_at t.now (key_of change.now))) }
    ensures ok { OnOk result (T.told table.new
        ≡ changed (after_change change.now) (T.told table.old)) }
    ensures before { rolled_back (T.told table.new) ≡ rolled_back (T.told table.old) }
{
    match change {
        Change::Insert { key, row } => table.insert(alloc, *key, row),
        Change::Update { key, row, .. } => table.update(alloc, *key, row),
        Change::Delete { key, .. } => table.delete(*key),
    }
}

/// Makes a change in a transaction, or answers why it doesn't apply.
fn apply_one<T: RowTable>(
    table: &mut T,
    alloc: Global,
    at: usize,
    change: &Change,
) -> Result<Option<Applied>, Error>
    requires range { IsKeepable change.now }
    requires inside { IfSome (T.told table.old) (λ t. t.in_transaction ≡ true) }
    ensures refused { IfOk result (λ r. IfSome (T.told table.old)
        (λ t. r ≡ refused_at at change.now (row_at t.now (key_of change.now)))) }
    ensures place { (n : ℕ) → at < n → IfOk result (λ r. IfSome r (λ a. IsPlace a n)) }
    ensures made { IfOk result (λ r. r ≡ None
        → T.told table.new ≡ changed (after_change change.now) (T.told table.old)) }
    ensures before { rolled_back (T.told table.new) ≡ rolled_back (T.told table.old) }
{
    let found = read(table, alloc, change.key())?;
    let answer = refused(at, change, &found);
    if answer.is_none() {
        make(table, alloc, change)?;
    }
    Ok(answer)
}

/// Makes changes in a transaction up to the first that doesn't apply.
fn apply_all<T: RowTable>(table: &mut T, alloc: Global, batch: &[Change]) -> Result<Applied, Error>
    requires range { All IsKeepable batch.now }
    requires inside { IfSome (T.told table.old) (λ t. t.in_transaction ≡ true) }
    ensures verdict { IfOk result (λ a. IfSome (T.told table.old)
        (λ t. a ≡ verdict t.now batch.now 0)) }
    ensures place { IfOk result (λ a. IsPlace a (length batch.now)) }
    ensures made { IfOk result (λ a. a ≡ Done
        → T.told table.new ≡ changed (after_changes batch.now) (T.told table.old)) }
    ensures before { rolled_back (T.told table.new) ≡ rolled_back (T.told table.old) }
{
    for at in 0..batch.len() {
        match apply_one(table, alloc, at, &batch[at])? {
            Some(answer) => return Ok(answer),
            None => {}
        }
    }
    Ok(Applied::Done)
}

/// Begins a transaction, makes changes, and commits if all apply.
fn apply_within<T: RowTable>(
    table: &mut T,
    alloc: Global,
    batch: &[Change],
) -> Result<Applied, Error>
    requires range { All IsKeepable batch.now }
    requires rest { IsAtRest (T.told table.old) }
    ensures verdict { IfOk result (λ a. IfSome (T.told table.old)
        (λ t. a ≡ verdict t.now batch.now 0)) }
    ensures place { IfOk result (λ a. IsPlace a (length batch.now)) }
    ensures made { IfOk result (λ a. a ≡ Done
        → T.told table.new ≡ made (after_changes batch.now) (T.told table.old)) }
    ensures refused { IfOk result (λ a. a ≢ Done
        → rolled_back (T.told table.new) ≡ T.told table.old) }
    ensures err { OnErr result (rolled_back (T.told table.new) ≡ T.told table.old) }
{
    table.begin()?;
    let applied = apply_all(table, alloc, batch)?;
    if applied == Applied::Done {
        table.commit()?;
    }
    Ok(applied)
}

/// Makes all changes of a batch in one transaction, or none if one doesn't apply or a call fails.
pub fn apply<T: RowTable>(table: &mut T, alloc: Global, batch: &[Change]) -> Result<Applied, Error>
    requires range { All IsKeepable batch.now }
    requires rest { IsAtRest (T.told table.old) }
    ensures verdict { IfOk result (λ a. IfSome (T.told table.old)
        (λ t. a ≡ verdict t.now batch.now 0)) }
    ensures place { IfOk result (λ a. IsPlace a (length batch.now)) }
    ensures tables { IfOk result (λ a. T.told table.new
        ≡ made (after_applied a batch.now) (T.told table.old)) }
    ensures err { OnErr result (T.told table.new ≡ T.told table.old) }
{
    match apply_within(table, alloc, batch) {
        Ok(Applied::Done) => Ok(Applied::Done),
        other => {
            table.rollback();
            other
        }
    }
}

/// Adds a row in a transaction, if its key has none.
fn seed_one<T: RowTable>(table: &mut T, alloc: Global, entry: &(Key, Row)) -> Result<(), Error>
    requires range { IsKeepableEntry entry.now }
    requires inside { IfSome (T.told table.old) (λ t. t.in_transaction ≡ true) }
    ensures ok { OnOk result (T.told table.new
        ≡ changed (λ t. unless_there t entry.now.0 entry.now.1 (row_at t entry.now.0))
        (T.told table.old)) }
    ensures before { rolled_back (T.told table.new) ≡ rolled_back (T.told table.old) }
{
    if read(table, alloc, entry.0)?.is_none() {
        table.insert(alloc, entry.0, &entry.1)?;
    }
    Ok(())
}

/// Adds in a transaction each row whose key has none.
fn seed_all<T: RowTable>(table: &mut T, alloc: Global, rows: &[(Key, Row)]) -> Result<(), Error>
    requires range { All IsKeepableEntry rows.now }
    requires inside { IfSome (T.told table.old) (λ t. t.in_transaction ≡ true) }
    ensures ok { OnOk result (T.told table.new
        ≡ changed (λ t. with_absent t rows.now) (T.told table.old)) }
    ensures before { rolled_back (T.told table.new) ≡ rolled_back (T.told table.old) }
{
    for at in 0..rows.len() {
        seed_one(table, alloc, &rows[at])?;
    }
    Ok(())
}

/// Begins a transaction, widens rows, adds rows, and commits.
fn seed_within<T: RowTable>(
    table: &mut T,
    alloc: Global,
    mapping: &[EntityDef],
    rows: &[(Key, Row)],
) -> Result<(), Error>
    requires few { length mapping.now ≤ 2 ^ 16 }
    requires range { All IsKeepableEntry rows.now }
    requires rest { IsAtRest (T.told table.old) }
    ensures ok { OnOk result (T.told table.new
        ≡ made (λ t. start mapping.now t rows.now) (T.told table.old)) }
    ensures err { OnErr result (rolled_back (T.told table.new) ≡ T.told table.old) }
{
    table.begin()?;
    widen(table, alloc, mapping)?;
    seed_all(table, alloc, rows)?;
    table.commit()
}

/// In one transaction gives each row of an entity of this mapping the defaults of the columns that it lacks, if each of
/// these has one, and adds each of these rows whose key has none. It does all of this, or nothing if a call fails or a
/// row has no body.
pub fn seed<T: RowTable>(
    table: &mut T,
    alloc: Global,
    mapping: &[EntityDef],
    rows: &[(Key, Row)],
) -> Result<(), Error>
    requires few { length mapping.now ≤ 2 ^ 16 }
    requires range { All IsKeepableEntry rows.now }
    requires rest { IsAtRest (T.told table.old) }
    ensures ok { OnOk result (T.told table.new
        ≡ made (λ t. start mapping.now t rows.now) (T.told table.old)) }
    ensures err { OnErr result (T.told table.new ≡ T.told table.old) }
{
    let seeded = seed_within(table, alloc, mapping, rows);
    if seeded.is_err() {
        table.rollback();
    }
    seeded
}
