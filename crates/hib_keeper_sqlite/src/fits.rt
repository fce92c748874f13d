// What SQL can keep: identifiers that are its integers, and rows whose cells have a body.
ghost use Rattle.std.specs.Prelude.{◌<◌, ◌^◌, ◌↔◌, All, IsTrue};
ghost use Rattle.hib_sqlite_rows.specs.Shown.{IsInRange};
ghost use Rattle.hib_keeper_sqlite.specs.Batches.{IsKeepable, IsKeepableEntry};

use hib_base::{Change, Key, Row};
use hib_sqlite_rows::can_pack;

/// Whether a key's identifier is one of SQL's integers.
pub fn key_fits(key: &Key) -> bool
    ensures { IsTrue result ↔ (key.now.id < 2 ^ 63) }
{
    i64::try_from(key.id).is_ok()
}

/// Whether a key and a row have their numbers within SQL's ranges, and the row a body.
pub fn entry_fits(key: Key, row: &Row) -> bool
    ensures { IsTrue result ↔ IsInRange key row.now }
{
    // A version that is read is known to be within its type.
    if let Some(version) = &row.version {
        let _version = *version;
    }
    key_fits(&key) && can_pack(&row.cells)
}

fn change_fits(change: &Change) -> bool
    ensures { IsTrue result ↔ IsKeepable change.now }
{
    match change {
        Change::Insert { key, row } | Change::Update { key, row, .. } => entry_fits(*key, row),
        Change::Delete { key, .. } => key_fits(key),
    }
}

/// Whether SQL can keep all of a batch.
pub fn batch_fits(batch: &[Change]) -> bool
    ensures { IsTrue result ↔ All IsKeepable batch.now }
{
    batch.iter().all(change_fits)
}

/// Whether SQL can keep all rows.
pub fn rows_fit(rows: &[(Key, Row)]) -> bool
    ensures { IsTrue result ↔ All IsKeepableEntry rows.now }
{
    rows.iter().all(|entry| entry_fits(entry.0, &entry.1))
}
