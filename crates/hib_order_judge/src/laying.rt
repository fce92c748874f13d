// The committed rows, after each commit.
ghost use Rattle.hib_base.specs.Tables.{Tables, after_change, after_changes, in_order};
ghost use Rattle.hib_journal.specs.Sessions.{Journal, committed};
ghost use Rattle.hib_journal.specs.Types.{Entry};
ghost use Rattle.hib_order_judge.specs.Dossiers.{AreDossiers, changes_at};
ghost use Rattle.std.specs.Prelude.{◌≡◌, ◌∷◌, List, IfOk, OnOk, true};

use crate::dossiers::Dossiers;
use hib_base::{Change, Entry, Key, Row, Rows, Seq};
use hib_journal::committer;
use hib_outside::keyed;
use std::alloc::{AllocError, Global};

/// Does a change. Its row is copied.
fn lay(alloc: Global, rows: &mut Vec<(Key, Row)>, change: &Change) -> Result<(), AllocError>
    requires { in_order rows.old.items ≡ true }
    ensures { OnOk result (rows.new.items ≡ after_change change.now rows.old.items) }
{
    match change.row_left() {
        None => keyed::take_out(rows, &change.key()),
        Some(row) => {
            let row = row.copy(alloc)?;
            rows.reserve(1)?;
            keyed::put(rows, change.key(), row);
        }
    }
    Ok(())
}

/// Rows after changes, each done at its key's place. At an error the rows are dropped.
fn lay_all(alloc: Global, rows: Rows, changes: &[&Change]) -> Result<Rows, AllocError>
    requires { in_order rows ≡ true }
    ensures rows { IfOk result (λ r. r ≡ after_changes (changes_at changes.now) rows) }
    ensures ordered { IfOk result (λ r. in_order r ≡ true) }
{
    let mut rows = rows.into_vec();
    for change in changes {
        lay(alloc, &mut rows, change)?;
    }
    Ok(Seq::from_vec(rows))
}

/// The committed rows after the next entry, before which these were and this was known of the sessions.
pub fn rows_after(
    alloc: Global,
    rows: Rows,
    dossiers: &Dossiers<'_>,
    entry: &Entry,
) -> Result<Rows, AllocError>
    requires { in_order rows ≡ true }
    ensures rows { IfOk result (λ r. (start : Tables) (h : Journal)
        (es : List Entry) → AreDossiers es h dossiers.now.all.items → rows ≡ committed start h
        → r ≡ committed start (entry.now ∷ h)) }
    ensures ordered { IfOk result (λ r. in_order r ≡ true) }
{
    let Some(session) = committer(entry) else {
        return Ok(rows);
    };
    match dossiers.of(session) {
        None => Ok(rows),
        Some(dossier) => lay_all(alloc, rows, dossier.written.as_slice()),
    }
}
