// The tests of one entry, over what is known of the entries before it.
ghost use Rattle.hib_base.specs.Tables.{in_order};
ghost use Rattle.hib_journal.specs.Held.{same_cells};
ghost use Rattle.hib_order_law.specs.Judged.{is_refused_commit, old_by, same_row, stale_by};
ghost use Rattle.std.specs.Prelude.{◌≡◌, IfOk, option_copied, true};

use hib_base::{Act, Cell, Checked, Commit, Entry, Reply, Row, Rows, Script};
use hib_outside::keyed;
use hib_query_eval::gives;
use std::alloc::{AllocError, Global};

/// Whether two lists of cells are the same.
#[tactic(auto, using(hib_dirty_check::proofs::Compared::cells_compared))]
fn are_same(a: &[Cell], b: &[Cell]) -> bool
    ensures { result ≡ same_cells a.now b.now }
{
    *a == *b
}

/// Whether there is a row, and it is this one.
pub fn is_same(there: Option<&Row>, row: &Row) -> bool
    ensures { result ≡ same_row (option_copied there.entry) row.now }
{
    match there {
        None => false,
        Some(other) => other.version == row.version
            && are_same(other.cells.as_slice(), row.cells.as_slice()),
    }
}

/// Whether a hit answers a row that is not the committed one.
pub fn is_stale_hit(rows: &Rows, entry: &Entry) -> bool
    requires { in_order rows.now ≡ true }
    ensures { result ≡ stale_by rows.now entry.now.act entry.now.reply }
{
    match &entry.act {
        Act::Get { key, .. } => match &entry.reply {
            Reply::Hit(row) => !is_same(keyed::row_of(rows.as_slice(), key), row),
            _ => false,
        },
        _ => false,
    }
}

/// Whether a kept list is called fresh that is not what its query gives over the committed rows.
pub fn is_old_list(
    alloc: Global,
    script: &Script,
    rows: &Rows,
    found: &[Cell],
    entry: &Entry,
) -> Result<bool, AllocError>
    requires { in_order rows.now ≡ true }
    ensures { IfOk result (λ b. b ≡ old_by script.now rows.now found.now entry.now.act
        entry.now.reply) }
{
    let Act::Check { query, .. } = &entry.act else {
        return Ok(false);
    };
    let Reply::Check(Checked::Fresh) = &entry.reply else {
        return Ok(false);
    };
    match script.queries.as_slice().get(query.0 as usize) {
        None => Ok(false),
        Some(def) => {
            let given = gives(alloc, def, rows)?;
            Ok(!are_same(found, given.as_slice()))
        }
    }
}

/// Whether a commit is answered stale or duplicate.
pub fn is_refused(entry: &Entry) -> bool
    ensures { result ≡ is_refused_commit entry.now }
{
    match &entry.reply {
        Reply::Commit(Commit::Stale { .. }) => true,
        Reply::Commit(Commit::Duplicate { .. }) => true,
        _ => false,
    }
}
