// Why an entry was refused, by what was known before it of its key, of a table or of its query. In a line, `since` is
// the number of the entry to which that goes back.
ghost use Rattle.std.specs.Prelude.{◌≡◌, ◌++◌, nat_eq, OnOk};
ghost use Rattle.std.specs.Map.{lookup};
ghost use Rattle.hib_follow.specs.Marks.{stamped_since, value_at};
ghost use Rattle.hib_follow.specs.Shelves.{kept_at, kept_slot, since_at};
ghost use Rattle.hib_states.specs.Facts.{Fact};
ghost use Rattle.hib_states.specs.Here.{cause_here};
ghost use Rattle.hib_states.specs.Texts.{fact_line, fact_text};

use crate::lines::{put_key_cause, put_query_cause, put_table_cause};
use hib_base::{Act, Checked, EntityNo, Entry, Inserted, Key, Put, QueryNo, Reply, Script};
use hib_follow::Known;
use std::alloc::{AllocError, Global};

/// What the key of a refused act had.
fn put_key_known(
    alloc: Global,
    out: &mut Vec<u8>,
    script: &Script,
    number: u64,
    entries: &[Entry],
    known: &Known<'_>,
    key: &Key,
) -> Result<(), AllocError>
    ensures { OnOk result (out.new.items ≡ out.old.items ++ fact_line script.now number
        (Fact.KeyCause key.now (kept_slot entries.now (kept_at known.now.shelf.shelves.entries key.now))
        (since_at known.now.shelf.shelves.entries key.now))) }
{
    let kept = known.shelf.kept(key);
    put_key_cause(
        alloc,
        out,
        script,
        number,
        entries,
        key,
        &kept,
        known.shelf.since(key),
    )
}

/// The stamp of a table for which a result was refused.
fn put_table_known(
    alloc: Global,
    out: &mut Vec<u8>,
    script: &Script,
    number: u64,
    known: &Known<'_>,
    table: EntityNo,
) -> Result<(), AllocError>
    ensures { OnOk result (out.new.items ≡ out.old.items ++ fact_line script.now number
        (Fact.TableCause table (value_at known.now.stamps.stamps.entries table)
        (stamped_since known.now.stamps.stamps.entries table))) }
{
    match known.stamps.of(table) {
        Some(stamped) => put_table_cause(
            alloc,
            out,
            script,
            number,
            table,
            Some(stamped.value),
            Some(stamped.since),
        ),
        None => put_table_cause(alloc, out, script, number, table, None, None),
    }
}

/// That no result of a query is kept, and which entry kept one last.
fn put_query_known(
    alloc: Global,
    out: &mut Vec<u8>,
    script: &Script,
    number: u64,
    known: &Known<'_>,
    query: QueryNo,
) -> Result<(), AllocError>
    ensures { OnOk result (out.new.items ≡ out.old.items ++ fact_line script.now number
        (Fact.QueryCause query (lookup (nat_eq query) known.now.keeps.keeps.entries))) }
{
    put_query_cause(alloc, out, script, number, query, known.keeps.of(query))
}

/// Why an entry was refused, if it was, by what was known before it.
pub fn put_cause(
    alloc: Global,
    out: &mut Vec<u8>,
    script: &Script,
    number: u64,
    entries: &[Entry],
    known: &Known<'_>,
    entry: &Entry,
) -> Result<(), AllocError>
    ensures { OnOk result (out.new.items ≡ out.old.items ++ fact_text script.now number
        (cause_here entries.now known.now entry.now.act entry.now.reply)) }
{
    match &entry.act {
        Act::Get { key, .. } => match &entry.reply {
            Reply::Miss(_) => put_key_known(alloc, out, script, number, entries, known, key),
            _ => Ok(()),
        },
        Act::Put { key, .. } => match &entry.reply {
            Reply::Put(Put::Stored { .. }) => Ok(()),
            Reply::Put(_) => put_key_known(alloc, out, script, number, entries, known, key),
            _ => Ok(()),
        },
        Act::AfterInsert { key, .. } => match &entry.reply {
            Reply::Inserted(Inserted::Stored { .. }) => Ok(()),
            Reply::Inserted(_) => put_key_known(alloc, out, script, number, entries, known, key),
            _ => Ok(()),
        },
        Act::Check { .. } => match &entry.reply {
            Reply::Check(Checked::Stale { table, .. }) => {
                put_table_known(alloc, out, script, number, known, *table)
            }
            _ => Ok(()),
        },
        Act::Look { query } => match &entry.reply {
            Reply::Absent => put_query_known(alloc, out, script, number, known, *query),
            _ => Ok(()),
        },
        _ => Ok(()),
    }
}
