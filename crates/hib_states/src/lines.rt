// The line of each fact: a JSON object with the number of an entry, from 1, what is told, and what is so after it (or
// was before it, if that is why it was refused). In the line of a cause, `since` is the number of the entry that touched
// the key, stamped the table or kept a result of the query last; it is none if none has since the restart.
ghost use Rattle.std.specs.Prelude.{◌≡◌, ◌++◌, ℕ, true, false, None, Some, OnOk, option_copied};
ghost use Rattle.hib_follow.specs.Shelves.{kept_slot};
ghost use Rattle.hib_journal.specs.Types.{Script};
ghost use Rattle.hib_states.specs.Facts.{Fact};
ghost use Rattle.hib_states.specs.Texts.{fact_line};

use crate::pieces::{
    kept_row, put_cells, put_change, put_count, put_flag, put_head, put_key, put_row, put_said,
    put_sessions, put_slot, put_writer,
};
use hib_base::{Change, EntityNo, Entry, Key, Listing, QueryNo, Row, Script, SessionNo, Tick};
use hib_flat::put_row_of;
use hib_follow::Kept;
use hib_texts::{entity_name, query_name, session_name};
use std::alloc::{AllocError, Global};

/// The committed row of a key.
#[tactic(auto, unfolding(crate::specs::Texts::fact_line))]
pub fn put_committed(
    alloc: Global,
    out: &mut Vec<u8>,
    script: &Script,
    number: u64,
    key: &Key,
    row: Option<&Row>,
) -> Result<(), AllocError>
    ensures { OnOk result (out.new.items
        ≡ out.old.items ++ fact_line script.now number (Fact.Committed key.now (option_copied row.entry))) }
{
    put_head(alloc, out, number, b"row")?;
    put_key(alloc, out, script, key)?;
    put_row(alloc, out, row)?;
    let own = Some(*key);
    put_row_of(alloc, out, script, own, row)?;
    out.extend_from_slice(b"}\n")
}

/// What a key has in its region.
#[tactic(auto, unfolding(crate::specs::Texts::fact_line))]
pub fn put_cached(
    alloc: Global,
    out: &mut Vec<u8>,
    script: &Script,
    number: u64,
    entries: &[Entry],
    key: &Key,
    kept: &Kept,
) -> Result<(), AllocError>
    ensures { OnOk result (out.new.items
        ≡ out.old.items ++ fact_line script.now number (Fact.Cached key.now (kept_slot entries.now kept.now))) }
{
    put_head(alloc, out, number, b"cache")?;
    put_key(alloc, out, script, key)?;
    put_slot(alloc, out, entries, kept)?;
    let own = Some(*key);
    put_row_of(alloc, out, script, own, kept_row(entries, kept))?;
    out.extend_from_slice(b"}\n")
}

/// The stamp of a table.
#[tactic(auto, unfolding(crate::specs::Texts::fact_line))]
pub fn put_stamped(
    alloc: Global,
    out: &mut Vec<u8>,
    script: &Script,
    number: u64,
    table: EntityNo,
    stamp: Option<u64>,
) -> Result<(), AllocError>
    ensures { OnOk result (out.new.items
        ≡ out.old.items ++ fact_line script.now number (Fact.Stamped table stamp)) }
{
    put_head(alloc, out, number, b"stamp")?;
    put_said(out, b"table", entity_name(script, table))?;
    put_count(alloc, out, b"stamp", stamp)?;
    out.extend_from_slice(b"}\n")
}

/// The result of a query that is kept.
#[tactic(auto, unfolding(crate::specs::Texts::fact_line))]
pub fn put_kept(
    alloc: Global,
    out: &mut Vec<u8>,
    script: &Script,
    number: u64,
    query: QueryNo,
    time: Tick,
    list: &Listing,
) -> Result<(), AllocError>
    ensures { OnOk result (out.new.items
        ≡ out.old.items ++ fact_line script.now number (Fact.Kept query (Some (time, list.now)))) }
{
    put_head(alloc, out, number, b"result")?;
    put_said(out, b"query", query_name(script, query))?;
    put_said(out, b"holds", b"list")?;
    put_count(alloc, out, b"time", Some(time.0))?;
    put_cells(alloc, out, b"list", list)?;
    out.extend_from_slice(b"}\n")
}

/// No result of a query is kept.
#[tactic(auto, unfolding(crate::specs::Texts::fact_line))]
pub fn put_dropped(
    alloc: Global,
    out: &mut Vec<u8>,
    script: &Script,
    number: u64,
    query: QueryNo,
) -> Result<(), AllocError>
    ensures { OnOk result (out.new.items
        ≡ out.old.items ++ fact_line script.now number (Fact.Kept query None)) }
{
    put_head(alloc, out, number, b"result")?;
    put_said(out, b"query", query_name(script, query))?;
    put_said(out, b"holds", b"nothing")?;
    out.extend_from_slice(b"}\n")
}

/// An open session.
#[tactic(auto, unfolding(crate::specs::Texts::fact_line))]
pub fn put_open(
    alloc: Global,
    out: &mut Vec<u8>,
    script: &Script,
    number: u64,
    session: SessionNo,
    time: Tick,
    floor: Tick,
) -> Result<(), AllocError>
    ensures { OnOk result (out.new.items
        ≡ out.old.items ++ fact_line script.now number (Fact.Session session true time floor)) }
{
    put_head(alloc, out, number, b"session")?;
    put_said(out, b"session", session_name(script, session))?;
    put_flag(out, b"open", true)?;
    put_count(alloc, out, b"time", Some(time.0))?;
    put_count(alloc, out, b"floor", Some(floor.0))?;
    out.extend_from_slice(b"}\n")
}

/// A session that isn't open.
#[tactic(auto, unfolding(crate::specs::Texts::fact_line))]
pub fn put_closed(
    alloc: Global,
    out: &mut Vec<u8>,
    script: &Script,
    number: u64,
    session: SessionNo,
) -> Result<(), AllocError>
    ensures { OnOk result ((time floor : ℕ) → out.new.items
        ≡ out.old.items ++ fact_line script.now number (Fact.Session session false time floor)) }
{
    put_head(alloc, out, number, b"session")?;
    put_said(out, b"session", session_name(script, session))?;
    put_flag(out, b"open", false)?;
    out.extend_from_slice(b"}\n")
}

/// A change that a session has written.
#[tactic(auto, unfolding(crate::specs::Texts::fact_line))]
pub fn put_written(
    alloc: Global,
    out: &mut Vec<u8>,
    script: &Script,
    number: u64,
    session: SessionNo,
    change: &Change,
) -> Result<(), AllocError>
    ensures { OnOk result (out.new.items
        ≡ out.old.items ++ fact_line script.now number (Fact.Written session change.now)) }
{
    let key = change.key();
    put_head(alloc, out, number, b"change")?;
    put_writer(out, script, session, change)?;
    put_key(alloc, out, script, &key)?;
    put_change(alloc, out, change)?;
    let own = Some(key);
    put_row_of(alloc, out, script, own, change.row_left())?;
    out.extend_from_slice(b"}\n")
}

/// A session's own copy of a key.
#[tactic(auto, unfolding(crate::specs::Texts::fact_line))]
pub fn put_copy(
    alloc: Global,
    out: &mut Vec<u8>,
    script: &Script,
    number: u64,
    session: SessionNo,
    key: &Key,
    row: Option<&Row>,
) -> Result<(), AllocError>
    ensures { OnOk result (out.new.items
        ≡ out.old.items ++ fact_line script.now number (Fact.Copied session key.now (option_copied row.entry))) }
{
    put_head(alloc, out, number, b"copy")?;
    put_said(out, b"session", session_name(script, session))?;
    put_key(alloc, out, script, key)?;
    put_row(alloc, out, row)?;
    let own = Some(*key);
    put_row_of(alloc, out, script, own, row)?;
    out.extend_from_slice(b"}\n")
}

/// A session has lost its copies.
#[tactic(auto, unfolding(crate::specs::Texts::fact_line))]
pub fn put_emptied(
    alloc: Global,
    out: &mut Vec<u8>,
    script: &Script,
    number: u64,
    session: SessionNo,
) -> Result<(), AllocError>
    ensures { OnOk result (out.new.items
        ≡ out.old.items ++ fact_line script.now number (Fact.Emptied session)) }
{
    put_head(alloc, out, number, b"emptied")?;
    put_said(out, b"session", session_name(script, session))?;
    out.extend_from_slice(b"}\n")
}

/// Those who hold a key.
#[tactic(auto, unfolding(crate::specs::Texts::fact_line))]
pub fn put_holders(
    alloc: Global,
    out: &mut Vec<u8>,
    script: &Script,
    number: u64,
    key: &Key,
    sessions: &[SessionNo],
) -> Result<(), AllocError>
    ensures { OnOk result (out.new.items
        ≡ out.old.items ++ fact_line script.now number (Fact.Holders key.now sessions.now)) }
{
    put_head(alloc, out, number, b"holders")?;
    put_key(alloc, out, script, key)?;
    put_sessions(out, script, sessions)?;
    out.extend_from_slice(b"}\n")
}

/// A key of which the claims don't speak any more.
#[tactic(auto, unfolding(crate::specs::Texts::fact_line))]
pub fn put_unsound(
    alloc: Global,
    out: &mut Vec<u8>,
    script: &Script,
    number: u64,
    key: &Key,
    deleted: Option<u64>,
) -> Result<(), AllocError>
    ensures { OnOk result (out.new.items
        ≡ out.old.items ++ fact_line script.now number (Fact.Unsound key.now deleted)) }
{
    put_head(alloc, out, number, b"unsound")?;
    put_key(alloc, out, script, key)?;
    put_count(alloc, out, b"deleted", deleted)?;
    out.extend_from_slice(b"}\n")
}

/// After a restart.
#[tactic(auto, unfolding(crate::specs::Texts::fact_line))]
pub fn put_restarted(alloc: Global, out: &mut Vec<u8>, number: u64) -> Result<(), AllocError>
    ensures { OnOk result ((script : Script) → out.new.items
        ≡ out.old.items ++ fact_line script number Fact.Restarted) }
{
    put_head(alloc, out, number, b"restart")?;
    out.extend_from_slice(b"}\n")
}

/// Why an act on a key was refused.
#[tactic(auto, unfolding(crate::specs::Texts::fact_line))]
pub fn put_key_cause(
    alloc: Global,
    out: &mut Vec<u8>,
    script: &Script,
    number: u64,
    entries: &[Entry],
    key: &Key,
    kept: &Kept,
    since: Option<u64>,
) -> Result<(), AllocError>
    ensures { OnOk result (out.new.items ≡ out.old.items
        ++ fact_line script.now number (Fact.KeyCause key.now (kept_slot entries.now kept.now) since)) }
{
    put_head(alloc, out, number, b"cause")?;
    put_count(alloc, out, b"since", since)?;
    put_key(alloc, out, script, key)?;
    put_slot(alloc, out, entries, kept)?;
    let own = Some(*key);
    put_row_of(alloc, out, script, own, kept_row(entries, kept))?;
    out.extend_from_slice(b"}\n")
}

/// Why a kept result was refused: the stamp of this table, which isn't before the result's time.
#[tactic(auto, unfolding(crate::specs::Texts::fact_line))]
pub fn put_table_cause(
    alloc: Global,
    out: &mut Vec<u8>,
    script: &Script,
    number: u64,
    table: EntityNo,
    stamp: Option<u64>,
    since: Option<u64>,
) -> Result<(), AllocError>
    ensures { OnOk result (out.new.items
        ≡ out.old.items ++ fact_line script.now number (Fact.TableCause table stamp since)) }
{
    put_head(alloc, out, number, b"cause")?;
    put_count(alloc, out, b"since", since)?;
    put_said(out, b"table", entity_name(script, table))?;
    put_count(alloc, out, b"stamp", stamp)?;
    out.extend_from_slice(b"}\n")
}

/// Why no result was found.
#[tactic(auto, unfolding(crate::specs::Texts::fact_line))]
pub fn put_query_cause(
    alloc: Global,
    out: &mut Vec<u8>,
    script: &Script,
    number: u64,
    query: QueryNo,
    since: Option<u64>,
) -> Result<(), AllocError>
    ensures { OnOk result (out.new.items
        ≡ out.old.items ++ fact_line script.now number (Fact.QueryCause query since)) }
{
    put_head(alloc, out, number, b"cause")?;
    put_count(alloc, out, b"since", since)?;
    put_said(out, b"query", query_name(script, query))?;
    out.extend_from_slice(b"}\n")
}
