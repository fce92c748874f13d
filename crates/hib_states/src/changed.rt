// What an entry has changed, by what is known after it (`Known` of hib_follow): each thing that it may have changed is
// a function of its own, which adds no line if another act came. `number` is the entry's, from 1; each line has it.
ghost use Rattle.std.specs.Prelude.{◌≡◌, ◌++◌, true, None, OnOk, flat_map, map, option_and_then, option_to_list};
ghost use Rattle.std.specs.Borrow.{Bor};
ghost use Rattle.hib_base.specs.Tables.{key_of, row_left};
ghost use Rattle.hib_journal.specs.Sessions.{committer};
ghost use Rattle.hib_journal.specs.Types.{Change, Script};
ghost use Rattle.hib_follow.specs.Desks.{last_at};
ghost use Rattle.hib_follow.specs.Holders.{locked_in};
ghost use Rattle.hib_follow.specs.Marks.{value_at};
ghost use Rattle.hib_follow.specs.Newest.{tables_in};
ghost use Rattle.hib_follow.specs.Touched.{touched_keys};
ghost use Rattle.hib_states.specs.Facts.{Fact};
ghost use Rattle.hib_states.specs.Here.{cached_here, committed_here, facts_here, floor_at, holders_here, kept_here, kept_now, session_here, stamped_here, time_at, written_here};
ghost use Rattle.hib_states.specs.States.{restart_facts};
ghost use Rattle.hib_states.specs.Texts.{fact_line, fact_text};

use crate::lines::{
    put_cached, put_closed, put_committed, put_dropped, put_holders, put_kept, put_open,
    put_restarted, put_stamped, put_written,
};
use hib_base::{Act, EntityNo, Entry, Key, Listing, QueryNo, Reply, Script, SessionNo, Tick};
use hib_follow::{Desk, Desks, Holders, Known, Shelf, Stamps, key_in, leaving, touched};
use hib_journal::committer;
use std::alloc::{AllocError, Global};

// ---- committed rows

/// The row of each key that a session has changed, as its changes leave it.
fn put_changes(
    alloc: Global,
    out: &mut Vec<u8>,
    script: &Script,
    number: u64,
    entries: &[Entry],
    desk: &Desk<'_>,
) -> Result<(), AllocError>
    ensures { OnOk result (out.new.items ≡ out.old.items ++ flat_map
        (λ (c : Bor Change). fact_line script.now number (Fact.Committed (key_of c.now)
        (option_and_then row_left (last_at entries.now desk.now.last.entries (key_of c.now)))))
        desk.now.written.items) }
{
    for change in desk.written.as_slice() {
        let key = change.key();
        put_committed(
            alloc,
            out,
            script,
            number,
            &key,
            desk.row_left(entries, &key),
        )?;
    }
    Ok(())
}

/// The row of each key that a commit has changed.
fn put_commit(
    alloc: Global,
    out: &mut Vec<u8>,
    script: &Script,
    number: u64,
    entries: &[Entry],
    desks: &Desks<'_>,
    entry: &Entry,
) -> Result<(), AllocError>
    ensures { OnOk result (out.new.items ≡ out.old.items ++ fact_text script.now number
        (committed_here entries.now desks.now.all.items (committer entry.now.act entry.now.reply entry.now.session))) }
{
    match committer(entry) {
        None => Ok(()),
        Some(session) => match desks.of(session) {
            None => Ok(()),
            Some(desk) => {
                put_changes(alloc, out, script, number, entries, desk)?;
                Ok(())
            }
        },
    }
}

// ---- keys of regions

/// What a key has in its region, if a key is given.
fn put_key(
    alloc: Global,
    out: &mut Vec<u8>,
    script: &Script,
    number: u64,
    entries: &[Entry],
    shelf: &Shelf,
    key: &Option<Key>,
) -> Result<(), AllocError>
    ensures { OnOk result (out.new.items ≡ out.old.items ++ fact_text script.now number
        (cached_here entries.now shelf.now.shelves.entries (option_to_list key.now))) }
{
    match key {
        None => Ok(()),
        Some(key) => {
            let kept = shelf.kept(key);
            put_cached(alloc, out, script, number, entries, key, &kept)
        }
    }
}

/// What each key has that an entry has touched: its own, and the one that left for it.
#[tactic(auto, using(crate::proofs::Told::touched_put))]
fn put_touched(
    alloc: Global,
    out: &mut Vec<u8>,
    script: &Script,
    number: u64,
    entries: &[Entry],
    shelf: &Shelf,
    entry: &Entry,
) -> Result<(), AllocError>
    ensures { OnOk result (out.new.items ≡ out.old.items ++ fact_text script.now number
        (cached_here entries.now shelf.now.shelves.entries (touched_keys entry.now))) }
{
    match key_in(&entry.act) {
        None => Ok(()),
        Some(key) => {
            let touched = touched(entry, &key);
            let leaving = leaving(entry, &key);
            put_key(alloc, out, script, number, entries, shelf, &touched)?;
            put_key(alloc, out, script, number, entries, shelf, &leaving)?;
            Ok(())
        }
    }
}

// ---- tables

/// The stamp of a table, or that it has none.
fn put_stamp(
    alloc: Global,
    out: &mut Vec<u8>,
    script: &Script,
    number: u64,
    stamps: &Stamps,
    table: EntityNo,
) -> Result<(), AllocError>
    ensures { OnOk result (out.new.items ≡ out.old.items
        ++ fact_line script.now number (Fact.Stamped table (value_at stamps.now.stamps.entries table))) }
{
    match stamps.of(table) {
        Some(stamped) => put_stamped(alloc, out, script, number, table, Some(stamped.value)),
        None => put_stamped(alloc, out, script, number, table, None),
    }
}

fn put_stamps(
    alloc: Global,
    out: &mut Vec<u8>,
    script: &Script,
    number: u64,
    stamps: &Stamps,
    tables: &[EntityNo],
) -> Result<(), AllocError>
    ensures { OnOk result (out.new.items ≡ out.old.items ++ flat_map
        (λ t. fact_line script.now number (Fact.Stamped t (value_at stamps.now.stamps.entries t))) tables.now) }
{
    for table in tables {
        put_stamp(alloc, out, script, number, stamps, *table)?;
    }
    Ok(())
}

/// The stamps of the tables that an entry stamps.
#[tactic(auto, using(crate::proofs::Told::stamped_put))]
fn put_stamping(
    alloc: Global,
    out: &mut Vec<u8>,
    script: &Script,
    number: u64,
    stamps: &Stamps,
    act: &Act,
) -> Result<(), AllocError>
    ensures { OnOk result (out.new.items ≡ out.old.items ++ fact_text script.now number
        (stamped_here stamps.now.stamps.entries (tables_in act.now))) }
{
    match act {
        Act::Pre { tables } => put_stamps(alloc, out, script, number, stamps, tables.as_slice()),
        Act::Stamp { tables } => put_stamps(alloc, out, script, number, stamps, tables.as_slice()),
        _ => Ok(()),
    }
}

// ---- queries

/// The result that an entry keeps; that there is none, if there is room for none.
fn put_kept_if(
    alloc: Global,
    out: &mut Vec<u8>,
    script: &Script,
    number: u64,
    query: QueryNo,
    time: Tick,
    list: &Listing,
) -> Result<(), AllocError>
    ensures { OnOk result (out.new.items ≡ out.old.items
        ++ fact_line script.now number (Fact.Kept query (kept_now script.now time list.now))) }
{
    if script.results > 0 {
        put_kept(alloc, out, script, number, query, time, list)
    } else {
        put_dropped(alloc, out, script, number, query)
    }
}

/// The query whose result has left, if one has.
fn put_left(
    alloc: Global,
    out: &mut Vec<u8>,
    script: &Script,
    number: u64,
    query: Option<QueryNo>,
) -> Result<(), AllocError>
    ensures { OnOk result (out.new.items ≡ out.old.items ++ fact_text script.now number
        (map (λ q. Fact.Kept q None) (option_to_list query))) }
{
    match query {
        None => Ok(()),
        Some(query) => put_dropped(alloc, out, script, number, query),
    }
}

/// The results that an entry changes: the one that it keeps, and the one that left for it.
fn put_keeping(
    alloc: Global,
    out: &mut Vec<u8>,
    script: &Script,
    number: u64,
    entry: &Entry,
) -> Result<(), AllocError>
    ensures { OnOk result (out.new.items ≡ out.old.items
        ++ fact_text script.now number (kept_here script.now entry.now.act entry.now.reply)) }
{
    match &entry.act {
        Act::Keep { query, time, list } => match &entry.reply {
            Reply::Kept { dropped } => {
                put_kept_if(alloc, out, script, number, *query, *time, list)?;
                put_left(alloc, out, script, number, *dropped)
            }
            _ => Ok(()),
        },
        _ => Ok(()),
    }
}

// ---- sessions

/// A session that has begun.
fn put_begun(
    alloc: Global,
    out: &mut Vec<u8>,
    script: &Script,
    number: u64,
    desks: &Desks<'_>,
    session: SessionNo,
) -> Result<(), AllocError>
    ensures { OnOk result (out.new.items ≡ out.old.items ++ fact_line script.now number
        (Fact.Session session true (time_at desks.now.all.items session) (floor_at desks.now.all.items session))) }
{
    match desks.of(session) {
        Some(desk) => put_open(alloc, out, script, number, session, desk.time, desk.floor),
        None => put_open(alloc, out, script, number, session, Tick(0), Tick(0)),
    }
}

/// The session that an entry begins, ends or kills.
fn put_session(
    alloc: Global,
    out: &mut Vec<u8>,
    script: &Script,
    number: u64,
    desks: &Desks<'_>,
    entry: &Entry,
) -> Result<(), AllocError>
    ensures { OnOk result (out.new.items ≡ out.old.items ++ fact_text script.now number
        (session_here desks.now.all.items entry.now.act entry.now.session)) }
{
    match &entry.act {
        Act::Begin => match entry.session {
            Some(session) => put_begun(alloc, out, script, number, desks, session),
            None => Ok(()),
        },
        Act::End => match entry.session {
            Some(session) => put_closed(alloc, out, script, number, session),
            None => Ok(()),
        },
        Act::Kill { session } => put_closed(alloc, out, script, number, *session),
        _ => Ok(()),
    }
}

/// The change that an entry writes.
fn put_change(
    alloc: Global,
    out: &mut Vec<u8>,
    script: &Script,
    number: u64,
    entry: &Entry,
) -> Result<(), AllocError>
    ensures { OnOk result (out.new.items ≡ out.old.items
        ++ fact_text script.now number (written_here entry.now.act entry.now.session)) }
{
    match &entry.act {
        Act::Write(change) => match entry.session {
            Some(session) => put_written(alloc, out, script, number, session, change),
            None => Ok(()),
        },
        _ => Ok(()),
    }
}

// ---- locks

/// The key whose lock an act takes or gives back.
fn locked_in(act: &Act) -> Option<Key>
    ensures { result ≡ locked_in act.now }
{
    match act {
        Act::Lock { key, .. } | Act::Unlock { key, .. } | Act::AfterUpdate { key, .. } => Some(
            *key,
        ),
        _ => None,
    }
}

/// Those who hold the key whose lock an act takes or gives back.
fn put_holding(
    alloc: Global,
    out: &mut Vec<u8>,
    script: &Script,
    number: u64,
    holders: &Holders,
    act: &Act,
) -> Result<(), AllocError>
    ensures { OnOk result (out.new.items ≡ out.old.items
        ++ fact_text script.now number (holders_here holders.now.lines.entries act.now)) }
{
    match locked_in(act) {
        None => Ok(()),
        Some(key) => put_holders(alloc, out, script, number, &key, holders.of(&key)),
    }
}

/// A restart, if an act is one.
fn put_restart(alloc: Global, out: &mut Vec<u8>, number: u64, act: &Act) -> Result<(), AllocError>
    ensures { OnOk result ((script : Script) → out.new.items
        ≡ out.old.items ++ fact_text script number (restart_facts act.now)) }
{
    match act {
        Act::Restart => put_restarted(alloc, out, number),
        _ => Ok(()),
    }
}

/// What an entry has changed, by what is known after it.
pub fn put_changed(
    alloc: Global,
    out: &mut Vec<u8>,
    script: &Script,
    number: u64,
    entries: &[Entry],
    known: &Known<'_>,
    entry: &Entry,
) -> Result<(), AllocError>
    ensures { OnOk result (out.new.items ≡ out.old.items
        ++ fact_text script.now number (facts_here script.now entries.now known.now entry.now)) }
{
    put_restart(alloc, out, number, &entry.act)?;
    put_session(alloc, out, script, number, &known.desks, entry)?;
    put_change(alloc, out, script, number, entry)?;
    put_commit(alloc, out, script, number, entries, &known.desks, entry)?;
    put_touched(alloc, out, script, number, entries, &known.shelf, entry)?;
    put_stamping(alloc, out, script, number, &known.stamps, &entry.act)?;
    put_keeping(alloc, out, script, number, entry)?;
    put_holding(alloc, out, script, number, &known.holders, &entry.act)?;
    Ok(())
}
