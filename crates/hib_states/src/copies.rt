// The sessions' own copies of keys, which are their instances: the one that an entry has changed, or that all are gone.
ghost use Rattle.std.specs.Prelude.{◌≡◌, ◌∷◌, ◌++◌, ◌<◌, false, Some, OnOk, length};
ghost use Rattle.hib_base.specs.Tables.{Tables};
ghost use Rattle.hib_journal.specs.Legal.{IsLegal};
ghost use Rattle.hib_journal.specs.Sessions.{Journal, was_killed};
ghost use Rattle.hib_states.specs.Seats.{AreSeats};
ghost use Rattle.hib_states.specs.States.{copied_by, copied_facts, copied_in, emptied_by};
ghost use Rattle.hib_states.specs.Texts.{fact_text};

use crate::lines::{put_copy, put_emptied};
use crate::seats::Seats;
use hib_base::{Act, Entry, Key, Reply, Script, SessionNo};
use hib_journal::is_break;
use std::alloc::{AllocError, Global};

/// The key of which a session has another copy by its act.
fn copied_in(entry: &Entry) -> Option<Key>
    ensures { result ≡ copied_in entry.now.act entry.now.reply }
{
    match (&entry.act, &entry.reply) {
        (Act::Get { key, .. }, Reply::Hit(_)) => Some(*key),
        (Act::Load { key }, Reply::Row(Some(_))) => Some(*key),
        (Act::Persist { key, .. }, Reply::New) => Some(*key),
        (Act::Set { key, .. }, Reply::Set) => Some(*key),
        (Act::Remove { key }, Reply::Removed) => Some(*key),
        (Act::Write(change), _) => Some(change.key()),
        _ => None,
    }
}

/// What a session has of a key, if a key is given.
fn put_copied(
    alloc: Global,
    out: &mut Vec<u8>,
    script: &Script,
    number: u64,
    seats: &Seats,
    session: SessionNo,
    key: &Option<Key>,
) -> Result<(), AllocError>
    ensures { OnOk result ((h : Journal) → AreSeats script.now h seats.now.sessions.items
        → was_killed session h ≡ false → session < length script.now.sessions
        → out.new.items ≡ out.old.items ++ fact_text script.now number (copied_by h session key.now)) }
{
    match key {
        None => Ok(()),
        Some(key) => {
            let row = seats.copy(alloc, script, session, *key)?;
            put_copy(alloc, out, script, number, session, key, row.as_ref())
        }
    }
}

/// A session has lost its copies, if it has by an entry.
fn put_break(
    alloc: Global,
    out: &mut Vec<u8>,
    script: &Script,
    number: u64,
    session: SessionNo,
    entry: &Entry,
) -> Result<(), AllocError>
    ensures { OnOk result (out.new.items
        ≡ out.old.items ++ fact_text script.now number (emptied_by entry.now.act entry.now.reply session)) }
{
    if is_break(&entry.act, &entry.reply) {
        put_emptied(alloc, out, script, number, session)
    } else {
        Ok(())
    }
}

/// What the session of an entry has of the key of which it has another copy by it, after the entry.
pub fn put_copies(
    alloc: Global,
    out: &mut Vec<u8>,
    script: &Script,
    number: u64,
    seats: &Seats,
    entry: &Entry,
) -> Result<(), AllocError>
    ensures { OnOk result ((start : Tables) (h : Journal) → IsLegal script.now (Some start) (entry.now ∷ h)
        → AreSeats script.now (entry.now ∷ h) seats.now.sessions.items
        → out.new.items ≡ out.old.items ++ fact_text script.now number (copied_facts h entry.now)) }
{
    let Some(session) = entry.session else {
        return Ok(());
    };
    let key = copied_in(entry);
    put_copied(alloc, out, script, number, seats, session, &key)?;
    put_break(alloc, out, script, number, session, entry)?;
    Ok(())
}
