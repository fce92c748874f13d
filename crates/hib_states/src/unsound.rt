// The keys of which the claims on the cache don't speak from an entry on.
ghost use Rattle.std.specs.Prelude.{◌≡◌, ◌++◌, OnOk, flat_map};
ghost use Rattle.std.specs.Borrow.{Bor};
ghost use Rattle.hib_follow.specs.Deleted.{committed_at};
ghost use Rattle.hib_journal.specs.Sessions.{committer};
ghost use Rattle.hib_journal.specs.Types.{Change};
ghost use Rattle.hib_states.specs.Here.{reused_here, unsound_here};
ghost use Rattle.hib_states.specs.States.{expired_facts, is_guarded};
ghost use Rattle.hib_states.specs.Texts.{fact_text};

use crate::lines::put_unsound;
use hib_base::{Change, Entry, Key, Script, Strategy, strategy_of};
use hib_follow::{Deleted, Desk, Desks, Known, key_in};
use hib_journal::{committer, is_upset};
use std::alloc::{AllocError, Global};

/// Whether a key is of a read-write entity, as each unsound key is.
fn is_guarded(script: &Script, key: &Key) -> bool
    ensures { result ≡ is_guarded script.now key.now }
{
    strategy_of(script.mapping.as_slice(), key.entity) == Strategy::ReadWrite
}

/// The key that an entry names, if a lock on it had run out.
fn put_expired(
    alloc: Global,
    out: &mut Vec<u8>,
    script: &Script,
    number: u64,
    entry: &Entry,
) -> Result<(), AllocError>
    ensures { OnOk result (out.new.items
        ≡ out.old.items ++ fact_text script.now number (expired_facts script.now entry.now)) }
{
    match key_in(&entry.act) {
        None => Ok(()),
        Some(key) => {
            if is_guarded(script, &key) && is_upset(&entry.act, &entry.reply) {
                put_unsound(alloc, out, script, number, &key, None)
            } else {
                Ok(())
            }
        }
    }
}

/// The key that a commit inserts, if an earlier one had deleted it.
fn put_reused(
    alloc: Global,
    out: &mut Vec<u8>,
    script: &Script,
    number: u64,
    deleted: &Deleted,
    change: &Change,
) -> Result<(), AllocError>
    ensures { OnOk result (out.new.items ≡ out.old.items
        ++ fact_text script.now number (reused_here script.now deleted.now.numbers.entries change.now)) }
{
    match change {
        Change::Insert { key, .. } => {
            if !is_guarded(script, key) {
                return Ok(());
            }
            match deleted.of(key) {
                Some(entry) => put_unsound(alloc, out, script, number, key, Some(entry)),
                None => Ok(()),
            }
        }
        _ => Ok(()),
    }
}

fn put_all_reused(
    alloc: Global,
    out: &mut Vec<u8>,
    script: &Script,
    number: u64,
    deleted: &Deleted,
    desk: &Desk<'_>,
) -> Result<(), AllocError>
    ensures { OnOk result (out.new.items ≡ out.old.items ++ flat_map (λ (c : Bor Change).
        fact_text script.now number (reused_here script.now deleted.now.numbers.entries c.now)) desk.now.written.items) }
{
    for change in desk.written.as_slice() {
        put_reused(alloc, out, script, number, deleted, *change)?;
    }
    Ok(())
}

/// The keys that a commit inserts after earlier ones had deleted them.
fn put_committed(
    alloc: Global,
    out: &mut Vec<u8>,
    script: &Script,
    number: u64,
    deleted: &Deleted,
    desks: &Desks<'_>,
    entry: &Entry,
) -> Result<(), AllocError>
    ensures { OnOk result (out.new.items ≡ out.old.items ++ fact_text script.now number
        (flat_map (reused_here script.now deleted.now.numbers.entries)
        (committed_at desks.now.all.items (committer entry.now.act entry.now.reply entry.now.session)))) }
{
    match committer(entry) {
        None => Ok(()),
        Some(session) => match desks.of(session) {
            None => Ok(()),
            Some(desk) => {
                put_all_reused(alloc, out, script, number, deleted, desk)?;
                Ok(())
            }
        },
    }
}

/// The keys that aren't sound from an entry on, by what was known before it.
pub fn put_unsound_keys(
    alloc: Global,
    out: &mut Vec<u8>,
    script: &Script,
    number: u64,
    known: &Known<'_>,
    entry: &Entry,
) -> Result<(), AllocError>
    ensures { OnOk result (out.new.items
        ≡ out.old.items ++ fact_text script.now number (unsound_here script.now known.now entry.now)) }
{
    put_expired(alloc, out, script, number, entry)?;
    put_committed(
        alloc,
        out,
        script,
        number,
        &known.deleted,
        &known.desks,
        entry,
    )?;
    Ok(())
}
