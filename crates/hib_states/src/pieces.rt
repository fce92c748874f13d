// Members of a line, in groups: what a line says of one key, change, row or slot. An entry's place is its index among
// the entries, from 0.
ghost use Rattle.std.specs.Prelude.{◌≡◌, ◌∷◌, ◌++◌, None, OnOk, Some, option_copied, codes, map, flat_map};
ghost use Rattle.std.specs.List.{join_by};
ghost use Rattle.std.specs.Fmt.{decimal};
ghost use Rattle.hib_base.specs.Tables.{row_left};
ghost use Rattle.hib_flat.specs.Lines.{in_quotes};
ghost use Rattle.hib_flat.specs.Parts as parts;
ghost use Rattle.hib_flat.specs.Words as words;
ghost use Rattle.hib_flat.specs.Members as members;
ghost use Rattle.hib_flat.specs.Members.{boolean, list, numbered};
ghost use Rattle.hib_texts.specs.Texts.{session_text};
ghost use Rattle.hib_journal.specs.Slot.{Slot};
ghost use Rattle.hib_follow.specs.Shelves.{kept_slot};
ghost use Rattle.hib_follow.specs.declared.kept.Kept.{Kept};
ghost use Rattle.hib_states.specs.Texts.{key_members, member, row_members, said, slot_members, slot_row};

use hib_base::{Change, Entry, Key, Listing, Row, Script, SessionNo, Tick};
use hib_flat::{
    Form, change_expected, change_word, put_bool_member, put_list_member, put_number_member,
    put_word_member,
};
use hib_follow::{Kept, row_from, tick_from};
use hib_texts::{entity_name, put_labelled, session_name};
use std::alloc::{AllocError, Global};

/// A word.
#[tactic(auto, unfolding(crate::specs::Texts::member))]
pub fn put_said(out: &mut Vec<u8>, name: &[u8], word: &[u8]) -> Result<(), AllocError>
    ensures { OnOk result (out.new.items ≡ out.old.items ++ member (said name.now word.now)) }
{
    put_word_member(out, Form::Json, name, word)
}

/// A number.
#[tactic(auto, unfolding(crate::specs::Texts::member))]
pub fn put_count(
    alloc: Global,
    out: &mut Vec<u8>,
    name: &[u8],
    value: Option<u64>,
) -> Result<(), AllocError>
    ensures { OnOk result (out.new.items ≡ out.old.items ++ member (name.now, numbered value)) }
{
    put_number_member(alloc, out, Form::Json, name, value)
}

fn wide(number: Option<u32>) -> Option<u64>
    ensures { result ≡ number }
{
    match number {
        None => None,
        Some(number) => Some(u64::from(number)),
    }
}

/// A version.
pub fn put_version(
    alloc: Global,
    out: &mut Vec<u8>,
    name: &[u8],
    version: Option<u32>,
) -> Result<(), AllocError>
    ensures { OnOk result (out.new.items ≡ out.old.items ++ member (name.now, numbered version)) }
{
    put_count(alloc, out, name, wide(version))
}

/// True or false.
#[tactic(auto, unfolding(crate::specs::Texts::member))]
pub fn put_flag(out: &mut Vec<u8>, name: &[u8], value: bool) -> Result<(), AllocError>
    ensures { OnOk result (out.new.items
        ≡ out.old.items ++ member (name.now, Some (boolean value))) }
{
    put_bool_member(out, Form::Json, name, Some(value))
}

/// What a query gave.
#[tactic(auto, unfolding(crate::specs::Texts::member))]
pub fn put_cells(
    alloc: Global,
    out: &mut Vec<u8>,
    name: &[u8],
    value: &Listing,
) -> Result<(), AllocError>
    ensures { OnOk result (out.new.items
        ≡ out.old.items ++ member (name.now, Some (list value.now))) }
{
    put_list_member(alloc, out, Form::Json, name, Some(value))
}

/// How a line begins: with the number of an entry, and what is told.
pub fn put_head(
    alloc: Global,
    out: &mut Vec<u8>,
    number: u64,
    tells: &[u8],
) -> Result<(), AllocError>
    ensures { OnOk result (out.new.items
        ≡ out.old.items ++ (codes "{\"entry\":" ++ (decimal number ++ member (said (codes "tells") tells.now)))) }
{
    put_labelled(alloc, out, b"{\"entry\":", number)?;
    put_said(out, b"tells", tells)
}

/// The name of a key's entity, and its identifier.
pub fn put_key(
    alloc: Global,
    out: &mut Vec<u8>,
    script: &Script,
    key: &Key,
) -> Result<(), AllocError>
    ensures { OnOk result (out.new.items
        ≡ out.old.items ++ flat_map member (key_members script.now key.now)) }
{
    put_said(out, b"entity", entity_name(script, key.entity))?;
    put_count(alloc, out, b"id", Some(key.id))
}

/// That there is nothing.
fn put_nothing(out: &mut Vec<u8>) -> Result<(), AllocError>
    ensures { OnOk result (out.new.items ≡ out.old.items ++ flat_map member (row_members None)) }
{
    put_said(out, b"holds", b"nothing")?;
    Ok(())
}

/// A row that is there, but for its cells.
fn put_row_there(alloc: Global, out: &mut Vec<u8>, row: &Row) -> Result<(), AllocError>
    ensures { OnOk result (out.new.items
        ≡ out.old.items ++ flat_map member (row_members (Some row.now))) }
{
    put_said(out, b"holds", b"row")?;
    put_version(alloc, out, b"version", row.version)?;
    Ok(())
}

/// What there is of a row but for its cells.
pub fn put_row(alloc: Global, out: &mut Vec<u8>, row: Option<&Row>) -> Result<(), AllocError>
    ensures { OnOk result (out.new.items
        ≡ out.old.items ++ flat_map member (row_members (option_copied row.entry))) }
{
    match row {
        None => put_nothing(out),
        Some(row) => put_row_there(alloc, out, row),
    }
}

/// An item in a slot, but for the cells of its row.
fn put_item(alloc: Global, out: &mut Vec<u8>, row: &Row, stored: Tick) -> Result<(), AllocError>
    ensures { OnOk result (out.new.items
        ≡ out.old.items ++ flat_map member (slot_members (Slot.Item row.now stored))) }
{
    put_said(out, b"holds", b"item")?;
    put_count(alloc, out, b"stored", Some(stored.0))?;
    put_version(alloc, out, b"version", row.version)?;
    Ok(())
}

/// A slot with the item that the entry at a place has stored: the row, and when it was stored.
fn put_stored(
    alloc: Global,
    out: &mut Vec<u8>,
    entries: &[Entry],
    place: usize,
) -> Result<(), AllocError>
    ensures { OnOk result (out.new.items
        ≡ out.old.items ++ flat_map member (slot_members (kept_slot entries.now (Kept.Item place)))) }
{
    match row_from(entries, place) {
        None => {
            put_nothing(out)?;
            Ok(())
        }
        Some(row) => {
            let stored = tick_from(entries, place);
            put_item(alloc, out, row, stored)?;
            Ok(())
        }
    }
}

/// The row of the item that a key has, if it has one.
#[tactic(auto, using(crate::proofs::Rowed::item_row))]
pub fn kept_row<'a>(entries: &'a [Entry], kept: &Kept) -> Option<&'a Row>
    ensures { option_copied result ≡ slot_row (kept_slot entries.now kept.now) }
{
    match kept {
        Kept::Item(place) => row_from(entries, *place),
        Kept::Nothing => None,
        Kept::Lock { .. } => None,
    }
}

/// A lock in a slot.
fn put_lock(
    alloc: Global,
    out: &mut Vec<u8>,
    id: u64,
    version: Option<u32>,
    timeout: u64,
    holders: u64,
    shared: bool,
    unlock: u64,
) -> Result<(), AllocError>
    ensures { OnOk result (out.new.items
        ≡ out.old.items ++ flat_map member (slot_members (Slot.Lock (record {
          id = id;
          version = version;
          timeout = timeout;
          holders = holders;
          shared = shared;
          unlock = unlock;
        })))) }
{
    put_said(out, b"holds", b"lock")?;
    put_count(alloc, out, b"lock", Some(id))?;
    put_version(alloc, out, b"version", version)?;
    put_count(alloc, out, b"until", Some(timeout))?;
    put_count(alloc, out, b"holders", Some(holders))?;
    put_flag(out, b"shared", shared)?;
    put_count(alloc, out, b"released", Some(unlock))?;
    Ok(())
}

/// What a key has, but for the cells of its row.
pub fn put_slot(
    alloc: Global,
    out: &mut Vec<u8>,
    entries: &[Entry],
    kept: &Kept,
) -> Result<(), AllocError>
    ensures { OnOk result (out.new.items
        ≡ out.old.items ++ flat_map member (slot_members (kept_slot entries.now kept.now))) }
{
    match kept {
        Kept::Nothing => put_nothing(out),
        Kept::Item(place) => put_stored(alloc, out, entries, *place),
        Kept::Lock {
            id,
            version,
            timeout,
            holders,
            shared,
            unlock,
        } => put_lock(
            alloc, out, *id, *version, *timeout, *holders, *shared, *unlock,
        ),
    }
}

/// Who has written a change, and of which kind it is.
pub fn put_writer(
    out: &mut Vec<u8>,
    script: &Script,
    session: SessionNo,
    change: &Change,
) -> Result<(), AllocError>
    ensures { OnOk result (out.new.items ≡ out.old.items
        ++ (member (said (codes "session") (session_text script.now session))
        ++ member (said (codes "change") (words.change_word change.now)))) }
{
    put_said(out, b"session", session_name(script, session))?;
    put_said(out, b"change", change_word(change))
}

/// The version that a change expects, and the row that it leaves but for its cells.
pub fn put_change(alloc: Global, out: &mut Vec<u8>, change: &Change) -> Result<(), AllocError>
    ensures { OnOk result (out.new.items ≡ out.old.items
        ++ flat_map member ((codes "expected", numbered (parts.change_expected change.now)) ∷ row_members (row_left change.now))) }
{
    put_count(alloc, out, b"expected", change_expected(change))?;
    put_row(alloc, out, change.row_left())
}

// Each name after a comma.
fn put_more_sessions(
    out: &mut Vec<u8>,
    script: &Script,
    sessions: &[SessionNo],
) -> Result<(), AllocError>
    ensures { OnOk result (out.new.items ≡ out.old.items
        ++ flat_map (λ s. codes "," ++ in_quotes (session_text script.now s)) sessions.now) }
{
    for session in sessions {
        out.push(b',')?;
        put_quoted(out, session_name(script, *session))?;
    }
    Ok(())
}

fn put_quoted(out: &mut Vec<u8>, name: &[u8]) -> Result<(), AllocError>
    ensures { OnOk result (out.new.items ≡ out.old.items ++ in_quotes name.now) }
{
    out.extend_from_slice(b"\"")?;
    out.extend_from_slice(name)?;
    out.extend_from_slice(b"\"")
}

fn put_joined_sessions(
    out: &mut Vec<u8>,
    script: &Script,
    sessions: &[SessionNo],
) -> Result<(), AllocError>
    ensures { OnOk result (out.new.items ≡ out.old.items
        ++ join_by in_quotes (codes ",") (map (session_text script.now) sessions.now)) }
{
    match sessions.split_first() {
        None => Ok(()),
        Some((first, rest)) => {
            put_quoted(out, session_name(script, *first))?;
            put_more_sessions(out, script, rest)?;
            Ok(())
        }
    }
}

/// The names of sessions.
#[tactic(auto, unfolding(crate::specs::Texts::member))]
pub fn put_sessions(
    out: &mut Vec<u8>,
    script: &Script,
    sessions: &[SessionNo],
) -> Result<(), AllocError>
    ensures { OnOk result (out.new.items ≡ out.old.items
        ++ member (codes "sessions", Some (members.words (map (session_text script.now) sessions.now)))) }
{
    out.extend_from_slice(b",\"sessions\":[")?;
    put_joined_sessions(out, script, sessions)?;
    out.extend_from_slice(b"]")
}
