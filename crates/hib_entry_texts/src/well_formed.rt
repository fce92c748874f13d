// Which acts are well formed, and on which part they are. The reader of journals asks it of an act that it has guessed.
ghost use Rattle.hib_entry_texts.specs.WellFormed as format;
ghost use Rattle.std.specs.Prelude.{◌≡◌};

use hib_base::{Act, Change, Part, Script, SessionNo};
use hib_entry_fields::{
    are_cells, are_sets, are_tables, is_key, is_query, is_row, is_session, is_tick, is_version,
};

fn is_change(script: &Script, change: &Change) -> bool
    ensures { result ≡ format.is_change script.now change.now }
{
    match change {
        Change::Insert { key, row } => is_key(script, *key) && is_row(row),
        Change::Update { key, expected, row } => {
            is_key(script, *key) && is_version(*expected) && is_row(row)
        }
        Change::Delete { key, expected } => is_key(script, *key) && is_version(*expected),
    }
}

/// Whether an act has the script's names and numbers in their ranges alone.
pub fn is_act(script: &Script, act: &Act) -> bool
    ensures { result ≡ format.is_act script.now act.now }
{
    match act {
        Act::Begin | Act::End | Act::Restart | Act::Clear | Act::Commit | Act::Rollback => true,
        Act::Kill { session } => is_session(script, *session),
        Act::Find { key }
        | Act::Remove { key }
        | Act::Load { key }
        | Act::RegionRemove { key }
        | Act::Evict { key } => is_key(script, *key),
        Act::Persist { key, row } => is_key(script, *key) && is_row(row),
        Act::Set { key, cells } => is_key(script, *key) && are_sets(script, key.entity, cells),
        Act::List { query } | Act::Look { query } => is_query(script, *query),
        Act::Write(change) => is_change(script, change),
        Act::Pre { tables } | Act::Stamp { tables } => are_tables(script, tables),
        Act::Check { query, time } => is_query(script, *query) && is_tick(*time),
        Act::Keep { query, time, list } => {
            is_query(script, *query) && is_tick(*time) && are_cells(list.as_slice())
        }
        Act::Get { key, time } => is_key(script, *key) && is_tick(*time),
        Act::Put {
            key,
            row,
            time,
            floor,
        } => is_key(script, *key) && is_row(row) && is_tick(*time) && is_tick(*floor),
        Act::Lock {
            key,
            version,
            floor,
        } => is_key(script, *key) && is_version(*version) && is_tick(*floor),
        Act::Unlock { key, lock } => is_key(script, *key) && is_tick(*lock),
        Act::AfterInsert { key, row, floor } => {
            is_key(script, *key) && is_row(row) && is_tick(*floor)
        }
        Act::AfterUpdate { key, lock, row } => {
            is_key(script, *key) && is_tick(*lock) && is_row(row)
        }
    }
}

fn own_part(session: Option<SessionNo>) -> Option<Part>
    ensures { result ≡ format.own_part session }
{
    match session {
        None => None,
        Some(session) => Some(Part::Own(session)),
    }
}

/// The part that an act of a session is on; none if it is a session's own, and no session is given.
pub fn part_of(act: &Act, session: Option<SessionNo>) -> Option<Part>
    ensures { result ≡ format.part_of act.now session }
{
    match act {
        Act::Begin | Act::End | Act::Kill { .. } | Act::Restart => Some(Part::Registry),
        Act::Find { .. }
        | Act::Persist { .. }
        | Act::Set { .. }
        | Act::Remove { .. }
        | Act::Clear => own_part(session),
        Act::Load { .. } | Act::List { .. } | Act::Write(_) | Act::Commit | Act::Rollback => {
            Some(Part::Store)
        }
        Act::Pre { .. } | Act::Stamp { .. } | Act::Check { .. } => Some(Part::Stamps),
        Act::Look { .. } | Act::Keep { .. } => Some(Part::Results),
        Act::Get { key, .. }
        | Act::Put { key, .. }
        | Act::Lock { key, .. }
        | Act::Unlock { key, .. }
        | Act::AfterInsert { key, .. }
        | Act::AfterUpdate { key, .. }
        | Act::RegionRemove { key }
        | Act::Evict { key } => Some(Part::Region(key.entity)),
    }
}
