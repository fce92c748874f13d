// What is known of a session, which is its desk.
ghost use Rattle.hib_base.specs.Keys.{same_key};
ghost use Rattle.hib_base.specs.Tables.{key_of, row_left};
ghost use Rattle.hib_journal.specs.Held.{is_begin};
ghost use Rattle.hib_journal.specs.Sessions.{Journal, changes_after, floor_after, time_after};
ghost use Rattle.hib_journal.specs.Types.{Entry, Key};
ghost use Rattle.hib_follow.specs.Desks.{IsDesk, change_from, change_in, changes_at, last_at};
ghost use Rattle.std.specs.Map.{lookup};
ghost use Rattle.std.specs.Option.{option_map_or};
ghost use Rattle.std.specs.Prelude.{◌≡◌, ◌∷◌, if◌then◌else◌, false, [], List, None, Some, OnOk, option_and_then, option_copied, slice_get};

use hib_base::{Act, Change, Entry, Key, Reply, Row, Tick};
use indexmap::IndexMap;
use std::alloc::{AllocError, Global};

/// What is known of a session after its own entries. They lend it, or it names their places.
#[derive(Drop)]
pub struct Desk<'a> {
    /// When its transaction began.
    pub time: Tick,
    /// The floor that it was told then.
    pub floor: Tick,
    /// The changes that it has written since then.
    pub written: Vec<&'a Change>,
    /// By key, the place of the entry that wrote the last of them.
    pub last: IndexMap<Key, usize>,
}

/// The change that an act writes.
fn change_in(act: &Act) -> Option<&Change>
    ensures { option_copied result ≡ change_in act.now }
{
    match act {
        Act::Write(change) => Some(change),
        _ => None,
    }
}

/// The change that the entry at a place writes.
fn change_from(entries: &[Entry], place: usize) -> Option<&Change>
    ensures { option_copied result ≡ change_from entries.now place }
{
    change_in(&entries.get(place)?.act)
}

/// When a transaction began, after an act at this tick.
fn time_after(act: &Act, now: Tick, time: Tick) -> Tick
    ensures { result ≡ time_after act.now now time }
{
    match act {
        Act::Begin => now,
        _ => time,
    }
}

/// The floor that was told, after an act with this reply.
fn floor_after(act: &Act, reply: &Reply, floor: Tick) -> Tick
    ensures { result ≡ floor_after act.now reply.now floor }
{
    match act {
        Act::Begin => match reply {
            Reply::Began { floor } => *floor,
            _ => floor,
        },
        _ => floor,
    }
}

/// Adds what an act writes. With a Begin nothing is written.
fn note_written<'a>(written: &mut Vec<&'a Change>, act: &'a Act) -> Result<(), AllocError>
    ensures { OnOk result (changes_at written.new.items
        ≡ changes_after act.now (changes_at written.old.items)) }
{
    match act {
        Act::Begin => {
            written.clear();
            Ok(())
        }
        Act::Write(change) => {
            written.push(change)?;
            Ok(())
        }
        _ => Ok(()),
    }
}

/// Notes the place of the last change of each key.
fn note_last(last: &mut IndexMap<Key, usize>, place: usize, act: &Act) -> Result<(), AllocError>
    ensures { OnOk result ((k : Key) → lookup (same_key k) last.new.entries
        ≡ (if is_begin act.now then None
        else if option_map_or (λ c. same_key (key_of c) k) (change_in act.now) false then Some place
        else lookup (same_key k) last.old.entries)) }
{
    match act {
        Act::Begin => {
            last.clear();
            Ok(())
        }
        Act::Write(change) => {
            last.insert(change.key(), place)?;
            Ok(())
        }
        _ => Ok(()),
    }
}

impl<'a> Desk<'a> {
    /// What is known of a session that has done nothing.
    pub fn new(alloc: Global) -> Desk<'a>
        ensures { (es : List Entry) → IsDesk es [] result }
    {
        Desk {
            time: Tick(0),
            floor: Tick(0),
            written: Vec::new(alloc),
            last: IndexMap::new(alloc),
        }
    }

    /// The row that its changes leave of a key that they name.
    pub fn row_left<'b>(&self, entries: &'b [Entry], key: &Key) -> Option<&'b Row>
        ensures { option_copied result ≡ option_and_then row_left (last_at entries.now self.now.last.entries key.now) }
    {
        let place = self.last.get(key)?;
        change_from(entries, *place)?.row_left()
    }

    /// Takes the session's next entry, which stands at a place among all entries.
    pub fn note(&mut self, place: usize, entry: &'a Entry) -> Result<(), AllocError>
        ensures { OnOk result ((es : List Entry) (mine : Journal)
            → slice_get es place ≡ Some entry.now → IsDesk es mine self.old
            → IsDesk es (entry.now ∷ mine) self.new) }
    {
        self.time = time_after(&entry.act, entry.tick, self.time);
        self.floor = floor_after(&entry.act, &entry.reply, self.floor);
        note_last(&mut self.last, place, &entry.act)?;
        note_written(&mut self.written, &entry.act)?;
        Ok(())
    }
}
