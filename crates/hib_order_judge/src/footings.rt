// On what the instances of a session rest, by key: the row that it read or wrote last. If another row is committed when
// it commits a change that rests on it, an update is lost.
ghost use Rattle.hib_base.specs.Keys.{same_key};
ghost use Rattle.hib_journal.specs.Types.{Entry, Key};
ghost use Rattle.hib_order_judge.specs.Footings.{basis_after, basis_at, basis_here, basis_of, basis_written};
ghost use Rattle.hib_order_judge.specs.Footings.{rest_after, rest_at, row_from, row_given, touched};
ghost use Rattle.hib_base.specs.Tables.{row_left};
ghost use Rattle.std.specs.Map.{lookup};
ghost use Rattle.std.specs.Option.{option_or};
ghost use Rattle.std.specs.Prelude.{◌≡◌, if◌then◌else◌, List, None, Some, OnOk, option_and_then, option_copied};
ghost use Rattle.std.specs.Prelude.{option_map, slice_get};

use hib_base::{Act, Change, Entry, Key, Reply, Row};
use hib_journal::is_break;
use indexmap::IndexMap;
use std::alloc::AllocError;

/// On what an instance rests. A row is known by the place, among all entries, of the one that gives it.
#[derive(Clone, Copy)]
pub struct Footing {
    /// The row that was read, or that the session wrote last; none if it is new and not written.
    pub row: Option<usize>,
    /// It is new, and no insert of it was written.
    pub fresh: bool,
}

/// By key, on what each instance rests.
pub type Footings = IndexMap<Key, Footing>;

/// By key that was written since the last Begin, the row on which the first of these writes rests.
pub type Rests = IndexMap<Key, Option<usize>>;

/// The row that an entry gives: one that was read, or that was written.
fn row_given(entry: &Entry) -> Option<&Row>
    ensures { option_copied result ≡ row_given entry.now.act entry.now.reply }
{
    match &entry.act {
        Act::Get { .. } => match &entry.reply {
            Reply::Hit(row) => Some(row),
            _ => None,
        },
        Act::Load { .. } => match &entry.reply {
            Reply::Row(Some(row)) => Some(row),
            _ => None,
        },
        Act::Write(change) => change.row_left(),
        _ => None,
    }
}

/// The row that the entry at a place gives.
pub fn row_from(entries: &[Entry], place: usize) -> Option<&Row>
    ensures { option_copied result ≡ row_from entries.now place }
{
    row_given(entries.get(place)?)
}

/// The key whose instance an act may change.
fn touched(act: &Act) -> Option<Key>
    ensures { result ≡ touched act.now }
{
    match act {
        Act::Get { key, .. } => Some(*key),
        Act::Load { key } => Some(*key),
        Act::Persist { key, .. } => Some(*key),
        Act::Remove { key } => Some(*key),
        Act::Write(change) => Some(change.key()),
        _ => None,
    }
}

/// After a change of it was written, by the entry at a place.
fn after_write(place: usize, change: &Change, old: Footing) -> Option<Footing>
    ensures { (es : List Entry) → row_from es place ≡ row_left change.now
        → option_map (basis_of es) result ≡ basis_written change.now (basis_of es old) }
{
    match change {
        Change::Insert { .. } => Some(Footing {
            row: Some(place),
            fresh: false,
        }),
        Change::Update { .. } => Some(Footing {
            row: Some(place),
            fresh: old.fresh,
        }),
        Change::Delete { .. } => None,
    }
}

/// After it was removed: what is new and not written is forgotten.
fn after_removal(old: Footing) -> Option<Footing>
    ensures { result ≡ (if old.fresh then None else Some old) }
{
    if old.fresh { None } else { Some(old) }
}

/// On what the instance rests whose key an entry at a place names, after that entry.
fn after(place: usize, entry: &Entry, old: Option<Footing>) -> Option<Footing>
    ensures { (es : List Entry) → slice_get es place ≡ Some entry.now
        → option_map (basis_of es) result
        ≡ basis_here entry.now.act entry.now.reply (option_map (basis_of es) old) }
{
    match &entry.act {
        Act::Get { .. } => match &entry.reply {
            Reply::Hit(_) => Some(Footing {
                row: Some(place),
                fresh: false,
            }),
            _ => old,
        },
        Act::Load { .. } => match &entry.reply {
            Reply::Row(Some(_)) => Some(Footing {
                row: Some(place),
                fresh: false,
            }),
            _ => old,
        },
        Act::Persist { .. } => match &entry.reply {
            Reply::New => Some(Footing {
                row: None,
                fresh: true,
            }),
            _ => old,
        },
        Act::Write(change) => after_write(place, change, old?),
        Act::Remove { .. } => match &entry.reply {
            Reply::Removed => after_removal(old?),
            _ => old,
        },
        _ => old,
    }
}

fn footing_at(footings: &Footings, key: &Key) -> Option<Footing>
    ensures { result ≡ lookup (same_key key.now) footings.now.entries }
{
    footings.get(key).copied()
}

fn set_footing(
    footings: &mut Footings,
    key: &Key,
    footing: Option<Footing>,
) -> Result<(), AllocError>
    ensures { OnOk result ((k : Key)
        → lookup (same_key k) footings.new.entries
        ≡ (if same_key key.now k then footing else lookup (same_key k) footings.old.entries)) }
{
    match footing {
        Some(footing) => {
            footings.insert(*key, footing)?;
        }
        None => {
            footings.swap_remove(key);
        }
    }
    Ok(())
}

/// Takes the session's next entry, which stands at a place.
pub fn note_footing(footings: &mut Footings, place: usize, entry: &Entry) -> Result<(), AllocError>
    ensures { OnOk result ((es : List Entry) (k : Key) → slice_get es place ≡ Some entry.now
        → basis_at es footings.new.entries k
        ≡ basis_after k entry.now.act entry.now.reply (basis_at es footings.old.entries k)) }
{
    if is_break(&entry.act, &entry.reply) {
        footings.clear();
        return Ok(());
    }
    let Some(key) = touched(&entry.act) else {
        return Ok(());
    };
    let old = footing_at(footings, &key);
    set_footing(footings, &key, after(place, entry, old))
}

/// A key is written that rests on a row: the first such write counts.
fn write_first(rests: &mut Rests, key: &Key, row: Option<usize>) -> Result<(), AllocError>
    ensures { OnOk result ((k : Key)
        → lookup (same_key k) rests.new.entries
        ≡ option_or (lookup (same_key k) rests.old.entries) (if same_key key.now k then Some row else None)) }
{
    if rests.get(key).is_none() {
        rests.insert(*key, row)?;
    }
    Ok(())
}

/// The row on which the instance of a key rests.
fn row_at(footings: &Footings, key: &Key) -> Option<usize>
    ensures { result
        ≡ option_and_then (λ f. f.row) (lookup (same_key key.now) footings.now.entries) }
{
    footing_at(footings, key)?.row
}

/// Takes the session's next act, before which its instances rest on these rows.
pub fn note_rest(rests: &mut Rests, footings: &Footings, act: &Act) -> Result<(), AllocError>
    ensures { OnOk result ((es : List Entry) (k : Key)
        → rest_at es rests.new.entries k
        ≡ rest_after k act.now (basis_at es footings.now.entries k)
        (rest_at es rests.old.entries k)) }
{
    match act {
        Act::Begin => {
            rests.clear();
            Ok(())
        }
        Act::Write(change) => {
            let key = change.key();
            let row = row_at(footings, &key);
            write_first(rests, &key, row)
        }
        _ => Ok(()),
    }
}
