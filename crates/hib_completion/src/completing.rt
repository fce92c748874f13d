// The acts that complete a transaction: what a session sends to regions, key by key, and then to the stamps.
// hib_session asks for them. `done` says that rows may be put back.
ghost use Rattle.std.specs.Prelude.{◌≡◌, ◌≤◌, ◌∷◌, ◌++◌, [], true, IfOk, OnOk, length, option_copied, option_and_then, if◌then◌else◌, take, None};
ghost use Rattle.std.specs.List.{list_any};
ghost use Rattle.hib_base.specs.Keys.{same_key};
ghost use Rattle.hib_journal.specs.Next.{complete_by, complete_insert, complete_update, release_of, keys_of};
ghost use Rattle.hib_base.specs.Tables.{key_of, row_left};
ghost use Rattle.hib_completion.specs.Completed.{acts_of, key_acts, keys_acts, completes};
ghost use Rattle.hib_completion.specs.Touched.{rise, StandsFor};

use crate::lists::tables;
use crate::touched::{
    Touched, change_of, first_of, is_changed, key_at, keys_rise, last_of, lock_number,
};
use hib_base::{Act, Acts, Change, Key, Mapping, Mode, Row, Seq, Strategy, Tick, strategy_of};
use indexmap::IndexMap;
use std::alloc::{AllocError, Global};

/// If there are at most this many changes, going over them is quicker than maps of their keys.
const FEW: usize = 8;

/// The row that may be put back after a key's last change; none if no row may, or if that was a delete.
fn put_back(done: bool, last: Option<&Change>) -> Option<&Row>
    ensures { option_copied result
        ≡ (if done then option_and_then row_left (option_copied last.entry) else None) }
{
    if !done {
        return None;
    }
    last?.row_left()
}

/// What completes a key whose first change was an insert: its row is put into its region, if one may be put. A
/// nonstrict region is sent nothing.
fn insert_completed(
    alloc: Global,
    strategy: Strategy,
    key: Key,
    row: Option<&Row>,
    floor: Tick,
) -> Result<Option<Act>, AllocError>
    ensures { IfOk result (λ a. acts_of a
        ≡ complete_insert strategy key (option_copied row.entry) floor) }
{
    match (strategy, row) {
        (Strategy::ReadOnly | Strategy::ReadWrite, Some(row)) => {
            let row = row.copy(alloc)?;
            Ok(Some(Act::AfterInsert { key, row, floor }))
        }
        _ => Ok(None),
    }
}

/// The act that gives a lock back, with a row if there is one.
fn released(alloc: Global, key: Key, lock: Tick, row: Option<&Row>) -> Result<Act, AllocError>
    ensures { IfOk result (λ a. a ∷ [] ≡ release_of key lock (option_copied row.entry)) }
{
    match row {
        Some(row) => {
            let row = row.copy(alloc)?;
            Ok(Act::AfterUpdate { key, lock, row })
        }
        None => Ok(Act::Unlock { key, lock }),
    }
}

/// What completes a key whose first change was an update or a delete: its lock is given back, or its item removed.
fn update_completed(
    alloc: Global,
    strategy: Strategy,
    key: Key,
    lock: Tick,
    row: Option<&Row>,
) -> Result<Option<Act>, AllocError>
    ensures { IfOk result (λ a. acts_of a
        ≡ complete_update strategy key lock (option_copied row.entry)) }
{
    match strategy {
        Strategy::ReadWrite => {
            let act = released(alloc, key, lock, row)?;
            Ok(Some(act))
        }
        Strategy::ReadOnly | Strategy::Nonstrict => Ok(Some(Act::RegionRemove { key })),
        Strategy::Uncached => Ok(None),
    }
}

/// What completes a key: at most one act.
fn key_completed(
    alloc: Global,
    first: Option<&Change>,
    strategy: Strategy,
    key: Key,
    lock: Tick,
    floor: Tick,
    row: Option<&Row>,
) -> Result<Option<Act>, AllocError>
    ensures { IfOk result (λ a. acts_of a
        ≡ complete_by (option_copied first.entry) strategy key lock floor
        (option_copied row.entry)) }
{
    match first {
        None => Ok(None),
        Some(Change::Insert { .. }) => insert_completed(alloc, strategy, key, row, floor),
        Some(_) => update_completed(alloc, strategy, key, lock, row),
    }
}

/// What completes one of the changed keys. Its changes are found by their places.
fn completed(
    alloc: Global,
    mapping: &Mapping,
    changes: &[Change],
    touched: &Touched,
    locks: &IndexMap<Key, Tick>,
    done: bool,
    floor: Tick,
    key: &Key,
) -> Result<Option<Act>, AllocError>
    ensures { IfOk result (λ a. StandsFor changes.now touched.now
        → acts_of a ≡ key_acts mapping.now changes.now locks.now.entries done floor key.now) }
{
    let first = change_of(changes, &touched.firsts, key);
    let strategy = strategy_of(mapping.as_slice(), key.entity);
    let lock = lock_number(locks, key);
    let last = change_of(changes, &touched.lasts, key);
    let row = put_back(done, last);
    let act = key_completed(alloc, first, strategy, *key, lock, floor, row)?;
    Ok(act)
}

/// What completes each of the changed keys, in order of first change. Changes are found by their places.
fn all_completed(
    alloc: Global,
    mapping: &Mapping,
    changes: &[Change],
    touched: &Touched,
    locks: &IndexMap<Key, Tick>,
    done: bool,
    floor: Tick,
) -> Result<Acts, AllocError>
    ensures { IfOk result (λ q. StandsFor changes.now touched.now
        → q ≡ keys_acts mapping.now changes.now locks.now.entries done floor
        (keys_of changes.now)) }
{
    let mut acts = Seq::new(alloc);
    for place in 0..touched.firsts.len() {
        let key = key_at(&touched.firsts, place);
        if let Some(act) = completed(alloc, mapping, changes, touched, locks, done, floor, &key)? {
            acts.push(act)?;
        }
    }
    Ok(acts)
}

/// What completes the key of a change, which must be the only one of its key.
fn alone_completed(
    alloc: Global,
    mapping: &Mapping,
    change: &Change,
    locks: &IndexMap<Key, Tick>,
    done: bool,
    floor: Tick,
) -> Result<Option<Act>, AllocError>
    ensures { IfOk result (λ a. acts_of a ≡ key_acts mapping.now (change.now ∷ [])
        locks.now.entries done floor (key_of change.now)) }
{
    let key = change.key();
    let strategy = strategy_of(mapping.as_slice(), key.entity);
    let lock = lock_number(locks, &key);
    let row = put_back(done, Some(change));
    let act = key_completed(alloc, Some(change), strategy, key, lock, floor, row)?;
    Ok(act)
}

/// What completes each of the keys of these changes. The keys must rise, so that each change is the only one of its
/// key.
fn risen_completed(
    alloc: Global,
    mapping: &Mapping,
    changes: &[Change],
    locks: &IndexMap<Key, Tick>,
    done: bool,
    floor: Tick,
) -> Result<Acts, AllocError>
    requires { rise changes.now ≡ true }
    ensures { IfOk result (λ q. q ≡ keys_acts mapping.now changes.now locks.now.entries done floor
        (keys_of changes.now)) }
{
    let mut acts = Seq::new(alloc);
    for place in 0..changes.len() {
        let act = alone_completed(alloc, mapping, &changes[place], locks, done, floor)?;
        add(&mut acts, act)?;
    }
    Ok(acts)
}

/// What completes one of the keys of few changes. Its first and its last change are found by going over them.
fn found_completed(
    alloc: Global,
    mapping: &Mapping,
    changes: &[Change],
    locks: &IndexMap<Key, Tick>,
    done: bool,
    floor: Tick,
    key: &Key,
) -> Result<Option<Act>, AllocError>
    ensures { IfOk result (λ a. acts_of a
        ≡ key_acts mapping.now changes.now locks.now.entries done floor key.now) }
{
    let first = first_of(changes, key);
    let strategy = strategy_of(mapping.as_slice(), key.entity);
    let lock = lock_number(locks, key);
    let row = put_back(done, last_of(changes, key));
    let act = key_completed(alloc, first, strategy, *key, lock, floor, row)?;
    Ok(act)
}

/// Adds an act, if there is one.
fn add(acts: &mut Acts, act: Option<Act>) -> Result<(), AllocError>
    ensures { OnOk result (acts.new ≡ acts.old ++ acts_of act) }
{
    match act {
        Some(act) => acts.push(act),
        None => Ok(()),
    }
}

/// What completes the key of the change at a place; none if a change before it is of this key.
fn new_completed(
    alloc: Global,
    mapping: &Mapping,
    changes: &[Change],
    locks: &IndexMap<Key, Tick>,
    done: bool,
    floor: Tick,
    place: usize,
    key: &Key,
) -> Result<Option<Act>, AllocError>
    requires { place ≤ length changes.now }
    ensures { IfOk result (λ a. acts_of a
        ≡ (if list_any (λ c. same_key (key_of c) key.now) (take place changes.now) then []
        else key_acts mapping.now changes.now locks.now.entries done floor key.now)) }
{
    if is_changed(&changes[..place], key) {
        return Ok(None);
    }
    found_completed(alloc, mapping, changes, locks, done, floor, key)
}

/// What completes each of the keys of few changes, in order of first change.
fn few_completed(
    alloc: Global,
    mapping: &Mapping,
    changes: &[Change],
    locks: &IndexMap<Key, Tick>,
    done: bool,
    floor: Tick,
) -> Result<Acts, AllocError>
    ensures { IfOk result (λ q. q ≡ keys_acts mapping.now changes.now locks.now.entries done floor
        (keys_of changes.now)) }
{
    let mut acts = Seq::new(alloc);
    for place in 0..changes.len() {
        let key = changes[place].key();
        let act = new_completed(alloc, mapping, changes, locks, done, floor, place, &key)?;
        add(&mut acts, act)?;
    }
    Ok(acts)
}

/// What completes each of the keys of these changes, in order of first change. Maps are made only if there are many and
/// their keys don't rise.
fn keys_completed(
    alloc: Global,
    mapping: &Mapping,
    changes: &[Change],
    locks: &IndexMap<Key, Tick>,
    done: bool,
    floor: Tick,
) -> Result<Acts, AllocError>
    ensures { IfOk result (λ q. q ≡ keys_acts mapping.now changes.now locks.now.entries done floor
        (keys_of changes.now)) }
{
    match changes {
        [] => Ok(Seq::new(alloc)),
        _ if keys_rise(changes) => risen_completed(alloc, mapping, changes, locks, done, floor),
        _ if changes.len() <= FEW => few_completed(alloc, mapping, changes, locks, done, floor),
        _ => {
            let touched = Touched::of(alloc, changes)?;
            all_completed(alloc, mapping, changes, &touched, locks, done, floor)
        }
    }
}

/// What completes a transaction that wrote these changes, but for its End. Key by key, in order of first change, a row
/// is put back or a lock is given back; then the changed tables are stamped, if there are any. The locks are by key,
/// and may be of more keys than were changed. Fails for want of memory alone.
pub fn acts(
    alloc: Global,
    mapping: &Mapping,
    changes: &[Change],
    locks: &IndexMap<Key, Tick>,
    committed: bool,
    mode: Mode,
    floor: Tick,
) -> Result<Acts, AllocError>
    ensures { IfOk result (λ q. q ≡ completes mapping.now changes.now locks.now.entries committed
        mode floor) }
{
    let done = committed && mode.puts();
    let mut acts = keys_completed(alloc, mapping, changes, locks, done, floor)?;
    let tables = tables(alloc, mapping, changes)?;
    if !tables.is_empty() {
        acts.push(Act::Stamp { tables })?;
    }
    Ok(acts)
}
