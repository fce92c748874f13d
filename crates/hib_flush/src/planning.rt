// The pending changes of all instances, in the order in which a flush writes them: inserts, then updates, then deletes.
ghost use Rattle.std.specs.Prelude.{◌≡◌, ◌++◌, IfOk, OnOk};
ghost use Rattle.hib_flush.specs.Planned.{listed, inserts_in, updates_in, delete_held, deletes_in, planned};
ghost use Rattle.hib_identity_map.specs.Identity.{look_in};

use hib_base::{Change, Changes, Key, Seq};
use hib_dirty_check::{delete, insert, update};
use hib_identity_map::IdentityMap;
use std::alloc::{AllocError, Global};

/// The changes that are pending of a session's instances: all inserts in order of arrival, then all updates in order of
/// arrival, then all deletes in order of removal. Fails for want of memory alone.
pub fn plan(alloc: Global, map: &IdentityMap) -> Result<Changes, AllocError>
    ensures { IfOk result (λ cs. cs ≡ planned map.now) }
{
    let mut changes = Seq::new(alloc);
    add_inserts(alloc, map, &mut changes)?;
    add_updates(alloc, map, &mut changes)?;
    add_deletes(map, &mut changes)?;
    Ok(changes)
}

/// Adds a change to a plan, if there is one.
fn add(changes: &mut Changes, change: Option<Change>) -> Result<(), AllocError>
    ensures { OnOk result (changes.new ≡ changes.old ++ listed change) }
{
    match change {
        Some(change) => changes.push(change),
        None => Ok(()),
    }
}

/// Adds the inserts that are pending, in order of arrival.
fn add_inserts(alloc: Global, map: &IdentityMap, changes: &mut Changes) -> Result<(), AllocError>
    ensures { OnOk result (changes.new ≡ changes.old ++ inserts_in map.now.held) }
{
    for i in 0..map.len() {
        let (key, held) = map.at(i);
        let change = insert(alloc, key, held)?;
        add(changes, change)?;
    }
    Ok(())
}

/// Adds the updates that are pending, in order of arrival.
fn add_updates(alloc: Global, map: &IdentityMap, changes: &mut Changes) -> Result<(), AllocError>
    ensures { OnOk result (changes.new ≡ changes.old ++ updates_in map.now.held) }
{
    for i in 0..map.len() {
        let (key, held) = map.at(i);
        let change = update(alloc, key, held)?;
        add(changes, change)?;
    }
    Ok(())
}

/// The delete that is pending of a key, if there is one.
fn delete_at(map: &IdentityMap, key: Key) -> Option<Change>
    ensures { result ≡ delete_held key (look_in map.now.held key) }
{
    delete(key, map.look(key)?)
}

/// Adds the deletes that are pending, in order of removal.
fn add_deletes(map: &IdentityMap, changes: &mut Changes) -> Result<(), AllocError>
    ensures { OnOk result (changes.new ≡ changes.old ++ deletes_in map.now.held map.now.removals) }
{
    for key in map.removals() {
        add(changes, delete_at(map, *key))?;
    }
    Ok(())
}
