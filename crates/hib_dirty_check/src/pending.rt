// The change that is pending of one instance, by its state. A flush writes it.
ghost use Rattle.std.specs.Prelude.{◌≡◌, IfOk, Some};
ghost use Rattle.hib_base.specs.declared.instances.State.{State};
ghost use Rattle.hib_journal.specs.Held.{next_version, update_by};
ghost use Rattle.hib_dirty_check.specs.Changed.{change_of, insert_of, update_of, delete_of};

use crate::cells::are_same_cells;
use hib_base::{Change, Held, Key, Row, State};
use std::alloc::{AllocError, Global};

/// The version after one more update.
fn version_after(version: Option<u32>) -> Option<u32>
    ensures { result ≡ next_version version }
{
    match version {
        None => None,
        Some(u32::MAX) => Some(u32::MAX),
        Some(v) => Some(v + 1),
    }
}

/// The insert of a new instance; none if the instance isn't new. Fails for want of memory alone.
pub fn insert(alloc: Global, key: Key, held: &Held) -> Result<Option<Change>, AllocError>
    ensures { IfOk result (λ c. c ≡ insert_of key held.now) }
{
    match held.state {
        State::New => {
            let row = held.row.copy(alloc)?;
            Ok(Some(Change::Insert { key, row }))
        }
        State::Managed | State::Removed => Ok(None),
    }
}

/// The update of a managed instance whose cells differ from those of its base; none of any other instance. Fails for
/// want of memory alone.
pub fn update(alloc: Global, key: Key, held: &Held) -> Result<Option<Change>, AllocError>
    ensures { IfOk result (λ c. c ≡ update_of key held.now) }
{
    match (held.state, &held.base) {
        (State::Managed, Some(base)) => update_from(alloc, key, base, &held.row),
        _ => Ok(None),
    }
}

/// The update that brings this base to this row; none if their cells are equal.
fn update_from(alloc: Global, key: Key, base: &Row, row: &Row) -> Result<Option<Change>, AllocError>
    ensures { IfOk result (λ c. c ≡ update_by State.Managed key row.now (Some base.now)) }
{
    if are_same_cells(&row.cells, &base.cells) {
        return Ok(None);
    }
    let mut new = row.copy(alloc)?;
    new.version = version_after(base.version);
    Ok(Some(Change::Update {
        key,
        expected: base.version,
        row: new,
    }))
}

/// The delete of a removed instance, with the version of its base; none of any other instance.
pub fn delete(key: Key, held: &Held) -> Option<Change>
    ensures { result ≡ delete_of key held.now }
{
    match (held.state, &held.base) {
        (State::Removed, Some(base)) => Some(Change::Delete {
            key,
            expected: base.version,
        }),
        _ => None,
    }
}

/// The change that is pending of an instance, or none: the row is new, its cells differ from those of its base, or it
/// is to be deleted. Fails for want of memory alone.
pub fn change(alloc: Global, key: Key, held: &Held) -> Result<Option<Change>, AllocError>
    ensures { IfOk result (λ c. c ≡ change_of key held.now) }
{
    match held.state {
        State::New => insert(alloc, key, held),
        State::Managed => update(alloc, key, held),
        State::Removed => Ok(delete(key, held)),
    }
}
