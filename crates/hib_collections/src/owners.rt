// Which members a query asks for, and which owners' members a change may change. So `before` knows what to ask a
// collection for, and whom to lock.
ghost use Rattle.std.specs.Prelude.{◌≡◌, ◌≤◌, ◌++◌, ◌==◌, [], if◌then◌else◌, Some, None, find, not, map, length};
ghost use Rattle.std.specs.Prelude.{option_copied, option_to_list};
ghost use Rattle.hib_base.specs.Tables.{key_of};
ghost use Rattle.hib_base.specs.declared.rows.Cell.{Cell};
ghost use Rattle.hib_journal.specs.Query.{same_cell};
ghost use Rattle.hib_collections_law.specs.Members as Members;
ghost use Rattle.hib_collections_law.specs.Gathered as Gathered;
ghost use Rattle.hib_collections_law.specs.Types.{max_collections};
ghost use Rattle.hib_collections_law.specs.Gathered.{is_locked, owners_from};

use crate::locks::Locks;
use crate::places::OwnerPlace;
use hib_base::{Cell, Change, Cond, Op, Path, Query, Row, Select};
use hib_collections_law::{Def, Defs};

/// The owner that the number in a referring cell names; none below 1.
fn owner_in(number: i64) -> Option<u64>
    ensures { option_to_list result ≡ Gathered.owner_by (Some (Cell.Int number)) }
{
    if number >= 1 {
        Some(number as u64)
    } else {
        None
    }
}

/// The owner to which a cell refers.
fn owner_by(cell: Option<&Cell>) -> Option<u64>
    ensures { option_to_list result ≡ Gathered.owner_by (option_copied cell.entry) }
{
    match cell {
        Some(Cell::Int(number)) => owner_in(*number),
        _ => None,
    }
}

/// The owner to which a row refers.
fn owner_of(def: &Def, row: &Row) -> Option<u64>
    ensures { option_to_list result ≡ Gathered.owner_of def.now row.now }
{
    owner_by(row.cells.as_slice().get(usize::from(def.column)))
}

/// The owner to which the old row refers, if there is one.
fn old_owner(def: &Def, old: Option<&Row>) -> Option<u64>
    ensures { option_to_list result ≡ Gathered.old_owner def.now (option_copied old.entry) }
{
    match old {
        Some(row) => owner_of(def, row),
        None => None,
    }
}

#[tactic(auto, using(crate::proofs::Compared::cells_are_same))]
fn is_same(a: &Cell, b: &Cell) -> bool
    ensures { result ≡ same_cell a.now b.now }
{
    *a == *b
}

/// Whether two cells are there and the same.
fn same_in(a: Option<&Cell>, b: Option<&Cell>) -> bool
    ensures { result ≡ Gathered.same_in (option_copied a.entry) (option_copied b.entry) }
{
    match (a, b) {
        (Some(a), Some(b)) => is_same(a, b),
        _ => false,
    }
}

/// Whether an update leaves the column as it was.
fn leaves_column(def: &Def, old: Option<&Row>, row: &Row) -> bool
    ensures { result ≡ Gathered.leaves_column def.now (option_copied old.entry) row.now }
{
    let column = usize::from(def.column);
    match old {
        Some(old) => same_in(
            old.cells.as_slice().get(column),
            row.cells.as_slice().get(column),
        ),
        None => false,
    }
}

/// The owners whose members a change may change: the one of the row that was there, and the one of the new row.
fn owners(def: &Def, old: Option<&Row>, change: &Change) -> (Option<u64>, Option<u64>)
    ensures { option_to_list result.0 ++ option_to_list result.1
        ≡ Gathered.owners def.now (option_copied old.entry) change.now }
{
    match change {
        Change::Insert { row, .. } => (None, owner_of(def, row)),
        Change::Update { row, .. } => {
            if leaves_column(def, old, row) {
                (None, None)
            } else {
                (old_owner(def, old), owner_of(def, row))
            }
        }
        Change::Delete { .. } => (old_owner(def, old), None),
    }
}

/// This owner of a collection, if there is one and the session hasn't locked it.
fn free(locks: &Locks, collection: u16, owner: Option<u64>) -> Option<OwnerPlace>
    ensures { result ≡ find (λ p. not (is_locked locks.now.held p))
        (map (λ o. (collection, o)) (option_to_list owner)) }
{
    let place = OwnerPlace {
        collection,
        owner: owner?,
    };
    if locks.has(place) { None } else { Some(place) }
}

/// The first of these owners of a collection that the session hasn't locked yet; none if it has locked them all.
fn first_free(
    locks: &Locks,
    collection: u16,
    owners: (Option<u64>, Option<u64>),
) -> Option<OwnerPlace>
    ensures { result ≡ find (λ p. not (is_locked locks.now.held p))
        (map (λ o. (collection, o)) (option_to_list owners.0 ++ option_to_list owners.1)) }
{
    match free(locks, collection, owners.0) {
        Some(place) => Some(place),
        None => free(locks, collection, owners.1),
    }
}

/// The first owner of one collection that is to be locked before a change is written.
fn free_in(
    locks: &Locks,
    def: &Def,
    collection: u16,
    old: Option<&Row>,
    change: &Change,
) -> Option<OwnerPlace>
    ensures { result ≡ find (λ p. not (is_locked locks.now.held p))
        (if (key_of change.now).entity == def.now.entity
        then map (λ o. (collection, o)) (Gathered.owners def.now (option_copied old.entry) change.now)
        else []) }
{
    if change.key().entity == def.entity {
        first_free(locks, collection, owners(def, old, change))
    } else {
        None
    }
}

/// The first owner, of any collection, that is to be locked before a change is written; `old` is the row that was
/// there. None if all are locked.
pub fn to_lock(defs: &Defs, change: &Change, old: Option<&Row>, locks: &Locks) -> Option<OwnerPlace>
    requires few { length defs.now ≤ max_collections }
    ensures { result ≡ find (λ p. not (is_locked locks.now.held p))
        (owners_from 0 defs.now (option_copied old.entry) change.now) }
{
    for (at, def) in defs.as_slice().iter().enumerate() {
        if let Some(place) = free_in(locks, def, at as u16, old, change) {
            return Some(place);
        }
    }
    None
}

/// Whether a query lists identifiers, as one that asks for members must.
fn lists_ids(select: Select) -> bool
    ensures { result ≡ Members.lists_ids select }
{
    match select {
        Select::Ids => true,
        Select::Count | Select::Column(_) => false,
    }
}

/// Whether a query says no more than one that asks for members may: it is uncached, unordered and uncut, and lists
/// identifiers.
fn is_bare(def: &Def, query: &Query) -> bool
    ensures { result ≡ Members.is_bare def.now query.now }
{
    !query.cached
        && query.entity == def.entity
        && query.order.is_empty()
        && query.offset == 0
        && query.limit == 200
        && lists_ids(query.select)
}

/// The number that a cell is, if it is at least 1.
fn number_in(cell: &Cell) -> Option<u64>
    ensures { option_to_list result ≡ Gathered.owner_by (Some cell.now) }
{
    owner_by(Some(cell))
}

/// The owner that a comparison names in the collection's column.
fn owner_tested(def: &Def, op: Op, path: Path, cell: &Cell) -> Option<u64>
    ensures { result ≡ Members.owner_said def.now (Some (Cond.Test op path cell.now)) }
{
    if op != Op::Eq || path.column != def.column || path.target.is_some() {
        return None;
    }
    number_in(cell)
}

/// The owner that a condition names in the collection's column.
fn owner_said(def: &Def, condition: &Option<Cond>) -> Option<u64>
    ensures { result ≡ Members.owner_said def.now condition.now }
{
    match condition {
        Some(Cond::Test { op, path, cell }) => owner_tested(def, *op, *path, cell),
        _ => None,
    }
}

/// The owner whose members of this collection a query asks for; none if it asks for something else.
fn owner_asked(def: &Def, query: &Query) -> Option<u64>
    ensures { result ≡ Members.owner_asked def.now query.now }
{
    if is_bare(def, query) {
        owner_said(def, &query.condition)
    } else {
        None
    }
}

/// The collection and the owner whose members a query asks for; none if it asks for something else.
pub fn asked(defs: &Defs, query: &Query) -> Option<OwnerPlace>
    requires few { length defs.now ≤ max_collections }
    ensures { result ≡ Members.asked defs.now query.now }
{
    for (at, def) in defs.as_slice().iter().enumerate() {
        if let Some(owner) = owner_asked(def, query) {
            return Some(OwnerPlace {
                collection: at as u16,
                owner,
            });
        }
    }
    None
}
