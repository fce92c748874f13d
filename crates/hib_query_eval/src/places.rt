// The places of cells, in order: rows are found by them, by their cells' values.
ghost use Rattle.std.specs.Prelude.{◌≡◌, ◌<◌, ◌^◌, ℕ, ◌&&◌, ◌||◌, not, ◌++◌, false, map, Some, IfOk, OnOk};
ghost use Rattle.std.specs.List.{filter};
ghost use Rattle.std.specs.Ordering.{is_gt};
ghost use Rattle.hib_journal.specs.Types.{Cell as CellSpec};
ghost use Rattle.hib_query_eval.specs.Places.{cell_in, is_place, has_place};
ghost use Rattle.hib_query_eval.specs.Spans.{value_cmp, is_within};

use hib_base::Cell;
use std::alloc::{AllocError, Global};
use std::collections::BTreeSet;
use std::collections::btree_set::Range;
use std::ops::Bound;

/// A cell as an index orders it, or an end of a search.
#[derive(PartialEq, Eq, PartialOrd, Ord, Drop)]
pub enum Value {
    /// Below each cell.
    Least,
    /// A number.
    Int(i64),
    /// A text, which is above each number.
    Text(Vec<u8>),
    /// True or false, which are above each text.
    Bool(bool),
    /// Above each cell.
    Greatest,
}

/// The place of a cell among those of its column: in order of their values and then of identifiers.
#[derive(PartialEq, Eq, PartialOrd, Ord, Drop)]
pub struct Place {
    /// The cell.
    pub value: Value,
    /// The identifier of the cell's row.
    pub id: u64,
}

/// A cell as an index orders it.
pub fn value_of(alloc: Global, cell: &Cell) -> Result<Value, AllocError>
    ensures { IfOk result (λ v. cell_in v ≡ Some cell.now) }
{
    match cell {
        Cell::Int(n) => Ok(Value::Int(*n)),
        Cell::Text(text) => Ok(Value::Text(text.as_slice().to_vec(alloc)?)),
        Cell::Bool(b) => Ok(Value::Bool(*b)),
    }
}

/// The place of a cell. Its row has this identifier.
pub fn place_of(alloc: Global, id: u64, cell: &Cell) -> Result<Place, AllocError>
    ensures cell { IfOk result (λ p. cell_in p.value ≡ Some cell.now) }
    ensures id { IfOk result (λ p. p.id ≡ id) }
{
    Ok(Place {
        value: value_of(alloc, cell)?,
        id,
    })
}

/// Adds a place.
pub fn add_place(places: &mut BTreeSet<Place>, place: Place) -> Result<(), AllocError>
    ensures { OnOk result ((i : ℕ) (d : CellSpec)
        → has_place places.new.keys i d
        ≡ (is_place i d place || has_place places.old.keys i d)) }
{
    places.insert(place)?;
    Ok(())
}

/// Drops a place, if it is there.
pub fn drop_place(places: &mut BTreeSet<Place>, place: Place)
    ensures { (i : ℕ) (d : CellSpec)
        → has_place places.new.keys i d
        ≡ (not (is_place i d place) && has_place places.old.keys i d) }
{
    places.remove(&place);
}

/// The places of the cells that are at one of two values or between them, in order.
pub fn between(places: &BTreeSet<Place>, from: Value, to: Value) -> Range<'_, Place>
    requires { is_gt (value_cmp from to) ≡ false }
    ensures { result ≡ filter (is_within from to) places.now.keys }
{
    let first = Place { value: from, id: 0 };
    let last = Place {
        value: to,
        id: u64::MAX,
    };
    places.range((Bound::Included(first), Bound::Included(last)))
}

/// Adds the identifiers of the rows whose cell is at one of two values or between them.
pub fn add_between(
    places: &BTreeSet<Place>,
    from: Value,
    to: Value,
    ids: &mut Vec<u64>,
) -> Result<(), AllocError>
    requires { is_gt (value_cmp from to) ≡ false }
    ensures { OnOk result (ids.new.items
        ≡ ids.old.items ++ map (λ p. p.id) (filter (is_within from to) places.now.keys)) }
{
    for place in between(places, from, to) {
        ids.push(place.id)?;
    }
    Ok(())
}

/// Whether more cells than this are at one of two values or between them.
pub fn are_more(places: &BTreeSet<Place>, from: Value, to: Value, most: usize) -> bool
    requires { is_gt (value_cmp from to) ≡ false }
{
    let mut left = most;
    for _place in between(places, from, to) {
        if left == 0 {
            return true;
        }
        left -= 1;
    }
    false
}
