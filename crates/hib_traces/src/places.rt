//! When an answer may be the row of a commit.
ghost use Rattle.hib_traces.specs.Making.{AreAlike, AreSorted, IsPlaceOf, covers_next};
ghost use Rattle.hib_traces.specs.Places.{AreInOrder, ArePlaces, Tell, is_within};
ghost use Rattle.hib_traces.specs.Stands.{Remembers};
ghost use Rattle.std.specs.List.Sorted.{IsPermutation};
ghost use Rattle.std.specs.Prelude.{◌≡◌, IfOk};

use crate::order::Order;
use crate::times::{gone_by, ready_of};
use hib_trace_law::Commit;
use std::alloc::{AllocError, Global};

/// When an answer may be the row of a commit.
#[derive(Clone, Copy, Debug, PartialEq, Eq)]
pub struct Place {
    /// The row.
    pub row: usize,
    /// The first instant for which the row isn't too new.
    pub ready: u64,
    /// When the row had certainly been replaced, if it was.
    pub gone: Option<u64>,
}

// The place of a commit.
fn place_of(order: &Order, commit: &Commit) -> Place
    requires { Remembers order.now }
    ensures { IsPlaceOf order.now.commits.items commit.now result }
{
    Place {
        row: commit.row,
        ready: ready_of(order, commit),
        gone: gone_by(order, commit),
    }
}

// The place of each commit.
fn each_place(alloc: Global, order: &Order, sources: &[Commit]) -> Result<Vec<Place>, AllocError>
    requires { Remembers order.now }
    ensures { IfOk result (λ v. Tell order.now.commits.items sources.now v.items) }
{
    let mut places = Vec::new(alloc);
    for commit in sources {
        places.push(place_of(order, commit))?;
    }
    Ok(places)
}

// Places in the order of their rows, and those of a row from the one that is ready first.
fn sorted_places(places: Vec<Place>) -> Result<Vec<Place>, AllocError>
    ensures same { IfOk result (λ v. IsPermutation places.items v.items) }
    ensures sorted { IfOk result (λ v. AreSorted v.items) }
{
    let mut sorted = places;
    sorted.sort_by_key(|place| (place.row, place.ready))?;
    Ok(sorted)
}

// Whether a number is no greater than another one, if none is the greatest.
fn is_no_later(number: Option<u64>, limit: Option<u64>) -> bool
    ensures { result ≡ is_within number limit }
{
    match limit {
        None => true,
        Some(most) => match number {
            None => false,
            Some(one) => one <= most,
        },
    }
}

// Whether the last place says all that the next one says: it has the same row, and is gone no earlier.
fn covers(kept: &[Place], next: &Place) -> bool
    ensures { result ≡ covers_next kept.now next.now }
{
    let count = kept.len();
    count != 0 && kept[count - 1].row == next.row && is_no_later(next.gone, kept[count - 1].gone)
}

// The places that matter: the later one of a row is ready, the later it is gone.
fn that_matter(alloc: Global, places: &[Place]) -> Result<Vec<Place>, AllocError>
    requires { AreSorted places.now }
    ensures same { IfOk result (λ v. AreAlike v.items places.now) }
    ensures order { IfOk result (λ v. AreInOrder v.items) }
{
    let mut kept = Vec::new(alloc);
    for place in places {
        let next = *place;
        if !covers(&kept, &next) {
            kept.push(next)?;
        }
    }
    Ok(kept)
}

/// Places in order, which answer each question as these do.
pub fn ordered(alloc: Global, places: Vec<Place>) -> Result<Vec<Place>, AllocError>
    ensures same { IfOk result (λ v. AreAlike v.items places.items) }
    ensures order { IfOk result (λ v. AreInOrder v.items) }
{
    let sorted = sorted_places(places)?;
    that_matter(alloc, &sorted)
}

/// When an answer may be the row of one of these sources, by the commits that are remembered. A source needn't be one of
/// them.
pub fn places_of(alloc: Global, order: &Order, sources: &[Commit]) -> Result<Vec<Place>, AllocError>
    requires { Remembers order.now }
    ensures { IfOk result (λ v. ArePlaces order.now.commits.items sources.now v.items) }
{
    ordered(alloc, each_place(alloc, order, sources)?)
}
