//! What places answer.
ghost use Rattle.hib_traces.specs.Making.{is_behind, is_ready};
ghost use Rattle.hib_traces.specs.Places as told;
ghost use Rattle.hib_traces.specs.Places.{AreInOrder, stands_at, stands_by, is_at_least};
ghost use Rattle.hib_traces.specs.declared.places.Place.{Place};
ghost use Rattle.std.specs.List.{slice_index_or};
ghost use Rattle.std.specs.Prelude.{◌≡◌, ◌<◌, ◌≤◌, ℕ, false, length, true};

use crate::places::Place;

// Whether a place lies before a row that is answered at an instant, or at it.
fn is_ready(place: &Place, row: usize, end: u64) -> bool
    ensures { result ≡ is_ready row end place.now }
{
    place.row < row || (place.row == row && place.ready <= end)
}

// How many places lie before a row that is answered at an instant, or at it.
fn count_ready(places: &[Place], row: usize, end: u64) -> usize
    requires { AreInOrder places.now }
    ensures bound { result ≤ length places.now }
    ensures ready { (k : ℕ) (d : Place) → k < result → is_ready row end (slice_index_or places.now k d) ≡ true }
    ensures late { (k : ℕ) (d : Place) → result ≤ k → k < length places.now → is_ready row end (slice_index_or places.now k d) ≡ false }
{
    let mut low = 0;
    let mut high = places.len();
    while low < high {
        let middle = low + (high - low) / 2;
        if is_ready(&places[middle], row, end) {
            low = middle + 1;
        } else {
            high = middle;
        }
    }
    low
}

/// When a row that is answered by an instant was gone at the latest, by its places: None in `Some` if it never was, and
/// None if no place of it is ready then. It costs a search.
pub fn standing_at(places: &[Place], row: usize, end: u64) -> Option<Option<u64>>
    requires { AreInOrder places.now }
    ensures { (t : ℕ) → stands_at row end t places.now ≡ stands_by result t }
{
    let count = count_ready(places, row, end);
    if count == 0 {
        return None;
    }
    let last = &places[count - 1];
    if last.row == row {
        Some(last.gone)
    } else {
        None
    }
}

// Whether a place lies before those of a row, or is one that was gone before an instant.
fn is_behind(place: &Place, row: usize, instant: u64) -> bool
    ensures { result ≡ is_behind row instant place.now }
{
    if place.row != row {
        return place.row < row;
    }
    match place.gone {
        None => false,
        Some(gone) => gone < instant,
    }
}

// How many places lie before those of a row that weren't gone before an instant.
fn count_behind(places: &[Place], row: usize, instant: u64) -> usize
    requires { AreInOrder places.now }
    ensures bound { result ≤ length places.now }
    ensures behind { (k : ℕ) (d : Place) → k < result → is_behind row instant (slice_index_or places.now k d) ≡ true }
    ensures within { (k : ℕ) (d : Place) → result ≤ k → k < length places.now → is_behind row instant (slice_index_or places.now k d) ≡ false }
{
    let mut low = 0;
    let mut high = places.len();
    while low < high {
        let middle = low + (high - low) / 2;
        if is_behind(&places[middle], row, instant) {
            low = middle + 1;
        } else {
            high = middle;
        }
    }
    low
}

/// From when on a row that wasn't gone before an instant is ready, by its places. None if it was gone, or has no place.
/// It costs a search.
pub fn ready_at(places: &[Place], row: usize, instant: u64) -> Option<u64>
    requires { AreInOrder places.now }
    ensures { (e : ℕ) → stands_at row e instant places.now ≡ is_at_least result e }
{
    let count = count_behind(places, row, instant);
    if count < places.len() && places[count].row == row {
        Some(places[count].ready)
    } else {
        None
    }
}

/// Whether a row has a place. It costs a search.
pub fn has_row(places: &[Place], row: usize) -> bool
    requires { AreInOrder places.now }
    ensures { result ≡ told.has_row row places.now }
{
    let count = count_behind(places, row, 0);
    count < places.len() && places[count].row == row
}
