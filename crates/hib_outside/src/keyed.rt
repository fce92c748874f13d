//! Rows in order of keys: where a key's row stands, and how it is put there or taken out. A shelf and an index are such
//! rows.
ghost use Rattle.std.specs.Prelude.{◌≡◌, ◌+◌, ◌≤◌, ◌<◌, true, length, Ok, Err, MatchResult, vec_len, vec_capacity, option_copied};
ghost use Rattle.hib_base.specs.Keys.{same_key, is_before};
ghost use Rattle.hib_base.specs.Tables.{in_order, row_at, with_row, without_row};
ghost use Rattle.hib_outside.specs.Places.{place_in};

use hib_base::{Key, Row};

pub(crate) fn is_same(a: &Key, b: &Key) -> bool
    ensures { result ≡ same_key a.now b.now }
{
    a == b
}

/// Whether a key comes before another: by entity, then by identifier.
#[inline]
pub fn comes_before(a: &Key, b: &Key) -> bool
    ensures { result ≡ is_before a.now b.now }
{
    a.entity.0 < b.entity.0 || (a.entity.0 == b.entity.0 && a.id < b.id)
}

/// Whether a key comes after the last row's, and so belongs behind all rows.
fn belongs_last(rows: &[(Key, Row)], key: &Key) -> bool
    requires { in_order rows.now ≡ true }
    ensures { result ≡ true → place_in rows.now key.now ≡ Err (length rows.now) }
{
    let count = rows.len();
    count > 0 && comes_before(&rows[count - 1].0, key)
}

/// Whether a key comes before the first row's, and so belongs before all rows.
fn belongs_first(rows: &[(Key, Row)], key: &Key) -> bool
    ensures { result ≡ true → place_in rows.now key.now ≡ Err 0 }
{
    !rows.is_empty() && comes_before(key, &rows[0].0)
}

/// Where a key's row stands if the identifiers of its entity follow one another without a gap. It is tried before a
/// search. What is found doesn't depend on it.
fn likely_place(rows: &[(Key, Row)], key: &Key) -> usize {
    let mut from = 0;
    let mut to = rows.len();
    while from < to {
        let middle = from + (to - from) / 2;
        let here = &rows[middle].0;
        if here.entity == key.entity {
            return (middle as u64).wrapping_add(key.id.wrapping_sub(here.id)) as usize;
        }
        if here.entity.0 < key.entity.0 {
            from = middle + 1;
        } else {
            to = middle;
        }
    }
    rows.len()
}

/// Whether there is a row at this place, and it is that of the key.
fn stands_at(rows: &[(Key, Row)], key: &Key, at: usize) -> bool
    requires { in_order rows.now ≡ true }
    ensures place { result ≡ true → place_in rows.now key.now ≡ Ok at }
    ensures within { result ≡ true → at < length rows.now }
{
    at < rows.len() && is_same(&rows[at].0, key)
}

/// The place of a key's row, or else the place where it belongs. The rows must stand in order of keys. It is a search
/// by halves, unless the key belongs before or behind all rows, or the identifiers of its entity follow one another.
pub fn find(rows: &[(Key, Row)], key: &Key) -> Result<usize, usize>
    requires { in_order rows.now ≡ true }
    ensures place { result ≡ place_in rows.now key.now }
    ensures within { MatchResult result (λ i. i < length rows.now) (λ i. i ≤ length rows.now) }
{
    if belongs_last(rows, key) {
        return Err(rows.len());
    }
    if belongs_first(rows, key) {
        return Err(0);
    }
    let likely = likely_place(rows, key);
    if stands_at(rows, key, likely) {
        return Ok(likely);
    }
    let mut low = 0;
    let mut high = rows.len();
    while low < high {
        let middle = low + (high - low) / 2;
        let here = &rows[middle].0;
        if is_same(here, key) {
            return Ok(middle);
        }
        if comes_before(here, key) {
            low = middle + 1;
        } else {
            high = middle;
        }
    }
    Err(low)
}

/// The row of a key, if it has one. The rows must stand in order of keys.
pub fn row_of<'a>(rows: &'a [(Key, Row)], key: &Key) -> Option<&'a Row>
    requires { in_order rows.now ≡ true }
    ensures { option_copied result ≡ row_at rows.now key.now }
{
    match find(rows, key) {
        Ok(at) => Some(&rows[at].1),
        Err(_) => None,
    }
}

/// Gives a key a row. There must be room for one more.
pub fn put(rows: &mut Vec<(Key, Row)>, key: Key, row: Row)
    requires ordered { in_order rows.old.items ≡ true }
    requires room { vec_len rows.old < vec_capacity rows.old }
    ensures rows { rows.new.items ≡ with_row rows.old.items key row }
    ensures len { vec_len rows.new ≤ vec_len rows.old + 1 }
    ensures capacity { vec_capacity rows.new ≡ vec_capacity rows.old }
{
    match find(rows.as_slice(), &key) {
        Ok(at) => rows[at] = (key, row),
        Err(at) => {
            if rows.insert(at, (key, row)).is_err() {
                unreachable!();
            }
        }
    }
}

/// Takes a key's row out, if it has one.
pub fn take_out(rows: &mut Vec<(Key, Row)>, key: &Key)
    requires { in_order rows.old.items ≡ true }
    ensures rows { rows.new.items ≡ without_row rows.old.items key.now }
    ensures len { vec_len rows.new ≤ vec_len rows.old }
    ensures capacity { vec_capacity rows.new ≡ vec_capacity rows.old }
{
    if let Ok(at) = find(rows.as_slice(), key) {
        rows.remove(at);
    }
}
