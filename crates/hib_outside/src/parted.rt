//! Rows in order of keys, parted at a place: those behind it stand in a list of their own, the last one first. Near the
//! place rows come and go without moving others.
ghost use Rattle.std.specs.Prelude.{◌≡◌, ◌+◌, ◌≤◌, ◌<◌, true, false, length, reverse, Err, vec_len, vec_capacity};
ghost use Rattle.hib_base.specs.declared.numbers.Key.{Key as KeyOf};
ghost use Rattle.hib_base.specs.Tables.{in_order, tables_with};
ghost use Rattle.hib_outside.specs.Parted.{joined, ends_before, first_same, unless_first};
ghost use Rattle.hib_outside.specs.Places.{place_in};

use crate::keyed::{comes_before, is_same};
use hib_base::{Key, Row};

/// Whether the last row's key comes before a key.
fn is_last_before(rows: &[(Key, Row)], key: &Key) -> bool
    ensures value { result ≡ ends_before rows.now key.now }
    ensures some { result ≡ true → 0 < length rows.now }
{
    let count = rows.len();
    count > 0 && comes_before(&rows[count - 1].0, key)
}

/// Whether there is a last row whose key doesn't come before a key.
fn is_last_behind(rows: &[(Key, Row)], key: &Key) -> bool
    requires { in_order rows.now ≡ true }
    ensures some { result ≡ true → 0 < length rows.now }
    ensures last { result ≡ true → ends_before rows.now key.now ≡ false }
    ensures none { result ≡ false → place_in rows.now key.now ≡ Err (length rows.now) }
{
    let count = rows.len();
    count > 0 && !is_last_before(rows, key)
}

/// Moves the last row of the one list to the end of the other. There must be one, and room for it.
fn move_last(from: &mut Vec<(Key, Row)>, to: &mut Vec<(Key, Row)>)
    requires some { 0 < vec_len from.old }
    requires room { vec_len to.old < vec_capacity to.old }
    ensures ahead { joined from.new.items to.new.items ≡ joined from.old.items to.old.items }
    ensures behind { joined to.new.items from.new.items ≡ joined to.old.items from.old.items }
    ensures last { (k : KeyOf) → ends_before to.new.items k ≡ ends_before from.old.items k }
    ensures less { vec_len from.new + 1 ≡ vec_len from.old }
    ensures more { vec_len to.new ≡ vec_len to.old + 1 }
    ensures from_capacity { vec_capacity from.new ≡ vec_capacity from.old }
    ensures to_capacity { vec_capacity to.new ≡ vec_capacity to.old }
{
    let Some(entry) = from.pop() else {
        return;
    };
    to.push_reserved(entry);
}

/// Moves the rows before the place whose keys come before this key, and that stand behind it. There must be room for
/// them.
fn gather_before(front: &mut Vec<(Key, Row)>, back: &mut Vec<(Key, Row)>, key: &Key)
    requires room { vec_len front.old + vec_len back.old ≤ vec_capacity front.old }
    ensures rows { joined front.new.items back.new.items ≡ joined front.old.items back.old.items }
    ensures next { ends_before back.new.items key.now ≡ false }
    ensures len { vec_len front.new + vec_len back.new ≡ vec_len front.old + vec_len back.old }
    ensures front_capacity { vec_capacity front.new ≡ vec_capacity front.old }
    ensures back_capacity { vec_capacity back.new ≡ vec_capacity back.old }
{
    'gather: while is_last_before(back.as_slice(), key) {
        move_last(back, front);
    }
}

/// Moves the rows behind the place whose keys don't come before this key, and that stand before it. There must be room
/// for them.
fn give_behind(front: &mut Vec<(Key, Row)>, back: &mut Vec<(Key, Row)>, key: &Key)
    requires ordered { in_order (joined front.old.items back.old.items) ≡ true }
    requires next { ends_before back.old.items key.now ≡ false }
    requires room { vec_len front.old + vec_len back.old ≤ vec_capacity back.old }
    ensures rows { joined front.new.items back.new.items ≡ joined front.old.items back.old.items }
    ensures next { ends_before back.new.items key.now ≡ false }
    ensures before { place_in front.new.items key.now ≡ Err (length front.new.items) }
    ensures len { vec_len front.new + vec_len back.new ≡ vec_len front.old + vec_len back.old }
    ensures front_capacity { vec_capacity front.new ≡ vec_capacity front.old }
    ensures back_capacity { vec_capacity back.new ≡ vec_capacity back.old }
{
    'give: while is_last_behind(front.as_slice(), key) {
        move_last(front, back);
    }
}

/// Whether the last row is that of a key.
fn is_last_same(rows: &[(Key, Row)], key: &Key) -> bool
    ensures { result ≡ first_same (reverse rows.now) key.now }
{
    let count = rows.len();
    count > 0 && is_same(&rows[count - 1].0, key)
}

/// Drops the row just behind the place, if it is that of this key.
fn drop_same(back: &mut Vec<(Key, Row)>, key: &Key)
    ensures rows { reverse back.new.items ≡ unless_first key.now (reverse back.old.items) }
    ensures len { vec_len back.new ≤ vec_len back.old }
    ensures capacity { vec_capacity back.new ≡ vec_capacity back.old }
{
    if is_last_same(back.as_slice(), key) {
        let Some(_entry) = back.pop() else {
            return;
        };
    }
}

/// Gives a key this row, or takes its row out if no row is given. The rows are parted there afterwards. There must be
/// room for one row more.
pub fn set(front: &mut Vec<(Key, Row)>, back: &mut Vec<(Key, Row)>, key: Key, row: Option<Row>)
    requires ordered { in_order (joined front.old.items back.old.items) ≡ true }
    requires front_room { vec_len front.old + vec_len back.old < vec_capacity front.old }
    requires back_room { vec_len front.old + vec_len back.old < vec_capacity back.old }
    ensures rows { joined front.new.items back.new.items
        ≡ tables_with (joined front.old.items back.old.items) key row }
    ensures len { vec_len front.new + vec_len back.new ≤ vec_len front.old + vec_len back.old + 1 }
    ensures front_capacity { vec_capacity front.new ≡ vec_capacity front.old }
    ensures back_capacity { vec_capacity back.new ≡ vec_capacity back.old }
{
    gather_before(front, back, &key);
    give_behind(front, back, &key);
    drop_same(back, &key);
    if let Some(row) = row {
        front.push_reserved((key, row));
    }
}

/// Moves all rows before the place. There must be room for them.
pub fn join(front: &mut Vec<(Key, Row)>, back: &mut Vec<(Key, Row)>)
    requires room { vec_len front.old + vec_len back.old ≤ vec_capacity front.old }
    ensures { front.new.items ≡ joined front.old.items back.old.items }
{
    'join: while !back.is_empty() {
        move_last(back, front);
    }
}
