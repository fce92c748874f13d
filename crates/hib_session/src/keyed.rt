// Sets and maps of keys with room for one key more, so that a session's memory takes an entry without memory.
ghost use Rattle.std.specs.Prelude.{◌≡◌, ◌<◌, nat_lt};
ghost use Rattle.indexmap.specs.IndexMap.{insert_entry, spare as spare_of};
ghost use Rattle.indexmap.specs.IndexSet.{insert_key, spare};
ghost use Rattle.hib_base.specs.Keys.{same_key};
ghost use Rattle.hib_completion.specs.Completed.{is_key_in};

use hib_base::Key;
use indexmap::{IndexMap, IndexSet};

/// Whether a map has room for one key more.
pub fn has_room<V>(map: &IndexMap<Key, V>) -> bool
    ensures { result ≡ nat_lt 0 (spare_of map.now) }
{
    map.len() < map.capacity()
}

/// Whether a set has room for one key more.
pub fn has_room_in(keys: &IndexSet<Key>) -> bool
    ensures { result ≡ nat_lt 0 (spare keys.now) }
{
    keys.len() < keys.capacity()
}

/// Whether a key is in a set.
pub fn is_among(keys: &IndexSet<Key>, key: Key) -> bool
    ensures { result ≡ is_key_in key keys.now.keys }
{
    keys.contains(&key)
}

/// Gives a key of a map a value in place of the one that it has. There must be room for the key. It takes no memory.
pub fn put<V: Drop>(map: &mut IndexMap<Key, V>, key: Key, value: V)
    requires { 0 < spare_of map.old }
    ensures { map.new.entries ≡ insert_entry same_key map.old.entries key value }
{
    map.insert(key, value).unwrap();
}

/// Adds a key to a set. There must be room for it. It takes no memory.
pub fn add(keys: &mut IndexSet<Key>, key: Key)
    requires { 0 < spare keys.old }
    ensures { keys.new.keys ≡ insert_key same_key keys.old.keys key }
{
    keys.insert(key).unwrap();
}

/// Gives the memory of a set back, if it is empty.
pub fn give_back(keys: &mut IndexSet<Key>)
    ensures { keys.new.keys ≡ keys.old.keys }
{
    if keys.is_empty() {
        keys.shrink_to_fit();
    }
}
