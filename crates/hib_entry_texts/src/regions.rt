// The acts on regions that bytes look like; for `acts`.
ghost use Rattle.hib_entry_fields.specs.Fields.{key_at};
ghost use Rattle.hib_entry_texts.specs.Acts as format;
ghost use Rattle.std.specs.Prelude.{◌≡◌, IfOk};

use hib_base::{Act, Key, Script, Tick};
use hib_entry_fields::{is, key_at, next, number_of, row_at, version_of};
use std::alloc::{AllocError, Global};

// A key, and the number after a label, at the front of some bytes.
fn marked(script: &Script, bytes: &[u8]) -> (Key, Tick)
    ensures key { result.0 ≡ key_at script.now bytes.now }
    ensures number { result.1 ≡ format.marked bytes.now }
{
    let (key, rest) = key_at(script, bytes);
    let (_, rest) = next(rest);
    let (number, _) = next(rest);
    (key, Tick(number_of(number)))
}

fn get_of(script: &Script, bytes: &[u8]) -> Act
    ensures { result ≡ format.get_of script.now bytes.now }
{
    let (key, time) = marked(script, bytes);
    Act::Get { key, time }
}

fn put_of(alloc: Global, script: &Script, bytes: &[u8]) -> Result<Act, AllocError>
    ensures { IfOk result (λ a. a ≡ format.put_of script.now bytes.now) }
{
    let (key, rest) = key_at(script, bytes);
    let (row, rest) = row_at(alloc, rest)?;
    let (_, rest) = next(rest);
    let (time, rest) = next(rest);
    let (_, rest) = next(rest);
    let (floor, _) = next(rest);
    Ok(Act::Put {
        key,
        row,
        time: Tick(number_of(time)),
        floor: Tick(number_of(floor)),
    })
}

fn lock_of(script: &Script, bytes: &[u8]) -> Act
    ensures { result ≡ format.lock_of script.now bytes.now }
{
    let (key, rest) = key_at(script, bytes);
    let (version, rest) = next(rest);
    let (_, rest) = next(rest);
    let (floor, _) = next(rest);
    Act::Lock {
        key,
        version: version_of(version),
        floor: Tick(number_of(floor)),
    }
}

fn unlock_of(script: &Script, bytes: &[u8]) -> Act
    ensures { result ≡ format.unlock_of script.now bytes.now }
{
    let (key, lock) = marked(script, bytes);
    Act::Unlock { key, lock }
}

fn after_insert_of(alloc: Global, script: &Script, bytes: &[u8]) -> Result<Act, AllocError>
    ensures { IfOk result (λ a. a ≡ format.after_insert_of script.now bytes.now) }
{
    let (key, rest) = key_at(script, bytes);
    let (row, rest) = row_at(alloc, rest)?;
    let (_, rest) = next(rest);
    let (floor, _) = next(rest);
    Ok(Act::AfterInsert {
        key,
        row,
        floor: Tick(number_of(floor)),
    })
}

fn after_update_of(alloc: Global, script: &Script, bytes: &[u8]) -> Result<Act, AllocError>
    ensures { IfOk result (λ a. a ≡ format.after_update_of script.now bytes.now) }
{
    let (key, rest) = key_at(script, bytes);
    let (_, rest) = next(rest);
    let (lock, rest) = next(rest);
    let (row, _) = row_at(alloc, rest)?;
    Ok(Act::AfterUpdate {
        key,
        lock: Tick(number_of(lock)),
        row,
    })
}

/// The act on a region that bytes look like, by its word and what follows.
pub fn region_act(
    alloc: Global,
    script: &Script,
    word: &[u8],
    bytes: &[u8],
) -> Result<Act, AllocError>
    ensures { IfOk result (λ a. a ≡ format.region_act script.now word.now bytes.now) }
{
    if is(word, b"get") {
        Ok(get_of(script, bytes))
    } else if is(word, b"put") {
        put_of(alloc, script, bytes)
    } else if is(word, b"lock") {
        Ok(lock_of(script, bytes))
    } else if is(word, b"unlock") {
        Ok(unlock_of(script, bytes))
    } else if is(word, b"after-insert") {
        after_insert_of(alloc, script, bytes)
    } else if is(word, b"after-update") {
        after_update_of(alloc, script, bytes)
    } else if is(word, b"remove") {
        Ok(Act::RegionRemove {
            key: key_at(script, bytes).0,
        })
    } else {
        Ok(Act::Evict {
            key: key_at(script, bytes).0,
        })
    }
}
