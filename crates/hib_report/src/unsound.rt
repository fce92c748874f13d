// The keys of which the claims on the cache don't speak, which a report lists: they are unsound.

ghost use Rattle.std.specs.Prelude.{◌≡◌, ◌++◌, not, OnOk, IfOk, reverse, codes, flat_map};
ghost use Rattle.std.specs.List.{filter};
ghost use Rattle.hib_journal.specs.Sessions.{Journal};
ghost use Rattle.hib_journal.specs.Next.{strategy};
ghost use Rattle.hib_journal.specs.Sound.{is_sound};
ghost use Rattle.hib_texts.specs.Texts.{key_text};
ghost use Rattle.hib_report.specs.Watch.{Watches};
ghost use Rattle.hib_report.specs.Unsound.{named, is_read_write, with_key, with_unsound, keys_in, unsound, unsound_text};

use crate::watch::Watch;
use hib_base::{Act, EntityNo, Entry, Key, Script, Strategy, strategy_of};
use hib_listeners::key_in;
use hib_texts::{put_key, put_labelled};
use std::alloc::{AllocError, Global};
use std::collections::BTreeSet;

// The key that an act names, in a region or in a change of the store.
fn named(act: &Act) -> Option<Key>
    ensures { result ≡ named act.now }
{
    match act {
        Act::Write(change) => Some(change.key()),
        _ => key_in(act),
    }
}

fn is_read_write(script: &Script, entity: EntityNo) -> bool
    ensures { result ≡ is_read_write (strategy script.now entity) }
{
    strategy_of(script.mapping.as_slice(), entity) == Strategy::ReadWrite
}

// Adds a key to sorted ones, among which it stands once.
fn add_key(keys: &mut BTreeSet<Key>, key: Key) -> Result<(), AllocError>
    ensures { OnOk result (keys.new.keys ≡ with_key key keys.old.keys) }
{
    keys.insert(key)?;
    Ok(())
}

// What is known of keys after one pass over some entries.
fn watched(alloc: Global, entries: &[Entry]) -> Result<Watch, AllocError>
    ensures { IfOk result (λ w. Watches w.courses.entries w.written.entries (reverse entries.now)) }
{
    let mut watch = Watch::new(alloc);
    for entry in entries {
        watch.note(alloc, entry)?;
    }
    Ok(watch)
}

// Adds the key that an entry names, if it is one of a read-write entity and not sound.
fn add_unsound(
    keys: &mut BTreeSet<Key>,
    script: &Script,
    watch: &Watch,
    entry: &Entry,
) -> Result<(), AllocError>
    ensures { OnOk result ((past : Journal)
        → Watches watch.now.courses.entries watch.now.written.entries past
        → keys.new.keys ≡ with_unsound script.now past (named entry.now.act) keys.old.keys) }
{
    let Some(key) = named(&entry.act) else {
        return Ok(());
    };
    if is_read_write(script, key.entity) && !watch.is_sound(&key) {
        return add_key(keys, key);
    }
    Ok(())
}

// The read-write keys that some entries name and that are not sound, in order, each once.
fn unsound_named(
    alloc: Global,
    script: &Script,
    entries: &[Entry],
    watch: &Watch,
) -> Result<BTreeSet<Key>, AllocError>
    ensures { IfOk result (λ keys. (past : Journal)
        → Watches watch.now.courses.entries watch.now.written.entries past
        → keys.keys ≡ filter (λ k. not (is_sound k past)) (keys_in script.now
        (reverse entries.now))) }
{
    let mut keys = BTreeSet::new(alloc);
    for entry in entries {
        add_unsound(&mut keys, script, watch, entry)?;
    }
    Ok(keys)
}

/// The read-write keys that are not sound after these entries, in order. Where nothing was noted of any key, the
/// entries are gone over once.
pub fn unsound_keys(
    alloc: Global,
    script: &Script,
    entries: &[Entry],
) -> Result<BTreeSet<Key>, AllocError>
    ensures { IfOk result (λ keys. keys.keys ≡ unsound script.now (reverse entries.now)) }
{
    let watch = watched(alloc, entries)?;
    if watch.is_quiet() {
        return Ok(BTreeSet::new(alloc));
    }
    unsound_named(alloc, script, entries, &watch)
}

fn put_keys(
    alloc: Global,
    out: &mut Vec<u8>,
    script: &Script,
    keys: &BTreeSet<Key>,
) -> Result<(), AllocError>
    ensures { OnOk result (out.new.items
        ≡ out.old.items ++ flat_map (λ k. key_text script.now k ++ codes "\n") keys.now.keys) }
{
    for key in keys.iter() {
        put_key(alloc, out, script, *key)?;
        out.push(b'\n')?;
    }
    Ok(())
}

/// The number of unsound keys, and a line for each.
pub fn put_unsound(
    alloc: Global,
    out: &mut Vec<u8>,
    script: &Script,
    entries: &[Entry],
) -> Result<(), AllocError>
    ensures { OnOk result (out.new.items
        ≡ out.old.items ++ unsound_text script.now (reverse entries.now)) }
{
    let keys = unsound_keys(alloc, script, entries)?;
    put_labelled(alloc, out, b"unsound ", keys.len() as u64)?;
    out.extend_from_slice(b"\n")?;
    put_keys(alloc, out, script, &keys)
}
