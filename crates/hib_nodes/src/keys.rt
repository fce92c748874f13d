// The keys that a commit tells the other node of: those of read-write regions, each once.
ghost use Rattle.std.specs.Prelude.{◌≡◌, ◌==◌, IfOk, OnOk, length};
ghost use Rattle.std.specs.Map.{keys_of as keys_in};
ghost use Rattle.hib_journal.specs.Next.{keys_of, strategy};
ghost use Rattle.hib_completion.specs.Touched.{with_key};
ghost use Rattle.hib_nodes_law.specs.Nodes.{is_read_write};

use hib_base::{Change, Key, Script, Strategy, strategy_of};
use indexmap::IndexMap;
use std::alloc::{AllocError, Global};

/// Adds a key to the keys, unless it is there already.
fn note(keys: &mut IndexMap<Key, ()>, key: Key) -> Result<(), AllocError>
    ensures { OnOk result (keys_in keys.new.entries ≡ with_key key (keys_in keys.old.entries)) }
{
    if !keys.contains_key(&key) {
        keys.insert(key, ())?;
    }
    Ok(())
}

/// The keys of changes, in the order of their first change.
fn changed_keys(alloc: Global, changes: &[Change]) -> Result<IndexMap<Key, ()>, AllocError>
    ensures { IfOk result (λ m. keys_in m.entries ≡ keys_of changes.now) }
{
    let mut keys = IndexMap::new(alloc);
    for place in 0..changes.len() {
        note(&mut keys, changes[place].key())?;
    }
    Ok(keys)
}

/// Whether a key is of a read-write region. Others aren't told to the other node.
fn is_shared(script: &Script, key: &Key) -> bool
    ensures { result ≡ is_read_write (strategy script.now key.now.entity) }
{
    match strategy_of(script.mapping.as_slice(), key.entity) {
        Strategy::ReadWrite => true,
        _ => false,
    }
}

/// The keys of read-write regions among changes, in the order of their first change. Fails for want of memory alone.
pub fn shared_keys(
    alloc: Global,
    script: &Script,
    changes: &[Change],
) -> Result<Vec<Key>, AllocError>
    ensures { IfOk result (λ v. v.items
        ≡ Rattle.hib_nodes_law.specs.Nodes.shared_keys script.now changes.now) }
{
    let keys = changed_keys(alloc, changes)?;
    let mut shared = Vec::new(alloc);
    for key in keys.keys().as_slice() {
        if is_shared(script, key) {
            shared.push(*key)?;
        }
    }
    Ok(shared)
}
