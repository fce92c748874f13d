// The acts on the store and on what is a session's own, that bytes look like; for `acts`.
ghost use Rattle.hib_entry_texts.specs.Acts as format;
ghost use Rattle.std.specs.Prelude.{◌≡◌, IfOk};

use hib_base::{Act, Change, Script};
use hib_entry_fields::{is, key_at, next, query_of, row_at, sets_of, version_of};
use std::alloc::{AllocError, Global};

fn persist_of(alloc: Global, script: &Script, bytes: &[u8]) -> Result<Act, AllocError>
    ensures { IfOk result (λ a. a ≡ format.persist_of script.now bytes.now) }
{
    let (key, rest) = key_at(script, bytes);
    let (row, _) = row_at(alloc, rest)?;
    Ok(Act::Persist { key, row })
}

fn set_of(alloc: Global, script: &Script, bytes: &[u8]) -> Result<Act, AllocError>
    ensures { IfOk result (λ a. a ≡ format.set_of script.now bytes.now) }
{
    let (key, rest) = key_at(script, bytes);
    let cells = sets_of(alloc, script, key.entity, rest)?;
    Ok(Act::Set { key, cells })
}

/// The act on what is a session's own that bytes look like, by its word and what follows.
pub fn own_act(alloc: Global, script: &Script, word: &[u8], bytes: &[u8]) -> Result<Act, AllocError>
    ensures { IfOk result (λ a. a ≡ format.own_act script.now word.now bytes.now) }
{
    if is(word, b"find") {
        Ok(Act::Find {
            key: key_at(script, bytes).0,
        })
    } else if is(word, b"persist") {
        persist_of(alloc, script, bytes)
    } else if is(word, b"set") {
        set_of(alloc, script, bytes)
    } else if is(word, b"remove") {
        Ok(Act::Remove {
            key: key_at(script, bytes).0,
        })
    } else {
        Ok(Act::Clear)
    }
}

fn insert_of(alloc: Global, script: &Script, bytes: &[u8]) -> Result<Act, AllocError>
    ensures { IfOk result (λ a. a ≡ format.insert_of script.now bytes.now) }
{
    let (key, rest) = key_at(script, bytes);
    let (row, _) = row_at(alloc, rest)?;
    Ok(Act::Write(Change::Insert { key, row }))
}

fn update_of(alloc: Global, script: &Script, bytes: &[u8]) -> Result<Act, AllocError>
    ensures { IfOk result (λ a. a ≡ format.update_of script.now bytes.now) }
{
    let (key, rest) = key_at(script, bytes);
    let (version, rest) = next(rest);
    let (row, _) = row_at(alloc, rest)?;
    Ok(Act::Write(Change::Update {
        key,
        expected: version_of(version),
        row,
    }))
}

fn delete_of(script: &Script, bytes: &[u8]) -> Act
    ensures { result ≡ format.delete_of script.now bytes.now }
{
    let (key, rest) = key_at(script, bytes);
    let (version, _) = next(rest);
    Act::Write(Change::Delete {
        key,
        expected: version_of(version),
    })
}

/// The act on the store that bytes look like, by its word and what follows.
pub fn store_act(
    alloc: Global,
    script: &Script,
    word: &[u8],
    bytes: &[u8],
) -> Result<Act, AllocError>
    ensures { IfOk result (λ a. a ≡ format.store_act script.now word.now bytes.now) }
{
    if is(word, b"load") {
        Ok(Act::Load {
            key: key_at(script, bytes).0,
        })
    } else if is(word, b"list") {
        Ok(Act::List {
            query: query_of(script, next(bytes).0),
        })
    } else if is(word, b"insert") {
        insert_of(alloc, script, bytes)
    } else if is(word, b"update") {
        update_of(alloc, script, bytes)
    } else if is(word, b"delete") {
        Ok(delete_of(script, bytes))
    } else if is(word, b"commit") {
        Ok(Act::Commit)
    } else {
        Ok(Act::Rollback)
    }
}
