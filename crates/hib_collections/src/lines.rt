// The text of a journal with collections, which `collect` prints.
ghost use Rattle.std.specs.Prelude.{◌≡◌, ◌≤◌, ◌++◌, OnOk, IfOk, flat_map, length};
ghost use Rattle.hib_collections.specs.Counted.{total_text};
ghost use Rattle.hib_collections.specs.Text.{counts_text, entry_text, gathered_text, member_act_text};
ghost use Rattle.hib_collections.specs.Text.{member_reply_text, member_text, numbers_text, owner_text};

use crate::counting::{Counts, counts_of};
use crate::gathered::Gathered;
use hib_base::{Bytes, Reply, Script, Seq};
use hib_collections_law::{Def, Defs, GatherEntry, MemberAct, MemberEntry};
use hib_report::{line, put_reply};
use hib_texts::{put_labelled, put_list, put_number, put_session};
use std::alloc::{AllocError, Global};

/// Adds a collection's name and an owner, as each act at an owner has them.
fn put_owner(
    alloc: Global,
    out: &mut Vec<u8>,
    defs: &Defs,
    collection: u16,
    owner: u64,
) -> Result<(), AllocError>
    ensures { OnOk result (out.new.items
        ≡ out.old.items ++ owner_text defs.now collection owner) }
{
    if let Some(def) = defs.as_slice().get(usize::from(collection)) {
        out.extend_from_slice(def.name.as_slice())?;
    }
    out.extend_from_slice(b" ")?;
    put_number(alloc, out, owner)
}

/// Adds an act at an owner.
fn put_act(
    alloc: Global,
    out: &mut Vec<u8>,
    defs: &Defs,
    entry: &MemberEntry,
) -> Result<(), AllocError>
    ensures { OnOk result (out.new.items ≡ out.old.items
        ++ member_act_text (owner_text defs.now entry.now.collection entry.now.owner)
        entry.now.act) }
{
    match &entry.act {
        MemberAct::Get { time } => {
            out.extend_from_slice(b"get ")?;
            put_owner(alloc, out, defs, entry.collection, entry.owner)?;
            put_labelled(alloc, out, b" at ", time.0)
        }
        MemberAct::Put { list, time, floor } => {
            out.extend_from_slice(b"put ")?;
            put_owner(alloc, out, defs, entry.collection, entry.owner)?;
            out.extend_from_slice(b" ")?;
            put_list(alloc, out, list)?;
            put_labelled(alloc, out, b" at ", time.0)?;
            put_labelled(alloc, out, b" floor ", floor.0)
        }
        MemberAct::Lock { floor } => {
            out.extend_from_slice(b"lock ")?;
            put_owner(alloc, out, defs, entry.collection, entry.owner)?;
            put_labelled(alloc, out, b" v- floor ", floor.0)
        }
        MemberAct::Unlock { lock } => {
            out.extend_from_slice(b"unlock ")?;
            put_owner(alloc, out, defs, entry.collection, entry.owner)?;
            put_labelled(alloc, out, b" lock ", lock.0)
        }
    }
}

/// Adds what the region of a collection answered. Its rows have the members of an owner as cells, so a row is printed
/// as a list.
fn put_answer(
    alloc: Global,
    out: &mut Vec<u8>,
    script: &Script,
    reply: &Reply,
) -> Result<(), AllocError>
    ensures { OnOk result (out.new.items
        ≡ out.old.items ++ member_reply_text script.now reply.now) }
{
    match reply {
        Reply::Hit(row) => {
            out.extend_from_slice(b"hit ")?;
            put_list(alloc, out, &row.cells)
        }
        _ => put_reply(alloc, out, script, reply),
    }
}

/// Adds the line of an entry on a collection's region, without its end.
fn put_member(
    alloc: Global,
    out: &mut Vec<u8>,
    script: &Script,
    defs: &Defs,
    entry: &MemberEntry,
) -> Result<(), AllocError>
    ensures { OnOk result (out.new.items
        ≡ out.old.items ++ member_text script.now defs.now entry.now) }
{
    put_number(alloc, out, entry.tick.0)?;
    out.extend_from_slice(b" ")?;
    put_session(out, script, entry.session)?;
    out.extend_from_slice(b" members ")?;
    put_act(alloc, out, defs, entry)?;
    out.extend_from_slice(b" = ")?;
    put_answer(alloc, out, script, &entry.reply)
}

/// Adds the line of an entry, and its end.
fn put_entry(
    alloc: Global,
    out: &mut Vec<u8>,
    script: &Script,
    defs: &Defs,
    entry: &GatherEntry,
) -> Result<(), AllocError>
    ensures { OnOk result (out.new.items
        ≡ out.old.items ++ entry_text script.now defs.now entry.now) }
{
    match entry {
        GatherEntry::Plain(entry) => {
            let text = line(alloc, script, entry)?;
            out.extend_from_slice(text.as_slice())?;
        }
        GatherEntry::Member(entry) => put_member(alloc, out, script, defs, entry)?,
    }
    out.extend_from_slice(b"\n")
}

/// Adds the four numbers of a collection's line, and its end.
fn put_numbers(alloc: Global, out: &mut Vec<u8>, counts: &Counts) -> Result<(), AllocError>
    ensures { OnOk result (out.new.items ≡ out.old.items
        ++ numbers_text counts.now.hits counts.now.misses counts.now.puts counts.now.locks) }
{
    put_labelled(alloc, out, b" hits ", counts.hits as u64)?;
    put_labelled(alloc, out, b" misses ", counts.misses as u64)?;
    put_labelled(alloc, out, b" puts ", counts.puts as u64)?;
    put_labelled(alloc, out, b" locks ", counts.locks as u64)?;
    out.extend_from_slice(b"\n")
}

/// Adds the line of a collection, with what the entries come to for it.
fn put_count(alloc: Global, out: &mut Vec<u8>, def: &Def, counts: &Counts) -> Result<(), AllocError>
    ensures { OnOk result (out.new.items ≡ out.old.items ++ total_text def.now counts.now) }
{
    out.extend_from_slice(b"collection ")?;
    out.extend_from_slice(def.name.as_slice())?;
    put_numbers(alloc, out, counts)
}

/// Adds a line for each collection, with what the entries come to for it.
fn put_counts(
    alloc: Global,
    out: &mut Vec<u8>,
    entries: &[GatherEntry],
    defs: &Defs,
) -> Result<(), AllocError>
    ensures { OnOk result (out.new.items ≡ out.old.items ++ counts_text entries.now 0 defs.now) }
{
    let counts = counts_of(alloc, entries, defs.len())?;
    for (at, def) in defs.as_slice().iter().enumerate() {
        put_count(alloc, out, def, &counts[at])?;
    }
    Ok(())
}

/// Adds a line for each entry.
fn put_entries(
    alloc: Global,
    out: &mut Vec<u8>,
    script: &Script,
    defs: &Defs,
    entries: &[GatherEntry],
) -> Result<(), AllocError>
    ensures { OnOk result (out.new.items
        ≡ out.old.items ++ flat_map (λ x. entry_text script.now defs.now x) entries.now) }
{
    for entry in entries {
        put_entry(alloc, out, script, defs, entry)?;
    }
    Ok(())
}

/// The text of a journal with collections: the number of entries, a line for each, a line for each collection with its
/// hits, misses, stored puts and locks, and `end`. Fails for want of memory alone.
pub fn text(
    alloc: Global,
    script: &Script,
    defs: &Defs,
    journal: &Gathered,
) -> Result<Bytes, AllocError>
    ensures { IfOk result (λ b. b ≡ gathered_text script.now defs.now journal.now.list) }
{
    let entries = journal.as_slice();
    let mut out = Vec::new(alloc);
    put_labelled(alloc, &mut out, b"journal ", entries.len() as u64)?;
    out.extend_from_slice(b"\n")?;
    put_entries(alloc, &mut out, script, defs, entries)?;
    put_counts(alloc, &mut out, entries, defs)?;
    out.extend_from_slice(b"end\n")?;
    Ok(Seq::from_vec(out))
}
