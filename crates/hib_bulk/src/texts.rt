// The text of a journal with bulk lines, which `bulk` prints.
ghost use Rattle.std.specs.Prelude.{◌≡◌, ◌++◌, OnOk, IfOk, codes, flat_map};
ghost use Rattle.hib_texts.specs.Texts.{entity_text};
ghost use Rattle.std.specs.Fmt.{decimal};
ghost use Rattle.hib_bulk.specs.Text.{act_text, body_text, bulked_text, entry_text, head_text, name_text, reply_text};
ghost use Rattle.hib_bulk.specs.Text.{wide_text};

use crate::journal::Bulked;
use hib_base::{Act, Bytes, EntityNo, Script, Seq, SessionNo};
use hib_bulk_law::{BulkAct, BulkDefs, BulkEntry, BulkReply};
use hib_report::{put_act, put_part, put_reply};
use hib_texts::{put_entity, put_keyed, put_labelled, put_number, put_session};
use std::alloc::{AllocError, Global};

/// Adds the name of a session or of a bulk line: these are numbered after the sessions.
fn put_name(
    out: &mut Vec<u8>,
    script: &Script,
    lines: &BulkDefs,
    number: SessionNo,
) -> Result<(), AllocError>
    ensures { OnOk result (out.new.items ≡ out.old.items ++ name_text script.now lines.now number) }
{
    let at = number.0 as usize;
    let sessions = script.sessions.len();
    if at < sessions {
        return put_session(out, script, number);
    }
    match lines.as_slice().get(at - sessions) {
        Some(line) => out.extend_from_slice(line.name.as_slice()),
        None => put_session(out, script, number),
    }
}

/// Adds a word, and the entity that it is for.
fn put_on(
    out: &mut Vec<u8>,
    script: &Script,
    word: &[u8],
    entity: EntityNo,
) -> Result<(), AllocError>
    ensures { OnOk result (out.new.items
        ≡ out.old.items ++ word.now ++ entity_text script.now entity) }
{
    out.extend_from_slice(word)?;
    put_entity(out, script, entity)
}

/// Adds that a line changes its rows.
fn put_bulk(
    out: &mut Vec<u8>,
    script: &Script,
    lines: &BulkDefs,
    line: SessionNo,
) -> Result<(), AllocError>
    ensures { OnOk result (out.new.items
        ≡ out.old.items ++ codes "bulk " ++ name_text script.now lines.now line) }
{
    out.extend_from_slice(b"bulk ")?;
    put_name(out, script, lines, line)
}

/// Adds that a line gives the region of its entity back.
fn put_unlock_all(out: &mut Vec<u8>, script: &Script, entity: EntityNo) -> Result<(), AllocError>
    ensures { OnOk result (out.new.items
        ≡ out.old.items ++ codes "unlock-all " ++ entity_text script.now entity) }
{
    out.extend_from_slice(b"unlock-all ")?;
    put_entity(out, script, entity)
}

/// Adds what was done.
fn put_done(
    alloc: Global,
    out: &mut Vec<u8>,
    script: &Script,
    lines: &BulkDefs,
    act: &BulkAct,
) -> Result<(), AllocError>
    ensures { OnOk result (out.new.items
        ≡ out.old.items ++ act_text script.now lines.now act.now) }
{
    match act {
        BulkAct::Plain(act) => put_act(alloc, out, script, act),
        BulkAct::LockAll { entity } => put_on(out, script, b"lock-all ", *entity),
        BulkAct::Bulk { line } => put_bulk(out, script, lines, *line),
        BulkAct::UnlockAll { entity } => put_unlock_all(out, script, *entity),
        BulkAct::Sweep { key } => put_keyed(alloc, out, script, b"sweep ", *key),
    }
}

/// Adds the refusal by a region that lines hold, with how many do: to a get it is a miss.
fn put_wide(alloc: Global, out: &mut Vec<u8>, act: &BulkAct, holders: u64) -> Result<(), AllocError>
    ensures { OnOk result (out.new.items ≡ out.old.items ++ wide_text act.now holders) }
{
    match act {
        BulkAct::Plain(Act::Get { .. }) => put_labelled(alloc, out, b"miss wide ", holders),
        _ => put_labelled(alloc, out, b"wide ", holders),
    }
}

/// Adds the refusal of a row that may have been read before the region was given back, with when that was.
fn put_wide_early(alloc: Global, out: &mut Vec<u8>, unlock: u64) -> Result<(), AllocError>
    ensures { OnOk result (out.new.items ≡ out.old.items ++ codes "wide-early " ++ decimal unlock) }
{
    out.extend_from_slice(b"wide-early ")?;
    put_number(alloc, out, unlock)
}

/// Adds what was answered.
fn put_answer(
    alloc: Global,
    out: &mut Vec<u8>,
    script: &Script,
    act: &BulkAct,
    reply: &BulkReply,
) -> Result<(), AllocError>
    ensures { OnOk result (out.new.items
        ≡ out.old.items ++ reply_text script.now act.now reply.now) }
{
    match reply {
        BulkReply::Plain(reply) => put_reply(alloc, out, script, reply),
        BulkReply::Held { holders } => put_labelled(alloc, out, b"held ", *holders),
        BulkReply::Released { holders } => put_labelled(alloc, out, b"released ", *holders),
        BulkReply::Changed { rows } => put_labelled(alloc, out, b"changed ", *rows),
        BulkReply::Swept => out.extend_from_slice(b"evicted"),
        BulkReply::Wide { holders } => put_wide(alloc, out, act, *holders),
        BulkReply::WideEarly { unlock } => put_wide_early(alloc, out, unlock.0),
    }
}

/// Adds when it was, who did it, and where.
fn put_head(
    alloc: Global,
    out: &mut Vec<u8>,
    script: &Script,
    lines: &BulkDefs,
    entry: &BulkEntry,
) -> Result<(), AllocError>
    ensures { OnOk result (out.new.items
        ≡ out.old.items ++ head_text script.now lines.now entry.now) }
{
    put_number(alloc, out, entry.tick.0)?;
    out.extend_from_slice(b" ")?;
    put_name(out, script, lines, entry.session)?;
    out.extend_from_slice(b" ")?;
    put_part(out, entry.part)?;
    out.extend_from_slice(b" ")
}

/// Adds what was done and answered.
fn put_body(
    alloc: Global,
    out: &mut Vec<u8>,
    script: &Script,
    lines: &BulkDefs,
    act: &BulkAct,
    reply: &BulkReply,
) -> Result<(), AllocError>
    ensures { OnOk result (out.new.items
        ≡ out.old.items ++ body_text script.now lines.now act.now reply.now) }
{
    put_done(alloc, out, script, lines, act)?;
    out.extend_from_slice(b" = ")?;
    put_answer(alloc, out, script, act, reply)
}

/// Adds the line of an entry, and its end.
fn put_entry(
    alloc: Global,
    out: &mut Vec<u8>,
    script: &Script,
    lines: &BulkDefs,
    entry: &BulkEntry,
) -> Result<(), AllocError>
    ensures { OnOk result (out.new.items
        ≡ out.old.items ++ entry_text script.now lines.now entry.now) }
{
    put_head(alloc, out, script, lines, entry)?;
    put_body(alloc, out, script, lines, &entry.act, &entry.reply)?;
    out.extend_from_slice(b"\n")
}

/// Adds a line for each entry.
fn put_entries(
    alloc: Global,
    out: &mut Vec<u8>,
    script: &Script,
    lines: &BulkDefs,
    entries: &[BulkEntry],
) -> Result<(), AllocError>
    ensures { OnOk result (out.new.items
        ≡ out.old.items ++ flat_map (λ e. entry_text script.now lines.now e) entries.now) }
{
    for entry in entries {
        put_entry(alloc, out, script, lines, entry)?;
    }
    Ok(())
}

/// The text of a journal with bulk lines: the number of entries, a line for each, and `end`. Fails for want of memory
/// alone.
pub fn text(
    alloc: Global,
    script: &Script,
    lines: &BulkDefs,
    journal: &Bulked,
) -> Result<Bytes, AllocError>
    ensures { IfOk result (λ b. b ≡ bulked_text script.now lines.now journal.now.list) }
{
    let entries = journal.as_slice();
    let mut out = Vec::new(alloc);
    put_labelled(alloc, &mut out, b"journal ", entries.len() as u64)?;
    out.extend_from_slice(b"\n")?;
    put_entries(alloc, &mut out, script, lines, entries)?;
    out.extend_from_slice(b"end\n")?;
    Ok(Seq::from_vec(out))
}
