// The text of a journal of two nodes, which `nodes` prints.
ghost use Rattle.std.specs.Prelude.{◌≡◌, ◌++◌, OnOk, IfOk, flat_map};
ghost use Rattle.hib_report.specs.Lines.{actor_text};
ghost use Rattle.hib_nodes.specs.Text.{body_text, entry_text, head_text, noded_text};

use crate::journal::Noded;
use hib_base::{Bytes, Entry, Script, Seq, SessionNo};
use hib_nodes_law::NodeEntry;
use hib_report::{put_act, put_part, put_reply};
use hib_texts::{put_labelled, put_number, put_session};
use std::alloc::{AllocError, Global};

/// Adds the session that did it, or a dash for a fence, which is no session's.
fn put_actor(
    out: &mut Vec<u8>,
    script: &Script,
    session: Option<SessionNo>,
) -> Result<(), AllocError>
    ensures { OnOk result (out.new.items ≡ out.old.items ++ actor_text script.now session) }
{
    match session {
        None => out.extend_from_slice(b"-"),
        Some(session) => put_session(out, script, session),
    }
}

/// Adds when it was, at which node, who did it, and where.
fn put_head(
    alloc: Global,
    out: &mut Vec<u8>,
    script: &Script,
    node: u8,
    entry: &Entry,
) -> Result<(), AllocError>
    ensures { OnOk result (out.new.items ≡ out.old.items ++ head_text script.now node entry.now) }
{
    put_number(alloc, out, entry.tick.0)?;
    out.extend_from_slice(b" ")?;
    put_number(alloc, out, u64::from(node))?;
    out.extend_from_slice(b" ")?;
    put_actor(out, script, entry.session)?;
    out.extend_from_slice(b" ")?;
    put_part(out, entry.part)?;
    out.extend_from_slice(b" ")
}

/// Adds what was done and answered.
fn put_body(
    alloc: Global,
    out: &mut Vec<u8>,
    script: &Script,
    entry: &Entry,
) -> Result<(), AllocError>
    ensures { OnOk result (out.new.items ≡ out.old.items ++ body_text script.now entry.now) }
{
    put_act(alloc, out, script, &entry.act)?;
    out.extend_from_slice(b" = ")?;
    put_reply(alloc, out, script, &entry.reply)
}

/// Adds the line of an entry, and its end.
#[tactic(auto, unfolding(crate::specs::Text::entry_text))]
fn put_entry(
    alloc: Global,
    out: &mut Vec<u8>,
    script: &Script,
    entry: &NodeEntry,
) -> Result<(), AllocError>
    ensures { OnOk result (out.new.items ≡ out.old.items ++ entry_text script.now entry.now) }
{
    put_head(alloc, out, script, entry.node, &entry.entry)?;
    put_body(alloc, out, script, &entry.entry)?;
    out.extend_from_slice(b"\n")
}

/// Adds a line for each entry.
fn put_entries(
    alloc: Global,
    out: &mut Vec<u8>,
    script: &Script,
    entries: &[NodeEntry],
) -> Result<(), AllocError>
    ensures { OnOk result (out.new.items
        ≡ out.old.items ++ flat_map (λ e. entry_text script.now e) entries.now) }
{
    for entry in entries {
        put_entry(alloc, out, script, entry)?;
    }
    Ok(())
}

/// The text of a journal of two nodes: the number of entries, a line for each with its node behind the tick, and `end`.
/// A number that the script doesn't know prints as nothing. Fails for want of memory alone.
pub fn text(alloc: Global, script: &Script, journal: &Noded) -> Result<Bytes, AllocError>
    ensures { IfOk result (λ b. b ≡ noded_text script.now journal.now.list) }
{
    let entries = journal.as_slice();
    let mut out = Vec::new(alloc);
    put_labelled(alloc, &mut out, b"journal ", entries.len() as u64)?;
    out.extend_from_slice(b"\n")?;
    put_entries(alloc, &mut out, script, entries)?;
    out.extend_from_slice(b"end\n")?;
    Ok(Seq::from_vec(out))
}
