// The lines of entries.
ghost use Rattle.std.specs.Prelude.{◌≡◌, ◌++◌, OnOk, IfOk, codes};
ghost use Rattle.hib_report.specs.Lines.{actor_text, line_text, lines_text};

use crate::acts::{put_act, put_part};
use crate::replies::put_reply;
use hib_base::{Bytes, Entry, Script, Seq, SessionNo};
use hib_texts::{put_number, put_session};
use std::alloc::{AllocError, Global};

/// Who acts: a session, or `-` for what comes from outside.
fn put_actor(
    out: &mut Vec<u8>,
    script: &Script,
    session: Option<SessionNo>,
) -> Result<(), AllocError>
    ensures { OnOk result (out.new.items ≡ out.old.items ++ actor_text script.now session) }
{
    match session {
        None => out.extend_from_slice(b"-"),
        Some(session) => put_session(out, script, session),
    }
}

#[tactic(auto, unfolding(crate::specs::Lines::line_text))]
fn put_line(
    alloc: Global,
    out: &mut Vec<u8>,
    script: &Script,
    entry: &Entry,
) -> Result<(), AllocError>
    ensures { OnOk result (out.new.items ≡ out.old.items ++ line_text script.now entry.now) }
{
    put_number(alloc, out, entry.tick.0)?;
    out.extend_from_slice(b" ")?;
    put_actor(out, script, entry.session)?;
    out.extend_from_slice(b" ")?;
    put_part(out, entry.part)?;
    out.extend_from_slice(b" ")?;
    put_act(alloc, out, script, &entry.act)?;
    out.extend_from_slice(b" = ")?;
    put_reply(alloc, out, script, &entry.reply)
}

/// The line of an entry, and its end.
pub fn put_entry(
    alloc: Global,
    out: &mut Vec<u8>,
    script: &Script,
    entry: &Entry,
) -> Result<(), AllocError>
    ensures { OnOk result (out.new.items
        ≡ out.old.items ++ (line_text script.now entry.now ++ codes "\n")) }
{
    put_line(alloc, out, script, entry)?;
    out.extend_from_slice(b"\n")
}

/// The lines of entries, each with its end.
pub fn put_lines(
    alloc: Global,
    out: &mut Vec<u8>,
    script: &Script,
    entries: &[Entry],
) -> Result<(), AllocError>
    ensures { OnOk result (out.new.items ≡ out.old.items ++ lines_text script.now entries.now) }
{
    for entry in entries {
        put_entry(alloc, out, script, entry)?;
    }
    Ok(())
}

/// The line of one entry, without its end: tick, session, part, act and reply. A number that the
/// script doesn't know prints as nothing. Fails for want of memory alone.
pub fn line(alloc: Global, script: &Script, entry: &Entry) -> Result<Bytes, AllocError>
    ensures { IfOk result (λ b. b ≡ line_text script.now entry.now) }
{
    let mut out = Vec::new(alloc);
    put_line(alloc, &mut out, script, entry)?;
    Ok(Seq::from_vec(out))
}
