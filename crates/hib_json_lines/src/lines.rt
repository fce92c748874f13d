// Entries as JSON lines, appended to bytes.
ghost use Rattle.hib_json_lines.specs.Line.{json_line, json_lines, session_value};
ghost use Rattle.hib_report.specs.Lines.{act_text, part_text, reply_text};
ghost use Rattle.hib_texts.specs.Texts.{session_text};
ghost use Rattle.json.specs.Print.{quoted};
ghost use Rattle.std.specs.Prelude.{◌≡◌, ◌++◌, OnOk, IfOk, codes};

use crate::escapes::put_quoted;
use hib_base::{Act, Bytes, Entry, Part, Reply, Script, Seq, SessionNo};
use hib_journal::Journal;
use hib_report::{put_act, put_part, put_reply};
use hib_texts::{put_labelled, put_session};
use std::alloc::{AllocError, Global};

fn put_act_member(
    alloc: Global,
    out: &mut Vec<u8>,
    script: &Script,
    act: &Act,
) -> Result<(), AllocError>
    ensures { OnOk result (out.new.items
        ≡ out.old.items ++ (codes "{\"act\":" ++ quoted (act_text script.now act.now))) }
{
    let mut text = Vec::new(alloc);
    put_act(alloc, &mut text, script, act)?;
    out.extend_from_slice(b"{\"act\":")?;
    put_quoted(out, text.as_slice())
}

fn put_part_member(alloc: Global, out: &mut Vec<u8>, part: Part) -> Result<(), AllocError>
    ensures { OnOk result (out.new.items
        ≡ out.old.items ++ (codes ",\"part\":" ++ quoted (part_text part))) }
{
    let mut text = Vec::new(alloc);
    put_part(&mut text, part)?;
    out.extend_from_slice(b",\"part\":")?;
    put_quoted(out, text.as_slice())
}

fn put_reply_member(
    alloc: Global,
    out: &mut Vec<u8>,
    script: &Script,
    reply: &Reply,
) -> Result<(), AllocError>
    ensures { OnOk result (out.new.items
        ≡ out.old.items ++ (codes ",\"reply\":" ++ quoted (reply_text script.now reply.now))) }
{
    let mut text = Vec::new(alloc);
    put_reply(alloc, &mut text, script, reply)?;
    out.extend_from_slice(b",\"reply\":")?;
    put_quoted(out, text.as_slice())
}

/// The name of a session, in quotation marks.
fn put_name(
    alloc: Global,
    out: &mut Vec<u8>,
    script: &Script,
    session: SessionNo,
) -> Result<(), AllocError>
    ensures { OnOk result (out.new.items
        ≡ out.old.items ++ quoted (session_text script.now session)) }
{
    let mut text = Vec::new(alloc);
    put_session(&mut text, script, session)?;
    put_quoted(out, text.as_slice())
}

fn put_session_value(
    alloc: Global,
    out: &mut Vec<u8>,
    script: &Script,
    session: Option<SessionNo>,
) -> Result<(), AllocError>
    ensures { OnOk result (out.new.items ≡ out.old.items ++ session_value script.now session) }
{
    match session {
        None => out.extend_from_slice(b"null"),
        Some(session) => put_name(alloc, out, script, session),
    }
}

fn put_session_member(
    alloc: Global,
    out: &mut Vec<u8>,
    script: &Script,
    session: Option<SessionNo>,
) -> Result<(), AllocError>
    ensures { OnOk result (out.new.items
        ≡ out.old.items ++ (codes ",\"session\":" ++ session_value script.now session)) }
{
    out.extend_from_slice(b",\"session\":")?;
    put_session_value(alloc, out, script, session)
}

/// The JSON line of an entry, with its line feed: the members act, part, reply, session and tick, byte for byte as
/// `serde_json` writes their object. A number that the script doesn't know prints as nothing. Fails for want of memory
/// alone.
pub fn put_line(
    alloc: Global,
    out: &mut Vec<u8>,
    script: &Script,
    entry: &Entry,
) -> Result<(), AllocError>
    ensures { OnOk result (out.new.items
        ≡ out.old.items ++ (json_line script.now entry.now ++ codes "\n")) }
{
    put_act_member(alloc, out, script, &entry.act)?;
    put_part_member(alloc, out, entry.part)?;
    put_reply_member(alloc, out, script, &entry.reply)?;
    put_session_member(alloc, out, script, entry.session)?;
    put_labelled(alloc, out, b",\"tick\":", entry.tick.0)?;
    out.extend_from_slice(b"}\n")?;
    Ok(())
}

fn put_lines(
    alloc: Global,
    out: &mut Vec<u8>,
    script: &Script,
    entries: &[Entry],
) -> Result<(), AllocError>
    ensures { OnOk result (out.new.items ≡ out.old.items ++ json_lines script.now entries.now) }
{
    for entry in entries {
        put_line(alloc, out, script, entry)?;
    }
    Ok(())
}

/// The JSON lines of a journal's entries, the oldest first. Fails for want of memory alone.
pub fn write(alloc: Global, script: &Script, journal: &Journal) -> Result<Bytes, AllocError>
    ensures { IfOk result (λ b. b ≡ json_lines script.now journal.now.list) }
{
    let mut out = Vec::new(alloc);
    put_lines(alloc, &mut out, script, journal.as_slice())?;
    Ok(Seq::from_vec(out))
}
