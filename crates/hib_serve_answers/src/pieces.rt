// The pieces of an answer, appended to bytes.
ghost use Rattle.hib_json_lines.specs.Line.{json_line};
ghost use Rattle.hib_serve_answers.specs.Answers.{stop};
ghost use Rattle.hib_serve_answers.specs.Pieces.{id_behind, id_before, text_behind, more_entries, all_entries};
ghost use Rattle.hib_serve_answers.specs.Refusals.{why_of};
ghost use Rattle.hib_serve_requests.specs.Requests.{id_text, id_data};
ghost use Rattle.serde_json.specs.Written.{compact_text};
ghost use Rattle.std.specs.Option.{option_map};
ghost use Rattle.std.specs.Prelude.{◌≡◌, ◌++◌, ◌<◌, ◌-◌, codes, length, string_bytes, take, OnOk};

use crate::refusals::Refusal;
use hib_base::{Entry, Script};
use hib_json_lines::{put_line, put_quoted};
use hib_serve_requests::Id;
use hib_texts::put_number;
use std::alloc::{AllocError, Global};

// A line without its last byte.
fn put_front(out: &mut Vec<u8>, line: &[u8]) -> Result<(), AllocError>
    requires { 0 < length line.now }
    ensures { OnOk result (out.new.items
        ≡ out.old.items ++ take (length line.now - 1) line.now) }
{
    out.extend_from_slice(&line[..line.len() - 1])
}

// An entry's object.
fn put_entry(
    alloc: Global,
    out: &mut Vec<u8>,
    script: &Script,
    entry: &Entry,
) -> Result<(), AllocError>
    ensures { OnOk result (out.new.items ≡ out.old.items ++ json_line script.now entry.now) }
{
    let mut line = Vec::new(alloc);
    put_line(alloc, &mut line, script, entry)?;
    put_front(out, line.as_slice())?;
    Ok(())
}

// Entries, with a comma before each.
fn put_more(
    alloc: Global,
    out: &mut Vec<u8>,
    script: &Script,
    entries: &[Entry],
) -> Result<(), AllocError>
    ensures { OnOk result (out.new.items
        ≡ out.old.items ++ more_entries script.now entries.now) }
{
    for entry in entries {
        out.extend_from_slice(b",")?;
        put_entry(alloc, out, script, entry)?;
    }
    Ok(())
}

/// Entries, with a comma between two.
pub fn put_entries(
    alloc: Global,
    out: &mut Vec<u8>,
    script: &Script,
    entries: &[Entry],
) -> Result<(), AllocError>
    ensures { OnOk result (out.new.items ≡ out.old.items ++ all_entries script.now entries.now) }
{
    match entries {
        [] => Ok(()),
        [first, rest @ ..] => {
            put_entry(alloc, out, script, first)?;
            put_more(alloc, out, script, rest)
        }
    }
}

fn put_id(alloc: Global, out: &mut Vec<u8>, id: &Id) -> Result<(), AllocError>
    ensures { OnOk result (out.new.items
        ≡ out.old.items ++ compact_text (id_data (id_text id.now))) }
{
    match id {
        Id::Text(text) => put_quoted(out, text.as_bytes()),
        Id::Number(number) => put_number(alloc, out, *number),
    }
}

/// The id behind a member, if there is one.
pub fn put_id_behind(alloc: Global, out: &mut Vec<u8>, id: &Option<Id>) -> Result<(), AllocError>
    ensures { OnOk result (out.new.items
        ≡ out.old.items ++ id_behind (option_map id_text id.now)) }
{
    match id {
        None => Ok(()),
        Some(id) => {
            out.extend_from_slice(b",\"id\":")?;
            put_id(alloc, out, id)
        }
    }
}

/// The id before a member, if there is one.
pub fn put_id_before(alloc: Global, out: &mut Vec<u8>, id: &Option<Id>) -> Result<(), AllocError>
    ensures { OnOk result (out.new.items
        ≡ out.old.items ++ id_before (option_map id_text id.now)) }
{
    match id {
        None => Ok(()),
        Some(id) => {
            out.extend_from_slice(b"\"id\":")?;
            put_id(alloc, out, id)?;
            out.extend_from_slice(b",")
        }
    }
}

/// The name of a session, if there is one.
pub fn put_session(out: &mut Vec<u8>, session: &Option<String>) -> Result<(), AllocError>
    ensures { OnOk result (out.new.items ≡ out.old.items
        ++ text_behind (codes ",\"session\":") (option_map string_bytes session.now)) }
{
    match session {
        None => Ok(()),
        Some(name) => {
            out.extend_from_slice(b",\"session\":")?;
            put_quoted(out, name.as_bytes())
        }
    }
}

/// That steps are left, if some are.
pub fn put_stop(out: &mut Vec<u8>, stopped: bool) -> Result<(), AllocError>
    ensures { OnOk result (out.new.items ≡ out.old.items
        ++ text_behind (codes ",\"stopped\":") (stop stopped)) }
{
    if !stopped {
        return Ok(());
    }
    out.extend_from_slice(b",\"stopped\":")?;
    put_quoted(out, b"memory")
}

/// What says more of a refusal, if anything does.
pub fn put_why(out: &mut Vec<u8>, refusal: &Refusal) -> Result<(), AllocError>
    ensures { OnOk result (out.new.items ≡ out.old.items
        ++ text_behind (codes ",\"why\":") (why_of refusal.now)) }
{
    match refusal.why() {
        None => Ok(()),
        Some(why) => {
            out.extend_from_slice(b",\"why\":")?;
            put_quoted(out, why)
        }
    }
}
