// The entry whose JSON line a text is: it is guessed from the members, tested, and written again. A line is here a JSON
// line of a journal, with five members. The texts that are compared are written into one scratch; what stands in it
// before and after counts for nothing.
ghost use Rattle.hib_base.specs.Valid.{is_valid};
ghost use Rattle.hib_entry_fields.specs.Fields as fields;
ghost use Rattle.hib_journal.specs.Types.{Entry};
ghost use Rattle.hib_journal_json.specs.Entries as entries;
ghost use Rattle.hib_journal_json.specs.Entries.{IsEntry, IsLine, IsBad};
ghost use Rattle.hib_journal_json.specs.Guesses as format;
ghost use Rattle.hib_json_lines.specs.Line.{texts};
ghost use Rattle.hib_report.specs.Lines.{act_text, part_text, reply_text};
ghost use Rattle.hib_texts.specs.Texts.{session_text};
ghost use Rattle.std.specs.Prelude.{◌≡◌, ◌↔◌, IsTrue, IfOk, IfSome, IfNone, bytes_eq, option_map, string_bytes, true, ◌&&◌, false, Some};

use hib_base::{Act, Entry, Part, Reply, Script, SessionNo, Tick};
use hib_entry_fields::{SessionNames, is_session, is_tick, session_of};
use hib_entry_texts::{act_of, is_act, is_reply, part_of, reply_of};
use hib_json_lines::{Line, read_line};
use hib_report::{put_act, put_part, put_reply};
use hib_texts::put_session;
use std::alloc::{AllocError, Global};
use std::str;

/// Whether the session of an entry, if it has one, is the script's.
fn is_actor(script: &Script, session: Option<SessionNo>) -> bool
    ensures { result ≡ entries.is_actor script.now session }
{
    match session {
        None => true,
        Some(session) => is_session(script, session),
    }
}

/// Whether an entry is well formed, but for its part.
fn is_known(script: &Script, entry: &Entry) -> bool
    ensures { result ≡ entries.is_known script.now entry.now }
{
    is_act(script, &entry.act)
        && is_reply(script, &entry.act, &entry.reply)
        && is_actor(script, entry.session)
        && is_tick(entry.tick)
}

/// Whether an entry is well formed.
pub fn is_entry(script: &Script, entry: &Entry) -> bool
    ensures { IsTrue result ↔ IsEntry script.now entry.now }
{
    is_known(script, entry) && part_of(&entry.act, entry.session) == Some(entry.part)
}

/// The session that a name looks like, if there is a name.
fn session_named(script: &Script, names: &SessionNames, name: &Option<String>) -> Option<SessionNo>
    requires { is_valid script.now ≡ true }
    ensures { result ≡ option_map (fields.session_of script.now)
        (option_map string_bytes name.now) }
{
    match name {
        None => None,
        Some(name) => Some(session_of(script, names, name.as_str().as_bytes())),
    }
}

/// The entry of this act, with the reply that the line's text looks like.
fn entry_with(
    alloc: Global,
    script: &Script,
    line: &Line,
    session: Option<SessionNo>,
    part: Part,
    act: Act,
) -> Result<Entry, AllocError>
    ensures { IfOk result (λ e. e ≡ format.entry_with script.now line.now session part act) }
{
    let reply = reply_of(alloc, script, &act, line.reply.as_str().as_bytes())?;
    Ok(Entry {
        tick: Tick(line.tick),
        session,
        part,
        act,
        reply,
    })
}

/// The entry that the texts of a line look like; none if it would have no part.
fn guess(
    alloc: Global,
    script: &Script,
    names: &SessionNames,
    line: &Line,
) -> Result<Option<Entry>, AllocError>
    requires { is_valid script.now ≡ true }
    ensures { IfOk result (λ o. o ≡ format.guess script.now line.now) }
{
    let part = line.part.as_str().as_bytes();
    let act = act_of(alloc, script, names, part, line.act.as_str().as_bytes())?;
    let session = session_named(script, names, &line.session);
    let Some(part) = part_of(&act, session) else {
        return Ok(None);
    };
    Ok(Some(entry_with(alloc, script, line, session, part, act)?))
}

/// Whether an act's text is this one.
fn is_act_text(
    alloc: Global,
    script: &Script,
    act: &Act,
    bytes: &[u8],
    scratch: &mut Vec<u8>,
) -> Result<bool, AllocError>
    ensures { IfOk result (λ b. b ≡ bytes_eq (act_text script.now act.now) bytes.now) }
{
    scratch.clear();
    put_act(alloc, scratch, script, act)?;
    Ok(scratch.as_slice() == bytes)
}

/// Whether a reply's text is this one.
fn is_reply_text(
    alloc: Global,
    script: &Script,
    reply: &Reply,
    bytes: &[u8],
    scratch: &mut Vec<u8>,
) -> Result<bool, AllocError>
    ensures { IfOk result (λ b. b ≡ bytes_eq (reply_text script.now reply.now) bytes.now) }
{
    scratch.clear();
    put_reply(alloc, scratch, script, reply)?;
    Ok(scratch.as_slice() == bytes)
}

/// Whether a part's word is this one.
fn is_part_text(part: Part, bytes: &[u8], scratch: &mut Vec<u8>) -> Result<bool, AllocError>
    ensures { IfOk result (λ b. b ≡ bytes_eq (part_text part) bytes.now) }
{
    scratch.clear();
    put_part(scratch, part)?;
    Ok(scratch.as_slice() == bytes)
}

/// Whether a session's name is this one; without a session there must be no name.
fn is_session_name(
    script: &Script,
    session: Option<SessionNo>,
    name: &Option<String>,
    scratch: &mut Vec<u8>,
) -> Result<bool, AllocError>
    ensures { IfOk result (λ b. b ≡ format.same_names (option_map (session_text script.now) session)
        (option_map string_bytes name.now)) }
{
    match (session, name) {
        (None, None) => Ok(true),
        (Some(session), Some(name)) => {
            scratch.clear();
            put_session(scratch, script, session)?;
            Ok(scratch.as_slice() == name.as_str().as_bytes())
        }
        _ => Ok(false),
    }
}

/// Whether the members of a line are the texts of an entry.
fn is_texts_of(
    alloc: Global,
    script: &Script,
    entry: &Entry,
    line: &Line,
    scratch: &mut Vec<u8>,
) -> Result<bool, AllocError>
    ensures { IfOk result (λ b. b ≡ format.same_texts (texts script.now entry.now) line.now) }
{
    let act = line.act.as_str().as_bytes();
    let part = line.part.as_str().as_bytes();
    let reply = line.reply.as_str().as_bytes();
    Ok(
        is_act_text(alloc, script, &entry.act, act, scratch)?
            && is_part_text(entry.part, part, scratch)?
            && is_reply_text(alloc, script, &entry.reply, reply, scratch)?
            && is_session_name(script, entry.session, &line.session, scratch)?
            && entry.tick.0 == line.tick,
    )
}

// Whether an entry is well formed for the script, and the members of the line are its texts.
fn is_entry_of(
    alloc: Global,
    script: &Script,
    entry: &Entry,
    line: &Line,
    scratch: &mut Vec<u8>,
) -> Result<bool, AllocError>
    ensures { IfOk result (λ b. b ≡ entries.is_known script.now entry.now && format.same_texts
        (texts script.now entry.now) line.now) }
{
    if is_known(script, entry) {
        is_texts_of(alloc, script, entry, line, scratch)
    } else {
        Ok(false)
    }
}

// The entry whose line has these members; none if they are no well-formed entry's.
fn entry_of(
    alloc: Global,
    script: &Script,
    names: &SessionNames,
    line: &Line,
    scratch: &mut Vec<u8>,
) -> Result<Option<Entry>, AllocError>
    requires { is_valid script.now ≡ true }
    ensures found { IfOk result (λ o. IfSome o (λ e. (format.guess script.now line.now ≡ Some e)
        × (entries.is_known script.now e && format.same_texts (texts script.now e) line.now
        ≡ true))) }
    ensures none { IfOk result (λ o. IfNone o ((e : Entry)
        → format.guess script.now line.now ≡ Some e
        → entries.is_known script.now e && format.same_texts (texts script.now e) line.now
        ≡ false)) }
{
    let Some(entry) = guess(alloc, script, names, line)? else {
        return Ok(None);
    };
    if is_entry_of(alloc, script, &entry, line, scratch)? {
        Ok(Some(entry))
    } else {
        Ok(None)
    }
}

// The entry whose JSON line a text is; none if it is no well-formed entry's.
#[tactic(auto, using(crate::proofs::Guesses::found_line, crate::proofs::Guesses::bad_members, crate::proofs::Guesses::bad_entry))]
fn read_entry(
    alloc: Global,
    script: &Script,
    names: &SessionNames,
    text: &str,
    scratch: &mut Vec<u8>,
) -> Result<Option<Entry>, AllocError>
    requires { is_valid script.now ≡ true }
    ensures found { IfOk result (λ o. IfSome o (IsLine script.now text.now)) }
    ensures none { IfOk result (λ o. IfNone o (IsBad script.now text.now)) }
{
    let Some(line) = read_line(alloc, text)? else {
        return Ok(None);
    };
    entry_of(alloc, script, names, &line, scratch)
}

/// The entry whose JSON line some bytes are; none if they are no well-formed entry's. Fails for want of memory alone.
pub fn line_entry(
    alloc: Global,
    script: &Script,
    names: &SessionNames,
    line: &[u8],
    scratch: &mut Vec<u8>,
) -> Result<Option<Entry>, AllocError>
    requires { is_valid script.now ≡ true }
    ensures found { IfOk result (λ o. IfSome o (IsLine script.now line.now)) }
    ensures none { IfOk result (λ o. IfNone o (IsBad script.now line.now)) }
{
    match str::from_utf8(line) {
        Ok(text) => read_entry(alloc, script, names, text, scratch),
        Err(_) => Ok(None),
    }
}
