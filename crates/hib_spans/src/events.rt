// The trace that Perfetto opens: trace events as JSON. An event's phase says what it is: `B` and `E` begin and end a
// transaction, `b` and `e` a lock, `i` is a mark and `M` a name.
ghost use Rattle.hib_spans.specs.Events.{answer_text, holder_text, lock_text, mark_text, named_lock, place_text, step_text, track_text, transaction_text};
ghost use Rattle.std.specs.Prelude.{◌≡◌, ◌++◌, OnOk};

use crate::kept::{Begun, Kept, begun_by, locked_by, unlocked_by};
use crate::members::{
    put_quoted_act, put_quoted_lock, put_quoted_part, put_quoted_reply, track_name, track_of,
};
use hib_base::{Act, Bytes, EntityNo, Entry, Key, Part, Reply, Script, Seq, SessionNo};
use hib_journal::Journal;
use hib_json_lines::put_quoted;
use hib_texts::put_labelled;
use std::alloc::{AllocError, Global};

/// When an event is, and on which track; with these the object ends.
fn put_place(alloc: Global, out: &mut Vec<u8>, tick: u64, track: u64) -> Result<(), AllocError>
    ensures { OnOk result (out.new.items ≡ out.old.items ++ place_text tick track) }
{
    put_labelled(alloc, out, b",\"ts\":", tick)?;
    put_labelled(alloc, out, b",\"pid\":1,\"tid\":", track)?;
    out.extend_from_slice(b"}")
}

/// The name of a track.
fn put_track(alloc: Global, out: &mut Vec<u8>, name: &[u8], track: u64) -> Result<(), AllocError>
    ensures { OnOk result (out.new.items ≡ out.old.items ++ track_text name.now track) }
{
    put_labelled(
        alloc,
        out,
        b",\n{\"name\":\"thread_name\",\"ph\":\"M\",\"pid\":1,\"tid\":",
        track,
    )?;
    out.extend_from_slice(b",\"args\":{\"name\":")?;
    put_quoted(out, name)?;
    out.extend_from_slice(b"}}")
}

/// The name of each track.
fn put_tracks(alloc: Global, out: &mut Vec<u8>, script: &Script) -> Result<(), AllocError> {
    put_track(alloc, out, track_name(script, None), 0)?;
    for session in 0..script.sessions.len() {
        let Ok(session) = u32::try_from(session) else {
            return Ok(());
        };
        let number = SessionNo(session);
        let name = track_name(script, Some(number));
        put_track(alloc, out, name, track_of(Some(number)))?;
    }
    Ok(())
}

/// What a step does, and on which part.
fn put_step(
    alloc: Global,
    out: &mut Vec<u8>,
    script: &Script,
    act: &Act,
    part: Part,
) -> Result<(), AllocError>
    ensures { OnOk result (out.new.items ≡ out.old.items ++ step_text script.now act.now part) }
{
    out.extend_from_slice(b",\n{\"name\":")?;
    put_quoted_act(alloc, out, script, act)?;
    out.extend_from_slice(b",\"cat\":")?;
    put_quoted_part(alloc, out, part)
}

/// That it is a mark, and what was answered.
fn put_answer(
    alloc: Global,
    out: &mut Vec<u8>,
    script: &Script,
    reply: &Reply,
) -> Result<(), AllocError>
    ensures { OnOk result (out.new.items ≡ out.old.items ++ answer_text script.now reply.now) }
{
    out.extend_from_slice(b",\"ph\":\"i\",\"s\":\"t\",\"args\":{\"reply\":")?;
    put_quoted_reply(alloc, out, script, reply)?;
    out.extend_from_slice(b"}")
}

/// A step, as a mark on the track of its session.
fn put_mark(
    alloc: Global,
    out: &mut Vec<u8>,
    script: &Script,
    entry: &Entry,
) -> Result<(), AllocError>
    ensures { OnOk result (out.new.items ≡ out.old.items ++ mark_text script.now entry.now) }
{
    put_step(alloc, out, script, &entry.act, entry.part)?;
    put_answer(alloc, out, script, &entry.reply)?;
    put_place(alloc, out, entry.tick.0, track_of(entry.session))
}

/// The begin or the end of a transaction.
fn put_transaction(
    alloc: Global,
    out: &mut Vec<u8>,
    phase: &[u8],
    tick: u64,
    track: u64,
) -> Result<(), AllocError>
    ensures { OnOk result (out.new.items ≡ out.old.items ++ transaction_text phase.now tick track) }
{
    out.extend_from_slice(b",\n{\"name\":\"transaction\",\"cat\":\"transaction\",\"ph\":\"")?;
    out.extend_from_slice(phase)?;
    out.extend_from_slice(b"\"")?;
    put_place(alloc, out, tick, track)
}

/// What a lock is called, and that it begins or ends.
fn put_named_lock(
    alloc: Global,
    out: &mut Vec<u8>,
    script: &Script,
    phase: &[u8],
    key: &Key,
) -> Result<(), AllocError>
    ensures { OnOk result (out.new.items
        ≡ out.old.items ++ named_lock script.now phase.now key.now) }
{
    out.extend_from_slice(b",\n{\"name\":")?;
    put_quoted_lock(alloc, out, script, *key)?;
    out.extend_from_slice(b",\"cat\":\"lock\",\"ph\":\"")?;
    out.extend_from_slice(phase)
}

/// What tells a lock from others that are held at the same time: its key and its session.
fn put_holder(alloc: Global, out: &mut Vec<u8>, key: &Key, track: u64) -> Result<(), AllocError>
    ensures { OnOk result (out.new.items ≡ out.old.items ++ holder_text key.now track) }
{
    let EntityNo(entity) = key.entity;
    let id = key.id;
    put_labelled(alloc, out, b"\",\"id\":\"", u64::from(entity))?;
    put_labelled(alloc, out, b".", id)?;
    put_labelled(alloc, out, b".", track)?;
    out.extend_from_slice(b"\"")
}

/// The begin or the end of a lock.
fn put_lock(
    alloc: Global,
    out: &mut Vec<u8>,
    script: &Script,
    phase: &[u8],
    key: &Key,
    tick: u64,
    track: u64,
) -> Result<(), AllocError>
    ensures { OnOk result (out.new.items
        ≡ out.old.items ++ lock_text script.now phase.now key.now tick track) }
{
    put_named_lock(alloc, out, script, phase, key)?;
    put_holder(alloc, out, key, track)?;
    put_place(alloc, out, tick, track)
}

/// The transactions that end with an entry.
fn put_ends(
    alloc: Global,
    out: &mut Vec<u8>,
    ended: &[Begun],
    tick: u64,
) -> Result<(), AllocError> {
    for begun in ended {
        put_transaction(alloc, out, b"E", tick, begun.track)?;
    }
    Ok(())
}

/// The events of an entry: a transaction that begins, the step, a lock that begins or ends, the transactions that end.
fn put_entry(
    alloc: Global,
    out: &mut Vec<u8>,
    script: &Script,
    kept: &Kept,
    entry: &Entry,
    track: u64,
) -> Result<(), AllocError> {
    let tick = entry.tick.0;
    if let Some(begun) = begun_by(entry) {
        put_transaction(alloc, out, b"B", tick, begun)?;
    }
    put_mark(alloc, out, script, entry)?;
    if let Some(key) = locked_by(entry) {
        put_lock(alloc, out, script, b"b", &key, tick, track)?;
    }
    if let Some(key) = unlocked_by(entry) {
        put_lock(alloc, out, script, b"e", &key, tick, track)?;
    }
    let ended = kept.ended(alloc, entry)?;
    put_ends(alloc, out, ended.as_slice(), tick)
}

/// A journal as trace events in JSON, which Perfetto opens. Each session is a track, and the orders of the schedule are
/// one more; a transaction is a span, a lock one from when it is taken to when it is given back, and each step a mark
/// with its reply. What isn't over at the end of the journal has no end. Fails for want of memory alone.
pub fn perfetto(alloc: Global, script: &Script, journal: &Journal) -> Result<Bytes, AllocError> {
    let mut out = Vec::new(alloc);
    out.extend_from_slice(b"{\"displayTimeUnit\":\"ns\",\"traceEvents\":[\n")?;
    out.extend_from_slice(
        b"{\"name\":\"process_name\",\"ph\":\"M\",\"pid\":1,\"args\":{\"name\":\"hib\"}}",
    )?;
    put_tracks(alloc, &mut out, script)?;
    let mut kept = Kept::new(alloc);
    for entry in journal.as_slice() {
        let track = track_of(entry.session);
        put_entry(alloc, &mut out, script, &kept, entry, track)?;
        kept.note(entry, track)?;
    }
    out.extend_from_slice(b"\n]}\n")?;
    Ok(Seq::from_vec(out))
}
