// The trace that Jaeger opens: its own JSON. A span's identifier is 1 for the run; `a` and `b` with the track and the
// begin of a transaction; `c` for a step, or `d` for a lock, with the number of the entry, from 1 (its place here).
use crate::kept::{Begun, Kept, unlocked_by};
use crate::members::{
    put_quoted_act, put_quoted_lock, put_quoted_part, put_quoted_reply, track_name, track_of,
};
use hib_base::{Bytes, Entry, Script, Seq, SessionNo};
use hib_journal::Journal;
use hib_json_lines::put_quoted;
use hib_texts::put_labelled;
use std::alloc::{AllocError, Global};

/// The identifier of the span of a transaction.
fn put_transaction_id(
    alloc: Global,
    out: &mut Vec<u8>,
    track: u64,
    tick: u64,
) -> Result<(), AllocError> {
    put_labelled(alloc, out, b"a", track)?;
    put_labelled(alloc, out, b"b", tick)
}

/// The span that a span is within: the transaction of a track that began at this tick, or the whole run.
fn put_reference(
    alloc: Global,
    out: &mut Vec<u8>,
    track: u64,
    begun: Option<u64>,
) -> Result<(), AllocError> {
    out.extend_from_slice(
        b",\"references\":[{\"refType\":\"CHILD_OF\",\"traceID\":\"1\",\"spanID\":\"",
    )?;
    match begun {
        None => out.extend_from_slice(b"1")?,
        Some(tick) => put_transaction_id(alloc, out, track, tick)?,
    }
    out.extend_from_slice(b"\"}]")
}

/// From when to when a span is, and on which track.
fn put_times(
    alloc: Global,
    out: &mut Vec<u8>,
    from: u64,
    to: u64,
    track: u64,
) -> Result<(), AllocError> {
    put_labelled(alloc, out, b",\"startTime\":", from)?;
    put_labelled(alloc, out, b",\"duration\":", to.saturating_sub(from))?;
    put_labelled(alloc, out, b",\"logs\":[],\"processID\":\"p", track)?;
    out.extend_from_slice(b"\"")
}

/// The part and the reply of a step, as tags.
fn put_tags(
    alloc: Global,
    out: &mut Vec<u8>,
    script: &Script,
    entry: &Entry,
) -> Result<(), AllocError> {
    out.extend_from_slice(b",\"tags\":[{\"key\":\"part\",\"type\":\"string\",\"value\":")?;
    put_quoted_part(alloc, out, entry.part)?;
    out.extend_from_slice(b"},{\"key\":\"reply\",\"type\":\"string\",\"value\":")?;
    put_quoted_reply(alloc, out, script, &entry.reply)?;
    out.extend_from_slice(b"}]}")
}

/// The first tick behind a step. There ends its span, and that of a transaction or a run whose last step it is.
fn behind(entry: &Entry) -> u64 {
    entry.tick.0.saturating_add(1)
}

/// The span of a step.
fn put_step(
    alloc: Global,
    out: &mut Vec<u8>,
    script: &Script,
    begun: Option<u64>,
    place: u64,
    entry: &Entry,
) -> Result<(), AllocError> {
    let track = track_of(entry.session);
    put_labelled(alloc, out, b",\n{\"traceID\":\"1\",\"spanID\":\"c", place)?;
    out.extend_from_slice(b"\",\"operationName\":")?;
    put_quoted_act(alloc, out, script, &entry.act)?;
    put_reference(alloc, out, track, begun)?;
    put_times(alloc, out, entry.tick.0, behind(entry), track)?;
    put_tags(alloc, out, script, entry)
}

/// The span of a transaction that has ended, or is open at the end of the journal.
fn put_transaction(
    alloc: Global,
    out: &mut Vec<u8>,
    track: u64,
    from: u64,
    to: u64,
) -> Result<(), AllocError> {
    out.extend_from_slice(b",\n{\"traceID\":\"1\",\"spanID\":\"")?;
    put_transaction_id(alloc, out, track, from)?;
    out.extend_from_slice(b"\",\"operationName\":\"transaction\"")?;
    put_reference(alloc, out, track, None)?;
    put_times(alloc, out, from, to, track)?;
    out.extend_from_slice(b",\"tags\":[]}")
}

fn put_transactions(
    alloc: Global,
    out: &mut Vec<u8>,
    all: &[Begun],
    to: u64,
) -> Result<(), AllocError> {
    for begun in all {
        put_transaction(alloc, out, begun.track, begun.tick, to)?;
    }
    Ok(())
}

/// The span of a lock that is given back.
fn put_lock(
    alloc: Global,
    out: &mut Vec<u8>,
    script: &Script,
    kept: &Kept,
    begun: Option<u64>,
    place: u64,
    entry: &Entry,
) -> Result<(), AllocError> {
    let Some(key) = unlocked_by(entry) else {
        return Ok(());
    };
    let track = track_of(entry.session);
    let Some(from) = kept.lock(track, &key) else {
        return Ok(());
    };
    put_labelled(alloc, out, b",\n{\"traceID\":\"1\",\"spanID\":\"d", place)?;
    out.extend_from_slice(b"\",\"operationName\":")?;
    put_quoted_lock(alloc, out, script, key)?;
    put_reference(alloc, out, track, begun)?;
    put_times(alloc, out, from, entry.tick.0, track)?;
    out.extend_from_slice(b",\"tags\":[]}")
}

/// The spans of an entry: the step, a lock that is given back, the transactions that end.
fn put_entry(
    alloc: Global,
    out: &mut Vec<u8>,
    script: &Script,
    kept: &Kept,
    place: u64,
    entry: &Entry,
) -> Result<(), AllocError> {
    let begun = kept.time(track_of(entry.session));
    put_step(alloc, out, script, begun, place, entry)?;
    put_lock(alloc, out, script, kept, begun, place, entry)?;
    let ended = kept.ended(alloc, entry)?;
    put_transactions(alloc, out, ended.as_slice(), behind(entry))
}

/// The span of the run.
fn put_run(alloc: Global, out: &mut Vec<u8>, to: u64) -> Result<(), AllocError> {
    out.extend_from_slice(
        b"{\"data\":[{\"traceID\":\"1\",\"spans\":[\n{\"traceID\":\"1\",\"spanID\":\"1\",\"operationName\":\"run\",\"references\":[]",
    )?;
    put_times(alloc, out, 0, to, 0)?;
    out.extend_from_slice(b",\"tags\":[]}")
}

fn put_spans(
    alloc: Global,
    out: &mut Vec<u8>,
    script: &Script,
    journal: &Journal,
    to: u64,
) -> Result<(), AllocError> {
    let mut kept = Kept::new(alloc);
    let mut place: u64 = 0;
    for entry in journal.as_slice() {
        place = place.saturating_add(1);
        put_entry(alloc, out, script, &kept, place, entry)?;
        kept.note(entry, track_of(entry.session))?;
    }
    let open = kept.open(alloc)?;
    put_transactions(alloc, out, open.as_slice(), to)
}

/// A track, which Jaeger shows as a service.
fn put_track(alloc: Global, out: &mut Vec<u8>, name: &[u8], track: u64) -> Result<(), AllocError> {
    put_labelled(alloc, out, b"\"p", track)?;
    out.extend_from_slice(b"\":{\"serviceName\":")?;
    put_quoted(out, name)?;
    out.extend_from_slice(b",\"tags\":[]}")
}

fn put_tracks(alloc: Global, out: &mut Vec<u8>, script: &Script) -> Result<(), AllocError> {
    out.extend_from_slice(b"\n],\"processes\":{\n")?;
    put_track(alloc, out, track_name(script, None), 0)?;
    for session in 0..script.sessions.len() {
        let Ok(session) = u32::try_from(session) else {
            return Ok(());
        };
        let number = SessionNo(session);
        out.extend_from_slice(b",\n")?;
        put_track(
            alloc,
            out,
            track_name(script, Some(number)),
            track_of(Some(number)),
        )?;
    }
    out.extend_from_slice(b"\n}}]}\n")
}

/// A journal in the JSON that Jaeger opens. Each session is a service, and the orders of the schedule are one more; a
/// transaction is a span, and within it each of its steps, its end too, with its reply, and each lock that was given
/// back. A transaction that isn't over at the end of the journal ends there. Fails for want of memory alone.
pub fn jaeger(alloc: Global, script: &Script, journal: &Journal) -> Result<Bytes, AllocError> {
    let to = match journal.last() {
        Some(entry) => behind(entry),
        None => 0,
    };
    let mut out = Vec::new(alloc);
    put_run(alloc, &mut out, to)?;
    put_spans(alloc, &mut out, script, journal, to)?;
    put_tracks(alloc, &mut out, script)?;
    Ok(Seq::from_vec(out))
}
