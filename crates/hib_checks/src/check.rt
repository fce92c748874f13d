// What comes of a row of the checks, by the top call, and the first thing that isn't as the row says (a fault).
use crate::faults::{Came, Fault, fault_of};
use crate::row::Row;
use crate::words::words_of;
use crate::world::{keeper_of, sink_with, source_with};
use hib_call::{Called, Lent, Status, status_line};
use hib_outside::{Keeper, Listener, MemKeeper, MemSink, MemSource, OpenGate};
use hib_top::{AnyRun, top};
use std::alloc::{AllocError, Global};
use std::sync::Wait;
use std::thread::Threads;

/// The bytes that a sink takes if a row says nothing of its room.
const ROOM: u32 = 4_194_304;

/// The line that the program prints on standard error, with its end; nothing if all is done.
fn said(alloc: Global, status: &Status) -> Result<Vec<u8>, AllocError> {
    match status {
        Status::Done => Ok(Vec::new(alloc)),
        _ => Ok(status_line(alloc, status)?.into_vec()),
    }
}

/// What the top call left of the sink and the keeper.
fn left_by(
    alloc: Global,
    called: &Called<AnyRun, MemKeeper, Box<dyn Listener>>,
    sink: &MemSink,
) -> Result<Came, AllocError> {
    let says = said(alloc, &called.status)?;
    let output = sink.bytes().to_vec(alloc)?;
    Ok(Came {
        status: u32::from(called.status.number()),
        says,
        output,
        keeps: called.lent.keeper.rows.len(),
        asks: called.lent.keeper.asked(),
    })
}

/// Runs the top call with these words over a source, a sink and a keeper.
fn end<R: Threads + Wait + Sync>(
    rt: &R,
    alloc: Global,
    words: &[String],
    source: &mut MemSource,
    sink: &mut MemSink,
    keeper: MemKeeper,
) -> Result<Came, AllocError> {
    let listeners = Vec::new(alloc);
    let lent = Lent { keeper, listeners };
    let called = top(rt, alloc, words, source, sink, lent, &OpenGate);
    left_by(alloc, &called, sink)
}

/// Runs the top call with these words on an input, over objects in memory that fail as a row says, and a sink with this
/// room.
fn play<R: Threads + Wait + Sync>(
    rt: &R,
    alloc: Global,
    row: &Row,
    room: u32,
    words: &[String],
    input: &[u8],
) -> Result<Came, AllocError> {
    let mut source = source_with(alloc, input, row.numbers(alloc, "source-fails")?)?;
    let mut sink = sink_with(alloc, room, row.numbers(alloc, "sink-fails")?)?;
    let keeper = keeper_of(alloc, row)?;
    end(rt, alloc, words, &mut source, &mut sink, keeper)
}

/// Runs the top call with the words of this line of a row.
fn play_line<R: Threads + Wait + Sync>(
    rt: &R,
    alloc: Global,
    row: &Row,
    line: &str,
) -> Result<Came, AllocError> {
    let words = row.words(alloc, line)?;
    let room = row.number("room").unwrap_or(ROOM);
    play(rt, alloc, row, room, words.as_slice(), row.input.as_slice())
}

/// Runs the top call with the words of this text, over a sink with room for all.
fn play_words<R: Threads + Wait + Sync>(
    rt: &R,
    alloc: Global,
    row: &Row,
    text: &[&str],
    input: &[u8],
) -> Result<Came, AllocError> {
    let words = words_of(alloc, text)?;
    play(rt, alloc, row, ROOM, words.as_slice(), input)
}

/// Adds the line `journal` and these lines to a script.
fn add_journal(script: &mut Vec<u8>, lines: &[u8]) -> Result<(), AllocError> {
    if !script.ends_with(b"\n") {
        script.push(b'\n')?;
    }
    script.extend_from_slice(b"journal\n")?;
    script.extend_from_slice(lines)
}

/// Whether the journal of a row is legal by the audit.
fn is_legal<R: Threads + Wait + Sync>(
    rt: &R,
    alloc: Global,
    row: &Row,
) -> Result<bool, AllocError> {
    let input = row.input.as_slice();
    let lines = play_words(rt, alloc, row, &["play", "--journal"], input)?;
    let mut audited = input.to_vec(alloc)?;
    add_journal(&mut audited, lines.output.as_slice())?;
    let came = play_words(rt, alloc, row, &["audit"], audited.as_slice())?;
    Ok(came.status == 0 && came.output.starts_with(b"legal "))
}

/// Whether a row is a run whose journal is to be audited: by its schedule, to its end, from the script's rows.
fn has_journal(row: &Row) -> bool {
    let is_done = row.number("status").unwrap_or(0) == 0;
    row.text("words") == Some("play") && is_done && row.text("kept").is_none()
}

/// What is wrong with what comes of the words of this line of a row, if anything.
fn fault_of_line<'a, R: Threads + Wait + Sync>(
    rt: &R,
    alloc: Global,
    row: &'a Row,
    line: &str,
) -> Result<Option<Fault<'a>>, AllocError> {
    let came = play_line(rt, alloc, row, line)?;
    Ok(fault_of(row, &came))
}

/// Makes the call of a row of the checks, and gives the first thing that isn't as the row says. None if all is.
pub fn first_fault<'a, R: Threads + Wait + Sync>(
    rt: &R,
    alloc: Global,
    row: &'a Row,
) -> Result<Option<Fault<'a>>, AllocError> {
    if row.text("also").is_some() {
        let fault = fault_of_line(rt, alloc, row, "also")?;
        if fault.is_some() {
            return Ok(fault);
        }
    }
    let fault = fault_of_line(rt, alloc, row, "words")?;
    if fault.is_some() || !has_journal(row) || is_legal(rt, alloc, row)? {
        return Ok(fault);
    }
    Ok(Some(Fault::Journal))
}
