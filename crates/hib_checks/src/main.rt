//! Runs rows through the top call, over streams and keepers that the built program can't be given: each is an input of
//! the program, with what must come of it. The rows come on standard input, in the form that the head of the file `stdin`
//! describes, so that a row more is no code more. A line is printed for each row, and at the end one for each thing that
//! only direct calls can show.
#![tactic(auto)]

ghost use Rattle.std.specs.Prelude.{◌≡◌, true};
ghost use Rattle.hib_base.specs.Valid.{is_valid};

mod beside;
mod check;
mod evicting;
mod faults;
mod gate;
mod listening;
mod merging;
mod row;
mod stale;
mod words;
mod working;
mod world;

use faults::Fault;
use hib_base::Script;
use row::Row;
use std::alloc::{AllocError, Global};
use std::io;
use std::sync::Wait;
use std::thread::Threads;

/// The word and the text after it.
fn split(line: &str) -> (&str, &str) {
    line.split_once(' ').unwrap_or((line, ""))
}

/// Runs a row and prints its line.
fn finish<R: Threads + Wait + Sync>(
    rt: &R,
    out: &impl Print,
    alloc: Global,
    row: &Row,
) -> io::Result<()> {
    let fault = check::first_fault(rt, alloc, row)?;
    tell_row(out, row.name.as_str(), fault)
}

/// Prints the line of a row.
fn tell_row(out: &impl Print, name: &str, fault: Option<Fault<'_>>) -> io::Result<()> {
    match fault {
        None => println!(out; "row {name}: ok"),
        Some(Fault::Status(was)) => println!(out; "row {name}: its status is {was}"),
        Some(Fault::Says) => println!(out; "row {name}: it says something else"),
        Some(Fault::Output(at)) => println!(out; "row {name}: its output differs at byte {at}"),
        Some(Fault::NoLine(line)) => println!(out;
            "row {name}: its output has no line {line} there"
        ),
        Some(Fault::Keeps(has)) => println!(out; "row {name}: the keeper has {has} rows"),
        Some(Fault::Asks(was)) => println!(out; "row {name}: the keeper was asked {was} times"),
        Some(Fault::Journal) => println!(out; "row {name}: its journal isn't legal by the audit"),
    }
}

/// Prints the line of what is tried by direct calls.
fn tell(rt: &impl Print, name: &str, is_right: bool) -> io::Result<()> {
    let end = if is_right { "ok" } else { "it isn't so" };
    println!(rt; "call {name}: {end}")
}

/// Prints the lines of what is tried of listeners.
fn tell_listening(rt: &impl Print, alloc: Global) -> io::Result<()> {
    tell(rt, "listener-limited", listening::drops_the_limited(alloc)?)?;
    tell(
        rt,
        "listener-that-leaves",
        listening::drops_the_second(alloc)?,
    )?;
    tell(
        rt,
        "listener-without-memory",
        listening::stops_at_the_second(alloc)?,
    )?;
    tell(rt, "trace", listening::writes_lines(alloc)?)?;
    tell(rt, "listener-of-a-run", listening::hears_a_run(alloc)?)
}

/// Prints the lines of what is tried of workers.
fn tell_working<R: Threads + Wait + Sync>(
    rt: &R,
    out: &impl Print,
    alloc: Global,
) -> io::Result<()> {
    tell(out, "work-alone", working::has_no_form_alone(alloc)?)?;
    tell(
        out,
        "made-on-workers",
        working::ends_made_sessions(rt, alloc, false)?,
    )?;
    tell(
        out,
        "workers-beside",
        working::runs_beside(rt, alloc, false)?,
    )
}

/// Prints the lines of what is tried of parts under locks of their own.
fn tell_splitting<R: Threads + Wait + Sync>(
    rt: &R,
    out: &impl Print,
    alloc: Global,
) -> io::Result<()> {
    tell(
        out,
        "made-over-parts",
        working::ends_made_sessions(rt, alloc, true)?,
    )?;
    tell(
        out,
        "workers-over-parts",
        working::runs_beside(rt, alloc, true)?,
    )?;
    tell(out, "parts-beside", working::uses_two_parts(rt, alloc)?)
}

/// Prints the lines of what is tried of merged lists.
fn tell_merged(rt: &impl Print, alloc: Global, script: &Script) -> io::Result<()>
    requires { is_valid script.now ≡ true }
{
    tell(rt, "merged-lists", merging::comes_in_turn(alloc, script)?)?;
    tell(rt, "cut-list", merging::misses_an_end(alloc, script)?)?;
    tell(rt, "late-ticks", merging::finds_a_late_tick(alloc, script)?)
}

/// The same, if there is memory for their script.
fn tell_merging(rt: &impl Print, alloc: Global) -> io::Result<()> {
    match merging::two(alloc) {
        Some(script) => tell_merged(rt, alloc, &script),
        None => tell(rt, "merged-lists", false),
    }
}

/// Prints a line that says nothing of a row.
fn complain(rt: &impl Print, line: &str) -> io::Result<()> {
    println!(rt; "no form: {line}")
}

/// Begins a row of this name, and runs the one before it.
fn begin<R: Threads + Wait + Sync>(
    rt: &R,
    out: &impl Print,
    alloc: Global,
    open: &mut Option<Row>,
    name: &str,
) -> io::Result<()> {
    let row = Row::new(alloc, name)?;
    match open.replace(row) {
        Some(done) => finish(rt, out, alloc, &done),
        None => Ok(()),
    }
}

/// Takes a line of the description of the row that is open, and answers whether it has a form.
fn describe(
    alloc: Global,
    open: &mut Option<Row>,
    word: &str,
    text: &str,
) -> Result<bool, AllocError> {
    match open {
        Some(row) => row.take(alloc, word, text),
        None => Ok(false),
    }
}

/// Takes a line of the input.
fn take_line<R: Threads + Wait + Sync>(
    rt: &R,
    out: &impl Print,
    alloc: Global,
    open: &mut Option<Row>,
    line: &str,
) -> io::Result<()> {
    let (word, text) = split(line);
    if word.is_empty() || word == "#" {
        return Ok(());
    }
    if word == "row" {
        return begin(rt, out, alloc, open, text);
    }
    if describe(alloc, open, word, text)? {
        return Ok(());
    }
    complain(out, line)
}

/// Runs the rows of standard input, and prints the line of each.
fn try_rows<R: Threads + Wait + Sync>(rt: &R, host: &HostRuntime, alloc: Global) -> io::Result<()> {
    let mut open: Option<Row> = None;
    for line in host.lines(alloc) {
        let line = line?;
        take_line(rt, host, alloc, &mut open, line.as_str())?;
    }
    match &open {
        Some(row) => finish(rt, host, alloc, row),
        None => Ok(()),
    }
}

/// Prints the lines of what is tried of commits, evictions and words.
fn tell_calls(rt: &impl Print, alloc: Global) -> io::Result<()> {
    tell(rt, "stale-version", stale::finds_the_version(alloc)?)?;
    tell(rt, "stale-row", stale::finds_no_row(alloc)?)?;
    tell(rt, "long-eviction", evicting::finds_none(alloc)?)?;
    tell(rt, "full-region", evicting::leaves_in_turn(alloc)?)?;
    tell(rt, "word-with-a-path", words::keeps_a_path(alloc)?)?;
    tell(rt, "many-words", words::refuses_many(alloc)?)?;
    tell(rt, "help", words::helps(alloc)?)
}

fn main(rt: HostRuntime) -> io::Result<()> {
    let alloc = rt.alloc();
    try_rows(&rt, &rt, alloc)?;
    tell_calls(&rt, alloc)?;
    tell_listening(&rt, alloc)?;
    tell_working(&rt, &rt, alloc)?;
    tell_splitting(&rt, &rt, alloc)?;
    tell_merging(&rt, alloc)
}
