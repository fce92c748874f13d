// The lines of the input: each block of them is over the keeper that its first line opens.
use crate::{play, words};
use hib_base::{Change, Key, Mapping, Row, Seq};
use hib_entry_fields::{is, piece, row_at};
use hib_keeper_sqlite::in_memory;
use hib_outside::Keeper;
use std::alloc::{AllocError, Global};
use std::io;

/// What was read for the next call of the keeper that is open.
#[derive(Drop)]
pub struct NextCall {
    alloc: Global,
    next: Next,
}

/// What the next call takes.
#[derive(Drop)]
struct Next {
    mapping: Mapping,
    rows: Vec<(Key, Row)>,
    changes: Vec<Change>,
}

fn nothing(alloc: Global) -> Next {
    Next {
        mapping: Seq::new(alloc),
        rows: Vec::new(alloc),
        changes: Vec::new(alloc),
    }
}

impl Next {
    /// Adds what a line says to what the next call takes. Answers whether it says something of it.
    fn gather(&mut self, alloc: Global, word: &[u8], rest: &[u8]) -> Result<bool, AllocError> {
        if is(word, b"columns") {
            self.mapping.push(words::columns(alloc, rest)?)?;
        } else if is(word, b"row") {
            let (key, rest) = words::key_at(rest);
            let (row, _) = row_at(alloc, rest)?;
            self.rows.push((key, row))?;
        } else if is(word, b"insert") {
            self.changes.push(words::insert(alloc, rest)?)?;
        } else if is(word, b"update") {
            self.changes.push(words::update(alloc, rest)?)?;
        } else if is(word, b"delete") {
            self.changes.push(words::delete(rest))?;
        } else {
            return Ok(false);
        }
        Ok(true)
    }
}

/// A call of a keeper by a word, and its answer as text.
fn call<K: Keeper>(
    out: &mut String,
    alloc: Global,
    keeper: &mut K,
    word: &[u8],
    rest: &[u8],
    next: &Next,
) -> io::Result<()> {
    if is(word, b"seed") {
        return play::seed(out, alloc, keeper, &next.mapping, next.rows.as_slice());
    }
    if is(word, b"apply") {
        return play::apply(out, alloc, keeper, next.changes.as_slice());
    }
    if is(word, b"list") {
        let entities = words::entities(alloc, rest)?;
        return play::list(out, alloc, keeper, entities.as_slice());
    }
    if is(word, b"read") {
        return play::read(out, alloc, keeper, words::key_at(rest).0);
    }
    Ok(out.push_str("no form")?)
}

/// Does what these lines say over a keeper, up to the one that closes it. Answers how many lines were taken.
fn serve<K: Keeper>(
    rt: &HostRuntime,
    call: &mut NextCall,
    lines: &[String],
    keeper: &mut K,
) -> io::Result<usize> {
    for (place, line) in lines.iter().enumerate() {
        if line.as_str() == "close" {
            println!(rt; "close: ok")?;
            return Ok(place.saturating_add(1));
        }
        call.take_line(rt, line.as_str(), keeper)?;
    }
    Ok(lines.len())
}

/// Whether a line says nothing.
fn is_skipped(line: &str) -> bool {
    line.is_empty() || line.starts_with("#")
}

/// Opens a keeper in memory if a line says so, and does over it what those after it say. Answers how many of these were
/// taken.
pub fn open(
    rt: &HostRuntime,
    call: &mut NextCall,
    line: &str,
    lines: &[String],
) -> io::Result<usize> {
    if is_skipped(line) {
        return Ok(0);
    }
    if line != "memory" {
        println!(rt; "{line}: no form")?;
        return Ok(0);
    }
    println!(rt; "{line}: ok")?;
    match in_memory(call.alloc) {
        Ok(mut keeper) => serve(rt, call, lines, &mut keeper),
        Err(_) => Ok(0),
    }
}

impl NextCall {
    /// Nothing was read for the next call.
    pub fn new(alloc: Global) -> NextCall {
        NextCall {
            alloc,
            next: nothing(alloc),
        }
    }

    /// Does what a line says over a keeper, and prints the line with what came of it, unless it only adds to the next
    /// call.
    fn take_line<K: Keeper>(
        &mut self,
        rt: &HostRuntime,
        line: &str,
        keeper: &mut K,
    ) -> io::Result<()> {
        if is_skipped(line) {
            return Ok(());
        }
        let (word, rest) = piece(line.as_bytes());
        if self.next.gather(self.alloc, word, rest)? {
            return Ok(());
        }
        let mut out = String::new(self.alloc);
        call(&mut out, self.alloc, keeper, word, rest, &self.next)?;
        self.next = nothing(self.alloc);
        println!(rt; "{line}: {}", out.as_str())
    }
}
