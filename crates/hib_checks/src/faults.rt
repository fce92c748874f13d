// What of that which came of a row isn't as the row says.
use crate::row::Row;

/// What the top call left.
#[derive(Drop)]
pub struct Came {
    pub status: u32,
    pub says: Vec<u8>,
    pub output: Vec<u8>,
    pub keeps: usize,
    pub asks: u64,
}

/// What isn't as a row says.
#[derive(Clone, Copy)]
pub enum Fault<'a> {
    /// The status has this number.
    Status(u32),
    /// Another line is said on standard error.
    Says,
    /// The output differs at this byte.
    Output(usize),
    /// The output has no such line there.
    NoLine(&'a str),
    /// The keeper has so many rows.
    Keeps(usize),
    /// The keeper was asked so often.
    Asks(u64),
    /// The audit finds the journal illegal.
    Journal,
}

/// How many bytes two texts have in common at their heads.
fn common(a: &[u8], b: &[u8]) -> usize {
    a.iter().zip(b.iter()).take_while(|(x, y)| *x == *y).count()
}

/// Whether a line with its end is this text; no line is the empty text.
fn is_line(line: &[u8], text: &str) -> bool {
    match line {
        [] => text.is_empty(),
        [front @ .., last] => *last == b'\n' && front == text.as_bytes(),
    }
}

/// What is wrong with the output, if anything.
fn output_fault<'a>(row: &'a Row, output: &[u8]) -> Option<Fault<'a>> {
    if row.text("has").is_some() {
        let text = str::from_utf8(output).unwrap_or("");
        return Some(Fault::NoLine(row.missing(text)?));
    }
    let wanted = row.output.as_slice();
    if output == wanted {
        return None;
    }
    Some(Fault::Output(common(output, wanted)))
}

/// What is wrong with what came of a row, if anything.
pub fn fault_of<'a>(row: &'a Row, came: &Came) -> Option<Fault<'a>> {
    if came.status != row.number("status").unwrap_or(0) {
        return Some(Fault::Status(came.status));
    }
    if !is_line(came.says.as_slice(), row.text("says").unwrap_or("")) {
        return Some(Fault::Says);
    }
    let fault = output_fault(row, came.output.as_slice());
    if fault.is_some() {
        return fault;
    }
    if came.keeps != row.number("keeps").unwrap_or(0) as usize {
        return Some(Fault::Keeps(came.keeps));
    }
    match row.number("asks") {
        Some(asks) if came.asks != u64::from(asks) => Some(Fault::Asks(came.asks)),
        _ => None,
    }
}
