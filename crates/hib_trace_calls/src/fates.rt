// How the transactions of a trace ended.
ghost use Rattle.hib_trace_calls.specs.Ends.{IsTable, joined, looked, more};
ghost use Rattle.hib_trace_calls.specs.Writes as writes;
ghost use Rattle.hib_trace_calls.specs.Writes.{end_of, span_of};
ghost use Rattle.std.specs.List.{slice_index_or};
ghost use Rattle.std.specs.Prelude.{◌≡◌, ◌<◌, ℕ, IfOk, None, length, vec_len};

use crate::calls::{Call, Fate, Span};
use hib_trace_lines::{Operation, Outcome};
use std::alloc::{AllocError, Global};

/// What became of the writes of a commit by its outcome, if the call lasted so.
pub fn fate_by(outcome: Option<Outcome>, span: Span) -> Fate
    ensures { result ≡ writes.fate_by outcome span }
{
    match outcome {
        None => Fate::Committed(span),
        Some(Outcome::Committed) => Fate::Committed(span),
        Some(Outcome::Unknown) => Fate::Open,
        Some(Outcome::Stored) => Fate::Open,
        Some(Outcome::Refused) => Fate::Open,
        Some(Outcome::Done) => Fate::Open,
    }
}

/// From when a call lasted until when.
pub fn span_of(call: &Call) -> Span
    ensures { result ≡ span_of call.now }
{
    Span {
        begin: call.begin,
        end: call.end,
    }
}

// How a line says that its transaction ended.
fn end_told(call: &Call) -> Option<Fate>
    ensures { result ≡ writes.end_told call.now }
{
    match call.operation {
        Operation::Commit => Some(fate_by(call.outcome, span_of(call))),
        Operation::Rollback => Some(Fate::RolledBack),
        _ => None,
    }
}

// What is known of a transaction's end after one more line of it tells it.
fn joined_of(known: Option<Fate>, told: Fate) -> Fate
    ensures { result ≡ joined known told }
{
    match known {
        None => told,
        Some(_) => Fate::Open,
    }
}

// Notes in a table by transactions what a line tells.
fn note_end(table: &mut Vec<Option<Fate>>, call: &Call)
    ensures count { vec_len table.new ≡ vec_len table.old }
    ensures each { (t : ℕ) → t < vec_len table.old → slice_index_or table.new.items t None
        ≡ more (slice_index_or table.old.items t None) (end_of t call.now) }
{
    let Some(fate) = end_told(call) else {
        return;
    };
    let Some(transaction) = call.transaction else {
        return;
    };
    if transaction < table.len() {
        table[transaction] = Some(joined_of(table[transaction], fate));
    }
}

/// What is known of the end of each transaction, by its number: of those below `count`.
pub fn fates_in(
    alloc: Global,
    calls: &[Call],
    count: usize,
) -> Result<Vec<Option<Fate>>, AllocError>
    ensures count { IfOk result (λ v. vec_len v ≡ count) }
    ensures table { IfOk result (λ v. IsTable calls.now v.items) }
{
    let mut table = vec![in alloc; None; count]?;
    for call in calls {
        note_end(&mut table, call);
    }
    Ok(table)
}

/// The fate that a table has for a transaction.
pub fn fate_at(table: &[Option<Fate>], transaction: Option<usize>) -> Fate
    ensures { result ≡ looked table.now transaction }
{
    let Some(number) = transaction else {
        return Fate::Open;
    };
    if number < table.len() {
        match table[number] {
            Some(fate) => fate,
            None => Fate::Open,
        }
    } else {
        Fate::Open
    }
}
