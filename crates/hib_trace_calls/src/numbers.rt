// Numbers for the texts of events.
ghost use Rattle.hib_trace_calls.specs.Numbers.{AllGrow, AreApart, Grows, IsCall, IsMade, IsBelow, IsNamedIf};
ghost use Rattle.hib_trace_calls.specs.Rows.{no_row, row_told, table_told, value_told, version_told};
ghost use Rattle.hib_trace_lines.specs.Rows.{row_text};
ghost use Rattle.hib_trace_numbers.specs.Texts.{IsNamed, texts};
ghost use Rattle.std.specs.List.{All, AllZip};
ghost use Rattle.std.specs.Prelude.{◌≡◌, ◌<◌, [], IfOk, OnOk, length, map, option_map, string_bytes};

use crate::calls::{Call, Made, Texts, Trace};
use crate::rows::{NO_ROW, row_text, table_name, value_text, version_text};
use hib_trace_lines::{Event, WrittenRow};
use hib_trace_numbers::Names;
use std::alloc::{AllocError, Global};

// The number of a text.
fn number_text(alloc: Global, names: &mut Names, text: &str) -> Result<usize, AllocError>
    ensures named { IfOk result (λ n. IsNamed (texts names.new) n text.now) }
    ensures grows { Grows (texts names.old) (texts names.new) }
{
    names.number(alloc, text)
}

// The number of a text, if there is one.
fn number_if(
    alloc: Global,
    names: &mut Names,
    text: &Option<String>,
) -> Result<Option<usize>, AllocError>
    ensures named { IfOk result (λ n. IsNamedIf (texts names.new) n (option_map string_bytes text.now)) }
    ensures grows { OnOk result (Grows (texts names.old) (texts names.new)) }
{
    match text {
        None => Ok(None),
        Some(text) => Ok(Some(number_text(alloc, names, text.as_str())?)),
    }
}

// The number of an event's row.
fn number_row(alloc: Global, names: &mut Names, event: &Event) -> Result<usize, AllocError>
    ensures named { IfOk result (λ n. IsNamed (texts names.new) n (row_told event.now)) }
    ensures grows { OnOk result (Grows (texts names.old) (texts names.new)) }
{
    let text = row_text(alloc, event)?;
    number_text(alloc, names, text.as_str())
}

// The number of the row that an event rests on, if that is told.
fn number_base(alloc: Global, names: &mut Names, event: &Event) -> Result<Option<usize>, AllocError>
    ensures named { IfOk result (λ n. IsNamedIf (texts names.new) n (option_map value_told event.now.base)) }
    ensures grows { OnOk result (Grows (texts names.old) (texts names.new)) }
{
    match &event.base {
        None => Ok(None),
        Some(base) => {
            let text = value_text(alloc, base.as_str())?;
            Ok(Some(number_text(alloc, names, text.as_str())?))
        }
    }
}

// The number of the table that a key is of.
fn number_table(alloc: Global, names: &mut Names, key: &str) -> Result<usize, AllocError>
    ensures named { IfOk result (λ n. IsNamed (texts names.new) n (table_told key.now)) }
    ensures grows { Grows (texts names.old) (texts names.new) }
{
    number_text(alloc, names, table_name(key))
}

// The number of the table that a key is of, if there is one.
fn number_table_if(
    alloc: Global,
    names: &mut Names,
    key: &Option<String>,
) -> Result<Option<usize>, AllocError>
    ensures named { IfOk result (λ n. IsNamedIf (texts names.new) n (option_map table_told (option_map string_bytes key.now))) }
    ensures grows { OnOk result (Grows (texts names.old) (texts names.new)) }
{
    match key {
        None => Ok(None),
        Some(key) => Ok(Some(number_table(alloc, names, key.as_str())?)),
    }
}

// The numbers of texts.
fn number_each(alloc: Global, names: &mut Names, all: &[String]) -> Result<Vec<usize>, AllocError>
    ensures named { IfOk result (λ v. AllZip (λ x n. IsNamed (texts names.new) n x) (map string_bytes all.now) v.items) }
    ensures grows { OnOk result (Grows (texts names.old) (texts names.new)) }
{
    let mut numbers = Vec::new(alloc);
    for text in all {
        numbers.push(number_text(alloc, names, text.as_str())?)?;
    }
    Ok(numbers)
}

// The numbers of a row that a commit says it made.
fn number_made(alloc: Global, texts: &mut Texts, write: &WrittenRow) -> Result<Made, AllocError>
    ensures made { IfOk result (IsMade texts.new (row_text write.now)) }
    ensures grows { OnOk result (AllGrow texts.old texts.new) }
{
    let key = number_text(alloc, &mut texts.keys, write.key.as_str())?;
    let table = number_table(alloc, &mut texts.tables, write.key.as_str())?;
    let text = version_text(alloc, write.version)?;
    let row = number_text(alloc, &mut texts.rows, text.as_str())?;
    Ok(Made {
        key,
        table,
        row,
        version: write.version,
    })
}

// The numbers of the rows that a commit says it made.
fn number_all(
    alloc: Global,
    texts: &mut Texts,
    writes: &[WrittenRow],
) -> Result<Vec<Made>, AllocError>
    ensures made { IfOk result (λ v. AllZip (IsMade texts.new) (map row_text writes.now) v.items) }
    ensures grows { OnOk result (AllGrow texts.old texts.new) }
{
    let mut made = Vec::new(alloc);
    for write in writes {
        made.push(number_made(alloc, texts, write)?)?;
    }
    Ok(made)
}

// The call that an event says, with numbers for its texts.
fn number_event(alloc: Global, texts: &mut Texts, event: &Event) -> Result<Call, AllocError>
    ensures is { IfOk result (IsCall texts.new event.now) }
    ensures grows { OnOk result (AllGrow texts.old texts.new) }
{
    let session = number_if(alloc, &mut texts.sessions, &event.session)?;
    let transaction = number_if(alloc, &mut texts.transactions, &event.transaction)?;
    let key = number_if(alloc, &mut texts.keys, &event.key)?;
    let row = number_row(alloc, &mut texts.rows, event)?;
    let base = number_base(alloc, &mut texts.rows, event)?;
    let table = number_table_if(alloc, &mut texts.tables, &event.key)?;
    let tables = number_each(alloc, &mut texts.tables, &event.tables)?;
    let made = number_all(alloc, texts, &event.writes)?;
    Ok(Call {
        operation: event.operation,
        session,
        transaction,
        key,
        table,
        row,
        version: event.version,
        base,
        outcome: event.outcome,
        made,
        tables,
        begin: event.begin,
        end: event.end,
    })
}

/// The calls of a trace, with numbers for the texts of its events.
pub fn numbered(alloc: Global, events: &[Event]) -> Result<Trace, AllocError>
    ensures calls { IfOk result (λ t. AllZip (IsCall t.texts) events.now t.calls.items) }
    ensures apart { IfOk result (λ t. AreApart t.texts) }
    ensures none { IfOk result (λ t. IsNamed (texts t.texts.rows) t.none no_row) }
    ensures keys { IfOk result (λ t. All (λ c. IsBelow (length (texts t.texts.keys)) c.key) t.calls.items) }
    ensures tables { IfOk result (λ t. All (λ c. IsBelow (length (texts t.texts.tables)) c.table) t.calls.items) }
    ensures lists { IfOk result (λ t. All (λ c. All (λ n. n < length (texts t.texts.tables)) c.tables.items) t.calls.items) }
    ensures sessions { IfOk result (λ t. All (λ c. IsBelow (length (texts t.texts.sessions)) c.session) t.calls.items) }
    ensures transactions { IfOk result (λ t.
        All (λ c. IsBelow (length (texts t.texts.transactions)) c.transaction) t.calls.items) }
{
    let mut texts = Texts {
        sessions: Names::new(alloc),
        keys: Names::new(alloc),
        tables: Names::new(alloc),
        transactions: Names::new(alloc),
        rows: Names::new(alloc),
    };
    let none = number_text(alloc, &mut texts.rows, NO_ROW)?;
    let mut calls = Vec::new(alloc);
    for event in events {
        calls.push(number_event(alloc, &mut texts, event)?)?;
    }
    Ok(Trace { calls, texts, none })
}
