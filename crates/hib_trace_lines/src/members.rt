// The members of a line's object, and the event that they are.
ghost use Rattle.hib_trace_lines.specs.Members as members;
ghost use Rattle.hib_trace_lines.specs.Rows.{row_text};
ghost use Rattle.serde_json.specs.Find.{as_str};
ghost use Rattle.serde_json.specs.View.{items_view, view};
ghost use Rattle.std.specs.Option.{option_map};
ghost use Rattle.std.specs.Prelude.{◌≡◌, IfOk, map, string_bytes};

use crate::events::{Event, Operation, Outcome, WrittenRow};
use crate::faults::Member;
use crate::words;
use serde_json::Value;
use std::alloc::{AllocError, Global};

/// The text of a member, if it is one.
pub fn text_at(value: &Value, member: Member) -> Option<&str>
    ensures { option_map (λ s. s.now) result ≡ members.text_at member (view value.now) }
{
    value.get(member.name()).and_then(Value::as_str)
}

/// The number of a member, if it is a whole one of 64 bits.
pub fn whole_at(value: &Value, member: Member) -> Option<u64>
    ensures { result ≡ members.whole_at member (view value.now) }
{
    value.get(member.name()).and_then(Value::as_u64)
}

/// What the call was for, if that is told.
pub fn operation_at(value: &Value) -> Option<Operation>
    ensures { result ≡ members.operation_at (view value.now) }
{
    match text_at(value, Member::Operation) {
        Some(word) => words::operation_of(word),
        None => None,
    }
}

/// How the call ended, if that is told.
pub fn outcome_at(value: &Value) -> Option<Outcome>
    ensures { result ≡ members.outcome_at (view value.now) }
{
    match text_at(value, Member::Outcome) {
        Some(word) => words::outcome_of(word),
        None => None,
    }
}

// The text of a member, owned.
fn owned_text(alloc: Global, value: &Value, member: Member) -> Result<Option<String>, AllocError>
    ensures { IfOk result (λ o. option_map string_bytes o ≡ members.text_at member (view value.now)) }
{
    match text_at(value, member) {
        Some(text) => Ok(Some(String::from_str(alloc, text)?)),
        None => Ok(None),
    }
}

// The pair of a key and a version that a value is.
fn row_of(alloc: Global, value: &Value) -> Result<Option<WrittenRow>, AllocError>
    ensures { IfOk result (λ o. option_map row_text o
        ≡ members.row_in (view value.now)) }
{
    let key = value.get(0usize).and_then(Value::as_str);
    let version = value.get(1usize).and_then(Value::as_u64);
    match (key, version, value.get(2usize)) {
        (Some(key), Some(version), None) => Ok(Some(WrittenRow {
            key: String::from_str(alloc, key)?,
            version,
        })),
        _ => Ok(None),
    }
}

// The pairs that values are, if each is one.
fn rows_in(alloc: Global, values: &Vec<Value>) -> Result<Option<Vec<WrittenRow>>, AllocError>
    ensures { IfOk result (λ o. option_map (λ v. map row_text v.items) o
        ≡ members.each_in members.row_in (items_view values.now.items)) }
{
    let mut rows = Vec::new(alloc);
    for value in values {
        match row_of(alloc, value)? {
            Some(row) => rows.push(row)?,
            None => return Ok(None),
        }
    }
    Ok(Some(rows))
}

/// The rows that a commit says it made; none if they aren't pairs of a key and a version.
pub fn rows_at(alloc: Global, value: &Value) -> Result<Option<Vec<WrittenRow>>, AllocError>
    ensures { IfOk result (λ o. option_map (λ v. map row_text v.items) o
        ≡ members.rows_at (view value.now)) }
{
    match value.get(Member::Writes.name()) {
        None => Ok(Some(Vec::new(alloc))),
        Some(Value::Null) => Ok(Some(Vec::new(alloc))),
        Some(Value::Array(values)) => rows_in(alloc, values),
        Some(_) => Ok(None),
    }
}

// The texts that values are, if each is one.
fn texts_in(alloc: Global, values: &Vec<Value>) -> Result<Option<Vec<String>>, AllocError>
    ensures { IfOk result (λ o. option_map (λ v. map string_bytes v.items) o
        ≡ members.each_in as_str (items_view values.now.items)) }
{
    let mut texts = Vec::new(alloc);
    for value in values {
        match value.as_str() {
            Some(text) => texts.push(String::from_str(alloc, text)?)?,
            None => return Ok(None),
        }
    }
    Ok(Some(texts))
}

/// The tables that a list is of; none if they aren't texts.
pub fn tables_at(alloc: Global, value: &Value) -> Result<Option<Vec<String>>, AllocError>
    ensures { IfOk result (λ o. option_map (λ v. map string_bytes v.items) o
        ≡ members.tables_at (view value.now)) }
{
    match value.get(Member::Tables.name()) {
        None => Ok(Some(Vec::new(alloc))),
        Some(Value::Null) => Ok(Some(Vec::new(alloc))),
        Some(Value::Array(values)) => texts_in(alloc, values),
        Some(_) => Ok(None),
    }
}

/// The event that an object says, if it has what each event needs.
pub fn event_of(alloc: Global, value: &Value) -> Result<Option<Event>, AllocError>
    ensures { IfOk result (λ o. o ≡ members.event_of (view value.now)) }
{
    let session = owned_text(alloc, value, Member::Session)?;
    let transaction = owned_text(alloc, value, Member::Transaction)?;
    let key = owned_text(alloc, value, Member::Key)?;
    let row = owned_text(alloc, value, Member::Value)?;
    let base = owned_text(alloc, value, Member::Base)?;
    let writes = rows_at(alloc, value)?;
    let tables = tables_at(alloc, value)?;
    let begin = whole_at(value, Member::Begin);
    let end = whole_at(value, Member::End);
    match (operation_at(value), writes, tables, begin, end) {
        (Some(operation), Some(writes), Some(tables), Some(begin), Some(end)) => Ok(Some(Event {
            operation,
            session,
            transaction,
            key,
            value: row,
            version: whole_at(value, Member::Version),
            base,
            outcome: outcome_at(value),
            writes,
            tables,
            begin,
            end,
        })),
        _ => Ok(None),
    }
}
