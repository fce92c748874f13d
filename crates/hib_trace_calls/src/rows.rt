// How rows are told.
ghost use Rattle.hib_trace_calls.specs.Rows.{row_told, table_told, value_told, version_told};
ghost use Rattle.std.specs.Prelude.{◌≡◌, ◌++◌, IfOk, string_bytes};

use hib_trace_lines::Event;
use itoa::Buffer;
use std::alloc::{AllocError, Global};

// A text after another one.
fn joined(alloc: Global, first: &str, second: &str) -> Result<String, AllocError>
    ensures { IfOk result (λ s. string_bytes s ≡ first.now ++ second.now) }
{
    let mut text = String::from_str(alloc, first)?;
    text.push_str(second)?;
    Ok(text)
}

/// A version, as a report tells it.
pub fn version_text(alloc: Global, version: u64) -> Result<String, AllocError>
    ensures { IfOk result (λ s. string_bytes s ≡ version_told version) }
{
    let mut digits = Buffer::new();
    joined(alloc, "version ", digits.format(version))
}

/// How it is told that there is no row.
pub const NO_ROW: &str = "no row";

/// The table that a key is of: what stands before its first space.
pub fn table_name(key: &str) -> &str
    ensures { result.now ≡ table_told key.now }
{
    match key.split_once(' ') {
        Some((table, _)) => table,
        None => key,
    }
}

/// The row of a value, as a report tells it.
pub fn value_text(alloc: Global, value: &str) -> Result<String, AllocError>
    ensures { IfOk result (λ s. string_bytes s ≡ value_told value.now) }
{
    joined(alloc, "value ", value)
}

/// The row of an event, as a report tells it: by its value, else by its version.
pub fn row_text(alloc: Global, event: &Event) -> Result<String, AllocError>
    ensures { IfOk result (λ s. string_bytes s ≡ row_told event.now) }
{
    match &event.value {
        Some(value) => value_text(alloc, value.as_str()),
        None => match event.version {
            Some(version) => version_text(alloc, version),
            None => String::from_str(alloc, NO_ROW),
        },
    }
}
