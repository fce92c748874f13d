// The rows before the writes.
ghost use Rattle.hib_trace_before.specs.Before as before;
ghost use Rattle.hib_trace_before.specs.Before.{before_of, is_load_at};
ghost use Rattle.hib_trace_before.specs.Tables.{AreRows, is_first};
ghost use Rattle.std.specs.List.{slice_index_or};
ghost use Rattle.std.specs.Option.{option_map, option_or, option_to_list};
ghost use Rattle.std.specs.Prelude.{◌≡◌, ◌<◌, ◌+◌, ◌++◌, ◌&&◌, ℕ, IfOk, OnOk, None, Some, if◌then◌else◌, length, vec_len};

use crate::begins::begins_of;
use hib_trace_calls::{Call, Fate, Span, Write};
use hib_trace_lines::Operation;
use std::alloc::{AllocError, Global};

// The key that a call loads, if it is a load.
fn loaded_key(call: &Call) -> Option<usize>
    ensures { result ≡ before.loaded_key call.now }
{
    match call.operation {
        Operation::Load => call.key,
        _ => None,
    }
}

// Whether an instant, which may be later by so much twice, comes before another one, if there is one.
fn comes_first(instant: u64, clock: u64, begin: Option<u64>) -> bool
    ensures { result ≡ is_first (instant + clock + clock) begin }
{
    match begin {
        None => true,
        Some(at) => instant.saturating_add(clock).saturating_add(clock) < at,
    }
}

// Notes the row of a load that had ended before each write of its key began, if none is noted.
fn note_row(rows: &mut Vec<Option<usize>>, begins: &[Option<u64>], call: &Call, clock: u64)
    ensures count { vec_len rows.new ≡ vec_len rows.old }
    ensures each { (k : ℕ) → k < vec_len rows.old → k < length begins.now → slice_index_or rows.new.items k None
        ≡ option_or (slice_index_or rows.old.items k None)
        (if is_load_at k call.now && is_first (call.now.end + clock + clock) (slice_index_or begins.now k None)
        then Some call.now.row else None) }
{
    let Some(key) = loaded_key(call) else {
        return;
    };
    if key >= rows.len() || key >= begins.len() {
        return;
    }
    if rows[key].is_none() && comes_first(call.end, clock, begins[key]) {
        rows[key] = Some(call.row);
    }
}

// The row that each key had, for the keys of these begins.
fn rows_of(
    alloc: Global,
    calls: &[Call],
    begins: &[Option<u64>],
    clock: u64,
) -> Result<Vec<Option<usize>>, AllocError>
    ensures count { IfOk result (λ v. vec_len v ≡ length begins.now) }
    ensures rows { IfOk result (λ v. AreRows calls.now begins.now clock v.items) }
{
    let mut rows = vec![in alloc; None; begins.len()]?;
    for call in calls {
        note_row(&mut rows, begins, call, clock);
    }
    Ok(rows)
}

// A row that a key had, as a write that was committed at the clock's 0. No list is judged by it, so its table doesn't matter.
fn write_before(key: usize, row: usize) -> Write
    ensures { result ≡ before.write_before key row }
{
    Write {
        transaction: None,
        key,
        table: 0,
        row,
        version: None,
        begin: 0,
        end: 0,
        fate: Fate::Committed(Span { begin: 0, end: 0 }),
    }
}

// Adds the row that a key had, if it is known.
fn put_before(out: &mut Vec<Write>, key: usize, row: Option<usize>) -> Result<(), AllocError>
    ensures { OnOk result (out.new.items ≡ out.old.items ++ option_to_list (option_map (before.write_before key) row)) }
{
    if let Some(row) = row {
        out.push(write_before(key, row))?;
    }
    Ok(())
}

/// The rows that keys had before the writes of a trace, as writes that were committed at the clock's 0: of each key
/// below `count` the row of the first load that had ended before any write of the key began, if there is such a load.
/// Clocks may differ by `clock`.
pub fn rows_before(
    alloc: Global,
    calls: &[Call],
    writes: &[Write],
    count: usize,
    clock: u64,
) -> Result<Vec<Write>, AllocError>
    ensures { IfOk result (λ v. v.items ≡ before_of clock calls.now writes.now count) }
{
    let begins = begins_of(alloc, writes, count)?;
    let rows = rows_of(alloc, calls, &begins, clock)?;
    let mut out = Vec::new(alloc);
    let mut key = 0;
    while key < rows.len() {
        put_before(&mut out, key, rows[key])?;
        key += 1;
    }
    Ok(out)
}
