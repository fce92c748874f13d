// When the writes of each key began.
ghost use Rattle.hib_trace_before.specs.Before.{is_behind};
ghost use Rattle.hib_trace_before.specs.Tables.{AreBegins, is_first};
ghost use Rattle.std.specs.List.{slice_index_or};
ghost use Rattle.std.specs.Prelude.{◌≡◌, ◌<◌, ◌&&◌, ℕ, IfOk, None, nat_lt, vec_len};

use hib_trace_calls::Write;
use std::alloc::{AllocError, Global};

// The earlier of two instants, if there are any.
fn earlier_of(known: Option<u64>, begin: u64) -> u64
    ensures { (t : ℕ) → nat_lt t result ≡ (is_first t known && nat_lt t begin) }
{
    match known {
        None => begin,
        Some(instant) => instant.min(begin),
    }
}

// Notes when a write began.
fn note_begin(begins: &mut Vec<Option<u64>>, write: &Write)
    ensures count { vec_len begins.new ≡ vec_len begins.old }
    ensures each { (k t : ℕ) → k < vec_len begins.old → is_first t (slice_index_or begins.new.items k None)
        ≡ (is_first t (slice_index_or begins.old.items k None) && is_behind k t write.now) }
{
    if write.key < begins.len() {
        begins[write.key] = Some(earlier_of(begins[write.key], write.begin));
    }
}

/// When the first write of each key began, for the keys below `count`.
pub fn begins_of(
    alloc: Global,
    writes: &[Write],
    count: usize,
) -> Result<Vec<Option<u64>>, AllocError>
    ensures count { IfOk result (λ v. vec_len v ≡ count) }
    ensures begins { IfOk result (λ v. AreBegins writes.now v.items) }
{
    let mut begins = vec![in alloc; None; count]?;
    for write in writes {
        note_begin(&mut begins, write);
    }
    Ok(begins)
}
