// The writes of a trace.
ghost use Rattle.hib_trace_calls.specs.Numbers.{IsBelow};
ghost use Rattle.hib_trace_calls.specs.Writes.{made_write, row_write_if, writes_of, writes_with};
ghost use Rattle.std.specs.List.{All};
ghost use Rattle.std.specs.Prelude.{◌≡◌, ◌++◌, IfOk, OnOk, map};

use crate::calls::{Call, Fate, Write};
use crate::fates::{fate_at, fate_by, fates_in, span_of};
use hib_trace_lines::Operation;
use std::alloc::{AllocError, Global};

// Adds the rows that a commit's line says it made.
fn put_made(out: &mut Vec<Write>, call: &Call) -> Result<(), AllocError>
    ensures { OnOk result (out.new.items ≡ out.old.items ++ map (made_write call.now) call.now.made.items) }
{
    for made in &call.made {
        out.push(Write {
            transaction: call.transaction,
            key: made.key,
            table: made.table,
            row: made.row,
            version: Some(made.version),
            begin: call.begin,
            end: call.end,
            fate: fate_by(call.outcome, span_of(call)),
        })?;
    }
    Ok(())
}

/// The write of a row that a line tells, if it came to this.
pub fn write_of(call: &Call, fate: Fate) -> Option<Write>
    ensures { result ≡ row_write_if fate call.now call.now.key call.now.table }
{
    match (call.key, call.table) {
        (Some(key), Some(table)) => Some(Write {
            transaction: call.transaction,
            key,
            table,
            row: call.row,
            version: call.version,
            begin: call.begin,
            end: call.end,
            fate,
        }),
        _ => None,
    }
}

// Adds the writes of a line, if its transaction's writes have this fate.
fn put_writes(out: &mut Vec<Write>, call: &Call, fate: Fate) -> Result<(), AllocError>
    ensures { OnOk result (out.new.items ≡ out.old.items ++ writes_with fate call.now) }
{
    match call.operation {
        Operation::Write => {
            if let Some(write) = write_of(call, fate) {
                out.push(write)?;
            }
            Ok(())
        }
        Operation::Commit => put_made(out, call),
        _ => Ok(()),
    }
}

/// The writes of a trace of so many transactions, each with what became of it.
pub fn writes_in(
    alloc: Global,
    calls: &[Call],
    transactions: usize,
) -> Result<Vec<Write>, AllocError>
    requires { All (λ c. IsBelow transactions c.transaction) calls.now }
    ensures { IfOk result (λ v. v.items ≡ writes_of calls.now) }
{
    let table = fates_in(alloc, calls, transactions)?;
    let mut writes = Vec::new(alloc);
    for call in calls {
        put_writes(&mut writes, call, fate_at(&table, call.transaction))?;
    }
    Ok(writes)
}
