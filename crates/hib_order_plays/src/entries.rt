// What each entry of a run is as a step.
ghost use Rattle.hib_order_law.specs.Orders.{step_of, steps_in, turn_by, turns_in};
ghost use Rattle.std.specs.Prelude.{◌≡◌, IfOk, unwrap_or};

use hib_base::{Act, Entry};
use hib_order_law::{Step, Turn};
use std::alloc::{AllocError, Global};

/// The session of an entry, or the first one if it has none.
fn session_of(entry: &Entry) -> u32
    ensures { result ≡ unwrap_or entry.now.session 0 }
{
    match entry.session {
        Some(session) => session.0,
        None => 0,
    }
}

/// The step that an entry is.
fn step_of(entry: &Entry) -> Step
    ensures { result ≡ step_of entry.now }
{
    match &entry.act {
        Act::Kill { session } => Step::Kill(session.0),
        _ => Step::Own(session_of(entry)),
    }
}

/// What an entry does to its session.
fn turn_of(entry: &Entry) -> Turn
    ensures { result ≡ turn_by entry.now.act }
{
    match &entry.act {
        Act::Begin => Turn::Opens,
        Act::End => Turn::Closes,
        _ => Turn::GoesOn,
    }
}

/// The step that each entry is.
pub fn order_of(alloc: Global, entries: &[Entry]) -> Result<Vec<Step>, AllocError>
    ensures { IfOk result (λ v. v.items ≡ steps_in entries.now) }
{
    let mut order = Vec::with_capacity(alloc, entries.len())?;
    for entry in entries {
        order.push(step_of(entry))?;
    }
    Ok(order)
}

/// What each entry does to its session.
pub fn turns_of(alloc: Global, entries: &[Entry]) -> Result<Vec<Turn>, AllocError>
    ensures { IfOk result (λ v. v.items ≡ turns_in entries.now) }
{
    let mut turns = Vec::with_capacity(alloc, entries.len())?;
    for entry in entries {
        turns.push(turn_of(entry))?;
    }
    Ok(turns)
}
