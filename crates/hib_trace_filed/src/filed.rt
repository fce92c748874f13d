// The writes of a trace, filed.
ghost use Rattle.hib_trace_filed.specs.Keys.{commits_of, undone_writes};
ghost use Rattle.hib_trace_filed.specs.Orders.{AreLives, AreOrders};
ghost use Rattle.hib_trace_filed.specs.Own.{has_own, own_written};
ghost use Rattle.std.specs.Prelude.{◌≡◌, ℕ, IfOk, Option};

use crate::commits::{By, Part, file_part};
use crate::limits::Limits;
use crate::orders::{all_lives, orders_of};
use crate::own::{Owns, owns_of};
use hib_trace_calls::Write;
use hib_traces::{Order, Place};
use std::alloc::{AllocError, Global};

/// The writes of a trace, filed by their keys.
#[derive(Drop)]
pub struct Filed {
    /// The commits of each key, by its number.
    pub commits: Vec<Order>,
    /// When each key had a row, by its number.
    pub lives: Vec<Vec<Place>>,
    /// The writes of each key that were rolled back, by its number.
    pub undone: Vec<Order>,
    /// The rows that transactions wrote.
    pub owns: Owns,
}

/// Files the writes of a trace, whose keys are below `count`. A write of the row of the number `none` made no row. The
/// only error is want of memory.
pub fn file_writes(
    alloc: Global,
    writes: &[Write],
    count: usize,
    none: usize,
    limits: &Limits,
) -> Result<Filed, AllocError>
    ensures commits { IfOk result (λ f. AreOrders (commits_of limits.now writes.now) count f.commits.items) }
    ensures lives { IfOk result (λ f. AreLives none f.commits.items f.lives.items) }
    ensures undone { IfOk result (λ f. AreOrders (undone_writes limits.now writes.now) count f.undone.items) }
    ensures owns { IfOk result (λ f. (t : Option ℕ) (k r : ℕ) → has_own f.owns t k r ≡ own_written writes.now t k r) }
{
    let commits = orders_of(
        alloc,
        file_part(alloc, writes, count, By::Key, Part::Committed, limits)?,
    )?;
    let lives = all_lives(alloc, &commits, none)?;
    let undone = orders_of(
        alloc,
        file_part(alloc, writes, count, By::Key, Part::Undone, limits)?,
    )?;
    let owns = owns_of(alloc, writes)?;
    Ok(Filed {
        commits,
        lives,
        undone,
        owns,
    })
}
