//! Numbers that stand at places, and the least of those beyond a place.
ghost use Rattle.hib_trace_law.specs.Certain.{ended_before};
ghost use Rattle.hib_traces.specs.Marks.{IsStairs, asks, far_of, is_lowest};
ghost use Rattle.std.specs.List.Sorted.{IsNonDecreasingBy};
ghost use Rattle.std.specs.List.{slice_index_or};
ghost use Rattle.std.specs.Prelude.{◌≡◌, ◌<◌, ◌≤◌, ◌||◌, ◌^◌, ℕ, IfOk, length, nat_lt};

use std::alloc::{AllocError, Global};

/// A number at a place.
#[derive(Clone, Copy, Debug, PartialEq, Eq)]
pub struct Mark {
    /// Its place.
    pub at: u64,
    /// The number.
    pub value: u64,
}

// Whether a mark has a lower number than the last one.
fn steps_down(steps: &[Mark], at: u64, value: u64) -> bool
    ensures lowest { result ≡ is_lowest steps.now (record { at = at; value = value }) }
    // That the place is a number of 64 bits is told for the caller's proof.
    ensures fits { at < 2 ^ 64 }
{
    let count = steps.len();
    count == 0 || value < steps[count - 1].value
}

/// The marks that matter, from the furthest one on: each has a lower number than those before it.
pub fn stairs(alloc: Global, marks: &[Mark]) -> Result<Vec<Mark>, AllocError>
    requires sorted { IsNonDecreasingBy far_of marks.now }
    ensures same { IfOk result (λ v. (k t : ℕ) → asks k t v.items ≡ asks k t marks.now) }
    ensures falls { IfOk result (λ v. IsStairs v.items) }
{
    let mut steps: Vec<Mark> = Vec::new(alloc);
    for mark in marks {
        let next = Mark {
            at: mark.at,
            value: mark.value,
        };
        if steps_down(&steps, next.at, next.value) {
            steps.push(next)?;
        }
    }
    Ok(steps)
}

// How many of the marks lie beyond a place.
fn count_beyond(steps: &[Mark], limit: u64) -> usize
    requires falls { IsStairs steps.now }
    ensures bound { result ≤ length steps.now }
    ensures beyond { (k : ℕ) (d : Mark) → k < result → limit < (slice_index_or steps.now k d).at }
    ensures within { (k : ℕ) (d : Mark) → result ≤ k → k < length steps.now → (slice_index_or steps.now k d).at ≤ limit }
{
    let mut low = 0;
    let mut high = steps.len();
    while low < high {
        let middle = low + (high - low) / 2;
        if limit < steps[middle].at {
            low = middle + 1;
        } else {
            high = middle;
        }
    }
    low
}

/// The least number of those beyond a place.
pub fn least_beyond(steps: &[Mark], limit: u64) -> Option<u64>
    requires falls { IsStairs steps.now }
    ensures { (t : ℕ) → asks limit t steps.now ≡ ended_before result t }
{
    let count = count_beyond(steps, limit);
    if count == 0 {
        None
    } else {
        Some(steps[count - 1].value)
    }
}

// How many of the marks have a number that isn't below a limit.
fn count_above(steps: &[Mark], limit: u64) -> usize
    requires falls { IsStairs steps.now }
    ensures bound { result ≤ length steps.now }
    ensures above { (k : ℕ) (d : Mark) → k < result → limit ≤ (slice_index_or steps.now k d).value }
    ensures below { (k : ℕ) (d : Mark) → result ≤ k → k < length steps.now → (slice_index_or steps.now k d).value < limit }
{
    let mut low = 0;
    let mut high = steps.len();
    while low < high {
        let middle = low + (high - low) / 2;
        if limit <= steps[middle].value {
            low = middle + 1;
        } else {
            high = middle;
        }
    }
    low
}

/// The place of the furthest one of those with a number below a limit; 0 if there is none.
pub fn furthest_below(steps: &[Mark], limit: u64) -> u64
    requires falls { IsStairs steps.now }
    ensures { (k : ℕ) → asks k limit steps.now ≡ nat_lt k result }
{
    let count = count_above(steps, limit);
    if count < steps.len() {
        steps[count].at
    } else {
        0
    }
}

/// The lesser of two numbers, if there are any.
pub fn least_of(first: Option<u64>, second: Option<u64>) -> Option<u64>
    ensures { (t : ℕ) → ended_before result t ≡ (ended_before first t || ended_before second t) }
{
    match (first, second) {
        (None, _) => second,
        (Some(_), None) => first,
        (Some(one), Some(other)) => Some(one.min(other)),
    }
}
