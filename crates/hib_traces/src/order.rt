//! What a judge remembers of the commits of a key.
ghost use Rattle.hib_traces.specs.Marks.{IsStairs, asks, known_version, pair_mark};
ghost use Rattle.hib_traces.specs.Stands.{Remembers, Stands};
ghost use Rattle.hib_trace_law.specs.Certain.{ended_before};
ghost use Rattle.std.specs.List.{filter_map, list_any};
ghost use Rattle.std.specs.Option.{option_to_list};
ghost use Rattle.std.specs.Prelude.{◌≡◌, ◌&&◌, ◌++◌, ℕ, IfOk, OnOk, Some, nat_lt};

use crate::marks::{Mark, stairs};
use crate::places::{Place, places_of};
use hib_trace_law::Commit;
use std::alloc::{AllocError, Global};

/// The commits of a key, as a judge looks at them.
#[derive(Drop)]
pub struct Order {
    /// The commits.
    pub commits: Vec<Commit>,
    /// Ends at begins.
    pub calls: Vec<Mark>,
    /// Ends at versions.
    pub versions: Vec<Mark>,
    /// Versions at begins.
    pub begins: Vec<Mark>,
    /// When an answer may be the row of one of the commits.
    pub places: Vec<Place>,
}

// A mark of two numbers, if both are there.
fn pair_of(at: Option<u64>, value: Option<u64>) -> Option<Mark>
    ensures { result ≡ pair_mark at value }
{
    match at {
        None => None,
        Some(place) => match value {
            None => None,
            Some(number) => Some(Mark {
                at: place,
                value: number,
            }),
        },
    }
}

/// The version of a commit whose outcome is known.
pub fn version_of(commit: &Commit) -> Option<u64>
    ensures { result ≡ known_version commit.now.end commit.now.version }
{
    match commit.end {
        None => None,
        Some(_) => commit.version,
    }
}

// Adds a mark, if there is one.
fn put_mark(marks: &mut Vec<Mark>, mark: Option<Mark>) -> Result<(), AllocError>
    ensures { OnOk result (marks.new.items ≡ marks.old.items ++ option_to_list mark) }
{
    if let Some(one) = mark {
        marks.push(one)?;
    }
    Ok(())
}

fn call_marks(alloc: Global, commits: &[Commit]) -> Result<Vec<Mark>, AllocError>
    ensures { IfOk result (λ v. v.items ≡ filter_map (λ c. pair_mark (Some c.begin) c.end) commits.now) }
{
    let mut marks = Vec::new(alloc);
    for commit in commits {
        put_mark(&mut marks, pair_of(Some(commit.begin), commit.end))?;
    }
    Ok(marks)
}

fn version_marks(alloc: Global, commits: &[Commit]) -> Result<Vec<Mark>, AllocError>
    ensures { IfOk result (λ v. v.items ≡ filter_map (λ c. pair_mark c.version c.end) commits.now) }
{
    let mut marks = Vec::new(alloc);
    for commit in commits {
        put_mark(&mut marks, pair_of(commit.version, commit.end))?;
    }
    Ok(marks)
}

fn begin_marks(alloc: Global, commits: &[Commit]) -> Result<Vec<Mark>, AllocError>
    ensures { IfOk result (λ v. v.items ≡ filter_map (λ c. pair_mark (Some c.begin) (known_version c.end c.version)) commits.now) }
{
    let mut marks = Vec::new(alloc);
    for commit in commits {
        put_mark(&mut marks, pair_of(Some(commit.begin), version_of(commit)))?;
    }
    Ok(marks)
}

// The stairs of marks in any order.
fn sorted_stairs(alloc: Global, marks: Vec<Mark>) -> Result<Vec<Mark>, AllocError>
    ensures same { IfOk result (λ v. (k t : ℕ) → asks k t v.items ≡ asks k t marks.items) }
    ensures falls { IfOk result (λ v. IsStairs v.items) }
{
    let mut sorted = marks;
    sorted.sort_by_key(|mark| u64::MAX - mark.at)?;
    stairs(alloc, &sorted)
}

/// The ends of commits at their begins, as far as they matter.
pub fn call_stairs(alloc: Global, commits: &[Commit]) -> Result<Vec<Mark>, AllocError>
    ensures tell { IfOk result (λ v. (k t : ℕ) → asks k t v.items
        ≡ list_any (λ d. nat_lt k d.begin && ended_before d.end t) commits.now) }
    ensures falls { IfOk result (λ v. IsStairs v.items) }
{
    sorted_stairs(alloc, call_marks(alloc, commits)?)
}

// What a judge remembers of the times of the commits; the places are still missing.
fn memory_of(alloc: Global, commits: Vec<Commit>) -> Result<Order, AllocError>
    ensures commits { IfOk result (λ o. o.commits.items ≡ commits.items) }
    ensures remembers { IfOk result Remembers }
{
    let calls = call_stairs(alloc, &commits)?;
    let versions = sorted_stairs(alloc, version_marks(alloc, &commits)?)?;
    let begins = sorted_stairs(alloc, begin_marks(alloc, &commits)?)?;
    Ok(Order {
        commits,
        calls,
        versions,
        begins,
        places: Vec::new(alloc),
    })
}

/// The commits of a key, made ready.
pub fn order_of(alloc: Global, commits: Vec<Commit>) -> Result<Order, AllocError>
    ensures commits { IfOk result (λ o. o.commits.items ≡ commits.items) }
    ensures stands { IfOk result Stands }
{
    let mut order = memory_of(alloc, commits)?;
    order.places = places_of(alloc, &order, &order.commits)?;
    Ok(order)
}
