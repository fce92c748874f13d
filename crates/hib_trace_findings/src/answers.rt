// What is said of an answer.
ghost use Rattle.hib_trace_findings.specs.Judged as judged;
ghost use Rattle.hib_trace_findings.specs.Judged.{IsJudged, is_gone, is_over, living};
ghost use Rattle.hib_traces.specs.Places.{AreInOrder, ArePlaces, stands_at};
ghost use Rattle.hib_traces.specs.Stands.{Remembers, Stands};
ghost use Rattle.std.specs.Option.{option_to_list};
ghost use Rattle.std.specs.Prelude.{◌≡◌, ◌++◌, ℕ, IfOk, OnOk, not};

use crate::kinds::Judgement;
use hib_trace_law::{Answer, Commit};
use hib_traces::{Order, Place, Verdict, is_too_old, places_of, standing_at, verdict};
use std::alloc::{AllocError, Global};

// A commit as if it had made the row 0, if it made one.
fn living(commit: &Commit, none: usize) -> Option<Commit>
    ensures { result ≡ living none commit.now }
{
    if commit.row == none {
        return None;
    }
    Some(Commit {
        row: 0,
        begin: commit.begin,
        end: commit.end,
        version: commit.version,
    })
}

// Adds a commit, if there is one.
fn put(commits: &mut Vec<Commit>, commit: Option<Commit>) -> Result<(), AllocError>
    ensures { OnOk result (commits.new.items ≡ commits.old.items ++ option_to_list commit) }
{
    if let Some(commit) = commit {
        commits.push(commit)?;
    }
    Ok(())
}

// The commits that made a row.
fn living_of(alloc: Global, commits: &[Commit], none: usize) -> Result<Vec<Commit>, AllocError>
    ensures { IfOk result (λ v. v.items ≡ judged.lives_of none commits.now) }
{
    let mut sources = Vec::new(alloc);
    for commit in commits {
        put(&mut sources, living(commit, none))?;
    }
    Ok(sources)
}

/// When a key had a row, by its commits, of which those that made the row of the number `none` made none.
pub fn lives_of(alloc: Global, order: &Order, none: usize) -> Result<Vec<Place>, AllocError>
    requires { Remembers order.now }
    ensures { IfOk result (λ v. ArePlaces order.now.commits.items
        (judged.lives_of none order.now.commits.items) v.items) }
{
    let sources = living_of(alloc, &order.commits, none)?;
    places_of(alloc, order, &sources)
}

// Whether a row that was answered by an instant may have been the committed one at another one.
fn stands(places: &[Place], row: usize, end: u64, instant: u64) -> bool
    requires { AreInOrder places.now }
    ensures { result ≡ stands_at row end instant places.now }
{
    match standing_at(places, row, end) {
        None => false,
        Some(None) => true,
        Some(Some(gone)) => gone >= instant,
    }
}

// Whether the row from before the trace had certainly been replaced by an instant.
fn is_replaced(order: &Order, instant: u64) -> bool
    requires { Remembers order.now }
    ensures { result ≡ is_over order.now.commits.items instant }
{
    let before = Commit {
        row: 0,
        begin: 0,
        end: Some(0),
        version: None,
    };
    is_too_old(order, &before, instant)
}

// The judgement of an answer whose row had been replaced by an instant, if there was no row any more or not.
fn stale(gone_by: u64, gone: bool) -> Judgement
    ensures { result ≡ judged.stale gone_by gone }
{
    if gone {
        Judgement::Resurrected(gone_by)
    } else {
        Judgement::Stale(gone_by)
    }
}

// What the verdicts come to.
fn judgement_of(committed: Verdict, undone: Verdict, over: bool, gone: bool) -> Judgement
    ensures { result ≡ judged.judgement_of committed undone over gone }
{
    match committed {
        Verdict::Possible => Judgement::Possible,
        Verdict::Old(gone_by) => stale(gone_by, gone),
        Verdict::New => {
            if over {
                Judgement::Dirty
            } else {
                Judgement::Possible
            }
        }
        Verdict::Unknown => match undone {
            Verdict::Possible => {
                if over {
                    Judgement::RolledBack
                } else {
                    Judgement::Unknown
                }
            }
            Verdict::Unknown => Judgement::Unknown,
            Verdict::Old(_) => Judgement::Unknown,
            Verdict::New => Judgement::Unknown,
        },
    }
}

/// The judgement of an answer about a key, of which the commits, when it had a row, and the writes that were rolled back
/// are known. It costs a few searches.
pub fn judged(order: &Order, lives: &[Place], undone: &Order, answer: &Answer) -> Judgement
    requires commits { Stands order.now }
    requires lives { AreInOrder lives.now }
    requires undone { Stands undone.now }
    ensures { (none : ℕ) → ArePlaces order.now.commits.items (judged.lives_of none order.now.commits.items) lives.now
        → IsJudged none order.now.commits.items undone.now.commits.items answer.now result }
{
    let by_commits = verdict(order, answer);
    let by_undone = verdict(undone, answer);
    let over = is_replaced(order, answer.since);
    let gone = !stands(lives, 0, answer.end, answer.since);
    judgement_of(by_commits, by_undone, over, gone)
}
