//! What is said of an answer.
ghost use Rattle.hib_trace_law.specs.declared.commits.Commit.{Commit};
ghost use Rattle.hib_traces.specs.Places.{AreInOrder, ArePlaces};
ghost use Rattle.hib_traces.specs.Stands.{Stands};
ghost use Rattle.hib_traces.specs.Verdicts.{IsVerdict};
ghost use Rattle.std.specs.List.{AllZip};
ghost use Rattle.std.specs.Prelude.{◌≡◌, IfOk, List};

use crate::kinds::Verdict;
use crate::order::{Order, order_of};
use crate::places::Place;
use crate::standing::{has_row, standing_at};
use hib_trace_law::{Answer, Commit};
use std::alloc::{AllocError, Global};

/// The verdict of an answer, by the places of the commits that it may be of. It costs a search.
pub fn verdict_of(places: &[Place], answer: &Answer) -> Verdict
    requires { AreInOrder places.now }
    ensures { (cs ss : List Commit) → ArePlaces cs ss places.now → IsVerdict cs answer.now ss result }
{
    match standing_at(places, answer.row, answer.end) {
        Some(None) => Verdict::Possible,
        Some(Some(gone)) => {
            if gone < answer.since {
                Verdict::Old(gone)
            } else {
                Verdict::Possible
            }
        }
        None => {
            if has_row(places, answer.row) {
                Verdict::New
            } else {
                Verdict::Unknown
            }
        }
    }
}

/// The verdict of an answer. It costs a search.
pub fn verdict(order: &Order, answer: &Answer) -> Verdict
    requires { Stands order.now }
    ensures { IsVerdict order.now.commits.items answer.now order.now.commits.items result }
{
    verdict_of(&order.places, answer)
}

/// The verdicts of all answers of a key.
pub fn judge(
    alloc: Global,
    commits: Vec<Commit>,
    answers: &[Answer],
) -> Result<Vec<Verdict>, AllocError>
    ensures { IfOk result (λ vs. AllZip (λ a v. IsVerdict commits.items a commits.items v) answers.now vs.items) }
{
    let order = order_of(alloc, commits)?;
    let mut verdicts = Vec::new(alloc);
    for answer in answers {
        verdicts.push(verdict(&order, answer))?;
    }
    Ok(verdicts)
}
