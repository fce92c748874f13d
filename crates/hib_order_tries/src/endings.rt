// How the orders that were tried have ended.
ghost use Rattle.hib_base.specs.declared.replies.Outcome.{Outcome};
ghost use Rattle.hib_order_tries.specs.Found.{AreApart, ended_so};
ghost use Rattle.hib_order_tries.specs.Marks.{mark_of, marks_of};
ghost use Rattle.std.specs.Prelude.{◌≡◌, ◌+◌, ◌<◌, ◌^◌, ◌-◌, Bool, List, [], IfOk, OnErr, OnOk, if◌then◌else◌, length};
ghost use Rattle.std.specs.Prelude.{option_copied, slice_get, true};

use hib_base::Outcome;
use indexmap::IndexMap;
use std::alloc::{AllocError, Global};
use std::marker::Model;

/// How some of the orders that were tried have ended.
#[derive(Drop)]
pub struct Ending {
    /// How each session has ended, by its number.
    pub outcomes: Vec<Outcome>,
    /// How many orders have ended so.
    pub count: u64,
}

/// How the orders that were tried have ended: each ending once, in the order of their first orders. Contracts see a
/// list of endings.
#[derive(Drop)]
pub struct Endings {
    by_marks: IndexMap<Vec<u8>, Ending>,
}

impl Model for Endings {
    ghost use Rattle.hib_order_tries.specs.Marks.{marks_of};
    ghost use Rattle.hib_order_tries.specs.declared.endings.Ending.{Ending};
    ghost use Rattle.std.specs.Prelude.{◌≡◌, All, List, map};

    ghost Value = { List Ending };

    ghost view = { λ e. map (λ p. p.1) e.by_marks.entries };

    ghost invariant = { λ e. All (λ p. p.0.items ≡ marks_of p.1.outcomes.items) e.by_marks.entries };
}

/// What tells an outcome from the others in the key of a map.
fn mark_of(outcome: Outcome) -> u8
    ensures { result ≡ mark_of outcome }
{
    match outcome {
        Outcome::Committed => 0,
        Outcome::RolledBack => 1,
        Outcome::Stale => 2,
        Outcome::Duplicate => 3,
        Outcome::Fault => 4,
    }
}

/// A byte for each outcome: the key by which endings are found.
fn marks_of(alloc: Global, outcomes: &[Outcome]) -> Result<Vec<u8>, AllocError>
    ensures { IfOk result (λ v. v.items ≡ marks_of outcomes.now) }
{
    let mut marks = Vec::with_capacity(alloc, outcomes.len())?;
    for place in 0..outcomes.len() {
        marks.push(mark_of(outcomes[place]))?;
    }
    Ok(marks)
}

impl Endings {
    /// No order was tried.
    pub fn none(alloc: Global) -> Endings
        ensures { result ≡ [] }
    {
        Endings {
            by_marks: IndexMap::new(alloc),
        }
    }

    /// How many endings there are.
    pub fn len(&self) -> usize
        ensures { result ≡ length self.now }
    {
        self.by_marks.len()
    }

    /// An ending by its place, from 0.
    pub fn at(&self, place: usize) -> Option<&Ending>
        ensures { option_copied result ≡ slice_get self.now place }
    {
        self.by_marks.get_index(place).map(|pair| pair.1)
    }

    /// Takes one more order, which has ended so. At an error nothing has changed.
    pub fn note(&mut self, alloc: Global, outcomes: Vec<Outcome>) -> Result<(), AllocError>
        requires { ended_so (λ _. true) self.old < 2 ^ 64 - 1 }
        ensures counts { OnOk result ((test : List Outcome → Bool) → ended_so test self.new
            ≡ ended_so test self.old + (if test outcomes.items then 1 else 0)) }
        ensures apart { OnOk result (AreApart self.old → AreApart self.new) }
        ensures err { OnErr result (self.new ≡ self.old) }
    {
        let marks = marks_of(alloc, outcomes.as_slice())?;
        let count = match self.by_marks.get(marks.as_slice()) {
            None => 0,
            Some(ending) => ending.count,
        };
        self.by_marks.insert(
            marks,
            Ending {
                outcomes,
                count: count + 1,
            },
        )?;
        Ok(())
    }
}
