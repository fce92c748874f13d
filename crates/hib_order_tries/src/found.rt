// What the orders that were tried have come to: of each finding, how many have it and one that has it.
ghost use Rattle.hib_base.specs.declared.entries.Entry.{Entry};
ghost use Rattle.hib_base.specs.declared.replies.Outcome.{Outcome};
ghost use Rattle.hib_order_law.specs.Orders.{steps_in, switches};
ghost use Rattle.hib_order_tries.specs.Found.{AreCounted, AreFindings, IsBelow, IsFound};
ghost use Rattle.hib_order_tries.specs.Amid.{AreJudged, IsJudged};
ghost use Rattle.std.specs.Prelude.{◌≡◌, ◌∷◌, ◌<◌, ◌^◌, ◌-◌, ◌+◌, ◌==◌, ℕ, Bool, List, [], IfNone, IfSome, OnOk};
ghost use Rattle.std.specs.Prelude.{if◌then◌else◌, slice_index_or, true};

use crate::endings::Endings;
use crate::player::Played;
use hib_order_law::{Step, Verdicts};
use std::alloc::{AllocError, Global};

/// An order that has something.
#[derive(Drop)]
pub struct First {
    /// Its steps.
    pub order: Vec<Step>,
    /// How many of them leave a session that comes again later.
    pub switches: usize,
}

/// The orders that have something.
#[derive(Drop)]
pub struct Found {
    /// How many of those that were tried have it.
    pub count: u64,
    /// One of them with the fewest switches.
    pub first: Option<First>,
}

impl Found {
    fn none() -> Found
        ensures { (has : List Entry → Bool) → IsFound has [] result }
    {
        Found {
            count: 0,
            first: None,
        }
    }

    /// Whether an order with `total` switches comes before the first that was found.
    fn is_before(&self, total: usize) -> bool
        ensures none { IfNone self.now.first (result ≡ true) }
        ensures some { IfSome self.now.first (λ f. IsBelow total f.switches result) }
    {
        match &self.first {
            None => true,
            Some(first) => total < first.switches,
        }
    }

    /// Takes one more order, which makes `total` switches and has it or not.
    fn note(
        &mut self,
        alloc: Global,
        has: bool,
        order: &[Step],
        total: usize,
    ) -> Result<(), AllocError>
        requires room { self.old.count < 2 ^ 64 - 1 }
        requires total { total ≡ switches order.now }
        ensures { OnOk result (IsJudged has order.now self.old self.new) }
    {
        if !has {
            return Ok(());
        }
        if self.is_before(total) {
            let steps = order.to_vec(alloc)?;
            self.first = Some(First {
                order: steps,
                switches: total,
            });
        }
        self.count += 1;
        Ok(())
    }
}

/// What the orders that were tried have come to.
#[derive(Drop)]
pub struct Findings {
    /// How many were tried.
    pub tried: u64,
    /// How many of them make no switch, one, two and so on.
    pub levels: Vec<u64>,
    /// How they have ended.
    pub endings: Endings,
    /// Those in which a hit answers a row that is not the committed one.
    pub stale_hit: Found,
    /// Those in which a kept list is called fresh that is not what its query gives.
    pub old_list: Found,
    /// Those in which a commit overwrites a row that it never read.
    pub lost_update: Found,
    /// Those in which a commit is answered stale or duplicate.
    pub refused_commit: Found,
    /// Those with a read-write key of which the claims on the cache don't speak.
    pub unsound_key: Found,
}

/// Counts one more order among those that make this many switches.
fn count_level(levels: &mut Vec<u64>, switches: usize) -> Result<(), AllocError>
    requires { slice_index_or levels.old.items switches 0 < 2 ^ 64 - 1 }
    ensures { OnOk result ((k : ℕ) → slice_index_or levels.new.items k 0
        ≡ slice_index_or levels.old.items k 0 + (if switches == k then 1 else 0)) }
{
    for _place in levels.len()..switches {
        levels.push(0)?;
    }
    if levels.len() == switches {
        levels.push(1)?;
    } else {
        levels[switches] += 1;
    }
    Ok(())
}

impl Findings {
    /// No order was tried.
    pub fn none(alloc: Global) -> Findings
        ensures counts { AreCounted result }
        ensures tried { result.tried ≡ 0 }
        ensures none { (judged : List Entry → Verdicts) (ended : List Entry → List Outcome)
            → AreFindings judged ended [] result }
    {
        Findings {
            tried: 0,
            levels: Vec::new(alloc),
            endings: Endings::none(alloc),
            stale_hit: Found::none(),
            old_list: Found::none(),
            lost_update: Found::none(),
            refused_commit: Found::none(),
            unsound_key: Found::none(),
        }
    }

    /// Takes what is judged of one more order, which makes `total` switches.
    fn note_verdicts(
        &mut self,
        alloc: Global,
        verdicts: Verdicts,
        order: &[Step],
        total: usize,
    ) -> Result<(), AllocError>
        requires room { self.old.tried < 2 ^ 64 - 1 }
        requires counts { AreCounted self.old }
        requires total { total ≡ switches order.now }
        ensures { OnOk result (AreJudged verdicts order.now self.old self.new) }
    {
        self.stale_hit
            .note(alloc, verdicts.stale_hit, order, total)?;
        self.old_list.note(alloc, verdicts.old_list, order, total)?;
        self.lost_update
            .note(alloc, verdicts.lost_update, order, total)?;
        self.refused_commit
            .note(alloc, verdicts.refused_commit, order, total)?;
        self.unsound_key
            .note(alloc, verdicts.unsound_key, order, total)
    }

    /// Takes one more order, which makes `total` switches. At an error a part of it may be noted.
    pub fn note(&mut self, alloc: Global, run: Played, total: usize) -> Result<(), AllocError>
        requires room { self.old.tried < 2 ^ 64 - 1 }
        requires counts { AreCounted self.old }
        requires total { total ≡ switches run.order.items }
        ensures tried { OnOk result (self.new.tried ≡ self.old.tried + 1) }
        ensures counts { OnOk result (AreCounted self.new) }
        ensures noted { OnOk result ((judged : List Entry → Verdicts)
            (ended : List Entry → List Outcome) (runs : List (List Entry)) (es : List Entry)
            → AreFindings judged ended runs self.old → run.verdicts ≡ judged es
            → run.order.items ≡ steps_in es → run.ending.items ≡ ended es
            → AreFindings judged ended (es ∷ runs) self.new) }
    {
        self.note_verdicts(alloc, run.verdicts, run.order.as_slice(), total)?;
        count_level(&mut self.levels, total)?;
        self.endings.note(alloc, run.ending)?;
        self.tried += 1;
        Ok(())
    }
}
