// The search over all orders within a number of switches.
ghost use Rattle.hib_base.specs.Tables.{Tables};
ghost use Rattle.hib_base.specs.declared.entries.Entry.{Entry};
ghost use Rattle.hib_base.specs.declared.replies.Outcome.{Outcome};
ghost use Rattle.hib_base.specs.declared.scripts.Script.{Script};
ghost use Rattle.hib_order_law.specs.Orders.{switches};
ghost use Rattle.hib_order_law.specs.declared.step.Step.{Step};
ghost use Rattle.hib_order_law.specs.declared.verdicts.Verdicts.{Verdicts};
ghost use Rattle.hib_order_tries.specs.Amid.{IsAmid};
ghost use Rattle.hib_order_tries.specs.Found.{AreCounted, IsPlayed, IsTold};
ghost use Rattle.hib_order_tries.specs.Left.{IsTurned};
ghost use Rattle.std.specs.Prelude.{◌≡◌, ◌∷◌, ◌++◌, ◌⊎◌, ◌<◌, ◌≤◌, ℕ, List, [], IfOk, OnOk, false, length};
ghost use Rattle.std.specs.Prelude.{map, true};

use crate::beside::switches;
use crate::found::Findings;
use crate::player::{Played, Player};
use crate::waiting::Untried;
use std::alloc::{AllocError, Global};

/// What a search came to.
#[derive(Drop)]
pub struct Told {
    /// What the orders that were tried have come to.
    pub findings: Findings,
    /// Whether all orders within the bound were tried.
    pub whole: bool,
    /// Each order that makes fewer switches than this was tried, and none that makes more. If not all orders within the
    /// bound were tried, then one that makes just as many was left out.
    pub level: usize,
}

/// A search between two plays.
#[derive(Drop)]
pub struct Searching {
    /// What waits to be played.
    pub waiting: Untried,
    /// What was found.
    pub findings: Findings,
}

impl Searching {
    /// Nothing was played.
    pub fn new(alloc: Global) -> Result<Searching, AllocError>
        ensures tried { IfOk result (λ s. s.findings.tried ≡ 0) }
        ensures counts { IfOk result (λ s. AreCounted s.findings) }
        ensures level { IfOk result (λ s. s.waiting.level ≡ 0) }
        ensures amid { IfOk result (λ s. (script : Script) (start : Tables)
            (judged : List Entry → Verdicts) (ended : List Entry → List Outcome) (most_kills : ℕ)
            → IsAmid script start judged ended most_kills s.waiting.level
            (map (λ v. v.items) s.waiting.now.items) s.waiting.beyond s.findings) }
    {
        let waiting = Untried::new(alloc)?;
        Ok(Searching {
            waiting,
            findings: Findings::none(alloc),
        })
    }

    /// Takes a run that was played, whose first `from` steps waited; as many kills may come as the bound says. False if
    /// it is one more than may be tried: then nothing has changed.
    pub fn take(
        &mut self,
        alloc: Global,
        run: Played,
        from: usize,
        most_kills: usize,
        limit: u64,
    ) -> Result<bool, AllocError>
        requires from { from ≤ length run.order.items }
        requires turns { length run.turns.items ≡ length run.order.items }
        requires counts { AreCounted self.old.findings }
        requires limit { self.old.findings.tried ≤ limit }
        ensures stopped { IfOk result (λ taken. taken ≡ false
            → (self.new ≡ self.old) × (self.old.findings.tried ≡ limit)) }
        ensures limit { OnOk result (self.new.findings.tried ≤ limit) }
        ensures counts { OnOk result (AreCounted self.new.findings) }
        ensures level { self.new.waiting.level ≡ self.old.waiting.level }
        ensures full { IfOk result (λ taken. taken ≡ false
            → switches run.order.items ≡ self.old.waiting.level) }
        ensures turned { IfOk result (λ taken. taken ≡ true
            → IsTurned most_kills self.old.waiting.level from run.order.items run.turns.items
            (map (λ v. v.items) self.old.waiting.now.items) self.old.waiting.beyond
            (map (λ v. v.items) self.new.waiting.now.items) self.new.waiting.beyond) }
        ensures taken { IfOk result (λ taken. taken ≡ true → (script : Script) (start : Tables)
            (judged : List Entry → Verdicts) (ended : List Entry → List Outcome)
            (begun : List Step)
            → IsAmid script start judged ended most_kills self.old.waiting.level
            (map (λ v. v.items) self.old.waiting.now.items ++ begun ∷ []) self.old.waiting.beyond
            self.old.findings → IsPlayed script start judged ended begun run.order.items
            run.turns.items run.verdicts run.ending.items → from ≡ length begun
            → IsAmid script start judged ended most_kills self.new.waiting.level
            (map (λ v. v.items) self.new.waiting.now.items) self.new.waiting.beyond
            self.new.findings) }
    {
        let total = switches(alloc, run.order.as_slice())?;
        if total == self.waiting.level && self.findings.tried >= limit {
            return Ok(false);
        }
        let turns = run.turns.as_slice();
        self.waiting.add(alloc, run.order.as_slice(), turns, from, most_kills, total)?;
        if total == self.waiting.level {
            self.findings.note(alloc, run, total)?;
        }
        Ok(true)
    }

    /// Plays runs that begin as what waits does, until none waits. False if there is one more than may be tried.
    fn walk<P: Player>(
        &mut self,
        alloc: Global,
        player: &mut P,
        most_kills: usize,
        limit: u64,
    ) -> Result<bool, AllocError>
        requires counts { AreCounted self.old.findings }
        requires limit { self.old.findings.tried ≤ limit }
        requires amid { IsAmid P.script P.start P.judged P.ended most_kills self.old.waiting.level
            (map (λ v. v.items) self.old.waiting.now.items) self.old.waiting.beyond
            self.old.findings }
        ensures counts { OnOk result (AreCounted self.new.findings) }
        ensures limit { OnOk result (self.new.findings.tried ≤ limit) }
        ensures level { self.new.waiting.level ≡ self.old.waiting.level }
        ensures over { IfOk result (λ over. over ≡ true
            → map (λ v. v.items) self.new.waiting.now.items ≡ []) }
        ensures amid { IfOk result (λ over. over ≡ true
            → IsAmid P.script P.start P.judged P.ended most_kills self.new.waiting.level []
            self.new.waiting.beyond self.new.findings) }
        ensures full { IfOk result (λ over. over ≡ false → self.new.findings.tried ≡ limit) }
        ensures cut { IfOk result (λ over. over ≡ false
            → IsTold P.script P.start P.judged P.ended most_kills self.new.waiting.level false
            self.new.waiting.level self.new.findings) }
    {
        while let Some(begun) = self.waiting.next() {
            let run = player.play(alloc, begun.as_slice())?;
            if !self.take(alloc, run, begun.len(), most_kills, limit)? {
                return Ok(false);
            }
        }
        Ok(true)
    }

    /// What it came to.
    pub fn told(self, whole: bool) -> Told
        ensures findings { result.findings ≡ self.findings }
        ensures level { result.level ≡ self.waiting.level }
        ensures whole { result.whole ≡ whole }
    {
        Told {
            findings: self.findings,
            whole,
            level: self.waiting.level,
        }
    }
}

/// Tries the orders within `most` switches and `most_kills` kills, those with the fewest switches first, each once, and
/// `limit` of them at most. All are tried unless there are more than that. What is kept grows with the script and with
/// the endings that are told, and not with the orders. Those with few switches are played again for each number of
/// switches. An error is want of memory, and then nothing is told.
pub fn search<P: Player>(
    alloc: Global,
    player: &mut P,
    most_kills: usize,
    most: usize,
    limit: u64,
) -> Result<Told, AllocError>
    ensures tried { IfOk result (λ t.
        IsTold P.script P.start P.judged P.ended most_kills most t.whole t.level t.findings) }
    ensures level { IfOk result (λ t. t.level ≤ most) }
    ensures limit { IfOk result (λ t. t.findings.tried ≤ limit) }
    ensures whole { IfOk result (λ t. (t.whole ≡ true) ⊎ (t.findings.tried ≡ limit)) }
{
    let mut progress = Searching::new(alloc)?;
    while progress.walk(alloc, player, most_kills, limit)? {
        if !progress.waiting.rise(alloc, most)? {
            return Ok(progress.told(true));
        }
    }
    Ok(progress.told(false))
}
