// The first steps that wait to be tried: a run is played that begins with them.
ghost use Rattle.hib_order_law.specs.Orders.{switches};
ghost use Rattle.hib_order_tries.specs.Left.{IsTurned};
ghost use Rattle.std.specs.Prelude.{◌≡◌, ◌∷◌, ◌++◌, ◌+◌, ◌≤◌, ◌<◌, ◌⊎◌, [], IfNone, IfOk, IfSome, OnOk};
ghost use Rattle.std.specs.Prelude.{false, length, map, true};

use crate::beside::others;
use crate::openings::may_kill;
use hib_order_law::{Step, Turn};
use std::alloc::{AllocError, Global};

/// The first steps that wait to be tried.
#[derive(Drop)]
pub struct Untried {
    /// How many switches they may cost.
    pub level: usize,
    /// The first steps.
    pub now: Vec<Vec<Step>>,
    /// Whether there are others, which cost more.
    pub beyond: bool,
}

impl Untried {
    /// The beginning of all orders, which has no step.
    pub fn new(alloc: Global) -> Result<Untried, AllocError>
        ensures level { IfOk result (λ w. w.level ≡ 0) }
        ensures now { IfOk result (λ w. map (λ v. v.items) w.now.items ≡ [] ∷ []) }
        ensures beyond { IfOk result (λ w. w.beyond ≡ false) }
    {
        let mut now = Vec::new(alloc);
        now.push(Vec::new(alloc))?;
        Ok(Untried {
            level: 0,
            now,
            beyond: false,
        })
    }

    /// Takes one.
    pub fn next(&mut self) -> Option<Vec<Step>>
        ensures level { self.new.level ≡ self.old.level }
        ensures beyond { self.new.beyond ≡ self.old.beyond }
        ensures some { IfSome result (λ b. map (λ v. v.items) self.old.now.items
            ≡ map (λ v. v.items) self.new.now.items ++ b.items ∷ []) }
        ensures none { IfNone result ((map (λ v. v.items) self.old.now.items ≡ [])
            × (map (λ v. v.items) self.new.now.items ≡ [])) }
    {
        self.now.pop()
    }

    /// After none waits: the beginning of all orders comes again, for those that make one more switch. False if no
    /// order makes as many as that, or none may: then nothing has changed.
    pub fn rise(&mut self, alloc: Global, most: usize) -> Result<bool, AllocError>
        ensures over { IfOk result (λ risen. risen ≡ false → (self.new ≡ self.old)
            × ((self.old.beyond ≡ false) ⊎ (most ≤ self.old.level))) }
        ensures low { IfOk result (λ risen. risen ≡ true → self.old.level < most) }
        ensures level { IfOk result (λ risen. risen ≡ true → self.new.level ≡ self.old.level + 1) }
        ensures now { IfOk result (λ risen. risen ≡ true
            → map (λ v. v.items) self.new.now.items
            ≡ map (λ v. v.items) self.old.now.items ++ [] ∷ []) }
        ensures beyond { IfOk result (λ risen. risen ≡ true → self.new.beyond ≡ false) }
    {
        if !self.beyond || self.level >= most {
            return Ok(false);
        }
        self.now.push(Vec::new(alloc))?;
        self.level += 1;
        self.beyond = false;
        Ok(true)
    }

    /// After a run was played whose first `from` steps were taken from here, and which kills no session after them:
    /// those of its other orders wait that cost no more switches than the level and have no more kills than may come.
    pub fn add(
        &mut self,
        alloc: Global,
        order: &[Step],
        turns: &[Turn],
        from: usize,
        most_kills: usize,
        total: usize,
    ) -> Result<(), AllocError>
        requires from { from ≤ length order.now }
        requires turns { length turns.now ≡ length order.now }
        requires total { total ≡ switches order.now }
        ensures level { self.new.level ≡ self.old.level }
        ensures added { OnOk result (IsTurned most_kills self.old.level from order.now turns.now
            (map (λ v. v.items) self.old.now.items) self.old.beyond
            (map (λ v. v.items) self.new.now.items) self.new.beyond) }
    {
        let kill = may_kill(order, most_kills);
        let mut more = others(alloc, order, turns, from, kill, total, self.level)?;
        self.now.append(&mut more.there)?;
        if more.beyond || self.level < total {
            self.beyond = true;
        }
        Ok(())
    }
}
