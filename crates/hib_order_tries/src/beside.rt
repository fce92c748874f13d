// The first steps of the other orders of one that was played: they leave it at a place, by another step than its own. A
// level is how many switches an order may make.
ghost use Rattle.hib_order_law.specs.Orders.{comes, cost, same_step, switches};
ghost use Rattle.hib_order_law.specs.declared.step.Step.{Step};
ghost use Rattle.hib_order_tries.specs.Left.{AreBeside, AreLeft, AreOpen, IsAdded, IsBefore, cost_left, first_of};
ghost use Rattle.hib_order_tries.specs.Left.{is_at};
ghost use Rattle.hib_order_tries.specs.Tail.{IsTail};
ghost use Rattle.std.specs.Prelude.{◌≡◌, ◌++◌, ◌∷◌, ◌+◌, ◌<◌, ◌≤◌, ◌^◌, [], IfOk, OnOk, drop, false, length, map, take};

use crate::openings::{kills_at, openings};
use crate::tail::Tail;
use hib_order_law::{Step, Turn};
use std::alloc::{AllocError, Global};

/// First steps of other orders of one.
#[derive(Drop)]
pub struct Beginnings {
    /// Those that cost no more switches than a level.
    pub there: Vec<Vec<Step>>,
    /// Whether there are others, which cost more.
    pub beyond: bool,
}

/// How many switches an order makes.
pub fn switches(alloc: Global, order: &[Step]) -> Result<usize, AllocError>
    ensures { IfOk result (λ n. n ≡ switches order.now) }
{
    let mut tail = Tail::new(alloc);
    for gone in 0..order.len() {
        tail.take(order[order.len() - 1 - gone])?;
    }
    Ok(tail.switches)
}

/// What the steps before a place cost.
#[derive(Clone, Copy)]
struct Before {
    /// How many of them leave a session that comes again later.
    spent: usize,
    /// The session that a step there leaves, if it is another session's.
    left: Option<u32>,
}

impl Before {
    /// What the steps before a place of an order cost, of which the tail from that place on is known and how many
    /// switches it makes.
    fn of(order: &[Step], at: usize, tail: &Tail, total: usize) -> Before
        requires inside { at ≤ length order.now }
        requires tail { IsTail (drop at order.now) tail.now.steps.items tail.now.first
            tail.now.switches }
        requires total { total ≡ switches order.now }
        ensures before { IsBefore order.now at result.spent result.left }
        ensures spent { result.spent ≤ total }
    {
        if at == 0 {
            return Before {
                spent: 0,
                left: None,
            };
        }
        let session = order[at - 1].session();
        let rest = if tail.leaves(session) {
            tail.switches + 1
        } else {
            tail.switches
        };
        Before {
            spent: total - rest,
            left: if tail.comes(session) {
                Some(session)
            } else {
                None
            },
        }
    }

    /// What they cost with one more step.
    fn cost(&self, step: Step) -> usize
        requires { self.now.spent < 2 ^ 63 }
        ensures { result ≡ self.now.spent + cost_left self.now.left step }
    {
        match self.left {
            None => self.spent,
            Some(left) => {
                if step.session() == left {
                    self.spent
                } else {
                    self.spent + 1
                }
            }
        }
    }
}

/// Whether two steps are one.
fn same_step(one: Step, other: Step) -> bool
    ensures { result ≡ same_step one other }
{
    match one {
        Step::Own(session) => match other {
            Step::Own(by) => session == by,
            Step::Kill(_session) => false,
        },
        Step::Kill(session) => match other {
            Step::Own(_session) => false,
            Step::Kill(by) => session == by,
        },
    }
}

/// Whether a step is the one at a place of an order.
fn is_at(order: &[Step], at: usize, step: Step) -> bool
    ensures { result ≡ is_at order.now at step }
{
    match order.get(at) {
        None => false,
        Some(there) => same_step(*there, step),
    }
}

/// The first steps of an order, and then another.
fn first_steps(
    alloc: Global,
    order: &[Step],
    at: usize,
    step: Step,
) -> Result<Vec<Step>, AllocError>
    requires { at ≤ length order.now }
    ensures { IfOk result (λ v. v.items ≡ first_of order.now at step) }
{
    let mut steps = Vec::with_capacity(alloc, at + 1)?;
    steps.extend_from_slice(&order[..at])?;
    steps.push(step)?;
    Ok(steps)
}

impl Beginnings {
    fn new(alloc: Global) -> Beginnings
        ensures there { result.there.items ≡ [] }
        ensures beyond { result.beyond ≡ false }
    {
        Beginnings {
            there: Vec::new(alloc),
            beyond: false,
        }
    }

    /// Adds those that leave an order at a place with a step. They are built if they cost no more switches than a
    /// level.
    fn add(
        &mut self,
        alloc: Global,
        order: &[Step],
        at: usize,
        step: Step,
        cost: usize,
        level: usize,
    ) -> Result<(), AllocError>
        requires { at ≤ length order.now }
        ensures { OnOk result (IsAdded level cost (first_of order.now at step)
            (map (λ v. v.items) self.old.there.items) self.old.beyond
            (map (λ v. v.items) self.new.there.items) self.new.beyond) }
    {
        if cost <= level {
            self.there.push(first_steps(alloc, order, at, step)?)?;
        } else {
            self.beyond = true;
        }
        Ok(())
    }

    /// Adds those that leave an order at a place with one of these steps.
    fn add_at(
        &mut self,
        alloc: Global,
        order: &[Step],
        at: usize,
        these: &[Step],
        before: Before,
        level: usize,
    ) -> Result<(), AllocError>
        requires inside { at ≤ length order.now }
        requires before { IsBefore order.now at before.spent before.left }
        requires spent { before.spent < 2 ^ 63 }
        ensures { OnOk result (AreLeft level at order.now these.now
            (map (λ v. v.items) self.old.there.items) self.old.beyond
            (map (λ v. v.items) self.new.there.items) self.new.beyond) }
    {
        for place in 0..these.len() {
            let step = these[place];
            if !is_at(order, at, step) {
                self.add(alloc, order, at, step, before.cost(step), level)?;
            }
        }
        Ok(())
    }

    /// Adds those that leave an order at a place, of which the tail from that place on is known, how many switches it
    /// makes, and which kills may come there.
    fn leave(
        &mut self,
        alloc: Global,
        order: &[Step],
        at: usize,
        tail: &Tail,
        kills: &[Step],
        total: usize,
        level: usize,
    ) -> Result<(), AllocError>
        requires inside { at ≤ length order.now }
        requires tail { IsTail (drop at order.now) tail.now.steps.items tail.now.first
            tail.now.switches }
        requires total { total ≡ switches order.now }
        ensures { OnOk result (AreLeft level at order.now (tail.now.steps.items ++ kills.now)
            (map (λ v. v.items) self.old.there.items) self.old.beyond
            (map (λ v. v.items) self.new.there.items) self.new.beyond) }
    {
        let before = Before::of(order, at, tail, total);
        self.add_at(alloc, order, at, tail.steps(), before, level)?;
        self.add_at(alloc, order, at, kills, before, level)
    }
}

/// The first steps of the other orders of one that share the first `from` steps at least, if they cost no more switches
/// than a level; and whether there are others. From there on the order kills no session. `turns` says what each of its
/// steps does to its session, `may_kill` whether one more session may be killed, and `total` how many switches it
/// makes. What is built is what is answered; beside that each step of the order takes as long as there are sessions,
/// and if a session may be killed, the open ones are kept for each step.
pub fn others(
    alloc: Global,
    order: &[Step],
    turns: &[Turn],
    from: usize,
    may_kill: bool,
    total: usize,
    level: usize,
) -> Result<Beginnings, AllocError>
    requires from { from ≤ length order.now }
    requires turns { length turns.now ≡ length order.now }
    requires total { total ≡ switches order.now }
    ensures { IfOk result (λ o. AreBeside may_kill level from order.now turns.now
        (map (λ v. v.items) o.there.items) o.beyond) }
{
    let openings = openings(alloc, order, turns, may_kill)?;
    let kills = openings.as_slice();
    let mut found = Beginnings::new(alloc);
    let mut tail = Tail::new(alloc);
    let end = order.len();
    found.leave(alloc, order, end, &tail, kills_at(kills, end), total, level)?;
    for gone in 0..end - from {
        let at = end - 1 - gone;
        tail.take(order[at])?;
        found.leave(alloc, order, at, &tail, kills_at(kills, at), total, level)?;
    }
    Ok(found)
}
