// What comes in an order from a place on.
ghost use Rattle.hib_order_law.specs.Orders.{comes, leaves, switches, whose};
ghost use Rattle.hib_order_law.specs.declared.step.Step.{Step};
ghost use Rattle.hib_order_tries.specs.Tail.{IsTail};
ghost use Rattle.std.specs.Prelude.{◌≡◌, ◌∷◌, ◌<◌, ◌≤◌, ◌^◌, ℕ, List, [], IfOk, IfNone, IfSome, OnOk, None, Some};
ghost use Rattle.std.specs.Prelude.{length, drop};

use hib_order_law::Step;
use std::alloc::{AllocError, Global};

/// Whether a step of a session is among these, so that it comes again.
pub fn is_among(steps: &[Step], session: u32) -> bool
    ensures { result ≡ comes session steps.now }
{
    steps.iter().any(|step| step.session() == session)
}

/// What comes in an order from a place on.
#[derive(Drop)]
pub struct Tail {
    /// A step of each session that comes.
    steps: Vec<Step>,
    /// The session of the first step.
    first: Option<u32>,
    /// How many steps leave a session that comes again later.
    pub switches: usize,
}

impl Tail {
    /// The end of an order, where nothing comes.
    pub fn new(alloc: Global) -> Tail
        ensures { IsTail [] result.steps.items result.first result.switches }
    {
        Tail {
            steps: Vec::new(alloc),
            first: None,
            switches: 0,
        }
    }

    /// A step of each session that comes.
    pub fn steps(&self) -> &[Step]
        ensures { result.now ≡ self.now.steps.items }
    {
        self.steps.as_slice()
    }

    /// Whether a session comes.
    pub fn comes(&self, session: u32) -> bool
        ensures { result ≡ comes session self.now.steps.items }
    {
        is_among(self.steps.as_slice(), session)
    }

    /// Whether the first step leaves this session: it is another session's, and this one comes later.
    pub fn leaves(&self, session: u32) -> bool
        ensures { (steps : List Step)
            → IsTail steps self.now.steps.items self.now.first self.now.switches
            → result ≡ leaves session steps }
    {
        match self.first {
            None => false,
            Some(first) => first != session && self.comes(session),
        }
    }

    /// Takes the step before these.
    pub fn take(&mut self, step: Step) -> Result<(), AllocError>
        requires { self.old.switches < 2 ^ 63 }
        ensures { OnOk result ((steps : List Step)
            → IsTail steps self.old.steps.items self.old.first self.old.switches
            → IsTail (step ∷ steps) self.new.steps.items self.new.first self.new.switches) }
    {
        let session = step.session();
        if self.leaves(session) {
            self.switches += 1;
        }
        if !self.comes(session) {
            self.steps.push(Step::Own(session))?;
        }
        self.first = Some(session);
        Ok(())
    }
}
