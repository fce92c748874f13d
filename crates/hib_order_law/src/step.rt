// A step of an order of the search, and what it does to its session.
ghost use Rattle.hib_order_law.specs.Orders.{whose};
ghost use Rattle.std.specs.Prelude.{◌≡◌};

/// A step of an order: a session makes its next step, or it is killed.
#[derive(Clone, Copy, Debug, PartialEq, Eq)]
pub enum Step {
    /// The session with this number makes its next step.
    Own(u32),
    /// The session with this number is killed.
    Kill(u32),
}

impl Step {
    /// The session whose step it is.
    pub fn session(self) -> u32
        ensures { result ≡ whose self }
    {
        match self {
            Step::Own(session) | Step::Kill(session) => session,
        }
    }
}

/// What a step does to its session.
#[derive(Clone, Copy, Debug, PartialEq, Eq)]
pub enum Turn {
    /// A transaction begins: the session is open from now on.
    Opens,
    /// It ends: the session is closed.
    Closes,
    /// Neither.
    GoesOn,
}
