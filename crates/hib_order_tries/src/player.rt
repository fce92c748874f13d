// Who plays the runs of a script's sessions.
ghost use Rattle.hib_base.specs.Tables.{Tables};
ghost use Rattle.hib_base.specs.declared.entries.Entry.{Entry};
ghost use Rattle.hib_base.specs.declared.replies.Outcome.{Outcome};
ghost use Rattle.hib_base.specs.declared.scripts.Script.{Script};
ghost use Rattle.hib_order_law.specs.Orders.{can_begin, kills};
ghost use Rattle.hib_order_tries.specs.Found.{IsPlayed};
ghost use Rattle.std.specs.Prelude.{◌≡◌, ◌≤◌, ◌+◌, ℕ, List, [], IfOk, length, true};

use hib_base::Outcome;
use hib_order_law::{Step, Turn, Verdicts};
use std::alloc::{AllocError, Global};

/// A run that was played to the end of each session that isn't killed.
#[derive(Drop)]
pub struct Played {
    /// Its steps.
    pub order: Vec<Step>,
    /// What each step does to its session.
    pub turns: Vec<Turn>,
    /// What is judged of the run.
    pub verdicts: Verdicts,
    /// How each session has ended, by its number.
    pub ending: Vec<Outcome>,
}

/// Who plays runs of a script's sessions, and judges them.
pub trait Player {
    ghost use Rattle.hib_order_law.specs.declared.verdicts.Verdicts.{Verdicts};

    /// The script.
    ghost script: { Script };

    /// The committed rows at the start.
    ghost start: { Tables };

    /// What is judged of a run, whose entries are the oldest first.
    ghost judged: { List Entry → Verdicts };

    /// How each session of a run has ended.
    ghost ended: { List Entry → List Outcome };

    /// How many steps a run has at most, beside its kills.
    ghost most_steps: { ℕ };

    /// Plays a run that begins with these steps, to the end of each session that isn't killed; after these steps none
    /// is killed. Each of the steps may come at its turn. Want of memory is the only error. After it the player may
    /// answer want of memory for ever; a run that it does play is played as if this one had not been asked for.
    fn play(&mut self, alloc: Global, begun: &[Step]) -> Result<Played, AllocError>
        requires { can_begin script start [] begun.now ≡ true }
        ensures played { IfOk result (λ p. IsPlayed script start judged ended begun.now p.order.items
            p.turns.items p.verdicts p.ending.items) }
        ensures short { IfOk result (λ p. length p.order.items ≤ most_steps + kills begun.now) };
}
