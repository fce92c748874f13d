// The run of a script by its schedule.
ghost use Rattle.std.specs.Prelude.{◌≡◌, true};
ghost use Rattle.hib_base.specs.Valid.{is_valid};
ghost use Rattle.hib_call.specs.Ends.{Comes};
ghost use Rattle.hib_call.specs.Outside.{shared_of};
ghost use Rattle.hib_call.specs.Runs.{origin};
ghost use Rattle.hib_listeners.specs.Told.{tells};
ghost use Rattle.hib_top.specs.Running.{running};
ghost use Rattle.hib_top.specs.declared.telling.Telling.{Telling};
ghost use Rattle.hib_top.specs.declared.turns.Turns.{Turns};

use crate::telling::Played;
use hib_base::Script;
use hib_call::{Lent, Outcome, Ran, Status, not_run};
use hib_core::{Factory, Name, OpenRefused, runs_are_short};
use hib_formed::{entries_are_formed, ticks_are_early};
use hib_outside::{Keeper, Listener};
use std::alloc::Global;
use std::marker::Brand;

/// Runs a script over what is lent, in the factory of this name.
fn play_named<N: Name, K: Keeper, L: Listener>(
    alloc: Global,
    script: Script,
    lent: Lent<K, L>,
) -> Ran<Played, K, L>
    requires script { script ≡ N.script }
    requires valid { is_valid N.script ≡ true }
    requires from { origin N.script (shared_of K.Keeper L.Listener lent) ≡ N.from }
    requires told { tells L.heard L.left lent.listeners.items ≡ N.told }
    ensures { Comes (running Turns.Scheduled Telling.Report) N.script
        (shared_of K.Keeper L.Listener lent) (shared_of K.Keeper L.Listener result.lent) result.outcome }
{
    entries_are_formed();
    ticks_are_early();
    runs_are_short();
    let Lent { keeper, listeners } = lent;
    let mut factory: Factory<K, N, L> = match Factory::open(alloc, script, keeper, listeners) {
        Ok(factory) => factory,
        Err(OpenRefused { fault, listeners }) => return not_run(fault, listeners),
    };
    let finished = factory.play(alloc);
    let (keeper, script, journal, listeners) = factory.close();
    let run = Played { script, journal };
    let outcome = match finished {
        Ok(()) => Outcome::Over(run),
        Err(_) => Outcome::Stopped(Status::NoMemory, Some(run)),
    };
    Ran {
        outcome,
        lent: Lent { keeper, listeners },
    }
}

/// Runs a script over what is lent: the orders of its schedule, and then each session to its end, the first one first.
/// If memory runs out the journal so far stands. The listeners hear of each entry.
pub fn play_script<K: Keeper, L: Listener>(
    alloc: Global,
    script: Script,
    lent: Lent<K, L>,
) -> Ran<Played, K, L>
    requires { is_valid script ≡ true }
    ensures { Comes (running Turns.Scheduled Telling.Report) script
        (shared_of K.Keeper L.Listener lent) (shared_of K.Keeper L.Listener result.lent) result.outcome }
{
    play_named::<Brand, K, L>(alloc, script, lent)
}
