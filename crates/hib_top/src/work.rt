// The run of a script on workers over one lock (`work`).
ghost use Rattle.std.specs.Prelude.{◌≡◌, ◌≤◌, true};
ghost use Rattle.hib_base.specs.Valid.{is_valid};
ghost use Rattle.hib_call.specs.Ends.{Comes};
ghost use Rattle.hib_call.specs.Outside.{shared_of};
ghost use Rattle.hib_call.specs.Runs.{origin};
ghost use Rattle.hib_listeners.specs.Told.{tells};
ghost use Rattle.hib_words.specs.Commands.{max_workers};
ghost use Rattle.hib_top.specs.Running.{running};
ghost use Rattle.hib_top.specs.declared.telling.Telling.{Telling};
ghost use Rattle.hib_top.specs.declared.turns.Turns.{Turns};

use crate::telling::Played;
use hib_base::Script;
use hib_call::{Lent, Outcome, Ran, Status, not_run};
use hib_core::{Factory, Name, OpenRefused, runs_are_short};
use hib_formed::{entries_are_formed, ticks_are_early};
use hib_outside::{Gate, Keeper, Listener};
use hib_workers::Worked;
use std::alloc::Global;
use std::marker::Brand;
use std::sync::Wait;
use std::thread::Threads;

/// Runs a script over what is lent on workers, in the factory of this name.
fn work_named<
    N: Name + Send + Sync,
    R: Threads + Wait + Sync,
    K: Keeper + Send,
    L: Listener,
    G: Gate,
>(
    rt: &R,
    alloc: Global,
    script: Script,
    lent: Lent<K, L>,
    workers: u32,
    gate: &G,
) -> Ran<Played, K, L>
    requires workers { (1 ≤ workers) × (workers ≤ max_workers) }
    requires script { script ≡ N.script }
    requires valid { is_valid N.script ≡ true }
    requires from { origin N.script (shared_of K.Keeper L.Listener lent) ≡ N.from }
    requires told { tells L.heard L.left lent.listeners.items ≡ N.told }
    ensures { Comes (running (Turns.OnWorkers workers) Telling.Report) N.script
        (shared_of K.Keeper L.Listener lent) (shared_of K.Keeper L.Listener result.lent) result.outcome }
{
    entries_are_formed();
    ticks_are_early();
    runs_are_short();
    let Lent { keeper, listeners } = lent;
    let factory: Factory<K, N, L> = match Factory::open(alloc, script, keeper, listeners) {
        Ok(factory) => factory,
        Err(OpenRefused { fault, listeners }) => return not_run(fault, listeners),
    };
    let Worked {
        factory,
        out_of_memory,
    } = hib_workers::work(rt, alloc, factory, workers, gate);
    let (keeper, script, journal, listeners) = factory.close();
    let run = Played { script, journal };
    let outcome = if out_of_memory {
        Outcome::Stopped(Status::NoMemory, Some(run))
    } else {
        Outcome::Over(run)
    };
    Ran {
        outcome,
        lent: Lent { keeper, listeners },
    }
}

/// Runs a script over what is lent on workers, each session to its end. If memory runs out the journal so far stands.
/// The listeners hear of each entry.
pub fn work_script<R: Threads + Wait + Sync, K: Keeper + Send, L: Listener, G: Gate>(
    rt: &R,
    alloc: Global,
    script: Script,
    lent: Lent<K, L>,
    workers: u32,
    gate: &G,
) -> Ran<Played, K, L>
    requires workers { (1 ≤ workers) × (workers ≤ max_workers) }
    requires valid { is_valid script ≡ true }
    ensures { Comes (running (Turns.OnWorkers workers) Telling.Report) script
        (shared_of K.Keeper L.Listener lent) (shared_of K.Keeper L.Listener result.lent) result.outcome }
{
    work_named::<Brand, R, K, L, G>(rt, alloc, script, lent, workers, gate)
}
