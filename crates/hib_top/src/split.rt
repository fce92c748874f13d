// The run of a script over parts under locks of their own (`work --split`).
ghost use Rattle.std.specs.Prelude.{◌≡◌, ◌⊎◌, ◌≤◌, true, false, None, Option};
ghost use Rattle.hib_base.specs.Valid.{is_valid};
ghost use Rattle.hib_base.specs.Tables.{Tables};
ghost use Rattle.hib_call.specs.Ends.{Comes};
ghost use Rattle.hib_core.specs.Standing.{told_start};
ghost use Rattle.hib_call.specs.Outside.{shared, shared_of};
ghost use Rattle.hib_call.specs.Runs.{origin};
ghost use Rattle.hib_joined.specs.Run.{CameToOne};
ghost use Rattle.hib_listeners.specs.Heard.{HaveHeard};
ghost use Rattle.hib_listeners.specs.Told.{tells};
ghost use Rattle.hib_merge.specs.declared.tearing.Torn.{Torn};
ghost use Rattle.hib_words.specs.Commands.{max_workers};
ghost use Rattle.hib_top.specs.Running.{running};
ghost use Rattle.hib_top.specs.declared.telling.Telling.{Telling};
ghost use Rattle.hib_top.specs.declared.turns.Turns.{Turns};

use crate::telling::Played;
use hib_base::{Entry, Script};
use hib_call::{Lent, Outcome, Ran, Status, not_run};
use hib_core::{Name, runs_are_short};
use hib_formed::entries_are_formed;
use hib_joined::{Joined, JoinedRun, run_joined};
use hib_listeners::{Listeners, nothing_was_told, telling_goes_on};
use hib_outside::{Gate, Keeper, Listener};
use std::alloc::Global;
use std::marker::Brand;
use std::sync::Wait;
use std::thread::Threads;

/// The listeners hear of each entry, in order, until one has no memory. Answers whether all have heard all.
fn hear_all<L: Listener>(alloc: Global, entries: &[Entry], listeners: &mut Listeners<L>) -> bool
    ensures { result ≡ true → HaveHeard false entries.now
        (tells L.heard L.left listeners.old) (tells L.heard L.left listeners.new) }
{
    nothing_was_told();
    telling_goes_on();
    for entry in entries {
        if listeners.tell(alloc, entry).is_err() {
            return false;
        }
    }
    true
}

/// The listeners hear of a run that is over. If one has no memory there is no journal.
fn hear_run<L: Listener>(alloc: Global, run: Played, listeners: Vec<L>) -> (Outcome<Played>, Vec<L>)
    ensures { ((result.0 ≡ Outcome.Over run) × HaveHeard false run.journal.list
        (tells L.heard L.left listeners.items) (tells L.heard L.left result.1.items))
        ⊎ (result.0 ≡ Outcome.Stopped Status.NoMemory None) }
{
    let mut hearing = Listeners::open(listeners);
    if hear_all(alloc, run.journal.as_slice(), &mut hearing) {
        (Outcome::Over(run), hearing.close())
    } else {
        (Outcome::Stopped(Status::NoMemory, None), hearing.close())
    }
}

/// What such a run comes to, by what its lists were joined to. Of one journal the listeners hear each entry.
fn hear_joined<N: Name, K: Keeper, L: Listener>(
    alloc: Global,
    script: Script,
    joined: Joined,
    workers: u32,
    keeper: K,
    listeners: Vec<L>,
) -> Ran<Played, K, L>
    requires script { script ≡ N.script }
    requires valid { is_valid N.script ≡ true }
    requires came { CameToOne workers N.script N.from joined (K.tables keeper) (K.faults keeper)
        (K.asked keeper) }
    ensures comes { (kept : Option Tables) → told_start N.script kept ≡ N.from.tables
        → Comes (running (Turns.OnParts workers) Telling.Report) N.script
        (shared kept N.from.faults N.from.asked (tells L.heard L.left listeners.items))
        (shared_of K.Keeper L.Listener result.lent) result.outcome }
    ensures torn { (t : Torn) → result.outcome ≡ Outcome.Stopped (Status.Torn t) None
        → joined ≡ Joined.Torn t }
{
    entries_are_formed();
    runs_are_short();
    let _workers = workers;
    match joined {
        Joined::One(journal) => {
            let (outcome, listeners) = hear_run(alloc, Played { script, journal }, listeners);
            Ran {
                outcome,
                lent: Lent { keeper, listeners },
            }
        }
        Joined::Torn(torn) => Ran {
            outcome: Outcome::Stopped(Status::Torn(torn), None),
            lent: Lent { keeper, listeners },
        },
        Joined::NoMemory => Ran {
            outcome: Outcome::Stopped(Status::NoMemory, None),
            lent: Lent { keeper, listeners },
        },
    }
}

/// What the lists of a run were joined to, and the keeper. The lists are let go.
fn without_lists<K: Keeper>(run: JoinedRun<K>) -> (Joined, K)
    ensures joined { result.0 ≡ run.joined }
    ensures keeper { result.1 ≡ run.keeper }
{
    let JoinedRun {
        keeper,
        joined,
        lists: _,
        mine: _,
        strange: _,
        out_of_memory: _,
    } = run;
    (joined, keeper)
}

/// Runs a script over the parts of the factory of this name, each under a lock of its own.
fn split_named<
    N: Name + Send + Sync,
    R: Threads + Wait + Sync,
    K: Keeper + Send,
    L: Listener,
    G: Gate,
>(
    rt: &R,
    alloc: Global,
    script: Script,
    lent: Lent<K, L>,
    workers: u32,
    gate: &G,
) -> Ran<Played, K, L>
    requires workers { (1 ≤ workers) × (workers ≤ max_workers) }
    requires script { script ≡ N.script }
    requires valid { is_valid N.script ≡ true }
    requires from { origin N.script (shared_of K.Keeper L.Listener lent) ≡ N.from }
    ensures { Comes (running (Turns.OnParts workers) Telling.Report) N.script
        (shared_of K.Keeper L.Listener lent) (shared_of K.Keeper L.Listener result.lent) result.outcome }
{
    let Lent { keeper, listeners } = lent;
    match run_joined::<R, K, N, G>(rt, alloc, &script, keeper, workers, gate) {
        Ok(run) => {
            let (joined, keeper) = without_lists(run);
            hear_joined::<N, K, L>(alloc, script, joined, workers, keeper, listeners)
        }
        Err(fault) => not_run(fault, listeners),
    }
}

/// Runs a script over parts under locks of their own, each session to its end. The listeners hear of the entries after
/// the run. If memory runs out, or the run is torn, there is no journal.
pub fn split_script<R: Threads + Wait + Sync, K: Keeper + Send, L: Listener, G: Gate>(
    rt: &R,
    alloc: Global,
    script: Script,
    lent: Lent<K, L>,
    workers: u32,
    gate: &G,
) -> Ran<Played, K, L>
    requires workers { (1 ≤ workers) × (workers ≤ max_workers) }
    requires valid { is_valid script ≡ true }
    ensures { Comes (running (Turns.OnParts workers) Telling.Report) script
        (shared_of K.Keeper L.Listener lent) (shared_of K.Keeper L.Listener result.lent) result.outcome }
{
    split_named::<Brand, R, K, L, G>(rt, alloc, script, lent, workers, gate)
}
