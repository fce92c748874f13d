// One run: its first steps, and then each session to its end.
ghost use Rattle.hib_base.specs.Tables.{Tables};
ghost use Rattle.hib_base.specs.Valid.{is_valid};
ghost use Rattle.hib_core.specs.Bound.{outside_count};
ghost use Rattle.hib_core.specs.Factory.{AreOver};
ghost use Rattle.hib_core.specs.Playing.{GoesOn};
ghost use Rattle.hib_journal.specs.Kept.{past};
ghost use Rattle.hib_listeners.specs.Told.{tells};
ghost use Rattle.hib_order_law.specs.Orders.{IsRun, IsUndisturbed, begins, can_begin, is_due, is_unkilled, kills, steps_in, turns_in};
ghost use Rattle.hib_order_plays.specs.Starts.{are_steps, new_origin, rows_at_start};
ghost use Rattle.hib_store.specs.Stores.{is_store_fault};
ghost use Rattle.std.specs.Prelude.{◌≡◌, ◌∷◌, [], IfOk, OnOk, false, length, reverse, true};

use crate::entries::{order_of, turns_of};
use crate::sure::SureKeeper;
use hib_base::{Script, SessionNo};
use hib_core::{Factory, Name, OpenRefused};
use hib_journal::Journal;
use hib_order_law::{Step, Turn};
use hib_outside::{Keeper, Listener};
use hib_store::OpenFault;
use std::alloc::{AllocError, Global};

/// A run that was played.
#[derive(Drop)]
pub struct Run {
    /// Its script.
    pub script: Script,
    /// Its entries.
    pub journal: Journal,
    /// The step that each entry is.
    pub order: Vec<Step>,
    /// What each step does to its session.
    pub turns: Vec<Turn>,
}

/// Makes a step.
fn make<N: Name, K: Keeper, L: Listener>(
    alloc: Global,
    factory: &mut Factory<K, N, L>,
    step: Step,
) -> Result<(), AllocError>
    ensures goes { OnOk result (GoesOn (past factory.old.journal) (past factory.new.journal)) }
    ensures steps { OnOk result (are_steps (past factory.old.journal) ≡ true
        → are_steps (past factory.new.journal) ≡ true) }
    ensures made { OnOk result ((start : Tables)
        → IsUndisturbed N.script start (past factory.new.journal)
        → is_due N.script (past factory.old.journal) step ≡ true
        → steps_in (past factory.new.journal) ≡ step ∷ steps_in (past factory.old.journal)) }
{
    match step {
        Step::Own(session) => factory.run_steps(alloc, SessionNo(session), 1),
        Step::Kill(session) => factory.kill(alloc, SessionNo(session)),
    }
}

/// Makes these steps.
fn begin<N: Name, K: Keeper, L: Listener>(
    alloc: Global,
    factory: &mut Factory<K, N, L>,
    steps: &[Step],
) -> Result<(), AllocError>
    ensures steps { OnOk result (are_steps (past factory.old.journal) ≡ true
        → are_steps (past factory.new.journal) ≡ true) }
    ensures made { OnOk result ((start : Tables) → past factory.old.journal ≡ []
        → can_begin N.script start [] steps.now ≡ true
        → IsUndisturbed N.script start (past factory.new.journal)
        → steps_in (past factory.new.journal) ≡ reverse steps.now) }
{
    for step in steps {
        make(alloc, factory, *step)?;
    }
    Ok(())
}

/// Runs the session of the last of these steps to its end. If that kills it, it has come to its end.
fn run_last<N: Name, K: Keeper, L: Listener>(
    alloc: Global,
    factory: &mut Factory<K, N, L>,
    steps: &[Step],
) -> Result<(), AllocError>
    ensures inside { outside_count (past factory.new.journal)
        ≡ outside_count (past factory.old.journal) }
    ensures goes { OnOk result (GoesOn (past factory.old.journal) (past factory.new.journal)) }
{
    match steps.last() {
        Some(last) => factory.run_steps(alloc, SessionNo(last.session()), u32::MAX),
        None => Ok(()),
    }
}

/// Makes these steps, which are due, and then runs the session of the last one to its end, and then each. After these
/// steps no session is killed.
fn follow<N: Name, K: Keeper, L: Listener>(
    alloc: Global,
    factory: &mut Factory<K, N, L>,
    steps: &[Step],
) -> Result<(), AllocError>
    ensures over { OnOk result (AreOver N.script (past factory.new.journal)) }
    ensures steps { OnOk result (are_steps (past factory.old.journal) ≡ true
        → are_steps (past factory.new.journal) ≡ true) }
    ensures begins { OnOk result ((start : Tables) → past factory.old.journal ≡ []
        → can_begin N.script start [] steps.now ≡ true
        → IsUndisturbed N.script start (past factory.new.journal)
        → begins steps.now (steps_in factory.new.journal.list) ≡ true) }
    ensures unkilled { OnOk result ((start : Tables) → past factory.old.journal ≡ []
        → can_begin N.script start [] steps.now ≡ true
        → IsUndisturbed N.script start (past factory.new.journal)
        → is_unkilled (length steps.now) (steps_in factory.new.journal.list) ≡ true) }
{
    begin(alloc, factory, steps)?;
    run_last(alloc, factory, steps)?;
    factory.finish(alloc)
}

/// Why a factory over a sure keeper wasn't opened: that never fails, so that memory ran out.
fn no_memory<L: Drop>(refused: OpenRefused<SureKeeper, L>) -> AllocError
    requires { is_store_fault refused.fault ≡ false }
{
    match refused.fault {
        OpenFault::NoMemory(_) => AllocError,
        OpenFault::StoreFault(_) => unreachable!(),
    }
}

/// Plays a run that begins with these steps, which are due, in a factory in which nothing was done.
fn play_over<N: Name, L: Listener + Drop>(
    alloc: Global,
    mut factory: Factory<SureKeeper, N, L>,
    steps: &[Step],
) -> Result<Run, AllocError>
    requires empty { past factory.journal ≡ [] }
    requires from { new_origin N.script ≡ N.from }
    requires due { can_begin N.script (rows_at_start N.script) [] steps.now ≡ true }
    ensures script { IfOk result (λ r. r.script ≡ N.script) }
    ensures run { IfOk result (λ r. IsRun N.script (rows_at_start N.script) (kills steps.now)
        r.journal.list) }
    ensures begins { IfOk result (λ r. begins steps.now r.order.items ≡ true) }
    ensures unkilled { IfOk result (λ r. is_unkilled (length steps.now) r.order.items ≡ true) }
    ensures order { IfOk result (λ r. r.order.items ≡ steps_in r.journal.list) }
    ensures turns { IfOk result (λ r. r.turns.items ≡ turns_in r.journal.list) }
{
    let followed = follow(alloc, &mut factory, steps);
    let (_keeper, script, journal, _listeners) = factory.close();
    followed?;
    let order = order_of(alloc, journal.as_slice())?;
    let turns = turns_of(alloc, journal.as_slice())?;
    Ok(Run {
        script,
        journal,
        order,
        turns,
    })
}

/// Plays a run that begins with these steps, each of which may come at its turn, in the factory of this name, over a
/// new keeper in memory. After them the session of the last one goes on to its end, and then each, and no session is
/// killed. Fails for want of memory alone.
pub fn play_in<N: Name, L: Listener + Drop>(
    alloc: Global,
    script: Script,
    listeners: Vec<L>,
    steps: &[Step],
) -> Result<Run, AllocError>
    requires script { script ≡ N.script }
    requires valid { is_valid N.script ≡ true }
    requires from { new_origin N.script ≡ N.from }
    requires told { tells L.heard L.left listeners.items ≡ N.told }
    requires due { can_begin N.script (rows_at_start N.script) [] steps.now ≡ true }
    ensures script { IfOk result (λ r. r.script ≡ N.script) }
    ensures run { IfOk result (λ r. IsRun N.script (rows_at_start N.script) (kills steps.now)
        r.journal.list) }
    ensures begins { IfOk result (λ r. begins steps.now r.order.items ≡ true) }
    ensures unkilled { IfOk result (λ r. is_unkilled (length steps.now) r.order.items ≡ true) }
    ensures order { IfOk result (λ r. r.order.items ≡ steps_in r.journal.list) }
    ensures turns { IfOk result (λ r. r.turns.items ≡ turns_in r.journal.list) }
{
    let keeper = SureKeeper::new(alloc);
    match Factory::<SureKeeper, N, L>::open(alloc, script, keeper, listeners) {
        Ok(factory) => play_over(alloc, factory, steps),
        Err(refused) => Err(no_memory(refused)),
    }
}
