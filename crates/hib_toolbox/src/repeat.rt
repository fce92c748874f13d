// The script whose schedule repeats a journal (the word `schedule`): played by it, the sessions make the steps of the
// journal, and the same ones are killed.
ghost use Rattle.std.specs.Prelude.{◌≡◌, IfOk, position};
ghost use Rattle.hib_call.specs.Ends.{Comes};
ghost use Rattle.hib_call.specs.Outside.{Shared, shared_of};
ghost use Rattle.hib_order_law.specs.Orders.{steps_in};
ghost use Rattle.hib_order_schedule.specs.Schedules.{runs_of};
ghost use Rattle.hib_toolbox.specs.Repeating.{IsScheduled, is_foreign, repeating};

use crate::written::is_read_again;
use hib_base::{Act, Entry, Order, Script, Seq};
use hib_call::{JOURNAL_BYTES, Lent, Outcome, Ran, Status, Task, tell_text};
use hib_input::{WithJournal, read_with_journal};
use hib_order_plays::order_of;
use hib_order_schedule::{
    may_have_schedule, runs_of, schedules_play_orders, whole_runs_come_again,
};
use hib_outside::{Keeper, Listener, Sink};
use hib_script::ScriptError;
use std::alloc::{AllocError, Global};
use std::mem::replace;

/// Whether a schedule repeats a journal.
#[derive(Clone, Copy, Debug, PartialEq, Eq)]
pub enum Repeatable {
    /// It does.
    Whole,
    /// The entry at this place, from 0, is no session's own step, and no kill.
    Foreign(usize),
    /// It would have more than 20,000 lines, or a line of more than 1,000,000 steps; or the text of the script would be
    /// no script's, as it would have a line of more than 4,096 bytes, or more than 1,048,576 in all.
    Long,
}

/// A script, and whether its schedule repeats a journal.
#[derive(Drop)]
pub struct Repeated {
    /// The script, with that schedule if there is one.
    pub script: Script,
    /// Whether it repeats the journal.
    pub repeatable: Repeatable,
}

/// Whether an entry is no session's own step, and kills none, as an eviction or a restart. The schedule that repeats a
/// journal has runs and kills alone, so there is none for a journal with such an entry.
fn is_foreign(entry: &Entry) -> bool
    ensures { result ≡ is_foreign entry.now }
{
    match entry.act {
        Act::Kill { .. } => false,
        _ => entry.session.is_none(),
    }
}

/// The place of the first such entry.
fn first_foreign(entries: &[Entry]) -> Option<usize>
    ensures { result ≡ position is_foreign entries.now }
{
    entries.iter().position(|entry| is_foreign(entry))
}

/// All runs and kills of a journal. A journal of 2^32 entries or more is answered as want of memory.
fn orders_of(alloc: Global, entries: &[Entry]) -> Result<Vec<Order>, AllocError>
    ensures { IfOk result (λ v. v.items ≡ runs_of (steps_in entries.now)) }
{
    let order = order_of(alloc, entries)?;
    if order.len() >= 4_294_967_296 {
        return Err(AllocError);
    }
    runs_of(alloc, order.as_slice())
}

/// The script with these orders as its schedule, if it may be written with them.
fn put_schedule(alloc: Global, script: Script, orders: Vec<Order>) -> Result<Repeated, AllocError>
    ensures { IfOk result (λ r. IsScheduled script orders.items r.repeatable r.script) }
{
    if !may_have_schedule(&script, orders.as_slice()) {
        return Ok(Repeated {
            script,
            repeatable: Repeatable::Long,
        });
    }
    let mut script = script;
    let before = replace(&mut script.schedule, Seq::from_vec(orders));
    if !is_read_again(alloc, &script)? {
        script.schedule = before;
        return Ok(Repeated {
            script,
            repeatable: Repeatable::Long,
        });
    }
    Ok(Repeated {
        script,
        repeatable: Repeatable::Whole,
    })
}

/// The script with the schedule of all runs and kills of a journal, if it may be written with it.
fn put_runs(alloc: Global, script: Script, entries: &[Entry]) -> Result<Repeated, AllocError>
    ensures { IfOk result (λ r. IsScheduled script (runs_of (steps_in entries.now)) r.repeatable r.script) }
{
    let orders = orders_of(alloc, entries)?;
    put_schedule(alloc, script, orders)
}

/// Puts the schedule that repeats a journal into its script, if one does. Nothing that is lent is touched.
fn make_schedule(alloc: Global, input: WithJournal) -> Outcome<Repeated>
    ensures { (lent : Shared) → Comes repeating input lent lent result }
{
    schedules_play_orders();
    whole_runs_come_again();
    let WithJournal { script, journal } = input;
    match first_foreign(journal.as_slice()) {
        Some(entry) => Outcome::Over(Repeated {
            script,
            repeatable: Repeatable::Foreign(entry),
        }),
        None => match put_runs(alloc, script, journal.as_slice()) {
            Ok(repeated) => Outcome::Over(repeated),
            Err(_) => Outcome::Stopped(Status::NoMemory, None),
        },
    }
}

/// Puts the schedule that repeats a journal into its script, if one does, and hands back what is lent as it is.
pub fn repeat_run<K: Keeper, L: Listener>(
    alloc: Global,
    input: WithJournal,
    lent: Lent<K, L>,
) -> Ran<Repeated, K, L>
    ensures { Comes repeating input
        (shared_of K.Keeper L.Listener lent) (shared_of K.Keeper L.Listener result.lent) result.outcome }
{
    let outcome = make_schedule(alloc, input);
    Ran { outcome, lent }
}

/// Reads a script, the line `journal` and a journal as JSON lines, and writes the script with the schedule that repeats
/// the journal, if one does. Nothing is run or judged.
#[derive(Clone, Copy)]
pub struct Repeat;

impl Task for Repeat {
    ghost use Rattle.std.specs.Prelude.{⊤};
    ghost use Rattle.hib_toolbox.specs.Repeating.{repeating};

    type Input = WithJournal;

    type Run = Repeated;

    ghost command = { λ _. repeating };

    ghost is_sound = { λ _. ⊤ };

    fn limit(&self) -> usize {
        JOURNAL_BYTES
    }

    fn read(&self, alloc: Global, text: &[u8]) -> Result<WithJournal, ScriptError> {
        read_with_journal(alloc, text)
    }

    fn tell<W: Sink>(&self, alloc: Global, run: &Repeated, out: &mut W) -> Status {
        if run.repeatable != Repeatable::Whole {
            return tell_text(b"", out);
        }
        match hib_print::print(alloc, &run.script) {
            Ok(text) => tell_text(text.as_slice(), out),
            Err(_) => Status::NoMemory,
        }
    }
}
