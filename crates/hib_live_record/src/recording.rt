// The script that a run of live sessions amounts to, made of what was asked and of the entries of its steps.
ghost use Rattle.hib_base.specs.Scripts.{are_over, ends};
ghost use Rattle.hib_journal.specs.Runs.{is_fault};
ghost use Rattle.hib_live_law.specs.Grown.{AreLonger, HasGrown};
ghost use Rattle.hib_live_record.specs.Recorded.{ended, is_foreign, recorded};
ghost use Rattle.hib_order_law.specs.Orders.{steps_in};
ghost use Rattle.hib_order_schedule.specs.Schedules.{runs_of};
ghost use Rattle.std.specs.Prelude.{◌≡◌, map, position, IfOk, OnOk, OnErr, None, Ok, Some};

use hib_base::{Act, Commit, Entry, Order, Reply, Script, Seq, SessionDef, Statement};
use hib_order_plays::order_of;
use hib_order_schedule::runs_of;
use std::alloc::{AllocError, Global};
use std::mem;

/// Whether a statement ends a transaction.
fn ends(statement: &Statement) -> bool
    ensures { result ≡ ends statement.now }
{
    matches!(statement, Statement::Commit | Statement::Rollback)
}

/// Whether the last of some statements ends a transaction; there is one.
fn are_over(statements: &[Statement]) -> bool
    ensures { result ≡ are_over statements.now }
{
    let count = statements.len();
    count > 0 && ends(&statements[count - 1])
}

/// Ends the last transaction of a session by a rollback, if nothing else does.
fn end_session(session: &mut SessionDef) -> Result<(), AllocError>
    ensures ok { OnOk result (session.new ≡ ended session.old) }
    ensures err { OnErr result (session.new ≡ session.old) }
{
    if are_over(session.statements.as_slice()) {
        return Ok(());
    }
    session.statements.push(Statement::Rollback)
}

/// Ends the last transaction of each of these sessions.
fn end_each(sessions: &mut [SessionDef]) -> Result<(), AllocError>
    ensures ok { OnOk result (sessions.new ≡ map ended sessions.old) }
    ensures err { OnErr result (AreLonger sessions.old sessions.new) }
{
    for place in 0..sessions.len() {
        end_session(&mut sessions[place])?;
    }
    Ok(())
}

/// Ends the last transaction of each session.
fn end_all(alloc: Global, script: &mut Script) -> Result<(), AllocError>
    ensures ok { OnOk result (script.new ≡ record script.old { sessions = map ended script.old.sessions }) }
    ensures err { OnErr result (HasGrown script.old script.new) }
{
    let mut sessions = mem::replace(&mut script.sessions, Seq::new(alloc)).into_vec();
    let came = end_each(sessions.as_mut_slice());
    script.sessions = Seq::from_vec(sessions);
    came
}

fn is_fault(reply: &Reply) -> bool
    ensures { result ≡ is_fault reply.now }
{
    matches!(reply, Reply::Fault | Reply::Commit(Commit::Fault))
}

/// Whether no run or kill of a schedule repeats an entry.
fn is_foreign(entry: &Entry) -> bool
    ensures { result ≡ is_foreign entry.now }
{
    if is_fault(&entry.reply) {
        return true;
    }
    match entry.act {
        Act::Kill { .. } => false,
        _ => entry.session.is_none(),
    }
}

/// The place of the first such entry.
fn first_foreign(entries: &[Entry]) -> Option<usize>
    ensures { result ≡ position is_foreign entries.now }
{
    entries.iter().position(|entry| is_foreign(entry))
}

/// The runs and kills of some entries. Entries of 2^32 steps or more are answered as want of memory.
fn orders_of(alloc: Global, entries: &[Entry]) -> Result<Vec<Order>, AllocError>
    ensures { IfOk result (λ v. v.items ≡ runs_of (steps_in entries.now)) }
{
    let steps = order_of(alloc, entries)?;
    if steps.len() >= 4_294_967_296 {
        return Err(AllocError);
    }
    runs_of(alloc, steps.as_slice())
}

/// Makes the record of a run: the script of what was asked gets a rollback behind each session that nothing else ends, and
/// the run's own steps as its schedule. By `records_begin_runs`, whatever that script plays without faults from the rows
/// at the start begins with these entries. If no schedule repeats the entry at a place, from 0, since it is an eviction, a
/// restart or a fault, then the answer is the first such place, and the script is as it was. If memory runs out some
/// sessions may have got their rollback, and a later call goes on.
pub fn record_run(
    alloc: Global,
    script: &mut Script,
    entries: &[Entry],
) -> Result<Option<usize>, AllocError>
    ensures foreign { IfOk result (λ place. place ≡ position is_foreign entries.now) }
    ensures recorded { result ≡ Ok None → script.new ≡ recorded script.old entries.now }
    ensures kept { IfOk result (λ place. (place ≡ None → ⊥) → script.new ≡ script.old) }
    ensures err { OnErr result (HasGrown script.old script.new) }
{
    if let Some(place) = first_foreign(entries) {
        return Ok(Some(place));
    }
    let orders = orders_of(alloc, entries)?;
    end_all(alloc, script)?;
    script.schedule = Seq::from_vec(orders);
    Ok(None)
}
