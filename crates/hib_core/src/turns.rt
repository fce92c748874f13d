// One turn of a session, which is a step of the factory: the act that is due is answered by the session or by an
// engine, and its entry is added.
ghost use Rattle.std.specs.Prelude.{ℕ, ◌≡◌, ◌≢◌, ◌∷◌, ◌<◌, ◌^◌, ◌+◌, ◌==◌, length, slice_get, is_some, IfOk, OnOk, OnErr, IsOk, Ok, None, false, true, IfSome};
ghost use Rattle.hib_base.specs.declared.entries.Entry.{Entry};
ghost use Rattle.hib_journal.specs.Kept.{past};
ghost use Rattle.hib_journal.specs.Sessions.{Journal as Past, was_killed};
ghost use Rattle.hib_journal.specs.Next.{next};
ghost use Rattle.hib_journal.specs.Played.{has_next};
ghost use Rattle.hib_journal.specs.Runs.{is_fault};
ghost use Rattle.hib_outside.specs.Causes.{Rose};
ghost use Rattle.hib_session.specs.Memory.{brings};
ghost use Rattle.hib_session.specs.Session.{Follows, IsTaken, number_of, is_killed, is_ready, left_in};
ghost use Rattle.hib_engines.specs.Due.{IsDue, HasQueries};
ghost use Rattle.hib_engines.specs.Engines.{IsStill, IsAskedFor, IsRefused};
ghost use Rattle.hib_core.specs.Standing.{entry_of};
ghost use Rattle.hib_core.specs.Bound.{outside_count};
ghost use Rattle.hib_session.specs.Sessions.{AreSessions};
ghost use Rattle.hib_core.specs.Factory.{IsRun, IsAsked, IsMember, IsTurn, Answers, Serves, Leaves, Moves, Does, IsOver, IsStepRefused};

use hib_base::{Act, Entry, Reply, Script, SessionNo, Tick};
use hib_clock::next as tick_after;
use hib_engines::{Engines, Name, Stepped};
use hib_journal::{Journal, part_of};
use hib_law::law;
use hib_outside::Keeper;
use hib_session::Session;
use std::alloc::{AllocError, Global};

/// The act that is due in a session.
fn due_act(alloc: Global, script: &Script, session: &Session) -> Result<Option<Act>, AllocError>
    requires queries { HasQueries script.now }
    ensures act { IfOk result (λ a. (mine : Past) → Follows script.now session.now mine
        → a ≡ next script.now (number_of session.now) mine) }
    ensures due { IfOk result (λ a. (mine : Past) → Follows script.now session.now mine
        → IfSome a (IsDue script.now mine)) }
    ensures killed { IfOk result (λ a. is_killed session.now ≡ true → a ≡ None) }
{
    let act = session.next_act(alloc, script)?;
    Ok(act)
}

/// Whether there is an act; for `is_due`.
fn is_some(act: Option<Act>) -> bool
    ensures { result ≡ is_some act }
{
    act.is_some()
}

/// Whether an act is due in a session.
fn is_due(alloc: Global, script: &Script, session: &Session) -> Result<bool, AllocError>
    requires queries { HasQueries script.now }
    ensures due { IfOk result (λ b. (mine : Past) → Follows script.now session.now mine
        → is_killed session.now ≡ false
        → b ≡ is_some (next script.now (number_of session.now) mine)) }
    ensures killed { is_killed session.now ≡ true → result ≡ Ok false }
{
    if session.was_killed() {
        return Ok(false);
    }
    let due = due_act(alloc, script, session)?;
    Ok(is_some(due))
}

/// Whether an act is due in the session of this number. A deaf factory asks it.
pub fn has_turn<N: Name>(
    alloc: Global,
    script: &Script,
    number: SessionNo,
    sessions: &[Session],
) -> Result<bool, AllocError>
    requires script { script.now ≡ N.script }
    requires queries { HasQueries N.script }
    requires there { number < length sessions.now }
    ensures due { (h : Past) → AreSessions N.script h sessions.now
        → IfOk result (λ b. b ≡ has_next N.script h number) }
    ensures killed { (h : Past) → AreSessions N.script h sessions.now
        → was_killed number h ≡ true → result ≡ Ok false }
{
    is_due(alloc, script, &sessions[number.0 as usize])
}

/// The tick of the next entry, one more than there are entries. All parts stand under one lock, so that they share
/// their last tick, and so do the sessions.
pub fn next_tick(journal: &Journal) -> Result<Tick, AllocError>
    ensures tick { IfOk result (λ t. t ≡ length (past journal.now) + 1) }
    ensures few { OnOk result (length (past journal.now) < 2 ^ 62) }
{
    let last = Tick(journal.len() as u64);
    match tick_after(last, last) {
        Some(tick) => Ok(tick),
        None => Err(AllocError),
    }
}

/// Makes room for one more entry, and gives its tick.
pub fn reserve_tick(journal: &mut Journal) -> Result<Tick, AllocError>
    ensures tick { IfOk result (λ t. t ≡ length (past journal.old) + 1) }
    ensures few { OnOk result (length (past journal.old) < 2 ^ 62) }
    ensures room { OnOk result (0 < journal.new.spare) }
    ensures same { past journal.new ≡ past journal.old }
{
    journal.reserve()?;
    next_tick(journal)
}

/// Adds an entry to a journal, which must have room for it. It takes no memory.
pub fn add(journal: &mut Journal, entry: Entry)
    requires { 0 < journal.old.spare }
    ensures { past journal.new ≡ entry ∷ past journal.old }
{
    let _ = journal.push(entry);
}

/// Has the session or an engine answer the act that is due. Gives its tick and the reply, and makes room for its entry
/// in the journal. If memory runs out nothing has changed, but for the keeper's counts.
fn answered<K: Keeper, N: Name>(
    alloc: Global,
    script: &Script,
    session: &Session,
    act: &Act,
    engines: &mut Engines<K>,
    journal: &mut Journal,
) -> Result<(Tick, Reply), AllocError>
    requires script { script.now ≡ N.script }
    requires run { IsRun N.script N.from (past journal.old) engines.old }
    requires turn { IsTurn N.script (past journal.old) session.now act.now }
    ensures same { past journal.new ≡ past journal.old }
    ensures room { OnOk result (0 < journal.new.spare) }
    ensures tick { IfOk result (λ t. t.0 ≡ length (past journal.old) + 1) }
    ensures answers { IfOk result (λ t. Answers N.script N.from (number_of session.now) act.now
        (past journal.old) (entry_of (past journal.old) (number_of session.now) act.now t.1)
        engines.old engines.new) }
    ensures passed { OnOk result (brings act.now ≡ true → IsRefused (past journal.old)
        (number_of session.now) act.now engines.old engines.new) }
    ensures err { OnErr result (IsRefused (past journal.old) (number_of session.now) act.now
        engines.old engines.new) }
{
    law();
    let tick = reserve_tick(journal)?;
    let reply = engines.answer(alloc, script, session, act, tick)?;
    Ok((tick, reply))
}

/// Lets the session take the entry of its act, and adds it to the journal, which must have room for it: both, or if
/// memory runs out neither. If the session is ready, it runs out only if the act brings something to it.
fn enter(
    alloc: Global,
    script: &Script,
    session: &mut Session,
    journal: &mut Journal,
    entry: Entry,
) -> Result<(), AllocError>
    requires room { 0 < journal.old.spare }
    ensures number { number_of session.new ≡ number_of session.old }
    ensures killed { is_killed session.new ≡ is_killed session.old }
    ensures grown { OnOk result (past journal.new ≡ entry ∷ past journal.old) }
    ensures follows { OnOk result ((mine : Past) → Follows script.now session.old mine
        → IsTaken script.now (number_of session.old) mine entry
        → Follows script.now session.new (entry ∷ mine)) }
    ensures less { OnOk result ((mine : Past) → Follows script.now session.old mine
        → IsTaken script.now (number_of session.old) mine entry
        → left_in script.now session.new < left_in script.now session.old) }
    ensures same { OnErr result (past journal.new ≡ past journal.old) }
    ensures still { OnErr result ((mine : Past) → Follows script.now session.old mine
        → Follows script.now session.new mine) }
    ensures room { (mine : Past) → Follows script.now session.old mine
        → IsTaken script.now (number_of session.old) mine entry
        → is_ready script.now session.old ≡ true → brings entry.act ≡ false → IsOk result }
{
    session.advance(alloc, script, &entry)?;
    add(journal, entry);
    Ok(())
}

/// Answers the act that is due, lets its session take it, and adds its entry: all of it, or if memory runs out nothing.
fn serve<K: Keeper, N: Name>(
    alloc: Global,
    script: &Script,
    session: &mut Session,
    act: Act,
    engines: &mut Engines<K>,
    journal: &mut Journal,
) -> Result<(), AllocError>
    requires script { script.now ≡ N.script }
    requires run { IsRun N.script N.from (past journal.old) engines.old }
    requires turn { IsTurn N.script (past journal.old) session.old act }
    requires ready { is_ready script.now session.old ≡ true }
    ensures number { number_of session.new ≡ number_of session.old }
    ensures killed { is_killed session.new ≡ is_killed session.old }
    ensures ok { OnOk result (Serves N.script N.from act (past journal.old)
        (past journal.new) engines.old engines.new session.old session.new) }
    ensures err { OnErr result (Leaves N.script (past journal.old)
        (past journal.new) engines.old engines.new session.old session.new) }
{
    let (tick, reply) = answered::<K, N>(alloc, script, session, &act, engines, journal)?;
    let number = session.number();
    let part = part_of(&act, number);
    let entry = Entry {
        tick,
        session: Some(number),
        part,
        act,
        reply,
    };
    enter(alloc, script, session, journal, entry)?;
    Ok(())
}

/// One act of a session, if one is due: first all is made ready, and only then the act is answered.
fn take_turn<K: Keeper, N: Name>(
    alloc: Global,
    script: &Script,
    session: &mut Session,
    engines: &mut Engines<K>,
    journal: &mut Journal,
) -> Result<Stepped, AllocError>
    requires script { script.now ≡ N.script }
    requires run { IsRun N.script N.from (past journal.old) engines.old }
    requires member { IsMember N.script (past journal.old) session.old }
    ensures number { number_of session.new ≡ number_of session.old }
    ensures killed { is_killed session.new ≡ is_killed session.old }
    ensures did { result ≡ Ok Stepped.Did
        → Moves N.script N.from (past journal.old)
        (past journal.new) engines.old engines.new session.old session.new }
    ensures done { result ≡ Ok Stepped.Done
        → has_next N.script (past journal.old) (number_of session.old) ≡ false }
    ensures quiet { result ≡ Ok Stepped.Done → engines.new ≡ engines.old }
    ensures dead { is_killed session.old ≡ true → result ≡ Ok Stepped.Done }
    ensures still { result ≢ Ok Stepped.Did
        → Leaves N.script (past journal.old)
        (past journal.new) engines.old engines.new session.old session.new }
{
    if session.was_killed() {
        return Ok(Stepped::Done);
    }
    session.ready(alloc, script)?;
    let Some(act) = due_act(alloc, script, session)? else {
        return Ok(Stepped::Done);
    };
    serve::<K, N>(alloc, script, session, act, engines, journal)?;
    Ok(Stepped::Did)
}

/// One act of the session of this number, if one is due. If memory runs out nothing has changed, but for the keeper's
/// counts.
pub fn turn<K: Keeper, N: Name>(
    alloc: Global,
    script: &Script,
    number: SessionNo,
    sessions: &mut Vec<Session>,
    engines: &mut Engines<K>,
    journal: &mut Journal,
) -> Result<Stepped, AllocError>
    requires script { script.now ≡ N.script }
    requires known { number < length N.script.sessions }
    requires run { IsRun N.script N.from (past journal.old) engines.old }
    requires sessions { AreSessions N.script (past journal.old) sessions.old.items }
    ensures run { IsRun N.script N.from (past journal.new) engines.new }
    ensures sessions { AreSessions N.script (past journal.new) sessions.new.items }
    ensures did { result ≡ Ok Stepped.Did
        → Does N.script number (past journal.old)
        (past journal.new) sessions.old.items sessions.new.items }
    ensures done { result ≡ Ok Stepped.Done
        → IsOver N.script number (past journal.old) (past journal.new) }
    ensures same { OnErr result (past journal.new ≡ past journal.old) }
    ensures err { OnErr result (IsStill engines.old engines.new) }
    ensures counts { OnErr result (IsStepRefused N.script (past journal.old) number engines.old
        engines.new) }
    ensures asked { OnOk result (IsAsked N.from (past journal.old) engines.old
        → IsAsked N.from (past journal.new) engines.new) }
    ensures asks_once { (e : Entry) → past journal.new ≡ e ∷ past journal.old
        → IsAskedFor (past journal.old) number e.act engines.old engines.new }
    ensures fault { (e : Entry) → past journal.new ≡ e ∷ past journal.old → is_fault e.reply ≡ true
        → Rose engines.old.store.faults engines.new.store.faults }
    ensures inside { outside_count (past journal.new) ≡ outside_count (past journal.old) }
    ensures dead { was_killed number (past journal.old) ≡ true → result ≡ Ok Stepped.Done }
    ensures others { (s : ℕ) → (number == s) ≡ false
        → slice_get sessions.new.items s ≡ slice_get sessions.old.items s }
{
    let session = &mut sessions[number.0 as usize];
    take_turn::<K, N>(alloc, script, session, engines, journal)
}
