// One turn of a session, which is a step of it: an act of its plan is answered, or one at a collection's region that
// comes before or after it.
ghost use Rattle.std.specs.Prelude.{◌≡◌, ◌+◌, ◌<◌, ◌^◌, Option, length, IfOk, IfSome, OnOk, OnErr, Some, None, true};
ghost use Rattle.std.specs.Prelude.{false, is_some};
ghost use Rattle.hib_base.specs.declared.entries.Act.{Act};
ghost use Rattle.hib_journal.specs.Sessions.{Journal};
ghost use Rattle.hib_journal.specs.Next.{next};
ghost use Rattle.hib_session.specs.Session.{Follows, is_ready, number_of};
ghost use Rattle.hib_engines.specs.Due.{IsDue, HasQueries};
ghost use Rattle.hib_engines.specs.Engines.{IsStill};
ghost use Rattle.hib_collections_law.specs.Gathered.{Due, due};
ghost use Rattle.hib_collections.specs.Kept.{past};
ghost use Rattle.hib_collections.specs.Gatherers.{AreGatherers, IsGatherer};
ghost use Rattle.hib_collections.specs.Run.{Does, IsKept, IsStepRefused, IsTurn, is_done};
ghost use Rattle.hib_collections.specs.Shared.{HasLeft, HasServed, HasTurned, IsShared};

use crate::at_owners::{serve_get, serve_lock, serve_put, serve_unlock};
use crate::before::{Before, comes_before};
use crate::gathered::Gathered;
use crate::members::Gatherer;
use crate::names::Name;
use crate::shared::GatherShared;
use hib_base::{Act, Entry, Script, SessionNo, Tick};
use hib_collections_law::{Defs, GatherEntry};
use hib_journal::part_of;
use hib_outside::Keeper;
use hib_session::Session;
use std::alloc::{AllocError, Global};

/// What a turn came to. No list is turned here.
#[derive(Drop)]
pub enum Turned {
    /// One entry more, which is the newest of the journal.
    Did,
    /// One entry more, a hit, that stands for this entry of the session's plan.
    Hit(Entry),
    /// The session is at its end.
    Done,
}

impl Turned {
    /// Whether it did nothing.
    pub fn is_done(&self) -> bool
        ensures { result ≡ is_done self.now }
    {
        match self {
            Turned::Did | Turned::Hit(_) => false,
            Turned::Done => true,
        }
    }
}

/// The act that is due in a session by its plan.
fn due_act(alloc: Global, script: &Script, session: &Session) -> Result<Option<Act>, AllocError>
    requires queries { HasQueries script.now }
    ensures act { IfOk result (λ a. (mine : Journal) → Follows script.now session.now mine
        → a ≡ next script.now (number_of session.now) mine) }
    ensures due { IfOk result (λ a. (mine : Journal) → Follows script.now session.now mine
        → IfSome a (IsDue script.now mine)) }
{
    let act = session.next_act(alloc, script)?;
    Ok(act)
}

/// Makes a session and the journal ready for one more entry, and gives its tick: one more than there are entries. At an
/// error all is as before but for the room.
fn prepare(
    alloc: Global,
    script: &Script,
    gatherer: &mut Gatherer,
    journal: &mut Gathered,
) -> Result<Tick, AllocError>
    ensures tick { IfOk result (λ t. t ≡ length (past journal.old) + 1) }
    ensures few { OnOk result (length (past journal.old) + 1 < 2 ^ 62) }
    ensures room { OnOk result (0 < journal.new.spare) }
    ensures ready { OnOk result (is_ready script.now gatherer.new.session ≡ true) }
    ensures locks { OnOk result (gatherer.new.notes.room ≡ true) }
    ensures same { past journal.new ≡ past journal.old }
    ensures kept { IsKept script.now gatherer.old gatherer.new }
{
    gatherer.notes.reserve()?;
    gatherer.session.ready(alloc, script)?;
    journal.reserve()?;
    Ok(Tick(journal.len() as u64 + 1))
}

/// Answers the act of the plan, lets its session take it, and adds its entry: all of it, or if memory runs out nothing.
fn serve_plain<K: Keeper, N: Name>(
    alloc: Global,
    script: &Script,
    gatherer: &mut Gatherer,
    shared: &mut GatherShared<K>,
    act: Act,
    tick: Tick,
) -> Result<Turned, AllocError>
    requires script { script.now ≡ N.script }
    requires run { IsShared N.script N.defs N.from shared.old }
    requires tick { tick ≡ length (past shared.old.journal) + 1 }
    requires few { length (past shared.old.journal) + 1 < 2 ^ 62 }
    requires room { 0 < shared.old.journal.spare }
    requires turn { IsTurn N.script (past shared.old.journal) gatherer.old act }
    requires ready { is_ready script.now gatherer.old.session ≡ true }
    requires due { due N.script N.defs (number_of gatherer.old.session) (past shared.old.journal)
        ≡ Some (Due.Plain act) }
    ensures ok { IfOk result (HasServed N.script N.defs N.from shared.old shared.new gatherer.old
        gatherer.new) }
    ensures err { OnErr result (HasLeft N.script N.defs shared.old shared.new gatherer.old
        gatherer.new) }
{
    let reply = shared
        .engines
        .answer(alloc, script, &gatherer.session, &act, tick)?;
    let listed = gatherer.notes.copy_listed(alloc, &act, &reply)?;
    let number = gatherer.session.number();
    let part = part_of(&act, number);
    let entry = Entry {
        tick,
        session: Some(number),
        part,
        act,
        reply,
    };
    gatherer.session.advance(alloc, script, &entry)?;
    gatherer.notes.note(&entry.act, listed);
    shared.journal.push(GatherEntry::Plain(entry));
    Ok(Turned::Did)
}

/// Answers the act that is due by the plan, or first what comes before it.
fn serve<K: Keeper, N: Name>(
    alloc: Global,
    script: &Script,
    defs: &Defs,
    gatherer: &mut Gatherer,
    shared: &mut GatherShared<K>,
    act: Act,
    tick: Tick,
) -> Result<Turned, AllocError>
    requires script { script.now ≡ N.script }
    requires defs { defs.now ≡ N.defs }
    requires run { IsShared N.script N.defs N.from shared.old }
    requires tick { tick ≡ length (past shared.old.journal) + 1 }
    requires few { length (past shared.old.journal) + 1 < 2 ^ 62 }
    requires room { 0 < shared.old.journal.spare }
    requires locks { gatherer.old.notes.room ≡ true }
    requires turn { IsTurn N.script (past shared.old.journal) gatherer.old act }
    requires ready { is_ready script.now gatherer.old.session ≡ true }
    requires unlisted { gatherer.old.notes.listed ≡ None }
    ensures ok { IfOk result (HasServed N.script N.defs N.from shared.old shared.new gatherer.old
        gatherer.new) }
    ensures err { OnErr result (HasLeft N.script N.defs shared.old shared.new gatherer.old
        gatherer.new) }
{
    match comes_before(script, defs, &gatherer.session, &gatherer.notes, &act) {
        Before::Nothing => serve_plain::<K, N>(alloc, script, gatherer, shared, act, tick),
        Before::Get(place) => serve_get::<K, N>(alloc, script, gatherer, shared, act, place, tick),
        Before::Lock(place) => serve_lock::<K, N>(alloc, gatherer, shared, place, tick),
        Before::Unlock(place, lock) => serve_unlock::<K, N>(
            alloc, gatherer, shared, place, lock, tick,
        ),
    }
}

/// One act of a session, if one is due: what was listed after a miss is offered first. If memory runs out nothing has
/// changed, but for the keeper's counts if what was due calls it.
fn take_turn<K: Keeper, N: Name>(
    alloc: Global,
    script: &Script,
    defs: &Defs,
    gatherer: &mut Gatherer,
    shared: &mut GatherShared<K>,
) -> Result<Turned, AllocError>
    requires script { script.now ≡ N.script }
    requires defs { defs.now ≡ N.defs }
    requires run { IsShared N.script N.defs N.from shared.old }
    requires member { IsGatherer N.script (past shared.old.journal)
        (number_of gatherer.old.session) gatherer.old }
    ensures ok { IfOk result (HasTurned N.script N.defs N.from shared.old shared.new gatherer.old
        gatherer.new) }
    ensures err { OnErr result (HasLeft N.script N.defs shared.old shared.new gatherer.old
        gatherer.new) }
{
    let tick = prepare(alloc, script, gatherer, &mut shared.journal)?;
    if let Some((place, list)) = gatherer.notes.copy_of_listed(alloc)? {
        return serve_put::<K, N>(alloc, gatherer, shared, place, list, tick);
    }
    let Some(act) = due_act(alloc, script, &gatherer.session)? else {
        return Ok(Turned::Done);
    };
    serve::<K, N>(alloc, script, defs, gatherer, shared, act, tick)
}

/// Whether anything is due in the session of this number. A deaf factory asks it. Fails for want of memory alone.
pub fn has_turn<N: Name>(
    alloc: Global,
    script: &Script,
    number: SessionNo,
    gatherers: &[Gatherer],
    journal: &Gathered,
) -> Result<bool, AllocError>
    requires script { script.now ≡ N.script }
    requires queries { HasQueries N.script }
    requires known { number < length N.script.sessions }
    requires sessions { AreGatherers N.script (past journal.now) gatherers.now }
    ensures { IfOk result (λ b. b ≡ is_some (due N.script N.defs number (past journal.now))) }
{
    let _ = journal;
    let gatherer = &gatherers[number.0 as usize];
    if gatherer.notes.has_listed() {
        return Ok(true);
    }
    let act = due_act(alloc, script, &gatherer.session)?;
    Ok(act.is_some())
}

/// One act of the session of this number, if one is due. If memory runs out nothing has changed, but for the keeper's
/// counts if what was due calls it.
pub fn turn<K: Keeper, N: Name>(
    alloc: Global,
    script: &Script,
    defs: &Defs,
    number: SessionNo,
    gatherers: &mut Vec<Gatherer>,
    shared: &mut GatherShared<K>,
) -> Result<Turned, AllocError>
    requires script { script.now ≡ N.script }
    requires defs { defs.now ≡ N.defs }
    requires known { number < length N.script.sessions }
    requires run { IsShared N.script N.defs N.from shared.old }
    requires sessions { AreGatherers N.script (past shared.old.journal) gatherers.old.items }
    ensures run { IsShared N.script N.defs N.from shared.new }
    ensures sessions { AreGatherers N.script (past shared.new.journal) gatherers.new.items }
    ensures ok { IfOk result (Does N.script N.defs number (past shared.old.journal)
        (past shared.new.journal) shared.old.engines shared.new.engines) }
    ensures same { OnErr result (past shared.new.journal ≡ past shared.old.journal) }
    ensures err { OnErr result (IsStill shared.old.engines shared.new.engines) }
    ensures counts { OnErr result (IsStepRefused N.script N.defs (past shared.old.journal) number
        shared.old.engines shared.new.engines) }
{
    let gatherer = &mut gatherers[number.0 as usize];
    take_turn::<K, N>(alloc, script, defs, gatherer, shared)
}
