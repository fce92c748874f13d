// One turn of a session in `bulk`: the act that is due is answered by the session or by a part, and its entry is added.
// If an old item is in its way, the turn sweeps that instead.
ghost use Rattle.std.specs.Prelude.{ℕ, ◌≡◌, ◌≢◌, ◌∷◌, ◌<◌, ◌≤◌, ◌^◌, ◌+◌, length, IfOk, OnOk, OnErr, IfSome, IsOk, Ok};
ghost use Rattle.std.specs.Prelude.{None, Some, Option, List, false, true};
ghost use Rattle.hib_journal.specs.Sessions.{Journal as Plain, own};
ghost use Rattle.hib_journal.specs.Next.{next as next_plain};
ghost use Rattle.hib_session.specs.Memory.{brings};
ghost use Rattle.hib_session.specs.Session.{Follows, IsTaken, number_of, is_killed, is_ready, left_in};
ghost use Rattle.hib_engines.specs.Due.{IsDue, HasQueries};
ghost use Rattle.hib_bulk.specs.Types.{BulkAct as Doing, BulkReply as Replied};
ghost use Rattle.hib_bulk_law.specs.Plain.{plain, plain_reply, refusal_of};
ghost use Rattle.hib_bulk_law.specs.Acts.{next};
ghost use Rattle.hib_bulk.specs.Kept.{past};
ghost use Rattle.hib_bulk.specs.Standing.{IsStill, entry_at};
ghost use Rattle.hib_bulk.specs.Regions.{region_of, has_old_in};
ghost use Rattle.hib_bulk.specs.Run.{IsRun, IsTurn, IsSwept, whole_of, bulk_of, Answers, Serves, Sweeps, Leaves, Moves};

use crate::journal::Bulked;
use crate::names::Name;
use crate::parts::BulkParts;
use hib_base::{
    Act, Entry, Evicted, Inserted, Key, Miss, Part, Put, Reply, Script, SessionNo, Tick,
};
use hib_bulk_law::{BulkAct, BulkEntry, BulkReply};
use hib_bulk_region::laws as wide;
use hib_clock::next as tick_after;
use hib_engines::{Stepped, laws};
use hib_journal::part_of;
use hib_outside::Keeper;
use hib_session::Session;
use std::alloc::{AllocError, Global};

/// Makes room for one more entry, and gives its tick: one more than there are entries.
pub fn reserve_tick(journal: &mut Bulked) -> Result<Tick, AllocError>
    ensures tick { IfOk result (λ t. t ≡ length (past journal.old) + 1) }
    ensures few { OnOk result (length (past journal.old) < 2 ^ 62) }
    ensures room { OnOk result (0 < journal.new.spare) }
    ensures same { past journal.new ≡ past journal.old }
{
    journal.reserve()?;
    let last = Tick(journal.len() as u64);
    match tick_after(last, last) {
        Some(tick) => Ok(tick),
        None => Err(AllocError),
    }
}

/// The plain reply that stands for a refusal by a region that lines hold. Sessions know plain replies alone.
fn refusal(act: &Act) -> Reply
    ensures { result ≡ refusal_of act.now }
{
    match act {
        Act::Put { .. } => Reply::Put(Put::Crowded),
        Act::AfterInsert { .. } => Reply::Inserted(Inserted::Crowded),
        _ => Reply::Miss(Miss::Absent),
    }
}

/// A reply in two: the plain one that the session takes, and the one that goes to the journal if that is another.
fn split(act: &Act, reply: BulkReply) -> (Reply, Option<BulkReply>)
    ensures plain { result.0 ≡ plain_reply act.now reply }
    ensures whole { whole_of result.0 result.1 ≡ reply }
{
    match reply {
        BulkReply::Plain(reply) => (reply, None),
        BulkReply::Swept => (Reply::Evicted(Evicted::Gone), Some(BulkReply::Swept)),
        BulkReply::Held { holders } => (refusal(act), Some(BulkReply::Held { holders })),
        BulkReply::Released { holders } => (refusal(act), Some(BulkReply::Released { holders })),
        BulkReply::Changed { rows } => (refusal(act), Some(BulkReply::Changed { rows })),
        BulkReply::Wide { holders } => (refusal(act), Some(BulkReply::Wide { holders })),
        BulkReply::WideEarly { unlock } => (refusal(act), Some(BulkReply::WideEarly { unlock })),
    }
}

/// Puts the two halves of a reply together again, for the journal.
fn whole(reply: Reply, other: Option<BulkReply>) -> BulkReply
    ensures { result ≡ whole_of reply other }
{
    match other {
        Some(other) => other,
        None => BulkReply::Plain(reply),
    }
}

/// The act that is due in a session.
fn due_act(alloc: Global, script: &Script, session: &Session) -> Result<Option<Act>, AllocError>
    requires queries { HasQueries script.now }
    ensures act { IfOk result (λ a. (mine : Plain) → Follows script.now session.now mine
        → a ≡ next_plain script.now (number_of session.now) mine) }
    ensures due { IfOk result (λ a. (mine : Plain) → Follows script.now session.now mine
        → IfSome a (IsDue script.now mine)) }
{
    let act = session.next_act(alloc, script)?;
    Ok(act)
}

/// Has the session or a part answer the act that is due. Gives its tick and the reply, and makes room for its entry in
/// the journal. If memory runs out nothing has changed, but for the keeper's counts.
fn answered<K: Keeper, N: Name>(
    alloc: Global,
    script: &Script,
    session: &Session,
    act: &Act,
    parts: &mut BulkParts<K>,
    journal: &mut Bulked,
) -> Result<(Tick, BulkReply), AllocError>
    requires script { script.now ≡ N.script }
    requires run { IsRun N.script N.lines N.from (past journal.old) parts.old }
    requires turn { IsTurn N.script (past journal.old) session.now act.now }
    requires swept { IsSwept N.script (past journal.old) act.now }
    ensures same { past journal.new ≡ past journal.old }
    ensures room { OnOk result (0 < journal.new.spare) }
    ensures tick { IfOk result (λ t. t.0 ≡ length (past journal.old) + 1) }
    ensures answers { IfOk result (λ t. Answers N.script N.lines N.from (number_of session.now)
        act.now t.1 (past journal.old) parts.old parts.new) }
    ensures entities { parts.new.store.entities ≡ parts.old.store.entities }
    ensures still { OnOk result (brings act.now ≡ true → IsStill parts.old parts.new) }
    ensures err { OnErr result (IsStill parts.old parts.new) }
{
    let tick = reserve_tick(journal)?;
    let reply = parts.answer(alloc, script, session, act, tick)?;
    Ok((tick, reply))
}

/// Lets the session take the entry of its act, and adds it to the journal, which must have room for it: both, or if
/// memory runs out neither. If the session is ready, it runs out only if the act brings something to it.
fn enter(
    alloc: Global,
    script: &Script,
    session: &mut Session,
    journal: &mut Bulked,
    entry: Entry,
    other: Option<BulkReply>,
) -> Result<(), AllocError>
    requires room { 0 < journal.old.spare }
    ensures number { number_of session.new ≡ number_of session.old }
    ensures killed { is_killed session.new ≡ is_killed session.old }
    ensures grown { OnOk result (past journal.new
        ≡ bulk_of (number_of session.old) entry other ∷ past journal.old) }
    ensures follows { OnOk result ((mine : Plain) → Follows script.now session.old mine
        → IsTaken script.now (number_of session.old) mine entry
        → Follows script.now session.new (entry ∷ mine)) }
    ensures less { OnOk result ((mine : Plain) → Follows script.now session.old mine
        → IsTaken script.now (number_of session.old) mine entry
        → left_in script.now session.new < left_in script.now session.old) }
    ensures same { OnErr result (past journal.new ≡ past journal.old) }
    ensures still { OnErr result ((mine : Plain) → Follows script.now session.old mine
        → Follows script.now session.new mine) }
    ensures room { (mine : Plain) → Follows script.now session.old mine
        → IsTaken script.now (number_of session.old) mine entry
        → is_ready script.now session.old ≡ true → brings entry.act ≡ false → IsOk result }
{
    session.advance(alloc, script, &entry)?;
    let session = session.number();
    let Entry {
        tick,
        session: _,
        part,
        act,
        reply,
    } = entry;
    journal.push(BulkEntry {
        tick,
        session,
        part,
        act: BulkAct::Plain(act),
        reply: whole(reply, other),
    });
    Ok(())
}

/// Answers the act that is due, lets its session take it, and adds its entry: all of it, or if memory runs out nothing.
fn serve<K: Keeper, N: Name>(
    alloc: Global,
    script: &Script,
    session: &mut Session,
    act: Act,
    parts: &mut BulkParts<K>,
    journal: &mut Bulked,
) -> Result<(), AllocError>
    requires script { script.now ≡ N.script }
    requires run { IsRun N.script N.lines N.from (past journal.old) parts.old }
    requires turn { IsTurn N.script (past journal.old) session.old act }
    requires swept { IsSwept N.script (past journal.old) act }
    requires ready { is_ready script.now session.old ≡ true }
    ensures number { number_of session.new ≡ number_of session.old }
    ensures killed { is_killed session.new ≡ is_killed session.old }
    ensures ok { OnOk result (Serves N.script N.lines N.from act (past journal.old)
        (past journal.new) parts.old parts.new session.old session.new) }
    ensures err { OnErr result (Leaves N.script (past journal.old)
        (past journal.new) parts.old parts.new session.old session.new) }
{
    let (tick, reply) = answered::<K, N>(alloc, script, session, &act, parts, journal)?;
    let number = session.number();
    let part = part_of(&act, number);
    let (reply, other) = split(&act, reply);
    let entry = Entry {
        tick,
        session: Some(number),
        part,
        act,
        reply,
    };
    enter(alloc, script, session, journal, entry, other)?;
    Ok(())
}

/// The entry of a sweep.
fn sweep_entry(key: &Key, session: SessionNo, tick: Tick) -> BulkEntry
    ensures { result ≡ entry_at tick session (Doing.Sweep key.now) Replied.Swept }
{
    let part = Part::Region(key.entity);
    let act = BulkAct::Sweep { key: *key };
    BulkEntry {
        tick,
        session,
        part,
        act,
        reply: BulkReply::Swept,
    }
}

/// Sweeps an item away that an act of a session on its key would meet. It must be old. If memory runs out nothing has
/// changed.
fn sweep<K: Keeper, N: Name>(
    key: Key,
    session: SessionNo,
    parts: &mut BulkParts<K>,
    journal: &mut Bulked,
) -> Result<(), AllocError>
    requires run { IsRun N.script N.lines N.from (past journal.old) parts.old }
    requires due { next N.script N.lines (past journal.old) session ≡ Some (Doing.Sweep key) }
    requires old { has_old_in (region_of parts.old.regions key.entity) key.id ≡ true }
    ensures ok { OnOk result (Sweeps N.script N.lines N.from session key (past journal.old)
        (past journal.new) parts.old parts.new) }
    ensures same { OnErr result (past journal.new ≡ past journal.old) }
    ensures err { OnErr result (parts.new ≡ parts.old) }
{
    laws();
    wide::answers();
    wide::grows();
    wide::stays();
    let tick = reserve_tick(journal)?;
    let entry = sweep_entry(&key, session, tick);
    parts.sweep(key, tick);
    journal.push(entry);
    Ok(())
}

/// One act of a session, if one is due, or the sweep that is due before it. First all is made ready.
pub fn take_turn<K: Keeper, N: Name>(
    alloc: Global,
    script: &Script,
    session: &mut Session,
    parts: &mut BulkParts<K>,
    journal: &mut Bulked,
) -> Result<Stepped, AllocError>
    requires script { script.now ≡ N.script }
    requires run { IsRun N.script N.lines N.from (past journal.old) parts.old }
    requires known { number_of session.old < length N.script.sessions }
    requires follows { Follows N.script session.old
        (own (number_of session.old) (plain (past journal.old))) }
    ensures number { number_of session.new ≡ number_of session.old }
    ensures killed { is_killed session.new ≡ is_killed session.old }
    ensures did { result ≡ Ok Stepped.Did
        → Moves N.script N.lines N.from (past journal.old)
        (past journal.new) parts.old parts.new session.old session.new }
    ensures done { result ≡ Ok Stepped.Done
        → next N.script N.lines (past journal.old) (number_of session.old) ≡ None }
    ensures still { result ≢ Ok Stepped.Did
        → Leaves N.script (past journal.old)
        (past journal.new) parts.old parts.new session.old session.new }
{
    wide::answers();
    session.ready(alloc, script)?;
    let Some(act) = due_act(alloc, script, session)? else {
        return Ok(Stepped::Done);
    };
    if let Some(key) = parts.old_for(&act) {
        let number = session.number();
        sweep::<K, N>(key, number, parts, journal)?;
        return Ok(Stepped::Did);
    }
    serve::<K, N>(alloc, script, session, act, parts, journal)?;
    Ok(Stepped::Did)
}
