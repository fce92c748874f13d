// What a session does at an owner of a collection, by the region of the collection: it asks for members, offers them,
// locks and unlocks. Each of these is a step with an entry of its own, which `turns` makes.
ghost use Rattle.std.specs.Prelude.{◌≡◌, ◌+◌, ◌<◌, ◌≤◌, ◌^◌, ℕ, List, Option, length, IfOk, IfSome, OnOk, OnErr, Some};
ghost use Rattle.std.specs.Prelude.{None, true, false, is_some};
ghost use Rattle.hib_base.specs.Tables.{Tables};
ghost use Rattle.hib_base.specs.declared.entries.Act.{Act};
ghost use Rattle.hib_base.specs.declared.scripts.Script.{Script as Said};
ghost use Rattle.hib_journal.specs.Sessions.{own, time_in, floor_in};
ghost use Rattle.hib_journal.specs.Lists.{entry_at};
ghost use Rattle.hib_journal.specs.Room.{key};
ghost use Rattle.hib_journal.specs.Runs.{is_fault};
ghost use Rattle.hib_session.specs.Session.{number_of};
ghost use Rattle.hib_engines.specs.Served.{reads};
ghost use Rattle.hib_collections_law.specs.declared.entries.Def.{Def};
ghost use Rattle.hib_collections_law.specs.declared.entries.MemberAct.{MemberAct};
ghost use Rattle.hib_collections_law.specs.Types.{Gathered as Past};
ghost use Rattle.hib_collections_law.specs.Gathered.{Due, IsGathered, due, plain, region_act};
ghost use Rattle.hib_collections.specs.Collected.{AreCollected};
ghost use Rattle.hib_collections.specs.Kept.{past};
ghost use Rattle.hib_collections.specs.Gatherers.{IsGatherer};
ghost use Rattle.hib_collections.specs.Run.{IsAnsweredAt, IsTurn, list_of_hit};
ghost use Rattle.hib_collections.specs.Shared.{HasLeft, HasServed, IsShared};

use crate::members::Gatherer;
use crate::names::Name;
use crate::places::OwnerPlace;
use crate::shared::GatherShared;
use crate::turns::Turned;
use hib_base::{Act, Entry, Listing, Reply, Row, Script, SessionNo, Tick, copy_cells};
use hib_collections_law::{GatherEntry, MemberAct, MemberEntry};
use hib_engines::{Region, laws, lists_leave, serve_region};
use hib_journal::part_of;
use hib_outside::Keeper;
use std::alloc::{AllocError, Global};

/// Has the region of the owner's collection answer an act at this tick. A read leaves the regions as they are, and so
/// does want of memory.
fn answer_at(
    alloc: Global,
    regions: &mut Vec<Region>,
    place: OwnerPlace,
    act: &Act,
    tick: Tick,
) -> Result<Reply, AllocError>
    requires { tick ≤ 2 ^ 62 }
    ensures answered { IfOk result (λ r. (script : Said) (defs : List Def) (told : Option Tables)
        (g : Past) (s : ℕ) (x : MemberAct) → IsGathered script defs told g
        → due script defs s g ≡ Some (Due.Member place x)
        → act.now ≡ region_act (key place.0 place.1) x → tick ≡ length g + 1
        → AreCollected script defs g regions.old.items
        → IsAnsweredAt script defs g s tick place x r regions.new.items) }
    ensures calm { IfOk result (λ r. is_fault r ≡ false) }
    ensures still { OnOk result (reads act.now ≡ true → regions.new.items ≡ regions.old.items) }
    ensures err { OnErr result (regions.new.items ≡ regions.old.items) }
{
    laws();
    let entity = place.entity();
    serve_region(alloc, regions, entity, act, tick)
}

/// A copy of the members, if the reply to a get is a hit; else none.
fn members_in(alloc: Global, reply: &Reply) -> Result<Option<Listing>, AllocError>
    ensures { IfOk result (λ l. l ≡ list_of_hit reply.now) }
{
    match reply {
        Reply::Hit(row) => {
            let list = copy_cells(alloc, &row.cells)?;
            Ok(Some(list))
        }
        _ => Ok(None),
    }
}

/// The entry of an act at a collection's region.
fn member_entry(
    tick: Tick,
    session: SessionNo,
    place: OwnerPlace,
    act: MemberAct,
    reply: Reply,
) -> MemberEntry
    ensures { result ≡ record {
      tick = tick;
      session = session;
      collection = place.0;
      owner = place.1;
      act = act;
      reply = reply;
    } }
{
    MemberEntry {
        tick,
        session,
        collection: place.collection,
        owner: place.owner,
        act,
        reply,
    }
}

/// Notes and adds the entry of a get that the region refused at this tick. It takes no memory.
fn serve_miss<K: Keeper, N: Name>(
    gatherer: &mut Gatherer,
    shared: &mut GatherShared<K>,
    place: OwnerPlace,
    tick: Tick,
    reply: Reply,
) -> Turned
    requires run { IsShared N.script N.defs N.from shared.old }
    requires member { IsGatherer N.script (past shared.old.journal)
        (number_of gatherer.old.session) gatherer.old }
    requires tick { tick ≡ length (past shared.old.journal) + 1 }
    requires few { length (past shared.old.journal) + 1 < 2 ^ 62 }
    requires room { 0 < shared.old.journal.spare }
    requires due { due N.script N.defs (number_of gatherer.old.session) (past shared.old.journal)
        ≡ Some (Due.Member place (MemberAct.Get (time_in (own (number_of gatherer.old.session)
        (plain N.script (past shared.old.journal)))))) }
    requires answered { IsAnsweredAt N.script N.defs (past shared.old.journal)
        (number_of gatherer.old.session) tick place (MemberAct.Get (time_in
        (own (number_of gatherer.old.session) (plain N.script (past shared.old.journal))))) reply
        shared.old.regions.items }
    requires miss { list_of_hit reply ≡ None }
    requires calm { is_fault reply ≡ false }
    ensures { HasServed N.script N.defs N.from shared.old shared.new gatherer.old gatherer.new result }
{
    let number = gatherer.session.number();
    let act = MemberAct::Get {
        time: gatherer.session.time(),
    };
    gatherer.notes.miss(place, &reply);
    let entry = member_entry(tick, number, place, act, reply);
    shared.journal.push(GatherEntry::Member(entry));
    Turned::Did
}

/// Adds the entry of a get that was a hit at this tick: the session takes the members as the list that is due, so the
/// store isn't asked. If memory runs out nothing has changed.
fn serve_hit<K: Keeper, N: Name>(
    alloc: Global,
    script: &Script,
    gatherer: &mut Gatherer,
    shared: &mut GatherShared<K>,
    place: OwnerPlace,
    entry: Entry,
    reply: Reply,
) -> Result<Turned, AllocError>
    requires script { script.now ≡ N.script }
    requires run { IsShared N.script N.defs N.from shared.old }
    requires turn { IsTurn N.script (past shared.old.journal) gatherer.old entry.act }
    requires few { length (past shared.old.journal) + 1 < 2 ^ 62 }
    requires room { 0 < shared.old.journal.spare }
    requires due { due N.script N.defs (number_of gatherer.old.session) (past shared.old.journal)
        ≡ Some (Due.Member place (MemberAct.Get (time_in (own (number_of gatherer.old.session)
        (plain N.script (past shared.old.journal)))))) }
    requires answered { IsAnsweredAt N.script N.defs (past shared.old.journal)
        (number_of gatherer.old.session) entry.tick place (MemberAct.Get (time_in
        (own (number_of gatherer.old.session) (plain N.script (past shared.old.journal))))) reply
        shared.old.regions.items }
    requires hit { IfSome (list_of_hit reply) (λ l. entry ≡ entry_at
        (length (past shared.old.journal) + 1) (Some (number_of gatherer.old.session)) entry.act
        (Reply.Listed l)) }
    requires is_hit { is_some (list_of_hit reply) ≡ true }
    ensures ok { IfOk result (HasServed N.script N.defs N.from shared.old shared.new gatherer.old
        gatherer.new) }
    ensures err { OnErr result (HasLeft N.script N.defs shared.old shared.new gatherer.old
        gatherer.new) }
{
    lists_leave();
    let act = MemberAct::Get {
        time: gatherer.session.time(),
    };
    gatherer.session.advance(alloc, script, &entry)?;
    gatherer.notes.settle();
    let number = gatherer.session.number();
    let member = member_entry(entry.tick, number, place, act, reply);
    shared.journal.push(GatherEntry::Member(member));
    Ok(Turned::Hit(entry))
}

/// Asks a collection for the members of an owner, before the session makes a list of them. A hit takes the place of the
/// list. If memory runs out nothing has changed.
pub fn serve_get<K: Keeper, N: Name>(
    alloc: Global,
    script: &Script,
    gatherer: &mut Gatherer,
    shared: &mut GatherShared<K>,
    act: Act,
    place: OwnerPlace,
    tick: Tick,
) -> Result<Turned, AllocError>
    requires script { script.now ≡ N.script }
    requires run { IsShared N.script N.defs N.from shared.old }
    requires tick { tick ≡ length (past shared.old.journal) + 1 }
    requires few { length (past shared.old.journal) + 1 < 2 ^ 62 }
    requires room { 0 < shared.old.journal.spare }
    requires turn { IsTurn N.script (past shared.old.journal) gatherer.old act }
    requires due { due N.script N.defs (number_of gatherer.old.session) (past shared.old.journal)
        ≡ Some (Due.Member place (MemberAct.Get (time_in (own (number_of gatherer.old.session)
        (plain N.script (past shared.old.journal)))))) }
    ensures ok { IfOk result (HasServed N.script N.defs N.from shared.old shared.new gatherer.old
        gatherer.new) }
    ensures err { OnErr result (HasLeft N.script N.defs shared.old shared.new gatherer.old
        gatherer.new) }
{
    let number = gatherer.session.number();
    let get = Act::Get {
        key: place.key(),
        time: gatherer.session.time(),
    };
    let reply = answer_at(alloc, &mut shared.regions, place, &get, tick)?;
    match members_in(alloc, &reply)? {
        Some(list) => {
            let part = part_of(&act, number);
            let entry = Entry {
                tick,
                session: Some(number),
                part,
                act,
                reply: Reply::Listed(list),
            };
            serve_hit::<K, N>(alloc, script, gatherer, shared, place, entry, reply)
        }
        None => Ok(serve_miss::<K, N>(gatherer, shared, place, tick, reply)),
    }
}

/// Offers members to the region of their collection, which were listed after a miss. If memory runs out nothing has
/// changed.
pub fn serve_put<K: Keeper, N: Name>(
    alloc: Global,
    gatherer: &mut Gatherer,
    shared: &mut GatherShared<K>,
    place: OwnerPlace,
    cells: Listing,
    tick: Tick,
) -> Result<Turned, AllocError>
    requires run { IsShared N.script N.defs N.from shared.old }
    requires tick { tick ≡ length (past shared.old.journal) + 1 }
    requires few { length (past shared.old.journal) + 1 < 2 ^ 62 }
    requires room { 0 < shared.old.journal.spare }
    requires member { IsGatherer N.script (past shared.old.journal)
        (number_of gatherer.old.session) gatherer.old }
    requires listed { gatherer.old.notes.listed ≡ Some (place, cells) }
    ensures ok { IfOk result (HasServed N.script N.defs N.from shared.old shared.new gatherer.old
        gatherer.new) }
    ensures err { OnErr result (HasLeft N.script N.defs shared.old shared.new gatherer.old
        gatherer.new) }
{
    let number = gatherer.session.number();
    let time = gatherer.session.time();
    let floor = gatherer.session.floor();
    let put = Act::Put {
        key: place.key(),
        row: Row {
            version: None,
            cells,
        },
        time,
        floor,
    };
    let reply = answer_at(alloc, &mut shared.regions, place, &put, tick)?;
    let list = gatherer.notes.take_listed();
    let act = MemberAct::Put { list, time, floor };
    let entry = member_entry(tick, number, place, act, reply);
    shared.journal.push(GatherEntry::Member(entry));
    Ok(Turned::Did)
}

/// Locks an owner before a change is written that may change its members. If memory runs out nothing has changed.
pub fn serve_lock<K: Keeper, N: Name>(
    alloc: Global,
    gatherer: &mut Gatherer,
    shared: &mut GatherShared<K>,
    place: OwnerPlace,
    tick: Tick,
) -> Result<Turned, AllocError>
    requires run { IsShared N.script N.defs N.from shared.old }
    requires tick { tick ≡ length (past shared.old.journal) + 1 }
    requires few { length (past shared.old.journal) + 1 < 2 ^ 62 }
    requires room { 0 < shared.old.journal.spare }
    requires member { IsGatherer N.script (past shared.old.journal)
        (number_of gatherer.old.session) gatherer.old }
    requires locks { gatherer.old.notes.room ≡ true }
    requires due { due N.script N.defs (number_of gatherer.old.session) (past shared.old.journal)
        ≡ Some (Due.Member place (MemberAct.Lock (floor_in (own (number_of gatherer.old.session)
        (plain N.script (past shared.old.journal)))))) }
    ensures ok { IfOk result (HasServed N.script N.defs N.from shared.old shared.new gatherer.old
        gatherer.new) }
    ensures err { OnErr result (HasLeft N.script N.defs shared.old shared.new gatherer.old
        gatherer.new) }
{
    let number = gatherer.session.number();
    let floor = gatherer.session.floor();
    let lock = Act::Lock {
        key: place.key(),
        version: None,
        floor,
    };
    let reply = answer_at(alloc, &mut shared.regions, place, &lock, tick)?;
    gatherer.notes.lock(place, &reply);
    let entry = member_entry(tick, number, place, MemberAct::Lock { floor }, reply);
    shared.journal.push(GatherEntry::Member(entry));
    Ok(Turned::Did)
}

/// Gives a lock on an owner back, before the end of the transaction. If memory runs out nothing has changed.
pub fn serve_unlock<K: Keeper, N: Name>(
    alloc: Global,
    gatherer: &mut Gatherer,
    shared: &mut GatherShared<K>,
    place: OwnerPlace,
    lock: Tick,
    tick: Tick,
) -> Result<Turned, AllocError>
    requires run { IsShared N.script N.defs N.from shared.old }
    requires tick { tick ≡ length (past shared.old.journal) + 1 }
    requires few { length (past shared.old.journal) + 1 < 2 ^ 62 }
    requires room { 0 < shared.old.journal.spare }
    requires member { IsGatherer N.script (past shared.old.journal)
        (number_of gatherer.old.session) gatherer.old }
    requires due { due N.script N.defs (number_of gatherer.old.session) (past shared.old.journal)
        ≡ Some (Due.Member place (MemberAct.Unlock lock)) }
    ensures ok { IfOk result (HasServed N.script N.defs N.from shared.old shared.new gatherer.old
        gatherer.new) }
    ensures err { OnErr result (HasLeft N.script N.defs shared.old shared.new gatherer.old
        gatherer.new) }
{
    let number = gatherer.session.number();
    let unlock = Act::Unlock {
        key: place.key(),
        lock,
    };
    let reply = answer_at(alloc, &mut shared.regions, place, &unlock, tick)?;
    gatherer.notes.unlock();
    let entry = member_entry(tick, number, place, MemberAct::Unlock { lock }, reply);
    shared.journal.push(GatherEntry::Member(entry));
    Ok(Turned::Did)
}
