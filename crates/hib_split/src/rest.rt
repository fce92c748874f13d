// The end of a run, on the caller's thread: it steps the sessions to their ends from where threads left them, if there
// were any, and puts the lists together.
ghost use Rattle.std.specs.Prelude.{◌≡◌, ◌≢◌, ◌<◌, ◌≤◌, ◌+◌, [], length, map, true, false, None, vec_len, vec_capacity};
ghost use Rattle.std.specs.Prelude.{IfSome, IsSome};
ghost use Rattle.hib_base.specs.Valid.{is_valid};
ghost use Rattle.hib_base.specs.declared.entries.Part.{Part};
ghost use Rattle.hib_journal.specs.Kept.{past};
ghost use Rattle.hib_journal.specs.Next.{next};
ghost use Rattle.hib_engines.specs.Counts.{RoseBy, RoseWithin};
ghost use Rattle.hib_split_law.specs.Apart.{store_ask_count};
ghost use Rattle.hib_split_law.specs.Merged.{AreOwnLegal, of_part_in};
ghost use Rattle.hib_parts.specs.Run.{GoesOn, cached_entities, entities_of, part_lists};
ghost use Rattle.hib_split.specs.Alone.{AreAtEnds, AreListed, AreOfOne, AreOneByOne, AreOwnListed, AreSoFar, AreWhole};
ghost use Rattle.hib_split.specs.Alone.{IsToldBy};

use crate::ended::{Ended, list_at};
use crate::gathering::{add_own_lists, add_shared};
use crate::strange::Strange;
use hib_base::{EntityNo, Script, Seq, SessionNo};
use hib_engines::Name;
use hib_journal::Journal;
use hib_merge::Lists;
use hib_outside::Keeper;
use hib_parts::{Parts, StorePart, Worker};
use std::alloc::Global;

/// What comes of a run of the sessions over the parts.
pub struct Split<K: Keeper> {
    /// The keeper that the parts were opened with.
    pub keeper: K,
    /// The list of each part, in the order of parts: the own entries of each session come last, in the order of
    /// sessions.
    pub lists: Lists,
    /// The list of each session, at the place of its number.
    pub mine: Lists,
    /// The entity whose region was asked for and the one that was found instead, if that came.
    pub strange: Option<(EntityNo, EntityNo)>,
    /// Whether memory ran out.
    pub out_of_memory: bool,
}

/// The worker of a session: the one that was put aside, or if none was, one that has done nothing.
fn taken<N: Name>(alloc: Global, aside: &mut Vec<Option<Worker<N>>>, number: SessionNo) -> Worker<N>
    ensures number { result.number ≡ number }
    ensures none { aside.old.items ≡ [] → aside.new.items ≡ [] }
    ensures fresh { aside.old.items ≡ [] → result.list ≡ [] }
{
    let place = number.0 as usize;
    if place >= aside.len() {
        return Worker::begin(alloc, number);
    }
    let Some(worker) = aside[place].take() else {
        return Worker::begin(alloc, number);
    };
    // What stood behind a lock is known by its type alone.
    if worker.number() == number {
        worker
    } else {
        Worker::begin(alloc, number)
    }
}

/// Steps a session to its end, unless memory had run out before. Answers whether it has run out.
fn step_to_end<K: Keeper, N: Name>(
    alloc: Global,
    script: &Script,
    parts: &mut Parts<K, N>,
    worker: &mut Worker<N>,
    before: bool,
) -> bool
    requires script { script.now ≡ N.script }
    requires going { before ≡ false → parts.old.store.refused ≡ false }
    ensures going { result ≡ false → parts.new.store.refused ≡ false }
    ensures entities { entities_of parts.new.regions.items ≡ entities_of parts.old.regions.items }
    ensures number { worker.new.number ≡ worker.old.number }
    ensures over { result ≡ false → next N.script worker.new.number worker.new.list ≡ None }
    ensures before { result ≡ false → before ≡ false }
    ensures run { result ≡ false → GoesOn (part_lists parts.old) worker.old
        (part_lists parts.new) worker.new }
{
    if before {
        return true;
    }
    match parts.finish(alloc, script, worker) {
        Ok(()) => false,
        Err(_) => true,
    }
}

/// Steps a session to its end, unless memory had run out before. Its worker is the one that was left aside, or begins
/// now. In any case its list is added to those of the sessions before it, where there must be room. Answers whether
/// memory has run out.
fn end_session<K: Keeper, N: Name>(
    alloc: Global,
    script: &Script,
    parts: &mut Parts<K, N>,
    aside: &mut Vec<Option<Worker<N>>>,
    mine: &mut Vec<Journal>,
    number: SessionNo,
    before: bool,
) -> bool
    requires script { script.now ≡ N.script }
    requires room { vec_len mine.old < vec_capacity mine.old }
    requires place { number ≡ length mine.old.items }
    requires going { before ≡ false → parts.old.store.refused ≡ false }
    requires legal { AreOwnLegal N.script (map past mine.old.items) }
    requires over { before ≡ false → AreAtEnds N.script number (map past mine.old.items) }
    ensures going { result ≡ false → parts.new.store.refused ≡ false }
    ensures entities { entities_of parts.new.regions.items ≡ entities_of parts.old.regions.items }
    ensures legal { AreOwnLegal N.script (map past mine.new.items) }
    ensures over { result ≡ false → AreAtEnds N.script (number + 1) (map past mine.new.items) }
    ensures place { length mine.new.items ≡ number + 1 }
    ensures len { vec_len mine.new ≡ vec_len mine.old + 1 }
    ensures capacity { vec_capacity mine.new ≡ vec_capacity mine.old }
    ensures none { aside.old.items ≡ [] → aside.new.items ≡ [] }
    ensures run { result ≡ false → aside.old.items ≡ []
        → (before ≡ false → AreOfOne (part_lists parts.old) (map past mine.old.items))
        → AreOfOne (part_lists parts.new) (map past mine.new.items) }
    ensures order { result ≡ false → aside.old.items ≡ [] → is_valid N.script ≡ true
        → (before ≡ false → AreSoFar (part_lists parts.old) (map past mine.old.items))
        → AreSoFar (part_lists parts.new) (map past mine.new.items) }
{
    let mut session = taken(alloc, aside, number);
    let refused = step_to_end(alloc, script, parts, &mut session, before);
    let (_, list) = session.close();
    mine.push_reserved(list);
    refused
}

/// Brings a session to its end, unless memory had run out before: a thread may have done so already. Its list is added
/// to those of the sessions before it, where there must be room. Answers whether memory has run out.
fn end_next<K: Keeper, N: Name>(
    alloc: Global,
    script: &Script,
    parts: &mut Parts<K, N>,
    aside: &mut Vec<Option<Worker<N>>>,
    ended: &mut Vec<Option<Ended<N>>>,
    mine: &mut Vec<Journal>,
    number: SessionNo,
    before: bool,
) -> bool
    requires script { script.now ≡ N.script }
    requires room { vec_len mine.old < vec_capacity mine.old }
    requires place { number ≡ length mine.old.items }
    requires going { before ≡ false → parts.old.store.refused ≡ false }
    requires legal { AreOwnLegal N.script (map past mine.old.items) }
    requires over { before ≡ false → AreAtEnds N.script number (map past mine.old.items) }
    ensures going { result ≡ false → parts.new.store.refused ≡ false }
    ensures entities { entities_of parts.new.regions.items ≡ entities_of parts.old.regions.items }
    ensures legal { AreOwnLegal N.script (map past mine.new.items) }
    ensures over { result ≡ false → AreAtEnds N.script (number + 1) (map past mine.new.items) }
    ensures place { length mine.new.items ≡ number + 1 }
    ensures len { vec_len mine.new ≡ vec_len mine.old + 1 }
    ensures capacity { vec_capacity mine.new ≡ vec_capacity mine.old }
    ensures none { aside.old.items ≡ [] → aside.new.items ≡ [] }
    ensures none_ended { ended.old.items ≡ [] → ended.new.items ≡ [] }
    ensures run { result ≡ false → aside.old.items ≡ [] → ended.old.items ≡ []
        → (before ≡ false → AreOfOne (part_lists parts.old) (map past mine.old.items))
        → AreOfOne (part_lists parts.new) (map past mine.new.items) }
    ensures order { result ≡ false → aside.old.items ≡ [] → ended.old.items ≡ []
        → is_valid N.script ≡ true
        → (before ≡ false → AreSoFar (part_lists parts.old) (map past mine.old.items))
        → AreSoFar (part_lists parts.new) (map past mine.new.items) }
{
    match list_at(ended, number) {
        Some(list) => {
            mine.push_reserved(list);
            before
        }
        None => end_session(alloc, script, parts, aside, mine, number, before),
    }
}

/// Steps each session to its end, the first one first, unless memory runs out or had run out before. Adds the list of
/// each session to `mine`, which must have room for them. Answers whether memory has run out.
fn end_sessions<K: Keeper, N: Name>(
    alloc: Global,
    script: &Script,
    parts: &mut Parts<K, N>,
    aside: &mut Vec<Option<Worker<N>>>,
    ended: &mut Vec<Option<Ended<N>>>,
    mine: &mut Vec<Journal>,
    before: bool,
) -> bool
    requires script { script.now ≡ N.script }
    requires empty { mine.old.items ≡ [] }
    requires room { vec_len mine.old + length script.now.sessions ≤ vec_capacity mine.old }
    requires going { before ≡ false → parts.old.store.refused ≡ false }
    ensures going { result ≡ false → parts.new.store.refused ≡ false }
    ensures entities { entities_of parts.new.regions.items ≡ entities_of parts.old.regions.items }
    ensures legal { AreOwnLegal N.script (map past mine.new.items) }
    ensures over { result ≡ false
        → AreAtEnds N.script (length N.script.sessions) (map past mine.new.items) }
    ensures run { result ≡ false → aside.old.items ≡ [] → ended.old.items ≡ []
        → AreOfOne (part_lists parts.old) (map past mine.old.items)
        → AreOfOne (part_lists parts.new) (map past mine.new.items) }
    ensures order { result ≡ false → aside.old.items ≡ [] → ended.old.items ≡ [] → is_valid N.script ≡ true
        → AreSoFar (part_lists parts.old) (map past mine.old.items)
        → AreSoFar (part_lists parts.new) (map past mine.new.items) }
{
    parts.registry.built();
    let mut refused = before;
    for number in 0..script.sessions.len() {
        let session = SessionNo(number as u32);
        refused = end_next(alloc, script, parts, aside, ended, mine, session, refused);
    }
    refused
}

/// Whether memory ran out in a thread, or in a call of the store.
fn has_run_out<K: Keeper, N: Name>(refused: bool, store: &StorePart<K, N>) -> bool
    ensures { result ≡ false → store.now.refused ≡ false }
{
    refused || store.refused()
}

/// Steps the sessions that aren't at their ends to these, from where the workers that were put aside left them, unless
/// memory has run out. Puts the lists together. There must be room for them.
pub fn go_on<K: Keeper, N: Name>(
    alloc: Global,
    script: &Script,
    parts: Parts<K, N>,
    aside: Vec<Option<Worker<N>>>,
    ended: Vec<Option<Ended<N>>>,
    refused: bool,
    lists: Vec<Journal>,
    mine: Vec<Journal>,
) -> Split<K>
    requires script { script.now ≡ N.script }
    requires entities { entities_of parts.regions.items ≡ cached_entities N.script }
    requires lists { lists.items ≡ [] }
    requires room { vec_len lists + (vec_len parts.regions + 4) ≤ vec_capacity lists }
    requires mine { mine.items ≡ [] }
    requires own_room { vec_len mine + length script.now.sessions ≤ vec_capacity mine }
    ensures listed { AreListed N.script N.from.tables (map past result.lists)
        (map past result.mine) }
    ensures over { result.out_of_memory ≡ false
        → AreAtEnds N.script (length N.script.sessions) (map past result.mine) }
    ensures told { IsToldBy N.from (of_part_in Part.Store (map past result.lists))
        (K.tables result.keeper) (K.faults result.keeper) }
    ensures asked { result.out_of_memory ≡ false
        → RoseWithin N.from.asked (store_ask_count (of_part_in Part.Store (map past result.lists)))
        (K.asked result.keeper) }
    ensures own { result.out_of_memory ≡ false
        → AreOwnListed (map past result.lists) (map past result.mine) }
    ensures whole { result.out_of_memory ≡ false → aside.items ≡ [] → ended.items ≡ []
        → AreOfOne (part_lists parts) [] → AreWhole (map past result.lists) (map past result.mine) }
    ensures order { result.out_of_memory ≡ false → aside.items ≡ [] → ended.items ≡ [] → is_valid N.script ≡ true
        → AreSoFar (part_lists parts) [] → AreOneByOne (map past result.lists) }
    ensures strange { result.strange ≡ None }
{
    let mut parts = parts;
    let mut aside = aside;
    let mut ended = ended;
    let mut lists = lists;
    let mut mine = mine;
    let before = has_run_out(refused, &parts.store);
    let ran_out = end_sessions(
        alloc, script, &mut parts, &mut aside, &mut ended, &mut mine, before,
    );
    let keeper = add_shared(&mut lists, parts);
    let own = add_own_lists::<N>(alloc, &mut lists, mine.as_slice());
    Split {
        keeper,
        lists: Seq::from_vec(lists),
        mine: Seq::from_vec(mine),
        strange: None,
        out_of_memory: ran_out || own.is_err(),
    }
}

/// What comes of a run in which a lock gave another region than the one that was asked for: the keeper, and no list.
#[tactic(auto, using(crate::proofs::Failed::none_fewer))]
pub fn stop<K: Keeper, N: Name>(
    alloc: Global,
    parts: Parts<K, N>,
    strange: &Strange,
    out_of_memory: bool,
) -> Split<K>
    ensures listed { AreListed N.script N.from.tables (map past result.lists)
        (map past result.mine) }
    ensures own { AreOwnListed (map past result.lists) (map past result.mine) }
    ensures failed { RoseBy N.from.faults 0 (K.faults result.keeper) }
    ensures strange { IfSome result.strange (λ p. p.0 ≢ p.1) }
    ensures stopped { IsSome result.strange }
{
    let Parts {
        registry: _,
        store,
        stamps: _,
        results: _,
        regions: _,
    } = parts;
    let (keeper, _) = store.close();
    Split {
        keeper,
        lists: Seq::new(alloc),
        mine: Seq::new(alloc),
        strange: Some(strange.pair()),
        out_of_memory,
    }
}
