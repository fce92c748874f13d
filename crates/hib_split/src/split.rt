// A run of the sessions on several threads, over parts under locks of their own: what `work --split` does, for
// hib_joined.
ghost use Rattle.std.specs.Prelude.{◌≡◌, ◌≢◌, ◌≤◌, [], length, map, true, false, None, IfSome};
ghost use Rattle.std.specs.List.{All};
ghost use Rattle.hib_base.specs.Valid.{is_valid};
ghost use Rattle.hib_base.specs.declared.entries.Part.{Part};
ghost use Rattle.hib_journal.specs.Kept.{past};
ghost use Rattle.hib_engines.specs.Counts.{RoseBy, RoseWithin};
ghost use Rattle.hib_split_law.specs.Apart.{store_ask_count};
ghost use Rattle.hib_split_law.specs.Merged.{of_part_in};
ghost use Rattle.hib_parts.specs.Run.{cached_entities, entities_of};
ghost use Rattle.hib_split.specs.Alone.{AreAtEnds, AreListed, AreOneByOne, AreOwnListed, AreWhole, IsToldBy};
ghost use Rattle.hib_split.specs.Alone.{max_workers};

use crate::alone::{rooms, run_alone, without_room};
use crate::locked_parts::{Left, room_for_threads};
use crate::rest::{Split, go_on, stop};
use crate::threads::on_threads;
use hib_base::Script;
use hib_engines::Name;
use hib_outside::{Gate, Keeper};
use hib_parts::Parts;
use std::alloc::Global;
use std::sync::Wait;
use std::thread::Threads;

/// Runs each session to its end on `workers` workers, each part behind a lock of its own. With one worker it is
/// `run_alone`: no thread is started, no lock is taken, the gate isn't asked, and the sessions of a valid script come
/// one after the other, in order of number. With more, each takes the next session that nobody has taken, and makes its
/// steps one after the other: before a step it passes the gate, with the number of the session's entries so far, and
/// for a step it takes the lock of the part that is due, or none for an act of the session's own. Lists are worked out
/// before the lock is taken, as long as no commit may have changed rows. The tick of a step is one more than the
/// greater of the last ticks of its part and of its session. After the workers have ended, the caller steps the
/// sessions to their ends.
///
/// What stands behind a lock is known by its type alone, so the region that a lock gave is compared with the one that
/// was asked for. If they differ, `strange` says so, the rest isn't run, and there are no lists. If memory runs out, or
/// no tick is left, the steps so far stand. It may wait for other threads.
#[tactic(auto, using(crate::proofs::Failed::told_fewer))]
pub fn work_split<R: Threads + Wait + Sync, K: Keeper + Send, N: Name + Send + Sync, G: Gate>(
    rt: &R,
    alloc: Global,
    parts: Parts<K, N>,
    script: &Script,
    workers: u32,
    gate: &G,
) -> Split<K>
    requires workers { (1 ≤ workers) × (workers ≤ max_workers) }
    requires script { script.now ≡ N.script }
    requires store { parts.store.list ≡ [] }
    requires entities { entities_of parts.regions.items ≡ cached_entities N.script }
    ensures listed { AreListed N.script N.from.tables (map past result.lists)
        (map past result.mine) }
    ensures over { result.strange ≡ None → result.out_of_memory ≡ false
        → AreAtEnds N.script (length N.script.sessions) (map past result.mine) }
    ensures told { result.strange ≡ None
        → IsToldBy N.from (of_part_in Part.Store (map past result.lists)) (K.tables result.keeper)
        (K.faults result.keeper) }
    ensures asked { result.strange ≡ None → result.out_of_memory ≡ false
        → RoseWithin N.from.asked (store_ask_count (of_part_in Part.Store (map past result.lists)))
        (K.asked result.keeper) }
    ensures own { result.out_of_memory ≡ false
        → AreOwnListed (map past result.lists) (map past result.mine) }
    ensures failed { RoseBy N.from.faults 0 (K.faults result.keeper) }
    ensures strange { IfSome result.strange (λ p. p.0 ≢ p.1) }
    ensures whole { workers ≡ 1 → result.out_of_memory ≡ false → parts.registry ≡ []
        → parts.stamps ≡ [] → parts.results ≡ [] → All (λ r. r.list ≡ []) parts.regions.items
        → AreWhole (map past result.lists) (map past result.mine) }
    ensures order { workers ≡ 1 → result.out_of_memory ≡ false → is_valid N.script ≡ true
        → parts.registry ≡ [] → parts.stamps ≡ [] → parts.results ≡ []
        → All (λ r. r.list ≡ []) parts.regions.items → AreOneByOne (map past result.lists) }
    ensures alone { workers ≡ 1 → result.strange ≡ None }
{
    if workers == 1 {
        return run_alone(alloc, parts, script);
    }
    let regions = parts.regions.len();
    let sessions = script.sessions.len();
    let Ok((lists, mine)) = rooms(alloc, regions, sessions) else {
        return without_room(alloc, parts);
    };
    let Ok(room) = room_for_threads(alloc, regions, sessions) else {
        return without_room(alloc, parts);
    };
    let Left {
        parts,
        aside,
        ended,
        strange,
        refused,
    } = on_threads(rt, alloc, parts, script, room, workers, gate);
    match strange {
        Some(strange) => stop(alloc, parts, &strange, refused),
        None => go_on(alloc, script, parts, aside, ended, refused, lists, mine),
    }
}
