// A run in which the caller makes the steps of one session after the other, with no thread and no lock. It is what
// `work --split` does with one worker.
ghost use Rattle.std.specs.Prelude.{◌≡◌, ◌≤◌, ◌+◌, [], length, map, true, false, None, vec_len, vec_capacity, IfOk};
ghost use Rattle.std.specs.List.{All};
ghost use Rattle.hib_base.specs.Valid.{is_valid};
ghost use Rattle.hib_base.specs.declared.entries.Part.{Part};
ghost use Rattle.hib_journal.specs.Kept.{past};
ghost use Rattle.hib_engines.specs.Counts.{RoseWithin};
ghost use Rattle.hib_split_law.specs.Apart.{store_ask_count};
ghost use Rattle.hib_split_law.specs.Merged.{of_part_in};
ghost use Rattle.hib_parts.specs.Run.{cached_entities, entities_of};
ghost use Rattle.hib_split.specs.Alone.{AreAtEnds, AreListed, AreOneByOne, AreOwnListed, AreWhole, IsToldBy};

use crate::gathering::room_for;
use crate::rest::{Split, go_on};
use hib_base::{Script, Seq};
use hib_engines::Name;
use hib_journal::Journal;
use hib_outside::Keeper;
use hib_parts::Parts;
use std::alloc::{AllocError, Global};

/// Room for the lists of the shared parts, and for those of sessions. It is taken before the run, so that no list is
/// lost at its end.
pub fn rooms(
    alloc: Global,
    regions: usize,
    sessions: usize,
) -> Result<(Vec<Journal>, Vec<Journal>), AllocError>
    ensures lists { IfOk result (λ v. v.0.items ≡ []) }
    ensures mine { IfOk result (λ v. v.1.items ≡ []) }
    ensures room { IfOk result (λ v. vec_len v.0 + (regions + 4) ≤ vec_capacity v.0) }
    ensures own_room { IfOk result (λ v. vec_len v.1 + sessions ≤ vec_capacity v.1) }
{
    let Some(count) = regions.checked_add(4) else {
        return Err(AllocError);
    };
    Ok((room_for(alloc, count)?, room_for(alloc, sessions)?))
}

/// What comes of a run for which there was no room: the keeper alone, and that memory ran out.
pub fn without_room<K: Keeper, N: Name>(alloc: Global, parts: Parts<K, N>) -> Split<K>
    requires { parts.store.list ≡ [] }
    ensures listed { AreListed N.script N.from.tables (map past result.lists)
        (map past result.mine) }
    ensures told { IsToldBy N.from (of_part_in Part.Store (map past result.lists))
        (K.tables result.keeper) (K.faults result.keeper) }
    ensures strange { result.strange ≡ None }
    ensures memory { result.out_of_memory ≡ true }
{
    let Parts {
        registry: _,
        store,
        stamps: _,
        results: _,
        regions: _,
    } = parts;
    let (keeper, _) = store.close();
    Split {
        keeper,
        lists: Seq::new(alloc),
        mine: Seq::new(alloc),
        strange: None,
        out_of_memory: true,
    }
}

/// Runs each session to its end, the first one first. The tick of a step is one more than the greater of the last ticks
/// of its part and of its session. If memory runs out, or no tick is left, the steps so far stand. Else, if the parts
/// had no entries before, the lists of sessions agree with what those of parts are merged into. If the script is valid
/// as well, that has one session after the other, in order of number, and its k-th entry has tick k.
pub fn run_alone<K: Keeper, N: Name>(alloc: Global, parts: Parts<K, N>, script: &Script) -> Split<K>
    requires script { script.now ≡ N.script }
    requires store { parts.store.list ≡ [] }
    requires entities { entities_of parts.regions.items ≡ cached_entities N.script }
    ensures listed { AreListed N.script N.from.tables (map past result.lists)
        (map past result.mine) }
    ensures over { result.out_of_memory ≡ false
        → AreAtEnds N.script (length N.script.sessions) (map past result.mine) }
    ensures told { IsToldBy N.from (of_part_in Part.Store (map past result.lists))
        (K.tables result.keeper) (K.faults result.keeper) }
    ensures asked { result.out_of_memory ≡ false
        → RoseWithin N.from.asked (store_ask_count (of_part_in Part.Store (map past result.lists)))
        (K.asked result.keeper) }
    ensures own { result.out_of_memory ≡ false
        → AreOwnListed (map past result.lists) (map past result.mine) }
    ensures whole { result.out_of_memory ≡ false → parts.registry ≡ [] → parts.stamps ≡ []
        → parts.results ≡ [] → All (λ r. r.list ≡ []) parts.regions.items
        → AreWhole (map past result.lists) (map past result.mine) }
    ensures order { result.out_of_memory ≡ false → is_valid N.script ≡ true → parts.registry ≡ []
        → parts.stamps ≡ [] → parts.results ≡ [] → All (λ r. r.list ≡ []) parts.regions.items
        → AreOneByOne (map past result.lists) }
    ensures strange { result.strange ≡ None }
{
    let regions = parts.regions.len();
    let Ok((lists, mine)) = rooms(alloc, regions, script.sessions.len()) else {
        return without_room(alloc, parts);
    };
    let (aside, ended) = (Vec::new(alloc), Vec::new(alloc));
    go_on(alloc, script, parts, aside, ended, false, lists, mine)
}
