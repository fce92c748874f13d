// The run of a script over parts under locks of their own, to its one journal. hib_top calls it for `work --split`.
ghost use Rattle.std.specs.Prelude.{◌≡◌, ◌≤◌, true, map, IfOk, IfErr};
ghost use Rattle.hib_base.specs.Valid.{is_valid};
ghost use Rattle.hib_journal.specs.Kept.{past};
ghost use Rattle.hib_outside.specs.Causes.{Rose};
ghost use Rattle.hib_store.specs.Stores.{handed_back, is_store_fault};
ghost use Rattle.hib_engines.specs.Origin.{origin_over};
ghost use Rattle.hib_split.specs.Alone.{AreListed, max_workers};
ghost use Rattle.hib_joined.specs.Joined.{AreJoinedUnless};
ghost use Rattle.hib_joined.specs.Run.{CameToOne};

use crate::joining::{Joined, join_unless};
use hib_base::{EntityNo, Script};
use hib_engines::Name;
use hib_law::law;
use hib_merge::Lists;
use hib_outside::{Gate, Keeper};
use hib_parts::Parts;
use hib_split::{Split, work_split};
use hib_split_law::{due_ticks_are_few, merged_is_legal, store_stands_alone};
use hib_store::OpenFault;
use std::alloc::Global;
use std::sync::Wait;
use std::thread::Threads;

/// A run that has come to an end.
#[derive(Drop)]
pub struct JoinedRun<K> {
    /// The keeper that was handed in.
    pub keeper: K,
    /// What the lists of its parts and of its sessions came to.
    pub joined: Joined,
    /// The list of each part, in the order of parts: the own entries of each session come last, in the order of
    /// sessions.
    pub lists: Lists,
    /// The list of each session, at the place of its number.
    pub mine: Lists,
    /// The entity whose region was asked for and the one that was found instead, if that came. Then there are no lists.
    pub strange: Option<(EntityNo, EntityNo)>,
    /// Whether memory ran out in the run.
    pub out_of_memory: bool,
}

/// Runs each session of a script to its end on `workers` workers, each part behind a lock of its own, and joins the
/// lists into one journal. Before a step a worker passes the gate, with the number of its session's entries so far.
/// With one worker no thread is started, no lock is taken and the gate isn't asked; then the run is never torn, its
/// sessions come one after the other, in order of number, and the k-th entry has tick k. The lists are handed out, and
/// what they came to is said of them. The keeper is seeded with the script's rows, each of which it takes if its key
/// has none. At an error the keeper is handed back, with the rows that it had. If the run is torn, or memory ran out
/// after it began, the keeper comes back with the rows of the commits that were made so far. It may wait for other
/// threads.
pub fn run_joined<R: Threads + Wait + Sync, K: Keeper + Send, N: Name + Send + Sync, G: Gate>(
    rt: &R,
    alloc: Global,
    script: &Script,
    keeper: K,
    workers: u32,
    gate: &G,
) -> Result<JoinedRun<K>, OpenFault<K>>
    requires workers { (1 ≤ workers) × (workers ≤ max_workers) }
    requires script { script.now ≡ N.script }
    requires valid { is_valid N.script ≡ true }
    requires from { origin_over N.script (K.tables keeper) (K.faults keeper) (K.asked keeper)
        ≡ N.from }
    ensures came { IfOk result (λ r. CameToOne workers N.script N.from r.joined
        (K.tables r.keeper) (K.faults r.keeper) (K.asked r.keeper)) }
    ensures listed { IfOk result (λ r. AreListed N.script N.from.tables (map past r.lists)
        (map past r.mine)) }
    ensures joined { IfOk result (λ r. AreJoinedUnless r.strange r.out_of_memory
        (map past r.lists) r.mine r.joined) }
    ensures back { IfErr result (λ e. K.tables (handed_back e) ≡ K.tables keeper) }
    ensures back_faults { IfErr result (λ e. K.faults keeper ≤ K.faults (handed_back e)) }
    ensures back_asked { IfErr result (λ e. K.asked (handed_back e) ≡ K.asked keeper) }
    ensures fault { IfErr result (λ e. is_store_fault e ≡ true
        → Rose (K.faults keeper) (K.faults (handed_back e))) }
{
    merged_is_legal();
    due_ticks_are_few();
    store_stands_alone();
    law();
    let parts: Parts<K, N> = match Parts::open(alloc, script, keeper) {
        Ok(parts) => parts,
        Err(fault) => return Err(fault),
    };
    let Split {
        keeper,
        lists,
        mine,
        strange,
        out_of_memory,
    } = work_split(rt, alloc, parts, script, workers, gate);
    let joined = join_unless(alloc, &strange, out_of_memory, &lists, &mine);
    Ok(JoinedRun {
        keeper,
        joined,
        lists,
        mine,
        strange,
        out_of_memory,
    })
}
