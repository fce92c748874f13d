// Many evictions through a factory, and a full region by direct calls.
ghost use Rattle.std.specs.Prelude.{◌≡◌, true};
ghost use Rattle.hib_base.specs.Valid.{is_valid};
ghost use Rattle.hib_core.specs.Standing.{origin_over};
ghost use Rattle.hib_listeners.specs.Told.{tells};

use hib_base::{
    Cells, EntityNo, Entry, Evicted, Key, Put, Reply, Row, Script, Seq, Tick, is_cached,
};
use hib_core::{Factory, Name};
use hib_listeners::Recorder;
use hib_outside::{Keeper, Listener, MemKeeper};
use hib_rw_region::RwRegion;
use std::alloc::{AllocError, Global};
use std::marker::Brand;

/// How many keys are evicted, and how many rows are put.
const KEYS: u64 = 100_000;

/// How often each key is evicted through the factory.
const ROUNDS: usize = 5;

/// A mapping with one cached entity, and no session.
const BOOKS: &[u8] = b"hib 1
entity Book read-write versioned 100
column title text
column stock int
";

const BOOK: EntityNo = EntityNo(0);

/// For how many keys the region has room.
const CAPACITY: u32 = 1000;

/// How many evictions of keys, of which the region has nothing, found something.
fn found(region: &mut RwRegion) -> u64 {
    let mut found = 0u64;
    for id in 1..KEYS + 1 {
        if region.evict(id, Tick(id)) != Evicted::Absent {
            found = found.saturating_add(1);
        }
    }
    found
}

/// How many of the rows that are put found the region full, so that an older one had to leave.
fn left(alloc: Global, region: &mut RwRegion) -> Result<u64, AllocError> {
    let stored = Put::Stored {
        evicted: None,
        late: false,
    };
    let mut left = 0u64;
    for id in 1..KEYS + 1 {
        let now = Tick(KEYS + id);
        let row = Row {
            version: None,
            cells: Cells::from_vec(Vec::new(alloc))?,
        };
        if region.put(id, row, now, now, now)? != stored {
            left = left.saturating_add(1);
        }
    }
    Ok(left)
}

/// Whether it is the eviction of a key of which the region had nothing.
fn is_absent(entry: &Entry) -> bool {
    matches!(&entry.reply, Reply::Evicted(Evicted::Absent))
}

/// Whether these are half a million evictions of keys of which the region had nothing.
fn are_absent(entries: &[Entry]) -> bool {
    entries.len() == 500_000 && entries.iter().all(is_absent)
}

/// Evicts a hundred thousand books, five times over. Where memory runs out the evictions so far stand.
fn evict_all<N: Name, K: Keeper, L: Listener>(
    alloc: Global,
    factory: &mut Factory<K, N, L>,
) -> Result<(), AllocError> {
    if !is_cached(factory.script().mapping.as_slice(), BOOK) {
        return Ok(());
    }
    for _ in 0..ROUNDS {
        for id in 1..KEYS + 1 {
            factory.evict(alloc, Key { entity: BOOK, id })?;
        }
    }
    Ok(())
}

/// Whether each of the evictions of a hundred thousand books, five times over, finds nothing, in the factory of this
/// name.
fn evicts<N: Name, K: Keeper + Drop, L: Listener>(
    alloc: Global,
    script: Script,
    keeper: K,
    listeners: Vec<L>,
) -> Result<bool, AllocError>
    requires script { script ≡ N.script }
    requires valid { is_valid N.script ≡ true }
    requires from { origin_over N.script (K.tables keeper) (K.faults keeper) (K.asked keeper)
        ≡ N.from }
    requires told { tells L.heard L.left listeners.items ≡ N.told }
{
    let Ok(mut factory) = Factory::<K, N, L>::open(alloc, script, keeper, listeners) else {
        return Ok(false);
    };
    let evicted = evict_all(alloc, &mut factory);
    let (_keeper, _script, journal, _listeners) = factory.close();
    match evicted {
        Ok(()) => Ok(are_absent(journal.as_slice())),
        Err(error) => Err(error),
    }
}

/// Whether each of these evictions finds nothing, in a factory.
fn evicts_absent<K: Keeper + Drop, L: Listener>(
    alloc: Global,
    script: Script,
    keeper: K,
    listeners: Vec<L>,
) -> Result<bool, AllocError>
    requires { is_valid script ≡ true }
{
    evicts::<Brand, K, L>(alloc, script, keeper, listeners)
}

/// Whether half a million evictions of absent books through a factory find none.
pub fn finds_none(alloc: Global) -> Result<bool, AllocError> {
    let Ok(script) = hib_script::read(alloc, BOOKS) else {
        return Ok(false);
    };
    let keeper = MemKeeper::new(alloc, Seq::new(alloc));
    let listeners: Vec<Recorder> = Vec::new(alloc);
    evicts_absent(alloc, script, keeper, listeners)
}

/// Whether a hundred thousand evictions of absent keys find nothing, and an older row leaves for each of as many rows
/// that are put then, but for the first thousand.
pub fn leaves_in_turn(alloc: Global) -> Result<bool, AllocError> {
    let mut region = RwRegion::open(alloc, CAPACITY, 1000);
    let found = found(&mut region);
    let left = left(alloc, &mut region)?;
    Ok(found == 0 && left == KEYS - u64::from(CAPACITY))
}
