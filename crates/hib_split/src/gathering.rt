// At the end of a run: the lists of the parts are put together, in the order of parts, for the merge in hib_joined.
ghost use Rattle.std.specs.Prelude.{◌≡◌, ◌≤◌, ◌+◌, ◌==◌, ◌∷◌, ◌++◌, ℕ, [], if◌then◌else◌, map, reverse, false, vec_len};
ghost use Rattle.std.specs.Prelude.{vec_capacity, IfOk, OnOk};
ghost use Rattle.hib_base.specs.declared.entries.Part.{Part};
ghost use Rattle.hib_journal.specs.Kept.{past};
ghost use Rattle.hib_journal.specs.Lists.{of_part};
ghost use Rattle.hib_journal.specs.Sessions.{same_part};
ghost use Rattle.hib_engines.specs.Counts.{RoseWithin};
ghost use Rattle.hib_split_law.specs.Apart.{IsPartLegal, is_own, store_ask_count};
ghost use Rattle.hib_split_law.specs.Merged.{AreOwnLegal, list_of, of_part_in};
ghost use Rattle.hib_split.specs.Alone.{IsToldBy};
ghost use Rattle.hib_split.specs.Gathered.{AscendFrom, IsGathered};
ghost use Rattle.hib_parts.specs.Listed.{AreOf};
ghost use Rattle.hib_parts.specs.Run.{entities_of, list_on, part_lists};

use hib_base::{Entry, Part, SessionNo};
use hib_engines::Name;
use hib_journal::Journal;
use hib_outside::Keeper;
use hib_parts::{Parts, RegionPart};
use std::alloc::{AllocError, Global};

/// No lists, with room for `count` of them.
pub fn room_for(alloc: Global, count: usize) -> Result<Vec<Journal>, AllocError>
    ensures items { IfOk result (λ v. v.items ≡ []) }
    ensures room { IfOk result (λ v. vec_len v + count ≤ vec_capacity v) }
{
    let lists = Vec::with_capacity(alloc, count)?;
    Ok(lists)
}

/// Adds the lists of the four parts of which there is one each. There must be room for them.
fn add_four<N: Name>(
    lists: &mut Vec<Journal>,
    registry: Journal,
    store: Journal,
    stamps: Journal,
    results: Journal,
)
    requires empty { lists.old.items ≡ [] }
    requires room { vec_len lists.old + 4 ≤ vec_capacity lists.old }
    requires registry { AreOf Part.Registry (past registry) }
    requires store { AreOf Part.Store (past store) }
    requires stamps { AreOf Part.Stamps (past stamps) }
    requires results { AreOf Part.Results (past results) }
    requires legal_registry { IsPartLegal N.script N.from.tables (past registry) }
    requires legal_store { IsPartLegal N.script N.from.tables (past store) }
    requires legal_stamps { IsPartLegal N.script N.from.tables (past stamps) }
    requires legal_results { IsPartLegal N.script N.from.tables (past results) }
    ensures gathered { IsGathered N.script N.from.tables (Part.Region 0)
        (map past lists.new.items) }
    ensures parts { (p : Part) → is_own p ≡ false → of_part_in p (map past lists.new.items)
        ≡ list_on (past registry) (past store) (past stamps) (past results) [] p }
    ensures len { vec_len lists.new ≡ vec_len lists.old + 4 }
    ensures capacity { vec_capacity lists.new ≡ vec_capacity lists.old }
{
    lists.push_reserved(registry);
    lists.push_reserved(store);
    lists.push_reserved(stamps);
    lists.push_reserved(results);
}

/// Adds the lists of regions, the last region first. There must be room for them.
fn add_regions<N: Name>(lists: &mut Vec<Journal>, regions: Vec<RegionPart<N>>)
    requires room { vec_len lists.old + vec_len regions ≤ vec_capacity lists.old }
    requires ascend { AscendFrom 0 (entities_of (reverse regions.items)) }
    requires gathered { IsGathered N.script N.from.tables (Part.Region 0)
        (map past lists.old.items) }
    ensures gathered { IsGathered N.script N.from.tables (Part.Own 0) (map past lists.new.items) }
    ensures parts { (p : Part) → of_part_in p (map past lists.new.items)
        ≡ of_part_in p (map past lists.old.items)
        ++ list_on [] [] [] [] (reverse regions.items) p }
{
    let mut regions = regions;
    'regions: while let Some(region) = regions.pop() {
        lists.push_reserved(region.close());
    }
}

/// Takes the shared parts apart: adds their lists in their order, and answers the keeper. There must be room for the
/// lists.
pub fn add_shared<K: Keeper, N: Name>(lists: &mut Vec<Journal>, parts: Parts<K, N>) -> K
    requires empty { lists.old.items ≡ [] }
    requires room { vec_len lists.old + (vec_len parts.regions + 4) ≤ vec_capacity lists.old }
    requires ascend { AscendFrom 0 (entities_of parts.regions.items) }
    ensures gathered { IsGathered N.script N.from.tables (Part.Own 0) (map past lists.new.items) }
    ensures told { IsToldBy N.from (of_part_in Part.Store (map past lists.new.items))
        (K.tables result) (K.faults result) }
    ensures asked { parts.store.refused ≡ false
        → RoseWithin N.from.asked
        (store_ask_count (of_part_in Part.Store (map past lists.new.items))) (K.asked result) }
    ensures parts { (p : Part) → is_own p ≡ false → of_part_in p (map past lists.new.items)
        ≡ part_lists parts p }
{
    let Parts {
        registry,
        store,
        stamps,
        results,
        regions,
    } = parts;
    let (keeper, entries) = store.close();
    add_four::<N>(
        lists,
        registry.close(),
        entries,
        stamps.close(),
        results.close(),
    );
    let mut regions = regions;
    regions.reverse();
    add_regions(lists, regions);
    keeper
}

/// Whether a session has this number.
fn is_number(number: usize, session: SessionNo) -> bool
    ensures { result ≡ (number == session) }
{
    number == session.0 as usize
}

/// Adds an equal entry, if it is this session's own.
fn add_own(alloc: Global, own: &mut Journal, number: usize, entry: &Entry) -> Result<(), AllocError>
    ensures { OnOk result
        (past own.new
        ≡ (if same_part (Part.Own number) entry.now.part then entry.now ∷ past own.old
        else past own.old)) }
{
    match entry.part {
        Part::Own(session) if is_number(number, session) => own.push(entry.copy(alloc)?),
        _ => Ok(()),
    }
}

/// Equal entries to those that a session answered itself, in order.
fn own_entries(alloc: Global, number: usize, list: &[Entry]) -> Result<Journal, AllocError>
    ensures { IfOk result (λ l. past l ≡ of_part (Part.Own number) (reverse list.now)) }
{
    let mut own = Journal::open(alloc);
    for entry in list {
        add_own(alloc, &mut own, number, entry)?;
    }
    Ok(own)
}

/// Adds for each session the list of the entries that it answered itself, in the order of sessions, as far as memory
/// goes.
pub fn add_own_lists<N: Name>(
    alloc: Global,
    lists: &mut Vec<Journal>,
    mine: &[Journal],
) -> Result<(), AllocError>
    requires mine { AreOwnLegal N.script (map past mine.now) }
    requires gathered { IsGathered N.script N.from.tables (Part.Own 0) (map past lists.old.items) }
    ensures gathered { (n : ℕ)
        × IsGathered N.script N.from.tables (Part.Own n) (map past lists.new.items) }
    ensures shared { (p : Part) → is_own p ≡ false
        → of_part_in p (map past lists.new.items) ≡ of_part_in p (map past lists.old.items) }
    ensures own { OnOk result
        ((s : ℕ) → of_part_in (Part.Own s) (map past lists.new.items)
        ≡ of_part (Part.Own s) (list_of s (map past mine.now))) }
{
    for number in 0..mine.len() {
        let own = own_entries(alloc, number, mine[number].as_slice())?;
        lists.push(own)?;
    }
    Ok(())
}
