// The counts of the regions, found by their entities without a search.
ghost use Rattle.std.specs.Prelude.{◌≡◌, ◌+◌, ◌^◌, ◌++◌, if◌then◌else◌, [], ◌∷◌, length, map, IfOk, OnOk};
ghost use Rattle.std.specs.List.{All};
ghost use Rattle.hib_journal.specs.Slot.{key_in};
ghost use Rattle.hib_journal.specs.Next.{is_cached_by};
ghost use Rattle.hib_listeners.specs.Statistics.{noted_region, region_counts, regions_counts, IsRegionBelow};
ghost use Rattle.hib_listeners.specs.Places.{place_in, entities, IsIndex};

use crate::counts::RegionCounts;
use crate::tests_of::key_in;
use hib_base::{Act, EntityDef, EntityNo, Entry, Strategy};
use std::alloc::{AllocError, Global};
use std::marker::Model;

/// The counts of each cached entity, in order. Contracts see the list of them.
#[derive(Drop)]
pub struct RegionList {
    places: Vec<RegionCounts>,
    // For each entity of the mapping the place of its counts, if it is cached.
    index: Vec<Option<usize>>,
}

impl Model for RegionList {
    ghost use Rattle.std.specs.Prelude.{List};
    ghost use Rattle.hib_listeners.specs.declared.counts.RegionCounts.{RegionCounts};
    ghost use Rattle.hib_listeners.specs.Places.{IsIndex, entities};

    ghost Value = { List RegionCounts };

    ghost view = { λ r. r.places.items };

    ghost invariant = { λ r. IsIndex r.index.items (entities r.places.items) };
}

// The counts of a region before any entry.
fn none_of(entity: EntityNo) -> RegionCounts
    ensures { result ≡ region_counts entity [] }
{
    RegionCounts {
        entity,
        hits: 0,
        misses: 0,
        puts: 0,
        refused: 0,
        locks: 0,
        evicted: 0,
        expired: 0,
    }
}

// The place of the counts of the entity that an act of a region is on; none for any other act.
fn place_in(index: &[Option<usize>], act: &Act) -> Option<usize>
    ensures { result ≡ place_in index.now (key_in act.now) }
{
    let key = key_in(act)?;
    *index.get(key.entity.0 as usize)?
}

// Adds an entity of the mapping. It has counts if it is cached.
fn declare(
    places: &mut Vec<RegionCounts>,
    index: &mut Vec<Option<usize>>,
    def: &EntityDef,
) -> Result<(), AllocError>
    requires { IsIndex index.old.items (entities places.old.items) }
    ensures index { OnOk result (IsIndex index.new.items (entities places.new.items)) }
    ensures places { OnOk result (places.new.items
        ≡ places.old.items ++ (if is_cached_by def.now.strategy
        then region_counts (length index.old.items) [] ∷ [] else [])) }
    ensures len { OnOk result (length index.new.items ≡ length index.old.items + 1) }
{
    if def.strategy == Strategy::Uncached {
        index.push(None)?;
        return Ok(());
    }
    let Ok(number) = u16::try_from(index.len()) else {
        return Err(AllocError);
    };
    index.push(Some(places.len()))?;
    places.push(none_of(EntityNo(number)))?;
    Ok(())
}

impl RegionList {
    /// The counts before any entry. A mapping of more than 65,536 entities, for which there are no numbers, is answered
    /// as want of memory.
    pub fn open(alloc: Global, mapping: &[EntityDef]) -> Result<RegionList, AllocError>
        ensures { IfOk result (λ r. r ≡ regions_counts [] 0 mapping.now) }
    {
        let mut places = Vec::new(alloc);
        let mut index = Vec::new(alloc);
        for def in mapping {
            declare(&mut places, &mut index, def)?;
        }
        Ok(RegionList { places, index })
    }

    /// The counts of each cached entity, in order.
    pub fn as_slice(&self) -> &[RegionCounts]
        ensures { result.now ≡ self.now }
    {
        self.places.as_slice()
    }

    /// Counts an entry, if it is one of a region. It costs the same however many regions there are.
    pub fn note(&mut self, entry: &Entry)
        requires { All (IsRegionBelow (2 ^ 62)) self.old }
        ensures { self.new ≡ map (noted_region entry.now) self.old }
    {
        if let Some(at) = place_in(self.index.as_slice(), &entry.act) {
            self.places[at].note(entry);
        }
    }
}
