// What a node has for itself, beside what both nodes share.
ghost use Rattle.std.specs.Prelude.{◌≡◌, ◌≤◌, ◌<◌, ◌^◌, [], ℕ, Option, Some, true, false, map, IfOk, OnOk, OnErr};
ghost use Rattle.hib_base.specs.declared.entries.Act.{Act as Did};
ghost use Rattle.hib_journal.specs.Types.{Part, Script as Said, Strategy};
ghost use Rattle.hib_journal.specs.Sessions.{Journal};
ghost use Rattle.hib_journal.specs.Next.{strategy};
ghost use Rattle.hib_journal.specs.Lists.{IsLate};
ghost use Rattle.hib_journal.specs.Runs.{is_fault};
ghost use Rattle.hib_engines.specs.Region.{empty, entity_in, IsPlaced, Suits};
ghost use Rattle.hib_engines.specs.Regions.{region_of, IsAtRegion};
ghost use Rattle.hib_engines.specs.Registry.{own_after, IsRegistry};
ghost use Rattle.hib_engines.specs.Served.{IsServed, reads};
ghost use Rattle.hib_nodes.specs.Fencing.{IsFencedAt};
ghost use Rattle.hib_nodes.specs.Standing.{IsAtNode};

use hib_base::{Act, EntityNo, Entry, Key, Reply, Script, SessionNo, Tick};
use hib_engines::{Region, Registry, fence_entries, fence_region, open_regions, serve_region};
use std::alloc::{AllocError, Global};
use std::marker::Model;

/// What a node has for itself: which sessions are open at it, and its regions, one for each entity.
#[derive(Drop)]
pub struct Node {
    /// The open sessions.
    pub registry: Registry,
    /// The regions.
    pub regions: Vec<Region>,
}

impl Model for Node {
    ghost use Rattle.hib_nodes.specs.Standing.{NodeState};

    ghost Value = { NodeState };

    ghost view = { λ n. record { registry = n.registry; regions = n.regions.items } };
}

impl Node {
    /// A node at which no session is open and whose regions hold nothing. Fails for want of memory alone.
    pub fn open(alloc: Global, script: &Script) -> Result<Node, AllocError>
        ensures registry { IfOk result (λ n. n.registry ≡ []) }
        ensures regions { IfOk result (λ n. n.regions
            ≡ map (λ d. empty d.strategy d.capacity script.now.timeout) script.now.mapping) }
    {
        let regions = open_regions(alloc, script)?;
        Ok(Node {
            registry: Registry::new(alloc),
            regions,
        })
    }

    /// What an act that a session answers itself does to its node: End closes the session.
    pub fn note_own(&mut self, session: SessionNo, act: &Act)
        ensures { self.new ≡ record self.old
            { registry = own_after session act.now self.old.registry } }
    {
        match act {
            Act::End => self.registry.end(session),
            _ => {}
        }
    }

    /// Has the registry answer the Begin of a session. At an error nothing has changed.
    pub fn begin(&mut self, session: SessionNo, act: &Act, now: Tick) -> Result<Reply, AllocError>
        ensures served { IfOk result (λ r. (script : Said) (l : Journal)
            → IsRegistry self.old.registry l → IsLate Part.Registry now l
            → act.now ≡ Did.Begin → IsServed (λ m. IsRegistry self.new.registry m)
            script l (Some session) now act.now r) }
        ensures calm { IfOk result (λ r. is_fault r ≡ false) }
        ensures regions { self.new.regions ≡ self.old.regions }
        ensures err { OnErr result (self.new ≡ self.old) }
    {
        self.registry.serve(session, act, now)
    }

    /// Has the region of an entity answer an act. A read leaves the node as it is, and so does want of memory.
    pub fn ask_region(
        &mut self,
        alloc: Global,
        entity: EntityNo,
        act: &Act,
        now: Tick,
    ) -> Result<Reply, AllocError>
        requires { now ≤ 2 ^ 62 }
        ensures served { IfOk result (λ r. (script : Said) (l : Journal) (by : Option ℕ)
            → IsPlaced script entity l (region_of self.old.regions entity)
            → IsLate (Part.Region entity) now l → entity_in act.now ≡ Some entity
            → Suits (strategy script entity) act.now
            → IsServed (λ m. IsPlaced script entity m (region_of self.new.regions entity)) script l
            by now act.now r) }
        ensures others { OnOk result (IsAtRegion entity self.old.regions self.new.regions) }
        ensures calm { IfOk result (λ r. is_fault r ≡ false) }
        ensures registry { self.new.registry ≡ self.old.registry }
        ensures still { OnOk result (reads act.now ≡ true → self.new ≡ self.old) }
        ensures err { OnErr result (self.new ≡ self.old) }
    {
        serve_region(alloc, &mut self.regions, entity, act, now)
    }

    /// Fences a key of a read-write region, at this tick and the next one. Gives the two entries. The floor is the
    /// least time of the open sessions, or this tick if none is open. At an error nothing has changed.
    pub fn fence(&mut self, key: Key, now: Tick) -> Result<(Entry, Entry), AllocError>
        requires { now < 2 ^ 62 }
        ensures fenced { IfOk result (λ f. (script : Said) (g : Journal)
            → IsAtNode script g self.old → IsLate Part.Registry now g
            → IsLate (Part.Region key.entity) now g
            → strategy script key.entity ≡ Strategy.ReadWrite
            → IsFencedAt script g key now f.0 f.1 self.new) }
        ensures err { OnErr result (self.new ≡ self.old) }
    {
        let floor = self.registry.floor(now);
        let (locked, unlocked) = fence_region(&mut self.regions, key, floor, now)?;
        Ok(fence_entries(&key, floor, now, &locked, &unlocked))
    }
}
