// The parts of a run with bulk lines, and what they answer to the acts of its sessions; what they answer to lines
// stands in `lines`.
ghost use Rattle.std.specs.Prelude.{◌≡◌, ◌≤◌, ◌<◌, ◌^◌, ◌∷◌, ◌+◌, [], ℕ, List, length, true, false, IfOk, IfSome, OnOk};
ghost use Rattle.std.specs.Prelude.{OnErr, Option, Some, None};
ghost use Rattle.hib_base.specs.Tables.{Tables};
ghost use Rattle.hib_base.specs.declared.numbers.Key.{Key as KeySpec};
ghost use Rattle.hib_journal.specs.Types.{Script as Said};
ghost use Rattle.hib_journal.specs.Sessions.{own};
ghost use Rattle.hib_outside.specs.Causes.{Rose};
ghost use Rattle.hib_session.specs.Memory.{brings};
ghost use Rattle.hib_session.specs.Session.{Follows, number_of, own_reply};
ghost use Rattle.hib_engines.specs.Region.{is_regional, entity_in};
ghost use Rattle.hib_engines.specs.Registry.{own_after};
ghost use Rattle.hib_engines.specs.Served.{AreWithin};
ghost use Rattle.hib_bulk.specs.Types.{BulkDef, BulkAct, BulkReply as Replied};
ghost use Rattle.hib_bulk_law.specs.Plain.{Bulked as Past, plain};
ghost use Rattle.hib_bulk_law.specs.Acts.{swept_for};
ghost use Rattle.hib_bulk.specs.Changed.{is_fault};
ghost use Rattle.hib_bulk.specs.Regions.{region_of, has_old_in, swept, IsAtRegion};
ghost use Rattle.hib_bulk.specs.Standing.{AreStanding, IsStill, IsReady, IsAnswered, IsTold};

use crate::region::EntityRegion;
use hib_base::{Act, EntityNo, Key, Part, Reply, Script, SessionNo, Tick};
use hib_bulk_law::BulkReply;
use hib_bulk_region::laws as wide;
use hib_engines::{Registry, ResultsEngine, StampsEngine, StoreEngine, laws};
use hib_journal::part_of;
use hib_outside::Keeper;
use hib_session::Session;
use std::alloc::{AllocError, Global};
use std::marker::Model;

/// The store, the open sessions and lines, the stamps of tables, the regions that lines may lock, and the results of
/// queries.
pub struct BulkParts<K: Keeper> {
    /// The committed rows, and what each session has written and not committed.
    pub store: StoreEngine<K>,
    /// The open sessions and lines with the ticks at which they began.
    pub registry: Registry,
    /// For each table the tick of its last change, or one ahead while a commit is under way.
    pub stamps: StampsEngine,
    /// For each entity of the script its region, in order.
    pub regions: Vec<EntityRegion>,
    /// The results of queries that are kept.
    pub results: ResultsEngine,
}

impl<K: Keeper> Model for BulkParts<K> {
    ghost use Rattle.hib_bulk.specs.Standing.{BulkPartsState};

    ghost Value = { BulkPartsState };

    ghost view = { λ p. record {
      store = p.store;
      registry = p.registry;
      stamps = p.stamps;
      regions = p.regions.items;
      results = p.results;
    } };
}

impl<K: Keeper> BulkParts<K> {
    /// Whether a key has an old item, which must be swept before an act meets it.
    fn old(&self, key: Key) -> bool
        ensures { result ≡ has_old_in (region_of self.now.regions key.entity) key.id }
    {
        let at = key.entity.0 as usize;
        if at < self.regions.len() {
            return self.regions[at].old(key.id);
        }
        false
    }

    /// The key of the old item that an act would meet, if there is one. It is swept first.
    pub fn old_for(&self, act: &Act) -> Option<Key>
        ensures some { IfSome result (λ k. (swept_for act.now ≡ Some k)
            × (has_old_in (region_of self.now.regions k.entity) k.id ≡ true)) }
        ensures none { result ≡ None → (k : KeySpec) → swept_for act.now ≡ Some k
            → has_old_in (region_of self.now.regions k.entity) k.id ≡ false }
    {
        match act {
            Act::Get { key, .. } | Act::Put { key, .. } | Act::Lock { key, .. } if self.old(*key) =>
                Some(*key),
            _ => None,
        }
    }

    /// Evicts an old item from the region of its key. There must be one. It takes no memory.
    pub fn sweep(&mut self, key: Key, now: Tick)
        requires { has_old_in (region_of self.old.regions key.entity) key.id ≡ true }
        ensures here { region_of self.new.regions key.entity
            ≡ swept (region_of self.old.regions key.entity) key.id now }
        ensures others { IsAtRegion key.entity self.old.regions self.new.regions }
        ensures same { self.new ≡ record self.old { regions = self.new.regions } }
    {
        let at = key.entity.0 as usize;
        if at < self.regions.len() {
            self.regions[at].sweep(key.id, now);
        }
    }

    /// What an act that a session answers itself does to the parts: End closes the session.
    fn note_own(&mut self, session: SessionNo, act: &Act)
        ensures { self.new ≡ record self.old
            { registry = own_after session act.now self.old.registry } }
    {
        match act {
            Act::End => self.registry.end(session),
            _ => {}
        }
    }

    /// Has the region of an entity answer an act of a session. An item that the act would meet must not be old. At an
    /// error nothing has changed.
    fn serve_region(
        &mut self,
        alloc: Global,
        entity: EntityNo,
        session: SessionNo,
        act: &Act,
        now: Tick,
    ) -> Result<BulkReply, AllocError>
        requires late { now ≤ 2 ^ 62 }
        requires swept { (k : KeySpec) → swept_for act.now ≡ Some k
            → has_old_in (region_of self.old.regions entity) k.id ≡ false }
        ensures answered { IfOk result (λ r. (script : Said)
            (lines : List BulkDef) (told : Option Tables) (h : Past)
            → IsReady script lines told h session now act.now self.old
            → entity_in act.now ≡ Some entity
            → IsAnswered script lines told h session now (BulkAct.Plain act.now) r self.new) }
        ensures calm { IfOk result (λ r. is_fault r ≡ false) }
        ensures store { self.new.store ≡ self.old.store }
        ensures still { OnOk result (brings act.now ≡ true → self.new ≡ self.old) }
        ensures err { OnErr result (self.new ≡ self.old) }
    {
        laws();
        wide::answers();
        wide::grows();
        wide::stays();
        let Some(begun) = self.registry.time(session) else {
            // No act of a region is due in a session that isn't open.
            return Ok(BulkReply::Plain(Reply::Done));
        };
        let at = entity.0 as usize;
        if at < self.regions.len() {
            return self.regions[at].serve(alloc, act, begun, now);
        }
        // No act is due on an entity that isn't cached.
        Ok(BulkReply::Plain(Reply::Done))
    }

    /// Has a part answer an act of a session, which must be neither the session's own nor a region's. A fault is
    /// answered only if the keeper failed in this call. At an error the parts are as before, but for the keeper's
    /// counts.
    fn serve(
        &mut self,
        alloc: Global,
        script: &Script,
        session: SessionNo,
        act: &Act,
        now: Tick,
    ) -> Result<Reply, AllocError>
        requires late { now ≤ 2 ^ 62 }
        requires tables { AreWithin (length self.old.stamps) act.now }
        requires entities { length self.old.stamps ≡ length script.now.mapping }
        requires mapping { length script.now.mapping < 2 ^ 16 }
        ensures answered { IfOk result (λ r. (lines : List BulkDef) (told : Option Tables)
            (h : Past) → IsReady script.now lines told h session now act.now self.old
            → own_reply script.now (own session (plain h)) act.now ≡ None
            → entity_in act.now ≡ None
            → IsAnswered script.now lines told h session now (BulkAct.Plain act.now)
            (Replied.Plain r) self.new) }
        ensures fault { IfOk result (λ r. is_fault (Replied.Plain r) ≡ true
            → Rose self.old.store.faults self.new.store.faults) }
        ensures faults { self.old.store.faults ≤ self.new.store.faults }
        ensures entities { self.new.store.entities ≡ self.old.store.entities }
        ensures still { OnOk result (brings act.now ≡ true → IsStill self.old self.new) }
        ensures err { OnErr result (IsStill self.old self.new) }
    {
        laws();
        wide::stays();
        match part_of(act, session) {
            Part::Registry => self.registry.serve(session, act, now),
            Part::Store => self.store.serve(alloc, script, session, act),
            Part::Stamps => self.stamps.serve(alloc, script, act, now),
            Part::Results => self.results.serve(alloc, act),
            // What is a session's own it answers itself, and of regions others are asked.
            Part::Region(_) | Part::Own(_) => Ok(Reply::Done),
        }
    }

    /// Answers the act that is due in a session, at this tick, by the session itself or by a part. An item that the
    /// act meets must not be old: the caller sweeps it first. A fault is answered only if the keeper failed in this
    /// call. At an error the parts are as before, but for the keeper's counts. So they are if the act brings something
    /// to the session.
    pub fn answer(
        &mut self,
        alloc: Global,
        script: &Script,
        session: &Session,
        act: &Act,
        now: Tick,
    ) -> Result<BulkReply, AllocError>
        requires late { now ≤ 2 ^ 62 }
        requires tables { AreWithin (length self.old.stamps) act.now }
        requires entities { length self.old.stamps ≡ length script.now.mapping }
        requires mapping { length script.now.mapping < 2 ^ 16 }
        requires swept { (k : KeySpec) → swept_for act.now ≡ Some k
            → has_old_in (region_of self.old.regions k.entity) k.id ≡ false }
        ensures answered { IfOk result (λ r. (lines : List BulkDef) (told : Option Tables)
            (h : Past) → Follows script.now session.now (own (number_of session.now) (plain h))
            → IsReady script.now lines told h (number_of session.now) now act.now self.old
            → IsTold script.now lines told h (number_of session.now) now act.now r
            self.old self.new) }
        ensures faults { self.old.store.faults ≤ self.new.store.faults }
        ensures entities { self.new.store.entities ≡ self.old.store.entities }
        ensures still { OnOk result (brings act.now ≡ true → IsStill self.old self.new) }
        ensures err { OnErr result (IsStill self.old self.new) }
    {
        laws();
        wide::stays();
        let number = session.number();
        if let Some(reply) = session.reply_to(alloc, script, act)? {
            self.note_own(number, act);
            return Ok(BulkReply::Plain(reply));
        }
        if let Part::Region(entity) = part_of(act, number) {
            return self.serve_region(alloc, entity, number, act, now);
        }
        let reply = self.serve(alloc, script, number, act, now)?;
        Ok(BulkReply::Plain(reply))
    }
}
