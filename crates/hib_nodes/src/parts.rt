// The parts of a run of two nodes, and what they answer. What both nodes share is asked here; the rest at the node.
ghost use Rattle.std.specs.Prelude.{◌≡◌, ◌≤◌, ◌<◌, ◌^◌, ◌==◌, ◌∷◌, ℕ, List, length, cond, true, false, IfOk, OnOk};
ghost use Rattle.std.specs.Prelude.{OnErr, Option, Some, None};
ghost use Rattle.hib_base.specs.Tables.{Tables};
ghost use Rattle.hib_journal.specs.Types.{Script as Said, Strategy};
ghost use Rattle.hib_journal.specs.Next.{strategy};
ghost use Rattle.hib_journal.specs.Sessions.{Journal, own};
ghost use Rattle.hib_journal.specs.Lists.{IsLate};
ghost use Rattle.hib_journal.specs.Runs.{is_fault};
ghost use Rattle.hib_nodes_law.specs.Nodes.{entries, of_node};
ghost use Rattle.hib_nodes_law.specs.Types.{Noded as Past};
ghost use Rattle.hib_outside.specs.Causes.{Rose};
ghost use Rattle.hib_session.specs.Memory.{brings};
ghost use Rattle.hib_session.specs.Session.{Follows, number_of, own_reply};
ghost use Rattle.hib_base.specs.declared.entries.Act.{Act};
ghost use Rattle.hib_base.specs.declared.entries.Part.{Part};
ghost use Rattle.hib_engines.specs.Region.{entity_in, IsPlaced, Suits};
ghost use Rattle.hib_engines.specs.Regions.{region_of, IsAtRegion};
ghost use Rattle.hib_engines.specs.Registry.{own_after, IsRegistry};
ghost use Rattle.hib_engines.specs.Served.{AreWithin, IsServed, reads};
ghost use Rattle.hib_nodes.specs.Parts.{with_node, IsAlone};
ghost use Rattle.hib_nodes.specs.Fencing.{IsFencedAt};
ghost use Rattle.hib_nodes.specs.Standing.{entry_on, is_node, node_in, AreBefore, AreStanding, IsAnswered, IsAskedFor};
ghost use Rattle.hib_nodes.specs.Standing.{IsReady, IsRefused, IsStill, IsTold};

use crate::node::Node;
use hib_base::{Act, EntityNo, Entry, Key, Part, Reply, Script, SessionNo, Tick};
use hib_engines::{ResultsEngine, StampsEngine, StoreEngine};
use hib_journal::part_of;
use hib_outside::Keeper;
use hib_session::Session;
use std::alloc::{AllocError, Global};
use std::marker::Model;

/// The store, the stamps of tables and the results of queries, which both nodes share, and what each node has for
/// itself.
pub struct NodesParts<K: Keeper> {
    /// The committed rows, and what each session has written and not committed.
    pub store: StoreEngine<K>,
    /// For each table the tick of its last change, or one ahead while a commit is under way.
    pub stamps: StampsEngine,
    /// The results of queries that are kept.
    pub results: ResultsEngine,
    /// What node 1 has for itself.
    pub first: Node,
    /// What node 2 has for itself.
    pub second: Node,
}

impl<K: Keeper> Model for NodesParts<K> {
    ghost use Rattle.hib_nodes.specs.Standing.{NodesPartsState};

    ghost Value = { NodesPartsState };

    ghost view = { λ p. record {
      store = p.store;
      stamps = p.stamps;
      results = p.results;
      first = p.first;
      second = p.second;
    } };
}

impl<K: Keeper> NodesParts<K> {
    /// What an act that a session answers itself does to the parts: End closes the session at its node.
    fn note_own(&mut self, node: u8, session: SessionNo, act: &Act)
        ensures { self.new ≡ with_node node (record (node_in self.old node)
            { registry = own_after session act.now (node_in self.old node).registry }) self.old }
    {
        if node == 2 {
            self.second.note_own(session, act);
        } else {
            self.first.note_own(session, act);
        }
    }

    /// Has a node's registry answer the Begin of a session. At an error nothing has changed.
    fn begin(
        &mut self,
        node: u8,
        session: SessionNo,
        act: &Act,
        now: Tick,
    ) -> Result<Reply, AllocError>
        ensures served { IfOk result (λ r. (script : Said) (l : Journal)
            → IsRegistry (node_in self.old node).registry l → IsLate Part.Registry now l
            → act.now ≡ Act.Begin → IsServed (λ m. IsRegistry (node_in self.new node).registry m)
            script l (Some session) now act.now r) }
        ensures calm { IfOk result (λ r. is_fault r ≡ false) }
        ensures regions { (node_in self.new node).regions ≡ (node_in self.old node).regions }
        ensures store { self.new.store ≡ self.old.store }
        ensures alone { is_node node ≡ true → IsAlone node self.old self.new }
        ensures err { OnErr result (self.new ≡ self.old) }
    {
        if node == 2 {
            self.second.begin(session, act, now)
        } else {
            self.first.begin(session, act, now)
        }
    }

    /// Has a region of a node answer an act. A read leaves the parts as they are, and so does want of memory.
    fn ask_region(
        &mut self,
        alloc: Global,
        node: u8,
        entity: EntityNo,
        act: &Act,
        now: Tick,
    ) -> Result<Reply, AllocError>
        requires { now ≤ 2 ^ 62 }
        ensures served { IfOk result (λ r. (script : Said) (l : Journal) (by : Option ℕ)
            → IsPlaced script entity l (region_of (node_in self.old node).regions entity)
            → IsLate (Part.Region entity) now l → entity_in act.now ≡ Some entity
            → Suits (strategy script entity) act.now
            → IsServed
            (λ m. IsPlaced script entity m (region_of (node_in self.new node).regions entity)) script l
            by now act.now r) }
        ensures others { OnOk result (IsAtRegion entity (node_in self.old node).regions
            (node_in self.new node).regions) }
        ensures calm { IfOk result (λ r. is_fault r ≡ false) }
        ensures registry { (node_in self.new node).registry ≡ (node_in self.old node).registry }
        ensures store { self.new.store ≡ self.old.store }
        ensures alone { is_node node ≡ true → IsAlone node self.old self.new }
        ensures still { OnOk result (reads act.now ≡ true → self.new ≡ self.old) }
        ensures err { OnErr result (self.new ≡ self.old) }
    {
        if node == 2 {
            self.second.ask_region(alloc, entity, act, now)
        } else {
            self.first.ask_region(alloc, entity, act, now)
        }
    }

    /// Has a part answer an act of a session at a node, which must not be the session's own. A fault is answered only
    /// if the keeper failed in this call. At an error the parts are as before, but for the keeper's counts.
    fn serve(
        &mut self,
        alloc: Global,
        script: &Script,
        node: u8,
        session: SessionNo,
        act: &Act,
        now: Tick,
    ) -> Result<Reply, AllocError>
        requires late { now ≤ 2 ^ 62 }
        requires tables { AreWithin (length self.old.stamps) act.now }
        requires entities { length self.old.stamps ≡ length script.now.mapping }
        requires mapping { length script.now.mapping < 2 ^ 16 }
        ensures answered { IfOk result (λ r. (told : Option Tables) (h : Past)
            → IsReady script.now told h node session now act.now self.old
            → own_reply script.now (own session (entries h)) act.now ≡ None
            → IsAnswered script.now told h node session now act.now r self.new) }
        ensures asked { IfOk result (λ _. (told : Option Tables) (h : Past)
            → IsReady script.now told h node session now act.now self.old
            → IsAskedFor h session act.now self.old self.new) }
        ensures fault { IfOk result (λ r. is_fault r ≡ true
            → Rose self.old.store.faults self.new.store.faults) }
        ensures faults { self.old.store.faults ≤ self.new.store.faults }
        ensures still { OnOk result (brings act.now ≡ true → IsStill self.old self.new) }
        ensures err { OnErr result (IsStill self.old self.new) }
        ensures passed { OnOk result (brings act.now ≡ true → (told : Option Tables) (h : Past)
            → IsReady script.now told h node session now act.now self.old
            → IsRefused h session act.now self.old self.new) }
        ensures refused { OnErr result ((told : Option Tables) (h : Past)
            → IsReady script.now told h node session now act.now self.old
            → IsRefused h session act.now self.old self.new) }
    {
        match part_of(act, session) {
            Part::Registry => self.begin(node, session, act, now),
            Part::Store => self.store.serve(alloc, script, session, act),
            Part::Stamps => self.stamps.serve(alloc, script, act, now),
            Part::Results => self.results.serve(alloc, act),
            Part::Region(entity) => self.ask_region(alloc, node, entity, act, now),
            // What is a session's own it answers itself.
            Part::Own(_) => Ok(Reply::Done),
        }
    }

    /// Answers the act that is due in a session at a node, at this tick, by the session itself or by a part. A fault is
    /// answered only if the keeper failed in this call, and the keeper is asked once at most. At an error the parts are
    /// as before, but for the keeper's counts. So they are if the act brings something to the session. The counts stay
    /// too if the act doesn't call the keeper.
    pub fn answer(
        &mut self,
        alloc: Global,
        script: &Script,
        node: u8,
        session: &Session,
        act: &Act,
        now: Tick,
    ) -> Result<Reply, AllocError>
        requires late { now ≤ 2 ^ 62 }
        requires tables { AreWithin (length self.old.stamps) act.now }
        requires entities { length self.old.stamps ≡ length script.now.mapping }
        requires mapping { length script.now.mapping < 2 ^ 16 }
        ensures answered { IfOk result (λ r. (told : Option Tables) (h : Past)
            → Follows script.now session.now (own (number_of session.now) (entries h))
            → IsReady script.now told h node (number_of session.now) now act.now self.old
            → IsTold script.now told h node (number_of session.now) now act.now r self.old self.new) }
        ensures faults { self.old.store.faults ≤ self.new.store.faults }
        ensures still { OnOk result (brings act.now ≡ true → IsStill self.old self.new) }
        ensures err { OnErr result (IsStill self.old self.new) }
        ensures passed { OnOk result (brings act.now ≡ true → (told : Option Tables) (h : Past)
            → IsReady script.now told h node (number_of session.now) now act.now self.old
            → IsRefused h (number_of session.now) act.now self.old self.new) }
        ensures refused { OnErr result ((told : Option Tables) (h : Past)
            → IsReady script.now told h node (number_of session.now) now act.now self.old
            → IsRefused h (number_of session.now) act.now self.old self.new) }
    {
        let number = session.number();
        if let Some(reply) = session.reply_to(alloc, script, act)? {
            self.note_own(node, number, act);
            return Ok(reply);
        }
        self.serve(alloc, script, node, number, act, now)
    }

    /// Fences a key of a read-write region at a node, at this tick and the next one. Gives the two entries. At an error
    /// nothing has changed.
    pub fn fence(&mut self, node: u8, key: Key, now: Tick) -> Result<(Entry, Entry), AllocError>
        requires { now < 2 ^ 62 }
        ensures fenced { IfOk result (λ f. (script : Said) (told : Option Tables) (h : Past)
            → AreStanding script told h self.old → AreBefore now h → is_node node ≡ true
            → strategy script key.entity ≡ Strategy.ReadWrite
            → IsFencedAt script (of_node node h) key now f.0 f.1 (node_in self.new node)
            × AreStanding script told (entry_on node f.1 ∷ entry_on node f.0 ∷ h) self.new) }
        ensures store { self.new.store ≡ self.old.store }
        ensures err { OnErr result (self.new ≡ self.old) }
    {
        if node == 2 {
            self.second.fence(key, now)
        } else {
            self.first.fence(key, now)
        }
    }
}
