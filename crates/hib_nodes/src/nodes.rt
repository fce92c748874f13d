// The factory of `nodes`, which hib_section_calls opens and plays: two nodes over one store, sessions at each, and the
// journal of both. A pair that waits is a node and a key of which the node isn't told yet.
ghost use Rattle.std.specs.Prelude.{◌≡◌, ◌≢◌, ◌<◌, ◌≤◌, ◌^◌, ℕ, [], ◌∷◌, length, slice_get, Some, OnOk, OnErr, IfOk};
ghost use Rattle.std.specs.Prelude.{IfErr, Ok, Option, true, false};
ghost use Rattle.hib_base.specs.Tables.{Tables};
ghost use Rattle.hib_journal.specs.Runs.{told_committed, is_fault, fault_count, ask_count};
ghost use Rattle.hib_outside.specs.Causes.{Rose};
ghost use Rattle.hib_store.specs.Stores.{handed_back, is_store_fault};
ghost use Rattle.hib_engines.specs.Counts.{RoseBy, RoseWithin};
ghost use Rattle.hib_engines.specs.Origin.{origin_over};
ghost use Rattle.hib_nodes_law.specs.declared.nodes.NodeEntry.{NodeEntry};
ghost use Rattle.hib_nodes_law.specs.Apart.{AreOfParts};
ghost use Rattle.hib_nodes_law.specs.Nodes.{entries};
ghost use Rattle.hib_nodes.specs.Kept.{past};
ghost use Rattle.hib_nodes.specs.Played.{has_next};
ghost use Rattle.hib_nodes.specs.Run.{AreSet, HasDelivered, HasStepped, IsAsked, IsAskedOnceMore, IsDelivered, IsOver};
ghost use Rattle.hib_nodes.specs.Run.{Obeys};
ghost use Rattle.hib_nodes.specs.Standing.{is_node, IsAskedFor, IsStepRefused, IsStill};

use crate::fencing;
use crate::journal::Noded;
use crate::names::Name;
use crate::opening::open_shared;
use crate::placing::nodes_of;
use crate::shared::NodesShared;
use crate::turns::turn;
use hib_base::{Script, SessionNo};
use hib_engines::Stepped;
use hib_nodes_law::{
    NodeOrder, Places, apart_is_legal, nodes_cohere, parts_tell, steps_are_in_order,
};
use hib_outside::Keeper;
use hib_session::{Session, open_all};
use hib_store::OpenFault;
use std::alloc::{AllocError, Global};
use std::marker::{Model, PhantomData};

/// Two nodes over one store: sessions at each, with registries and regions of their own, and the journal of their steps
/// and of what is delivered from one to the other. The journal is legal for the name's script and places, from the
/// name's rows.
pub struct Nodes<K: Keeper, N: Name> {
    script: Script,
    places: Places,
    /// The node of each session.
    nodes: Vec<u8>,
    sessions: Vec<Session>,
    shared: NodesShared<K>,
    /// Whether memory ran out in a call.
    refused: bool,
    of: PhantomData<N>,
}

impl<K: Keeper, N: Name> Model for Nodes<K, N> {
    ghost use Rattle.std.specs.Prelude.{◌≡◌, false, length};
    ghost use Rattle.hib_nodes.specs.Kept.{past};
    ghost use Rattle.hib_nodes.specs.Placed.{ArePlaced};
    ghost use Rattle.hib_nodes.specs.Run.{IsAsked, NodesState};
    ghost use Rattle.hib_nodes.specs.Shared.{AreSessions, IsShared};

    ghost Value = { NodesState };

    ghost view = { λ f. record {
      journal = f.shared.journal;
      parts = f.shared.parts;
      refused = f.refused;
    } };

    ghost invariant = { λ f. (f.script ≡ N.script)
        × (f.places.nodes ≡ N.places)
        × (f.places.orders ≡ N.orders)
        × ArePlaced N.places (length N.script.sessions) f.nodes.items
        × IsShared N.script N.places N.from f.shared
        × AreSessions N.script (past f.shared.journal) f.sessions.items
        × (f.refused ≡ false → IsAsked N.from (past f.shared.journal) f.shared.parts) };
}

impl<K: Keeper, N: Name> Nodes<K, N> {
    /// Opens the factory of this name, in which no session has begun. The rows that the keeper keeps are widened to the
    /// script's mapping, and each of the script's rows whose key has none is added. At an error the keeper is handed
    /// back, with the rows that it had.
    pub fn open(
        alloc: Global,
        script: Script,
        places: Places,
        keeper: K,
    ) -> Result<Nodes<K, N>, OpenFault<K>>
        requires script { script ≡ N.script }
        requires places { places.nodes ≡ N.places }
        requires orders { places.orders ≡ N.orders }
        requires set { AreSet N.script N.places }
        requires from { origin_over N.script (K.tables keeper) (K.faults keeper) (K.asked keeper)
            ≡ N.from }
        ensures empty { IfOk result (λ f. past f.journal ≡ []) }
        ensures going { IfOk result (λ f. f.refused ≡ false) }
        ensures back { IfErr result (λ e. K.tables (handed_back e) ≡ K.tables keeper) }
        ensures back_faults { IfErr result (λ e. K.faults keeper ≤ K.faults (handed_back e)) }
        ensures back_asked { IfErr result (λ e. K.asked (handed_back e) ≡ K.asked keeper) }
        ensures fault { IfErr result (λ e. is_store_fault e ≡ true
            → Rose (K.faults keeper) (K.faults (handed_back e))) }
    {
        let Ok(nodes) = nodes_of(alloc, places.nodes.as_slice(), script.sessions.len()) else {
            return Err(OpenFault::NoMemory(keeper));
        };
        let Ok(sessions) = open_all(alloc, &script) else {
            return Err(OpenFault::NoMemory(keeper));
        };
        let shared = open_shared(alloc, &script, keeper)?;
        Ok(Nodes {
            script,
            places,
            nodes,
            sessions,
            shared,
            refused: false,
            of: PhantomData,
        })
    }

    /// One step of a session: the act that is due in it, if one is, at its node. A commit that applies comes into the
    /// other node's queue in the same step. The keeper is asked once at most, and only if the act asks for rows: a hit
    /// asks it nothing. If memory runs out no entry is added and nothing has changed, but the answer of `refused` and,
    /// if the act that was due calls the keeper, its counts; so a later call may succeed. The session must be the
    /// script's.
    pub fn step(&mut self, alloc: Global, number: SessionNo) -> Result<Stepped, AllocError>
        requires known { number < length N.script.sessions }
        ensures did { result ≡ Ok Stepped.Did → HasStepped N.script N.places number
            (past self.old.journal) (past self.new.journal) }
        ensures done { result ≡ Ok Stepped.Done → IsOver N.script number
            (past self.old.journal) (past self.new.journal) }
        ensures law { Obeys N.script N.places N.from.tables (past self.new.journal) }
        ensures fault { (e : NodeEntry) → past self.new.journal ≡ e ∷ past self.old.journal
            → is_fault e.entry.reply ≡ true
            → Rose self.old.parts.store.faults self.new.parts.store.faults }
        ensures asks_once { (e : NodeEntry) → past self.new.journal ≡ e ∷ past self.old.journal
            → IsAskedFor (past self.old.journal) number e.entry.act self.old.parts self.new.parts }
        ensures going { OnOk result (self.new.refused ≡ self.old.refused) }
        ensures same { OnErr result (past self.new.journal ≡ past self.old.journal) }
        ensures still { OnErr result (IsStill self.old.parts self.new.parts) }
        ensures counts { OnErr result (IsStepRefused N.script (past self.old.journal) number
            self.old.parts self.new.parts) }
        ensures asked { OnErr result (self.old.refused ≡ false
            → IsAskedOnceMore N.from (past self.new.journal) self.new.parts) }
        ensures refused { OnErr result (self.new.refused ≡ true) }
    {
        let stepped = self.take_step(alloc, number);
        self.lawful();
        stepped
    }

    /// Delivers the first pair that waits for a node, by a fence of its key: two entries, at this tick and the next
    /// one. False if and only if none waits; then nothing is done. The keeper isn't called. If memory runs out neither
    /// entry is added and nothing has changed, but the answer of `refused`.
    pub fn deliver(&mut self, node: u8) -> Result<bool, AllocError>
        requires node { is_node node ≡ true }
        ensures delivered { result ≡ Ok true
            → HasDelivered N.script node (past self.old.journal) (past self.new.journal) }
        ensures none { result ≡ Ok false
            → IsDelivered N.script node (past self.old.journal) (past self.new.journal) }
        ensures law { Obeys N.script N.places N.from.tables (past self.new.journal) }
        ensures store { self.new.parts.store ≡ self.old.parts.store }
        ensures going { OnOk result (self.new.refused ≡ self.old.refused) }
        ensures same { OnErr result (past self.new.journal ≡ past self.old.journal) }
        ensures still { OnErr result (self.new.parts ≡ self.old.parts) }
        ensures asked { OnErr result (self.old.refused ≡ false
            → IsAskedOnceMore N.from (past self.new.journal) self.new.parts) }
        ensures refused { OnErr result (self.new.refused ≡ true) }
    {
        let delivered = self.take_pair(node);
        self.lawful();
        delivered
    }

    /// One step of a session, for `step`. If memory runs out nothing has changed but the answer of `refused` and, if
    /// the act that was due calls the keeper, its counts.
    fn take_step(&mut self, alloc: Global, number: SessionNo) -> Result<Stepped, AllocError>
        requires known { number < length N.script.sessions }
        ensures did { result ≡ Ok Stepped.Did → HasStepped N.script N.places number
            (past self.old.journal) (past self.new.journal) }
        ensures done { result ≡ Ok Stepped.Done → IsOver N.script number
            (past self.old.journal) (past self.new.journal) }
        ensures fault { (e : NodeEntry) → past self.new.journal ≡ e ∷ past self.old.journal
            → is_fault e.entry.reply ≡ true
            → Rose self.old.parts.store.faults self.new.parts.store.faults }
        ensures asks_once { (e : NodeEntry) → past self.new.journal ≡ e ∷ past self.old.journal
            → IsAskedFor (past self.old.journal) number e.entry.act self.old.parts self.new.parts }
        ensures going { OnOk result (self.new.refused ≡ self.old.refused) }
        ensures same { OnErr result (past self.new.journal ≡ past self.old.journal) }
        ensures still { OnErr result (IsStill self.old.parts self.new.parts) }
        ensures counts { OnErr result (IsStepRefused N.script (past self.old.journal) number
            self.old.parts self.new.parts) }
        ensures asked { OnErr result (self.old.refused ≡ false
            → IsAsked N.from (past self.old.journal) self.old.parts) }
        ensures refused { OnErr result (self.new.refused ≡ true) }
    {
        let node = self.nodes[number.0 as usize];
        match turn::<K, N>(
            alloc,
            &self.script,
            node,
            number,
            &mut self.sessions,
            &mut self.shared,
        ) {
            Ok(stepped) => Ok(stepped),
            Err(error) => {
                self.refused = true;
                Err(error)
            }
        }
    }

    /// One delivery, for `deliver`. If memory runs out nothing has changed but the answer of `refused`.
    fn take_pair(&mut self, node: u8) -> Result<bool, AllocError>
        requires node { is_node node ≡ true }
        ensures delivered { result ≡ Ok true
            → HasDelivered N.script node (past self.old.journal) (past self.new.journal) }
        ensures none { result ≡ Ok false
            → IsDelivered N.script node (past self.old.journal) (past self.new.journal) }
        ensures store { self.new.parts.store ≡ self.old.parts.store }
        ensures going { OnOk result (self.new.refused ≡ self.old.refused) }
        ensures same { OnErr result (past self.new.journal ≡ past self.old.journal) }
        ensures still { OnErr result (self.new.parts ≡ self.old.parts) }
        ensures asked { OnErr result (self.old.refused ≡ false
            → IsAsked N.from (past self.old.journal) self.old.parts) }
        ensures refused { OnErr result (self.new.refused ≡ true) }
    {
        match fencing::deliver::<K, N>(node, &mut self.shared) {
            Ok(delivered) => Ok(delivered),
            Err(error) => {
                self.refused = true;
                Err(error)
            }
        }
    }

    /// Says to proofs that the journal obeys the law of two nodes, and that the list of the store tells its committed
    /// rows and its counts. It does nothing.
    pub fn lawful(&self)
        ensures law { Obeys N.script N.places N.from.tables (past self.now.journal) }
        ensures told { AreOfParts (past self.now.journal) }
    {
        apart_is_legal();
        nodes_cohere();
        steps_are_in_order();
        parts_tell();
        let _ = &self.script;
    }

    /// The entries of the steps so far.
    pub fn journal(&self) -> &Noded
        ensures { result.now ≡ self.now.journal }
    {
        &self.shared.journal
    }

    /// The script of this name.
    pub fn script(&self) -> &Script
        ensures { result.now ≡ N.script }
    {
        &self.script
    }

    /// How many sessions there are. In others nothing is due.
    pub fn sessions(&self) -> usize
        ensures count { result ≡ length N.script.sessions }
        ensures few { result < 2 ^ 32 }
        ensures unknown { (s : ℕ) → length N.script.sessions ≤ s
            → has_next N.script (past self.now.journal) s ≡ false }
    {
        self.sessions.len()
    }

    /// How many orders there are.
    pub fn orders(&self) -> usize
        ensures count { result ≡ length N.orders }
    {
        self.places.orders.len()
    }

    /// An order.
    pub fn order(&self, at: usize) -> NodeOrder
        requires there { at < length N.orders }
        ensures { slice_get N.orders at ≡ Some result }
    {
        *self.places.orders.at(at)
    }

    /// Says to proofs that the journal is short, so that no tick runs over. It does nothing.
    pub fn short(&self)
        ensures { length (past self.now.journal) ≤ 2 ^ 62 }
    {
        let _ = self.shared.journal.len();
    }

    /// Whether memory ran out in a call.
    pub fn refused(&self) -> bool
        ensures { result ≡ self.now.refused }
    {
        self.refused
    }

    /// Takes the factory apart: the keeper, the script, the places and the journal, with what the run promises of them.
    pub fn close(self) -> (K, Script, Places, Noded)
        ensures script { result.1 ≡ N.script }
        ensures places { result.2.nodes ≡ N.places }
        ensures orders { result.2.orders ≡ N.orders }
        ensures journal { result.3 ≡ self.journal }
        ensures law { Obeys N.script N.places N.from.tables (past result.3) }
        ensures rows { K.tables result.0 ≡ told_committed N.from.tables (entries (past result.3)) }
        ensures faults { RoseBy N.from.faults (fault_count (entries (past result.3)))
            (K.faults result.0) }
        ensures count { K.asked result.0 ≡ self.parts.store.asked }
        ensures asked { self.refused ≡ false → RoseWithin N.from.asked
            (ask_count (entries (past result.3))) (K.asked result.0) }
    {
        self.lawful();
        let Nodes {
            script,
            places,
            nodes: _,
            sessions: _,
            shared,
            refused: _,
            of: _,
        } = self;
        let NodesShared {
            parts,
            queues: _,
            journal,
        } = shared;
        (parts.close(), script, places, journal)
    }
}
