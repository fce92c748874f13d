//! The law of two nodes over one store: what holds of every legal journal of both.
//!
//! The crate has no code. Each function has an empty body, and its `ensures` is a theorem over all scripts, all places
//! of sessions, all rows at the start and all journals. `specs/Nodes` counts, `specs/Legal` says which journals are
//! legal, `specs/Law` what is claimed of the items, `specs/Apart` how the lists of parts make a legal journal, and
//! `proofs/` has the proofs.
#![tactic(auto)]

mod nodes;

ghost use Rattle.hib_base.specs.Tables.{Tables};
ghost use Rattle.hib_journal.specs.Next.{plan_of, strategy};
ghost use Rattle.hib_journal.specs.Plan.{InOrder};
ghost use Rattle.hib_journal.specs.Sessions.{own};
ghost use Rattle.hib_journal.specs.Types.{Key, Script, Strategy};
ghost use Rattle.hib_nodes_law.specs.Types.{NodeEntry, Noded, Nodings};
ghost use Rattle.hib_nodes_law.specs.Apart.{AreInTurn, AreNodesApart, AreOfParts, IsQueueAfter};
ghost use Rattle.hib_nodes_law.specs.Law.{NodesCohere};
ghost use Rattle.hib_nodes_law.specs.Legal.{AreNodesLegal};
ghost use Rattle.hib_nodes_law.specs.Nodes.{entries};
ghost use Rattle.std.specs.Prelude.{◌≡◌, ◌∷◌, ℕ, Option, Some};

pub use nodes::{NodeEntry, NodeOrder, NodeOrders, Nodings, Places};

/// At every entry, for each node and each read-write key that is sound there: the node's item, if there is one, is the
/// row that was committed just after the entry that gave it, and a hit answers it; each later commit on the key is
/// behind or comes after one that is, and there are no more of them than are behind; and once the node's queue is empty
/// the item is the committed row.
pub fn nodes_cohere()
    ensures items { (script : Script) (start : Tables) (places : Nodings) (n : ℕ) (k : Key)
        → strategy script k.entity ≡ Strategy.ReadWrite → (h : Noded)
        → AreNodesLegal script (Some start) places h → NodesCohere script start n k h }
{}

/// Each session's entries are the acts of its plan, each once and in order.
pub fn steps_are_in_order()
    ensures steps { (script : Script) (told : Option Tables) (places : Nodings) (s : ℕ) (h : Noded)
        → AreNodesLegal script told places h → InOrder (plan_of script s) (own s (entries h)) }
{}

/// A journal is legal if each entry comes in its turn, and the list of each part and that of each session is legal by
/// itself. In its turn is what the lists can't say: its tick is the next one, it is at the node of its session, and one
/// of no session is due there.
pub fn apart_is_legal()
    ensures legal { (script : Script) (told : Option Tables) (places : Nodings) (h : Noded)
        → AreInTurn script places h → AreNodesApart script told h
        → AreNodesLegal script told places h }
{}

/// Of a legal journal each entry comes in its turn, and the list of each part and that of each session is legal by
/// itself. So `apart_is_legal` asks no more than is needed.
pub fn legal_is_apart()
    ensures turns { (script : Script) (told : Option Tables) (places : Nodings) (h : Noded)
        → AreNodesLegal script told places h → AreInTurn script places h }
    ensures apart { (script : Script) (told : Option Tables) (places : Nodings) (h : Noded)
        → AreNodesLegal script told places h → AreNodesApart script told h }
{}

/// The committed rows and the counts of a legal journal are those of the store's list, and a node's floor is that of
/// the list of its registry.
pub fn parts_tell()
    ensures told { (script : Script) (told : Option Tables) (places : Nodings) (h : Noded)
        → AreNodesLegal script told places h → AreOfParts h }
{}

/// A queue gets the keys that the other node commits, and the first half of a fence takes its first.
pub fn queues_go_on()
    ensures queue { (script : Script) (told : Option Tables) (places : Nodings) (n : ℕ)
        (h : Noded) (e : NodeEntry)
        → AreNodesLegal script told places (e ∷ h) → IsQueueAfter script n h e }
{}
