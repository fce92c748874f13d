// What a run of two nodes begins with: the parts of both nodes, and queues in which nothing waits.
ghost use Rattle.std.specs.Prelude.{◌≡◌, ◌≤◌, ◌<◌, ◌^◌, [], true, length, IfOk, IfErr};
ghost use Rattle.hib_outside.specs.Causes.{Rose};
ghost use Rattle.hib_store.specs.Stores.{handed_back, is_store_fault};
ghost use Rattle.hib_engines.specs.Built.{IsBuilt};
ghost use Rattle.hib_engines.specs.Origin.{told_start};
ghost use Rattle.hib_nodes.specs.Kept.{past};
ghost use Rattle.hib_nodes.specs.Queue.{AreQueues};
ghost use Rattle.hib_nodes.specs.Standing.{AreStanding};

use crate::journal::Noded;
use crate::node::Node;
use crate::parts::NodesParts;
use crate::queue::Queues;
use crate::shared::NodesShared;
use hib_base::Script;
use hib_engines::{ResultsEngine, StampsEngine, StoreEngine, laws};
use hib_outside::Keeper;
use hib_store::OpenFault;
use std::alloc::Global;

impl<K: Keeper> NodesParts<K> {
    /// The parts of a run in which nothing has happened. At an error the keeper is handed back, with the rows that it
    /// had.
    fn open(alloc: Global, script: &Script, keeper: K) -> Result<NodesParts<K>, OpenFault<K>>
        requires built { IsBuilt script.now }
        ensures standing { IfOk result (λ p. AreStanding script.now
            (told_start script.now (K.tables keeper)) [] p) }
        ensures faults { IfOk result (λ p. K.faults keeper ≤ p.store.faults) }
        ensures asked { IfOk result (λ p. p.store.asked ≡ K.asked keeper) }
        ensures back { IfErr result (λ e. K.tables (handed_back e) ≡ K.tables keeper) }
        ensures back_faults { IfErr result (λ e. K.faults keeper ≤ K.faults (handed_back e)) }
        ensures back_asked { IfErr result (λ e. K.asked (handed_back e) ≡ K.asked keeper) }
        ensures fault { IfErr result (λ e. is_store_fault e ≡ true
            → Rose (K.faults keeper) (K.faults (handed_back e))) }
    {
        laws();
        let Ok(first) = Node::open(alloc, script) else {
            return Err(OpenFault::NoMemory(keeper));
        };
        let Ok(second) = Node::open(alloc, script) else {
            return Err(OpenFault::NoMemory(keeper));
        };
        let Ok(stamps) = StampsEngine::open(alloc, script.mapping.len() as u16) else {
            return Err(OpenFault::NoMemory(keeper));
        };
        let Ok(results) = ResultsEngine::open(alloc, script.results) else {
            return Err(OpenFault::NoMemory(keeper));
        };
        let entities = script.mapping.len() as u16;
        let rows = script.rows.as_slice();
        let store = StoreEngine::open(alloc, keeper, &script.mapping, rows, entities)?;
        Ok(NodesParts {
            store,
            stamps,
            results,
            first,
            second,
        })
    }

    /// Lets the parts go, and hands back the keeper.
    pub fn close(self) -> K
        ensures tables { K.tables result ≡ self.store.tables }
        ensures faults { K.faults result ≡ self.store.faults }
        ensures asked { K.asked result ≡ self.store.asked }
    {
        let NodesParts {
            store,
            stamps: _,
            results: _,
            first: _,
            second: _,
        } = self;
        store.close()
    }
}

/// What the sessions of a run share in which nothing has happened. At an error the keeper is handed back, with the rows
/// that it had.
pub fn open_shared<K: Keeper>(
    alloc: Global,
    script: &Script,
    keeper: K,
) -> Result<NodesShared<K>, OpenFault<K>>
    requires built { IsBuilt script.now }
    ensures journal { IfOk result (λ s. past s.journal ≡ []) }
    ensures queues { IfOk result (λ s. AreQueues script.now [] s.queues) }
    ensures standing { IfOk result (λ s. AreStanding script.now
        (told_start script.now (K.tables keeper)) [] s.parts) }
    ensures faults { IfOk result (λ s. K.faults keeper ≤ s.parts.store.faults) }
    ensures asked { IfOk result (λ s. s.parts.store.asked ≡ K.asked keeper) }
    ensures back { IfErr result (λ e. K.tables (handed_back e) ≡ K.tables keeper) }
    ensures back_faults { IfErr result (λ e. K.faults keeper ≤ K.faults (handed_back e)) }
    ensures back_asked { IfErr result (λ e. K.asked (handed_back e) ≡ K.asked keeper) }
    ensures fault { IfErr result (λ e. is_store_fault e ≡ true
        → Rose (K.faults keeper) (K.faults (handed_back e))) }
{
    let parts = NodesParts::open(alloc, script, keeper)?;
    Ok(NodesShared {
        parts,
        queues: Queues::open(alloc),
        journal: Noded::open(alloc),
    })
}
