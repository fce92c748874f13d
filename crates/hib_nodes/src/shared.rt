// What the sessions of `nodes` share.
use crate::journal::Noded;
use crate::parts::NodesParts;
use crate::queue::Queues;
use hib_outside::Keeper;
use std::marker::Model;

/// What the sessions of a run share: the parts, what waits for each node, and the journal.
pub struct NodesShared<K: Keeper> {
    /// The parts.
    pub parts: NodesParts<K>,
    /// What waits for each node.
    pub queues: Queues,
    /// The entries of the steps so far.
    pub journal: Noded,
}

impl<K: Keeper> Model for NodesShared<K> {
    ghost use Rattle.hib_nodes.specs.Shared.{SharedState};

    ghost Value = { SharedState };

    ghost view = { λ s. record { parts = s.parts; queues = s.queues; journal = s.journal } };
}
