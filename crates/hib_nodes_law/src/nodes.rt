// Nodes, the places of sessions, orders, and the entries of a journal of two nodes.
use hib_base::{Entry, Seq, SessionNo};

/// One atomic step at a node.
#[derive(Drop)]
pub struct NodeEntry {
    /// The node: that of the entry's session, or that of the fence of which the entry is a half. 1 or 2.
    pub node: u8,
    /// The step.
    pub entry: Entry,
}

/// Sessions with their nodes, 1 or 2. One that isn't named is at node 1.
pub type Nodings = Seq<(SessionNo, u8)>;

/// What is done next in a run of two nodes.
#[derive(Drop, Clone, Copy, Debug, PartialEq, Eq)]
pub enum NodeOrder {
    /// A session does steps.
    Run {
        /// Which session.
        session: SessionNo,
        /// How many.
        steps: u32,
    },
    /// The first pair that waits for a node is delivered to it, if one waits.
    Deliver {
        /// The node, 1 or 2.
        node: u8,
    },
}

/// The orders, in order.
pub type NodeOrders = Seq<NodeOrder>;

/// What a text says of nodes.
#[derive(Drop)]
pub struct Places {
    /// Where sessions are.
    pub nodes: Nodings,
    /// What is done, in turn.
    pub orders: NodeOrders,
}
