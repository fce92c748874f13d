// What waits for a node: the keys that were committed at the other one, of which it isn't told yet. A pair is a node
// and such a key.
ghost use Rattle.std.specs.Prelude.{◌≡◌, ◌+◌, ◌<◌, ◌≤◌, [], ◌++◌, length, slice_get, OnOk};
ghost use Rattle.hib_nodes.specs.Queue.{other_node as other};

use hib_base::Key;
use std::alloc::{AllocError, Global};
use std::marker::Model;

/// The keys of the pairs that ever came to a node, the oldest first. The first `taken` ones are delivered.
#[derive(Drop)]
pub struct KeyQueue {
    pairs: Vec<Key>,
    taken: usize,
}

impl Model for KeyQueue {
    ghost use Rattle.std.specs.Prelude.{◌-◌, ◌≤◌, vec_len, vec_capacity};
    ghost use Rattle.hib_nodes.specs.Queue.{QueueState};

    ghost Value = { QueueState };

    ghost view = { λ q. record {
      pairs = q.pairs.items;
      taken = q.taken;
      spare = vec_capacity q.pairs - vec_len q.pairs;
    } };

    ghost invariant = { λ q. q.taken ≤ vec_len q.pairs };
}

impl KeyQueue {
    ghost use Rattle.hib_nodes.specs.Queue.{waiting};

    /// The queue in which nothing waits.
    pub fn open(alloc: Global) -> KeyQueue
        ensures pairs { result.pairs ≡ [] }
        ensures taken { result.taken ≡ 0 }
    {
        KeyQueue {
            pairs: Vec::new(alloc),
            taken: 0,
        }
    }

    /// The key of the first pair that waits, if one does.
    pub fn first(&self) -> Option<Key>
        ensures { result ≡ slice_get (waiting self.now) 0 }
    {
        self.pairs.get(self.taken).copied()
    }

    /// Notes that the first pair that waits is delivered. One must wait.
    pub fn take(&mut self)
        requires { self.old.taken < length self.old.pairs }
        ensures { self.new ≡ record self.old { taken = self.old.taken + 1 } }
    {
        self.taken += 1;
    }

    /// Makes room for `count` more keys. At an error it is as before.
    pub fn reserve(&mut self, count: usize) -> Result<(), AllocError>
        ensures pairs { self.new.pairs ≡ self.old.pairs }
        ensures taken { self.new.taken ≡ self.old.taken }
        ensures room { OnOk result (count ≤ self.new.spare) }
    {
        self.pairs.reserve(count)
    }

    /// Adds keys at the end. There must be room for them. It takes no memory.
    pub fn append(&mut self, keys: &[Key])
        requires { length keys.now ≤ self.old.spare }
        ensures pairs { self.new.pairs ≡ self.old.pairs ++ keys.now }
        ensures taken { self.new.taken ≡ self.old.taken }
    {
        for key in keys {
            self.pairs.push_reserved(*key);
        }
    }
}

/// What waits for each node.
#[derive(Drop)]
pub struct Queues {
    first: KeyQueue,
    second: KeyQueue,
}

impl Model for Queues {
    ghost use Rattle.hib_nodes.specs.Queue.{QueuesState};

    ghost Value = { QueuesState };

    ghost view = { λ q. record { first = q.first; second = q.second } };
}

/// The node that hears of what this one commits.
pub fn other_node(node: u8) -> u8
    ensures { result ≡ other node }
{
    if node == 2 { 1 } else { 2 }
}

impl Queues {
    ghost use Rattle.hib_nodes.specs.Queue.{AreWaiting, other_node, queue_in, waiting, with_queue};

    /// The queues in which nothing waits for a node.
    pub fn open(alloc: Global) -> Queues
        ensures first_pairs { result.first.pairs ≡ [] }
        ensures first_taken { result.first.taken ≡ 0 }
        ensures second_pairs { result.second.pairs ≡ [] }
        ensures second_taken { result.second.taken ≡ 0 }
    {
        Queues {
            first: KeyQueue::open(alloc),
            second: KeyQueue::open(alloc),
        }
    }

    /// The key of the first pair that waits for a node, if one does.
    pub fn first(&self, node: u8) -> Option<Key>
        ensures { result ≡ slice_get (waiting (queue_in self.now node)) 0 }
    {
        if node == 2 {
            self.second.first()
        } else {
            self.first.first()
        }
    }

    /// Notes that the first pair that waits for a node is delivered. One must wait.
    pub fn take(&mut self, node: u8)
        requires { (queue_in self.old node).taken < length (queue_in self.old node).pairs }
        ensures { self.new ≡ with_queue node (record (queue_in self.old node)
            { taken = (queue_in self.old node).taken + 1 }) self.old }
    {
        if node == 2 {
            self.second.take();
        } else {
            self.first.take();
        }
    }

    /// Makes room for `count` more keys that wait for a node. At an error all is as before.
    pub fn reserve(&mut self, node: u8, count: usize) -> Result<(), AllocError>
        ensures same { AreWaiting self.old self.new }
        ensures room { OnOk result (count ≤ (queue_in self.new node).spare) }
    {
        if node == 2 {
            self.second.reserve(count)
        } else {
            self.first.reserve(count)
        }
    }

    /// Adds keys that wait for a node. There must be room for them. It takes no memory.
    pub fn append(&mut self, node: u8, keys: &[Key])
        requires { length keys.now ≤ (queue_in self.old node).spare }
        ensures pairs { (queue_in self.new node).pairs ≡ (queue_in self.old node).pairs ++ keys.now }
        ensures taken { (queue_in self.new node).taken ≡ (queue_in self.old node).taken }
        ensures other { queue_in self.new (other_node node) ≡ queue_in self.old (other_node node) }
    {
        if node == 2 {
            self.second.append(keys);
        } else {
            self.first.append(keys);
        }
    }
}
