// The acts of a session's block that are due one after another.
ghost use Rattle.std.specs.Prelude.{◌≡◌, ◌↔◌, ◌<◌, [], ◌∷◌, IsTrue, length, slice_get, Some};

use hib_base::{Act, Acts};
use std::alloc::Global;
use std::collections::VecDeque;
use std::marker::Model;

/// Acts that are due one after another. To take the first costs the same however many follow.
#[derive(Drop)]
pub struct Queue {
    acts: VecDeque<Act>,
}

impl Model for Queue {
    ghost use Rattle.std.specs.Prelude.{List};
    ghost use Rattle.hib_base.specs.declared.entries.Act.{Act};

    ghost Value = { List Act };

    ghost view = { λ q. q.acts.items };
}

impl Queue {
    /// The queue in which no act is due. It takes no memory.
    pub fn new(alloc: Global) -> Queue
        ensures { result ≡ [] }
    {
        Queue {
            acts: VecDeque::new(alloc),
        }
    }

    /// The queue in which these acts are due. It takes no memory.
    pub fn of(acts: Acts) -> Queue
        ensures { result ≡ acts }
    {
        Queue {
            acts: VecDeque::from_vec(acts.into_vec()),
        }
    }

    /// How many acts are due.
    pub fn len(&self) -> usize
        ensures { result ≡ length self.now }
    {
        self.acts.len()
    }

    /// Whether no act is due.
    pub fn is_empty(&self) -> bool
        ensures { IsTrue result ↔ (self.now ≡ []) }
    {
        self.acts.is_empty()
    }

    /// The first act. There must be one.
    pub fn first(&self) -> &Act
        requires { 0 < length self.now }
        ensures { slice_get self.now 0 ≡ Some result.now }
    {
        &self.acts[0]
    }

    /// Takes the first act out. There must be one. After the last one the memory of all is given back. It takes no
    /// memory.
    pub fn take_first(&mut self) -> Act
        requires { 0 < length self.old }
        ensures { self.old ≡ result ∷ self.new }
    {
        let act = self.acts.pop_front().unwrap();
        if self.acts.is_empty() {
            self.acts.shrink_to_fit();
        }
        act
    }
}
