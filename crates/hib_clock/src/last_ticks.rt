// The last tick of each of some numbers: of regions, or of sessions.
ghost use Rattle.std.specs.Prelude.{◌≡◌, ◌==◌, ℕ, [], if◌then◌else◌, OnOk};
ghost use Rattle.hib_clock.specs.LastTicks.{tick_in};

use hib_base::Tick;
use std::alloc::{AllocError, Global};
use std::collections::HashMap;
use std::marker::Model;

/// The last tick of each number, or 0.
#[derive(Drop)]
pub struct LastTicks {
    ticks: HashMap<u32, Tick>,
}

impl Model for LastTicks {
    ghost use Rattle.hib_clock.specs.LastTicks.{Numbered};

    ghost Value = { Numbered };

    ghost view = { λ l. l.ticks.entries };
}

impl LastTicks {
    /// No number has a tick yet. It takes no memory.
    pub fn new(alloc: Global) -> LastTicks
        ensures { result ≡ [] }
    {
        LastTicks {
            ticks: HashMap::new(alloc),
        }
    }

    /// The tick of a number, or 0.
    pub fn at(&self, number: u32) -> Tick
        ensures { result ≡ tick_in self.now number }
    {
        self.ticks.get(&number).copied().unwrap_or(Tick(0))
    }

    /// Notes another tick of a number.
    pub fn set(&mut self, number: u32, tick: Tick) -> Result<(), AllocError>
        ensures { OnOk result ((n : ℕ)
            → tick_in self.new n ≡ (if n == number then tick else tick_in self.old n)) }
    {
        self.ticks.insert(number, tick)?;
        Ok(())
    }
}
