// Listeners that keep what they hear, for callers of the library and for checks.
ghost use Rattle.std.specs.Prelude.{◌≡◌, ◌≤◌, ◌++◌, ◌∷◌, [], OnOk, OnErr};
ghost use Rattle.std.specs.declared.option.Option.TheVariants.{Some, None};

use hib_base::Entry;
use hib_outside::{Heard, Listener};
use std::alloc::{AllocError, Global};

// Adds a copy of an entry at the end.
fn add(alloc: Global, entries: &mut Vec<Entry>, entry: &Entry) -> Result<(), AllocError>
    ensures ok { OnOk result (entries.new.items ≡ entries.old.items ++ entry.now ∷ []) }
    ensures err { OnErr result (entries.new.items ≡ entries.old.items) }
{
    let copy = entry.copy(alloc)?;
    entries.push(copy)?;
    Ok(())
}

/// Keeps all entries that it hears. It never leaves.
#[derive(Drop)]
pub struct Recorder {
    /// The entries that it heard, in order.
    pub entries: Vec<Entry>,
}

impl Recorder {
    /// The recorder that has heard nothing.
    pub fn new(alloc: Global) -> Recorder
        ensures { result.entries.items ≡ [] }
    {
        Recorder {
            entries: Vec::new(alloc),
        }
    }
}

impl Listener for Recorder {
    ghost heard = { λ r. Some r.entries.items };

    ghost left = { λ _. None };

    fn hear(&mut self, alloc: Global, entry: &Entry) -> Heard {
        match add(alloc, &mut self.entries, entry) {
            Ok(()) => Heard::Stay,
            Err(_) => Heard::NoMemory,
        }
    }

    fn nth(&self, i: usize) -> Option<&Entry> {
        self.entries.get(i)
    }
}

/// Keeps the first entries that it hears, and leaves at its last.
#[derive(Drop)]
pub struct Limited {
    /// The entries that it heard, in order.
    pub entries: Vec<Entry>,
    /// How many it has still to hear.
    pub left: u32,
}

impl Limited {
    /// The listener that has heard nothing, and is to hear `left` entries. It must be one at least.
    pub fn new(alloc: Global, left: u32) -> Limited
        requires { 1 ≤ left }
        ensures entries { result.entries.items ≡ [] }
        ensures left { result.left ≡ left }
    {
        Limited {
            entries: Vec::new(alloc),
            left,
        }
    }
}

impl Listener for Limited {
    ghost heard = { λ l. Some l.entries.items };

    ghost left = { λ l. Some l.left };

    fn hear(&mut self, alloc: Global, entry: &Entry) -> Heard {
        if add(alloc, &mut self.entries, entry).is_err() {
            return Heard::NoMemory;
        }
        if self.left <= 1 {
            self.left = 0;
            return Heard::Leave;
        }
        self.left -= 1;
        Heard::Stay
    }

    fn nth(&self, i: usize) -> Option<&Entry> {
        self.entries.get(i)
    }
}
