// What a listener is: it is told each entry of a run.
ghost use Rattle.std.specs.Prelude.{◌≡◌, ◌+◌, ◌-◌, ◌<◌, ℕ, List, option_copied};
ghost use Rattle.std.specs.declared.option.Option.{Option};
ghost use Rattle.hib_outside.specs.Types.{Entry};
ghost use Rattle.hib_outside.specs.Hears.{heard_after, left_after, IsDue, told_at};

use hib_base::Entry;
use std::alloc::Global;

/// A listener's answer to an entry.
#[derive(Clone, Copy, Debug, PartialEq, Eq)]
pub enum Heard {
    /// It heard the entry, and wants more.
    Stay,
    /// It heard the entry, and is to be dropped.
    Leave,
    /// Memory ran out; it didn't hear the entry.
    NoMemory,
}

/// Hears entries.
pub trait Listener: Send + Drop {
    /// The entries that it heard, if it tells them.
    ghost heard: { Self → Option (List Entry) };

    /// How many it has still to hear, or none if it never leaves.
    ghost left: { Self → Option ℕ };

    /// Hears an entry. If it tells, it leaves exactly if at most one was left to hear.
    fn hear(&mut self, alloc: Global, entry: &Entry) -> Heard
        ensures heard { heard self.new ≡ heard_after result entry.now (heard self.old) }
        ensures left { left self.new ≡ left_after result (left self.old) }
        ensures leaves { IsDue result (heard self.old) (left self.old) };

    /// The entry at a place of the list heard, from 0. None if it tells nothing.
    fn nth(&self, i: usize) -> Option<&Entry>
        ensures { told_at (heard self.now) i ≡ option_copied result };
}

/// A boxed listener is one, so that what is generic in its listener runs over boxes of several kinds.
impl Listener for Box<dyn Listener> {
    ghost heard = { λ b. (Listener-box b).heard b.value };

    ghost left = { λ b. (Listener-box b).left b.value };

    fn hear(&mut self, alloc: Global, entry: &Entry) -> Heard {
        (**self).hear(alloc, entry)
    }

    fn nth(&self, i: usize) -> Option<&Entry> {
        (**self).nth(i)
    }
}
