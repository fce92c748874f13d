// A listener that writes a line for each entry: that of `--trace`.
ghost use Rattle.std.specs.Prelude.{◌≡◌, ◌++◌, codes};
ghost use Rattle.std.specs.Fmt.{decimal};
ghost use Rattle.std.specs.Io.KnownBytes.{Appends};
ghost use Rattle.std.specs.declared.option.Option.TheVariants.{None};
ghost use Rattle.hib_outside.specs.Causes.{one_more, Rose};
ghost use Rattle.hib_outside.specs.Hears.{heard_after, left_after, IsDue};
ghost use Rattle.hib_outside.specs.declared.listener.Heard.TheVariants.{Stay, Leave, NoMemory};

use hib_base::Entry;
use hib_outside::{Failed, Heard, Listener, Sink, write_all};
use std::alloc::Global;

/// Writes `entry N` to a sink for each entry that it hears, with N the number of entries so far. It tells nothing, and
/// leaves if writing fails.
#[derive(Drop)]
pub struct Trace<W> {
    /// Where the lines go.
    pub sink: W,
    /// How many entries it heard, or the last value of the type if that is more.
    pub count: u64,
}

impl<W> Trace<W> {
    /// The trace that has heard nothing.
    pub fn new(sink: W) -> Trace<W>
        ensures sink { result.sink ≡ sink }
        ensures count { result.count ≡ 0 }
    {
        Trace { sink, count: 0 }
    }
}

impl<W: Sink + Send + Drop> Listener for Trace<W> {
    ghost heard = { λ _. None };

    ghost left = { λ _. None };

    /// If it stays, the sink has taken the line; it leaves only if the sink failed. If memory runs out nothing
    /// is written, and the entry isn't numbered.
    fn hear(&mut self, alloc: Global, entry: &Entry) -> Heard
        ensures heard { None ≡ heard_after result entry.now None }
        ensures left { None ≡ left_after result None }
        ensures leaves { IsDue result None None }
        ensures line { result ≡ Stay → Appends (W.taken self.old.sink) (W.taken self.new.sink)
            (codes "entry " ++ decimal (one_more self.old.count) ++ codes "\n") }
        ensures cause { result ≡ Leave → Rose (W.faults self.old.sink) (W.faults self.new.sink) }
        ensures silent { result ≡ NoMemory → self.new ≡ self.old }
        ensures count { result ≡ Stay → self.new.count ≡ one_more self.old.count }
    {
        let number = self.count.saturating_add(1);
        let Ok(line) = format!(in alloc; "entry {number}\n") else {
            return Heard::NoMemory;
        };
        self.count = number;
        match write_all(&mut self.sink, line.as_bytes()) {
            Ok(()) => Heard::Stay,
            Err(Failed) => Heard::Leave,
        }
    }

    /// It tells nothing.
    fn nth(&self, _i: usize) -> Option<&Entry> {
        None
    }
}
