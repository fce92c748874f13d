// What listeners hear, by direct calls: whether each has heard the entries that it is to hear, and who is left.
use hib_base::{Act, Entry, Part, Reply, Seq, Tick};
use hib_call::Lent;
use hib_listeners::{Limited, Listeners, Recorder, Trace};
use hib_outside::{Heard, Listener, MemKeeper, MemSink, MemSource};
use hib_top::play_words;
use std::alloc::{AllocError, Global};

/// Listeners of several kinds.
type Several = Vec<Box<dyn Listener>>;

/// An entry with this tick.
fn entry(tick: u64) -> Entry {
    Entry {
        tick: Tick(tick),
        session: None,
        part: Part::Registry,
        act: Act::Restart,
        reply: Reply::Done,
    }
}

/// Tells the entries with the ticks from 1 to the last, and answers how often memory ran out.
fn tell<L: Listener>(alloc: Global, listeners: &mut Listeners<L>, last: u32) -> u64 {
    let mut refused = 0u64;
    for tick in 1..u64::from(last) + 1 {
        if listeners.tell(alloc, &entry(tick)).is_err() {
            refused = refused.saturating_add(1);
        }
    }
    refused
}

/// Whether it has heard exactly the entries with the ticks from 1 to the last.
fn heard_to<L: Listener>(listener: &L, last: usize) -> bool {
    for i in 0..last {
        match listener.nth(i) {
            Some(entry) if entry.tick == Tick(i as u64 + 1) => {}
            _ => return false,
        }
    }
    listener.nth(last).is_none()
}

/// A recorder that has no memory for the second entry that it is told.
#[derive(Drop)]
struct Forgetful {
    recorder: Recorder,
    told: u64,
}

impl Listener for Forgetful {
    ghost use Rattle.std.specs.Prelude.{Some, None};

    ghost heard = { λ f. Some f.recorder.entries.items };

    ghost left = { λ _. None };

    fn hear(&mut self, alloc: Global, entry: &Entry) -> Heard {
        self.told = self.told.saturating_add(1);
        if self.told == 2 {
            return Heard::NoMemory;
        }
        self.recorder.hear(alloc, entry)
    }

    fn nth(&self, i: usize) -> Option<&Entry> {
        self.recorder.nth(i)
    }
}

/// Whether of a recorder and one limited to three entries, which are told eight, the recorder alone is left and has
/// heard all.
pub fn drops_the_limited(alloc: Global) -> Result<bool, AllocError> {
    let mut several: Several = Vec::new(alloc);
    several.push(Box::new(alloc, Recorder::new(alloc))?)?;
    several.push(Box::new(alloc, Limited::new(alloc, 3))?)?;
    let mut listeners = Listeners::open(several);
    let refused = tell(alloc, &mut listeners, 8);
    let left = listeners.close();
    Ok(refused == 0 && left.len() == 1 && left.iter().all(|one| heard_to(one, 8)))
}

/// Whether of three listeners the second leaves at the first entry, and the others hear the next.
pub fn drops_the_second(alloc: Global) -> Result<bool, AllocError> {
    let mut several: Several = Vec::new(alloc);
    several.push(Box::new(alloc, Recorder::new(alloc))?)?;
    several.push(Box::new(alloc, Limited::new(alloc, 1))?)?;
    several.push(Box::new(alloc, Limited::new(alloc, 9))?)?;
    let mut listeners = Listeners::open(several);
    let refused = tell(alloc, &mut listeners, 2);
    let left = listeners.close();
    Ok(refused == 0 && left.len() == 2 && left.iter().all(|one| heard_to(one, 2)))
}

/// Whether of three listeners of which the second has no memory for the second entry the first alone has heard two.
pub fn stops_at_the_second(alloc: Global) -> Result<bool, AllocError> {
    let mut several: Several = Vec::new(alloc);
    several.push(Box::new(alloc, Recorder::new(alloc))?)?;
    several.push(Box::new(
        alloc,
        Forgetful {
            recorder: Recorder::new(alloc),
            told: 0,
        },
    )?)?;
    several.push(Box::new(alloc, Recorder::new(alloc))?)?;
    let mut listeners = Listeners::open(several);
    let refused = tell(alloc, &mut listeners, 2);
    let left = listeners.close();
    let [first, others @ ..] = left.as_slice() else {
        return Ok(false);
    };
    Ok(
        refused == 1
            && others.len() == 2
            && heard_to(first, 2)
            && others.iter().all(|one| heard_to(one, 1)),
    )
}

/// Whether a trace writes a line for each entry, until its sink fails.
pub fn writes_lines(alloc: Global) -> Result<bool, AllocError> {
    let mut fail = Seq::new(alloc);
    fail.push(3)?;
    let mut trace = Trace::new(MemSink::new(alloc, 100, fail)?);
    let first = trace.hear(alloc, &entry(1));
    let second = trace.hear(alloc, &entry(2));
    let third = trace.hear(alloc, &entry(3));
    Ok(
        first == Heard::Stay
            && second == Heard::Stay
            && third == Heard::Leave
            && trace.nth(0).is_none()
            && trace.sink.bytes() == b"entry 1\nentry 2\n".as_slice(),
    )
}

/// A session that persists a book and commits, which is eight entries.
const PERSISTS: &[u8] = b"hib 1
entity Book read-write versioned 100
column title text
column stock int
session a
persist Book 1 \"Dune\" 3
commit
end
";

fn play_word(alloc: Global) -> Result<Vec<String>, AllocError> {
    let mut words = Vec::new(alloc);
    words.push(String::from_str(alloc, "play")?)?;
    Ok(words)
}

fn persists(alloc: Global) -> Result<MemSource, AllocError> {
    let text = PERSISTS.to_vec(alloc)?;
    Ok(MemSource::new(Seq::from_vec(text), Seq::new(alloc)))
}

/// Whether the run is done, and one listener comes back, which has heard eight entries.
fn hears_eight(
    alloc: Global,
    words: &Vec<String>,
    source: &mut MemSource,
    sink: &mut MemSink,
    several: Several,
) -> bool {
    let keeper = MemKeeper::new(alloc, Seq::new(alloc));
    let lent = Lent {
        keeper,
        listeners: several,
    };
    let called = play_words(alloc, words, source, sink, lent);
    let left = called.lent.listeners.as_slice();
    called.status.is_done() && left.len() == 1 && left.iter().all(|one| heard_to(one, 8))
}

/// Whether of a recorder and one limited to three entries, which hear a run of eight, the recorder alone comes back,
/// and has heard all.
pub fn hears_a_run(alloc: Global) -> Result<bool, AllocError> {
    let words = play_word(alloc)?;
    let mut source = persists(alloc)?;
    let mut sink = MemSink::new(alloc, 100000, Seq::new(alloc))?;
    let mut several: Several = Vec::new(alloc);
    several.push(Box::new(alloc, Recorder::new(alloc))?)?;
    several.push(Box::new(alloc, Limited::new(alloc, 3))?)?;
    Ok(hears_eight(alloc, &words, &mut source, &mut sink, several))
}
