// Sessions on workers, through the top call: made scripts on several numbers of workers, and two workers that must run
// beside each other.
use crate::beside::{Meeting, Waiting};
use crate::gate::Turnstile;
use crate::words::words_of;
use crate::world::{empty_keeper, sink_of, source_of};
use hib_base::Act;
use hib_call::{Called, Lent, Status};
use hib_journal::Journal;
use hib_listeners::Recorder;
use hib_outside::{Gate, Keeper, MemSink, MemSource};
use hib_top::{AnyRun, play_words, top};
use std::alloc::{AllocError, Global};
use std::sync::Wait;
use std::thread::Threads;

/// Two sessions, each of five steps.
const TWO: &str = "hib 1
entity Book none versioned 0
column title text
session a
find Book 1
find Book 2
find Book 3
commit
end
session b
find Book 1
find Book 2
find Book 3
commit
end
";

/// A session that finds a row, and one that only commits.
const READ: &str = "hib 1
entity Book none versioned 0
column title text
session a
find Book 1
commit
end
session b
commit
end
";

/// The bytes that a sink takes.
const ROOM: u32 = 65_536;

/// How many sessions a made script has.
const MADE: usize = 40;

/// What came of a call.
#[derive(Drop)]
struct Came {
    /// All was done.
    is_done: bool,
    /// How many entries there are.
    entries: usize,
    /// How many sessions came to their ends.
    ends: usize,
    /// The listener has heard as many entries as there are.
    is_heard: bool,
}

/// How many sessions a journal has at their ends.
fn ends_in(journal: &Journal) -> usize {
    journal
        .as_slice()
        .iter()
        .filter(|entry| matches!(&entry.act, Act::End))
        .count()
}

/// The text of the script of a number, as `make` writes it.
fn made(alloc: Global, seed: &str) -> Result<Vec<u8>, AllocError> {
    let words = words_of(alloc, &["make", "--seed", seed, "--text"])?;
    output_alone(alloc, words.as_slice())
}

/// What the call that takes no lock writes, without input and without listeners.
fn output_alone(alloc: Global, words: &[String]) -> Result<Vec<u8>, AllocError> {
    let mut source = source_of(alloc, b"")?;
    let mut sink = sink_of(alloc, ROOM)?;
    has_no_form(alloc, words, &mut source, &mut sink);
    sink.bytes().to_vec(alloc)
}

/// Whether words had no form.
fn is_usage(status: &Status) -> bool {
    matches!(status, Status::Usage)
}

/// Makes the call that takes no lock (`play_words`), without listeners, and says whether its words have no form.
fn has_no_form(
    alloc: Global,
    words: &[String],
    source: &mut MemSource,
    sink: &mut MemSink,
) -> bool {
    let lent = Lent {
        keeper: empty_keeper(alloc),
        listeners: Vec::<Recorder>::new(alloc),
    };
    is_usage(&play_words(alloc, words, source, sink, lent).status)
}

/// What came of a run with one listener; of a call that ran no script, nothing.
fn came_of<K>(called: &Called<AnyRun, K, Recorder>) -> Came {
    let (entries, ends) = match &called.run {
        Some(AnyRun::Played(run)) => (run.journal.len(), ends_in(&run.journal)),
        _ => (0, 0),
    };
    let listeners = &called.lent.listeners;
    Came {
        is_done: called.status.is_done(),
        entries,
        ends,
        is_heard: listeners.iter().all(|one| one.entries.len() == entries),
    }
}

/// The words `work --workers N`, with `--split` if each part is to have a lock of its own.
fn work_words(alloc: Global, workers: u32, split: bool) -> Result<Vec<String>, AllocError> {
    let number = workers.to_string(alloc)?;
    if split {
        return words_of(alloc, &["work", "--workers", number.as_str(), "--split"]);
    }
    words_of(alloc, &["work", "--workers", number.as_str()])
}

/// One recorder.
fn recorder(alloc: Global) -> Result<Vec<Recorder>, AllocError> {
    let mut listeners = Vec::new(alloc);
    listeners.push(Recorder::new(alloc))?;
    Ok(listeners)
}

/// Runs the top call with one listener, and says what came of it.
fn listened<R: Threads + Wait + Sync, K: Keeper + Send + Drop, G: Gate>(
    rt: &R,
    alloc: Global,
    words: &[String],
    source: &mut MemSource,
    sink: &mut MemSink,
    keeper: K,
    gate: &G,
) -> Result<Came, AllocError> {
    let listeners = recorder(alloc)?;
    let lent = Lent { keeper, listeners };
    Ok(came_of(&top(rt, alloc, words, source, sink, lent, gate)))
}

/// Runs a script by these words over a keeper.
fn work<R: Threads + Wait + Sync, K: Keeper + Send + Drop, G: Gate>(
    rt: &R,
    alloc: Global,
    script: &[u8],
    words: &[String],
    keeper: K,
    gate: &G,
) -> Result<Came, AllocError> {
    let mut source = source_of(alloc, script)?;
    let mut sink = sink_of(alloc, ROOM)?;
    listened(rt, alloc, words, &mut source, &mut sink, keeper, gate)
}

/// How often the sessions of a run pass the gate: before each step, and once more before there is none. With one worker
/// and `--split` the gate isn't asked.
fn passes(came: &Came, sessions: usize, workers: u32, split: bool) -> usize {
    if split && workers == 1 {
        return 0;
    }
    came.entries.saturating_add(sessions)
}

/// Whether a script of this many sessions comes to its end on some workers, who make all steps.
fn is_right<R: Threads + Wait + Sync>(
    rt: &R,
    alloc: Global,
    script: &[u8],
    sessions: usize,
    workers: u32,
    split: bool,
    gate: &Turnstile,
) -> Result<bool, AllocError> {
    let words = work_words(alloc, workers, split)?;
    let came = work(
        rt,
        alloc,
        script,
        words.as_slice(),
        empty_keeper(alloc),
        gate,
    )?;
    let passed = passes(&came, sessions, workers, split);
    Ok(came.is_done && came.is_heard && came.ends == sessions && gate.was_passed(passed))
}

/// Whether the script of 7 comes to its end on each of several numbers of workers.
pub fn ends_made_sessions<R: Threads + Wait + Sync>(
    rt: &R,
    alloc: Global,
    split: bool,
) -> Result<bool, AllocError> {
    let script = made(alloc, "7")?;
    for workers in [1u32, 2, 4, 16, 64] {
        let gate = Turnstile::new(false);
        if !is_right(rt, alloc, &script, MADE, workers, split, &gate)? {
            return Ok(false);
        }
    }
    Ok(true)
}

/// Whether two workers run two sessions beside each other.
pub fn runs_beside<R: Threads + Wait + Sync>(
    rt: &R,
    alloc: Global,
    split: bool,
) -> Result<bool, AllocError> {
    let gate = Turnstile::new(true);
    Ok(is_right(rt, alloc, TWO.as_bytes(), 2, 2, split, &gate)? && gate.has_held())
}

/// Whether a session begins while another one waits for the store's answer: so no lock is round all parts.
pub fn uses_two_parts<R: Threads + Wait + Sync>(rt: &R, alloc: Global) -> Result<bool, AllocError> {
    let meeting = Meeting::new();
    let words = work_words(alloc, 2, true)?;
    let keeper = Waiting::new(&meeting);
    let came = work(
        rt,
        alloc,
        READ.as_bytes(),
        words.as_slice(),
        keeper,
        &meeting,
    )?;
    Ok(came.is_done && came.ends == 2 && meeting.came())
}

/// Whether these words have no form for the call that takes no lock, which writes nothing then.
fn is_silent(alloc: Global, words: &[String]) -> Result<bool, AllocError> {
    let mut source = source_of(alloc, b"")?;
    let mut sink = sink_of(alloc, 64)?;
    Ok(has_no_form(alloc, words, &mut source, &mut sink) && sink.bytes().is_empty())
}

/// Whether `work` has no form for the call that takes no lock.
pub fn has_no_form_alone(alloc: Global) -> Result<bool, AllocError> {
    let words = work_words(alloc, 2, false)?;
    is_silent(alloc, words.as_slice())
}
