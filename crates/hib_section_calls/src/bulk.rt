// The call of `bulk`: a script is run with bulk changes.
ghost use Rattle.std.specs.Prelude.{◌≡◌};
ghost use Rattle.hib_bulk.specs.Run.{AreSet};
ghost use Rattle.hib_call.specs.Called.{IsCalled};
ghost use Rattle.hib_call.specs.Ends.{Comes};
ghost use Rattle.hib_call.specs.Outside.{outside_of, shared_of};
ghost use Rattle.hib_call.specs.Runs.{origin};
ghost use Rattle.hib_section_calls.specs.Bulking.{bulking};

use hib_base::Script;
use hib_bulk::{BulkFactory, Bulked, Name};
use hib_bulk_law::Bulks;
use hib_call::{Called, Lent, Outcome, Ran, SCRIPT_BYTES, Status, Task, call, not_run, tell_text};
use hib_input::read_with_section;
use hib_outside::{Keeper, Listener, Sink, Source};
use hib_script::ScriptError;
use hib_sections::read_bulks;
use std::alloc::Global;
use std::marker::Brand;

/// A script, and the bulk lines and the schedule that come after it.
#[derive(Drop)]
pub struct Bulking {
    /// The script, which is valid.
    pub script: Script,
    /// The bulk lines, at most 100, and who does how many steps in turn.
    pub bulks: Bulks,
}

/// A run of a script with bulk changes.
#[derive(Drop)]
pub struct BulkRun {
    /// The script that was run.
    pub script: Script,
    /// The bulk lines and the schedule.
    pub bulks: Bulks,
    /// The entries of its steps.
    pub journal: Bulked,
}

/// Plays a script's sessions, with its bulk changes, to the end, over what is lent; `N` names the run.
fn bulk_named<N: Name, K: Keeper, L: Listener>(
    alloc: Global,
    input: Bulking,
    lent: Lent<K, L>,
) -> Ran<BulkRun, K, L>
    requires script { input.script ≡ N.script }
    requires lines { input.bulks.lines ≡ N.lines }
    requires orders { input.bulks.orders ≡ N.orders }
    requires set { AreSet N.script N.lines }
    requires from { origin N.script (shared_of K.Keeper L.Listener lent) ≡ N.from }
    ensures { Comes bulking input (shared_of K.Keeper L.Listener lent)
        (shared_of K.Keeper L.Listener result.lent) result.outcome }
{
    let Lent { keeper, listeners } = lent;
    let Bulking { script, bulks } = input;
    let mut factory: BulkFactory<K, N> = match BulkFactory::open(alloc, script, bulks, keeper) {
        Ok(factory) => factory,
        Err(fault) => return not_run(fault, listeners),
    };
    let finished = factory.play(alloc);
    let (keeper, script, bulks, journal) = factory.close();
    let run = BulkRun {
        script,
        bulks,
        journal,
    };
    let outcome = match finished {
        Ok(()) => Outcome::Over(run),
        Err(_) => Outcome::Stopped(Status::NoMemory, Some(run)),
    };
    Ran {
        outcome,
        lent: Lent { keeper, listeners },
    }
}

/// Runs a script with bulk changes over what is lent: the orders of the section's schedule, and then each session and
/// each bulk line to its end, the first one first. If memory runs out the journal so far stands. The listeners hear of
/// nothing.
fn bulk_script<K: Keeper, L: Listener>(
    alloc: Global,
    input: Bulking,
    lent: Lent<K, L>,
) -> Ran<BulkRun, K, L>
    requires { AreSet input.script input.bulks.lines }
    ensures { Comes bulking input (shared_of K.Keeper L.Listener lent)
        (shared_of K.Keeper L.Listener result.lent) result.outcome }
{
    bulk_named::<Brand, K, L>(alloc, input, lent)
}

/// Reads a script, the line `bulk`, bulk lines and their schedule, runs the script with them and writes its journal.
#[derive(Clone, Copy)]
struct Bulk;

impl Task for Bulk {
    type Input = Bulking;

    type Run = BulkRun;

    ghost command = { λ _. bulking };

    ghost is_sound = { λ input. AreSet input.script input.bulks.lines };

    fn limit(&self) -> usize {
        SCRIPT_BYTES
    }

    #[tactic(auto, using(crate::proofs::Bulks::both_said, crate::proofs::Bulks::no_section, crate::proofs::Bulks::no_bulks, crate::proofs::Bulks::are_set))]
    fn read(&self, alloc: Global, text: &[u8]) -> Result<Bulking, ScriptError> {
        let said = read_with_section(alloc, text, b"bulk")?;
        let mapping = &said.script.mapping;
        let sessions = &said.script.sessions;
        let before = said.before.lines.as_slice();
        let bulks = read_bulks(alloc, mapping, sessions, before, &said.behind)?;
        Ok(Bulking {
            script: said.script,
            bulks,
        })
    }

    fn tell<W: Sink>(&self, alloc: Global, run: &BulkRun, out: &mut W) -> Status {
        match hib_bulk::text(alloc, &run.script, &run.bulks.lines, &run.journal) {
            Ok(text) => tell_text(text.as_slice(), out),
            Err(_) => Status::NoMemory,
        }
    }
}

/// Calls `bulk`: reads a script, the line `bulk`, bulk lines and their schedule, runs the script with them and writes
/// its journal.
pub fn call_bulk<S: Source, W: Sink, K: Keeper, L: Listener>(
    alloc: Global,
    source: &mut S,
    out: &mut W,
    lent: Lent<K, L>,
) -> Called<BulkRun, K, L>
    ensures { IsCalled bulking
        (outside_of S.Source W.Sink K.Keeper L.Listener source.old out.old lent)
        (outside_of S.Source W.Sink K.Keeper L.Listener source.new out.new result.lent)
        result.status result.run }
{
    call(
        alloc,
        &Bulk,
        source,
        out,
        lent,
        |input, lent|
            requires { AreSet input.script input.bulks.lines }
        { bulk_script(alloc, input, lent) },
    )
}
