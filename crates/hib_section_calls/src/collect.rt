// The call of `collect`: a script is run with collections.
ghost use Rattle.std.specs.Prelude.{◌≡◌};
ghost use Rattle.hib_call.specs.Called.{IsCalled};
ghost use Rattle.hib_call.specs.Ends.{Comes};
ghost use Rattle.hib_call.specs.Outside.{outside_of, shared_of};
ghost use Rattle.hib_call.specs.Runs.{origin};
ghost use Rattle.hib_collections.specs.Run.{AreSet};
ghost use Rattle.hib_listeners.specs.Told.{tells};
ghost use Rattle.hib_section_calls.specs.Collecting.{collecting};

use hib_base::Script;
use hib_call::{Called, Lent, Outcome, Ran, SCRIPT_BYTES, Status, Task, call, not_run, tell_text};
use hib_collections::{Defs, Gather, GatherRefused, Gathered, Name};
use hib_input::read_with_section;
use hib_outside::{Keeper, Listener, Sink, Source};
use hib_script::ScriptError;
use hib_sections::read_collections;
use std::alloc::Global;
use std::marker::Brand;

/// A script, and the collections that come after it.
#[derive(Drop)]
pub struct Gathering {
    /// The script, which is valid.
    pub script: Script,
    /// The collections, at most 64.
    pub defs: Defs,
}

/// A run of a script with collections.
#[derive(Drop)]
pub struct Collected {
    /// The script that was run.
    pub script: Script,
    /// The collections.
    pub defs: Defs,
    /// The entries of its steps.
    pub journal: Gathered,
}

/// Plays a script's sessions, with its collections, to the end, over what is lent; `N` names the run.
fn collect_named<N: Name, K: Keeper, L: Listener>(
    alloc: Global,
    input: Gathering,
    lent: Lent<K, L>,
) -> Ran<Collected, K, L>
    requires script { input.script ≡ N.script }
    requires defs { input.defs ≡ N.defs }
    requires set { AreSet N.script N.defs }
    requires from { origin N.script (shared_of K.Keeper L.Listener lent) ≡ N.from }
    requires told { tells L.heard L.left lent.listeners.items ≡ N.told }
    ensures { Comes collecting input (shared_of K.Keeper L.Listener lent)
        (shared_of K.Keeper L.Listener result.lent) result.outcome }
{
    let Lent { keeper, listeners } = lent;
    let Gathering { script, defs } = input;
    let mut gather: Gather<K, N, L> = match Gather::open(alloc, script, defs, keeper, listeners) {
        Ok(gather) => gather,
        Err(GatherRefused { fault, listeners }) => return not_run(fault, listeners),
    };
    let finished = gather.play(alloc);
    let (keeper, script, defs, journal, listeners) = gather.close();
    let run = Collected {
        script,
        defs,
        journal,
    };
    let outcome = match finished {
        Ok(()) => Outcome::Over(run),
        Err(_) => Outcome::Stopped(Status::NoMemory, Some(run)),
    };
    Ran {
        outcome,
        lent: Lent { keeper, listeners },
    }
}

/// Runs a script with collections over what is lent: the orders of its schedule, and then each session to its end, the
/// first one first. If memory runs out the journal so far stands. The listeners hear of each entry of a session's plan,
/// a hit as the list that it stands for.
fn collect_script<K: Keeper, L: Listener>(
    alloc: Global,
    input: Gathering,
    lent: Lent<K, L>,
) -> Ran<Collected, K, L>
    requires { AreSet input.script input.defs }
    ensures { Comes collecting input (shared_of K.Keeper L.Listener lent)
        (shared_of K.Keeper L.Listener result.lent) result.outcome }
{
    collect_named::<Brand, K, L>(alloc, input, lent)
}

/// Reads a script, the line `collections` and collections, runs the script and writes its journal.
#[derive(Clone, Copy)]
struct Collect;

impl Task for Collect {
    type Input = Gathering;

    type Run = Collected;

    ghost command = { λ _. collecting };

    ghost is_sound = { λ input. AreSet input.script input.defs };

    fn limit(&self) -> usize {
        SCRIPT_BYTES
    }

    #[tactic(auto, using(crate::proofs::Gathers::both_said, crate::proofs::Gathers::no_section, crate::proofs::Gathers::no_collections, crate::proofs::Gathers::are_set))]
    fn read(&self, alloc: Global, text: &[u8]) -> Result<Gathering, ScriptError> {
        let said = read_with_section(alloc, text, b"collections")?;
        let before = said.before.lines.as_slice();
        let behind = said.behind.lines.as_slice();
        let defs = read_collections(alloc, &said.script.mapping, before, behind)?;
        Ok(Gathering {
            script: said.script,
            defs,
        })
    }

    fn tell<W: Sink>(&self, alloc: Global, run: &Collected, out: &mut W) -> Status {
        match hib_collections::text(alloc, &run.script, &run.defs, &run.journal) {
            Ok(text) => tell_text(text.as_slice(), out),
            Err(_) => Status::NoMemory,
        }
    }
}

/// Calls `collect`: reads a script, the line `collections` and collections, runs the script and writes its journal.
pub fn call_collect<S: Source, W: Sink, K: Keeper, L: Listener>(
    alloc: Global,
    source: &mut S,
    out: &mut W,
    lent: Lent<K, L>,
) -> Called<Collected, K, L>
    ensures { IsCalled collecting
        (outside_of S.Source W.Sink K.Keeper L.Listener source.old out.old lent)
        (outside_of S.Source W.Sink K.Keeper L.Listener source.new out.new result.lent)
        result.status result.run }
{
    call(
        alloc,
        &Collect,
        source,
        out,
        lent,
        |input, lent|
            requires { AreSet input.script input.defs }
        { collect_script(alloc, input, lent) },
    )
}
