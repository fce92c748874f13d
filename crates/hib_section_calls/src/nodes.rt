// The call of `nodes`: a script is run at two nodes.
ghost use Rattle.std.specs.Prelude.{◌≡◌};
ghost use Rattle.hib_call.specs.Called.{IsCalled};
ghost use Rattle.hib_call.specs.Ends.{Comes};
ghost use Rattle.hib_call.specs.Outside.{outside_of, shared_of};
ghost use Rattle.hib_call.specs.Runs.{origin};
ghost use Rattle.hib_nodes.specs.Run.{AreSet};
ghost use Rattle.hib_section_calls.specs.Placing.{placing};

use hib_base::Script;
use hib_call::{Called, Lent, Outcome, Ran, SCRIPT_BYTES, Status, Task, call, not_run, tell_text};
use hib_input::read_with_section;
use hib_nodes::{Name, Noded, Nodes};
use hib_nodes_law::Places;
use hib_outside::{Keeper, Listener, Sink, Source};
use hib_script::ScriptError;
use hib_sections::read_nodes;
use std::alloc::Global;
use std::marker::Brand;

/// A script, and what comes after it: where its sessions are, and what is done in turn.
#[derive(Drop)]
pub struct Placing {
    /// The script, which is valid.
    pub script: Script,
    /// The node of each session that isn't at node 1, and the schedule.
    pub places: Places,
}

/// A run of a script at two nodes.
#[derive(Drop)]
pub struct NodeRun {
    /// The script that was run.
    pub script: Script,
    /// Where its sessions were, and the schedule.
    pub places: Places,
    /// The entries of its steps and deliveries.
    pub journal: Noded,
}

/// Plays a script's sessions at two nodes to the end, over what is lent; `N` names the run.
fn nodes_named<N: Name, K: Keeper, L: Listener>(
    alloc: Global,
    input: Placing,
    lent: Lent<K, L>,
) -> Ran<NodeRun, K, L>
    requires script { input.script ≡ N.script }
    requires places { input.places.nodes ≡ N.places }
    requires orders { input.places.orders ≡ N.orders }
    requires set { AreSet N.script N.places }
    requires from { origin N.script (shared_of K.Keeper L.Listener lent) ≡ N.from }
    ensures { Comes placing input (shared_of K.Keeper L.Listener lent)
        (shared_of K.Keeper L.Listener result.lent) result.outcome }
{
    let Lent { keeper, listeners } = lent;
    let Placing { script, places } = input;
    let mut nodes: Nodes<K, N> = match Nodes::open(alloc, script, places, keeper) {
        Ok(nodes) => nodes,
        Err(fault) => return not_run(fault, listeners),
    };
    let finished = nodes.play(alloc);
    let (keeper, script, places, journal) = nodes.close();
    let run = NodeRun {
        script,
        places,
        journal,
    };
    let outcome = match finished {
        Ok(()) => Outcome::Over(run),
        Err(_) => Outcome::Stopped(Status::NoMemory, Some(run)),
    };
    Ran {
        outcome,
        lent: Lent { keeper, listeners },
    }
}

/// Runs a script at two nodes over what is lent: the orders of the section's schedule, then each session to its end,
/// the first one first, and then all that waits is delivered, to node 1 and to node 2. If memory runs out the journal
/// so far stands. The listeners hear of nothing.
fn nodes_script<K: Keeper, L: Listener>(
    alloc: Global,
    input: Placing,
    lent: Lent<K, L>,
) -> Ran<NodeRun, K, L>
    requires { AreSet input.script input.places.nodes }
    ensures { Comes placing input (shared_of K.Keeper L.Listener lent)
        (shared_of K.Keeper L.Listener result.lent) result.outcome }
{
    nodes_named::<Brand, K, L>(alloc, input, lent)
}

/// Reads a script, the line `nodes`, places of sessions and a schedule, runs the script at two nodes and writes its
/// journal.
#[derive(Clone, Copy)]
struct AtNodes;

impl Task for AtNodes {
    type Input = Placing;

    type Run = NodeRun;

    ghost command = { λ _. placing };

    ghost is_sound = { λ input. AreSet input.script input.places.nodes };

    fn limit(&self) -> usize {
        SCRIPT_BYTES
    }

    #[tactic(auto, using(crate::proofs::Places::both_said, crate::proofs::Places::no_section, crate::proofs::Places::no_places, crate::proofs::Places::are_set))]
    fn read(&self, alloc: Global, text: &[u8]) -> Result<Placing, ScriptError> {
        let said = read_with_section(alloc, text, b"nodes")?;
        let mapping = &said.script.mapping;
        let sessions = &said.script.sessions;
        let before = said.before.lines.as_slice();
        let places = read_nodes(alloc, mapping, sessions, before, &said.behind)?;
        Ok(Placing {
            script: said.script,
            places,
        })
    }

    fn tell<W: Sink>(&self, alloc: Global, run: &NodeRun, out: &mut W) -> Status {
        match hib_nodes::text(alloc, &run.script, &run.journal) {
            Ok(text) => tell_text(text.as_slice(), out),
            Err(_) => Status::NoMemory,
        }
    }
}

/// Calls `nodes`: reads a script, the line `nodes`, places of sessions and a schedule, runs the script at two nodes and
/// writes its journal.
pub fn call_nodes<S: Source, W: Sink, K: Keeper, L: Listener>(
    alloc: Global,
    source: &mut S,
    out: &mut W,
    lent: Lent<K, L>,
) -> Called<NodeRun, K, L>
    ensures { IsCalled placing
        (outside_of S.Source W.Sink K.Keeper L.Listener source.old out.old lent)
        (outside_of S.Source W.Sink K.Keeper L.Listener source.new out.new result.lent)
        result.status result.run }
{
    call(
        alloc,
        &AtNodes,
        source,
        out,
        lent,
        |input, lent|
            requires { AreSet input.script input.places.nodes }
        { nodes_script(alloc, input, lent) },
    )
}
