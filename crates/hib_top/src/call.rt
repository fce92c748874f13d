// The calls that a program makes with its words: the words say which command is asked for, and it gets its call.
ghost use Rattle.std.specs.Prelude.{◌≡◌, ◌≢◌, ◌≤◌, IfOk, IfSome, length, map, option_map, string_bytes, true};
ghost use Rattle.hib_base.specs.Valid.{is_valid};
ghost use Rattle.hib_call.specs.Limits.{max_journal};
ghost use Rattle.hib_call.specs.Outside.{outside_of};
ghost use Rattle.hib_words.specs.Commands.{asked_of, command, max_workers};
ghost use Rattle.hib_top.specs.Words.{HasFew, asked_alone, asked_in, is_alone, telling_of};
ghost use Rattle.hib_top.specs.Call.{Does, Promised};

use crate::any_run::AnyRun;
use crate::audit::{Judge, judge_journal};
use crate::make::{Make, Print};
use crate::play::play_script;
use crate::reading::Run;
use crate::split::split_script;
use crate::telling::Telling;
use crate::turns::Turns;
use crate::work::work_script;
use hib_base::Script;
use hib_call::{Called, Lent, NothingLeft, Outcome, Ran, Status, call};
use hib_input::WithJournal;
use hib_outside::{Gate, Keeper, Listener, Sink, Source};
use hib_section_calls::{call_bulk, call_collect, call_nodes};
use hib_words::Command;
use std::alloc::{AllocError, Global};
use std::sync::Wait;
use std::thread::Threads;

/// How a run is told, by whether its journal is asked for.
fn telling_of(journal: bool) -> Telling
    ensures { result ≡ telling_of journal }
{
    if journal {
        Telling::JsonLines
    } else {
        Telling::Report
    }
}

/// What the words ask for; none if they have no form.
#[tactic(auto, using(crate::proofs::Asked::few_read))]
fn command_in(alloc: Global, words: &[String]) -> Result<Option<Command>, AllocError>
    ensures asked { IfOk result (λ o. option_map asked_of o ≡ command (map string_bytes words.now)) }
    ensures few { IfOk result (λ o. IfSome o (λ c. HasFew (asked_of c))) }
{
    hib_words::read(alloc, words)
}

/// Does what a command other than `work` asks, which takes no threads.
fn serve_alone<S: Source, W: Sink, K: Keeper, L: Listener>(
    alloc: Global,
    command: &Command,
    source: &mut S,
    out: &mut W,
    lent: Lent<K, L>,
) -> Called<AnyRun, K, L>
    requires { is_alone (asked_of command.now) ≡ true }
    ensures does { Does (asked_of command.now)
        (outside_of S.Source W.Sink K.Keeper L.Listener source.old out.old lent)
        (outside_of S.Source W.Sink K.Keeper L.Listener source.new out.new result.lent)
        result.status result.run }
    ensures usage { result.status ≢ Status.Usage }
{
    let play = |script: Script, lent: Lent<K, L>|
        requires { is_valid script ≡ true }
    { play_script(alloc, script, lent) };
    match command {
        Command::Play { options } => {
            let turns = Turns::Scheduled;
            let telling = telling_of(options.journal);
            call(alloc, &Run { turns, telling }, source, out, lent, play).map(AnyRun::Played)
        }
        Command::Work { .. } => unreachable!(),
        Command::Make { seed, text: false } => {
            let task = Make { seed: *seed };
            call(alloc, &task, &mut NothingLeft, out, lent, play).map(AnyRun::Played)
        }
        Command::Make { seed, text: true } => {
            let task = Print { seed: *seed };
            let made = |script: Script, lent: Lent<K, L>| Ran {
                outcome: Outcome::Over(script),
                lent,
            };
            call(alloc, &task, &mut NothingLeft, out, lent, made).map(AnyRun::Printed)
        }
        Command::Audit => {
            let judge = |input: WithJournal, lent: Lent<K, L>|
                requires { (is_valid input.script ≡ true) × (length input.journal.list ≤ max_journal) }
            { judge_journal(alloc, input, lent) };
            call(alloc, &Judge, source, out, lent, judge).map(AnyRun::Judged)
        }
        Command::Collect => call_collect(alloc, source, out, lent).map(AnyRun::Collected),
        Command::Bulk => call_bulk(alloc, source, out, lent).map(AnyRun::Bulked),
        Command::Nodes => call_nodes(alloc, source, out, lent).map(AnyRun::Noded),
    }
}

/// Does what a command asks, `work` on threads.
fn serve<R: Threads + Wait + Sync, S: Source, W: Sink, K: Keeper + Send, G: Gate, L: Listener>(
    rt: &R,
    alloc: Global,
    command: &Command,
    source: &mut S,
    out: &mut W,
    lent: Lent<K, L>,
    gate: &G,
) -> Called<AnyRun, K, L>
    requires { HasFew (asked_of command.now) }
    ensures does { Does (asked_of command.now)
        (outside_of S.Source W.Sink K.Keeper L.Listener source.old out.old lent)
        (outside_of S.Source W.Sink K.Keeper L.Listener source.new out.new result.lent)
        result.status result.run }
    ensures usage { result.status ≢ Status.Usage }
{
    let Command::Work {
        workers,
        split,
        options,
    } = command
    else {
        return serve_alone(alloc, command, source, out, lent);
    };
    let workers = *workers;
    let telling = telling_of(options.journal);
    if *split {
        let turns = Turns::OnParts(workers);
        let run = |script: Script, lent: Lent<K, L>|
            requires { (is_valid script ≡ true) × (1 ≤ workers) × (workers ≤ max_workers) }
        { split_script(rt, alloc, script, lent, workers, gate) };
        call(alloc, &Run { turns, telling }, source, out, lent, run).map(AnyRun::Played)
    } else {
        let turns = Turns::OnWorkers(workers);
        let run = |script: Script, lent: Lent<K, L>|
            requires { (is_valid script ≡ true) × (1 ≤ workers) × (workers ≤ max_workers) }
        { work_script(rt, alloc, script, lent, workers, gate) };
        call(alloc, &Run { turns, telling }, source, out, lent, run).map(AnyRun::Played)
    }
}

/// Does what the words say, except for `work`, of which the words have no form here; so it takes no lock, and returns.
/// `play` reads a script from the source, runs it over the keeper by its schedule and writes the report of its journal
/// to the sink. `make` makes the script of a number, and runs it and writes that number and the summary; or it writes
/// the script. `audit` reads a script and a journal after it, and says whether the journal is legal. `collect` reads a
/// script and collections after it, runs the script by its schedule and writes the journal with the entries at
/// collections. `bulk` reads a script, and bulk changes and their schedule after it, runs the script with them and
/// writes the journal of both. `nodes` reads a script, and places of its sessions and their schedule after it, runs the
/// script at two nodes and writes its journal. If the words have no form, nothing is read. What was run is handed back
/// with its journal.
///
/// Whatever the status, the journal of a run is legal for the script, from the keeper's tables as they were handed in
/// and the script's rows beside them; its k-th entry has tick k, and the keeper's tables are those that its commits and
/// its bulk changes gave. That of `play` and `make` obeys the law; if such a run came to its end, and the keeper tells
/// tables that fit the script's mapping, each of its entries is well formed. That of `collect` obeys the law of
/// collections if the keeper tells such tables, and that of `bulk` the law of bulk changes, and that of `nodes` the law
/// of two nodes. The listeners hear of each entry in the step that adds it, but for those at collections; a hit there
/// they hear as the list that it stands for. Of `bulk` and `nodes` they hear nothing.
pub fn play_words<S: Source, W: Sink, K: Keeper, L: Listener>(
    alloc: Global,
    words: &[String],
    source: &mut S,
    out: &mut W,
    lent: Lent<K, L>,
) -> Called<AnyRun, K, L>
    ensures { Promised (asked_alone words.now)
        (outside_of S.Source W.Sink K.Keeper L.Listener source.old out.old lent)
        (outside_of S.Source W.Sink K.Keeper L.Listener source.new out.new result.lent)
        result.status result.run }
{
    match command_in(alloc, words) {
        Ok(Some(Command::Work { .. })) => Called::idle(Status::Usage, lent),
        Ok(Some(command)) => serve_alone(alloc, &command, source, out, lent),
        Ok(None) => Called::idle(Status::Usage, lent),
        Err(_) => Called::idle(Status::NoMemory, lent),
    }
}

/// Does what the words say. What `play_words` does it does too; and for `work` it runs the script on workers, who pass
/// the gate before each step. Then it may wait for others, and all that it promises it promises of a return. With
/// `--split` each part stands behind a lock of its own: a tick is the one that is due, by the last ones of its part and
/// of its session, and the listeners hear of the entries after the run. If memory runs out in the run, or it is torn,
/// no run is handed back, and nothing is said of the keeper's rows, of how often it was asked and of the listeners.
pub fn top<R: Threads + Wait + Sync, S: Source, W: Sink, K: Keeper + Send, G: Gate, L: Listener>(
    rt: &R,
    alloc: Global,
    words: &[String],
    source: &mut S,
    out: &mut W,
    lent: Lent<K, L>,
    gate: &G,
) -> Called<AnyRun, K, L>
    ensures { Promised (asked_in words.now)
        (outside_of S.Source W.Sink K.Keeper L.Listener source.old out.old lent)
        (outside_of S.Source W.Sink K.Keeper L.Listener source.new out.new result.lent)
        result.status result.run }
{
    match command_in(alloc, words) {
        Ok(Some(command)) => serve(rt, alloc, &command, source, out, lent, gate),
        Ok(None) => Called::idle(Status::Usage, lent),
        Err(_) => Called::idle(Status::NoMemory, lent),
    }
}
