// The call of each word of the tools: what its task reads, what is done with that, and what is said beside the status.
ghost use Rattle.std.specs.Prelude.{◌≡◌, ◌≤◌, ℕ, None, Some, length, true};
ghost use Rattle.hib_base.specs.Valid.{is_valid};
ghost use Rattle.hib_call.specs.Limits.{max_journal};
ghost use Rattle.hib_call.specs.Outside.{outside_of};
ghost use Rattle.hib_toolbox.specs.Call.{DoesTool};
ghost use Rattle.hib_toolbox.specs.Exploring.{IsSaid, IsSaidOf, finding_numbered, said_of_shown};
ghost use Rattle.hib_toolbox.specs.Repeating.{IsSaidOfRepeat};
ghost use Rattle.hib_words.specs.declared.tools.Tool.{Tool};

use crate::ended::{Ended, Said};
use crate::flat::Flat;
use crate::orders::{Explored, Orders, explore, is_any, is_there};
use crate::repeat::{Repeat, Repeatable, Repeated, repeat_run};
use crate::report::{Report, as_read};
use crate::rows::{Rows, list_rows};
use crate::show::{Show, Shown, explore_for};
use crate::spans::Trace;
use crate::states::{Stating, state_journal};
use hib_call::{Called, Lent, Status, call};
use hib_order_stage::Watcher;
use hib_order_text::Finding;
use hib_outside::{Keeper, Listener, Sink, Source};
use std::alloc::Global;

/// How a call ended beside which nothing is said.
fn ended<R: Drop, K, L>(called: Called<R, K, L>) -> Ended<K, L>
    ensures status { result.status ≡ called.status }
    ensures said { result.said ≡ Said.Nothing }
    ensures lent { result.lent ≡ called.lent }
{
    let Called {
        status,
        lent,
        run: _,
    } = called;
    Ended {
        status,
        said: Said::Nothing,
        lent,
    }
}

/// What is said of a journal that was to be repeated, beside how its call ended.
fn said_of_repeat(status: &Status, run: &Option<Repeated>) -> Said
    ensures { IsSaidOfRepeat status.now run.now result }
{
    match status {
        Status::Done => match run {
            Some(run) => match run.repeatable {
                Repeatable::Whole => Said::Nothing,
                Repeatable::Foreign(entry) => Said::Foreign(entry),
                Repeatable::Long => Said::Long,
            },
            None => Said::Nothing,
        },
        _ => Said::Nothing,
    }
}

/// What is said of a search beside how its call ended.
fn said_of(status: &Status, run: &Option<Explored>) -> Said
    ensures { IsSaid status.now run.now result }
{
    match status {
        Status::Done => match run {
            Some(run) => {
                if is_any(run) {
                    Said::Found
                } else {
                    Said::Nothing
                }
            }
            None => Said::Nothing,
        },
        _ => Said::Nothing,
    }
}

/// What is said of a search for a finding beside how its call ended.
fn said_of_finding(finding: Finding, status: &Status, run: &Option<Shown>) -> Said
    ensures { IsSaidOf finding status.now run.now result }
{
    match status {
        Status::Done => match run {
            Some(run) => said_of_shown(finding, run),
            None => Said::Nothing,
        },
        _ => Said::Nothing,
    }
}

/// What is said of a finding that was to be shown.
fn said_of_shown(finding: Finding, run: &Shown) -> Said
    ensures { result ≡ said_of_shown finding run.now }
{
    if !is_there(&run.told, finding) {
        return Said::Missing;
    }
    if run.readable {
        Said::Nothing
    } else {
        Said::Long
    }
}

/// Writes the report of a journal.
pub fn write_report<S: Source, W: Sink, K: Keeper, L: Listener>(
    alloc: Global,
    source: &mut S,
    out: &mut W,
    lent: Lent<K, L>,
) -> Ended<K, L>
    ensures { DoesTool Tool.Report
        (outside_of S.Source W.Sink K.Keeper L.Listener source.old out.old lent)
        (outside_of S.Source W.Sink K.Keeper L.Listener source.new out.new result.lent)
        result.status result.said }
{
    let called = call(alloc, &Report, source, out, lent, |input, lent| {
        as_read(input, lent)
    });
    ended(called)
}

/// Writes a journal as columns, or as flat objects.
pub fn write_flat<S: Source, W: Sink, K: Keeper, L: Listener>(
    alloc: Global,
    csv: bool,
    source: &mut S,
    out: &mut W,
    lent: Lent<K, L>,
) -> Ended<K, L>
    ensures { DoesTool (Tool.Flat csv)
        (outside_of S.Source W.Sink K.Keeper L.Listener source.old out.old lent)
        (outside_of S.Source W.Sink K.Keeper L.Listener source.new out.new result.lent)
        result.status result.said }
{
    let called = call(alloc, &Flat { csv }, source, out, lent, |input, lent| {
        as_read(input, lent)
    });
    ended(called)
}

/// Writes a journal as a trace.
pub fn write_spans<S: Source, W: Sink, K: Keeper, L: Listener>(
    alloc: Global,
    jaeger: bool,
    source: &mut S,
    out: &mut W,
    lent: Lent<K, L>,
) -> Ended<K, L>
    ensures { DoesTool (Tool.Spans jaeger)
        (outside_of S.Source W.Sink K.Keeper L.Listener source.old out.old lent)
        (outside_of S.Source W.Sink K.Keeper L.Listener source.new out.new result.lent)
        result.status result.said }
{
    let called = call(alloc, &Trace { jaeger }, source, out, lent, |input, lent| {
        as_read(input, lent)
    });
    ended(called)
}

/// Writes the states of a journal.
pub fn write_states<S: Source, W: Sink, K: Keeper, L: Listener>(
    alloc: Global,
    source: &mut S,
    out: &mut W,
    lent: Lent<K, L>,
) -> Ended<K, L>
    ensures { DoesTool Tool.States
        (outside_of S.Source W.Sink K.Keeper L.Listener source.old out.old lent)
        (outside_of S.Source W.Sink K.Keeper L.Listener source.new out.new result.lent)
        result.status result.said }
{
    let called = call(
        alloc,
        &Stating,
        source,
        out,
        lent,
        |input, lent|
            requires valid { is_valid input.script ≡ true }
            requires few { length input.journal.list ≤ max_journal }
        { state_journal(alloc, input, lent) },
    );
    ended(called)
}

/// Writes the rows that the keeper has.
pub fn write_rows<S: Source, W: Sink, K: Keeper, L: Listener>(
    alloc: Global,
    source: &mut S,
    out: &mut W,
    lent: Lent<K, L>,
) -> Ended<K, L>
    ensures { DoesTool Tool.Rows
        (outside_of S.Source W.Sink K.Keeper L.Listener source.old out.old lent)
        (outside_of S.Source W.Sink K.Keeper L.Listener source.new out.new result.lent)
        result.status result.said }
{
    let called = call(alloc, &Rows, source, out, lent, |script, lent| {
        list_rows(alloc, script, lent)
    });
    ended(called)
}

/// Tries the orders of a script's sessions.
pub fn try_orders<S: Source, W: Sink, K: Keeper, L: Listener, H: Watcher + Drop>(
    alloc: Global,
    orders: Orders,
    source: &mut S,
    out: &mut W,
    lent: Lent<K, L>,
    watcher: H,
) -> Ended<K, L>
    ensures { DoesTool (Tool.Orders orders.switches orders.kills orders.at_most None)
        (outside_of S.Source W.Sink K.Keeper L.Listener source.old out.old lent)
        (outside_of S.Source W.Sink K.Keeper L.Listener source.new out.new result.lent)
        result.status result.said }
{
    let Called { status, lent, run } = call(
        alloc,
        &orders,
        source,
        out,
        lent,
        |script, lent|
            requires { is_valid script ≡ true }
        { explore(alloc, orders, script, watcher, lent) },
    );
    Ended {
        said: said_of(&status, &run),
        status,
        lent,
    }
}

/// Tries the orders of a script's sessions, and writes the script with the schedule of a finding.
pub fn show_finding<S: Source, W: Sink, K: Keeper, L: Listener, H: Watcher + Drop>(
    alloc: Global,
    show: Show,
    source: &mut S,
    out: &mut W,
    lent: Lent<K, L>,
    watcher: H,
) -> Ended<K, L>
    ensures { (number : ℕ) → finding_numbered number ≡ show.finding
        → DoesTool (Tool.Orders show.orders.switches show.orders.kills show.orders.at_most (Some number))
        (outside_of S.Source W.Sink K.Keeper L.Listener source.old out.old lent)
        (outside_of S.Source W.Sink K.Keeper L.Listener source.new out.new result.lent)
        result.status result.said }
{
    let Called { status, lent, run } = call(
        alloc,
        &show,
        source,
        out,
        lent,
        |script, lent|
            requires { is_valid script ≡ true }
        { explore_for(alloc, show, script, watcher, lent) },
    );
    Ended {
        said: said_of_finding(show.finding, &status, &run),
        status,
        lent,
    }
}

/// Writes the script whose schedule repeats a journal.
pub fn repeat_journal<S: Source, W: Sink, K: Keeper, L: Listener>(
    alloc: Global,
    source: &mut S,
    out: &mut W,
    lent: Lent<K, L>,
) -> Ended<K, L>
    ensures { DoesTool Tool.Schedule
        (outside_of S.Source W.Sink K.Keeper L.Listener source.old out.old lent)
        (outside_of S.Source W.Sink K.Keeper L.Listener source.new out.new result.lent)
        result.status result.said }
{
    let Called { status, lent, run } = call(alloc, &Repeat, source, out, lent, |input, lent| {
        repeat_run(alloc, input, lent)
    });
    Ended {
        said: said_of_repeat(&status, &run),
        status,
        lent,
    }
}
