// The call that the tools' program makes with its words.
ghost use Rattle.std.specs.Prelude.{◌≡◌, ◌≢◌, map, string_bytes};
ghost use Rattle.hib_call.specs.Outside.{outside_of};
ghost use Rattle.hib_toolbox.specs.Call.{DoesTool, Promised};
ghost use Rattle.hib_words.specs.Tools.{tool_command};

use crate::calls::{
    repeat_journal, show_finding, try_orders, write_flat, write_report, write_rows, write_spans,
    write_states,
};
use crate::ended::{Ended, Said};
use crate::orders::Orders;
use crate::show::{Show, finding_numbered};
use hib_call::{Lent, Status};
use hib_order_stage::Watcher;
use hib_outside::{Keeper, Listener, Sink, Source};
use hib_words::{Tool, read_tool};
use std::alloc::Global;

/// Does what a word of the tools asks.
fn serve<S: Source, W: Sink, K: Keeper, L: Listener, H: Watcher + Drop>(
    alloc: Global,
    tool: Tool,
    source: &mut S,
    out: &mut W,
    lent: Lent<K, L>,
    watcher: H,
) -> Ended<K, L>
    ensures does { DoesTool tool
        (outside_of S.Source W.Sink K.Keeper L.Listener source.old out.old lent)
        (outside_of S.Source W.Sink K.Keeper L.Listener source.new out.new result.lent)
        result.status result.said }
    ensures usage { result.status ≢ Status.Usage }
{
    match tool {
        Tool::Report => write_report(alloc, source, out, lent),
        Tool::Flat { csv } => write_flat(alloc, csv, source, out, lent),
        Tool::Spans { jaeger } => write_spans(alloc, jaeger, source, out, lent),
        Tool::Schedule => repeat_journal(alloc, source, out, lent),
        Tool::States => write_states(alloc, source, out, lent),
        Tool::Rows => write_rows(alloc, source, out, lent),
        Tool::Orders {
            switches,
            kills,
            at_most,
            show,
        } => {
            let orders = Orders {
                switches,
                kills,
                at_most,
            };
            match show {
                None => try_orders(alloc, orders, source, out, lent, watcher),
                Some(number) => {
                    let finding = finding_numbered(number);
                    show_finding(alloc, Show { orders, finding }, source, out, lent, watcher)
                }
            }
        }
    }
}

/// How a call ended in which nothing was done.
fn ended_idle<K, L>(status: Status, lent: Lent<K, L>) -> Ended<K, L>
    ensures status { result.status ≡ status }
    ensures said { result.said ≡ Said.Nothing }
    ensures lent { result.lent ≡ lent }
{
    Ended {
        status,
        said: Said::Nothing,
        lent,
    }
}

/// Does what the words ask of the tools, and hands back what is lent. `orders` reads a script, tries the orders of its
/// sessions and writes what was found, or the script with the schedule of a finding. `rows` reads a script and writes
/// the rows that the keeper has of its entities. The others read a script and a journal after it: `report` writes the
/// report of the journal, `flat` its entries with a member for each thing, `schedule` the script whose schedule repeats
/// it, `spans` a trace, `states` the state after each entry. If the words have no form, nothing is read and nothing
/// written. The watcher hears of runs that `orders` plays; no clause says of which.
pub fn tools<S: Source, W: Sink, K: Keeper, L: Listener, H: Watcher + Drop>(
    alloc: Global,
    words: &[String],
    source: &mut S,
    out: &mut W,
    lent: Lent<K, L>,
    watcher: H,
) -> Ended<K, L>
    ensures { Promised (tool_command (map string_bytes words.now))
        (outside_of S.Source W.Sink K.Keeper L.Listener source.old out.old lent)
        (outside_of S.Source W.Sink K.Keeper L.Listener source.new out.new result.lent)
        result.status result.said }
{
    match read_tool(alloc, words) {
        Ok(Some(tool)) => serve(alloc, tool, source, out, lent, watcher),
        Ok(None) => ended_idle(Status::Usage, lent),
        Err(_) => ended_idle(Status::NoMemory, lent),
    }
}
