//! Live sessions on threads: four clerks sell the copies of a book from one stock, until none is left. What a clerk does
//! next hangs on what it was answered, and the steps of the others come between. A commit that comes too late sells
//! nothing, and its clerk looks again. However their steps come, nine copies are sold. With the word `record` the program
//! prints the script that the run amounts to instead: `hib play` plays the same steps.
#![tactic(auto)]

mod clerks;

ghost use denote.Param.Send.{IsSend};
ghost use Rattle.std.specs.Prelude.{◌≡◌, true};
ghost use Rattle.hib_base.specs.Valid.{is_valid};
ghost use Rattle.hib_core.specs.Standing.{origin_over};
ghost use Rattle.hib_listeners.specs.Told.{tells};

use clerks::{Clerks, work_alone};
use hib_base::{Query, Script, Seq};
use hib_journal::Journal;
use hib_listeners::Recorder;
use hib_live_record::record_run;
use hib_live_shared::{Hold, Live, Name, Shared};
use hib_outside::{Keeper, Listener, MemKeeper};
use hib_threads::spread;
use std::alloc::{AllocError, Global};
use std::marker::Brand;
use std::sync::Wait;
use std::thread::Threads;
use std::{env, io};

/// The mapping, with a book of which nine are in stock.
const SHOP: &[u8] = b"hib 1
entity Book read-write versioned 100
column title text
column stock int
row Book 1 v0 \"Dune\" 9
";

/// How many clerks there are.
const CLERKS: u32 = 4;

/// What a day in the shop came to.
#[derive(Drop)]
struct Day {
    /// How many copies were sold.
    sold: usize,
    /// What was asked, as a script.
    asked: Script,
    /// The steps that were made.
    journal: Journal,
}

/// Lets proofs say of a type that its values may go from thread to thread. It does nothing.
fn may_be_sent<T: Send>()
    ensures { IsSend T.row }
{}

/// Has each clerk sell on a thread of its own.
fn take_turns<R: Threads + Wait + Sync, K: Keeper + Send, N: Name + Send + Sync, L: Listener>(
    rt: &R,
    alloc: Global,
    clerks: &Clerks,
    shop: &Shared<K, N, L>,
) {
    may_be_sent::<Query>();
    spread(rt, CLERKS, &move || work_alone(rt, alloc, clerks, shop));
}

/// The clerks sell in the live factory of this name. None if it wasn't opened.
fn sell_in<R: Threads + Wait + Sync, N: Name + Send + Sync, K: Keeper + Send + Drop, L: Listener>(
    rt: &R,
    alloc: Global,
    script: Script,
    keeper: K,
    listeners: Vec<L>,
) -> Option<Day>
    requires script { script ≡ N.script }
    requires valid { is_valid N.script ≡ true }
    requires from { origin_over N.script (K.tables keeper) (K.faults keeper) (K.asked keeper)
        ≡ N.from }
    requires told { tells L.heard L.left listeners.items ≡ N.told }
{
    let Ok(live) = Live::<K, N, L>::open(alloc, script, keeper, listeners) else {
        return None;
    };
    let shop = Shared::new(live, Hold::Step);
    let clerks = Clerks::new();
    take_turns(rt, alloc, &clerks, &shop);
    let (_keeper, asked, journal, _listeners) = shop.close().close();
    Some(Day {
        sold: clerks.sold(),
        asked,
        journal,
    })
}

/// The clerks sell. None if the shop wasn't opened.
fn sell<R: Threads + Wait + Sync, K: Keeper + Send + Drop, L: Listener>(
    rt: &R,
    alloc: Global,
    script: Script,
    keeper: K,
    listeners: Vec<L>,
) -> Option<Day>
    requires { is_valid script ≡ true }
{
    sell_in::<R, Brand, K, L>(rt, alloc, script, keeper, listeners)
}

/// The text of the script that a day amounts to. None if a step of it can't be played again.
fn record(alloc: Global, day: Day) -> Result<Option<Vec<u8>>, AllocError> {
    let Day {
        sold: _,
        mut asked,
        journal,
    } = day;
    match record_run(alloc, &mut asked, journal.as_slice())? {
        None => Ok(Some(hib_print::print(alloc, &asked)?.into_vec())),
        Some(_) => Ok(None),
    }
}

/// Prints the record of a day.
fn print_record(rt: &HostRuntime, day: Day) -> io::Result<()> {
    match record(rt.alloc(), day) {
        Ok(Some(text)) => match String::from_utf8(text) {
            Ok(text) => rt.print(text.as_str()),
            Err(_) => rt.println("a name isn't UTF-8"),
        },
        Ok(None) => rt.println("a step can't be played again"),
        Err(_) => rt.println("memory ran out"),
    }
}

/// Whether the record was asked for.
fn is_record_asked(rt: &HostRuntime) -> io::Result<bool> {
    for word in env::args(rt)?.skip(1) {
        if word.as_str() == "record" {
            return Ok(true);
        }
    }
    Ok(false)
}

fn main(rt: HostRuntime) -> io::Result<()> {
    let alloc = rt.alloc();
    let Ok(script) = hib_script::read(alloc, SHOP) else {
        return rt.println("the shop is no script");
    };
    let keeper = MemKeeper::new(alloc, Seq::new(alloc));
    let nobody: Vec<Recorder> = Vec::new(alloc);
    match sell(&rt, alloc, script, keeper, nobody) {
        None => rt.println("the shop wasn't opened"),
        Some(day) => {
            if is_record_asked(&rt)? {
                print_record(&rt, day)
            } else {
                println!(rt; "sold {}", day.sold)
            }
        }
    }
}
