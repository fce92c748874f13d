//! The factory as a library: two clerks sell the same book in turns, and a listener counts the sales that came too
//! late. The journal's lines are printed, and then that count.
#![tactic(auto)]

ghost use Rattle.std.specs.Prelude.{◌≡◌, true};
ghost use Rattle.hib_base.specs.Valid.{is_valid};
ghost use Rattle.hib_core.specs.Standing.{origin_over};
ghost use Rattle.hib_listeners.specs.Told.{tells};

use hib_base::{Commit, Entry, Reply, Script, Seq, SessionNo};
use hib_core::{Factory, Name};
use hib_journal::Journal;
use hib_outside::{Heard, Keeper, Listener, MemKeeper};
use std::alloc::{AllocError, Global};
use std::io;
use std::marker::Brand;

/// The mapping, with a book of which three are in stock, and what each clerk does.
const SHOP: &[u8] = b"hib 1
entity Book read-write versioned 100
column title text
column stock int
row Book 1 v0 \"Dune\" 3
session a
find Book 1
set Book 1 stock 2
commit
end
session b
find Book 1
set Book 1 stock 1
commit
end
";

/// Which session goes on, and for how many steps.
const TURNS: &[(u32, u32)] = &[(0, 5), (1, 3), (0, 2), (1, 2), (0, 5), (1, 5)];

/// Counts the commits that came too late, since another session had changed the row.
#[derive(Drop)]
struct Late {
    count: u64,
}

impl Listener for Late {
    ghost use Rattle.std.specs.Prelude.{None};

    ghost heard = { λ _. None };

    ghost left = { λ _. None };

    fn hear(&mut self, _alloc: Global, entry: &Entry) -> Heard {
        if let Reply::Commit(Commit::Stale { .. }) = &entry.reply {
            self.count = self.count.saturating_add(1);
        }
        Heard::Stay
    }

    fn nth(&self, _i: usize) -> Option<&Entry> {
        None
    }
}

/// Lets the clerks go on in turns. If memory runs out the steps so far stand.
fn take_turns<N: Name, K: Keeper, L: Listener>(
    alloc: Global,
    factory: &mut Factory<K, N, L>,
) -> Result<(), AllocError> {
    for (session, steps) in TURNS {
        factory.run_steps(alloc, SessionNo(*session), *steps)?;
    }
    Ok(())
}

/// What came of the sale.
#[derive(Drop)]
struct Sold<L> {
    script: Script,
    journal: Journal,
    listeners: Vec<L>,
}

/// Lets the clerks sell in the factory of this name. None if it wasn't opened.
fn sell_in<N: Name, K: Keeper + Drop, L: Listener>(
    alloc: Global,
    script: Script,
    keeper: K,
    listeners: Vec<L>,
) -> Result<Option<Sold<L>>, AllocError>
    requires script { script ≡ N.script }
    requires valid { is_valid N.script ≡ true }
    requires from { origin_over N.script (K.tables keeper) (K.faults keeper) (K.asked keeper)
        ≡ N.from }
    requires told { tells L.heard L.left listeners.items ≡ N.told }
{
    let Ok(mut factory) = Factory::<K, N, L>::open(alloc, script, keeper, listeners) else {
        return Ok(None);
    };
    let took = take_turns(alloc, &mut factory);
    let (_keeper, script, journal, listeners) = factory.close();
    took?;
    Ok(Some(Sold {
        script,
        journal,
        listeners,
    }))
}

/// Lets the clerks sell in a factory. None if it wasn't opened.
fn sell<K: Keeper + Drop, L: Listener>(
    alloc: Global,
    script: Script,
    keeper: K,
    listeners: Vec<L>,
) -> Result<Option<Sold<L>>, AllocError>
    requires { is_valid script ≡ true }
{
    sell_in::<Brand, K, L>(alloc, script, keeper, listeners)
}

/// Prints the lines of the journal, and how many sales came too late.
fn show(out: &impl Print, alloc: Global, sold: &Sold<Late>) -> io::Result<()> {
    for entry in sold.journal.as_slice() {
        let line = hib_report::line(alloc, &sold.script, entry)?;
        out.println(String::from_utf8_lossy(alloc, line.as_slice())?.as_str())?;
    }
    for late in &sold.listeners {
        println!(out; "too late: {}", late.count)?;
    }
    Ok(())
}

fn main(rt: HostRuntime) -> io::Result<()> {
    let alloc = rt.alloc();
    let Ok(script) = hib_script::read(alloc, SHOP) else {
        return rt.println("the shop is no script");
    };
    let keeper = MemKeeper::new(alloc, Seq::new(alloc));
    let mut listeners = Vec::new(alloc);
    listeners.push(Late { count: 0 })?;
    match sell(alloc, script, keeper, listeners)? {
        Some(sold) => show(&rt, alloc, &sold),
        None => rt.println("the factory wasn't opened"),
    }
}
