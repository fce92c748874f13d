// The orders of a script's sessions, tried and told (the word `orders`).
ghost use Rattle.std.specs.Prelude.{◌≡◌, true};
ghost use Rattle.hib_base.specs.Valid.{is_valid};
ghost use Rattle.hib_call.specs.Ends.{Comes};
ghost use Rattle.hib_call.specs.Outside.{Shared, shared_of};
ghost use Rattle.hib_toolbox.specs.Exploring.{exploring, is_any, is_there, limit_of};

use hib_base::Script;
use hib_call::{Lent, Outcome, Ran, SCRIPT_BYTES, Status, Task, tell_text};
use hib_law::rows_cohere;
use hib_order_schedule::{schedules_play_orders, shown_runs_come_again};
use hib_order_stage::{Searched, Watcher, search_orders};
use hib_order_text::{Finding, found_of, text};
use hib_order_tries::{Told, what_is_told_is_so};
use hib_outside::{Keeper, Listener, Sink};
use hib_script::ScriptError;
use std::alloc::Global;

/// A script whose orders were tried.
#[derive(Drop)]
pub struct Explored {
    /// The script.
    pub script: Script,
    /// What the search came to.
    pub told: Told,
}

/// The most orders that are tried.
fn limit_of(at_most: Option<u32>) -> u64
    ensures { result ≡ limit_of at_most }
{
    match at_most {
        None => u64::MAX,
        Some(orders) => u64::from(orders),
    }
}

/// Whether a search found a run that shows this.
pub fn is_there(told: &Told, finding: Finding) -> bool
    ensures { result ≡ is_there told.now.findings finding }
{
    found_of(&told.findings, finding).first.is_some()
}

/// Whether an order ends badly.
pub fn is_any(run: &Explored) -> bool
    ensures { result ≡ is_any run.now.told.findings }
{
    is_there(&run.told, Finding::StaleHit)
        || is_there(&run.told, Finding::OldList)
        || is_there(&run.told, Finding::LostUpdate)
        || is_there(&run.told, Finding::UnsoundKey)
        || is_there(&run.told, Finding::RefusedCommit)
}

/// Reads a script, tries the orders of its sessions and writes what was found.
#[derive(Clone, Copy, Debug, PartialEq, Eq)]
pub struct Orders {
    /// The most switches of an order.
    pub switches: u32,
    /// The most sessions that are killed in an order.
    pub kills: u32,
    /// The most orders that are tried, if that is bounded.
    pub at_most: Option<u32>,
}

/// Tries the orders of a script's sessions. Nothing that is lent is touched. The watcher hears of runs that are played; no
/// clause says of which.
pub fn tried<W: Watcher + Drop>(
    alloc: Global,
    orders: Orders,
    script: Script,
    watcher: W,
) -> Outcome<Explored>
    requires { is_valid script ≡ true }
    ensures { (lent : Shared)
        → Comes (exploring orders.switches orders.kills orders.at_most) script lent lent result }
{
    what_is_told_is_so();
    schedules_play_orders();
    shown_runs_come_again();
    rows_cohere();
    let limit = limit_of(orders.at_most);
    match search_orders(
        alloc,
        script,
        orders.kills as usize,
        orders.switches as usize,
        limit,
        watcher,
    ) {
        Ok(searched) => {
            let Searched { told, script } = searched;
            Outcome::Over(Explored { script, told })
        }
        Err(_) => Outcome::Stopped(Status::NoMemory, None),
    }
}

/// Tries the orders of a script's sessions, and hands back what is lent as it is.
pub fn explore<K: Keeper, L: Listener, W: Watcher + Drop>(
    alloc: Global,
    orders: Orders,
    script: Script,
    watcher: W,
    lent: Lent<K, L>,
) -> Ran<Explored, K, L>
    requires { is_valid script ≡ true }
    ensures { Comes (exploring orders.switches orders.kills orders.at_most) script
        (shared_of K.Keeper L.Listener lent) (shared_of K.Keeper L.Listener result.lent) result.outcome }
{
    let outcome = tried(alloc, orders, script, watcher);
    Ran { outcome, lent }
}

impl Task for Orders {
    ghost use Rattle.std.specs.Prelude.{◌≡◌, true};
    ghost use Rattle.hib_base.specs.Valid.{is_valid};
    ghost use Rattle.hib_toolbox.specs.Exploring.{exploring};

    type Input = Script;

    type Run = Explored;

    ghost command = { λ orders. exploring orders.switches orders.kills orders.at_most };

    ghost is_sound = { λ script. is_valid script ≡ true };

    fn limit(&self) -> usize {
        SCRIPT_BYTES
    }

    fn read(&self, alloc: Global, text: &[u8]) -> Result<Script, ScriptError> {
        hib_script::read(alloc, text)
    }

    fn tell<W: Sink>(&self, alloc: Global, run: &Explored, out: &mut W) -> Status {
        match text(alloc, &run.script, self.kills, self.switches, &run.told) {
            Ok(text) => tell_text(text.as_slice(), out),
            Err(_) => Status::NoMemory,
        }
    }
}
