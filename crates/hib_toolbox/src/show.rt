// The script with the schedule of an order that has a finding (the word `orders` with `--show`).
ghost use Rattle.std.specs.Prelude.{◌≡◌, ◌&&◌, IfOk, true};
ghost use Rattle.hib_base.specs.Valid.{is_valid};
ghost use Rattle.hib_call.specs.Ends.{Comes};
ghost use Rattle.hib_base.specs.declared.scripts.Script.{Script};
ghost use Rattle.hib_call.specs.Outside.{Shared, shared_of};
ghost use Rattle.hib_order_tries.specs.declared.found.First.{First};
ghost use Rattle.hib_order_text.specs.Texts.{found_of};
ghost use Rattle.hib_print.specs.Printed.{printed};
ghost use Rattle.hib_toolbox.specs.Exploring.{exploring, finding_numbered, is_there, script_shown, showing};
ghost use Rattle.hib_toolbox.specs.Written.{is_script};

use crate::orders::{Explored, Orders, is_there, tried};
use crate::written::is_read_again;
use hib_base::{Script, Seq};
use hib_call::{Lent, Outcome, Ran, SCRIPT_BYTES, Status, Task, tell_text};
use hib_order_schedule::{schedule_of, with_schedule};
use hib_order_stage::Watcher;
use hib_order_text::{Finding, found_of};
use hib_order_tries::{First, Told};
use hib_outside::{Keeper, Listener, Sink};
use hib_script::ScriptError;
use std::alloc::{AllocError, Global};

/// The finding of a number, 1 to 5.
pub fn finding_numbered(number: u32) -> Finding
    ensures { result ≡ finding_numbered number }
{
    match number {
        1 => Finding::StaleHit,
        2 => Finding::OldList,
        3 => Finding::LostUpdate,
        4 => Finding::UnsoundKey,
        _ => Finding::RefusedCommit,
    }
}

/// Reads a script, tries the orders of its sessions and writes the script with the schedule of one that has a finding,
/// if one was found and this is a script's text.
#[derive(Clone, Copy, Debug, PartialEq, Eq)]
pub struct Show {
    /// Which orders are tried.
    pub orders: Orders,
    /// What is looked for.
    pub finding: Finding,
}

/// A script whose orders were tried, with the schedule of one that has a finding, if one was found.
#[derive(Drop)]
pub struct Shown {
    /// The script.
    pub script: Script,
    /// What the search came to.
    pub told: Told,
    /// Whether the text of the script is a script's.
    pub readable: bool,
}

/// The script with the schedule that plays an order. An order of 2^32 steps or more is answered as want of memory.
fn script_shown(alloc: Global, script: Script, first: &Option<First>) -> Result<Script, AllocError>
    ensures { IfOk result (λ s. s ≡ script_shown script first.now) }
{
    let Some(first) = first else {
        return Ok(script);
    };
    if first.order.len() >= 4_294_967_296 {
        return Err(AllocError);
    }
    let schedule = schedule_of(alloc, first.order.as_slice())?;
    Ok(with_schedule(script, Seq::from_vec(schedule)))
}

/// Puts the schedule of the finding into the script whose orders were tried.
fn with_its_schedule(alloc: Global, finding: Finding, run: Explored) -> Result<Shown, AllocError>
    ensures told { IfOk result (λ s. s.told ≡ run.told) }
    ensures script { IfOk result (λ s.
        s.script ≡ script_shown run.script (found_of run.told.findings finding).first) }
    ensures readable { IfOk result (λ s. s.readable ≡ is_script (printed s.script)) }
{
    let Explored { script, told } = run;
    let script = script_shown(alloc, script, &found_of(&told.findings, finding).first)?;
    let readable = is_read_again(alloc, &script)?;
    Ok(Shown {
        script,
        told,
        readable,
    })
}

/// Shows the finding of a search that came so far. Nothing that is lent is touched.
fn with_finding(alloc: Global, show: Show, outcome: Outcome<Explored>) -> Outcome<Shown>
    ensures { (script : Script) (lent : Shared)
        → Comes (exploring show.orders.switches show.orders.kills show.orders.at_most) script lent lent outcome
        → Comes (showing show.orders.switches show.orders.kills show.orders.at_most show.finding) script lent lent result }
{
    match outcome {
        Outcome::Over(run) => match with_its_schedule(alloc, show.finding, run) {
            Ok(run) => Outcome::Over(run),
            Err(_) => Outcome::Stopped(Status::NoMemory, None),
        },
        Outcome::Stopped(_, _) => Outcome::Stopped(Status::NoMemory, None),
    }
}

/// Tries the orders of a script's sessions, and hands back what is lent as it is.
pub fn explore_for<K: Keeper, L: Listener, W: Watcher + Drop>(
    alloc: Global,
    show: Show,
    script: Script,
    watcher: W,
    lent: Lent<K, L>,
) -> Ran<Shown, K, L>
    requires { is_valid script ≡ true }
    ensures { Comes (showing show.orders.switches show.orders.kills show.orders.at_most show.finding) script
        (shared_of K.Keeper L.Listener lent) (shared_of K.Keeper L.Listener result.lent) result.outcome }
{
    let outcome = tried(alloc, show.orders, script, watcher);
    let outcome = with_finding(alloc, show, outcome);
    Ran { outcome, lent }
}

/// Whether a finding is there, and the text of the script with its schedule is a script's.
fn is_told(run: &Shown, finding: Finding) -> bool
    ensures { result ≡ (is_there run.now.told.findings finding && run.now.readable) }
{
    is_there(&run.told, finding) && run.readable
}

impl Task for Show {
    ghost use Rattle.std.specs.Prelude.{◌≡◌, true};
    ghost use Rattle.hib_base.specs.Valid.{is_valid};
    ghost use Rattle.hib_toolbox.specs.Exploring.{showing};

    type Input = Script;

    type Run = Shown;

    ghost command = { λ show. showing show.orders.switches show.orders.kills show.orders.at_most show.finding };

    ghost is_sound = { λ script. is_valid script ≡ true };

    fn limit(&self) -> usize {
        SCRIPT_BYTES
    }

    fn read(&self, alloc: Global, text: &[u8]) -> Result<Script, ScriptError> {
        hib_script::read(alloc, text)
    }

    fn tell<W: Sink>(&self, alloc: Global, run: &Shown, out: &mut W) -> Status {
        if !is_told(run, self.finding) {
            return tell_text(b"", out);
        }
        match hib_print::print(alloc, &run.script) {
            Ok(text) => tell_text(text.as_slice(), out),
            Err(_) => Status::NoMemory,
        }
    }
}
