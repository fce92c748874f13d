// A script with another schedule: the one that plays a finding, or that repeats a journal.
ghost use Rattle.hib_base.specs.Valid.{is_order_in, is_valid};
ghost use Rattle.hib_order_schedule.specs.Schedules.{is_run_or_kill, may_be_schedule, with_schedule};
ghost use Rattle.std.specs.Prelude.{◌≡◌, ◌&&◌, length, true};

use hib_base::{Order, Orders, Script};

/// The most orders of a schedule.
const MOST_ORDERS: usize = 20_000;

/// The most steps of a run.
const MOST_STEPS: u32 = 1_000_000;

/// Whether an order is a run or a kill that the schedule of a script with this many sessions may have.
fn may_be_run_or_kill(sessions: usize, order: Order) -> bool
    ensures { result ≡ (is_run_or_kill order && is_order_in sessions order) }
{
    match order {
        Order::Run { session, steps } => {
            (session.0 as usize) < sessions && 1 <= steps && steps <= MOST_STEPS
        }
        Order::Kill { session } => (session.0 as usize) < sessions,
        Order::Evict { .. } | Order::Restart => false,
    }
}

/// Whether a script may have these orders as its schedule: each is a run of one of its sessions, of 1 to 1,000,000
/// steps, or kills one of them, and there are 20,000 at most.
pub fn may_have_schedule(script: &Script, schedule: &[Order]) -> bool
    ensures { result ≡ may_be_schedule (length script.now.sessions) schedule.now }
{
    let sessions = script.sessions.len();
    schedule.len() <= MOST_ORDERS
        && schedule
            .iter()
            .all(|order| may_be_run_or_kill(sessions, *order))
}

/// The script with another schedule. If it is valid and may have this one, it stays valid.
pub fn with_schedule(script: Script, schedule: Orders) -> Script
    ensures value { result ≡ with_schedule script schedule }
    ensures valid { is_valid script ≡ true
        → may_be_schedule (length script.sessions) schedule ≡ true
        → is_valid result ≡ true }
{
    let mut script = script;
    script.schedule = schedule;
    script
}
