// The runs and kills of an order of sessions, which are the lines of its schedule. A run is a number of steps that one
// session makes in a row.
ghost use Rattle.hib_order_schedule.specs.Schedules.{before_tail, in_row, rises, runs_of, shown};
ghost use Rattle.std.specs.Prelude.{◌≡◌, ◌<◌, ◌≤◌, ◌^◌, ◌∷◌, IfOk, drop, length, take, true};

use hib_base::{Order, SessionNo};
use hib_order_law::Step;
use std::alloc::{AllocError, Global};

/// How many steps this session makes in a row at the front of an order.
fn steps_in_row(session: u32, order: &[Step]) -> usize
    ensures row { result ≡ in_row session order.now }
    ensures inside { result ≤ length order.now }
{
    for place in 0..order.len() {
        match order[place] {
            Step::Own(next) if next == session => {}
            Step::Own(_) | Step::Kill(_) => return place,
        }
    }
    order.len()
}

/// The runs and kills of an order, all of them. Fails for want of memory alone.
pub fn runs_of(alloc: Global, order: &[Step]) -> Result<Vec<Order>, AllocError>
    requires { length order.now < 2 ^ 32 }
    ensures { IfOk result (λ v. v.items ≡ runs_of order.now) }
{
    let mut runs = Vec::new(alloc);
    let mut done = 0;
    while done < order.len() {
        match order[done] {
            Step::Own(session) => {
                let steps = steps_in_row(session, &order[done..]);
                runs.push(Order::Run {
                    session: SessionNo(session),
                    steps: steps as u32,
                })?;
                done += steps;
            }
            Step::Kill(session) => {
                runs.push(Order::Kill {
                    session: SessionNo(session),
                })?;
                done += 1;
            }
        }
    }
    Ok(runs)
}

/// Whether a step may stand before this tail, which must rise: in such a tail each session goes on to its end, in order
/// of number.
fn may_rise(step: Step, tail: &[Step]) -> bool
    requires { rises tail.now ≡ true }
    ensures { result ≡ rises (step ∷ tail.now) }
{
    match step {
        Step::Own(session) => tail.is_empty() || session <= tail[0].session(),
        Step::Kill(_) => false,
    }
}

/// Where the longest tail of an order begins that rises. The schedule needn't say it: after its orders `hib play` does
/// the same.
fn tail_place(order: &[Step]) -> usize
    ensures front { take result order.now ≡ before_tail order.now }
    ensures inside { result ≤ length order.now }
{
    for gone in 0..order.len() {
        let at = order.len() - gone;
        if !may_rise(order[at - 1], &order[at..]) {
            return at;
        }
    }
    0
}

/// The runs and kills that a schedule has to say to play an order: those before the longest tail that brings each
/// session to its end in order of number. Fails for want of memory alone.
pub fn schedule_of(alloc: Global, order: &[Step]) -> Result<Vec<Order>, AllocError>
    requires { length order.now < 2 ^ 32 }
    ensures { IfOk result (λ v. v.items ≡ shown order.now) }
{
    let front = &order[..tail_place(order)];
    runs_of(alloc, front)
}
