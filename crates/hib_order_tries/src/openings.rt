// The kills that may come at the places of an order: those of the sessions that are open there.
ghost use Rattle.hib_order_law.specs.Orders.{comes, is_kill_step, kills, whose};
ghost use Rattle.hib_order_tries.specs.Found.{IsBelow};
ghost use Rattle.hib_order_tries.specs.Left.{AreOpenings, open_with, turn_of};
ghost use Rattle.hib_order_tries.specs.Tail.{AreKills};
ghost use Rattle.std.specs.List.{filter};
ghost use Rattle.std.specs.Prelude.{◌≡◌, ◌==◌, ℕ, [], IfOk, length, map, not, slice_index_or};

use hib_order_law::{Step, Turn};
use std::alloc::{AllocError, Global};

fn is_kill(step: Step) -> bool
    ensures { result ≡ is_kill_step step }
{
    match step {
        Step::Own(_session) => false,
        Step::Kill(_session) => true,
    }
}

/// How many steps of an order kill a session.
fn count_kills(order: &[Step]) -> usize
    ensures { result ≡ kills order.now }
{
    let mut count = 0;
    for place in 0..order.len() {
        if is_kill(order[place]) {
            count += 1;
        }
    }
    count
}

/// Whether an order kills fewer sessions than may be killed. If none may, then the order isn't looked at.
pub fn may_kill(order: &[Step], most_kills: usize) -> bool
    ensures { IsBelow (kills order.now) most_kills result }
{
    most_kills > 0 && count_kills(order) < most_kills
}

/// What a step does to its session.
fn turn_of(step: Step, turn: Turn) -> Turn
    ensures { result ≡ turn_of step turn }
{
    match step {
        Step::Own(_session) => turn,
        Step::Kill(_session) => Turn::Closes,
    }
}

/// The steps of all sessions but one.
fn without(alloc: Global, steps: &[Step], session: u32) -> Result<Vec<Step>, AllocError>
    ensures { IfOk result (λ v. v.items ≡ filter (λ t. not (whose t == session)) steps.now) }
{
    let mut others = Vec::new(alloc);
    for place in 0..steps.len() {
        if steps[place].session() != session {
            others.push(steps[place])?;
        }
    }
    Ok(others)
}

/// The kills of the sessions that are open after a step, by those of the sessions that are open before it.
fn opened(alloc: Global, olds: &[Step], step: Step, turn: Turn) -> Result<Vec<Step>, AllocError>
    ensures each { IfOk result (λ v. AreKills olds.now → AreKills v.items) }
    ensures all { IfOk result (λ v. (s : ℕ)
        → comes s v.items ≡ open_with s step turn (comes s olds.now)) }
{
    match turn_of(step, turn) {
        Turn::GoesOn => olds.to_vec(alloc),
        Turn::Closes => without(alloc, olds, step.session()),
        Turn::Opens => {
            let mut steps = without(alloc, olds, step.session())?;
            steps.push(Step::Kill(step.session()))?;
            Ok(steps)
        }
    }
}

/// The kills that may come at each place of an order, the one after its last step too. There are none if none may come.
pub fn openings(
    alloc: Global,
    order: &[Step],
    turns: &[Turn],
    may_kill: bool,
) -> Result<Vec<Vec<Step>>, AllocError>
    requires { length turns.now ≡ length order.now }
    ensures { IfOk result (λ v. AreOpenings may_kill order.now turns.now
        (map (λ x. x.items) v.items)) }
{
    let mut places = Vec::new(alloc);
    if !may_kill {
        return Ok(places);
    }
    places.push(Vec::new(alloc))?;
    for place in 0..order.len() {
        let next = opened(alloc, places[place].as_slice(), order[place], turns[place])?;
        places.push(next)?;
    }
    Ok(places)
}

/// The kills that may come at one place.
pub fn kills_at(openings: &[Vec<Step>], place: usize) -> &[Step]
    ensures { result.now ≡ slice_index_or (map (λ v. v.items) openings.now) place [] }
{
    match openings.get(place) {
        None => &[],
        Some(steps) => steps.as_slice(),
    }
}
