// The schedule of an order, as lines to be pasted into its script. An order is here a list of steps; a line is one of a
// schedule.
ghost use Rattle.hib_base.specs.declared.scripts.Order.{Order};
ghost use Rattle.hib_order_text.specs.Texts.{line_text, order_text, schedule_text};
ghost use Rattle.std.specs.Prelude.{◌≡◌, ◌++◌, ◌<◌, ◌^◌, OnOk, codes, flat_map, length};

use hib_base::{Order, Script, SessionNo};
use hib_order_law::Step;
use hib_order_schedule::schedule_of;
use hib_texts::{put_labelled, put_session};
use std::alloc::{AllocError, Global};

fn put_run(
    alloc: Global,
    out: &mut Vec<u8>,
    script: &Script,
    session: SessionNo,
    steps: u32,
) -> Result<(), AllocError>
    ensures { OnOk result (out.new.items
        ≡ out.old.items ++ line_text script.now (Order.Run session steps)) }
{
    out.extend_from_slice(b"run ")?;
    put_session(out, script, session)?;
    put_labelled(alloc, out, b" ", u64::from(steps))?;
    out.extend_from_slice(b"\n")
}

fn put_kill(out: &mut Vec<u8>, script: &Script, session: SessionNo) -> Result<(), AllocError>
    ensures { OnOk result (out.new.items
        ≡ out.old.items ++ line_text script.now (Order.Kill session)) }
{
    out.extend_from_slice(b"kill ")?;
    put_session(out, script, session)?;
    out.extend_from_slice(b"\n")
}

/// Adds a line of a schedule, if it is a run or a kill.
fn put_line(
    alloc: Global,
    out: &mut Vec<u8>,
    script: &Script,
    order: Order,
) -> Result<(), AllocError>
    ensures { OnOk result (out.new.items ≡ out.old.items ++ line_text script.now order) }
{
    match order {
        Order::Run { session, steps } => put_run(alloc, out, script, session, steps),
        Order::Kill { session } => put_kill(out, script, session),
        Order::Evict { .. } | Order::Restart => Ok(()),
    }
}

fn put_lines(
    alloc: Global,
    out: &mut Vec<u8>,
    script: &Script,
    orders: &[Order],
) -> Result<(), AllocError>
    ensures { OnOk result (out.new.items
        ≡ out.old.items ++ flat_map (λ o. line_text script.now o) orders.now) }
{
    for order in orders {
        put_line(alloc, out, script, *order)?;
    }
    Ok(())
}

fn put_schedule(
    alloc: Global,
    out: &mut Vec<u8>,
    script: &Script,
    orders: &[Order],
) -> Result<(), AllocError>
    ensures { OnOk result (out.new.items ≡ out.old.items ++ schedule_text script.now orders.now) }
{
    if orders.is_empty() {
        return Ok(());
    }
    out.extend_from_slice(b"schedule\n")?;
    put_lines(alloc, out, script, orders)?;
    out.extend_from_slice(b"end\n")
}

/// Adds the schedule of an order, if it needs one. An order of 2^32 steps or more is answered as want of memory.
pub fn put_order(
    alloc: Global,
    out: &mut Vec<u8>,
    script: &Script,
    order: &[Step],
) -> Result<(), AllocError>
    ensures { OnOk result (out.new.items ≡ out.old.items ++ order_text script.now order.now) }
{
    if order.len() >= 4_294_967_296 {
        return Err(AllocError);
    }
    let orders = schedule_of(alloc, order)?;
    put_schedule(alloc, out, script, orders.as_slice())
}
