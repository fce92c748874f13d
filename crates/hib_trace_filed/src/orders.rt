// The commits of each key, made ready for a judge.
ghost use Rattle.hib_trace_filed.specs.Orders.{AreLives, AreReady, IsOrderOf};
ghost use Rattle.std.specs.List.{AllZip};
ghost use Rattle.std.specs.Prelude.{IfOk};

use hib_trace_findings::lives_of;
use hib_trace_law::Commit;
use hib_traces::{Order, Place, order_of};
use std::alloc::{AllocError, Global};

/// The commits of each key, made ready for a judge.
pub fn orders_of(alloc: Global, files: Vec<Vec<Commit>>) -> Result<Vec<Order>, AllocError>
    ensures { IfOk result (λ v. AllZip (λ f o. IsOrderOf f.items o) files.items v.items) }
{
    let mut orders = Vec::new(alloc);
    for commits in files {
        orders.push(order_of(alloc, commits)?)?;
    }
    Ok(orders)
}

/// When each key had a row, by its commits, of which those that made the row of the number `none` made none.
pub fn all_lives(
    alloc: Global,
    orders: &[Order],
    none: usize,
) -> Result<Vec<Vec<Place>>, AllocError>
    requires { AreReady orders.now }
    ensures { IfOk result (λ v. AreLives none orders.now v.items) }
{
    let mut lives = Vec::new(alloc);
    for order in orders {
        lives.push(lives_of(alloc, order, none)?)?;
    }
    Ok(lives)
}
