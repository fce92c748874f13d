// The queries of a made script, by columns that are numbered as `entities` declares them. The third argument of `query`
// says whether results are kept.
ghost use Rattle.std.specs.Prelude.{◌≡◌, IfOk};
ghost use Rattle.hib_make.specs.Queries.{own, query, low, rich, first, orders, made_queries};

use crate::entities::{AUTHOR, BOOK, CUSTOMER, ORDER};
use hib_base::{Cell, Cond, EntityNo, Op, Path, Queries, Query, Select, Seq, Sort, Target};
use std::alloc::{AllocError, Global};

/// A query with the offset and the limit of one that names none.
fn query(
    alloc: Global,
    name: &[u8],
    cached: bool,
    entity: EntityNo,
    condition: Option<Cond>,
    order: Vec<Sort>,
    select: Select,
) -> Result<Query, AllocError>
    ensures { IfOk result (λ q. q ≡ query name.now cached entity condition order.items select) }
{
    Ok(Query {
        name: Seq::from_vec(name.to_vec(alloc)?),
        cached,
        entity,
        condition,
        order: Seq::from_vec(order),
        offset: 0,
        limit: 200,
        select,
    })
}

fn own(column: u16) -> Path
    ensures { result ≡ own column }
{
    Path {
        column,
        target: None,
    }
}

fn low(alloc: Global) -> Result<Query, AllocError>
    ensures { IfOk result (λ q. q ≡ low) }
{
    let condition = Cond::Test {
        op: Op::Lt,
        path: own(2),
        cell: Cell::Int(10),
    };
    let by_stock = Sort {
        column: 2,
        desc: false,
    };
    let order = vec![in alloc; by_stock]?;
    query(
        alloc,
        b"low",
        true,
        BOOK,
        Some(condition),
        order,
        Select::Ids,
    )
}

fn rich(alloc: Global) -> Result<Query, AllocError>
    ensures { IfOk result (λ q. q ≡ rich) }
{
    let condition = Cond::Test {
        op: Op::Ge,
        path: own(1),
        cell: Cell::Int(1500),
    };
    query(
        alloc,
        b"rich",
        true,
        CUSTOMER,
        Some(condition),
        Vec::new(alloc),
        Select::Count,
    )
}

fn first(alloc: Global) -> Result<Query, AllocError>
    ensures { IfOk result (λ q. q ≡ first) }
{
    let path = Path {
        column: 1,
        target: Some(Target {
            entity: AUTHOR,
            column: 0,
        }),
    };
    let cell = Cell::Text(Seq::from_vec(b"author 1".to_vec(alloc)?));
    let condition = Cond::Test {
        op: Op::Eq,
        path,
        cell,
    };
    query(
        alloc,
        b"first",
        true,
        BOOK,
        Some(condition),
        Vec::new(alloc),
        Select::Column(0),
    )
}

fn orders(alloc: Global) -> Result<Query, AllocError>
    ensures { IfOk result (λ q. q ≡ orders) }
{
    query(
        alloc,
        b"orders",
        false,
        ORDER,
        None,
        Vec::new(alloc),
        Select::Count,
    )
}

/// The four queries of each made script. Fails for want of memory alone.
pub fn queries(alloc: Global) -> Result<Queries, AllocError>
    ensures { IfOk result (λ q. q ≡ made_queries) }
{
    let low = low(alloc)?;
    let rich = rich(alloc)?;
    let first = first(alloc)?;
    let orders = orders(alloc)?;
    let queries = vec![in alloc; low, rich, first, orders]?;
    Ok(Seq::from_vec(queries))
}
