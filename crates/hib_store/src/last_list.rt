// The last list that a session with changes of its own was given, kept so that the same query isn't looked up again if
// it is asked again before anything is written.
ghost use Rattle.std.specs.Prelude.{◌≡◌, true, IfOk, IfSome, Option};
ghost use Rattle.hib_base.specs.Tables.{Tables};
ghost use Rattle.hib_store.specs.Last.{Asks, Stands};
ghost use Rattle.hib_store.specs.Stores.{Written, changes_in, IsListed};
ghost use Rattle.hib_store.specs.declared.store.Listed.{Listed};

use crate::store::Listed;
use hib_base::{Cell, Cond, EntityNo, Listing, Op, Path, Query, Select, SessionNo, copy_cells};
use std::alloc::{AllocError, Global};

/// A query in no order whose condition is one comparison, as far as its answer depends on it.
#[derive(Drop)]
pub struct BareQuery {
    /// The entity whose rows it lists.
    pub entity: EntityNo,
    /// How the row's cell compares with the other.
    pub op: Op,
    /// Where the row's cell is.
    pub path: Path,
    /// The other cell.
    pub cell: Cell,
    /// How many of the first are left out.
    pub offset: u32,
    /// How many are listed at most.
    pub limit: u32,
    /// What is listed of them.
    pub select: Select,
}

/// The last list that a session with changes of its own was given. It stands until changes are written, dropped or
/// committed, whichever session's they are.
#[derive(Drop)]
pub struct LastList {
    /// The session that asked.
    pub session: SessionNo,
    /// What it asked.
    pub query: BareQuery,
    /// What it was given.
    pub listing: Listing,
}

/// Whether two cells are equal.
#[tactic(auto, using(hib_base::proofs::Equality::cell_decides))]
fn is_equal(a: &Cell, b: &Cell) -> bool
    ensures { result ≡ true → a.now ≡ b.now }
{
    a == b
}

/// Whether two paths are equal.
fn is_same_path(a: &Path, b: &Path) -> bool
    ensures { result ≡ true → a.now ≡ b.now }
{
    a == b
}

/// Whether a query asks the same as the one whose list is kept. It may say no even if the query does.
fn asks(bare: &BareQuery, query: &Query) -> bool
    ensures { result ≡ true → Asks bare.now query.now }
{
    let Some(Cond::Test { op, path, cell }) = &query.condition else {
        return false;
    };
    query.entity == bare.entity
        && query.order.is_empty()
        && query.offset == bare.offset
        && query.limit == bare.limit
        && query.select == bare.select
        && *op == bare.op
        && is_same_path(path, &bare.path)
        && is_equal(cell, &bare.cell)
}

/// What a query's answer depends on. None if the query is in an order, or if its condition isn't one comparison: of
/// such a query no list is kept.
fn bare(alloc: Global, query: &Query) -> Result<Option<BareQuery>, AllocError>
    ensures { IfOk result (λ o. IfSome o (λ b. Asks b query.now)) }
{
    match &query.condition {
        Some(Cond::Test { op, path, cell }) if query.order.is_empty() => Ok(Some(BareQuery {
            entity: query.entity,
            op: *op,
            path: *path,
            cell: cell.copy(alloc)?,
            offset: query.offset,
            limit: query.limit,
            select: query.select,
        })),
        _ => Ok(None),
    }
}

/// A copy of the list that was given last, if the same session asks the same again; else none. Fails only if there is
/// no memory.
pub fn again(
    alloc: Global,
    last: &Option<LastList>,
    session: SessionNo,
    query: &Query,
) -> Result<Option<Listing>, AllocError>
    ensures { (told : Option Tables) (written : Written) → IfSome last.now (Stands told written)
        → IfOk result (λ o. IfSome o (λ list. IsListed told (changes_in written session) query.now
        (Listed.List list))) }
{
    match last {
        Some(last) if last.session == session && asks(&last.query, query) => Ok(Some(copy_cells(
            alloc,
            &last.listing,
        )?)),
        _ => Ok(None),
    }
}

/// What is to be kept of a list that a session is given. None after a fault, and if the query isn't bare.
#[tactic(auto, using(crate::proofs::Last::listed_alike))]
pub fn kept(
    alloc: Global,
    session: SessionNo,
    query: &Query,
    listed: &Listed,
) -> Result<Option<LastList>, AllocError>
    ensures { (told : Option Tables) (written : Written)
        → IsListed told (changes_in written session) query.now listed.now
        → IfOk result (λ o. IfSome o (Stands told written)) }
{
    let Listed::List(listing) = listed else {
        return Ok(None);
    };
    match bare(alloc, query)? {
        Some(query) => Ok(Some(LastList {
            session,
            query,
            listing: copy_cells(alloc, listing)?,
        })),
        None => Ok(None),
    }
}
