// The clerks, each of whom speaks in a session of its own.
use hib_base::{Cell, Commit, EntityNo, Key, Row, Seq};
use hib_live_shared::{Name, Session, Shared, Unanswered};
use hib_outside::{Keeper, Listener};
use std::alloc::{AllocError, Global};
use std::sync::Wait;
use std::sync::atomic::{AtomicUsize, Ordering};

/// The book that is sold.
const DUNE: Key = Key {
    entity: EntityNo(0),
    id: 1,
};

/// The column of the stock.
const STOCK: u16 = 1;

/// How often a clerk looks at most.
const MOST_LOOKS: u32 = 1000;

/// What the clerks have done.
#[derive(Drop)]
pub struct Clerks {
    sold: AtomicUsize,
}

impl Clerks {
    /// Clerks who have sold nothing yet.
    pub fn new() -> Clerks {
        Clerks {
            sold: AtomicUsize::new(0),
        }
    }

    /// How many copies they have sold.
    pub fn sold(&self) -> usize {
        self.sold.load(Ordering::SeqCst)
    }
}

/// How many copies a row tells of.
fn stock(row: &Row) -> i64 {
    match row.cells.as_slice().get(STOCK as usize) {
        Some(Cell::Int(count)) => *count,
        _ => 0,
    }
}

/// What came of a look at the book.
#[derive(Clone, Copy, PartialEq, Eq)]
enum Sale {
    /// A copy was sold.
    Made,
    /// Another clerk was faster.
    Late,
    /// None is left.
    SoldOut,
}

/// Sells a copy, if one is left and no other clerk is faster.
fn sell<R: Wait, K: Keeper, N: Name, L: Listener>(
    alloc: Global,
    session: &mut Session<'_, R, K, N, L>,
) -> Result<Sale, Unanswered> {
    let left = match session.find(DUNE)? {
        Some(row) => stock(&row),
        None => 0,
    };
    if left <= 0 {
        session.rollback()?;
        return Ok(Sale::SoldOut);
    }
    let Ok(cells) = new_stock(alloc, left - 1) else {
        return Ok(Sale::Late);
    };
    session.set(DUNE, Seq::from_vec(cells))?;
    let outcome = session.commit()?;
    session.clear()?;
    if outcome == Commit::Committed {
        Ok(Sale::Made)
    } else {
        Ok(Sale::Late)
    }
}

/// What a sale sets.
fn new_stock(alloc: Global, left: i64) -> Result<Vec<(u16, Cell)>, AllocError> {
    Ok(vec![in alloc; (STOCK, Cell::Int(left))]?)
}

/// Sells in a session until none is left.
fn serve<R: Wait, K: Keeper, N: Name, L: Listener>(
    alloc: Global,
    clerks: &Clerks,
    session: &mut Session<'_, R, K, N, L>,
) {
    for _ in 0..MOST_LOOKS {
        match sell(alloc, session) {
            Ok(Sale::Made) => {
                clerks.sold.fetch_add(1, Ordering::SeqCst);
            }
            Ok(Sale::Late) => {}
            Ok(Sale::SoldOut) | Err(_) => return,
        }
    }
}

/// Sells in a session of its own.
pub fn work_alone<R: Wait, K: Keeper, N: Name, L: Listener>(
    rt: &R,
    alloc: Global,
    clerks: &Clerks,
    shop: &Shared<K, N, L>,
) {
    let Ok(mut session) = shop.begin(rt, alloc) else {
        return;
    };
    serve(alloc, clerks, &mut session);
    let _ = session.close();
}
