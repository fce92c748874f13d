// Commits that meet another version, by direct calls of the store: sessions that act one after the other meet none.
use hib_base::{Cell, Cells, Change, Commit, EntityNo, Key, Mapping, Row, Rows, Seq, SessionNo};
use hib_outside::MemKeeper;
use hib_store::Store;
use std::alloc::{AllocError, Global};

const SESSION: SessionNo = SessionNo(0);

fn key(id: u64) -> Key {
    Key {
        entity: EntityNo(0),
        id,
    }
}

fn row(alloc: Global, version: u32) -> Result<Row, AllocError> {
    let mut cells = Vec::new(alloc);
    cells.push(Cell::Int(3))?;
    Ok(Row {
        version: Some(version),
        cells: Cells::from_vec(cells)?,
    })
}

/// The answer to a commit of an insert of row 3 and an update of a row that is expected to have version 0.
fn answer(alloc: Global, store: &mut Store<MemKeeper>, id: u64) -> Result<Commit, AllocError> {
    let insert = Change::Insert {
        key: key(3),
        row: row(alloc, 0)?,
    };
    store.write(alloc, SESSION, insert)?;
    let update = Change::Update {
        key: key(id),
        expected: Some(0),
        row: row(alloc, 1)?,
    };
    store.write(alloc, SESSION, update)?;
    store.commit(alloc, SESSION)
}

/// That answer where row 1 has version 1 and there is no other row, and how many rows there are then.
fn commit(alloc: Global, id: u64) -> Result<Option<(Commit, usize)>, AllocError> {
    let mut rows: Rows = Seq::new(alloc);
    rows.push((key(1), row(alloc, 1)?))?;
    let keeper = MemKeeper::new(alloc, Seq::new(alloc));
    let mapping: Mapping = Seq::new(alloc);
    let Ok(mut store) = Store::open(alloc, keeper, &mapping, rows.as_slice(), 1) else {
        return Ok(None);
    };
    let answer = answer(alloc, &mut store, id);
    let left = store.close().rows.len();
    Ok(Some((answer?, left)))
}

/// Whether a commit whose update meets another version is stale with the version found, and leaves no row of its own.
pub fn finds_the_version(alloc: Global) -> Result<bool, AllocError> {
    let wanted = Commit::Stale {
        key: key(1),
        found: Some(1),
    };
    Ok(commit(alloc, 1)? == Some((wanted, 1)))
}

/// Whether a commit whose update meets no row is stale with no version, and leaves no row of its own.
pub fn finds_no_row(alloc: Global) -> Result<bool, AllocError> {
    let wanted = Commit::Stale {
        key: key(2),
        found: None,
    };
    Ok(commit(alloc, 2)? == Some((wanted, 1)))
}
