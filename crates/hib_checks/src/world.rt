// The objects in memory that the top call works on.
use crate::row::Row;
use hib_base::{Mapping, Seq};
use hib_outside::{Keeper, MemKeeper, MemSink, MemSource};
use std::alloc::{AllocError, Global};

/// A source with these bytes, whose calls of these numbers fail.
pub fn source_with(alloc: Global, bytes: &[u8], fails: Seq<u32>) -> Result<MemSource, AllocError> {
    let bytes = Seq::from_vec(bytes.to_vec(alloc)?);
    Ok(MemSource::new(bytes, fails))
}

/// A sink that takes this many bytes, whose calls of these numbers fail.
pub fn sink_with(alloc: Global, room: u32, fails: Seq<u32>) -> Result<MemSink, AllocError> {
    MemSink::new(alloc, room as usize, fails)
}

/// A source with these bytes, of which no call fails.
pub fn source_of(alloc: Global, bytes: &[u8]) -> Result<MemSource, AllocError> {
    source_with(alloc, bytes, Seq::new(alloc))
}

/// A sink that takes this many bytes, of which no call fails.
pub fn sink_of(alloc: Global, room: u32) -> Result<MemSink, AllocError> {
    sink_with(alloc, room, Seq::new(alloc))
}

/// A keeper without a row, of which no call fails.
pub fn empty_keeper(alloc: Global) -> MemKeeper {
    MemKeeper::new(alloc, Seq::new(alloc))
}

/// A keeper that fails as a row says, with the rows that it has at first. A row may say that even the call that places
/// them fails; then the keeper has nothing.
pub fn keeper_of(alloc: Global, row: &Row) -> Result<MemKeeper, AllocError> {
    let mut keeper = MemKeeper::new(alloc, row.numbers(alloc, "keeper-fails")?);
    let rows = row.kept(alloc)?;
    if !rows.is_empty() {
        // No entity is declared here, so that the rows are taken as they are.
        let mapping: Mapping = Seq::new(alloc);
        let _ = keeper.seed(alloc, &mapping, rows.as_slice());
    }
    Ok(keeper)
}
