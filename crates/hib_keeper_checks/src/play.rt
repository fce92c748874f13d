// What a keeper answers, as text.
use hib_base::{Cell, Change, EntityNo, Key, Mapping, Row};
use hib_outside::{Applied, KeepFault, Keeper};
use std::alloc::Global;
use std::io;

fn version(out: &mut String, version: Option<u32>) -> io::Result<()> {
    match version {
        Some(version) => write!(out, "v{version}")?,
        None => out.push_str("v-")?,
    }
    Ok(())
}

fn cell(out: &mut String, cell: &Cell) -> io::Result<()> {
    match cell {
        Cell::Int(number) => write!(out, " {number}")?,
        Cell::Text(text) => write!(out, " text of {}", text.len())?,
        Cell::Bool(truth) => write!(out, " {truth}")?,
    }
    Ok(())
}

fn row(out: &mut String, row: &Row) -> io::Result<()> {
    version(out, row.version)?;
    for one in row.cells.as_slice() {
        cell(out, one)?;
    }
    Ok(())
}

fn fault(out: &mut String, fault: KeepFault) -> io::Result<()> {
    match fault {
        KeepFault::NoMemory => out.push_str("no memory")?,
        KeepFault::Failed => out.push_str("failed")?,
    }
    Ok(())
}

/// The row of a key, as text.
pub fn read<K: Keeper>(
    out: &mut String,
    alloc: Global,
    keeper: &mut K,
    key: Key,
) -> io::Result<()> {
    match keeper.read(alloc, key) {
        Ok(Some(found)) => row(out, &found),
        Ok(None) => Ok(out.push_str("none")?),
        Err(error) => fault(out, error),
    }
}

/// All rows of these entities, as text.
pub fn list<K: Keeper>(
    out: &mut String,
    alloc: Global,
    keeper: &mut K,
    entities: &[EntityNo],
) -> io::Result<()> {
    match keeper.list(alloc, entities) {
        Ok(rows) => {
            for (key, one) in rows.as_slice() {
                write!(out, "{} {} ", key.entity.0, key.id)?;
                row(out, one)?;
                out.push_str("; ")?;
            }
            Ok(out.push_str("end")?)
        }
        Err(error) => fault(out, error),
    }
}

/// Seeds a keeper, and writes how that ended.
pub fn seed<K: Keeper>(
    out: &mut String,
    alloc: Global,
    keeper: &mut K,
    mapping: &Mapping,
    rows: &[(Key, Row)],
) -> io::Result<()> {
    match keeper.seed(alloc, mapping, rows) {
        Ok(()) => Ok(out.push_str("done")?),
        Err(error) => fault(out, error),
    }
}

/// Applies changes, and writes how that ended.
pub fn apply<K: Keeper>(
    out: &mut String,
    alloc: Global,
    keeper: &mut K,
    batch: &[Change],
) -> io::Result<()> {
    match keeper.apply(alloc, batch) {
        Ok(Applied::Done) => Ok(out.push_str("done")?),
        Ok(Applied::Duplicate { at }) => Ok(write!(out, "duplicate {at}")?),
        Ok(Applied::Stale { at, found, there }) => {
            write!(out, "stale {at} ")?;
            version(out, found)?;
            Ok(write!(out, " {there}")?)
        }
        Err(error) => fault(out, error),
    }
}
