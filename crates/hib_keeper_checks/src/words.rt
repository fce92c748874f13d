// What the words of a line say, in the forms of the head of the file `stdin`.
use hib_base::{Cell, Change, ColumnDef, ColumnType, EntityDef, EntityNo, Key, Seq, Strategy};
use hib_entry_fields::{cells_at, next, number_of, row_at, version_of};
use std::alloc::{AllocError, Global};

/// The entity after a space, and what follows it.
fn entity_at(bytes: &[u8]) -> (EntityNo, &[u8]) {
    let (number, rest) = next(bytes);
    (
        EntityNo(u16::try_from(number_of(number)).unwrap_or(0)),
        rest,
    )
}

/// The key after a space, and what follows it.
pub fn key_at(bytes: &[u8]) -> (Key, &[u8]) {
    let (entity, rest) = entity_at(bytes);
    let (number, rest) = next(rest);
    let id = number_of(number);
    (Key { entity, id }, rest)
}

/// Entities, each after a space.
pub fn entities(alloc: Global, bytes: &[u8]) -> Result<Vec<EntityNo>, AllocError> {
    let mut entities = Vec::new(alloc);
    let mut rest = bytes;
    for _ in 0..bytes.len() {
        if rest.is_empty() {
            break;
        }
        let (entity, more) = entity_at(rest);
        entities.push(entity)?;
        rest = more;
    }
    Ok(entities)
}

/// A column with this default, and of its type; of `int` if there is none. A keeper looks at neither its name nor its
/// type.
fn column(alloc: Global, default: Option<Cell>) -> ColumnDef {
    let kind = match &default {
        Some(Cell::Text(_)) => ColumnType::Text,
        Some(Cell::Bool(_)) => ColumnType::Bool,
        _ => ColumnType::Int,
    };
    ColumnDef {
        name: Seq::new(alloc),
        kind,
        default,
    }
}

/// An entity with as many columns without a default as the first byte says, and one for each of the cells that follow.
pub fn columns(alloc: Global, bytes: &[u8]) -> Result<EntityDef, AllocError> {
    let (count, rest) = next(bytes);
    let (defaults, _) = cells_at(alloc, rest)?;
    let mut columns = Seq::new(alloc);
    for _ in 0..number_of(count) {
        columns.push(column(alloc, None))?;
    }
    for default in defaults.as_slice() {
        columns.push(column(alloc, Some(default.copy(alloc)?)))?;
    }
    Ok(EntityDef {
        name: Seq::new(alloc),
        strategy: Strategy::Uncached,
        versioned: true,
        capacity: 0,
        columns,
    })
}

/// An insert of a row.
pub fn insert(alloc: Global, bytes: &[u8]) -> Result<Change, AllocError> {
    let (key, rest) = key_at(bytes);
    let (row, _) = row_at(alloc, rest)?;
    Ok(Change::Insert { key, row })
}

/// An update, which expects the first of two versions.
pub fn update(alloc: Global, bytes: &[u8]) -> Result<Change, AllocError> {
    let (key, rest) = key_at(bytes);
    let (version, rest) = next(rest);
    let expected = version_of(version);
    let (row, _) = row_at(alloc, rest)?;
    Ok(Change::Update { key, expected, row })
}

/// A removal.
pub fn delete(bytes: &[u8]) -> Change {
    let (key, rest) = key_at(bytes);
    let (version, _) = next(rest);
    let expected = version_of(version);
    Change::Delete { key, expected }
}
