// The cells of a row under their columns' names: an object has those that are there, a line of values has a place for
// each name of a column, of whichever entity.
ghost use Rattle.std.specs.Prelude.{◌≡◌, ◌++◌, OnOk, codes, flat_map, slice_get, option_copied};
ghost use Rattle.hib_texts.specs.Texts as texts;
ghost use Rattle.hib_flat.specs.Members.{cells_from, set_cells, row_cells, cells};
ghost use Rattle.hib_flat.specs.Lines as lines;
ghost use Rattle.hib_flat.specs.Lines.{cell_member, cell_at, csv_some_cell};

use crate::lists::{put_cell, put_csv_cell};
use crate::parts::{key_in, row_in};
use hib_base::{Act, Cell, ColumnDef, EntityNo, Entry, Key, Row, Script, Text, entity_columns};
use hib_texts::column_name;
use std::alloc::{AllocError, Global};

fn name_at(columns: &[ColumnDef], place: usize) -> &[u8]
    ensures { result.now ≡ texts.column_name (slice_get columns.now place) }
{
    match columns.get(place) {
        Some(column) => column.name.as_slice(),
        None => b"",
    }
}

// ---- JSON

fn put_member(alloc: Global, out: &mut Vec<u8>, name: &[u8], cell: &Cell) -> Result<(), AllocError>
    ensures { OnOk result (out.new.items ≡ out.old.items ++ cell_member (name.now, cell.now)) }
{
    out.extend_from_slice(b",\"cell_")?;
    out.extend_from_slice(name)?;
    out.extend_from_slice(b"\":")?;
    put_cell(alloc, out, cell)
}

fn put_row(
    alloc: Global,
    out: &mut Vec<u8>,
    columns: &[ColumnDef],
    row: &[Cell],
) -> Result<(), AllocError>
    ensures { OnOk result (out.new.items
        ≡ out.old.items ++ flat_map cell_member (cells_from columns.now 0 row.now)) }
{
    for i in 0..row.len() {
        put_member(alloc, out, name_at(columns, i), &row[i])?;
    }
    Ok(())
}

fn put_sets(
    alloc: Global,
    out: &mut Vec<u8>,
    script: &Script,
    entity: EntityNo,
    sets: &[(u16, Cell)],
) -> Result<(), AllocError>
    ensures { OnOk result (out.new.items
        ≡ out.old.items ++ flat_map cell_member (set_cells script.now entity sets.now)) }
{
    for set in sets {
        put_member(alloc, out, column_name(script, entity, set.0), &set.1)?;
    }
    Ok(())
}

/// The cells of a key's row as members, if there is one.
pub fn put_row_of(
    alloc: Global,
    out: &mut Vec<u8>,
    script: &Script,
    key: Option<Key>,
    row: Option<&Row>,
) -> Result<(), AllocError>
    ensures { OnOk result (out.new.items
        ≡ out.old.items ++ flat_map cell_member (row_cells script.now key
        (option_copied row.entry))) }
{
    match (key, row) {
        (Some(key), Some(row)) => {
            let columns = entity_columns(script.mapping.as_slice(), key.entity);
            put_row(alloc, out, columns, row.cells.as_slice())
        }
        _ => Ok(()),
    }
}

/// The cells of an entry as members.
pub fn put_cells(
    alloc: Global,
    out: &mut Vec<u8>,
    script: &Script,
    entry: &Entry,
) -> Result<(), AllocError>
    ensures { OnOk result (out.new.items
        ≡ out.old.items ++ flat_map cell_member (cells script.now entry.now)) }
{
    if let Act::Set { key, cells } = &entry.act {
        return put_sets(alloc, out, script, key.entity, cells.as_slice());
    }
    let key = key_in(&entry.act, &entry.reply);
    put_row_of(alloc, out, script, key, row_in(&entry.act, &entry.reply))
}

// ---- comma-separated values

/// The cell of a row in the column of this name, which another entity may have at another place.
fn row_cell<'a>(columns: &[ColumnDef], row: &'a [Cell], name: &[u8]) -> Option<&'a Cell>
    ensures { option_copied result ≡ cell_at name.now (cells_from columns.now 0 row.now) }
{
    for i in 0..row.len() {
        if name_at(columns, i) == name {
            return Some(&row[i]);
        }
    }
    None
}

fn set_cell<'a>(
    script: &Script,
    entity: EntityNo,
    sets: &'a [(u16, Cell)],
    name: &[u8],
) -> Option<&'a Cell>
    ensures { option_copied result ≡ cell_at name.now (set_cells script.now entity sets.now) }
{
    for set in sets {
        if column_name(script, entity, set.0) == name {
            return Some(&set.1);
        }
    }
    None
}

fn row_cell_of<'a>(
    script: &Script,
    key: Option<Key>,
    row: Option<&'a Row>,
    name: &[u8],
) -> Option<&'a Cell>
    ensures { option_copied result ≡ cell_at name.now (row_cells script.now key
        (option_copied row.entry)) }
{
    match (key, row) {
        (Some(key), Some(row)) => {
            let columns = entity_columns(script.mapping.as_slice(), key.entity);
            row_cell(columns, row.cells.as_slice(), name)
        }
        _ => None,
    }
}

/// The cell of an entry in the column of this name, if it has one.
fn cell_named<'a>(script: &Script, entry: &'a Entry, name: &[u8]) -> Option<&'a Cell>
    ensures { option_copied result ≡ cell_at name.now (cells script.now entry.now) }
{
    if let Act::Set { key, cells } = &entry.act {
        return set_cell(script, key.entity, cells.as_slice(), name);
    }
    let key = key_in(&entry.act, &entry.reply);
    row_cell_of(script, key, row_in(&entry.act, &entry.reply), name)
}

fn put_csv_cell_if(alloc: Global, out: &mut Vec<u8>, cell: Option<&Cell>) -> Result<(), AllocError>
    ensures { OnOk result (out.new.items
        ≡ out.old.items ++ csv_some_cell (option_copied cell.entry)) }
{
    match cell {
        None => Ok(()),
        Some(cell) => put_csv_cell(alloc, out, cell),
    }
}

/// The cells of an entry that have these names, each in its place.
pub fn put_csv_cells(
    alloc: Global,
    out: &mut Vec<u8>,
    script: &Script,
    names: &[Text],
    entry: &Entry,
) -> Result<(), AllocError>
    ensures { OnOk result (out.new.items
        ≡ out.old.items ++ lines.csv_cells names.now (cells script.now entry.now)) }
{
    for name in names {
        out.push(b',')?;
        put_csv_cell_if(alloc, out, cell_named(script, entry, name.as_slice()))?;
    }
    Ok(())
}
