// Whether a statement is one of a mapping and its queries.
ghost use Rattle.hib_base.specs.Fits.{is_printable, is_text, is_wide, is_of_type, are_of_types, entity_columns, is_key_in, is_set, are_sets, fits_statement};
ghost use Rattle.hib_base.specs.Scripts.{is_known};
ghost use Rattle.hib_base.specs.Apart.{are_apart_by};
ghost use Rattle.std.specs.List.{list_all, list_any};
ghost use Rattle.std.specs.Prelude.{◌≡◌, ◌==◌, ◌&&◌, map};

use hib_base::{Cell, ColumnDef, ColumnType, EntityDef, EntityNo, Key, Statement};

/// Whether a key is of a declared entity, and has an identifier.
fn is_key(mapping: &[EntityDef], key: Key) -> bool
    ensures { result ≡ is_key_in mapping.now key }
{
    usize::from(key.entity.0) < mapping.len() && key.id >= 1 && key.id < 1 << 63
}

/// The columns of an entity; none of one that isn't declared.
fn columns_of(mapping: &[EntityDef], entity: EntityNo) -> &[ColumnDef]
    ensures { result.now ≡ entity_columns mapping.now entity }
{
    match mapping.get(usize::from(entity.0)) {
        Some(def) => def.columns.as_slice(),
        None => &[],
    }
}

/// Whether all bytes may be printed.
fn are_printable(bytes: &[u8]) -> bool
    ensures { result ≡ list_all is_printable bytes.now }
{
    bytes.iter().all(|byte| *byte >= 32 && *byte <= 126)
}

/// Whether bytes are those of a text.
fn is_text_of(bytes: &[u8]) -> bool
    ensures { result ≡ is_text bytes.now }
{
    bytes.len() <= 200 && are_printable(bytes)
}

/// Whether a number is within the range of a cell's: each that the type holds is.
fn is_wide_number(n: i64) -> bool
    ensures { result ≡ is_wide n }
{
    n >= i64::MIN && n <= i64::MAX
}

/// Whether a cell is of a column's type.
fn is_typed(kind: ColumnType, cell: &Cell) -> bool
    ensures { result ≡ is_of_type kind cell.now }
{
    match (kind, cell) {
        (ColumnType::Int | ColumnType::Ref(_), Cell::Int(n)) => is_wide_number(*n),
        (ColumnType::Bool, Cell::Bool(_)) => true,
        (ColumnType::Text, Cell::Text(text)) => is_text_of(text.as_slice()),
        _ => false,
    }
}

/// Whether cells are one of each column's type.
fn are_typed(columns: &[ColumnDef], cells: &[Cell]) -> bool
    ensures { result ≡ are_of_types columns.now cells.now }
{
    if columns.len() != cells.len() {
        return false;
    }
    for place in 0..columns.len() {
        if !is_typed(columns[place].kind, &cells[place]) {
            return false;
        }
    }
    true
}

/// Whether a column of an entity is set to a cell of its type.
fn is_set_of(columns: &[ColumnDef], set: &(u16, Cell)) -> bool
    ensures { result ≡ is_set columns.now set.now }
{
    match columns.get(usize::from(set.0)) {
        Some(column) => is_typed(column.kind, &set.1),
        None => false,
    }
}

/// Whether one of some columns is this one.
fn has_column(sets: &[(u16, Cell)], column: u16) -> bool
    ensures { result ≡ list_any (λ d. d == column) (map (λ x. x.0) sets.now) }
{
    for place in 0..sets.len() {
        if sets[place].0 == column {
            return true;
        }
    }
    false
}

/// Whether no column is set twice.
fn are_apart(sets: &[(u16, Cell)]) -> bool
    ensures { result ≡ are_apart_by (λ c d. c == d) (map (λ x. x.0) sets.now) }
{
    for place in 0..sets.len() {
        if has_column(&sets[place + 1..], sets[place].0) {
            return false;
        }
    }
    true
}

/// Whether columns of an entity are set to cells of their types.
fn are_set(columns: &[ColumnDef], sets: &[(u16, Cell)]) -> bool
    ensures { result ≡ list_all (λ x. is_set columns.now x) sets.now }
{
    sets.iter().all(|set| is_set_of(columns, set))
}

/// Whether some columns of an entity, one at least and none twice, are set to cells of their types.
fn are_sets_of(columns: &[ColumnDef], sets: &[(u16, Cell)]) -> bool
    ensures { result ≡ are_sets columns.now sets.now }
{
    sets.len() >= 1 && are_set(columns, sets) && are_apart(sets)
}

/// Whether a statement is of declared entities and columns, with cells of their types, and lists one of the first
/// `queries` queries if it lists one.
pub fn fits(mapping: &[EntityDef], queries: usize, statement: &Statement) -> bool
    ensures { result ≡ (fits_statement mapping.now statement.now && is_known queries statement.now) }
{
    match statement {
        Statement::Find { key } | Statement::Remove { key } => is_key(mapping, *key),
        Statement::Persist { key, cells } => {
            is_key(mapping, *key) && are_typed(columns_of(mapping, key.entity), cells.as_slice())
        }
        Statement::Set { key, cells } => {
            is_key(mapping, *key) && are_sets_of(columns_of(mapping, key.entity), cells.as_slice())
        }
        Statement::List { query } => (query.0 as usize) < queries,
        Statement::Flush
        | Statement::Clear
        | Statement::Mode { .. }
        | Statement::Commit
        | Statement::Rollback => true,
    }
}
