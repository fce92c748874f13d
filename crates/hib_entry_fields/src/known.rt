// Which fields are well formed: within their ranges, and of the script. hib_entry_texts tests acts and replies by
// these.
ghost use Rattle.hib_base.specs.Fits as fits;
ghost use Rattle.hib_base.specs.declared.rows.Cell.TheVariants.{Int};
ghost use Rattle.hib_entry_fields.specs.Known as known;
ghost use Rattle.std.specs.List.{list_all};
ghost use Rattle.std.specs.Prelude.{◌≡◌, ◌&&◌, length, nat_lt};

use hib_base::{Cell, EntityNo, Key, Names, QueryNo, Row, Script, SessionNo, Sets, Tick};

/// Whether a number is an identifier.
pub fn is_identifier(id: u64) -> bool
    ensures { result ≡ fits.is_identifier id }
{
    id >= 1 && id < 1 << 63
}

/// Whether a key is of an entity of the script.
pub fn is_key(script: &Script, key: Key) -> bool
    ensures { result ≡ known.is_key script.now key }
{
    (key.entity.0 as usize) < script.mapping.len() && is_identifier(key.id)
}

/// Whether an entity is the script's.
pub fn is_entity(script: &Script, entity: EntityNo) -> bool
    ensures { result ≡ known.is_entity script.now entity }
{
    (entity.0 as usize) < script.mapping.len()
}

/// Whether a query is the script's.
pub fn is_query(script: &Script, query: QueryNo) -> bool
    ensures { result ≡ known.is_query script.now query }
{
    (query.0 as usize) < script.queries.len()
}

/// Whether a session is the script's.
pub fn is_session(script: &Script, session: SessionNo) -> bool
    ensures { result ≡ known.is_session script.now session }
{
    (session.0 as usize) < script.sessions.len()
}

/// Whether a tick is small enough.
pub fn is_tick(tick: Tick) -> bool
    ensures { result ≡ known.is_tick tick }
{
    tick.0 <= 1 << 62
}

/// Whether a version is within its range: each that the type holds is.
pub fn is_version(version: Option<u32>) -> bool
    ensures { result ≡ known.is_version version }
{
    match version {
        None => true,
        Some(version) => u64::from(version) < 1 << 32,
    }
}

/// Whether all bytes of a text may be printed.
fn is_printable(bytes: &[u8]) -> bool
    ensures { result ≡ list_all fits.is_printable bytes.now }
{
    bytes.iter().all(|byte| *byte >= 32 && *byte <= 126)
}

fn is_text(bytes: &[u8]) -> bool
    ensures { result ≡ fits.is_text bytes.now }
{
    bytes.len() <= 200 && is_printable(bytes)
}

// Whether a number is within the range of a cell's: each that the type holds is.
fn is_wide(n: i64) -> bool
    ensures { result ≡ known.is_cell (Int n) }
{
    n >= i64::MIN && n <= i64::MAX
}

/// Whether a cell is well formed.
pub fn is_cell(cell: &Cell) -> bool
    ensures { result ≡ known.is_cell cell.now }
{
    match cell {
        Cell::Int(n) => is_wide(*n),
        Cell::Text(text) => is_text(text.as_slice()),
        Cell::Bool(_) => true,
    }
}

/// Whether all cells are well formed.
pub fn are_cells(cells: &[Cell]) -> bool
    ensures { result ≡ known.are_cells cells.now }
{
    cells.iter().all(|cell| is_cell(cell))
}

/// Whether a row is well formed.
pub fn is_row(row: &Row) -> bool
    ensures { result ≡ known.is_row row.now }
{
    is_version(row.version) && are_cells(row.cells.as_slice())
}

fn are_known(tables: &[EntityNo], count: usize) -> bool
    ensures { result ≡ list_all (λ t. nat_lt t count) tables.now }
{
    tables.iter().all(|table| (table.0 as usize) < count)
}

/// Whether all tables are the script's, and there is one at least.
pub fn are_tables(script: &Script, tables: &Names) -> bool
    ensures { result ≡ known.are_tables script.now tables.now }
{
    tables.len() >= 1 && are_known(tables.as_slice(), script.mapping.len())
}

// How many columns an entity has.
fn column_count(script: &Script, entity: EntityNo) -> usize
    ensures { result ≡ length (fits.entity_columns script.now.mapping entity) }
{
    match script.mapping.as_slice().get(entity.0 as usize) {
        Some(def) => def.columns.len(),
        None => 0,
    }
}

fn are_set(sets: &[(u16, Cell)], count: usize) -> bool
    ensures { result ≡ list_all (λ x. nat_lt x.0 count && known.is_cell x.1) sets.now }
{
    sets.iter()
        .all(|set| (set.0 as usize) < count && is_cell(&set.1))
}

/// Whether all columns are the entity's, all cells are well formed, and there is a column at least.
pub fn are_sets(script: &Script, entity: EntityNo, sets: &Sets) -> bool
    ensures { result ≡ known.are_sets script.now entity sets.now }
{
    sets.len() >= 1 && are_set(sets.as_slice(), column_count(script, entity))
}
