// Cells, rows and changes, and copies of them. Cells are shared: a copy takes no memory as a rule.
ghost use Rattle.std.specs.Prelude.{◌≡◌, IfOk, IfErr, OnOk, OnErr, option_copied, set};
ghost use Rattle.hib_base.specs.Sets.{with_cells};
ghost use Rattle.hib_base.specs.Tables.{key_of, row_left};

use crate::numbers::{EntityNo, Key};
use crate::seq::Seq;
use crate::shared::Shared;
use std::alloc::{AllocError, Global};
use std::sync::Arc;

/// Bytes, as they are read or written.
pub type Bytes = Seq<u8>;

/// A text or a name, as its bytes.
pub type Text = Seq<u8>;

/// A value in a column of a row.
#[derive(PartialEq, Eq)]
pub enum Cell {
    /// A number, or the identifier of a row that is referred to.
    Int(i64),
    /// A text of at most 200 printable bytes.
    Text(Text),
    /// True or false.
    Bool(bool),
}

// By hand, as for the two below: so a function that lets one go has one call for it, and not what it is made of.
impl Drop for Cell {
    fn drop(self) {
        match self {
            Cell::Int(_) => {}
            Cell::Text(_) => {}
            Cell::Bool(_) => {}
        }
    }
}

/// The cells of a row, one for each column.
pub type Cells = Shared<Cell>;

/// What a query answers.
pub type Listing = Shared<Cell>;

/// A row of an entity.
#[derive(PartialEq, Eq)]
pub struct Row {
    /// Its version, if its entity is versioned.
    pub version: Option<u32>,
    /// Its cells, one for each column.
    pub cells: Cells,
}

impl Drop for Row {
    fn drop(self) {
        let Row {
            version: _,
            cells: _,
        } = self;
    }
}

/// Rows with their keys.
pub type Rows = Seq<(Key, Row)>;

/// What a transaction does to one row.
#[derive(PartialEq, Eq)]
pub enum Change {
    /// A new row, if there is none.
    Insert {
        /// The row's key.
        key: Key,
        /// The new row.
        row: Row,
    },
    /// Another row in the place of one.
    Update {
        /// The row's key.
        key: Key,
        /// The version that the row is expected to have.
        expected: Option<u32>,
        /// The new row.
        row: Row,
    },
    /// No row in the place of one.
    Delete {
        /// The row's key.
        key: Key,
        /// The version that the row is expected to have.
        expected: Option<u32>,
    },
}

impl Drop for Change {
    fn drop(self) {
        match self {
            Change::Insert { key: _, row: _ } => {}
            Change::Update {
                key: _,
                expected: _,
                row: _,
            } => {}
            Change::Delete {
                key: _,
                expected: _,
            } => {}
        }
    }
}

/// Changes in the order in which they were written.
pub type Changes = Seq<Change>;

/// The cells that a statement sets, by the places of their columns.
pub type Sets = Seq<(u16, Cell)>;

/// Entities, by number.
pub type Names = Seq<EntityNo>;

/// Copies of cells, in a vector of their own. Fails for want of memory alone.
pub fn owned_cells(alloc: Global, cells: &[Cell]) -> Result<Vec<Cell>, AllocError>
    ensures { IfOk result (λ c. c.items ≡ cells.now) }
{
    let mut copy = Vec::with_capacity(alloc, cells.len())?;
    for cell in cells {
        copy.push(cell.copy(alloc)?)?;
    }
    Ok(copy)
}

/// An equal list of cells: the same one, which takes no memory, unless it has as many owners as can be counted. Fails
/// for want of memory alone.
pub fn copy_cells(alloc: Global, cells: &Cells) -> Result<Cells, AllocError>
    ensures { IfOk result (λ c. c ≡ cells.now) }
{
    match cells.share() {
        Ok(copy) => Ok(copy),
        Err(_) => Shared::from_vec(owned_cells(alloc, cells.as_slice())?),
    }
}

/// Puts a cell at its place, if there is such a place.
fn put_cell(cells: &mut [Cell], place: usize, cell: Cell)
    ensures { cells.new ≡ set cells.old place cell }
{
    if place < cells.len() {
        cells[place] = cell;
    }
}

/// Puts each cell at its place, if there is such a place.
fn put_cells(cells: &mut [Cell], sets: Sets)
    ensures { cells.new ≡ with_cells sets cells.old }
{
    for (place, cell) in sets.into_vec() {
        put_cell(cells, place as usize, cell);
    }
}

/// Sets cells of a list, if it has one owner. Else the sets are handed back.
fn set_alone(cells: &mut Cells, sets: Sets) -> Result<(), Sets>
    ensures ok { OnOk result (cells.new ≡ with_cells sets cells.old) }
    ensures err { OnErr result (cells.new ≡ cells.old) }
    ensures same { IfErr result (λ s. s ≡ sets) }
{
    match Arc::get_mut(&mut cells.items) {
        Some(list) => {
            put_cells(list, sets);
            Ok(())
        }
        None => Err(sets),
    }
}

/// Sets cells; a place that isn't there is passed over. It takes memory if the list has other owners, for whom it stays
/// as it is. At an error nothing has changed.
pub fn set_cells(alloc: Global, cells: &mut Cells, sets: Sets) -> Result<(), AllocError>
    ensures ok { OnOk result (cells.new ≡ with_cells sets cells.old) }
    ensures err { OnErr result (cells.new ≡ cells.old) }
{
    match set_alone(cells, sets) {
        Ok(()) => Ok(()),
        Err(sets) => {
            let mut copy = owned_cells(alloc, cells.as_slice())?;
            put_cells(&mut copy, sets);
            *cells = Shared::from_vec(copy)?;
            Ok(())
        }
    }
}

/// An equal list of sets. Fails for want of memory alone.
pub fn copy_sets(alloc: Global, sets: &Sets) -> Result<Sets, AllocError>
    ensures { IfOk result (λ c. c ≡ sets.now) }
{
    let mut copy = Vec::with_capacity(alloc, sets.len())?;
    for set in sets.as_slice() {
        copy.push((set.0, set.1.copy(alloc)?))?;
    }
    Ok(Seq::from_vec(copy))
}

/// An equal list of names. Fails for want of memory alone.
pub fn copy_names(alloc: Global, names: &Names) -> Result<Names, AllocError>
    ensures { IfOk result (λ n. n ≡ names.now) }
{
    Ok(Seq::from_vec(names.as_slice().to_vec(alloc)?))
}

impl Cell {
    /// An equal cell. Fails for want of memory alone.
    pub fn copy(&self, alloc: Global) -> Result<Cell, AllocError>
        ensures { IfOk result (λ c. c ≡ self.now) }
    {
        match self {
            Cell::Int(n) => Ok(Cell::Int(*n)),
            Cell::Text(t) => Ok(Cell::Text(Seq::from_vec(t.as_slice().to_vec(alloc)?))),
            Cell::Bool(b) => Ok(Cell::Bool(*b)),
        }
    }
}

impl Row {
    /// An equal row. Fails for want of memory alone.
    pub fn copy(&self, alloc: Global) -> Result<Row, AllocError>
        ensures { IfOk result (λ r. r ≡ self.now) }
    {
        Ok(Row {
            version: self.version,
            cells: copy_cells(alloc, &self.cells)?,
        })
    }
}

impl Change {
    /// The key of the row that it changes.
    pub fn key(&self) -> Key
        ensures { result ≡ key_of self.now }
    {
        match self {
            Change::Insert { key, .. } | Change::Update { key, .. } | Change::Delete { key, .. } =>
                *key,
        }
    }

    /// The row that it leaves; none after a delete.
    pub fn row_left(&self) -> Option<&Row>
        ensures { option_copied result ≡ row_left self.now }
    {
        match self {
            Change::Insert { row, .. } | Change::Update { row, .. } => Some(row),
            Change::Delete { .. } => None,
        }
    }

    /// A copy of the row that it leaves; none after a delete. Fails for want of memory alone.
    pub fn copy_left(&self, alloc: Global) -> Result<Option<Row>, AllocError>
        ensures { IfOk result (λ r. r ≡ row_left self.now) }
    {
        match self {
            Change::Insert { row, .. } | Change::Update { row, .. } => Ok(Some(row.copy(alloc)?)),
            Change::Delete { .. } => Ok(None),
        }
    }

    /// The row that it leaves, taken out of it; none after a delete.
    pub fn into_row(self) -> Option<Row>
        ensures { result ≡ row_left self }
    {
        match self {
            Change::Insert { key: _, row } => Some(row),
            Change::Update {
                key: _,
                expected: _,
                row,
            } => Some(row),
            Change::Delete {
                key: _,
                expected: _,
            } => None,
        }
    }

    /// An equal change. Fails for want of memory alone.
    pub fn copy(&self, alloc: Global) -> Result<Change, AllocError>
        ensures { IfOk result (λ c. c ≡ self.now) }
    {
        match self {
            Change::Insert { key, row } => Ok(Change::Insert {
                key: *key,
                row: row.copy(alloc)?,
            }),
            Change::Update { key, expected, row } => Ok(Change::Update {
                key: *key,
                expected: *expected,
                row: row.copy(alloc)?,
            }),
            Change::Delete { key, expected } => Ok(Change::Delete {
                key: *key,
                expected: *expected,
            }),
        }
    }
}
