// The body of a row: the bytes by which its cells stand in one column of SQL.
ghost use Rattle.std.specs.Prelude.{◌≡◌, ◌≤◌, ◌↔◌, ◌+◌, ◌++◌, length, drop, Some, None, IsTrue, IsSome, IfOk, IfSome, OnOk, MatchOption};
ghost use Rattle.hib_sqlite_rows.specs.Body.{packed_cell, packed, taken, unpacked, IsPackableCell, IsPackable, IsBody};

use hib_base::{Bytes, Cell, Cells, Seq};
use std::alloc::{AllocError, Global};

/// The most cells that a row with a body has, and the most bytes of a text in it.
const MOST: usize = 255;

/// What stands before the bytes of a number, of a text and of a truth.
const NUMBER: u8 = 1;

const TEXT: u8 = 2;

const TRUTH: u8 = 3;

fn can_pack_cell(cell: &Cell) -> bool
    ensures { IsTrue result ↔ IsPackableCell cell.now }
{
    match cell {
        // A number that is read is known to be within its type.
        Cell::Int(number) => {
            let _number = *number;
            true
        }
        Cell::Text(text) => text.len() <= MOST,
        Cell::Bool(_) => true,
    }
}

/// Whether cells have a body: they are at most 255, and each text has at most 255 bytes.
pub fn can_pack(cells: &Cells) -> bool
    ensures { IsTrue result ↔ IsPackable cells.now }
{
    cells.len() <= MOST && cells.as_slice().iter().all(can_pack_cell)
}

/// Appends the bytes of a cell.
fn pack_cell(bytes: &mut Vec<u8>, cell: &Cell) -> Result<(), AllocError>
    requires { IsPackableCell cell.now }
    ensures { OnOk result (bytes.new.items ≡ bytes.old.items ++ packed_cell cell.now) }
{
    match cell {
        Cell::Int(number) => {
            bytes.push(NUMBER)?;
            bytes.extend_from_slice(number.to_be_bytes().as_slice())?;
        }
        Cell::Text(text) => {
            bytes.push(TEXT)?;
            bytes.push(text.len() as u8)?;
            bytes.extend_from_slice(text.as_slice())?;
        }
        Cell::Bool(truth) => {
            bytes.push(TRUTH)?;
            bytes.push(if *truth { 1 } else { 0 })?;
        }
    }
    Ok(())
}

/// The body of cells, from which `unpack` gives them back. Fails for want of memory alone.
pub fn pack(alloc: Global, cells: &Cells) -> Result<Bytes, AllocError>
    requires { IsPackable cells.now }
    ensures body { IfOk result (λ bytes. bytes ≡ packed cells.now) }
    ensures back { IfOk result (λ bytes. unpacked bytes ≡ Some cells.now) }
{
    let cells = cells.as_slice();
    let mut bytes = vec![in alloc; cells.len() as u8]?;
    for at in 0..cells.len() {
        pack_cell(&mut bytes, &cells[at])?;
    }
    Ok(Seq::from_vec(bytes))
}

/// The first cell of bytes, and how many bytes it takes; none if they begin with no cell.
fn take_cell(alloc: Global, bytes: &[u8]) -> Result<Option<(Cell, usize)>, AllocError>
    ensures { IfOk result (λ found. MatchOption found (taken bytes.now ≡ None)
        (λ f. (f.1 ≤ length bytes.now) × (taken bytes.now ≡ Some (f.0, drop f.1 bytes.now)))) }
{
    if bytes.len() == 0 {
        return Ok(None);
    }
    let rest = &bytes[1..];
    if bytes[0] == NUMBER {
        if rest.len() < 8 {
            return Ok(None);
        }
        let mut number = [0u8; 8];
        number.copy_from_slice(&rest[..8]);
        return Ok(Some((Cell::Int(i64::from_be_bytes(number)), 9)));
    }
    if rest.len() == 0 {
        return Ok(None);
    }
    if bytes[0] == TEXT {
        let count = rest[0] as usize;
        let text = &rest[1..];
        if text.len() < count {
            return Ok(None);
        }
        let text = Seq::from_vec(Vec::from_slice(alloc, &text[..count])?);
        return Ok(Some((Cell::Text(text), count + 2)));
    }
    if bytes[0] == TRUTH && rest[0] == 0 {
        return Ok(Some((Cell::Bool(false), 2)));
    }
    if bytes[0] == TRUTH && rest[0] == 1 {
        return Ok(Some((Cell::Bool(true), 2)));
    }
    Ok(None)
}

/// The cells whose body these bytes are; none exactly if they are no body. Fails for want of memory alone.
pub fn unpack(alloc: Global, body: &[u8]) -> Result<Option<Cells>, AllocError>
    ensures cells { IfOk result (λ cells. cells ≡ unpacked body.now) }
    ensures exactly { IfOk result (λ cells. IsSome cells ↔ IsBody body.now) }
    ensures back { IfOk result (λ cells. IfSome cells (λ cs. packed cs ≡ body.now)) }
{
    if body.len() == 0 {
        return Ok(None);
    }
    let count = body[0] as usize;
    let mut cells = Vec::new(alloc);
    let mut at = 1usize;
    for _done in 0..count {
        match take_cell(alloc, &body[at..])? {
            Some((cell, size)) => {
                cells.push(cell)?;
                at += size;
            }
            None => return Ok(None),
        }
    }
    if at == body.len() {
        let list = Cells::from_vec(cells)?;
        Ok(Some(list))
    } else {
        Ok(None)
    }
}
