// The cells and rows that bytes look like. `x_at` gives what stands at the front of some bytes, and what follows it.
ghost use Rattle.hib_entry_fields.specs.Fields as format;
ghost use Rattle.std.specs.Prelude.{◌≡◌, IfOk, false, option_map};

use crate::fields::{after_one, is, next, piece, signed_of, version_of};
use hib_base::{Cell, Cells, Row, Seq, Text};
use std::alloc::{AllocError, Global};

/// The text up to its closing mark, without backslashes, and what follows.
#[tactic(auto, using(crate::proofs::Loops::quoted_escaped, crate::proofs::Loops::quoted_plain, crate::proofs::Loops::quoted_escapes, crate::proofs::Loops::quoted_closes, crate::proofs::Loops::quoted_open))]
fn quoted(alloc: Global, bytes: &[u8]) -> Result<(Text, &[u8]), AllocError>
    ensures { IfOk result (λ x. (x.0, x.1.now) ≡ format.quoted false bytes.now) }
{
    let mut text = Vec::new(alloc);
    let mut escaped = false;
    for i in 0..bytes.len() {
        let byte = bytes[i];
        if escaped {
            text.push(byte)?;
            escaped = false;
        } else if byte == b'"' {
            return Ok((Seq::from_vec(text), &bytes[i + 1..]));
        } else if byte == b'\\' {
            escaped = true;
        } else {
            text.push(byte)?;
        }
    }
    Ok((Seq::from_vec(text), &bytes[bytes.len()..]))
}

/// Whether a piece begins as a number does.
fn begins_number(piece: &[u8]) -> bool
    ensures { result ≡ format.begins_number piece.now }
{
    match piece {
        [] => false,
        [first, ..] => *first == b'-' || first.is_ascii_digit(),
    }
}

/// The cell that a piece looks like, if it looks like a number, `true` or `false`.
#[tactic(auto, unfolding(crate::specs::Fields::bare_cell))]
fn bare_cell(piece: &[u8]) -> Option<Cell>
    ensures { result ≡ format.bare_cell piece.now }
{
    if is(piece, b"true") {
        Some(Cell::Bool(true))
    } else if is(piece, b"false") {
        Some(Cell::Bool(false))
    } else if begins_number(piece) {
        Some(Cell::Int(signed_of(piece)))
    } else {
        None
    }
}

/// The cell at the front and what follows it; none if there is no cell.
#[tactic(auto, unfolding(crate::specs::Fields::cell_at))]
pub fn cell_at(alloc: Global, bytes: &[u8]) -> Result<Option<(Cell, &[u8])>, AllocError>
    ensures { IfOk result (λ o. option_map (λ x. (x.0, x.1.now)) o ≡ format.cell_at bytes.now) }
{
    match bytes {
        [] => Ok(None),
        [b'"', rest @ ..] => {
            let (text, rest) = quoted(alloc, rest)?;
            Ok(Some((Cell::Text(text), rest)))
        }
        _ => {
            let (piece, rest) = piece(bytes);
            match bare_cell(piece) {
                Some(cell) => Ok(Some((cell, rest))),
                None => Ok(None),
            }
        }
    }
}

/// The cells at the front, each after one byte, and what follows them. Fails for want of memory alone.
#[tactic(auto, using(crate::proofs::Loops::cells_go_on, crate::proofs::Loops::cells_stop_at, crate::proofs::Loops::cells_end), unfolding(crate::specs::Fields::cells_at))]
pub fn cells_at(alloc: Global, bytes: &[u8]) -> Result<(Cells, &[u8]), AllocError>
    ensures { IfOk result (λ x. (x.0, x.1.now) ≡ format.cells_at bytes.now) }
{
    let mut cells = Vec::new(alloc);
    let mut rest = bytes;
    for _ in 0..bytes.len() {
        match cell_at(alloc, after_one(rest))? {
            None => return Ok((Cells::from_vec(cells)?, rest)),
            Some((cell, after)) => {
                cells.push(cell)?;
                rest = after;
            }
        }
    }
    Ok((Cells::from_vec(cells)?, rest))
}

/// The row after a space, and what follows it. Fails for want of memory alone.
#[tactic(auto, unfolding(crate::specs::Fields::row_at, crate::specs::Fields::after_row))]
pub fn row_at(alloc: Global, bytes: &[u8]) -> Result<(Row, &[u8]), AllocError>
    ensures row { IfOk result (λ x. x.0 ≡ format.row_at bytes.now) }
    ensures after { IfOk result (λ x. x.1.now ≡ format.after_row bytes.now) }
{
    let (version, rest) = next(bytes);
    let (cells, rest) = cells_at(alloc, rest)?;
    Ok((
        Row {
            version: version_of(version),
            cells,
        },
        rest,
    ))
}
