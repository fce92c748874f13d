// The cells that tokens are, and whether they have the type of a column. Rows, statements, conditions and defaults ask.
ghost use Rattle.hib_mapping.specs.Cells as cells;
ghost use Rattle.std.specs.Prelude.{◌≡◌, IfOk};

use crate::tokens::is_number;
use hib_base::{Cell, ColumnType, Seq};
use hib_lex::{Token, is_the_word};
use std::alloc::{AllocError, Global};

/// The cell that a token is: a number, a text, `true` or `false`; none of another token. Fails for want of memory
/// alone.
pub fn cell(alloc: Global, token: &Token) -> Result<Option<Cell>, AllocError>
    ensures { IfOk result (λ c. c ≡ cells.cell_of token.now) }
{
    match token {
        Token::Number(n) => Ok(Some(Cell::Int(*n))),
        Token::Quoted(text) => {
            let text = text.as_slice().to_vec(alloc)?;
            Ok(Some(Cell::Text(Seq::from_vec(text))))
        }
        _ => Ok(truth(token)),
    }
}

fn truth(token: &Token) -> Option<Cell>
    ensures { result ≡ cells.truth_of token.now }
{
    if is_the_word(token, b"true") {
        Some(Cell::Bool(true))
    } else if is_the_word(token, b"false") {
        Some(Cell::Bool(false))
    } else {
        None
    }
}

fn is_truth(token: &Token) -> bool
    ensures { result ≡ cells.is_truth token.now }
{
    is_the_word(token, b"true") || is_the_word(token, b"false")
}

fn is_quoted(token: &Token) -> bool
    ensures { result ≡ cells.is_quoted token.now }
{
    matches!(token, Token::Quoted(_))
}

/// Whether a token is a cell.
pub fn is_a_cell(token: &Token) -> bool
    ensures { result ≡ cells.is_a_cell token.now }
{
    is_number(token) || is_quoted(token) || is_truth(token)
}

/// Whether a token is a cell of a column's type; a reference is a number.
pub fn is_cell_of(kind: ColumnType, token: &Token) -> bool
    ensures { result ≡ cells.is_cell_of kind token.now }
{
    match kind {
        ColumnType::Int | ColumnType::Ref(_) => is_number(token),
        ColumnType::Text => is_quoted(token),
        ColumnType::Bool => is_truth(token),
    }
}

/// Whether a cell has a column's type; a reference is a number.
pub fn has_type(kind: ColumnType, cell: &Cell) -> bool
    ensures { result ≡ cells.has_type kind cell.now }
{
    match (kind, cell) {
        (ColumnType::Int, Cell::Int(_))
        | (ColumnType::Ref(_), Cell::Int(_))
        | (ColumnType::Text, Cell::Text(_))
        | (ColumnType::Bool, Cell::Bool(_)) => true,
        _ => false,
    }
}
