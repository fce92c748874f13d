// What several kinds of lines have: keys, cells, and pairs of a column and a cell, from their tokens.
ghost use Rattle.hib_statements.specs.Parts as parts;
ghost use Rattle.std.specs.Prelude.{◌≡◌, IfOk, length};

use hib_base::{Cell, Cells, ColumnDef, EntityDef, Key, Kind, Seq, Sets, Text};
use hib_columns::{Found, place_or_first, plain_column};
use hib_lex::Token;
use hib_mapping::{cell, entity_number, has_type, is_number, is_word, word, word_bytes};
use std::alloc::{AllocError, Global};

/// Whether tokens have the form of a key: an entity's name and a number.
pub fn is_key(name: &Token, id: &Token) -> bool
    ensures { result ≡ parts.is_key name.now id.now }
{
    is_word(name) && is_number(id)
}

/// The key of an entity's name and an identifier, or what is wrong with it.
pub fn key(mapping: &[EntityDef], name: &Token, id: &Token) -> Result<Key, Kind>
    ensures { result ≡ parts.key_of mapping.now name.now id.now }
{
    match entity_number(mapping, word_bytes(name)) {
        Some(entity) => {
            let id = size(id);
            if id >= 1 {
                Ok(Key { entity, id })
            } else {
                Err(Kind::Number)
            }
        }
        None => Err(Kind::Unknown),
    }
}

/// The identifier that a token is; 0 if it is none.
fn size(token: &Token) -> u64
    ensures { result ≡ parts.size_in token.now }
{
    match token {
        Token::Number(n) if *n >= 0 => *n as u64,
        _ => 0,
    }
}

/// The cells that tokens are, or none if one of them is no cell.
#[tactic(auto, using(crate::proofs::Cells::cells_done, crate::proofs::Cells::cells_more, crate::proofs::Cells::cells_bad))]
pub fn cells(alloc: Global, tokens: &[Token]) -> Result<Option<Cells>, AllocError>
    ensures { IfOk result (λ c. c ≡ parts.cells_of tokens.now) }
{
    let mut cells = Vec::with_capacity(alloc, tokens.len())?;
    for token in tokens {
        match cell(alloc, token)? {
            Some(cell) => cells.push(cell)?,
            None => return Ok(None),
        }
    }
    Ok(Some(Cells::from_vec(cells)?))
}

/// Whether each cell has the type of its column. There must be as many cells as columns.
#[tactic(auto, using(crate::proofs::Cells::typed_next, crate::proofs::Cells::typed_done))]
pub fn are_typed(columns: &[ColumnDef], cells: &[Cell]) -> bool
    requires { length columns.now ≡ length cells.now }
    ensures { result ≡ parts.are_typed columns.now cells.now }
{
    for i in 0..columns.len() {
        if !has_type(columns[i].kind, &cells[i]) {
            return false;
        }
    }
    true
}

/// Pairs of a column and a cell, as `set` and a bulk line have them, with what is wrong with them.
#[derive(Drop)]
pub struct Pairs {
    /// The cells by the places of their columns.
    pub sets: Sets,
    /// The names of the columns so far.
    pub names: Seq<Text>,
    /// A column stands twice.
    pub taken: bool,
    /// A column isn't known.
    pub unknown: bool,
    /// A cell isn't of its column's type.
    pub mistyped: bool,
}

/// What comes next among pairs.
#[derive(Clone, Copy)]
pub enum Awaited {
    /// A column's name.
    Name,
    /// The cell of this column.
    Value(Option<Found>),
}

/// Pairs as far as they were read. The draft is of pairs, not of a script.
#[derive(Drop)]
pub struct Draft {
    /// The pairs so far, with their faults.
    pub pairs: Pairs,
    /// What comes next.
    pub awaited: Awaited,
}

/// The pairs that tokens are; none if their form isn't that of pairs, or if there is no pair.
#[tactic(auto, using(crate::proofs::Cells::pairs_next, crate::proofs::Cells::pairs_done))]
pub fn read_pairs(
    alloc: Global,
    columns: &[ColumnDef],
    tokens: &[Token],
) -> Result<Option<Pairs>, AllocError>
    ensures { IfOk result (λ p. p ≡ parts.pairs_of columns.now tokens.now) }
{
    let mut draft = Draft {
        pairs: no_pairs(alloc, tokens.len() / 2)?,
        awaited: Awaited::Name,
    };
    for token in tokens {
        draft = match with_token(alloc, columns, draft, token)? {
            Some(next) => next,
            None => return Ok(None),
        };
    }
    Ok(ended(draft))
}

/// No pairs yet, with room for this many.
fn no_pairs(alloc: Global, count: usize) -> Result<Pairs, AllocError>
    ensures { IfOk result (λ p. p ≡ parts.no_pairs) }
{
    Ok(Pairs {
        sets: Seq::from_vec(Vec::with_capacity(alloc, count)?),
        names: Seq::new(alloc),
        taken: false,
        unknown: false,
        mistyped: false,
    })
}

/// The pairs, if there is one and each column has its cell.
fn ended(draft: Draft) -> Option<Pairs>
    ensures { result ≡ parts.ended draft }
{
    let Draft { pairs, awaited } = draft;
    if pairs.sets.len() > 0 && is_name(awaited) {
        Some(pairs)
    } else {
        None
    }
}

/// Whether a column's name may come next, so that no pair is half read.
fn is_name(awaited: Awaited) -> bool
    ensures { result ≡ parts.is_name awaited }
{
    matches!(awaited, Awaited::Name)
}

/// What was read of pairs after one more token; none if it can't stand there.
fn with_token(
    alloc: Global,
    columns: &[ColumnDef],
    draft: Draft,
    token: &Token,
) -> Result<Option<Draft>, AllocError>
    ensures { IfOk result (λ d. d ≡ parts.with_token columns.now draft token.now) }
{
    let Draft { pairs, awaited } = draft;
    match awaited {
        Awaited::Name => with_column(alloc, columns, pairs, token),
        Awaited::Value(found) => with_cell(pairs, found, cell(alloc, token)?),
    }
}

/// What was read of pairs after a column's name, whose cell comes next.
fn with_column(
    alloc: Global,
    columns: &[ColumnDef],
    mut pairs: Pairs,
    token: &Token,
) -> Result<Option<Draft>, AllocError>
    ensures { IfOk result (λ d. d ≡ parts.with_column columns.now pairs token.now) }
{
    if !is_word(token) {
        return Ok(None);
    }
    let found = plain_column(columns, word_bytes(token));
    let is_taken = has_name(pairs.names.as_slice(), word_bytes(token));
    pairs.taken = pairs.taken || is_taken;
    pairs.unknown = pairs.unknown || found.is_none();
    pairs.names.push(word(alloc, token)?)?;
    let awaited = Awaited::Value(found);
    Ok(Some(Draft { pairs, awaited }))
}

/// Whether a name is among those that have come.
fn has_name(names: &[Text], name: &[u8]) -> bool
    ensures { result ≡ parts.has_name names.now name.now }
{
    names.iter().any(|other| other.as_slice() == name)
}

/// What was read of pairs after the cell of this column; none if the token was no cell.
fn with_cell(
    pairs: Pairs,
    found: Option<Found>,
    cell: Option<Cell>,
) -> Result<Option<Draft>, AllocError>
    ensures { IfOk result (λ d. d ≡ parts.with_cell pairs found cell) }
{
    match cell {
        Some(cell) => {
            let pairs = with_pair(pairs, found, cell)?;
            Ok(Some(Draft {
                pairs,
                awaited: Awaited::Name,
            }))
        }
        None => Ok(None),
    }
}

/// The pairs with one more. If the cell isn't of its column's type, that is noted.
fn with_pair(mut pairs: Pairs, found: Option<Found>, cell: Cell) -> Result<Pairs, AllocError>
    ensures { IfOk result (λ p. p ≡ parts.with_pair pairs found cell) }
{
    let is_right = is_found(&found, &cell);
    pairs.mistyped = pairs.mistyped || !is_right;
    pairs.sets.push((place_or_first(found), cell))?;
    Ok(pairs)
}

/// Whether a cell has the type of its column. If the column isn't known, any cell will do.
fn is_found(found: &Option<Found>, cell: &Cell) -> bool
    ensures { result ≡ parts.is_found found.now cell.now }
{
    match found {
        Some(found) => has_type(found.kind, cell),
        None => true,
    }
}
