// The row that a line gives, or its first fault. What is told of a row is what stands after its key.
ghost use Rattle.hib_lex.specs.Tokens as digits_of;
ghost use Rattle.hib_mapping.specs.Parts.{entity_at, word_of};
ghost use Rattle.hib_statements.specs.Rows as told_rows;
ghost use Rattle.std.specs.Prelude.{◌≡◌, IfOk, IfErr, None, if◌then◌else◌};

use crate::errors::StatementError;
use crate::given::Given;
use crate::parts::{are_typed, cells, is_key, key};
use crate::statements::named_columns;
use hib_base::{Cells, ColumnDef, EntityDef, EntityNo, Key, Kind, Mapping, Row};
use hib_lex::{Token, is_natural, size_of_digits};
use hib_mapping::{entity_number, word_bytes};
use std::alloc::{AllocError, Global};

/// The greatest version of a row.
const MOST_VERSION: u32 = 1_000_000;

/// What stands after the key of a row.
#[derive(Drop)]
pub struct Told {
    /// The version, if one stands there; one above the greatest is told as the number after that.
    pub version: Option<u32>,
    /// The cells.
    pub cells: Cells,
}

/// The key and the row of a row line, over a mapping and the rows that were given before.
///
/// Errors: `Fault` exactly if the line is no row, with the first kind that it has of words, taken, unknown, number,
/// cells and type; `NoMemory` if there is none left. Nothing is changed.
pub fn row(
    alloc: Global,
    mapping: &Mapping,
    rows: &Given,
    line: &[Token],
) -> Result<(Key, Row), StatementError>
    ensures said { IfOk result (λ x. told_rows.row_of mapping.now rows.now line.now ≡ Ok x) }
    ensures fault { IfErr result (told_rows.IsWhyNot
        (told_rows.row_of mapping.now rows.now line.now)) }
{
    match line {
        [_, name, id, rest @ ..] => row_parts(alloc, mapping.as_slice(), rows, name, id, rest),
        _ => Err(StatementError::Fault(Kind::Words)),
    }
}

/// The row of an entity's name, an identifier and what stands after them.
fn row_parts(
    alloc: Global,
    mapping: &[EntityDef],
    rows: &Given,
    name: &Token,
    id: &Token,
    rest: &[Token],
) -> Result<(Key, Row), StatementError>
    ensures said { IfOk result (λ x. told_rows.row_parts mapping.now rows.now name.now id.now
        rest.now ≡ Ok x) }
    ensures fault { IfErr result (told_rows.IsWhyNot
        (told_rows.row_parts mapping.now rows.now name.now id.now rest.now)) }
{
    if !is_key(name, id) {
        return Err(StatementError::Fault(Kind::Words));
    }
    let told = told_in(alloc, versioning(mapping, name), rest)?;
    let columns = named_columns(mapping, name);
    judged(row_told(columns, rows, key(mapping, name, id), told))
}

/// A row, or the fault of its line as this crate answers it.
fn judged(row: Result<(Key, Row), Kind>) -> Result<(Key, Row), StatementError>
    ensures said { IfOk result (λ x. row ≡ Ok x) }
    ensures fault { IfErr result (told_rows.IsWhyNot row) }
{
    match row {
        Ok(row) => Ok(row),
        Err(kind) => Err(StatementError::Fault(kind)),
    }
}

/// Whether the entity of this name is versioned; none if there is no such entity.
fn versioning(mapping: &[EntityDef], name: &Token) -> Option<bool>
    ensures { result ≡ told_rows.versioning_in mapping.now
        (entity_at mapping.now (word_of name.now)) }
{
    match entity_number(mapping, word_bytes(name)) {
        Some(entity) => entity_versioning(mapping, entity),
        None => None,
    }
}

/// Whether an entity is versioned; none if it isn't declared.
fn entity_versioning(mapping: &[EntityDef], entity: EntityNo) -> Option<bool>
    ensures { result ≡ told_rows.versioning_at mapping.now entity }
{
    match mapping.get(usize::from(entity.0)) {
        Some(entity) => Some(entity.versioned),
        None => None,
    }
}

/// What these tokens tell of a row, by whether its entity is versioned; if the entity isn't known, either form will do.
fn told_in(
    alloc: Global,
    versioned: Option<bool>,
    tokens: &[Token],
) -> Result<Option<Told>, AllocError>
    ensures { IfOk result (λ t. t ≡ told_rows.told_in versioned tokens.now) }
{
    match versioned {
        Some(true) => versioned_told(alloc, tokens),
        Some(false) => plain_told(alloc, tokens),
        None => told_of_unknown(alloc, tokens),
    }
}

/// What tokens tell of a row whose entity isn't known: with a version, or without one.
fn told_of_unknown(alloc: Global, tokens: &[Token]) -> Result<Option<Told>, AllocError>
    ensures { IfOk result (λ t. t ≡ told_rows.or_plain tokens.now
        (told_rows.versioned_told tokens.now)) }
{
    match versioned_told(alloc, tokens)? {
        Some(told) => Ok(Some(told)),
        None => plain_told(alloc, tokens),
    }
}

/// What tokens tell of a row without a version: its cells.
fn plain_told(alloc: Global, tokens: &[Token]) -> Result<Option<Told>, AllocError>
    ensures { IfOk result (λ t. t ≡ told_rows.plain_told tokens.now) }
{
    Ok(with_version(None, cells(alloc, tokens)?))
}

/// What tokens tell of a row with a version: this first, then its cells.
fn versioned_told(alloc: Global, tokens: &[Token]) -> Result<Option<Told>, AllocError>
    ensures { IfOk result (λ t. t ≡ told_rows.versioned_told tokens.now) }
{
    match tokens {
        [] => Ok(None),
        [first, rest @ ..] => behind_version(alloc, version(first), rest),
    }
}

/// What is told by a version, if there is one, and the cells behind it.
fn behind_version(
    alloc: Global,
    version: Option<u32>,
    tokens: &[Token],
) -> Result<Option<Told>, AllocError>
    ensures { IfOk result (λ t. t ≡ told_rows.behind_version version tokens.now) }
{
    match version {
        Some(version) => Ok(with_version(Some(version), cells(alloc, tokens)?)),
        None => Ok(None),
    }
}

/// What is told by a version and cells, if there are cells.
fn with_version(version: Option<u32>, cells: Option<Cells>) -> Option<Told>
    ensures { result ≡ told_rows.with_version version cells }
{
    match cells {
        Some(cells) => Some(Told { version, cells }),
        None => None,
    }
}

/// The version that a word `vN` is.
fn version(token: &Token) -> Option<u32>
    ensures { result ≡ told_rows.version_of token.now }
{
    match token {
        Token::Word(word) => version_word(word.as_slice()),
        _ => None,
    }
}

/// The version that the bytes of a word `vN` are.
fn version_word(word: &[u8]) -> Option<u32>
    ensures { result ≡ told_rows.version_word word.now }
{
    match word {
        [] => None,
        [first, digits @ ..] => version_digits(*first == b'v', digits),
    }
}

/// The version that digits are, if they stand after a `v`.
fn version_digits(is_version: bool, digits: &[u8]) -> Option<u32>
    ensures { result ≡ (if is_version then told_rows.size_named digits.now else None) }
{
    if is_version && is_natural(digits) {
        Some(capped(digits))
    } else {
        None
    }
}

/// The version that digits are; one above the greatest counts as the number after that.
#[tactic(auto, using(crate::proofs::Digits::capped_above, crate::proofs::Digits::capped_within))]
fn capped(digits: &[u8]) -> u32
    ensures { result ≡ told_rows.capped (digits_of.size_of digits.now) }
{
    match size_of_digits(digits) {
        Some(size) if size <= u64::from(MOST_VERSION) => size as u32,
        _ => MOST_VERSION + 1,
    }
}

/// The row of a key and of what is told after it, or the first thing that is wrong.
fn row_told(
    columns: &[ColumnDef],
    rows: &Given,
    key: Result<Key, Kind>,
    told: Option<Told>,
) -> Result<(Key, Row), Kind>
    ensures { result ≡ told_rows.row_told columns.now rows.now key told }
{
    match told {
        Some(told) => row_from(columns, rows, key, told),
        None => Err(Kind::Words),
    }
}

/// The row of a key, if the key has none yet, and of what is told.
fn row_from(
    columns: &[ColumnDef],
    rows: &Given,
    key: Result<Key, Kind>,
    told: Told,
) -> Result<(Key, Row), Kind>
    ensures { result ≡ told_rows.row_from columns.now rows.now key told }
{
    match key {
        Ok(key) if rows.has(key) => Err(Kind::Taken),
        Ok(key) => fitted_row(columns, key, told),
        Err(kind) => Err(kind),
    }
}

/// The row, if its version is small enough and its cells fit the columns.
fn fitted_row(columns: &[ColumnDef], key: Key, told: Told) -> Result<(Key, Row), Kind>
    ensures { result ≡ told_rows.fitted_row columns.now key told }
{
    let Told { version, cells } = told;
    if !is_small_version(version) {
        return Err(Kind::Number);
    }
    if columns.len() != cells.len() {
        return Err(Kind::Cells);
    }
    if are_typed(columns, cells.as_slice()) {
        Ok((key, Row { version, cells }))
    } else {
        Err(Kind::CellType)
    }
}

fn is_small_version(version: Option<u32>) -> bool
    ensures { result ≡ told_rows.is_small_version version }
{
    match version {
        Some(version) => version <= MOST_VERSION,
        None => true,
    }
}
