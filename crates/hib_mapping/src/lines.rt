// The entity and column lines: their forms, the first thing that is wrong with one (`..._kind`), and what it declares.
ghost use Rattle.hib_mapping.specs.Declarations as lines;
ghost use Rattle.hib_mapping.specs.Parts.{word_of};
ghost use Rattle.hib_mapping.specs.Cells.{cell_of};
ghost use Rattle.std.specs.Prelude.{◌≡◌, ◌&&◌, IfOk, bytes_eq, option_and_then, option_copied};

use crate::cells::{cell, is_a_cell, is_cell_of};
use crate::names::{column_place, entity_no, entity_number};
use crate::tokens::{is_number, is_within, is_word, number_up_to, word, word_bytes};
use hib_base::{
    Cell, ColumnDef, ColumnType, EntityDef, EntityNo, Kind, Seq, Strategy, has_defaults,
};
use hib_lex::{Token, is_the_word};
use std::alloc::{AllocError, Global};

/// The most entities of a mapping.
const MOST_ENTITIES: usize = 64;

/// The most columns of an entity.
const MOST_COLUMNS: usize = 16;

/// The most rows that a region keeps.
const MOST_CAPACITY: u32 = 100_000;

/// Whether a line that begins with `entity` is `entity NAME STRATEGY VERSIONING CAPACITY`.
pub fn is_entity_line(tokens: &[Token]) -> bool
    ensures { result ≡ lines.is_entity_line tokens.now }
{
    match tokens {
        [_, name, strategy, versioning, capacity] => is_word(name)
            && is_word(strategy)
            && is_versioning(versioning)
            && is_number(capacity),
        _ => false,
    }
}

fn is_versioned(token: &Token) -> bool
    ensures { result ≡ lines.is_versioned token.now }
{
    is_the_word(token, b"versioned")
}

fn is_versioning(token: &Token) -> bool
    ensures { result ≡ lines.is_versioning token.now }
{
    is_versioned(token) || is_the_word(token, b"plain")
}

/// The strategy that a word names.
fn strategy(token: &Token) -> Option<Strategy>
    ensures { result ≡ lines.strategy_of token.now }
{
    if is_the_word(token, b"none") {
        Some(Strategy::Uncached)
    } else if is_the_word(token, b"read-only") {
        Some(Strategy::ReadOnly)
    } else if is_the_word(token, b"nonstrict") {
        Some(Strategy::Nonstrict)
    } else if is_the_word(token, b"read-write") {
        Some(Strategy::ReadWrite)
    } else {
        None
    }
}

/// Whether a token is a capacity that an entity of this strategy may have.
fn is_capacity(strategy: Strategy, token: &Token) -> bool
    ensures { result ≡ lines.is_capacity strategy token.now }
{
    match strategy {
        Strategy::Uncached => is_within(token, 0, 0),
        _ => is_within(token, 1, MOST_CAPACITY),
    }
}

/// What is wrong with the strategy or the capacity of an entity line.
fn strategy_kind(strategy: Option<Strategy>, capacity: &Token) -> Option<Kind>
    ensures { result ≡ lines.strategy_kind strategy capacity.now }
{
    match strategy {
        None => Some(Kind::Strategy),
        Some(strategy) if is_capacity(strategy, capacity) => None,
        Some(_) => Some(Kind::Capacity),
    }
}

/// The first thing that is wrong with an entity line of this form after these entities, if anything. `followed` says
/// whether the next line is a column's.
pub fn entity_kind(mapping: &[EntityDef], followed: bool, tokens: &[Token]) -> Option<Kind>
    ensures { result ≡ lines.entity_kind mapping.now followed tokens.now }
{
    match tokens {
        [_, name, strategy, _, capacity] => parts_kind(mapping, followed, name, strategy, capacity),
        _ => None,
    }
}

/// The first thing that is wrong with an entity line that has its form; `followed` says whether a column's line
/// follows.
fn parts_kind(
    mapping: &[EntityDef],
    followed: bool,
    name: &Token,
    strategy_word: &Token,
    capacity: &Token,
) -> Option<Kind>
    ensures { result ≡ lines.parts_kind mapping.now followed name.now strategy_word.now
        capacity.now }
{
    if mapping.len() >= MOST_ENTITIES {
        return Some(Kind::ManyEntities);
    }
    if entity_number(mapping, word_bytes(name)).is_some() {
        return Some(Kind::EntityTaken);
    }
    or_no_columns(followed, strategy_kind(strategy(strategy_word), capacity))
}

/// This fault of an entity line, or else that no column's line follows.
fn or_no_columns(followed: bool, kind: Option<Kind>) -> Option<Kind>
    ensures { result ≡ lines.or_no_columns followed kind }
{
    match kind {
        Some(kind) => Some(kind),
        None if followed => None,
        None => Some(Kind::NoColumns),
    }
}

/// The entity that an entity line declares, without its columns; none if the line hasn't its form.
/// Fails for want of memory alone.
pub fn entity(alloc: Global, tokens: &[Token]) -> Result<Option<EntityDef>, AllocError>
    ensures { IfOk result (λ e. e ≡ lines.entity_of tokens.now) }
{
    let [_, name, strategy_word, versioning, capacity] = tokens else {
        return Ok(None);
    };
    Ok(Some(EntityDef {
        name: word(alloc, name)?,
        strategy: strategy(strategy_word).unwrap_or(Strategy::Uncached),
        versioned: is_versioned(versioning),
        capacity: number_up_to(capacity, MOST_CAPACITY),
        columns: Seq::new(alloc),
    }))
}

/// Whether a line that begins with `column` is `column NAME TYPE`, where TYPE is a word, or `ref` and an entity's name,
/// or has this and after it `default` and a cell.
pub fn is_column_line(tokens: &[Token]) -> bool
    ensures { result ≡ lines.is_column_line tokens.now }
{
    match tokens {
        [_, name, rest @ ..] => is_word(name) && is_described(rest),
        _ => false,
    }
}

/// Whether tokens have the form of what stands after a column's name.
fn is_described(tokens: &[Token]) -> bool
    ensures { result ≡ lines.is_described tokens.now }
{
    match tokens {
        [kind] => is_plain(kind),
        [kind, target] => is_reference(kind, target),
        [kind, word, cell] => is_plain_default(kind, word, cell),
        [kind, target, word, cell] => is_reference_default(kind, target, word, cell),
        _ => false,
    }
}

fn is_plain_default(kind: &Token, word: &Token, cell: &Token) -> bool
    ensures { result ≡ lines.is_plain kind.now && lines.is_default word.now cell.now }
{
    is_plain(kind) && is_default(word, cell)
}

fn is_reference_default(kind: &Token, target: &Token, word: &Token, cell: &Token) -> bool
    ensures { result ≡ lines.is_reference kind.now target.now && lines.is_default word.now
        cell.now }
{
    is_reference(kind, target) && is_default(word, cell)
}

fn is_plain(kind: &Token) -> bool
    ensures { result ≡ lines.is_plain kind.now }
{
    is_word(kind) && !is_the_word(kind, b"ref")
}

fn is_reference(kind: &Token, target: &Token) -> bool
    ensures { result ≡ lines.is_reference kind.now target.now }
{
    is_the_word(kind, b"ref") && is_word(target)
}

/// Whether two tokens have the form of a default: its word and a cell.
fn is_default(word: &Token, cell: &Token) -> bool
    ensures { result ≡ lines.is_default word.now cell.now }
{
    is_the_word(word, b"default") && is_a_cell(cell)
}

/// The tokens of a column's type, among those after its name: one, or `ref` and an entity. The word `default` and a
/// cell may follow.
#[tactic(auto, using(crate::proofs::Columns::type_of_three, crate::proofs::Columns::type_of_four, crate::proofs::Columns::type_of_others))]
fn type_tokens(tokens: &[Token]) -> &[Token]
    ensures { result.now ≡ lines.type_in tokens.now }
{
    match tokens.len() {
        3 => &tokens[..1],
        4 => &tokens[..2],
        _ => tokens,
    }
}

/// The token that is a column's default, among those after its name, if it has one.
fn default_token(tokens: &[Token]) -> Option<&Token>
    ensures { option_copied result ≡ lines.default_in tokens.now }
{
    match tokens {
        [_, _, cell] => Some(cell),
        [_, _, _, cell] => Some(cell),
        _ => None,
    }
}

/// The type that a word names, if it isn't a reference.
fn plain_type(token: &Token) -> Option<ColumnType>
    ensures { result ≡ lines.type_of token.now }
{
    if is_the_word(token, b"int") {
        Some(ColumnType::Int)
    } else if is_the_word(token, b"text") {
        Some(ColumnType::Text)
    } else if is_the_word(token, b"bool") {
        Some(ColumnType::Bool)
    } else {
        None
    }
}

/// The entity that a reference leads to: the one whose column it is, or one that was declared before.
fn target(mapping: &[EntityDef], entity: &EntityDef, token: &Token) -> Option<EntityNo>
    ensures { result ≡ lines.target_of mapping.now entity.now token.now }
{
    if is_name_of(entity, token) {
        entity_no(mapping.len())
    } else {
        entity_number(mapping, word_bytes(token))
    }
}

fn is_name_of(entity: &EntityDef, token: &Token) -> bool
    ensures { result ≡ bytes_eq entity.now.name (word_of token.now) }
{
    entity.name.as_slice() == word_bytes(token)
}

/// What is wrong with the tokens of a column's type. There are one or two of them, as was looked at before.
fn type_kind(mapping: &[EntityDef], entity: &EntityDef, tokens: &[Token]) -> Option<Kind>
    ensures { result ≡ lines.type_kind mapping.now entity.now tokens.now }
{
    match tokens {
        [kind] => kind_unless_type(plain_type(kind)),
        [_, name] => kind_unless_target(target(mapping, entity, name)),
        _ => None,
    }
}

/// The fault of a column line in which no type was found.
fn kind_unless_type(found: Option<ColumnType>) -> Option<Kind>
    ensures { result ≡ lines.kind_unless Kind.ColumnType found }
{
    match found {
        Some(_) => None,
        None => Some(Kind::ColumnType),
    }
}

/// The fault of a column line in which the entity that it refers to wasn't found.
fn kind_unless_target(found: Option<EntityNo>) -> Option<Kind>
    ensures { result ≡ lines.kind_unless Kind.RefUnknown found }
{
    match found {
        Some(_) => None,
        None => Some(Kind::RefUnknown),
    }
}

/// The type that tokens name. If they name none, the line has a fault, and this is any type.
fn type_from(mapping: &[EntityDef], entity: &EntityDef, tokens: &[Token]) -> ColumnType
    ensures { result ≡ lines.type_from mapping.now entity.now tokens.now }
{
    match tokens {
        [kind] => plain_type(kind).unwrap_or(ColumnType::Int),
        [_, name] => ColumnType::Ref(target(mapping, entity, name).unwrap_or(EntityNo(0))),
        _ => ColumnType::Int,
    }
}

/// The fault of a column's default, unless it is fine.
fn default_unless(fine: bool) -> Option<Kind>
    ensures { result ≡ lines.default_unless fine }
{
    if fine { None } else { Some(Kind::Default) }
}

/// What is wrong with a column's default: it must have the column's type, and may not be missing behind another.
fn default_kind(columns: &[ColumnDef], kind: ColumnType, default: Option<&Token>) -> Option<Kind>
    ensures { result ≡ lines.default_kind columns.now kind (option_copied default.entry) }
{
    match default {
        Some(token) => default_unless(is_cell_of(kind, token)),
        None => default_unless(!has_defaults(columns)),
    }
}

/// The first thing that is wrong with a column line of this form, for one more column of this entity, after the
/// entities of `mapping`.
pub fn column_kind(mapping: &[EntityDef], entity: &EntityDef, tokens: &[Token]) -> Option<Kind>
    ensures { result ≡ lines.column_kind mapping.now entity.now tokens.now }
{
    let [_, name, rest @ ..] = tokens else {
        return None;
    };
    if entity.columns.len() >= MOST_COLUMNS {
        return Some(Kind::ManyColumns);
    }
    if column_place(entity.columns.as_slice(), word_bytes(name)).is_some() {
        return Some(Kind::ColumnTaken);
    }
    rest_kind(mapping, entity, rest)
}

/// The first thing that is wrong with what stands after a column's name.
fn rest_kind(mapping: &[EntityDef], entity: &EntityDef, tokens: &[Token]) -> Option<Kind>
    ensures { result ≡ lines.rest_kind mapping.now entity.now tokens.now }
{
    let kind = type_tokens(tokens);
    match type_kind(mapping, entity, kind) {
        Some(kind) => Some(kind),
        None => default_kind(
            entity.columns.as_slice(),
            type_from(mapping, entity, kind),
            default_token(tokens),
        ),
    }
}

/// The cell that is a column's default, if it has one.
fn default_cell(alloc: Global, token: Option<&Token>) -> Result<Option<Cell>, AllocError>
    ensures { IfOk result (λ c. c ≡ option_and_then cell_of (option_copied token.entry)) }
{
    match token {
        Some(token) => cell(alloc, token),
        None => Ok(None),
    }
}

/// The column that a line declares.
fn column(
    alloc: Global,
    mapping: &[EntityDef],
    entity: &EntityDef,
    name: &Token,
    rest: &[Token],
) -> Result<ColumnDef, AllocError>
    ensures { IfOk result (λ d. d ≡ lines.column_of mapping.now entity.now name.now rest.now) }
{
    Ok(ColumnDef {
        name: word(alloc, name)?,
        kind: type_from(mapping, entity, type_tokens(rest)),
        default: default_cell(alloc, default_token(rest))?,
    })
}

/// The entity with the column of this line. Fails for want of memory alone.
pub fn with_column(
    alloc: Global,
    mapping: &[EntityDef],
    mut entity: EntityDef,
    tokens: &[Token],
) -> Result<EntityDef, AllocError>
    ensures { IfOk result (λ e. e ≡ lines.with_column mapping.now entity tokens.now) }
{
    let [_, name, rest @ ..] = tokens else {
        return Ok(entity);
    };
    let column = column(alloc, mapping, &entity, name, rest)?;
    entity.columns.push(column)?;
    Ok(entity)
}
