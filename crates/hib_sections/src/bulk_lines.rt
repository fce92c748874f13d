// A bulk line of a section, token by token: `update` (it `sets` columns) or `delete`, a name, an entity, and a
// condition after `where`.
ghost use Rattle.std.specs.Prelude.{◌≡◌, ◌<◌, Ok, IfOk, IfErr, IfSome, length, option_map};
ghost use Rattle.std.specs.List.{list_all};
ghost use Rattle.hib_base.specs.Queries.{parts_in, parts_of};
ghost use Rattle.hib_columns.specs.Columns.{columns_of as columns_in};
ghost use Rattle.hib_mapping.specs.Parts.{entity_at, word_of};
ghost use Rattle.hib_statements.specs.Parts.{pairs_of};
ghost use Rattle.hib_sections.specs.BulkLines as lines;
ghost use Rattle.hib_sections.specs.Collections.{IsFault};

use crate::errors::LineError;
use hib_base::{Cond, EntityDef, EntityNo, Kind, Mapping, Path};
use hib_bulk_law::{BulkChange, BulkDef};
use hib_columns::columns_of;
use hib_criteria::{CriteriaError, check_condition};
use hib_lex::{Token, is_the_word};
use hib_mapping::{entity_number, is_word, word, word_bytes};
use hib_statements::{NamedSessions, Pairs, read_pairs};
use std::alloc::{AllocError, Global};

/// The most bulk lines.
const MOST_LINES: usize = 100;

/// What a line does with each row, and what is wrong with that.
#[derive(Drop)]
pub struct Changing {
    /// What it does.
    pub change: BulkChange,
    /// A column stands twice.
    pub is_taken: bool,
    /// A column isn't known.
    pub is_unknown: bool,
    /// A cell isn't of its column's type.
    pub is_mistyped: bool,
}

/// What stands behind a line's `where`.
#[derive(Drop)]
pub enum Behind {
    /// A condition; none if there is no `where`.
    Condition(Option<Cond>),
    /// No condition; this is wrong with it.
    Fault(Kind),
}

/// The place of the first `where`.
fn where_at(tokens: &[Token]) -> Option<usize>
    ensures place { result ≡ lines.where_at tokens.now }
    ensures there { IfSome result (λ n. n < length tokens.now) }
{
    tokens.iter().position(|token| is_the_word(token, b"where"))
}

/// What stands before the first `where`; all, if there is none.
fn before_where(tokens: &[Token]) -> &[Token]
    ensures { result.now ≡ lines.before_where tokens.now }
{
    match where_at(tokens) {
        Some(at) => &tokens[..at],
        None => tokens,
    }
}

/// The condition behind the first `where`, if there is one, or what is wrong with it.
fn condition_in(
    alloc: Global,
    mapping: &Mapping,
    entity: Option<EntityNo>,
    tokens: &[Token],
) -> Result<Behind, AllocError>
    ensures { IfOk result (λ c. lines.condition_in mapping.now entity tokens.now ≡ lines.parts_or c) }
{
    let Some(at) = where_at(tokens) else {
        return Ok(Behind::Condition(None));
    };
    match check_condition(alloc, mapping, entity, &tokens[at + 1..]) {
        Ok(condition) => Ok(Behind::Condition(Some(condition))),
        Err(CriteriaError::Fault(kind)) => Ok(Behind::Fault(kind)),
        Err(CriteriaError::NoMemory) => Err(AllocError),
    }
}

/// Whether what stands behind `where` has no form.
fn is_words(condition: &Behind) -> bool
    ensures { result ≡ lines.is_words (lines.parts_or condition.now) }
{
    matches!(condition, Behind::Fault(Kind::Words))
}

fn is_unknown(condition: &Behind) -> bool
    ensures { result ≡ lines.is_unknown (lines.parts_or condition.now) }
{
    matches!(condition, Behind::Fault(Kind::Unknown))
}

fn is_mistyped(condition: &Behind) -> bool
    ensures { result ≡ lines.is_mistyped (lines.parts_or condition.now) }
{
    matches!(condition, Behind::Fault(Kind::CellType))
}

/// Whether a path steps to one of the first `count` entities, if it steps to one.
fn is_step_within(count: usize, path: &Path) -> bool
    ensures { result ≡ lines.is_step_within count path.now }
{
    match path.target {
        Some(target) => usize::from(target.entity.0) < count,
        None => true,
    }
}

/// Whether a condition steps to the first `count` entities alone.
#[tactic(auto, using(crate::proofs::Within::and_within, crate::proofs::Within::or_within, crate::proofs::Within::one))]
fn is_within(count: usize, condition: &Cond) -> bool
    ensures { result ≡ list_all (lines.is_within count) (parts_of condition.now) }
{
    match condition {
        Cond::And(first, second) | Cond::Or(first, second) => is_within(count, first)
            && is_within(count, second),
        Cond::Not(only) => is_within(count, only),
        Cond::Test { path, .. } => is_step_within(count, path),
        Cond::Among { path, .. } => is_step_within(count, path),
    }
}

/// The same of a condition that may be left out.
fn are_within(count: usize, condition: &Option<Cond>) -> bool
    ensures { result ≡ list_all (lines.is_within count) (parts_in condition.now) }
{
    match condition {
        Some(condition) => is_within(count, condition),
        None => true,
    }
}

/// What pairs of columns and cells do with each row.
fn set_by(pairs: Pairs) -> Changing
    ensures { result ≡ lines.set_by pairs }
{
    Changing {
        change: BulkChange::Set(pairs.sets),
        is_taken: pairs.taken,
        is_unknown: pairs.unknown,
        is_mistyped: pairs.mistyped,
    }
}

/// What `set` and pairs do with each row; none if the tokens aren't these.
fn set_in(
    alloc: Global,
    mapping: &[EntityDef],
    entity: Option<EntityNo>,
    tokens: &[Token],
) -> Result<Option<Changing>, AllocError>
    ensures { IfOk result (λ x. x ≡ lines.set_in mapping.now entity tokens.now) }
{
    match tokens {
        [first, pairs @ ..] if is_the_word(first, b"set") => set_pairs(
            alloc, mapping, entity, pairs,
        ),
        _ => Ok(None),
    }
}

fn set_pairs(
    alloc: Global,
    mapping: &[EntityDef],
    entity: Option<EntityNo>,
    tokens: &[Token],
) -> Result<Option<Changing>, AllocError>
    ensures { IfOk result (λ x. x
        ≡ option_map lines.set_by (pairs_of (columns_in mapping.now entity) tokens.now)) }
{
    let pairs = read_pairs(alloc, columns_of(mapping, entity), tokens)?;
    Ok(pairs.map(set_by))
}

/// What `delete` does with each row; none if a token stands between the entity and `where`.
fn delete_in(tokens: &[Token]) -> Option<Changing>
    ensures { result ≡ lines.delete_in tokens.now }
{
    if !tokens.is_empty() {
        return None;
    }
    Some(Changing {
        change: BulkChange::Delete,
        is_taken: false,
        is_unknown: false,
        is_mistyped: false,
    })
}

/// What the tokens up to a `where` do with each row, behind `update` or `delete` and the entity's name.
fn changing_in(
    alloc: Global,
    sets: bool,
    mapping: &[EntityDef],
    entity: Option<EntityNo>,
    tokens: &[Token],
) -> Result<Option<Changing>, AllocError>
    ensures { IfOk result (λ x. x ≡ lines.changing_in sets mapping.now entity tokens.now) }
{
    if sets {
        set_in(alloc, mapping, entity, tokens)
    } else {
        Ok(delete_in(tokens))
    }
}

/// A bulk line of this name, unless something is wrong with its condition or there are too many.
fn with_parts(
    alloc: Global,
    mapping: &[EntityDef],
    count: usize,
    name: &Token,
    entity: EntityNo,
    change: BulkChange,
    condition: Behind,
) -> Result<BulkDef, LineError>
    ensures line { IfOk result (λ d. lines.with_parts mapping.now count (word_of name.now) entity
        change (lines.parts_or condition) ≡ Ok (lines.said_of d)) }
    ensures fault { IfErr result (IsFault (lines.with_parts mapping.now count (word_of name.now)
        entity change (lines.parts_or condition))) }
{
    let condition = match condition {
        Behind::Condition(condition) => condition,
        Behind::Fault(kind) => return Err(LineError::Fault(kind)),
    };
    if !are_within(mapping.len(), &condition) {
        return Err(LineError::Fault(Kind::Unknown));
    }
    if count >= MOST_LINES {
        return Err(LineError::Fault(Kind::Many));
    }
    Ok(BulkDef {
        name: word(alloc, name)?,
        entity,
        condition,
        change,
    })
}

/// A bulk line over the rows of this entity, or the first thing that is wrong with it of unknown, type and what comes
/// after these.
fn of_entity(
    alloc: Global,
    mapping: &[EntityDef],
    count: usize,
    name: &Token,
    entity: Option<EntityNo>,
    changing: Changing,
    condition: Behind,
) -> Result<BulkDef, LineError>
    ensures line { IfOk result (λ d. lines.if_known mapping.now count (word_of name.now) entity
        changing (lines.parts_or condition) ≡ Ok (lines.said_of d)) }
    ensures fault { IfErr result (IsFault (lines.if_known mapping.now count (word_of name.now)
        entity changing (lines.parts_or condition))) }
{
    let Some(entity) = entity else {
        return Err(LineError::Fault(Kind::Unknown));
    };
    if changing.is_unknown || is_unknown(&condition) {
        return Err(LineError::Fault(Kind::Unknown));
    }
    if changing.is_mistyped || is_mistyped(&condition) {
        return Err(LineError::Fault(Kind::CellType));
    }
    with_parts(
        alloc,
        mapping,
        count,
        name,
        entity,
        changing.change,
        condition,
    )
}

/// A bulk line over the rows of the entity of this name, or the first thing that is wrong with it.
fn of_named(
    alloc: Global,
    mapping: &[EntityDef],
    count: usize,
    name: &Token,
    entity: &Token,
    changing: Changing,
    condition: Behind,
) -> Result<BulkDef, LineError>
    ensures line { IfOk result (λ d. lines.if_known mapping.now count (word_of name.now)
        (entity_at mapping.now (word_of entity.now)) changing (lines.parts_or condition)
        ≡ Ok (lines.said_of d)) }
    ensures fault { IfErr result (IsFault (lines.if_known mapping.now count (word_of name.now)
        (entity_at mapping.now (word_of entity.now)) changing (lines.parts_or condition))) }
{
    let entity = entity_number(mapping, word_bytes(entity));
    of_entity(alloc, mapping, count, name, entity, changing, condition)
}

/// Whether a session or another line has this name, or a column stands twice.
fn is_taken(named: &NamedSessions, name: &Token, changing: &Changing) -> bool
    ensures { result ≡ lines.is_taken named.now (word_of name.now) changing.now }
{
    named.has(word_bytes(name)) || changing.is_taken
}

/// A bulk line that does this with each row, or the first thing that is wrong with it.
fn judged(
    alloc: Global,
    mapping: &[EntityDef],
    named: &NamedSessions,
    count: usize,
    name: &Token,
    entity: &Token,
    changing: Option<Changing>,
    condition: Behind,
) -> Result<BulkDef, LineError>
    ensures line { IfOk result (λ d. lines.if_changing mapping.now named.now count (word_of name.now)
        (entity_at mapping.now (word_of entity.now)) changing (lines.parts_or condition) ≡ Ok (lines.said_of d)) }
    ensures fault { IfErr result (IsFault (lines.if_changing mapping.now named.now count
        (word_of name.now) (entity_at mapping.now (word_of entity.now)) changing (lines.parts_or condition))) }
{
    let Some(changing) = changing else {
        return Err(LineError::Fault(Kind::Words));
    };
    if is_words(&condition) {
        return Err(LineError::Fault(Kind::Words));
    }
    if is_taken(named, name, &changing) {
        return Err(LineError::Fault(Kind::Taken));
    }
    of_named(alloc, mapping, count, name, entity, changing, condition)
}

/// A bulk line of these words with this condition, or the first thing that is wrong with it.
fn with_condition(
    alloc: Global,
    sets: bool,
    mapping: &[EntityDef],
    named: &NamedSessions,
    count: usize,
    name: &Token,
    entity: &Token,
    tokens: &[Token],
    condition: Behind,
) -> Result<BulkDef, LineError>
    ensures line { IfOk result (λ d. lines.with_condition sets mapping.now named.now count
        (word_of name.now) (entity_at mapping.now (word_of entity.now)) tokens.now (lines.parts_or condition) ≡ Ok (lines.said_of d)) }
    ensures fault { IfErr result (IsFault (lines.with_condition sets mapping.now named.now count
        (word_of name.now) (entity_at mapping.now (word_of entity.now)) tokens.now (lines.parts_or condition))) }
{
    let number = entity_number(mapping, word_bytes(entity));
    match changing_in(alloc, sets, mapping, number, before_where(tokens)) {
        Ok(changing) => judged(
            alloc, mapping, named, count, name, entity, changing, condition,
        ),
        Err(_) => Err(LineError::NoMemory),
    }
}

/// A bulk line of these words, or the first thing that is wrong with it.
fn of_words(
    alloc: Global,
    sets: bool,
    mapping: &Mapping,
    named: &NamedSessions,
    count: usize,
    name: &Token,
    entity: &Token,
    tokens: &[Token],
) -> Result<BulkDef, LineError>
    ensures line { IfOk result (λ d. lines.of_words sets mapping.now named.now count
        (word_of name.now) (entity_at mapping.now (word_of entity.now)) tokens.now ≡ Ok (lines.said_of d)) }
    ensures fault { IfErr result (IsFault (lines.of_words sets mapping.now named.now count
        (word_of name.now) (entity_at mapping.now (word_of entity.now)) tokens.now)) }
{
    let number = entity_number(mapping.as_slice(), word_bytes(entity));
    match condition_in(alloc, mapping, number, tokens) {
        Ok(condition) => with_condition(
            alloc,
            sets,
            mapping.as_slice(),
            named,
            count,
            name,
            entity,
            tokens,
            condition,
        ),
        Err(_) => Err(LineError::NoMemory),
    }
}

/// The bulk line of a line that begins with `update` or else `delete`, after `count` bulk lines and with these names
/// taken.
///
/// Errors: `Fault` exactly if it is none, with the first kind that it has of words, taken, unknown, type, depth and
/// many. `NoMemory` if there is none left. Nothing is changed.
pub fn bulk_line(
    alloc: Global,
    sets: bool,
    mapping: &Mapping,
    named: &NamedSessions,
    count: usize,
    tokens: &[Token],
) -> Result<BulkDef, LineError>
    ensures line { IfOk result (λ d. lines.bulk_of sets mapping.now named.now count tokens.now
        ≡ Ok (lines.said_of d)) }
    ensures fault { IfErr result
        (IsFault (lines.bulk_of sets mapping.now named.now count tokens.now)) }
{
    match tokens {
        [_, name, entity, behind @ ..] => {
            if !(is_word(name) && is_word(entity)) {
                return Err(LineError::Fault(Kind::Words));
            }
            of_words(alloc, sets, mapping, named, count, name, entity, behind)
        }
        _ => Err(LineError::Fault(Kind::Words)),
    }
}
