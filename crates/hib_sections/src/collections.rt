// The section lines of collections: each names an entity's column that refers to owners.
ghost use Rattle.std.specs.Prelude.{◌≡◌, ◌∷◌, ◌++◌, [], IfOk, IfErr, OnOk, OnErr, Ok};
ghost use Rattle.hib_script.specs.Script.{IsWhere};
ghost use Rattle.hib_sections.specs.Collections as lines;

use crate::errors::LineError;
use crate::schedules::other_order;
use hib_base::{ColumnType, EntityDef, EntityNo, Kind, Mapping, Refused, Seq};
use hib_collections_law::{Def, Defs};
use hib_columns::{columns_of, plain_column};
use hib_lex::{Line, Token, begins};
use hib_mapping::{
    entity_number, is_number, is_reserved, is_within, is_word, number_up_to, word, word_bytes,
};
use hib_script::ScriptError;
use std::alloc::Global;

/// The most owners for which a collection has room.
const MOST_OWNERS: u32 = 100_000;

/// The most collections.
const MOST_COLLECTIONS: usize = 64;

fn has_name(name: &[u8], defs: &[Def]) -> bool
    ensures { result ≡ lines.has_name name.now defs.now }
{
    defs.iter().any(|def| def.name.as_slice() == name)
}

fn has_column(entity: EntityNo, column: u16, defs: &[Def]) -> bool
    ensures { result ≡ lines.has_column entity column defs.now }
{
    defs.iter()
        .any(|def| def.entity == entity && def.column == column)
}

fn is_versioned(mapping: &[EntityDef], entity: EntityNo) -> bool
    ensures { result ≡ lines.is_versioned mapping.now entity }
{
    match mapping.get(usize::from(entity.0)) {
        Some(def) => def.versioned,
        None => false,
    }
}

/// The place of the column of this name, if it refers.
fn reference(mapping: &[EntityDef], entity: Option<EntityNo>, name: &[u8]) -> Option<u16>
    ensures { result ≡ lines.reference mapping.now entity name.now }
{
    let found = plain_column(columns_of(mapping, entity), name)?;
    match found.kind {
        ColumnType::Ref(_) => Some(found.place),
        _ => None,
    }
}

/// What a line says of a collection beside its name.
#[derive(Clone, Copy)]
struct Place {
    /// The entity of the rows that refer.
    entity: EntityNo,
    /// The place of the column in which they refer.
    column: u16,
    /// For how many owners there is room.
    capacity: u32,
}

/// A collection over a column, or what is wrong with it.
fn at_column(
    mapping: &[EntityDef],
    defs: &[Def],
    capacity: &Token,
    entity: EntityNo,
    column: u16,
) -> Result<Place, Kind>
    ensures { result ≡ lines.at_column mapping.now defs.now capacity.now entity column }
{
    if has_column(entity, column, defs) {
        Err(Kind::Taken)
    } else if !is_within(capacity, 1, MOST_OWNERS) {
        Err(Kind::Number)
    } else if !is_versioned(mapping, entity) {
        Err(Kind::Plain)
    } else if defs.len() >= MOST_COLLECTIONS {
        Err(Kind::Many)
    } else {
        Ok(Place {
            entity,
            column,
            capacity: number_up_to(capacity, MOST_OWNERS),
        })
    }
}

/// A collection over a column of this name, or what is wrong with it.
fn in_entity(
    mapping: &[EntityDef],
    defs: &[Def],
    entity: Option<EntityNo>,
    column: &Token,
    capacity: &Token,
) -> Result<Place, Kind>
    ensures { result ≡ lines.in_entity mapping.now defs.now entity column.now capacity.now }
{
    match (entity, reference(mapping, entity, word_bytes(column))) {
        (Some(entity), Some(column)) => at_column(mapping, defs, capacity, entity, column),
        _ => Err(Kind::Unknown),
    }
}

/// Whether tokens are a name, an entity's name, a column's name and a number.
fn is_form(name: &Token, entity: &Token, column: &Token, capacity: &Token) -> bool
    ensures { result ≡ lines.is_form name.now entity.now column.now capacity.now }
{
    is_word(name) && is_word(entity) && is_word(column) && is_number(capacity)
}

/// The collection that a line of five tokens declares, or what is wrong with it.
fn declared_by(
    mapping: &[EntityDef],
    defs: &[Def],
    name: &Token,
    entity: &Token,
    column: &Token,
    capacity: &Token,
) -> Result<Place, Kind>
    ensures { result ≡ lines.declared_by mapping.now defs.now name.now entity.now column.now
        capacity.now }
{
    if !is_form(name, entity, column, capacity) {
        return Err(Kind::Words);
    }
    if is_reserved(word_bytes(name)) {
        return Err(Kind::Reserved);
    }
    if has_name(word_bytes(name), defs) {
        return Err(Kind::Taken);
    }
    let entity = entity_number(mapping, word_bytes(entity));
    in_entity(mapping, defs, entity, column, capacity)
}

/// The collection that a line declares which begins with `collection`, or what is wrong with it.
fn declared_in(mapping: &[EntityDef], defs: &[Def], tokens: &[Token]) -> Result<Place, Kind>
    ensures { result ≡ lines.declared_in mapping.now defs.now tokens.now }
{
    match tokens {
        [_, name, entity, column, capacity] => {
            declared_by(mapping, defs, name, entity, column, capacity)
        }
        _ => Err(Kind::Words),
    }
}

/// The collection that a line declares, or what is wrong with it.
fn placed(mapping: &[EntityDef], defs: &[Def], tokens: &[Token]) -> Result<Place, Kind>
    ensures { result ≡ lines.place_of mapping.now defs.now tokens.now }
{
    if begins(tokens, b"collection") {
        declared_in(mapping, defs, tokens)
    } else {
        Err(Kind::Line)
    }
}

/// A collection with the name that its line gives it.
fn named(alloc: Global, tokens: &[Token], place: Place) -> Result<Def, LineError>
    ensures def { IfOk result (λ d. lines.named tokens.now place ≡ Ok d) }
    ensures fault { IfErr result (lines.IsFault (lines.named tokens.now place)) }
{
    match tokens {
        [_, name, ..] => Ok(Def {
            name: word(alloc, name)?,
            entity: place.entity,
            column: place.column,
            capacity: place.capacity,
        }),
        _ => Err(LineError::Fault(Kind::Words)),
    }
}

/// The collection of a line after those so far, or what is wrong with it.
fn collection(
    alloc: Global,
    mapping: &[EntityDef],
    defs: &[Def],
    tokens: &[Token],
) -> Result<Def, LineError>
    ensures def { IfOk result (λ d. lines.collection_of mapping.now defs.now tokens.now ≡ Ok d) }
    ensures fault { IfErr result
        (lines.IsFault (lines.collection_of mapping.now defs.now tokens.now)) }
{
    match placed(mapping, defs, tokens) {
        Ok(place) => named(alloc, tokens, place),
        Err(kind) => Err(LineError::Fault(kind)),
    }
}

/// Takes one more line.
fn take_line(
    alloc: Global,
    mapping: &[EntityDef],
    defs: &mut Defs,
    line: &Line,
) -> Result<(), ScriptError>
    ensures line { OnOk result (lines.with_line mapping.now defs.old line.now ≡ Ok defs.new) }
    ensures refused { IfErr result
        (IsWhere (lines.with_line mapping.now defs.old line.now)) }
{
    match collection(alloc, mapping, defs.as_slice(), line.tokens.as_slice()) {
        Ok(def) => Ok(defs.push(def)?),
        Err(LineError::Fault(kind)) => Err(ScriptError::Refused(Refused {
            line: line.line,
            kind,
        })),
        Err(LineError::NoMemory) => Err(ScriptError::NoMemory),
    }
}

/// The collections that the lines of a section declare, over a script's mapping; the lines of the script stand before
/// them.
///
/// There are at most 64, each of an entity whose rows have versions.
///
/// Errors: `Refused` exactly if the lines are no such section, with the first bad line of both and the first kind that
/// it has of order, line, words, reserved, taken, unknown, number, plain and many. An order other than `run` stands in
/// the script's schedule. `NoMemory` if there is none left. Nothing is changed.
pub fn read_collections(
    alloc: Global,
    mapping: &Mapping,
    before: &[Line],
    behind: &[Line],
) -> Result<Defs, ScriptError>
    ensures defs { IfOk result (λ ds. lines.collections_of mapping.now before.now behind.now
        ≡ Ok ds) }
    ensures fit { IfOk result (lines.AreFit mapping.now) }
    ensures refused { IfErr result
        (IsWhere (lines.collections_of mapping.now before.now behind.now)) }
{
    collections_said(alloc, mapping, before, behind)
}

/// The collections that the lines say.
fn collections_said(
    alloc: Global,
    mapping: &Mapping,
    before: &[Line],
    behind: &[Line],
) -> Result<Defs, ScriptError>
    ensures defs { IfOk result (λ ds. lines.collections_of mapping.now before.now behind.now
        ≡ Ok ds) }
    ensures refused { IfErr result
        (IsWhere (lines.collections_of mapping.now before.now behind.now)) }
{
    if let Some(line) = other_order(before) {
        return Err(ScriptError::Refused(Refused {
            line,
            kind: Kind::Order,
        }));
    }
    declared(alloc, mapping.as_slice(), behind)
}

/// The collections of these lines.
#[tactic(auto, using(crate::proofs::Declared::declaring_next, crate::proofs::Declared::declaring_done, crate::proofs::Declared::where_on))]
fn declared(alloc: Global, mapping: &[EntityDef], section: &[Line]) -> Result<Defs, ScriptError>
    ensures defs { IfOk result (λ ds. lines.declaring mapping.now (Ok []) section.now ≡ Ok ds) }
    ensures refused { IfErr result
        (IsWhere (lines.declaring mapping.now (Ok []) section.now)) }
{
    let mut defs = Seq::new(alloc);
    for line in section {
        take_line(alloc, mapping, &mut defs, line)?;
    }
    Ok(defs)
}
