// The lines before the sessions: header, settings, entities with their columns, rows and queries. `..._line` takes one
// line into the draft; `with_...` and `new_...` put in what it declares, or say what is wrong.
ghost use Rattle.hib_script.specs.Drafts.{reader_of};
ghost use Rattle.hib_script.specs.Lines as lines;
ghost use Rattle.hib_criteria.specs.Query.{said};
ghost use Rattle.std.specs.List.{list_any};
ghost use Rattle.std.specs.Prelude.{◌≡◌, IfOk, IfErr, OnOk, Ok, bytes_eq};

use crate::drafts::{Draft, behind, has_room};
use crate::errors::LineError;
use crate::forms::{is_header, name_in, number_line};
use crate::places::Part;
use hib_base::{EntityDef, Key, Kind, Query, Row};
use hib_criteria::{CriteriaError, check};
use hib_lex::Token;
use hib_mapping::{
    column_kind, entity, entity_kind, is_column_line, is_entity_line, is_reserved, with_column,
};
use hib_statements::{StatementError, row};
use std::alloc::Global;

/// The most ticks of a timeout.
const MOST_TIMEOUT: u32 = 1_000_000;

/// The most results that are kept.
const MOST_RESULTS: u32 = 100_000;

/// The most rows of a script.
const MOST_ROWS: usize = 10_000;

/// The most queries of a script.
const MOST_QUERIES: usize = 1_000;

/// The line `hib 1`.
pub fn header_line(draft: &mut Draft, tokens: &[Token]) -> Result<(), LineError>
    ensures step { OnOk result (lines.header_line (reader_of draft.old) tokens.now
        ≡ Ok (reader_of draft.new)) }
    ensures fault { IfErr result (lines.IsFault
        (lines.header_line (reader_of draft.old) tokens.now)) }
{
    if is_header(tokens) {
        behind(Part::Header, draft);
        Ok(())
    } else {
        Err(LineError::Fault(Kind::Header))
    }
}

/// `timeout N`: how many ticks a lock is good, and how far a stamp lies ahead.
pub fn timeout_line(draft: &mut Draft, tokens: &[Token]) -> Result<(), LineError>
    ensures step { OnOk result (lines.timeout_line (reader_of draft.old) tokens.now
        ≡ Ok (reader_of draft.new)) }
    ensures fault { IfErr result (lines.IsFault
        (lines.timeout_line (reader_of draft.old) tokens.now)) }
{
    with_timeout(draft, number_line(MOST_TIMEOUT, tokens))
}

fn with_timeout(draft: &mut Draft, timeout: Result<u32, Kind>) -> Result<(), LineError>
    ensures step { OnOk result (lines.with_timeout (reader_of draft.old) timeout
        ≡ Ok (reader_of draft.new)) }
    ensures fault { IfErr result (lines.IsFault
        (lines.with_timeout (reader_of draft.old) timeout)) }
{
    match timeout {
        Ok(timeout) => {
            draft.script.timeout = timeout;
            behind(Part::Timeout, draft);
            Ok(())
        }
        Err(kind) => Err(LineError::Fault(kind)),
    }
}

/// `results N`.
pub fn results_line(draft: &mut Draft, tokens: &[Token]) -> Result<(), LineError>
    ensures step { OnOk result (lines.results_line (reader_of draft.old) tokens.now
        ≡ Ok (reader_of draft.new)) }
    ensures fault { IfErr result (lines.IsFault
        (lines.results_line (reader_of draft.old) tokens.now)) }
{
    with_results(draft, number_line(MOST_RESULTS, tokens))
}

fn with_results(draft: &mut Draft, results: Result<u32, Kind>) -> Result<(), LineError>
    ensures step { OnOk result (lines.with_results (reader_of draft.old) results
        ≡ Ok (reader_of draft.new)) }
    ensures fault { IfErr result (lines.IsFault
        (lines.with_results (reader_of draft.old) results)) }
{
    match results {
        Ok(results) => {
            draft.script.results = results;
            behind(Part::Results, draft);
            Ok(())
        }
        Err(kind) => Err(LineError::Fault(kind)),
    }
}

/// A fault that was found, or else that a declared name is reserved.
fn or_reserved(name: &[u8], kind: Option<Kind>) -> Option<Kind>
    ensures { result ≡ lines.or_reserved name.now kind }
{
    match kind {
        Some(kind) => Some(kind),
        None if is_reserved(name) => Some(Kind::Reserved),
        None => None,
    }
}

/// Takes an entity's line; `followed` says whether the next line is a column's.
pub fn entity_line(
    alloc: Global,
    draft: &mut Draft,
    followed: bool,
    tokens: &[Token],
) -> Result<(), LineError>
    ensures step { OnOk result (lines.entity_line (reader_of draft.old) followed tokens.now
        ≡ Ok (reader_of draft.new)) }
    ensures fault { IfErr result (lines.IsFault
        (lines.entity_line (reader_of draft.old) followed tokens.now)) }
{
    if !is_entity_line(tokens) {
        return Err(LineError::Fault(Kind::Words));
    }
    let kind = entity_kind(draft.script.mapping.as_slice(), followed, tokens);
    new_entity(alloc, draft, tokens, or_reserved(name_in(tokens), kind))
}

/// Begins an entity, whose columns come next, unless its line has this fault.
fn new_entity(
    alloc: Global,
    draft: &mut Draft,
    tokens: &[Token],
    kind: Option<Kind>,
) -> Result<(), LineError>
    ensures step { OnOk result (lines.new_entity (reader_of draft.old) tokens.now kind
        ≡ Ok (reader_of draft.new)) }
    ensures fault { IfErr result (lines.IsFault
        (lines.new_entity (reader_of draft.old) tokens.now kind)) }
{
    if let Some(kind) = kind {
        return Err(LineError::Fault(kind));
    }
    draft.entity = entity(alloc, tokens)?;
    behind(Part::Entities, draft);
    Ok(())
}

/// Takes a column's line. It is of the entity whose columns are being read.
pub fn column_line(alloc: Global, draft: &mut Draft, tokens: &[Token]) -> Result<(), LineError>
    ensures step { OnOk result (lines.column_line (reader_of draft.old) draft.old.entity tokens.now
        ≡ Ok (reader_of draft.new)) }
    ensures fault { IfErr result (lines.IsFault
        (lines.column_line (reader_of draft.old) draft.old.entity tokens.now)) }
{
    let Some(entity) = draft.entity.take() else {
        return Err(LineError::Fault(Kind::Line));
    };
    let entity = more_columns(alloc, draft.script.mapping.as_slice(), entity, tokens)?;
    draft.entity = Some(entity);
    Ok(())
}

/// The entity with the column of this line.
fn more_columns(
    alloc: Global,
    mapping: &[EntityDef],
    entity: EntityDef,
    tokens: &[Token],
) -> Result<EntityDef, LineError>
    ensures step { IfOk result (λ e. lines.more_columns mapping.now entity tokens.now ≡ Ok e) }
    ensures fault { IfErr result (lines.IsFault
        (lines.more_columns mapping.now entity tokens.now)) }
{
    if !is_column_line(tokens) {
        return Err(LineError::Fault(Kind::Words));
    }
    let kind = column_kind(mapping, &entity, tokens);
    match or_reserved(name_in(tokens), kind) {
        Some(kind) => Err(LineError::Fault(kind)),
        None => Ok(with_column(alloc, mapping, entity, tokens)?),
    }
}

/// A row's line.
pub fn row_line(alloc: Global, draft: &mut Draft, tokens: &[Token]) -> Result<(), LineError>
    ensures step { OnOk result (lines.row_line (reader_of draft.old) tokens.now
        ≡ Ok (reader_of draft.new)) }
    ensures fault { IfErr result (lines.IsFault (lines.row_line (reader_of draft.old) tokens.now)) }
{
    match row(alloc, &draft.script.mapping, &draft.rows, tokens) {
        Ok(row) => with_row(draft, row),
        Err(StatementError::Fault(kind)) => Err(LineError::Fault(kind)),
        Err(StatementError::NoMemory) => Err(LineError::NoMemory),
    }
}

fn with_row(draft: &mut Draft, row: (Key, Row)) -> Result<(), LineError>
    ensures step { OnOk result (lines.with_row (reader_of draft.old) (Ok row)
        ≡ Ok (reader_of draft.new)) }
    ensures fault { IfErr result (lines.IsFault (lines.with_row (reader_of draft.old) (Ok row))) }
{
    if !has_room(draft.rows.len(), MOST_ROWS) {
        return Err(LineError::Fault(Kind::Many));
    }
    draft.rows.push(row)?;
    behind(Part::Rows, draft);
    Ok(())
}

/// A query's line.
pub fn query_line(alloc: Global, draft: &mut Draft, tokens: &[Token]) -> Result<(), LineError>
    ensures step { OnOk result (lines.query_line (reader_of draft.old) tokens.now
        ≡ Ok (reader_of draft.new)) }
    ensures fault { IfErr result (lines.IsFault
        (lines.query_line (reader_of draft.old) tokens.now)) }
{
    let is_taken = is_query_taken(draft, tokens);
    match check(alloc, &draft.script.mapping, tokens) {
        Ok(query) => with_query(draft, is_taken, query),
        Err(CriteriaError::Fault(kind)) => Err(LineError::Fault(or_taken(is_taken, kind))),
        Err(CriteriaError::NoMemory) => Err(LineError::NoMemory),
    }
}

/// Whether the name that a query's line declares is taken.
#[tactic(auto, using(crate::proofs::Queries::has_said))]
fn is_query_taken(draft: &Draft, tokens: &[Token]) -> bool
    ensures { result ≡ lines.is_taken (reader_of draft.now) tokens.now }
{
    has_query(draft.script.queries.as_slice(), name_in(tokens))
}

fn has_query(queries: &[Query], name: &[u8]) -> bool
    ensures { result ≡ list_any (λ q. bytes_eq q.name name.now) queries.now }
{
    queries.iter().any(|query| query.name.as_slice() == name)
}

/// What is wrong with a query's line: this fault, or else that its name is taken. A fault of the line's form comes
/// first.
fn or_taken(is_taken: bool, kind: Kind) -> Kind
    ensures { result ≡ lines.or_taken is_taken kind }
{
    if is_taken && !is_of_form(kind) {
        Kind::Taken
    } else {
        kind
    }
}

/// Whether a fault is one of a line's form, which is told before that its name is taken.
fn is_of_form(kind: Kind) -> bool
    ensures { result ≡ lines.is_of_form kind }
{
    matches!(kind, Kind::Words | Kind::Reserved)
}

#[tactic(auto, using(crate::proofs::Queries::one_more_said, crate::proofs::Queries::as_many_said))]
fn with_query(draft: &mut Draft, is_taken: bool, query: Query) -> Result<(), LineError>
    ensures step { OnOk result (lines.with_query (reader_of draft.old) is_taken (Ok (said query))
        ≡ Ok (reader_of draft.new)) }
    ensures fault { IfErr result (lines.IsFault
        (lines.with_query (reader_of draft.old) is_taken (Ok (said query)))) }
{
    if is_taken {
        return Err(LineError::Fault(Kind::Taken));
    }
    if !has_room(draft.script.queries.len(), MOST_QUERIES) {
        return Err(LineError::Fault(Kind::Many));
    }
    draft.script.queries.push(query)?;
    behind(Part::Queries, draft);
    Ok(())
}
