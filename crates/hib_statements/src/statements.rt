// The statement that a line is, or its first fault. Each kind of line has a function that looks at its form, and one
// that finds what it names.
ghost use Rattle.hib_statements.specs.Statements as lines;
ghost use Rattle.hib_mapping.specs.Parts as names;
ghost use Rattle.std.specs.Prelude.{◌≡◌, IfOk, IfErr, position, bytes_eq};

use crate::errors::StatementError;
use crate::parts::{Pairs, are_typed, cells, is_key, key, read_pairs};
use hib_base::{
    Cells, ColumnDef, EntityDef, Key, Kind, Mapping, Mode, Queries, Query, QueryNo, Statement,
};
use hib_columns::columns_of;
use hib_lex::{Token, begins, is_the_word};
use hib_mapping::{entity_number, is_word, word_bytes};
use std::alloc::Global;

/// The statement of a line, over a mapping and the queries that were declared.
///
/// Errors: `Fault` exactly if the line is no statement, with the first kind that it has of line, words, taken,
/// unknown, number, cells and type; `NoMemory` if there is none left. Nothing is changed.
pub fn statement(
    alloc: Global,
    mapping: &Mapping,
    queries: &Queries,
    line: &[Token],
) -> Result<Statement, StatementError>
    ensures said { IfOk result (λ s. lines.statement_of mapping.now
        (lines.names_of queries.now) line.now ≡ Ok s) }
    ensures fault { IfErr result (lines.IsWhy
        (lines.statement_of mapping.now (lines.names_of queries.now) line.now)) }
{
    if begins(line, b"persist") {
        return persist(alloc, mapping.as_slice(), line);
    }
    if begins(line, b"set") {
        return set(alloc, mapping.as_slice(), line);
    }
    match plain_statement(mapping.as_slice(), queries.as_slice(), line) {
        Ok(statement) => Ok(statement),
        Err(kind) => Err(StatementError::Fault(kind)),
    }
}

/// The statement of a line that lists no cells.
fn plain_statement(
    mapping: &[EntityDef],
    queries: &[Query],
    line: &[Token],
) -> Result<Statement, Kind>
    ensures { result ≡ lines.plain_of mapping.now (lines.names_of queries.now) line.now }
{
    if begins(line, b"find") {
        find(mapping, line)
    } else if begins(line, b"remove") {
        remove(mapping, line)
    } else if begins(line, b"list") {
        list(queries, line)
    } else if begins(line, b"mode") {
        mode(line)
    } else if begins(line, b"flush") {
        alone(Statement::Flush, line)
    } else if begins(line, b"clear") {
        alone(Statement::Clear, line)
    } else if begins(line, b"commit") {
        alone(Statement::Commit, line)
    } else if begins(line, b"rollback") {
        alone(Statement::Rollback, line)
    } else {
        Err(Kind::Line)
    }
}

fn find(mapping: &[EntityDef], line: &[Token]) -> Result<Statement, Kind>
    ensures { result ≡ lines.find_of mapping.now line.now }
{
    match line {
        [_, name, id] if is_key(name, id) => found(key(mapping, name, id)),
        _ => Err(Kind::Words),
    }
}

fn found(key: Result<Key, Kind>) -> Result<Statement, Kind>
    ensures { result ≡ lines.found key }
{
    match key {
        Ok(key) => Ok(Statement::Find { key }),
        Err(kind) => Err(kind),
    }
}

fn remove(mapping: &[EntityDef], line: &[Token]) -> Result<Statement, Kind>
    ensures { result ≡ lines.remove_of mapping.now line.now }
{
    match line {
        [_, name, id] if is_key(name, id) => removed(key(mapping, name, id)),
        _ => Err(Kind::Words),
    }
}

fn removed(key: Result<Key, Kind>) -> Result<Statement, Kind>
    ensures { result ≡ lines.removed key }
{
    match key {
        Ok(key) => Ok(Statement::Remove { key }),
        Err(kind) => Err(kind),
    }
}

fn list(queries: &[Query], line: &[Token]) -> Result<Statement, Kind>
    ensures { result ≡ lines.list_of (lines.names_of queries.now) line.now }
{
    match line {
        [_, name] if is_word(name) => listed(query_number(queries, word_bytes(name))),
        _ => Err(Kind::Words),
    }
}

fn listed(query: Option<QueryNo>) -> Result<Statement, Kind>
    ensures { result ≡ lines.listed query }
{
    match query {
        Some(query) => Ok(Statement::List { query }),
        None => Err(Kind::Unknown),
    }
}

#[tactic(auto, using(crate::proofs::Names::position_of_names))]
fn query_number(queries: &[Query], name: &[u8]) -> Option<QueryNo>
    ensures { result ≡ lines.query_at (lines.names_of queries.now) name.now }
{
    query_no(query_position(queries, name)?)
}

/// The query at a place, if the place is small enough.
fn query_no(place: usize) -> Option<QueryNo>
    ensures { result ≡ names.small place }
{
    if place < 65536 {
        Some(QueryNo(place as u16))
    } else {
        None
    }
}

/// The place of the query of this name.
fn query_position(queries: &[Query], name: &[u8]) -> Option<usize>
    ensures { result ≡ position (λ q. bytes_eq q.name name.now) queries.now }
{
    queries
        .iter()
        .position(|query| query.name.as_slice() == name)
}

fn mode(line: &[Token]) -> Result<Statement, Kind>
    ensures { result ≡ lines.mode_of line.now }
{
    match line {
        [_, word] if is_word(word) => named_mode(word),
        _ => Err(Kind::Words),
    }
}

fn named_mode(word: &Token) -> Result<Statement, Kind>
    ensures { result ≡ lines.mode_named word.now }
{
    if is_the_word(word, b"normal") {
        Ok(Statement::Mode { mode: Mode::Normal })
    } else if is_the_word(word, b"ignore") {
        Ok(Statement::Mode { mode: Mode::Ignore })
    } else if is_the_word(word, b"get") {
        Ok(Statement::Mode { mode: Mode::Get })
    } else if is_the_word(word, b"put") {
        Ok(Statement::Mode { mode: Mode::Put })
    } else {
        Err(Kind::Unknown)
    }
}

/// The statement, if the line has one word and no more.
fn alone(statement: Statement, line: &[Token]) -> Result<Statement, Kind>
    ensures { result ≡ lines.alone statement line.now }
{
    match line {
        [_] => Ok(statement),
        _ => Err(Kind::Words),
    }
}

/// The columns of the entity of a name; none if there is no such entity.
pub fn named_columns<'a>(mapping: &'a [EntityDef], name: &Token) -> &'a [ColumnDef]
    ensures { result.now ≡ lines.named_columns mapping.now name.now }
{
    let entity = entity_number(mapping, word_bytes(name));
    columns_of(mapping, entity)
}

fn persist(
    alloc: Global,
    mapping: &[EntityDef],
    line: &[Token],
) -> Result<Statement, StatementError>
    ensures said { IfOk result (λ s. lines.persist_of mapping.now line.now ≡ Ok s) }
    ensures fault { IfErr result (lines.IsWhy (lines.persist_of mapping.now line.now)) }
{
    match line {
        [_, name, id, values @ ..] => persist_parts(alloc, mapping, name, id, values),
        _ => Err(StatementError::Fault(Kind::Words)),
    }
}

fn persist_parts(
    alloc: Global,
    mapping: &[EntityDef],
    name: &Token,
    id: &Token,
    values: &[Token],
) -> Result<Statement, StatementError>
    ensures said { IfOk result (λ s. lines.persist_parts mapping.now name.now id.now values.now
        ≡ Ok s) }
    ensures fault { IfErr result (lines.IsWhy
        (lines.persist_parts mapping.now name.now id.now values.now)) }
{
    if !is_key(name, id) {
        return Err(StatementError::Fault(Kind::Words));
    }
    let cells = cells(alloc, values)?;
    let columns = named_columns(mapping, name);
    judged(persisted(columns, key(mapping, name, id), cells))
}

/// A statement, or the fault of its line as this crate answers it.
fn judged(statement: Result<Statement, Kind>) -> Result<Statement, StatementError>
    ensures said { IfOk result (λ s. statement ≡ Ok s) }
    ensures fault { IfErr result (lines.IsWhy statement) }
{
    match statement {
        Ok(statement) => Ok(statement),
        Err(kind) => Err(StatementError::Fault(kind)),
    }
}

/// The persist of a key and its cells, if both are there.
fn persisted(
    columns: &[ColumnDef],
    key: Result<Key, Kind>,
    cells: Option<Cells>,
) -> Result<Statement, Kind>
    ensures { result ≡ lines.persisted columns.now key cells }
{
    match cells {
        Some(cells) => match key {
            Ok(key) => fitted(columns, key, cells),
            Err(kind) => Err(kind),
        },
        None => Err(Kind::Words),
    }
}

/// The persist, if its cells fit the columns.
fn fitted(columns: &[ColumnDef], key: Key, cells: Cells) -> Result<Statement, Kind>
    ensures { result ≡ lines.fitted columns.now key cells }
{
    if columns.len() != cells.len() {
        return Err(Kind::Cells);
    }
    if are_typed(columns, cells.as_slice()) {
        Ok(Statement::Persist { key, cells })
    } else {
        Err(Kind::CellType)
    }
}

fn set(alloc: Global, mapping: &[EntityDef], line: &[Token]) -> Result<Statement, StatementError>
    ensures said { IfOk result (λ s. lines.set_of mapping.now line.now ≡ Ok s) }
    ensures fault { IfErr result (lines.IsWhy (lines.set_of mapping.now line.now)) }
{
    match line {
        [_, name, id, rest @ ..] => set_parts(alloc, mapping, name, id, rest),
        _ => Err(StatementError::Fault(Kind::Words)),
    }
}

fn set_parts(
    alloc: Global,
    mapping: &[EntityDef],
    name: &Token,
    id: &Token,
    rest: &[Token],
) -> Result<Statement, StatementError>
    ensures said { IfOk result (λ s. lines.set_parts mapping.now name.now id.now rest.now ≡ Ok s) }
    ensures fault { IfErr result (lines.IsWhy
        (lines.set_parts mapping.now name.now id.now rest.now)) }
{
    if !is_key(name, id) {
        return Err(StatementError::Fault(Kind::Words));
    }
    let pairs = read_pairs(alloc, named_columns(mapping, name), rest)?;
    judged(set_from(key(mapping, name, id), pairs))
}

/// The set of a key by these pairs, unless a column stands twice in them or isn't known.
fn set_from(key: Result<Key, Kind>, pairs: Option<Pairs>) -> Result<Statement, Kind>
    ensures { result ≡ lines.set_from key pairs }
{
    match pairs {
        Some(pairs) => {
            if pairs.taken {
                return Err(Kind::Taken);
            }
            if pairs.unknown {
                return Err(Kind::Unknown);
            }
            set_at(key, pairs)
        }
        None => Err(Kind::Words),
    }
}

/// The set, if each cell has the type of its column.
fn set_at(key: Result<Key, Kind>, pairs: Pairs) -> Result<Statement, Kind>
    ensures { result ≡ lines.set_at key pairs }
{
    match key {
        Ok(_) if pairs.mistyped => Err(Kind::CellType),
        Ok(key) => Ok(Statement::Set {
            key,
            cells: pairs.sets,
        }),
        Err(kind) => Err(kind),
    }
}
