// The query that a line is, or its first fault.
ghost use Rattle.hib_criteria.specs.Query as query;
ghost use Rattle.std.specs.Prelude.{◌≡◌, IfOk, IfErr};

use crate::conditions::condition;
use crate::errors::CriteriaError;
use crate::forms::{Form, MOST_LIMIT, Nodes, read_form};
use hib_base::{Cond, EntityNo, Kind, Mapping, Query};
use hib_lex::Token;
use hib_mapping::is_reserved;
use std::alloc::Global;

/// The query of a query line, over the entities and columns of a mapping.
///
/// Errors: `Fault` exactly if the line is no query, with the first kind that it has of words, reserved, unknown,
/// number, type and depth; those of a condition are looked for over the whole condition. `NoMemory` if there is none
/// left. Nothing is changed.
pub fn check(alloc: Global, mapping: &Mapping, line: &[Token]) -> Result<Query, CriteriaError>
    ensures query { IfOk result (λ q. query.query_of mapping.now line.now ≡ Ok (query.said q)) }
    ensures fault { IfErr result (query.IsWhy (query.query_of mapping.now line.now)) }
{
    match read_form(alloc, mapping.as_slice(), line)? {
        Some(form) => judged(alloc, form),
        None => Err(CriteriaError::Fault(Kind::Words)),
    }
}

/// The query of what a line says, or the first thing that is wrong.
fn judged(alloc: Global, form: Form) -> Result<Query, CriteriaError>
    ensures query { IfOk result (λ q. query.judged form ≡ Ok (query.said q)) }
    ensures fault { IfErr result (query.IsWhy (query.judged form)) }
{
    let kind = kind(&form);
    let Form {
        name,
        cached,
        entity,
        nodes,
        order,
        offset,
        limit,
        select,
        unknown: _,
        bad_number: _,
        mistyped: _,
        deep: _,
    } = form;
    let condition = whole(alloc, nodes)?;
    if let Some(kind) = kind {
        return Err(CriteriaError::Fault(kind));
    }
    Ok(Query {
        name,
        cached,
        entity: entity.unwrap_or(EntityNo(0)),
        condition,
        order,
        offset: offset.unwrap_or(0),
        limit: limit.unwrap_or(MOST_LIMIT),
        select,
    })
}

/// The condition of these parts; none if there are no parts.
fn whole(alloc: Global, nodes: Nodes) -> Result<Option<Cond>, CriteriaError>
    ensures query { IfOk result (query.IsWhole nodes) }
    ensures fault { IfErr result (query.IsTorn nodes) }
{
    if nodes.len() == 0 {
        return Ok(None);
    }
    match condition(alloc, nodes)? {
        Some(condition) => Ok(Some(condition)),
        None => Err(CriteriaError::Fault(Kind::Words)),
    }
}

/// The first thing that was noted as wrong with a line, if anything.
pub fn kind(form: &Form) -> Option<Kind>
    ensures { result ≡ query.kind_of form.now }
{
    if is_reserved(form.name.as_slice()) {
        Some(Kind::Reserved)
    } else if form.unknown {
        Some(Kind::Unknown)
    } else if form.bad_number {
        Some(Kind::Number)
    } else if form.mistyped {
        Some(Kind::CellType)
    } else if form.deep {
        Some(Kind::Depth)
    } else {
        None
    }
}
