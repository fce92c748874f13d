// A condition that stands alone, without a query: that of a bulk line.
ghost use Rattle.hib_base.specs.Queries.{parts_of};
ghost use Rattle.hib_criteria.specs.Alone as alone;
ghost use Rattle.std.specs.Prelude.{◌≡◌, IfOk, IfErr, Ok};

use crate::conditions::condition;
use crate::errors::CriteriaError;
use crate::forms::{Draft, Form, Place, chosen, empty, step};
use crate::queries::kind;
use hib_base::{Cond, EntityDef, EntityNo, Kind, Mapping, Seq};
use hib_lex::Token;
use std::alloc::{AllocError, Global};

/// Whether all parentheses are closed, so that the condition is over.
fn is_whole(place: &Place) -> bool
    ensures { result ≡ alone.is_whole place.now }
{
    matches!(place, Place::Clauses)
}

/// What was read after one more token; none if the token can't stand there, or the condition is over.
fn step_in(
    alloc: Global,
    mapping: &[EntityDef],
    draft: Draft,
    token: &Token,
) -> Result<Option<Draft>, AllocError>
    ensures { IfOk result (λ d. d ≡ alone.step_in mapping.now draft token.now) }
{
    if is_whole(&draft.place) {
        return Ok(None);
    }
    step(alloc, mapping, draft, token)
}

/// What the tokens of a condition say; none if they haven't the form of one.
#[tactic(auto, using(crate::proofs::Lines::alone_next, crate::proofs::Lines::alone_done))]
fn read_alone(
    alloc: Global,
    mapping: &[EntityDef],
    entity: Option<EntityNo>,
    tokens: &[Token],
) -> Result<Option<Form>, AllocError>
    ensures { IfOk result (λ f. f
        ≡ alone.form_in mapping.now (alone.start entity) tokens.now) }
{
    let mut draft = Draft {
        form: chosen(empty(alloc), entity),
        frames: Seq::new(alloc),
        place: Place::Condition,
    };
    for token in tokens {
        draft = match step_in(alloc, mapping, draft, token)? {
            Some(next) => next,
            None => return Ok(None),
        };
    }
    Ok(if_whole(draft))
}

/// What was read, if the condition is over.
fn if_whole(draft: Draft) -> Option<Form>
    ensures { result ≡ alone.if_whole draft.form draft.place }
{
    let Draft {
        form,
        frames: _,
        place,
    } = draft;
    if is_whole(&place) { Some(form) } else { None }
}

/// The condition of what was read, or the first thing that is wrong.
fn judged(alloc: Global, form: Form) -> Result<Cond, CriteriaError>
    ensures condition { IfOk result (λ c. alone.judged_form form ≡ Ok (parts_of c)) }
    ensures fault { IfErr result (alone.IsWhy (alone.judged_form form)) }
{
    let kind = kind(&form);
    let Form { nodes, .. } = form;
    match condition(alloc, nodes)? {
        None => Err(CriteriaError::Fault(Kind::Words)),
        Some(condition) => match kind {
            Some(kind) => Err(CriteriaError::Fault(kind)),
            None => Ok(condition),
        },
    }
}

/// The condition that tokens are, over the rows of an entity of a mapping. Of an entity that isn't known no column is.
///
/// Errors: `Fault` exactly if they are none, with the first kind that they have of words, unknown, type and depth, each
/// looked for over the whole condition. `NoMemory` if there is none left. Nothing is changed.
pub fn check_condition(
    alloc: Global,
    mapping: &Mapping,
    entity: Option<EntityNo>,
    tokens: &[Token],
) -> Result<Cond, CriteriaError>
    ensures condition { IfOk result (λ c. alone.condition_of mapping.now entity tokens.now
        ≡ Ok (parts_of c)) }
    ensures fault { IfErr result (alone.IsWhy (alone.condition_of mapping.now entity tokens.now)) }
{
    match read_alone(alloc, mapping.as_slice(), entity, tokens)? {
        Some(form) => judged(alloc, form),
        None => Err(CriteriaError::Fault(Kind::Words)),
    }
}
