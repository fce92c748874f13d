// What a query line says, read token by token. Its `Form` collects what was said, and notes faults that are told only
// if the whole line has the form of one. A `step_...` takes one token at its place.
ghost use Rattle.hib_criteria.specs.Form as lines;
ghost use Rattle.std.specs.Prelude.{◌≡◌, IfOk};

use crate::clauses::{
    step_chosen, step_clauses, step_limit, step_offset, step_order, step_select, step_sorted,
    step_sorting,
};
use crate::terms::{step_condition, step_operand, step_operands, step_operator, step_subject};
use hib_base::{Cell, EntityDef, EntityNo, Node, Op, Select, Seq, Sorts, Text};
use hib_columns::Column;
use hib_lex::{Token, is_the_word};
use hib_mapping::{entity_number, is_word, word, word_bytes};
use std::alloc::{AllocError, Global};

/// The most rows that a query lists.
pub const MOST_LIMIT: u32 = 200;

/// The parts of a condition, each before the conditions that it joins.
pub type Nodes = Seq<Node>;

/// What an open parenthesis still awaits.
#[derive(Clone, Copy)]
pub enum Frame {
    /// Two conditions.
    Two,
    /// One condition.
    One,
    /// The closing parenthesis.
    Closing,
}

/// What open parentheses still await, the innermost first.
pub type Frames = Seq<Frame>;

/// What is asked of a column's cell.
#[derive(Clone, Copy)]
pub enum Test {
    /// That it compares so with a cell.
    Compare(Op),
    /// That it is one of some cells.
    Among,
}

/// What a line may go on with.
#[derive(Drop)]
pub enum Place {
    /// With `query`.
    Start,
    /// With the query's name.
    Name,
    /// With `cached` or `from`.
    Named,
    /// With `from`.
    Cached,
    /// With an entity's name.
    From,
    /// With `where` or another clause.
    Chosen,
    /// With a parenthesis of a condition.
    Condition,
    /// With an operator.
    Operator,
    /// With a path.
    Subject(Test),
    /// With the cell that a column is compared with.
    Operand(Op, Option<Column>),
    /// With one more cell of `in`, or its end.
    Operands(Option<Column>, Seq<Cell>),
    /// With a clause after `where`.
    Clauses,
    /// With the first column of an order.
    Order,
    /// With `desc`, a further column of an order or a clause after it.
    Sorted(u16),
    /// With a further column of an order or a clause after it.
    Sorting,
    /// With the number of an offset.
    Offset,
    /// With the number of a limit.
    Limit,
    /// With what is selected.
    Select,
    /// With nothing.
    Over,
}

/// What a query line says, and which faults it has.
#[derive(Drop)]
pub struct Form {
    /// The query's name.
    pub name: Text,
    /// Whether its results are to be kept.
    pub cached: bool,
    /// The entity that it reads; none if its name is not known, or not read yet.
    pub entity: Option<EntityNo>,
    /// The parts of its condition, each joint before what it joins.
    pub nodes: Nodes,
    /// The columns by which rows are ordered, the first one first.
    pub order: Sorts,
    /// How many rows are passed over.
    pub offset: Option<u32>,
    /// How many rows are answered at most.
    pub limit: Option<u32>,
    /// What is answered of each row.
    pub select: Select,
    /// An entity or a column isn't known.
    pub unknown: bool,
    /// A number is out of its range.
    pub bad_number: bool,
    /// A cell isn't of its column's type, or a bool is asked for its order.
    pub mistyped: bool,
    /// A condition is nested too deeply, or lists too many cells.
    pub deep: bool,
}

/// A query line as far as it was read.
#[derive(Drop)]
pub struct Draft {
    /// What the tokens so far say.
    pub form: Form,
    /// The parentheses that are open, and what each still awaits.
    pub frames: Frames,
    /// What the next token goes on with.
    pub place: Place,
}

/// What a query line says, or none if it hasn't the form of one.
#[tactic(auto, using(crate::proofs::Lines::form_next, crate::proofs::Lines::form_done))]
pub fn read_form(
    alloc: Global,
    mapping: &[EntityDef],
    tokens: &[Token],
) -> Result<Option<Form>, AllocError>
    ensures { IfOk result (λ f. f ≡ lines.form_of mapping.now tokens.now) }
{
    let mut draft = Draft {
        form: empty(alloc),
        frames: Seq::new(alloc),
        place: Place::Start,
    };
    for token in tokens {
        draft = match step(alloc, mapping, draft, token)? {
            Some(next) => next,
            None => return Ok(None),
        };
    }
    Ok(ended(draft))
}

/// What a line says of which nothing is read.
pub fn empty(alloc: Global) -> Form
    ensures { result ≡ lines.empty }
{
    Form {
        name: Seq::new(alloc),
        cached: false,
        entity: None,
        nodes: Seq::new(alloc),
        order: Seq::new(alloc),
        offset: None,
        limit: None,
        select: Select::Ids,
        unknown: false,
        bad_number: false,
        mistyped: false,
        deep: false,
    }
}

/// What was said, if the line has come to its end.
fn ended(draft: Draft) -> Option<Form>
    ensures { result ≡ lines.ended_at draft.form draft.place }
{
    let Draft {
        form,
        frames: _,
        place,
    } = draft;
    match place {
        Place::Over => Some(form),
        _ => None,
    }
}

/// The line after one more token; none if the token can't stand there.
pub fn step(
    alloc: Global,
    mapping: &[EntityDef],
    draft: Draft,
    token: &Token,
) -> Result<Option<Draft>, AllocError>
    ensures { IfOk result (λ d. d ≡ lines.step mapping.now draft token.now) }
{
    let Draft {
        form,
        frames,
        place,
    } = draft;
    match place {
        Place::Start => Ok(step_start(form, frames, token)),
        Place::Name => step_name(alloc, form, frames, token),
        Place::Named => Ok(step_named(form, frames, token)),
        Place::Cached => Ok(step_cached(form, frames, token)),
        Place::From => Ok(step_from(mapping, form, frames, token)),
        Place::Chosen => Ok(step_chosen(form, frames, token)),
        Place::Condition => step_condition(alloc, form, frames, token),
        Place::Operator => step_operator(alloc, form, frames, token),
        Place::Subject(test) => Ok(step_subject(alloc, mapping, form, frames, test, token)),
        Place::Operand(op, column) => step_operand(alloc, form, frames, op, column, token),
        Place::Operands(column, cells) => step_operands(alloc, form, frames, column, cells, token),
        Place::Clauses => Ok(step_clauses(form, frames, token)),
        Place::Order => Ok(step_order(mapping, form, frames, token)),
        Place::Sorted(column) => step_sorted(mapping, form, frames, column, token),
        Place::Sorting => Ok(step_sorting(mapping, form, frames, token)),
        Place::Offset => Ok(step_offset(form, frames, token)),
        Place::Limit => Ok(step_limit(form, frames, token)),
        Place::Select => Ok(step_select(mapping, form, frames, token)),
        Place::Over => Ok(None),
    }
}

/// The line, going on at this place.
pub fn at(form: Form, frames: Frames, place: Place) -> Option<Draft>
    ensures { result ≡ lines.at form frames place }
{
    Some(Draft {
        form,
        frames,
        place,
    })
}

fn step_start(form: Form, frames: Frames, token: &Token) -> Option<Draft>
    ensures { result ≡ lines.step_start form frames token.now }
{
    if is_the_word(token, b"query") {
        at(form, frames, Place::Name)
    } else {
        None
    }
}

fn step_name(
    alloc: Global,
    mut form: Form,
    frames: Frames,
    token: &Token,
) -> Result<Option<Draft>, AllocError>
    ensures { IfOk result (λ d. d ≡ lines.step_name form frames token.now) }
{
    if !is_word(token) {
        return Ok(None);
    }
    form.name = word(alloc, token)?;
    Ok(at(form, frames, Place::Named))
}

fn step_named(mut form: Form, frames: Frames, token: &Token) -> Option<Draft>
    ensures { result ≡ lines.step_named form frames token.now }
{
    if !is_the_word(token, b"cached") {
        return step_cached(form, frames, token);
    }
    form.cached = true;
    at(form, frames, Place::Cached)
}

fn step_cached(form: Form, frames: Frames, token: &Token) -> Option<Draft>
    ensures { result ≡ lines.step_cached form frames token.now }
{
    if is_the_word(token, b"from") {
        at(form, frames, Place::From)
    } else {
        None
    }
}

fn step_from(mapping: &[EntityDef], form: Form, frames: Frames, token: &Token) -> Option<Draft>
    ensures { result ≡ lines.step_from mapping.now form frames token.now }
{
    if !is_word(token) {
        return None;
    }
    let entity = entity_number(mapping, word_bytes(token));
    at(chosen(form, entity), frames, Place::Chosen)
}

/// Notes which entity the line reads, or that its name isn't known.
pub fn chosen(mut form: Form, entity: Option<EntityNo>) -> Form
    ensures { result ≡ lines.chosen form entity }
{
    form.unknown = form.unknown || entity.is_none();
    form.entity = entity;
    form
}
