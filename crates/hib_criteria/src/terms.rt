// The conditions of a query line, token by token. A `step_...` takes one token at its place and answers where the line
// goes on; none if the token can't stand there. Frames are the open parentheses: each says what its own still awaits,
// which is two conditions, one, or its closing.
ghost use Rattle.hib_criteria.specs.Form as lines;
ghost use Rattle.std.specs.Prelude.{◌≡◌, ◌∷◌, IfOk};

use crate::forms::{Draft, Form, Frame, Frames, Place, Test, at};
use hib_base::{Cell, Cells, EntityDef, Node, Op, Seq};
use hib_columns::{
    Column, columns_of, is_comparable, is_path, is_typed, named_column, path_or_first,
};
use hib_lex::{Token, is_the_word};
use hib_mapping::cell;
use std::alloc::{AllocError, Global};

/// The deepest nesting of a condition.
const MOST_DEPTH: usize = 16;

/// The most cells of `in`.
const MOST_CELLS: usize = 64;

/// Takes a parenthesis of a condition.
pub fn step_condition(
    alloc: Global,
    form: Form,
    frames: Frames,
    token: &Token,
) -> Result<Option<Draft>, AllocError>
    ensures { IfOk result (λ d. d ≡ lines.step_condition form frames token.now) }
{
    match token {
        Token::Left => opened(alloc, form, frames.as_slice()),
        Token::Right => closed(alloc, form, frames.as_slice()),
        _ => Ok(None),
    }
}

/// Takes an opening parenthesis, if a condition may begin here.
fn opened(alloc: Global, form: Form, frames: &[Frame]) -> Result<Option<Draft>, AllocError>
    ensures { IfOk result (λ d. d ≡ lines.opened form frames.now) }
{
    let form = deeper(form, frames);
    let frames = match frames {
        [] => Seq::new(alloc),
        [Frame::Two, rest @ ..] => onto(alloc, Frame::One, rest)?,
        [Frame::One, rest @ ..] => onto(alloc, Frame::Closing, rest)?,
        [Frame::Closing, ..] => return Ok(None),
    };
    Ok(at(form, frames, Place::Operator))
}

/// Notes that a condition is nested too deeply, if one more parenthesis makes it so.
fn deeper(mut form: Form, frames: &[Frame]) -> Form
    ensures { result ≡ lines.deeper form frames.now }
{
    form.deep = form.deep || frames.len() >= MOST_DEPTH;
    form
}

/// These frames, with one more inside them.
fn onto(alloc: Global, frame: Frame, frames: &[Frame]) -> Result<Frames, AllocError>
    ensures { IfOk result (λ s. s ≡ frame ∷ frames.now) }
{
    let mut all = Seq::new(alloc);
    all.push(frame)?;
    all.append(frames)?;
    Ok(all)
}

/// Takes a closing parenthesis, if the innermost one that is open awaits it.
fn closed(alloc: Global, form: Form, frames: &[Frame]) -> Result<Option<Draft>, AllocError>
    ensures { IfOk result (λ d. d ≡ lines.closed form frames.now) }
{
    match frames {
        [Frame::Closing, rest @ ..] => {
            let rest = Seq::from_vec(rest.to_vec(alloc)?);
            let place = behind(rest.as_slice());
            Ok(at(form, rest, place))
        }
        _ => Ok(None),
    }
}

/// Where the line goes on after a closing parenthesis.
fn behind(frames: &[Frame]) -> Place
    ensures { result ≡ lines.behind frames.now }
{
    match frames {
        [] => Place::Clauses,
        [_, ..] => Place::Condition,
    }
}

/// Takes an operator, after an opening parenthesis.
pub fn step_operator(
    alloc: Global,
    form: Form,
    frames: Frames,
    token: &Token,
) -> Result<Option<Draft>, AllocError>
    ensures { IfOk result (λ d. d ≡ lines.step_operator form frames token.now) }
{
    if is_the_word(token, b"and") {
        return joined(alloc, form, Node::And, Frame::Two, frames);
    }
    if is_the_word(token, b"or") {
        return joined(alloc, form, Node::Or, Frame::Two, frames);
    }
    if is_the_word(token, b"not") {
        return joined(alloc, form, Node::Not, Frame::One, frames);
    }
    if is_the_word(token, b"in") {
        return Ok(at(form, frames, Place::Subject(Test::Among)));
    }
    Ok(compared(form, frames, op(token)))
}

/// Takes an operator that joins conditions, of which the frame says how many.
fn joined(
    alloc: Global,
    mut form: Form,
    node: Node,
    frame: Frame,
    frames: Frames,
) -> Result<Option<Draft>, AllocError>
    ensures { IfOk result (λ d. d ≡ lines.at (lines.with_node form node)
        (frame ∷ frames) Place.Condition) }
{
    form.nodes.push(node)?;
    let frames = onto(alloc, frame, frames.as_slice())?;
    Ok(at(form, frames, Place::Condition))
}

/// The operator of a comparison that a word is.
fn op(token: &Token) -> Option<Op>
    ensures { result ≡ lines.op_of token.now }
{
    if is_the_word(token, b"eq") {
        Some(Op::Eq)
    } else if is_the_word(token, b"ne") {
        Some(Op::Ne)
    } else if is_the_word(token, b"lt") {
        Some(Op::Lt)
    } else if is_the_word(token, b"le") {
        Some(Op::Le)
    } else if is_the_word(token, b"gt") {
        Some(Op::Gt)
    } else if is_the_word(token, b"ge") {
        Some(Op::Ge)
    } else {
        None
    }
}

/// Takes the operator of a comparison, if there is one.
fn compared(form: Form, frames: Frames, op: Option<Op>) -> Option<Draft>
    ensures { result ≡ lines.compared form frames op }
{
    match op {
        Some(op) => at(form, frames, Place::Subject(Test::Compare(op))),
        None => None,
    }
}

/// Takes a path, after an operator.
pub fn step_subject(
    alloc: Global,
    mapping: &[EntityDef],
    form: Form,
    frames: Frames,
    test: Test,
    token: &Token,
) -> Option<Draft>
    ensures { result ≡ lines.step_subject mapping.now form frames test token.now }
{
    if !is_path(token) {
        return None;
    }
    let entity = form.entity;
    let column = named_column(mapping, columns_of(mapping, entity), token);
    subject(alloc, form, frames, test, column)
}

/// Takes the column that is tested; if it isn't known, that is noted.
fn subject(
    alloc: Global,
    form: Form,
    frames: Frames,
    test: Test,
    column: Option<Column>,
) -> Option<Draft>
    ensures { result ≡ lines.subject form frames test column }
{
    let form = known(form, column.is_none());
    match test {
        Test::Compare(op) => at(form, frames, Place::Operand(op, column)),
        Test::Among => at(form, frames, Place::Operands(column, Seq::new(alloc))),
    }
}

/// Notes that a column isn't known, if this one is missing.
pub fn known(mut form: Form, is_missing: bool) -> Form
    ensures { result ≡ lines.known form is_missing }
{
    form.unknown = form.unknown || is_missing;
    form
}

/// Takes the cell that a column is compared with.
pub fn step_operand(
    alloc: Global,
    form: Form,
    frames: Frames,
    op: Op,
    column: Option<Column>,
    token: &Token,
) -> Result<Option<Draft>, AllocError>
    ensures { IfOk result (λ d. d ≡ lines.step_operand form frames op column token.now) }
{
    let Some(cell) = cell(alloc, token)? else {
        return Ok(None);
    };
    let form = with_test(form, op, column, cell)?;
    let frames = onto(alloc, Frame::Closing, frames.as_slice())?;
    Ok(at(form, frames, Place::Condition))
}

/// Adds a comparison to the parts. If the cell can't be compared so with the column's, that is noted.
fn with_test(mut form: Form, op: Op, column: Option<Column>, cell: Cell) -> Result<Form, AllocError>
    ensures { IfOk result (λ f. f ≡ lines.with_test form op column cell) }
{
    let is_right = is_typed(&column, &cell) && is_comparable(op, &column);
    form.mistyped = form.mistyped || !is_right;
    form.nodes.push(Node::Test {
        op,
        path: path_or_first(column),
        cell,
    })?;
    Ok(form)
}

/// Takes one more cell of `in`, or its end.
pub fn step_operands(
    alloc: Global,
    form: Form,
    frames: Frames,
    column: Option<Column>,
    cells: Seq<Cell>,
    token: &Token,
) -> Result<Option<Draft>, AllocError>
    ensures { IfOk result (λ d. d ≡ lines.step_operands form frames column cells token.now) }
{
    match token {
        Token::Right => among(form, frames, column, cells),
        _ => one_more(form, frames, column, cells, cell(alloc, token)?),
    }
}

/// Takes the end of `in`, if it has a cell.
fn among(
    form: Form,
    frames: Frames,
    column: Option<Column>,
    cells: Seq<Cell>,
) -> Result<Option<Draft>, AllocError>
    ensures { IfOk result (λ d. d ≡ lines.among form frames column cells) }
{
    if is_none_of(cells.as_slice()) {
        return Ok(None);
    }
    let form = with_among(form, column, cells)?;
    let place = behind(frames.as_slice());
    Ok(at(form, frames, place))
}

/// Whether there is no cell.
fn is_none_of(cells: &[Cell]) -> bool
    ensures { result ≡ lines.is_empty cells.now }
{
    match cells {
        [] => true,
        [_, ..] => false,
    }
}

/// Adds to the parts that a column's cell is one of these. If these are too many, that is noted.
fn with_among(mut form: Form, column: Option<Column>, cells: Seq<Cell>) -> Result<Form, AllocError>
    ensures { IfOk result (λ f. f ≡ lines.with_among form column cells) }
{
    form.deep = form.deep || cells.len() > MOST_CELLS;
    form.nodes.push(Node::Among {
        path: path_or_first(column),
        cells: Cells::from_vec(cells.into_vec())?,
    })?;
    Ok(form)
}

/// Takes one more cell of `in`; none if the token was no cell.
fn one_more(
    form: Form,
    frames: Frames,
    column: Option<Column>,
    cells: Seq<Cell>,
    cell: Option<Cell>,
) -> Result<Option<Draft>, AllocError>
    ensures { IfOk result (λ d. d ≡ lines.one_more form frames column cells cell) }
{
    match cell {
        Some(cell) => with_operand(form, frames, column, cells, cell),
        None => Ok(None),
    }
}

/// Takes one more cell of `in`. If it isn't of the column's type, that is noted.
fn with_operand(
    mut form: Form,
    frames: Frames,
    column: Option<Column>,
    mut cells: Seq<Cell>,
    cell: Cell,
) -> Result<Option<Draft>, AllocError>
    ensures { IfOk result (λ d. d ≡ lines.with_operand form frames column cells cell) }
{
    let is_right = is_typed(&column, &cell);
    form.mistyped = form.mistyped || !is_right;
    cells.push(cell)?;
    Ok(at(form, frames, Place::Operands(column, cells)))
}
