// What stands after the condition of a query line, token by token. A `step_...` takes one token at its place and
// answers where the line goes on; none if the token can't stand there.
ghost use Rattle.hib_criteria.specs.Form as lines;
ghost use Rattle.std.specs.Prelude.{◌≡◌, IfOk};

use crate::forms::{Draft, Form, Frames, MOST_LIMIT, Place, at};
use crate::terms::known;
use hib_base::{EntityDef, Select, Sort};
use hib_columns::{Column, Found, columns_of, place_or_first, plain_column};
use hib_lex::{Token, is_the_word};
use hib_mapping::{is_number, is_within, is_word, number_up_to, word_bytes};
use std::alloc::AllocError;

/// The most rows that a query passes over.
const MOST_OFFSET: u32 = 1_000_000;

/// Whether an offset or a limit has come.
fn has_pages(form: &Form) -> bool
    ensures { result ≡ lines.has_pages form.now }
{
    form.offset.is_some() || form.limit.is_some()
}

/// Takes the first word of a clause after `where`.
pub fn step_clauses(form: Form, frames: Frames, token: &Token) -> Option<Draft>
    ensures { result ≡ lines.step_clauses form frames token.now }
{
    if is_the_word(token, b"order") {
        return unless(has_pages(&form), form, frames, Place::Order);
    }
    if is_the_word(token, b"offset") {
        return unless(has_pages(&form), form, frames, Place::Offset);
    }
    if is_the_word(token, b"limit") {
        return unless(form.limit.is_some(), form, frames, Place::Limit);
    }
    unless(!is_the_word(token, b"select"), form, frames, Place::Select)
}

/// The line, going on at this place; none if `is_there` says that something stands against it.
fn unless(is_there: bool, form: Form, frames: Frames, place: Place) -> Option<Draft>
    ensures { result ≡ lines.unless is_there (lines.at form frames place) }
{
    if is_there {
        None
    } else {
        at(form, frames, place)
    }
}

/// Takes what stands after the entity's name: `where`, or the first word of a clause.
pub fn step_chosen(form: Form, frames: Frames, token: &Token) -> Option<Draft>
    ensures { result ≡ lines.step_chosen form frames token.now }
{
    if is_the_word(token, b"where") {
        at(form, frames, Place::Condition)
    } else {
        step_clauses(form, frames, token)
    }
}

/// Whether a word begins a clause that may follow an order.
fn is_clause(token: &Token) -> bool
    ensures { result ≡ lines.is_clause token.now }
{
    is_the_word(token, b"offset") || is_the_word(token, b"limit") || is_the_word(token, b"select")
}

/// Takes a column of an order.
pub fn step_order(mapping: &[EntityDef], form: Form, frames: Frames, token: &Token) -> Option<Draft>
    ensures { result ≡ lines.step_order mapping.now form frames token.now }
{
    if !is_word(token) || is_clause(token) {
        return None;
    }
    let entity = form.entity;
    let found = plain_column(columns_of(mapping, entity), word_bytes(token));
    sorted(form, frames, found)
}

/// The line after this column of an order; if it isn't known, that is noted.
fn sorted(form: Form, frames: Frames, found: Option<Found>) -> Option<Draft>
    ensures { result ≡ lines.sorted form frames found }
{
    let place = Place::Sorted(place_or_first(found));
    at(known(form, found.is_none()), frames, place)
}

/// Takes a further column of an order, or the first word of a clause after it.
pub fn step_sorting(
    mapping: &[EntityDef],
    form: Form,
    frames: Frames,
    token: &Token,
) -> Option<Draft>
    ensures { result ≡ lines.step_sorting mapping.now form frames token.now }
{
    if is_clause(token) {
        step_clauses(form, frames, token)
    } else {
        step_order(mapping, form, frames, token)
    }
}

/// Takes what stands after a column of an order.
pub fn step_sorted(
    mapping: &[EntityDef],
    form: Form,
    frames: Frames,
    column: u16,
    token: &Token,
) -> Result<Option<Draft>, AllocError>
    ensures { IfOk result (λ d. d ≡ lines.step_sorted mapping.now form frames column token.now) }
{
    if is_the_word(token, b"desc") {
        let form = with_sort(form, column, true)?;
        return Ok(at(form, frames, Place::Sorting));
    }
    let form = with_sort(form, column, false)?;
    Ok(step_sorting(mapping, form, frames, token))
}

/// Adds a column to the order.
fn with_sort(mut form: Form, column: u16, desc: bool) -> Result<Form, AllocError>
    ensures { IfOk result (λ f. f ≡ lines.with_sort form column desc) }
{
    form.order.push(Sort { column, desc })?;
    Ok(form)
}

/// Takes the number of an offset. If it is out of its range, that is noted.
pub fn step_offset(mut form: Form, frames: Frames, token: &Token) -> Option<Draft>
    ensures { result ≡ lines.step_offset form frames token.now }
{
    if !is_number(token) {
        return None;
    }
    form.offset = Some(number_up_to(token, MOST_OFFSET));
    form.bad_number = form.bad_number || !is_within(token, 0, MOST_OFFSET);
    at(form, frames, Place::Clauses)
}

/// Takes the number of a limit. If it is out of its range, that is noted.
pub fn step_limit(mut form: Form, frames: Frames, token: &Token) -> Option<Draft>
    ensures { result ≡ lines.step_limit form frames token.now }
{
    if !is_number(token) {
        return None;
    }
    form.limit = Some(number_up_to(token, MOST_LIMIT));
    form.bad_number = form.bad_number || !is_within(token, 1, MOST_LIMIT);
    at(form, frames, Place::Clauses)
}

/// Takes what is selected.
pub fn step_select(
    mapping: &[EntityDef],
    mut form: Form,
    frames: Frames,
    token: &Token,
) -> Option<Draft>
    ensures { result ≡ lines.step_select mapping.now form frames token.now }
{
    if is_the_word(token, b"ids") {
        form.select = Select::Ids;
        return at(form, frames, Place::Over);
    }
    if is_the_word(token, b"count") {
        form.select = Select::Count;
        return unless(
            has_pages(&form) || is_sorted(&form),
            form,
            frames,
            Place::Over,
        );
    }
    if !is_word(token) {
        return None;
    }
    let entity = form.entity;
    let found = plain_column(columns_of(mapping, entity), word_bytes(token));
    select_column(form, frames, found)
}

/// The line after this column was selected; if it isn't known, that is noted.
fn select_column(mut form: Form, frames: Frames, found: Option<Found>) -> Option<Draft>
    ensures { result ≡ lines.select_column form frames found }
{
    form.unknown = form.unknown || found.is_none();
    form.select = Select::Column(place_or_first(found));
    at(form, frames, Place::Over)
}

/// Whether the line has an order.
fn is_sorted(form: &Form) -> bool
    ensures { result ≡ lines.is_sorted form.now }
{
    form.order.len() > 0
}
